// What was wanted in a script that is refused.
use crate::cursor::{begins, word_at};
use crate::earlier::{first_naming, record_dim, undefined};
use crate::fill::{Value, fill};
use crate::lines::{Line, Part, lines_of};
use crate::meetings::push_difference;
use crate::replay::{Refused, first_refused};
use crate::table::beside;
use crate::words::{named_at, push_missing, push_refused};
use nc_base::{LimitName, ScriptErr, ScriptKind};
use printed_text::script_line;
use std::alloc::{AllocError, Global};

/// What there is to say of a script that was refused by this line of the text; nothing where the line says it all.
pub(crate) fn push_script_note(
    out: &mut String,
    alloc: Global,
    script: &[u8],
    told: &[u8],
) -> Result<(), AllocError> {
    let lines = lines_of(alloc, script)?;
    push_first_refused(out, alloc, lines.as_slice(), told)
}

fn push_first_refused(
    out: &mut String,
    alloc: Global,
    lines: &[Line<'_>],
    told: &[u8],
) -> Result<(), AllocError> {
    if lines.is_empty() && told.ends_with(b": no head\n") {
        return out.push_str("the script is empty");
    }
    let Some(refused) = first_refused(alloc, lines)? else {
        return Ok(());
    };
    if is_told(alloc, &refused, told)? {
        push_note(out, alloc, lines, &refused)
    } else {
        Ok(())
    }
}

// Whether the text told this fault.
fn is_told(alloc: Global, refused: &Refused<'_>, told: &[u8]) -> Result<bool, AllocError> {
    if refused.kind == ScriptKind::NoEnd {
        return Ok(told.ends_with(b": no end\n"));
    }
    let Ok(line) = u32::try_from(refused.line.number) else {
        return Ok(false);
    };
    let fault = ScriptErr {
        line,
        kind: refused.kind,
    };
    match script_line(alloc, &fault) {
        Ok(line) => Ok(line.as_slice() == told),
        Err(_) => Err(AllocError),
    }
}

fn push_note(
    out: &mut String,
    alloc: Global,
    lines: &[Line<'_>],
    refused: &Refused<'_>,
) -> Result<(), AllocError> {
    let line = refused.line;
    match refused.kind {
        ScriptKind::UnknownWord
        | ScriptKind::BadNumber
        | ScriptKind::BadName
        | ScriptKind::BadText
        | ScriptKind::ExtraWord => push_refused(out, alloc, refused),
        ScriptKind::MissingWord => push_missing(out, refused),
        ScriptKind::TwiceNamed => push_twice(out, alloc, lines, refused),
        ScriptKind::UnknownName => push_undefined(out, lines, line),
        ScriptKind::BadRank => push_ranks(out, alloc, refused),
        ScriptKind::BadShape => push_shape(out, lines, line),
        ScriptKind::Mismatch(call, first, second) => {
            push_difference(out, lines, call, [first, second])
        }
        ScriptKind::NoHead => push_head(out, line),
        ScriptKind::NoEnd => push_end(out, line),
        ScriptKind::AfterEnd => push_after_end(out, lines, line),
        ScriptKind::Limit(name) => push_limit(out, line, name),
        ScriptKind::NotUtf8 | ScriptKind::Memory => Ok(()),
    }
}

fn push_twice(
    out: &mut String,
    alloc: Global,
    lines: &[Line<'_>],
    refused: &Refused<'_>,
) -> Result<(), AllocError> {
    let Some(first) = first_naming(lines, refused.line) else {
        return Ok(());
    };
    let word = named_at(alloc, refused.line, refused.place)?;
    fill(
        out,
        "line {}, word {}: {} is there on line {} already",
        &[
            Value::Number(refused.line.number),
            Value::Number(refused.place as u64),
            word,
            Value::Number(first),
        ],
    )
}

fn push_undefined(out: &mut String, lines: &[Line<'_>], line: Line<'_>) -> Result<(), AllocError> {
    match undefined(lines, line) {
        Some(name) => fill(
            out,
            "line {}: no line before it defines {}",
            &[Value::Number(line.number), Value::Word(name)],
        ),
        None => Ok(()),
    }
}

fn push_ranks(out: &mut String, alloc: Global, refused: &Refused<'_>) -> Result<(), AllocError> {
    let word = named_at(alloc, refused.line, 1)?;
    fill(
        out,
        "line {}, word 1: {} is no rank; the ranks are 0 to {}",
        &[
            Value::Number(refused.line.number),
            word,
            Value::Number(u64::from(refused.ranks.saturating_sub(1))),
        ],
    )
}

fn push_shape(out: &mut String, lines: &[Line<'_>], line: Line<'_>) -> Result<(), AllocError> {
    match other_record_dim(lines, line) {
        Some(record) => fill(
            out,
            "line {}: a dataset has one unlimited dimension, and {} is it on line {}",
            &[
                Value::Number(line.number),
                Value::Word(word_at(record.text, 1)),
                Value::Number(record.number),
            ],
        ),
        None => fill(
            out,
            "line {}: the record dimension stands first in a variable, and once",
            &[Value::Number(line.number)],
        ),
    }
}

// The record dimension, where this line would define another.
fn other_record_dim<'a>(lines: &[Line<'a>], line: Line<'_>) -> Option<Line<'a>> {
    if begins(line.text, b"dim") {
        record_dim(lines)
    } else {
        None
    }
}

// What some texts begin with that no script has.
const BYTE_ORDER_MARK: &[u8] = b"\xEF\xBB\xBF";

fn push_head(out: &mut String, line: Line<'_>) -> Result<(), AllocError> {
    let marked = if line.text.starts_with(BYTE_ORDER_MARK) {
        ", and not with a byte-order mark"
    } else {
        ""
    };
    fill(
        out,
        "line {}: a script begins with `create 1`, `create 2`, `create 5` or `open`{}",
        &[Value::Number(line.number), Value::Text(marked)],
    )
}

fn push_end(out: &mut String, line: Line<'_>) -> Result<(), AllocError> {
    let wanted = if line.part == Part::Calls || begins(line.text, b"data") {
        "`end` is wanted"
    } else {
        "`data` and `end` are wanted"
    };
    fill(
        out,
        "line {} is the last one; {} behind it",
        &[Value::Number(line.number), Value::Text(wanted)],
    )
}

fn push_after_end(out: &mut String, lines: &[Line<'_>], line: Line<'_>) -> Result<(), AllocError> {
    match last_call(lines) {
        Some(end) => fill(
            out,
            "line {}: `end` stands on line {}",
            &[Value::Number(line.number), Value::Number(end)],
        ),
        None => Ok(()),
    }
}

// The number of the last line of the calls.
fn last_call(lines: &[Line<'_>]) -> Option<u64> {
    let mut last = None;
    for line in lines {
        if line.part == Part::Calls {
            last = Some(line.number);
        }
    }
    last
}

// What is at most so many; none of what can't be seen in a script's lines.
const LIMITS: [(LimitName, &str); 6] = [
    (LimitName::Dims, "a script defines at most 1024 dimensions"),
    (LimitName::Vars, "a script defines at most 8192 variables"),
    (LimitName::VarDims, "a variable has at most 32 dimensions"),
    (LimitName::Elements, "a call has at most 2^20 values"),
    (
        LimitName::Values,
        "the calls and attributes of a script have at most 2^24 values",
    ),
    (LimitName::Parts, "a varn has from 1 to 1024 parts"),
];

fn push_limit(out: &mut String, line: Line<'_>, name: LimitName) -> Result<(), AllocError> {
    match beside(name, &LIMITS) {
        Some(limit) => fill(
            out,
            "line {}: {}",
            &[Value::Number(line.number), Value::Text(limit)],
        ),
        None => Ok(()),
    }
}
