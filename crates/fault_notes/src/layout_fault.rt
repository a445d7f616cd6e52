// A variable that gets no place in a dataset: its name, and the line of the script that defines it.
use crate::cursor::word_at;
use crate::definition::{Definition, nth_defining};
use crate::fill::{Value, fill};
use crate::lines::{Line, lines_of};
use crate::told::numbered;
use nc_base::Header;
use std::alloc::{AllocError, Global};

/// What is said of a layout that was refused, by the line that tells its fault; the header is that of a dataset which is added to.
pub(crate) fn push_layout_fault(
    out: &mut String,
    alloc: Global,
    script: &[u8],
    header: Option<&Header>,
    told: &[u8],
) -> Result<(), AllocError> {
    let lines = lines_of(alloc, script)?;
    push_among(out, lines.as_slice(), header, told)
}

// The same by the lines of the script.
fn push_among(
    out: &mut String,
    lines: &[Line<'_>],
    header: Option<&Header>,
    told: &[u8],
) -> Result<(), AllocError> {
    let Some((number, cause)) = numbered(told, b"ncrun: variable ", b" ") else {
        return out.push_str("its dimensions, variables and attributes take more than 2^20 bytes");
    };
    push_var(out, lines, header, number)?;
    out.push_str(fault_of(cause, header, lines))
}

// Why it gets no place.
fn fault_of(cause: &[u8], header: Option<&Header>, lines: &[Line<'_>]) -> &'static str {
    if cause == b"is too large".as_slice() {
        LARGE
    } else if version_of(header, lines) == 1 {
        FAR_IN_VERSION_1
    } else {
        FAR
    }
}

const LARGE: &str =
    " has more than 2^31 - 4 bytes, or a record of it has; datasets of version 5 take it";

const FAR_IN_VERSION_1: &str =
    " would begin at byte 2^31 or behind it; in datasets of version 2 and 5 it can";

const FAR: &str = " would end at byte 2^62 or behind it";

// The version of the dataset, by its header or the script's first line.
fn version_of(header: Option<&Header>, lines: &[Line<'_>]) -> u8 {
    match (header, lines) {
        (Some(header), _) => header.version,
        (None, [line, ..]) if word_at(line.text, 1) == b"1".as_slice() => 1,
        _ => 2,
    }
}

// The name of a variable by its number, and its line where a script defines it.
fn push_var(
    out: &mut String,
    lines: &[Line<'_>],
    header: Option<&Header>,
    number: u64,
) -> Result<(), AllocError> {
    let number = usize::try_from(number).unwrap_or(usize::MAX);
    let Some(header) = header else {
        return push_new(out, lines, number);
    };
    match header.vars.as_slice().get(number) {
        Some(var) => fill(
            out,
            "the dataset's variable {}",
            &[Value::Word(var.name.as_slice())],
        ),
        None => push_new(out, lines, number.saturating_sub(header.vars.len())),
    }
}

// The same of one that the script defines, by its number among them.
fn push_new(out: &mut String, lines: &[Line<'_>], number: usize) -> Result<(), AllocError> {
    match nth_defining(lines, &[Definition::Var], number) {
        Some(line) => fill(
            out,
            "line {}: {}",
            &[
                Value::Number(line.number),
                Value::Word(word_at(line.text, 2)),
            ],
        ),
        None => Ok(()),
    }
}
