// The word of a line that is refused, or missing.
use crate::cursor::begins;
use crate::fill::{MOST_SHOWN, Value, fill};
use crate::lines::Line;
use crate::replay::Refused;
use crate::slot::Slot;
use crate::slots::slot_of;
use nc_base::ScriptKind;
use script_words::{Token, Words};
use std::alloc::{AllocError, Global};

/// The word of a line at this place, from 1, as it is named: a text is not shown.
pub(crate) fn named_at<'a>(
    alloc: Global,
    line: Line<'a>,
    place: usize,
) -> Result<Value<'a>, AllocError> {
    let mut words = Words::new(alloc, line.text);
    for _ in 1..place {
        words.take()?;
    }
    Ok(match words.take()? {
        Some(Token::Plain(word)) => Value::Word(word),
        Some(Token::Quoted(_) | Token::Broken) => Value::Text("the text"),
        None => Value::Text(""),
    })
}

/// What is said of the last word that was read.
pub(crate) fn push_refused(
    out: &mut String,
    alloc: Global,
    refused: &Refused<'_>,
) -> Result<(), AllocError> {
    let word = named_at(alloc, refused.line, refused.place)?;
    push_named(out, refused, word)?;
    push_fault(out, refused, word)
}

fn push_named(out: &mut String, refused: &Refused<'_>, word: Value<'_>) -> Result<(), AllocError> {
    fill(
        out,
        "line {}, word {}: {} is ",
        &[
            Value::Number(refused.line.number),
            Value::Number(refused.place as u64),
            word,
        ],
    )
}

fn push_fault(out: &mut String, refused: &Refused<'_>, word: Value<'_>) -> Result<(), AllocError> {
    match (refused.kind, word) {
        (ScriptKind::ExtraWord, Value::Word([b'#', ..])) => out.push_str(COMMENT),
        (ScriptKind::ExtraWord, _) => out.push_str("one word too many"),
        (ScriptKind::BadText, Value::Text(text)) if !text.is_empty() => out.push_str(BROKEN),
        _ => push_wanted(out, refused, word),
    }
}

// What a comment is behind other words.
const COMMENT: &str = "one word too many; a comment is a line of its own";

// Why a text is none.
const BROKEN: &str =
    "not closed, or has another escape than \\\" \\\\ \\n \\t \\xHH, or goes on behind its quote";

// What a word is not, and what is wanted.
fn push_wanted(out: &mut String, refused: &Refused<'_>, word: Value<'_>) -> Result<(), AllocError> {
    let slot = slot_of(refused.line, refused.place.saturating_sub(1));
    match bits_of(slot, word) {
        Some((float, double)) => push_bits(out, float, double),
        None => push_missed(out, slot, refused.line.text),
    }
}

fn push_bits(out: &mut String, float: u32, double: u64) -> Result<(), AllocError> {
    write!(
        out,
        "no such value; a float's values are given as bits, x{float:08X}, and a double's as x{double:016X}"
    )
}

fn push_missed(out: &mut String, slot: Slot, line: &[u8]) -> Result<(), AllocError> {
    fill(out, "{}; ", &[Value::Text(slot.missed())])?;
    slot.push_wanted(out, line)
}

// The bits of a decimal number that is shown whole, as a float and as a double, where a value is wanted.
fn bits_of(slot: Slot, word: Value<'_>) -> Option<(u32, u64)> {
    match word {
        Value::Word(decimal) if decimal.len() <= MOST_SHOWN && slot.takes_bits(decimal) => {
            finite_bits(std::str::from_utf8(decimal).ok()?)
        }
        _ => None,
    }
}

fn finite_bits(decimal: &str) -> Option<(u32, u64)> {
    let float = decimal.parse::<f32>().ok()?;
    let double = decimal.parse::<f64>().ok()?;
    if float.is_finite() && double.is_finite() {
        Some((float.to_bits(), double.to_bits()))
    } else {
        None
    }
}

/// What is said of a line that ends too early.
pub(crate) fn push_missing(out: &mut String, refused: &Refused<'_>) -> Result<(), AllocError> {
    if begins(refused.line.text, b"data") {
        push_no_ranks(out, refused.line)
    } else {
        push_behind(out, refused)
    }
}

fn push_no_ranks(out: &mut String, line: Line<'_>) -> Result<(), AllocError> {
    fill(
        out,
        "line {}: no line before `data` says how many ranks there are, as `ranks 2`",
        &[Value::Number(line.number)],
    )
}

fn push_behind(out: &mut String, refused: &Refused<'_>) -> Result<(), AllocError> {
    let place = refused.place;
    fill(
        out,
        "line {} ends behind word {}; ",
        &[
            Value::Number(refused.line.number),
            Value::Number(place as u64),
        ],
    )?;
    slot_of(refused.line, place).push_wanted(out, refused.line.text)
}
