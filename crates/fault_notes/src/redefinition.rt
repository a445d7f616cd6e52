// The line of a script that a dataset does not take.
use crate::cursor::{begins, word_at};
use crate::definition::{Definition, nth_defining};
use crate::fill::{Value, fill};
use crate::lines::{Line, lines_of};
use crate::table::beside;
use crate::told::numbered;
use std::alloc::{AllocError, Global};

// What adds to a dataset.
const ADDED: [Definition; 3] = [Definition::Dim, Definition::Var, Definition::Att];

/// The line and the name that a dataset refuses, by the line of the text that tells the number of what is added.
pub(crate) fn push_redefinition(
    out: &mut String,
    alloc: Global,
    script: &[u8],
    told: &[u8],
) -> Result<(), AllocError> {
    let Some((number, cause)) = numbered(told, b"ncrun: redefinition ", b": ") else {
        return Ok(());
    };
    match line_adding(alloc, script, number)? {
        Some(line) => push_cause(out, line, cause),
        None => Ok(()),
    }
}

// The line of this number, from 0, among those that add to a dataset.
fn line_adding<'a>(
    alloc: Global,
    script: &'a [u8],
    number: u64,
) -> Result<Option<Line<'a>>, AllocError> {
    let lines = lines_of(alloc, script)?;
    let place = usize::try_from(number).unwrap_or(usize::MAX);
    Ok(nth_defining(lines.as_slice(), &ADDED, place))
}

/// Why it is refused.
#[derive(Clone, Copy)]
enum Cause {
    Taken,
    Unknown,
    Shape,
    Type,
}

const CAUSES: [(&[u8], Cause); 4] = [
    (b"name taken", Cause::Taken),
    (b"unknown name", Cause::Unknown),
    (b"bad shape", Cause::Shape),
    (b"bad type", Cause::Type),
];

fn push_cause(out: &mut String, line: Line<'_>, cause: &[u8]) -> Result<(), AllocError> {
    fill(out, "line {}: ", &[Value::Number(line.number)])?;
    push_refusal(out, line.text, beside(cause, &CAUSES))
}

fn push_refusal(out: &mut String, line: &[u8], cause: Option<Cause>) -> Result<(), AllocError> {
    match cause {
        Some(Cause::Taken) => push_taken(out, line),
        Some(Cause::Unknown) => push_unknown(out, line),
        Some(Cause::Shape) => push_shape(out, line),
        Some(Cause::Type) => push_type(out, line),
        None => push_many(out, line),
    }
}

// The name that a line adds.
fn added(line: &[u8]) -> Value<'_> {
    let place = if is_dim(line) { 1 } else { 2 };
    Value::Word(word_at(line, place))
}

fn is_dim(line: &[u8]) -> bool {
    begins(line, b"dim")
}

fn push_taken(out: &mut String, line: &[u8]) -> Result<(), AllocError> {
    let name = added(line);
    match Definition::of_text(line) {
        Some(Definition::Dim) => fill(out, "the dataset has a dimension {} already", &[name]),
        Some(Definition::Var) => fill(out, "the dataset has a variable {} already", &[name]),
        _ => push_taken_attribute(out, word_at(line, 1), name),
    }
}

fn push_taken_attribute<'a>(
    out: &mut String,
    owner: &'a [u8],
    name: Value<'a>,
) -> Result<(), AllocError> {
    let owner = if owner == b":".as_slice() {
        Value::Text("the dataset")
    } else {
        Value::Word(owner)
    };
    fill(out, "{} has an attribute {} already", &[owner, name])
}

fn push_unknown(out: &mut String, line: &[u8]) -> Result<(), AllocError> {
    let (lacks, place) = if begins(line, b"att") {
        ("has no variable", 1)
    } else {
        ("lacks a dimension of", 3)
    };
    fill(
        out,
        "the dataset {} {}",
        &[Value::Text(lacks), Value::Word(word_at(line, place))],
    )
}

fn push_shape(out: &mut String, line: &[u8]) -> Result<(), AllocError> {
    if is_dim(line) {
        fill(
            out,
            "the dataset has a record dimension already, so {} can be none",
            &[Value::Word(word_at(line, 1))],
        )
    } else {
        fill(
            out,
            "the record dimension stands first in a variable, and once, and not as in {}",
            &[Value::Word(word_at(line, 3))],
        )
    }
}

fn push_type(out: &mut String, line: &[u8]) -> Result<(), AllocError> {
    let (lacks, place) = match Definition::of_text(line) {
        Some(Definition::Dim) => ("dimension so long as", 2),
        Some(Definition::Var) => ("type", 1),
        _ => ("type", 3),
    };
    fill(
        out,
        "a dataset of version 1 or 2 has no {} {}",
        &[Value::Text(lacks), Value::Word(word_at(line, place))],
    )
}

fn push_many(out: &mut String, line: &[u8]) -> Result<(), AllocError> {
    fill(
        out,
        "{} is one too many; a dataset has at most 1024 dimensions and 8192 variables",
        &[added(line)],
    )
}
