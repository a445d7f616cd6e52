// Values beyond those that a call asks for.
use crate::access::Access;
use crate::cursor::Cursor;
use crate::fill::{Value, fill};
use crate::lines::{Line, Part, lines_of};
use crate::shapes::Shapes;
use crate::values::{given, product, span};
use nc_base::{Form, Header};
use script_words::numbers::size_of_text;
use std::alloc::{AllocError, Global};

/// What is said of calls that are given more values than they ask for, where there are some.
pub(crate) fn push_surplus<'a>(
    out: &mut String,
    alloc: Global,
    script: &'a [u8],
    header: Option<&'a Header>,
) -> Result<(), AllocError> {
    match surplus_in(alloc, header, script)? {
        Some(surplus) => push_found(out, surplus),
        None => Ok(()),
    }
}

/// A call that is given more values than it asks for.
#[derive(Clone, Copy)]
struct Surplus {
    number: u64,
    asked: u64,
    given: u64,
    /// How many such calls follow.
    more: u64,
}

fn push_found(out: &mut String, surplus: Surplus) -> Result<(), AllocError> {
    fill(
        out,
        "line {}: {} values are given and {} asked for; what is beyond is left out",
        &[
            Value::Number(surplus.number),
            Value::Number(surplus.given),
            Value::Number(surplus.asked),
        ],
    )?;
    push_more(out, surplus.more)
}

fn push_more(out: &mut String, more: u64) -> Result<(), AllocError> {
    if more == 0 {
        Ok(())
    } else {
        fill(out, ", and so on {} more lines", &[Value::Number(more)])
    }
}

// The first such call of a script, and how many follow.
fn surplus_in<'a>(
    alloc: Global,
    header: Option<&'a Header>,
    script: &'a [u8],
) -> Result<Option<Surplus>, AllocError> {
    let lines = lines_of(alloc, script)?;
    surplus_among(alloc, header, lines.as_slice())
}

// The same among these lines.
fn surplus_among<'a>(
    alloc: Global,
    header: Option<&'a Header>,
    lines: &[Line<'a>],
) -> Result<Option<Surplus>, AllocError> {
    let mut shapes = Shapes::new(alloc);
    let surplus = surplus_by(&mut shapes, header, lines);
    // A call, which hides from the check of this function how each of its lists is let go.
    drop(shapes);
    surplus
}

// The same by shapes that are yet to be added.
fn surplus_by<'a>(
    shapes: &mut Shapes<'a>,
    header: Option<&'a Header>,
    lines: &[Line<'a>],
) -> Result<Option<Surplus>, AllocError> {
    shapes.add_all(header, lines)?;
    Ok(first_surplus(shapes, lines))
}

// The same by the shapes of the variables.
fn first_surplus<'a>(shapes: &Shapes<'a>, lines: &[Line<'a>]) -> Option<Surplus> {
    let mut first: Option<Surplus> = None;
    for line in lines {
        first = match (first, surplus_of(shapes, *line)) {
            (Some(first), Some(_)) => Some(first.and_more()),
            (None, found) => found,
            (first, None) => first,
        };
    }
    first
}

impl Surplus {
    fn and_more(self) -> Surplus {
        Surplus {
            more: self.more.saturating_add(1),
            ..self
        }
    }
}

fn surplus_of<'a>(shapes: &Shapes<'a>, line: Line<'a>) -> Option<Surplus> {
    if line.part != Part::Calls {
        return None;
    }
    let (asked, given) = counts(shapes, line.text)?;
    if given <= asked {
        return None;
    }
    Some(Surplus {
        number: line.number,
        asked,
        given,
        more: 0,
    })
}

// How many values a put asks for and is given.
fn counts<'a>(shapes: &Shapes<'a>, line: &'a [u8]) -> Option<(u64, u64)> {
    let mut words = Cursor::new(line);
    let access = put_of(words.take_behind(1)?)?;
    let var = words.take_behind(access.ids())?;
    let asked = asked(shapes, access.form, var, &mut words)?;
    Some((asked, given(words, asked)?))
}

// A put, by the word of its call.
fn put_of(call: &[u8]) -> Option<Access> {
    let access = Access::of_word(call)?;
    if access.has_values {
        Some(access)
    } else {
        None
    }
}

// How many values are asked for of this variable, by the words that follow.
fn asked<'a>(
    shapes: &Shapes<'a>,
    form: Form,
    var: &'a [u8],
    words: &mut Cursor<'a>,
) -> Option<u64> {
    match form {
        Form::Var => shapes.count(var),
        Form::Var1 => one(words),
        Form::Vara => product(words.take_behind(1)?),
        Form::Vars => strided(words),
        Form::Varm => mapped(words),
        Form::Varn => parts(words),
    }
}

// The one element of START.
fn one(words: &mut Cursor<'_>) -> Option<u64> {
    words.take()?;
    Some(1)
}

// The elements of START, COUNT and STRIDE.
fn strided(words: &mut Cursor<'_>) -> Option<u64> {
    let count = words.take_behind(1)?;
    words.take()?;
    product(count)
}

// How many values of memory START, COUNT, STRIDE and IMAP reach.
fn mapped(words: &mut Cursor<'_>) -> Option<u64> {
    let count = words.take_behind(1)?;
    span(count, words.take_behind(1)?)
}

// The elements of all parts.
fn parts(words: &mut Cursor<'_>) -> Option<u64> {
    let count = size_of_text(words.take()?)?;
    let mut sum = 0u64;
    for _ in 0..count {
        sum = sum.checked_add(product(words.take_behind(1)?)?)?;
    }
    Some(sum)
}
