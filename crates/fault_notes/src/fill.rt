// Forms of notes, which are filled with what they tell.
use std::alloc::AllocError;

/// Longer words are cut behind so many bytes.
pub(crate) const MOST_SHOWN: usize = 40;

/// What stands in a note in place of `{}`.
#[derive(Clone, Copy)]
pub(crate) enum Value<'a> {
    Number(u64),
    Text(&'a str),
    /// A word in backquotes, on one line, and no longer than a reader can see at once.
    Word(&'a [u8]),
    /// A number, and the word behind it where that is not empty.
    Item(u64, &'a [u8]),
}

/// Adds a form, with a value in place of each `{}`.
pub(crate) fn fill(out: &mut String, form: &str, values: &[Value]) -> Result<(), AllocError> {
    let mut rest = form;
    for value in values {
        let Some((text, behind)) = rest.split_once("{}") else {
            break;
        };
        out.push_str(text)?;
        push_value(out, *value)?;
        rest = behind;
    }
    out.push_str(rest)
}

fn push_value(out: &mut String, value: Value) -> Result<(), AllocError> {
    match value {
        Value::Number(number) => push_number(out, number),
        Value::Text(text) => out.push_str(text),
        Value::Word(word) => push_word(out, word),
        Value::Item(number, []) => push_number(out, number),
        Value::Item(number, name) => push_item(out, number, name),
    }
}

fn push_item(out: &mut String, number: u64, name: &[u8]) -> Result<(), AllocError> {
    push_number(out, number)?;
    out.push(' ')?;
    push_word(out, name)
}

fn push_number(out: &mut String, number: u64) -> Result<(), AllocError> {
    write!(out, "{number}")
}

fn push_word(out: &mut String, word: &[u8]) -> Result<(), AllocError> {
    out.push('`')?;
    push_bytes(out, word.get(..MOST_SHOWN).unwrap_or(word))?;
    out.push_str(if word.len() > MOST_SHOWN { "..`" } else { "`" })
}

fn push_bytes(out: &mut String, bytes: &[u8]) -> Result<(), AllocError> {
    for byte in bytes {
        push_byte(out, *byte)?;
    }
    Ok(())
}

// A byte that is not printable ASCII stands as `\xHH`.
fn push_byte(out: &mut String, byte: u8) -> Result<(), AllocError> {
    match byte {
        b' '..=b'~' => out.push(char::from(byte)),
        _ => write!(out, "\\x{byte:02X}"),
    }
}
