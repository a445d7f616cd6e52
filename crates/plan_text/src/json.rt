// The parts of a JSON document: RFC 8259.
ghost use Rattle.std.specs.Prelude.{◌≡◌, ◌++◌, flat_map, List, ℕ, OnOk};
ghost use Rattle.nc_base.specs.declared.step.DiskCall.TheVariants.{Grow};
ghost use Rattle.plan_text.specs.Json.{array_of, comma, json_character, json_text, json_truth};
ghost use Rattle.plan_text.specs.JsonSteps.{device_call, transfer};

use nc_base::{DiskCall, Memory};
use printed_text::words::{push_bytes, push_hex, push_numbered};

/// The comma before each item of a list but the first.
pub(crate) fn push_comma(out: &mut Vec<u8>, number: usize) -> Result<(), Memory>
    ensures { OnOk result (out.new.items ≡ out.old.items ++ comma number) }
{
    if number > 0 {
        out.push(b',')?;
    }
    Ok(())
}

/// A text: each byte is one character, and one that is not printable ASCII is escaped.
fn push_text(out: &mut Vec<u8>, text: &[u8]) -> Result<(), Memory>
    ensures { OnOk result (out.new.items ≡ out.old.items ++ json_text text.now) }
{
    out.push(b'"')?;
    push_characters(out, text)?;
    out.push(b'"')?;
    Ok(())
}

fn push_characters(out: &mut Vec<u8>, text: &[u8]) -> Result<(), Memory>
    ensures { OnOk result (out.new.items ≡ out.old.items ++ flat_map json_character text.now) }
{
    for byte in text {
        push_character(out, *byte)?;
    }
    Ok(())
}

/// Words, and a text after them.
pub(crate) fn push_named(out: &mut Vec<u8>, words: &[u8], text: &[u8]) -> Result<(), Memory>
    ensures { OnOk result (out.new.items ≡ out.old.items ++ (words.now ++ json_text text.now)) }
{
    push_bytes(out, words)?;
    push_text(out, text)?;
    Ok(())
}

fn push_character(out: &mut Vec<u8>, byte: u8) -> Result<(), Memory>
    ensures { OnOk result (out.new.items ≡ out.old.items ++ json_character byte) }
{
    match byte {
        b'"' => push_bytes(out, b"\\\""),
        b'\\' => push_bytes(out, b"\\\\"),
        b' '..=b'~' => push_bytes(out, &[byte]),
        _ => {
            push_bytes(out, b"\\u")?;
            push_hex(out, 4, u64::from(byte))
        }
    }
}

/// Words, and `true` or `false`.
pub(crate) fn push_truth(out: &mut Vec<u8>, words: &[u8], truth: bool) -> Result<(), Memory>
    ensures { OnOk result (out.new.items ≡ out.old.items ++ (words.now ++ json_truth truth)) }
{
    push_bytes(out, words)?;
    push_bytes(out, if truth { b"true" } else { b"false" })
}

/// What stands in arrays as a value of its own.
pub(crate) trait ArrayItem {
    ghost value: { Self → List ℕ };

    fn push_item(&self, out: &mut Vec<u8>) -> Result<(), Memory>
        ensures { OnOk result (out.new.items ≡ out.old.items ++ value self.now) };
}

/// Words, and an array of items after them.
pub(crate) fn push_array<T: ArrayItem>(
    out: &mut Vec<u8>,
    words: &[u8],
    items: &[T],
) -> Result<(), Memory>
    ensures { OnOk result (out.new.items ≡ out.old.items ++ (words.now ++ array_of T.value items.now)) }
{
    push_bytes(out, words)?;
    push_items(out, items)?;
    Ok(())
}

fn push_items<T: ArrayItem>(out: &mut Vec<u8>, items: &[T]) -> Result<(), Memory>
    ensures { OnOk result (out.new.items ≡ out.old.items ++ array_of T.value items.now) }
{
    out.push(b'[')?;
    for (number, item) in items.iter().enumerate() {
        push_comma(out, number)?;
        item.push_item(out)?;
    }
    out.push(b']')?;
    Ok(())
}

/// Words, and a list of device calls.
pub(crate) fn push_calls(out: &mut Vec<u8>, words: &[u8], calls: &[DiskCall]) -> Result<(), Memory>
    ensures { OnOk result (out.new.items ≡ out.old.items ++ (words.now ++ array_of device_call calls.now)) }
{
    push_array(out, words, calls)
}

impl ArrayItem for DiskCall {
    ghost value = { device_call };

    fn push_item(&self, out: &mut Vec<u8>) -> Result<(), Memory> {
        push_call(out, *self)
    }
}

fn push_call(out: &mut Vec<u8>, call: DiskCall) -> Result<(), Memory>
    ensures { OnOk result (out.new.items ≡ out.old.items ++ device_call call) }
{
    match call {
        DiskCall::Grow(size) => push_growth(out, size),
        DiskCall::Load(at, len) => push_transfer(out, b"read", at, len),
        DiskCall::Store(at, len) => push_transfer(out, b"write", at, len),
    }
}

fn push_growth(out: &mut Vec<u8>, size: u64) -> Result<(), Memory>
    ensures { OnOk result (out.new.items ≡ out.old.items ++ device_call (Grow size)) }
{
    push_numbered(out, b"{\"call\":\"grow\",\"length\":", size)?;
    out.push(b'}')?;
    Ok(())
}

fn push_transfer(out: &mut Vec<u8>, word: &[u8], at: u64, len: u64) -> Result<(), Memory>
    ensures { OnOk result (out.new.items ≡ out.old.items ++ transfer word.now at len) }
{
    push_named(out, b"{\"call\":", word)?;
    push_numbered(out, b",\"place\":", at)?;
    push_numbered(out, b",\"length\":", len)?;
    out.push(b'}')?;
    Ok(())
}
