// Words that both forms share.
ghost use Rattle.std.specs.Prelude.{◌≡◌, ◌++◌, ◌∷◌, [], if◌then◌else◌, OnOk, codes};
ghost use Rattle.plan_text.specs.PlanWords.{end_place};
ghost use Rattle.plan_text.specs.StepTexts.{counted, in_bytes, range};

use nc_base::{Extent, Memory};
use printed_text::words::{push_bytes, push_decimal, push_numbered, push_word};

/// The place behind the last byte of an extent.
pub(crate) fn end_of(extent: Extent) -> u64
    ensures { result ≡ end_place extent }
{
    extent.at.saturating_add(extent.len)
}

/// The bytes of an extent.
pub(crate) fn push_range(out: &mut Vec<u8>, extent: Extent) -> Result<(), Memory>
    ensures { OnOk result (out.new.items ≡ out.old.items ++ range extent) }
{
    push_decimal(out, extent.at)?;
    push_numbered(out, b" to ", end_of(extent))
}

/// A number and what is counted, as in `1 piece` and `2 pieces`.
pub(crate) fn push_counted(out: &mut Vec<u8>, number: u64, noun: &[u8]) -> Result<(), Memory>
    ensures { OnOk result (out.new.items ≡ out.old.items ++ counted noun.now number) }
{
    push_decimal(out, number)?;
    push_noun(out, noun, number == 1)
}

// A blank and a noun, in the plural where they are not one.
fn push_noun(out: &mut Vec<u8>, noun: &[u8], one: bool) -> Result<(), Memory>
    ensures { OnOk result (out.new.items ≡ out.old.items ++ 32 ∷ noun.now ++ (if one then [] else codes "s")) }
{
    push_word(out, noun)?;
    if !one {
        out.push(b's')?;
    }
    Ok(())
}

/// Words and so many bytes.
pub(crate) fn push_bytes_of(out: &mut Vec<u8>, words: &[u8], number: u64) -> Result<(), Memory>
    ensures { OnOk result (out.new.items ≡ out.old.items ++ (words.now ++ in_bytes number)) }
{
    push_bytes(out, words)?;
    push_counted(out, number, b"byte")
}
