// The text of a plan: calls of the disk.
ghost use Rattle.std.specs.Prelude.{◌≡◌, ◌++◌, OnOk, codes, decimal};
ghost use Rattle.script_spec.specs.Texts.{text_line};
ghost use Rattle.step_plan.specs.Steps.{count_call, grow_call};
ghost use Rattle.plan_text.specs.StepTexts.{device_lines, device_words, in_bytes};

use crate::words::push_bytes_of;
use nc_base::{DiskCall, Extent, Memory};
use printed_text::words::{push_bytes, push_numbered};

/// Calls of the disk, a line each, behind such blanks.
pub(crate) fn push_device_calls(
    out: &mut Vec<u8>,
    blanks: &[u8],
    calls: &[DiskCall],
) -> Result<(), Memory>
    ensures { OnOk result (out.new.items ≡ out.old.items ++ device_lines blanks.now calls.now) }
{
    for call in calls {
        push_device_line(out, blanks, *call)?;
    }
    Ok(())
}

fn push_device_line(out: &mut Vec<u8>, blanks: &[u8], call: DiskCall) -> Result<(), Memory>
    ensures { OnOk result (out.new.items ≡ out.old.items ++ text_line (blanks.now ++ device_words call)) }
{
    push_bytes(out, blanks)?;
    push_device_call(out, call)?;
    out.push(b'\n')?;
    Ok(())
}

fn push_device_call(out: &mut Vec<u8>, call: DiskCall) -> Result<(), Memory>
    ensures { OnOk result (out.new.items ≡ out.old.items ++ device_words call) }
{
    match call {
        DiskCall::Grow(size) => push_numbered(out, b"grow to ", size),
        DiskCall::Load(at, len) => push_transfer(out, b"read ", at, len),
        DiskCall::Store(at, len) => push_transfer(out, b"write ", at, len),
    }
}

fn push_transfer(out: &mut Vec<u8>, word: &[u8], at: u64, len: u64) -> Result<(), Memory>
    ensures { OnOk result (out.new.items ≡ out.old.items ++ (word.now ++ in_bytes len ++ codes " at " ++ decimal at)) }
{
    push_bytes_of(out, word, len)?;
    push_numbered(out, b" at ", at)
}

/// The file is made so long, if it is.
pub(crate) fn push_growth(out: &mut Vec<u8>, grow: Option<u64>) -> Result<(), Memory>
    ensures { OnOk result (out.new.items ≡ out.old.items ++ device_lines (codes "  ") (grow_call grow)) }
{
    match grow {
        Some(size) => push_device_calls(out, b"  ", &[DiskCall::Grow(size)]),
        None => Ok(()),
    }
}

/// The record count is written, if it is.
pub(crate) fn push_count(out: &mut Vec<u8>, count: Option<Extent>) -> Result<(), Memory>
    ensures { OnOk result (out.new.items ≡ out.old.items ++ device_lines (codes "  ") (count_call count)) }
{
    match count {
        Some(field) => push_device_calls(out, b"  ", &[DiskCall::Store(field.at, field.len)]),
        None => Ok(()),
    }
}
