// Lines that tell a fault.
ghost use Rattle.std.specs.Prelude.{◌≡◌, ◌++◌, IfOk, OnOk, codes, decimal};
ghost use Rattle.script_spec.specs.Texts.{disk_line, extra_line, header_line, header_words, layout_line, limit_word, redef_line, script_line, script_words, text_line, usage_line};

use crate::words::{push_bytes, push_numbered};
use nc_base::{Blob, HeaderErr, LayoutErr, LimitName, Memory, RedefErr, ScriptErr, ScriptKind};
use std::alloc::Global;

/// The line for a faulty command line: the forms of the command.
pub fn usage_line() -> &'static [u8]
    ensures { result.now ≡ usage_line }
{
    b"ncrun: usage: ncrun [--offsets] [--generate SEED [--size N]] [--watch N] DATASET\n"
}

/// The line for a fault of the disk.
pub fn disk_line() -> &'static [u8]
    ensures { result.now ≡ disk_line }
{
    b"ncrun: disk fault\n"
}

/// The line for a script that is refused.
pub fn script_line(alloc: Global, fault: &ScriptErr) -> Result<Blob, Memory>
    ensures { IfOk result (λ text. text ≡ script_line fault.now) }
{
    let mut out = Vec::new(alloc);
    push_numbered(&mut out, b"ncrun: script line ", u64::from(fault.line))?;
    push_bytes(&mut out, b": ")?;
    push_script_words(&mut out, &fault.kind)?;
    out.push(b'\n')?;
    Ok(Blob::from_vec(out))
}

fn push_script_words(out: &mut Vec<u8>, kind: &ScriptKind) -> Result<(), Memory>
    ensures { OnOk result (out.new.items ≡ out.old.items ++ script_words kind.now) }
{
    match *kind {
        ScriptKind::NotUtf8 => push_bytes(out, b"not utf-8"),
        ScriptKind::NoHead => push_bytes(out, b"no head"),
        ScriptKind::UnknownWord => push_bytes(out, b"unknown word"),
        ScriptKind::BadNumber => push_bytes(out, b"bad number"),
        ScriptKind::BadName => push_bytes(out, b"bad name"),
        ScriptKind::TwiceNamed => push_bytes(out, b"named twice"),
        ScriptKind::UnknownName => push_bytes(out, b"unknown name"),
        ScriptKind::MissingWord => push_bytes(out, b"missing word"),
        ScriptKind::ExtraWord => push_bytes(out, b"word too many"),
        ScriptKind::BadRank => push_bytes(out, b"no such rank"),
        ScriptKind::Mismatch(call, first, second) => push_mismatch(out, call, first, second),
        ScriptKind::NoEnd => push_bytes(out, b"no end"),
        ScriptKind::AfterEnd => push_bytes(out, b"text after end"),
        ScriptKind::Limit(name) => {
            push_bytes(out, b"limit of ")?;
            push_bytes(out, limit_word(name))
        }
        ScriptKind::Memory => Ok(()),
        ScriptKind::BadText => push_bytes(out, b"bad text"),
        ScriptKind::BadShape => push_bytes(out, b"bad shape"),
    }
}

/// Two ranks that differ in the kind of a collective call.
fn push_mismatch(out: &mut Vec<u8>, call: u32, first: u32, second: u32) -> Result<(), Memory>
    ensures { OnOk result (out.new.items ≡ out.old.items ++ script_words (ScriptKind.Mismatch call first second)) }
{
    push_numbered(out, b"ranks ", u64::from(first))?;
    push_numbered(out, b" and ", u64::from(second))?;
    push_numbered(out, b" differ at collective call ", u64::from(call))?;
    Ok(())
}

fn limit_word(name: LimitName) -> &'static [u8]
    ensures { result.now ≡ limit_word name }
{
    match name {
        LimitName::Script => b"script",
        LimitName::Lines => b"lines",
        LimitName::Dims => b"dims",
        LimitName::Vars => b"vars",
        LimitName::VarDims => b"vardims",
        LimitName::Elements => b"elements",
        LimitName::Values => b"values",
        LimitName::Parts => b"parts",
    }
}

/// The line for bytes that are no header.
pub fn header_line(alloc: Global, fault: &HeaderErr) -> Result<Blob, Memory>
    ensures { IfOk result (λ text. text ≡ header_line fault.now) }
{
    let mut out = Vec::new(alloc);
    push_bytes(&mut out, b"ncrun: header ")?;
    push_header_words(&mut out, fault)?;
    out.push(b'\n')?;
    Ok(Blob::from_vec(out))
}

fn push_header_words(out: &mut Vec<u8>, fault: &HeaderErr) -> Result<(), Memory>
    ensures { OnOk result (out.new.items ≡ out.old.items ++ header_words fault.now) }
{
    match *fault {
        HeaderErr::NotCdf => push_bytes(out, b"is not CDF"),
        HeaderErr::BadVersion => push_bytes(out, b"has an unknown version"),
        HeaderErr::Truncated(at) => push_numbered(out, b"truncated at byte ", at),
        HeaderErr::BadTag(at) => push_numbered(out, b"has a bad tag at byte ", at),
        HeaderErr::BadType(at) => push_numbered(out, b"has a bad type at byte ", at),
        HeaderErr::BadNumber(at) => push_numbered(out, b"has a bad number at byte ", at),
        HeaderErr::TwoRecordDims => push_bytes(out, b"has two record dimensions"),
        HeaderErr::RecordDimNotFirst(var) => push_numbered(
            out,
            b"has the record dimension not first in variable ",
            var as u64,
        ),
        HeaderErr::BadDimId(var) => {
            push_numbered(out, b"has a bad dimension id in variable ", var as u64)
        }
        HeaderErr::Streaming => push_bytes(out, b"has a streaming record count"),
        HeaderErr::TooLarge => push_bytes(out, b"is too large"),
        HeaderErr::Shared(first, second) => {
            push_numbered(out, b"has shared bytes of variables ", first as u64)?;
            push_numbered(out, b" and ", second as u64)
        }
        HeaderErr::Memory => Ok(()),
    }
}

/// The line for a header that gets no layout.
pub fn layout_line(alloc: Global, fault: &LayoutErr) -> Result<Blob, Memory>
    ensures { IfOk result (λ text. text ≡ layout_line fault.now) }
{
    redef_line(alloc, &RedefErr::Layout(*fault))
}

fn push_layout_line(out: &mut Vec<u8>, fault: &LayoutErr) -> Result<(), Memory>
    ensures { OnOk result (out.new.items ≡ out.old.items ++ layout_line fault.now) }
{
    match *fault {
        LayoutErr::VarSize(var) => push_variable_line(out, var, b" is too large"),
        LayoutErr::HeaderRange => push_bytes(out, b"ncrun: header is too large\n"),
        LayoutErr::BeginRange(var) => push_variable_line(out, var, b" begins too far"),
    }
}

/// What is wrong with the variable of that number.
fn push_variable_line(out: &mut Vec<u8>, var: usize, words: &[u8]) -> Result<(), Memory>
    ensures { OnOk result (out.new.items ≡ out.old.items ++ text_line (codes "ncrun: variable " ++ decimal var ++ words.now)) }
{
    push_numbered(out, b"ncrun: variable ", var as u64)?;
    push_bytes(out, words)?;
    out.push(b'\n')?;
    Ok(())
}

/// The line for lines after `open` that can't be added to a dataset.
pub fn redef_line(alloc: Global, fault: &RedefErr) -> Result<Blob, Memory>
    ensures { IfOk result (λ text. text ≡ redef_line fault.now) }
{
    let mut out = Vec::new(alloc);
    push_redef_line(&mut out, fault)?;
    Ok(Blob::from_vec(out))
}

fn push_redef_line(out: &mut Vec<u8>, fault: &RedefErr) -> Result<(), Memory>
    ensures { OnOk result (out.new.items ≡ out.old.items ++ redef_line fault.now) }
{
    match *fault {
        RedefErr::Taken(extra) => push_extra_line(out, extra, b"name taken"),
        RedefErr::Unknown(extra) => push_extra_line(out, extra, b"unknown name"),
        RedefErr::Shape(extra) => push_extra_line(out, extra, b"bad shape"),
        RedefErr::TooMany(extra) => push_extra_line(out, extra, b"too many"),
        RedefErr::Kind(extra) => push_extra_line(out, extra, b"bad type"),
        RedefErr::Layout(fault) => push_layout_line(out, &fault),
        RedefErr::Memory => Ok(()),
    }
}

/// What is wrong with the extra of that number.
fn push_extra_line(out: &mut Vec<u8>, extra: usize, words: &[u8]) -> Result<(), Memory>
    ensures { OnOk result (out.new.items ≡ out.old.items ++ extra_line extra words.now) }
{
    push_numbered(out, b"ncrun: redefinition ", extra as u64)?;
    push_bytes(out, b": ")?;
    push_bytes(out, words)?;
    out.push(b'\n')?;
    Ok(())
}
