// Where the variables of a dataset lie.
ghost use Rattle.std.specs.Prelude.{◌≡◌, ◌+◌, ◌<◌, ◌^◌, ◌++◌, ◌∷◌, IfOk, OnOk, codes, decimal, filter, flat_map, map, true};
ghost use Rattle.serial_spec.specs.SoundHeaders.{is_sound};
ghost use Rattle.serial_spec.specs.Layout.{slab};
ghost use Rattle.script_spec.specs.Texts.{dim_length_line, dim_name, extent_of, in_brackets, offsets_text, text_line, var_lines};
ghost use Rattle.printed_text.specs.Offsets.{head_lines, is_listed, length_words, title_line};

use crate::dimensions::push_dim_names;
use crate::words::{push_bytes, push_number_line, push_numbered, push_word, type_word};
use nc_base::{Blob, Dim, Header, Memory, Var};
use std::alloc::Global;
use var_layout::{header_len, is_record, slab_of};

/// The version, what the header takes, the dimensions, and where each variable lies.
pub fn offsets_text(alloc: Global, header: &Header) -> Result<Blob, Memory>
    requires { is_sound header.now ≡ true }
    ensures { IfOk result (λ text. text ≡ offsets_text header.now) }
{
    let mut out = Vec::new(alloc);
    push_offsets(&mut out, header)?;
    Ok(Blob::from_vec(out))
}

pub(crate) fn push_offsets(out: &mut Vec<u8>, header: &Header) -> Result<(), Memory>
    requires { is_sound header.now ≡ true }
    ensures { OnOk result (out.new.items ≡ out.old.items ++ offsets_text header.now) }
{
    push_head(out, header)?;
    push_bytes(out, b"dimensions:\n")?;
    push_dims(out, header.records, header.dims.as_slice())?;
    push_bytes(out, b"fixed-size variables:\n")?;
    push_vars(out, header, false)?;
    push_bytes(out, b"record variables:\n")?;
    push_vars(out, header, true)?;
    Ok(())
}

/// The version, the header's length and its extent.
fn push_head(out: &mut Vec<u8>, header: &Header) -> Result<(), Memory>
    requires { is_sound header.now ≡ true }
    ensures { OnOk result (out.new.items ≡ out.old.items ++ head_lines header.now) }
{
    let len = header_len(header);
    push_number_line(out, b"// file format: CDF-", u64::from(header.version))?;
    push_bytes(out, b"file header:\n")?;
    push_measure(out, b"  size = ", len)?;
    push_measure(out, b"  extent = ", extent(len, header.vars.as_slice()))?;
    Ok(())
}

/// A line of so many bytes.
fn push_measure(out: &mut Vec<u8>, words: &[u8], size: u64) -> Result<(), Memory>
    ensures { OnOk result (out.new.items ≡ out.old.items ++ text_line (words.now ++ decimal size ++ codes " bytes")) }
{
    push_numbered(out, words, size)?;
    push_bytes(out, b" bytes")?;
    out.push(b'\n')?;
    Ok(())
}

/// The least begin, or the header's length where there is no variable.
#[tactic(auto, using(std::proofs::lemmas::List::Sums::fold_more))]
fn extent(len: u64, vars: &[Var]) -> u64
    ensures { result ≡ extent_of len vars.now }
{
    let Some((first, others)) = vars.split_first() else {
        return len;
    };
    let mut least = first.begin;
    for var in others {
        least = least.min(var.begin);
    }
    least
}

fn push_dims(out: &mut Vec<u8>, records: u64, dims: &[Dim]) -> Result<(), Memory>
    ensures { OnOk result (out.new.items ≡ out.old.items ++ flat_map (dim_length_line records) dims.now) }
{
    for dim in dims {
        push_dim(out, records, dim)?;
    }
    Ok(())
}

fn push_dim(out: &mut Vec<u8>, records: u64, dim: &Dim) -> Result<(), Memory>
    ensures { OnOk result (out.new.items ≡ out.old.items ++ dim_length_line records dim.now) }
{
    push_bytes(out, b"  ")?;
    push_bytes(out, dim.name.as_slice())?;
    push_length(out, records, dim.len)?;
    out.push(b'\n')?;
    Ok(())
}

/// A dimension's length, or how many records there are.
fn push_length(out: &mut Vec<u8>, records: u64, len: u64) -> Result<(), Memory>
    ensures { OnOk result (out.new.items ≡ out.old.items ++ length_words records len) }
{
    if len == 0 {
        push_record_count(out, records)
    } else {
        push_numbered(out, b" = ", len)
    }
}

fn push_record_count(out: &mut Vec<u8>, records: u64) -> Result<(), Memory>
    ensures { OnOk result (out.new.items ≡ out.old.items ++ (codes " = UNLIMITED // (" ++ decimal records ++ codes " currently)")) }
{
    push_numbered(out, b" = UNLIMITED // (", records)?;
    push_bytes(out, b" currently)")?;
    Ok(())
}

/// The record variables, or the fixed ones.
fn push_vars(out: &mut Vec<u8>, header: &Header, of_records: bool) -> Result<(), Memory>
    requires { is_sound header.now ≡ true }
    ensures { OnOk result (out.new.items ≡ out.old.items ++ flat_map (var_lines header.now) (filter (is_listed of_records header.now) header.now.vars)) }
{
    let vars = header.vars.as_slice();
    for var in vars {
        if is_listed(header, var, of_records) {
            push_var(out, header, var)?;
        }
    }
    Ok(())
}

fn is_listed(header: &Header, var: &Var, of_records: bool) -> bool
    ensures { result ≡ is_listed of_records header.now var.now }
{
    if of_records {
        is_record(header, var)
    } else {
        !is_record(header, var)
    }
}

fn push_var(out: &mut Vec<u8>, header: &Header, var: &Var) -> Result<(), Memory>
    requires { var.now.begin + slab header.now var.now < 2 ^ 62 }
    ensures { OnOk result (out.new.items ≡ out.old.items ++ var_lines header.now var.now) }
{
    let size = slab_of(header, var);
    push_title(out, header, var)?;
    push_number_line(out, b"    start file offset = ", var.begin)?;
    push_number_line(out, b"    end file offset = ", var.begin + size)?;
    push_number_line(out, b"    size in bytes = ", size)?;
    Ok(())
}

/// A variable's type, name and dimensions.
fn push_title(out: &mut Vec<u8>, header: &Header, var: &Var) -> Result<(), Memory>
    ensures { OnOk result (out.new.items ≡ out.old.items ++ title_line header.now var.now) }
{
    push_bytes(out, b"  ")?;
    push_bytes(out, type_word(var.kind))?;
    push_word(out, var.name.as_slice())?;
    push_shape(out, header, var.dims.as_slice())?;
    push_bytes(out, b":\n")?;
    Ok(())
}

/// The names of the dimensions in brackets, or nothing of a scalar.
fn push_shape(out: &mut Vec<u8>, header: &Header, ids: &[u32]) -> Result<(), Memory>
    ensures { OnOk result (out.new.items ≡ out.old.items ++ in_brackets (map (dim_name header.now) ids.now)) }
{
    match ids.split_first() {
        None => Ok(()),
        Some((first, others)) => push_bracketed(out, header, *first, others),
    }
}

fn push_bracketed(
    out: &mut Vec<u8>,
    header: &Header,
    first: u32,
    others: &[u32],
) -> Result<(), Memory>
    ensures { OnOk result (out.new.items ≡ out.old.items ++ in_brackets (dim_name header.now first ∷ map (dim_name header.now) others.now)) }
{
    out.push(b'(')?;
    push_dim_names(out, header, b", ", first, others)?;
    out.push(b')')?;
    Ok(())
}
