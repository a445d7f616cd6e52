// The header's bytes.
ghost use Rattle.std.specs.Prelude.{◌≡◌, ◌++◌, IfOk, OnOk, true};
ghost use Rattle.serial_spec.specs.HeaderBytes.{attribute, canon, count, dimension, variable};
ghost use Rattle.serial_spec.specs.SoundHeaders.{fits_count, is_writable, is_writable_attr, is_writable_dim};
ghost use Rattle.cdf_header.specs.Writable.{shape, IsWritableVar};

use crate::number_fields::{push_begin, push_count, push_name, push_padded, push_tag};
use crate::type_numbers::number_of;
use crate::written::{Written, push_each, push_list};
use nc_base::{Attr, Blob, Dim, Header, Memory, Var};
use std::alloc::Global;
use var_layout::{header_len, vsize_of};

const DIMS: u32 = 10;

const VARS: u32 = 11;

const ATTRS: u32 = 12;

/// The bytes of a header of version 1, 2 or 5, in the one spelling that is written: zero padding, a zero tag and a zero count
/// for an empty list, and the size that the layout gives each variable.
pub fn encode(alloc: Global, header: &Header) -> Result<Blob, Memory>
    requires { is_writable header.now ≡ true }
    ensures { IfOk result (λ bytes. bytes ≡ canon header.now) }
{
    let mut out = Vec::with_capacity(alloc, header_len(header) as usize)?;
    push_fields(&mut out, header)?;
    Ok(Blob::from_vec(out))
}

/// All fields of a header.
fn push_fields(out: &mut Vec<u8>, header: &Header) -> Result<(), Memory>
    requires { is_writable header.now ≡ true }
    ensures { OnOk result (out.new.items ≡ out.old.items ++ canon header.now) }
{
    out.extend_from_slice(&[b'C', b'D', b'F', header.version])?;
    push_count(out, header.version, header.records)?;
    push_list(out, header, DIMS, header.dims.as_slice())?;
    push_list(out, header, ATTRS, header.attrs.as_slice())?;
    push_list(out, header, VARS, header.vars.as_slice())
}

impl Written for Dim {
    ghost IsWritable = { λ h d. is_writable_dim h.version d ≡ true };

    ghost bytes_of = { λ h d. dimension h.version d };

    fn push(&self, out: &mut Vec<u8>, header: &Header) -> Result<(), Memory> {
        push_name(out, header.version, self.name.as_slice())?;
        push_count(out, header.version, self.len)
    }
}

impl Written for Attr {
    ghost IsWritable = { λ h a. is_writable_attr h.version a ≡ true };

    ghost bytes_of = { λ h a. attribute h.version a };

    fn push(&self, out: &mut Vec<u8>, header: &Header) -> Result<(), Memory> {
        push_name(out, header.version, self.name.as_slice())?;
        push_tag(out, number_of(self.kind))?;
        push_count(out, header.version, self.count)?;
        push_padded(out, self.bytes.as_slice())
    }
}

/// The place of a dimension.
impl Written for u32 {
    ghost IsWritable = { λ h id. fits_count h.version id ≡ true };

    ghost bytes_of = { λ h id. count h.version id };

    fn push(&self, out: &mut Vec<u8>, header: &Header) -> Result<(), Memory> {
        push_count(out, header.version, u64::from(*self))
    }
}

/// The fields of a variable ahead of its type.
fn push_shape(out: &mut Vec<u8>, header: &Header, var: &Var) -> Result<(), Memory>
    requires { IsWritableVar header.now var.now }
    ensures { OnOk result (out.new.items ≡ out.old.items ++ shape header.now var.now) }
{
    push_name(out, header.version, var.name.as_slice())?;
    push_count(out, header.version, var.dims.len() as u64)?;
    push_each(out, header, var.dims.as_slice())?;
    push_list(out, header, ATTRS, var.attrs.as_slice())
}

impl Written for Var {
    ghost IsWritable = { IsWritableVar };

    ghost bytes_of = { variable };

    fn push(&self, out: &mut Vec<u8>, header: &Header) -> Result<(), Memory> {
        push_shape(out, header, self)?;
        push_tag(out, number_of(self.kind))?;
        push_count(out, header.version, vsize_of(header, self))?;
        push_begin(out, header.version, self.begin)
    }
}
