// Attributes.
ghost use Rattle.std.specs.Prelude.{◌≡◌};
ghost use Rattle.nc_classic_c.specs.Answers.{IsAnswer};
ghost use Rattle.nc_classic_c.specs.Extents.{filled};
ghost use Rattle.nc_classic_c.specs.Looks.{Finds, IsLookRefusal, attribute_at, attribute_named};
ghost use Rattle.nc_classic_c.specs.Parts.{att_shown};

use crate::answers::{OK, number_of};
use crate::copies::fill;
use crate::headers::read;
use crate::looks::{attribute_at, attribute_named};
use crate::types::type_number;
use nc_base::Attr;
use std::alloc::Global;

/// An attribute.
#[repr(C)]
#[derive(Clone, Copy)]
pub struct NcvAtt {
    /// How many values it has.
    pub count: u64,
    /// The bytes of its values.
    pub values_len: u64,
    /// The bytes of its name.
    pub name_len: u64,
    /// The number of its type.
    pub kind: u32,
}

fn att_shown(attr: &Attr) -> NcvAtt
    ensures { result ≡ att_shown attr.now }
{
    NcvAtt {
        count: attr.count,
        values_len: attr.bytes.len() as u64,
        name_len: attr.name.len() as u64,
        kind: type_number(attr.kind),
    }
}

/// The owner's attribute of this number, its name, and its values in external form.
#[unsafe(no_mangle)]
pub extern "C" fn ncv_inq_att(
    alloc: Global,
    bytes: &[u8],
    owner: u64,
    number: u64,
    name: &mut [u8],
    values: &mut [u8],
    att: &mut NcvAtt,
) -> i32
    ensures { IsAnswer result
        (Finds bytes.now (attribute_at owner number)
        (λ _ a. (att.new ≡ att_shown a) × (name.new ≡ filled name.old a.name) × (values.new ≡ filled values.old a.bytes)))
        (λ r. IsLookRefusal bytes.now (attribute_at owner number) r × (att.new ≡ att.old) × (name.new ≡ name.old) × (values.new ≡ values.old)) }
{
    match read(alloc, bytes) {
        Ok((header, _)) => match attribute_at(&header, owner, number) {
            Ok(found) => {
                *att = att_shown(found);
                fill(found.name.as_slice(), name);
                fill(found.bytes.as_slice(), values);
                drop(header);
                OK
            }
            Err(refusal) => {
                drop(header);
                number_of(refusal)
            }
        },
        Err(refusal) => number_of(refusal),
    }
}

/// The number of the owner's first attribute of this name.
#[unsafe(no_mangle)]
pub extern "C" fn ncv_inq_attid(
    alloc: Global,
    bytes: &[u8],
    owner: u64,
    name: &[u8],
    number: &mut u64,
) -> i32
    ensures { IsAnswer result
        (Finds bytes.now (attribute_named owner name.now) (λ _ n. number.new ≡ n))
        (λ r. IsLookRefusal bytes.now (attribute_named owner name.now) r × (number.new ≡ number.old)) }
{
    match read(alloc, bytes) {
        Ok((header, _)) => match attribute_named(&header, owner, name) {
            Ok(found) => {
                *number = found;
                drop(header);
                OK
            }
            Err(refusal) => {
                drop(header);
                number_of(refusal)
            }
        },
        Err(refusal) => number_of(refusal),
    }
}
