// Variables.
ghost use Rattle.std.specs.Prelude.{◌≡◌, true, Some, slice_get};
ghost use Rattle.serial_spec.specs.SoundHeaders.{is_sound};
ghost use Rattle.nc_classic_c.specs.Answers.{IsAnswer};
ghost use Rattle.nc_classic_c.specs.Extents.{filled};
ghost use Rattle.nc_classic_c.specs.Looks.{Finds, IsLookRefusal, variable_at, variable_named};
ghost use Rattle.nc_classic_c.specs.Parts.{var_shown};

use crate::answers::{OK, number_of};
use crate::copies::fill;
use crate::headers::read;
use crate::looks::{variable_at, variable_named};
use crate::types::type_number;
use nc_base::{Header, Var};
use std::alloc::Global;
use var_layout::{is_record, slab, vsize};

/// A variable.
#[repr(C)]
#[derive(Clone, Copy)]
pub struct NcvVar {
    /// The byte of the file at which it begins.
    pub begin: u64,
    /// Its bytes, or those of one record, without padding.
    pub slab: u64,
    /// The slab rounded up to a multiple of 4.
    pub vsize: u64,
    pub dims: u64,
    pub attrs: u64,
    /// The bytes of its name.
    pub name_len: u64,
    /// The number of its type.
    pub kind: u32,
    pub is_record: bool,
}

/// The variable of this number, which the header has.
fn var_shown(header: &Header, number: u64, var: &Var) -> NcvVar
    requires sound { is_sound header.now ≡ true }
    requires there { slice_get header.now.vars number ≡ Some var.now }
    ensures { result ≡ var_shown header.now var.now }
{
    NcvVar {
        begin: var.begin,
        slab: slab(header, number as usize),
        vsize: vsize(header, number as usize),
        dims: var.dims.len() as u64,
        attrs: var.attrs.len() as u64,
        name_len: var.name.len() as u64,
        kind: type_number(var.kind),
        is_record: is_record(header, var),
    }
}

/// The variable of this number, its name, and the numbers of its dimensions.
#[unsafe(no_mangle)]
pub extern "C" fn ncv_inq_var(
    alloc: Global,
    bytes: &[u8],
    number: u64,
    name: &mut [u8],
    ids: &mut [u32],
    var: &mut NcvVar,
) -> i32
    ensures { IsAnswer result
        (Finds bytes.now (variable_at number)
        (λ header v. (var.new ≡ var_shown header v) × (name.new ≡ filled name.old v.name) × (ids.new ≡ filled ids.old v.dims)))
        (λ r. IsLookRefusal bytes.now (variable_at number) r × (var.new ≡ var.old) × (name.new ≡ name.old) × (ids.new ≡ ids.old)) }
{
    match read(alloc, bytes) {
        Ok((header, _)) => match variable_at(&header, number) {
            Ok(found) => {
                *var = var_shown(&header, number, found);
                fill(found.name.as_slice(), name);
                fill(found.dims.as_slice(), ids);
                drop(header);
                OK
            }
            Err(refusal) => {
                drop(header);
                number_of(refusal)
            }
        },
        Err(refusal) => number_of(refusal),
    }
}

/// The number of the first variable of this name.
#[unsafe(no_mangle)]
pub extern "C" fn ncv_inq_varid(alloc: Global, bytes: &[u8], name: &[u8], number: &mut u64) -> i32
    ensures { IsAnswer result
        (Finds bytes.now (variable_named name.now) (λ _ n. number.new ≡ n))
        (λ r. IsLookRefusal bytes.now (variable_named name.now) r × (number.new ≡ number.old)) }
{
    match read(alloc, bytes) {
        Ok((header, _)) => match variable_named(&header, name) {
            Ok(found) => {
                *number = found;
                drop(header);
                OK
            }
            Err(refusal) => {
                drop(header);
                number_of(refusal)
            }
        },
        Err(refusal) => number_of(refusal),
    }
}
