// Dimensions.
ghost use Rattle.std.specs.Prelude.{◌≡◌};
ghost use Rattle.nc_classic_c.specs.Answers.{IsAnswer};
ghost use Rattle.nc_classic_c.specs.Extents.{filled};
ghost use Rattle.nc_classic_c.specs.Looks.{Finds, IsLookRefusal, dimension_at, dimension_named};
ghost use Rattle.nc_classic_c.specs.Parts.{dim_shown};

use crate::answers::{OK, number_of};
use crate::copies::fill;
use crate::headers::read;
use crate::looks::{dimension_at, dimension_named};
use nc_base::Dim;
use std::alloc::Global;

/// A dimension.
#[repr(C)]
#[derive(Clone, Copy)]
pub struct NcvDim {
    /// 0 for the record dimension.
    pub length: u64,
    /// The bytes of its name.
    pub name_len: u64,
}

fn dim_shown(dim: &Dim) -> NcvDim
    ensures { result ≡ dim_shown dim.now }
{
    NcvDim {
        length: dim.len,
        name_len: dim.name.len() as u64,
    }
}

/// The dimension of this number, and its name.
#[unsafe(no_mangle)]
pub extern "C" fn ncv_inq_dim(
    alloc: Global,
    bytes: &[u8],
    number: u64,
    name: &mut [u8],
    dim: &mut NcvDim,
) -> i32
    ensures { IsAnswer result
        (Finds bytes.now (dimension_at number) (λ _ d. (dim.new ≡ dim_shown d) × (name.new ≡ filled name.old d.name)))
        (λ r. IsLookRefusal bytes.now (dimension_at number) r × (dim.new ≡ dim.old) × (name.new ≡ name.old)) }
{
    match read(alloc, bytes) {
        Ok((header, _)) => match dimension_at(&header, number) {
            Ok(found) => {
                *dim = dim_shown(found);
                fill(found.name.as_slice(), name);
                drop(header);
                OK
            }
            Err(refusal) => {
                drop(header);
                number_of(refusal)
            }
        },
        Err(refusal) => number_of(refusal),
    }
}

/// The number of the first dimension of this name.
#[unsafe(no_mangle)]
pub extern "C" fn ncv_inq_dimid(alloc: Global, bytes: &[u8], name: &[u8], number: &mut u64) -> i32
    ensures { IsAnswer result
        (Finds bytes.now (dimension_named name.now) (λ _ n. number.new ≡ n))
        (λ r. IsLookRefusal bytes.now (dimension_named name.now) r × (number.new ≡ number.old)) }
{
    match read(alloc, bytes) {
        Ok((header, _)) => match dimension_named(&header, name) {
            Ok(found) => {
                *number = found;
                drop(header);
                OK
            }
            Err(refusal) => {
                drop(header);
                number_of(refusal)
            }
        },
        Err(refusal) => number_of(refusal),
    }
}
