// How large a file is.
ghost use Rattle.std.specs.Prelude.{◌≡◌, true, Ok, Err, IfOk, IfErr};
ghost use Rattle.serial_spec.specs.SoundHeaders.{is_sound};
ghost use Rattle.nc_classic_c.specs.Answers.{IsAnswer};
ghost use Rattle.nc_classic_c.specs.Looks.{Finds, IsLookRefusal};
ghost use Rattle.nc_classic_c.specs.Sizes.{fits, sizes_for};

use crate::answers::{OK, Refusal, number_of};
use crate::headers::read;
use nc_base::{Code, FILE_LIMIT, Header};
use std::alloc::Global;
use var_layout::{file_end, record_limit, recsize};

/// The sizes of a file.
#[repr(C)]
#[derive(Clone, Copy)]
pub struct NcvSizes {
    /// The bytes from a record to the next one.
    pub record_size: u64,
    /// The file's length in bytes.
    pub end: u64,
}

/// Whether record count and end of a file with so many records are below their limits.
pub(crate) fn fits(header: &Header, records: u64) -> bool
    ensures { result ≡ fits records header.now }
{
    records < record_limit(header.version) && file_end(header, records) < FILE_LIMIT
}

/// The sizes of a file with so many records.
fn sizes_for(header: &Header, records: u64) -> Result<NcvSizes, Refusal>
    requires { is_sound header.now ≡ true }
    ensures found { IfOk result (λ s. sizes_for records header.now ≡ Ok s) }
    ensures refused { IfErr result (λ r. sizes_for records header.now ≡ Err r) }
{
    if fits(header, records) {
        Ok(NcvSizes {
            record_size: recsize(header),
            end: file_end(header, records),
        })
    } else {
        Err(Refusal::Asked(Code::ETooLarge))
    }
}

/// The bytes of a record, and the length of a file with so many records.
#[unsafe(no_mangle)]
pub extern "C" fn ncv_inq_sizes(
    alloc: Global,
    bytes: &[u8],
    records: u64,
    sizes: &mut NcvSizes,
) -> i32
    ensures { IsAnswer result
        (Finds bytes.now (sizes_for records) (λ _ s. sizes.new ≡ s))
        (λ r. IsLookRefusal bytes.now (sizes_for records) r × (sizes.new ≡ sizes.old)) }
{
    match read(alloc, bytes) {
        Ok((header, _)) => match sizes_for(&header, records) {
            Ok(found) => {
                *sizes = found;
                drop(header);
                OK
            }
            Err(refusal) => {
                drop(header);
                number_of(refusal)
            }
        },
        Err(refusal) => number_of(refusal),
    }
}
