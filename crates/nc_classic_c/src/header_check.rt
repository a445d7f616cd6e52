// Whether bytes begin with a header.
ghost use Rattle.std.specs.Prelude.{◌≡◌, length};
ghost use Rattle.nc_classic_c.specs.Answers.{IsAnswer};
ghost use Rattle.nc_classic_c.specs.Faults.{fault_told};
ghost use Rattle.nc_classic_c.specs.Headers.{IsHeaderRefusal};
ghost use Rattle.nc_classic_c.specs.Counts.{counts_of, AreCountsOf};

use crate::answers::{OK, Refusal, number_of};
use crate::faults::{NcvFault, fault_shown};
use crate::headers::read;
use nc_base::Header;
use std::alloc::Global;

/// The numbers of a header.
#[repr(C)]
#[derive(Clone, Copy)]
pub struct NcvCounts {
    /// 1, 2 or 5.
    pub version: u32,
    /// The header's length in bytes.
    pub length: u64,
    pub records: u64,
    pub dims: u64,
    /// Those of the dataset.
    pub attrs: u64,
    pub vars: u64,
}

/// The numbers of a header of this length.
fn counts_of(header: &Header, len: u64) -> NcvCounts
    ensures { result ≡ counts_of header.now len }
{
    NcvCounts {
        version: u32::from(header.version),
        length: len,
        records: header.records,
        dims: header.dims.len() as u64,
        attrs: header.attrs.len() as u64,
        vars: header.vars.len() as u64,
    }
}

/// Tells the fault, if that is why.
fn tell(refusal: Refusal, fault: &mut NcvFault)
    ensures { fault.new ≡ fault_told refusal fault.old }
{
    if let Refusal::Header(e) = refusal {
        *fault = fault_shown(e);
    }
}

/// Whether the bytes begin with a sound header: its numbers, or the first fault from the front.
#[unsafe(no_mangle)]
pub extern "C" fn ncv_header_check(
    alloc: Global,
    bytes: &[u8],
    counts: &mut NcvCounts,
    fault: &mut NcvFault,
) -> i32
    ensures { IsAnswer result
        (AreCountsOf bytes.now counts.new × (fault.new ≡ fault.old))
        (λ r. IsHeaderRefusal bytes.now r × (fault.new ≡ fault_told r fault.old) × (counts.new ≡ counts.old)) }
{
    match read(alloc, bytes) {
        Ok((header, len)) => {
            *counts = counts_of(&header, len);
            OK
        }
        Err(refusal) => {
            tell(refusal, fault);
            number_of(refusal)
        }
    }
}
