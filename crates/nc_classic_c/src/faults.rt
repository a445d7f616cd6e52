// What is wrong with a header, as C reads it.
ghost use Rattle.std.specs.Prelude.{◌≡◌};
ghost use Rattle.nc_classic_c.specs.Faults.{shown, fault_shown};

use nc_base::HeaderErr;

/// What is wrong with the bytes of a header.
#[repr(C)]
#[derive(Clone, Copy)]
pub struct NcvFault {
    /// Which fault it is.
    pub kind: u32,
    /// The byte of the field at fault, or the variable at fault.
    pub place: u64,
    /// The second variable of two that share a byte.
    pub other: u64,
}

fn shown(kind: u32, place: u64, other: u64) -> NcvFault
    ensures { result ≡ shown kind place other }
{
    NcvFault { kind, place, other }
}

/// A fault by its numbers.
pub(crate) fn fault_shown(fault: HeaderErr) -> NcvFault
    ensures { result ≡ fault_shown fault }
{
    match fault {
        HeaderErr::Memory => shown(0, 0, 0),
        HeaderErr::NotCdf => shown(1, 0, 0),
        HeaderErr::BadVersion => shown(2, 0, 0),
        HeaderErr::Truncated(place) => shown(3, place, 0),
        HeaderErr::BadTag(place) => shown(4, place, 0),
        HeaderErr::BadType(place) => shown(5, place, 0),
        HeaderErr::BadNumber(place) => shown(6, place, 0),
        HeaderErr::TwoRecordDims => shown(7, 0, 0),
        HeaderErr::RecordDimNotFirst(var) => shown(8, var as u64, 0),
        HeaderErr::BadDimId(var) => shown(9, var as u64, 0),
        HeaderErr::Streaming => shown(10, 0, 0),
        HeaderErr::TooLarge => shown(11, 0, 0),
        HeaderErr::Shared(var, other) => shown(12, var as u64, other as u64),
    }
}
