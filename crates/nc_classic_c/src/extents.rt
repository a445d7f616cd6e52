// The bytes of the file that a region takes.
ghost use Rattle.std.specs.Prelude.{◌≡◌, ◌<◌, ◌^◌, length, drop, map};
ghost use Rattle.vara_extents.specs.Joined.{extents_of};
ghost use Rattle.vara_extents.specs.Left.{extents_left, IsReady};
ghost use Rattle.nc_classic_c.specs.Answers.{IsAnswer};
ghost use Rattle.nc_classic_c.specs.Accepted.{HasRegion, IsRegionRefusal};
ghost use Rattle.nc_classic_c.specs.Extents.{shown, filled, AreLaid};
ghost use Rattle.nc_classic_c.specs.Regions.{region_of};

use crate::accepted::accept;
use crate::answers::{OK, number_of};
use crate::copies;
use crate::regions::NcvRegion;
use nc_base::Extent;
use std::alloc::Global;
use vara_extents::Extents;

/// Bytes of a file that follow one another.
#[repr(C)]
#[derive(Clone, Copy)]
pub struct NcvExtent {
    /// The first of them.
    pub at: u64,
    /// How many.
    pub len: u64,
}

fn shown(extent: Extent) -> NcvExtent
    ensures { result ≡ shown extent }
{
    NcvExtent {
        at: extent.at,
        len: extent.len,
    }
}

/// Lays the extents from number `from` on into a slice, as many as there are and as it has room for. Answers how many
/// there are in all.
fn lay(extents: Extents, from: u64, into: &mut [NcvExtent]) -> u64
    requires ready { IsReady extents }
    requires few { length (extents_left extents) < 2 ^ 64 }
    ensures laid { into.new ≡ filled into.old (drop from (map shown (extents_left extents.entry))) }
    ensures total { result ≡ length (extents_left extents.entry) }
{
    let mut total = 0;
    for extent in extents {
        copies::lay(shown(extent), total, from, into);
        total += 1;
    }
    total
}

/// Where in the file the elements of a region lie: the extents from number `from` on, and how many there are in all.
#[unsafe(no_mangle)]
pub extern "C" fn ncv_extents(
    alloc: Global,
    bytes: &[u8],
    region: &NcvRegion,
    records: u64,
    put: bool,
    from: u64,
    into: &mut [NcvExtent],
    total: &mut u64,
) -> i32
    ensures { IsAnswer result
        (HasRegion bytes.now region.now records put (λ header v.
        AreLaid (map shown (extents_of header v (region_of region.now))) from into.old into.new total.new))
        (λ r. IsRegionRefusal bytes.now region.now records put r × (into.new ≡ into.old) × (total.new ≡ total.old)) }
{
    match accept(alloc, bytes, region, records, put) {
        Ok(accepted) => {
            let extents = Extents::new(
                &accepted.header,
                &accepted.measures,
                accepted.var,
                &accepted.region,
            );
            *total = lay(extents, from, into);
            drop(accepted);
            OK
        }
        Err(refusal) => number_of(refusal),
    }
}
