// What a region needs.
ghost use Rattle.std.specs.Prelude.{◌≡◌, ◌*◌, slice_get, IfSome};
ghost use Rattle.serial_spec.specs.ExternalForm as external;
ghost use Rattle.serial_spec.specs.Layout.{product};
ghost use Rattle.vara_extents.specs.Accepted.{IsAccepted};
ghost use Rattle.nc_classic_c.specs.Accepted.{HasRegion, IsRegionRefusal};
ghost use Rattle.nc_classic_c.specs.Answers.{IsAnswer};
ghost use Rattle.nc_classic_c.specs.Regions.{region_of};
ghost use Rattle.nc_classic_c.specs.Sizes.{needs_shown};

use crate::accepted::accept;
use crate::answers::{OK, number_of};
use crate::regions::NcvRegion;
use nc_base::{Header, Region};
use std::alloc::Global;
use type_external::{element_count, size_of};
use vara_extents::{records_needed, variable};

/// What a region needs.
#[repr(C)]
#[derive(Clone, Copy)]
pub struct NcvNeeds {
    /// The bytes of its elements.
    pub bytes: u64,
    /// The record count of a file that has it: its last record plus one, or 0 for a fixed variable or no element.
    pub records: u64,
}

/// The bytes of a region's elements.
fn bytes_of(header: &Header, var: usize, region: &Region) -> u64
    requires { IsAccepted header.now var region.now }
    ensures { IfSome (slice_get header.now.vars var) (λ v. result ≡ product region.now.count * external.size_of v.kind) }
{
    match variable(header, var) {
        None => 0,
        Some(var) => element_count(region.count.as_slice()) * size_of(var.kind),
    }
}

fn needs_shown(header: &Header, var: usize, region: &Region) -> NcvNeeds
    requires { IsAccepted header.now var region.now }
    ensures { IfSome (slice_get header.now.vars var) (λ v. result ≡ needs_shown header.now v region.now) }
{
    NcvNeeds {
        bytes: bytes_of(header, var, region),
        records: records_needed(header, var, region),
    }
}

/// Whether a region is accepted: how many bytes it has, and how many records it needs.
#[unsafe(no_mangle)]
pub extern "C" fn ncv_region_check(
    alloc: Global,
    bytes: &[u8],
    region: &NcvRegion,
    records: u64,
    put: bool,
    needs: &mut NcvNeeds,
) -> i32
    ensures { IsAnswer result
        (HasRegion bytes.now region.now records put (λ header v. needs.new ≡ needs_shown header v (region_of region.now)))
        (λ r. IsRegionRefusal bytes.now region.now records put r × (needs.new ≡ needs.old)) }
{
    match accept(alloc, bytes, region, records, put) {
        Ok(accepted) => {
            *needs = needs_shown(&accepted.header, accepted.var, &accepted.region);
            drop(accepted);
            OK
        }
        Err(refusal) => number_of(refusal),
    }
}
