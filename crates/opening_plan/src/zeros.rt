// Zeros where no value of an existing dataset has its new place.
ghost use Rattle.std.specs.Prelude.{◌≡◌, ◌≤◌, ◌<◌, ◌+◌, ◌^◌, ◌++◌, map, IfOk, OnOk};
ghost use Rattle.redef_laws.specs.RisingSlabs.{gaps};
ghost use Rattle.redef_mover.specs.Moves.{behind, further, gap_calls, gaps_before, listed, slab_of, AreSpaced, AreSteps};

use crate::stores::push_stores;
use nc_base::{DiskCall, Memory};
use redef_mover::{Offset, Shift, Slabs};

/// Zeros between the slabs at their new places, from the place `first` to below the place `end`, the lowest first.
pub(crate) fn push_zeros(
    calls: &mut Vec<DiskCall>,
    slabs: &Slabs,
    first: u64,
    end: u64,
    window: u64,
) -> Result<(), Memory>
    requires some { 1 ≤ window }
    requires spaced { AreSpaced first end (listed slabs.now) }
    requires steps { AreSteps slabs.now.step slabs.now.count }
    requires low { end < 2 ^ 62 }
    ensures { OnOk result (calls.new.items ≡ calls.old.items ++ gap_calls window (gaps first end (listed slabs.now))) }
{
    let mut at = push_gaps(calls, &slabs.fixed, Offset::NONE, first, window)?;
    for record in 0..slabs.count {
        at = push_gaps(calls, &slabs.records, slabs.step.times(record), at, window)?;
    }
    push_stores(calls, at, end - at, window)
}

// Zeros before each slab of a record, from `at` on: where the last slab ends.
fn push_gaps(
    calls: &mut Vec<DiskCall>,
    slabs: &[Shift],
    offset: Offset,
    mut at: u64,
    window: u64,
) -> Result<u64, Memory>
    requires some { 1 ≤ window }
    requires spaced { AreSpaced at (2 ^ 62) (map (further offset.old offset.new) (map slab_of slabs.now)) }
    ensures place { IfOk result (λ place. place ≡ behind at (map (further offset.old offset.new) (map slab_of slabs.now))) }
    ensures calls { OnOk result (calls.new.items ≡ calls.old.items ++ gap_calls window (gaps_before at (map (further offset.old offset.new) (map slab_of slabs.now)))) }
{
    for slab in slabs {
        let place = slab.to + offset.new;
        push_stores(calls, at, place - at, window)?;
        at = place + slab.len;
    }
    Ok(at)
}
