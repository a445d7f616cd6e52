// The values of an existing dataset at their new places.
ghost use Rattle.std.specs.Prelude.{◌≡◌, ◌≤◌, ◌<◌, ◌+◌, ◌^◌, ◌++◌, ◌∷◌, [], map, reverse, OnOk};
ghost use Rattle.redef_mover.specs.Moves.{all_calls, further, listed, slab_calls, slab_of, window_calls, AreSteps};
ghost use Rattle.opening_plan.specs.Opening.{AreLow};

use nc_base::{DiskCall, Memory};
use redef_mover::{Offset, Shift, Slabs};

/// The moves of all slabs whose place changes, the highest first.
pub(crate) fn push_moves(
    calls: &mut Vec<DiskCall>,
    slabs: &Slabs,
    window: u64,
) -> Result<(), Memory>
    requires some { 1 ≤ window }
    requires low { AreLow (listed slabs.now) }
    requires steps { AreSteps slabs.now.step slabs.now.count }
    ensures { OnOk result (calls.new.items ≡ calls.old.items ++ all_calls window (reverse (listed slabs.now))) }
{
    for record in (0..slabs.count).rev() {
        push_record(calls, &slabs.records, slabs.step.times(record), window)?;
    }
    push_record(calls, &slabs.fixed, Offset::NONE, window)
}

// The moves of the slabs of one record, the highest first.
fn push_record(
    calls: &mut Vec<DiskCall>,
    slabs: &[Shift],
    offset: Offset,
    window: u64,
) -> Result<(), Memory>
    requires some { 1 ≤ window }
    requires low { AreLow (map (further offset.old offset.new) (map slab_of slabs.now)) }
    ensures { OnOk result (calls.new.items ≡ calls.old.items ++ all_calls window (reverse (map (further offset.old offset.new) (map slab_of slabs.now)))) }
{
    for number in (0..slabs.len()).rev() {
        push_changed(calls, &slabs[number].further(offset), window)?;
    }
    Ok(())
}

// The moves of a slab, if its place changes.
fn push_changed(calls: &mut Vec<DiskCall>, slab: &Shift, window: u64) -> Result<(), Memory>
    requires some { 1 ≤ window }
    requires old_end { slab.now.from + slab.now.len < 2 ^ 62 }
    requires end { slab.now.to + slab.now.len < 2 ^ 62 }
    ensures { OnOk result (calls.new.items ≡ calls.old.items ++ all_calls window (slab_of slab.now ∷ [])) }
{
    if slab.from == slab.to {
        return Ok(());
    }
    push_move(calls, slab, window)
}

// The moves of a slab, in windows from its top.
fn push_move(calls: &mut Vec<DiskCall>, slab: &Shift, window: u64) -> Result<(), Memory>
    requires some { 1 ≤ window }
    requires old_end { slab.now.from + slab.now.len < 2 ^ 62 }
    requires end { slab.now.to + slab.now.len < 2 ^ 62 }
    ensures { OnOk result (calls.new.items ≡ calls.old.items ++ slab_calls window (slab_of slab.now)) }
{
    for number in 0..slab.len.div_ceil(window) {
        push_window(calls, &slab.window(window, number))?;
    }
    Ok(())
}

// The move of a window: one read and one write.
fn push_window(calls: &mut Vec<DiskCall>, window: &Shift) -> Result<(), Memory>
    ensures { OnOk result (calls.new.items ≡ calls.old.items ++ window_calls (slab_of window.now)) }
{
    calls.push(DiskCall::Load(window.from, window.len))?;
    calls.push(DiskCall::Store(window.to, window.len))?;
    Ok(())
}
