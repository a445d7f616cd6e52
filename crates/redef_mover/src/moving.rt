// The slabs of the old variables at their new places.
ghost use Rattle.std.specs.Prelude.{◌≡◌, ◌≤◌, ◌+◌, ◌∷◌, [], ℕ, length, map, reverse, OnOk};
ghost use Rattle.nc_outside.specs.Cause.{HasDiskCause};
ghost use Rattle.nc_outside.specs.Told.{after, with_end, BothTold};
ghost use Rattle.redef_mover.specs.Kept.{IsKept, IsOutside, IsUnmoved};
ghost use Rattle.redef_mover.specs.Moves.{all_calls, all_moved, further, listed, slab_calls, slab_moved, slab_of, window_calls, AreListed, AreMovable, IsMovable};

use crate::slabs::{Offset, Shift, Slabs};
use nc_base::StepErr;
use nc_outside::Disk;
use std::alloc::Global;

/// Moves all slabs whose place changes, the highest first, so that no byte is written over before it is moved.
pub(crate) fn move_all<D: Disk>(
    alloc: Global,
    disk: &mut D,
    slabs: &Slabs,
    size: u64,
    buf: &mut [u8],
) -> Result<(), StepErr>
    requires from { D.from disk.old ≡ 0 }
    requires slabs { AreListed (D.len disk.old) size (length buf.old) slabs.now }
    requires some { 1 ≤ size }
    ensures bytes { OnOk result (D.held disk.new ≡ after (λ file. all_moved file (reverse (listed slabs.now))) (D.held disk.old)) }
    ensures kept { BothTold (IsKept (IsUnmoved (listed slabs.now))) (D.held disk.old) (D.held disk.new) }
    ensures calls { OnOk result (D.calls disk.new ≡ with_end (D.calls disk.old) (all_calls size (reverse (listed slabs.now)))) }
    ensures from { D.from disk.new ≡ 0 }
    ensures len { D.len disk.new ≡ D.len disk.old }
    ensures cause { HasDiskCause (D.faults disk.old) (D.faults disk.new) result }
{
    for record in (0..slabs.count).rev() {
        move_slabs(
            alloc,
            disk,
            &slabs.records,
            slabs.step.times(record),
            size,
            buf,
        )?;
    }
    move_slabs(alloc, disk, &slabs.fixed, Offset::NONE, size, buf)
}

// Moves the slabs of one record whose place changes, the highest first.
fn move_slabs<D: Disk>(
    alloc: Global,
    disk: &mut D,
    slabs: &[Shift],
    offset: Offset,
    size: u64,
    buf: &mut [u8],
) -> Result<(), StepErr>
    requires from { D.from disk.old ≡ 0 }
    requires movable { AreMovable (D.len disk.old) size (length buf.old) (map (further offset.old offset.new) (map slab_of slabs.now)) }
    requires some { 1 ≤ size }
    ensures bytes { OnOk result (D.held disk.new ≡ after (λ file. all_moved file (reverse (map (further offset.old offset.new) (map slab_of slabs.now)))) (D.held disk.old)) }
    ensures kept { BothTold (IsKept (IsUnmoved (map (further offset.old offset.new) (map slab_of slabs.now)))) (D.held disk.old) (D.held disk.new) }
    ensures calls { OnOk result (D.calls disk.new ≡ with_end (D.calls disk.old) (all_calls size (reverse (map (further offset.old offset.new) (map slab_of slabs.now))))) }
    ensures from { D.from disk.new ≡ 0 }
    ensures len { D.len disk.new ≡ D.len disk.old }
    ensures cause { HasDiskCause (D.faults disk.old) (D.faults disk.new) result }
{
    for k in (0..slabs.len()).rev() {
        move_changed(alloc, disk, &slabs[k].further(offset), size, buf)?;
    }
    Ok(())
}

// Moves a slab, if its place changes.
fn move_changed<D: Disk>(
    alloc: Global,
    disk: &mut D,
    slab: &Shift,
    size: u64,
    buf: &mut [u8],
) -> Result<(), StepErr>
    requires from { D.from disk.old ≡ 0 }
    requires movable { IsMovable (D.len disk.old) size (length buf.old) (slab_of slab.now) }
    requires some { 1 ≤ size }
    ensures bytes { OnOk result (D.held disk.new ≡ after (λ file. all_moved file (slab_of slab.now ∷ [])) (D.held disk.old)) }
    ensures kept { BothTold (IsKept (IsUnmoved (slab_of slab.now ∷ []))) (D.held disk.old) (D.held disk.new) }
    ensures calls { OnOk result (D.calls disk.new ≡ with_end (D.calls disk.old) (all_calls size (slab_of slab.now ∷ []))) }
    ensures from { D.from disk.new ≡ 0 }
    ensures len { D.len disk.new ≡ D.len disk.old }
    ensures cause { HasDiskCause (D.faults disk.old) (D.faults disk.new) result }
{
    if slab.from == slab.to {
        return Ok(());
    }
    move_slab(alloc, disk, slab, size, buf)
}

// Moves the bytes of a slab, in windows of `size` bytes from its top.
fn move_slab<D: Disk>(
    alloc: Global,
    disk: &mut D,
    slab: &Shift,
    size: u64,
    buf: &mut [u8],
) -> Result<(), StepErr>
    requires from { D.from disk.old ≡ 0 }
    requires movable { IsMovable (D.len disk.old) size (length buf.old) (slab_of slab.now) }
    requires some { 1 ≤ size }
    ensures bytes { OnOk result (D.held disk.new ≡ after (λ file. slab_moved file (slab_of slab.now)) (D.held disk.old)) }
    ensures kept { BothTold (IsKept (IsOutside slab.now.to slab.now.len)) (D.held disk.old) (D.held disk.new) }
    ensures calls { OnOk result (D.calls disk.new ≡ with_end (D.calls disk.old) (slab_calls size (slab_of slab.now))) }
    ensures from { D.from disk.new ≡ 0 }
    ensures len { D.len disk.new ≡ D.len disk.old }
    ensures cause { HasDiskCause (D.faults disk.old) (D.faults disk.new) result }
{
    for number in 0..slab.len.div_ceil(size) {
        move_window(alloc, disk, &slab.window(size, number), buf)?;
    }
    Ok(())
}

// Moves the bytes of a window, by one read and one write.
fn move_window<D: Disk>(
    alloc: Global,
    disk: &mut D,
    window: &Shift,
    buf: &mut [u8],
) -> Result<(), StepErr>
    requires from { D.from disk.old ≡ 0 }
    requires old_end { window.now.from + window.now.len ≤ D.len disk.old }
    requires end { window.now.to + window.now.len ≤ D.len disk.old }
    requires room { window.now.len ≤ length buf.old }
    ensures bytes { OnOk result (D.held disk.new ≡ after (λ file. slab_moved file (slab_of window.now)) (D.held disk.old)) }
    ensures kept { BothTold (IsKept (IsOutside window.now.to window.now.len)) (D.held disk.old) (D.held disk.new) }
    ensures calls { OnOk result (D.calls disk.new ≡ with_end (D.calls disk.old) (window_calls (slab_of window.now))) }
    ensures from { D.from disk.new ≡ 0 }
    ensures len { D.len disk.new ≡ D.len disk.old }
    ensures cause { HasDiskCause (D.faults disk.old) (D.faults disk.new) result }
{
    let bytes = &mut buf[..window.len as usize];
    disk.read_at(alloc, window.from, bytes)?;
    disk.write_at(alloc, window.to, bytes)
}
