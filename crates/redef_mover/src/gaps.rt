// Zeros in the gaps between the slabs at their new places.
ghost use Rattle.std.specs.Prelude.{◌≡◌, ◌≤◌, ◌+◌, length, map, min, replicate, take, IfOk, OnOk};
ghost use Rattle.nc_outside.specs.Cause.{HasDiskCause};
ghost use Rattle.nc_outside.specs.Told.{after, with_end, BothTold};
ghost use Rattle.redef_mover.specs.Kept.{IsBeside, IsKept, IsOutside};
ghost use Rattle.redef_laws.specs.RisingSlabs.{gaps};
ghost use Rattle.redef_mover.specs.Moves.{all_cleared, behind, cleared, further, gap_calls, gaps_before, listed, slab_of, AreClearable, AreSpaced, AreSteps};
ghost use Rattle.serial_spec.specs.DeviceCalls.{stores};

use crate::slabs::{Offset, Shift, Slabs};
use nc_base::StepErr;
use nc_outside::Disk;
use std::alloc::Global;

/// Zeros to be written.
#[derive(Clone, Copy)]
pub(crate) struct Zeros<'z> {
    /// Zeros alone.
    pub(crate) bytes: &'z [u8],
    /// So many bytes are written at once.
    pub(crate) window: u64,
}

/// Writes zeros between the slabs at their new places, from the place `first` to below the place `end`, the lowest first.
pub(crate) fn clear_gaps<D: Disk>(
    alloc: Global,
    disk: &mut D,
    slabs: &Slabs,
    first: u64,
    end: u64,
    zeros: Zeros,
) -> Result<(), StepErr>
    requires from { D.from disk.old ≡ 0 }
    requires spaced { AreSpaced first end (listed slabs.now) }
    requires steps { AreSteps slabs.now.step slabs.now.count }
    requires inside { end ≤ D.len disk.old }
    requires some { 1 ≤ zeros.window }
    requires zeros { zeros.bytes.now ≡ replicate (length zeros.bytes.now) 0 }
    requires room { min zeros.window end ≤ length zeros.bytes.now }
    ensures bytes { OnOk result (D.held disk.new ≡ after (λ file. all_cleared file (gaps first end (listed slabs.now))) (D.held disk.old)) }
    ensures kept { BothTold (IsKept (IsBeside (gaps first end (listed slabs.now)))) (D.held disk.old) (D.held disk.new) }
    ensures calls { OnOk result (D.calls disk.new ≡ with_end (D.calls disk.old) (gap_calls zeros.entry.window (gaps first end (listed slabs.now)))) }
    ensures from { D.from disk.new ≡ 0 }
    ensures len { D.len disk.new ≡ D.len disk.old }
    ensures cause { HasDiskCause (D.faults disk.old) (D.faults disk.new) result }
{
    let mut at = clear_before(alloc, disk, &slabs.fixed, Offset::NONE, first, zeros)?;
    for record in 0..slabs.count {
        let offset = slabs.step.times(record);
        at = clear_before(alloc, disk, &slabs.records, offset, at, zeros)?;
    }
    clear(alloc, disk, at, end - at, zeros)
}

// Writes zeros before each slab of a record, from `at` on, and answers where the last slab ends.
fn clear_before<D: Disk>(
    alloc: Global,
    disk: &mut D,
    slabs: &[Shift],
    offset: Offset,
    mut at: u64,
    zeros: Zeros,
) -> Result<u64, StepErr>
    requires from { D.from disk.old ≡ 0 }
    requires clearable { AreClearable (D.len disk.old) zeros.window (length zeros.bytes.now) at (map (further offset.old offset.new) (map slab_of slabs.now)) }
    requires some { 1 ≤ zeros.window }
    requires zeros { zeros.bytes.now ≡ replicate (length zeros.bytes.now) 0 }
    ensures place { IfOk result (λ place. place ≡ behind at (map (further offset.old offset.new) (map slab_of slabs.now))) }
    ensures bytes { OnOk result (D.held disk.new ≡ after (λ file. all_cleared file (gaps_before at (map (further offset.old offset.new) (map slab_of slabs.now)))) (D.held disk.old)) }
    ensures kept { BothTold (IsKept (IsBeside (gaps_before at (map (further offset.old offset.new) (map slab_of slabs.now))))) (D.held disk.old) (D.held disk.new) }
    ensures calls { OnOk result (D.calls disk.new ≡ with_end (D.calls disk.old) (gap_calls zeros.entry.window (gaps_before at (map (further offset.old offset.new) (map slab_of slabs.now))))) }
    ensures from { D.from disk.new ≡ 0 }
    ensures len { D.len disk.new ≡ D.len disk.old }
    ensures cause { HasDiskCause (D.faults disk.old) (D.faults disk.new) result }
{
    let _length = disk.size();
    for slab in slabs {
        let place = slab.to + offset.new;
        clear(alloc, disk, at, place - at, zeros)?;
        at = place + slab.len;
    }
    Ok(at)
}

// Writes zeros into so many bytes.
fn clear<D: Disk>(
    alloc: Global,
    disk: &mut D,
    at: u64,
    len: u64,
    zeros: Zeros,
) -> Result<(), StepErr>
    requires from { D.from disk.old ≡ 0 }
    requires inside { at + len ≤ D.len disk.old }
    requires some { 1 ≤ zeros.window }
    requires zeros { zeros.bytes.now ≡ replicate (length zeros.bytes.now) 0 }
    requires room { min zeros.window len ≤ length zeros.bytes.now }
    ensures bytes { OnOk result (D.held disk.new ≡ after (λ file. cleared file (at, len)) (D.held disk.old)) }
    ensures kept { BothTold (IsKept (IsOutside at len)) (D.held disk.old) (D.held disk.new) }
    ensures calls { OnOk result (D.calls disk.new ≡ with_end (D.calls disk.old) (stores zeros.entry.window at len)) }
    ensures from { D.from disk.new ≡ 0 }
    ensures len { D.len disk.new ≡ D.len disk.old }
    ensures cause { HasDiskCause (D.faults disk.old) (D.faults disk.new) result }
{
    let _length = disk.size();
    for window in 0..len.div_ceil(zeros.window) {
        let before = window * zeros.window;
        let bytes = first_of(zeros.bytes, zeros.window.min(len - before) as usize);
        disk.write_at(alloc, at + before, bytes)?;
    }
    Ok(())
}

fn first_of(zeros: &[u8], len: usize) -> &[u8]
    requires { len ≤ length zeros.now }
    ensures { result.now ≡ take len zeros.now }
{
    &zeros[..len]
}
