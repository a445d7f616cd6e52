// Puts by data sieving.
ghost use Rattle.std.specs.Prelude.{◌≡◌, ◌+◌, ◌^◌, ◌<◌, ◌≤◌, length, flat_map, true, ℕ, IsOk, OnOk, OnErr};
ghost use Rattle.serial_spec.specs.DeviceCalls.{overlays};
ghost use Rattle.serial_spec.specs.Said.{write_cells, moved_down};
ghost use Rattle.overlay_laws.specs.Windows.{clips, HasPlace};
ghost use Rattle.overlay_laws.specs.Origins.{AreFound};
ghost use Rattle.overlay_laws.specs.Lines.{extents, IsByPlace, EndBelow};
ghost use Rattle.overlay_laws.specs.Changes.{IsBetween, IsBegun, store_calls};
ghost use Rattle.nc_outside.specs.Told.{after, with_end, BothTold};
ghost use Rattle.nc_outside.specs.Cause.{HasDiskCause};
ghost use Rattle.aggregator_rounds.specs.ToldWindows.{told_window};
ghost use Rattle.aggregator_rounds.specs.EntryParts.{source_of, AreFilled};
ghost use Rattle.data_sieving.specs.Sieving.{entry_windows, put_cells, LieOn};
ghost use Rattle.data_sieving.specs.Walked.{entries_in};

use crate::walk::{SieveWalk, SieveWindow};
use aggregator_rounds::{Unserved, close_window, lay_entry, open_window};
use nc_base::{Extent, Owned, PostList, StepErr};
use nc_outside::Disk;
use std::alloc::Global;

/// Writes the bytes of sorted entries, each of which has them in the post of its slot, window by window. Where entries share a
/// byte, the last one counts. A window with a hole is read over its hull, overlaid and written; one without is only written.
///
/// Refused, it leaves each byte old or as it would have been, so that bytes of no entry are as before.
///
/// `buf` holds one window, at most as many bytes as it has. The cost is that of the hulls' bytes and of the entries, each of which
/// is looked at once for each window that it has bytes in, as long as there is memory for those that reach past a window.
pub fn sieve_put<D: Disk>(
    alloc: Global,
    disk: &mut D,
    list: &[Owned],
    puts: &PostList,
    buf: &mut [u8],
) -> Result<(), StepErr>
    requires sorted { IsByPlace (extents list.now) }
    requires ends { EndBelow (2 ^ 62) (extents list.now) }
    requires filled { AreFilled list.now }
    requires on_disk { LieOn (D.from disk.old) (D.len disk.old) list.now }
    requires found { AreFound (source_of puts.now) list.now }
    requires buffer { 1 ≤ length buf.old }
    ensures from { D.from disk.new ≡ D.from disk.old }
    ensures len { D.len disk.new ≡ D.len disk.old }
    ensures bytes { OnOk result (D.held disk.new ≡ after (λ file. write_cells file (moved_down (D.from disk.old) (put_cells puts.now list.now))) (D.held disk.old)) }
    ensures refused { OnErr result (BothTold (λ old left. IsBetween old (write_cells old (moved_down (D.from disk.old) (put_cells puts.now list.now))) left) (D.held disk.old) (D.held disk.new)) }
    ensures calls { OnOk result (D.calls disk.new ≡ with_end (D.calls disk.old) (flat_map overlays (entry_windows (length buf.old) list.now))) }
    ensures begun { OnErr result (IsBegun (flat_map overlays (entry_windows (length buf.old) list.now)) (D.calls disk.old) (D.calls disk.new)) }
    ensures certain { D.sure disk.old → IsOk result }
    ensures sure { D.sure disk.old → D.sure disk.new }
    ensures cause { HasDiskCause (D.faults disk.old) (D.faults disk.new) result }
{
    let mut walk = SieveWalk {
        entries: Unserved::new(alloc, list),
        from: 0,
        size: buf.len() as u64,
    };
    'windows: while let Some(next) = walk.next_window() {
        put_window(alloc, disk, &next, puts, buf)?;
        let stop = next.stop;
        walk.pass(stop);
    }
    Ok(())
}

// Overlays the hull of a window with the entries' bytes, by one read at most and one write.
fn put_window<D: Disk>(
    alloc: Global,
    disk: &mut D,
    next: &SieveWindow,
    puts: &PostList,
    buf: &mut [u8],
) -> Result<(), StepErr>
    requires low { D.from disk.old ≤ next.now.window.hull.at }
    requires high { next.now.window.hull.at + next.now.window.hull.len ≤ D.from disk.old + D.len disk.old }
    requires hull { next.now.window.hull.at + next.now.window.hull.len < 2 ^ 62 }
    requires ends { EndBelow (2 ^ 62) (extents (entries_in next.now)) }
    requires filled { AreFilled (entries_in next.now) }
    requires found { AreFound (source_of puts.now) (entries_in next.now) }
    requires room { next.now.window.hull.len ≤ length buf.old }
    requires whole { next.now.window.full ≡ true → (x : ℕ) → next.now.window.hull.at ≤ x → x < next.now.window.hull.at + next.now.window.hull.len → HasPlace (clips next.now.window.hull.at (next.now.window.hull.at + next.now.window.hull.len) (put_cells puts.now (entries_in next.now))) x }
    ensures from { D.from disk.new ≡ D.from disk.old }
    ensures len { D.len disk.new ≡ D.len disk.old }
    ensures bytes { OnOk result (D.held disk.new ≡ after (λ file. write_cells file (moved_down (D.from disk.old) (clips next.now.window.hull.at (next.now.window.hull.at + next.now.window.hull.len) (put_cells puts.now (entries_in next.now))))) (D.held disk.old)) }
    ensures refused { OnErr result (BothTold (λ old left. IsBetween old (write_cells old (moved_down (D.from disk.old) (clips next.now.window.hull.at (next.now.window.hull.at + next.now.window.hull.len) (put_cells puts.now (entries_in next.now))))) left) (D.held disk.old) (D.held disk.new)) }
    ensures calls { OnOk result (D.calls disk.new ≡ with_end (D.calls disk.old) (store_calls (told_window next.now.window))) }
    ensures begun { OnErr result (IsBegun (store_calls (told_window next.now.window)) (D.calls disk.old) (D.calls disk.new)) }
    ensures certain { D.sure disk.old → IsOk result }
    ensures sure { D.sure disk.old → D.sure disk.new }
    ensures cause { HasDiskCause (D.faults disk.old) (D.faults disk.new) result }
{
    let bytes = &mut buf[..next.window.hull.len as usize];
    open_window(alloc, disk, &next.window, bytes)?;
    lay_window(next, puts, bytes);
    close_window(alloc, disk, &next.window, bytes)?;
    Ok(())
}

// Lays the bytes of a window's entries over its hull's.
fn lay_window(next: &SieveWindow, puts: &PostList, buf: &mut [u8])
    requires hull { next.now.window.hull.at + next.now.window.hull.len < 2 ^ 62 }
    requires room { length buf.old ≡ next.now.window.hull.len }
    requires ends { EndBelow (2 ^ 62) (extents (entries_in next.now)) }
    requires filled { AreFilled (entries_in next.now) }
    requires found { AreFound (source_of puts.now) (entries_in next.now) }
    ensures { buf.new ≡ write_cells buf.old (moved_down next.now.window.hull.at (clips next.now.window.hull.at (next.now.window.hull.at + next.now.window.hull.len) (put_cells puts.now (entries_in next.now)))) }
{
    lay_all(next.window.hull, next.carried, puts, buf);
    lay_all(next.window.hull, next.fresh, puts, buf);
}

// Lays the entries' bytes over the hull's, one entry after another.
fn lay_all(hull: Extent, entries: &[Owned], puts: &PostList, buf: &mut [u8])
    requires hull { hull.at + hull.len < 2 ^ 62 }
    requires room { length buf.old ≡ hull.len }
    requires ends { EndBelow (2 ^ 62) (extents entries.now) }
    requires filled { AreFilled entries.now }
    requires found { AreFound (source_of puts.now) entries.now }
    ensures { buf.new ≡ write_cells buf.old (moved_down hull.at (clips hull.at (hull.at + hull.len) (put_cells puts.now entries.now))) }
{
    for entry in entries {
        lay_entry(hull, entry, puts, buf);
    }
}
