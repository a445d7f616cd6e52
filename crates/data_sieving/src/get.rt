// Gets by data sieving.
ghost use Rattle.std.specs.Prelude.{◌≡◌, ◌+◌, ◌^◌, ◌<◌, ◌≤◌, length, map, flat_map, ℕ, is_ok, if◌then◌else◌, IsOk, OnOk, OnErr, IfSome};
ghost use Rattle.serial_spec.specs.DeviceCalls.{loads};
ghost use Rattle.serial_spec.specs.Said.{write_cells};
ghost use Rattle.overlay_laws.specs.Lines.{extents, IsByPlace, EndBelow};
ghost use Rattle.overlay_laws.specs.Changes.{IsBegun, load_calls};
ghost use Rattle.nc_outside.specs.Told.{with_end};
ghost use Rattle.nc_outside.specs.Cause.{HasDiskCause};
ghost use Rattle.aggregator_rounds.specs.ToldWindows.{told_window};
ghost use Rattle.aggregator_rounds.specs.EntryParts.{blob_at, buffer_cell, AreFilled};
ghost use Rattle.data_sieving.specs.Sieving.{entry_windows, of_slot, AreAsLong, FitBlobs, HasGot, HaveOnePlace, LieOn};
ghost use Rattle.data_sieving.specs.Walked.{entries_in, HasGotPart};

use crate::walk::{SieveWalk, SieveWindow};
use aggregator_rounds::{Unserved, collect_entry, get_window};
use nc_base::{Blob, BlobList, Extent, Owned, StepErr};
use nc_outside::Disk;
use std::alloc::Global;

/// Reads the bytes of sorted entries, each into the blob of its slot, window by window. A window's hull is read at once, so that
/// many small entries cost one call of the disk.
///
/// Refused, it leaves the file as it was, and the blobs as long as they were.
///
/// `buf` holds one window, at most as many bytes as it has. The cost is that of the hulls' bytes and of the entries, each of which
/// is looked at once for each window that it has bytes in, as long as there is memory for those that reach past a window.
pub fn sieve_get<D: Disk>(
    alloc: Global,
    disk: &mut D,
    list: &[Owned],
    buf: &mut [u8],
    into: &mut BlobList,
) -> Result<(), StepErr>
    requires sorted { IsByPlace (extents list.now) }
    requires ends { EndBelow (2 ^ 62) (extents list.now) }
    requires filled { AreFilled list.now }
    requires on_disk { LieOn (D.from disk.old) (D.len disk.old) list.now }
    requires fit { FitBlobs into.old list.now }
    requires one_place { HaveOnePlace list.now }
    requires buffer { 1 ≤ length buf.old }
    ensures from { D.from disk.new ≡ D.from disk.old }
    ensures len { D.len disk.new ≡ D.len disk.old }
    ensures bytes { D.held disk.new ≡ D.held disk.old }
    ensures read { OnOk result (IfSome (D.held disk.old) (λ file. HasGot (D.from disk.old) file list.now into.old into.new)) }
    ensures blobs { AreAsLong into.old into.new }
    ensures calls { OnOk result (D.calls disk.new ≡ with_end (D.calls disk.old) (flat_map loads (entry_windows (length buf.old) list.now))) }
    ensures begun { OnErr result (IsBegun (flat_map loads (entry_windows (length buf.old) list.now)) (D.calls disk.old) (D.calls disk.new)) }
    ensures certain { D.sure disk.old → IsOk result }
    ensures sure { D.sure disk.old → D.sure disk.new }
    ensures cause { HasDiskCause (D.faults disk.old) (D.faults disk.new) result }
{
    let blobs = into.as_mut_slice();
    let mut walk = SieveWalk {
        entries: Unserved::new(alloc, list),
        from: 0,
        size: buf.len() as u64,
    };
    'windows: while let Some(next) = walk.next_window() {
        read_window(alloc, disk, &next, buf, blobs)?;
        let stop = next.stop;
        walk.pass(stop);
    }
    Ok(())
}

// Reads the hull of a window and copies the entries' bytes out of it.
fn read_window<D: Disk>(
    alloc: Global,
    disk: &mut D,
    next: &SieveWindow,
    buf: &mut [u8],
    blobs: &mut [Blob],
) -> Result<(), StepErr>
    requires low { D.from disk.old ≤ next.now.window.hull.at }
    requires high { next.now.window.hull.at + next.now.window.hull.len ≤ D.from disk.old + D.len disk.old }
    requires hull { next.now.window.hull.at + next.now.window.hull.len < 2 ^ 62 }
    requires ends { EndBelow (2 ^ 62) (extents (entries_in next.now)) }
    requires filled { AreFilled (entries_in next.now) }
    requires fit { FitBlobs blobs.old (entries_in next.now) }
    requires room { next.now.window.hull.len ≤ length buf.old }
    ensures from { D.from disk.new ≡ D.from disk.old }
    ensures len { D.len disk.new ≡ D.len disk.old }
    ensures bytes { D.held disk.new ≡ D.held disk.old }
    ensures read { OnOk result (IfSome (D.held disk.old) (λ file. HasGotPart (next.now.window.hull.at, next.now.window.hull.at + next.now.window.hull.len) (D.from disk.old) file (entries_in next.now) blobs.old blobs.new)) }
    ensures blobs { AreAsLong blobs.old blobs.new }
    ensures calls { D.calls disk.new ≡ (if is_ok result then with_end (D.calls disk.old) (load_calls (told_window next.now.window)) else D.calls disk.old) }
    ensures certain { D.sure disk.old → IsOk result }
    ensures sure { D.sure disk.old → D.sure disk.new }
    ensures cause { HasDiskCause (D.faults disk.old) (D.faults disk.new) result }
{
    let bytes = &mut buf[..next.window.hull.len as usize];
    get_window(alloc, disk, &next.window, bytes)?;
    collect_window(next, bytes, blobs);
    Ok(())
}

// Copies the bytes of a window's entries out of its hull's.
fn collect_window(next: &SieveWindow, buf: &[u8], blobs: &mut [Blob])
    requires hull { next.now.window.hull.at + next.now.window.hull.len < 2 ^ 62 }
    requires room { length buf.now ≡ next.now.window.hull.len }
    requires ends { EndBelow (2 ^ 62) (extents (entries_in next.now)) }
    requires filled { AreFilled (entries_in next.now) }
    requires fit { FitBlobs blobs.old (entries_in next.now) }
    ensures each { (k : ℕ) → blob_at blobs.new k ≡ write_cells (blob_at blobs.old k) (map (λ o. buffer_cell next.now.window.hull.at (next.now.window.hull.at + next.now.window.hull.len) buf.now o) (of_slot k (entries_in next.now))) }
    ensures long { AreAsLong blobs.old blobs.new }
{
    collect_all(next.window.hull, next.carried, buf, blobs);
    collect_all(next.window.hull, next.fresh, buf, blobs);
}

// Copies the entries' bytes out of the hull's, one entry after another.
fn collect_all(hull: Extent, entries: &[Owned], buf: &[u8], blobs: &mut [Blob])
    requires hull { hull.at + hull.len < 2 ^ 62 }
    requires room { length buf.now ≡ hull.len }
    requires ends { EndBelow (2 ^ 62) (extents entries.now) }
    requires filled { AreFilled entries.now }
    requires fit { FitBlobs blobs.old entries.now }
    ensures each { (k : ℕ) → blob_at blobs.new k ≡ write_cells (blob_at blobs.old k) (map (λ o. buffer_cell hull.at (hull.at + hull.len) buf.now o) (of_slot k entries.now)) }
    ensures long { AreAsLong blobs.old blobs.new }
{
    for entry in entries {
        collect_entry(hull, entry, buf, blobs);
    }
}
