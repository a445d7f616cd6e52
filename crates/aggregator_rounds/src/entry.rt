// Entries, and their parts in a window, which are laid over its bytes or collected out of them.
ghost use Rattle.std.specs.Prelude.{◌≡◌, ◌+◌, ◌^◌, ◌<◌, ◌≤◌, [], ◌∷◌, length, take, drop, slice_set};
ghost use Rattle.serial_spec.specs.File.{written};
ghost use Rattle.serial_spec.specs.Said.{write_cells, moved_down};
ghost use Rattle.overlay_laws.specs.Windows.{clip};
ghost use Rattle.overlay_laws.specs.Entries.{cell_of};
ghost use Rattle.aggregator_rounds.specs.EntryParts.{blob_at, buffer_cell, part_in, source_of};

use nc_base::{Blob, Extent, Owned, PostList};

/// Lays the bytes that an entry has in the hull over those of a buffer, which is as long. They are found in the post of its slot.
pub fn lay_entry(hull: Extent, entry: &Owned, puts: &PostList, buf: &mut [u8])
    requires hull { hull.at + hull.len < 2 ^ 62 }
    requires room { length buf.old ≡ hull.len }
    requires end { entry.now.extent.at + entry.now.extent.len < 2 ^ 62 }
    requires filled { 1 ≤ entry.now.extent.len }
    requires found { entry.now.from + entry.now.extent.len ≤ length (source_of puts.now entry.now.rank entry.now.slot) }
    ensures { buf.new ≡ write_cells buf.old (moved_down hull.at (clip hull.at (hull.at + hull.len) (cell_of (source_of puts.now) entry.now) ∷ [])) }
{
    let bytes = puts.as_slice()[entry.slot as usize].bytes.as_slice();
    let part = cut(entry, hull);
    let bytes = part_of(bytes, part.from as usize, part.extent.len as usize);
    copy_to(buf, (part.extent.at - hull.at) as usize, bytes);
}

/// Copies the bytes that an entry has in the hull out of a buffer, which is as long, into the blob of its slot.
pub fn collect_entry(hull: Extent, entry: &Owned, buf: &[u8], blobs: &mut [Blob])
    requires hull { hull.at + hull.len < 2 ^ 62 }
    requires room { length buf.now ≡ hull.len }
    requires end { entry.now.extent.at + entry.now.extent.len < 2 ^ 62 }
    requires filled { 1 ≤ entry.now.extent.len }
    requires fit { entry.now.from + entry.now.extent.len ≤ length (blob_at blobs.old entry.now.slot) }
    ensures { blobs.new ≡ slice_set blobs.old entry.now.slot (written (blob_at blobs.old entry.now.slot) (buffer_cell hull.at (hull.at + hull.len) buf.now entry.now).0 (buffer_cell hull.at (hull.at + hull.len) buf.now entry.now).1) }
{
    let slot = entry.slot as usize;
    let blob = blobs[slot].as_mut_slice();
    let part = cut(entry, hull);
    let at = (part.extent.at - hull.at) as usize;
    let bytes = part_of(buf, at, part.extent.len as usize);
    copy_to(blob, part.from as usize, bytes);
}

/// Where an entry ends.
pub fn end_of(entry: &Owned) -> u64
    requires { entry.now.extent.at + entry.now.extent.len < 2 ^ 64 }
    ensures { result ≡ entry.now.extent.at + entry.now.extent.len }
{
    entry.extent.at + entry.extent.len
}

// The part of an entry that lies in a hull; it has no byte where the two do not meet.
fn cut(entry: &Owned, hull: Extent) -> Owned
    requires end { entry.now.extent.at + entry.now.extent.len < 2 ^ 64 }
    requires from { entry.now.from + entry.now.extent.len < 2 ^ 64 }
    requires hull { hull.at + hull.len < 2 ^ 64 }
    ensures { result ≡ part_in hull.at (hull.at + hull.len) entry.now }
{
    let end = hull.at + hull.len;
    let at = entry.extent.at.max(hull.at).min(end);
    let stop = end_of(entry).min(end).max(at);
    let skipped = at.saturating_sub(entry.extent.at).min(entry.extent.len);
    Owned {
        extent: Extent { at, len: stop - at },
        rank: entry.rank,
        request: entry.request,
        slot: entry.slot,
        from: entry.from + skipped,
    }
}

// Some of a slice's bytes.
fn part_of(bytes: &[u8], from: usize, len: usize) -> &[u8]
    requires { from + len ≤ length bytes.now }
    ensures { result.now ≡ take len (drop from bytes.now) }
{
    &bytes[from..from + len]
}

// Writes bytes over those of a slice.
fn copy_to(buf: &mut [u8], at: usize, bytes: &[u8])
    requires { at + length bytes.now ≤ length buf.old }
    ensures { buf.new ≡ written buf.old at bytes.now }
{
    buf[at..at + bytes.len()].copy_from_slice(bytes);
}
