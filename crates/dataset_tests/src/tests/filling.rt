// The share of a rank, boxes, and a small dataset that is filled.
ghost use Rattle.std.specs.Prelude.{◌≡◌, ◌≤◌, true, length};
ghost use Rattle.serial_spec.specs.HeaderBytes.{header_len};
ghost use Rattle.serial_spec.specs.Layout.{end_of};
ghost use Rattle.serial_spec.specs.SoundHeaders.{is_sound};

use super::{file, has_bytes, has_calls};
use fill_records::{boxes, prefill, share};
use nc_base::{DiskCall, Header, NcType, SizeList};
use nc_outside::{Disk, MemDisk};
use std::alloc::Global;
use std::process::Abort;
use test_fixtures::{NO_LAYOUT, NO_MEMORY, laid_out, one_variable, two};
use var_layout::file_end;

fn has_list(rt: &impl Abort, list: &SizeList, want: &[u64]) {
    assert!(rt; list.as_slice() == want);
}

#[test]
fn four_elements_of_two_rows_are_two_boxes(rt: HostRuntime) {
    let alloc = rt.alloc();
    assert!(rt; share(6, 1, 2) == (3, 6));
    let counts: SizeList = two(alloc, 2, 3).expect(&rt, NO_MEMORY);
    let found = boxes(alloc, &counts, 1, 5).expect(&rt, NO_MEMORY);
    let parts = found.as_slice();
    assert!(rt; parts.len() == 2);
    has_list(&rt, &parts[0].start, &[0, 1]);
    has_list(&rt, &parts[0].count, &[1, 2]);
    has_list(&rt, &parts[1].start, &[1, 0]);
    has_list(&rt, &parts[1].count, &[1, 2]);
    // A call, which hides from the check how each list of it is let go.
    drop(found);
}

/// The dimension x of length 4, and the int variable v over it, which begins at 80.
fn four_ints(rt: &impl Abort, alloc: Global) -> Header
    ensures { is_sound result ≡ true }
{
    let header = one_variable(alloc, 4, NcType::Int, 0).expect(rt, NO_MEMORY);
    laid_out(header).expect(rt, NO_LAYOUT)
}

/// The file has the bytes of the fixed variables.
fn is_long(rt: &impl Abort, header: &Header, disk: &MemDisk)
    ensures { end_of header.now (header_len header.now) 0 ≤ length disk.now.bytes }
{
    let end = file_end(header, 0);
    let size = disk.size();
    assert!(rt; end <= size && size < 1000);
}

/// Fills the dataset by writes of six bytes.
fn fill(rt: &impl Abort, alloc: Global, disk: &mut MemDisk, header: &Header)
    requires sound { is_sound header.now ≡ true }
    requires from { disk.old.from ≡ 0 }
{
    is_long(rt, header, disk);
    assert!(rt; prefill(alloc, disk, header, 6).is_ok());
}

const CALLS: [DiskCall; 3] = [
    DiskCall::Store(80, 6),
    DiskCall::Store(86, 6),
    DiskCall::Store(92, 4),
];

#[test]
fn four_ints_are_filled_by_windows_that_cut_them(rt: HostRuntime) {
    let alloc = rt.alloc();
    let header = four_ints(&rt, alloc);
    let mut disk = file(&rt, alloc, 96, b"");
    fill(&rt, alloc, &mut disk, &header);
    has_calls(&rt, alloc, &disk, &CALLS);
    let want = b"\xff\x80\0\0\x01\x80\0\0\x01\x80\0\0\x01\x80\0\0\x01";
    has_bytes(&rt, alloc, &disk, 79, want);
    drop(disk);
    drop(header);
}
