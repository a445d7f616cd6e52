// A disk in memory.
use super::{NO_MEMORY, blob};
use nc_base::DiskCall;
use nc_outside::{Disk, Fail, FailList, FailOp, MemDisk};
use std::alloc::Global;
use std::process::Abort;

// A write inside the disk.
fn store(rt: &impl Abort, alloc: Global, disk: &mut MemDisk, at: u64, bytes: &[u8]) -> bool {
    let from = disk.first_place();
    let len = disk.size();
    assert!(rt; from <= at && at - from <= len && bytes.len() as u64 <= len - (at - from));
    disk.write_at(alloc, at, bytes).is_ok()
}

// A read inside the disk.
fn load(rt: &impl Abort, alloc: Global, disk: &mut MemDisk, at: u64, into: &mut [u8]) -> bool {
    let from = disk.first_place();
    let len = disk.size();
    assert!(rt; from <= at && at - from <= len && into.len() as u64 <= len - (at - from));
    disk.read_at(alloc, at, into).is_ok()
}

// A split inside the disk.
fn split(rt: &impl Abort, alloc: Global, disk: &mut MemDisk, at: u64) -> Option<MemDisk> {
    let from = disk.first_place();
    let len = disk.size();
    assert!(rt; from <= at && at - from <= len);
    disk.split_off(alloc, at).ok()
}

// A growth of a whole disk.
fn grow(rt: &impl Abort, alloc: Global, disk: &mut MemDisk, size: u64) -> bool {
    let from = disk.first_place();
    let len = disk.size();
    assert!(rt; from == 0 && len <= size && size < 1 << 63);
    disk.grow(alloc, size).is_ok()
}

// Disks side by side.
fn append(rt: &impl Abort, disk: &mut MemDisk, other: MemDisk) {
    let from = disk.first_place();
    let len = disk.size();
    let next = other.first_place();
    assert!(rt; from <= next && next - from == len);
    disk.append(other);
}

// A disk of which these calls fail.
fn failing(rt: &impl Abort, alloc: Global, bytes: &[u8], entries: &[Fail]) -> MemDisk {
    let entries = FailList::from_slice(alloc, entries).expect(rt, NO_MEMORY);
    MemDisk::failing(alloc, blob(rt, alloc, bytes), entries).expect(rt, NO_MEMORY)
}

fn has_bytes(rt: &impl Abort, alloc: Global, disk: &MemDisk, bytes: &[u8]) {
    let held = disk.bytes(alloc).expect(rt, NO_MEMORY);
    assert!(rt; held.as_slice() == bytes);
}

fn has_calls(rt: &impl Abort, alloc: Global, disk: &MemDisk, calls: &[DiskCall]) {
    let told = disk.calls(alloc).expect(rt, NO_MEMORY).expect(rt, "calls");
    assert!(rt; told.as_slice() == calls);
}

// A write that ends well.
fn stores(rt: &impl Abort, alloc: Global, disk: &mut MemDisk, at: u64, bytes: &[u8]) {
    let stored = store(rt, alloc, disk, at, bytes);
    assert!(rt; stored);
}

// A read of these two bytes.
fn loads(rt: &impl Abort, alloc: Global, disk: &mut MemDisk, at: u64, bytes: [u8; 2]) {
    let mut into = [7; 2];
    let loaded = load(rt, alloc, disk, at, &mut into);
    assert!(rt; loaded && into == bytes);
}

// A split that ends well.
fn rest_of(rt: &impl Abort, alloc: Global, disk: &mut MemDisk, at: u64) -> MemDisk {
    split(rt, alloc, disk, at).expect(rt, "a part")
}

// The place at which a write of four bytes at 3 fails, and what it leaves.
const TORN: [(u64, [u8; 8]); 3] = [
    (3, [9, 9, 9, 9, 9, 9, 9, 9]),
    (6, [9, 9, 9, 1, 2, 3, 9, 9]),
    (7, [9, 9, 9, 1, 2, 3, 4, 9]),
];

fn is_torn(rt: &impl Abort, alloc: Global, at: u64, bytes: &[u8]) {
    let entry = Fail {
        op: FailOp::Store,
        at,
    };
    let mut disk = failing(rt, alloc, &[9; 8], &[entry]);
    let told = store(rt, alloc, &mut disk, 3, &[1, 2, 3, 4]);
    assert!(rt; told == (at == 7), "at {at}");
    has_bytes(rt, alloc, &disk, bytes);
}

#[test]
fn a_write_that_fails_leaves_the_bytes_before_its_place(rt: HostRuntime) {
    for (at, bytes) in &TORN {
        is_torn(&rt, rt.alloc(), *at, bytes.as_slice());
    }
}

const CALLS: [DiskCall; 5] = [
    DiskCall::Store(2, 2),
    DiskCall::Store(0, 1),
    DiskCall::Load(6, 2),
    DiskCall::Store(4, 2),
    DiskCall::Grow(10),
];

#[test]
fn a_logged_disk_is_split_and_joined(rt: HostRuntime) {
    let alloc = rt.alloc();
    let mut disk = MemDisk::logged(alloc, blob(&rt, alloc, b"abcdefgh")).expect(&rt, NO_MEMORY);
    stores(&rt, alloc, &mut disk, 2, b"CD");
    let mut rest = rest_of(&rt, alloc, &mut disk, 5);
    has_bytes(&rt, alloc, &rest, b"fgh");
    loads(&rt, alloc, &mut rest, 6, *b"gh");
    stores(&rt, alloc, &mut disk, 0, b"A");
    append(&rt, &mut disk, rest);
    stores(&rt, alloc, &mut disk, 4, b"EF");
    assert!(rt; grow(&rt, alloc, &mut disk, 10));
    has_bytes(&rt, alloc, &disk, b"AbCDEFgh\0\0");
    has_calls(&rt, alloc, &disk, &CALLS);
    // A call, which hides from the check how each list of it is let go.
    drop(disk);
}

#[test]
fn a_disk_without_a_log_tells_its_bytes_alone(rt: HostRuntime) {
    let alloc = rt.alloc();
    let mut disk = MemDisk::new(alloc, blob(&rt, alloc, b"abcd")).expect(&rt, NO_MEMORY);
    stores(&rt, alloc, &mut disk, 1, b"BC");
    loads(&rt, alloc, &mut disk, 2, *b"Cd");
    has_bytes(&rt, alloc, &disk, b"aBCd");
    assert!(rt; disk.calls(alloc).expect(&rt, NO_MEMORY).is_none());
}

// Entries on both sides of place 4.
const ENTRIES: [Fail; 2] = [
    Fail {
        op: FailOp::Load,
        at: 1,
    },
    Fail {
        op: FailOp::Split,
        at: 6,
    },
];

#[test]
fn a_split_hands_entries_over(rt: HostRuntime) {
    let alloc = rt.alloc();
    let mut disk = failing(&rt, alloc, b"abcdefgh", &ENTRIES);
    let mut rest = rest_of(&rt, alloc, &mut disk, 4);
    // The entry at 1 stayed, and the split's went along.
    assert!(rt; !load(&rt, alloc, &mut disk, 0, &mut [0; 4]));
    let part = split(&rt, alloc, &mut rest, 6);
    assert!(rt; part.is_none());
    drop(part);
    append(&rt, &mut disk, rest);
    assert!(rt; disk.faults() == 2);
    drop(disk);
}
