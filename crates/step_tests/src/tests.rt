// Whole steps on small files, and many entries that share bytes.
mod aggregators;
mod overlaps;
mod steps;

use nc_base::{Blob, DiskCall, Items};
use nc_outside::{Fail, FailOp, MemDisk};
use std::alloc::Global;
use std::process::Abort;
use test_fixtures::NO_MEMORY;

/// What it says where a disk should tell its calls.
const NO_CALLS: &str = "calls";

/// What it says of a file that ends too soon.
const TOO_SHORT: &str = "too short";

/// What a file has before, in each byte.
const OLD: u8 = b'.';

/// So many old bytes.
fn old_file(rt: &impl Abort, alloc: Global, len: usize) -> Blob {
    Blob::from_vec(vec![in alloc; OLD; len].expect(rt, NO_MEMORY))
}

/// A disk with these bytes that tells its calls, and refuses some of them once.
fn disk_of(rt: &impl Abort, alloc: Global, bytes: Blob, faults: &[(FailOp, u64)]) -> MemDisk {
    let mut plan = Items::new(alloc);
    for (op, at) in faults {
        plan.push(Fail { op: *op, at: *at }).expect(rt, NO_MEMORY);
    }
    MemDisk::failing(alloc, bytes, plan).expect(rt, NO_MEMORY)
}

/// The disk had these calls.
fn has_calls(rt: &impl Abort, alloc: Global, disk: &MemDisk, calls: &[DiskCall]) {
    let told = disk.calls(alloc).expect(rt, NO_MEMORY).expect(rt, NO_CALLS);
    assert!(rt; told.as_slice() == calls);
}

/// The disk has these bytes from a place on.
fn has_bytes(rt: &impl Abort, alloc: Global, disk: &MemDisk, from: usize, bytes: &[u8]) {
    let told = disk.bytes(alloc).expect(rt, NO_MEMORY);
    let (_, rest) = told.as_slice().split_at_checked(from).expect(rt, TOO_SHORT);
    assert!(rt; rest.starts_with(bytes));
}
