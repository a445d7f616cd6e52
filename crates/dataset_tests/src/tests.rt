// Datasets before the ranks begin: filled, and redefined. Calls and bytes are worked out by hand.
ghost use Rattle.std.specs.Prelude.{◌≡◌};

mod filling;
mod redefining;

use nc_base::{Blob, DiskCall};
use nc_outside::MemDisk;
use std::alloc::Global;
use std::process::Abort;
use test_fixtures::NO_MEMORY;

/// What it says where a disk should tell its calls.
const NO_CALLS: &str = "calls";

/// What it says of a file that ends too soon.
const TOO_SHORT: &str = "too short";

/// A file of so many bytes, none of which is zero, and of others behind them. It tells its calls.
fn file(rt: &impl Abort, alloc: Global, len: usize, others: &[u8]) -> MemDisk
    ensures { result.from ≡ 0 }
{
    let mut bytes = vec![in alloc; 255; len].expect(rt, NO_MEMORY);
    bytes.extend_from_slice(others).expect(rt, NO_MEMORY);
    MemDisk::logged(alloc, Blob::from_vec(bytes)).expect(rt, NO_MEMORY)
}

/// The disk had these calls.
fn has_calls(rt: &impl Abort, alloc: Global, disk: &MemDisk, calls: &[DiskCall]) {
    let told = disk.calls(alloc).expect(rt, NO_MEMORY).expect(rt, NO_CALLS);
    assert!(rt; told.as_slice() == calls);
}

/// The disk has these bytes from a place on.
fn has_bytes(rt: &impl Abort, alloc: Global, disk: &MemDisk, from: usize, bytes: &[u8]) {
    let told = disk.bytes(alloc).expect(rt, NO_MEMORY);
    let (_, rest) = told.as_slice().split_at_checked(from).expect(rt, TOO_SHORT);
    assert!(rt; rest.starts_with(bytes));
}
