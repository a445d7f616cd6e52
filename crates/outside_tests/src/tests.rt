// What stands around a run: disk, source, sink and gate in memory, what passes between threads, and readings of a board.
mod boards;
mod disks;
mod gates;
mod lines;
mod streams;

use nc_base::Blob;
use std::alloc::Global;
use std::process::Abort;

/// What a test says that has no memory.
const NO_MEMORY: &str = "memory";

fn blob(rt: &impl Abort, alloc: Global, bytes: &[u8]) -> Blob {
    Blob::from_slice(alloc, bytes).expect(rt, NO_MEMORY)
}
