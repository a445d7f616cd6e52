// A run, and how it ended.
use crate::outside::{Outside, calls_of, outside_of};
use nc_base::{Blob, MarkList, Memory};
use nc_outside::{DiskCallList, Fail, Gate};
use ncmpi_cli::{Outcome, ncrun};
use std::alloc::Global;
use std::sync::Wait;
use std::thread::Threads;

/// What a run is given.
#[derive(Clone, Copy)]
pub struct Run<'a> {
    pub words: &'a [&'a str],
    /// The script, in parts.
    pub script: &'a [&'a [u8]],
    /// What the dataset holds before, in parts.
    pub held: &'a [&'a [u8]],
    /// The calls of the disk that fail.
    pub plan: &'a [Fail],
    /// The takes of the source that fail, from 0.
    pub takes: &'a [u32],
    /// How many bytes the sink has room for.
    pub room: u64,
}

/// A dataset that something else stood in.
pub const OLD: &[&[u8]] = &[b"old"];

/// A run on that dataset that nothing fails. Its script is empty.
pub const PLAIN: Run<'static> = Run {
    words: &["d.nc"],
    script: &[],
    held: OLD,
    plan: &[],
    takes: &[],
    room: 4096,
};

/// How a run ended, and what it left.
#[derive(Drop)]
pub struct Ended {
    pub status: u8,
    pub order: MarkList,
    /// What the sink was given.
    pub given: Blob,
    /// What the dataset holds.
    pub held: Blob,
    /// The calls of the disk that were answered well.
    pub calls: DiskCallList,
}

/// Runs the program.
pub fn end_of<R: Threads + Wait + Sync, G: Gate>(
    rt: &R,
    alloc: Global,
    run: &Run<'_>,
    gate: &G,
) -> Result<Ended, Memory> {
    let mut outside = outside_of(alloc, run)?;
    let outcome = ncrun(
        rt,
        alloc,
        run.words,
        &mut outside.source,
        &mut outside.disk,
        &mut outside.sink,
        gate,
    );
    left(alloc, outcome, &outside)
}

fn left(alloc: Global, outcome: Outcome, outside: &Outside) -> Result<Ended, Memory> {
    let Outcome { status, order, .. } = outcome;
    let calls = calls_of(alloc, &outside.disk)?;
    let held = outside.disk.bytes(alloc)?;
    let given = Blob::from_slice(alloc, outside.sink.bytes())?;
    Ok(Ended {
        status,
        order,
        given,
        held,
        calls,
    })
}
