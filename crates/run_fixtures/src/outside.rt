// The outside of a run, in memory.
use crate::run::Run;
use nc_base::{Blob, IdList, Memory};
use nc_outside::{DiskCallList, FailList, MemDisk, MemSink, MemSource};
use std::alloc::Global;

#[derive(Drop)]
pub(crate) struct Outside {
    pub(crate) source: MemSource,
    pub(crate) disk: MemDisk,
    pub(crate) sink: MemSink,
}

/// The parts, one after another.
pub fn joined(alloc: Global, parts: &[&[u8]]) -> Result<Blob, Memory> {
    let mut bytes = Vec::new(alloc);
    for part in parts {
        bytes.extend_from_slice(part)?;
    }
    Ok(Blob::from_vec(bytes))
}

fn source_of(alloc: Global, run: &Run<'_>) -> Result<MemSource, Memory> {
    let script = joined(alloc, run.script)?;
    let failing = IdList::from_slice(alloc, run.takes)?;
    Ok(MemSource::new(script, failing))
}

fn disk_of(alloc: Global, run: &Run<'_>) -> Result<MemDisk, Memory> {
    let held = joined(alloc, run.held)?;
    let plan = FailList::from_slice(alloc, run.plan)?;
    MemDisk::failing(alloc, held, plan)
}

pub(crate) fn outside_of(alloc: Global, run: &Run<'_>) -> Result<Outside, Memory> {
    let source = source_of(alloc, run)?;
    let disk = disk_of(alloc, run)?;
    let sink = MemSink::new(alloc, run.room, IdList::new(alloc))?;
    Ok(Outside { source, disk, sink })
}

/// The calls that the disk answered well. A disk of a plan keeps them.
pub(crate) fn calls_of(alloc: Global, disk: &MemDisk) -> Result<DiskCallList, Memory> {
    match disk.calls(alloc)? {
        Some(calls) => Ok(calls),
        None => Ok(DiskCallList::new(alloc)),
    }
}
