// What is planned for a step.
ghost use Rattle.std.specs.Prelude.{◌≡◌, ◌++◌, [], None, Some, OnOk};
ghost use Rattle.serial_spec.specs.DeviceCalls.{grow_to};
ghost use Rattle.step_plan.specs.Steps.{file_calls, loads_in, grow_call, stores_in};

use crate::{AskedList, CallerList, DomainList};
use nc_base::{DiskCall, Extent, Mark, Memory, Pair};
use std::alloc::Global;
use window_plan::{WindowList, push_loads, push_stores};

/// The bytes that one aggregator serves, or those of a step of one rank alone.
#[derive(Drop, PartialEq, Eq)]
pub struct DomainPlan {
    /// The number of the aggregator, from 0. None in a step of one rank.
    pub aggregator: Option<u32>,
    pub extent: Extent,
    /// Those that have a byte.
    pub windows: WindowList,
}

/// What a rank asks for.
#[derive(Clone, Copy, Debug, PartialEq, Eq)]
pub struct Asked {
    pub rank: u32,
    /// The bytes of all its requests, each counted by itself.
    pub bytes: u64,
    /// The longest runs of bytes of a request that follow one another in the file: naive I/O makes one call for each.
    pub pieces: u64,
}

/// The puts or the gets of a step.
#[derive(Drop, PartialEq, Eq)]
pub struct Phase {
    /// What each rank asks for, of the ranks that ask for something.
    pub asked: AskedList,
    /// The domains that have a byte. None where puts are refused.
    pub domains: DomainList,
}

/// What a step does to the file, in this order: it grows, the puts, the record count, the gets.
#[derive(Drop, PartialEq, Eq)]
pub struct FilePlan {
    /// The two requests for which the puts are refused.
    pub overlap: Option<Pair>,
    /// How many bytes the file then has.
    pub grow: Option<u64>,
    pub puts: Phase,
    /// The field of the record count, where it is written.
    pub count: Option<Extent>,
    pub gets: Phase,
}

/// What a step does, and what it leaves.
#[derive(Drop)]
pub struct Planned {
    pub file: FilePlan,
    /// A record count.
    pub records: u64,
    /// How many bytes the file has.
    pub size: u64,
}

/// What the puts of a step come to.
#[derive(Drop)]
pub(crate) struct Puts {
    pub overlap: Option<Pair>,
    pub grow: Option<u64>,
    pub domains: DomainList,
    /// The record count that they need.
    pub needed: u64,
    /// How many bytes the file then has.
    pub size: u64,
}

/// A call that comes to a step: its rank, and its number among the rank's calls, from 0.
#[derive(Clone, Copy, Debug, PartialEq, Eq)]
pub struct Caller {
    pub rank: u32,
    pub call: u32,
}

/// A step of a run.
#[derive(Drop, PartialEq, Eq)]
pub struct StepPlan {
    pub mark: Mark,
    /// The calls that come together in it.
    pub callers: CallerList,
    pub file: FilePlan,
}

/// What puts come to of which two share a byte, where the hint refuses that: nothing.
pub(crate) fn refused(alloc: Global, pair: Pair, size: u64) -> Puts
    ensures { result ≡ record { overlap = Some pair; grow = None; domains = []; needed = 0; size = size } }
{
    Puts {
        overlap: Some(pair),
        grow: None,
        domains: DomainList::new(alloc),
        needed: 0,
        size,
    }
}

/// How long a file of so many bytes grows, where it is to end there.
pub(crate) fn grown(size: u64, end: u64) -> Option<u64>
    ensures { grow_call result ≡ grow_to size end }
{
    if size < end { Some(end) } else { None }
}

/// Adds the calls of the disk that a step makes, in order.
pub fn device_calls(calls: &mut Vec<DiskCall>, plan: &FilePlan) -> Result<(), Memory>
    ensures { OnOk result (calls.new.items ≡ calls.old.items ++ file_calls plan.now) }
{
    if let Some(size) = plan.grow {
        calls.push(DiskCall::Grow(size))?;
    }
    push_puts(calls, plan.puts.domains.as_slice())?;
    if let Some(field) = plan.count {
        calls.push(DiskCall::Store(field.at, field.len))?;
    }
    push_gets(calls, plan.gets.domains.as_slice())
}

// Adds the calls that put the windows of domains.
fn push_puts(calls: &mut Vec<DiskCall>, domains: &[DomainPlan]) -> Result<(), Memory>
    ensures { OnOk result (calls.new.items ≡ calls.old.items ++ stores_in domains.now) }
{
    for domain in domains {
        push_stores(calls, domain.windows.as_slice())?;
    }
    Ok(())
}

// Adds the calls that get the windows of domains.
fn push_gets(calls: &mut Vec<DiskCall>, domains: &[DomainPlan]) -> Result<(), Memory>
    ensures { OnOk result (calls.new.items ≡ calls.old.items ++ loads_in domains.now) }
{
    for domain in domains {
        push_loads(calls, domain.windows.as_slice())?;
    }
    Ok(())
}
