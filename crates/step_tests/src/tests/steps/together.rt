// The steps of two ranks together, by helpers that are started for one step or stay for several.
ghost use Rattle.std.specs.Prelude.{◌≡◌, true};
ghost use Rattle.serial_spec.specs.SoundHeaders.{is_sound};
ghost use Rattle.serial_spec.specs.Lawful.{are_lawful_hints};

use super::{Dataset, gets_of, is_get, is_long, is_put, puts_of};
use collective_round::{Dataset as Lent, PutEnd, get_all, put_all};
use nc_base::{GotTable, Post, StepErr};
use nc_outside::{Disk, Gate, MemDisk, OpenGate};
use piece_exchange::{Crew, Tools};
use std::alloc::Global;
use std::process::Abort;
use std::sync::Wait;
use std::thread;
use std::thread::{Scope, Threads};
use var_layout::Measures;

/// How the puts of two ranks end, one each, and the record count then.
pub(crate) fn put_two<R: Abort + Threads + Wait + Sync, G: Gate>(
    rt: &R,
    alloc: Global,
    gate: &G,
    disk: &mut MemDisk,
    set: &Dataset,
    a: Post,
    b: Post,
) -> (Result<PutEnd, StepErr>, u64)
    requires sound { is_sound set.now.header ≡ true }
    requires hints { are_lawful_hints set.now.hints ≡ true }
{
    let tools = Tools { rt, alloc, gate };
    thread::scope(
        thread::scope_env(),
        rt,
        |scope| -> (Result<PutEnd, StepErr>, u64)
            requires { (is_sound set.now.header ≡ true) × (are_lawful_hints set.now.hints ≡ true) }
        { put_in_scope(scope, &tools, disk, set, a, b) },
    )
}

fn put_in_scope<'s, E, R: Abort + Threads + Wait + Sync, G: Gate>(
    scope: &'s Scope<'s, E>,
    tools: &'s Tools<'s, R, G>,
    disk: &mut MemDisk,
    set: &Dataset,
    a: Post,
    b: Post,
) -> (Result<PutEnd, StepErr>, u64)
    requires sound { is_sound set.now.header ≡ true }
    requires hints { are_lawful_hints set.now.hints ≡ true }
{
    let mut crew = Crew::new(Some(scope), tools);
    put_by(tools, &mut crew, disk, set, a, b)
}

/// The same by these helpers.
pub(crate) fn put_by<'s, E, R: Abort + Threads + Wait + Sync, G: Gate>(
    tools: &Tools<R, G>,
    crew: &mut Crew<'s, E, R, G, MemDisk>,
    disk: &mut MemDisk,
    set: &Dataset,
    a: Post,
    b: Post,
) -> (Result<PutEnd, StepErr>, u64)
    requires sound { is_sound set.now.header ≡ true }
    requires hints { are_lawful_hints set.now.hints ≡ true }
{
    let rt = tools.rt;
    let header = &set.header;
    is_put(rt, header, &a);
    is_put(rt, header, &b);
    is_long(rt, header, disk);
    let job = puts_of(rt, tools.alloc, a, b);
    let measures = Measures::of(header);
    let dataset = Lent {
        header,
        measures: &measures,
        hints: &set.hints,
    };
    let mut records = 0;
    let end = put_all(tools, crew, disk, &dataset, &mut records, &job);
    // A call, which hides from the check how each list of it is let go.
    drop(job);
    (end, records)
}

/// What two ranks get, one blob each.
pub(crate) fn get_two<R: Abort + Threads + Wait + Sync>(
    rt: &R,
    alloc: Global,
    disk: &mut MemDisk,
    set: &Dataset,
    a: Post,
    b: Post,
) -> Result<GotTable, StepErr>
    requires sound { is_sound set.now.header ≡ true }
    requires hints { are_lawful_hints set.now.hints ≡ true }
{
    let tools = Tools {
        rt,
        alloc,
        gate: &OpenGate,
    };
    thread::scope(
        thread::scope_env(),
        rt,
        |scope| -> Result<GotTable, StepErr>
            requires { (is_sound set.now.header ≡ true) × (are_lawful_hints set.now.hints ≡ true) }
        { get_in_scope(scope, &tools, disk, set, a, b) },
    )
}

fn get_in_scope<'s, E, R: Abort + Threads + Wait + Sync>(
    scope: &'s Scope<'s, E>,
    tools: &'s Tools<'s, R, OpenGate>,
    disk: &mut MemDisk,
    set: &Dataset,
    a: Post,
    b: Post,
) -> Result<GotTable, StepErr>
    requires sound { is_sound set.now.header ≡ true }
    requires hints { are_lawful_hints set.now.hints ≡ true }
{
    let mut crew = Crew::new(Some(scope), tools);
    get_by(tools, &mut crew, disk, set, a, b)
}

/// The same by these helpers.
pub(crate) fn get_by<'s, E, R: Abort + Threads + Wait + Sync, G: Gate>(
    tools: &Tools<R, G>,
    crew: &mut Crew<'s, E, R, G, MemDisk>,
    disk: &mut MemDisk,
    set: &Dataset,
    a: Post,
    b: Post,
) -> Result<GotTable, StepErr>
    requires sound { is_sound set.now.header ≡ true }
    requires hints { are_lawful_hints set.now.hints ≡ true }
{
    let rt = tools.rt;
    let header = &set.header;
    is_long(rt, header, disk);
    let len = disk.size();
    is_get(rt, header, len, &a);
    is_get(rt, header, len, &b);
    let job = gets_of(rt, tools.alloc, a, b);
    let measures = Measures::of(header);
    let dataset = Lent {
        header,
        measures: &measures,
        hints: &set.hints,
    };
    get_all(tools, crew, disk, &dataset, &job)
}
