// A run of the ranks in turn.
ghost use Rattle.std.specs.Prelude.{◌≡◌, ◌≤◌, [], length, map, replicate, vec_capacity, true, IfOk, OnOk, IsTrue, ◌↔◌, Err};
ghost use Rattle.nc_outside.specs.Cause.{HasDiskCause};
ghost use Rattle.nc_base.specs.declared.run.RankStop.TheVariants as stop;
ghost use Rattle.nc_base.specs.declared.step.StepErr.{StepErr as Fault};
ghost use Rattle.serial_spec.specs.HeaderBytes.{header_len};
ghost use Rattle.serial_spec.specs.SoundHeaders.{is_sound};
ghost use Rattle.serial_spec.specs.Lawful.{is_lawful};
ghost use Rattle.serial_spec.specs.Layout.{end_of};
ghost use Rattle.rank_core.specs.Indexed.{IsIndexOf};
ghost use Rattle.run_laws.specs.Ways.{meetings};
ghost use Rattle.turn_run.specs.Begun.{HasBegun};
ghost use Rattle.turn_run.specs.Counts.{IsCount};
ghost use Rattle.turn_run.specs.RankEnds.{runner_end};
ghost use Rattle.turn_run.specs.Run.{RunsOn};
ghost use Rattle.turn_run.specs.Running.{AreFree, AreRunners, HaveArrived, HaveMet};
ghost use Rattle.turn_run.specs.Told.{HasTold};
ghost use Rattle.turn_run.specs.Steps.{first_runner};
ghost use Rattle.turn_run.specs.Setups.{stage_at, HasLedOn, HasToldOn, HaveSaidUpTo, IsCutOff, point_at};

use crate::lent::{Lent, Progress, Setup};
use crate::meeting::meet;
use crate::rank_ends::{end_run, stopped};
use crate::runners::Runner;
use nc_base::{Header, MarkList, Memory, RankEnd, RankStop, RunEnd, Script, ServeEnd, StepErr};
use nc_outside::{Deaf, Disk, Gate, Told};
use piece_exchange::{Crew, Tools};
use rank_core::Names;
use std::alloc::Global;
use std::sync::Wait;
use std::thread::Threads;

/// Runs the ranks of a script on one thread. Each goes on until it meets the others; a meeting is done when all have come to it, and
/// then rank 0 goes on first. The last thing done is the close, which raises the record count to the greatest that a rank knows.
///
/// With a fault the run ends in that step, and the order has the finished ones.
pub fn run_in_turn<'a, R: Threads + Wait + Sync, D: Disk, G: Gate>(
    rt: &'a R,
    alloc: Global,
    disk: &mut D,
    header: &Header,
    records: &mut u64,
    script: &Script,
    gate: &'a G,
) -> RunEnd
    requires sound { is_sound header.now ≡ true }
    requires lawful { is_lawful script.now ≡ true }
    requires records { records.old ≡ header.now.records }
    requires from { D.from disk.old ≡ 0 }
    requires long { end_of header.now (header_len header.now) header.now.records ≤ D.len disk.old }
    ensures run { RunsOn D.Disk script.now header.now disk.old disk.new records.new result }
{
    let tools = Tools { rt, alloc, gate };
    let mut crew = Crew::alone(&tools);
    run_in_turn_told(&tools, &mut crew, disk, header, records, script, &mut Deaf)
}

/// Runs the ranks as `run_in_turn` does, with the helpers of a crew, and tells each step once it is done: its mark, with the file's
/// record count after it. The close is not told.
///
/// Where there is no memory to tell a step, the run ends with that fault, and the order doesn't have that step either.
pub fn run_in_turn_told<'s, E, R: Threads + Wait + Sync, D: Disk + 's, G: Gate, T: Told>(
    tools: &Tools<R, G>,
    crew: &mut Crew<'s, E, R, G, D>,
    disk: &mut D,
    header: &Header,
    records: &mut u64,
    script: &Script,
    told: &mut T,
) -> RunEnd
    requires sound { is_sound header.now ≡ true }
    requires lawful { is_lawful script.now ≡ true }
    requires records { records.old ≡ header.now.records }
    requires from { D.from disk.old ≡ 0 }
    requires long { end_of header.now (header_len header.now) header.now.records ≤ D.len disk.old }
    ensures run { RunsOn D.Disk script.now header.now disk.old disk.new records.new result }
    ensures told { HasTold script.now header.now (D.held disk.old) (T.heard told.old) (T.heard told.new) result.order }
{
    let alloc = tools.alloc;
    let order = MarkList::new(alloc);
    let names = match Names::new(alloc, header) {
        Ok(names) => names,
        Err(_) => return stopped(alloc, order, StepErr::Memory),
    };
    let mut runners = match runners_of(alloc, header, &names, *records, script.ranks) {
        Ok(runners) => runners,
        Err(_) => return stopped(alloc, order, StepErr::Memory),
    };
    let mut ends = match Vec::with_capacity(alloc, script.ranks as usize) {
        Ok(ends) => ends,
        Err(_) => return stopped(alloc, order, StepErr::Memory),
    };
    let lent = Lent {
        tools: Tools {
            rt: tools.rt,
            alloc,
            gate: tools.gate,
        },
        setup: Setup {
            header,
            measures: names.measures(header),
            script,
        },
    };
    let mut progress = Progress {
        records: *records,
        order,
    };
    let done = hold_meetings(&lent, crew, disk, told, &mut progress, &mut runners);
    *records = progress.records;
    end_all(runners, stop_after(&done), &mut ends);
    let served = ServeEnd {
        order: progress.order,
        fault: done.err(),
        stranger: None,
    };
    end_run(alloc, disk, header, records, served, ends)
}

/// A runner for each rank.
pub fn runners_of<'a>(
    alloc: Global,
    header: &'a Header,
    names: &'a Names,
    records: u64,
    ranks: u32,
) -> Result<Vec<Runner<'a>>, Memory>
    requires sound { is_sound header.now ≡ true }
    requires names { IsIndexOf header.now names.now }
    ensures { IfOk result (λ runners. runners.items ≡ replicate ranks (first_runner header.now records)) }
{
    let mut runners = Vec::new(alloc);
    for _rank in 0..ranks {
        runners.push(Runner::new(alloc, header, names, records))?;
    }
    Ok(runners)
}

/// Holds the meetings of all ranks, one after another, until all calls are made.
fn hold_meetings<'s, E, R: Threads + Wait + Sync, D: Disk + 's, G: Gate, T: Told>(
    lent: &Lent<R, G>,
    crew: &mut Crew<'s, E, R, G, D>,
    disk: &mut D,
    told: &mut T,
    progress: &mut Progress,
    runners: &mut [Runner],
) -> Result<(), StepErr>
    requires none { progress.old.order ≡ [] }
    requires runners { AreRunners lent.now.setup.script.now lent.now.setup.header.now (D.len disk.old) progress.old.order runners.old }
    requires free { AreFree runners.old }
    requires records { IsCount lent.now.setup.header.now (D.len disk.old) progress.old.records }
    requires from { D.from disk.old ≡ 0 }
    ensures runners { OnOk result (AreRunners lent.now.setup.script.now lent.now.setup.header.now (D.len disk.new) progress.new.order runners.new) }
    ensures free { OnOk result (AreFree runners.new) }
    ensures arrived { OnOk result (HaveArrived lent.now.setup.script.now runners.new) }
    ensures led { OnOk result (HasLedOn lent.now.setup progress.old progress.new (stage_at lent.now.setup (D.held disk.old) (D.calls disk.old) progress.old runners.old)
        (stage_at lent.now.setup (D.held disk.new) (D.calls disk.new) progress.new runners.new)) }
    ensures cut { (e : Fault) → result ≡ Err e → IsCutOff lent.now.setup e (point_at progress.old (D.held disk.old)) runners.old (point_at progress.new (D.held disk.new)) }
    ensures answered { (e : Fault) → result ≡ Err e → HaveSaidUpTo lent.now.setup e (point_at progress.old (D.held disk.old)) runners.old progress.new.order runners.new }
    ensures told { HasToldOn lent.now.setup (point_at progress.old (D.held disk.old)) runners.old progress.new.order (T.heard told.old) (T.heard told.new) }
    ensures records { OnOk result (IsCount lent.now.setup.header.now (D.len disk.new) progress.new.records) }
    ensures begun { HasBegun lent.now.setup.script.now progress.new.order }
    ensures from { D.from disk.new ≡ 0 }
    ensures longer { D.len disk.old ≤ D.len disk.new }
    ensures cause { HasDiskCause (D.faults disk.old) (D.faults disk.new) result }
{
    let mut meetings = 0;
    'meetings: loop {
        arrive_all(lent, disk, told, progress, runners)?;
        if !all_hold(runners) {
            return Ok(());
        }
        meet(lent, crew, disk, told, progress, runners, meetings)?;
        meetings += 1;
    }
}

/// Each rank goes on until it meets the others, or has made its calls.
fn arrive_all<R: Threads + Wait + Sync, D: Disk, G: Gate, T: Told>(
    lent: &Lent<R, G>,
    disk: &mut D,
    told: &mut T,
    progress: &mut Progress,
    runners: &mut [Runner],
) -> Result<(), StepErr>
    requires runners { AreRunners lent.now.setup.script.now lent.now.setup.header.now (D.len disk.old) progress.old.order runners.old }
    requires free { AreFree runners.old }
    requires records { IsCount lent.now.setup.header.now (D.len disk.old) progress.old.records }
    requires from { D.from disk.old ≡ 0 }
    ensures runners { OnOk result (AreRunners lent.now.setup.script.now lent.now.setup.header.now (D.len disk.new) progress.new.order runners.new) }
    ensures arrived { OnOk result (HaveArrived lent.now.setup.script.now runners.new) }
    ensures meetings { meetings progress.new.order ≡ meetings progress.old.order }
    ensures led { OnOk result (HasLedOn lent.now.setup progress.old progress.new (stage_at lent.now.setup (D.held disk.old) (D.calls disk.old) progress.old runners.old)
        (stage_at lent.now.setup (D.held disk.new) (D.calls disk.new) progress.new runners.new)) }
    ensures cut { (e : Fault) → result ≡ Err e → IsCutOff lent.now.setup e (point_at progress.old (D.held disk.old)) runners.old (point_at progress.new (D.held disk.new)) }
    ensures answered { (e : Fault) → result ≡ Err e → HaveSaidUpTo lent.now.setup e (point_at progress.old (D.held disk.old)) runners.old progress.new.order runners.new }
    ensures told { HasToldOn lent.now.setup (point_at progress.old (D.held disk.old)) runners.old progress.new.order (T.heard told.old) (T.heard told.new) }
    ensures records { OnOk result (IsCount lent.now.setup.header.now (D.len disk.new) progress.new.records) }
    ensures begun { HasBegun lent.now.setup.script.now progress.new.order }
    ensures from { D.from disk.new ≡ 0 }
    ensures longer { D.len disk.old ≤ D.len disk.new }
    ensures cause { HasDiskCause (D.faults disk.old) (D.faults disk.new) result }
{
    for (number, runner) in runners.iter_mut().enumerate() {
        runner.arrive(lent, disk, told, progress, number as u32)?;
    }
    Ok(())
}

/// Each rank holds an offer.
pub fn all_hold(runners: &[Runner]) -> bool
    ensures { IsTrue result ↔ HaveMet runners.now }
{
    runners.iter().all(|runner| runner.held.is_some())
}

/// Why the ranks of a run in turn went no further.
fn stop_after(done: &Result<(), StepErr>) -> RankStop
    ensures not_broken { result ≡ stop.Memory → ⊥ }
{
    match done {
        Ok(()) => RankStop::Done,
        Err(_) => RankStop::Stopped,
    }
}

/// Ends each rank.
fn end_all(runners: Vec<Runner>, why: RankStop, ends: &mut Vec<RankEnd>)
    requires none { ends.old.items ≡ [] }
    requires room { length runners.items ≤ vec_capacity ends.old }
    ensures { ends.new.items ≡ map (runner_end why) runners.entry.items }
{
    for runner in runners {
        ends.push_reserved(runner.into_end(why));
    }
}
