// A run that is watched: threads beside it read how far it has come.
ghost use Rattle.std.specs.Prelude.{◌≡◌, ◌≤◌, ◌<◌, ◌+◌, [], length, vec_capacity, true, None, Some, All, IfOk, IfSome};
ghost use Rattle.nc_base.specs.declared.step.StepErr.TheVariants as fault;
ghost use Rattle.serial_spec.specs.SoundHeaders.{is_sound};
ghost use Rattle.serial_spec.specs.Lawful.{is_lawful};
ghost use Rattle.dataset_start.specs.Readiness.{dataset_end};
ghost use Rattle.serial_spec.specs.Readings.{told_of};
ghost use Rattle.turn_run.specs.Run.{RunsOn};
ghost use Rattle.turn_run.specs.Told.{HasTold};
ghost use Rattle.ncmpi_cli.specs.Watched.{AreReadings, seen_counts};
ghost use Rattle.ncmpi_cli.specs.BeforeRun.{IsMade};

use crate::report::order_of;
use crate::watcher::{Watched, numbers_of, read_beside};
use nc_base::{Header, MarkList, Memory, ReadingTable, RunEnd, Script, SizeList, StepErr};
use nc_outside::{Disk, Gate};
use piece_exchange::Tools;
use rank_meeting::run_ranks_told;
use run_watch::{Board, ToldList, View, watch};
use std::alloc::Global;
use std::sync::Wait;
use std::thread;
use std::thread::{JoinHandle, Scope, SpawnError, Threads};
use turn_run::stopped;

/// What the watchers of a run read: the numbers of each, and the record count after each step of the run.
#[derive(Drop)]
pub(crate) struct RunReadings {
    pub readings: ReadingTable,
    pub counts: SizeList,
}

/// A run that was watched. Nothing was seen where the run has a fault, or memory is wanting for what was read.
#[derive(Drop)]
pub(crate) struct WatchedRun {
    pub end: RunEnd,
    pub seen: Option<RunReadings>,
}

impl WatchedRun {
    /// The steps that were finished, in order.
    pub(crate) fn into_order(self) -> MarkList
        ensures { result ≡ self.end.order }
    {
        let WatchedRun { end, seen } = self;
        drop(seen);
        order_of(end)
    }
}

/// The record count after each step that was told.
fn counts_of(alloc: Global, pairs: &ToldList) -> Result<SizeList, Memory>
    ensures { IfOk result (λ counts. counts ≡ seen_counts pairs.now) }
{
    let mut counts = Vec::with_capacity(alloc, pairs.len())?;
    for pair in pairs.as_slice() {
        counts.push(pair.1)?;
    }
    Ok(SizeList::from_vec(counts))
}

/// What the watchers saw of a whole run.
#[tactic(auto, using(crate::proofs::WatchedTables::readings_push))]
fn seen_of<R: Wait + Drop>(
    alloc: Global,
    board: &mut Board<R>,
    watched: Vec<Watched>,
) -> Result<RunReadings, Memory>
    ensures readings { IfOk result (λ seen. (length seen.readings ≡ length watched.items) × All (AreReadings (length board.old.pairs)) seen.readings) }
    ensures counts { IfOk result (λ seen. seen.counts ≡ seen_counts board.old.pairs) }
    ensures long { IfOk result (λ seen. length seen.counts ≡ length board.old.pairs) }
{
    let told = board.pairs().len() as u64;
    let counts = counts_of(alloc, board.pairs())?;
    let mut readings = Vec::with_capacity(alloc, watched.len())?;
    for one in watched {
        readings.push(numbers_of(alloc, one, board.note(), told)?)?;
    }
    Ok(RunReadings {
        readings: ReadingTable::from_vec(readings),
        counts,
    })
}

/// What the watchers saw, where the run has no fault.
fn seen_after<R: Wait + Drop>(
    alloc: Global,
    end: &RunEnd,
    board: &mut Board<R>,
    watched: Vec<Watched>,
) -> Option<RunReadings>
    requires { length board.old.pairs ≡ length end.now.order }
    ensures whole { IfSome result (λ _. end.now.fault ≡ None) }
    ensures readings { IfSome result (λ seen. (length seen.readings ≡ length watched.items) × All (AreReadings (length end.now.order)) seen.readings) }
    ensures counts { IfSome result (λ seen. seen.counts ≡ seen_counts board.old.pairs) }
    ensures long { IfSome result (λ seen. length seen.counts ≡ length end.now.order) }
{
    match end.fault {
        None => seen_of(alloc, board, watched).ok(),
        Some(_) => None,
    }
}

/// What a scope of threads gives back: what was lent to it, the board, and the watchers.
struct Scoped<'d, D, R: Wait + Drop> {
    disk: &'d mut D,
    records: u64,
    end: RunEnd,
    board: Board<R>,
    watched: Vec<Watched>,
}

/// The run in a scope of threads, in which each view reads beside it. A view whose thread can't be started reads after it.
fn watch_in_scope<'s, 'd, E, R: Threads + Wait + Sync, B: Wait + Drop, D: Disk, G: Gate>(
    scope: &'s Scope<'s, E>,
    tools: &Tools<'s, R, G>,
    disk: &'d mut D,
    header: &Header,
    script: &Script,
    made: Made<B>,
) -> Scoped<'d, D, B>
    requires sound { is_sound header.now ≡ true }
    requires lawful { is_lawful script.now ≡ true }
    requires from { D.from disk.old ≡ 0 }
    requires long { dataset_end header.now ≤ D.len disk.old }
    requires made { IsMade header.now.records made }
    ensures run { RunsOn D.Disk script.now header.now disk.old result.disk.now result.records result.end }
    ensures told { HasTold script.now header.now (D.held disk.old) (Some []) (Some result.board.pairs) result.end.order }
    ensures watched { result.end.fault ≡ None → length result.watched.items ≡ length made.views.items }
    ensures same { result.disk.ghost_name ≡ disk.entry.ghost_name }
{
    let Made {
        mut board,
        views,
        mut watched,
    } = made;
    let (rt, gate) = (tools.rt, tools.gate);
    let mut records = header.records;
    let Ok(mut started) = room_for(tools.alloc, views.len()) else {
        return Scoped {
            end: not_begun(tools.alloc, disk, header, records, script),
            disk,
            records,
            board,
            watched,
        };
    };
    for view in views {
        let watcher = started.len() as u32;
        let read = move || read_beside(rt, gate, watcher, view);
        let child: Result<JoinHandle<Watched>, SpawnError<_>> = scope.spawn(read);
        started.push_reserved(child);
    }
    let end = run_ranks_told(
        rt,
        tools.alloc,
        disk,
        header,
        &mut records,
        script,
        gate,
        &mut board,
    );
    join_all(rt, started, &mut watched);
    Scoped {
        disk,
        records,
        end,
        board,
        watched,
    }
}

/// Adds what each watcher read, once its thread is over. A view whose thread couldn't be started reads now.
fn join_all<R: Threads, F: FnOnce() -> Watched + Drop>(
    rt: &R,
    started: Vec<Result<JoinHandle<Watched>, SpawnError<F>>>,
    watched: &mut Vec<Watched>,
)
    requires callable { (read : F) → F.pre read }
    requires none { watched.old.items ≡ [] }
    requires room { length started.items ≤ vec_capacity watched.old }
    ensures { length watched.new.items ≡ length started.items }
{
    for one in started {
        watched.push_reserved(match one {
            Ok(handle) => handle.join(rt),
            Err(refused) => (refused.value)(),
        });
    }
}

/// An empty list with room for so many.
fn room_for<T>(alloc: Global, count: usize) -> Result<Vec<T>, Memory>
    ensures items { IfOk result (λ list. list.items ≡ []) }
    ensures room { IfOk result (λ list. count ≤ vec_capacity list) }
{
    Ok(Vec::with_capacity(alloc, count)?)
}

/// The end of a run that wants memory before any rank begins.
fn not_begun<D: Disk>(
    alloc: Global,
    disk: &D,
    header: &Header,
    records: u64,
    script: &Script,
) -> RunEnd
    requires lawful { is_lawful script.now ≡ true }
    requires records { records ≡ header.now.records }
    ensures run { RunsOn D.Disk script.now header.now disk.now disk.now records result }
    ensures order { result.order ≡ [] }
    ensures fault { result.fault ≡ Some fault.Memory }
{
    stopped(alloc, MarkList::new(alloc), StepErr::Memory)
}

/// The run with a thread for each view, in a scope of threads.
#[tactic(auto, using(crate::proofs::WatchedTables::told_long))]
fn run_watched<R: Threads + Wait + Sync, D: Disk, G: Gate>(
    tools: &Tools<'_, R, G>,
    disk: &mut D,
    header: &Header,
    records: &mut u64,
    script: &Script,
    made: Made<&R>,
) -> WatchedRun
    requires sound { is_sound header.now ≡ true }
    requires lawful { is_lawful script.now ≡ true }
    requires records { records.old ≡ header.now.records }
    requires from { D.from disk.old ≡ 0 }
    requires long { dataset_end header.now ≤ D.len disk.old }
    requires made { IsMade header.now.records made }
    ensures run { RunsOn D.Disk script.now header.now disk.old disk.new records.new result.end }
    ensures readings { IfSome result.seen (λ seen. (length seen.readings ≡ length made.entry.views.items) × All (AreReadings (length result.end.order)) seen.readings) }
    ensures counts { IfSome result.seen (λ seen. length seen.counts ≡ length result.end.order) }
    ensures told { IfSome result.seen (λ seen. IfSome (D.held disk.old) (λ file. seen.counts ≡ seen_counts (told_of script.now header.now file result.end.order))) }
{
    let Scoped {
        disk: back,
        records: last,
        end,
        mut board,
        watched,
    } = thread::scope(
        thread::scope_env(),
        tools.rt,
        |scope| -> Scoped<D, &R>
            requires { (is_sound header.now ≡ true) × (is_lawful script.now ≡ true) × (D.from disk.now ≡ 0)
                × (dataset_end header.now ≤ D.len disk.now) × IsMade header.now.records made }
            ensures run { RunsOn D.Disk script.entry.now header.entry.now disk.entry.now result.disk.now result.records result.end }
            ensures told { HasTold script.entry.now header.entry.now (D.held disk.entry.now) (Some []) (Some result.board.pairs) result.end.order }
            ensures watched { result.end.fault ≡ None → length result.watched.items ≡ length made.entry.views.items }
            ensures same { result.disk.ghost_name ≡ disk.entry.ghost_name }
        { watch_in_scope(scope, tools, disk, header, script, made) },
    );
    take_back(back);
    *records = last;
    let seen = seen_after(tools.alloc, &end, &mut board, watched);
    WatchedRun { end, seen }
}

// Does nothing, but this use of a returned reference is what ties it to the parameter that lent it.
fn take_back<T>(lent: &mut T)
    ensures { lent.new ≡ lent.old }
{}

/// Runs the ranks of a script as `run_ranks` does, while so many watchers read beside them how far the run has come.
pub(crate) fn watch_ranks<R: Threads + Wait + Sync, D: Disk, G: Gate>(
    tools: &Tools<'_, R, G>,
    disk: &mut D,
    header: &Header,
    records: &mut u64,
    script: &Script,
    watchers: u32,
) -> WatchedRun
    requires sound { is_sound header.now ≡ true }
    requires lawful { is_lawful script.now ≡ true }
    requires records { records.old ≡ header.now.records }
    requires from { D.from disk.old ≡ 0 }
    requires long { dataset_end header.now ≤ D.len disk.old }
    requires low { 1 ≤ watchers }
    requires high { watchers ≤ 8 }
    ensures run { RunsOn D.Disk script.now header.now disk.old disk.new records.new result.end }
    ensures readings { IfSome result.seen (λ seen. (length seen.readings ≡ watchers) × All (AreReadings (length result.end.order)) seen.readings) }
    ensures counts { IfSome result.seen (λ seen. length seen.counts ≡ length result.end.order) }
    ensures told { IfSome result.seen (λ seen. IfSome (D.held disk.old) (λ file. seen.counts ≡ seen_counts (told_of script.now header.now file result.end.order))) }
{
    match make_watch(tools.rt, tools.alloc, watchers, header.records) {
        Ok(made) => run_watched(tools, disk, header, records, script, made),
        Err(_) => WatchedRun {
            end: not_begun(tools.alloc, disk, header, *records, script),
            seen: None,
        },
    }
}

/// What is made before a run that is watched: the board, its views, and room for what they read.
#[derive(Drop)]
struct Made<R: Wait + Drop> {
    board: Board<R>,
    views: Vec<View>,
    watched: Vec<Watched>,
}

fn make_watch<R: Wait + Drop>(
    rt: R,
    alloc: Global,
    watchers: u32,
    records: u64,
) -> Result<Made<R>, Memory>
    requires low { 1 ≤ watchers }
    requires high { watchers ≤ 8 }
    ensures made { IfOk result (IsMade records) }
    ensures views { IfOk result (λ made. length made.views.items ≡ watchers) }
{
    let watched = Vec::with_capacity(alloc, watchers as usize)?;
    let (board, views) = watch(rt, alloc, watchers, records)?;
    Ok(Made {
        board,
        views: views.into_vec(),
        watched,
    })
}
