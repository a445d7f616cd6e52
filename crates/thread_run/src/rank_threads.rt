// A run of all ranks, each on a thread of its own.
ghost use Rattle.std.specs.Prelude.{◌≡◌, ◌≤◌, ◌<◌, ◌∷◌, [], ℕ, List, length, map, slice_get, vec_capacity, None, Some, true, All, IfOk, IfSome};
ghost use Rattle.std.specs.List.{range_with_len};
ghost use Rattle.serial_spec.specs.HeaderBytes.{header_len};
ghost use Rattle.serial_spec.specs.SoundHeaders.{is_sound};
ghost use Rattle.serial_spec.specs.Lawful.{is_lawful};
ghost use Rattle.serial_spec.specs.Layout.{end_of};
ghost use Rattle.nc_base.specs.declared.header.Header.{Header};
ghost use Rattle.nc_base.specs.declared.script.Script.{Script};
ghost use Rattle.nc_base.specs.declared.step.OwnerItem.{OwnerItem};
ghost use Rattle.nc_base.specs.declared.step.RankItem.{RankItem};
ghost use Rattle.ruled_line.specs.Ends.{End, Line};
ghost use Rattle.turn_run.specs.Run.{RunsOn};
ghost use Rattle.turn_run.specs.Told.{HasTold};
ghost use Rattle.rank_core.specs.Indexed.{IsIndexOf};
ghost use Rattle.thread_run.specs.RankHandle.{AreOf, AreRankHandles, IsToldToGo};
ghost use Rattle.thread_run.specs.Threads.{HasRooms, HaveStarted};
ghost use Rattle.thread_run.specs.declared.rank_handle.RankHandle.{RankHandle};

use crate::lent::{Lent, Run};
use crate::rank_handle::{RankHandle, Word, start};
use crate::returned::join_all;
use file_owner::serve;
use nc_base::{Header, Memory, OwnerItem, RankEnd, RunEnd, Script};
use nc_outside::{Deaf, Disk, Gate, Told};
use piece_exchange::{Crew, Tools};
use rank_core::Names;
use rank_items::SentItem;
use ruled_line::{InPut, InTake, LinePut, LinePutList, inbox};
use std::alloc::Global;
use std::sync::Wait;
use std::thread;
use std::thread::{Scope, Threads};
use turn_run::{end_run, run_in_turn_told};
use var_layout::Measures;

/// Runs the ranks of a script, each on a thread of its own, whose offers this thread takes as they come. Where the threads are off, or
/// one can't be started, the ranks run in turn, and so does a rank that is alone: there is nobody to run beside.
///
/// With a fault the run ends in that step, and the order has the finished ones.
pub fn run_ranks<R: Threads + Wait + Sync, D: Disk, G: Gate>(
    rt: &R,
    alloc: Global,
    disk: &mut D,
    header: &Header,
    records: &mut u64,
    script: &Script,
    gate: &G,
) -> RunEnd
    requires sound { is_sound header.now ≡ true }
    requires lawful { is_lawful script.now ≡ true }
    requires records { records.old ≡ header.now.records }
    requires from { D.from disk.old ≡ 0 }
    requires long { end_of header.now (header_len header.now) header.now.records ≤ D.len disk.old }
    ensures run { RunsOn D.Disk script.now header.now disk.old disk.new records.new result }
{
    run_ranks_told(rt, alloc, disk, header, records, script, gate, &mut Deaf)
}

/// The same run, of which `told` is told each step as it is finished, before any rank has its reply. Where `told` has no memory, the
/// run ends with that fault, and the step is not in the order. The close is no step, and is not told.
pub fn run_ranks_told<'a, R: Threads + Wait + Sync, D: Disk, G: Gate, T: Told>(
    rt: &'a R,
    alloc: Global,
    disk: &mut D,
    header: &'a Header,
    records: &mut u64,
    script: &'a Script,
    gate: &'a G,
    told: &mut T,
) -> RunEnd
    requires sound { is_sound header.now ≡ true }
    requires lawful { is_lawful script.now ≡ true }
    requires records { records.old ≡ header.now.records }
    requires from { D.from disk.old ≡ 0 }
    requires long { end_of header.now (header_len header.now) header.now.records ≤ D.len disk.old }
    ensures run { RunsOn D.Disk script.now header.now disk.old disk.new records.new result }
    ensures told { HasTold script.now header.now (D.held disk.old) (T.heard told.old) (T.heard told.new) result.order }
{
    let tools = Tools { rt, alloc, gate };
    let names = names_on_threads(alloc, header, script);
    let run = Run {
        tools: &tools,
        header,
        script,
    };
    run_scoped(&run, names.as_ref(), disk, records, told)
}

/// The names by which the ranks' threads go. None where the ranks run in turn, or there is no memory for them.
fn names_on_threads(alloc: Global, header: &Header, script: &Script) -> Option<Names>
    ensures { IfSome result (IsIndexOf header.now) }
{
    if !script.hints.threads || script.ranks < 2 {
        return None;
    }
    Names::new(alloc, header).ok()
}

/// Lists that are made before any thread is started, and the ends of the inbox.
#[derive(Drop)]
pub(crate) struct Rooms<'a> {
    pub senders: Vec<InPut<SentItem>>,
    pub inbox: InTake<SentItem>,
    pub ones: Vec<RankHandle<'a>>,
    pub lines: Vec<LinePut<OwnerItem>>,
    pub ends: Vec<RankEnd>,
}

/// The threads of a run that were all started, and this thread's ends of their lines.
#[derive(Drop)]
pub(crate) struct StartedRanks<'a> {
    pub measures: &'a Measures,
    pub inbox: InTake<SentItem>,
    pub ones: Vec<RankHandle<'a>>,
    pub lines: Vec<LinePut<OwnerItem>>,
    pub ends: Vec<RankEnd>,
}

/// What a scope of threads gives back: what was lent to it, and the end of the run.
pub(crate) struct Scoped<'d, 't, D, T> {
    pub disk: &'d mut D,
    pub records: u64,
    pub told: &'t mut T,
    pub end: RunEnd,
}

/// The run in a scope of threads.
fn run_scoped<R: Threads + Wait + Sync, D: Disk, G: Gate, T: Told>(
    run: &Run<R, G>,
    names: Option<&Names>,
    disk: &mut D,
    records: &mut u64,
    told: &mut T,
) -> RunEnd
    requires names { IfSome names (λ names. IsIndexOf run.now.header.now names.now) }
    requires records { records.old ≡ run.now.header.now.records }
    requires from { D.from disk.old ≡ 0 }
    requires long { end_of run.now.header.now (header_len run.now.header.now) run.now.header.now.records ≤ D.len disk.old }
    ensures run { RunsOn D.Disk run.now.script.now run.now.header.now disk.old disk.new records.new result }
    ensures told { HasTold run.now.script.now run.now.header.now (D.held disk.old) (T.heard told.old) (T.heard told.new) result.order }
{
    let count = *records;
    let Scoped {
        disk: back,
        records: last,
        told: ear,
        end,
    } = thread::scope(
        thread::scope_env(),
        run.tools.rt,
        |scope| -> Scoped<D, T>
            requires { IfSome names (λ names. IsIndexOf run.now.header.now names.now)
                × (count ≡ run.now.header.now.records) × (D.from disk.now ≡ 0)
                × (end_of run.now.header.now (header_len run.now.header.now) run.now.header.now.records ≤ D.len disk.now) }
            ensures run { RunsOn D.Disk run.entry.now.script.now run.entry.now.header.now disk.entry.now result.disk.now result.records result.end }
            ensures told { HasTold run.entry.now.script.now run.entry.now.header.now (D.held disk.entry.now) (T.heard told.entry.now) (T.heard result.told.now) result.end.order }
            ensures same_disk { result.disk.ghost_name ≡ disk.entry.ghost_name }
            ensures same_told { result.told.ghost_name ≡ told.entry.ghost_name }
        { run_in_scope(scope, run, names, disk, count, told) },
    );
    take_back(back);
    take_back(ear);
    *records = last;
    end
}

// Does nothing, but this use of a returned reference is what ties it to the parameter that lent it.
fn take_back<T>(lent: &mut T)
    ensures { lent.new ≡ lent.old }
{}

/// Lists for so many ranks, and an inbox with an end for each.
fn make_rooms<'a>(alloc: Global, ranks: u32) -> Result<Rooms<'a>, Memory>
    requires low { 1 ≤ ranks }
    requires high { ranks ≤ 64 }
    ensures { IfOk result (HasRooms ranks) }
{
    let (senders, inbox) = inbox::<SentItem>(alloc, ranks, ranks)?;
    Ok(Rooms {
        senders: senders.into_vec(),
        inbox,
        ones: Vec::with_capacity(alloc, ranks as usize)?,
        lines: Vec::with_capacity(alloc, ranks as usize)?,
        ends: Vec::with_capacity(alloc, ranks as usize)?,
    })
}

/// Runs the ranks on threads where all of them can be started, and else in turn. The helpers of the run end with this call.
fn run_in_scope<'s, 'd, 't, E, R: Threads + Wait + Sync, D: Disk + 's, G: Gate, T: Told>(
    scope: &'s Scope<'s, E>,
    run: &'s Run<'s, R, G>,
    names: Option<&'s Names>,
    disk: &'d mut D,
    records: u64,
    told: &'t mut T,
) -> Scoped<'d, 't, D, T>
    requires names { IfSome names (λ names. IsIndexOf run.now.header.now names.now) }
    requires records { records ≡ run.now.header.now.records }
    requires from { D.from disk.old ≡ 0 }
    requires long { end_of run.now.header.now (header_len run.now.header.now) run.now.header.now.records ≤ D.len disk.old }
    ensures run { RunsOn D.Disk run.now.script.now run.now.header.now disk.old result.disk.now result.records result.end }
    ensures told { HasTold run.now.script.now run.now.header.now (D.held disk.old) (T.heard told.old) (T.heard result.told.now) result.end.order }
    ensures same_disk { result.disk.ghost_name ≡ disk.entry.ghost_name }
    ensures same_told { result.told.ghost_name ≡ told.entry.ghost_name }
{
    let mut crew = Crew::new(Some(scope), run.tools);
    let mut records = records;
    let end = match start_ranks(scope, run, names) {
        Some(started) => run_started(run, &mut crew, disk, &mut records, told, started),
        None => {
            let Run {
                tools,
                header,
                script,
            } = *run;
            run_in_turn_told(tools, &mut crew, disk, header, &mut records, script, told)
        }
    };
    Scoped {
        disk,
        records,
        told,
        end,
    }
}

/// Starts a thread for each rank. None where one can't be started: those that were started are told to stop.
fn start_ranks<'s, E, R: Threads + Wait + Sync, G: Gate>(
    scope: &'s Scope<'s, E>,
    run: &'s Run<'s, R, G>,
    names: Option<&'s Names>,
) -> Option<StartedRanks<'s>>
    requires names { IfSome names (λ names. IsIndexOf run.now.header.now names.now) }
    ensures { IfSome result (HaveStarted run.now.header.now run.now.script.now) }
{
    let names = names?;
    let Ok(rooms) = make_rooms(run.tools.alloc, run.script.ranks) else {
        return None;
    };
    let Rooms {
        senders,
        inbox,
        mut ones,
        mut lines,
        ends,
    } = rooms;
    let lent = Lent { run, names };
    if !start_all(scope, &lent, senders, &mut ones, &mut lines) {
        stop_all(run.tools.rt, ones);
        return None;
    }
    Some(StartedRanks {
        measures: names.measures(run.header),
        inbox,
        ones,
        lines,
        ends,
    })
}

/// Starts a thread for each sender of the inbox, until one can't be started. Tells whether all were.
fn start_all<'s, E, R: Threads + Wait + Sync, G: Gate>(
    scope: &'s Scope<'s, E>,
    lent: &Lent<'s, R, G>,
    senders: Vec<InPut<SentItem>>,
    ones: &mut Vec<RankHandle<'s>>,
    lines: &mut Vec<LinePut<OwnerItem>>,
) -> bool
    requires names { IsIndexOf lent.now.run.now.header.now lent.now.names.now }
    requires numbers { map (λ s. s.number) senders.items ≡ range_with_len 0 lent.now.run.now.script.now.ranks }
    requires put { All (λ s. s.items ≡ []) senders.items }
    requires ones { ones.old.items ≡ [] }
    requires lines { lines.old.items ≡ [] }
    requires ones_room { length senders.items ≤ vec_capacity ones.old }
    requires lines_room { length senders.items ≤ vec_capacity lines.old }
    ensures of { AreOf lent.now.run.now.header.now lent.now.run.now.script.now ones.new.items }
    ensures handles { (inbox : Line (ℕ × RankItem)) → All (λ s. s.of ≡ inbox) senders.items → AreRankHandles inbox [] ones.new.items lines.new.items }
    ensures empty { All (λ line. line.items ≡ []) lines.new.items }
    ensures all { result ≡ true → length ones.new.items ≡ length senders.items }
{
    for out in senders {
        match start(scope, lent, out) {
            Some((one, line)) => {
                ones.push_reserved(one);
                lines.push_reserved(line);
            }
            None => return false,
        }
    }
    true
}

/// Tells the threads to stop, and joins them.
fn stop_all<R: Threads + Wait>(rt: &R, ones: Vec<RankHandle>) {
    for one in ones {
        let RankHandle {
            word: mut go,
            child,
        } = one;
        go.put(rt, Word::Stop);
        drop(child.join(rt));
        drop(go);
    }
}

/// Tells each thread to go.
fn tell_all<R: Wait>(rt: &R, ones: &mut [RankHandle])
    ensures told { (r : ℕ) (a b : RankHandle) → slice_get ones.old r ≡ Some a → slice_get ones.new r ≡ Some b → IsToldToGo a b }
    ensures long { length ones.new ≡ length ones.old }
{
    for one in ones.iter_mut() {
        one.word.put(rt, Word::Go);
    }
}

/// Lets the threads go, serves them, and ends the run by what they came to.
fn run_started<'s, E, R: Threads + Wait + Sync, D: Disk + 's, G: Gate, T: Told>(
    run: &Run<R, G>,
    crew: &mut Crew<'s, E, R, G, D>,
    disk: &mut D,
    records: &mut u64,
    told: &mut T,
    started: StartedRanks,
) -> RunEnd
    requires records { records.old ≡ run.now.header.now.records }
    requires from { D.from disk.old ≡ 0 }
    requires long { end_of run.now.header.now (header_len run.now.header.now) run.now.header.now.records ≤ D.len disk.old }
    requires started { HaveStarted run.now.header.now run.now.script.now started }
    ensures run { RunsOn D.Disk run.now.script.now run.now.header.now disk.old disk.new records.new result }
    ensures told { HasTold run.now.script.now run.now.header.now (D.held disk.old) (T.heard told.old) (T.heard told.new) result.order }
{
    let Run {
        tools,
        header,
        script,
    } = *run;
    let StartedRanks {
        measures,
        mut inbox,
        mut ones,
        lines,
        mut ends,
    } = started;
    let mut back = LinePutList::from_vec(lines);
    tell_all(tools.rt, &mut ones);
    let served = serve(
        tools,
        crew,
        disk,
        header,
        measures,
        records,
        &script.hints,
        &mut inbox,
        &mut back,
        told,
    );
    join_all(tools.rt, ones, back.into_vec(), inbox, &mut ends);
    end_run(tools.alloc, disk, header, records, served, ends)
}
