// The end of a run, in turn or on threads, by the ends of its ranks.
ghost use Rattle.std.specs.Prelude.{◌≡◌, ◌≤◌, ◌⊎◌, [], map, None, Some, IfOk, OnOk, Err, true, false};
ghost use Rattle.nc_base.specs.declared.step.StepErr.{StepErr as Fault};
ghost use Rattle.nc_base.specs.declared.step.StepErr.TheVariants as fault;
ghost use Rattle.nc_outside.specs.Cause.{Rose};
ghost use Rattle.serial_spec.specs.SoundHeaders.{is_sound};
ghost use Rattle.turn_run.specs.Known.{contents};
ghost use Rattle.turn_run.specs.Counts.{IsCount};
ghost use Rattle.turn_run.specs.RankEnds.{most_known_of, EndedAt, HasClosed, NoneBroke};

use collective_round::raise_records;
use nc_base::{
    AnswerTable, Header, MarkList, Memory, RankEnd, RankStop, RunEnd, ServeEnd, SizeList, StepErr,
};
use nc_outside::Disk;
use std::alloc::Global;

/// Ends a run whose steps were served. Where nothing went wrong, it raises the record count of the file to the greatest that a rank knew.
pub fn end_run<D: Disk>(
    alloc: Global,
    disk: &mut D,
    header: &Header,
    records: &mut u64,
    served: ServeEnd,
    ends: Vec<RankEnd>,
) -> RunEnd
    requires sound { is_sound header.now ≡ true }
    requires count { served.fault ≡ None → IsCount header.now (D.len disk.old) records.old }
    requires known { served.fault ≡ None → NoneBroke ends.items → is_sound (record header.now { records = most_known_of ends.items }) ≡ true }
    requires from { D.from disk.old ≡ 0 }
    ensures order { result.order ≡ served.order }
    ensures served { result.fault ≡ None → (served.fault ≡ None) × NoneBroke ends.items }
    ensures closed { result.fault ≡ None → HasClosed header.now (most_known_of ends.items) (contents D.Disk disk.old records.old) (contents D.Disk disk.new records.new) (D.calls disk.old) (D.calls disk.new) }
    ensures sound { result.fault ≡ None → is_sound (record header.now { records = records.new }) ≡ true }
    ensures answers { result.fault ≡ None → result.answers ≡ map (λ end. end.answers) ends.items }
    ensures pending { result.fault ≡ None → result.pending ≡ map (λ end. end.pending) ends.items }
    ensures none_pending { (e : Fault) → result.fault ≡ Some e → result.pending ≡ [] }
    ensures first { (e : Fault) → served.fault ≡ Some e → result.fault ≡ Some fault.Disk → e ≡ fault.Disk }
    ensures broke { result.fault ≡ Some fault.Disk → NoneBroke ends.items }
    ensures kept { result.fault ≡ Some fault.Disk → result.answers ≡ map (λ end. end.answers) ends.items }
    ensures at { (e : Fault) → result.fault ≡ Some e → EndedAt header.now ends.items served.fault e (contents D.Disk disk.old records.old) (contents D.Disk disk.new records.new) }
    ensures rows { (e : Fault) → result.fault ≡ Some e → (result.answers ≡ map (λ end. end.answers) ends.items) ⊎ (result.answers ≡ []) }
    ensures cause { served.fault ≡ None → result.fault ≡ Some fault.Disk → Rose (D.faults disk.old) (D.faults disk.new) }
    ensures later { D.faults disk.old ≤ D.faults disk.new }
{
    let ServeEnd {
        order,
        fault,
        stranger: _,
    } = served;
    match close(alloc, disk, header, records, fault, &ends) {
        Ok(()) => ended(alloc, order, ends),
        Err(fault) => cut_off(alloc, order, ends, fault),
    }
}

/// Closes the file after the ranks' ends, if nothing went wrong before: raises its record count to the greatest that a rank knew. A rank's
/// want of memory counts before a fault of the disk.
fn close<D: Disk>(
    alloc: Global,
    disk: &mut D,
    header: &Header,
    records: &mut u64,
    before: Option<StepErr>,
    ends: &[RankEnd],
) -> Result<(), StepErr>
    requires sound { is_sound header.now ≡ true }
    requires count { before ≡ None → IsCount header.now (D.len disk.old) records.old }
    requires known { before ≡ None → NoneBroke ends.now → is_sound (record header.now { records = most_known_of ends.now }) ≡ true }
    requires from { D.from disk.old ≡ 0 }
    ensures served { OnOk result ((before ≡ None) × NoneBroke ends.now) }
    ensures closed { OnOk result (HasClosed header.now (most_known_of ends.now) (contents D.Disk disk.old records.old) (contents D.Disk disk.new records.new) (D.calls disk.old) (D.calls disk.new)) }
    ensures sound { OnOk result (is_sound (record header.now { records = records.new }) ≡ true) }
    ensures first { (e : Fault) → before ≡ Some e → result ≡ Err fault.Disk → e ≡ fault.Disk }
    ensures broke { result ≡ Err fault.Disk → NoneBroke ends.now }
    ensures at { (e : Fault) → result ≡ Err e → EndedAt header.now ends.now before e (contents D.Disk disk.old records.old) (contents D.Disk disk.new records.new) }
    ensures cause { before ≡ None → result ≡ Err fault.Disk → Rose (D.faults disk.old) (D.faults disk.new) }
    ensures later { D.faults disk.old ≤ D.faults disk.new }
{
    if some_broke(ends) {
        return Err(StepErr::Memory);
    }
    if let Some(fault) = before {
        return Err(fault);
    }
    raise_records(alloc, disk, header, records, greatest_known(ends))
}

/// Whether a rank ended for want of memory.
fn some_broke(ends: &[RankEnd]) -> bool
    ensures none { result ≡ false → NoneBroke ends.now }
{
    ends.iter().any(|end| end.end == RankStop::Memory)
}

/// The greatest record count that a rank knew at its end.
fn greatest_known(ends: &[RankEnd]) -> u64
    ensures { result ≡ most_known_of ends.now }
{
    let mut known: u64 = 0;
    for end in ends {
        known = known.max(end.known);
    }
    known
}

/// How many requests each rank left.
fn pending_of(alloc: Global, ends: &[RankEnd]) -> Result<SizeList, Memory>
    ensures { IfOk result (λ sizes. sizes ≡ map (λ end. end.pending) ends.now) }
{
    let mut sizes = Vec::new(alloc);
    for end in ends {
        sizes.push(end.pending)?;
    }
    Ok(SizeList::from_vec(sizes))
}

/// The answers of each rank.
fn answers_of(alloc: Global, ends: Vec<RankEnd>) -> Result<AnswerTable, Memory>
    ensures { IfOk result (λ table. table ≡ map (λ end. end.answers) ends.items) }
{
    let mut table = Vec::new(alloc);
    for end in ends {
        table.push(end.answers)?;
    }
    Ok(AnswerTable::from_vec(table))
}

/// The end of a run in which all was done.
fn ended(alloc: Global, order: MarkList, ends: Vec<RankEnd>) -> RunEnd
    ensures order { result.order ≡ order }
    ensures answers { result.fault ≡ None → result.answers ≡ map (λ end. end.answers) ends.items }
    ensures pending { result.fault ≡ None → result.pending ≡ map (λ end. end.pending) ends.items }
    ensures memory { result.fault ≡ Some fault.Disk → ⊥ }
    ensures none { (e : Fault) → result.fault ≡ Some e → result.answers ≡ [] }
    ensures none_pending { (e : Fault) → result.fault ≡ Some e → result.pending ≡ [] }
{
    let pending = match pending_of(alloc, &ends) {
        Ok(pending) => pending,
        Err(_) => return stopped(alloc, order, StepErr::Memory),
    };
    match answers_of(alloc, ends) {
        Ok(answers) => RunEnd {
            order,
            answers,
            pending,
            fault: None,
        },
        Err(_) => stopped(alloc, order, StepErr::Memory),
    }
}

/// The end of a run that was cut off, with the answers so far. Where there is no memory for them, want of memory is its fault.
fn cut_off(alloc: Global, order: MarkList, ends: Vec<RankEnd>, cause: StepErr) -> RunEnd
    ensures order { result.order ≡ order }
    ensures some { result.fault ≡ None → ⊥ }
    ensures fault { (e : Fault) → result.fault ≡ Some e → (e ≡ cause) ⊎ (e ≡ fault.Memory) }
    ensures rows { (result.answers ≡ map (λ end. end.answers) ends.items) ⊎ (result.answers ≡ []) }
    ensures none_pending { result.pending ≡ [] }
    ensures disk { result.fault ≡ Some fault.Disk → (cause ≡ fault.Disk) × (result.answers ≡ map (λ end. end.answers) ends.items) }
{
    let pending = SizeList::new(alloc);
    match answers_of(alloc, ends) {
        Ok(answers) => RunEnd {
            order,
            answers,
            pending,
            fault: Some(cause),
        },
        Err(_) => stopped(alloc, order, StepErr::Memory),
    }
}

/// The end of a run that was cut off, without answers.
pub fn stopped(alloc: Global, order: MarkList, fault: StepErr) -> RunEnd
    ensures order { result.order ≡ order }
    ensures fault { result.fault ≡ Some fault }
    ensures answers { result.answers ≡ [] }
    ensures none_pending { result.pending ≡ [] }
{
    RunEnd {
        order,
        answers: AnswerTable::new(alloc),
        pending: SizeList::new(alloc),
        fault: Some(fault),
    }
}
