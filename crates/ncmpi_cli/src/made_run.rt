// A run of a script that is made by a seed.
ghost use Rattle.std.specs.Prelude.{◌≡◌, ◌≤◌, ◌⊎◌, ℕ, [], true, take, IfErr, IfOk, IfSome, IsErrOf, OnErr, OnOk};
ghost use Rattle.nc_outside.specs.Told.{with_end, BothTold};
ghost use Rattle.script_spec.specs.Generator as spec;
ghost use Rattle.nc_outside.specs.Cause.{Rose};
ghost use Rattle.serial_spec.specs.SoundHeaders.{is_sound};
ghost use Rattle.ncmpi_cli.specs.Ends.{HasGenerated};
ghost use Rattle.ncmpi_cli.specs.Generated.{IsMadeStatus, script_made};
ghost use Rattle.ncmpi_cli.specs.Headline.{GivesLine};
ghost use Rattle.ncmpi_cli.specs.Outside.{output_at};
ghost use Rattle.dataset_start.specs.Readiness.{dataset_end, IsNotReady, IsReady};
ghost use Rattle.dataset_start.specs.Stops.{IsOfDataset, line_of_status, status_of};

use crate::report::{give, order_of, tell};
use crate::top::Outcome;
use dataset_start::{Ready, Stop, make_ready};
use generated_run::{make_script, summary_text};
use nc_base::{MarkList, ReadingTable, RunEnd, StepErr};
use nc_outside::{Disk, Gate, Sink};
use piece_exchange::Tools;
use rank_meeting::run_ranks;
use std::alloc::Global;
use std::sync::Wait;
use std::thread::Threads;

/// Runs the script that the seed makes on the dataset, which is created, and gives the text that sums it up.
pub(crate) fn run_made<R: Threads + Wait + Sync, K: Sink, D: Disk, G: Gate>(
    tools: &Tools<'_, R, G>,
    seed: u64,
    size: u32,
    dataset: &str,
    disk: &mut D,
    out: &mut K,
) -> Outcome
    requires some { 1 ≤ size }
    requires few { size ≤ 64 }
    ensures ends { HasGenerated seed size (output_at D.Disk K.Sink disk.old out.old) (output_at D.Disk K.Sink disk.new out.new) result.status result.order }
    ensures statuses { IsMadeStatus result.status }
    ensures sink { result.status ≡ 6 → Rose (K.faults out.old) (K.faults out.new) }
    ensures disk { result.status ≡ 7 → Rose (D.faults disk.old) (D.faults disk.new) }
    ensures silent { result.status ≡ 8 → out.new ≡ out.old }
    ensures readings { result.readings ≡ [] }
    ensures told { IfSome (line_of_status result.status) (λ line. GivesLine (K.faults out.old) (K.faults out.new) (K.given out.old) (K.given out.new) line) }
{
    let alloc = tools.alloc;
    let mut ready = match begin_made(alloc, seed, size, dataset, disk) {
        Ok(ready) => ready,
        Err(stop) => return tell(alloc, out, stop, MarkList::new(alloc)),
    };
    let mut records = ready.header.records;
    let end = run_ranks(
        tools.rt,
        alloc,
        disk,
        &ready.header,
        &mut records,
        &ready.script,
        tools.gate,
    );
    match end.fault {
        None => {
            ready.header.records = records;
            let outcome = sum_up(alloc, out, seed, size, &ready, end);
            drop(ready);
            outcome
        }
        Some(StepErr::Disk) => {
            drop(ready);
            tell(alloc, out, Stop::Disk, order_of(end))
        }
        Some(StepErr::Memory) => {
            drop(ready);
            tell(alloc, out, Stop::Memory, order_of(end))
        }
    }
}

// Makes the script, and its dataset ready.
fn begin_made<D: Disk>(
    alloc: Global,
    seed: u64,
    size: u32,
    dataset: &str,
    disk: &mut D,
) -> Result<Ready, Stop>
    requires some { 1 ≤ size }
    requires few { size ≤ 64 }
    ensures script { IfOk result (λ ready. ready.script ≡ script_made seed size) }
    ensures ready { IfOk result (λ ready. IsReady ready.script ready.header (D.held disk.old) (D.held disk.new) (D.calls disk.old) (D.calls disk.new)) }
    ensures from { OnOk result (D.from disk.new ≡ 0) }
    ensures len { IfOk result (λ ready. dataset_end ready.header ≤ D.len disk.new) }
    ensures laid { IfErr result (λ stop. ¬ (status_of stop ≡ 4)) }
    ensures torn { OnErr result (BothTold (IsNotReady (script_made seed size)) (D.held disk.old) (D.held disk.new)) }
    ensures disk { IsErrOf result Stop.Disk → Rose (D.faults disk.old) (D.faults disk.new) }
    ensures later { D.faults disk.old ≤ D.faults disk.new }
    ensures only { IfErr result IsOfDataset }
{
    let script = make_script(alloc, seed, size)?;
    let header = make_ready(alloc, disk, dataset, &script)?;
    Ok(Ready { script, header })
}

// Gives the text that sums up a run that ended without a fault.
fn sum_up<K: Sink>(
    alloc: Global,
    out: &mut K,
    seed: u64,
    size: u32,
    ready: &Ready,
    end: RunEnd,
) -> Outcome
    requires counted { spec.has_counts ready.now.script ≡ true }
    requires sound { is_sound ready.now.header ≡ true }
    ensures whole { result.status ≡ 0 → K.given out.new ≡ with_end (K.given out.old) (spec.summary_text seed size ready.now.script ready.now.header end.order end.answers) }
    ensures front { result.status ≡ 6 → (n : ℕ) × (K.given out.new ≡ with_end (K.given out.old) (take n (spec.summary_text seed size ready.now.script ready.now.header end.order end.answers))) }
    ensures sink { result.status ≡ 6 → Rose (K.faults out.old) (K.faults out.new) }
    ensures silent { result.status ≡ 8 → out.new ≡ out.old }
    ensures statuses { (result.status ≡ 0) ⊎ ((result.status ≡ 6) ⊎ (result.status ≡ 8)) }
    ensures order { result.order ≡ end.order }
    ensures readings { result.readings ≡ [] }
{
    match summary_text(alloc, seed, size, &ready.script, &ready.header, &end) {
        Ok(text) => {
            let none = ReadingTable::new(alloc);
            let outcome = give(out, text.as_slice(), order_of(end), none);
            drop(text);
            outcome
        }
        Err(_) => tell(alloc, out, Stop::Memory, order_of(end)),
    }
}
