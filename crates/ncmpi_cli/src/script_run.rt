// A run of the script that the source has.
ghost use Rattle.std.specs.Prelude.{◌≡◌, ◌≤◌, [], length, true, All, IfSome};
ghost use Rattle.nc_outside.specs.Cause.{Rose};
ghost use Rattle.rank_meeting.specs.Run.{RunsOn};
ghost use Rattle.serial_spec.specs.SoundHeaders.{is_sound};
ghost use Rattle.serial_spec.specs.Lawful.{is_lawful};
ghost use Rattle.ncmpi_cli.specs.Ends.{HasReadings, HasRun};
ghost use Rattle.ncmpi_cli.specs.Headline.{GivesLine, IsBeforeRanks, IsSilent, IsStatus};
ghost use Rattle.ncmpi_cli.specs.Outside.{seen_at};
ghost use Rattle.dataset_start.specs.Dataset.{IsBeforeStart};
ghost use Rattle.dataset_start.specs.Readiness.{dataset_end};
ghost use Rattle.ncmpi_cli.specs.Readings.{AreCounted};
ghost use Rattle.dataset_start.specs.Stops.{line_of_status};
ghost use Rattle.ncmpi_cli.specs.Watched.{AreReadings};

use crate::report::{finish, tell};
use crate::top::Outcome;
use crate::watched_run::{RunReadings, WatchedRun, watch_ranks};
use dataset_start::{Stop, begin};
use nc_base::{Header, MarkList, ReadingTable, Script, SizeList, StepErr};
use nc_outside::{Disk, Gate, Sink, Source};
use piece_exchange::Tools;
use rank_meeting::run_ranks;
use std::sync::Wait;
use std::thread::Threads;

/// Runs the script that the source has on the dataset, beside so many watchers, and gives its text to the sink.
pub(crate) fn run_script<R: Threads + Wait + Sync, S: Source, K: Sink, D: Disk, G: Gate>(
    tools: &Tools<'_, R, G>,
    dataset: &str,
    watchers: u32,
    script: &mut S,
    disk: &mut D,
    out: &mut K,
) -> Outcome
    requires few { watchers ≤ 8 }

    // What is done, and what each status leaves.
    ensures ends { HasRun (seen_at S.Source D.Disk K.Sink script.old disk.old out.old) (seen_at S.Source D.Disk K.Sink script.new disk.new out.new) (disk.new ≡ disk.old) result.status result.order result.readings }
    ensures readings { HasReadings watchers result.status (length result.order) result.readings }

    // Each status has its cause.
    ensures statuses { IsStatus result.status }
    ensures formed { ¬ (result.status ≡ 2) }
    ensures source { result.status ≡ 5 → Rose (S.faults script.old) (S.faults script.new) }
    ensures sink { result.status ≡ 6 → Rose (K.faults out.old) (K.faults out.new) }
    ensures disk { result.status ≡ 7 → Rose (D.faults disk.old) (D.faults disk.new) }

    // What is untouched.
    ensures not_started { IsBeforeStart result.status → disk.new ≡ disk.old }
    ensures unchanged { result.status ≡ 4 → D.held disk.new ≡ D.held disk.old }
    ensures silent { IsSilent result.status → out.new ≡ out.old }
    ensures no_step { IsBeforeRanks result.status → result.order ≡ [] }

    // The line that tells a fault, or a front of it where the sink failed.
    ensures told { IfSome (line_of_status result.status) (λ line. GivesLine (K.faults out.old) (K.faults out.new) (K.given out.old) (K.given out.new) line) }
{
    let alloc = tools.alloc;
    let mut ready = match begin(alloc, dataset, script, disk) {
        Ok(ready) => ready,
        Err(stop) => return tell(alloc, out, stop, MarkList::new(alloc)),
    };
    let opening = ready.header.records;
    let mut records = opening;
    let run = run_beside(
        tools,
        disk,
        &ready.header,
        &mut records,
        &ready.script,
        watchers,
    );
    match run.end.fault {
        None => {
            ready.header.records = records;
            let outcome = finish(alloc, out, &ready.script, &ready.header, opening, run);
            drop(ready);
            outcome
        }
        Some(StepErr::Disk) => {
            drop(ready);
            tell(alloc, out, Stop::Disk, run.into_order())
        }
        Some(StepErr::Memory) => {
            drop(ready);
            tell(alloc, out, Stop::Memory, run.into_order())
        }
    }
}

// Runs the ranks, beside watchers where there are some.
fn run_beside<R: Threads + Wait + Sync, D: Disk, G: Gate>(
    tools: &Tools<'_, R, G>,
    disk: &mut D,
    header: &Header,
    records: &mut u64,
    script: &Script,
    watchers: u32,
) -> WatchedRun
    requires sound { is_sound header.now ≡ true }
    requires lawful { is_lawful script.now ≡ true }
    requires records { records.old ≡ header.now.records }
    requires from { D.from disk.old ≡ 0 }
    requires long { dataset_end header.now ≤ D.len disk.old }
    requires few { watchers ≤ 8 }
    ensures run { RunsOn D.Disk script.now header.now disk.old disk.new records.new result.end }
    ensures readings { IfSome result.seen (λ seen. (length seen.readings ≡ watchers) × All (AreReadings (length result.end.order)) seen.readings) }
    ensures counted { IfSome (D.held disk.old) (AreCounted script.now header.now result) }
{
    if watchers > 0 {
        return watch_ranks(tools, disk, header, records, script, watchers);
    }
    let alloc = tools.alloc;
    WatchedRun {
        end: run_ranks(tools.rt, alloc, disk, header, records, script, tools.gate),
        seen: Some(RunReadings {
            readings: ReadingTable::new(alloc),
            counts: SizeList::new(alloc),
        }),
    }
}
