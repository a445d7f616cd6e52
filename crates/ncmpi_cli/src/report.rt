// How a run is told: by its text, or by the line of a fault.
ghost use Rattle.std.specs.Prelude.{◌≡◌, ◌⊎◌, ℕ, [], None, Some, true, take, is_some, IfOk, IfSome, IsSome};
ghost use Rattle.nc_outside.specs.Told.{with_end};
ghost use Rattle.nc_outside.specs.Cause.{Rose};
ghost use Rattle.serial_spec.specs.SoundHeaders.{is_sound};
ghost use Rattle.ncmpi_cli.specs.Headline.{GivesLine, GivesText};
ghost use Rattle.ncmpi_cli.specs.Readings as spec;
ghost use Rattle.dataset_start.specs.Stops.{fixed_line_of, line_of, status_of};

use crate::top::Outcome;
use crate::watched_run::{RunReadings, WatchedRun};
use crate::watcher_lines::push_watchers;
use dataset_start::{Stop, give_all};
use nc_base::{Blob, Header, MarkList, Memory, ReadingTable, RunEnd, Script};
use nc_outside::Sink;
use printed_text::run_text;
use std::alloc::Global;

/// Gives the text of a run that ended without a fault, with the lines of its watchers behind it. `opening` is the record count when the ranks
/// began; the header has the final one.
pub(crate) fn finish<K: Sink>(
    alloc: Global,
    out: &mut K,
    script: &Script,
    header: &Header,
    opening: u64,
    run: WatchedRun,
) -> Outcome
    requires sound { is_sound header.now ≡ true }
    ensures whole { result.status ≡ 0 → K.given out.new ≡ with_end (K.given out.old) (spec.whole_text script.now header.now opening run) }
    ensures front { result.status ≡ 6 → (n : ℕ) × (K.given out.new ≡ with_end (K.given out.old) (take n (spec.whole_text script.now header.now opening run))) }
    ensures sink { result.status ≡ 6 → Rose (K.faults out.old) (K.faults out.new) }
    ensures silent { result.status ≡ 8 → out.new ≡ out.old }
    ensures statuses { (result.status ≡ 0) ⊎ ((result.status ≡ 6) ⊎ (result.status ≡ 8)) }
    ensures order { result.order ≡ run.end.order }
    ensures seen { GivesText result.status → IsSome run.seen }
    ensures readings { GivesText result.status → result.readings ≡ spec.readings_of run.seen }
    ensures none { result.status ≡ 8 → result.readings ≡ [] }
{
    let WatchedRun { end, seen } = run;
    let Some(seen) = seen else {
        return tell(alloc, out, Stop::Memory, order_of(end));
    };
    match whole_text(alloc, script, header, &end, opening, &seen) {
        Ok(text) => {
            let RunReadings { readings, counts } = seen;
            drop(counts);
            let outcome = give(out, text.as_slice(), order_of(end), readings);
            drop(text);
            outcome
        }
        Err(_) => {
            drop(seen);
            tell(alloc, out, Stop::Memory, order_of(end))
        }
    }
}

// The text of a run, and the lines of what was seen of it.
fn whole_text(
    alloc: Global,
    script: &Script,
    header: &Header,
    end: &RunEnd,
    opening: u64,
    seen: &RunReadings,
) -> Result<Blob, Memory>
    requires sound { is_sound header.now ≡ true }
    ensures { IfOk result (λ text. text ≡ spec.whole_text script.now header.now opening (record { end = end.now; seen = Some seen.now })) }
{
    let mut text = run_text(alloc, script, header, end)?.into_vec();
    let readings = seen.readings.as_slice();
    push_watchers(&mut text, readings, opening, seen.counts.as_slice())?;
    Ok(Blob::from_vec(text))
}

/// The steps that were finished in a run, in order.
pub(crate) fn order_of(end: RunEnd) -> MarkList
    ensures { result ≡ end.order }
{
    let RunEnd {
        order,
        answers,
        pending,
        fault: _,
    } = end;
    // Two calls, which hide from the check of this function how their items are let go.
    drop(answers);
    drop(pending);
    order
}

/// Gives the whole text with which something ends well.
pub(crate) fn give<K: Sink>(
    out: &mut K,
    text: &[u8],
    order: MarkList,
    readings: ReadingTable,
) -> Outcome
    ensures whole { result.status ≡ 0 → K.given out.new ≡ with_end (K.given out.old) text.now }
    ensures front { result.status ≡ 6 → (n : ℕ) × (K.given out.new ≡ with_end (K.given out.old) (take n text.now)) }
    ensures sink { result.status ≡ 6 → Rose (K.faults out.old) (K.faults out.new) }
    ensures statuses { (result.status ≡ 0) ⊎ (result.status ≡ 6) }
    ensures order { result.order ≡ order }
    ensures readings { result.readings ≡ readings }
{
    let status = match give_all(out, text) {
        Ok(()) => 0,
        Err(_) => 6,
    };
    Outcome {
        status,
        order,
        readings,
    }
}

/// Gives the line that tells why a run ended early, where one does. A sink that fails on it leaves the status.
pub(crate) fn tell<K: Sink>(alloc: Global, out: &mut K, stop: Stop, order: MarkList) -> Outcome
    ensures status { (result.status ≡ status_of stop) ⊎ (result.status ≡ 8) }
    ensures fixed { is_some (fixed_line_of stop) ≡ true → result.status ≡ status_of stop }
    ensures unlined { line_of stop ≡ None → (result.status ≡ status_of stop) × (out.new ≡ out.old) }
    ensures line { result.status ≡ status_of stop → IfSome (line_of stop) (λ line. GivesLine (K.faults out.old) (K.faults out.new) (K.given out.old) (K.given out.new) line) }
    ensures silent { result.status ≡ 8 → out.new ≡ out.old }
    ensures order { result.order ≡ order }
    ensures readings { result.readings ≡ [] }
{
    if let Some(line) = stop.fixed_line() {
        let _ = give_all(out, line);
        return outcome(alloc, stop.status(), order);
    }
    match stop.made_line(alloc) {
        Ok(Some(line)) => {
            let _ = give_all(out, line.as_slice());
            outcome(alloc, stop.status(), order)
        }
        Ok(None) => outcome(alloc, stop.status(), order),
        Err(_) => outcome(alloc, 8, order),
    }
}

// An outcome of which no watcher has readings.
fn outcome(alloc: Global, status: u8, order: MarkList) -> Outcome
    ensures status { result.status ≡ status }
    ensures order { result.order ≡ order }
    ensures readings { result.readings ≡ [] }
{
    Outcome {
        status,
        order,
        readings: ReadingTable::new(alloc),
    }
}
