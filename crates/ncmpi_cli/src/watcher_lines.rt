// The lines of what watchers read.
ghost use Rattle.std.specs.Prelude.{◌≡◌, ◌++◌, OnOk, flat_map, map};
ghost use Rattle.script_spec.specs.Texts.{reading_line, watch_text, watcher_lines};
ghost use Rattle.ncmpi_cli.specs.Readings.{count_at, counted};

use nc_base::{Memory, SizeList};
use printed_text::words::{push_decimal, push_number_line};

/// The lines of each watcher: its number, and the number of steps of each reading with the record count after so many. The counts
/// are those after each step.
#[tactic(auto, using(crate::proofs::WatcherLaws::watchers_more))]
pub(crate) fn push_watchers(
    out: &mut Vec<u8>,
    readings: &[SizeList],
    opening: u64,
    counts: &[u64],
) -> Result<(), Memory>
    ensures { OnOk result (out.new.items ≡ out.old.items ++ watch_text (map (counted opening counts.now) readings.now)) }
{
    for (watcher, numbers) in readings.iter().enumerate() {
        push_watcher(out, watcher as u64, numbers.as_slice(), opening, counts)?;
    }
    Ok(())
}

fn push_watcher(
    out: &mut Vec<u8>,
    watcher: u64,
    numbers: &[u64],
    opening: u64,
    counts: &[u64],
) -> Result<(), Memory>
    ensures { OnOk result (out.new.items ≡ out.old.items ++ watcher_lines (watcher, counted opening counts.now numbers.now)) }
{
    push_number_line(out, b"watcher ", watcher)?;
    push_readings(out, numbers, opening, counts)
}

fn push_readings(
    out: &mut Vec<u8>,
    numbers: &[u64],
    opening: u64,
    counts: &[u64],
) -> Result<(), Memory>
    ensures { OnOk result (out.new.items ≡ out.old.items ++ flat_map reading_line (counted opening counts.now numbers.now)) }
{
    for steps in numbers {
        push_reading(out, *steps, count_at(opening, counts, *steps))?;
    }
    Ok(())
}

fn push_reading(out: &mut Vec<u8>, steps: u64, records: u64) -> Result<(), Memory>
    ensures { OnOk result (out.new.items ≡ out.old.items ++ reading_line (steps, records)) }
{
    push_decimal(out, steps)?;
    push_number_line(out, b" ", records)
}

// The record count after so many steps.
fn count_at(opening: u64, counts: &[u64], steps: u64) -> u64
    ensures { result ≡ count_at opening counts.now steps }
{
    if steps == 0 {
        return opening;
    }
    counts.get(steps as usize - 1).copied().unwrap_or(opening)
}
