// The values of a rank's rows.
ghost use Rattle.std.specs.Prelude.{◌≡◌, ◌+◌, ◌*◌, ◌%◌, ◌^◌, ◌<◌, ◌≤◌, ◌++◌, IfOk, OnOk};
ghost use Rattle.nc_base.specs.BitForms.{bits_of_runs};
ghost use Rattle.nc_base.specs.NumberForms.{numbers_of_runs};
ghost use Rattle.script_spec.specs.Generator.{first_row};
ghost use Rattle.generated_run.specs.Made.{depths, precip_band, precip_row, temp_band, temp_row, temps};

use crate::definitions::{COLUMNS, RANKS, ROWS};
use nc_base::{BitList, BitRun, Memory, NumberList, NumberRun};
use std::alloc::Global;

/// The bits of 1.0, the least value of `temp`.
const ONE: u64 = 0x3F80_0000;

/// How many bit patterns of `temp` there are.
const PATTERNS: u32 = 1 << 23;

/// How many values of `precip` there are, and the greatest.
const DEPTHS: u32 = 20001;

const DEEPEST: i64 = 10000;

/// Where a rank's rows begin; those of rank `RANKS`, which there is none of, begin where all rows end.
pub(crate) fn first_row(rank: u32) -> u32
    requires { rank ≤ 8 }
    ensures value { result ≡ first_row rank }
    ensures within { result ≤ 180 }
{
    ROWS * rank / RANKS
}

/// How far the value at a place lies above the least. There are so many: they rise by one from place to place, and behind the
/// greatest begin again.
fn first_of(values: u32, seed: u64, place: u64) -> u32
    requires some { 0 < values }
    requires place { place < 2 ^ 63 }
    ensures value { result ≡ (seed + place) % values }
    ensures within { result < values }
{
    let values = u64::from(values);
    ((seed % values + place) % values) as u32
}

/// What a rank puts into `temp` for a record, row after row.
pub(crate) fn temp_band(alloc: Global, seed: u64, rank: u32, time: u32) -> Result<BitList, Memory>
    requires { rank < 8 }
    ensures { IfOk result (λ values. values ≡ temp_band seed rank time) }
{
    let first = first_row(rank);
    let end = first_row(rank + 1);
    let mut runs = Vec::with_capacity(alloc, (end - first) as usize)?;
    for row in first..end {
        push_temp_row(&mut runs, seed, time, row)?;
    }
    BitList::from_runs(runs)
}

/// Adds a row of `temp`: patterns that rise by one, and behind the greatest begin again at the least.
fn push_temp_row(out: &mut Vec<BitRun>, seed: u64, time: u32, row: u32) -> Result<(), Memory>
    ensures { OnOk result (bits_of_runs out.new.items ≡ bits_of_runs out.old.items ++ temp_row seed time row) }
{
    let place = 64800 * u64::from(time) + 360 * u64::from(row);
    let first = first_of(PATTERNS, seed, place);
    let count = COLUMNS.min(PATTERNS - first);
    push_temps(out, first, count)?;
    push_temps(out, 0, COLUMNS - count)
}

/// Adds so many patterns that rise by one, the first so far above the least.
fn push_temps(out: &mut Vec<BitRun>, first: u32, count: u32) -> Result<(), Memory>
    requires { first + count ≤ 2 ^ 23 }
    ensures { OnOk result (bits_of_runs out.new.items ≡ bits_of_runs out.old.items ++ temps first count) }
{
    if count == 0 {
        return Ok(());
    }
    out.push(BitRun {
        first: ONE + u64::from(first),
        step: 1,
        count,
    })?;
    Ok(())
}

/// What a rank puts into `precip` for a record, row after row.
pub(crate) fn precip_band(
    alloc: Global,
    seed: u64,
    rank: u32,
    time: u32,
) -> Result<NumberList, Memory>
    requires { rank < 8 }
    ensures { IfOk result (λ values. values ≡ precip_band seed rank time) }
{
    let first = first_row(rank);
    let end = first_row(rank + 1);
    let mut runs = Vec::with_capacity(alloc, (end - first) as usize)?;
    for row in first..end {
        push_precip_row(&mut runs, seed, time, row)?;
    }
    NumberList::from_runs(runs)
}

/// Adds a row of `precip`: depths that rise by one, and behind the greatest begin again at the least.
fn push_precip_row(out: &mut Vec<NumberRun>, seed: u64, time: u32, row: u32) -> Result<(), Memory>
    ensures { OnOk result (numbers_of_runs out.new.items ≡ numbers_of_runs out.old.items ++ precip_row seed time row) }
{
    let place = 101 * u64::from(time) + 3 * u64::from(row);
    let first = first_of(DEPTHS, seed, place);
    let count = COLUMNS.min(DEPTHS - first);
    push_depths(out, first, count)?;
    push_depths(out, 0, COLUMNS - count)
}

/// Adds so many depths that rise by one, the first so far above the least.
fn push_depths(out: &mut Vec<NumberRun>, first: u32, count: u32) -> Result<(), Memory>
    ensures { OnOk result (numbers_of_runs out.new.items ≡ numbers_of_runs out.old.items ++ depths first count) }
{
    if count == 0 {
        return Ok(());
    }
    out.push(NumberRun {
        first: i64::from(first) - DEEPEST,
        step: 1,
        count,
    })?;
    Ok(())
}
