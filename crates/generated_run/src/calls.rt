// The calls of the ranks.
ghost use Rattle.std.specs.Prelude.{◌≡◌, ◌+◌, ◌*◌, ◌<◌, ◌≤◌, ◌++◌, ◌∷◌, [], IfOk, OnOk, codes, flat_map, map, true};
ghost use Rattle.std.specs.List.{range_with_len};
ghost use Rattle.nc_base.specs.declared.request.Call.TheVariants as call;
ghost use Rattle.nc_base.specs.declared.request.PostKind.TheVariants.{Bput};
ghost use Rattle.nc_base.specs.declared.request.Values.TheVariants.{Bits, Numbers};
ghost use Rattle.script_spec.specs.Generator.{block};
ghost use Rattle.generated_run.specs.Made.{calls_of_rank, calls_of_record, columns_of, precip_band, region_of_band, temp_band};

use crate::bands::{first_row, precip_band, temp_band};
use crate::definitions::{COLUMNS, PRECIP, RANKS, ROWS, TEMP};
use nc_base::{
    Call, CallList, CallTable, Choice, Form, Given, Memory, Name, PartList, PostKind, SizeList,
    Values,
};
use std::alloc::Global;

/// Bytes of the buffer that each rank attaches: more than its puts of one record take.
const BUFFER: u64 = 65536;

/// How many columns lie from the one that a rank reads to that of the next.
const COLUMN_STEP: u64 = 45;

pub(crate) fn made_calls(alloc: Global, seed: u64, size: u32) -> Result<CallTable, Memory>
    requires { size ≤ 64 }
    ensures { IfOk result (λ calls. calls ≡ map (λ r. calls_of_rank seed size r) (range_with_len 0 8)) }
{
    let mut calls = CallTable::new(alloc);
    for rank in 0..RANKS {
        calls.push(rank_calls(alloc, seed, size, rank)?)?;
    }
    Ok(calls)
}

fn rank_calls(alloc: Global, seed: u64, size: u32, rank: u32) -> Result<CallList, Memory>
    requires records { size ≤ 64 }
    requires rank { rank < 8 }
    ensures { IfOk result (λ calls. calls ≡ calls_of_rank seed size rank) }
{
    let mut calls = CallList::new(alloc);
    calls.push(Call::Attach { size: BUFFER })?;
    push_records(alloc, &mut calls, seed, size, rank)?;
    push_gets(alloc, &mut calls, size, rank)?;
    calls.push(Call::Detach)?;
    Ok(calls)
}

/// A get of each variable.
fn push_gets(alloc: Global, calls: &mut CallList, size: u32, rank: u32) -> Result<(), Memory>
    ensures { OnOk result (calls.new ≡ calls.old ++ call.Get true (codes "temp") (columns_of size rank) ∷ call.Get true (codes "precip") (columns_of size rank) ∷ []) }
{
    calls.push(get_columns(alloc, TEMP, size, rank)?)?;
    calls.push(get_columns(alloc, PRECIP, size, rank)?)?;
    Ok(())
}

fn push_records(
    alloc: Global,
    calls: &mut CallList,
    seed: u64,
    size: u32,
    rank: u32,
) -> Result<(), Memory>
    requires records { size ≤ 64 }
    requires rank { rank < 8 }
    ensures { OnOk result (calls.new ≡ calls.old ++ flat_map (λ t. calls_of_record seed rank t) (range_with_len 0 size)) }
{
    for time in 0..size {
        push_record(alloc, calls, seed, rank, time)?;
    }
    Ok(())
}

/// A put of each variable, and a wait for both.
fn push_record(
    alloc: Global,
    calls: &mut CallList,
    seed: u64,
    rank: u32,
    time: u32,
) -> Result<(), Memory>
    requires time { time < 64 }
    requires rank { rank < 8 }
    ensures { OnOk result (calls.new ≡ calls.old ++ calls_of_record seed rank time) }
{
    calls.push(put_temps(alloc, seed, rank, time)?)?;
    calls.push(put_precips(alloc, seed, rank, time)?)?;
    calls.push(Call::Wait {
        all: true,
        choice: Choice::Every,
    })?;
    Ok(())
}

/// A put of the rank's rows of `temp` in a record.
fn put_temps(alloc: Global, seed: u64, rank: u32, time: u32) -> Result<Call, Memory>
    requires time { time < 64 }
    requires rank { rank < 8 }
    ensures { IfOk result (λ c. c ≡ call.Post (2 * time) Bput (codes "temp") (region_of_band rank time) (Bits (temp_band seed rank time))) }
{
    let temps = temp_band(alloc, seed, rank, time)?;
    put_band(alloc, 2 * time, TEMP, rank, time, Values::Bits(temps))
}

/// A put of the rank's rows of `precip` in a record.
fn put_precips(alloc: Global, seed: u64, rank: u32, time: u32) -> Result<Call, Memory>
    requires time { time < 64 }
    requires rank { rank < 8 }
    ensures { IfOk result (λ c. c ≡ call.Post (2 * time + 1) Bput (codes "precip") (region_of_band rank time) (Numbers (precip_band seed rank time))) }
{
    let precips = precip_band(alloc, seed, rank, time)?;
    put_band(
        alloc,
        2 * time + 1,
        PRECIP,
        rank,
        time,
        Values::Numbers(precips),
    )
}

/// A put of the rank's rows of a record, by way of the attached buffer.
fn put_band(
    alloc: Global,
    id: u32,
    var: &[u8],
    rank: u32,
    time: u32,
    values: Values,
) -> Result<Call, Memory>
    requires { rank < 8 }
    ensures { IfOk result (λ c. c ≡ call.Post id Bput var.now (region_of_band rank time) values) }
{
    Ok(Call::Post {
        id,
        kind: PostKind::Bput,
        var: Name::from_slice(alloc, var)?,
        given: region_of_band(alloc, rank, time)?,
        values,
    })
}

/// The rank's rows of a record.
fn region_of_band(alloc: Global, rank: u32, time: u32) -> Result<Given, Memory>
    requires { rank < 8 }
    ensures { IfOk result (λ given. given ≡ region_of_band rank time) }
{
    let first = first_row(rank);
    let rows = first_row(rank + 1) - first;
    let start = vec![in alloc; u64::from(time), u64::from(first), 0]?;
    let count = vec![in alloc; 1, u64::from(rows), u64::from(COLUMNS)]?;
    Ok(block(alloc, start, count))
}

/// A get of the rank's column of each record.
fn get_columns(alloc: Global, var: &[u8], size: u32, rank: u32) -> Result<Call, Memory>
    ensures { IfOk result (λ c. c ≡ call.Get true var.now (columns_of size rank)) }
{
    let start = vec![in alloc; 0, 0, COLUMN_STEP * u64::from(rank)]?;
    let count = vec![in alloc; u64::from(size), u64::from(ROWS), 1]?;
    Ok(Call::Get {
        all: true,
        var: Name::from_slice(alloc, var)?,
        given: block(alloc, start, count),
    })
}

fn block(alloc: Global, start: Vec<u64>, count: Vec<u64>) -> Given
    ensures { result ≡ block start.items count.items }
{
    Given {
        form: Form::Vara,
        start: SizeList::from_vec(start),
        count: SizeList::from_vec(count),
        stride: SizeList::new(alloc),
        imap: SizeList::new(alloc),
        parts: PartList::new(alloc),
    }
}
