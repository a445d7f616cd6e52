// Bytes that several requests hold.
ghost use Rattle.std.specs.Prelude.{◌≡◌, true, map, IfOk};
ghost use Rattle.std.specs.List.Sorted.{IsPermutation};
ghost use Rattle.overlay_laws.specs.Lines.{extents, IsByPlace};
ghost use Rattle.serial_spec.specs.SharedByte.{shared_pair_of};
ghost use Rattle.nc_classic_c.specs.Answers.{IsAnswer};
ghost use Rattle.nc_classic_c.specs.Overlaps.{entry, ends_low, ends_are_low, holdings, pair_shown, AreApart, IsOverlapRefusal};

use crate::answers::{OK, Refusal, number_of};
use nc_base::{Code, Extent, FILE_LIMIT, Memory, Owned, Pair};
use overlap_report::{first_pair, gather};
use std::alloc::Global;
use var_layout::capped;

/// Bytes of a file that follow one another, and the request that holds them.
#[repr(C)]
#[derive(Clone, Copy)]
pub struct NcvHeld {
    pub at: u64,
    pub len: u64,
    pub rank: u32,
    pub request: u32,
}

/// Two requests that hold a byte in common, and the byte.
#[repr(C)]
#[derive(Clone, Copy)]
pub struct NcvPair {
    pub at: u64,
    pub rank1: u32,
    pub request1: u32,
    pub rank2: u32,
    pub request2: u32,
}

fn ends_low(held: &NcvHeld) -> bool
    ensures { result ≡ ends_low held.now }
{
    capped::sum(held.at, held.len) < FILE_LIMIT
}

fn ends_are_low(held: &[NcvHeld]) -> bool
    ensures { result ≡ ends_are_low held.now }
{
    held.iter().all(|extent| ends_low(extent))
}

fn entry(held: &NcvHeld) -> Owned
    ensures { result ≡ entry held.now }
{
    Owned {
        extent: Extent {
            at: held.at,
            len: held.len,
        },
        rank: held.rank,
        request: held.request,
        slot: 0,
        from: 0,
    }
}

fn entries(alloc: Global, held: &[NcvHeld]) -> Result<Vec<Owned>, Memory>
    ensures { IfOk result (λ list. list.items ≡ map entry held.now) }
{
    let list: Vec<Owned> = held.iter().map(|extent| entry(extent)).collect(alloc)?;
    Ok(list)
}

/// The extents as entries, sorted by place.
fn sorted_entries(alloc: Global, held: &[NcvHeld]) -> Result<Vec<Owned>, Memory>
    ensures by_place { IfOk result (λ list. IsByPlace (extents list.items)) }
    ensures entries { IfOk result (λ list. IsPermutation (map entry held.now) list.items) }
{
    let mut list = entries(alloc, held)?;
    gather(list.as_mut_slice());
    Ok(list)
}

/// The least byte that two requests hold, with the two least of them.
fn first_shared(alloc: Global, held: &[NcvHeld]) -> Result<Option<Pair>, Memory>
    requires { ends_are_low held.now ≡ true }
    ensures { IfOk result (λ pair. pair ≡ shared_pair_of (holdings held.now)) }
{
    let list = sorted_entries(alloc, held)?;
    Ok(first_pair(list.as_slice()))
}

fn pair_shown(pair: Pair) -> NcvPair
    ensures { result ≡ pair_shown pair }
{
    NcvPair {
        at: pair.at,
        rank1: pair.rank1,
        request1: pair.request1,
        rank2: pair.rank2,
        request2: pair.request2,
    }
}

/// Whether no two requests hold a byte in common; else the least such byte, and the two least requests that hold it.
#[unsafe(no_mangle)]
pub extern "C" fn ncv_first_shared(alloc: Global, held: &[NcvHeld], pair: &mut NcvPair) -> i32
    ensures { IsAnswer result (AreApart held.now × (pair.new ≡ pair.old)) (λ r. IsOverlapRefusal held.now r pair.old pair.new) }
{
    if !ends_are_low(held) {
        return number_of(Refusal::Asked(Code::ETooLarge));
    }
    match first_shared(alloc, held) {
        Ok(None) => OK,
        Ok(Some(found)) => {
            *pair = pair_shown(found);
            number_of(Refusal::Shared)
        }
        Err(Memory) => number_of(Refusal::Memory),
    }
}
