// The bytes that extents have, in any order and any number of times.
ghost use Rattle.std.specs.Prelude.{◌≡◌, ◌^◌, ◌<◌, ◌≤◌, true, map, IfOk};
ghost use Rattle.std.specs.List.Sorted.{IsPermutation};
ghost use Rattle.overlay_laws.specs.Lines.{extents, EndBelow, IsByPlace};
ghost use Rattle.overlay_laws.specs.Walks.{IsCover};
ghost use Rattle.serial_spec.specs.DeviceCalls.{first_of};
ghost use Rattle.serial_spec.specs.Extents.{spans};
ghost use Rattle.nc_classic_c.specs.Windows.{bytes_asked, end_is_low, end_of, ends_are_low, entry};

use crate::extents::NcvExtent;
use nc_base::{Extent, ExtentList, FILE_LIMIT, Memory, Owned};
use overlap_report::{cover, gather};
use std::alloc::Global;
use var_layout::capped;

fn end_is_low(extent: &NcvExtent) -> bool
    ensures { result ≡ end_is_low extent.now }
{
    capped::sum(extent.at, extent.len) < FILE_LIMIT
}

pub(crate) fn ends_are_low(asked: &[NcvExtent]) -> bool
    ensures { result ≡ ends_are_low asked.now }
{
    asked.iter().all(|extent| end_is_low(extent))
}

fn entry(extent: &NcvExtent) -> Owned
    ensures { result ≡ entry extent.now }
{
    Owned {
        extent: Extent {
            at: extent.at,
            len: extent.len,
        },
        rank: 0,
        request: 0,
        slot: 0,
        from: 0,
    }
}

fn entries(alloc: Global, asked: &[NcvExtent]) -> Result<Vec<Owned>, Memory>
    ensures { IfOk result (λ list. list.items ≡ map entry asked.now) }
{
    let list: Vec<Owned> = asked.iter().map(|extent| entry(extent)).collect(alloc)?;
    Ok(list)
}

/// The extents as entries, sorted by place.
fn sorted_entries(alloc: Global, asked: &[NcvExtent]) -> Result<Vec<Owned>, Memory>
    ensures by_place { IfOk result (λ list. IsByPlace (extents list.items)) }
    ensures entries { IfOk result (λ list. IsPermutation (map entry asked.now) list.items) }
{
    let mut list = entries(alloc, asked)?;
    gather(list.as_mut_slice());
    Ok(list)
}

/// The bytes as extents in order, with a gap between any two.
pub(crate) fn cover_of(alloc: Global, asked: &[NcvExtent]) -> Result<ExtentList, Memory>
    requires { ends_are_low asked.now ≡ true }
    ensures apart { IfOk result (λ es. IsCover es) }
    ensures ends { IfOk result (λ es. EndBelow (2 ^ 62) es) }
    ensures bytes { IfOk result (λ es. spans es ≡ bytes_asked asked.now) }
{
    let list = sorted_entries(alloc, asked)?;
    let whole = cover(alloc, list.as_slice())?;
    Ok(whole)
}

/// From the least byte to the one behind the greatest.
#[derive(Clone, Copy)]
pub(crate) struct Reach {
    pub lo: u64,
    pub hi: u64,
}

/// How far the bytes of a cover reach; from 0 to 0 where there are none.
pub(crate) fn reach_of(cover: &[Extent]) -> Reach
    requires cover { IsCover cover.now }
    requires ends { EndBelow (2 ^ 62) cover.now }
    ensures begin { result.lo ≡ first_of (spans cover.now) }
    ensures end { result.hi ≡ end_of (spans cover.now) }
    ensures order { result.lo ≤ result.hi }
    ensures limit { result.hi < 2 ^ 62 }
{
    match (cover.first(), cover.last()) {
        (Some(first), Some(last)) => Reach {
            lo: first.at,
            hi: last.at + last.len,
        },
        _ => Reach { lo: 0, hi: 0 },
    }
}
