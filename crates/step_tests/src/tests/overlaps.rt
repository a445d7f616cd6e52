// Many entries that share bytes.
ghost use Rattle.std.specs.Prelude.{◌+◌, ◌^◌, ◌<◌, IsTrue};
ghost use Rattle.nc_base.specs.declared.plan.Owned.{Owned};
ghost use Rattle.overlay_laws.specs.Entries.{In};
ghost use Rattle.overlay_laws.specs.Lines.{extents, EndBelow};
ghost use Rattle.overlay_laws.specs.Origins.{origins, IsOnceEach};

use nc_base::{Extent, Owned, OwnedList, Pair};
use overlap_report::{cover, first_pair, gather, resolve};
use std::alloc::Global;
use std::process::Abort;
use test_fixtures::NO_MEMORY;

fn entry(at: u64, len: u64, rank: u32, request: u32) -> Owned {
    Owned {
        extent: Extent { at, len },
        rank,
        request,
        slot: request,
        from: 0,
    }
}

// Whether each entry ends below 2^62.
fn end_below(list: &[Owned]) -> bool
    ensures { IsTrue result → EndBelow (2 ^ 62) (extents list.now) }
{
    for entry in list {
        if entry.extent.at >= 1 << 61 || entry.extent.len >= 1 << 61 {
            return false;
        }
    }
    true
}

// Whether each entry's bytes end below 2^62 in its post.
fn found_below(list: &[Owned]) -> bool
    ensures { IsTrue result → (o : Owned) → In list.now o → o.from + o.extent.len < 2 ^ 62 }
{
    for entry in list {
        if entry.from >= 1 << 61 || entry.extent.len >= 1 << 61 {
            return false;
        }
    }
    true
}

// Whether the slots rise from entry to entry, so that no two are of one post.
fn slots_rise(list: &[Owned]) -> bool
    ensures { IsTrue result → IsOnceEach (origins list.now) }
{
    let mut least = 0;
    for entry in list {
        let slot = u64::from(entry.slot);
        if slot < least {
            return false;
        }
        least = slot + 1;
    }
    true
}

fn has_pair(rt: &impl Abort, list: &mut [Owned], wanted: Pair) {
    gather(list);
    assert!(rt; end_below(list));
    assert!(rt; first_pair(list) == Some(wanted));
}

fn has_cover(rt: &impl Abort, alloc: Global, list: &mut [Owned], wanted: &[Extent]) {
    gather(list);
    assert!(rt; end_below(list));
    let found = cover(alloc, list).expect(rt, NO_MEMORY);
    assert!(rt; found.as_slice() == wanted);
}

fn resolved_of(rt: &impl Abort, alloc: Global, list: &mut [Owned]) -> OwnedList {
    gather(list);
    assert!(rt; end_below(list));
    assert!(rt; found_below(list));
    assert!(rt; slots_rise(list));
    resolve(alloc, list).expect(rt, NO_MEMORY)
}

// Many entries of four bytes in an order that jumps, each sharing two bytes with the next. The 64 ranks go round.
fn overlapping(rt: &impl Abort, alloc: Global) -> Vec<Owned> {
    let mut list = Vec::new(alloc);
    for number in 0..65_536u32 {
        let place = (number * 25_173 + 13_849) % 65_536;
        let next = entry(u64::from(place) * 2, 4, place % 64, place);
        list.push(next).expect(rt, NO_MEMORY);
    }
    list
}

// The slot of the entry that holds a byte of the file, and which byte of its post that is.
fn byte_of(list: &[Owned], at: u64) -> Option<(u32, u64)> {
    for entry in list {
        let begin = entry.extent.at;
        if begin <= at && at - begin < entry.extent.len {
            return Some((entry.slot, entry.from.checked_add(at - begin)?));
        }
    }
    None
}

// The first two entries share byte 2.
const FIRST: Pair = Pair {
    rank1: 0,
    request1: 0,
    rank2: 1,
    request2: 1,
    at: 2,
};

// The bytes that the entries cover.
const COVERED: [Extent; 1] = [Extent {
    at: 0,
    len: 131_074,
}];

// Places, each with the slot of the entry that has its byte, and the number of the byte in its post. An entry of rank 63 keeps its four
// bytes, so that the next one, of rank 0, has none.
const BYTES: [(u64, u32, u64); 11] = [
    (0, 0, 0),
    (1, 0, 1),
    (2, 1, 0),
    (127, 63, 1),
    (128, 63, 2),
    (129, 63, 3),
    (130, 65, 0),
    (65_535, 32_767, 1),
    (65_536, 32_767, 2),
    (131_071, 65_535, 1),
    (131_073, 65_535, 3),
];

#[test]
fn many_entries_are_gathered_covered_and_resolved(rt: HostRuntime) {
    let alloc = rt.alloc();
    let mut list = overlapping(&rt, alloc);
    has_pair(&rt, list.as_mut_slice(), FIRST);
    has_cover(&rt, alloc, list.as_mut_slice(), &COVERED);
    let mut found = resolved_of(&rt, alloc, list.as_mut_slice());
    for (at, slot, byte) in &BYTES {
        assert!(rt;
            byte_of(found.as_slice(), *at) == Some((*slot, *byte)),
            "at {at}"
        );
    }
    has_cover(&rt, alloc, found.as_mut_slice(), &COVERED);
}
