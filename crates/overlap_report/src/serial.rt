// Overlapping puts in serial order: the last one by rank and slot has the byte.
ghost use Rattle.std.specs.Prelude.{◌≡◌, [], ◌∷◌, Some, slice_get, MatchOption, ℕ, ◌+◌, ◌^◌, ◌<◌, ◌≤◌, List, IfOk, OnOk};
ghost use Rattle.std.specs.BinaryHeap.{IsHeap, heap_items, heap_len};
ghost use Rattle.std.specs.List.Sorted.{IsPermutation};
ghost use Rattle.nc_base.specs.declared.plan.Owned.{Owned};
ghost use Rattle.overlap_report.specs.declared.serial.Claim.{Claim};
ghost use Rattle.overlay_laws.specs.Entries.{In};
ghost use Rattle.overlay_laws.specs.Lines.{extents, IsByPlace, IsInLine, EndBelow};
ghost use Rattle.overlay_laws.specs.Origins.{origins, IsOnceEach, IsResolved};
ghost use Rattle.overlap_report.specs.Parts.{IsPartOfOne};
ghost use Rattle.overlap_report.specs.Sweep.{entries_of, owned_of, part_of, claim_cmp, IsTop, Swept, AreFit};

use nc_base::{Extent, Memory, Owned, OwnedList};
use std::alloc::Global;
use std::collections::BinaryHeap;

/// Gives each byte that entries hold to the one of them with the greatest rank and slot: the answer has each held byte once, in
/// order, with its place in that post's bytes. The entries are sorted by place, and those of one post share no byte.
pub fn resolve(alloc: Global, list: &[Owned]) -> Result<OwnedList, Memory>
    requires sorted { IsByPlace (extents list.now) }
    requires ends { EndBelow (2 ^ 62) (extents list.now) }
    requires found { (o : Owned) → In list.now o → o.from + o.extent.len < 2 ^ 62 }
    requires once { IsOnceEach (origins list.now) }
    ensures resolved { IfOk result (λ os. IsResolved list.now os) }
    ensures parts { IfOk result (λ os. (o : Owned) → In os o → IsPartOfOne list.now o) }
    ensures line { IfOk result (λ os. IsInLine (extents os)) }
    ensures held { IfOk result (λ os. (o : Owned) → In os o → 1 ≤ o.extent.len) }
    ensures ends { IfOk result (λ os. EndBelow (2 ^ 62) (extents os)) }
{
    let mut heap = BinaryHeap::new(alloc);
    let mut whole = Vec::new(alloc);
    let mut place = 0;
    for entry in list {
        serve(&mut heap, &mut whole, place, entry.extent.at)?;
        place = entry.extent.at;
        heap.push(Claim::of(entry))?;
    }
    serve(&mut heap, &mut whole, place, u64::MAX)?;
    Ok(OwnedList::from_vec(whole))
}

// An entry that has begun. The fields that say which one counts come first.
#[derive(Clone, Copy, PartialEq, Eq, PartialOrd, Ord)]
pub struct Claim {
    pub rank: u32,
    pub slot: u32,
    pub at: u64,
    pub len: u64,
    pub from: u64,
    pub request: u32,
}

impl Claim {
    fn of(entry: &Owned) -> Claim
        ensures { owned_of result ≡ entry.now }
    {
        Claim {
            rank: entry.rank,
            slot: entry.slot,
            at: entry.extent.at,
            len: entry.extent.len,
            from: entry.from,
            request: entry.request,
        }
    }

    // The part of the entry between two places in it.
    fn part(&self, at: u64, end: u64) -> Owned
        requires low { self.now.at ≤ at }
        requires order { at ≤ end }
        requires high { end ≤ self.now.at + self.now.len }
        requires found { self.now.from + self.now.len < 2 ^ 62 }
        ensures { result ≡ part_of (owned_of self.now) at end }
    {
        Owned {
            extent: Extent { at, len: end - at },
            rank: self.rank,
            request: self.request,
            slot: self.slot,
            from: self.from + (at - self.at),
        }
    }
}

// The claim that counts among those of the heap.
fn top_of(heap: &BinaryHeap<Claim>) -> Option<Claim>
    requires { IsHeap claim_cmp (heap_items heap.now) }
    ensures { MatchOption result (heap_items heap.now ≡ []) (λ t. IsTop (heap_items heap.now) t) }
{
    heap.peek().copied()
}

// Takes the top away.
fn drop_top(heap: &mut BinaryHeap<Claim>)
    requires heap { IsHeap claim_cmp (heap_items heap.old) }
    ensures heap { IsHeap claim_cmp (heap_items heap.new) }
    ensures rest { (t : Claim) → slice_get (heap_items heap.old) 0 ≡ Some t → IsPermutation (heap_items heap.old) (t ∷ heap_items heap.new) }
    ensures shorter { (t : Claim) → slice_get (heap_items heap.old) 0 ≡ Some t → heap_len heap.new < heap_len heap.old }
{
    let _top = heap.pop();
}

// Gives out the bytes from a place on, up to where an entry begins or for ever.
fn serve(
    heap: &mut BinaryHeap<Claim>,
    whole: &mut Vec<Owned>,
    place: u64,
    stop: u64,
) -> Result<(), Memory>
    requires heap { IsHeap claim_cmp (heap_items heap.old) }
    requires fit { AreFit place (entries_of (heap_items heap.old)) }
    requires order { place ≤ stop }
    ensures heap { OnOk result (IsHeap claim_cmp (heap_items heap.new)) }
    ensures fit { OnOk result (AreFit stop (entries_of (heap_items heap.new))) }
    ensures swept { OnOk result ((seen : List Owned) → Swept seen whole.old.items (entries_of (heap_items heap.old)) place
        → Swept seen whole.new.items (entries_of (heap_items heap.new)) stop) }
{
    let mut place = place;
    'bytes: while place < stop {
        let top = match top_of(heap) {
            Some(top) => top,
            None => return Ok(()),
        };
        let top_end = top.at + top.len;
        if top_end <= place {
            drop_top(heap);
        } else {
            let end = top_end.min(stop);
            whole.push(top.part(place, end))?;
            place = end;
        }
    }
    Ok(())
}
