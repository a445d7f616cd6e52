// What of sorted entries is left to be served.
ghost use Rattle.std.specs.Prelude.{◌≡◌, ◌⊎◌, ◌+◌, ◌++◌, ◌∷◌, [], ◌^◌, ◌<◌, ◌≤◌, ℕ, slice_get, take, length, true, false, Some};
ghost use Rattle.nc_base.specs.declared.plan.Owned.{Owned};
ghost use Rattle.overlay_laws.specs.Entries.{In};
ghost use Rattle.overlay_laws.specs.Lines.{extents, IsByPlace, EndBelow};
ghost use Rattle.aggregator_rounds.specs.EntryParts.{AreFilled};
ghost use Rattle.aggregator_rounds.specs.Left.{entries_left, filter_past, BeginBefore, IsPast};

use crate::entry::end_of;
use nc_base::Owned;
use std::alloc::Global;

/// What of sorted entries is left when the bytes before a place were served. Those that begin before it and reach past it are
/// carried on, so that none which ends before it is looked at again.
///
/// Where there is no memory to carry one, it stays in front of those ahead.
#[derive(Drop)]
pub struct Unserved<'a> {
    /// Those that begin before the place, in order.
    pub carried: Vec<Owned>,
    /// Those behind them.
    pub ahead: &'a [Owned],
}

impl<'a> Unserved<'a> {
    /// All entries.
    pub fn new(alloc: Global, list: &'a [Owned]) -> Self
        ensures carried { result.carried.items ≡ [] }
        ensures ahead { result.ahead.now ≡ list.now }
    {
        Unserved {
            carried: Vec::new(alloc),
            ahead: list,
        }
    }

    /// The first one.
    pub fn first(&self) -> Option<Owned>
        ensures { result ≡ slice_get (entries_left self.now) 0 }
    {
        match self.carried.first() {
            Some(first) => Some(*first),
            None => self.ahead.first().copied(),
        }
    }

    /// Those ahead that begin before the place.
    pub fn ahead_before(&self, stop: u64) -> &'a [Owned]
        requires sorted { IsByPlace (extents self.now.ahead.now) }
        ensures { BeginBefore stop self.now.ahead.now result.now }
    {
        head(self.ahead, begins_before(self.ahead, stop))
    }

    /// Leaves out those that end at the place or before.
    pub fn pass(&mut self, stop: u64)
        requires ends { EndBelow (2 ^ 62) (extents (entries_left self.old)) }
        requires filled { AreFilled (entries_left self.old) }
        ensures past { IsPast stop (entries_left self.old) (entries_left self.new) }
        ensures first { (o : Owned) → slice_get (entries_left self.new) 0 ≡ Some o → stop < o.extent.at + o.extent.len }
        ensures carried { (o : Owned) → In self.new.carried.items o → (In self.old.carried.items o ⊎ (o.extent.at < stop)) × (stop < o.extent.at + o.extent.len) }
    {
        leave_out(&mut self.carried, stop);
        'ahead: while let Some((entry, rest)) = self.ahead.split_first() {
            if !is_passed(&mut self.carried, entry, stop) {
                break;
            }
            self.ahead = rest;
        }
    }
}

// Leaves out those that end at the place or before.
fn leave_out(carried: &mut Vec<Owned>, stop: u64)
    requires ends { EndBelow (2 ^ 62) (extents carried.old.items) }
    ensures { carried.new.items ≡ filter_past stop carried.old.items }
{
    carried.retain(|entry| entry.extent.at.saturating_add(entry.extent.len) > stop);
}

// Whether a walk goes on behind an entry: it begins before the place, and is carried if it reaches past it.
fn is_passed(carried: &mut Vec<Owned>, entry: &Owned, stop: u64) -> bool
    requires end { entry.now.extent.at + entry.now.extent.len < 2 ^ 62 }
    requires filled { 1 ≤ entry.now.extent.len }
    ensures passed { result ≡ true → ((carried.new.items ≡ carried.old.items) × (entry.now.extent.at + entry.now.extent.len ≤ stop)) ⊎ ((carried.new.items ≡ carried.old.items ++ entry.now ∷ []) × (entry.now.extent.at < stop) × (stop < entry.now.extent.at + entry.now.extent.len)) }
    ensures not { result ≡ false → (carried.new.items ≡ carried.old.items) × (stop < entry.now.extent.at + entry.now.extent.len) }
{
    if entry.extent.at >= stop {
        return false;
    }
    if end_of(entry) <= stop {
        return true;
    }
    carried.push(*entry).is_ok()
}

fn head<'a>(list: &'a [Owned], count: usize) -> &'a [Owned]
    requires { count ≤ length list.now }
    ensures { result.now ≡ take count list.now }
{
    &list[..count]
}

/// How many entries in front begin before the place.
pub fn begins_before(list: &[Owned], place: u64) -> usize
    ensures bound { result ≤ length list.now }
    ensures before { (i : ℕ) (o : Owned) → i < result → slice_get list.now i ≡ Some o → o.extent.at < place }
    ensures after { (o : Owned) → slice_get list.now result ≡ Some o → place ≤ o.extent.at }
{
    for (i, entry) in list.iter().enumerate() {
        if entry.extent.at >= place {
            return i;
        }
    }
    list.len()
}

/// How many entries in front end at the place or before.
pub fn ends_by(list: &[Owned], place: u64) -> usize
    requires { EndBelow (2 ^ 62) (extents list.now) }
    ensures bound { result ≤ length list.now }
    ensures before { (i : ℕ) (o : Owned) → i < result → slice_get list.now i ≡ Some o → o.extent.at + o.extent.len ≤ place }
    ensures after { (o : Owned) → slice_get list.now result ≡ Some o → place < o.extent.at + o.extent.len }
{
    for (i, entry) in list.iter().enumerate() {
        if end_of(entry) > place {
            return i;
        }
    }
    list.len()
}
