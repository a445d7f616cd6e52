// The windows of sieving, by a cursor over the sorted entries.
ghost use Rattle.std.specs.Prelude.{◌≡◌, ℕ, ◌+◌, ◌++◌, ◌-◌, ◌^◌, ◌<◌, ◌≤◌, length, slice_get, Some, IfSome, IfNone, []};
ghost use Rattle.nc_base.specs.declared.plan.Owned.{Owned};
ghost use Rattle.overlay_laws.specs.Entries.{In};
ghost use Rattle.overlay_laws.specs.Lines.{extents, IsByPlace, EndBelow};
ghost use Rattle.aggregator_rounds.specs.EntryParts.{AreFilled};
ghost use Rattle.aggregator_rounds.specs.Left.{entries_left, IsPast};
ghost use Rattle.data_sieving.specs.Walked.{entries_in, AreLeft, IsHull, IsNext, LieAcross, Reach};

use aggregator_rounds::{Unserved, end_of};
use file_domains::Window;
use nc_base::{Extent, Owned};

// A window, and the entries that may have bytes in it.
#[derive(Clone, Copy, Drop)]
pub struct SieveWindow<'w> {
    pub window: Window,
    // Those that reach past the window before.
    pub carried: &'w [Owned],
    // Those that begin behind it.
    pub fresh: &'w [Owned],
    // The bytes before it are served by this window.
    pub stop: u64,
}

// What of sorted entries is left to be served.
#[derive(Drop)]
pub struct SieveWalk<'a> {
    pub entries: Unserved<'a>,
    // The bytes before it were served.
    pub from: u64,
    pub size: u64,
}

impl<'a> SieveWalk<'a> {
    // The window that begins at the first byte not yet served.
    pub fn next_window<'w>(&'w self) -> Option<SieveWindow<'w>>
        requires left { AreLeft (entries_left self.now.entries) self.now.from self.now.size }
        requires across { LieAcross self.now.from self.now.entries.carried.items }
        ensures none { IfNone result (entries_left self.now.entries ≡ []) }
        ensures next { IfSome result (λ w. IsNext (entries_left self.now.entries) self.now.from self.now.size w.window (entries_in w) w.stop) }
    {
        let Some(first) = self.entries.first() else {
            return None;
        };
        let at = first.extent.at.max(self.from);
        let stop = at.saturating_add(self.size);
        let carried = self.entries.carried.as_slice();
        let fresh = self.entries.ahead_before(stop);
        let window = window_of(carried, fresh, at, stop);
        Some(SieveWindow {
            window,
            carried,
            fresh,
            stop,
        })
    }

    // Leaves out what ends at the place or before.
    pub fn pass(&mut self, stop: u64)
        requires left { AreLeft (entries_left self.old.entries) self.old.from self.old.size }
        requires across { LieAcross self.old.from self.old.entries.carried.items }
        requires further { self.old.from ≤ stop }
        ensures left { AreLeft (entries_left self.new.entries) self.new.from self.new.size }
        ensures across { LieAcross self.new.from self.new.entries.carried.items }
        ensures past { IsPast self.new.from (entries_left self.old.entries) (entries_left self.new.entries) }
        ensures from { self.new.from ≡ stop }
        ensures size { self.new.size ≡ self.old.size }
    {
        self.entries.pass(stop);
        self.from = stop;
    }
}

// The hull of the entries' bytes from one place to another, of which those carried have the first.
fn window_of(carried: &[Owned], fresh: &[Owned], at: u64, stop: u64) -> Window
    requires sorted { IsByPlace (extents fresh.now) }
    requires ends { EndBelow (2 ^ 62) (extents (carried.now ++ fresh.now)) }
    requires filled { AreFilled fresh.now }
    requires across { (o : Owned) → In carried.now o → (o.extent.at ≤ at) × (at < o.extent.at + o.extent.len) }
    requires before { (o : Owned) → In fresh.now o → o.extent.at < stop }
    requires first { (o : Owned) → slice_get (carried.now ++ fresh.now) 0 ≡ Some o → at < o.extent.at + o.extent.len }
    requires some { 1 ≤ length (carried.now ++ fresh.now) }
    requires order { at < stop }
    ensures { IsHull at stop (carried.now ++ fresh.now) result }
{
    let mut end = reach(carried, at, stop);
    let mut full = true;
    for entry in fresh {
        if entry.extent.at > end {
            full = false;
        }
        end = end.max(end_of(entry).min(stop));
    }
    Window {
        round: 0,
        hull: Extent { at, len: end - at },
        full,
    }
}

// Where the last of entries ends, each of which has the byte at a place, or the stop where that comes before.
fn reach(carried: &[Owned], at: u64, stop: u64) -> u64
    requires ends { EndBelow (2 ^ 62) (extents carried.now) }
    requires across { (o : Owned) → In carried.now o → (o.extent.at ≤ at) × (at < o.extent.at + o.extent.len) }
    requires order { at < stop }
    ensures { Reach at stop carried.now result }
{
    let mut end = at;
    for entry in carried {
        end = end.max(end_of(entry).min(stop));
    }
    end
}
