// A cursor over the windows of one part and over the sorted entries of the gets, which may lie within one another.
ghost use Rattle.std.specs.Prelude.{◌≡◌, ◌+◌, ◌^◌, ◌<◌, ◌≤◌, min};
ghost use Rattle.overlay_laws.specs.Lines.{extents, EndBelow, IsByPlace};
ghost use Rattle.file_domains.specs.Rounds.{IsWalk};
ghost use Rattle.aggregator_rounds.specs.Left.{entries_left, IsPast};
ghost use Rattle.aggregator_rounds.specs.EntryParts.{AreFilled};
ghost use Rattle.get_exchange.specs.Gets.{entries_in, get_turns, IsGetPlanned};
ghost use Rattle.get_exchange.specs.Readers.{IsReader};
ghost use Rattle.exchange_crew.specs.Cursor.{AreInFront, IsAt};
ghost use Rattle.exchange_crew.specs.Turns.{turns_ahead};

use aggregator_rounds::{Unserved, ends_by};
use exchange_crew::{Aggregator, GetPlan, domain_windows};
use file_domains::{Window, WindowWalk};
use nc_base::{Extent, Owned};
use std::alloc::Global;

/// An aggregator of gets, and the sorted entries from the first one on that does not end before its domain.
#[derive(Clone, Copy, Drop)]
pub(crate) struct Reader<'a> {
    pub aggregator: Aggregator,
    pub entries: &'a [Owned],
}

/// What of the sorted entries the domains have still to come to: from the first one on that does not end by this place.
#[derive(Clone, Copy, Drop)]
pub(crate) struct Ahead<'a> {
    pub place: u64,
    pub entries: &'a [Owned],
}

impl<'a> Ahead<'a> {
    /// All entries of a plan.
    pub fn new(plan: &GetPlan<'a>) -> Self
        ensures place { result.place ≡ 0 }
        ensures past { IsPast result.place plan.now.list.now result.entries.now }
    {
        Ahead {
            place: 0,
            entries: plan.list.as_slice(),
        }
    }

    /// Goes on to a domain, and gives the entries from the first one on that does not end before it.
    pub fn reach(&mut self, plan: &GetPlan<'a>, domain: Extent) -> &'a [Owned]
        requires plan { IsGetPlanned plan.now }
        requires past { IsPast self.old.place plan.now.list.now self.old.entries.now }
        ensures past { IsPast self.new.place plan.now.list.now self.new.entries.now }
        ensures entries { IsPast domain.at plan.now.list.now result.now }
    {
        let place = domain.at;
        let Ahead { entries, .. } = self.from(plan, place);
        let entries = entries.split_at(ends_by(entries, place)).1;
        *self = Ahead { place, entries };
        entries
    }

    // What is left where the place has not been passed; else all entries.
    fn from(&self, plan: &GetPlan<'a>, place: u64) -> Ahead<'a>
        requires { IsPast self.now.place plan.now.list.now self.now.entries.now }
        ensures past { IsPast result.place plan.now.list.now result.entries.now }
        ensures low { result.place ≤ place }
    {
        if self.place <= place {
            return *self;
        }
        Ahead::new(plan)
    }
}

/// A window, and the entries that may have bytes in it.
#[derive(Clone, Copy, Drop)]
pub(crate) struct ReadTurn<'w> {
    pub window: Window,
    /// Those that reach past the window before.
    pub carried: &'w [Owned],
    /// Those that begin behind it.
    pub fresh: &'w [Owned],
}

/// What is left to be served of one part. Each entry is looked at once for each window that it has bytes in, as long as there is memory
/// for those that reach past a window.
#[derive(Drop)]
pub(crate) struct ReadWalk<'a> {
    pub windows: WindowWalk<'a>,
    pub entries: Unserved<'a>,
}

impl<'a> ReadWalk<'a> {
    /// All windows of a domain.
    pub fn new(alloc: Global, plan: &GetPlan<'a>, reader: &Reader<'a>) -> Self
        requires plan { IsGetPlanned plan.now }
        requires reader { IsReader plan.now reader.now }
        ensures ready { IsWalk result.windows }
        ensures windows { turns_ahead result.windows ≡ get_turns plan.now reader.now.aggregator.domain }
        ensures at { IsAt plan.now.list.now (min plan.now.hints.now.cb_buffer reader.now.aggregator.domain.len) (turns_ahead result.windows) (entries_left result.entries) }
    {
        ReadWalk {
            windows: domain_windows(plan.cover, plan.hints.cb_buffer, reader.aggregator.domain),
            entries: Unserved::new(alloc, reader.entries),
        }
    }

    /// A window with its entries, where those before it were passed.
    pub fn turn<'w>(&'w self, window: Window) -> ReadTurn<'w>
        requires sorted { IsByPlace (extents (entries_left self.now.entries)) }
        requires end { window.hull.at + window.hull.len < 2 ^ 62 }
        ensures window { result.window ≡ window }
        ensures front { AreInFront (result.window.hull.at + result.window.hull.len) (entries_left self.now.entries) (entries_in result) }
    {
        ReadTurn {
            window,
            carried: self.entries.carried.as_slice(),
            fresh: self.entries.ahead_before(window.hull.at + window.hull.len),
        }
    }

    /// Leaves out the entries that end with a window or before.
    pub fn go_past(&mut self, window: Window)
        requires ends { EndBelow (2 ^ 62) (extents (entries_left self.old.entries)) }
        requires filled { AreFilled (entries_left self.old.entries) }
        requires end { window.hull.at + window.hull.len < 2 ^ 62 }
        ensures past { IsPast (window.hull.at + window.hull.len) (entries_left self.old.entries) (entries_left self.new.entries) }
        ensures windows { self.new.windows ≡ self.old.windows }
    {
        self.entries.pass(window.hull.at + window.hull.len);
    }
}
