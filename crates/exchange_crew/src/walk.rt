// A cursor over the windows of one part and over the sorted entries.
ghost use Rattle.std.specs.Prelude.{◌≡◌, ◌∷◌, [], ◌+◌, ◌^◌, ◌≤◌, length, map, min, take, drop, IfNone, IfOk, IfSome};
ghost use Rattle.file_domains.specs.Rounds.{IsWalk};
ghost use Rattle.aggregator_rounds.specs.ToldWindows.{told_window};
ghost use Rattle.aggregator_rounds.specs.Left.{IsPast};
ghost use Rattle.nc_base.specs.declared.plan.Extent.{Extent};
ghost use Rattle.overlay_laws.specs.Entries.{In};
ghost use Rattle.overlay_laws.specs.Lines.{EndBelow};
ghost use Rattle.overlay_laws.specs.Walks.{IsCover};
ghost use Rattle.exchange_crew.specs.Cursor.{AreInFront, IsAt};
ghost use Rattle.exchange_crew.specs.Plan.{planned_turns, IsPlanned};
ghost use Rattle.exchange_crew.specs.Turns.{turns_ahead, turns_of, IsTurnWalk};

use crate::plan::PutPlan;
use aggregator_rounds::{begins_before, ends_by};
use file_domains::{Window, WindowWalk, windows};
use nc_base::{Extent, ExtentList, Memory, Owned};
use std::alloc::Global;

/// A window, and the entries that may have bytes in it.
#[derive(Clone, Copy, Drop)]
pub struct Turn<'a> {
    pub window: Window,
    pub entries: &'a [Owned],
}

/// What is left to be served of one part. It is plain data: a helper and the caller each go over a copy of their own.
#[derive(Clone, Copy, Drop)]
pub struct TurnWalk<'a> {
    pub windows: WindowWalk<'a>,
    /// From the first one on that is not wholly served.
    pub entries: &'a [Owned],
}

impl<'a> TurnWalk<'a> {
    /// All windows of a domain.
    pub fn new(plan: &PutPlan<'a>, domain: Extent) -> Self
        requires { IsPlanned plan.now }
        ensures ready { IsTurnWalk result }
        ensures entries { result.entries.now ≡ plan.now.list.now }
        ensures windows { turns_ahead result.windows ≡ planned_turns plan.now domain }
        ensures at { IsAt plan.now.list.now (min plan.now.hints.now.cb_buffer domain.len) (turns_ahead result.windows) result.entries.now }
    {
        TurnWalk {
            windows: domain_windows(plan.cover, plan.hints.cb_buffer, domain),
            entries: plan.list.as_slice(),
        }
    }

    /// The next window, in order of places.
    pub fn next_turn(&mut self) -> Option<Turn<'a>>
        requires { IsTurnWalk self.old }
        ensures ready { IfSome result (λ _. IsTurnWalk self.new) }
        ensures none { IfNone result (turns_ahead self.old.windows ≡ []) }
        ensures some { IfSome result (λ t. turns_ahead self.old.windows ≡ told_window t.window ∷ turns_ahead self.new.windows) }
        ensures front { IfSome result (λ t. AreInFront (t.window.hull.at + t.window.hull.len) self.old.entries.now t.entries.now) }
        ensures past { IfSome result (λ t. IsPast (t.window.hull.at + t.window.hull.len) self.old.entries.now self.new.entries.now) }
    {
        let window = next_window(&mut self.windows)?;
        let stop = window.hull.at + window.hull.len;
        let entries = head(self.entries, begins_before(self.entries, stop));
        self.entries = tail(self.entries, ends_by(self.entries, stop));
        Some(Turn { window, entries })
    }
}

/// The windows of a domain, each `size` bytes long, given the cover of the entries.
pub fn domain_windows<'a>(cover: &'a ExtentList, size: u64, domain: Extent) -> WindowWalk<'a>
    requires cover { IsCover cover.now }
    requires ends { EndBelow (2 ^ 62) cover.now }
    requires size { 1 ≤ size }
    ensures ready { IsWalk result }
    ensures windows { turns_ahead result ≡ turns_of size domain cover.now }
{
    windows(domain, cover.as_slice(), size)
}

/// The next window, in order of places.
pub fn next_window(windows: &mut WindowWalk) -> Option<Window>
    requires { IsWalk windows.old }
    ensures ready { IfSome result (λ _. IsWalk windows.new) }
    ensures none { IfNone result (turns_ahead windows.old ≡ []) }
    ensures some { IfSome result (λ w. turns_ahead windows.old ≡ told_window w ∷ turns_ahead windows.new) }
{
    windows.next()
}

/// The windows of a domain, each `size` bytes long, in order of places, given the cover of the entries.
pub fn window_list(
    alloc: Global,
    cover: &ExtentList,
    size: u64,
    domain: Extent,
) -> Result<Vec<Window>, Memory>
    requires cover { IsCover cover.now }
    requires ends { EndBelow (2 ^ 62) cover.now }
    requires size { 1 ≤ size }
    ensures { IfOk result (λ list. map told_window list.items ≡ turns_of size domain cover.now) }
{
    let mut list = Vec::new(alloc);
    let mut windows = domain_windows(cover, size, domain);
    'turns: while let Some(window) = next_window(&mut windows) {
        list.push(window)?;
    }
    Ok(list)
}

/// How long the buffer is that holds each window of the domains, which are so many bytes at most.
pub(crate) fn longest_window(size: u64, domains: &[Extent]) -> u64
    ensures { (domain : Extent) → In domains.now domain → min size domain.len ≤ result }
{
    let mut longest = 0;
    for domain in domains {
        longest = domain.len.min(size).max(longest);
    }
    longest
}

fn head(list: &[Owned], count: usize) -> &[Owned]
    requires { count ≤ length list.now }
    ensures { result.now ≡ take count list.now }
{
    list.split_at(count).0
}

fn tail(list: &[Owned], count: usize) -> &[Owned]
    requires { count ≤ length list.now }
    ensures { result.now ≡ drop count list.now }
{
    list.split_at(count).1
}
