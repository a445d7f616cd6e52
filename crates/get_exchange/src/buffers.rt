// The blobs that hulls are read into. They go round among the helpers of a step.
ghost use Rattle.std.specs.Prelude.{IfOk, OnOk};
ghost use Rattle.get_exchange.specs.Gets.{IsGetPlanned};
ghost use Rattle.get_exchange.specs.Lenders.{AreReady, IsReady};

use exchange_crew::{GetPlan, InRounds, Spares, first_in_turn};
use file_domains::{Window, WindowWalk, windows};
use nc_base::{Blob, Extent, Memory};
use ruled_line::{LinePut, LineTake, line};
use std::alloc::Global;
use std::sync::Wait;

/// The calling thread's end of the line on which blobs are lent to a helper, and the helper's windows for which none was lent yet: the
/// next one, and those after it.
#[derive(Drop)]
pub(crate) struct Lender<'a> {
    spare: LinePut<Blob>,
    next: Option<Window>,
    windows: WindowWalk<'a>,
    // Whether the helper has a blob that didn't come back.
    lent: bool,
}

/// The lenders of a step, one for each helper.
#[derive(Drop)]
pub(crate) struct Lenders<'a> {
    pub each: Vec<Lender<'a>>,
}

/// The lenders, the helpers' ends of their lines, the last one first, and the blobs that go round.
#[derive(Drop)]
pub(crate) struct Lending<'a> {
    pub lenders: Lenders<'a>,
    pub lines: Vec<LineTake<Blob>>,
    pub blobs: Vec<Blob>,
}

/// A line for each domain, on which nothing was lent yet, and blobs, each with room for the longest hull of all: one for each item that a
/// line may hold, but no more than there are domains. So many windows are read side by side.
pub(crate) fn lending_of<'a>(
    alloc: Global,
    spares: &mut Spares,
    plan: &GetPlan<'a>,
    domains: &[Extent],
) -> Result<Lending<'a>, Memory>
    requires { IsGetPlanned plan.now }
    ensures { IfOk result (λ lending. AreReady lending.lenders.each.items) }
{
    let blobs = make_blobs(alloc, spares, plan, domains)?;
    let mut lending = Lending {
        lenders: Lenders {
            each: Vec::new(alloc),
        },
        lines: Vec::new(alloc),
        blobs,
    };
    lending.add_lines(alloc, plan, domains)?;
    lending.lines.reverse();
    Ok(lending)
}

// Blobs that go round, of spare buffers.
fn make_blobs(
    alloc: Global,
    spares: &mut Spares,
    plan: &GetPlan,
    domains: &[Extent],
) -> Result<Vec<Blob>, Memory>
    requires { IsGetPlanned plan.now }
{
    let longest = longest_hull(plan, domains) as usize;
    let count = domains.len().min(plan.hints.line_room as usize);
    let mut blobs = Vec::new(alloc);
    for _ in 0..count {
        blobs.push(Blob::from_vec(spares.room(alloc, longest)?))?;
    }
    Ok(blobs)
}

impl<'a> Lending<'a> {
    ghost use Rattle.get_exchange.specs.Gets.{IsGetPlanned};
    ghost use Rattle.get_exchange.specs.Lenders.{AreReady, IsReady};

    // A line for each domain, behind the others.
    fn add_lines(
        &mut self,
        alloc: Global,
        plan: &GetPlan<'a>,
        domains: &[Extent],
    ) -> Result<(), Memory>
        requires plan { IsGetPlanned plan.now }
        requires ready { AreReady self.old.lenders.each.items }
        ensures { OnOk result (AreReady self.new.lenders.each.items) }
    {
        for domain in domains {
            let (put, take) = line::<Blob>(alloc, 1)?;
            self.add(Lender::new(plan, *domain, put), take)?;
        }
        Ok(())
    }

    // One lender more, and the helper's end of its line.
    fn add(&mut self, lender: Lender<'a>, line: LineTake<Blob>) -> Result<(), Memory>
        requires ready { AreReady self.old.lenders.each.items }
        requires lender { IsReady lender }
        ensures { OnOk result (AreReady self.new.lenders.each.items) }
    {
        self.lenders.each.push(lender)?;
        self.lines.push(line)?;
        Ok(())
    }
}

impl<'a> Lender<'a> {
    ghost use Rattle.get_exchange.specs.Gets.{IsGetPlanned};
    ghost use Rattle.get_exchange.specs.Lenders.{IsReady};

    // Of a helper that has none yet, for all windows of its domain.
    fn new(plan: &GetPlan<'a>, domain: Extent, spare: LinePut<Blob>) -> Self
        requires { IsGetPlanned plan.now }
        ensures { IsReady result }
    {
        let mut windows = windows(domain, plan.cover.as_slice(), plan.hints.cb_buffer);
        let next = windows.next();
        Lender {
            spare,
            next,
            windows,
            lent: false,
        }
    }

    // Lends a blob for the next window.
    fn lend<R: Wait>(&mut self, rt: &R, blob: Blob)
        requires { IsReady self.old }
        ensures { IsReady self.new }
    {
        self.spare.put(rt, blob);
        self.lent = true;
        if self.next.is_some() {
            self.next = self.windows.next();
        }
    }

    // The helper's blob came back. One that has ended reads no more windows.
    fn come_back(&mut self, ended: bool)
        requires { IsReady self.old }
        ensures { IsReady self.new }
    {
        self.lent = false;
        if ended {
            self.next = None;
        }
    }
}

impl<'a> Lenders<'a> {
    ghost use Rattle.get_exchange.specs.Gets.{IsGetPlanned};
    ghost use Rattle.get_exchange.specs.Lenders.{AreReady};

    /// Leaves those of the first so many helpers. The others have none.
    pub fn keep(&mut self, count: usize)
        requires { AreReady self.old.each.items }
        ensures { AreReady self.new.each.items }
    {
        self.each.truncate(count);
    }

    /// Lends each blob, where a helper is left without one.
    pub fn lend_first<R: Wait>(&mut self, rt: &R, spares: &mut Spares, blobs: Vec<Blob>)
        requires { AreReady self.old.each.items }
        ensures { AreReady self.new.each.items }
    {
        for blob in blobs {
            self.lend(rt, spares, blob);
        }
    }

    /// The blob of the helper with this number came back. One that has ended reads no more windows.
    pub fn come_back(&mut self, number: usize, ended: bool)
        requires { AreReady self.old.each.items }
        ensures { AreReady self.new.each.items }
    {
        if number < self.each.len() {
            self.each[number].come_back(ended);
        }
    }

    /// Lends a blob to the helper whose hull is the next one to be taken of those for which none is lent. Where there is none it is
    /// kept for the next step.
    ///
    /// So blobs are lent in the order in which hulls are taken, and the helper for whose hull the calling thread waits has one.
    pub fn lend<R: Wait>(&mut self, rt: &R, spares: &mut Spares, blob: Blob)
        requires { AreReady self.old.each.items }
        ensures { AreReady self.new.each.items }
    {
        match first_in_turn(&self.each) {
            Some(k) => self.each[k].lend(rt, blob),
            None => spares.keep(blob.into_vec()),
        }
    }
}

impl<'a> InRounds for Lender<'a> {
    ghost use Rattle.get_exchange.specs.Lenders.{wanted_by};

    ghost next = { λ lender. wanted_by lender };

    // That of the window for which a blob can be lent now.
    fn next_round(&self) -> Option<u64> {
        if self.lent {
            return None;
        }
        Some(self.next?.round)
    }
}

// How long the longest hull of the domains' windows is.
fn longest_hull(plan: &GetPlan, domains: &[Extent]) -> u64
    requires { IsGetPlanned plan.now }
{
    let mut longest = 0;
    for domain in domains {
        longest = longest_in(plan, *domain).max(longest);
    }
    longest
}

// How long the longest hull of a domain's windows is.
fn longest_in(plan: &GetPlan, domain: Extent) -> u64
    requires { IsGetPlanned plan.now }
{
    let mut longest = 0;
    for window in windows(domain, plan.cover.as_slice(), plan.hints.cb_buffer) {
        longest = window.hull.len.max(longest);
    }
    longest
}
