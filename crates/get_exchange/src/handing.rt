// Handing parts to helpers.
ghost use Rattle.std.specs.Prelude.{◌≡◌, ◌≤◌, [], length, map, IfOk, IfErr, IfSome};
ghost use Rattle.std.specs.Option.{ForSome};
ghost use Rattle.aggregator_rounds.specs.Left.{IsPast};
ghost use Rattle.aggregator_rounds.specs.ToldWindows.{told_window};
ghost use Rattle.exchange_crew.specs.Handed.{AreHanded, IsGiven};
ghost use Rattle.exchange_crew.specs.Hulls.{LieOnPart};
ghost use Rattle.exchange_crew.specs.Plan.{HaveDomains, IsDomainOf, IsLineRoom};
ghost use Rattle.exchange_crew.specs.Rooms.{HasRooms};
ghost use Rattle.get_exchange.specs.Gets.{IsGetPlanned};
ghost use Rattle.get_exchange.specs.Shelves.{domain_of, part_of, IsFresh, IsOutfit};

use crate::helper::{GetDuty, GetJob, GetLines};
use crate::reading::Reading;
use crate::shelf::{Shelf, shelf_of};
use crate::walk::{Ahead, Reader};
use crossbeam_channel::Sender;
use exchange_crew::{
    Aggregator, Errand, GetPlan, PartBack, PartEnds, Shares, Team, Tools, add_handed,
    next_aggregator, window_list,
};
use file_domains::Window;
use nc_base::{Blob, Extent};
use nc_outside::Disk;
use promised_reply::{Awaited, reply};
use ruled_line::{LineTake, line};
use std::alloc::Global;
use std::snapshot::Snapshot;
use std::sync::Wait;

/// What the calling thread has of a helper: the domain that it reads, and its reply.
#[derive(Drop)]
pub(crate) struct GetHelper<D: Disk> {
    pub domain: Extent,
    pub awaited: Awaited<PartBack<D, GetLines>, GetDuty<D>>,
}

/// A helper, and the calling thread's end of its line of readings.
#[derive(Drop)]
pub(crate) struct ReadWorker<'a, D: Disk> {
    pub helper: GetHelper<D>,
    pub shelf: Shelf<'a>,
}

/// What a helper reads its part by, the windows that it reads, and the calling thread's end of its line.
#[derive(Drop)]
pub(crate) struct Outfit {
    pub lines: GetLines,
    pub windows: Vec<Window>,
    pub line: LineTake<Reading>,
}

/// The parts, and the lines on which blobs are lent for them, the last one first.
#[derive(Drop)]
pub(crate) struct Supply<D: Drop> {
    pub parts: Vec<D>,
    pub lines: Vec<LineTake<Blob>>,
}

/// Hands each part to the helper of its number, up to the first for which there is none. That one and those behind it are the rest.
pub(crate) fn hand_all<'a, R: Wait, D: Disk, G, P: Send + Drop>(
    team: &Team<R, G, Sender<Errand<P, GetJob<D>>>>,
    plan: &GetPlan<'a>,
    domains: &[Extent],
    supply: Supply<D>,
    shares: &mut Shares<ReadWorker<'a, D>, D>,
)
    requires plan { IsGetPlanned plan.now }
    requires line { IsLineRoom plan.now.hints.now.line_room }
    requires few { length domains.now ≤ 64 }
    requires domains { HaveDomains D.Disk plan.now.list.now domains.now supply.parts.items }
    requires rooms { HasRooms (length supply.parts.items) shares.old }
    ensures handed { AreHanded (λ worker. IsFresh plan.now worker) (λ worker. part_of worker) (λ worker. domain_of worker) domains.now supply.parts.items shares.new }
    ensures back { shares.new.back ≡ shares.old.back }
{
    let Supply { parts, mut lines } = supply;
    let mut ahead = Ahead::new(plan);
    for part in parts {
        let next = next_aggregator(shares, domains);
        let handed = hand_one(team, plan, next, part, lines.pop(), &mut ahead);
        add_handed(shares, handed);
    }
}

// Hands a part to the helper of its aggregator. Where there is none, or what it needs can't be had, the part comes back as it was.
fn hand_one<'a, R: Wait, D: Disk, G, P: Send + Drop>(
    team: &Team<R, G, Sender<Errand<P, GetJob<D>>>>,
    plan: &GetPlan<'a>,
    aggregator: Option<Aggregator>,
    part: D,
    spare: Option<LineTake<Blob>>,
    ahead: &mut Ahead<'a>,
) -> Result<ReadWorker<'a, D>, D>
    requires plan { IsGetPlanned plan.now }
    requires line { IsLineRoom plan.now.hints.now.line_room }
    requires domain { ForSome aggregator (λ a. IsDomainOf plan.now.list.now (D.from part) (D.len part) a.domain) }
    requires past { IsPast ahead.old.place plan.now.list.now ahead.old.entries.now }
    ensures past { IsPast ahead.new.place plan.now.list.now ahead.new.entries.now }
    ensures kept { IfErr result (λ back. back ≡ part) }
    ensures given { IfOk result (IsGiven (λ worker. IsFresh plan.now worker) (λ worker. part_of worker) (λ worker. domain_of worker) aggregator part) }
{
    let tools = team.tools;
    let Some(aggregator) = aggregator else {
        return Err(part);
    };
    let Aggregator { number, domain } = aggregator;
    let entries = ahead.reach(plan, domain);
    let Some(helper) = team.helpers.get(number as usize) else {
        return Err(part);
    };
    let Some(outfit) = outfit_of(tools.alloc, plan, domain, spare) else {
        return Err(part);
    };
    let Outfit {
        lines,
        windows,
        line,
    } = outfit;
    let awaited = ask(tools, helper, number, windows, PartEnds { part, lines })?;
    let reader = Reader {
        aggregator,
        entries,
    };
    Ok(ReadWorker {
        helper: GetHelper { domain, awaited },
        shelf: shelf_of(tools.alloc, plan, &reader, line),
    })
}

// A line for readings, beside the one on which blobs are lent, and the windows of a domain. None where one of them can't be had.
fn outfit_of(
    alloc: Global,
    plan: &GetPlan,
    domain: Extent,
    spare: Option<LineTake<Blob>>,
) -> Option<Outfit>
    requires plan { IsGetPlanned plan.now }
    requires line { IsLineRoom plan.now.hints.now.line_room }
    ensures { IfSome result (λ outfit. IsOutfit plan.now domain outfit) }
{
    let spare = spare?;
    let Ok((put, taken)) = line::<Reading>(alloc, plan.hints.line_room) else {
        return None;
    };
    let Ok(windows) = window_list(alloc, plan.cover, plan.hints.cb_buffer, domain) else {
        return None;
    };
    Some(Outfit {
        lines: GetLines { line: put, spare },
        windows,
        line: taken,
    })
}

// Gives a helper its job. Where it can't be had the part comes back as it was.
fn ask<R: Wait, D: Disk, G, P: Send + Drop>(
    tools: &Tools<R, G>,
    helper: &Sender<Errand<P, GetJob<D>>>,
    number: u32,
    windows: Vec<Window>,
    ends: PartEnds<D, GetLines>,
) -> Result<Awaited<PartBack<D, GetLines>, GetDuty<D>>, D>
    requires on_part { LieOnPart (D.from ends.part) (D.len ends.part) (map told_window windows.items) }
    requires line { ends.lines.line.items ≡ [] }
    ensures windows { IfOk result (λ awaited. awaited.windows.value ≡ windows) }
    ensures ends { IfOk result (λ awaited. awaited.ends.value ≡ ends) }
    ensures kept { IfErr result (λ part. part ≡ ends.part) }
{
    let duty = GetDuty {
        windows: Snapshot::of(&windows),
        ends: Snapshot::of(&ends),
    };
    let Ok((answer, awaited)) = reply::<PartBack<D, GetLines>, GetDuty<D>>(tools.alloc, duty) else {
        return Err(ends.into_part());
    };
    let job = GetJob {
        number,
        windows,
        ends,
        answer,
    };
    match send_get(tools.rt, helper, job) {
        Ok(()) => Ok(awaited),
        Err(back) => Err(back.into_part()),
    }
}

// Sends a helper a job of gets. Where it can't be sent it comes back.
fn send_get<R: Wait, P: Send + Drop, J: Send + Drop>(
    rt: &R,
    helper: &Sender<Errand<P, J>>,
    job: J,
) -> Result<(), J>
    ensures { IfErr result (λ back. back ≡ job) }
{
    match helper.send(rt, Errand::Get(job)) {
        Ok(()) => Ok(()),
        Err(refused) => match refused.into_inner() {
            Errand::Get(back) => Err(back),
            Errand::Put(_) => unreachable!(),
        },
    }
}
