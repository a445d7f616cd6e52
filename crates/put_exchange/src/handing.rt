// Handing parts to helpers.
ghost use Rattle.std.specs.Prelude.{◌≡◌, ◌≤◌, [], length, IfOk, IfErr};
ghost use Rattle.std.specs.Option.{ForSome};
ghost use Rattle.aggregator_rounds.specs.Left.{IsPast};
ghost use Rattle.exchange_crew.specs.Handed.{AreHanded, IsGiven};
ghost use Rattle.exchange_crew.specs.Plan.{HaveDomains, IsDomainOf, IsLineRoom, IsPlanned};
ghost use Rattle.exchange_crew.specs.Rooms.{HasRooms};
ghost use Rattle.put_exchange.specs.Dues.{turns_due, AreDue};
ghost use Rattle.put_exchange.specs.Workers.{domain_of, part_of, IsFresh, IsOutfit};

use crate::helper::{PutDuty, PutJob, PutLines};
use crate::laying::Due;
use crate::message::Message;
use crate::packing::{Ahead, Mail, mail_of};
use crate::sending::Feed;
use crossbeam_channel::Sender;
use exchange_crew::{
    Aggregator, Errand, PartBack, PartEnds, PutPlan, Shares, Spares, Team, Tools, add_handed,
    next_aggregator,
};
use nc_base::{Extent, Memory};
use nc_outside::Disk;
use promised_reply::{Awaited, reply};
use ruled_line::line;
use std::alloc::Global;
use std::snapshot::Snapshot;
use std::sync::Wait;

/// What the calling thread has of a helper: the domain that it serves, and its reply.
#[derive(Drop)]
pub(crate) struct PutHelper<D: Disk> {
    pub domain: Extent,
    pub awaited: Awaited<PartBack<D, PutLines>, PutDuty<D>>,
}

/// A helper, and the calling thread's end of its line of messages.
#[derive(Drop)]
pub(crate) struct Worker<D: Disk> {
    pub helper: PutHelper<D>,
    pub feed: Feed,
}

/// What a helper serves its part by, what is due in it, and what it is fed.
#[derive(Drop)]
pub(crate) struct Outfit {
    pub lines: PutLines,
    pub dues: Vec<Due>,
    pub feed: Feed,
}

/// Hands each part to the helper of its number, up to the first for which there is none. That one and those behind it are the rest.
pub(crate) fn hand_all<R: Wait, D: Disk, G, K: Send + Drop>(
    team: &Team<R, G, Sender<Errand<PutJob<D>, K>>>,
    spares: &mut Spares,
    plan: &PutPlan,
    domains: &[Extent],
    parts: Vec<D>,
    shares: &mut Shares<Worker<D>, D>,
)
    requires plan { IsPlanned plan.now }
    requires line { IsLineRoom plan.now.hints.now.line_room }
    requires few { length domains.now ≤ 64 }
    requires domains { HaveDomains D.Disk plan.now.list.now domains.now parts.items }
    requires rooms { HasRooms (length parts.items) shares.old }
    ensures handed { AreHanded (λ worker. IsFresh D.Disk plan.now worker) (λ worker. part_of worker) (λ worker. domain_of worker) domains.now parts.items shares.new }
    ensures back { shares.new.back ≡ shares.old.back }
{
    let entries = plan.list.as_slice();
    let mut ahead = Ahead { place: 0, entries };
    for part in parts {
        let next = next_aggregator(shares, domains);
        let handed = hand_one(team, spares, plan, next, part, &mut ahead);
        add_handed(shares, handed);
    }
}

// Hands a part to the helper of its aggregator. Where there is none, or what it needs can't be had, the part comes back as it was.
fn hand_one<'a, R: Wait, D: Disk, G, K: Send + Drop>(
    team: &Team<R, G, Sender<Errand<PutJob<D>, K>>>,
    spares: &mut Spares,
    plan: &PutPlan<'a>,
    aggregator: Option<Aggregator>,
    part: D,
    ahead: &mut Ahead<'a>,
) -> Result<Worker<D>, D>
    requires plan { IsPlanned plan.now }
    requires line { IsLineRoom plan.now.hints.now.line_room }
    requires domain { ForSome aggregator (λ a. IsDomainOf plan.now.list.now (D.from part) (D.len part) a.domain) }
    requires past { IsPast ahead.old.place plan.now.list.now ahead.old.entries.now }
    ensures past { IsPast ahead.new.place plan.now.list.now ahead.new.entries.now }
    ensures kept { IfErr result (λ back. back ≡ part) }
    ensures given { IfOk result (IsGiven (λ worker. IsFresh D.Disk plan.now worker) (λ worker. part_of worker) (λ worker. domain_of worker) aggregator part) }
{
    let tools = team.tools;
    let Some(aggregator) = aggregator else {
        return Err(part);
    };
    let Aggregator { number, domain } = aggregator;
    let Some(helper) = team.helpers.get(number as usize) else {
        return Err(part);
    };
    let Ok(outfit) = outfit_of(tools.alloc, spares, plan, domain, ahead) else {
        return Err(part);
    };
    let Outfit { lines, dues, feed } = outfit;
    let awaited = ask(tools, helper, number, dues, PartEnds { part, lines })?;
    Ok(Worker {
        helper: PutHelper { domain, awaited },
        feed,
    })
}

// A buffer for the windows of a domain, their messages, and a line.
fn outfit_of<'a>(
    alloc: Global,
    spares: &mut Spares,
    plan: &PutPlan<'a>,
    domain: Extent,
    ahead: &mut Ahead<'a>,
) -> Result<Outfit, Memory>
    requires plan { IsPlanned plan.now }
    requires line { IsLineRoom plan.now.hints.now.line_room }
    requires past { IsPast ahead.old.place plan.now.list.now ahead.old.entries.now }
    ensures past { IsPast ahead.new.place plan.now.list.now ahead.new.entries.now }
    ensures outfit { IfOk result (λ outfit. IsOutfit plan.now domain outfit) }
{
    let room = plan.hints.cb_buffer.min(domain.len) as usize;
    let buf = spares.take(alloc, room)?;
    let mail = mail_of(alloc, plan, domain, ahead)?;
    let (put, taken) = line::<Message>(alloc, plan.hints.line_room)?;
    let Mail { rounds, dues } = mail;
    Ok(Outfit {
        lines: PutLines { line: taken, buf },
        dues,
        feed: Feed { line: put, rounds },
    })
}

// Gives a helper its job. Where it can't be had the part comes back as it was.
fn ask<R: Wait, D: Disk, G, K: Send + Drop>(
    tools: &Tools<R, G>,
    helper: &Sender<Errand<PutJob<D>, K>>,
    number: u32,
    dues: Vec<Due>,
    ends: PartEnds<D, PutLines>,
) -> Result<Awaited<PartBack<D, PutLines>, PutDuty<D>>, D>
    requires due { AreDue (D.from ends.part) (D.len ends.part) (length ends.lines.buf.items) (turns_due dues.items) }
    requires line { ends.lines.line.items ≡ [] }
    ensures dues { IfOk result (λ awaited. awaited.dues.value ≡ dues) }
    ensures ends { IfOk result (λ awaited. awaited.ends.value ≡ ends) }
    ensures kept { IfErr result (λ part. part ≡ ends.part) }
{
    let duty = PutDuty {
        dues: Snapshot::of(&dues),
        ends: Snapshot::of(&ends),
    };
    let Ok((answer, awaited)) = reply::<PartBack<D, PutLines>, PutDuty<D>>(tools.alloc, duty) else {
        return Err(ends.into_part());
    };
    let job = PutJob {
        number,
        dues,
        ends,
        answer,
    };
    match send_put(tools.rt, helper, job) {
        Ok(()) => Ok(awaited),
        Err(back) => Err(back.into_part()),
    }
}

// Sends a helper a job of puts. Where it can't be sent it comes back.
fn send_put<R: Wait, P: Send + Drop, K: Send + Drop>(
    rt: &R,
    helper: &Sender<Errand<P, K>>,
    job: P,
) -> Result<(), P>
    ensures { IfErr result (λ back. back ≡ job) }
{
    match helper.send(rt, Errand::Put(job)) {
        Ok(()) => Ok(()),
        Err(refused) => match refused.into_inner() {
            Errand::Put(back) => Err(back),
            Errand::Get(_) => unreachable!(),
        },
    }
}
