// A rank that goes through its calls.
ghost use Rattle.std.specs.Prelude.{◌≡◌, ◌+◌, ◌<◌, ◌≤◌, ◌∷◌, ◌++◌, [], List, length, map, drop, filter, None, Some, true, is_some, IfNone, IfSome, OnOk, OnErr, Err};
ghost use Rattle.nc_outside.specs.Cause.{HasDiskCause};
ghost use Rattle.nc_base.specs.declared.answer.Answer.{Answer};
ghost use Rattle.nc_base.specs.declared.step.Mark.{Mark};
ghost use Rattle.nc_base.specs.declared.step.StepErr.{StepErr as Fault};
ghost use Rattle.nc_base.specs.declared.step.OfferKind.TheVariants as kind;
ghost use Rattle.serial_spec.specs.SoundHeaders.{is_sound};
ghost use Rattle.serial_spec.specs.History.{concerns, marks};
ghost use Rattle.serial_spec.specs.Lawful.{is_lawful};
ghost use Rattle.serial_spec.specs.RankMachine.{new_rank};
ghost use Rattle.serial_spec.specs.RankSide.{wanted};
ghost use Rattle.serial_spec.specs.SerialEnd.{advance};
ghost use Rattle.rank_core.specs.Indexed.{IsIndexOf};
ghost use Rattle.run_laws.specs.Ways.{IsOnWay, AsksAlone};
ghost use Rattle.turn_run.specs.Counts.{IsAsked, IsCount};
ghost use Rattle.turn_run.specs.Running.{asking, between, calls_of, going_of, HasArrived, HasHeard, IsMet, IsPlaced, IsRunner};
ghost use Rattle.turn_run.specs.RankEnds.{runner_end};
ghost use Rattle.turn_run.specs.Stages.{IsGrownBy, rank_stage};
ghost use Rattle.turn_run.specs.Setups.{at_ask, at_next, HasGoneOn, HasSaidUpTo, IsCutAt, TellsOf, point_at};

use crate::lent::{Lent, Progress, Setup};
use crate::mark::note_step;
use crate::solo::solo_reply;
use collective_round::Dataset;
use nc_base::{
    AnswerList, Call, Header, Mark, Memory, Offer, OfferKind, RankEnd, RankStop, Reply, Script,
    StepErr, Want,
};
use nc_outside::{Disk, Gate, Point, Told};
use piece_exchange::Tools;
use rank_core::{Names, Rank};
use std::alloc::Global;
use std::sync::Wait;
use std::thread::Threads;

/// An offer that a rank makes alone, and the rank's number.
#[derive(Drop)]
pub(crate) struct Ask {
    pub number: u32,
    pub offer: Offer,
}

/// A rank of a run with its answers so far. Its next call is the one after those that it has answered.
#[derive(Drop)]
pub struct Runner<'a> {
    pub rank: Rank<'a>,
    pub answers: AnswerList,
    /// The offer that waits for its reply.
    pub held: Option<Offer>,
}

impl<'a> Runner<'a> {
    /// A rank before its first call.
    pub fn new(alloc: Global, header: &'a Header, names: &'a Names, records: u64) -> Self
        requires sound { is_sound header.now ≡ true }
        requires names { IsIndexOf header.now names.now }
        ensures { result ≡ record { rank = record { header = header.now; state = new_rank records }; answers = []; held = None } }
    {
        Runner {
            rank: Rank::new(alloc, header, names, records),
            answers: AnswerList::new(alloc),
            held: None,
        }
    }

    /// Goes on until the rank meets the others, or has made its calls. Its solo offers are done at once, and leave the file's count of
    /// records as it is.
    pub(crate) fn arrive<R: Threads + Wait + Sync, D: Disk, G: Gate, T: Told>(
        &mut self,
        lent: &Lent<R, G>,
        disk: &mut D,
        told: &mut T,
        progress: &mut Progress,
        number: u32,
    ) -> Result<(), StepErr>
        requires number { number < lent.now.setup.script.now.ranks }
        requires free { self.old.held ≡ None }
        requires runner { IsRunner lent.now.setup.script.now lent.now.setup.header.now progress.old.order number self.old }
        requires known { IsCount lent.now.setup.header.now (D.len disk.old) self.old.rank.state.known }
        requires from { D.from disk.old ≡ 0 }
        ensures records { progress.new.records ≡ progress.old.records }
        ensures runner { OnOk result (IsRunner lent.now.setup.script.now lent.now.setup.header.now progress.new.order number self.new) }
        ensures arrived { OnOk result (HasArrived (calls_of lent.now.setup.script.now number) self.new) }
        ensures known { OnOk result (IsCount lent.now.setup.header.now (D.len disk.new) self.new.rank.state.known) }
        ensures gone { OnOk result (HasGoneOn lent.now.setup number
            (rank_stage progress.old.order (D.held disk.old) (D.calls disk.old) (at_next lent.now.setup number self.old))
            (rank_stage progress.new.order (D.held disk.new) (D.calls disk.new) (at_next lent.now.setup number self.new))) }
        ensures cut { (e : Fault) → result ≡ Err e → IsCutAt lent.now.setup (number, at_next lent.now.setup number self.old) e (point_at progress.old (D.held disk.old)) (point_at progress.new (D.held disk.new)) }
        ensures answered { (e : Fault) → result ≡ Err e → HasSaidUpTo lent.now.setup (number, at_next lent.now.setup number self.old) e (point_at progress.old (D.held disk.old)) progress.new.order self.new.answers }
        ensures told { TellsOf lent.now.setup (number, at_next lent.now.setup number self.old) (point_at progress.old (D.held disk.old)) progress.new.order (T.heard told.old) (T.heard told.new) }
        ensures grown { IsGrownBy number progress.old.order progress.new.order }
        ensures begun { OnErr result ((rest : List Mark) × (filter (concerns number) progress.new.order ++ rest ≡ marks lent.now.setup.script.now.calls number)) }
        ensures from { D.from disk.new ≡ 0 }
        ensures longer { D.len disk.old ≤ D.len disk.new }
        ensures cause { HasDiskCause (D.faults disk.old) (D.faults disk.new) result }
    {
        let Setup { header, script, .. } = lent.setup;
        let calls = own_calls(script, number);
        'alone: loop {
            self.go_on(&lent.tools, header, script, number, calls)?;
            match self.take_alone() {
                None => return Ok(()),
                Some(offer) => {
                    self.do_alone(lent, disk, told, progress, Ask { number, offer })?;
                }
            }
        }
    }

    /// Goes through its calls up to its next offer, which it then holds, or to its end.
    pub fn go_on<R: Wait, G: Gate>(
        &mut self,
        tools: &Tools<R, G>,
        header: &Header,
        script: &Script,
        number: u32,
        calls: &[Call],
    ) -> Result<(), Memory>
        requires lawful { is_lawful script.now ≡ true }
        requires number { number < script.now.ranks }
        requires calls { calls.now ≡ calls_of script.now number }
        requires header { self.old.rank.header ≡ header.now }
        requires free { self.old.held ≡ None }
        requires way { (order : List Mark) × IsOnWay script.now order number (between calls.now self.old) None }
        ensures header { self.new.rank.header ≡ header.now }
        ensures known { OnOk result (self.new.rank.state.known ≡ self.old.rank.state.known) }
        ensures placed { OnOk result ((order : List Mark) → IsOnWay script.now order number (between calls.now self.old) None
            → IsPlaced script.now header.now order number (going_of calls.now self.new) self.new.held) }
        ensures more { OnOk result (length self.old.answers ≤ length self.new.answers) }
        ensures asked { OnOk result (IfSome self.new.held (IsAsked header.now self.new.rank.state.known)) }
        ensures advanced { OnOk result (advance header.now (between calls.now self.old) ≡ (going_of calls.now self.new, self.new.held)) }
        ensures ended { OnOk result (self.new.held ≡ None → drop (length self.new.answers) calls.now ≡ []) }
        ensures some { OnErr result ((rest : List Answer) × (self.new.answers ++ rest ≡ (advance header.now (between calls.now self.old)).0.answers)) }
    {
        'calls: while self.answers.len() < calls.len() {
            let next = self.answers.len();
            tools
                .gate
                .pass(tools.rt, Point::RankStep(number, next as u32));
            match self.rank.step(&calls[next])? {
                Want::Answered(answer) => self.answers.push(answer)?,
                Want::Meet(offer) | Want::Solo(offer) => {
                    self.held = Some(offer);
                    return Ok(());
                }
            }
        }
        Ok(())
    }

    /// The offer that it holds, where it makes it alone.
    fn take_alone(&mut self) -> Option<Offer>
        ensures rank { self.new.rank ≡ self.old.rank }
        ensures answers { self.new.answers ≡ self.old.answers }
        ensures taken { IfSome result (λ o. (self.old.held ≡ Some o) × (o.kind ≡ kind.Solo) × (self.new.held ≡ None)) }
        ensures left { IfNone result ((self.new ≡ self.old) × IsMet self.old.held) }
    {
        match &self.held {
            Some(offer) if offer.kind == OfferKind::Solo => self.held.take(),
            _ => None,
        }
    }

    /// Does an offer of its rank alone, and lets the rank hear the reply.
    fn do_alone<R: Wait, D: Disk, G: Gate, T: Told>(
        &mut self,
        lent: &Lent<R, G>,
        disk: &mut D,
        told: &mut T,
        progress: &mut Progress,
        ask: Ask,
    ) -> Result<(), StepErr>
        requires header { self.old.rank.header ≡ lent.now.setup.header.now }
        requires free { self.old.held ≡ None }
        requires asks { AsksAlone lent.now.setup.script.now lent.now.setup.header.now progress.old.order ask.number (asking (calls_of lent.now.setup.script.now ask.number) self.old) ask.offer }
        requires asked { IsAsked lent.now.setup.header.now self.old.rank.state.known ask.offer }
        requires known { IsCount lent.now.setup.header.now (D.len disk.old) self.old.rank.state.known }
        requires from { D.from disk.old ≡ 0 }
        ensures records { progress.new.records ≡ progress.old.records }
        ensures header { self.new.rank.header ≡ lent.now.setup.header.now }
        ensures free { self.new.held ≡ None }
        ensures answers { OnOk result (length self.new.answers ≡ length self.old.answers + 1) }
        ensures way { OnOk result (IsOnWay lent.now.setup.script.now progress.new.order ask.number (between (calls_of lent.now.setup.script.now ask.number) self.new) None) }
        ensures known { OnOk result (IsCount lent.now.setup.header.now (D.len disk.new) self.new.rank.state.known) }
        ensures gone { OnOk result (HasGoneOn lent.now.setup ask.number
            (rank_stage progress.old.order (D.held disk.old) (D.calls disk.old) (at_ask lent.now.setup ask self.old))
            (rank_stage progress.new.order (D.held disk.new) (D.calls disk.new) (at_next lent.now.setup ask.number self.new))) }
        ensures cut { (e : Fault) → result ≡ Err e → IsCutAt lent.now.setup (ask.number, at_ask lent.now.setup ask self.old) e (point_at progress.old (D.held disk.old)) (point_at progress.new (D.held disk.new)) }
        ensures answered { (e : Fault) → result ≡ Err e → HasSaidUpTo lent.now.setup (ask.number, at_ask lent.now.setup ask self.old) e (point_at progress.old (D.held disk.old)) progress.new.order self.new.answers }
        ensures told { TellsOf lent.now.setup (ask.number, at_ask lent.now.setup ask self.old) (point_at progress.old (D.held disk.old)) progress.new.order (T.heard told.old) (T.heard told.new) }
        ensures grown { IsGrownBy ask.number progress.old.order progress.new.order }
        ensures begun { OnErr result ((rest : List Mark) × (filter (concerns ask.number) progress.new.order ++ rest ≡ marks lent.now.setup.script.now.calls ask.number)) }
        ensures from { D.from disk.new ≡ 0 }
        ensures longer { D.len disk.old ≤ D.len disk.new }
        ensures cause { HasDiskCause (D.faults disk.old) (D.faults disk.new) result }
    {
        let dataset = Dataset {
            header: lent.setup.header,
            measures: lent.setup.measures,
            hints: &lent.setup.script.hints,
        };
        let reply = solo_reply(lent.tools.alloc, disk, &dataset, ask.number, &ask.offer)?;
        note_step(
            lent.tools.rt,
            lent.tools.alloc,
            &mut progress.order,
            told,
            Mark::Solo(ask.number, self.answers.len() as u32),
            progress.records,
        )?;
        self.hear(reply)?;
        Ok(())
    }

    /// Hears the reply to the offer that its rank has made.
    pub fn hear(&mut self, reply: Reply) -> Result<(), Memory>
        requires waits { is_some self.old.rank.state.open ≡ true }
        requires fits { IfSome self.old.rank.state.open (λ o. map (λ blob. length blob) reply.got ≡ map (wanted self.old.rank.header) o.gets) }
        ensures header { self.new.rank.header ≡ self.old.rank.header }
        ensures held { self.new.held ≡ self.old.held }
        ensures heard { OnOk result (HasHeard self.old self.new reply) }
        ensures kept { OnErr result (self.new.answers ≡ self.old.answers) }
    {
        let answer = self.rank.hear(reply)?;
        self.answers.push(answer)?;
        Ok(())
    }

    /// The end of its rank.
    pub fn into_end(self, why: RankStop) -> RankEnd
        ensures { result ≡ runner_end why self.entry }
    {
        RankEnd {
            known: self.rank.known(),
            pending: self.rank.pending(),
            answers: self.answers,
            end: why,
        }
    }
}

/// The calls of a rank.
pub fn own_calls(script: &Script, number: u32) -> &[Call]
    requires { number < length script.now.calls }
    ensures { result.now ≡ calls_of script.now number }
{
    script.calls.as_slice()[number as usize].as_slice()
}
