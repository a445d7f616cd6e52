// A rank.
ghost use Rattle.std.specs.Prelude.{◌≡◌, ℕ, ◌+◌, ◌≤◌, None, true, map, length, is_some, IfOk, IfSome, OnOk};
ghost use Rattle.serial_spec.specs.SoundHeaders.{is_sound};
ghost use Rattle.serial_spec.specs.Lawful.{is_lawful_call, most_parts};
ghost use Rattle.serial_spec.specs.RankMachine as machine;
ghost use Rattle.serial_spec.specs.RankMachine.{new_rank};
ghost use Rattle.serial_spec.specs.RankSide.{wanted};
ghost use Rattle.rank_core.specs.Indexed.{IsIndexOf};
ghost use Rattle.rank_core.specs.Offered.{posts_offered, IsSoundWant};
ghost use Rattle.rank_core.specs.Ranked.{WaitsFor};
ghost use Rattle.run_laws.specs.Requests.{posts_held, IsFresh, IsShare};
ghost use Rattle.rank_core.specs.Stepped.{most_posts, IsStepTo};

use crate::Names;
use crate::heard_reply::{answer_to, values_by_id};
use crate::open_offer::OpenOffer;
use nc_base::{Answer, Call, Header, MeetKind, Memory, Reply, Want};
use request_queue::Queue;
use std::alloc::Global;
use std::marker::Model;

/// A rank between two of its calls, or one that waits for a reply.
#[derive(Drop)]
pub struct Rank<'a> {
    pub(crate) alloc: Global,
    pub(crate) header: &'a Header,
    pub(crate) names: &'a Names,
    pub(crate) independent: bool,
    /// The record count that it knows.
    pub(crate) known: u64,
    pub(crate) queue: Queue,
    /// The offer whose reply it waits for.
    pub(crate) offered: Option<OpenOffer>,
}

impl<'a> Model for Rank<'a> {
    ghost use Rattle.rank_core.specs.Ranked.{Ranked};

    ghost Value = { Ranked };

    ghost use Rattle.rank_core.specs.Kept.{ranked, IsKept};

    ghost view = { ranked };

    ghost invariant = { IsKept };
}

impl<'a> Rank<'a> {
    /// A rank before its first call, which knows the record count of the file.
    pub fn new(alloc: Global, header: &'a Header, names: &'a Names, records: u64) -> Self
        requires sound { is_sound header.now ≡ true }
        requires names { IsIndexOf header.now names.now }
        ensures { result ≡ record { header = header.now; state = new_rank records } }
    {
        Rank {
            alloc,
            header,
            names,
            independent: false,
            known: records,
            queue: Queue::new(alloc),
            offered: None,
        }
    }

    /// What the rank wants at a call: its answer, or an offer, whose reply [`Rank::hear`] takes. After want of memory only
    /// [`Rank::known`] and [`Rank::pending`] are of use.
    pub fn step(&mut self, call: &Call) -> Result<Want, Memory>
        requires idle { self.old.state.open ≡ None }
        requires fresh { IsFresh self.old.state call.now }
        requires share { IsShare call.now }
        ensures step { IfOk result (λ want. (self.new.state, want) ≡ machine.step self.old.header self.old.state call.now) }
        ensures header { self.new.header ≡ self.old.header }
        ensures waits { IfOk result (WaitsFor self.new.state) }
        ensures sound { IfOk result (IsSoundWant self.old.header) }
        ensures few { IfOk result (λ want. (ranks r : ℕ) → is_lawful_call ranks r call.now ≡ true → posts_offered want ≤ posts_held self.old.state + most_parts) }
        ensures held { OnOk result ((ranks r : ℕ) → is_lawful_call ranks r call.now ≡ true → posts_held self.new.state ≤ posts_held self.old.state + most_parts) }
    {
        self.do_call(call)
    }

    fn do_call(&mut self, call: &Call) -> Result<Want, Memory>
        requires fresh { IsFresh self.old.state call.now }
        requires share { IsShare call.now }
        ensures step { IfOk result (IsStepTo self.old self.new (most_posts call.now) (machine.step self.old.header self.old.state call.now)) }
        ensures header { self.new.header ≡ self.old.header }
    {
        match call {
            Call::Put {
                all,
                var,
                given,
                values,
            } => self.block(*all, MeetKind::Put, var.as_slice(), given, Some(values)),
            Call::Get { all, var, given } => {
                self.block(*all, MeetKind::Get, var.as_slice(), given, None)
            }
            Call::Post {
                id,
                kind,
                var,
                given,
                values,
            } => self.post(*id, *kind, var.as_slice(), given, values),
            Call::Wait { all: true, choice } => self.wait_all(choice),
            Call::Wait { all: false, choice } => self.wait_alone(choice),
            Call::Cancel { choice } => self.cancel(choice),
            Call::Attach { size } => self.attach(*size),
            Call::Detach => Ok(self.detach()),
            Call::BeginIndep => Ok(self.begin_independent()),
            Call::EndIndep => Ok(self.end_independent()),
            Call::SyncRecords => Ok(self.sync_records()),
            Call::InqDim { name } => Ok(self.inquire(name.as_slice())),
            Call::FillRec {
                var,
                number,
                share,
                of,
            } => self.fill_record(var.as_slice(), *number, *share, *of),
        }
    }

    /// The answer to the call whose offer has this reply, which has one blob for each get of the offer, each as long as the get's
    /// elements take.
    pub fn hear(&mut self, reply: Reply) -> Result<Answer, Memory>
        requires waits { is_some self.old.state.open ≡ true }
        requires fits { IfSome self.old.state.open (λ o. map (λ blob. length blob) reply.got ≡ map (wanted self.old.header) o.gets) }
        ensures hear { IfOk result (λ answer. (self.new.state, answer) ≡ machine.hear self.old.header self.old.state reply) }
        ensures idle { OnOk result (self.new.state.open ≡ None) }
        ensures header { self.new.header ≡ self.old.header }
    {
        let offer = self.offered.take().unwrap();
        let found = values_by_id(
            self.alloc,
            self.header,
            offer.gets.as_slice(),
            reply.got.as_slice(),
        )?;
        self.known = self.known.max(reply.records);
        self.independent = offer.independent;
        answer_to(self.alloc, offer, reply.pair, found)
    }

    /// The record count that the rank knows.
    pub fn known(&self) -> u64
        ensures { result ≡ self.now.state.known }
    {
        self.known
    }

    /// How many of its requests wait.
    pub fn pending(&self) -> u64
        ensures { result ≡ machine.pending self.now.state }
    {
        self.queue.pending()
    }
}
