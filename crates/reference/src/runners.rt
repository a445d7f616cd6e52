// A rank that goes through its calls.
ghost use Rattle.std.specs.Prelude.{◌≡◌, [], ℕ, length, map, None, true, is_some, IfOk, IfSome, OnOk};
ghost use Rattle.serial_spec.specs.SoundHeaders.{is_sound};
ghost use Rattle.serial_spec.specs.RankSide.{wanted};
ghost use Rattle.serial_spec.specs.SerialEnd.{first_going, hears};
ghost use Rattle.rank_core.specs.Indexed.{IsIndexOf};
ghost use Rattle.reference.specs.Running.{going_of, HasGone, MayGoOn};

use nc_base::{AnswerList, Call, Header, Memory, Offer, Reply, Want};
use rank_core::{Names, Rank};
use std::alloc::Global;

/// A rank that has gone up to its next offer, or has made its calls.
#[derive(Drop)]
pub(crate) struct Runner<'a> {
    pub(crate) rank: Rank<'a>,
    pub(crate) answers: AnswerList,
    /// The calls after those that it has begun.
    pub(crate) calls: &'a [Call],
    /// The offer whose reply it waits for.
    pub(crate) held: Option<Offer>,
}

impl<'a> Runner<'a> {
    /// A rank that has gone up to its first offer.
    pub(crate) fn new(
        alloc: Global,
        header: &'a Header,
        names: &'a Names,
        calls: &'a [Call],
    ) -> Result<Self, Memory>
        requires sound { is_sound header.now ≡ true }
        requires names { IsIndexOf header.now names.now }
        requires ready { MayGoOn (first_going header.now calls.now) }
        ensures header { IfOk result (λ runner. runner.rank.header ≡ header.now) }
        ensures gone { IfOk result (λ runner. HasGone header.now (first_going header.now calls.now) (going_of runner) runner.held) }
    {
        let mut runner = Runner {
            rank: Rank::new(alloc, header, names, header.records),
            answers: AnswerList::new(alloc),
            calls,
            held: None,
        };
        match runner.go_on() {
            Ok(()) => Ok(runner),
            Err(memory) => {
                drop(runner);
                Err(memory)
            }
        }
    }

    /// Its answers.
    pub(crate) fn into_answers(self) -> AnswerList
        ensures { result ≡ self.entry.answers }
    {
        let Runner { answers, .. } = self;
        answers
    }

    /// Answers its call by the reply to its offer, and goes on to its next offer.
    pub(crate) fn hear(&mut self, reply: Reply) -> Result<(), Memory>
        requires waits { is_some self.old.rank.state.open ≡ true }
        requires fits { IfSome self.old.rank.state.open (λ o. map (λ blob. length blob) reply.got ≡ map (wanted self.old.rank.header) o.gets) }
        requires ready { MayGoOn (hears self.old.rank.header (going_of self.old) reply) }
        ensures header { self.new.rank.header ≡ self.old.rank.header }
        ensures gone { OnOk result (HasGone self.old.rank.header (hears self.old.rank.header (going_of self.old) reply) (going_of self.new) self.new.held) }
    {
        let answer = self.rank.hear(reply)?;
        self.answers.push(answer)?;
        self.held = None;
        self.go_on()
    }

    /// Makes its calls up to its next offer, which it then holds, or to its end.
    fn go_on(&mut self) -> Result<(), Memory>
        requires free { self.old.held ≡ None }
        requires ready { MayGoOn (going_of self.old) }
        ensures header { self.new.rank.header ≡ self.old.rank.header }
        ensures gone { OnOk result (HasGone self.old.rank.header (going_of self.old) (going_of self.new) self.new.held) }
    {
        'calls: while let [call, calls @ ..] = self.calls {
            self.calls = calls;
            match self.rank.step(call)? {
                Want::Answered(answer) => self.answers.push(answer)?,
                Want::Meet(offer) | Want::Solo(offer) => {
                    self.held = Some(offer);
                    return Ok(());
                }
            }
        }
        Ok(())
    }
}
