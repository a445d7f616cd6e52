// The calls of all ranks.
ghost use Rattle.std.specs.Prelude.{◌≡◌, ◌≤◌, ◌<◌, ◌^◌, ◌+◌, [], IfOk, OnOk, length, map, replicate};
ghost use Rattle.std.specs.List.{All};
ghost use Rattle.serial_spec.specs.History.{kinds};
ghost use Rattle.serial_spec.specs.Lawful.{values_in_call};
ghost use Rattle.script_spec.specs.ScriptCalls.{Called, rank_of_text, called_after, calls_of, posted, with_call};
ghost use Rattle.script_calls.specs.CallWords.{line_by, called_by};
ghost use Rattle.script_calls.specs.Posts.{IsNew};
ghost use Rattle.script_words.specs.Given.{Gives};

use crate::calls::{CallPlace, call_of};
use crate::rank_calls::{RankCalls, kinds};
use nc_base::{Call, CallTable, Items, MeetKind, Memory, ScriptKind};
use script_words::numbers::{begins_rank, digits_below};
use script_words::word_forms::next;
use script_words::{ReadErr, Words};
use std::alloc::{AllocError, Global};
use std::marker::Model;

/// What has been called, rank by rank.
#[derive(Drop)]
pub struct RankTable {
    ranks: Vec<RankCalls>,
    values: u64,
}

impl Model for RankTable {
    ghost use Rattle.std.specs.Prelude.{◌≤◌, ◌^◌, length};
    ghost use Rattle.script_spec.specs.ScriptCalls.{Called};

    ghost Value = { Called };

    ghost view = { λ t. record { calls = t.ranks.items; values = t.values } };

    ghost invariant = { λ t. (length t.ranks.items ≤ 64) × (t.values ≤ 2 ^ 24) };
}

/// The rank that digits name, one of so many.
fn rank_of_text(ranks: u32, word: &[u8]) -> Result<u32, ReadErr>
    requires { ranks ≤ 64 }
    ensures read { Gives (λ r. r) result (rank_of_text ranks word.now) }
    ensures bound { IfOk result (λ r. r < ranks) }
{
    if !begins_rank(word) {
        return Err(ReadErr::Fault(ScriptKind::UnknownWord));
    }
    match digits_below(ranks, word) {
        Some(rank) => Ok(rank),
        None => Err(ReadErr::Fault(ScriptKind::BadRank)),
    }
}

fn values_in_call(call: &Call) -> u64
    ensures { result ≡ values_in_call call.now }
{
    match call {
        Call::Put { values, .. } | Call::Post { values, .. } => values.len() as u64,
        _ => 0,
    }
}

impl RankTable {
    /// No call of so many ranks, after so many values.
    pub fn new(alloc: Global, ranks: u32, values: u64) -> Result<Self, AllocError>
        requires ranks { ranks ≤ 64 }
        requires values { values ≤ 2 ^ 24 }
        ensures { IfOk result (λ t. t ≡ record { calls = replicate ranks []; values = values }) }
    {
        let mut list = Vec::new(alloc);
        for _ in 0..ranks {
            list.push(RankCalls::new(alloc))?;
        }
        Ok(RankTable {
            ranks: list,
            values,
        })
    }

    /// Reads a rank's call.
    #[tactic(auto, using(crate::proofs::CallLaws::found_own), unfolding(crate::specs::CallWords::line_by))]
    fn call(&self, alloc: Global, rank: u32, words: &mut Words<'_>) -> Result<Call, ReadErr>
        requires { rank < length self.now.calls }
        ensures read { Gives (λ c. c) result (line_by self.now rank words.old) }
        ensures bound { IfOk result (λ c. self.now.values + values_in_call c ≤ 2 ^ 24) }
        ensures new { IfOk result (λ c. IsNew (posted (calls_of rank self.now.calls)) c) }
    {
        let word = next(words)?;
        let own = &self.ranks[rank as usize];
        let place = CallPlace {
            ranks: self.ranks.len() as u32,
            rank,
            before: self.values,
        };
        call_of(alloc, place, own, word, words)
    }

    #[tactic(auto, using(crate::proofs::CallLaws::found_own))]
    fn push(&mut self, rank: u32, call: Call) -> Result<(), AllocError>
        requires rank { rank < length self.old.calls }
        requires new { IsNew (posted (calls_of rank self.old.calls)) call }
        requires bound { self.old.values + values_in_call call ≤ 2 ^ 24 }
        ensures { OnOk result (self.new ≡ with_call rank call self.old) }
    {
        let count = values_in_call(&call);
        self.ranks[rank as usize].push(call)?;
        self.values += count;
        Ok(())
    }

    /// Adds the call of a line, whose first word this is.
    #[tactic(auto, unfolding(crate::specs::CallWords::called_by))]
    fn add(&mut self, alloc: Global, first: &[u8], words: &mut Words<'_>) -> Result<(), ReadErr>
        ensures { Gives (λ _. self.new) result (called_by self.old first.now words.old) }
    {
        let rank = rank_of_text(self.ranks.len() as u32, first)?;
        let call = self.call(alloc, rank, words)?;
        self.push(rank, call)?;
        Ok(())
    }

    /// Reads a line of calls, whose first word this is.
    #[tactic(auto, using(crate::proofs::CallWordLaws::same_called))]
    pub fn read(
        &mut self,
        alloc: Global,
        first: &[u8],
        words: &mut Words<'_>,
    ) -> Result<(), ReadErr>
        ensures { Gives (λ _. self.new) result (called_after self.old first.now words.old) }
    {
        self.add(alloc, first, words)
    }

    /// The kinds of the collective calls of each rank.
    pub fn kinds(&self, alloc: Global) -> Result<Items<Items<MeetKind>>, Memory>
        ensures value { IfOk result (λ table. table ≡ map (λ own. kinds own) self.now.calls) }
        ensures count { IfOk result (λ table. length table ≤ 64) }
        ensures short { IfOk result (λ table. All (λ own. length own < 2 ^ 32) table) }
    {
        let mut table = Items::new(alloc);
        for own in self.ranks.as_slice() {
            table.push(kinds(alloc, own.as_slice())?)?;
        }
        Ok(table)
    }

    /// The calls of each rank.
    pub fn into_calls(self, alloc: Global) -> Result<CallTable, Memory>
        ensures { IfOk result (λ table. table ≡ self.calls) }
    {
        let RankTable { ranks, .. } = self;
        let mut table = CallTable::new(alloc);
        for own in ranks {
            table.push(own.into_list())?;
        }
        Ok(table)
    }
}
