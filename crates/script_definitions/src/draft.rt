// What is known before `data`.
ghost use Rattle.std.specs.Prelude.{◌≡◌, ◌≤◌, ◌^◌, ◌+◌, IfOk, IfSome};
ghost use Rattle.script_spec.specs.ScriptDefinitions.{Known, nothing_known, ranks_line, known_after};
ghost use Rattle.script_definitions.specs.DraftWords.{known_added, known_defined, known_by, ranks_by, hint_by, line_by};
ghost use Rattle.script_words.specs.Given.{Gives};

use crate::added::Additions;
use crate::defined::Definitions;
use crate::hints::GivenHints;
use nc_base::ScriptKind;
use script_words::word_forms::{no_more, size_within};
use script_words::{ReadErr, Words};
use std::alloc::{AllocError, Global};
use std::marker::Model;

/// What the lines before `data` have said.
#[derive(Drop)]
pub struct Draft<'a> {
    ranks: Option<u32>,
    pub hints: GivenHints,
    pub defined: Definitions<'a>,
    pub added: Additions<'a>,
    values: u64,
}

impl<'a> Model for Draft<'a> {
    ghost use Rattle.std.specs.Prelude.{◌≤◌, ◌^◌, IfSome};
    ghost use Rattle.script_spec.specs.ScriptDefinitions.{Known};

    ghost Value = { Known };

    ghost view = { λ d. record { ranks = d.ranks; hints = d.hints; defined = d.defined; added = d.added; values = d.values } };

    ghost invariant = { λ d. (d.values ≤ 2 ^ 24) × IfSome d.ranks (λ n. n ≤ 64) };
}

impl<'a> Draft<'a> {
    pub fn new(alloc: Global) -> Result<Self, AllocError>
        ensures { IfOk result (λ d. d ≡ nothing_known) }
    {
        Ok(Draft {
            ranks: None,
            hints: GivenHints::new(alloc)?,
            defined: Definitions::new(alloc),
            added: Additions::new(alloc),
            values: 0,
        })
    }

    /// How many values the attributes have.
    pub fn values(&self) -> u64
        ensures value { result ≡ self.now.values }
        ensures bound { result ≤ 2 ^ 24 }
    {
        self.values
    }

    /// How many ranks there are, where a line has said it.
    pub fn ranks(&self) -> Option<u32>
        ensures value { result ≡ self.now.ranks }
        ensures bound { IfSome result (λ n. n ≤ 64) }
    {
        self.ranks
    }

    fn read_ranks(&self, words: &mut Words<'a>) -> Result<u32, ReadErr>
        ensures bound { IfOk result (λ n. n ≤ 64) }
        ensures read { Gives (λ n. n) result (ranks_line self.now.ranks words.old) }
    {
        if self.ranks.is_some() {
            return Err(ReadErr::Fault(ScriptKind::TwiceNamed));
        }
        let ranks = size_within(1, 64, 1, words)?;
        no_more(words)?;
        Ok(ranks)
    }

    #[tactic(auto, unfolding(crate::specs::DraftWords::known_added))]
    fn add(&mut self, first: &'a [u8], words: &mut Words<'a>) -> Result<(), ReadErr>
        ensures { Gives (λ _. self.new) result (known_added self.old first.now words.old) }
    {
        let count = self.added.read(self.values, first, words)?;
        self.values += count;
        Ok(())
    }

    #[tactic(auto, unfolding(crate::specs::DraftWords::known_defined))]
    fn define(&mut self, version: u8, first: &'a [u8], words: &mut Words<'a>) -> Result<(), ReadErr>
        ensures { Gives (λ _. self.new) result (known_defined version self.old first.now words.old) }
    {
        let count = self.defined.read(version, self.values, first, words)?;
        self.values += count;
        Ok(())
    }

    /// Reads a line of the definitions of a new dataset, or of the additions to an existing one, whose version is 0.
    #[tactic(auto, unfolding(crate::specs::DraftWords::known_by))]
    fn define_or_add(
        &mut self,
        version: u8,
        first: &'a [u8],
        words: &mut Words<'a>,
    ) -> Result<(), ReadErr>
        ensures { Gives (λ _. self.new) result (known_by version self.old first.now words.old) }
    {
        if version == 0 {
            return self.add(first, words);
        }
        self.define(version, first, words)
    }

    #[tactic(auto, unfolding(crate::specs::DraftWords::ranks_by))]
    fn set_ranks(&mut self, words: &mut Words<'a>) -> Result<(), ReadErr>
        ensures { Gives (λ _. self.new) result (ranks_by self.old words.old) }
    {
        let ranks = self.read_ranks(words)?;
        self.ranks = Some(ranks);
        Ok(())
    }

    #[tactic(auto, unfolding(crate::specs::DraftWords::hint_by))]
    fn set_hint(&mut self, words: &mut Words<'a>) -> Result<(), ReadErr>
        ensures { Gives (λ _. self.new) result (hint_by self.old words.old) }
    {
        let (name, value) = self.hints.read(words)?;
        self.hints.set(name, value);
        Ok(())
    }

    /// Adds what a line says, whose first word this is.
    #[tactic(auto, unfolding(crate::specs::DraftWords::line_by))]
    fn learn(&mut self, version: u8, first: &'a [u8], words: &mut Words<'a>) -> Result<(), ReadErr>
        ensures { Gives (λ _. self.new) result (line_by version self.old first.now words.old) }
    {
        if first == b"ranks".as_slice() {
            return self.set_ranks(words);
        }
        if first == b"hint".as_slice() {
            return self.set_hint(words);
        }
        self.define_or_add(version, first, words)
    }

    /// Reads a line.
    #[tactic(auto, using(crate::proofs::DraftWordLaws::same_line))]
    pub fn read(
        &mut self,
        version: u8,
        first: &'a [u8],
        words: &mut Words<'a>,
    ) -> Result<(), ReadErr>
        ensures { Gives (λ _. self.new) result (known_after version self.old first.now words.old) }
    {
        self.learn(version, first, words)
    }
}
