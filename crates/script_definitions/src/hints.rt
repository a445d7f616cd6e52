// The hints of a script.
ghost use Rattle.std.specs.Prelude.{◌≡◌, Some, slice_set, IfOk};
ghost use Rattle.nc_base.specs.declared.errors.ScriptKind.TheVariants as kind;
ghost use Rattle.script_spec.specs.ScriptSteps.{reads_as};
ghost use Rattle.script_spec.specs.HintTable.{hint_in, hints_of, none_given};
ghost use Rattle.script_spec.specs.ScriptDefinitions.{hint_value, hint_line, one_of_two};
ghost use Rattle.script_definitions.specs.DraftWords.{hint_name_by, hint_value_by, hint_line_by};
ghost use Rattle.hint_table.specs.HintNames.{form_of, hint_place, HasUnit};
ghost use Rattle.script_words.specs.Given.{Gives};

use hint_table::{HintForm, HintName, hints_of};
use nc_base::{Hints, ScriptKind};
use script_words::word_forms::{next, no_more, size_within};
use script_words::{ReadErr, Words};
use std::alloc::{AllocError, Global};
use std::marker::Model;

#[tactic(auto, unfolding(crate::specs::DraftWords::hint_name_by))]
fn hint_name(words: &mut Words<'_>) -> Result<HintName, ReadErr>
    ensures { Gives (λ h. (hint_place h, words.new)) result (hint_name_by words.old) }
{
    let word = next(words)?;
    match HintName::of_word(word) {
        Some(name) => Ok(name),
        None => Err(ReadErr::Fault(ScriptKind::UnknownWord)),
    }
}

/// 0 for the one word, 1 for the other.
fn one_of_two(zero: &[u8], one: &[u8], word: &[u8]) -> Option<u32>
    ensures { result ≡ one_of_two zero.now one.now word.now }
{
    if word == zero {
        Some(0)
    } else if word == one {
        Some(1)
    } else {
        None
    }
}

fn either(zero: &[u8], one: &[u8], words: &mut Words<'_>) -> Result<u32, ReadErr>
    ensures { Gives (λ v. (v, words.new)) result (reads_as (one_of_two zero.now one.now) kind.UnknownWord words.old) }
{
    let word = next(words)?;
    one_of_two(zero, one, word).ok_or(ReadErr::Fault(ScriptKind::UnknownWord))
}

/// Reads the value of a hint.
#[tactic(auto, unfolding(crate::specs::DraftWords::hint_value_by))]
fn hint_value(name: HintName, words: &mut Words<'_>) -> Result<u32, ReadErr>
    ensures { Gives (λ v. (v, words.new)) result (hint_value_by (hint_place name) words.old) }
{
    value_of_form(name.form(), words)
}

fn value_of_form(form: HintForm, words: &mut Words<'_>) -> Result<u32, ReadErr>
    requires { HasUnit form }
    ensures { Gives (λ v. (v, words.new)) result (hint_value (form_of form) words.old) }
{
    match form {
        HintForm::Within { low, high, unit } => size_within(low, high, unit, words),
        HintForm::Either { zero, one } => either(zero, one, words),
    }
}

/// The values that are given, one place for each hint of the table.
#[derive(Drop)]
pub struct GivenHints {
    values: Vec<Option<u32>>,
}

impl Model for GivenHints {
    ghost use Rattle.std.specs.Prelude.{◌≡◌, List, Option, ℕ, length};

    ghost Value = { List (Option ℕ) };

    ghost view = { λ t. t.values.items };

    ghost invariant = { λ t. length t.values.items ≡ 10 };
}

impl GivenHints {
    /// No hint.
    pub fn new(alloc: Global) -> Result<Self, AllocError>
        ensures { IfOk result (λ t. t ≡ none_given) }
    {
        Ok(GivenHints {
            values: Vec::from_array(alloc, [None; 10])?,
        })
    }

    fn get(&self, name: HintName) -> Option<u32>
        ensures { result ≡ hint_in (hint_place name) self.now }
    {
        self.values[name.place()]
    }

    #[tactic(auto, unfolding(crate::specs::DraftWords::hint_line_by))]
    fn read_hint(&self, words: &mut Words<'_>) -> Result<(HintName, u32), ReadErr>
        ensures { Gives (λ h. (hint_place h.0, h.1)) result (hint_line_by self.now words.old) }
    {
        let name = hint_name(words)?;
        if self.get(name).is_some() {
            return Err(ReadErr::Fault(ScriptKind::TwiceNamed));
        }
        let value = hint_value(name, words)?;
        no_more(words)?;
        Ok((name, value))
    }

    /// Reads the rest of a hint's line.
    #[tactic(auto, using(crate::proofs::DraftWordLaws::same_hint))]
    pub fn read(&self, words: &mut Words<'_>) -> Result<(HintName, u32), ReadErr>
        ensures { Gives (λ h. (hint_place h.0, h.1)) result (hint_line self.now words.old) }
    {
        self.read_hint(words)
    }

    pub fn set(&mut self, name: HintName, value: u32)
        ensures { self.new ≡ slice_set self.old (hint_place name) (Some value) }
    {
        self.values[name.place()] = Some(value);
    }

    /// The hints of a script of so many ranks, with their defaults.
    pub fn hints(&self, ranks: u32) -> Hints
        ensures { result ≡ hints_of ranks self.now }
    {
        hints_of(ranks, self.values.as_slice())
    }
}
