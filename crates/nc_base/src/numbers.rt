// A list of whole numbers.
ghost use Rattle.std.specs.Prelude.{◌≡◌, ◌↔◌, ◌++◌, ◌∷◌, ◌<◌, ◌^◌, ◌+ℤ◌, ◌*ℤ◌, pos, [], map, length, slice_get, Some, IfOk, IfSome, if◌then◌else◌, IsTrue, OnOk, OnErr};
ghost use Rattle.std.specs.List.{range_with_len};
ghost use Rattle.nc_base.specs.NumberForms.{numbers_of_run, numbers_of_runs, numbers_in, numbers_of_form};

use crate::{Memory, TryClone};
use std::alloc::Global;
use std::marker::Model;
use std::mem;

/// The numbers first, first + step, and so on.
#[derive(Clone, Copy)]
pub struct NumberRun {
    pub first: i64,
    pub step: i64,
    pub count: u32,
}

impl NumberRun {
    /// Number `k`.
    #[inline(always)]
    pub fn at(&self, k: u32) -> i128
        ensures { result ≡ self.now.first +ℤ (self.now.step *ℤ pos k) }
    {
        i128::from(self.first) + i128::from(self.step) * i128::from(k)
    }
}

/// A list of numbers as it lies in memory.
#[derive(Clone, Copy)]
pub enum NumberWords<'a> {
    Narrow(&'a [i32]),
    Wide(&'a [i64]),
    Widest(&'a [i128]),
    Runs(&'a [NumberRun]),
}

/// How a list has its numbers.
#[derive(Drop)]
enum NumberForm {
    Narrow(Vec<i32>),
    Wide(Vec<i64>),
    Widest(Vec<i128>),
    Runs(Vec<NumberRun>),
}

/// A list of whole numbers. It takes as many bytes for each as the one that needs most, and next to nothing
/// for numbers of one step.
#[derive(Drop)]
pub struct NumberList {
    form: NumberForm,
    len: usize,
    alloc: Global,
}

impl Model for NumberList {
    ghost use Rattle.std.specs.Prelude.{◌≡◌, List, ℤ, length};

    ghost Value = { List ℤ };

    ghost use Rattle.nc_base.specs.NumberForms.{numbers_of_form};

    ghost view = { λ a. numbers_of_form a.form };

    ghost invariant = { λ a. a.len ≡ length (numbers_of_form a.form) };
}

impl NumberList {
    /// The empty list.
    pub fn new(alloc: Global) -> Self
        ensures { result ≡ [] }
    {
        NumberList {
            form: NumberForm::Narrow(Vec::new(alloc)),
            len: 0,
            alloc,
        }
    }

    /// The empty list, with room for `n` numbers of 32 bits.
    pub fn with_capacity(alloc: Global, n: usize) -> Result<Self, Memory>
        ensures { IfOk result (λ list. list ≡ []) }
    {
        Ok(NumberList {
            form: NumberForm::Narrow(Vec::with_capacity(alloc, n)?),
            len: 0,
            alloc,
        })
    }

    /// The list of words of 32 bits.
    pub fn from_narrow(words: Vec<i32>) -> Self
        ensures { result ≡ words.items }
    {
        let (alloc, len) = (*words.allocator(), words.len());
        NumberList {
            form: NumberForm::Narrow(words),
            len,
            alloc,
        }
    }

    /// The list of words of 64 bits.
    pub fn from_wide(words: Vec<i64>) -> Self
        ensures { result ≡ words.items }
    {
        let (alloc, len) = (*words.allocator(), words.len());
        NumberList {
            form: NumberForm::Wide(words),
            len,
            alloc,
        }
    }

    /// The list of words of 128 bits.
    pub fn from_vec(words: Vec<i128>) -> Self
        ensures { result ≡ words.items }
    {
        let (alloc, len) = (*words.allocator(), words.len());
        NumberList {
            form: NumberForm::Widest(words),
            len,
            alloc,
        }
    }

    /// The numbers of the runs, one after another.
    pub fn from_runs(runs: Vec<NumberRun>) -> Result<Self, Memory>
        ensures { IfOk result (λ list. list ≡ numbers_of_runs runs.items) }
    {
        let alloc = *runs.allocator();
        let len = count_of_runs(&runs).ok_or(Memory)?;
        Ok(NumberList {
            form: NumberForm::Runs(runs),
            len,
            alloc,
        })
    }

    /// Adds a number at the end.
    pub fn push(&mut self, number: i128) -> Result<(), Memory>
        ensures ok { OnOk result (self.new ≡ self.old ++ number ∷ []) }
        ensures err { OnErr result (self.new ≡ self.old) }
    {
        let Some(len) = self.len.checked_add(1) else {
            return Err(Memory);
        };
        push_to(self.alloc, &mut self.form, number)?;
        self.len = len;
        Ok(())
    }

    /// Adds numbers of one step at the end.
    pub fn push_run(&mut self, run: NumberRun) -> Result<(), Memory>
        ensures { OnOk result (self.new ≡ self.old ++ numbers_of_run run) }
    {
        if self.is_empty() {
            *self = NumberList::from_runs(vec![in self.alloc; run]?)?;
            return Ok(());
        }
        if self.add_run(run)? {
            return Ok(());
        }
        for k in 0..run.count {
            self.push(run.at(k))?;
        }
        Ok(())
    }

    /// Adds those of another list at the end.
    pub fn append(&mut self, more: Self) -> Result<(), Memory>
        ensures { OnOk result (self.new ≡ self.old ++ more) }
    {
        if self.is_empty() {
            *self = more;
            return Ok(());
        }
        match more.words() {
            NumberWords::Runs(runs) => self.push_runs(runs),
            _ => self.push_each(&more),
        }
    }

    fn push_runs(&mut self, runs: &[NumberRun]) -> Result<(), Memory>
        ensures { OnOk result (self.new ≡ self.old ++ numbers_of_runs runs.now) }
    {
        for run in runs {
            self.push_run(*run)?;
        }
        Ok(())
    }

    fn push_each(&mut self, more: &Self) -> Result<(), Memory>
        ensures { OnOk result (self.new ≡ self.old ++ more.now) }
    {
        for k in 0..more.len() {
            self.push(more.at(k))?;
        }
        Ok(())
    }

    /// Adds a run to runs, and says whether the list has runs.
    #[tactic(auto, using(crate::proofs::RunLaws::length_after))]
    fn add_run(&mut self, run: NumberRun) -> Result<bool, Memory>
        ensures ok { IfOk result (λ added. self.new ≡ (if added then self.old ++ numbers_of_run run else self.old)) }
        ensures err { OnErr result (self.new ≡ self.old) }
    {
        let Some(len) = self.len.checked_add(run.count as usize) else {
            return Err(Memory);
        };
        if push_run_to(&mut self.form, run)? {
            self.len = len;
            return Ok(true);
        }
        Ok(false)
    }

    /// The list as it lies in memory.
    pub fn words(&self) -> NumberWords<'_>
        ensures { numbers_in result ≡ self.now }
    {
        match &self.form {
            NumberForm::Narrow(words) => NumberWords::Narrow(words.as_slice()),
            NumberForm::Wide(words) => NumberWords::Wide(words.as_slice()),
            NumberForm::Widest(words) => NumberWords::Widest(words.as_slice()),
            NumberForm::Runs(runs) => NumberWords::Runs(runs.as_slice()),
        }
    }

    /// Number `k`, if there is one.
    pub fn get(&self, k: usize) -> Option<i128>
        ensures { result ≡ slice_get self.now k }
    {
        if k < self.len { Some(self.at(k)) } else { None }
    }

    /// Number `k`, which there is.
    pub fn at(&self, k: usize) -> i128
        requires { k < length self.now }
        ensures { slice_get self.now k ≡ Some result }
    {
        number_at(&self.form, k)
    }

    pub fn len(&self) -> usize
        ensures { result ≡ length self.now }
    {
        self.len
    }

    pub fn is_empty(&self) -> bool
        ensures { IsTrue result ↔ (self.now ≡ []) }
    {
        self.len == 0
    }

    /// The list, of which nothing is left here. It takes no memory.
    pub fn take(&mut self) -> Self
        ensures taken { result ≡ self.old }
        ensures left { self.new ≡ [] }
    {
        let empty = NumberList::new(self.alloc);
        mem::replace(self, empty)
    }

    pub fn clone(&self, alloc: Global) -> Result<Self, Memory>
        ensures { IfOk result (λ copy. copy ≡ self.now) }
    {
        Ok(NumberList {
            form: copied(alloc, &self.form)?,
            len: self.len,
            alloc,
        })
    }
}

fn copied(alloc: Global, form: &NumberForm) -> Result<NumberForm, Memory>
    ensures { IfOk result (λ copy. numbers_of_form copy ≡ numbers_of_form form.now) }
{
    match form {
        NumberForm::Narrow(words) => Ok(NumberForm::Narrow(Vec::from_slice(alloc, words)?)),
        NumberForm::Wide(words) => Ok(NumberForm::Wide(Vec::from_slice(alloc, words)?)),
        NumberForm::Widest(words) => Ok(NumberForm::Widest(Vec::from_slice(alloc, words)?)),
        NumberForm::Runs(runs) => Ok(NumberForm::Runs(Vec::from_slice(alloc, runs)?)),
    }
}

fn push_run_to(form: &mut NumberForm, run: NumberRun) -> Result<bool, Memory>
    ensures ok { IfOk result (λ added. numbers_of_form form.new ≡ (if added then numbers_of_form form.old ++ numbers_of_run run else numbers_of_form form.old)) }
    ensures err { OnErr result (numbers_of_form form.new ≡ numbers_of_form form.old) }
{
    match form {
        NumberForm::Runs(runs) => push_whole_run(runs, run),
        _ => Ok(false),
    }
}

#[tactic(auto, using(crate::proofs::RunLaws::runs_push))]
fn push_whole_run(runs: &mut Vec<NumberRun>, run: NumberRun) -> Result<bool, Memory>
    ensures ok { IfOk result (λ added. numbers_of_runs runs.new.items ≡ (if added then numbers_of_runs runs.old.items ++ numbers_of_run run else numbers_of_runs runs.old.items)) }
    ensures err { OnErr result (runs.new.items ≡ runs.old.items) }
{
    runs.push(run)?;
    Ok(true)
}

/// How many numbers the runs have; none where memory could not have them.
fn count_of_runs(runs: &[NumberRun]) -> Option<usize>
    ensures { IfSome result (λ n. n ≡ length (numbers_of_runs runs.now)) }
{
    let mut count: usize = 0;
    for run in runs {
        count = count.checked_add(run.count as usize)?;
    }
    Some(count)
}

fn narrow(number: i128) -> Option<i32>
    ensures { IfSome result (λ word. word ≡ number) }
{
    if number < i128::from(i32::MIN) || number > i128::from(i32::MAX) {
        None
    } else {
        Some(number as i32)
    }
}

fn wide(number: i128) -> Option<i64>
    ensures { IfSome result (λ word. word ≡ number) }
{
    if number < i128::from(i64::MIN) || number > i128::from(i64::MAX) {
        None
    } else {
        Some(number as i64)
    }
}

/// Adds a number, in words as wide as it needs.
fn push_to(alloc: Global, form: &mut NumberForm, number: i128) -> Result<(), Memory>
    ensures ok { OnOk result (numbers_of_form form.new ≡ numbers_of_form form.old ++ number ∷ []) }
    ensures err { OnErr result (numbers_of_form form.new ≡ numbers_of_form form.old) }
{
    if push_fitting(form, number)? {
        return Ok(());
    }
    *form = widened(alloc, form, number)?;
    Ok(())
}

/// Adds a number where it fits the form, and says whether it did.
fn push_fitting(form: &mut NumberForm, number: i128) -> Result<bool, Memory>
    ensures ok { IfOk result (λ fits. numbers_of_form form.new ≡ (if fits then numbers_of_form form.old ++ number ∷ [] else numbers_of_form form.old)) }
    ensures err { OnErr result (numbers_of_form form.new ≡ numbers_of_form form.old) }
{
    match form {
        NumberForm::Narrow(words) => push_narrow(words, number),
        NumberForm::Wide(words) => push_wide(words, number),
        NumberForm::Widest(words) => push_widest(words, number),
        NumberForm::Runs(runs) => push_single(runs, number),
    }
}

fn push_narrow(words: &mut Vec<i32>, number: i128) -> Result<bool, Memory>
    ensures ok { IfOk result (λ fits. words.new.items ≡ (if fits then words.old.items ++ number ∷ [] else words.old.items)) }
    ensures err { OnErr result (words.new.items ≡ words.old.items) }
{
    let Some(word) = narrow(number) else {
        return Ok(false);
    };
    words.push(word)?;
    Ok(true)
}

fn push_wide(words: &mut Vec<i64>, number: i128) -> Result<bool, Memory>
    ensures ok { IfOk result (λ fits. words.new.items ≡ (if fits then words.old.items ++ number ∷ [] else words.old.items)) }
    ensures err { OnErr result (words.new.items ≡ words.old.items) }
{
    let Some(word) = wide(number) else {
        return Ok(false);
    };
    words.push(word)?;
    Ok(true)
}

fn push_widest(words: &mut Vec<i128>, number: i128) -> Result<bool, Memory>
    ensures ok { IfOk result (λ fits. words.new.items ≡ (if fits then words.old.items ++ number ∷ [] else words.old.items)) }
    ensures err { OnErr result (words.new.items ≡ words.old.items) }
{
    words.push(number)?;
    Ok(true)
}

fn push_single(runs: &mut Vec<NumberRun>, number: i128) -> Result<bool, Memory>
    ensures ok { IfOk result (λ fits. numbers_of_runs runs.new.items ≡ (if fits then numbers_of_runs runs.old.items ++ number ∷ [] else numbers_of_runs runs.old.items)) }
    ensures err { OnErr result (runs.new.items ≡ runs.old.items) }
{
    let Some(first) = wide(number) else {
        return Ok(false);
    };
    runs.push(NumberRun {
        first,
        step: 0,
        count: 1,
    })?;
    Ok(true)
}

/// The numbers and one more, in wider words.
fn widened(alloc: Global, form: &NumberForm, number: i128) -> Result<NumberForm, Memory>
    ensures { IfOk result (λ wider. numbers_of_form wider ≡ numbers_of_form form.now ++ number ∷ []) }
{
    if let (NumberForm::Narrow(words), Some(number)) = (form, wide(number)) {
        let mut all = wide_words(alloc, words)?;
        all.push(number)?;
        return Ok(NumberForm::Wide(all));
    }
    let mut all = widest_words(alloc, form)?;
    all.push(number)?;
    Ok(NumberForm::Widest(all))
}

fn wide_words(alloc: Global, words: &[i32]) -> Result<Vec<i64>, Memory>
    ensures { IfOk result (λ all. all.items ≡ words.now) }
{
    let mut all = Vec::with_capacity(alloc, words.len().saturating_add(1))?;
    for word in words {
        all.push(i64::from(*word))?;
    }
    Ok(all)
}

fn widest_words(alloc: Global, form: &NumberForm) -> Result<Vec<i128>, Memory>
    ensures { IfOk result (λ all. all.items ≡ numbers_of_form form.now) }
{
    match form {
        NumberForm::Narrow(words) => widest_of_words(alloc, form, words.len()),
        NumberForm::Wide(words) => widest_of_words(alloc, form, words.len()),
        NumberForm::Widest(words) => widest_of_words(alloc, form, words.len()),
        NumberForm::Runs(runs) => widest_of_runs(alloc, runs),
    }
}

fn widest_of_words(alloc: Global, form: &NumberForm, len: usize) -> Result<Vec<i128>, Memory>
    requires { len ≡ length (numbers_of_form form.now) }
    ensures { IfOk result (λ all. all.items ≡ numbers_of_form form.now) }
{
    let mut all = Vec::with_capacity(alloc, len.saturating_add(1))?;
    for k in 0..len {
        all.push(number_at(form, k))?;
    }
    Ok(all)
}

fn widest_of_runs(alloc: Global, runs: &[NumberRun]) -> Result<Vec<i128>, Memory>
    ensures { IfOk result (λ all. all.items ≡ numbers_of_runs runs.now) }
{
    let mut all = Vec::new(alloc);
    for run in runs {
        push_numbers(&mut all, *run)?;
    }
    Ok(all)
}

fn push_numbers(out: &mut Vec<i128>, run: NumberRun) -> Result<(), Memory>
    ensures { OnOk result (out.new.items ≡ out.old.items ++ numbers_of_run run) }
{
    for k in 0..run.count {
        out.push(run.at(k))?;
    }
    Ok(())
}

fn number_at(form: &NumberForm, k: usize) -> i128
    requires { k < length (numbers_of_form form.now) }
    ensures { slice_get (numbers_of_form form.now) k ≡ Some result }
{
    match form {
        NumberForm::Narrow(words) => i128::from(words[k]),
        NumberForm::Wide(words) => i128::from(words[k]),
        NumberForm::Widest(words) => words[k],
        NumberForm::Runs(runs) => number_of_runs(runs, k),
    }
}

fn number_of_runs(runs: &[NumberRun], k: usize) -> i128
    requires { k < length (numbers_of_runs runs.now) }
    ensures { slice_get (numbers_of_runs runs.now) k ≡ Some result }
{
    match number_in_runs(runs, k) {
        Some(number) => number,
        None => unreachable!(),
    }
}

/// Number `k` of those of the runs.
fn number_in_runs(runs: &[NumberRun], k: usize) -> Option<i128>
    ensures { result ≡ slice_get (numbers_of_runs runs.now) k }
{
    let mut left = k;
    for run in runs {
        if left < run.count as usize {
            return Some(run.at(left as u32));
        }
        left -= run.count as usize;
    }
    None
}

impl TryClone for NumberList {
    fn try_clone(&self, alloc: Global) -> Result<Self, Memory> {
        self.clone(alloc)
    }
}

impl PartialEq for NumberList {
    ghost use Rattle.std.proofs.Common.{rules};
    ghost use Rattle.std.specs.Cmp.Lexicographic.{pointwise};
    ghost use Rattle.std.specs.Cmp.Rules.{comparing};
    ghost use Rattle.std.specs.Ordering.{int_eq};

    ghost eq = { λ x y. pointwise int_eq x y };

    ghost laws = { Prim.search (comparing, rules) };

    fn eq(&self, other: &Self) -> bool {
        if self.len() != other.len() {
            return false;
        }
        for k in 0..self.len() {
            if self.at(k) != other.at(k) {
                return false;
            }
        }
        true
    }
}

impl Eq for NumberList {
    ghost use Rattle.std.proofs.Common.{rules};
    ghost use Rattle.std.specs.Cmp.Rules.{comparing};

    ghost laws = { Prim.search (comparing, rules) };
}
