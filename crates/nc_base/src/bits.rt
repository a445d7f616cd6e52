// A list of bit patterns.
ghost use Rattle.std.specs.Prelude.{◌≡◌, ◌↔◌, ◌++◌, ◌∷◌, ◌<◌, ◌^◌, ◌+◌, ◌*◌, ◌%◌, [], map, length, slice_get, Some, IfOk, IfSome, if◌then◌else◌, IsTrue, OnOk, OnErr};
ghost use Rattle.std.specs.List.{range_with_len};
ghost use Rattle.nc_base.specs.BitForms.{bits_of_run, bits_of_runs, bits_in, bits_of_form};

use crate::{Memory, TryClone};
use std::alloc::Global;
use std::marker::Model;

/// The patterns first, first + step, and so on.
#[derive(Clone, Copy)]
pub struct BitRun {
    pub first: u64,
    pub step: u64,
    pub count: u32,
}

impl BitRun {
    /// Bit pattern `k`.
    #[inline(always)]
    pub fn at(&self, k: u32) -> u64
        ensures { result ≡ (self.now.first + self.now.step * k) % 2 ^ 64 }
    {
        self.first
            .wrapping_add(self.step.wrapping_mul(u64::from(k)))
    }
}

/// A list of patterns as it lies in memory.
#[derive(Clone, Copy)]
pub enum BitWords<'a> {
    Narrow(&'a [u32]),
    Wide(&'a [u64]),
    Runs(&'a [BitRun]),
}

/// How a list has its patterns.
#[derive(Drop)]
enum BitForm {
    Narrow(Vec<u32>),
    Wide(Vec<u64>),
    Runs(Vec<BitRun>),
}

/// A list of bit patterns. It takes as many bytes for each as the one that needs most, and next to nothing
/// for patterns of one step.
#[derive(Drop)]
pub struct BitList {
    form: BitForm,
    len: usize,
    alloc: Global,
}

impl Model for BitList {
    ghost use Rattle.std.specs.Prelude.{◌≡◌, List, ℕ, length};

    ghost Value = { List ℕ };

    ghost use Rattle.nc_base.specs.BitForms.{bits_of_form};

    ghost view = { λ a. bits_of_form a.form };

    ghost invariant = { λ a. a.len ≡ length (bits_of_form a.form) };
}

impl BitList {
    /// The empty list.
    pub fn new(alloc: Global) -> Self
        ensures { result ≡ [] }
    {
        BitList {
            form: BitForm::Narrow(Vec::new(alloc)),
            len: 0,
            alloc,
        }
    }

    /// The empty list, with room for `n` patterns of 32 bits.
    pub fn with_capacity(alloc: Global, n: usize) -> Result<Self, Memory>
        ensures { IfOk result (λ list. list ≡ []) }
    {
        Ok(BitList {
            form: BitForm::Narrow(Vec::with_capacity(alloc, n)?),
            len: 0,
            alloc,
        })
    }

    /// The list of words of 32 bits.
    pub fn from_narrow(words: Vec<u32>) -> Self
        ensures { result ≡ words.items }
    {
        let (alloc, len) = (*words.allocator(), words.len());
        BitList {
            form: BitForm::Narrow(words),
            len,
            alloc,
        }
    }

    /// The list of words of 64 bits.
    pub fn from_vec(words: Vec<u64>) -> Self
        ensures { result ≡ words.items }
    {
        let (alloc, len) = (*words.allocator(), words.len());
        BitList {
            form: BitForm::Wide(words),
            len,
            alloc,
        }
    }

    /// The patterns of the runs, one after another.
    pub fn from_runs(runs: Vec<BitRun>) -> Result<Self, Memory>
        ensures { IfOk result (λ list. list ≡ bits_of_runs runs.items) }
    {
        let alloc = *runs.allocator();
        let len = count_of_runs(&runs).ok_or(Memory)?;
        Ok(BitList {
            form: BitForm::Runs(runs),
            len,
            alloc,
        })
    }

    /// Adds a pattern at the end.
    pub fn push(&mut self, pattern: u64) -> Result<(), Memory>
        ensures ok { OnOk result (self.new ≡ self.old ++ pattern ∷ []) }
        ensures err { OnErr result (self.new ≡ self.old) }
    {
        let Some(len) = self.len.checked_add(1) else {
            return Err(Memory);
        };
        push_to(self.alloc, &mut self.form, pattern)?;
        self.len = len;
        Ok(())
    }

    /// Adds patterns of one step at the end.
    pub fn push_run(&mut self, run: BitRun) -> Result<(), Memory>
        ensures { OnOk result (self.new ≡ self.old ++ bits_of_run run) }
    {
        if self.is_empty() {
            *self = BitList::from_runs(vec![in self.alloc; run]?)?;
            return Ok(());
        }
        if self.add_run(run)? {
            return Ok(());
        }
        for k in 0..run.count {
            self.push(run.at(k))?;
        }
        Ok(())
    }

    /// Adds those of another list at the end.
    pub fn append(&mut self, more: Self) -> Result<(), Memory>
        ensures { OnOk result (self.new ≡ self.old ++ more) }
    {
        if self.is_empty() {
            *self = more;
            return Ok(());
        }
        match more.words() {
            BitWords::Runs(runs) => self.push_runs(runs),
            _ => self.push_each(&more),
        }
    }

    fn push_runs(&mut self, runs: &[BitRun]) -> Result<(), Memory>
        ensures { OnOk result (self.new ≡ self.old ++ bits_of_runs runs.now) }
    {
        for run in runs {
            self.push_run(*run)?;
        }
        Ok(())
    }

    fn push_each(&mut self, more: &Self) -> Result<(), Memory>
        ensures { OnOk result (self.new ≡ self.old ++ more.now) }
    {
        for k in 0..more.len() {
            self.push(more.at(k))?;
        }
        Ok(())
    }

    /// Adds a run to runs, and says whether the list has runs.
    #[tactic(auto, using(crate::proofs::BitLaws::length_after))]
    fn add_run(&mut self, run: BitRun) -> Result<bool, Memory>
        ensures ok { IfOk result (λ added. self.new ≡ (if added then self.old ++ bits_of_run run else self.old)) }
        ensures err { OnErr result (self.new ≡ self.old) }
    {
        let Some(len) = self.len.checked_add(run.count as usize) else {
            return Err(Memory);
        };
        if push_run_to(&mut self.form, run)? {
            self.len = len;
            return Ok(true);
        }
        Ok(false)
    }

    /// The list as it lies in memory.
    pub fn words(&self) -> BitWords<'_>
        ensures { bits_in result ≡ self.now }
    {
        match &self.form {
            BitForm::Narrow(words) => BitWords::Narrow(words.as_slice()),
            BitForm::Wide(words) => BitWords::Wide(words.as_slice()),
            BitForm::Runs(runs) => BitWords::Runs(runs.as_slice()),
        }
    }

    /// Bit pattern `k`, if there is one.
    pub fn get(&self, k: usize) -> Option<u64>
        ensures { result ≡ slice_get self.now k }
    {
        if k < self.len { Some(self.at(k)) } else { None }
    }

    /// Bit pattern `k`, which there is.
    pub fn at(&self, k: usize) -> u64
        requires { k < length self.now }
        ensures { slice_get self.now k ≡ Some result }
    {
        match &self.form {
            BitForm::Narrow(words) => u64::from(words[k]),
            BitForm::Wide(words) => words[k],
            BitForm::Runs(runs) => pattern_of_runs(runs, k),
        }
    }

    pub fn len(&self) -> usize
        ensures { result ≡ length self.now }
    {
        self.len
    }

    pub fn is_empty(&self) -> bool
        ensures { IsTrue result ↔ (self.now ≡ []) }
    {
        self.len == 0
    }

    pub fn clone(&self, alloc: Global) -> Result<Self, Memory>
        ensures { IfOk result (λ copy. copy ≡ self.now) }
    {
        Ok(BitList {
            form: copied(alloc, &self.form)?,
            len: self.len,
            alloc,
        })
    }
}

fn copied(alloc: Global, form: &BitForm) -> Result<BitForm, Memory>
    ensures { IfOk result (λ copy. bits_of_form copy ≡ bits_of_form form.now) }
{
    match form {
        BitForm::Narrow(words) => Ok(BitForm::Narrow(Vec::from_slice(alloc, words)?)),
        BitForm::Wide(words) => Ok(BitForm::Wide(Vec::from_slice(alloc, words)?)),
        BitForm::Runs(runs) => Ok(BitForm::Runs(Vec::from_slice(alloc, runs)?)),
    }
}

fn push_run_to(form: &mut BitForm, run: BitRun) -> Result<bool, Memory>
    ensures ok { IfOk result (λ added. bits_of_form form.new ≡ (if added then bits_of_form form.old ++ bits_of_run run else bits_of_form form.old)) }
    ensures err { OnErr result (bits_of_form form.new ≡ bits_of_form form.old) }
{
    match form {
        BitForm::Runs(runs) => push_whole_run(runs, run),
        _ => Ok(false),
    }
}

#[tactic(auto, using(crate::proofs::BitLaws::runs_push))]
fn push_whole_run(runs: &mut Vec<BitRun>, run: BitRun) -> Result<bool, Memory>
    ensures ok { IfOk result (λ added. bits_of_runs runs.new.items ≡ (if added then bits_of_runs runs.old.items ++ bits_of_run run else bits_of_runs runs.old.items)) }
    ensures err { OnErr result (runs.new.items ≡ runs.old.items) }
{
    runs.push(run)?;
    Ok(true)
}

/// How many patterns the runs have; none where memory could not have them.
fn count_of_runs(runs: &[BitRun]) -> Option<usize>
    ensures { IfSome result (λ n. n ≡ length (bits_of_runs runs.now)) }
{
    let mut count: usize = 0;
    for run in runs {
        count = count.checked_add(run.count as usize)?;
    }
    Some(count)
}

fn narrow(pattern: u64) -> Option<u32>
    ensures { IfSome result (λ word. word ≡ pattern) }
{
    if pattern > u64::from(u32::MAX) {
        None
    } else {
        Some(pattern as u32)
    }
}

/// Adds a pattern, in words as wide as it needs.
fn push_to(alloc: Global, form: &mut BitForm, pattern: u64) -> Result<(), Memory>
    ensures ok { OnOk result (bits_of_form form.new ≡ bits_of_form form.old ++ pattern ∷ []) }
    ensures err { OnErr result (bits_of_form form.new ≡ bits_of_form form.old) }
{
    if push_fitting(form, pattern)? {
        return Ok(());
    }
    *form = widened(alloc, form, pattern)?;
    Ok(())
}

/// Adds a pattern where it fits the form, and says whether it did.
fn push_fitting(form: &mut BitForm, pattern: u64) -> Result<bool, Memory>
    ensures ok { IfOk result (λ fits. bits_of_form form.new ≡ (if fits then bits_of_form form.old ++ pattern ∷ [] else bits_of_form form.old)) }
    ensures err { OnErr result (bits_of_form form.new ≡ bits_of_form form.old) }
{
    match form {
        BitForm::Narrow(words) => push_narrow(words, pattern),
        BitForm::Wide(words) => push_wide(words, pattern),
        BitForm::Runs(runs) => push_single(runs, pattern),
    }
}

fn push_narrow(words: &mut Vec<u32>, pattern: u64) -> Result<bool, Memory>
    ensures ok { IfOk result (λ fits. words.new.items ≡ (if fits then words.old.items ++ pattern ∷ [] else words.old.items)) }
    ensures err { OnErr result (words.new.items ≡ words.old.items) }
{
    let Some(word) = narrow(pattern) else {
        return Ok(false);
    };
    words.push(word)?;
    Ok(true)
}

fn push_wide(words: &mut Vec<u64>, pattern: u64) -> Result<bool, Memory>
    ensures ok { IfOk result (λ fits. words.new.items ≡ (if fits then words.old.items ++ pattern ∷ [] else words.old.items)) }
    ensures err { OnErr result (words.new.items ≡ words.old.items) }
{
    words.push(pattern)?;
    Ok(true)
}

#[tactic(auto, using(crate::proofs::BitLaws::single))]
fn push_single(runs: &mut Vec<BitRun>, first: u64) -> Result<bool, Memory>
    ensures ok { IfOk result (λ fits. bits_of_runs runs.new.items ≡ (if fits then bits_of_runs runs.old.items ++ first ∷ [] else bits_of_runs runs.old.items)) }
    ensures err { OnErr result (runs.new.items ≡ runs.old.items) }
{
    runs.push(BitRun {
        first,
        step: 0,
        count: 1,
    })?;
    Ok(true)
}

/// The patterns and one more, in wider words.
fn widened(alloc: Global, form: &BitForm, pattern: u64) -> Result<BitForm, Memory>
    ensures { IfOk result (λ wider. bits_of_form wider ≡ bits_of_form form.now ++ pattern ∷ []) }
{
    let mut all = wide_words(alloc, form)?;
    all.push(pattern)?;
    Ok(BitForm::Wide(all))
}

fn wide_words(alloc: Global, form: &BitForm) -> Result<Vec<u64>, Memory>
    ensures { IfOk result (λ all. all.items ≡ bits_of_form form.now) }
{
    match form {
        BitForm::Narrow(words) => wide_of_narrow(alloc, words),
        BitForm::Wide(words) => Ok(Vec::from_slice(alloc, words)?),
        BitForm::Runs(runs) => wide_of_runs(alloc, runs),
    }
}

fn wide_of_narrow(alloc: Global, words: &[u32]) -> Result<Vec<u64>, Memory>
    ensures { IfOk result (λ all. all.items ≡ words.now) }
{
    let mut all = Vec::with_capacity(alloc, words.len().saturating_add(1))?;
    for word in words {
        all.push(u64::from(*word))?;
    }
    Ok(all)
}

fn wide_of_runs(alloc: Global, runs: &[BitRun]) -> Result<Vec<u64>, Memory>
    ensures { IfOk result (λ all. all.items ≡ bits_of_runs runs.now) }
{
    let mut all = Vec::new(alloc);
    for run in runs {
        push_patterns(&mut all, *run)?;
    }
    Ok(all)
}

fn push_patterns(out: &mut Vec<u64>, run: BitRun) -> Result<(), Memory>
    ensures { OnOk result (out.new.items ≡ out.old.items ++ bits_of_run run) }
{
    for k in 0..run.count {
        out.push(run.at(k))?;
    }
    Ok(())
}

fn pattern_of_runs(runs: &[BitRun], k: usize) -> u64
    requires { k < length (bits_of_runs runs.now) }
    ensures { slice_get (bits_of_runs runs.now) k ≡ Some result }
{
    match pattern_in_runs(runs, k) {
        Some(pattern) => pattern,
        None => unreachable!(),
    }
}

/// Bit pattern `k` of those of the runs.
fn pattern_in_runs(runs: &[BitRun], k: usize) -> Option<u64>
    ensures { result ≡ slice_get (bits_of_runs runs.now) k }
{
    let mut left = k;
    for run in runs {
        if left < run.count as usize {
            return Some(run.at(left as u32));
        }
        left -= run.count as usize;
    }
    None
}

impl TryClone for BitList {
    fn try_clone(&self, alloc: Global) -> Result<Self, Memory> {
        self.clone(alloc)
    }
}

impl PartialEq for BitList {
    ghost use Rattle.std.proofs.Common.{rules};
    ghost use Rattle.std.specs.Cmp.Lexicographic.{pointwise};
    ghost use Rattle.std.specs.Cmp.Rules.{comparing};
    ghost use Rattle.std.specs.Prelude.{nat_eq};

    ghost eq = { λ x y. pointwise nat_eq x y };

    ghost laws = { Prim.search (comparing, rules) };

    fn eq(&self, other: &Self) -> bool {
        if self.len() != other.len() {
            return false;
        }
        for k in 0..self.len() {
            if self.at(k) != other.at(k) {
                return false;
            }
        }
        true
    }
}

impl Eq for BitList {
    ghost use Rattle.std.proofs.Common.{rules};
    ghost use Rattle.std.specs.Cmp.Rules.{comparing};

    ghost laws = { Prim.search (comparing, rules) };
}
