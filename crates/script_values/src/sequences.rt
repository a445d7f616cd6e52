// Values that are told as a sequence: how many there are, the first one and the step.
ghost use Rattle.std.specs.Prelude.{◌≡◌, ◌≤◌, ◌<◌, ◌+◌, ◌^◌, IfOk, IfSome, length, ℤ, pos, ◌+ℤ◌, ◌*ℤ◌, unsigned_abs, ◌*◌, ◌-◌, ◌==◌, Ok};
ghost use Rattle.nc_base.specs.Values.{count_of};
ghost use Rattle.script_spec.specs.ScriptValues.{sequence_count, sequence, last_number, is_term, term, numbers_between, pattern_sequence, last_pattern, is_pattern_term, pattern_term, patterns_between, seq_values, seqx_values, pattern_values};
ghost use Rattle.script_words.specs.Given.{Gives};

use crate::fits::{may_have_bits, may_have_number};
use crate::limits::{may_be_bits, may_be_numbers, within_limits, wrong_kind};
use nc_base::{BitList, BitRun, NcType, NumberList, NumberRun, ScriptKind, Values};
use script_words::word_forms::{bits, no_more, number, size};
use script_words::{ReadErr, Words};
use std::alloc::Global;

/// Reads how many values a sequence has, which suit or not.
fn sequence_count(
    suits: bool,
    kind: Option<NcType>,
    before: u64,
    words: &mut Words<'_>,
) -> Result<u64, ReadErr>
    ensures read { Gives (λ n. (n, words.new)) result (sequence_count suits kind before words.old) }
    ensures bound { IfOk result (λ n. before + n ≤ 2 ^ 24) }
{
    let n = size(words)?;
    if n > 0 && !suits {
        return Err(ReadErr::Fault(wrong_kind(kind)));
    }
    within_limits(kind, before, n)?;
    Ok(n)
}

/// Whether a number may be one of `n` numbers of a sequence.
fn is_term(kind: Option<NcType>, n: u64, number: i128) -> bool
    ensures { result ≡ is_term kind n number }
{
    n == 0 || (number.unsigned_abs() < 100_000_000_000_000_000_000 && may_have_number(kind, number))
}

/// Reads the first number of a sequence.
fn term(kind: Option<NcType>, n: u64, words: &mut Words<'_>) -> Result<i128, ReadErr>
    ensures read { Gives (λ z. (z, words.new)) result (term kind n words.old) }
    ensures bound { IfOk result (λ z. unsigned_abs z < 10 ^ 20) }
{
    let first = number(words)?;
    if !is_term(kind, n, first) {
        return Err(ReadErr::Fault(ScriptKind::BadNumber));
    }
    Ok(first)
}

/// `first + step * k`.
fn number_at(first: i128, step: i128, k: u64) -> i128
    requires first { unsigned_abs first < 10 ^ 20 }
    requires step { unsigned_abs step < 10 ^ 20 }
    requires place { k ≤ 2 ^ 24 }
    ensures { result ≡ first +ℤ (step *ℤ pos k) }
{
    first + step * k as i128
}

/// The number in 64 bits, where it has room in them.
fn narrowed(number: i128) -> Option<i64>
    ensures { IfSome result (λ word. word ≡ number) }
{
    if number < i128::from(i64::MIN) || number > i128::from(i64::MAX) {
        None
    } else {
        Some(number as i64)
    }
}

/// The numbers of a sequence. They take memory only where the first or the step has no room in 64 bits.
fn sequence(alloc: Global, first: i128, step: i128, n: u64) -> Result<NumberList, ReadErr>
    requires first { unsigned_abs first < 10 ^ 20 }
    requires step { unsigned_abs step < 10 ^ 20 }
    requires count { n ≤ 2 ^ 24 }
    ensures read { Gives (λ zs. zs) result (Ok (sequence first step n)) }
    ensures count { IfOk result (λ zs. length zs ≡ n) }
{
    match (narrowed(first), narrowed(step)) {
        (Some(first), Some(step)) => run_of_numbers(alloc, first, step, n),
        _ => each_number(alloc, first, step, n),
    }
}

fn run_of_numbers(alloc: Global, first: i64, step: i64, n: u64) -> Result<NumberList, ReadErr>
    requires { n ≤ 2 ^ 24 }
    ensures read { Gives (λ zs. zs) result (Ok (sequence first step n)) }
    ensures count { IfOk result (λ zs. length zs ≡ n) }
{
    let count = n as u32;
    let mut found = NumberList::new(alloc);
    found.push_run(NumberRun { first, step, count })?;
    Ok(found)
}

fn each_number(alloc: Global, first: i128, step: i128, n: u64) -> Result<NumberList, ReadErr>
    requires first { unsigned_abs first < 10 ^ 20 }
    requires step { unsigned_abs step < 10 ^ 20 }
    requires count { n ≤ 2 ^ 24 }
    ensures read { Gives (λ zs. zs) result (Ok (sequence first step n)) }
    ensures count { IfOk result (λ zs. length zs ≡ n) }
{
    let mut found = Vec::with_capacity(alloc, n as usize)?;
    for k in 0..n {
        found.push(number_at(first, step, k))?;
    }
    Ok(NumberList::from_vec(found))
}

/// Whether the last number of a sequence may be one of it.
fn is_last_term(kind: Option<NcType>, n: u64, first: i128, step: i128) -> bool
    requires first { unsigned_abs first < 10 ^ 20 }
    requires step { unsigned_abs step < 10 ^ 20 }
    requires count { n ≤ 2 ^ 24 }
    ensures { result ≡ is_term kind n (last_number first step n) }
{
    is_term(kind, n, number_at(first, step, n.saturating_sub(1)))
}

/// Reads the first number and the step of a sequence of `n` numbers.
fn numbers_between(
    alloc: Global,
    kind: Option<NcType>,
    n: u64,
    words: &mut Words<'_>,
) -> Result<NumberList, ReadErr>
    requires { n ≤ 2 ^ 24 }
    ensures read { Gives (λ zs. zs) result (numbers_between kind n words.old) }
    ensures count { IfOk result (λ zs. length zs ≡ n) }
{
    let first = term(kind, n, words)?;
    let step = number(words)?;
    if !is_last_term(kind, n, first, step) {
        return Err(ReadErr::Fault(ScriptKind::BadNumber));
    }
    no_more(words)?;
    sequence(alloc, first, step, n)
}

/// Whether bits may be one of `n` patterns of a sequence.
fn is_pattern_term(kind: Option<NcType>, n: u64, pattern: u128) -> bool
    ensures { result ≡ is_pattern_term kind n pattern }
{
    n == 0 || (pattern < 1 << 64 && may_have_bits(kind, pattern as u64))
}

/// Reads the first pattern of a sequence.
fn pattern_term(kind: Option<NcType>, n: u64, words: &mut Words<'_>) -> Result<u64, ReadErr>
    ensures { Gives (λ z. (z, words.new)) result (pattern_term kind n words.old) }
{
    let first = bits(words)?;
    if !is_pattern_term(kind, n, u128::from(first)) {
        return Err(ReadErr::Fault(ScriptKind::BadNumber));
    }
    Ok(first)
}

/// `first + step * k`.
fn pattern_at(first: u64, step: u64, k: u64) -> u128
    ensures { result ≡ first + step * k }
{
    u128::from(first) + u128::from(step) * u128::from(k)
}

/// The patterns of a sequence whose last is one of 64 bits.
fn pattern_sequence(alloc: Global, first: u64, step: u64, n: u64) -> Result<BitList, ReadErr>
    requires count { n ≤ 2 ^ 24 }
    requires last { last_pattern first step n < 2 ^ 64 }
    ensures read { Gives (λ ns. ns) result (Ok (pattern_sequence first step n)) }
    ensures count { IfOk result (λ ns. length ns ≡ n) }
{
    let count = n as u32;
    let mut found = BitList::new(alloc);
    found.push_run(BitRun { first, step, count })?;
    Ok(found)
}

/// Reads the first pattern and the step of a sequence of `n` patterns.
fn patterns_between(
    alloc: Global,
    kind: Option<NcType>,
    n: u64,
    words: &mut Words<'_>,
) -> Result<BitList, ReadErr>
    requires { n ≤ 2 ^ 24 }
    ensures read { Gives (λ ns. ns) result (patterns_between kind n words.old) }
    ensures count { IfOk result (λ ns. length ns ≡ n) }
{
    let first = pattern_term(kind, n, words)?;
    let step = bits(words)?;
    if !is_pattern_term(kind, n, pattern_at(first, step, n.saturating_sub(1))) {
        return Err(ReadErr::Fault(ScriptKind::BadNumber));
    }
    no_more(words)?;
    pattern_sequence(alloc, first, step, n)
}

pub fn seq_values(
    alloc: Global,
    kind: Option<NcType>,
    before: u64,
    words: &mut Words<'_>,
) -> Result<Values, ReadErr>
    requires { before ≤ 2 ^ 24 }
    ensures read { Gives (λ vs. vs) result (seq_values kind before words.old) }
    ensures bound { IfOk result (λ vs. before + count_of vs ≤ 2 ^ 24) }
{
    let n = sequence_count(may_be_numbers(kind), kind, before, words)?;
    let numbers = numbers_between(alloc, kind, n, words)?;
    Ok(Values::Numbers(numbers))
}

/// Patterns as values; none are no numbers.
fn pattern_values(alloc: Global, patterns: BitList) -> Values
    ensures value { result ≡ pattern_values patterns }
    ensures count { count_of result ≡ length patterns }
{
    if patterns.is_empty() {
        Values::Numbers(NumberList::new(alloc))
    } else {
        Values::Bits(patterns)
    }
}

pub fn seqx_values(
    alloc: Global,
    kind: Option<NcType>,
    before: u64,
    words: &mut Words<'_>,
) -> Result<Values, ReadErr>
    requires { before ≤ 2 ^ 24 }
    ensures read { Gives (λ vs. vs) result (seqx_values kind before words.old) }
    ensures bound { IfOk result (λ vs. before + count_of vs ≤ 2 ^ 24) }
{
    let n = sequence_count(may_be_bits(kind), kind, before, words)?;
    let patterns = patterns_between(alloc, kind, n, words)?;
    Ok(pattern_values(alloc, patterns))
}
