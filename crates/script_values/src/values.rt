// The values of a call, or of an attribute of a type.
ghost use Rattle.std.specs.Prelude.{◌≡◌, ◌≤◌, ◌<◌, ◌+◌, ◌^◌, ◌∷◌, [], OnOk, OnSome, IfOk, IfSome, ◌-◌, ◌==◌, length, Ok, Some};
ghost use Rattle.nc_base.specs.Values.{count_of};
ghost use Rattle.script_spec.specs.ScriptWords.{Plain};
ghost use Rattle.script_spec.specs.ScriptValues.{number_for, pattern_for, one_value, text_values, number_values, bits_values, begins_x, listed_kind, listed_values, values, each_value, within_limits};
ghost use Rattle.script_words.specs.Given.{Gives, first_for};

use crate::fits::{may_have_bits, may_have_number};
use crate::limits::{may_be_text, within_limits};
use crate::sequences::{seq_values, seqx_values};
use nc_base::{BitList, Blob, MAX_ELEMENTS, NcType, NumberList, ScriptKind, Values};
use script_words::numbers::{bits_of_text, number_of_text};
use script_words::word_forms::{bare, no_more};
use script_words::{ReadErr, Token, Words, beside};
use std::alloc::{AllocError, Global};

fn number_for(kind: Option<NcType>, word: &[u8]) -> Option<i128>
    ensures { result ≡ number_for kind word.now }
{
    match number_of_text(word) {
        Some(n) if may_have_number(kind, n) => Some(n),
        _ => None,
    }
}

fn bits_for(kind: Option<NcType>, word: &[u8]) -> Option<u64>
    ensures { result ≡ pattern_for kind word.now }
{
    match bits_of_text(word) {
        Some(n) if may_have_bits(kind, n) => Some(n),
        _ => None,
    }
}

/// The value that a word says, if it may stand here, after `n` values of its line.
fn one_value<A: Copy>(
    said: Option<A>,
    kind: Option<NcType>,
    before: u64,
    n: u64,
) -> Result<A, ReadErr>
    requires { n ≤ 2 ^ 24 }
    ensures read { Gives (λ x. x) result (one_value (λ _. said) kind before n (Plain [])) }
    ensures bound { OnOk result (before + n < 2 ^ 24) }
{
    let Some(value) = said else {
        return Err(ReadErr::Fault(ScriptKind::BadNumber));
    };
    within_limits(kind, before, n + 1)?;
    Ok(value)
}

fn text_values(
    kind: Option<NcType>,
    before: u64,
    text: Vec<u8>,
    words: &mut Words<'_>,
) -> Result<Values, ReadErr>
    ensures read { Gives (λ vs. vs) result (text_values kind before text.items words.old) }
    ensures bound { IfOk result (λ vs. before + count_of vs ≤ 2 ^ 24) }
{
    if !may_be_text(kind) {
        return Err(ReadErr::Fault(ScriptKind::BadNumber));
    }
    within_limits(kind, before, text.len() as u64)?;
    no_more(words)?;
    Ok(Values::Text(Blob::from_vec(text)))
}

/// Room for the values of the rest of a line, or for some of them.
fn room_for(words: &Words<'_>) -> usize {
    words.estimate().min(MAX_ELEMENTS as usize)
}

/// The next number, after `n` values of its line, and the words behind it, where it is read in one pass and has room in 32 bits.
/// Where it doesn't, or may not stand here, `numbers_after` says more.
#[tactic(auto, using(crate::proofs::FrontLaws::may_stand))]
fn narrow_number<'a>(
    kind: Option<NcType>,
    before: u64,
    n: u64,
    words: &Words<'a>,
) -> Option<(i32, Words<'a>)>
    requires { n ≤ 2 ^ 24 }
    ensures read { IfSome result (λ x. first_for (number_for kind) words.now ≡ Some (x.0, x.1)) }
    ensures limit { OnSome result (within_limits kind before (n + 1) ≡ Ok tt) }
    ensures bound { OnSome result (before + n < 2 ^ 24) }
{
    let (number, after) = words.short_number()?;
    let number = i32::try_from(number).ok()?;
    within_limits(kind, before, n + 1).ok()?;
    if may_have_number(kind, i128::from(number)) {
        Some((number, after))
    } else {
        None
    }
}

/// Takes the numbers in front that are read in one pass and have room in 32 bits.
#[tactic(auto, using(crate::proofs::FrontLaws::first_found, crate::proofs::FrontLaws::first_shorter))]
fn narrow_numbers(
    alloc: Global,
    kind: Option<NcType>,
    before: u64,
    words: &mut Words<'_>,
) -> Result<Vec<i32>, AllocError>
    requires { before ≤ 2 ^ 24 }
    ensures read { IfOk result (λ front. each_value (number_for kind) kind before front.items words.new ≡ each_value (number_for kind) kind before [] words.old) }
    ensures bound { IfOk result (λ front. before + length front.items ≤ 2 ^ 24) }
{
    let mut front = Vec::with_capacity(alloc, room_for(words))?;
    while let Some((number, after)) = narrow_number(kind, before, front.len() as u64, words) {
        front.push(number)?;
        *words = after;
    }
    Ok(front)
}

/// Reads numbers to the line's end, and adds them to those that were found on it.
fn numbers_after(
    kind: Option<NcType>,
    before: u64,
    found: &mut NumberList,
    words: &mut Words<'_>,
) -> Result<(), ReadErr>
    requires { before + length found.old ≤ 2 ^ 24 }
    ensures read { Gives (λ _. found.new) result (each_value (number_for kind) kind before found.old words.old) }
    ensures bound { OnOk result (before + length found.new ≤ 2 ^ 24) }
{
    while let Some(word) = words.take()? {
        let number = number_for(kind, bare(word)?);
        let number = one_value(number, kind, before, found.len() as u64)?;
        found.push(number)?;
    }
    Ok(())
}

/// Reads numbers to the line's end.
fn number_values(
    alloc: Global,
    kind: Option<NcType>,
    before: u64,
    words: &mut Words<'_>,
) -> Result<Values, ReadErr>
    requires { before ≤ 2 ^ 24 }
    ensures read { Gives (λ vs. vs) result (number_values kind before words.old) }
    ensures bound { IfOk result (λ vs. before + count_of vs ≤ 2 ^ 24) }
{
    let mut found = NumberList::from_narrow(narrow_numbers(alloc, kind, before, words)?);
    let read = numbers_after(kind, before, &mut found, words);
    let (numbers, _) = beside(found, read)?;
    Ok(Values::Numbers(numbers))
}

/// Reads patterns of bits to the line's end, and adds them to those that were found on it.
fn patterns_after(
    kind: Option<NcType>,
    before: u64,
    found: &mut BitList,
    words: &mut Words<'_>,
) -> Result<(), ReadErr>
    requires { before + length found.old ≤ 2 ^ 24 }
    ensures read { Gives (λ _. found.new) result (each_value (pattern_for kind) kind before found.old words.old) }
    ensures bound { OnOk result (before + length found.new ≤ 2 ^ 24) }
{
    while let Some(word) = words.take()? {
        let pattern = bits_for(kind, bare(word)?);
        let pattern = one_value(pattern, kind, before, found.len() as u64)?;
        found.push(pattern)?;
    }
    Ok(())
}

/// Reads patterns of bits to the line's end.
fn bits_values(
    alloc: Global,
    kind: Option<NcType>,
    before: u64,
    words: &mut Words<'_>,
) -> Result<Values, ReadErr>
    requires { before ≤ 2 ^ 24 }
    ensures read { Gives (λ vs. vs) result (bits_values kind before words.old) }
    ensures bound { IfOk result (λ vs. before + count_of vs ≤ 2 ^ 24) }
{
    let mut found = BitList::with_capacity(alloc, room_for(words))?;
    let read = patterns_after(kind, before, &mut found, words);
    let (patterns, _) = beside(found, read)?;
    Ok(Values::Bits(patterns))
}

fn begins_x(word: &[u8]) -> bool
    ensures { result ≡ begins_x word.now }
{
    match word.split_first() {
        Some((first, _)) => *first == b'x',
        None => false,
    }
}

/// Reads values that are written out, of which `word` is the first.
fn listed_values(
    alloc: Global,
    kind: Option<NcType>,
    before: u64,
    word: &[u8],
    words: &mut Words<'_>,
) -> Result<Values, ReadErr>
    requires { before ≤ 2 ^ 24 }
    ensures read { Gives (λ vs. vs) result (listed_values (listed_kind kind word.now) kind before words.old) }
    ensures bound { IfOk result (λ vs. before + count_of vs ≤ 2 ^ 24) }
{
    match kind {
        None if begins_x(word) => bits_values(alloc, kind, before, words),
        Some(NcType::Float | NcType::Double) => bits_values(alloc, kind, before, words),
        Some(NcType::Char) => Err(ReadErr::Fault(ScriptKind::BadText)),
        _ => number_values(alloc, kind, before, words),
    }
}

/// Reads values whose first word is no text; `after` are the words behind it.
fn plain_values(
    alloc: Global,
    kind: Option<NcType>,
    before: u64,
    word: &[u8],
    words: &mut Words<'_>,
    after: &mut Words<'_>,
) -> Result<Values, ReadErr>
    requires count { before ≤ 2 ^ 24 }
    requires first { words.old ≡ Plain word.now ∷ after.old }
    ensures read { Gives (λ vs. vs) result (values kind before words.old) }
    ensures bound { IfOk result (λ vs. before + count_of vs ≤ 2 ^ 24) }
{
    if word == b"seq".as_slice() {
        return seq_values(alloc, kind, before, after);
    }
    if word == b"seqx".as_slice() {
        return seqx_values(alloc, kind, before, after);
    }
    listed_values(alloc, kind, before, word, words)
}

/// Reads values to the line's end.
pub fn values(
    alloc: Global,
    kind: Option<NcType>,
    before: u64,
    words: &mut Words<'_>,
) -> Result<Values, ReadErr>
    requires { before ≤ 2 ^ 24 }
    ensures read { Gives (λ vs. vs) result (values kind before words.old) }
    ensures bound { IfOk result (λ vs. before + count_of vs ≤ 2 ^ 24) }
{
    let mut after = words.again();
    match after.take()? {
        None => Ok(Values::Numbers(NumberList::new(alloc))),
        Some(Token::Broken) => Err(ReadErr::Fault(ScriptKind::BadText)),
        Some(Token::Quoted(text)) => text_values(kind, before, text, &mut after),
        Some(Token::Plain(word)) => plain_values(alloc, kind, before, word, words, &mut after),
    }
}
