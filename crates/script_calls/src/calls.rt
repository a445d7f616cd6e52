// The calls of a line.
ghost use Rattle.std.specs.Prelude.{◌≡◌, ◌≤◌, ◌^◌, ◌+◌, [], IfOk, None, Ok, false};
ghost use Rattle.serial_spec.specs.Lawful.{values_in_call};
ghost use Rattle.script_spec.specs.CallTable.{Requests, Size, Name, Record};
ghost use Rattle.script_spec.specs.ScriptCalls.{posted, id_of_post, choice, one_id, ids};
ghost use Rattle.script_calls.specs.CallWords.{call_among, choice_by, made_alone, made_of, other_rows, plain_by, post_or_plain_by, call_by};
ghost use Rattle.script_words.specs.Given.{Gives, word_of};
ghost use Rattle.script_calls.specs.Posts.{IsNew};

use crate::accesses::{after_prefix, form_and_all, get_call, post_call, post_of_text, put_call};
use crate::rank_calls::RankCalls;
use nc_base::{Call, Choice, IdList, Name, ScriptKind};
use script_values::regions::form_of_text;
use script_words::numbers::id_of_text;
use script_words::word_forms::{bare, name, no_more, size};
use script_words::{ReadErr, Token, Words};
use std::alloc::{AllocError, Global};

/// Where a call stands in a script: which rank makes it, of how many, and how many values came before it.
#[derive(Clone, Copy)]
pub struct CallPlace {
    pub ranks: u32,
    pub rank: u32,
    pub before: u64,
}

fn one_id(word: Token<'_>) -> Result<u32, ReadErr>
    ensures { Gives (λ x. x) result (one_id (word_of word.entry)) }
{
    let word = bare(word)?;
    match id_of_text(word) {
        Some(id) => Ok(id),
        None => Err(ReadErr::Fault(ScriptKind::BadNumber)),
    }
}

/// Reads ids to the line's end.
fn ids(alloc: Global, words: &mut Words<'_>) -> Result<IdList, ReadErr>
    ensures { Gives (λ found. found) result (ids [] words.old) }
{
    let mut found = IdList::new(alloc);
    while let Some(word) = words.take()? {
        let id = one_id(word)?;
        found.push(id)?;
    }
    Ok(found)
}

/// Takes the next word, where there is one: whether it is `all`.
fn takes_all(words: &mut Words<'_>) -> Result<bool, AllocError>
    ensures { IfOk result (λ all. choice words.old ≡ choice_by all words.old words.new) }
{
    match words.take()? {
        Some(Token::Plain(word)) => Ok(word == b"all".as_slice()),
        Some(Token::Quoted(_) | Token::Broken) | None => Ok(false),
    }
}

/// Reads which requests are chosen.
fn choice(alloc: Global, words: &mut Words<'_>) -> Result<Choice, ReadErr>
    ensures { Gives (λ c. c) result (choice words.old) }
{
    let mut after = words.again();
    if takes_all(&mut after)? {
        no_more(&mut after)?;
        return Ok(Choice::Every);
    }
    Ok(Choice::Listed(ids(alloc, words)?))
}

/// Reads which record is filled; this rank fills its share of it, one of so many.
fn fill_call(alloc: Global, ranks: u32, rank: u32, words: &mut Words<'_>) -> Result<Call, ReadErr>
    ensures read { Gives (λ c. c) result (made_of Record (λ v. Call.FillRec v.0 v.1 rank ranks) words.old) }
    ensures none { IfOk result (λ c. (values_in_call c ≡ 0) × (id_of_post c ≡ None)) }
{
    let var = name(words)?;
    let number = size(words)?;
    no_more(words)?;
    Ok(Call::FillRec {
        var: Name::from_slice(alloc, var)?,
        number,
        share: rank,
        of: ranks,
    })
}

fn attach_call(words: &mut Words<'_>) -> Result<Call, ReadErr>
    ensures read { Gives (λ c. c) result (made_of Size (λ n. Call.Attach n) words.old) }
    ensures none { IfOk result (λ c. (values_in_call c ≡ 0) × (id_of_post c ≡ None)) }
{
    let size = size(words)?;
    no_more(words)?;
    Ok(Call::Attach { size })
}

/// Reads a question for the length of a dimension.
fn inquiry(alloc: Global, words: &mut Words<'_>) -> Result<Call, ReadErr>
    ensures read { Gives (λ c. c) result (made_of Name (λ n. Call.InqDim n) words.old) }
    ensures none { IfOk result (λ c. (values_in_call c ≡ 0) × (id_of_post c ≡ None)) }
{
    let name = name(words)?;
    no_more(words)?;
    Ok(Call::InqDim {
        name: Name::from_slice(alloc, name)?,
    })
}

/// This, behind whose word none may stand. It is of any type, which hides from the check of this function how a call is let go.
fn alone<T: Drop>(call: T, words: &mut Words<'_>) -> Result<T, ReadErr>
    ensures read { Gives (λ c. c) result (made_alone call words.old) }
    ensures same { IfOk result (λ c. c ≡ call) }
{
    no_more(words)?;
    Ok(call)
}

/// Reads a call that chooses no requests.
fn other_call(
    alloc: Global,
    ranks: u32,
    rank: u32,
    word: &[u8],
    words: &mut Words<'_>,
) -> Result<Call, ReadErr>
    ensures read { Gives (λ c. c) result (call_among other_rows ranks rank word.now words.old) }
    ensures none { IfOk result (λ c. (values_in_call c ≡ 0) × (id_of_post c ≡ None)) }
{
    if word == b"buffer_attach".as_slice() {
        return attach_call(words);
    }
    if word == b"inq_dimlen".as_slice() {
        return inquiry(alloc, words);
    }
    if word == b"fill_var_rec".as_slice() {
        return fill_call(alloc, ranks, rank, words);
    }
    if word == b"buffer_detach".as_slice() {
        return alone(Call::Detach, words);
    }
    if word == b"begin_indep_data".as_slice() {
        return alone(Call::BeginIndep, words);
    }
    if word == b"end_indep_data".as_slice() {
        return alone(Call::EndIndep, words);
    }
    if word == b"sync_numrecs".as_slice() {
        return alone(Call::SyncRecords, words);
    }
    Err(ReadErr::Fault(ScriptKind::UnknownWord))
}

/// Reads a wait for requests.
fn wait_call(alloc: Global, all: bool, words: &mut Words<'_>) -> Result<Call, ReadErr>
    ensures read { Gives (λ c. c) result (made_of Requests (λ choice. Call.Wait all choice) words.old) }
    ensures none { IfOk result (λ c. (values_in_call c ≡ 0) × (id_of_post c ≡ None)) }
{
    let choice = choice(alloc, words)?;
    Ok(Call::Wait { all, choice })
}

fn cancel_call(alloc: Global, words: &mut Words<'_>) -> Result<Call, ReadErr>
    ensures read { Gives (λ c. c) result (made_of Requests (λ choice. Call.Cancel choice) words.old) }
    ensures none { IfOk result (λ c. (values_in_call c ≡ 0) × (id_of_post c ≡ None)) }
{
    let choice = choice(alloc, words)?;
    Ok(Call::Cancel { choice })
}

/// Reads a call whose word names no form.
#[tactic(auto, unfolding(crate::specs::CallWords::plain_by))]
fn plain_call(
    alloc: Global,
    ranks: u32,
    rank: u32,
    word: &[u8],
    words: &mut Words<'_>,
) -> Result<Call, ReadErr>
    ensures read { Gives (λ c. c) result (plain_by ranks rank word.now words.old) }
    ensures none { IfOk result (λ c. (values_in_call c ≡ 0) × (id_of_post c ≡ None)) }
{
    if word == b"wait".as_slice() {
        return wait_call(alloc, false, words);
    }
    if word == b"wait_all".as_slice() {
        return wait_call(alloc, true, words);
    }
    if word == b"cancel".as_slice() {
        return cancel_call(alloc, words);
    }
    other_call(alloc, ranks, rank, word, words)
}

/// Reads a call that is no put or get.
#[tactic(auto, unfolding(crate::specs::CallWords::post_or_plain_by))]
fn post_or_plain(
    alloc: Global,
    place: CallPlace,
    own: &RankCalls,
    word: &[u8],
    words: &mut Words<'_>,
) -> Result<Call, ReadErr>
    requires { place.before ≤ 2 ^ 24 }
    ensures read { Gives (λ c. c) result (post_or_plain_by place.ranks place.rank own.now place.before word.now words.old) }
    ensures bound { IfOk result (λ c. place.before + values_in_call c ≤ 2 ^ 24) }
    ensures new { IfOk result (λ c. IsNew (posted own.now) c) }
{
    let Some((kind, form)) = post_of_text(word) else {
        return plain_call(alloc, place.ranks, place.rank, word, words);
    };
    let Some(form) = form_of_text(form) else {
        return Err(ReadErr::Fault(ScriptKind::UnknownWord));
    };
    post_call(alloc, kind, own, form, place.before, words)
}

/// Reads a call of a rank by its word, where the rank has had these calls.
#[tactic(auto, unfolding(crate::specs::CallWords::call_by))]
pub fn call_of(
    alloc: Global,
    place: CallPlace,
    own: &RankCalls,
    word: &[u8],
    words: &mut Words<'_>,
) -> Result<Call, ReadErr>
    requires { place.before ≤ 2 ^ 24 }
    ensures read { Gives (λ c. c) result (call_by place.ranks place.rank own.now place.before word.now words.old) }
    ensures bound { IfOk result (λ c. place.before + values_in_call c ≤ 2 ^ 24) }
    ensures new { IfOk result (λ c. IsNew (posted own.now) c) }
{
    if let Some(form) = after_prefix(b"put_".as_slice(), word) {
        let Some((form, all)) = form_and_all(form) else {
            return Err(ReadErr::Fault(ScriptKind::UnknownWord));
        };
        return put_call(alloc, all, form, place.before, words);
    }
    if let Some(form) = after_prefix(b"get_".as_slice(), word) {
        let Some((form, all)) = form_and_all(form) else {
            return Err(ReadErr::Fault(ScriptKind::UnknownWord));
        };
        return get_call(alloc, all, form, words);
    }
    post_or_plain(alloc, place, own, word, words)
}
