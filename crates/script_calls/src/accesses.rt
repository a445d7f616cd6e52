// The calls that name a region of a variable: puts, gets and posts.
ghost use Rattle.std.specs.Prelude.{◌≡◌, ◌≤◌, ◌^◌, ◌+◌, IfOk, None, option_map, false};
ghost use Rattle.serial_spec.specs.Lawful.{values_in_call};
ghost use Rattle.script_spec.specs.ScriptCalls.{after_prefix, before_suffix, form_and_all, posted, id_of_post, post_of_text, is_posted};
ghost use Rattle.nc_base.specs.Values.{count_of};
ghost use Rattle.script_calls.specs.CallWords.{region_by, values_by, post_values_by, new_id_by, put_by, get_by, post_by};
ghost use Rattle.script_words.specs.Given.{Gives};
ghost use Rattle.script_calls.specs.Posts.{IsNew};

use crate::rank_calls::RankCalls;
use nc_base::{Call, Form, Given, Name, NumberList, PostKind, ScriptKind, Values};
use script_values::regions::{form_of_text, region};
use script_values::values::values;
use script_words::word_forms::{id, name, no_more};
use script_words::{ReadErr, Words, beside};
use std::alloc::Global;

pub fn after_prefix<'a>(prefix: &[u8], word: &'a [u8]) -> Option<&'a [u8]>
    ensures { option_map (λ rest. rest.now) result ≡ after_prefix prefix.now word.now }
{
    word.strip_prefix(prefix)
}

fn before_suffix<'a>(suffix: &[u8], word: &'a [u8]) -> Option<&'a [u8]>
    ensures { option_map (λ rest. rest.now) result ≡ before_suffix suffix.now word.now }
{
    word.strip_suffix(suffix)
}

/// A form, and whether the word ends with `_all`.
pub fn form_and_all(word: &[u8]) -> Option<(Form, bool)>
    ensures { result ≡ form_and_all word.now }
{
    match before_suffix(b"_all".as_slice(), word) {
        Some(form) => Some((form_of_text(form)?, true)),
        None => Some((form_of_text(word)?, false)),
    }
}

#[tactic(auto, unfolding(crate::specs::CallWords::region_by))]
fn call_region(alloc: Global, form: Form, words: &mut Words<'_>) -> Result<Given, ReadErr>
    ensures { Gives (λ g. (g, words.new)) result (region_by form words.old) }
{
    region(alloc, form, words)
}

#[tactic(auto, unfolding(crate::specs::CallWords::values_by))]
fn call_values(alloc: Global, before: u64, words: &mut Words<'_>) -> Result<Values, ReadErr>
    requires { before ≤ 2 ^ 24 }
    ensures read { Gives (λ vs. vs) result (values_by before words.old) }
    ensures bound { IfOk result (λ vs. before + count_of vs ≤ 2 ^ 24) }
{
    values(alloc, None, before, words)
}

#[tactic(auto, unfolding(crate::specs::CallWords::put_by))]
pub fn put_call(
    alloc: Global,
    all: bool,
    form: Form,
    before: u64,
    words: &mut Words<'_>,
) -> Result<Call, ReadErr>
    requires { before ≤ 2 ^ 24 }
    ensures read { Gives (λ c. c) result (put_by all form before words.old) }
    ensures bound { IfOk result (λ c. before + values_in_call c ≤ 2 ^ 24) }
    ensures new { IfOk result (λ c. id_of_post c ≡ None) }
{
    let var = Name::from_slice(alloc, name(words)?)?;
    let (var, given) = beside(var, call_region(alloc, form, words))?;
    let ((var, given), values) = beside((var, given), call_values(alloc, before, words))?;
    Ok(Call::Put {
        all,
        var,
        given,
        values,
    })
}

#[tactic(auto, unfolding(crate::specs::CallWords::get_by))]
pub fn get_call(
    alloc: Global,
    all: bool,
    form: Form,
    words: &mut Words<'_>,
) -> Result<Call, ReadErr>
    ensures read { Gives (λ c. c) result (get_by all form words.old) }
    ensures none { IfOk result (λ c. (values_in_call c ≡ 0) × (id_of_post c ≡ None)) }
{
    let var = Name::from_slice(alloc, name(words)?)?;
    let (var, given) = beside(var, call_region(alloc, form, words))?;
    let ((var, given), ()) = beside((var, given), no_more(words))?;
    Ok(Call::Get { all, var, given })
}

/// Reads the values of a post; a get has none.
#[tactic(auto, unfolding(crate::specs::CallWords::post_values_by))]
fn post_values(
    alloc: Global,
    kind: PostKind,
    before: u64,
    words: &mut Words<'_>,
) -> Result<Values, ReadErr>
    requires { before ≤ 2 ^ 24 }
    ensures read { Gives (λ vs. vs) result (post_values_by kind before words.old) }
    ensures bound { IfOk result (λ vs. before + count_of vs ≤ 2 ^ 24) }
{
    match kind {
        PostKind::Iget => {
            no_more(words)?;
            Ok(Values::Numbers(NumberList::new(alloc)))
        }
        PostKind::Iput | PostKind::Bput => values(alloc, None, before, words),
    }
}

/// Reads the id of a post, which the rank has not posted.
#[tactic(auto, unfolding(crate::specs::CallWords::new_id_by))]
fn new_id(own: &RankCalls, words: &mut Words<'_>) -> Result<u32, ReadErr>
    ensures read { Gives (λ id. (id, words.new)) result (new_id_by (posted own.now) words.old) }
    ensures new { IfOk result (λ id. is_posted id (posted own.now) ≡ false) }
{
    let id = id(words)?;
    if own.has_posted(id) {
        return Err(ReadErr::Fault(ScriptKind::TwiceNamed));
    }
    Ok(id)
}

#[tactic(auto, unfolding(crate::specs::CallWords::post_by))]
pub fn post_call(
    alloc: Global,
    kind: PostKind,
    own: &RankCalls,
    form: Form,
    before: u64,
    words: &mut Words<'_>,
) -> Result<Call, ReadErr>
    requires { before ≤ 2 ^ 24 }
    ensures read { Gives (λ c. c) result (post_by kind (posted own.now) form before words.old) }
    ensures bound { IfOk result (λ c. before + values_in_call c ≤ 2 ^ 24) }
    ensures new { IfOk result (λ c. IsNew (posted own.now) c) }
{
    let id = new_id(own, words)?;
    let var = Name::from_slice(alloc, name(words)?)?;
    let (var, given) = beside(var, call_region(alloc, form, words))?;
    let ((var, given), values) = beside((var, given), post_values(alloc, kind, before, words))?;
    Ok(Call::Post {
        id,
        kind,
        var,
        given,
        values,
    })
}

/// The kind of a post, and what follows it in the word.
pub fn post_of_text(word: &[u8]) -> Option<(PostKind, &[u8])>
    ensures { option_map (λ k. (k.0, k.1.now)) result ≡ post_of_text word.now }
{
    if let Some(form) = after_prefix(b"iput_".as_slice(), word) {
        return Some((PostKind::Iput, form));
    }
    if let Some(form) = after_prefix(b"bput_".as_slice(), word) {
        return Some((PostKind::Bput, form));
    }
    let form = after_prefix(b"iget_".as_slice(), word)?;
    Some((PostKind::Iget, form))
}
