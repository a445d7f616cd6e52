// The text of a run.
ghost use Rattle.std.specs.Prelude.{◌≡◌, ◌++◌, ◌∷◌, [], IfOk, OnOk, codes, decimal, flat_map, map, true, zip};
ghost use Rattle.std.specs.List.{enumerate_from};
ghost use Rattle.serial_spec.specs.SoundHeaders.{is_sound};
ghost use Rattle.script_spec.specs.Texts.{call_lines, call_word, code_word, item_line, line, mark_word, option_words, outcome, pair_words, rank_lines, run_text, value_words};
ghost use Rattle.printed_text.specs.Spaced.{spaced};

use crate::digits::{NameDigits, RankDigits};
use crate::offsets::push_offsets;
use crate::words::{
    code_word, push_bytes, push_call_word, push_decimal, push_number_line, push_numbered,
    push_values, push_word,
};
use nc_base::{
    Answer, AnswerList, Blob, Call, CallList, Code, Header, Item, Mark, Memory, Pair, RunEnd,
    Script, Values,
};
use std::alloc::Global;

/// What a plain run prints: its ranks, the order of its steps, each rank's answers and how many requests it left, and where
/// the variables lie. The header has the final record count.
pub fn run_text(
    alloc: Global,
    script: &Script,
    header: &Header,
    end: &RunEnd,
) -> Result<Blob, Memory>
    requires { is_sound header.now ≡ true }
    ensures { IfOk result (λ text. text ≡ run_text script.now header.now end.now.order end.now.answers end.now.pending) }
{
    let names = NameDigits::new(alloc, header)?;
    let mut out = Vec::new(alloc);
    push_number_line(&mut out, b"ranks ", u64::from(script.ranks))?;
    push_order(&mut out, end.order.as_slice())?;
    push_ranks(alloc, &mut out, &names, script.calls.as_slice(), end)?;
    push_offsets(&mut out, header)?;
    Ok(Blob::from_vec(out))
}

fn push_order(out: &mut Vec<u8>, order: &[Mark]) -> Result<(), Memory>
    ensures { OnOk result (out.new.items ≡ out.old.items ++ line (codes "order" ∷ map mark_word order.now)) }
{
    push_bytes(out, b"order")?;
    push_marks(out, order)?;
    out.push(b'\n')?;
    Ok(())
}

#[tactic(auto, using(crate::proofs::WordLaws::spaced_more))]
fn push_marks(out: &mut Vec<u8>, order: &[Mark]) -> Result<(), Memory>
    ensures { OnOk result (out.new.items ≡ out.old.items ++ spaced (map mark_word order.now)) }
{
    for mark in order {
        push_mark(out, *mark)?;
    }
    Ok(())
}

/// A blank and a mark.
fn push_mark(out: &mut Vec<u8>, mark: Mark) -> Result<(), Memory>
    ensures { OnOk result (out.new.items ≡ out.old.items ++ 32 ∷ mark_word mark) }
{
    match mark {
        Mark::Meet(meeting) => push_numbered(out, b" m", u64::from(meeting)),
        Mark::Solo(rank, call) => {
            push_numbered(out, b" s", u64::from(rank))?;
            push_numbered(out, b".", u64::from(call))
        }
    }
}

fn push_ranks(
    alloc: Global,
    out: &mut Vec<u8>,
    names: &NameDigits,
    calls: &[CallList],
    end: &RunEnd,
) -> Result<(), Memory>
    ensures { OnOk result (out.new.items ≡ out.old.items
        ++ flat_map (rank_lines names.now) (enumerate_from 0 (zip (zip calls.now end.now.answers) end.now.pending))) }
{
    let answers = end.answers.as_slice();
    let pending = end.pending.as_slice();
    let count = calls.len().min(answers.len()).min(pending.len());
    for rank in 0..count {
        let run = RankRun {
            calls: &calls[rank],
            answers: &answers[rank],
            pending: pending[rank],
        };
        push_rank(alloc, out, names, rank as u64, run)?;
    }
    Ok(())
}

/// What one rank did: its calls, their answers, and how many requests it left.
#[derive(Drop)]
struct RankRun<'a> {
    calls: &'a CallList,
    answers: &'a AnswerList,
    pending: u64,
}

fn push_rank(
    alloc: Global,
    out: &mut Vec<u8>,
    names: &NameDigits,
    rank: u64,
    run: RankRun<'_>,
) -> Result<(), Memory>
    ensures { OnOk result (out.new.items ≡ out.old.items ++ rank_lines names.now (rank, ((run.entry.calls.now, run.entry.answers.now), run.entry.pending))) }
{
    push_number_line(out, b"rank ", rank)?;
    push_calls(
        alloc,
        out,
        names,
        run.calls.as_slice(),
        run.answers.as_slice(),
    )?;
    push_number_line(out, b"pending ", run.pending)?;
    Ok(())
}

/// A rank's calls with their answers.
fn push_calls(
    alloc: Global,
    out: &mut Vec<u8>,
    names: &NameDigits,
    calls: &[Call],
    answers: &[Answer],
) -> Result<(), Memory>
    ensures { OnOk result (out.new.items ≡ out.old.items
        ++ flat_map (call_lines names.now calls.now) (enumerate_from 0 (zip calls.now answers.now))) }
{
    let digits = RankDigits::new(alloc, names, calls)?;
    let count = calls.len().min(answers.len());
    for number in 0..count {
        push_call(
            out,
            &digits,
            number as u64,
            &calls[number],
            &answers[number],
        )?;
    }
    Ok(())
}

/// A call's line, and one line for each of its items.
fn push_call(
    out: &mut Vec<u8>,
    digits: &RankDigits,
    number: u64,
    call: &Call,
    answer: &Answer,
) -> Result<(), Memory>
    ensures { OnOk result (out.new.items ≡ out.old.items ++ call_lines digits.now.0 digits.now.1 (number, (call.now, answer.now))) }
{
    push_call_line(out, digits.of_call(call), number, call, answer)?;
    push_items(out, digits, answer.items.as_slice())?;
    Ok(())
}

fn push_call_line(
    out: &mut Vec<u8>,
    digits: u8,
    number: u64,
    call: &Call,
    answer: &Answer,
) -> Result<(), Memory>
    ensures { OnOk result (out.new.items ≡ out.old.items ++ line (decimal number ∷ call_word call.now ∷ outcome answer.now.code answer.now.pair
        ++ option_words (λ x. decimal x ∷ []) answer.now.number ++ option_words (value_words digits) answer.now.values)) }
{
    push_decimal(out, number)?;
    out.push(b' ')?;
    push_call_word(out, call)?;
    push_answer(out, digits, answer)?;
    out.push(b'\n')?;
    Ok(())
}

/// What follows a call's word on its line.
fn push_answer(out: &mut Vec<u8>, digits: u8, answer: &Answer) -> Result<(), Memory>
    ensures { OnOk result (out.new.items ≡ out.old.items ++ (spaced (outcome answer.now.code answer.now.pair)
        ++ spaced (option_words (λ x. decimal x ∷ []) answer.now.number)
        ++ spaced (option_words (value_words digits) answer.now.values))) }
{
    push_outcome(out, answer.code, &answer.pair)?;
    push_length(out, answer.number)?;
    push_got(out, digits, &answer.values)?;
    Ok(())
}

/// The code, and two requests that share a byte: in place of ok, or after another code.
#[tactic(auto, using(crate::proofs::WordLaws::spaced_one))]
fn push_outcome(out: &mut Vec<u8>, code: Code, pair: &Option<Pair>) -> Result<(), Memory>
    ensures { OnOk result (out.new.items ≡ out.old.items ++ spaced (outcome code pair.now)) }
{
    match pair {
        None => push_word(out, code_word(code)),
        Some(pair) => match code {
            Code::Ok => push_pair(out, pair),
            _ => {
                push_word(out, code_word(code))?;
                push_pair(out, pair)
            }
        },
    }
}

fn push_pair(out: &mut Vec<u8>, pair: &Pair) -> Result<(), Memory>
    ensures { OnOk result (out.new.items ≡ out.old.items ++ spaced (pair_words pair.now)) }
{
    push_holder(
        out,
        b" overlap ",
        u64::from(pair.rank1),
        u64::from(pair.request1),
    )?;
    push_holder(out, b" ", u64::from(pair.rank2), u64::from(pair.request2))?;
    push_numbered(out, b" ", pair.at)?;
    Ok(())
}

/// Words, a rank and its request.
fn push_holder(out: &mut Vec<u8>, words: &[u8], rank: u64, request: u64) -> Result<(), Memory>
    ensures { OnOk result (out.new.items ≡ out.old.items ++ (words.now ++ decimal rank ++ 32 ∷ decimal request)) }
{
    push_numbered(out, words, rank)?;
    push_numbered(out, b" ", request)?;
    Ok(())
}

/// The length that was asked for, if any.
#[tactic(auto, using(crate::proofs::WordLaws::spaced_one))]
fn push_length(out: &mut Vec<u8>, length: Option<u64>) -> Result<(), Memory>
    ensures { OnOk result (out.new.items ≡ out.old.items ++ spaced (option_words (λ x. decimal x ∷ []) length)) }
{
    match length {
        None => Ok(()),
        Some(length) => push_numbered(out, b" ", length),
    }
}

/// What a get read, if anything.
fn push_got(out: &mut Vec<u8>, digits: u8, values: &Option<Values>) -> Result<(), Memory>
    ensures { OnOk result (out.new.items ≡ out.old.items ++ spaced (option_words (value_words digits) values.now)) }
{
    match values {
        None => Ok(()),
        Some(values) => push_values(out, digits, values),
    }
}

fn push_items(out: &mut Vec<u8>, digits: &RankDigits, items: &[Item]) -> Result<(), Memory>
    ensures { OnOk result (out.new.items ≡ out.old.items ++ flat_map (item_line digits.now.0 digits.now.1) items.now) }
{
    for item in items {
        push_item(out, digits, item)?;
    }
    Ok(())
}

/// What a wait or a cancel tells of one request.
fn push_item(out: &mut Vec<u8>, digits: &RankDigits, item: &Item) -> Result<(), Memory>
    ensures { OnOk result (out.new.items ≡ out.old.items ++ item_line digits.now.0 digits.now.1 item.now) }
{
    push_bytes(out, b"  ")?;
    push_item_line(out, digits.of_item(item.id), item)
}

fn push_item_line(out: &mut Vec<u8>, digits: u8, item: &Item) -> Result<(), Memory>
    ensures { OnOk result (out.new.items ≡ out.old.items
        ++ line (decimal item.now.id ∷ code_word item.now.code ∷ option_words (value_words digits) item.now.values)) }
{
    push_decimal(out, u64::from(item.id))?;
    push_word(out, code_word(item.code))?;
    push_got(out, digits, &item.values)?;
    out.push(b'\n')?;
    Ok(())
}
