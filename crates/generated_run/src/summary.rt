// The text that sums a run up.
ghost use Rattle.std.specs.Prelude.{◌≡◌, ◌++◌, ◌∷◌, [], IfOk, OnOk, codes, count_by, decimal, fold, length, map, pos, sum, true, ◌+ℤ◌};
ghost use Rattle.std.specs.Fmt.{signed_decimal};
ghost use Rattle.serial_spec.specs.HeaderBytes.{header_len};
ghost use Rattle.serial_spec.specs.SoundHeaders.{is_sound};
ghost use Rattle.serial_spec.specs.Layout.{end_of};
ghost use Rattle.script_spec.specs.Generator.{call_got, call_put, has_counts, over_calls, refusals, sum_given, summary_text};
ghost use Rattle.serial_spec.specs.History.{is_meeting};
ghost use Rattle.script_spec.specs.Texts.{line};

use crate::elements::{added, elements_done};
use crate::refusals::all_refusals;
use crate::sums::sum_answers;
use nc_base::{
    AnswerTable, Blob, CallList, Direction, Header, Mark, MarkList, Memory, RunEnd, Script,
};
use printed_text::words::{push_bytes, push_number_line, push_numbered, push_signed};
use std::alloc::Global;
use var_layout::end_of;

/// What a run that was made from a seed prints: how many calls and meetings it had, what was put, got and refused, the sum of
/// all that was got, and the file's end. The header has the final record count.
///
/// A number that has no room in its type is told as want of memory.
pub fn summary_text(
    alloc: Global,
    seed: u64,
    size: u32,
    script: &Script,
    header: &Header,
    end: &RunEnd,
) -> Result<Blob, Memory>
    requires counted { has_counts script.now ≡ true }
    requires sound { is_sound header.now ≡ true }
    ensures { IfOk result (λ text. text ≡ summary_text seed size script.now header.now end.now.order end.now.answers) }
{
    let mut out = Vec::new(alloc);
    push_run(&mut out, seed, size, script, &end.order)?;
    push_answers(alloc, &mut out, script, &end.answers)?;
    push_file(&mut out, header)?;
    Ok(Blob::from_vec(out))
}

/// What was run.
fn push_run(
    out: &mut Vec<u8>,
    seed: u64,
    size: u32,
    script: &Script,
    order: &MarkList,
) -> Result<(), Memory>
    ensures { OnOk result (out.new.items ≡ out.old.items
        ++ (line (codes "generated" ∷ decimal seed ∷ decimal size ∷ [])
        ++ line (codes "ranks" ∷ decimal script.now.ranks ∷ [])
        ++ line (codes "calls" ∷ decimal (sum (map (λ own. length own) script.now.calls)) ∷ [])
        ++ line (codes "collectives" ∷ decimal (count_by is_meeting order.now) ∷ []))) }
{
    push_numbered(out, b"generated ", seed)?;
    push_number_line(out, b" ", u64::from(size))?;
    push_number_line(out, b"ranks ", u64::from(script.ranks))?;
    push_number_line(out, b"calls ", call_count(script.calls.as_slice())?)?;
    push_number_line(out, b"collectives ", meetings(order.as_slice()))?;
    Ok(())
}

/// What came of the calls.
fn push_answers(
    alloc: Global,
    out: &mut Vec<u8>,
    script: &Script,
    answers: &AnswerTable,
) -> Result<(), Memory>
    ensures { OnOk result (out.new.items ≡ out.old.items
        ++ (line (codes "put" ∷ decimal (over_calls call_put script.now.calls answers.now) ∷ [])
        ++ line (codes "got" ∷ decimal (over_calls call_got script.now.calls answers.now) ∷ [])
        ++ line (codes "refused" ∷ decimal (sum (map (λ own. sum (map refusals own)) answers.now)) ∷ [])
        ++ line (codes "sum" ∷ signed_decimal (fold (λ s own. fold (λ t a. t +ℤ sum_given a) s own) (pos 0) answers.now) ∷ []))) }
{
    let calls = script.calls.as_slice();
    let answers = answers.as_slice();
    let put = elements_done(alloc, Direction::Put, calls, answers)?;
    push_number_line(out, b"put ", put)?;
    let got = elements_done(alloc, Direction::Get, calls, answers)?;
    push_number_line(out, b"got ", got)?;
    push_number_line(out, b"refused ", all_refusals(answers)?)?;
    push_sum(out, sum_answers(answers)?)?;
    Ok(())
}

fn push_sum(out: &mut Vec<u8>, sum: i128) -> Result<(), Memory>
    ensures { OnOk result (out.new.items ≡ out.old.items ++ line (codes "sum" ∷ signed_decimal sum ∷ [])) }
{
    push_bytes(out, b"sum ")?;
    push_signed(out, sum)?;
    out.push(b'\n')?;
    Ok(())
}

/// The records, and where the file ends.
fn push_file(out: &mut Vec<u8>, header: &Header) -> Result<(), Memory>
    requires { is_sound header.now ≡ true }
    ensures { OnOk result (out.new.items ≡ out.old.items
        ++ (line (codes "records" ∷ decimal header.now.records ∷ [])
        ++ line (codes "file" ∷ decimal (end_of header.now (header_len header.now) header.now.records) ∷ []))) }
{
    push_number_line(out, b"records ", header.records)?;
    push_number_line(out, b"file ", end_of(header, header.records))?;
    Ok(())
}

/// The calls of all ranks.
fn call_count(calls: &[CallList]) -> Result<u64, Memory>
    ensures { IfOk result (λ n. n ≡ sum (map (λ own. length own) calls.now)) }
{
    calls
        .iter()
        .try_fold(0, |total, own| added(total, own.len() as u64))
}

fn meetings(order: &[Mark]) -> u64
    ensures { result ≡ count_by is_meeting order.now }
{
    order
        .iter()
        .filter(|mark| matches!(mark, Mark::Meet(_)))
        .count() as u64
}
