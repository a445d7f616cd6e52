// The sum of all that gets gave.
ghost use Rattle.std.specs.Prelude.{◌≡◌, IfOk, fold, pos, sum, ◌+ℤ◌};
ghost use Rattle.nc_base.specs.BitForms.{bits_of_run, bits_of_runs};
ghost use Rattle.nc_base.specs.NumberForms.{numbers_of_run, numbers_of_runs};
ghost use Rattle.script_spec.specs.Generator.{sum_given, sum_of};

use nc_base::{
    Answer, AnswerList, BitList, BitRun, BitWords, Item, Memory, NumberList, NumberRun,
    NumberWords, Values,
};

/// The sum, where it is a number that can be told.
fn plus(a: i128, b: i128) -> Result<i128, Memory>
    ensures { IfOk result (λ z. z ≡ a +ℤ b) }
{
    a.checked_add(b).ok_or(Memory)
}

#[tactic(auto, using(crate::proofs::SumLaws::steps_summed))]
fn sum_run(start: i128, run: NumberRun) -> Result<i128, Memory>
    ensures { IfOk result (λ z. z ≡ fold (λ a z. a +ℤ z) start (numbers_of_run run)) }
{
    let mut total = start;
    for k in 0..run.count {
        total = plus(total, run.at(k))?;
    }
    Ok(total)
}

#[tactic(auto, using(crate::proofs::SumLaws::runs_summed))]
fn sum_runs(runs: &[NumberRun]) -> Result<i128, Memory>
    ensures { IfOk result (λ z. z ≡ fold (λ a z. a +ℤ z) (pos 0) (numbers_of_runs runs.now)) }
{
    let mut total = 0;
    for run in runs {
        total = sum_run(total, *run)?;
    }
    Ok(total)
}

/// The sum of numbers; runs are summed one after another.
#[tactic(auto, using(crate::proofs::SumLaws::number_summed))]
fn sum_numbers(numbers: &NumberList) -> Result<i128, Memory>
    ensures { IfOk result (λ z. z ≡ fold (λ a z. a +ℤ z) (pos 0) numbers.now) }
{
    if let NumberWords::Runs(runs) = numbers.words() {
        return sum_runs(runs);
    }
    let mut total = 0;
    for k in 0..numbers.len() {
        total = plus(total, numbers.at(k))?;
    }
    Ok(total)
}

#[tactic(auto, using(crate::proofs::SumLaws::bit_steps_summed))]
fn sum_bit_run(run: BitRun) -> Result<i128, Memory>
    ensures { IfOk result (λ z. z ≡ pos (sum (bits_of_run run))) }
{
    let mut total = 0;
    for k in 0..run.count {
        total = plus(total, i128::from(run.at(k)))?;
    }
    Ok(total)
}

#[tactic(auto, using(crate::proofs::SumLaws::bit_runs_summed))]
fn sum_bit_runs(runs: &[BitRun]) -> Result<i128, Memory>
    ensures { IfOk result (λ z. z ≡ pos (sum (bits_of_runs runs.now))) }
{
    let mut total = 0;
    for run in runs {
        total = plus(total, sum_bit_run(*run)?)?;
    }
    Ok(total)
}

/// The sum of bits, each read as a number.
#[tactic(auto, using(crate::proofs::SumLaws::pattern_summed))]
fn sum_bits(patterns: &BitList) -> Result<i128, Memory>
    ensures { IfOk result (λ z. z ≡ pos (sum patterns.now)) }
{
    if let BitWords::Runs(runs) = patterns.words() {
        return sum_bit_runs(runs);
    }
    let mut total = 0;
    for k in 0..patterns.len() {
        total = plus(total, i128::from(patterns.at(k)))?;
    }
    Ok(total)
}

/// The sum of the numbers or bits that a get read, if any.
fn sum_of(values: &Option<Values>) -> Result<i128, Memory>
    ensures { IfOk result (λ z. z ≡ sum_of values.now) }
{
    match values {
        None | Some(Values::Text(_)) => Ok(0),
        Some(Values::Numbers(numbers)) => sum_numbers(numbers),
        Some(Values::Bits(patterns)) => sum_bits(patterns),
    }
}

#[tactic(auto, using(std::proofs::lemmas::List::Sums::fold_more))]
fn sum_items(start: i128, items: &[Item]) -> Result<i128, Memory>
    ensures { IfOk result (λ z. z ≡ fold (λ s i. s +ℤ sum_of i.values) start items.now) }
{
    let mut total = start;
    for item in items {
        total = plus(total, sum_of(&item.values)?)?;
    }
    Ok(total)
}

fn sum_given(answer: &Answer) -> Result<i128, Memory>
    ensures { IfOk result (λ z. z ≡ sum_given answer.now) }
{
    sum_items(sum_of(&answer.values)?, answer.items.as_slice())
}

#[tactic(auto, using(std::proofs::lemmas::List::Sums::fold_more))]
fn sum_rank(start: i128, answers: &[Answer]) -> Result<i128, Memory>
    ensures { IfOk result (λ z. z ≡ fold (λ t a. t +ℤ sum_given a) start answers.now) }
{
    let mut total = start;
    for answer in answers {
        total = plus(total, sum_given(answer)?)?;
    }
    Ok(total)
}

#[tactic(auto, using(std::proofs::lemmas::List::Sums::fold_more))]
pub(crate) fn sum_answers(answers: &[AnswerList]) -> Result<i128, Memory>
    ensures { IfOk result (λ z. z ≡ fold (λ s own. fold (λ t a. t +ℤ sum_given a) s own) (pos 0) answers.now) }
{
    let mut total = 0;
    for own in answers {
        total = sum_rank(total, own.as_slice())?;
    }
    Ok(total)
}
