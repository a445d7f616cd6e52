// The answers that tell a refusal.
ghost use Rattle.std.specs.Prelude.{◌≡◌, IfOk, map, sum};
ghost use Rattle.script_spec.specs.Generator.{is_refusal, refusals};

use crate::elements::added;
use nc_base::{Answer, AnswerList, Code, Memory};

fn is_refusal(code: Code) -> bool
    ensures { result ≡ is_refusal code }
{
    !matches!(code, Code::Ok | Code::Null)
}

/// An answer that is a refusal or has a pair, and each of its items that is a refusal.
fn refusals(answer: &Answer) -> Result<u64, Memory>
    ensures { IfOk result (λ n. n ≡ refusals answer.now) }
{
    let own = u64::from(is_refusal(answer.code) || answer.pair.is_some());
    let items = answer.items.as_slice().iter();
    added(
        own,
        items.filter(|item| is_refusal(item.code)).count() as u64,
    )
}

fn rank_refusals(answers: &[Answer]) -> Result<u64, Memory>
    ensures { IfOk result (λ n. n ≡ sum (map refusals answers.now)) }
{
    answers
        .iter()
        .try_fold(0, |total, answer| added(total, refusals(answer)?))
}

pub(crate) fn all_refusals(answers: &[AnswerList]) -> Result<u64, Memory>
    ensures { IfOk result (λ n. n ≡ sum (map (λ own. sum (map refusals own)) answers.now)) }
{
    answers.iter().try_fold(0, |total, own| added(total, rank_refusals(own.as_slice())?))
}
