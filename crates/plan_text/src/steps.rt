// The text of a plan: its steps.
ghost use Rattle.std.specs.Prelude.{◌≡◌, ◌++◌, OnOk, codes, flat_map, slice_get};
ghost use Rattle.script_spec.specs.Texts.{mark_word, text_line};
ghost use Rattle.plan_text.specs.PlanWords.{outcome_in, outcome_word, word_in};
ghost use Rattle.plan_text.specs.StepTexts.{caller_line, step_lines};

use crate::head::push_mark;
use crate::phases::push_file;
use nc_base::{Answer, Code, Memory, Script};
use printed_text::words::{code_word, push_bytes, push_call_word, push_numbered, push_word};
use run_plan::RunPlan;
use step_plan::{Caller, StepPlan};

pub(crate) fn push_steps(out: &mut Vec<u8>, script: &Script, plan: &RunPlan) -> Result<(), Memory>
    ensures { OnOk result (out.new.items ≡ out.old.items ++ flat_map (step_lines script.now.calls plan.now.answers) plan.now.steps) }
{
    let steps = plan.steps.as_slice();
    for step in steps {
        push_step(out, script, plan, step)?;
    }
    Ok(())
}

fn push_step(
    out: &mut Vec<u8>,
    script: &Script,
    plan: &RunPlan,
    step: &StepPlan,
) -> Result<(), Memory>
    ensures { OnOk result (out.new.items ≡ out.old.items ++ step_lines script.now.calls plan.now.answers step.now) }
{
    push_step_title(out, step)?;
    push_callers(out, script, plan, step.callers.as_slice())?;
    push_file(out, &step.file)?;
    Ok(())
}

fn push_step_title(out: &mut Vec<u8>, step: &StepPlan) -> Result<(), Memory>
    ensures { OnOk result (out.new.items ≡ out.old.items ++ text_line (codes "step " ++ mark_word step.now.mark)) }
{
    push_bytes(out, b"step ")?;
    push_mark(out, step.mark)?;
    out.push(b'\n')?;
    Ok(())
}

fn push_callers(
    out: &mut Vec<u8>,
    script: &Script,
    plan: &RunPlan,
    callers: &[Caller],
) -> Result<(), Memory>
    ensures { OnOk result (out.new.items ≡ out.old.items ++ flat_map (caller_line script.now.calls plan.now.answers) callers.now) }
{
    for caller in callers {
        push_caller(out, script, plan, *caller)?;
    }
    Ok(())
}

// A call by its rank and number, its word, and what it is answered.
fn push_caller(
    out: &mut Vec<u8>,
    script: &Script,
    plan: &RunPlan,
    caller: Caller,
) -> Result<(), Memory>
    ensures { OnOk result (out.new.items ≡ out.old.items ++ caller_line script.now.calls plan.now.answers caller) }
{
    push_numbered(out, b"  rank ", u64::from(caller.rank))?;
    push_numbered(out, b" call ", u64::from(caller.call))?;
    out.push(b' ')?;
    push_word_of(out, script, caller)?;
    push_word(out, answer_of(plan, caller))?;
    out.push(b'\n')?;
    Ok(())
}

/// The word of a call.
pub(crate) fn push_word_of(out: &mut Vec<u8>, script: &Script, caller: Caller) -> Result<(), Memory>
    ensures { OnOk result (out.new.items ≡ out.old.items ++ word_in (slice_get script.now.calls caller.rank) caller.call) }
{
    let Some(calls) = script.calls.as_slice().get(caller.rank as usize) else {
        return Ok(());
    };
    match calls.as_slice().get(caller.call as usize) {
        Some(call) => push_call_word(out, call),
        None => Ok(()),
    }
}

/// What a call is answered: the name of its code, or that puts overlap.
pub(crate) fn answer_of(plan: &RunPlan, caller: Caller) -> &'static [u8]
    ensures { result.now ≡ outcome_in (slice_get plan.now.answers caller.rank) caller.call }
{
    let Some(answers) = plan.answers.as_slice().get(caller.rank as usize) else {
        return b"";
    };
    match answers.as_slice().get(caller.call as usize) {
        Some(answer) => outcome_word(answer),
        None => b"",
    }
}

fn outcome_word(answer: &Answer) -> &'static [u8]
    ensures { result.now ≡ outcome_word answer.now.code answer.now.pair }
{
    match answer.code {
        Code::Ok if answer.pair.is_some() => b"overlap",
        code => code_word(code),
    }
}
