// The JSON document of a plan: its steps.
ghost use Rattle.std.specs.Prelude.{◌≡◌, ◌++◌, ◌∷◌, OnOk, slice_get};
ghost use Rattle.serial_spec.specs.History.{is_meeting};
ghost use Rattle.script_spec.specs.Texts.{joined};
ghost use Rattle.step_plan.specs.Steps.{file_calls};
ghost use Rattle.window_plan.specs.Windows.{shares_in};
ghost use Rattle.plan_text.specs.Json.{array_of, json_number, json_text, on_line, or_null};
ghost use Rattle.plan_text.specs.JsonSteps.{asked_object, call_members, caller_object, device_call, domain_object, file_members, overlap_object, phase_object, piece_array, share_object, step_object, window_object};
ghost use Rattle.plan_text.specs.PlanWords.{word_in};

use crate::json::{ArrayItem, push_array, push_calls, push_comma, push_named, push_truth};
use crate::json_head::push_mark_text;
use crate::steps::{answer_of, push_word_of};
use crate::words::end_of;
use nc_base::{Mark, Memory, Pair, Script};
use printed_text::words::{push_bytes, push_decimal, push_numbered};
use run_plan::RunPlan;
use std::alloc::Global;
use step_plan::{
    Asked, Caller, DomainPlan, FilePlan, Owner, Phase, Share, StepPlan, WindowPlan, device_calls,
};
use window_plan::shares_of;

/// The steps, on a line each.
pub(crate) fn push_steps(
    alloc: Global,
    out: &mut Vec<u8>,
    script: &Script,
    plan: &RunPlan,
) -> Result<(), Memory>
    ensures { OnOk result (out.new.items ≡ out.old.items ++ array_of (λ step. on_line (step_object script.now plan.now step)) plan.now.steps) }
{
    let steps = plan.steps.as_slice();
    out.push(b'[')?;
    for (number, step) in steps.iter().enumerate() {
        push_comma(out, number)?;
        push_step(alloc, out, script, plan, step)?;
    }
    out.push(b']')?;
    Ok(())
}

/// A step, on a line.
fn push_step(
    alloc: Global,
    out: &mut Vec<u8>,
    script: &Script,
    plan: &RunPlan,
    step: &StepPlan,
) -> Result<(), Memory>
    ensures { OnOk result (out.new.items ≡ out.old.items ++ on_line (step_object script.now plan.now step.now)) }
{
    push_bytes(out, b"\n{\"mark\":")?;
    push_mark_text(out, step.mark)?;
    push_truth(out, b",\"collective\":", is_meeting(step.mark))?;
    push_bytes(out, b",\"calls\":")?;
    push_callers(out, script, plan, step.callers.as_slice())?;
    push_file(alloc, out, &step.file)?;
    out.push(b'}')?;
    Ok(())
}

fn is_meeting(mark: Mark) -> bool
    ensures { result ≡ is_meeting mark }
{
    match mark {
        Mark::Meet(_) => true,
        Mark::Solo(_, _) => false,
    }
}

fn push_callers(
    out: &mut Vec<u8>,
    script: &Script,
    plan: &RunPlan,
    callers: &[Caller],
) -> Result<(), Memory>
    ensures { OnOk result (out.new.items ≡ out.old.items ++ array_of (caller_object script.now plan.now) callers.now) }
{
    out.push(b'[')?;
    for (number, caller) in callers.iter().enumerate() {
        push_comma(out, number)?;
        push_caller(out, script, plan, *caller)?;
    }
    out.push(b']')?;
    Ok(())
}

fn push_caller(
    out: &mut Vec<u8>,
    script: &Script,
    plan: &RunPlan,
    caller: Caller,
) -> Result<(), Memory>
    ensures { OnOk result (out.new.items ≡ out.old.items ++ caller_object script.now plan.now caller) }
{
    push_numbered(out, b"{\"rank\":", u64::from(caller.rank))?;
    push_numbered(out, b",\"call\":", u64::from(caller.call))?;
    push_bytes(out, b",\"name\":")?;
    push_word_text(out, script, caller)?;
    push_named(out, b",\"answer\":", answer_of(plan, caller))?;
    out.push(b'}')?;
    Ok(())
}

/// The word of a call as a text.
fn push_word_text(out: &mut Vec<u8>, script: &Script, caller: Caller) -> Result<(), Memory>
    ensures { OnOk result (out.new.items ≡ out.old.items ++ json_text (word_in (slice_get script.now.calls caller.rank) caller.call)) }
{
    out.push(b'"')?;
    push_word_of(out, script, caller)?;
    out.push(b'"')?;
    Ok(())
}

/// What a step does to the file.
fn push_file(alloc: Global, out: &mut Vec<u8>, file: &FilePlan) -> Result<(), Memory>
    ensures { OnOk result (out.new.items ≡ out.old.items ++ 44 ∷ joined 44 (file_members file.now)) }
{
    push_bytes(out, b",\"overlap\":")?;
    push_overlap(out, &file.overlap)?;
    push_bytes(out, b",\"put\":")?;
    push_phase(out, &file.puts)?;
    push_bytes(out, b",\"get\":")?;
    push_phase(out, &file.gets)?;
    push_device(alloc, out, b",\"device\":", file)?;
    Ok(())
}

/// Words, and the device calls of a step.
fn push_device(
    alloc: Global,
    out: &mut Vec<u8>,
    words: &[u8],
    file: &FilePlan,
) -> Result<(), Memory>
    ensures { OnOk result (out.new.items ≡ out.old.items ++ (words.now ++ array_of device_call (file_calls file.now))) }
{
    let mut calls = Vec::new(alloc);
    device_calls(&mut calls, file)?;
    push_calls(out, words, &calls)?;
    Ok(())
}

/// Two requests that share a byte, or null.
fn push_overlap(out: &mut Vec<u8>, overlap: &Option<Pair>) -> Result<(), Memory>
    ensures { OnOk result (out.new.items ≡ out.old.items ++ or_null overlap_object overlap.now) }
{
    match overlap {
        None => push_bytes(out, b"null"),
        Some(pair) => push_pair(out, pair),
    }
}

fn push_pair(out: &mut Vec<u8>, pair: &Pair) -> Result<(), Memory>
    ensures { OnOk result (out.new.items ≡ out.old.items ++ overlap_object pair.now) }
{
    push_numbered(out, b"{\"ranks\":[", u64::from(pair.rank1))?;
    push_numbered(out, b",", u64::from(pair.rank2))?;
    push_numbered(out, b"],\"ids\":[", u64::from(pair.request1))?;
    push_numbered(out, b",", u64::from(pair.request2))?;
    push_numbered(out, b"],\"byte\":", pair.at)?;
    out.push(b'}')?;
    Ok(())
}

/// The puts or the gets.
fn push_phase(out: &mut Vec<u8>, phase: &Phase) -> Result<(), Memory>
    ensures { OnOk result (out.new.items ≡ out.old.items ++ phase_object phase.now) }
{
    push_all_asked(out, b"{\"asked\":", phase.asked.as_slice())?;
    push_domains(out, b",\"domains\":", phase.domains.as_slice())?;
    out.push(b'}')?;
    Ok(())
}

fn push_all_asked(out: &mut Vec<u8>, words: &[u8], list: &[Asked]) -> Result<(), Memory>
    ensures { OnOk result (out.new.items ≡ out.old.items ++ (words.now ++ array_of asked_object list.now)) }
{
    push_array(out, words, list)
}

impl ArrayItem for Asked {
    ghost value = { asked_object };

    fn push_item(&self, out: &mut Vec<u8>) -> Result<(), Memory> {
        push_asked(out, *self)
    }
}

fn push_asked(out: &mut Vec<u8>, asked: Asked) -> Result<(), Memory>
    ensures { OnOk result (out.new.items ≡ out.old.items ++ asked_object asked) }
{
    push_numbered(out, b"{\"rank\":", u64::from(asked.rank))?;
    push_numbered(out, b",\"bytes\":", asked.bytes)?;
    push_numbered(out, b",\"pieces\":", asked.pieces)?;
    out.push(b'}')?;
    Ok(())
}

fn push_domains(out: &mut Vec<u8>, words: &[u8], domains: &[DomainPlan]) -> Result<(), Memory>
    ensures { OnOk result (out.new.items ≡ out.old.items ++ (words.now ++ array_of domain_object domains.now)) }
{
    push_array(out, words, domains)
}

impl ArrayItem for DomainPlan {
    ghost value = { domain_object };

    fn push_item(&self, out: &mut Vec<u8>) -> Result<(), Memory> {
        push_domain(out, self)
    }
}

fn push_domain(out: &mut Vec<u8>, domain: &DomainPlan) -> Result<(), Memory>
    ensures { OnOk result (out.new.items ≡ out.old.items ++ domain_object domain.now) }
{
    push_bytes(out, b"{\"aggregator\":")?;
    push_aggregator(out, domain.aggregator)?;
    push_numbered(out, b",\"from\":", domain.extent.at)?;
    push_numbered(out, b",\"to\":", end_of(domain.extent))?;
    push_windows(out, b",\"windows\":", domain.windows.as_slice())?;
    out.push(b'}')?;
    Ok(())
}

/// The number of an aggregator, or null.
fn push_aggregator(out: &mut Vec<u8>, aggregator: Option<u32>) -> Result<(), Memory>
    ensures { OnOk result (out.new.items ≡ out.old.items ++ or_null json_number aggregator) }
{
    match aggregator {
        None => push_bytes(out, b"null"),
        Some(number) => push_decimal(out, u64::from(number)),
    }
}

fn push_windows(out: &mut Vec<u8>, words: &[u8], windows: &[WindowPlan]) -> Result<(), Memory>
    ensures { OnOk result (out.new.items ≡ out.old.items ++ (words.now ++ array_of window_object windows.now)) }
{
    push_array(out, words, windows)
}

impl ArrayItem for WindowPlan {
    ghost value = { window_object };

    fn push_item(&self, out: &mut Vec<u8>) -> Result<(), Memory> {
        push_window(out, self)
    }
}

fn push_window(out: &mut Vec<u8>, window: &WindowPlan) -> Result<(), Memory>
    ensures { OnOk result (out.new.items ≡ out.old.items ++ window_object window.now) }
{
    push_numbered(out, b"{\"from\":", window.hull.at)?;
    push_numbered(out, b",\"to\":", end_of(window.hull))?;
    push_truth(out, b",\"hole\":", !window.full)?;
    push_window_shares(out, b",\"shares\":", window)?;
    push_owners(out, b",\"pieces\":", window.owners.as_slice())?;
    out.push(b'}')?;
    Ok(())
}

/// Words, and how many bytes of a window each rank has.
fn push_window_shares(out: &mut Vec<u8>, words: &[u8], window: &WindowPlan) -> Result<(), Memory>
    ensures { OnOk result (out.new.items ≡ out.old.items ++ (words.now ++ array_of share_object (shares_in window.now.owners))) }
{
    let shares = shares_of(*out.allocator(), window.owners.as_slice())?;
    push_shares(out, words, shares.as_slice())
}

fn push_shares(out: &mut Vec<u8>, words: &[u8], shares: &[Share]) -> Result<(), Memory>
    ensures { OnOk result (out.new.items ≡ out.old.items ++ (words.now ++ array_of share_object shares.now)) }
{
    push_array(out, words, shares)
}

impl ArrayItem for Share {
    ghost value = { share_object };

    fn push_item(&self, out: &mut Vec<u8>) -> Result<(), Memory> {
        push_share(out, *self)
    }
}

fn push_share(out: &mut Vec<u8>, share: Share) -> Result<(), Memory>
    ensures { OnOk result (out.new.items ≡ out.old.items ++ share_object share) }
{
    push_numbered(out, b"{\"rank\":", u64::from(share.rank))?;
    push_numbered(out, b",\"bytes\":", share.bytes)?;
    out.push(b'}')?;
    Ok(())
}

fn push_owners(out: &mut Vec<u8>, words: &[u8], owners: &[Owner]) -> Result<(), Memory>
    ensures { OnOk result (out.new.items ≡ out.old.items ++ (words.now ++ array_of piece_array owners.now)) }
{
    push_array(out, words, owners)
}

impl ArrayItem for Owner {
    ghost value = { piece_array };

    fn push_item(&self, out: &mut Vec<u8>) -> Result<(), Memory> {
        push_owner(out, *self)
    }
}

fn push_owner(out: &mut Vec<u8>, owner: Owner) -> Result<(), Memory>
    ensures { OnOk result (out.new.items ≡ out.old.items ++ piece_array owner) }
{
    push_numbered(out, b"[", u64::from(owner.rank))?;
    push_numbered(out, b",", owner.extent.at)?;
    push_numbered(out, b",", end_of(owner.extent))?;
    out.push(b']')?;
    Ok(())
}
