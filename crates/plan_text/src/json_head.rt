// The JSON document of a plan.
ghost use Rattle.std.specs.Prelude.{◌≡◌, ◌<◌, ◌^◌, ◌++◌, ◌∷◌, IfOk, OnOk, true};
ghost use Rattle.serial_spec.specs.Layout.{slab};
ghost use Rattle.serial_spec.specs.SoundHeaders.{is_sound};
ghost use Rattle.script_spec.specs.HintTable.{hint_table};
ghost use Rattle.script_spec.specs.Texts.{joined, mark_word};
ghost use Rattle.hint_table.specs.HintNames.{form_of, row_of};
ghost use Rattle.step_plan.specs.Steps.{count_call};
ghost use Rattle.plan_text.specs.Json.{array_of, json_text};
ghost use Rattle.plan_text.specs.JsonHead.{dataset_object, hint_object, hint_value, variable_object};
ghost use Rattle.plan_text.specs.JsonPlan.{head_members, plan_json_of, plan_members};
ghost use Rattle.plan_text.specs.JsonSteps.{device_call};

use crate::head::{Document, push_mark};
use crate::json::{push_calls, push_comma, push_named, push_truth};
use crate::json_steps::push_steps;
use crate::json_sums::push_sums;
use hint_table::{HINTS, HintForm, HintName};
use nc_base::{Blob, DiskCall, Extent, Header, Mark, Memory, Script, Var};
use plan_sums::Sums;
use printed_text::words::{push_bytes, push_numbered, type_word};
use run_plan::RunPlan;
use std::alloc::Global;
use step_plan::StepPlan;
use var_layout::{header_len, is_record, recsize, slab_of};

/// The JSON document of a plan.
pub fn plan_json(alloc: Global, document: &Document) -> Result<Blob, Memory>
    requires { is_sound document.now.header.now ≡ true }
    ensures { IfOk result (λ text. text
        ≡ plan_json_of document.now.script.now document.now.header.now document.now.length document.now.plan.now document.now.sums.now) }
{
    let mut out = Vec::new(alloc);
    push_document(alloc, &mut out, document)?;
    Ok(Blob::from_vec(out))
}

fn push_document(alloc: Global, out: &mut Vec<u8>, document: &Document) -> Result<(), Memory>
    requires { is_sound document.now.header.now ≡ true }
    ensures { OnOk result (out.new.items ≡ out.old.items
        ++ plan_json_of document.now.script.now document.now.header.now document.now.length document.now.plan.now document.now.sums.now) }
{
    push_head(out, document)?;
    push_plan(alloc, out, document.script, document.plan, document.sums)?;
    push_bytes(out, b"}\n")?;
    Ok(())
}

/// What stands before what is done.
fn push_head(out: &mut Vec<u8>, document: &Document) -> Result<(), Memory>
    requires { is_sound document.now.header.now ≡ true }
    ensures { OnOk result (out.new.items ≡ out.old.items
        ++ 123 ∷ joined 44 (head_members document.now.script.now document.now.header.now document.now.length document.now.plan.now.steps)) }
{
    push_numbered(
        out,
        b"{\"plan\":1,\"ranks\":",
        u64::from(document.script.ranks),
    )?;
    push_bytes(out, b",\"order\":")?;
    push_order(out, document.plan.steps.as_slice())?;
    push_bytes(out, b",\n\"dataset\":")?;
    push_dataset(out, document.header, document.length)?;
    push_bytes(out, b",\n\"hints\":")?;
    push_hints(out, document.script)?;
    Ok(())
}

/// What is done, and its sums.
fn push_plan(
    alloc: Global,
    out: &mut Vec<u8>,
    script: &Script,
    plan: &RunPlan,
    sums: &Sums,
) -> Result<(), Memory>
    ensures { OnOk result (out.new.items ≡ out.old.items ++ 44 ∷ joined 44 (plan_members script.now plan.now sums.now)) }
{
    push_calls(out, b",\n\"opening\":", plan.opening.as_slice())?;
    push_bytes(out, b",\n\"steps\":")?;
    push_steps(alloc, out, script, plan)?;
    push_close(out, b",\n\"close\":", plan.close)?;
    push_bytes(out, b",\n\"sums\":")?;
    push_sums(out, sums)?;
    Ok(())
}

fn push_order(out: &mut Vec<u8>, steps: &[StepPlan]) -> Result<(), Memory>
    ensures { OnOk result (out.new.items ≡ out.old.items ++ array_of (λ step. json_text (mark_word step.mark)) steps.now) }
{
    out.push(b'[')?;
    for (number, step) in steps.iter().enumerate() {
        push_comma(out, number)?;
        push_mark_text(out, step.mark)?;
    }
    out.push(b']')?;
    Ok(())
}

/// A mark as a text.
pub(crate) fn push_mark_text(out: &mut Vec<u8>, mark: Mark) -> Result<(), Memory>
    ensures { OnOk result (out.new.items ≡ out.old.items ++ json_text (mark_word mark)) }
{
    out.push(b'"')?;
    push_mark(out, mark)?;
    out.push(b'"')?;
    Ok(())
}

fn push_dataset(out: &mut Vec<u8>, header: &Header, length: u64) -> Result<(), Memory>
    requires { is_sound header.now ≡ true }
    ensures { OnOk result (out.new.items ≡ out.old.items ++ dataset_object header.now length) }
{
    push_numbered(out, b"{\"version\":", u64::from(header.version))?;
    push_numbered(out, b",\"header\":", header_len(header))?;
    push_numbered(out, b",\"records\":", header.records)?;
    push_numbered(out, b",\"record_size\":", recsize(header))?;
    push_numbered(out, b",\"length\":", length)?;
    push_bytes(out, b",\"variables\":")?;
    push_variables(out, header)?;
    out.push(b'}')?;
    Ok(())
}

fn push_variables(out: &mut Vec<u8>, header: &Header) -> Result<(), Memory>
    requires { is_sound header.now ≡ true }
    ensures { OnOk result (out.new.items ≡ out.old.items ++ array_of (variable_object header.now) header.now.vars) }
{
    let vars = header.vars.as_slice();
    out.push(b'[')?;
    for (number, var) in vars.iter().enumerate() {
        push_comma(out, number)?;
        push_variable(out, header, var)?;
    }
    out.push(b']')?;
    Ok(())
}

fn push_variable(out: &mut Vec<u8>, header: &Header, var: &Var) -> Result<(), Memory>
    requires { slab header.now var.now < 2 ^ 62 }
    ensures { OnOk result (out.new.items ≡ out.old.items ++ variable_object header.now var.now) }
{
    push_named(out, b"{\"name\":", var.name.as_slice())?;
    push_named(out, b",\"type\":", type_word(var.kind))?;
    push_numbered(out, b",\"begin\":", var.begin)?;
    push_numbered(out, b",\"size\":", slab_of(header, var))?;
    push_truth(out, b",\"record\":", is_record(header, var))?;
    out.push(b'}')?;
    Ok(())
}

fn push_hints(out: &mut Vec<u8>, script: &Script) -> Result<(), Memory>
    ensures { OnOk result (out.new.items ≡ out.old.items ++ array_of (hint_object script.now) hint_table) }
{
    push_hints_named(out, &HINTS, script)
}

fn push_hints_named(out: &mut Vec<u8>, names: &[HintName], script: &Script) -> Result<(), Memory>
    ensures { OnOk result (out.new.items ≡ out.old.items ++ array_of (λ name. hint_object script.now (row_of name)) names.now) }
{
    out.push(b'[')?;
    for (number, name) in names.iter().enumerate() {
        push_comma(out, number)?;
        push_hint(out, *name, script)?;
    }
    out.push(b']')?;
    Ok(())
}

/// A hint in force, and its default.
fn push_hint(out: &mut Vec<u8>, name: HintName, script: &Script) -> Result<(), Memory>
    ensures { OnOk result (out.new.items ≡ out.old.items ++ hint_object script.now (row_of name)) }
{
    push_named(out, b"{\"name\":", name.word())?;
    push_value(out, b",\"value\":", name.form(), name.get(&script.hints))?;
    push_value(
        out,
        b",\"default\":",
        name.form(),
        u64::from(name.default(script.ranks)),
    )?;
    out.push(b'}')?;
    Ok(())
}

/// Words, and the value of a hint of this form.
fn push_value(out: &mut Vec<u8>, words: &[u8], form: HintForm, value: u64) -> Result<(), Memory>
    ensures { OnOk result (out.new.items ≡ out.old.items ++ (words.now ++ hint_value (form_of form) value)) }
{
    match form {
        HintForm::Within { .. } => push_numbered(out, words, value),
        HintForm::Either { zero, one } => push_named(
            out,
            words,
            if value == 1 { one } else { zero },
        ),
    }
}

/// Words, and the device calls after the last step.
fn push_close(out: &mut Vec<u8>, words: &[u8], close: Option<Extent>) -> Result<(), Memory>
    ensures { OnOk result (out.new.items ≡ out.old.items ++ (words.now ++ array_of device_call (count_call close))) }
{
    match close {
        None => push_calls(out, words, &[]),
        Some(field) => push_calls(out, words, &[DiskCall::Store(field.at, field.len)]),
    }
}
