// The text of a plan: what stands before its steps.
ghost use Rattle.std.specs.Prelude.{◌≡◌, ◌++◌, ◌∷◌, ◌<◌, ◌^◌, IfOk, OnOk, codes, flat_map, map, true};
ghost use Rattle.serial_spec.specs.Layout.{slab};
ghost use Rattle.serial_spec.specs.SoundHeaders.{is_sound};
ghost use Rattle.script_spec.specs.HintTable.{hint_table, shown_value};
ghost use Rattle.script_spec.specs.Texts.{line, mark_word, text_line};
ghost use Rattle.hint_table.specs.HintNames.{form_of, row_of};
ghost use Rattle.printed_text.specs.Spaced.{spaced};
ghost use Rattle.step_plan.specs.Steps.{count_call};
ghost use Rattle.plan_text.specs.PlanTexts.{dataset_line, head_lines, hint_line, plan_text_of, size_words, variable_line};
ghost use Rattle.plan_text.specs.StepTexts.{counted, device_lines};

use crate::calls::{push_count, push_device_calls};
use crate::steps::push_steps;
use crate::sums::push_sums;
use crate::words::{push_bytes_of, push_counted};
use hint_table::{HINTS, HintForm, HintName};
use nc_base::{Blob, DiskCall, Header, Mark, Memory, Script, Var};
use plan_sums::Sums;
use printed_text::words::{push_bytes, push_decimal, push_numbered, push_word, type_word};
use run_plan::RunPlan;
use std::alloc::Global;
use step_plan::StepPlan;
use var_layout::{header_len, is_record, recsize, slab_of};

/// A plan with its script, and its dataset when the ranks begin: the header, and how many bytes the file has.
#[derive(Clone, Copy)]
pub struct Document<'a> {
    pub script: &'a Script,
    pub header: &'a Header,
    pub length: u64,
    pub plan: &'a RunPlan,
    pub sums: &'a Sums,
}

/// The text of a plan.
pub fn plan_text(alloc: Global, document: &Document) -> Result<Blob, Memory>
    requires { is_sound document.now.header.now ≡ true }
    ensures { IfOk result (λ text. text ≡ plan_text_of document.now.script.now document.now.header.now document.now.length document.now.plan.now document.now.sums.now) }
{
    let mut out = Vec::new(alloc);
    push_document(&mut out, document)?;
    Ok(Blob::from_vec(out))
}

fn push_document(out: &mut Vec<u8>, document: &Document) -> Result<(), Memory>
    requires { is_sound document.now.header.now ≡ true }
    ensures { OnOk result (out.new.items ≡ out.old.items
        ++ plan_text_of document.now.script.now document.now.header.now document.now.length document.now.plan.now document.now.sums.now) }
{
    push_head(out, document)?;
    push_opening(out, document.plan.opening.as_slice())?;
    push_steps(out, document.script, document.plan)?;
    push_close(out, document.plan)?;
    push_sums(out, document.sums)?;
    Ok(())
}

fn push_head(out: &mut Vec<u8>, document: &Document) -> Result<(), Memory>
    requires { is_sound document.now.header.now ≡ true }
    ensures { OnOk result (out.new.items ≡ out.old.items ++ head_lines document.now.script.now document.now.header.now document.now.length document.now.plan.now.steps) }
{
    push_title(out, document.script.ranks)?;
    push_order(out, document.plan.steps.as_slice())?;
    push_dataset(out, document.header, document.length)?;
    push_variables(out, document.header)?;
    push_hints(out, document.script)?;
    Ok(())
}

fn push_title(out: &mut Vec<u8>, ranks: u32) -> Result<(), Memory>
    ensures { OnOk result (out.new.items ≡ out.old.items ++ text_line (codes "plan of " ++ counted (codes "rank") ranks)) }
{
    push_bytes(out, b"plan of ")?;
    push_counted(out, u64::from(ranks), b"rank")?;
    out.push(b'\n')?;
    Ok(())
}

fn push_order(out: &mut Vec<u8>, steps: &[StepPlan]) -> Result<(), Memory>
    ensures { OnOk result (out.new.items ≡ out.old.items ++ line (codes "order" ∷ map (λ step. mark_word step.mark) steps.now)) }
{
    push_bytes(out, b"order")?;
    push_marks(out, steps)?;
    out.push(b'\n')?;
    Ok(())
}

#[tactic(auto, using(printed_text::proofs::WordLaws::spaced_more))]
fn push_marks(out: &mut Vec<u8>, steps: &[StepPlan]) -> Result<(), Memory>
    ensures { OnOk result (out.new.items ≡ out.old.items ++ spaced (map (λ step. mark_word step.mark) steps.now)) }
{
    for step in steps {
        push_next_mark(out, step.mark)?;
    }
    Ok(())
}

// A blank and a mark.
fn push_next_mark(out: &mut Vec<u8>, mark: Mark) -> Result<(), Memory>
    ensures { OnOk result (out.new.items ≡ out.old.items ++ 32 ∷ mark_word mark) }
{
    out.push(b' ')?;
    push_mark(out, mark)
}

/// The mark of a step, as a run prints it.
pub(crate) fn push_mark(out: &mut Vec<u8>, mark: Mark) -> Result<(), Memory>
    ensures { OnOk result (out.new.items ≡ out.old.items ++ mark_word mark) }
{
    match mark {
        Mark::Meet(meeting) => push_numbered(out, b"m", u64::from(meeting)),
        Mark::Solo(rank, call) => {
            push_numbered(out, b"s", u64::from(rank))?;
            push_numbered(out, b".", u64::from(call))
        }
    }
}

fn push_dataset(out: &mut Vec<u8>, header: &Header, length: u64) -> Result<(), Memory>
    requires { is_sound header.now ≡ true }
    ensures { OnOk result (out.new.items ≡ out.old.items ++ dataset_line header.now length) }
{
    push_numbered(out, b"dataset CDF-", u64::from(header.version))?;
    push_bytes_of(out, b", header ", header_len(header))?;
    push_numbered(out, b", records ", header.records)?;
    push_numbered(out, b", record size ", recsize(header))?;
    push_numbered(out, b", length ", length)?;
    out.push(b'\n')?;
    Ok(())
}

fn push_variables(out: &mut Vec<u8>, header: &Header) -> Result<(), Memory>
    requires { is_sound header.now ≡ true }
    ensures { OnOk result (out.new.items ≡ out.old.items ++ flat_map (variable_line header.now) header.now.vars) }
{
    let vars = header.vars.as_slice();
    for var in vars {
        push_variable(out, header, var)?;
    }
    Ok(())
}

fn push_variable(out: &mut Vec<u8>, header: &Header, var: &Var) -> Result<(), Memory>
    requires { slab header.now var.now < 2 ^ 62 }
    ensures { OnOk result (out.new.items ≡ out.old.items ++ variable_line header.now var.now) }
{
    push_bytes(out, b"variable ")?;
    push_bytes(out, var.name.as_slice())?;
    push_word(out, type_word(var.kind))?;
    push_numbered(out, b" at ", var.begin)?;
    push_bytes(out, b", ")?;
    push_size(out, header, var)?;
    out.push(b'\n')?;
    Ok(())
}

fn push_size(out: &mut Vec<u8>, header: &Header, var: &Var) -> Result<(), Memory>
    requires { slab header.now var.now < 2 ^ 62 }
    ensures { OnOk result (out.new.items ≡ out.old.items ++ size_words header.now var.now) }
{
    push_counted(out, slab_of(header, var), b"byte")?;
    if is_record(header, var) {
        push_bytes(out, b" a record")?;
    }
    Ok(())
}

fn push_hints(out: &mut Vec<u8>, script: &Script) -> Result<(), Memory>
    ensures { OnOk result (out.new.items ≡ out.old.items ++ flat_map (hint_line script.now) hint_table) }
{
    push_each_hint(out, &HINTS, script)
}

fn push_each_hint(out: &mut Vec<u8>, names: &[HintName], script: &Script) -> Result<(), Memory>
    ensures { OnOk result (out.new.items ≡ out.old.items ++ flat_map (λ name. hint_line script.now (row_of name)) names.now) }
{
    for name in names {
        push_hint(out, *name, script)?;
    }
    Ok(())
}

// A hint in force, and its default.
fn push_hint(out: &mut Vec<u8>, name: HintName, script: &Script) -> Result<(), Memory>
    ensures { OnOk result (out.new.items ≡ out.old.items ++ hint_line script.now (row_of name)) }
{
    push_bytes(out, b"hint")?;
    push_word(out, name.word())?;
    push_value(out, name.form(), name.get(&script.hints))?;
    push_bytes(out, b" default")?;
    push_value(out, name.form(), u64::from(name.default(script.ranks)))?;
    out.push(b'\n')?;
    Ok(())
}

// A blank, and the value of a hint of this form.
fn push_value(out: &mut Vec<u8>, form: HintForm, value: u64) -> Result<(), Memory>
    ensures { OnOk result (out.new.items ≡ out.old.items ++ 32 ∷ shown_value (form_of form) value) }
{
    match form {
        HintForm::Within { .. } => push_numbered(out, b" ", value),
        HintForm::Either { zero, one } => push_word(out, if value == 1 { one } else { zero }),
    }
}

fn push_opening(out: &mut Vec<u8>, calls: &[DiskCall]) -> Result<(), Memory>
    ensures { OnOk result (out.new.items ≡ out.old.items ++ (text_line (codes "opening") ++ device_lines (codes "  ") calls.now)) }
{
    push_bytes(out, b"opening\n")?;
    push_device_calls(out, b"  ", calls)?;
    Ok(())
}

fn push_close(out: &mut Vec<u8>, plan: &RunPlan) -> Result<(), Memory>
    ensures { OnOk result (out.new.items ≡ out.old.items ++ (text_line (codes "close") ++ device_lines (codes "  ") (count_call plan.now.close))) }
{
    push_bytes(out, b"close\n")?;
    push_count(out, plan.close)?;
    Ok(())
}
