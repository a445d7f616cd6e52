// The canonical text of a script.
ghost use Rattle.std.specs.Prelude.{◌≡◌, ◌≢◌, ◌≤◌, ◌++◌, ◌∷◌, [], true, IfErr, IfOk, OnOk, Some, if◌then◌else◌, codes, decimal, flat_map, length};
ghost use Rattle.nc_base.specs.declared.errors.ScriptKind.TheVariants as kind;
ghost use Rattle.nc_base.specs.declared.script.Script.{Script};
ghost use Rattle.serial_spec.specs.Lawful.{has_whole_attrs};
ghost use Rattle.script_spec.specs.ScriptGrammar.{Reads, most_bytes, most_lines, script_fault};
ghost use Rattle.script_spec.specs.ScriptWords.{text_lines};
ghost use Rattle.script_spec.specs.Texts.{line};
ghost use Rattle.script_spec.specs.HintTable.{shown_value};
ghost use Rattle.script_spec.specs.Shown.{shown, shown_hint, shown_hints};
ghost use Rattle.hint_table.specs.HintNames.{form_of, row_of};

use crate::calls::push_ranks;
use crate::definitions::{push_definitions, push_extras};
use hint_table::{HINTS, HintForm, HintName};
use nc_base::{Blob, Hints, Memory, Script, ScriptErr, ScriptKind};
use ncmpi_script::read_script;
use printed_text::words::{push_bytes, push_number_line, push_numbered, push_word};
use std::alloc::Global;

/// The canonical text of a script: one blank between words, its hints in the order of their table, the lines that an
/// existing dataset is to get, dimensions, variables, attributes, and the calls of rank 0, then of rank 1 and so on.
/// Values are written out, bits with 16 digits. The choice of this form is ours.
///
/// Each attribute has the bytes of its count. `Memory`: want of memory.
pub fn print_script(alloc: Global, script: &Script) -> Result<Blob, Memory>
    requires { has_whole_attrs script.now ≡ true }
    ensures { IfOk result (λ text. text ≡ shown script.now) }
{
    let mut out = Vec::new(alloc);
    push_opening(&mut out, script)?;
    push_extras(&mut out, script.extra.as_slice())?;
    push_definitions(&mut out, &script.header)?;
    push_bytes(&mut out, b"data\n")?;
    push_ranks(&mut out, script.calls.as_slice())?;
    push_bytes(&mut out, b"end\n")?;
    Ok(Blob::from_vec(out))
}

/// The canonical text of the script that a text spells: one blank between words, no remark, every hint, and every value
/// written out. It is read as the same script, unless it is longer than a text may be. The choice of this form is ours.
///
/// An error is the first fault of the text with its line, or want of memory.
pub fn canonical_text(alloc: Global, text: &[u8]) -> Result<Blob, ScriptErr>
    ensures printed { IfOk result (λ out. (script : Script) × Reads text.now script × (out ≡ shown script)) }
    ensures again { IfOk result (λ out. length out ≤ most_bytes → length (text_lines out) ≤ most_lines
        → (script : Script) × Reads text.now script × Reads out script) }
    ensures fault { IfErr result (λ e. e.kind ≢ kind.Memory → script_fault text.now ≡ Some e) }
{
    let script = read_script(alloc, text)?;
    match print_script(alloc, &script) {
        Ok(out) => Ok(out),
        Err(_) => Err(ScriptErr {
            line: 1,
            kind: ScriptKind::Memory,
        }),
    }
}

/// The lines before the definitions.
fn push_opening(out: &mut Vec<u8>, script: &Script) -> Result<(), Memory>
    ensures { OnOk result (out.new.items ≡ out.old.items
        ++ ((if script.now.fresh then line (codes "create" ∷ decimal script.now.header.version ∷ []) else line (codes "open" ∷ []))
        ++ line (codes "ranks" ∷ decimal script.now.ranks ∷ []) ++ shown_hints script.now.hints
        ++ (if script.now.filled then line (codes "fill" ∷ []) else []))) }
{
    push_head(out, script)?;
    push_number_line(out, b"ranks ", u64::from(script.ranks))?;
    push_hints(out, &script.hints)?;
    push_fill(out, script.filled)?;
    Ok(())
}

fn push_head(out: &mut Vec<u8>, script: &Script) -> Result<(), Memory>
    ensures { OnOk result (out.new.items ≡ out.old.items
        ++ (if script.now.fresh then line (codes "create" ∷ decimal script.now.header.version ∷ []) else line (codes "open" ∷ []))) }
{
    if script.fresh {
        push_number_line(out, b"create ", u64::from(script.header.version))
    } else {
        push_bytes(out, b"open\n")
    }
}

fn push_fill(out: &mut Vec<u8>, filled: bool) -> Result<(), Memory>
    ensures { OnOk result (out.new.items ≡ out.old.items ++ (if filled then line (codes "fill" ∷ []) else [])) }
{
    if filled {
        push_bytes(out, b"fill\n")
    } else {
        Ok(())
    }
}

fn push_hints(out: &mut Vec<u8>, hints: &Hints) -> Result<(), Memory>
    ensures { OnOk result (out.new.items ≡ out.old.items ++ shown_hints hints.now) }
{
    push_each_hint(out, &HINTS, hints)
}

fn push_each_hint(out: &mut Vec<u8>, names: &[HintName], hints: &Hints) -> Result<(), Memory>
    ensures { OnOk result (out.new.items ≡ out.old.items ++ flat_map (λ name. shown_hint hints.now (row_of name)) names.now) }
{
    for name in names {
        push_hint(out, *name, hints)?;
    }
    Ok(())
}

fn push_hint(out: &mut Vec<u8>, name: HintName, hints: &Hints) -> Result<(), Memory>
    ensures { OnOk result (out.new.items ≡ out.old.items ++ shown_hint hints.now (row_of name)) }
{
    push_bytes(out, b"hint")?;
    push_word(out, name.word())?;
    push_value(out, name.form(), name.get(hints))?;
    push_bytes(out, b"\n")?;
    Ok(())
}

/// A blank and the value of a hint of this form.
fn push_value(out: &mut Vec<u8>, form: HintForm, value: u64) -> Result<(), Memory>
    ensures { OnOk result (out.new.items ≡ out.old.items ++ 32 ∷ shown_value (form_of form) value) }
{
    match form {
        HintForm::Within { .. } => push_numbered(out, b" ", value),
        HintForm::Either { zero, one } => push_word(out, if value == 1 { one } else { zero }),
    }
}
