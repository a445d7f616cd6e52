//! The canonical text of a script, which is read as that script again: of one that was read, of a text, and of one that is made from a seed.
#![tactic(auto)]

ghost use Rattle.std.specs.Prelude.{◌≡◌, ◌≤◌, ℕ, List, length, true};
ghost use Rattle.nc_base.specs.declared.script.Script.{Script};
ghost use Rattle.serial_spec.specs.Lawful.{is_lawful};
ghost use Rattle.script_spec.specs.ScriptWords.{text_lines};
ghost use Rattle.script_spec.specs.ScriptGrammar.{Reads, most_bytes, most_lines};
ghost use Rattle.script_spec.specs.Shown.{shown};
ghost use Rattle.script_text.specs.Expressible.{is_expressible, printed_lines};

mod calls;
mod canonical;
mod definitions;
mod made;

pub use canonical::{canonical_text, print_script};
pub use made::{made_text, made_text_law};

/// What is printed of a script that some text spells is read as the same script, unless the printed text is longer than
/// a text may be.
pub fn shown_law()
    ensures { (text : List ℕ) (script : Script) → Reads text script → length (shown script) ≤ most_bytes
        → length (text_lines (shown script)) ≤ most_lines → Reads (shown script) script }
{}

/// What is printed of a lawful script for a new dataset without attributes, whose names are names of the language and
/// whose ids, bits and texts fit their words, is read as that script, unless the printed text has more bytes or lines than
/// a text may have.
pub fn expressed_law()
    ensures { (script : Script) → is_lawful script ≡ true → is_expressible script ≡ true → length (shown script) ≤ most_bytes
        → printed_lines script ≤ most_lines → Reads (shown script) script }
{}
