//! A script by its spelling: what a right text of a script is, apart from the way in which a text is read.
#![tactic(auto)]

ghost use Rattle.std.specs.Prelude.{◌≡◌, ℕ, List, Some, None};
ghost use Rattle.nc_base.specs.declared.errors.ScriptErr.{ScriptErr};
ghost use Rattle.nc_base.specs.declared.script.Script.{Script};
ghost use Rattle.script_spec.specs.ScriptGrammar.{Reads, script_fault};
ghost use Rattle.script_spelling.specs.Spelling.{Spells};

pub mod worked_lines;

/// A text that is read as a script spells it.
pub fn spelled_law()
    ensures { (text : List ℕ) (script : Script) → Reads text script → Spells text script }
{}

/// A text that spells a script is read as it: what is read is what is rightly spelled, a text spells one script at most, and
/// what is refused is no script's spelling.
pub fn read_law()
    ensures read { (text : List ℕ) (script : Script) → Spells text script → Reads text script }
    ensures one { (text : List ℕ) (s t : Script) → Spells text s → Spells text t → s ≡ t }
    ensures accepted { (text : List ℕ) → script_fault text ≡ None → (script : Script) × Spells text script }
    ensures refused { (text : List ℕ) (e : ScriptErr) → script_fault text ≡ Some e → (script : Script) → Spells text script → ⊥ }
{}
