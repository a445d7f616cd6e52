//! What a script that is read keeps. Each law is the contract of a function.
#![tactic(auto)]

ghost use Rattle.std.specs.Prelude.{◌≡◌, ℕ, ◌≤◌, List, length, true, false};
ghost use Rattle.nc_base.specs.declared.script.Script.{Script};
ghost use Rattle.serial_spec.specs.Lawful.{is_lawful, has_whole_attrs};
ghost use Rattle.var_layout.specs.Unplaced.{is_unplaced, has_writable_parts};
ghost use Rattle.script_spec.specs.ScriptDefinitions.{no_definition};
ghost use Rattle.script_spec.specs.ScriptGrammar.{Reads, header_of};

/// The header of a script for a new dataset keeps the limits, and its names, lengths, types and attributes fit their
/// fields (netCDF classic format specification, "The format in detail"), so that its variables can be placed.
pub fn header_law()
    ensures unplaced { (text : List ℕ) (s : Script) → Reads text s → s.fresh ≡ true → is_unplaced s.header ≡ true }
    ensures writable { (text : List ℕ) (s : Script) → Reads text s → s.fresh ≡ true → has_writable_parts s.header ≡ true }
{}

/// A script has a list of calls for each rank, alignments in bytes within their ranges, and no records; one for an
/// existing dataset has an empty header.
pub fn run_law()
    ensures ranks { (text : List ℕ) (s : Script) → Reads text s → length s.calls ≡ s.ranks }
    ensures header_align { (text : List ℕ) (s : Script) → Reads text s → (4 ≤ s.hints.header_align) × (s.hints.header_align ≤ 1048576) }
    ensures var_align { (text : List ℕ) (s : Script) → Reads text s → (4 ≤ s.hints.var_align) × (s.hints.var_align ≤ 1048576) }
    ensures records { (text : List ℕ) (s : Script) → Reads text s → s.header.records ≡ 0 }
    ensures opened { (text : List ℕ) (s : Script) → Reads text s → s.fresh ≡ false → s.header ≡ header_of 0 no_definition }
{}

/// A script keeps the limits and ranges of the script language, its ranks agree on the kinds of their collective calls,
/// and each of its attributes has the bytes of its values.
pub fn lawful_law()
    ensures lawful { (text : List ℕ) (s : Script) → Reads text s → is_lawful s ≡ true }
    ensures whole { (text : List ℕ) (s : Script) → Reads text s → has_whole_attrs s ≡ true }
{}
