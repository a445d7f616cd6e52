// The text of the script that is made from a seed, which is read as that script again.
ghost use Rattle.std.specs.Prelude.{◌≡◌, ℕ, ◌≤◌, ◌<◌, IfOk, length};
ghost use Rattle.script_spec.specs.Generator.{made_script};
ghost use Rattle.script_spec.specs.ScriptGrammar.{Reads, most_bytes};
ghost use Rattle.script_spec.specs.Shown.{shown};

use crate::canonical::print_script;
use generated_run::make_script;
use nc_base::{Blob, Memory};
use std::alloc::Global;

/// The canonical text of the script that the seed makes, with so many records. One of at most 40 records is read as that
/// script; one of 53 or more is longer than a text may be, since each value is written out.
///
/// `Memory`: want of memory.
#[tactic(auto, using(crate::proofs::MadeText::made_whole))]
pub fn made_text(alloc: Global, seed: u64, size: u32) -> Result<Blob, Memory>
    requires some { 1 ≤ size }
    requires few { size ≤ 64 }
    ensures shown { IfOk result (λ text. text ≡ shown (made_script seed size)) }
    ensures read { IfOk result (λ text. size ≤ 40 → Reads text (made_script seed size)) }
{
    let script = make_script(alloc, seed, size)?;
    print_script(alloc, &script)
}

/// What is printed of a made script is read as it, as long as it is no longer than a text may be.
pub fn made_text_law()
    ensures read { (seed size : ℕ) → size ≤ 64 → length (shown (made_script seed size)) ≤ most_bytes → Reads (shown (made_script seed size)) (made_script seed size) }
    ensures short { (seed size : ℕ) → size ≤ 40 → length (shown (made_script seed size)) ≤ most_bytes }
    ensures long { (seed size : ℕ) → 53 ≤ size → size ≤ 64 → most_bytes < length (shown (made_script seed size)) }
{}
