//! A run that is made from a seed: its script, and the text that sums it up.
//!
//! Eight ranks put two variables over a grid of 180 rows and 360 columns, one record after another, each rank a band of
//! rows by way of its attached buffer; then each reads one column of every record back.
#![tactic(auto)]

ghost use Rattle.std.specs.Prelude.{◌≡◌, ℕ, ◌≤◌, IfOk, None, length, true};
ghost use Rattle.serial_spec.specs.Lawful.{has_whole_attrs, is_lawful};
ghost use Rattle.serial_spec.specs.Redefinition.{layout_fault};
ghost use Rattle.var_layout.specs.Unplaced.{has_writable_parts, is_unplaced};
ghost use Rattle.script_spec.specs.Generator.{has_counts, made_script};

mod bands;
mod calls;
mod definitions;
mod elements;
mod refusals;
mod summary;
mod sums;

use crate::calls::made_calls;
use crate::definitions::{HINTS, RANKS, made_header};
use nc_base::{ExtraList, Memory, Script};
use std::alloc::Global;
pub use summary::summary_text;

/// The script that the seed makes, with so many records.
pub fn make_script(alloc: Global, seed: u64, size: u32) -> Result<Script, Memory>
    requires some { 1 ≤ size }
    requires few { size ≤ 64 }
    ensures { IfOk result (λ script. script ≡ made_script seed size) }
{
    Ok(Script {
        fresh: true,
        header: made_header(alloc)?,
        ranks: RANKS,
        hints: HINTS,
        filled: false,
        extra: ExtraList::new(alloc),
        calls: made_calls(alloc, seed, size)?,
    })
}

/// The made script is lawful as one that is read is, its header gets places, and its regions give their counts.
pub fn made_law()
    ensures lawful { (seed size : ℕ) → 1 ≤ size → size ≤ 64 → is_lawful (made_script seed size) ≡ true }
    ensures whole { (seed size : ℕ) → has_whole_attrs (made_script seed size) ≡ true }
    ensures unplaced { (seed size : ℕ) → is_unplaced (made_script seed size).header ≡ true }
    ensures writable { (seed size : ℕ) → has_writable_parts (made_script seed size).header ≡ true }
    ensures laid { (seed size : ℕ) → layout_fault (made_script seed size).header (record { header = (made_script seed size).hints.header_align; var = (made_script seed size).hints.var_align }) ≡ None }
    ensures ranks { (seed size : ℕ) → length (made_script seed size).calls ≡ (made_script seed size).ranks }
    ensures header_align { (seed size : ℕ) → (4 ≤ (made_script seed size).hints.header_align) × ((made_script seed size).hints.header_align ≤ 1048576) }
    ensures var_align { (seed size : ℕ) → (4 ≤ (made_script seed size).hints.var_align) × ((made_script seed size).hints.var_align ≤ 1048576) }
    ensures counted { (seed size : ℕ) → has_counts (made_script seed size) ≡ true }
    ensures records { (seed size : ℕ) → (made_script seed size).header.records ≡ 0 }
{}
