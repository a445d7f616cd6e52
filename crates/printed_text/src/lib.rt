//! What the program prints, as bytes: the text of a run, where the variables of a dataset lie, and the lines that tell a fault.
//!
//! A text under way is a vector of bytes. A call that pushes to it adds the bytes of one definition at its end; after want
//! of memory what it added is left open. Each text is linear in what it tells: digits of values are found by an index of
//! names and ids.
#![tactic(auto)]

mod digits;
pub mod dimensions;
mod faults;
mod offsets;
mod runs;
pub mod words;

pub use faults::{disk_line, header_line, layout_line, redef_line, script_line, usage_line};
pub use offsets::offsets_text;
pub use runs::run_text;
