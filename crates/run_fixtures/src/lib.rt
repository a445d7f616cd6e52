//! What crates of tests of the program have in common: a run over a disk, a source and a sink in memory, and what it leaves.
//!
//! The contract of the program's call is long, and a test looks at values. So the call stands here once, behind a function without a contract.
#![tactic(auto)]

mod outside;
mod run;

pub use outside::joined;
pub use run::{Ended, OLD, PLAIN, Run, end_of};

/// What a test says that has no memory.
pub const NO_MEMORY: &str = "no memory";
