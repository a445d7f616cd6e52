//! The plan of a run: what its ranks' steps do to the file, in turn, and the close. Nothing is read or
//! written, and no value of a variable is asked for: the ranks hear zeros.
#![tactic(auto)]

mod ranks;
mod run;
mod steps;

pub use run::{Opening, RunPlan, plan_run};
