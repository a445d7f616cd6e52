//! The division of a collective step's bytes among aggregators, and the windows of one aggregator.
#![tactic(auto)]

mod domain;
mod walk;

pub use domain::cut;
pub use walk::{Window, WindowWalk, windows};
