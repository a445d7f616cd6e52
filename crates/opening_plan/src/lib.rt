//! The plan of what comes before the ranks begin: a dataset that is created, opened, or redefined. Nothing is read or written.
#![tactic(auto)]

mod fills;
mod moving;
mod opening;
mod stores;
mod zeros;

pub use opening::{open_existing, open_fresh};
