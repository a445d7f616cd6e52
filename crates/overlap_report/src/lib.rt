//! The entries of a step: sorted, what they cover, and what they share.
#![tactic(auto)]

mod dealt;
mod holders;
mod joined;
mod serial;
mod shared;
mod sorted;

pub use joined::cover;
pub use serial::resolve;
pub use shared::first_pair;
pub use sorted::gather;
