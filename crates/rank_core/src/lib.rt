//! One rank of a parallel program: what it answers by itself, what it offers to the owner of the file, and what it answers to a
//! reply (PnetCDF C API reference). Nothing here waits.
#![tactic(auto)]

mod calls;
mod changes;
mod fit;
mod heard_reply;
mod look;
mod names;
mod open_offer;
mod own_answers;
mod rank;

pub use names::Names;
pub use rank::Rank;
