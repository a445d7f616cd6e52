//! The calls of a script, rank by rank, and whether the ranks agree on their collective ones.
#![tactic(auto)]

mod accesses;
mod call_table;
mod calls;
pub mod mismatch;
mod rank_calls;

pub use call_table::RankTable;
