//! The run of all ranks, each on a thread of its own: a rank's side, the threads, and the run that joins them with the owner of the file.
#![tactic(auto)]

mod lent;
mod rank_handle;
mod rank_side;
mod rank_threads;
mod returned;

pub use rank_side::attend;
pub use rank_threads::{run_ranks, run_ranks_told};
