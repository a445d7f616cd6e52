//! Readings of a run beside it: a board is told of each step, and views read how far the run has come, without waiting.
//!
//! Views read one of two copies while the board writes the other, which `left_right` keeps apart and swaps. That a reading is the summary of a
//! beginning of what the board was told is the rule of the board, at every moment. The choice of these calls is this project's own.
#![tactic(auto)]

mod board;
mod rule;
mod view;

pub use board::{Board, watch};
pub use view::{Note, View};

/// Each mark that was told, with the record count after it.
pub type ToldList = nc_base::Items<(nc_base::Mark, u64)>;

pub type ViewList = nc_base::Items<View>;
