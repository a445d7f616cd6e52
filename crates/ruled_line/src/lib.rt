//! Lines and inboxes between threads, whose ends know what was put and what was taken.
//!
//! A line carries items from one end to another, in order. An inbox has one sending end for each of its senders and one receiving end, which learns the number of
//! each item's sender. An end belongs to one thread at a time. What other threads do with the other ends shows only when two ends meet: `settle` and `settle_from`.
//! The choice of these calls is this project's own; the channel below is `crossbeam_channel`'s bounded one.
#![tactic(auto)]

mod inbox_ends;
mod inbox_rule;
mod line_ends;
mod line_list;
mod line_rule;

pub use inbox_ends::{InPut, InPutList, InTake, inbox, settle_from};
pub use line_ends::{LinePut, LineTake, line, settle};
pub use line_list::LinePutList;

/// How often whoever waits looks for what is to come before it sleeps. Between two looks other threads may run. What comes within a few
/// microseconds is found so, and nobody has to wake a thread for it. (own)
pub const LOOKS: u32 = 32;
