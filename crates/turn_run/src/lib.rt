//! The run of all ranks in turn, on one thread, and what a run on threads shares with it: a rank's way through its calls, a meeting
//! of all, the step of one rank alone, and the end by the ends of all ranks.
#![tactic(auto)]

mod halves;
mod in_turn;
mod lent;
mod mark;
mod meeting;
mod rank_ends;
mod runners;
mod solo;

pub use in_turn::{all_hold, run_in_turn, run_in_turn_told, runners_of};
pub use mark::note_step;
pub use meeting::{add_offer, hear_all, known_by, meet_on_file, take_job};
pub use rank_ends::{end_run, stopped};
pub use runners::{Runner, own_calls};
pub use solo::{solo_reply, told_pair};
