//! What the puts and the gets of an exchange stand on: what each is lent, the windows of a part with their entries, whose window is next,
//! and helpers, from the part that one is handed to what comes back of it.
//!
//! A helper goes over the windows that stand in its job, and the caller over the same ones. So both know how many items go over a line,
//! and nobody has to say where it ends.
#![tactic(auto)]

mod errand;
mod plan;
mod rounds;
mod shared_job;
mod shares;
mod spares;
mod walk;

pub use errand::{Errand, PartBack, PartEnds};
pub use plan::{Aggregator, GetPlan, PutPlan, Team, Tools};
pub use rounds::{InRounds, first_in_turn};
pub use shared_job::SharedJob;
pub use shares::{
    STACK_SIZE, Served, Shares, add_handed, aggregator_at, make_rooms, next_aggregator,
};
pub use spares::{Spares, resize_by_blocks};
pub use walk::{Turn, TurnWalk, domain_windows, next_window, window_list};
