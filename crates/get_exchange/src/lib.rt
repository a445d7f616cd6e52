//! Collective gets on a disk in parts. Each part is handed to an aggregator, a helper of its own that stays for the whole run, which reads
//! the hulls of its windows. They come from it over a line, and the calling thread copies the bytes out of them.
#![tactic(auto)]

mod buffers;
mod collecting;
mod exchange;
mod handing;
mod helper;
mod in_turn;
mod reading;
mod results;
mod shelf;
mod walk;

pub use exchange::exchange_get;
pub use helper::{GetDuty, GetJob, GetLines, serve};
pub use reading::Reading;
