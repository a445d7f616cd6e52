//! Collective puts on a disk in parts. Each part is handed to an aggregator, a helper of its own that stays for the whole run, and the
//! pieces of the puts go to it over a line, in a message for each rank and window.
#![tactic(auto)]

mod exchange;
mod handing;
mod helper;
mod in_turn;
mod laying;
mod message;
mod packing;
mod results;
mod sending;

pub use exchange::exchange_put;
pub use helper::{PutDuty, PutJob, PutLines, serve};
pub use laying::Due;
pub use message::{Cut, Message};
