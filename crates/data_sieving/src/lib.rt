//! Independent puts and gets by data sieving: sorted entries are served window by window, through one buffer.
//!
//! A window begins at the first covered byte that is not yet served and is as long as the buffer. It is served over its hull,
//! from its first covered byte to its last, by one read at most and one write (Thakur, Gropp and Lusk, "Data Sieving and
//! Collective I/O in ROMIO", 1999, section 4).
#![tactic(auto)]

mod get;
mod put;
mod walk;

pub use get::sieve_get;
pub use put::sieve_put;
pub use walk::{SieveWalk, SieveWindow};
