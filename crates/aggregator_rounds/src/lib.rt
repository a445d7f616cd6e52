//! The windows of an aggregator, and what is laid into one or collected out of one.
//!
//! A window is read over its hull, from its first covered byte to its last, overlaid, and written; where it has no hole it is only
//! written. What is laid into it are the parts of entries that lie in its hull; of a get such parts are collected out of it. A walk over sorted entries knows which of them a window has: `Unserved` has those that are left when the windows before it
//! were served.
#![tactic(auto)]

mod entry;
mod round;
mod unserved;

pub use entry::{collect_entry, end_of, lay_entry};
pub use round::{close_window, get_window, open_window};
pub use unserved::{Unserved, begins_before, ends_by};
