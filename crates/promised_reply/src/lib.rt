//! A reply between two threads: one end gives one item, which keeps a promise that was named when the reply was opened, and the other
//! waits for it and knows so. It is a promised join without the end of a thread, so one thread can answer again and again.
//! The choice of these calls is this project's own; the channel below is `crossbeam_channel`'s bounded one, the promise is std's `Promise`.
#![tactic(auto)]

mod reply_ends;
mod reply_rule;

pub use reply_ends::{Answer, Awaited, reply};
