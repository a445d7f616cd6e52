//! How far a run has come, on a terminal: one line of standard error, which is written over as the run goes on, and cleared at its end.
//!
//! A source and a sink keep the line right, and are else those that they are given. The line claims nothing, and changes no answer.
#![tactic(auto)]

mod clearing_sink;
mod counted_source;
mod progress;

pub use clearing_sink::ClearingSink;
pub use counted_source::CountedSource;
pub use progress::Progress;
