//! The program's top call, and the real source, sink and disk for it.
#![tactic(auto)]

mod made_run;
mod offsets;
mod report;
mod script_run;
mod top;
mod watched_run;
mod watcher;
mod watcher_lines;

pub use printed_text::{offsets_text, run_text};
pub use real_files::{FileDisk, StdSink, StdSource};
pub use top::{Outcome, ncrun};
