//! The real source, sink and disk: standard input, standard output, and a file of the system.
#![tactic(auto)]

mod faults;
mod file_disk;
mod std_sink;
mod std_source;
mod streams;

pub use file_disk::FileDisk;
pub use std_sink::StdSink;
pub use std_source::StdSource;
