//! What the words of the command line ask for, as clap reads them.
#![tactic(auto)]

mod command;

pub use command::{Form, form_of};
