//! Reads scripts: from the bytes of a text to the script that it spells, or its first fault and the line.
//!
//! The text is read once. Each reader promises what the definition of its words, its line or its part of a script gives.
#![tactic(auto)]

mod parts;
mod top;

pub use top::read_script;
