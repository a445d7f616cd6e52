//! The values of a call or of an attribute, and the regions of a call, as the words of a line say them.
#![tactic(auto)]

mod fits;
mod limits;
pub mod regions;
mod sequences;
pub mod values;
