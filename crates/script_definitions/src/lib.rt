//! The lines of a script before its calls: ranks, hints, and the dimensions, variables and attributes that it defines or adds.
#![tactic(auto)]

mod added;
mod attributes;
mod defined;
mod dims;
mod draft;
mod hints;
mod titles;
mod vars;

pub use added::Additions;
pub use defined::Definitions;
pub use draft::Draft;
pub use hints::GivenHints;
