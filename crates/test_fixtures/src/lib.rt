//! What crates of tests have in common: short lists, small headers, and requests for the elements of their variables.
//!
//! Only a test may end the process. So what wants memory answers a `Result` here, and the test says `.expect(rt, NO_MEMORY)`.
#![tactic(auto)]

mod headers;
mod lists;
mod requests;

pub use headers::{dimension, laid_out, one_variable, over_one, variable};
pub use lists::{list, one, two};
pub use requests::{Asked, has_whole_bytes, is_accepted, post, region};

/// What a test says that has no memory.
pub const NO_MEMORY: &str = "no memory";

/// What a test says of a header whose variables get no begins.
pub const NO_LAYOUT: &str = "no layout";
