//! The external forms of values: how the bytes of a file stand for them.
//!
//! Numbers are big-endian, whole numbers in two's complement (netCDF classic format specification, CDF-5). That
//! floats and doubles are moved as bit patterns, and are never numbers, is our choice.
#![tactic(auto)]

mod big_endian;
mod bytes;
mod codes;
mod counts;
mod decoding;
mod encoding;
mod kinds;
mod sizes;

pub use big_endian::push_code;
pub use codes::code_of;
pub use counts::element_count;
pub use decoding::decode_one;
pub use encoding::{encode_into, round_trip};
pub use kinds::kind_fits;
pub use sizes::size_of;
