//! Between the values of a call in memory and the bytes of its request.
//!
//! The elements of a request go in row-major order. Memory that is not packed has them by an index map, which counts
//! values of memory (PnetCDF C API reference, the form `varm`). Where two elements have one position of memory, the
//! later one stands there after a read; that is our choice.
#![tactic(auto)]

mod blocks;
mod decoding;
mod packing;
mod positions;
mod runs;
mod unpacking;
mod words;

pub use packing::{pack, push_value, room_for};
pub use unpacking::unpack;
