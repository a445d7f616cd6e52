//! Where the header, the variables and the elements of a file lie (netCDF classic format specification,
//! "Computing file offsets").
//!
//! No call here takes memory. A variable is named by its place in the header's list, from 0. All sizes and places
//! are in bytes. What a call reads bounds what it costs: nothing of it for `record_limit`, the whole header for `header_len`, `file_end`, `end_of` and
//! `Measures::of`, all variables for `measure`, `first_large`, `lay_out`, `is_lone`, `recsize` and `place`, one variable for
//! `keeps_bound`, `record_share`, `slab` and `vsize`. With the [`Measures`] of a header, which a run takes once, `recsize` and
//! the end of a file cost no walk.
#![tactic(auto)]

mod begins;
mod bounds;
pub mod capped;
mod elements;
mod end;
mod measures;
mod names;
mod record;
mod sizes;
mod written;

pub use begins::{first_large, lay_out};
pub use bounds::{keeps_bound, measure};
pub use elements::{elements_lie_apart, place};
pub use end::{end_of, file_end, sound_files_end};
pub use measures::Measures;
pub use names::{find_dim, find_var};
pub use record::{is_lone, record_limit, record_share, recsize, recsize_of};
pub use sizes::{is_record, length_of, slab, slab_of, variable_at, vsize, vsize_of};
pub use written::header_len;
