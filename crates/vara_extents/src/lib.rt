//! Regions of a variable: what a call asks for, when it is refused, and where its bytes lie.
//!
//! The forms are those of the PnetCDF library: `var1`, `var`, `vara`, `vars`, `varm` and `varn`. A region has one
//! start, count and stride for each dimension of its variable, in elements, the slowest dimension first.
#![tactic(auto)]

mod boxes;
mod causes;
mod forms;
mod laws;
mod needs;
mod parts;
mod runs;
mod walk;

pub use boxes::has_element;
pub use causes::{Ends, check};
pub use forms::widen;
pub use laws::{extents_law, writing_law};
pub use needs::{bytes_wanted, records_needed, variable};
pub use parts::{check_parts, elements_of_all, part_regions};
pub use walk::Extents;
