//! Fill values: those of the variables, the share of a record that a rank fills, and the filling of a new dataset (netCDF classic
//! format specification, the default fill values of its types and the attribute `_FillValue`).
#![tactic(auto)]

mod box_parts;
mod shares;
mod slabs;
mod values;

pub use shares::{boxes, share};
pub use slabs::prefill;
pub use values::fill_value;
