//! Redefinition of an existing dataset, as by `open`, `redef`, definitions and `enddef` of the netCDF C library.
#![tactic(auto)]

mod applied;
mod begins;
mod carried;
mod extra_faults;
mod extras;
mod gaps;
mod indexed_header;
mod layout_faults;
mod moving;
mod name_index;
mod new_begins;
mod relocation;
mod slabs;

pub use applied::apply;
pub use relocation::relocate;
pub use slabs::{Offset, Shift, Slabs};
