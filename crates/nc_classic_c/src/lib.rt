//! What C calls: headers, regions, collective steps and values of files in the netCDF classic format, by their bytes.
//!
//! Each export says in its contract what it answers, and requires nothing but what its types say. Its form in C, with
//! units and causes, stands in `clib/include/nc_classic.h`.
#![tactic(auto)]

mod accepted;
mod answers;
mod attributes;
mod causes;
mod copies;
mod covers;
mod definitions;
mod dimensions;
mod domains;
mod extents;
mod faults;
mod header_check;
mod headers;
mod kept;
mod laws;
mod looks;
mod making;
mod naming;
mod needs;
mod overlaps;
mod packing;
mod regions;
mod sizes;
mod tables;
mod types;
mod unpacking;
mod variables;
mod windows;

pub use attributes::{NcvAtt, ncv_inq_att, ncv_inq_attid};
pub use causes::NcvRefused;
pub use dimensions::{NcvDim, ncv_inq_dim, ncv_inq_dimid};
pub use domains::ncv_domain;
pub use extents::{NcvExtent, ncv_extents};
pub use faults::NcvFault;
pub use header_check::{NcvCounts, ncv_header_check};
pub use laws::device_windows_law;
pub use making::ncv_header_make;
pub use needs::{NcvNeeds, ncv_region_check};
pub use overlaps::{NcvHeld, NcvPair, ncv_first_shared};
pub use packing::{ncv_pack_double, ncv_pack_float, ncv_pack_int64, ncv_pack_uint64};
pub use regions::NcvRegion;
pub use sizes::{NcvSizes, ncv_inq_sizes};
pub use tables::{NcvAttDef, NcvDimDef, NcvHeaderDef, NcvVarDef};
pub use unpacking::{ncv_unpack_double, ncv_unpack_float, ncv_unpack_int64, ncv_unpack_uint64};
pub use variables::{NcvVar, ncv_inq_var, ncv_inq_varid};
pub use windows::{NcvStep, NcvWindow, ncv_windows};
