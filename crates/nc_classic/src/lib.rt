//! Files in the netCDF classic format (CDF-1, CDF-2 and CDF-5), by their bytes: one crate for programs that do their input and
//! output themselves. It hands on what stands in the crates below, without threads, waiting and files.
//!
//! - *Header*: [`decode`], [`encode`].
//! - *Layout*: [`Measures`], and where the header, the variables, the records and the file begin and end.
//! - *Regions*: [`check`] says whether a call on a region is refused, [`Extents`] where its bytes lie, [`records_needed`] which
//!   record count it needs.
//! - *Values*: [`pack`], [`unpack`], and the external form of one value.
//! - *Overlap*: [`gather`] sorts the entries of requests, [`first_pair`] finds the least byte that two of them have.
//! - *Plan*: [`cut`] gives the domain of an aggregator, [`windows`] its windows, by what is asked for in all ([`cover`]).
//!
//! The same for C is `nc_classic_c`. CALLING.md, in this crate's folder, begins with a worked caller.
#![tactic(auto)]

pub use cdf_header::{decode, encode};
pub use file_domains::{Window, WindowWalk, cut, windows};
pub use imap_extents::{pack, unpack};
pub use nc_base::{
    Attr, AttrList, Blob, Code, Dim, DimList, Direction, Extent, ExtentList, Header, HeaderErr,
    IdList, Items, Memory, Name, NcType, NumberList, Owned, OwnedList, Pair, Part, PartList,
    Region, SizeList, Value, Values, Var, VarList,
};
pub use overlap_report::{cover, first_pair, gather, resolve};
pub use type_external::{
    code_of, decode_one, element_count, encode_into, kind_fits, push_code, size_of,
};
pub use var_layout::{
    Measures, end_of, file_end, find_dim, find_var, header_len, is_lone, is_record, lay_out, place,
    record_limit, record_share, recsize, slab, variable_at, vsize,
};
pub use vara_extents::{
    Extents, bytes_wanted, check, check_parts, extents_law, has_element, part_regions,
    records_needed, widen, writing_law,
};
