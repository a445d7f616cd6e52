// Values in external form, the places of variables, headers of public tools, and headers with faults.
mod changed;
mod files;
mod places;
mod real;
mod values;
mod written;

use cdf_header::decode;
use nc_base::{Header, HeaderErr, MAX_HEADER_BYTES};
use std::alloc::Global;

/// What is read of bytes that are a dataset's first.
fn read(alloc: Global, bytes: &[u8]) -> Result<(Header, u64), HeaderErr> {
    if bytes.len() as u64 > MAX_HEADER_BYTES {
        return Err(HeaderErr::TooLarge);
    }
    decode(alloc, bytes)
}
