// The length of a written header.
ghost use Rattle.std.specs.Prelude.{◌≡◌, ◌+◌, length};
ghost use Rattle.std.specs.Int.{byte_len};
ghost use Rattle.serial_spec.specs.HeaderBytes as header_bytes;
ghost use Rattle.var_layout.specs.Capped.{capped};

use crate::capped;
use nc_base::{Attr, AttrList, Dim, Header, Name, Var};

/// The bytes of a tag, and of the number of a type.
const TAG: u64 = 4;

/// The bytes of a count, a length, an id, the record count or a vsize.
fn count_width(version: u8) -> u64
    ensures { result ≡ byte_len (header_bytes.count_width version) }
{
    if version == 5 { 8 } else { 4 }
}

/// The bytes of a begin.
fn begin_width(version: u8) -> u64
    ensures { result ≡ byte_len (header_bytes.begin_width version) }
{
    if version == 1 { 4 } else { 8 }
}

/// A block of bytes with its padding.
fn block_len(bytes: &[u8]) -> u64
    ensures { result ≡ capped (length (header_bytes.padded bytes.now)) }
{
    capped::padded(capped::sum(bytes.len() as u64, 0))
}

fn name_len(version: u8, name: &Name) -> u64
    ensures { result ≡ capped (length (header_bytes.name version name.now)) }
{
    capped::sum(count_width(version), block_len(name.as_slice()))
}

/// A tag and a count.
fn list_head(version: u8) -> u64
    ensures { result ≡ 4 + byte_len (header_bytes.count_width version) }
{
    TAG + count_width(version)
}

fn dim_len(version: u8, dim: &Dim) -> u64
    ensures { result ≡ capped (length (header_bytes.dimension version dim.now)) }
{
    capped::sum(name_len(version, &dim.name), count_width(version))
}

fn attr_len(version: u8, attr: &Attr) -> u64
    ensures { result ≡ capped (length (header_bytes.attribute version attr.now)) }
{
    let name = capped::sum(name_len(version, &attr.name), TAG + count_width(version));
    capped::sum(name, block_len(attr.bytes.as_slice()))
}

fn attrs_len(version: u8, attrs: &AttrList) -> u64
    ensures { result ≡ capped (length (header_bytes.list_of version 12 (header_bytes.attribute version) attrs.now)) }
{
    let mut len = list_head(version);
    for attr in attrs.as_slice() {
        len = capped::sum(len, attr_len(version, attr));
    }
    len
}

fn dims_len(header: &Header) -> u64
    ensures { result ≡ capped (length (header_bytes.list_of header.now.version 10 (header_bytes.dimension header.now.version) header.now.dims)) }
{
    let mut len = list_head(header.version);
    for dim in header.dims.as_slice() {
        len = capped::sum(len, dim_len(header.version, dim));
    }
    len
}

fn var_len(header: &Header, var: &Var) -> u64
    ensures { result ≡ capped (length (header_bytes.variable header.now var.now)) }
{
    let width = count_width(header.version);
    let ids = capped::product(width, var.dims.len() as u64);
    let shape = capped::sum(capped::sum(name_len(header.version, &var.name), width), ids);
    let attrs = capped::sum(shape, attrs_len(header.version, &var.attrs));
    capped::sum(attrs, TAG + width + begin_width(header.version))
}

fn vars_len(header: &Header) -> u64
    ensures { result ≡ capped (length (header_bytes.list_of header.now.version 11 (header_bytes.variable header.now) header.now.vars)) }
{
    let mut len = list_head(header.version);
    for var in header.vars.as_slice() {
        len = capped::sum(len, var_len(header, var));
    }
    len
}

/// The bytes of the written header, or 2^62 where it has more.
pub fn header_len(header: &Header) -> u64
    ensures { result ≡ capped (header_bytes.header_len header.now) }
{
    let magic = 4 + count_width(header.version);
    let dims = capped::sum(magic, dims_len(header));
    let attrs = capped::sum(dims, attrs_len(header.version, &header.attrs));
    capped::sum(attrs, vars_len(header))
}
