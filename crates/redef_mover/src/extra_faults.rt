// Why an extra can't be added to a header.
ghost use Rattle.std.specs.Prelude.{◌≡◌, ◌==◌, is_none};
ghost use Rattle.std.specs.List.{list_any};
ghost use Rattle.std.specs.Result.{result_err};
ghost use Rattle.nc_base.specs.declared.header.Dim.{Dim};
ghost use Rattle.serial_spec.specs.HeaderFaults.{is_record_id};
ghost use Rattle.serial_spec.specs.Looks.{find_dim};
ghost use Rattle.serial_spec.specs.Redefinition as spec;

use crate::indexed_header::IndexedHeader;
use nc_base::{Extra, Header, MAX_DIMS, MAX_VARS, Name, NcType, RedefErr};
use var_layout::record_limit;

/// Whether the first variable of this name has such an attribute.
fn has_var_attr<'a>(header: &IndexedHeader<'a>, owner: &[u8], name: &'a [u8]) -> bool
    ensures { result ≡ spec.has_attr (spec.attrs_of_var header.now owner.now) name.now }
{
    match header.find_var(owner) {
        Some(place) => header.has_attr(Some(place), name),
        None => false,
    }
}

/// Whether what it names is there already.
fn is_taken<'a>(header: &IndexedHeader<'a>, extra: &'a Extra) -> bool
    ensures { result ≡ spec.is_taken header.now extra.now }
{
    match extra {
        Extra::Dim(dim) => header.find_dim(dim.name.as_slice()).is_some(),
        Extra::Var { name, .. } => header.find_var(name.as_slice()).is_some(),
        Extra::Att { owner: None, attr } => header.has_attr(None, attr.name.as_slice()),
        Extra::Att {
            owner: Some(owner),
            attr,
        } => has_var_attr(header, owner.as_slice(), attr.name.as_slice()),
    }
}

/// Whether a dimension of these names is not there.
fn lacks_dim(header: &IndexedHeader, names: &[Name]) -> bool
    ensures { result ≡ list_any (λ n. is_none (find_dim header.now n)) names.now }
{
    names
        .iter()
        .any(|name| header.find_dim(name.as_slice()).is_none())
}

/// Whether what it needs is not there.
fn is_unknown(header: &IndexedHeader, extra: &Extra) -> bool
    ensures { result ≡ spec.is_unknown header.now extra.now }
{
    match extra {
        Extra::Var { dims, .. } => lacks_dim(header, dims.as_slice()),
        Extra::Att {
            owner: Some(owner),
            ..
        } => header.find_var(owner.as_slice()).is_none(),
        Extra::Dim(_) | Extra::Att { owner: None, .. } => false,
    }
}

fn has_record_dim(header: &Header) -> bool
    ensures { result ≡ list_any (λ (d : Dim). d.len == 0) header.now.dims }
{
    header.dims.as_slice().iter().any(|dim| dim.len == 0)
}

/// Whether the first dimension of this name is the record dimension; of a name that is not there, whether the very first one is.
fn is_record_name(header: &IndexedHeader, name: &[u8]) -> bool
    ensures { result ≡ is_record_id header.now (spec.dim_id header.now name.now) }
{
    let id = header.find_dim(name).unwrap_or(0);
    match header.as_header().dims.as_slice().get(id) {
        Some(dim) => dim.len == 0,
        None => false,
    }
}

/// Whether one of the names is that of the record dimension.
fn has_record_name(header: &IndexedHeader, names: &[Name]) -> bool
    ensures { result ≡ list_any (λ n. is_record_id header.now (spec.dim_id header.now n)) names.now }
{
    names
        .iter()
        .any(|name| is_record_name(header, name.as_slice()))
}

/// Whether it makes a second record dimension, or has the record dimension elsewhere than first.
fn has_bad_shape(header: &IndexedHeader, extra: &Extra) -> bool
    ensures { result ≡ spec.has_bad_shape header.now extra.now }
{
    match extra {
        Extra::Dim(dim) => dim.len == 0 && has_record_dim(header.as_header()),
        Extra::Var { dims, .. } => match dims.as_slice() {
            [] => false,
            [_, inner @ ..] => has_record_name(header, inner),
        },
        Extra::Att { .. } => false,
    }
}

fn is_one_too_many(header: &Header, extra: &Extra) -> bool
    ensures { result ≡ spec.is_one_too_many header.now extra.now }
{
    match extra {
        Extra::Dim(_) => MAX_DIMS <= header.dims.len(),
        Extra::Var { .. } => MAX_VARS <= header.vars.len(),
        Extra::Att { .. } => false,
    }
}

/// Whether only CDF-5 has the type, and the header is of another version.
fn is_later_type(header: &Header, kind: NcType) -> bool
    ensures { result ≡ spec.is_later_type header.now kind }
{
    match kind {
        NcType::UByte | NcType::UShort | NcType::UInt | NcType::Int64 | NcType::UInt64 => {
            header.version != 5
        }
        NcType::Byte
        | NcType::Char
        | NcType::Short
        | NcType::Int
        | NcType::Float
        | NcType::Double => false,
    }
}

/// Whether the version lacks its type or length.
fn has_bad_kind(header: &Header, extra: &Extra) -> bool
    ensures { result ≡ spec.has_bad_kind header.now extra.now }
{
    match extra {
        Extra::Dim(dim) => header.version != 5 && record_limit(header.version) <= dim.len,
        Extra::Var { kind, .. } => is_later_type(header, *kind),
        Extra::Att { attr, .. } => is_later_type(header, attr.kind),
    }
}

/// Refuses an extra, which has the number `k`, that can't be added.
pub(crate) fn check_extra<'a>(
    header: &IndexedHeader<'a>,
    k: usize,
    extra: &'a Extra,
) -> Result<(), RedefErr>
    ensures { result_err result ≡ spec.extra_fault header.now k extra.now }
{
    if is_taken(header, extra) {
        return Err(RedefErr::Taken(k));
    }
    if is_unknown(header, extra) {
        return Err(RedefErr::Unknown(k));
    }
    if has_bad_shape(header, extra) {
        return Err(RedefErr::Shape(k));
    }
    if is_one_too_many(header.as_header(), extra) {
        return Err(RedefErr::TooMany(k));
    }
    if has_bad_kind(header.as_header(), extra) {
        return Err(RedefErr::Kind(k));
    }
    Ok(())
}
