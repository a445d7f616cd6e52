// When a region is refused.
ghost use Rattle.std.specs.Prelude.{◌≡◌, ◌==◌, ◌+◌, ◌-◌, ◌*◌, ◌<◌, ◌≤◌, length, slice_get, map, zip, Ok, Err, OnOk, IfErr};
ghost use Rattle.std.specs.List.{list_any};
ghost use Rattle.nc_base.specs.declared.answer.Code.TheVariants as code;
ghost use Rattle.serial_spec.specs.Layout as layout;
ghost use Rattle.serial_spec.specs.RegionCheck as spec;
ghost use Rattle.var_layout.specs.Measures.{AreMeasures};
ghost use Rattle.vara_extents.specs.Bounds.{bounds_of};

use crate::needs::{asks_too_much, variable};
use nc_base::{Code, Direction, Header, Region, Var};
use var_layout::{Measures, length_of};

/// Whether a call on a region is refused. The first of these causes answers, an order that is this project's:
/// `ENotVar` for a variable that the header has not; `EInvalCoords` for lists of another length than the variable's
/// number of dimensions (that of the index map matters where the memory is not packed); `EStride` for a stride of 0;
/// `EInvalCoords` for a start above the length of its dimension, or at it with a count above 0; `EEdge` for a last
/// element that is not below the length; `ETooLarge` for more than 2^20 elements, or a place of memory from 2^20 on,
/// or a record count or a file's end past its limit. The record dimension has the `known` length for a get, and no
/// bound for a put. `measures` are the header's.
pub fn check(
    header: &Header,
    measures: &Measures,
    var: usize,
    region: &Region,
    known: u64,
    direction: Direction,
) -> Result<(), Code>
    requires measured { AreMeasures header.now measures.now }
    ensures ok { OnOk result (spec.check header.now var region.now known direction ≡ code.Ok) }
    ensures refused { IfErr result (λ refusal. (refusal ≡ spec.check header.now var region.now known direction) × (refusal ≡ code.Ok → ⊥)) }
{
    let ends = Ends { direction, known };
    match code_of(header, measures, var, region, ends) {
        Code::Ok => Ok(()),
        code => Err(code),
    }
}

/// The code of the first cause, or `Ok`.
fn code_of(header: &Header, measures: &Measures, var: usize, region: &Region, ends: Ends) -> Code
    requires measured { AreMeasures header.now measures.now }
    ensures { result ≡ spec.check header.now var region.now ends.known ends.direction }
{
    match variable(header, var) {
        None => Code::ENotVar,
        Some(var) => region_code(header, measures, var, region, ends),
    }
}

/// The same of a variable that the header has.
pub(crate) fn region_code(
    header: &Header,
    measures: &Measures,
    var: &Var,
    region: &Region,
    ends: Ends,
) -> Code
    requires measured { AreMeasures header.now measures.now }
    ensures { result ≡ spec.check_var header.now var.now region.now ends.known ends.direction }
{
    if other_shape(var.dims.len(), region) {
        return Code::EInvalCoords;
    }
    if has_zero(region.stride.as_slice()) {
        return Code::EStride;
    }
    if starts_past(header, var, region, ends) {
        return Code::EInvalCoords;
    }
    if ends_past(header, var, region, ends) {
        return Code::EEdge;
    }
    if asks_too_much(header, measures, var, region) {
        return Code::ETooLarge;
    }
    Code::Ok
}

fn other_shape(dims: usize, region: &Region) -> bool
    ensures { result ≡ spec.other_shape dims region.now }
{
    !(region.start.len() == dims
        && region.count.len() == dims
        && region.stride.len() == dims
        && (region.packed || region.imap.len() == dims))
}

fn has_zero(strides: &[u64]) -> bool
    ensures { result ≡ list_any (λ d. d == 0) strides.now }
{
    strides.iter().any(|stride| *stride == 0)
}

/// How far the record dimension goes: for a get to the known count of records, for a put without bound.
#[derive(Clone, Copy)]
pub struct Ends {
    pub direction: Direction,
    /// The count of records that the caller knows.
    pub known: u64,
}

impl Ends {
    /// How far a dimension of this length goes.
    fn bound(self, length: u64) -> Option<u64>
        ensures { result ≡ spec.bound self.direction self.known length }
    {
        match (self.direction, length) {
            (Direction::Put, 0) => None,
            (Direction::Get, 0) => Some(self.known),
            _ => Some(length),
        }
    }
}

fn bad_start(bound: Option<u64>, start: u64, count: u64) -> bool
    ensures { result ≡ spec.bad_start bound start count }
{
    match bound {
        None => false,
        Some(length) => length < start || (start == length && 0 < count),
    }
}

fn bad_edge(bound: Option<u64>, start: u64, count: u64, stride: u64) -> bool
    ensures { result ≡ spec.bad_edge bound start count stride }
{
    match bound {
        None => false,
        Some(length) => 0 < count && u128::from(length) <= last_of(start, count, stride),
    }
}

/// The last index of a dimension with a count above 0.
pub(crate) fn last_of(start: u64, count: u64, stride: u64) -> u128
    ensures { result ≡ start + (count - 1) * stride }
{
    u128::from(start) + u128::from(count.saturating_sub(1)) * u128::from(stride)
}

/// Whether some start of the region is refused.
fn starts_past(header: &Header, var: &Var, region: &Region, ends: Ends) -> bool
    ensures { result ≡ spec.some_start (spec.bounds header.now var.now ends.known ends.direction) region.now.start region.now.count }
{
    some_start(
        header,
        ends,
        var.dims.as_slice(),
        region.start.as_slice(),
        region.count.as_slice(),
    )
}

/// The same of lists.
fn some_start(header: &Header, ends: Ends, ids: &[u32], starts: &[u64], counts: &[u64]) -> bool
    ensures { result ≡ spec.some_start (bounds_of header.now ends ids.now) starts.now counts.now }
{
    let [id, ids @ ..] = ids else { return false };
    let [start, starts @ ..] = starts else {
        return false
    };
    let [count, counts @ ..] = counts else {
        return false
    };
    bad_start(ends.bound(length_of(header, *id)), *start, *count)
        || some_start(header, ends, ids, starts, counts)
}

/// Whether some last element of the region is refused.
fn ends_past(header: &Header, var: &Var, region: &Region, ends: Ends) -> bool
    ensures { result ≡ spec.some_edge (spec.bounds header.now var.now ends.known ends.direction) region.now.start region.now.count region.now.stride }
{
    some_edge(
        header,
        ends,
        var.dims.as_slice(),
        region.start.as_slice(),
        region.count.as_slice(),
        region.stride.as_slice(),
    )
}

/// The same of lists.
fn some_edge(
    header: &Header,
    ends: Ends,
    ids: &[u32],
    starts: &[u64],
    counts: &[u64],
    strides: &[u64],
) -> bool
    ensures { result ≡ spec.some_edge (bounds_of header.now ends ids.now) starts.now counts.now strides.now }
{
    let [id, ids @ ..] = ids else { return false };
    let [start, starts @ ..] = starts else {
        return false
    };
    let [count, counts @ ..] = counts else {
        return false
    };
    let [stride, strides @ ..] = strides else {
        return false
    };
    bad_edge(ends.bound(length_of(header, *id)), *start, *count, *stride)
        || some_edge(header, ends, ids, starts, counts, strides)
}
