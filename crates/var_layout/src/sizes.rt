// The sizes of one variable.
ghost use Rattle.std.specs.Prelude.{◌≡◌, ◌<◌, ◌^◌, true, map, length, slice_get, IfSome, Some};
ghost use Rattle.serial_spec.specs.Layout as layout;
ghost use Rattle.serial_spec.specs.SoundHeaders.{is_sound};
ghost use Rattle.var_layout.specs.Capped.{capped};

use crate::capped;
use nc_base::{Header, Var};
use type_external::size_of;

/// The variable at this place of the header's list, which has one there.
pub fn variable_at(header: &Header, var: usize) -> &Var
    requires { var < length header.now.vars }
    ensures { slice_get header.now.vars var ≡ Some result.now }
{
    &header.vars.as_slice()[var]
}

/// The length of a dimension, 0 for the record dimension. An id that no dimension has counts as length 1.
pub fn length_of(header: &Header, id: u32) -> u64
    ensures { result ≡ layout.length_of (slice_get header.now.dims id) }
{
    match header.dims.as_slice().get(id as usize) {
        Some(dim) => dim.len,
        None => 1,
    }
}

/// Whether the variable's first dimension is the record dimension.
pub fn is_record(header: &Header, var: &Var) -> bool
    ensures { result ≡ layout.is_record header.now var.now }
{
    match var.dims.as_slice() {
        [] => false,
        [first, ..] => length_of(header, *first) == 0,
    }
}

/// The dimensions of a fixed variable, or of one record.
pub(crate) fn inner_dims<'a>(header: &Header, var: &'a Var) -> &'a [u32]
    ensures { map (λ id. layout.length_of (slice_get header.now.dims id)) result.now ≡ layout.inner_lengths header.now var.now }
{
    let ids = var.dims.as_slice();
    if is_record(header, var) {
        &ids[1..]
    } else {
        ids
    }
}

/// How many elements dimensions have together.
fn elements_of_dims(header: &Header, ids: &[u32]) -> u64
    ensures { result ≡ capped (layout.product (map (λ id. layout.length_of (slice_get header.now.dims id)) ids.now)) }
{
    let mut elements = 1;
    for id in ids {
        elements = capped::product(elements, length_of(header, *id));
    }
    elements
}

/// The bytes of a fixed variable, or of one record, without padding, or 2^62 where they are more.
pub fn slab_of(header: &Header, var: &Var) -> u64
    ensures { result ≡ capped (layout.slab header.now var.now) }
{
    capped::product(
        elements_of_dims(header, inner_dims(header, var)),
        size_of(var.kind),
    )
}

/// The same, rounded up to a multiple of 4.
pub fn vsize_of(header: &Header, var: &Var) -> u64
    ensures { result ≡ capped (layout.vsize header.now var.now) }
{
    capped::padded(slab_of(header, var))
}

/// The bytes of a fixed variable, or of one record of a record variable, without padding.
pub fn slab(header: &Header, var: usize) -> u64
    requires sound { is_sound header.now ≡ true }
    requires there { var < length header.now.vars }
    ensures value { IfSome (slice_get header.now.vars var) (λ v. result ≡ layout.slab header.now v) }
    ensures small { result < 2 ^ 62 }
{
    slab_of(header, variable_at(header, var))
}

/// The slab rounded up to a multiple of 4: what a variable takes of a file, or of a record beside other variables.
pub fn vsize(header: &Header, var: usize) -> u64
    requires sound { is_sound header.now ≡ true }
    requires there { var < length header.now.vars }
    ensures value { IfSome (slice_get header.now.vars var) (λ v. result ≡ layout.vsize header.now v) }
    ensures small { result < 2 ^ 62 }
{
    vsize_of(header, variable_at(header, var))
}
