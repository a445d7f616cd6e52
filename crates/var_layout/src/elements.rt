// Where an element lies.
ghost use Rattle.std.specs.Prelude.{◌≡◌, ◌<◌, ◌≤◌, ◌+◌, ◌^◌, ℕ, List, true, map, length, slice_get, IfSome, Some};
ghost use Rattle.std.specs.Option.{ForSome};
ghost use Rattle.nc_base.specs.declared.header.Header.{Header};
ghost use Rattle.nc_base.specs.declared.header.Var.{Var};
ghost use Rattle.serial_spec.specs.ExternalForm.{size_of};
ghost use Rattle.serial_spec.specs.Layout.{length_of, end_of};
ghost use Rattle.serial_spec.specs.HeaderBytes.{header_len};
ghost use Rattle.serial_spec.specs.SoundHeaders.{is_sound};
ghost use Rattle.serial_spec.specs.Place as spec;
ghost use Rattle.serial_spec.specs.Place.{IsElement, IsIndex, AreApart};
ghost use Rattle.var_layout.specs.Reached.{records_for};

use crate::record::recsize;
use crate::sizes::{inner_dims, is_record, length_of, variable_at};
use nc_base::{Header, Var};
use type_external::size_of;

/// How many indices stand before this one in row-major order.
fn row(header: &Header, ids: &[u32], index: &[u64]) -> u64
    requires valid { IsIndex (map (λ id. length_of (slice_get header.now.dims id)) ids.now) index.now }
    requires below { spec.row (map (λ id. length_of (slice_get header.now.dims id)) ids.now) index.now < 2 ^ 62 }
    ensures { result ≡ spec.row (map (λ id. length_of (slice_get header.now.dims id)) ids.now) index.now }
{
    let mut row = 0;
    for (k, id) in ids.iter().enumerate() {
        row = row * length_of(header, *id) + index[k];
    }
    row
}

/// The first byte of an element of this variable.
fn place_of(header: &Header, var: &Var, index: &[u64]) -> u64
    requires sound { is_sound header.now ≡ true }
    requires valid { IsElement header.now var.now index.now }
    requires below { spec.place header.now var.now index.now < 2 ^ 62 }
    ensures { result ≡ spec.place header.now var.now index.now }
{
    let ids = inner_dims(header, var);
    if is_record(header, var) {
        var.begin + index[0] * recsize(header) + row(header, ids, &index[1..]) * size_of(var.kind)
    } else {
        var.begin + row(header, ids, index) * size_of(var.kind)
    }
}

/// The first byte of an element. Its index has the record first where the variable has records.
pub fn place(header: &Header, var: usize, index: &[u64]) -> u64
    requires sound { is_sound header.now ≡ true }
    requires there { var < length header.now.vars }
    requires valid { ForSome (slice_get header.now.vars var) (λ v. IsElement header.now v index.now) }
    requires below { ForSome (slice_get header.now.vars var) (λ v. spec.place header.now v index.now < 2 ^ 62) }
    ensures value { IfSome (slice_get header.now.vars var) (λ v. result ≡ spec.place header.now v index.now) }
    ensures past_header { header_len header.now ≤ result }
    ensures before_end { IfSome (slice_get header.now.vars var) (λ v. (records : ℕ) → records_for header.now v index.now ≤ records
        → result + size_of v.kind ≤ end_of header.now (header_len header.now) records) }
{
    place_of(header, variable_at(header, var), index)
}

/// The bytes of two elements of a sound header's variables have none in common where variable or index differ, none is
/// one of the header's, and all lie before the file's end for the records that the element needs, or more.
pub fn elements_lie_apart()
    ensures apart { (header : Header) (k m : ℕ) (v w : Var) (i j : List ℕ) → is_sound header ≡ true
        → slice_get header.vars k ≡ Some v → slice_get header.vars m ≡ Some w → IsElement header v i → IsElement header w j
        → ((k ≡ m) × (i ≡ j) → ⊥) → AreApart (spec.place header v i) (size_of v.kind) (spec.place header w j) (size_of w.kind) }
    ensures past_header { (header : Header) (k : ℕ) (v : Var) (i : List ℕ) → is_sound header ≡ true
        → slice_get header.vars k ≡ Some v → IsElement header v i → header_len header ≤ spec.place header v i }
    ensures before_end { (header : Header) (k : ℕ) (v : Var) (i : List ℕ) (records : ℕ) → slice_get header.vars k ≡ Some v → IsElement header v i
        → records_for header v i ≤ records → spec.place header v i + size_of v.kind ≤ end_of header (header_len header) records }
{}
