// From memory to the bytes of a request.
ghost use Rattle.std.specs.Prelude.{◌≡◌, ◌<◌, ◌≤◌, ◌++◌, [], None, true, false, not, is_none, nat_le, length, map, take, flat_map, IfOk, IfErr, OnOk};
ghost use Rattle.std.specs.List.{list_any, range_with_len};
ghost use Rattle.nc_base.specs.declared.answer.Code.TheVariants as code;
ghost use Rattle.nc_base.specs.BitForms.{bits_in};
ghost use Rattle.nc_base.specs.NumberForms.{numbers_in};
ghost use Rattle.serial_spec.specs.ExternalForm.{class_of, ext, fits};
ghost use Rattle.serial_spec.specs.Layout.{product};
ghost use Rattle.serial_spec.specs.Limits.{most_elements};
ghost use Rattle.type_external.specs.Refusals.{kinds_refusal};
ghost use Rattle.nc_base.specs.declared.request.Value.TheVariants as value;
ghost use Rattle.nc_base.specs.Values.{count_of};
ghost use Rattle.serial_spec.specs.Request.{value_at, ext_of, packed_bytes};
ghost use Rattle.serial_spec.specs.Looks.{kind_code, some_fits, values_code};
ghost use Rattle.imap_extents.specs.Mapped.{IsMapped};
ghost use Rattle.imap_extents.specs.Refusals.{IsRangeRefusal};
ghost use Rattle.serial_spec.specs.Refusal.{IsRefusal};

use crate::positions::positions_of;
use crate::words::{push_numbers, push_patterns, push_words};
use nc_base::{
    BitList, BitWords, Blob, CallErr, Code, Memory, NcType, NumberList, NumberWords, Region, Value,
    Values,
};
use std::alloc::Global;
use type_external::{code_of, element_count, encode_into, kind_fits, push_code, size_of};

/// The bytes of a put: the values of the region's elements in external form, in row-major order. The index map has an
/// entry for each count where memory is not packed.
///
/// `EChar`, `EBadType`: the values are of another kind than the type (PnetCDF C API reference, NC_ECHAR). Then
/// `EMapSize`: an element has a position that `values` lacks. Then `ERange`: the value of an element is not in the
/// type's range; values that no element reaches are not examined. `EBadType`, `EMapSize` and the order are our choice.
pub fn pack(alloc: Global, kind: NcType, region: &Region, values: &Values) -> Result<Blob, CallErr>
    requires mapped { IsMapped region.now }
    ensures ok { IfOk result (λ blob. blob ≡ packed_bytes kind region.now values.now) }
    ensures right { OnOk result (values_code kind region.now values.now ≡ code.Ok) }
    ensures refused { IfErr result (IsRefusal (values_code kind region.now values.now)) }
{
    kind_fits(kind, values)?;
    if region.packed {
        return pack_front(alloc, kind, region, values);
    }
    let positions = positions_of(alloc, region)?;
    if lacks_one(values, &positions) {
        return Err(CallErr::Code(Code::EMapSize));
    }
    encode_all(alloc, kind, values, &positions)
}

/// The first values, as many as a packed region has elements, in external form.
fn pack_front(
    alloc: Global,
    kind: NcType,
    region: &Region,
    values: &Values,
) -> Result<Blob, CallErr>
    requires packed { region.now.packed ≡ true }
    requires few { product region.now.count ≤ most_elements }
    requires kinds { None ≡ kinds_refusal kind values.now }
    ensures ok { IfOk result (λ blob. blob ≡ packed_bytes kind region.now values.now) }
    ensures right { OnOk result (values_code kind region.now values.now ≡ code.Ok) }
    ensures refused { IfErr result (IsRefusal (values_code kind region.now values.now)) }
{
    let count = element_count(region.count.as_slice());
    if count > values.len() as u64 {
        return Err(CallErr::Code(Code::EMapSize));
    }
    encode_front(alloc, kind, values, count as usize)
}

/// The first `count` values, which there are, in external form.
fn encode_front(alloc: Global, kind: NcType, values: &Values, count: usize) -> Result<Blob, CallErr>
    requires { count ≤ count_of values.now }
    ensures ok { IfOk result (λ blob. blob ≡ flat_map (λ m. ext_of kind (value_at values.now m)) (range_with_len 0 count)) }
    ensures right { OnOk result (list_any (λ v. not (some_fits kind v)) (map (λ m. value_at values.now m) (range_with_len 0 count)) ≡ false) }
    ensures refused { IfErr result (IsRangeRefusal (list_any (λ v. not (some_fits kind v)) (map (λ m. value_at values.now m) (range_with_len 0 count)))) }
{
    match values {
        Values::Numbers(numbers) => encode_numbers(alloc, kind, numbers, count),
        Values::Text(characters) => encode_text(alloc, kind, &characters.as_slice()[..count]),
        Values::Bits(patterns) => encode_patterns(alloc, kind, patterns, count),
    }
}

/// An empty list with room for so many values in external form.
pub fn room_for(alloc: Global, kind: NcType, count: usize) -> Result<Vec<u8>, Memory>
    ensures { IfOk result (λ bytes. bytes.items ≡ []) }
{
    Ok(Vec::with_capacity(alloc, count.saturating_mul(size_of(kind) as usize))?)
}

/// The first `count` numbers in external form.
fn encode_numbers(
    alloc: Global,
    kind: NcType,
    numbers: &NumberList,
    count: usize,
) -> Result<Blob, CallErr>
    requires { count ≤ length numbers.now }
    ensures ok { IfOk result (λ blob. blob ≡ flat_map (λ z. ext kind (value.Number z)) (take count numbers.now)) }
    ensures right { OnOk result (list_any (λ z. not (fits kind (value.Number z))) (take count numbers.now) ≡ false) }
    ensures refused { IfErr result (IsRangeRefusal (list_any (λ z. not (fits kind (value.Number z))) (take count numbers.now))) }
{
    let mut bytes = room_for(alloc, kind, count)?;
    push_numbers_of(kind, numbers.words(), count, &mut bytes)?;
    Ok(Blob::from_vec(bytes))
}

/// Adds the first `count` numbers. The type is looked at here alone, and not for each number.
fn push_numbers_of(
    kind: NcType,
    words: NumberWords<'_>,
    count: usize,
    bytes: &mut Vec<u8>,
) -> Result<(), CallErr>
    requires { count ≤ length (numbers_in words) }
    ensures ok { OnOk result (bytes.new.items ≡ bytes.old.items ++ flat_map (λ z. ext kind (value.Number z)) (take count (numbers_in words.entry))) }
    ensures right { OnOk result (list_any (λ z. not (fits kind (value.Number z))) (take count (numbers_in words.entry)) ≡ false) }
    ensures refused { IfErr result (IsRangeRefusal (list_any (λ z. not (fits kind (value.Number z))) (take count (numbers_in words.entry)))) }
{
    match kind {
        NcType::Byte => push_numbers(NcType::Byte, words, count, bytes),
        NcType::Short => push_numbers(NcType::Short, words, count, bytes),
        NcType::Int => push_numbers(NcType::Int, words, count, bytes),
        NcType::UByte => push_numbers(NcType::UByte, words, count, bytes),
        NcType::UShort => push_numbers(NcType::UShort, words, count, bytes),
        NcType::UInt => push_numbers(NcType::UInt, words, count, bytes),
        NcType::Int64 => push_numbers(NcType::Int64, words, count, bytes),
        NcType::UInt64 => push_numbers(NcType::UInt64, words, count, bytes),
        NcType::Char | NcType::Float | NcType::Double => push_numbers(kind, words, count, bytes),
    }
}

/// Bytes of text in external form.
fn encode_text(alloc: Global, kind: NcType, characters: &[u8]) -> Result<Blob, CallErr>
    ensures ok { IfOk result (λ blob. blob ≡ flat_map (λ c. ext kind (value.Char c)) characters.now) }
    ensures right { OnOk result (list_any (λ c. not (fits kind (value.Char c))) characters.now ≡ false) }
    ensures refused { IfErr result (IsRangeRefusal (list_any (λ c. not (fits kind (value.Char c))) characters.now)) }
{
    let mut bytes = room_for(alloc, kind, characters.len())?;
    push_words(kind, characters, &mut bytes)?;
    Ok(Blob::from_vec(bytes))
}

/// The first `count` bit patterns in external form.
fn encode_patterns(
    alloc: Global,
    kind: NcType,
    patterns: &BitList,
    count: usize,
) -> Result<Blob, CallErr>
    requires { count ≤ length patterns.now }
    ensures ok { IfOk result (λ blob. blob ≡ flat_map (λ n. ext kind (value.Bits n)) (take count patterns.now)) }
    ensures right { OnOk result (list_any (λ n. not (fits kind (value.Bits n))) (take count patterns.now) ≡ false) }
    ensures refused { IfErr result (IsRangeRefusal (list_any (λ n. not (fits kind (value.Bits n))) (take count patterns.now))) }
{
    let mut bytes = room_for(alloc, kind, count)?;
    push_patterns_of(kind, patterns.words(), count, &mut bytes)?;
    Ok(Blob::from_vec(bytes))
}

/// Adds the first `count` bit patterns. The type is looked at here alone, and not for each pattern.
fn push_patterns_of(
    kind: NcType,
    words: BitWords<'_>,
    count: usize,
    bytes: &mut Vec<u8>,
) -> Result<(), CallErr>
    requires { count ≤ length (bits_in words) }
    ensures ok { OnOk result (bytes.new.items ≡ bytes.old.items ++ flat_map (λ n. ext kind (value.Bits n)) (take count (bits_in words.entry))) }
    ensures right { OnOk result (list_any (λ n. not (fits kind (value.Bits n))) (take count (bits_in words.entry)) ≡ false) }
    ensures refused { IfErr result (IsRangeRefusal (list_any (λ n. not (fits kind (value.Bits n))) (take count (bits_in words.entry)))) }
{
    match kind {
        NcType::Float => push_patterns(NcType::Float, words, count, bytes),
        NcType::Double => push_patterns(NcType::Double, words, count, bytes),
        _ => push_patterns(kind, words, count, bytes),
    }
}

/// Adds a value in external form, where it is in the type's range.
#[inline(always)]
pub(crate) fn push_external(kind: NcType, value: Value, bytes: &mut Vec<u8>) -> Result<(), CallErr>
    ensures ok { OnOk result (bytes.new.items ≡ bytes.old.items ++ ext kind value) }
    ensures right { OnOk result (fits kind value ≡ true) }
    ensures refused { IfErr result (IsRangeRefusal (not (fits kind value))) }
{
    match code_of(kind, value) {
        Some(code) => Ok(push_code(kind, code, bytes)?),
        None => Err(CallErr::Code(Code::ERange)),
    }
}

/// Whether one of the positions has no value.
fn lacks_one(values: &Values, positions: &[u64]) -> bool
    ensures { result ≡ list_any (λ v. is_none v) (map (λ m. value_at values.now m) positions.now) }
{
    some_from(values.len() as u64, positions)
}

/// Whether one of the positions is not below `count`.
fn some_from(count: u64, positions: &[u64]) -> bool
    ensures { result ≡ list_any (λ m. nat_le count m) positions.now }
{
    positions.iter().any(|position| count <= *position)
}

/// The values at the positions in external form, one after another.
fn encode_all(
    alloc: Global,
    kind: NcType,
    values: &Values,
    positions: &[u64],
) -> Result<Blob, CallErr>
    requires kinds { kind_code (class_of kind) values.now ≡ code.Ok }
    requires there { list_any (λ v. is_none v) (map (λ m. value_at values.now m) positions.now) ≡ false }
    ensures ok { IfOk result (λ blob. blob ≡ flat_map (λ m. ext_of kind (value_at values.now m)) positions.now) }
    ensures right { OnOk result (list_any (λ v. not (some_fits kind v)) (map (λ m. value_at values.now m) positions.now) ≡ false) }
    ensures refused { IfErr result (IsRangeRefusal (list_any (λ v. not (some_fits kind v)) (map (λ m. value_at values.now m) positions.now))) }
{
    let mut bytes = room_for(alloc, kind, positions.len())?;
    for position in positions {
        push_value(kind, values, *position, &mut bytes)?;
    }
    Ok(Blob::from_vec(bytes))
}

/// Adds value `k` in external form.
///
/// `ERange`: it is not in the type's range. The values are of the type's kind, which `kind_fits` tells.
pub fn push_value(kind: NcType, values: &Values, k: u64, bytes: &mut Vec<u8>) -> Result<(), CallErr>
    requires kinds { kind_code (class_of kind) values.now ≡ code.Ok }
    requires there { k < count_of values.now }
    ensures ok { OnOk result (bytes.new.items ≡ bytes.old.items ++ ext_of kind (value_at values.now k)) }
    ensures right { OnOk result (some_fits kind (value_at values.now k) ≡ true) }
    ensures refused { IfErr result (IsRangeRefusal (not (some_fits kind (value_at values.now k)))) }
{
    let mut form = [0; 8];
    let into = &mut form[..size_of(kind) as usize];
    encode_into(kind, values, k as usize, into)?;
    match bytes.extend_from_slice(into) {
        Ok(()) => Ok(()),
        Err(_) => Err(CallErr::Memory),
    }
}
