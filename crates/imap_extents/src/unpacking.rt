// From the bytes of a request to memory.
ghost use Rattle.std.specs.Prelude.{◌≡◌, ◌+◌, ◌*◌, ◌/◌, ◌<◌, ◌≤◌, [], length, map, replicate, None, Some, IfOk};
ghost use Rattle.std.specs.List.{range_with_len};
ghost use Rattle.std.specs.Simd.{first_chunks};
ghost use Rattle.nc_base.specs.declared.request.Values.TheVariants.{Numbers};
ghost use Rattle.serial_spec.specs.ExternalForm as external;
ghost use Rattle.serial_spec.specs.Layout.{product, greatest};
ghost use Rattle.serial_spec.specs.Limits.{most_elements};
ghost use Rattle.serial_spec.specs.Request.{cells, gathered, number_in, spread};
ghost use Rattle.imap_extents.specs.Mapped.{IsMapped};
ghost use Rattle.imap_extents.specs.Found.{value_of_last, char_in, bits_in, in_order, values_in};

use crate::decoding::{narrow_numbers, narrow_patterns, wide_numbers, wide_patterns};
use crate::positions::positions_of;
use nc_base::{BitList, Blob, Memory, NcType, NumberList, Region, Value, Values};
use std::alloc::Global;
use type_external::{decode_one, size_of};

/// What a get brings to memory: the values of the bytes, which are those of the region's elements in row-major order,
/// at their positions. There are as many values as the positions reach; where no element stands they are 0, and where
/// several stand the last of them counts. The index map has an entry for each count where memory is not packed.
pub fn unpack(alloc: Global, kind: NcType, region: &Region, bytes: &[u8]) -> Result<Values, Memory>
    requires mapped { IsMapped region.now }
    requires long { length bytes.now ≡ product region.now.count * external.size_of kind }
    ensures { IfOk result (λ values. values ≡ spread kind region.now bytes.now) }
{
    if region.packed {
        return unpack_front(alloc, kind, bytes);
    }
    let positions = positions_of(alloc, region)?;
    let found = last_values(alloc, kind, &positions, bytes)?;
    values_of(alloc, kind, &found)
}

/// The values of bytes, one after another.
fn unpack_front(alloc: Global, kind: NcType, bytes: &[u8]) -> Result<Values, Memory>
    ensures { IfOk result (λ values. values ≡ in_order kind (length bytes.now / external.size_of kind) bytes.now) }
{
    match kind {
        NcType::Char => Ok(Values::Text(Blob::from_vec(decode_text(alloc, bytes)?))),
        NcType::Float => Ok(Values::Bits(narrow_patterns(alloc, bytes)?)),
        NcType::Double => Ok(Values::Bits(wide_patterns(alloc, bytes)?)),
        _ => Ok(Values::Numbers(whole_numbers(alloc, kind, bytes)?)),
    }
}

/// The numbers of bytes, one after another, where the type is one of numbers.
fn whole_numbers(alloc: Global, kind: NcType, bytes: &[u8]) -> Result<NumberList, Memory>
    requires { gathered (external.class_of kind) [] ≡ Numbers [] }
    ensures { IfOk result (λ numbers. Numbers numbers ≡ in_order kind (length bytes.now / external.size_of kind) bytes.now) }
{
    match kind {
        NcType::Byte => narrow_numbers::<i8, 1>(alloc, bytes),
        NcType::UByte => narrow_numbers::<u8, 1>(alloc, bytes),
        NcType::Short => narrow_numbers::<i16, 2>(alloc, bytes),
        NcType::UShort => narrow_numbers::<u16, 2>(alloc, bytes),
        NcType::Int => narrow_numbers::<i32, 4>(alloc, bytes),
        NcType::UInt => wide_numbers::<u32, 4>(alloc, bytes),
        NcType::Int64 => wide_numbers::<i64, 8>(alloc, bytes),
        _ => decode_numbers::<8>(alloc, NcType::UInt64, bytes),
    }
}

/// The numbers of bytes, `N` for each.
#[inline(always)]
fn decode_numbers<const N: usize>(
    alloc: Global,
    kind: NcType,
    bytes: &[u8],
) -> Result<NumberList, Memory>
    requires some { 0 < N }
    requires size { N ≡ external.size_of kind }
    ensures { IfOk result (λ all. all ≡ map (λ b. number_in (Some (external.val kind b))) (first_chunks N (length bytes.now / N) bytes.now)) }
{
    let (forms, _) = bytes.as_chunks::<N>();
    let mut numbers = NumberList::with_capacity(alloc, forms.len())?;
    for form in forms {
        numbers.push(number_of(decode_one(kind, form)))?;
    }
    Ok(numbers)
}

#[inline(always)]
fn number_of(value: Value) -> i128
    ensures { result ≡ number_in (Some value) }
{
    match value {
        Value::Number(number) => number,
        _ => 0,
    }
}

/// The bytes of text.
fn decode_text(alloc: Global, bytes: &[u8]) -> Result<Vec<u8>, Memory>
    ensures { IfOk result (λ all. all.items ≡ map (λ b. char_in (Some (external.val NcType.Char b))) (first_chunks 1 (length bytes.now / 1) bytes.now)) }
{
    let (forms, _) = bytes.as_chunks::<1>();
    let mut characters = Vec::with_capacity(alloc, forms.len())?;
    for form in forms {
        characters.push(char_of(decode_one(NcType::Char, form)))?;
    }
    Ok(characters)
}

#[inline(always)]
fn char_of(value: Value) -> u8
    ensures { result ≡ char_in (Some value) }
{
    match value {
        Value::Char(character) => character,
        _ => 0,
    }
}

/// The greatest position plus one.
fn reach_of(positions: &[u64]) -> u64
    requires { greatest (map (λ m. m + 1) positions.now) ≤ most_elements }
    ensures { result ≡ greatest (map (λ m. m + 1) positions.now) }
{
    let mut reach = 0;
    for position in positions {
        reach = reach.max(position.saturating_add(1));
    }
    reach
}

/// For each value of memory the last one that stands there.
fn last_values(
    alloc: Global,
    kind: NcType,
    positions: &[u64],
    bytes: &[u8],
) -> Result<Vec<Option<Value>>, Memory>
    requires reach { greatest (map (λ m. m + 1) positions.now) ≤ most_elements }
    requires long { length bytes.now ≡ length positions.now * external.size_of kind }
    ensures { IfOk result (λ found. found.items ≡ map (value_of_last kind (cells (external.size_of kind) positions.now bytes.now)) (range_with_len 0 (greatest (map (λ m. m + 1) positions.now)))) }
{
    let size = size_of(kind) as usize;
    let mut found = none_found(alloc, reach_of(positions) as usize)?;
    let mut rest = bytes;
    for position in positions {
        let (form, later) = rest.split_at(size);
        found[*position as usize] = Some(decode_one(kind, form));
        rest = later;
    }
    Ok(found)
}

/// No value, so many times.
fn none_found(alloc: Global, count: usize) -> Result<Vec<Option<Value>>, Memory>
    ensures { IfOk result (λ found. found.items ≡ replicate count None) }
{
    Ok(vec![in alloc; None; count]?)
}

/// The values that were found, in the words of their type.
fn values_of(alloc: Global, kind: NcType, found: &[Option<Value>]) -> Result<Values, Memory>
    ensures { IfOk result (λ values. values ≡ values_in (external.class_of kind) found.now) }
{
    match kind {
        NcType::Char => Ok(Values::Text(Blob::from_vec(characters(alloc, found)?))),
        NcType::Float | NcType::Double => Ok(Values::Bits(patterns(alloc, found)?)),
        _ => Ok(Values::Numbers(numbers(alloc, found)?)),
    }
}

/// The numbers, 0 where there is none.
fn numbers(alloc: Global, found: &[Option<Value>]) -> Result<NumberList, Memory>
    ensures { IfOk result (λ all. all ≡ map number_in found.now) }
{
    let mut numbers = NumberList::with_capacity(alloc, found.len())?;
    for value in found {
        numbers.push(number_in(*value))?;
    }
    Ok(numbers)
}

fn number_in(value: Option<Value>) -> i128
    ensures { result ≡ number_in value }
{
    match value {
        Some(Value::Number(number)) => number,
        _ => 0,
    }
}

/// The bytes of text, 0 where there is none.
fn characters(alloc: Global, found: &[Option<Value>]) -> Result<Vec<u8>, Memory>
    ensures { IfOk result (λ all. all.items ≡ map char_in found.now) }
{
    let mut characters = Vec::with_capacity(alloc, found.len())?;
    for value in found {
        characters.push(char_in(*value))?;
    }
    Ok(characters)
}

fn char_in(value: Option<Value>) -> u8
    ensures { result ≡ char_in value }
{
    match value {
        Some(Value::Char(character)) => character,
        _ => 0,
    }
}

/// The bit patterns, 0 where there is none.
fn patterns(alloc: Global, found: &[Option<Value>]) -> Result<BitList, Memory>
    ensures { IfOk result (λ all. all ≡ map bits_in found.now) }
{
    let mut patterns = BitList::with_capacity(alloc, found.len())?;
    for value in found {
        patterns.push(bits_in(*value))?;
    }
    Ok(patterns)
}

fn bits_in(value: Option<Value>) -> u64
    ensures { result ≡ bits_in value }
{
    match value {
        Some(Value::Bits(pattern)) => pattern,
        _ => 0,
    }
}
