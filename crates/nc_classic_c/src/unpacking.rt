// Values from their external form.
ghost use Rattle.std.specs.Prelude.{◌≡◌, ◌+◌, ◌*◌, ◌<◌, ◌≤◌, true, map, length, take, drop, None, Ok, Err, IfErr, OnOk, OnErr};
ghost use Rattle.nc_base.specs.declared.header.NcType.TheVariants as nc_type;
ghost use Rattle.serial_spec.specs.ExternalForm as external;
ghost use Rattle.nc_classic_c.specs.Answers.{IsAnswer};
ghost use Rattle.nc_classic_c.specs.Values.{counts, first_out, integer_type, integers, of_type, patterns, range_told, unpack, unpack_patterns, values_of};

use crate::answers::{OK, Refusal, number_of};
use crate::kept::Kept;
use crate::packing::{is_length, tell_range};
use crate::types::integer_type;
use nc_base::{Code, NcType, Value};
use type_external::{decode_one, size_of};

/// Value `k` of bytes.
#[inline(always)]
fn value_at(kind: NcType, bytes: &[u8], k: usize) -> Value
    requires { k * external.size_of kind + external.size_of kind ≤ length bytes.now }
    ensures { result ≡ external.val kind (take (external.size_of kind) (drop (k * external.size_of kind) bytes.now)) }
{
    let size = size_of(kind) as usize;
    let at = k * size;
    decode_one(kind, &bytes[at..at + size])
}

/// The number of the first of so many values that memory does not keep.
#[inline(always)]
fn first_out<T: Kept<W>, W: Copy>(kind: NcType, bytes: &[u8], count: usize) -> Option<usize>
    requires { count * external.size_of kind ≡ length bytes.now }
    ensures { result ≡ first_out T.same (values_of kind count bytes.now) }
{
    for k in 0..count {
        if T::word(value_at(kind, bytes, k)).is_none() {
            return Some(k);
        }
    }
    None
}

/// The word that keeps a value, which one does.
#[inline(always)]
fn word_for<T: Kept<W>, W: Copy>(value: Value, old: W) -> W
    requires { external.fits T.same value ≡ true }
    ensures { T.told result ≡ value }
{
    match T::word(value) {
        Some(word) => word,
        None => old,
    }
}

/// Writes values, which memory keeps all.
#[inline(always)]
fn write_all<T: Kept<W>, W: Copy>(kind: NcType, bytes: &[u8], into: &mut [W])
    requires room { length into.old * external.size_of kind ≡ length bytes.now }
    requires kept { first_out T.same (values_of kind (length into.old) bytes.now) ≡ None }
    ensures { map T.told into.new ≡ values_of kind (length into.old) bytes.now }
{
    for k in 0..into.len() {
        into[k] = word_for::<T, W>(value_at(kind, bytes, k), into[k]);
    }
}

/// Writes the values of bytes; refused, nothing is written. Where the type is known as the program is built, no type is looked at
/// when it runs.
#[inline(always)]
fn unpack<T: Kept<W>, W: Copy>(kind: NcType, bytes: &[u8], into: &mut [W]) -> Result<(), Refusal>
    ensures unpacked { OnOk result (unpack T.same kind bytes.now (length into.old) ≡ Ok (map T.told into.new)) }
    ensures refused { IfErr result (λ r. unpack T.same kind bytes.now (length into.old) ≡ Err r) }
    ensures kept { OnErr result (into.new ≡ into.old) }
{
    if !is_length(kind, into.len(), bytes.len()) {
        return Err(Refusal::Asked(Code::EInvalRequest));
    }
    match first_out::<T, W>(kind, bytes, into.len()) {
        Some(number) => Err(Refusal::Range(number as u64)),
        None => {
            write_all::<T, W>(kind, bytes, into);
            Ok(())
        }
    }
}

/// Writes the values of bytes; refused, nothing is written. The type is looked at here alone, and not for each value.
fn unpack_as<T: Kept<W>, W: Copy>(kind: NcType, bytes: &[u8], into: &mut [W]) -> Result<(), Refusal>
    ensures unpacked { OnOk result (unpack T.same kind bytes.now (length into.old) ≡ Ok (map T.told into.new)) }
    ensures refused { IfErr result (λ r. unpack T.same kind bytes.now (length into.old) ≡ Err r) }
    ensures kept { OnErr result (into.new ≡ into.old) }
{
    match kind {
        NcType::Byte => unpack::<T, W>(NcType::Byte, bytes, into),
        NcType::Short => unpack::<T, W>(NcType::Short, bytes, into),
        NcType::Int => unpack::<T, W>(NcType::Int, bytes, into),
        NcType::UByte => unpack::<T, W>(NcType::UByte, bytes, into),
        NcType::UShort => unpack::<T, W>(NcType::UShort, bytes, into),
        NcType::UInt => unpack::<T, W>(NcType::UInt, bytes, into),
        NcType::Int64 => unpack::<T, W>(NcType::Int64, bytes, into),
        NcType::UInt64 => unpack::<T, W>(NcType::UInt64, bytes, into),
        NcType::Char | NcType::Float | NcType::Double => unpack::<T, W>(kind, bytes, into),
    }
}

/// Values of a type by its number, which are whole numbers.
fn unpack_integers<T: Kept<W>, W: Copy>(
    number: u32,
    bytes: &[u8],
    into: &mut [W],
) -> Result<(), Refusal>
    ensures unpacked { OnOk result (of_type (integer_type number) (λ k. unpack T.same k bytes.now (length into.old)) ≡ Ok (map T.told into.new)) }
    ensures refused { IfErr result (λ r. of_type (integer_type number) (λ k. unpack T.same k bytes.now (length into.old)) ≡ Err r) }
    ensures kept { OnErr result (into.new ≡ into.old) }
{
    let kind = integer_type(number)?;
    unpack_as::<T, W>(kind, bytes, into)
}

/// The values of bytes as signed numbers; of those that these do not keep the first one is told.
#[unsafe(no_mangle)]
pub extern "C" fn ncv_unpack_int64(
    kind: u32,
    bytes: &[u8],
    into: &mut [i64],
    refused: &mut u64,
) -> i32
    ensures { let told = of_type (integer_type kind) (λ k. unpack nc_type.Int64 k bytes.now (length into.old)) in
        IsAnswer result
        ((told ≡ Ok (integers into.new)) × (refused.new ≡ refused.old))
        (λ r. (told ≡ Err r) × (into.new ≡ into.old) × (refused.new ≡ range_told r refused.old)) }
{
    match unpack_integers::<i64, i64>(kind, bytes, into) {
        Ok(()) => OK,
        Err(refusal) => {
            tell_range(refusal, refused);
            number_of(refusal)
        }
    }
}

/// The values of bytes as unsigned numbers; of those that these do not keep the first one is told.
#[unsafe(no_mangle)]
pub extern "C" fn ncv_unpack_uint64(
    kind: u32,
    bytes: &[u8],
    into: &mut [u64],
    refused: &mut u64,
) -> i32
    ensures { let told = of_type (integer_type kind) (λ k. unpack nc_type.UInt64 k bytes.now (length into.old)) in
        IsAnswer result
        ((told ≡ Ok (counts into.new)) × (refused.new ≡ refused.old))
        (λ r. (told ≡ Err r) × (into.new ≡ into.old) × (refused.new ≡ range_told r refused.old)) }
{
    match unpack_integers::<u64, u64>(kind, bytes, into) {
        Ok(()) => OK,
        Err(refusal) => {
            tell_range(refusal, refused);
            number_of(refusal)
        }
    }
}

/// Writes the bit patterns of bytes, which memory keeps all; refused, nothing is written.
fn unpack_patterns<T: Kept<W>, W: Copy>(
    kind: NcType,
    bytes: &[u8],
    into: &mut [W],
) -> Result<(), Refusal>
    requires kept { first_out T.same (values_of kind (length into.old) bytes.now) ≡ None }
    ensures unpacked { OnOk result (unpack_patterns kind bytes.now (length into.old) ≡ Ok (map T.told into.new)) }
    ensures refused { IfErr result (λ r. unpack_patterns kind bytes.now (length into.old) ≡ Err r) }
    ensures unchanged { OnErr result (into.new ≡ into.old) }
{
    if !is_length(kind, into.len(), bytes.len()) {
        return Err(Refusal::Asked(Code::EInvalRequest));
    }
    write_all::<T, W>(kind, bytes, into);
    Ok(())
}

/// The values of bytes as floats, by their bit patterns.
#[unsafe(no_mangle)]
pub extern "C" fn ncv_unpack_float(bytes: &[u8], into: &mut [u32]) -> i32
    ensures { let told = unpack_patterns nc_type.Float bytes.now (length into.old) in
        IsAnswer result (told ≡ Ok (patterns into.new)) (λ r. (told ≡ Err r) × (into.new ≡ into.old)) }
{
    match unpack_patterns::<f32, u32>(NcType::Float, bytes, into) {
        Ok(()) => OK,
        Err(refusal) => number_of(refusal),
    }
}

/// The values of bytes as doubles, by their bit patterns.
#[unsafe(no_mangle)]
pub extern "C" fn ncv_unpack_double(bytes: &[u8], into: &mut [u64]) -> i32
    ensures { let told = unpack_patterns nc_type.Double bytes.now (length into.old) in
        IsAnswer result (told ≡ Ok (patterns into.new)) (λ r. (told ≡ Err r) × (into.new ≡ into.old)) }
{
    match unpack_patterns::<f64, u64>(NcType::Double, bytes, into) {
        Ok(()) => OK,
        Err(refusal) => number_of(refusal),
    }
}
