// Values to their external form.
ghost use Rattle.std.specs.Prelude.{◌≡◌, ◌*◌, ◌<◌, ◌^◌, true, not, map, length, position, None, Ok, Err, IfErr, OnOk, OnErr};
ghost use Rattle.std.specs.Int.{to_be_bytes};
ghost use Rattle.nc_base.specs.declared.header.NcType.TheVariants as nc_type;
ghost use Rattle.serial_spec.specs.ExternalForm as external;
ghost use Rattle.nc_classic_c.specs.Answers.{IsAnswer};
ghost use Rattle.nc_classic_c.specs.Values.{counts, first_out, if_length, integer_type, integers, is_length, of_type, pack, pack_patterns, packed, range_told};

use crate::answers::{OK, Refusal, number_of};
use crate::kept::Kept;
use crate::types::integer_type;
use nc_base::{Code, NcType, Value};
use type_external::{code_of, size_of};

/// Whether so many values have so many bytes.
pub(crate) fn is_length(kind: NcType, count: usize, len: usize) -> bool
    ensures { result ≡ is_length kind count len }
{
    count.checked_mul(size_of(kind) as usize) == Some(len)
}

/// Whether the value is outside the range of the type.
#[inline(always)]
fn is_out(kind: NcType, value: Value) -> bool
    ensures { result ≡ not (external.fits kind value) }
{
    code_of(kind, value).is_none()
}

/// The number of the first value that is not in the range of the type.
#[inline(always)]
fn first_out<T: Kept<W>, W: Copy>(kind: NcType, words: &[W]) -> Option<usize>
    ensures { result ≡ position (λ w. not (external.fits kind (T.told w))) words.now }
{
    words.iter().position(|word| is_out(kind, T::value(*word)))
}

/// Writes a number as the bytes of a value.
#[inline(always)]
fn put_code(kind: NcType, code: u64, into: &mut [u8])
    requires room { length into.old ≡ external.size_of kind }
    requires within { code < 256 ^ external.size_of kind }
    ensures { into.new ≡ to_be_bytes (external.width_of kind) code }
{
    match kind {
        NcType::Byte | NcType::Char | NcType::UByte => {
            into.copy_from_slice(&(code as u8).to_be_bytes());
        }
        NcType::Short | NcType::UShort => {
            into.copy_from_slice(&(code as u16).to_be_bytes());
        }
        NcType::Int | NcType::Float | NcType::UInt => {
            into.copy_from_slice(&(code as u32).to_be_bytes());
        }
        NcType::Double | NcType::Int64 | NcType::UInt64 => {
            into.copy_from_slice(&code.to_be_bytes());
        }
    }
}

/// Writes a value, which is in the range of the type.
#[inline(always)]
fn put_value(kind: NcType, value: Value, into: &mut [u8])
    requires room { length into.old ≡ external.size_of kind }
    requires fits { external.fits kind value ≡ true }
    ensures { into.new ≡ external.ext kind value }
{
    if let Some(code) = code_of(kind, value) {
        put_code(kind, code, into);
    }
}

/// Writes the values of words, which are all in the range of the type.
#[inline(always)]
fn put_all<T: Kept<W>, W: Copy>(kind: NcType, words: &[W], into: &mut [u8])
    requires room { length words.now * external.size_of kind ≡ length into.old }
    requires fit { first_out kind (map T.told words.now) ≡ None }
    ensures { into.new ≡ packed kind (map T.told words.now) }
{
    let size = size_of(kind) as usize;
    for (i, word) in words.iter().enumerate() {
        let at = i * size;
        put_value(kind, T::value(*word), &mut into[at..at + size]);
    }
}

/// Writes the values of words in external form; refused, nothing is written. Where the type is known as the program is built, no
/// type is looked at when it runs.
#[inline(always)]
fn pack<T: Kept<W>, W: Copy>(kind: NcType, words: &[W], into: &mut [u8]) -> Result<(), Refusal>
    ensures packed { OnOk result (pack kind (map T.told words.now) (length into.old) ≡ Ok into.new) }
    ensures refused { IfErr result (λ r. pack kind (map T.told words.now) (length into.old) ≡ Err r) }
    ensures kept { OnErr result (into.new ≡ into.old) }
{
    if !is_length(kind, words.len(), into.len()) {
        return Err(Refusal::Asked(Code::EInvalRequest));
    }
    match first_out::<T, W>(kind, words) {
        Some(number) => Err(Refusal::Range(number as u64)),
        None => {
            put_all::<T, W>(kind, words, into);
            Ok(())
        }
    }
}

/// Tells the number of the value, if it is refused by its range.
pub(crate) fn tell_range(refusal: Refusal, refused: &mut u64)
    ensures { refused.new ≡ range_told refusal refused.old }
{
    if let Refusal::Range(number) = refusal {
        *refused = number;
    }
}

/// Signed numbers in the external form of a type by its number; of those that are not in its range the first one is told.
#[unsafe(no_mangle)]
pub extern "C" fn ncv_pack_int64(
    kind: u32,
    values: &[i64],
    into: &mut [u8],
    refused: &mut u64,
) -> i32
    ensures { let told = of_type (integer_type kind) (λ k. pack k (integers values.now) (length into.old)) in
        IsAnswer result
        ((told ≡ Ok into.new) × (refused.new ≡ refused.old))
        (λ r. (told ≡ Err r) × (into.new ≡ into.old) × (refused.new ≡ range_told r refused.old)) }
{
    match pack_integers::<i64, i64>(kind, values, into) {
        Ok(()) => OK,
        Err(refusal) => {
            tell_range(refusal, refused);
            number_of(refusal)
        }
    }
}

/// Unsigned numbers in the external form of a type by its number; of those that are not in its range the first one is told.
#[unsafe(no_mangle)]
pub extern "C" fn ncv_pack_uint64(
    kind: u32,
    values: &[u64],
    into: &mut [u8],
    refused: &mut u64,
) -> i32
    ensures { let told = of_type (integer_type kind) (λ k. pack k (counts values.now) (length into.old)) in
        IsAnswer result
        ((told ≡ Ok into.new) × (refused.new ≡ refused.old))
        (λ r. (told ≡ Err r) × (into.new ≡ into.old) × (refused.new ≡ range_told r refused.old)) }
{
    match pack_integers::<u64, u64>(kind, values, into) {
        Ok(()) => OK,
        Err(refusal) => {
            tell_range(refusal, refused);
            number_of(refusal)
        }
    }
}

/// Writes the values of words in external form; refused, nothing is written. The type is looked at here alone, and not for each
/// value.
fn pack_as<T: Kept<W>, W: Copy>(kind: NcType, words: &[W], into: &mut [u8]) -> Result<(), Refusal>
    ensures packed { OnOk result (pack kind (map T.told words.now) (length into.old) ≡ Ok into.new) }
    ensures refused { IfErr result (λ r. pack kind (map T.told words.now) (length into.old) ≡ Err r) }
    ensures kept { OnErr result (into.new ≡ into.old) }
{
    match kind {
        NcType::Byte => pack::<T, W>(NcType::Byte, words, into),
        NcType::Short => pack::<T, W>(NcType::Short, words, into),
        NcType::Int => pack::<T, W>(NcType::Int, words, into),
        NcType::UByte => pack::<T, W>(NcType::UByte, words, into),
        NcType::UShort => pack::<T, W>(NcType::UShort, words, into),
        NcType::UInt => pack::<T, W>(NcType::UInt, words, into),
        NcType::Int64 => pack::<T, W>(NcType::Int64, words, into),
        NcType::UInt64 => pack::<T, W>(NcType::UInt64, words, into),
        NcType::Char | NcType::Float | NcType::Double => pack::<T, W>(kind, words, into),
    }
}

/// Whole numbers in the external form of a type by its number.
fn pack_integers<T: Kept<W>, W: Copy>(
    number: u32,
    words: &[W],
    into: &mut [u8],
) -> Result<(), Refusal>
    ensures packed { OnOk result (of_type (integer_type number) (λ k. pack k (map T.told words.now) (length into.old)) ≡ Ok into.new) }
    ensures refused { IfErr result (λ r. of_type (integer_type number) (λ k. pack k (map T.told words.now) (length into.old)) ≡ Err r) }
    ensures kept { OnErr result (into.new ≡ into.old) }
{
    let kind = integer_type(number)?;
    pack_as::<T, W>(kind, words, into)
}

/// Writes bit patterns, which are all in the range of the type; refused, nothing is written.
fn pack_patterns<T: Kept<W>, W: Copy>(
    kind: NcType,
    words: &[W],
    into: &mut [u8],
) -> Result<(), Refusal>
    requires fit { first_out kind (map T.told words.now) ≡ None }
    ensures packed { OnOk result (if_length kind (length words.now) (length into.old) (Ok (packed kind (map T.told words.now))) ≡ Ok into.new) }
    ensures refused { IfErr result (λ r. if_length kind (length words.now) (length into.old) (Ok (packed kind (map T.told words.now))) ≡ Err r) }
    ensures kept { OnErr result (into.new ≡ into.old) }
{
    if !is_length(kind, words.len(), into.len()) {
        return Err(Refusal::Asked(Code::EInvalRequest));
    }
    put_all::<T, W>(kind, words, into);
    Ok(())
}

/// Floats in external form, by their bit patterns.
#[unsafe(no_mangle)]
pub extern "C" fn ncv_pack_float(values: &[u32], into: &mut [u8]) -> i32
    ensures { let told = pack_patterns nc_type.Float values.now (length into.old) in
        IsAnswer result (told ≡ Ok into.new) (λ r. (told ≡ Err r) × (into.new ≡ into.old)) }
{
    match pack_patterns::<f32, u32>(NcType::Float, values, into) {
        Ok(()) => OK,
        Err(refusal) => number_of(refusal),
    }
}

/// Doubles in external form, by their bit patterns.
#[unsafe(no_mangle)]
pub extern "C" fn ncv_pack_double(values: &[u64], into: &mut [u8]) -> i32
    ensures { let told = pack_patterns nc_type.Double values.now (length into.old) in
        IsAnswer result (told ≡ Ok into.new) (λ r. (told ≡ Err r) × (into.new ≡ into.old)) }
{
    match pack_patterns::<f64, u64>(NcType::Double, values, into) {
        Ok(()) => OK,
        Err(refusal) => number_of(refusal),
    }
}
