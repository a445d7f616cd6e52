// Values in external form, from the words or runs in which they lie in memory.
ghost use Rattle.std.specs.Prelude.{◌≡◌, ◌≤◌, ◌++◌, ◌+ℤ◌, ◌*ℤ◌, ◌+◌, ◌*◌, ◌%◌, ◌^◌, ℕ, pos, false, not, min, length, map, take, flat_map, IfErr, OnOk};
ghost use Rattle.std.specs.List.{list_any, range_with_len};
ghost use Rattle.nc_base.specs.declared.request.Value.{Value as Told};
ghost use Rattle.nc_base.specs.declared.request.Value.TheVariants as value;
ghost use Rattle.nc_base.specs.BitForms.{bits_in};
ghost use Rattle.nc_base.specs.NumberForms.{numbers_in};
ghost use Rattle.serial_spec.specs.ExternalForm.{ext, fits};
ghost use Rattle.imap_extents.specs.Refusals.{IsRangeRefusal};

use crate::packing::push_external;
use crate::runs::push_runs;
use nc_base::{BitWords, CallErr, NcType, NumberWords, Value};

/// A word of memory that holds a value.
pub(crate) trait Word: Copy {
    ghost told: { Self → Told };

    fn value(self) -> Value
        ensures { result ≡ told self };
}

impl Word for i32 {
    ghost told = { λ w. value.Number w };

    #[inline(always)]
    fn value(self) -> Value {
        Value::Number(i128::from(self))
    }
}

impl Word for i64 {
    ghost told = { λ w. value.Number w };

    #[inline(always)]
    fn value(self) -> Value {
        Value::Number(i128::from(self))
    }
}

impl Word for i128 {
    ghost told = { λ w. value.Number w };

    #[inline(always)]
    fn value(self) -> Value {
        Value::Number(self)
    }
}

impl Word for u8 {
    ghost told = { λ w. value.Char w };

    #[inline(always)]
    fn value(self) -> Value {
        Value::Char(self)
    }
}

impl Word for u32 {
    ghost told = { λ w. value.Bits w };

    #[inline(always)]
    fn value(self) -> Value {
        Value::Bits(u64::from(self))
    }
}

impl Word for u64 {
    ghost told = { λ w. value.Bits w };

    #[inline(always)]
    fn value(self) -> Value {
        Value::Bits(self)
    }
}

/// Adds the first `count` numbers in external form.
#[inline(always)]
pub(crate) fn push_numbers(
    kind: NcType,
    words: NumberWords<'_>,
    count: usize,
    bytes: &mut Vec<u8>,
) -> Result<(), CallErr>
    requires { count ≤ length (numbers_in words) }
    ensures ok { OnOk result (bytes.new.items ≡ bytes.old.items ++ flat_map (λ z. ext kind (value.Number z)) (take count (numbers_in words.entry))) }
    ensures right { OnOk result (list_any (λ z. not (fits kind (value.Number z))) (take count (numbers_in words.entry)) ≡ false) }
    ensures refused { IfErr result (IsRangeRefusal (list_any (λ z. not (fits kind (value.Number z))) (take count (numbers_in words.entry)))) }
{
    match words {
        NumberWords::Narrow(words) => push_words(kind, &words[..count], bytes),
        NumberWords::Wide(words) => push_words(kind, &words[..count], bytes),
        NumberWords::Widest(words) => push_words(kind, &words[..count], bytes),
        NumberWords::Runs(runs) => push_runs(kind, runs, count, bytes),
    }
}

/// Adds the first `count` bit patterns in external form.
#[inline(always)]
pub(crate) fn push_patterns(
    kind: NcType,
    words: BitWords<'_>,
    count: usize,
    bytes: &mut Vec<u8>,
) -> Result<(), CallErr>
    requires { count ≤ length (bits_in words) }
    ensures ok { OnOk result (bytes.new.items ≡ bytes.old.items ++ flat_map (λ n. ext kind (value.Bits n)) (take count (bits_in words.entry))) }
    ensures right { OnOk result (list_any (λ n. not (fits kind (value.Bits n))) (take count (bits_in words.entry)) ≡ false) }
    ensures refused { IfErr result (IsRangeRefusal (list_any (λ n. not (fits kind (value.Bits n))) (take count (bits_in words.entry)))) }
{
    match words {
        BitWords::Narrow(words) => push_words(kind, &words[..count], bytes),
        BitWords::Wide(words) => push_words(kind, &words[..count], bytes),
        BitWords::Runs(runs) => push_runs(kind, runs, count, bytes),
    }
}

/// Adds the values of words in external form.
#[inline(always)]
pub(crate) fn push_words<W: Word>(
    kind: NcType,
    words: &[W],
    bytes: &mut Vec<u8>,
) -> Result<(), CallErr>
    ensures ok { OnOk result (bytes.new.items ≡ bytes.old.items ++ flat_map (λ w. ext kind (W.told w)) words.now) }
    ensures right { OnOk result (list_any (λ w. not (fits kind (W.told w))) words.now ≡ false) }
    ensures refused { IfErr result (IsRangeRefusal (list_any (λ w. not (fits kind (W.told w))) words.now)) }
{
    for word in words {
        push_external(kind, word.value(), bytes)?;
    }
    Ok(())
}
