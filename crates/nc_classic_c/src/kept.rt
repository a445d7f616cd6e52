// Values as memory keeps them.
ghost use Rattle.std.specs.Prelude.{◌≡◌, IfSome, IsSome, is_some, pos};
ghost use Rattle.nc_base.specs.declared.header.NcType.{NcType as Kind};
ghost use Rattle.nc_base.specs.declared.header.NcType.TheVariants as kind;
ghost use Rattle.nc_base.specs.declared.request.Value.{Value as Told};
ghost use Rattle.nc_base.specs.declared.request.Value.TheVariants as value;
ghost use Rattle.serial_spec.specs.ExternalForm.{fits};

use nc_base::Value;

/// A type of C, whose values are kept in words `W` of memory: of floats the words are the bit patterns.
pub(crate) trait Kept<W> {
    /// The value that a word is.
    ghost told: { W → Told };

    /// The external type with the same values.
    ghost same: { Kind };

    fn value(word: W) -> Value
        ensures { result ≡ told word };

    fn word(value: Value) -> Option<W>
        ensures kept { is_some result ≡ fits same value }
        ensures same { IfSome result (λ word. told word ≡ value) };
}

impl Kept<i64> for i64 {
    ghost told = { λ w. value.Number w };

    ghost same = { kind.Int64 };

    #[inline(always)]
    fn value(word: i64) -> Value {
        Value::Number(i128::from(word))
    }

    #[inline(always)]
    fn word(value: Value) -> Option<i64> {
        match value {
            Value::Number(number) => i64::try_from(number).ok(),
            _ => None,
        }
    }
}

impl Kept<u64> for u64 {
    ghost told = { λ w. value.Number (pos w) };

    ghost same = { kind.UInt64 };

    #[inline(always)]
    fn value(word: u64) -> Value {
        Value::Number(i128::from(word))
    }

    #[inline(always)]
    fn word(value: Value) -> Option<u64> {
        match value {
            Value::Number(number) => u64::try_from(number).ok(),
            _ => None,
        }
    }
}

impl Kept<u32> for f32 {
    ghost told = { λ w. value.Bits w };

    ghost same = { kind.Float };

    #[inline(always)]
    fn value(word: u32) -> Value {
        Value::Bits(u64::from(word))
    }

    #[inline(always)]
    fn word(value: Value) -> Option<u32> {
        match value {
            Value::Bits(pattern) => u32::try_from(pattern).ok(),
            _ => None,
        }
    }
}

impl Kept<u64> for f64 {
    ghost told = { λ w. value.Bits w };

    ghost same = { kind.Double };

    #[inline(always)]
    fn value(word: u64) -> Value {
        Value::Bits(word)
    }

    #[inline(always)]
    fn word(value: Value) -> Option<u64> {
        match value {
            Value::Bits(pattern) => Some(pattern),
            _ => None,
        }
    }
}
