// Which values may be of an attribute of a type.
ghost use Rattle.std.specs.Prelude.{◌≡◌};
ghost use Rattle.nc_base.specs.declared.request.Value.TheVariants as value;
ghost use Rattle.script_spec.specs.ScriptValues.{may_have};
ghost use Rattle.script_values.specs.Numbers.{magnitude, signed_below, unsigned_below};

use nc_base::NcType;

/// How far a number is from 0, or a negative one from -1.
fn magnitude(n: i128) -> u128
    ensures { result ≡ magnitude n }
{
    if n < 0 {
        n.unsigned_abs() - 1
    } else {
        n.unsigned_abs()
    }
}

/// Whether a number is one of a signed type of so many values.
fn fits_signed(values: u128, n: i128) -> bool
    ensures { result ≡ signed_below values n }
{
    2 * magnitude(n) < values
}

/// Whether a number is one of an unsigned type of so many values.
#[tactic(auto, using(crate::proofs::FitLaws::above_zero, crate::proofs::FitLaws::below_zero))]
fn fits_unsigned(values: u128, n: i128) -> bool
    ensures { result ≡ unsigned_below values n }
{
    if n < 0 {
        return false;
    }
    magnitude(n) < values
}

/// Whether the values of an attribute of this type, or else of a call, may have this number.
#[tactic(auto, using(crate::proofs::FitLaws::signed_fits, crate::proofs::FitLaws::unsigned_fits))]
pub fn may_have_number(kind: Option<NcType>, n: i128) -> bool
    ensures { result ≡ may_have kind (value.Number n) }
{
    match kind {
        None => true,
        Some(NcType::Byte) => fits_signed(1 << 8, n),
        Some(NcType::Short) => fits_signed(1 << 16, n),
        Some(NcType::Int) => fits_signed(1 << 32, n),
        Some(NcType::Int64) => fits_signed(1 << 64, n),
        Some(NcType::UByte) => fits_unsigned(1 << 8, n),
        Some(NcType::UShort) => fits_unsigned(1 << 16, n),
        Some(NcType::UInt) => fits_unsigned(1 << 32, n),
        Some(NcType::UInt64) => fits_unsigned(1 << 64, n),
        Some(NcType::Char | NcType::Float | NcType::Double) => false,
    }
}

/// Whether the values of an attribute of this type, or else of a call, may have these bits.
pub fn may_have_bits(kind: Option<NcType>, bits: u64) -> bool
    ensures { result ≡ may_have kind (value.Bits bits) }
{
    match kind {
        None | Some(NcType::Double) => true,
        Some(NcType::Float) => bits < 1 << 32,
        Some(_) => false,
    }
}
