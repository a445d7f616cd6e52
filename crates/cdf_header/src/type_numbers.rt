// The numbers of types.
ghost use Rattle.std.specs.Prelude.{◌≡◌};
ghost use Rattle.serial_spec.specs.HeaderBytes.{number_of};
ghost use Rattle.serial_spec.specs.HeaderFaults.{type_size};
ghost use Rattle.cdf_header.specs.Reading.{kind_of};

use nc_base::NcType;

/// The type with this number.
pub(crate) fn kind_of(n: u32) -> NcType
    ensures { result ≡ kind_of n }
{
    match n {
        1 => NcType::Byte,
        2 => NcType::Char,
        3 => NcType::Short,
        4 => NcType::Int,
        5 => NcType::Float,
        6 => NcType::Double,
        7 => NcType::UByte,
        8 => NcType::UShort,
        9 => NcType::UInt,
        10 => NcType::Int64,
        _ => NcType::UInt64,
    }
}

/// The bytes of a value of the type with this number; 0 where no type has it.
pub(crate) fn type_size(n: u32) -> u64
    ensures { result ≡ type_size n }
{
    match n {
        1 | 2 | 7 => 1,
        3 | 8 => 2,
        4 | 5 | 9 => 4,
        6 | 10 | 11 => 8,
        _ => 0,
    }
}

/// The number of a type in a file.
pub(crate) fn number_of(kind: NcType) -> u32
    ensures { result ≡ number_of kind }
{
    match kind {
        NcType::Byte => 1,
        NcType::Char => 2,
        NcType::Short => 3,
        NcType::Int => 4,
        NcType::Float => 5,
        NcType::Double => 6,
        NcType::UByte => 7,
        NcType::UShort => 8,
        NcType::UInt => 9,
        NcType::Int64 => 10,
        NcType::UInt64 => 11,
    }
}
