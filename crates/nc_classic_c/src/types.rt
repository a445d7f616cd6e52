// External types by the numbers of the file format, which are those of netcdf.h.
ghost use Rattle.std.specs.Prelude.{◌≡◌, Ok, Err, IfOk, IfErr};
ghost use Rattle.serial_spec.specs.HeaderBytes as header_bytes;
ghost use Rattle.nc_classic_c.specs.Values.{integer_type, type_of};

use crate::answers::Refusal;
use nc_base::{Code, NcType};

/// The number of a type: NC_BYTE, NC_CHAR and so on.
pub(crate) fn type_number(kind: NcType) -> u32
    ensures { result ≡ header_bytes.number_of kind }
{
    match kind {
        NcType::Byte => 1,
        NcType::Char => 2,
        NcType::Short => 3,
        NcType::Int => 4,
        NcType::Float => 5,
        NcType::Double => 6,
        NcType::UByte => 7,
        NcType::UShort => 8,
        NcType::UInt => 9,
        NcType::Int64 => 10,
        NcType::UInt64 => 11,
    }
}

/// The type of a number.
fn type_of(number: u32) -> Option<NcType>
    ensures { result ≡ type_of number }
{
    match number {
        1 => Some(NcType::Byte),
        2 => Some(NcType::Char),
        3 => Some(NcType::Short),
        4 => Some(NcType::Int),
        5 => Some(NcType::Float),
        6 => Some(NcType::Double),
        7 => Some(NcType::UByte),
        8 => Some(NcType::UShort),
        9 => Some(NcType::UInt),
        10 => Some(NcType::Int64),
        11 => Some(NcType::UInt64),
        _ => None,
    }
}

/// The type of a number, whose values are whole numbers.
pub(crate) fn integer_type(number: u32) -> Result<NcType, Refusal>
    ensures found { IfOk result (λ kind. integer_type number ≡ Ok kind) }
    ensures refused { IfErr result (λ r. integer_type number ≡ Err r) }
{
    match type_of(number) {
        None | Some(NcType::Float | NcType::Double) => Err(Refusal::Asked(Code::EBadType)),
        Some(NcType::Char) => Err(Refusal::Asked(Code::EChar)),
        Some(kind) => Ok(kind),
    }
}
