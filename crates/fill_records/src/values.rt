// The fill value of a variable.
ghost use Rattle.std.specs.Prelude.{◌≡◌, ◌<◌, true, length, slice_get, IfSome};
ghost use Rattle.serial_spec.specs.ExternalForm.{size_of, ext};
ghost use Rattle.serial_spec.specs.Fill as fill;
ghost use Rattle.serial_spec.specs.Fill.{fill_bytes};
ghost use Rattle.serial_spec.specs.SoundHeaders.{is_sound};

use nc_base::{Attr, Header, NcType, Var};
use type_external::size_of;

/// The attribute that has a variable's own fill value.
const FILL_VALUE: &[u8] = b"_FillValue";

// The default fill values, as netcdf.h has them; those of the floating types are 15 * 2^119, here its bit patterns.
const FILL_BYTE: i8 = -127;

const FILL_CHAR: u8 = 0;

const FILL_SHORT: i16 = -32767;

const FILL_INT: i32 = -2147483647;

const FILL_FLOAT: u32 = 0x7cf0_0000;

const FILL_DOUBLE: u64 = 0x479e_0000_0000_0000;

const FILL_UBYTE: u8 = 255;

const FILL_USHORT: u16 = 65535;

const FILL_UINT: u32 = 4294967295;

const FILL_INT64: i64 = -9223372036854775806;

const FILL_UINT64: u64 = 18446744073709551614;

/// Places the bytes of the variable's fill value, as many as its type has: those of its attribute `_FillValue`, where that is one
/// value of the type, else the type's default.
pub fn fill_value(header: &Header, var: usize, into: &mut [u8])
    requires sound { is_sound header.now ≡ true }
    requires there { var < length header.now.vars }
    requires size { IfSome (slice_get header.now.vars var) (λ v. length into.old ≡ size_of v.kind) }
    ensures { IfSome (slice_get header.now.vars var) (λ v. into.new ≡ fill_bytes v) }
{
    put_fill_value(&header.vars.as_slice()[var], into);
}

fn put_fill_value(var: &Var, into: &mut [u8])
    requires { length into.old ≡ size_of var.now.kind }
    ensures { into.new ≡ fill_bytes var.now }
{
    for attr in var.attrs.as_slice() {
        if is_fill_value(var.kind, attr) {
            into.copy_from_slice(attr.bytes.as_slice());
            return;
        }
    }
    put_default(var.kind, into);
}

// Whether an attribute has the fill value of a variable of this type.
fn is_fill_value(kind: NcType, attr: &Attr) -> bool
    ensures { result ≡ fill.is_fill_value kind attr.now }
{
    attr.name.as_slice() == FILL_VALUE
        && attr.kind == kind
        && attr.count == 1
        && attr.bytes.len() as u64 == size_of(kind)
}

// Places the default fill value of a type.
fn put_default(kind: NcType, into: &mut [u8])
    requires { length into.old ≡ size_of kind }
    ensures { into.new ≡ ext kind (fill.default_fill kind) }
{
    match kind {
        NcType::Byte => into.copy_from_slice(&FILL_BYTE.to_be_bytes()),
        NcType::Char => into.copy_from_slice(&FILL_CHAR.to_be_bytes()),
        NcType::Short => into.copy_from_slice(&FILL_SHORT.to_be_bytes()),
        NcType::Int => into.copy_from_slice(&FILL_INT.to_be_bytes()),
        NcType::Float => into.copy_from_slice(&FILL_FLOAT.to_be_bytes()),
        NcType::Double => into.copy_from_slice(&FILL_DOUBLE.to_be_bytes()),
        NcType::UByte => into.copy_from_slice(&FILL_UBYTE.to_be_bytes()),
        NcType::UShort => into.copy_from_slice(&FILL_USHORT.to_be_bytes()),
        NcType::UInt => into.copy_from_slice(&FILL_UINT.to_be_bytes()),
        NcType::Int64 => into.copy_from_slice(&FILL_INT64.to_be_bytes()),
        NcType::UInt64 => into.copy_from_slice(&FILL_UINT64.to_be_bytes()),
    }
}
