// Values at the ends of each type with their bytes, and values beside them that are refused.
ghost use Rattle.std.specs.Prelude.{◌≡◌};
ghost use Rattle.nc_base.specs.Values.{count_of};

use nc_base::{BitList, Blob, Code, NcType, NumberList, Value, Values};
use std::alloc::Global;
use std::process::Abort;
use test_fixtures::NO_MEMORY;
use type_external::{code_of, decode_one, encode_into, push_code, size_of};

const FORMS: [(NcType, Value, &[u8]); 25] = [
    (NcType::Byte, Value::Number(-128), b"\x80"),
    (NcType::Byte, Value::Number(127), b"\x7f"),
    (NcType::Char, Value::Char(0), b"\x00"),
    (NcType::Char, Value::Char(255), b"\xff"),
    (NcType::Short, Value::Number(-32768), b"\x80\x00"),
    (NcType::Short, Value::Number(-2), b"\xff\xfe"),
    (NcType::Short, Value::Number(32767), b"\x7f\xff"),
    (NcType::Int, Value::Number(-2147483648), b"\x80\x00\x00\x00"),
    (NcType::Int, Value::Number(16909060), b"\x01\x02\x03\x04"),
    (NcType::Int, Value::Number(2147483647), b"\x7f\xff\xff\xff"),
    (NcType::Float, Value::Bits(0x3f80_0000), b"\x3f\x80\x00\x00"),
    (NcType::Float, Value::Bits(0xffff_ffff), b"\xff\xff\xff\xff"),
    (
        NcType::Double,
        Value::Bits(0x3ff0_0000_0000_0000),
        b"\x3f\xf0\x00\x00\x00\x00\x00\x00",
    ),
    (
        NcType::Double,
        Value::Bits(u64::MAX),
        b"\xff\xff\xff\xff\xff\xff\xff\xff",
    ),
    (NcType::UByte, Value::Number(0), b"\x00"),
    (NcType::UByte, Value::Number(255), b"\xff"),
    (NcType::UShort, Value::Number(258), b"\x01\x02"),
    (NcType::UShort, Value::Number(65535), b"\xff\xff"),
    (NcType::UInt, Value::Number(0), b"\x00\x00\x00\x00"),
    (NcType::UInt, Value::Number(4294967295), b"\xff\xff\xff\xff"),
    (
        NcType::Int64,
        Value::Number(-9223372036854775808),
        b"\x80\x00\x00\x00\x00\x00\x00\x00",
    ),
    (
        NcType::Int64,
        Value::Number(9223372036854775807),
        b"\x7f\xff\xff\xff\xff\xff\xff\xff",
    ),
    (
        NcType::UInt64,
        Value::Number(0),
        b"\x00\x00\x00\x00\x00\x00\x00\x00",
    ),
    (
        NcType::UInt64,
        Value::Number(72623859790382856),
        b"\x01\x02\x03\x04\x05\x06\x07\x08",
    ),
    (
        NcType::UInt64,
        Value::Number(18446744073709551615),
        b"\xff\xff\xff\xff\xff\xff\xff\xff",
    ),
];

const REFUSED: [(NcType, Value, Code); 9] = [
    (NcType::Byte, Value::Number(-129), Code::ERange),
    (NcType::Byte, Value::Number(128), Code::ERange),
    (NcType::UByte, Value::Number(-1), Code::ERange),
    (
        NcType::UInt64,
        Value::Number(18446744073709551616),
        Code::ERange,
    ),
    (NcType::Float, Value::Bits(0x1_0000_0000), Code::ERange),
    // Of the wrong kind, and in no range.
    (NcType::Char, Value::Number(65536), Code::EChar),
    (NcType::Byte, Value::Char(200), Code::EChar),
    (NcType::Byte, Value::Bits(256), Code::EBadType),
    (
        NcType::Double,
        Value::Number(18446744073709551616),
        Code::EBadType,
    ),
];

/// The values that are this one.
fn only(rt: &impl Abort, alloc: Global, value: Value) -> Values
    ensures { count_of result ≡ 1 }
{
    match value {
        Value::Number(number) => {
            let words = vec![in alloc; number].expect(rt, NO_MEMORY);
            Values::Numbers(NumberList::from_vec(words))
        }
        Value::Char(character) => {
            let characters = vec![in alloc; character].expect(rt, NO_MEMORY);
            Values::Text(Blob::from_vec(characters))
        }
        Value::Bits(pattern) => {
            let words = vec![in alloc; pattern].expect(rt, NO_MEMORY);
            Values::Bits(BitList::from_vec(words))
        }
    }
}

/// Whether the bytes are written for the value, and it is read from them.
fn has_form(kind: NcType, value: Value, values: &Values, bytes: &[u8]) -> bool
    requires { count_of values.now ≡ 1 }
{
    let mut room = [0; 8];
    if bytes.len() as u64 != size_of(kind) || bytes.len() > room.len() {
        return false;
    }
    let into = &mut room[..bytes.len()];
    let written = encode_into(kind, values, 0, into);
    written == Ok(()) && &*into == bytes && decode_one(kind, bytes) == value
}

/// The bytes that are added for a value, none where it is refused.
fn pushed(rt: &impl Abort, alloc: Global, kind: NcType, value: Value) -> Vec<u8> {
    let mut bytes = Vec::new(alloc);
    if let Some(code) = code_of(kind, value) {
        push_code(kind, code, &mut bytes).expect(rt, NO_MEMORY);
    }
    bytes
}

#[test]
fn values_and_their_bytes(rt: HostRuntime) {
    for (kind, value, bytes) in FORMS {
        let values = only(&rt, rt.alloc(), value);
        assert!(rt; has_form(kind, value, &values, bytes));
        assert!(rt; pushed(&rt, rt.alloc(), kind, value).as_slice() == bytes);
        // A call, which hides from the check how each kind of them is let go.
        drop(values);
    }
}

/// How the value is refused.
fn refusal(kind: NcType, values: &Values) -> Result<(), Code>
    requires { count_of values.now ≡ 1 }
{
    let mut room = [0; 8];
    let size = size_of(kind) as usize;
    if size > room.len() {
        return Ok(());
    }
    encode_into(kind, values, 0, &mut room[..size])
}

#[test]
fn values_without_bytes(rt: HostRuntime) {
    for (kind, value, code) in REFUSED {
        let values = only(&rt, rt.alloc(), value);
        assert!(rt; refusal(kind, &values) == Err(code));
    }
}
