// The words of types and of forms, for what reads them and what prints them.
ghost use Rattle.std.specs.Prelude.{◌≡◌};
ghost use Rattle.script_spec.specs.Texts.{form_word, type_word};

use nc_base::{Form, NcType};

/// The word of a type.
pub fn type_word(kind: NcType) -> &'static [u8]
    ensures { result.now ≡ type_word kind }
{
    match kind {
        NcType::Byte => b"byte",
        NcType::Char => b"char",
        NcType::Short => b"short",
        NcType::Int => b"int",
        NcType::Float => b"float",
        NcType::Double => b"double",
        NcType::UByte => b"ubyte",
        NcType::UShort => b"ushort",
        NcType::UInt => b"uint",
        NcType::Int64 => b"int64",
        NcType::UInt64 => b"uint64",
    }
}

/// How a call tells its region, as the end of its word.
pub fn form_word(form: Form) -> &'static [u8]
    ensures { result.now ≡ form_word form }
{
    match form {
        Form::Var1 => b"var1",
        Form::Var => b"var",
        Form::Vara => b"vara",
        Form::Vars => b"vars",
        Form::Varm => b"varm",
        Form::Varn => b"varn",
    }
}
