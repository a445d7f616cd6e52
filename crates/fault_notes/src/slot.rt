// What is said of a word that is refused, or missing, by what it is for.
use crate::cursor::word_at;
use crate::fill::{Value, fill};
use crate::table::beside;
use hint_table::{HINTS, HintForm, HintName};
use memchr::memchr3;
use std::alloc::AllocError;

/// What a word is for.
#[derive(Clone, Copy, PartialEq, Eq)]
pub(crate) enum Slot {
    Version,
    Definition,
    Ranks,
    Hint,
    HintValue,
    Length,
    Type,
    Dims,
    Owner,
    Rank,
    Call,
    Id,
    Name,
    Size,
    Parts,
    /// `all` or ids.
    Choice,
    Start,
    Count,
    Stride,
    Imap,
    /// A value of a call.
    Value,
    /// A value of an attribute, by its type.
    Char,
    Byte,
    Short,
    Int,
    Float,
    Double,
    Ubyte,
    Ushort,
    Uint,
    Int64,
    Uint64,
    /// No word is wanted.
    Nothing,
}

/// What the place of a refused word goes by.
#[derive(Clone, Copy)]
pub(crate) enum Sort {
    Word,
    /// A list of a region.
    List,
    /// `all` or ids.
    Choice,
    /// A value of a call.
    Value,
    /// A value of an attribute.
    Number,
    /// One that is given as bits, of a float or a double.
    Bits,
}

// The slots that are more than a word.
const SORTS: [(Slot, Sort); 17] = [
    (Slot::Choice, Sort::Choice),
    (Slot::Start, Sort::List),
    (Slot::Count, Sort::List),
    (Slot::Stride, Sort::List),
    (Slot::Imap, Sort::List),
    (Slot::Value, Sort::Value),
    (Slot::Char, Sort::Number),
    (Slot::Byte, Sort::Number),
    (Slot::Short, Sort::Number),
    (Slot::Int, Sort::Number),
    (Slot::Float, Sort::Bits),
    (Slot::Double, Sort::Bits),
    (Slot::Ubyte, Sort::Number),
    (Slot::Ushort, Sort::Number),
    (Slot::Uint, Sort::Number),
    (Slot::Int64, Sort::Number),
    (Slot::Uint64, Sort::Number),
];

// The values of the types, but for those of uint64.
const TYPES: [(&[u8], Slot); 10] = [
    (b"char", Slot::Char),
    (b"byte", Slot::Byte),
    (b"short", Slot::Short),
    (b"int", Slot::Int),
    (b"float", Slot::Float),
    (b"double", Slot::Double),
    (b"ubyte", Slot::Ubyte),
    (b"ushort", Slot::Ushort),
    (b"uint", Slot::Uint),
    (b"int64", Slot::Int64),
];

// What a refused word is not, where it is neither a list nor a value.
const MISSED: [(Slot, &str); 16] = [
    (Slot::Version, "no version"),
    (Slot::Definition, "no definition"),
    (Slot::Ranks, "no number of ranks"),
    (Slot::Hint, "no hint"),
    (Slot::HintValue, "no value of this hint"),
    (Slot::Length, "no length"),
    (Slot::Type, "no type"),
    (Slot::Dims, "no list of dimensions"),
    (Slot::Owner, "no owner of an attribute"),
    (Slot::Rank, "no rank"),
    (Slot::Call, "no call"),
    (Slot::Id, "no id"),
    (Slot::Name, "no name"),
    (Slot::Size, "no size"),
    (Slot::Parts, "no number of parts"),
    (Slot::Nothing, "one word too many"),
];

// What is wanted, but for hints and their values.
const WANTED: [(Slot, &str); 31] = [
    (Slot::Version, "a version is 1, 2 or 5"),
    (
        Slot::Definition,
        "before `data` a line begins with ranks, hint, fill, dim, var or att",
    ),
    (Slot::Ranks, "there are 1 to 64"),
    (
        Slot::Length,
        "a length is `unlimited`, or from 1 to below 2^31, in version 5 to below 2^62",
    ),
    (
        Slot::Type,
        "the types are byte, char, short, int, float, double, and in version 5 ubyte, ushort, uint, int64, uint64",
    ),
    (
        Slot::Dims,
        "dimensions stand in brackets, with commas and without blanks, as [t,x]",
    ),
    (
        Slot::Owner,
        "an attribute is of a variable, or of the dataset, which is `:`",
    ),
    (
        Slot::Rank,
        "after `data` a line begins with the number of a rank",
    ),
    (
        Slot::Call,
        "a call is PnetCDF's without ncmpi_ and without a type, as put_vara_all",
    ),
    (Slot::Id, "an id is a number below 2^32"),
    (
        Slot::Name,
        "a name has letters, digits and _ . - + @, and begins with a letter, a digit or _",
    ),
    (Slot::Size, "a size is a whole number below 2^63"),
    (
        Slot::Parts,
        "a varn says first how many parts it has, from 1 to 1024",
    ),
    (Slot::Choice, "`all` or ids are wanted"),
    (
        Slot::Start,
        "START is sizes in brackets, with commas and without blanks, as [0,2]",
    ),
    (
        Slot::Count,
        "COUNT is sizes in brackets, with commas and without blanks, as [0,2]",
    ),
    (
        Slot::Stride,
        "STRIDE is sizes in brackets, with commas and without blanks, as [0,2]",
    ),
    (
        Slot::Imap,
        "IMAP is sizes in brackets, with commas and without blanks, as [0,2]",
    ),
    (
        Slot::Value,
        "values are whole numbers, bits as x3FC00000, one text, or seq N A B, all of one kind",
    ),
    (Slot::Char, "the values of a char are one text in quotes"),
    (Slot::Byte, "a byte is a whole number from -128 to 127"),
    (
        Slot::Short,
        "a short is a whole number from -32768 to 32767",
    ),
    (
        Slot::Int,
        "an int is a whole number from -2147483648 to 2147483647",
    ),
    (
        Slot::Float,
        "a float's values are given as bits, x and up to 8 hexadecimal digits",
    ),
    (
        Slot::Double,
        "a double's values are given as bits, x and up to 16 hexadecimal digits",
    ),
    (Slot::Ubyte, "a ubyte is a whole number from 0 to 255"),
    (Slot::Ushort, "a ushort is a whole number from 0 to 65535"),
    (Slot::Uint, "a uint is a whole number from 0 to 4294967295"),
    (
        Slot::Int64,
        "an int64 is a whole number from -2^63 to 2^63 - 1",
    ),
    (
        Slot::Uint64,
        "a uint64 is a whole number from 0 to 2^64 - 1",
    ),
    (Slot::Nothing, "nothing more is wanted"),
];

impl Slot {
    /// A value of an attribute of this type.
    pub(crate) fn of_type(kind: &[u8]) -> Slot {
        beside(kind, &TYPES).unwrap_or(Slot::Uint64)
    }

    pub(crate) fn sort(self) -> Sort {
        beside(self, &SORTS).unwrap_or(Sort::Word)
    }

    pub(crate) fn is_value(self) -> bool {
        matches!(self.sort(), Sort::Value | Sort::Number | Sort::Bits)
    }

    /// Whether this number is given in decimals where bits are wanted.
    pub(crate) fn takes_bits(self, decimal: &[u8]) -> bool {
        match self.sort() {
            Sort::Value => memchr3(b'.', b'e', b'E', decimal).is_some(),
            Sort::Bits => true,
            _ => false,
        }
    }

    /// What a word is not that is refused here.
    pub(crate) fn missed(self) -> &'static str {
        match self.sort() {
            Sort::Word => beside(self, &MISSED).unwrap_or(""),
            Sort::List => "no list of sizes",
            Sort::Choice => "no id",
            Sort::Value | Sort::Number | Sort::Bits => "no such value",
        }
    }

    /// Adds what is wanted in this line.
    pub(crate) fn push_wanted(self, out: &mut String, line: &[u8]) -> Result<(), AllocError> {
        match self {
            Slot::Hint => push_hints(out),
            Slot::HintValue => push_hint_value(out, word_at(line, 1)),
            _ => out.push_str(beside(self, &WANTED).unwrap_or("")),
        }
    }
}

fn push_hints(out: &mut String) -> Result<(), AllocError> {
    out.push_str("the hints are")?;
    for hint in &HINTS {
        fill(out, " {}", &[Value::Text(text_of(hint.word()))])?;
    }
    Ok(())
}

// The values of the hint of this word.
fn push_hint_value(out: &mut String, hint: &[u8]) -> Result<(), AllocError> {
    match HintName::of_word(hint) {
        Some(hint) => push_form(out, hint.form()),
        None => Ok(()),
    }
}

fn push_form(out: &mut String, form: HintForm) -> Result<(), AllocError> {
    match form {
        HintForm::Within { low, high, unit: 1 } => fill(
            out,
            "it is from {} to {}",
            &[number(low), number(high)],
        ),
        HintForm::Within { low, high, unit } => fill(
            out,
            "it is a multiple of {} from {} to {}",
            &[number(unit), number(low), number(high)],
        ),
        HintForm::Either { zero, one } => fill(
            out,
            "it is {} or {}",
            &[Value::Word(one), Value::Word(zero)],
        ),
    }
}

fn number(number: u32) -> Value<'static> {
    Value::Number(u64::from(number))
}

// The text of a word of a hint.
fn text_of(word: &[u8]) -> &str {
    std::str::from_utf8(word).unwrap_or("")
}
