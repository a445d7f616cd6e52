// The next words of a line, each by its form.
ghost use Rattle.std.specs.Prelude.{◌≡◌, ◌<◌, ◌≤◌, option_map, find, bytes_eq, nat_le, ◌^◌, unsigned_abs, IfOk};
ghost use Rattle.script_spec.specs.ScriptWords.{size_of_text, number_of_text, bits_of_text, between_brackets};
ghost use Rattle.script_spec.specs.ScriptSteps.{bare, next, name, name_of_text, size, ended, reads_as};
ghost use Rattle.serial_spec.specs.ExternalForm.{types};
ghost use Rattle.script_spec.specs.ScriptDefinitions.{length_of_text, number_within, type_of, owner_of_text};
ghost use Rattle.script_spec.specs.ScriptCalls.{id_of_text};
ghost use Rattle.script_spec.specs.ScriptGrammar.{version_of_text};
ghost use Rattle.script_spec.specs.Texts.{type_word};
ghost use Rattle.serial_spec.specs.HeaderBytes.{number_of, last_type};
ghost use Rattle.nc_base.specs.declared.errors.ScriptKind.TheVariants as kind;
ghost use Rattle.script_words.specs.Given.{Gives, word_of};

use crate::fault::ReadErr;
use crate::numbers::{self, is_name};
use crate::vocabulary::type_word;
use crate::words::{Token, Words};
use nc_base::{NcType, ScriptKind};

/// A word as it stands; a text reads as a quote alone, which is no name, number or word of the language.
pub fn bare<'a>(word: Token<'a>) -> Result<&'a [u8], ReadErr>
    ensures { Gives (λ w. w.now) result (bare (word_of word.entry)) }
{
    match word {
        Token::Plain(characters) => Ok(characters),
        Token::Quoted(_) => Ok(&[b'"']),
        Token::Broken => Err(ReadErr::Fault(ScriptKind::BadText)),
    }
}

/// The next word as it stands.
pub fn next<'a>(words: &mut Words<'a>) -> Result<&'a [u8], ReadErr>
    ensures { Gives (λ w. (w.now, words.new)) result (next words.old) }
{
    match words.take()? {
        None => Err(ReadErr::Fault(ScriptKind::MissingWord)),
        Some(word) => bare(word),
    }
}

pub fn name_of_text(word: &[u8]) -> Option<&[u8]>
    ensures { option_map (λ x. x.now) result ≡ name_of_text word.now }
{
    if is_name(word) { Some(word) } else { None }
}

pub fn name<'a>(words: &mut Words<'a>) -> Result<&'a [u8], ReadErr>
    ensures { Gives (λ w. (w.now, words.new)) result (name words.old) }
{
    let word = next(words)?;
    match name_of_text(word) {
        Some(name) => Ok(name),
        None => Err(ReadErr::Fault(ScriptKind::BadName)),
    }
}

pub fn size(words: &mut Words<'_>) -> Result<u64, ReadErr>
    ensures { Gives (λ n. (n, words.new)) result (size words.old) }
{
    let word = next(words)?;
    numbers::size_of_text(word).ok_or(ReadErr::Fault(ScriptKind::BadNumber))
}

pub fn number(words: &mut Words<'_>) -> Result<i128, ReadErr>
    ensures read { Gives (λ n. (n, words.new)) result (reads_as number_of_text kind.BadNumber words.old) }
    ensures bound { IfOk result (λ n. unsigned_abs n < 10 ^ 20) }
{
    let word = next(words)?;
    numbers::number_of_text(word).ok_or(ReadErr::Fault(ScriptKind::BadNumber))
}

pub fn bits(words: &mut Words<'_>) -> Result<u64, ReadErr>
    ensures { Gives (λ n. (n, words.new)) result (reads_as bits_of_text kind.BadNumber words.old) }
{
    let word = next(words)?;
    numbers::bits_of_text(word).ok_or(ReadErr::Fault(ScriptKind::BadNumber))
}

pub fn id(words: &mut Words<'_>) -> Result<u32, ReadErr>
    ensures { Gives (λ n. (n, words.new)) result (reads_as id_of_text kind.BadNumber words.old) }
{
    let word = next(words)?;
    numbers::id_of_text(word).ok_or(ReadErr::Fault(ScriptKind::BadNumber))
}

/// A size from `low` to `high` that is a multiple of `unit`.
pub fn size_within(low: u32, high: u32, unit: u32, words: &mut Words<'_>) -> Result<u32, ReadErr>
    requires { 0 < unit }
    ensures bound { IfOk result (λ n. n ≤ high) }
    ensures read { Gives (λ n. (n, words.new)) result (reads_as (number_within low high unit) kind.BadNumber words.old) }
{
    let word = next(words)?;
    numbers::number_within(low, high, unit, word).ok_or(ReadErr::Fault(ScriptKind::BadNumber))
}

fn version_of_text(word: &[u8]) -> Option<u8>
    ensures { result ≡ version_of_text word.now }
{
    match numbers::size_of_text(word)? {
        1 => Some(1),
        2 => Some(2),
        5 => Some(5),
        _ => None,
    }
}

/// The version of a new dataset.
pub fn version(words: &mut Words<'_>) -> Result<u8, ReadErr>
    ensures { Gives (λ n. (n, words.new)) result (reads_as version_of_text kind.BadNumber words.old) }
{
    let word = next(words)?;
    version_of_text(word).ok_or(ReadErr::Fault(ScriptKind::BadNumber))
}

/// What stands between the brackets of the next word.
pub fn bracketed<'a>(words: &mut Words<'a>) -> Result<&'a [u8], ReadErr>
    ensures { Gives (λ w. (w.now, words.new)) result (reads_as between_brackets kind.BadNumber words.old) }
{
    let word = next(words)?;
    match numbers::between_brackets(word) {
        Some(inside) => Ok(inside),
        None => Err(ReadErr::Fault(ScriptKind::BadNumber)),
    }
}

fn length_of_text(version: u8, word: &[u8]) -> Option<u64>
    ensures { result ≡ length_of_text version word.now }
{
    if word == b"unlimited".as_slice() {
        return Some(0);
    }
    let limit = if version == 5 { 1 << 62 } else { 1 << 31 };
    match numbers::size_of_text(word) {
        Some(n) if n < limit && n != 0 => Some(n),
        _ => None,
    }
}

/// The length of a dimension, 0 for `unlimited`.
pub fn dim_length(version: u8, words: &mut Words<'_>) -> Result<u64, ReadErr>
    ensures { Gives (λ n. (n, words.new)) result (reads_as (length_of_text version) kind.BadNumber words.old) }
{
    let word = next(words)?;
    length_of_text(version, word).ok_or(ReadErr::Fault(ScriptKind::BadNumber))
}

/// No word may follow.
pub fn no_more(words: &mut Words<'_>) -> Result<(), ReadErr>
    ensures { Gives (λ _. tt) result (ended words.old) }
{
    match words.take()? {
        None => Ok(()),
        Some(word) => {
            bare(word)?;
            Err(ReadErr::Fault(ScriptKind::ExtraWord))
        }
    }
}

/// Every type, by number.
const TYPES: [NcType; 11] = [
    NcType::Byte,
    NcType::Char,
    NcType::Short,
    NcType::Int,
    NcType::Float,
    NcType::Double,
    NcType::UByte,
    NcType::UShort,
    NcType::UInt,
    NcType::Int64,
    NcType::UInt64,
];

/// The type that a word names.
fn named_type(word: &[u8]) -> Option<NcType>
    ensures { result ≡ find (λ t. bytes_eq word.now (type_word t)) types }
{
    TYPES.iter().copied().find(|kind| word == type_word(*kind))
}

/// Whether a version has this type.
fn has_type(version: u8, kind: NcType) -> bool
    ensures { result ≡ nat_le (number_of kind) (last_type version) }
{
    version == 5
        || matches!(
            kind,
            NcType::Byte
                | NcType::Char
                | NcType::Short
                | NcType::Int
                | NcType::Float
                | NcType::Double
        )
}

fn type_of_text(version: u8, word: &[u8]) -> Option<NcType>
    ensures { result ≡ type_of version word.now }
{
    match named_type(word) {
        Some(kind) if has_type(version, kind) => Some(kind),
        _ => None,
    }
}

/// The name of a type that the version has.
pub fn type_name(version: u8, words: &mut Words<'_>) -> Result<NcType, ReadErr>
    ensures { Gives (λ t. (t, words.new)) result (reads_as (type_of version) kind.UnknownWord words.old) }
{
    let word = next(words)?;
    type_of_text(version, word).ok_or(ReadErr::Fault(ScriptKind::UnknownWord))
}

fn owner_of_text(word: &[u8]) -> Option<&[u8]>
    ensures { option_map (λ x. x.now) result ≡ owner_of_text word.now }
{
    if word == b":".as_slice() {
        Some(word)
    } else {
        name_of_text(word)
    }
}

/// The owner of an attribute: a name, or a colon for the dataset.
pub fn owner<'a>(words: &mut Words<'a>) -> Result<&'a [u8], ReadErr>
    ensures { Gives (λ w. (w.now, words.new)) result (reads_as owner_of_text kind.BadName words.old) }
{
    let word = next(words)?;
    match owner_of_text(word) {
        Some(owner) => Ok(owner),
        None => Err(ReadErr::Fault(ScriptKind::BadName)),
    }
}
