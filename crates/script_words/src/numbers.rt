// What single words mean.
ghost use Rattle.std.specs.Prelude.{◌≡◌, ◌<◌, ◌^◌, IfSome, true, length, ◌≤◌, fold, Some, ◌==◌, ◌&&◌, ◌%◌, option_map, unsigned_abs};
ghost use Rattle.std.specs.List.{list_all};
ghost use Rattle.script_spec.specs.ScriptWords.{is_digit, digits_value, is_digits, natural_of, size_of_text, number_of_text, bits_of_text, hex_sum, is_name, starts_name, in_name, is_letter, between_brackets, begins_rank, below};
ghost use Rattle.script_spec.specs.ScriptDefinitions.{number_within};
ghost use Rattle.script_spec.specs.ScriptCalls.{id_of_text};

use crate::line_numbers::front_digits;
use crate::texts::hex_value;

pub(crate) fn is_digit(c: u8) -> bool
    ensures { result ≡ is_digit c }
{
    c.is_ascii_digit()
}

fn is_digits(word: &[u8]) -> bool
    ensures { result ≡ is_digits word.now }
{
    !word.is_empty() && word.len() <= 20 && all_digits(word)
}

fn all_digits(word: &[u8]) -> bool
    ensures { result ≡ list_all is_digit word.now }
{
    word.iter().all(|c| is_digit(*c))
}

fn all_in_name(word: &[u8]) -> bool
    ensures { result ≡ list_all in_name word.now }
{
    word.iter().all(|c| in_name(*c))
}

fn digits_value(digits: &[u8]) -> u128
    requires digits { list_all is_digit digits.now ≡ true }
    requires few { length digits.now ≤ 20 }
    ensures value { result ≡ digits_value digits.now }
    ensures bound { result < 10 ^ 20 }
{
    let mut n = 0;
    for d in digits {
        n = 10 * n + u128::from(*d - b'0');
    }
    n
}

#[tactic(auto, using(crate::proofs::FrontLaws::all_digits_say))]
fn natural_of(word: &[u8]) -> Option<u128>
    ensures value { result ≡ natural_of word.now }
    ensures bound { IfSome result (λ n. n < 10 ^ 20) }
{
    let (value, len) = front_digits(word);
    if len > 0 && len == word.len() {
        return Some(u128::from(value));
    }
    long_natural(word)
}

fn long_natural(word: &[u8]) -> Option<u128>
    ensures value { result ≡ natural_of word.now }
    ensures bound { IfSome result (λ n. n < 10 ^ 20) }
{
    if is_digits(word) {
        Some(digits_value(word))
    } else {
        None
    }
}

pub fn size_of_text(word: &[u8]) -> Option<u64>
    ensures value { result ≡ size_of_text word.now }
{
    u64::try_from(natural_of(word)?)
        .ok()
        .filter(|n| *n < 1 << 63)
}

/// A whole number of at most 20 digits.
pub fn number_of_text(word: &[u8]) -> Option<i128>
    ensures value { result ≡ number_of_text word.now }
    ensures bound { IfSome result (λ z. unsigned_abs z < 10 ^ 20) }
{
    let (sign, digits) = word.split_first()?;
    if *sign == b'-' {
        let n = natural_of(digits)?;
        Some(-(n as i128))
    } else {
        let n = natural_of(word)?;
        Some(n as i128)
    }
}

/// The number of up to 16 hexadecimal digits.
fn hex_number(digits: &[u8]) -> Option<u64>
    requires { length digits.now ≤ 16 }
    ensures { result ≡ fold hex_sum (Some 0) digits.now }
{
    let mut n = 0u64;
    for digit in digits {
        n = 16 * n + u64::from(hex_value(*digit)?);
    }
    Some(n)
}

/// Bits: an `x` and up to 16 hexadecimal digits.
pub fn bits_of_text(word: &[u8]) -> Option<u64>
    ensures { result ≡ bits_of_text word.now }
{
    let (mark, digits) = word.split_first()?;
    if *mark == b'x' && !digits.is_empty() && digits.len() <= 16 {
        hex_number(digits)
    } else {
        None
    }
}

pub fn id_of_text(word: &[u8]) -> Option<u32>
    ensures { result ≡ id_of_text word.now }
{
    let n = size_of_text(word)?;
    if n < 1 << 32 { Some(n as u32) } else { None }
}

/// A size from `low` to `high` that is a multiple of `unit`.
pub fn number_within(low: u32, high: u32, unit: u32, word: &[u8]) -> Option<u32>
    requires { 0 < unit }
    ensures value { result ≡ number_within low high unit word.now }
    ensures bound { IfSome result (λ n. n ≤ high) }
{
    let n = size_of_text(word)?;
    if u64::from(low) <= n && n <= u64::from(high) && n % u64::from(unit) == 0 {
        Some(n as u32)
    } else {
        None
    }
}

/// Whether a word is a rank's, which may have any number of digits.
pub fn begins_rank(word: &[u8]) -> bool
    ensures { result ≡ begins_rank word.now }
{
    !word.is_empty() && all_digits(word)
}

/// The value of any number of digits where it is below the limit.
pub fn digits_below(limit: u32, digits: &[u8]) -> Option<u32>
    requires digits { list_all is_digit digits.now ≡ true }
    requires small { limit ≤ 64 }
    ensures { result ≡ below limit (Some (digits_value digits.now)) }
{
    let mut n = 0;
    for d in digits {
        n = (10 * n + u32::from(*d - b'0')).min(limit);
    }
    if n < limit { Some(n) } else { None }
}

/// What stands between brackets.
pub fn between_brackets(word: &[u8]) -> Option<&[u8]>
    ensures { option_map (λ x. x.now) result ≡ between_brackets word.now }
{
    let (open, rest) = word.split_first()?;
    let (close, inside) = rest.split_last()?;
    if *open == b'[' && *close == b']' {
        Some(inside)
    } else {
        None
    }
}

fn is_letter(c: u8) -> bool
    ensures { result ≡ is_letter c }
{
    matches!(c, b'A'..=b'Z' | b'a'..=b'z')
}

fn starts_name(c: u8) -> bool
    ensures { result ≡ starts_name c }
{
    is_letter(c) || is_digit(c) || c == b'_'
}

fn in_name(c: u8) -> bool
    ensures { result ≡ in_name c }
{
    starts_name(c) || c == b'.' || c == b'-' || c == b'+' || c == b'@'
}

pub fn is_name(word: &[u8]) -> bool
    ensures { result ≡ is_name word.now }
{
    match word.split_first() {
        None => false,
        Some((c, rest)) => starts_name(*c) && all_in_name(rest) && rest.len() < 256,
    }
}
