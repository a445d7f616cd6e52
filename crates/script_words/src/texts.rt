// The value of a text.
ghost use Rattle.std.specs.Prelude.{◌≡◌, ◌<◌, ◌≤◌, ◌+◌, ◌*◌, ◌==◌, ◌∷◌, ℕ, IfOk, IfSome, false, length, option_map, option_and_then};
ghost use Rattle.script_spec.specs.ScriptWords.{text_from, Between, AfterBackslash, FirstHex, SecondHex, hex_value, escape};
ghost use Rattle.script_words.specs.Escapes.{text_behind};

use std::alloc::{AllocError, Global};

/// The value of the text up to its closing quote, and what follows.
pub fn text(alloc: Global, bytes: &[u8]) -> Result<Option<(Vec<u8>, &[u8])>, AllocError>
    ensures { IfOk result (λ t. option_map (λ x. (x.0.items, x.1.now)) t ≡ text_from Between bytes.now) }
{
    let mut value = Vec::new(alloc);
    let mut rest = bytes;
    while let Some((c, after)) = rest.split_first() {
        if *c == b'"' {
            return Ok(Some((value, after)));
        }
        let Some((character, after)) = character_at(*c, after) else {
            return Ok(None);
        };
        value.push(character)?;
        rest = after;
    }
    Ok(None)
}

/// The character of a text that begins with `first`, which is no quote, and what follows.
fn character_at(first: u8, after: &[u8]) -> Option<(u8, &[u8])>
    ensures value { (first == 34) ≡ false → text_from Between (first ∷ after.now) ≡ text_behind (option_map (λ x. (x.0, x.1.now)) result) }
    ensures rest { IfSome result (λ x. length x.1.now ≤ length after.now) }
{
    if first == b'\\' {
        escaped(after)
    } else {
        Some((first, after))
    }
}

/// The byte that an escape stands for, after its backslash, and what follows.
fn escaped(bytes: &[u8]) -> Option<(u8, &[u8])>
    ensures value { text_from AfterBackslash bytes.now ≡ text_behind (option_map (λ x. (x.0, x.1.now)) result) }
    ensures rest { IfSome result (λ x. length x.1.now ≤ length bytes.now) }
{
    let (c, after) = bytes.split_first()?;
    if *c == b'x' {
        return hex_byte(after);
    }
    Some((escape(*c)?, after))
}

/// The byte of two hexadecimal digits, and what follows.
fn hex_byte(bytes: &[u8]) -> Option<(u8, &[u8])>
    ensures value { text_from FirstHex bytes.now ≡ text_behind (option_map (λ x. (x.0, x.1.now)) result) }
    ensures rest { IfSome result (λ x. length x.1.now ≤ length bytes.now) }
{
    let (high, after) = hex_digit(bytes)?;
    let (low, after) = hex_digit(after)?;
    Some((16 * high + low, after))
}

/// The value of the hexadecimal digit in front, and what follows.
fn hex_digit(bytes: &[u8]) -> Option<(u8, &[u8])>
    ensures first { text_from FirstHex bytes.now ≡ option_and_then (λ x. text_from (SecondHex x.0) x.1.now) result }
    ensures second { (high : ℕ) → text_from (SecondHex high) bytes.now ≡ text_behind (option_map (λ x. (16 * high + x.0, x.1.now)) result) }
    ensures bound { IfSome result (λ x. x.0 < 16) }
    ensures rest { IfSome result (λ x. length x.1.now ≤ length bytes.now) }
{
    let (c, after) = bytes.split_first()?;
    Some((hex_value(*c)?, after))
}

pub fn hex_value(c: u8) -> Option<u8>
    ensures value { result ≡ hex_value c }
    ensures bound { IfSome result (λ n. n < 16) }
{
    match c {
        b'0'..=b'9' => Some(c - b'0'),
        b'A'..=b'F' => Some(c - 55),
        b'a'..=b'f' => Some(c - 87),
        _ => None,
    }
}

fn escape(c: u8) -> Option<u8>
    ensures { result ≡ escape c }
{
    match c {
        b'"' | b'\\' => Some(c),
        b'n' => Some(10),
        b't' => Some(9),
        _ => None,
    }
}
