// How many values the words of a call name.
use crate::cursor::{Cursor, is_blank};
use crate::table::beside;
use memchr::{memchr_iter, memchr2};
use script_words::ListParts;
use script_words::numbers::{between_brackets, size_of_text};

/// The product of a list of sizes.
pub(crate) fn product(list: &[u8]) -> Option<u64> {
    let mut sizes = ListParts::new(between_brackets(list)?);
    let mut product = 1u64;
    for _ in 0..list.len() {
        let Some(size) = sizes.take() else {
            break;
        };
        product = product.checked_mul(size_of_text(size)?)?;
    }
    Some(product)
}

/// How many values of memory a count reaches under an index map.
pub(crate) fn span(count: &[u8], map: &[u8]) -> Option<u64> {
    if product(count)? == 0 {
        return Some(0);
    }
    let counts = ListParts::new(between_brackets(count)?);
    let steps = ListParts::new(between_brackets(map)?);
    reach(counts, steps, count.len())?.checked_add(1)
}

// How far the last of the values stands from the first, where there are at most so many dimensions.
fn reach(counts: ListParts<'_>, steps: ListParts<'_>, most: usize) -> Option<u64> {
    let (mut counts, mut steps) = (counts, steps);
    let mut reach = 0u64;
    for _ in 0..most {
        let (Some(count), Some(step)) = (counts.take(), steps.take()) else {
            break;
        };
        reach = reach.checked_add(reach_along(count, step)?)?;
    }
    Some(reach)
}

// The same along one dimension.
fn reach_along(count: &[u8], step: &[u8]) -> Option<u64> {
    let last = size_of_text(count)?.checked_sub(1)?;
    last.checked_mul(size_of_text(step)?)
}

const SEQUENCES: [(&[u8], bool); 2] = [(b"seq", false), (b"seqx", true)];

/// Whether the values of a sequence are bits, by its first word; none where it is no such word.
pub(crate) fn has_bits(first: &[u8]) -> Option<bool> {
    beside(first, &SEQUENCES)
}

/// How many values the rest of a line has; where there can be no more than are asked for, so many.
pub(crate) fn given(words: Cursor<'_>, asked: u64) -> Option<u64> {
    let mut words = words;
    let rest = words.left();
    match words.take() {
        None => Some(0),
        Some([b'"', ..]) => text_length(rest),
        Some(first) if has_bits(first).is_some() => size_of_text(words.take()?),
        Some(_) if most_words(rest) <= asked => Some(asked),
        Some(_) => Some(count_words(rest)),
    }
}

// No fewer words than a line has, which is seen faster than their number: one more than it has spaces.
fn most_words(line: &[u8]) -> u64 {
    match memchr2(b'\t', b'\r', line) {
        Some(_) => u64::MAX,
        None => (memchr_iter(b' ', line).count() as u64).saturating_add(1),
    }
}

// How many bytes a text has, from its first quote on.
fn text_length(text: &[u8]) -> Option<u64> {
    let mut length = 0u64;
    let mut left = 0u8;
    for byte in text.get(1..)? {
        if left == 0 && *byte == b'"' {
            return Some(length);
        }
        left = left_behind(left, *byte);
        length = length.saturating_add(u64::from(left == 0));
    }
    None
}

// How many bytes of an escape are left behind this byte, of so many before it: one behind the backslash, but two behind an x there.
fn left_behind(left: u8, byte: u8) -> u8 {
    match (left, byte) {
        (0, b'\\') => 1,
        (1, b'x') => 2,
        (2, _) => 1,
        _ => 0,
    }
}

fn count_words(line: &[u8]) -> u64 {
    let mut count = 0u64;
    let mut behind_blank = true;
    for byte in line {
        let blank = is_blank(*byte);
        count = count.wrapping_add(u64::from(behind_blank && !blank));
        behind_blank = blank;
    }
    count
}
