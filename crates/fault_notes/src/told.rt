// What a line of the text tells of a fault.
use memchr::memrchr;
use script_words::numbers::size_of_text;

/// The number behind such words at the front of a line, and what stands behind it and the words that follow it.
pub(crate) fn numbered<'a>(
    told: &'a [u8],
    before: &[u8],
    behind: &[u8],
) -> Option<(u64, &'a [u8])> {
    let (digits, rest) = split_digits(told.strip_prefix(before)?)?;
    size_of_text(digits).zip(rest.strip_prefix(behind))
}

// The digits at the front of a text, and the rest, of which there is some.
fn split_digits(text: &[u8]) -> Option<(&[u8], &[u8])> {
    for (end, byte) in text.iter().enumerate() {
        if !byte.is_ascii_digit() {
            return text.split_at_checked(end);
        }
    }
    None
}

/// The words of a line up to its last number, and that number.
pub(crate) fn last_number(told: &[u8]) -> Option<(&[u8], u64)> {
    let blank = memrchr(b' ', told)?;
    let (words, number) = told.split_at_checked(blank)?;
    Some((words, size_of_text(number.strip_prefix(b" ".as_slice())?)?))
}
