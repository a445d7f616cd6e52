// The words of a line, from the front, as they stand. Texts come last in a line, so the words before them are cut at blanks.
use memchr::memchr3;

/// The words that are left of a line.
#[derive(Clone, Copy)]
pub(crate) struct Cursor<'a> {
    rest: &'a [u8],
}

pub(crate) fn is_blank(c: u8) -> bool {
    c == b' ' || c == b'\t' || c == b'\r'
}

impl<'a> Cursor<'a> {
    pub(crate) fn new(line: &'a [u8]) -> Self {
        Cursor { rest: line }
    }

    /// What is left, without the blanks in front.
    pub(crate) fn left(&self) -> &'a [u8] {
        let mut left = self.rest;
        for byte in self.rest {
            if !is_blank(*byte) {
                break;
            }
            left = left.get(1..).unwrap_or(&[]);
        }
        left
    }

    /// The next word.
    pub(crate) fn take(&mut self) -> Option<&'a [u8]> {
        let rest = self.left();
        if rest.is_empty() {
            return None;
        }
        let end = memchr3(b' ', b'\t', b'\r', rest).unwrap_or(rest.len());
        self.rest = rest.get(end..).unwrap_or(&[]);
        rest.get(..end)
    }

    /// The word behind so many others.
    pub(crate) fn take_behind(&mut self, others: usize) -> Option<&'a [u8]> {
        for _ in 0..others {
            self.take()?;
        }
        self.take()
    }
}

/// The word of a line at this place, from 0; an empty one where it has none there.
pub(crate) fn word_at(line: &[u8], place: usize) -> &[u8] {
    Cursor::new(line).take_behind(place).unwrap_or(&[])
}

/// Whether this is the first word of a line.
pub(crate) fn begins(line: &[u8], word: &[u8]) -> bool {
    word_at(line, 0) == word
}
