// The lines of a script, but for empty ones and comments.
use crate::cursor::Cursor;
use memchr::memchr;
use std::alloc::{AllocError, Global};

/// A part of a script.
#[derive(Clone, Copy, PartialEq, Eq)]
pub(crate) enum Part {
    Head,
    Definitions,
    Calls,
    Behind,
}

/// A line of a script.
#[derive(Clone, Copy)]
pub(crate) struct Line<'a> {
    /// Its number in the text, from 1.
    pub number: u64,
    /// The part of the script in which it stands; `data` is the last of the definitions, and `end` of the calls.
    pub part: Part,
    pub text: &'a [u8],
}

/// The lines of a text that are neither empty nor comments.
pub(crate) fn lines_of<'a>(alloc: Global, text: &'a [u8]) -> Result<Vec<Line<'a>>, AllocError> {
    let mut lines = Vec::new(alloc);
    let mut part = Part::Head;
    let mut rest = text;
    for number in 1..u64::MAX {
        let end = memchr(b'\n', rest).unwrap_or(rest.len());
        let text = rest.get(..end).unwrap_or(&[]);
        let first = Cursor::new(text).take().unwrap_or(&[]);
        if !first.is_empty() && first.first() != Some(&b'#') {
            lines.push(Line { number, part, text })?;
            part = part.behind(first);
        }
        rest = rest.get(end.saturating_add(1)..).unwrap_or(&[]);
        if rest.is_empty() {
            break;
        }
    }
    Ok(lines)
}

impl Part {
    // The part behind a line with this first word.
    fn behind(self, first: &[u8]) -> Part {
        match self {
            Part::Head => Part::Definitions,
            Part::Definitions if first == b"data".as_slice() => Part::Calls,
            Part::Calls if first == b"end".as_slice() => Part::Behind,
            same => same,
        }
    }
}
