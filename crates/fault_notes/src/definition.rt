// What the lines of the definitions define.
use crate::cursor::word_at;
use crate::lines::{Line, Part};
use crate::table::beside;

/// What a line defines, by its first word.
#[derive(Clone, Copy, PartialEq, Eq)]
pub(crate) enum Definition {
    Ranks,
    Hint,
    Fill,
    Dim,
    Var,
    Att,
}

const DEFINITIONS: [(&[u8], Definition); 6] = [
    (b"ranks", Definition::Ranks),
    (b"hint", Definition::Hint),
    (b"fill", Definition::Fill),
    (b"dim", Definition::Dim),
    (b"var", Definition::Var),
    (b"att", Definition::Att),
];

impl Definition {
    /// That of a text, where its first word is one's.
    pub(crate) fn of_text(text: &[u8]) -> Option<Definition> {
        beside(word_at(text, 0), &DEFINITIONS)
    }

    /// That of a line of a script.
    pub(crate) fn of_line(line: Line<'_>) -> Option<Definition> {
        if line.part == Part::Definitions {
            Definition::of_text(line.text)
        } else {
            None
        }
    }
}

/// The line of this place, from 0, among those that define one of these.
pub(crate) fn nth_defining<'a>(
    lines: &[Line<'a>],
    definitions: &[Definition],
    place: usize,
) -> Option<Line<'a>> {
    let mut left = place;
    for line in lines {
        if defines(*line, definitions) {
            if left == 0 {
                return Some(*line);
            }
            left -= 1;
        }
    }
    None
}

fn defines(line: Line<'_>, definitions: &[Definition]) -> bool {
    match Definition::of_line(line) {
        Some(definition) => definitions.contains(&definition),
        None => false,
    }
}
