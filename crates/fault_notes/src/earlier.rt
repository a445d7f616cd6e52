// What earlier lines of a script name.
use crate::access::Access;
use crate::cursor::word_at;
use crate::definition::Definition;
use crate::lines::{Line, Part};
use script_words::ListParts;
use script_words::numbers::{begins_rank, between_brackets, digits_below, id_of_text};

// What a line of the definitions names: no two lines may name the same.
#[derive(Clone, Copy, PartialEq, Eq)]
struct Defined<'a> {
    definition: Definition,
    // The owner of an attribute.
    owner: &'a [u8],
    name: &'a [u8],
}

fn name_of(line: Line<'_>) -> Option<Defined<'_>> {
    let definition = Definition::of_line(line)?;
    // The places of the two words; at 0 stands the word of the definition.
    let (owner, name) = match definition {
        Definition::Ranks | Definition::Fill => (0, 0),
        Definition::Hint | Definition::Dim => (0, 1),
        Definition::Var => (0, 2),
        Definition::Att => (1, 2),
    };
    Some(Defined {
        definition,
        owner: word_at(line.text, owner),
        name: word_at(line.text, name),
    })
}

// The request that a line posts: no two lines may post the same.
#[derive(Clone, Copy, PartialEq, Eq)]
struct Posted {
    rank: u32,
    id: u32,
}

fn post_of(line: Line<'_>) -> Option<Posted> {
    if line.part != Part::Calls || !Access::of_word(word_at(line.text, 1))?.is_post {
        return None;
    }
    Some(Posted {
        rank: rank_of(word_at(line.text, 0))?,
        id: id_of_text(word_at(line.text, 2))?,
    })
}

/// The rank that a word tells, where it is below 64.
pub(crate) fn rank_of(word: &[u8]) -> Option<u32> {
    if begins_rank(word) {
        digits_below(64, word)
    } else {
        None
    }
}

/// The line before this one that names the same.
pub(crate) fn first_naming(lines: &[Line<'_>], line: Line<'_>) -> Option<u64> {
    for other in lines {
        if other.number >= line.number {
            return None;
        }
        if names_same(*other, line) {
            return Some(other.number);
        }
    }
    None
}

fn names_same(other: Line<'_>, line: Line<'_>) -> bool {
    match name_of(line) {
        Some(own) => name_of(other) == Some(own),
        None => match post_of(line) {
            Some(own) => post_of(other) == Some(own),
            None => false,
        },
    }
}

// Whether a line before this one defines a dimension of this name.
fn is_dim(lines: &[Line<'_>], name: &[u8], line: Line<'_>) -> bool {
    for other in lines {
        if other.number < line.number && defines_dim(*other, name) {
            return true;
        }
    }
    false
}

fn defines_dim(line: Line<'_>, name: &[u8]) -> bool {
    Definition::of_line(line) == Some(Definition::Dim) && word_at(line.text, 1) == name
}

/// The dimension or the owner that a line of the definitions names and that no line before it defines.
pub(crate) fn undefined<'a>(lines: &[Line<'a>], line: Line<'a>) -> Option<&'a [u8]> {
    match Definition::of_text(line.text)? {
        Definition::Att => Some(word_at(line.text, 1)),
        Definition::Var => undefined_dim(lines, word_at(line.text, 3), line),
        _ => None,
    }
}

fn undefined_dim<'a>(lines: &[Line<'a>], shape: &'a [u8], line: Line<'a>) -> Option<&'a [u8]> {
    let mut names = ListParts::new(between_brackets(shape)?);
    for _ in 0..shape.len() {
        let name = names.take()?;
        if !is_dim(lines, name, line) {
            return Some(name);
        }
    }
    None
}

/// The line that gives a dimension the length `unlimited`.
pub(crate) fn record_dim<'a>(lines: &[Line<'a>]) -> Option<Line<'a>> {
    for line in lines {
        if is_record_dim(line.text) {
            return Some(*line);
        }
    }
    None
}

fn is_record_dim(text: &[u8]) -> bool {
    word_at(text, 0) == b"dim".as_slice() && word_at(text, 2) == b"unlimited".as_slice()
}
