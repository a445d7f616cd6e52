// A script read once more, by the readers that read it first, up to the line that they refuse.
use crate::lines::{Line, Part};
use crate::places::place_of;
use crate::table::beside;
use nc_base::ScriptKind;
use script_calls::RankTable;
use script_calls::mismatch::mismatch;
use script_definitions::Draft;
use script_words::word_forms::{bare, no_more, version};
use script_words::{ReadErr, TextLines, Token, Words};
use std::alloc::{AllocError, Global};

/// The fault of a script.
#[derive(Clone, Copy)]
pub(crate) struct Refused<'a> {
    pub line: Line<'a>,
    pub kind: ScriptKind,
    /// The place of the refused word in the line, from 1; where one is missing, that of the last word.
    pub place: usize,
    /// How many ranks there are, where that is known.
    pub ranks: u32,
}

/// How a script begins.
#[derive(Clone, Copy)]
enum Head {
    Create,
    Open,
}

const HEADS: [(&[u8], Head); 2] = [(b"create", Head::Create), (b"open", Head::Open)];

fn head_of(first: Token<'_>) -> Result<Head, ReadErr> {
    if let Token::Plain(word) = first {
        if let Some(head) = beside(word, &HEADS) {
            return Ok(head);
        }
    }
    Err(ReadErr::Fault(ScriptKind::NoHead))
}

/// What was read so far.
#[derive(Drop)]
struct Replay<'a> {
    alloc: Global,
    part: Part,
    version: u8,
    ranks: u32,
    draft: Draft<'a>,
    table: RankTable,
}

/// The fault of a script, where it has one.
pub(crate) fn first_refused<'a>(
    alloc: Global,
    lines: &[Line<'a>],
) -> Result<Option<Refused<'a>>, AllocError> {
    let mut replay = Replay::new(alloc)?;
    let refused = replay.first(lines);
    // A call, which hides from the check of this function how each of its lists is let go.
    drop(replay);
    refused
}

impl<'a> Replay<'a> {
    fn new(alloc: Global) -> Result<Self, AllocError> {
        // The table first, so that nothing large is let go where there is no memory.
        Ok(Replay {
            alloc,
            part: Part::Head,
            version: 0,
            ranks: 0,
            table: RankTable::new(alloc, 0, 0)?,
            draft: Draft::new(alloc)?,
        })
    }

    // Reads the lines up to the first one that is refused.
    fn first(&mut self, lines: &[Line<'a>]) -> Result<Option<Refused<'a>>, AllocError> {
        for line in lines {
            if let Some(refused) = self.refuses(*line)? {
                return Ok(Some(refused));
            }
        }
        self.at_end(lines)
    }

    // Reads a line; the answer is why it is refused, where it is.
    fn refuses(&mut self, line: Line<'a>) -> Result<Option<Refused<'a>>, AllocError> {
        let mut words = Words::new(self.alloc, line.text);
        match self.read(&mut words) {
            Ok(()) => Ok(None),
            Err(ReadErr::Memory) => Err(AllocError),
            Err(ReadErr::Fault(kind)) => Ok(Some(Refused {
                line,
                kind,
                place: place_of(line, kind, taken(self.alloc, line.text, words)?),
                ranks: self.ranks,
            })),
        }
    }

    fn read(&mut self, words: &mut Words<'a>) -> Result<(), ReadErr> {
        let Some(first) = words.take()? else {
            return Ok(());
        };
        match self.part {
            Part::Head => self.read_head(first, words),
            Part::Definitions => self.read_definition(bare(first)?, words),
            Part::Calls => self.read_call(bare(first)?, words),
            Part::Behind => Err(ReadErr::Fault(ScriptKind::AfterEnd)),
        }
    }

    fn read_head(&mut self, first: Token<'a>, words: &mut Words<'a>) -> Result<(), ReadErr> {
        match head_of(first)? {
            Head::Create => self.version = version(words)?,
            Head::Open => {}
        }
        no_more(words)?;
        self.part = Part::Definitions;
        Ok(())
    }

    fn read_definition(&mut self, first: &'a [u8], words: &mut Words<'a>) -> Result<(), ReadErr> {
        if first == b"data".as_slice() {
            return self.begin_calls(words);
        }
        self.draft.read(self.version, first, words)?;
        self.ranks = self.draft.ranks().unwrap_or(0);
        Ok(())
    }

    fn begin_calls(&mut self, words: &mut Words<'a>) -> Result<(), ReadErr> {
        let Some(ranks) = self.draft.ranks() else {
            return Err(ReadErr::Fault(ScriptKind::MissingWord));
        };
        no_more(words)?;
        self.table = RankTable::new(self.alloc, ranks, self.draft.values())?;
        self.part = Part::Calls;
        Ok(())
    }

    fn read_call(&mut self, first: &'a [u8], words: &mut Words<'a>) -> Result<(), ReadErr> {
        if first != b"end".as_slice() {
            return self.table.read(self.alloc, first, words);
        }
        no_more(words)?;
        self.part = Part::Behind;
        Ok(())
    }

    // What is missing behind the last line, or differs.
    fn at_end(&self, lines: &[Line<'a>]) -> Result<Option<Refused<'a>>, AllocError> {
        let kind = if self.part == Part::Behind {
            self.difference()?
        } else {
            Some(ScriptKind::NoEnd)
        };
        let (Some(kind), Some(line)) = (kind, lines.last()) else {
            return Ok(None);
        };
        Ok(Some(Refused {
            line: *line,
            kind,
            place: 0,
            ranks: self.ranks,
        }))
    }

    fn difference(&self) -> Result<Option<ScriptKind>, AllocError> {
        match self.table.kinds(self.alloc) {
            Ok(kinds) => Ok(mismatch(kinds.as_slice())),
            Err(_) => Err(AllocError),
        }
    }
}

// How many words of a line were taken, by those that are left.
fn taken(alloc: Global, line: &[u8], left: Words<'_>) -> Result<usize, AllocError> {
    let all = count(Words::new(alloc, line), line.len())?;
    Ok(all.saturating_sub(count(left, line.len())?))
}

// How many words are left, of which there are no more than bytes.
fn count(words: Words<'_>, most: usize) -> Result<usize, AllocError> {
    let mut words = words;
    for number in 0..most {
        if words.take()?.is_none() {
            return Ok(number);
        }
    }
    Ok(most)
}
