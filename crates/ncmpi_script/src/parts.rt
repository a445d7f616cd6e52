// The parts of a script, one after the other.
ghost use Rattle.std.specs.Prelude.{◌≡◌, ◌≤◌, IfOk, IfSome};
ghost use Rattle.script_spec.specs.ScriptWords.{significant_of};
ghost use Rattle.script_spec.specs.ScriptGrammar.{head, data_line, definitions, data_part, at_line};
ghost use Rattle.script_words.specs.Given.{Gives, GivesAt, word_of};
ghost use Rattle.script_words.specs.Seen.{line_seen};
ghost use Rattle.ncmpi_script.specs.LineFaults.{TakesLine, on_line};
ghost use Rattle.ncmpi_script.specs.TopWords.{head_by, known_by, definition_by, called_by, call_by};

use nc_base::{ScriptErr, ScriptKind};
use script_calls::RankTable;
use script_definitions::Draft;
use script_words::word_forms::{bare, no_more, version};
use script_words::{Line, LineErr, ReadErr, TextLines, Token, Words, significant_line};
use std::alloc::Global;

/// Reads the head: the version of a new dataset, or 0 for an existing one.
fn head(first: &Token<'_>, words: &mut Words<'_>) -> Result<u8, ReadErr>
    ensures { Gives (λ version. version) result (head (word_of first.now) words.old) }
{
    let Token::Plain(first) = first else {
        return Err(ReadErr::Fault(ScriptKind::NoHead));
    };
    if *first == b"create".as_slice() {
        let version = version(words)?;
        no_more(words)?;
        return Ok(version);
    }
    if *first == b"open".as_slice() {
        no_more(words)?;
        return Ok(0);
    }
    Err(ReadErr::Fault(ScriptKind::NoHead))
}

/// What is wrong with a line, told with its number.
fn on_line(number: u32, fault: ReadErr) -> LineErr
    ensures { result ≡ on_line number fault }
{
    match fault {
        ReadErr::Memory => LineErr::Memory,
        ReadErr::Fault(kind) => LineErr::Fault(ScriptErr { line: number, kind }),
    }
}

/// The next significant line of a text that has not come to its end; `past` is the number past the last line.
fn line_before_end<'a>(
    alloc: Global,
    past: u32,
    lines: &mut TextLines<'a>,
) -> Result<Line<'a>, LineErr>
    ensures { TakesLine past result (significant_of lines.old) (significant_of lines.new) }
{
    match significant_line(alloc, lines) {
        Ok(Some(line)) => Ok(line),
        Ok(None) => Err(LineErr::Fault(ScriptErr {
            line: past,
            kind: ScriptKind::NoEnd,
        })),
        Err(_) => Err(LineErr::Memory),
    }
}

/// Reads the first significant line.
#[tactic(auto, using(crate::proofs::FaultLaws::given_at), unfolding(crate::specs::TopWords::head_by))]
pub fn head_line(line: Line<'_>) -> Result<u8, LineErr>
    ensures { GivesAt (λ version. version) result (head_by (line_seen line.entry)) }
{
    let Line {
        number,
        first,
        mut rest,
    } = line;
    head(&first, &mut rest).map_err(|fault| on_line(number, fault))
}

/// Reads the rest of the line `data`: the number of ranks.
fn data_line(draft: &Draft<'_>, words: &mut Words<'_>) -> Result<u32, ReadErr>
    ensures read { Gives (λ n. n) result (data_line draft.now words.old) }
    ensures bound { IfOk result (λ n. n ≤ 64) }
{
    let Some(ranks) = draft.ranks() else {
        return Err(ReadErr::Fault(ScriptKind::MissingWord));
    };
    no_more(words)?;
    Ok(ranks)
}

/// Reads a line of the definitions that is not `data`.
#[tactic(auto, unfolding(crate::specs::TopWords::known_by))]
fn definition<'a>(
    version: u8,
    draft: &mut Draft<'a>,
    first: &'a [u8],
    words: &mut Words<'a>,
) -> Result<(), ReadErr>
    ensures { Gives (λ _. draft.new) result (known_by version draft.old first.now words.old) }
{
    draft.read(version, first, words)
}

/// Reads a line of the definitions: the number of ranks at `data`.
#[tactic(auto, unfolding(crate::specs::TopWords::definition_by))]
fn definition_step<'a>(
    version: u8,
    draft: &mut Draft<'a>,
    first: Token<'a>,
    words: &mut Words<'a>,
) -> Result<Option<u32>, ReadErr>
    ensures read { Gives (λ ranks. (ranks, draft.new)) result (definition_by version draft.old (word_of first.entry) words.old) }
    ensures bound { IfOk result (λ ranks. IfSome ranks (λ n. n ≤ 64)) }
{
    let first = bare(first)?;
    if first == b"data".as_slice() {
        let ranks = data_line(draft, words)?;
        return Ok(Some(ranks));
    }
    definition(version, draft, first, words)?;
    Ok(None)
}

/// The same with the line's number at a fault.
#[tactic(auto, using(crate::proofs::FaultLaws::given_at))]
fn definition_line<'a>(
    version: u8,
    draft: &mut Draft<'a>,
    line: Line<'a>,
) -> Result<Option<u32>, LineErr>
    ensures read { GivesAt (λ ranks. (ranks, draft.new)) result
        (at_line line.entry.number (definition_by version draft.old (word_of line.entry.first) line.entry.rest)) }
    ensures bound { IfOk result (λ ranks. IfSome ranks (λ n. n ≤ 64)) }
{
    let Line {
        number,
        first,
        mut rest,
    } = line;
    definition_step(version, draft, first, &mut rest).map_err(|fault| on_line(number, fault))
}

/// Reads the definitions, up to `data`: the number of ranks.
#[tactic(auto, using(crate::proofs::TopLaws::same_definition))]
pub fn definitions<'a>(
    alloc: Global,
    past: u32,
    version: u8,
    draft: &mut Draft<'a>,
    lines: &mut TextLines<'a>,
) -> Result<u32, LineErr>
    ensures read { GivesAt (λ ranks. (ranks, (draft.new, significant_of lines.new))) result
        (definitions past version draft.old (significant_of lines.old)) }
    ensures bound { IfOk result (λ n. n ≤ 64) }
{
    loop {
        let line = line_before_end(alloc, past, lines)?;
        if let Some(ranks) = definition_line(version, draft, line)? {
            return Ok(ranks);
        }
    }
}

/// Reads a line of the calls that is not `end`.
#[tactic(auto, unfolding(crate::specs::TopWords::called_by))]
fn call(
    alloc: Global,
    table: &mut RankTable,
    first: &[u8],
    words: &mut Words<'_>,
) -> Result<(), ReadErr>
    ensures { Gives (λ _. table.new) result (called_by table.old first.now words.old) }
{
    table.read(alloc, first, words)
}

/// Reads a line of the calls: whether it is `end`.
#[tactic(auto, unfolding(crate::specs::TopWords::call_by))]
fn call_step<'a>(
    alloc: Global,
    table: &mut RankTable,
    first: Token<'a>,
    words: &mut Words<'a>,
) -> Result<bool, ReadErr>
    ensures { Gives (λ ends. (ends, table.new)) result (call_by table.old (word_of first.entry) words.old) }
{
    let first = bare(first)?;
    if first == b"end".as_slice() {
        no_more(words)?;
        return Ok(true);
    }
    call(alloc, table, first, words)?;
    Ok(false)
}

/// The same with the line's number at a fault.
#[tactic(auto, using(crate::proofs::FaultLaws::given_at))]
fn call_line<'a>(alloc: Global, table: &mut RankTable, line: Line<'a>) -> Result<bool, LineErr>
    ensures { GivesAt (λ ends. (ends, table.new)) result
        (at_line line.entry.number (call_by table.old (word_of line.entry.first) line.entry.rest)) }
{
    let Line {
        number,
        first,
        mut rest,
    } = line;
    call_step(alloc, table, first, &mut rest).map_err(|fault| on_line(number, fault))
}

/// Reads the calls, up to `end`: its line.
#[tactic(auto, using(crate::proofs::TopLaws::same_call))]
pub fn data_part<'a>(
    alloc: Global,
    past: u32,
    table: &mut RankTable,
    lines: &mut TextLines<'a>,
) -> Result<u32, LineErr>
    ensures { GivesAt (λ number. (number, (table.new, significant_of lines.new))) result
        (data_part past table.old (significant_of lines.old)) }
{
    loop {
        let line = line_before_end(alloc, past, lines)?;
        let number = line.number;
        if call_line(alloc, table, line)? {
            return Ok(number);
        }
    }
}
