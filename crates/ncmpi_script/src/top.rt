// A whole text.
ghost use Rattle.std.specs.Prelude.{◌≡◌, ◌≢◌, ◌≤◌, ◌<◌, ◌^◌, ◌+◌, IfOk, IfErr, length, filter, Ok};
ghost use Rattle.script_spec.specs.ScriptWords.{text_lines, significant_of, is_newline};
ghost use Rattle.script_spec.specs.ScriptGrammar.{is_mismatch, newlines, without_head, Reads, script_fault};
ghost use Rattle.script_spec.specs.ScriptDefinitions.{nothing_known};
ghost use Rattle.ncmpi_script.specs.TopWords.{data_part_by, finish_by, made_by, rest_by, headed_by, lines_by, utf8_by, text_by};
ghost use Rattle.script_words.specs.Seen.{line_seen};
ghost use Rattle.nc_base.specs.declared.errors.ScriptKind.TheVariants as kind;
ghost use Rattle.script_words.specs.Given.{GivesAt};

use crate::parts::{data_part, definitions, head_line};
use nc_base::{
    CallTable, LimitName, MAX_SCRIPT_BYTES, MAX_SCRIPT_LINES, Script, ScriptErr, ScriptKind,
};
use script_calls::RankTable;
use script_calls::mismatch::mismatch;
use script_definitions::Draft;
use script_words::{Line, LineErr, TextLines, significant_line};
use std::alloc::Global;

/// How many lines a text has.
#[tactic(auto, using(script_words::proofs::LineLaws::few_lines, script_words::proofs::LineLaws::numbered))]
fn count_lines(text: &[u8]) -> u32
    requires { length text.now ≤ 2 ^ 26 }
    ensures value { result ≡ length (text_lines text.now) }
    ensures bound { result ≤ 2 ^ 26 + 1 }
{
    let mut lines = TextLines::new(text);
    let mut count = 0;
    while let Some(_) = lines.take() {
        count += 1;
    }
    count
}

/// How many newlines a text has.
fn newlines(text: &[u8]) -> u32
    requires { length text.now ≤ 2 ^ 26 }
    ensures value { result ≡ newlines text.now }
    ensures bound { result ≤ 2 ^ 26 }
{
    let mut count = 0;
    for character in text {
        if *character == b'\n' {
            count += 1;
        }
    }
    count
}

/// What follows `end`, which stands on this line: nothing, and the ranks agree.
#[tactic(auto, unfolding(crate::specs::TopWords::finish_by))]
fn finish<'a>(
    alloc: Global,
    number: u32,
    table: &RankTable,
    lines: &mut TextLines<'a>,
) -> Result<(), LineErr>
    ensures { GivesAt (λ _. tt) result (finish_by number table.now.calls (significant_of lines.old)) }
{
    match significant_line(alloc, lines) {
        Ok(None) => {}
        Ok(Some(line)) => {
            return Err(LineErr::Fault(ScriptErr {
                line: line.number,
                kind: ScriptKind::AfterEnd,
            }));
        }
        Err(_) => return Err(LineErr::Memory),
    }
    let Ok(kinds) = table.kinds(alloc) else {
        return Err(LineErr::Memory);
    };
    match mismatch(kinds.as_slice()) {
        None => Ok(()),
        Some(kind) => Err(LineErr::Fault(ScriptErr { line: number, kind })),
    }
}

/// The script of this version and so many ranks, by what the lines before `data` have said, and the calls.
#[tactic(auto, unfolding(crate::specs::TopWords::made_by))]
fn script_of(version: u8, ranks: u32, draft: Draft<'_>, calls: CallTable) -> Script
    ensures { result ≡ made_by version ranks draft.entry calls }
{
    let Draft {
        hints,
        defined,
        added,
        ..
    } = draft;
    Script {
        fresh: version != 0,
        hints: hints.hints(ranks),
        filled: defined.is_filled(),
        header: defined.into_header(version),
        ranks,
        extra: added.into_extras(),
        calls,
    }
}

/// Reads the calls into a new table: the line of `end`, and the table.
#[tactic(auto, unfolding(crate::specs::TopWords::data_part_by))]
fn read_calls(
    alloc: Global,
    past: u32,
    ranks: u32,
    draft: &Draft<'_>,
    lines: &mut TextLines<'_>,
) -> Result<(u32, RankTable), LineErr>
    requires { ranks ≤ 64 }
    ensures { GivesAt (λ c. (c.0, (c.1, significant_of lines.new))) result (data_part_by past ranks draft.now (significant_of lines.old)) }
{
    let mut table = RankTable::new(alloc, ranks, draft.values())?;
    let number = data_part(alloc, past, &mut table, lines)?;
    Ok((number, table))
}

/// Reads what follows the head, its definitions into a new draft: how many ranks there are, and the calls of each.
#[tactic(auto, unfolding(crate::specs::TopWords::rest_by, crate::specs::TopWords::definitions_by, crate::specs::TopWords::calls_by, crate::specs::TopWords::end_by))]
fn read_parts<'a>(
    alloc: Global,
    past: u32,
    version: u8,
    draft: &mut Draft<'a>,
    lines: &mut TextLines<'a>,
) -> Result<(u32, CallTable), LineErr>
    requires { draft.old ≡ nothing_known }
    ensures { GivesAt (λ parts. made_by version parts.0 draft.new parts.1) result (rest_by past version (significant_of lines.old)) }
{
    let ranks = definitions(alloc, past, version, draft, lines)?;
    let (number, table) = read_calls(alloc, past, ranks, draft, lines)?;
    finish(alloc, number, &table, lines)?;
    let calls = table.into_calls(alloc)?;
    Ok((ranks, calls))
}

/// Reads what follows the head.
fn read_rest(
    alloc: Global,
    past: u32,
    version: u8,
    lines: &mut TextLines<'_>,
) -> Result<Script, LineErr>
    ensures { GivesAt (λ script. script) result (rest_by past version (significant_of lines.old)) }
{
    let mut draft = Draft::new(alloc)?;
    match read_parts(alloc, past, version, &mut draft, lines) {
        Ok((ranks, calls)) => Ok(script_of(version, ranks, draft, calls)),
        Err(fault) => {
            // A call, which hides from the check of this function how each of its lists is let go.
            drop(draft);
            Err(fault)
        }
    }
}

/// Reads a script whose head stands on this line.
#[tactic(auto, unfolding(crate::specs::TopWords::headed_by))]
fn read_from_head<'a>(
    alloc: Global,
    past: u32,
    line: Line<'a>,
    lines: &mut TextLines<'a>,
) -> Result<Script, LineErr>
    ensures { GivesAt (λ script. script) result (headed_by past (line_seen line.entry) (significant_of lines.old)) }
{
    match head_line(line) {
        Ok(version) => read_rest(alloc, past, version, lines),
        Err(fault) => Err(fault),
    }
}

/// The fault of a text without a significant line, which is seen at its end; `past` is the number past its last line.
fn without_head(past: u32) -> ScriptErr
    ensures { result ≡ without_head past }
{
    if past <= MAX_SCRIPT_LINES + 1 {
        ScriptErr {
            line: 1,
            kind: ScriptKind::NoHead,
        }
    } else {
        ScriptErr {
            line: MAX_SCRIPT_LINES + 1,
            kind: ScriptKind::Limit(LimitName::Lines),
        }
    }
}

/// Reads the script of the lines of a text; `past` is the number past the last.
#[tactic(auto, using(crate::proofs::TopLaws::lines_none, crate::proofs::TopLaws::lines_some))]
fn script_of_lines<'a>(
    alloc: Global,
    past: u32,
    lines: &mut TextLines<'a>,
) -> Result<Script, LineErr>
    ensures { GivesAt (λ script. script) result (lines_by past (significant_of lines.old)) }
{
    match significant_line(alloc, lines) {
        Ok(Some(line)) => read_from_head(alloc, past, line, lines),
        Ok(None) => Err(LineErr::Fault(without_head(past))),
        Err(_) => Err(LineErr::Memory),
    }
}

fn is_mismatch(kind: ScriptKind) -> bool
    ensures { result ≡ is_mismatch kind }
{
    matches!(kind, ScriptKind::Mismatch(_, _, _))
}

/// Reads a text that is UTF-8 and not too long.
#[tactic(auto, unfolding(crate::specs::TopWords::utf8_by))]
fn script_of_utf8(alloc: Global, text: &[u8]) -> Result<Script, LineErr>
    requires { length text.now ≤ 2 ^ 26 }
    ensures { GivesAt (λ script. script) result (utf8_by text.now) }
{
    let count = count_lines(text);
    let read = script_of_lines(alloc, count + 1, &mut TextLines::new(text));
    if count <= MAX_SCRIPT_LINES {
        return read;
    }
    match read {
        Err(LineErr::Memory) => Err(LineErr::Memory),
        Err(LineErr::Fault(fault)) if fault.line <= MAX_SCRIPT_LINES && !is_mismatch(fault.kind) =>
            { Err(LineErr::Fault(fault)) }
        _ => Err(LineErr::Fault(ScriptErr {
            line: MAX_SCRIPT_LINES + 1,
            kind: ScriptKind::Limit(LimitName::Lines),
        })),
    }
}

/// Reads a text.
#[tactic(auto, unfolding(crate::specs::TopWords::text_by))]
fn script_of_text(alloc: Global, text: &[u8]) -> Result<Script, LineErr>
    ensures { GivesAt (λ script. script) result (text_by text.now) }
{
    if text.len() > MAX_SCRIPT_BYTES {
        return Err(LineErr::Fault(ScriptErr {
            line: 1,
            kind: ScriptKind::Limit(LimitName::Script),
        }));
    }
    match std::str::from_utf8(text) {
        Ok(_) => script_of_utf8(alloc, text),
        Err(error) => Err(LineErr::Fault(ScriptErr {
            line: newlines(text.split_at(error.valid_up_to()).0) + 1,
            kind: ScriptKind::NotUtf8,
        })),
    }
}

/// Reads a script: the one that the bytes spell, or the first fault and its line.
///
/// Lines are counted from 1. The fault is of the kind `Memory` where memory ran out; its line then tells nothing.
/// The text is read once from front to back; time and memory grow with its length.
#[tactic(auto, using(crate::proofs::TopLaws::same_text))]
pub fn read_script(alloc: Global, bytes: &[u8]) -> Result<Script, ScriptErr>
    ensures read { IfOk result (λ script. Reads bytes.now script) }
    ensures fault { IfErr result (λ e. e.kind ≢ kind.Memory → script_fault bytes.now ≡ Some e) }
{
    match script_of_text(alloc, bytes) {
        Ok(script) => Ok(script),
        Err(LineErr::Fault(fault)) => Err(fault),
        Err(LineErr::Memory) => Err(ScriptErr {
            line: 1,
            kind: ScriptKind::Memory,
        }),
    }
}
