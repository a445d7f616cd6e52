// Texts of scripts, of runs, and of what is made from a seed.
mod canonical;
mod ends;
mod limits;
mod made;
mod printing;
mod reading;

use nc_base::ScriptKind;
use ncmpi_script::read_script;
use std::alloc::Global;
use std::process::Abort;
use test_fixtures::NO_MEMORY;

// The fault of a text.
fn fault(alloc: Global, text: &[u8]) -> Option<(u32, ScriptKind)> {
    match read_script(alloc, text) {
        Ok(_) => None,
        Err(fault) => Some((fault.line, fault.kind)),
    }
}

// The text is the wanted one.
fn is_text(rt: &impl Abort, text: &[u8], wanted: &[u8]) {
    assert_eq!(rt; text, wanted);
}

// The fault of a text is this one, or it has none.
fn found<R: Abort>(
    rt: &R,
    alloc: Global,
    text: &[u8],
    wanted: Option<(u32, ScriptKind)>,
    label: &str,
) {
    assert_eq!(rt; fault(alloc, text), wanted, "{label}");
}

// A text between two others, so many times.
fn filled(
    rt: &impl Abort,
    alloc: Global,
    before: &str,
    piece: &str,
    count: u32,
    after: &str,
) -> Vec<u8> {
    let mut text = Vec::from_slice(alloc, before.as_bytes()).expect(rt, NO_MEMORY);
    for _ in 0..count {
        text.extend_from_slice(piece.as_bytes())
            .expect(rt, NO_MEMORY);
    }
    text.extend_from_slice(after.as_bytes())
        .expect(rt, NO_MEMORY);
    text
}

// Each line, which has this number behind these lines, is refused for that cause.
fn line_refused<R: Abort>(
    rt: &R,
    alloc: Global,
    before: &str,
    number: u32,
    table: &[(&str, ScriptKind)],
) {
    for (line, kind) in table {
        let text = filled(rt, alloc, before, line, 1, "\n");
        found(rt, alloc, text.as_slice(), Some((number, *kind)), line);
    }
}
