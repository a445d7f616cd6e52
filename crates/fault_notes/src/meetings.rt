// The collective calls of a script's ranks.
use crate::cursor::word_at;
use crate::earlier::rank_of;
use crate::fill::{Value, fill};
use crate::lines::{Line, Part};
use std::alloc::AllocError;

// The collective calls whose words don't say so.
const COLLECTIVE: [&[u8]; 4] = [
    b"begin_indep_data",
    b"end_indep_data",
    b"sync_numrecs",
    b"fill_var_rec",
];

fn is_collective(call: &[u8]) -> bool {
    call.ends_with(b"_all") || COLLECTIVE.contains(&call)
}

// The line of a rank's collective call of this number, from 0.
fn meeting<'a>(lines: &[Line<'a>], rank: u32, call: u32) -> Option<Line<'a>> {
    let mut left = call;
    for line in lines {
        if meets(*line, rank) {
            if left == 0 {
                return Some(*line);
            }
            left -= 1;
        }
    }
    None
}

fn meets(line: Line<'_>, rank: u32) -> bool {
    line.part == Part::Calls
        && rank_of(word_at(line.text, 0)) == Some(rank)
        && is_collective(word_at(line.text, 1))
}

/// What two ranks call that differ in a collective call of this number, and on which lines.
pub(crate) fn push_difference(
    out: &mut String,
    lines: &[Line<'_>],
    call: u32,
    ranks: [u32; 2],
) -> Result<(), AllocError> {
    fill(
        out,
        "collective call {} of each rank: ",
        &[Value::Number(u64::from(call))],
    )?;
    push_meeting(out, ranks[0], meeting(lines, ranks[0], call))?;
    out.push_str(", ")?;
    push_meeting(out, ranks[1], meeting(lines, ranks[1], call))
}

fn push_meeting(out: &mut String, rank: u32, line: Option<Line<'_>>) -> Result<(), AllocError> {
    match line {
        None => fill(out, "rank {} has none", &[Value::Number(u64::from(rank))]),
        Some(line) => fill(
            out,
            "rank {} has {} on line {}",
            &[
                Value::Number(u64::from(rank)),
                Value::Word(word_at(line.text, 1)),
                Value::Number(line.number),
            ],
        ),
    }
}
