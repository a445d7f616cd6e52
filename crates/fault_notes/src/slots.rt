// What the words of a line are for.
use crate::access::Access;
use crate::cursor::{begins, word_at};
use crate::lines::{Line, Part};
use crate::slot::Slot;
use crate::table::beside;
use hint_table::HintName;

/// What a word of a line is for, at this place from 0.
pub(crate) fn slot_of(line: Line<'_>, place: usize) -> Slot {
    match line.part {
        Part::Head if place == 1 => Slot::Version,
        Part::Definitions => definition_slot(line.text, place),
        Part::Calls => call_slot(line.text, place),
        Part::Head | Part::Behind => Slot::Nothing,
    }
}

// The words behind the first one of a definition, in order; the values of an attribute follow them.
const DEFINED: [(&[u8], &[Slot]); 5] = [
    (b"ranks", &[Slot::Ranks]),
    (b"hint", &[Slot::Hint, Slot::HintValue]),
    (b"dim", &[Slot::Name, Slot::Length]),
    (b"var", &[Slot::Type, Slot::Name, Slot::Dims]),
    (b"att", &[Slot::Owner, Slot::Name, Slot::Type]),
];

fn definition_slot(line: &[u8], place: usize) -> Slot {
    let Some(behind) = place.checked_sub(1) else {
        return Slot::Definition;
    };
    let defined = beside(word_at(line, 0), &DEFINED).unwrap_or(&[]);
    match defined.get(behind) {
        Some(Slot::HintValue) => hint_slot(word_at(line, 1)),
        Some(slot) => *slot,
        None if begins(line, b"att") => Slot::of_type(word_at(line, 3)),
        None => Slot::Nothing,
    }
}

// The value of a hint, where there is one of this word.
fn hint_slot(hint: &[u8]) -> Slot {
    match HintName::of_word(hint) {
        Some(_) => Slot::HintValue,
        None => Slot::Nothing,
    }
}

// The calls that take requests.
const REQUESTS: [&[u8]; 3] = [b"wait", b"wait_all", b"cancel"];

// The other calls of no region of a variable, and the words behind each, in order.
const OPERANDS: [(&[u8], &[Slot]); 3] = [
    (b"buffer_attach", &[Slot::Size]),
    (b"fill_var_rec", &[Slot::Name, Slot::Size]),
    (b"inq_dimlen", &[Slot::Name]),
];

fn call_slot(line: &[u8], place: usize) -> Slot {
    match place {
        0 => Slot::Rank,
        1 => Slot::Call,
        _ => operand_slot(line, word_at(line, 1), place - 2),
    }
}

// The same behind the word of the call, at this place from 0.
fn operand_slot(line: &[u8], call: &[u8], place: usize) -> Slot {
    if REQUESTS.contains(&call) {
        return Slot::Choice;
    }
    match (beside(call, &OPERANDS), Access::of_word(call)) {
        (Some(operands), _) => operands.get(place).copied().unwrap_or(Slot::Nothing),
        (None, Some(access)) => access.slot(line, place),
        (None, None) => Slot::Nothing,
    }
}
