// The place of the word that is refused. The readers take a word before they refuse it, but look ahead at the first of some words: then
// what they took ends before it.
use crate::cursor::Cursor;
use crate::lines::Line;
use crate::slot::{Slot, Sort};
use crate::slots::slot_of;
use crate::values::{has_bits, product};
use nc_base::ScriptKind;
use script_words::numbers::{bits_of_text, number_of_text, size_of_text};

/// The place of the refused word in a line, from 1, where so many words were taken; where one is missing, that of the last word.
pub(crate) fn place_of(line: Line<'_>, kind: ScriptKind, taken: usize) -> usize {
    let mut words = Cursor::new(line.text);
    let mut last: &[u8] = &[];
    for _ in 0..taken {
        last = words.take().unwrap_or(&[]);
    }
    let Some(next) = words.take() else {
        return taken;
    };
    let slot = slot_of(line, taken);
    let behind = if matches!(slot.sort(), Sort::Choice) {
        behind_all(kind, next)
    } else if slot.is_value() && is_read(slot_of(line, taken.saturating_sub(1)), last) {
        ahead(kind, next, words)
    } else {
        0
    };
    taken.saturating_add(behind)
}

// How far it stands behind `all`.
fn behind_all(kind: ScriptKind, first: &[u8]) -> usize {
    if kind == ScriptKind::ExtraWord && first == b"all".as_slice() {
        2
    } else {
        0
    }
}

// Whether the last word before values was no fault.
fn is_read(slot: Slot, last: &[u8]) -> bool {
    if matches!(slot.sort(), Sort::List) {
        product(last).is_some()
    } else {
        !slot.is_value()
    }
}

// How far the refused word stands behind the words before the values, of which this one is the first.
fn ahead(kind: ScriptKind, first: &[u8], words: Cursor<'_>) -> usize {
    match kind {
        ScriptKind::BadText => 1,
        ScriptKind::ExtraWord if first.first() == Some(&b'"') => 2,
        ScriptKind::BadNumber | ScriptKind::MissingWord | ScriptKind::ExtraWord => {
            match has_bits(first) {
                Some(has_bits) => in_sequence(words, has_bits),
                None => 0,
            }
        }
        _ => 0,
    }
}

// The same behind `seq` or `seqx`, by the words N A B.
fn in_sequence(words: Cursor<'_>, has_bits: bool) -> usize {
    let mut words = words;
    for place in 1..=3usize {
        let Some(word) = words.take() else {
            return place;
        };
        if !fits(place, word, has_bits) {
            return place + 1;
        }
    }
    if words.take().is_some() { 5 } else { 4 }
}

fn fits(place: usize, word: &[u8], has_bits: bool) -> bool {
    match (place, has_bits) {
        (1, _) => size_of_text(word).is_some(),
        (_, true) => bits_of_text(word).is_some(),
        (_, false) => number_of_text(word).is_some(),
    }
}
