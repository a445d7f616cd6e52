// A whole source, and a whole text to a sink.
ghost use Rattle.std.specs.Prelude.{◌≡◌, ◌<◌, ◌≤◌, ℕ, [], length, take, IfOk, OnOk, IsErrOf};
ghost use Rattle.nc_outside.specs.Told.{after, with_front, with_end};
ghost use Rattle.nc_outside.specs.Cause.{HasCause, Rose};
ghost use Rattle.dataset_start.specs.Limits.{max_text, most_taken, TakesAtMost};
ghost use Rattle.dataset_start.specs.declared.streams.TakeErr.TheVariants.{Fault, Memory};

use nc_base::MAX_SCRIPT_BYTES;
use nc_outside::{Failed, Sink, Source};
use std::alloc::{AllocError, Global};

#[derive(Clone, Copy, Debug, PartialEq, Eq)]
pub enum TakeErr {
    Fault,
    Memory,
}

impl From<Failed> for TakeErr {
    ghost from_gives = { λ _ e. e ≡ Fault };

    fn from(_: Failed) -> Self {
        TakeErr::Fault
    }
}

impl From<AllocError> for TakeErr {
    ghost from_gives = { λ _ e. e ≡ Memory };

    fn from(_: AllocError) -> Self {
        TakeErr::Memory
    }
}

// The room of a text before its first byte comes, in bytes: a little less than 32 MiB. The C library of GNU keeps blocks that are freed once it
// has taken back one that was longer, up to this length; else each step that moves megabytes would have its memory mapped and cleared anew.
// What no text fills is never touched, and so takes no memory.
const FIRST_ROOM: usize = (32 << 20) - (64 << 10);

fn empty_text(alloc: Global) -> Vec<u8>
    ensures { result.items ≡ [] }
{
    match Vec::with_capacity(alloc, FIRST_ROOM) {
        Ok(text) => text,
        Err(_) => Vec::new(alloc),
    }
}

/// All the bytes that are left, or, where there are more than a script may have, so many that this shows.
pub(crate) fn take_all<S: Source>(alloc: Global, source: &mut S) -> Result<Vec<u8>, TakeErr>
    ensures taken { IfOk result (λ text. S.left source.old ≡ with_front text.items (S.left source.new)) }
    ensures few { TakesAtMost most_taken (S.left source.old) (S.left source.new) }
    ensures ended { IfOk result (λ text. length text.items ≤ max_text → S.left source.new ≡ after (λ _. []) (S.left source.new)) }
    ensures fault { IsErrOf result TakeErr.Fault → Rose (S.faults source.old) (S.faults source.new) }
    ensures later { S.faults source.old ≤ S.faults source.new }
{
    let mut text = empty_text(alloc);
    let mut buf = [0u8; 65536];
    // Each turn takes a byte at least.
    for _turn in 0..=MAX_SCRIPT_BYTES {
        let count = source.take(&mut buf)?;
        if count == 0 {
            return Ok(text);
        }
        text.extend_from_slice(&buf[..count])?;
        if text.len() > MAX_SCRIPT_BYTES {
            return Ok(text);
        }
    }
    Ok(text)
}

/// Gives a whole text.
pub fn give_all<K: Sink>(out: &mut K, text: &[u8]) -> Result<(), Failed>
    ensures given { OnOk result (K.given out.new ≡ with_end (K.given out.old) text.now) }
    ensures front { (n : ℕ) × (K.given out.new ≡ with_end (K.given out.old) (take n text.now)) }
    ensures cause { HasCause (K.faults out.old) (K.faults out.new) result }
{
    let mut at = 0;
    while at < text.len() {
        at += out.give(&text[at..])?;
    }
    Ok(())
}
