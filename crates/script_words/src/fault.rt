// Why a word, a line or a text is not read.
ghost use Rattle.std.specs.Prelude.{◌≡◌, IfOk, IfErr, Ok, Err};
ghost use Rattle.script_words.specs.declared.fault.ReadErr.TheVariants.{Memory};

use nc_base::{ScriptErr, ScriptKind};
use std::alloc::{AllocError, AllocFailed};

/// Want of memory, or what is wrong.
#[derive(Drop)]
pub enum ReadErr {
    Memory,
    Fault(ScriptKind),
}

impl From<AllocError> for ReadErr {
    ghost from_gives = { λ _ e. e ≡ Memory };

    fn from(_: AllocError) -> Self {
        ReadErr::Memory
    }
}

impl<T: Drop> From<AllocFailed<T>> for ReadErr {
    ghost from_gives = { λ _ e. e ≡ Memory };

    fn from(_: AllocFailed<T>) -> Self {
        ReadErr::Memory
    }
}

impl From<nc_base::Memory> for ReadErr {
    ghost from_gives = { λ _ e. e ≡ Memory };

    fn from(_: nc_base::Memory) -> Self {
        ReadErr::Memory
    }
}

/// Want of memory, or what is wrong, and on which line.
#[derive(Drop)]
pub enum LineErr {
    Memory,
    Fault(ScriptErr),
}

impl From<AllocError> for LineErr {
    ghost use Rattle.script_words.specs.declared.fault.LineErr.TheVariants as errors;

    ghost from_gives = { λ _ e. e ≡ errors.Memory };

    fn from(_: AllocError) -> Self {
        LineErr::Memory
    }
}

impl From<nc_base::Memory> for LineErr {
    ghost use Rattle.script_words.specs.declared.fault.LineErr.TheVariants as errors;

    ghost from_gives = { λ _ e. e ≡ errors.Memory };

    fn from(_: nc_base::Memory) -> Self {
        LineErr::Memory
    }
}

/// What was read, and what was read behind it, unless that is a fault. What is let go then is of any type, which hides from
/// the check of a call how each of its lists is.
pub fn beside<A: Drop, B>(first: A, second: Result<B, ReadErr>) -> Result<(A, B), ReadErr>
    ensures ok { IfOk result (λ both. (both.0 ≡ first) × (second ≡ Ok both.1)) }
    ensures err { IfErr result (λ e. second ≡ Err e) }
{
    Ok((first, second?))
}
