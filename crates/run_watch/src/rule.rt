// What a board shows, what its ends have heard, and the rule between the two.
use crate::ToldList;
use atomic_table::{Join, Split};
use crossbeam_utils::rule::{Outcome, Protocol};
use left_right::Absorb;
use left_right::reader::Reader;
use left_right::writer::Writer;
use nc_base::{Mark, Summary};
use std::alloc::AllocError;

/// What readers read: the summary of what was told, and the mark that was told last, by which the rule names the newest pair.
#[derive(Clone, Copy, Debug)]
pub struct Shown {
    pub summary: Summary,
    pub last: Option<Mark>,
}

// An operation is what is shown next.
impl Absorb<Shown> for Shown {
    type State = Shown;

    ghost state = { λ shown. shown };

    ghost applied = { λ shown next. next };

    ghost never_fails = { Unit {0} };

    fn absorb_first(&mut self, operation: &Shown, _other: &Shown) -> Result<(), AllocError> {
        *self = *operation;
        Ok(())
    }
}

/// What was told: the record count before the first step, and each mark with the count after it.
#[derive(Drop)]
pub struct Heard {
    pub opening: u64,
    pub pairs: ToldList,
}

/// What is shown is the summary of all that was told, and what each end has heard is a beginning of that.
pub struct Watching;

impl Protocol<Shown, Option<Heard>> for Watching {
    ghost use Rattle.std.specs.Prelude.{None};
    ghost use Rattle.run_watch.specs.BoardRule.{Keeps};

    ghost holds = { Keeps };

    ghost first = { None };
}

/// An end reads what is shown.
pub struct Reading;

impl Outcome<Shown, Option<Heard>> for Reading {
    ghost use Rattle.run_watch.specs.BoardRule.{Reads};

    ghost then = { λ before x y now. Reads before y now };
}

/// The board shows one pair more.
pub struct Telling;

impl Outcome<Shown, Option<Heard>> for Telling {
    ghost use Rattle.run_watch.specs.BoardRule.{TellsMore};

    ghost then = { λ before x y now. TellsMore before y now };
}

/// A new reader is given what the board has heard.
pub struct Noting;

impl Split<Option<Heard>> for Noting {
    ghost left = { λ heard. heard };

    ghost right = { λ heard. heard };
}

impl Join<Option<Heard>> for Noting {
    ghost use Rattle.std.specs.Prelude.{None};

    ghost both = { λ reader note. note };

    ghost spent = { None };
}

pub type BoardWriter = Writer<Shown, Shown, Option<Heard>, Watching>;

pub type BoardReader = Reader<Shown, Option<Heard>, Watching>;
