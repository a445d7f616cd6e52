// Why a run ends early.
ghost use Rattle.std.specs.Prelude.{◌≡◌, None, IfOk, IsOk};
ghost use Rattle.std.specs.Option.{option_map};
ghost use Rattle.dataset_start.specs.declared.stop.Stop.TheVariants.{Layout, Memory};
ghost use Rattle.dataset_start.specs.Stops.{fixed_line_of, line_of, status_of, stop_of_disk, stop_of_header, stop_of_redefinition, stop_of_script, stop_of_take};

use crate::streams::TakeErr;
use nc_base::{Blob, HeaderErr, LayoutErr, RedefErr, ScriptErr, ScriptKind, StepErr};
use printed_text::{disk_line, header_line, layout_line, redef_line, script_line, usage_line};
use std::alloc::{AllocError, Global};

/// Why a run ends early.
#[derive(Clone, Copy, Debug, PartialEq, Eq)]
pub enum Stop {
    /// The words of the command line are of no form.
    Usage,
    /// The text spells no script.
    Script(ScriptErr),
    /// The header of an existing dataset is faulty.
    Header(HeaderErr),
    /// A new dataset can't be laid out.
    Layout(LayoutErr),
    /// A dataset refuses what the script adds to it.
    Redefinition(RedefErr),
    /// The source failed.
    Source,
    /// The disk failed.
    Disk,
    /// There was not enough memory.
    Memory,
}

impl From<AllocError> for Stop {
    ghost from_gives = { λ _ e. e ≡ Memory };

    fn from(_: AllocError) -> Self {
        Stop::Memory
    }
}

impl From<nc_base::Memory> for Stop {
    ghost from_gives = { λ _ e. e ≡ Memory };

    fn from(_: nc_base::Memory) -> Self {
        Stop::Memory
    }
}

impl From<TakeErr> for Stop {
    ghost from_gives = { λ e stop. stop ≡ stop_of_take e };

    fn from(e: TakeErr) -> Self {
        match e {
            TakeErr::Fault => Stop::Source,
            TakeErr::Memory => Stop::Memory,
        }
    }
}

impl From<ScriptErr> for Stop {
    ghost from_gives = { λ e stop. stop ≡ stop_of_script e };

    fn from(e: ScriptErr) -> Self {
        match e.kind {
            ScriptKind::Memory => Stop::Memory,
            _ => Stop::Script(e),
        }
    }
}

impl From<LayoutErr> for Stop {
    ghost from_gives = { λ e stop. stop ≡ Layout e };

    fn from(e: LayoutErr) -> Self {
        Stop::Layout(e)
    }
}

impl From<StepErr> for Stop {
    ghost from_gives = { λ e stop. stop ≡ stop_of_disk e };

    fn from(e: StepErr) -> Self {
        match e {
            StepErr::Disk => Stop::Disk,
            StepErr::Memory => Stop::Memory,
        }
    }
}

impl From<HeaderErr> for Stop {
    ghost from_gives = { λ e stop. stop ≡ stop_of_header e };

    fn from(e: HeaderErr) -> Self {
        match e {
            HeaderErr::Memory => Stop::Memory,
            _ => Stop::Header(e),
        }
    }
}

impl From<RedefErr> for Stop {
    ghost from_gives = { λ e stop. stop ≡ stop_of_redefinition e };

    fn from(e: RedefErr) -> Self {
        match e {
            RedefErr::Memory => Stop::Memory,
            _ => Stop::Redefinition(e),
        }
    }
}

impl Stop {
    /// The status that the program ends with.
    pub fn status(self) -> u8
        ensures { result ≡ status_of self }
    {
        match self {
            Stop::Usage => 2,
            Stop::Script(_) => 3,
            Stop::Header(_) | Stop::Layout(_) | Stop::Redefinition(_) => 4,
            Stop::Source => 5,
            Stop::Disk => 7,
            Stop::Memory => 8,
        }
    }

    /// The line that tells it, where that is always the same.
    pub fn fixed_line(self) -> Option<&'static [u8]>
        ensures { option_map (λ line. line.now) result ≡ fixed_line_of self }
    {
        match self {
            Stop::Usage => Some(usage_line()),
            Stop::Disk => Some(disk_line()),
            _ => None,
        }
    }

    /// The line that tells it, where one is made for it.
    pub fn made_line(self, alloc: Global) -> Result<Option<Blob>, nc_base::Memory>
        requires { fixed_line_of self ≡ None }
        ensures line { IfOk result (λ line. line ≡ line_of self) }
        ensures none { line_of self ≡ None → IsOk result }
    {
        match self {
            Stop::Script(e) => Ok(Some(script_line(alloc, &e)?)),
            Stop::Header(e) => Ok(Some(header_line(alloc, &e)?)),
            Stop::Layout(e) => Ok(Some(layout_line(alloc, &e)?)),
            Stop::Redefinition(e) => Ok(Some(redef_line(alloc, &e)?)),
            _ => Ok(None),
        }
    }
}
