// Answers that a rank gives by itself.
ghost use Rattle.std.specs.Prelude.{◌≡◌};
ghost use Rattle.nc_base.specs.declared.step.Want.TheVariants as want;
ghost use Rattle.serial_spec.specs.RankMachine as machine;

use nc_base::{Answer, Code, ItemList, Want};
use std::alloc::Global;

/// The answer to a call that has no more to tell than this code.
pub(crate) fn answer(alloc: Global, code: Code) -> Answer
    ensures { result ≡ machine.answer code }
{
    Answer {
        code,
        pair: None,
        number: None,
        values: None,
        items: ItemList::new(alloc),
    }
}

pub(crate) fn answered(alloc: Global, code: Code) -> Want
    ensures { result ≡ want.Answered (machine.answer code) }
{
    Want::Answered(answer(alloc, code))
}
