// The mark of a step that was done.
ghost use Rattle.std.specs.Prelude.{◌≡◌, ◌-◌, ◌++◌, ◌∷◌, [], length, take, OnOk, OnErr};
ghost use Rattle.nc_outside.specs.Told.{with_end};

use nc_base::{Mark, MarkList, Memory};
use nc_outside::Told;
use std::alloc::Global;
use std::sync::Wait;

/// Puts the mark of a step behind the order, and tells it with the file's record count after that step. Where there is no memory for
/// one of the two, neither is done.
pub fn note_step<R: Wait, T: Told>(
    rt: &R,
    alloc: Global,
    order: &mut MarkList,
    told: &mut T,
    mark: Mark,
    records: u64,
) -> Result<(), Memory>
    ensures order { OnOk result (order.new ≡ order.old ++ mark ∷ []) }
    ensures heard { OnOk result (T.heard told.new ≡ with_end (T.heard told.old) ((mark, records) ∷ [])) }
    ensures kept { OnErr result (order.new ≡ order.old) }
    ensures untold { OnErr result (T.heard told.new ≡ T.heard told.old) }
{
    order.push(mark)?;
    match told.told(rt, alloc, mark, records) {
        Ok(()) => Ok(()),
        Err(memory) => {
            take_last(order);
            Err(memory)
        }
    }
}

/// Takes the last mark off an order.
fn take_last(order: &mut MarkList)
    ensures { order.new ≡ take (length order.old - 1) order.old }
{
    let mut marks = order.take().into_vec();
    let _last = marks.pop();
    *order = MarkList::from_vec(marks);
}
