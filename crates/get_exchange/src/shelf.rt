// The calling thread's end of the line of a helper, and the windows whose hulls are still to be taken.
ghost use Rattle.std.specs.Prelude.{◌≡◌, min};
ghost use Rattle.get_exchange.specs.Gets.{get_turns, IsGetPlanned};
ghost use Rattle.get_exchange.specs.Readers.{IsReader};
ghost use Rattle.get_exchange.specs.Shelves.{turns_due, IsShelf};

use crate::reading::Reading;
use crate::walk::{ReadWalk, Reader};
use exchange_crew::{GetPlan, next_window};
use file_domains::Window;
use ruled_line::LineTake;
use std::alloc::Global;

/// What of a helper's windows is still to be taken: the next one, and those after it.
#[derive(Drop)]
pub(crate) struct Shelf<'a> {
    pub line: LineTake<Reading>,
    pub next: Option<Window>,
    pub walk: ReadWalk<'a>,
}

/// The calling thread's end, and all windows of a domain to be taken.
pub(crate) fn shelf_of<'a>(
    alloc: Global,
    plan: &GetPlan<'a>,
    reader: &Reader<'a>,
    line: LineTake<Reading>,
) -> Shelf<'a>
    requires plan { IsGetPlanned plan.now }
    requires reader { IsReader plan.now reader.now }
    ensures ready { IsShelf plan.now.list.now (min plan.now.hints.now.cb_buffer reader.now.aggregator.domain.len) result }
    ensures due { turns_due result ≡ get_turns plan.now reader.now.aggregator.domain }
    ensures line { result.line ≡ line }
{
    let mut walk = ReadWalk::new(alloc, plan, reader);
    let next = next_window(&mut walk.windows);
    Shelf { line, next, walk }
}
