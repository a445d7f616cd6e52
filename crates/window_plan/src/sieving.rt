// The windows of data sieving.
ghost use Rattle.std.specs.Prelude.{◌≡◌, ◌+◌, ◌^◌, ◌<◌, ◌≤◌, map, IfOk};
ghost use Rattle.aggregator_rounds.specs.EntryParts.{AreFilled};
ghost use Rattle.data_sieving.specs.Sieving.{entry_windows};
ghost use Rattle.overlay_laws.specs.Lines.{extents, IsByPlace, EndBelow};
ghost use Rattle.overlay_laws.specs.Walks.{told_of};
ghost use Rattle.window_plan.specs.Windows.{told_plan, AreShared};

use crate::WindowList;
use crate::lists::fitted;
use crate::plan::plan_window;
use aggregator_rounds::Unserved;
use data_sieving::SieveWalk;
use nc_base::{Memory, Owned};
use std::alloc::Global;

/// The windows of entries of one rank, which are sorted by place, for a buffer of so many bytes.
pub fn sieved_plans(alloc: Global, list: &[Owned], size: u64) -> Result<WindowList, Memory>
    requires sorted { IsByPlace (extents list.now) }
    requires ends { EndBelow (2 ^ 62) (extents list.now) }
    requires filled { AreFilled list.now }
    requires some { 1 ≤ size }
    ensures told { IfOk result (λ windows. map told_plan windows ≡ map told_of (entry_windows size list.now)) }
    ensures shared { IfOk result (AreShared list.now) }
{
    let mut walk = SieveWalk {
        entries: Unserved::new(alloc, list),
        from: 0,
        size,
    };
    let mut plans = Vec::with_capacity(alloc, 1)?;
    'windows: while let Some(next) = walk.next_window() {
        plans.push(plan_window(alloc, &next.window, next.carried, next.fresh)?)?;
        let stop = next.stop;
        walk.pass(stop);
    }
    Ok(fitted(plans))
}
