// The windows of an aggregator's domain.
ghost use Rattle.std.specs.Prelude.{◌≡◌, ◌+◌, ◌^◌, ◌≤◌, map, IfOk};
ghost use Rattle.exchange_crew.specs.Turns.{turns_of};
ghost use Rattle.get_exchange.specs.Gets.{IsGetPlan};
ghost use Rattle.window_plan.specs.Windows.{told_plan, AreShared};

use crate::WindowList;
use crate::lists::fitted;
use crate::plan::plan_window;
use aggregator_rounds::Unserved;
use exchange_crew::{domain_windows, next_window};
use nc_base::{Extent, ExtentList, Memory, Owned};
use std::alloc::Global;

/// The windows of a domain that have a byte, each so many bytes long, by entries, which are sorted by place, and their cover.
pub fn domain_plans(
    alloc: Global,
    list: &[Owned],
    cover: &ExtentList,
    size: u64,
    domain: Extent,
) -> Result<WindowList, Memory>
    requires plan { IsGetPlan list.now cover.now size }
    ensures told { IfOk result (λ windows. map told_plan windows ≡ turns_of size domain cover.now) }
    ensures shared { IfOk result (AreShared list.now) }
{
    let mut windows = domain_windows(cover, size, domain);
    let mut entries = Unserved::new(alloc, list);
    let mut plans = Vec::new(alloc);
    'windows: while let Some(window) = next_window(&mut windows) {
        let stop = window.hull.at + window.hull.len;
        let fresh = entries.ahead_before(stop);
        plans.push(plan_window(alloc, &window, entries.carried.as_slice(), fresh)?)?;
        entries.pass(stop);
    }
    Ok(fitted(plans))
}
