// The domains of a step, with their windows.
ghost use Rattle.std.specs.Prelude.{◌≡◌, ◌≤◌, [], length, true, IfNone, IfOk};
ghost use Rattle.collective_round.specs.Laid.{AreSorted};
ghost use Rattle.serial_spec.specs.Lawful.{are_lawful_hints};
ghost use Rattle.get_exchange.specs.Gets.{IsGetPlan};
ghost use Rattle.step_plan.specs.Steps.{in_one_range, reach_of, AreDivided, AreDomainPlans, AreSievedPlans};

use crate::{DomainList, DomainPlan};
use collective_round::domains_of;
use nc_base::{Extent, ExtentList, Hints, Memory, OwnedList};
use overlap_report::cover;
use std::alloc::Global;
use window_plan::{WindowList, WindowPlan, domain_plans, fitted, sieved_plans};

/// The domains of all aggregators that have a byte, by entries, which are sorted by place.
pub(crate) fn collective_domains(
    alloc: Global,
    list: &OwnedList,
    hints: &Hints,
) -> Result<DomainList, Memory>
    requires sorted { AreSorted list.now }
    requires hints { are_lawful_hints hints.now ≡ true }
    ensures { IfOk result (AreDomainPlans hints.now list.now) }
{
    let cover = cover(alloc, list.as_slice())?;
    let domains = domains_of(alloc, cover.as_slice(), hints)?;
    plan_each(alloc, list, &cover, hints, &domains)
}

// The windows of each domain.
fn plan_each(
    alloc: Global,
    list: &OwnedList,
    cover: &ExtentList,
    hints: &Hints,
    domains: &[Extent],
) -> Result<DomainList, Memory>
    requires plan { IsGetPlan list.now cover.now hints.now.cb_buffer }
    requires few { length domains.now ≤ 64 }
    ensures { IfOk result (AreDivided hints.now list.now cover.now domains.now (length domains.now)) }
{
    let mut plans = Vec::new(alloc);
    for (number, domain) in domains.iter().enumerate() {
        plans.push(DomainPlan {
            aggregator: Some(number as u32),
            extent: *domain,
            windows: domain_plans(alloc, list.as_slice(), cover, hints.cb_buffer, *domain)?,
        })?;
    }
    Ok(fitted(plans))
}

/// The windows of data sieving, by entries of one rank, which are sorted by place: one domain without an aggregator, or none where
/// there is no entry.
pub(crate) fn sieved_domain(
    alloc: Global,
    list: &OwnedList,
    size: u64,
) -> Result<DomainList, Memory>
    requires sorted { AreSorted list.now }
    requires some { 1 ≤ size }
    ensures { IfOk result (AreSievedPlans size list.now) }
{
    let windows = sieved_plans(alloc, list.as_slice(), size)?;
    in_one_range(alloc, windows)
}

// One range of windows without an aggregator, or none where there is no window.
fn in_one_range(alloc: Global, windows: WindowList) -> Result<DomainList, Memory>
    ensures { IfOk result (λ domains. domains ≡ in_one_range windows) }
{
    let mut domains = DomainList::new(alloc);
    if let Some(extent) = reach_of(windows.as_slice()) {
        domains.push(DomainPlan {
            aggregator: None,
            extent,
            windows,
        })?;
    }
    Ok(domains)
}

// From the first byte of windows to the last.
fn reach_of(windows: &[WindowPlan]) -> Option<Extent>
    ensures { result ≡ reach_of windows.now }
{
    let first = windows.first()?.hull;
    let last = windows.last()?.hull;
    Some(Extent {
        at: first.at,
        len: last.at.saturating_add(last.len).saturating_sub(first.at),
    })
}
