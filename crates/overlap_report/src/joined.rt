// The covered bytes.
ghost use Rattle.std.specs.Prelude.{◌≡◌, ◌++◌, ◌^◌, ◌≤◌, IfOk, OnOk};
ghost use Rattle.overlap_report.specs.Sorted.{run};
ghost use Rattle.overlay_laws.specs.Entries.{HaveSame, ranges};
ghost use Rattle.overlay_laws.specs.Lines.{extents, IsByPlace, EndBelow};
ghost use Rattle.overlay_laws.specs.Walks.{IsCover};
ghost use Rattle.serial_spec.specs.Extents.{spans};

use nc_base::{Extent, ExtentList, Memory, Owned};
use std::alloc::Global;

/// The bytes that the entries hold, as extents in order with a gap between any two. The entries are sorted by place.
pub fn cover(alloc: Global, list: &[Owned]) -> Result<ExtentList, Memory>
    requires sorted { IsByPlace (extents list.now) }
    requires ends { EndBelow (2 ^ 62) (extents list.now) }
    ensures apart { IfOk result (λ es. IsCover es) }
    ensures bytes { IfOk result (λ es. HaveSame (spans es) (ranges list.now)) }
{
    let mut whole = Vec::new(alloc);
    let mut at = 0;
    let mut end = 0;
    for entry in list {
        let extent = entry.extent;
        if extent.len == 0 {
            continue;
        }
        if extent.at > end {
            add(&mut whole, at, end)?;
            at = extent.at;
        }
        end = end.max(extent.at + extent.len);
    }
    add(&mut whole, at, end)?;
    Ok(ExtentList::from_vec(whole))
}

// Adds the bytes from one place to another, if there are any.
fn add(whole: &mut Vec<Extent>, at: u64, end: u64) -> Result<(), Memory>
    requires { at ≤ end }
    ensures { OnOk result (whole.new.items ≡ whole.old.items ++ run at end) }
{
    if at < end {
        whole.push(Extent { at, len: end - at })?;
    }
    Ok(())
}
