// The calls of the disk that windows make.
ghost use Rattle.std.specs.Prelude.{◌≡◌, ◌++◌, flat_map, OnOk};
ghost use Rattle.window_plan.specs.Windows.{get_calls, put_calls};

use crate::WindowPlan;
use nc_base::{DiskCall, Memory};

/// Adds the calls that put windows: one with a hole is read before it is written.
pub fn push_stores(calls: &mut Vec<DiskCall>, windows: &[WindowPlan]) -> Result<(), Memory>
    ensures { OnOk result (calls.new.items ≡ calls.old.items ++ flat_map put_calls windows.now) }
{
    for window in windows {
        push_store(calls, window)?;
    }
    Ok(())
}

fn push_store(calls: &mut Vec<DiskCall>, window: &WindowPlan) -> Result<(), Memory>
    ensures { OnOk result (calls.new.items ≡ calls.old.items ++ put_calls window.now) }
{
    if !window.full {
        calls.push(DiskCall::Load(window.hull.at, window.hull.len))?;
    }
    calls.push(DiskCall::Store(window.hull.at, window.hull.len))?;
    Ok(())
}

/// Adds the calls that get windows.
pub fn push_loads(calls: &mut Vec<DiskCall>, windows: &[WindowPlan]) -> Result<(), Memory>
    ensures { OnOk result (calls.new.items ≡ calls.old.items ++ flat_map get_calls windows.now) }
{
    for window in windows {
        calls.push(DiskCall::Load(window.hull.at, window.hull.len))?;
    }
    Ok(())
}
