// A window as it is planned.
ghost use Rattle.std.specs.Prelude.{◌≡◌, ◌+◌, ◌++◌, ◌^◌, ◌<◌, IfOk};
ghost use Rattle.overlay_laws.specs.Lines.{extents, EndBelow};
ghost use Rattle.window_plan.specs.Windows.{plan_of};

use crate::OwnerList;
use crate::lists::fitted;
use crate::owners::push_owners;
use file_domains::Window;
use nc_base::{Extent, Memory, Owned};
use std::alloc::Global;

/// Bytes of a window that are of a rank.
#[derive(Clone, Copy, Debug, PartialEq, Eq)]
pub struct Owner {
    pub rank: u32,
    pub extent: Extent,
}

/// How many bytes of a window a rank gives, or gets.
#[derive(Clone, Copy, Debug, PartialEq, Eq)]
pub struct Share {
    pub rank: u32,
    /// At least 1. A byte counts once for each request of the rank that has it.
    pub bytes: u64,
}

/// What is read or written at once.
#[derive(Drop, PartialEq, Eq)]
pub struct WindowPlan {
    /// From the window's first byte that is asked for to its last.
    pub hull: Extent,
    /// Whether each byte of the hull is asked for. A put reads the hull first where it isn't.
    pub full: bool,
    /// Whose the bytes are.
    pub owners: OwnerList,
}

/// Plans a window, by entries of which some reach past the window before.
pub(crate) fn plan_window(
    alloc: Global,
    window: &Window,
    carried: &[Owned],
    fresh: &[Owned],
) -> Result<WindowPlan, Memory>
    requires hull { window.now.hull.at + window.now.hull.len < 2 ^ 62 }
    requires ends { EndBelow (2 ^ 62) (extents (carried.now ++ fresh.now)) }
    ensures { IfOk result (λ plan. plan ≡ plan_of window.now (carried.now ++ fresh.now)) }
{
    let mut owners = Vec::with_capacity(alloc, carried.len() + fresh.len())?;
    push_owners(&mut owners, carried, window.hull)?;
    push_owners(&mut owners, fresh, window.hull)?;
    Ok(WindowPlan {
        hull: window.hull,
        full: window.full,
        owners: fitted(owners),
    })
}
