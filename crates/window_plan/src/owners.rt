// Whose the bytes of a hull are.
ghost use Rattle.std.specs.Prelude.{◌≡◌, ◌+◌, ◌++◌, ◌^◌, ◌<◌, OnOk};
ghost use Rattle.overlay_laws.specs.Lines.{extents, EndBelow};
ghost use Rattle.window_plan.specs.Windows.{owner_in, owners_in};

use crate::Owner;
use nc_base::{Extent, Memory, Owned};

/// Adds the bytes of a hull that entries have, each with its rank.
pub(crate) fn push_owners(
    owners: &mut Vec<Owner>,
    entries: &[Owned],
    hull: Extent,
) -> Result<(), Memory>
    requires hull { hull.at + hull.len < 2 ^ 62 }
    requires ends { EndBelow (2 ^ 62) (extents entries.now) }
    ensures { OnOk result (owners.new.items ≡ owners.old.items ++ owners_in hull entries.now) }
{
    for entry in entries {
        push_owner(owners, entry, hull)?;
    }
    Ok(())
}

// Adds the bytes of a hull that an entry has, if there are any.
fn push_owner(owners: &mut Vec<Owner>, entry: &Owned, hull: Extent) -> Result<(), Memory>
    requires hull { hull.at + hull.len < 2 ^ 62 }
    requires end { entry.now.extent.at + entry.now.extent.len < 2 ^ 62 }
    ensures { OnOk result (owners.new.items ≡ owners.old.items ++ owner_in hull entry.now) }
{
    let at = entry.extent.at.max(hull.at);
    let stop = (entry.extent.at + entry.extent.len).min(hull.at + hull.len);
    if at < stop {
        owners.push(Owner {
            rank: entry.rank,
            extent: Extent { at, len: stop - at },
        })?;
    }
    Ok(())
}
