// Writes of many bytes.
ghost use Rattle.std.specs.Prelude.{◌≡◌, ◌≤◌, ◌<◌, ◌+◌, ◌^◌, ◌++◌, OnOk};
ghost use Rattle.serial_spec.specs.DeviceCalls.{stores};

use nc_base::{DiskCall, Memory};

/// Writes of so many bytes from a place on, each as long as a window, the last one shorter or equal.
pub(crate) fn push_stores(
    calls: &mut Vec<DiskCall>,
    at: u64,
    len: u64,
    window: u64,
) -> Result<(), Memory>
    requires some { 1 ≤ window }
    requires low { at + len < 2 ^ 64 }
    ensures { OnOk result (calls.new.items ≡ calls.old.items ++ stores window at len) }
{
    for number in 0..len.div_ceil(window) {
        let before = number * window;
        calls.push(DiskCall::Store(at + before, window.min(len - before)))?;
    }
    Ok(())
}
