// The windows that C is told of are those of the device calls.
ghost use Rattle.std.specs.Prelude.{◌≡◌, ℕ, ◌≤◌, List, map};
ghost use Rattle.nc_base.specs.declared.script.Hints.{Hints};
ghost use Rattle.overlay_laws.specs.Walks.{told_of};
ghost use Rattle.serial_spec.specs.DeviceCalls.{collective_windows};
ghost use Rattle.nc_classic_c.specs.Windows.{division_of, step_windows, told};

/// Under the same hints they are the windows over whose hulls a collective step reads and writes.
#[tactic(auto, using(crate::proofs::DeviceWindows::told_windows))]
pub fn device_windows_law()
    ensures { (hints : Hints) (bytes : List ℕ) → 1 ≤ hints.cb_buffer
        → map told (step_windows (division_of hints.cb_nodes hints.striping_unit hints.cb_buffer) bytes) ≡ map told_of (collective_windows hints bytes) }
{}
