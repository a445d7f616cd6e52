// The window of one round.
ghost use Rattle.std.specs.Prelude.{◌≡◌, ◌+◌, ◌-◌, ◌≤◌, [], ◌∷◌, length, true, false, is_ok, if◌then◌else◌, IsOk, OnOk, OnErr, IfSome};
ghost use Rattle.nc_base.specs.declared.step.DiskCall.TheVariants.{Store};
ghost use Rattle.serial_spec.specs.File.{read, written};
ghost use Rattle.overlay_laws.specs.Changes.{load_calls};
ghost use Rattle.nc_outside.specs.Told.{after, with_end, BothTold};
ghost use Rattle.nc_outside.specs.Cause.{HasDiskCause};
ghost use Rattle.nc_outside.specs.DiskState.{PartlyWritten};
ghost use Rattle.aggregator_rounds.specs.ToldWindows.{told_window};

use file_domains::Window;
use nc_base::StepErr;
use nc_outside::Disk;
use std::alloc::Global;

/// Reads the hull, unless the window is full.
pub fn open_window<D: Disk>(
    alloc: Global,
    disk: &mut D,
    window: &Window,
    buf: &mut [u8],
) -> Result<(), StepErr>
    requires low { D.from disk.old ≤ window.now.hull.at }
    requires high { window.now.hull.at + window.now.hull.len ≤ D.from disk.old + D.len disk.old }
    requires room { length buf.old ≡ window.now.hull.len }
    ensures from { D.from disk.new ≡ D.from disk.old }
    ensures len { D.len disk.new ≡ D.len disk.old }
    ensures bytes { D.held disk.new ≡ D.held disk.old }
    ensures read { OnOk result (window.now.full ≡ false → IfSome (D.held disk.old) (λ file. buf.new ≡ read file (window.now.hull.at - D.from disk.old) window.now.hull.len)) }
    ensures full { window.now.full ≡ true → buf.new ≡ buf.old }
    ensures calls { OnOk result (D.calls disk.new ≡ with_end (D.calls disk.old) (if window.now.full then [] else load_calls (told_window window.now))) }
    ensures refused { OnErr result (D.calls disk.new ≡ D.calls disk.old) }
    ensures certain { D.sure disk.old → IsOk result }
    ensures sure { D.sure disk.old → D.sure disk.new }
    ensures cause { HasDiskCause (D.faults disk.old) (D.faults disk.new) result }
{
    if window.full {
        return Ok(());
    }
    get_window(alloc, disk, window, buf)?;
    Ok(())
}

/// Writes the hull. Refused, it leaves each byte of the hull old or new, and all others.
pub fn close_window<D: Disk>(
    alloc: Global,
    disk: &mut D,
    window: &Window,
    buf: &[u8],
) -> Result<(), StepErr>
    requires low { D.from disk.old ≤ window.now.hull.at }
    requires high { window.now.hull.at + window.now.hull.len ≤ D.from disk.old + D.len disk.old }
    requires room { length buf.now ≡ window.now.hull.len }
    ensures from { D.from disk.new ≡ D.from disk.old }
    ensures len { D.len disk.new ≡ D.len disk.old }
    ensures bytes { OnOk result (D.held disk.new ≡ after (λ file. written file (window.now.hull.at - D.from disk.old) buf.now) (D.held disk.old)) }
    ensures refused { OnErr result (BothTold (PartlyWritten (window.now.hull.at - D.from disk.old) buf.now) (D.held disk.old) (D.held disk.new)) }
    ensures calls { D.calls disk.new ≡ (if is_ok result then with_end (D.calls disk.old) (Store window.now.hull.at window.now.hull.len ∷ []) else D.calls disk.old) }
    ensures certain { D.sure disk.old → IsOk result }
    ensures sure { D.sure disk.old → D.sure disk.new }
    ensures cause { HasDiskCause (D.faults disk.old) (D.faults disk.new) result }
{
    disk.write_at(alloc, window.hull.at, buf)?;
    Ok(())
}

/// Reads the hull.
pub fn get_window<D: Disk>(
    alloc: Global,
    disk: &mut D,
    window: &Window,
    buf: &mut [u8],
) -> Result<(), StepErr>
    requires low { D.from disk.old ≤ window.now.hull.at }
    requires high { window.now.hull.at + window.now.hull.len ≤ D.from disk.old + D.len disk.old }
    requires room { length buf.old ≡ window.now.hull.len }
    ensures from { D.from disk.new ≡ D.from disk.old }
    ensures len { D.len disk.new ≡ D.len disk.old }
    ensures bytes { D.held disk.new ≡ D.held disk.old }
    ensures read { OnOk result (IfSome (D.held disk.old) (λ file. buf.new ≡ read file (window.now.hull.at - D.from disk.old) window.now.hull.len)) }
    ensures calls { D.calls disk.new ≡ (if is_ok result then with_end (D.calls disk.old) (load_calls (told_window window.now)) else D.calls disk.old) }
    ensures certain { D.sure disk.old → IsOk result }
    ensures sure { D.sure disk.old → D.sure disk.new }
    ensures cause { HasDiskCause (D.faults disk.old) (D.faults disk.new) result }
{
    disk.read_at(alloc, window.hull.at, buf)?;
    Ok(())
}
