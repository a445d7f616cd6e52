// The values of an existing dataset at their new places.
ghost use Rattle.std.specs.Prelude.{◌≡◌, ◌≤◌, ◌^◌, ℕ, List, OnOk, OnErr, IfSome};
ghost use Rattle.nc_base.specs.declared.script.Extra.{Extra};
ghost use Rattle.nc_outside.specs.Cause.{HasDiskCause};
ghost use Rattle.nc_outside.specs.Told.{after, with_end, BothTold};
ghost use Rattle.serial_spec.specs.HeaderBytes.{header_len};
ghost use Rattle.serial_spec.specs.Redefinition.{redefined};
ghost use Rattle.serial_spec.specs.Torn.{IsTornRedefinition};
ghost use Rattle.redef_laws.specs.Applied.{IsApplied};
ghost use Rattle.redef_laws.specs.Shifted.{new_end};
ghost use Rattle.redef_mover.specs.Relocation.{relocation_calls, KeepsPlaces};

use crate::carried::carry;
use nc_base::{Header, StepErr};
use nc_outside::Disk;
use std::alloc::Global;

/// Moves the bytes of the old variables to their new places, in windows of `size` bytes, from the highest one down; then writes
/// zeros where no old element stands, and the new header last.
///
/// Refused on the way, it may leave the values that move spoiled: some stand at the new place and some at the old one, where others
/// may have been written over them already. Nothing tells which. Values that keep their place are not touched.
pub fn relocate<D: Disk>(
    alloc: Global,
    disk: &mut D,
    old: &Header,
    new: &Header,
    size: u64,
) -> Result<(), StepErr>
    requires applied { (extras : List Extra) × IsApplied old.now extras new.now }
    requires from { D.from disk.old ≡ 0 }
    requires size { (1 ≤ size) × (size ≤ 2 ^ 25) }
    ensures bytes { OnOk result (D.held disk.new ≡ after (λ file. redefined file old.now new.now) (D.held disk.old)) }
    ensures refused { OnErr result (BothTold (λ file left. IsTornRedefinition (header_len new.now) (new_end old.now new.now) file (redefined file old.now new.now) left) (D.held disk.old) (D.held disk.new)) }
    ensures stays { OnErr result (BothTold (KeepsPlaces old.now new.now) (D.held disk.old) (D.held disk.new)) }
    ensures calls { OnOk result (IfSome (D.held disk.old) (λ file. D.calls disk.new ≡ with_end (D.calls disk.old) (relocation_calls size old.now new.now file))) }
    ensures from { OnOk result (D.from disk.new ≡ 0) }
    ensures len { OnOk result (new_end old.now new.now ≤ D.len disk.new) }
    ensures cause { HasDiskCause (D.faults disk.old) (D.faults disk.new) result }
{
    carry(alloc, disk, old, new, size)
}
