// An existing dataset to which the script adds.
ghost use Rattle.std.specs.Prelude.{◌≡◌, ◌≤◌, Some, true, OnOk, OnErr, IfOk, IfErr, IfSome, IsErrOf, Err};
ghost use Rattle.nc_base.specs.declared.errors.RedefErr.{RedefErr};
ghost use Rattle.nc_outside.specs.Told.{after, with_end, BothTold};
ghost use Rattle.nc_outside.specs.Cause.{Rose};
ghost use Rattle.serial_spec.specs.Redefinition.{redefined, redefined_fault};
ghost use Rattle.serial_spec.specs.SoundHeaders.{is_redefinable};
ghost use Rattle.redef_laws.specs.Applied.{IsApplied};
ghost use Rattle.redef_laws.specs.Shifted.{new_end};
ghost use Rattle.redef_mover.specs.Relocation.{relocation_calls};
ghost use Rattle.dataset_start.specs.Dataset.{IsKept};
ghost use Rattle.dataset_start.specs.Readiness.{IsPartlyRedefined};
ghost use Rattle.dataset_start.specs.Stops.{IsOfRedefinition};

use crate::stop::Stop;
use nc_base::{Header, Script};
use nc_outside::Disk;
use redef_mover::{apply, relocate};
use std::alloc::Global;

/// Adds to the dataset what the script adds, and moves its values to their new places. The answer is the new header.
pub(crate) fn redefine<D: Disk>(
    alloc: Global,
    disk: &mut D,
    old: &Header,
    script: &Script,
) -> Result<Header, Stop>
    requires kept { IsKept script.now }
    requires redefinable { is_redefinable old.now ≡ true }
    requires from { D.from disk.old ≡ 0 }
    ensures applied { IfOk result (λ header. IsApplied old.now script.now.extra header) }
    ensures bytes { IfOk result (λ header. D.held disk.new ≡ after (λ file. redefined file old.now header) (D.held disk.old)) }
    ensures calls { IfOk result (λ header. IfSome (D.held disk.old) (λ file. D.calls disk.new ≡ with_end (D.calls disk.old) (relocation_calls script.now.hints.wr_buffer old.now header file))) }
    ensures from { OnOk result (D.from disk.new ≡ 0) }
    ensures len { IfOk result (λ header. new_end old.now header ≤ D.len disk.new) }
    ensures refused { (e : RedefErr) → result ≡ Err (Stop.Redefinition e) → redefined_fault old.now script.now.extra ≡ Some e }
    ensures torn { OnErr result (BothTold (IsPartlyRedefined old.now script.now.extra) (D.held disk.old) (D.held disk.new)) }
    ensures unchanged { (e : RedefErr) → result ≡ Err (Stop.Redefinition e) → disk.new ≡ disk.old }
    ensures disk { IsErrOf result Stop.Disk → Rose (D.faults disk.old) (D.faults disk.new) }
    ensures later { D.faults disk.old ≤ D.faults disk.new }
    ensures only { IfErr result IsOfRedefinition }
{
    let new = apply(alloc, old, &script.extra)?;
    match relocate(alloc, disk, old, &new, script.hints.wr_buffer) {
        Ok(()) => Ok(new),
        Err(fault) => {
            drop(new);
            Err(Stop::from(fault))
        }
    }
}
