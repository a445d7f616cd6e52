// A dataset that is there.
ghost use Rattle.std.specs.Prelude.{◌≡◌, ◌≤◌, ◌==◌, Some, true, false, length, Err, IfErr, IfOk, IfSome, IsErrOf, OnOk};
ghost use Rattle.nc_base.specs.declared.errors.HeaderErr.{HeaderErr};
ghost use Rattle.nc_base.specs.declared.errors.RedefErr.{RedefErr};
ghost use Rattle.nc_outside.specs.Cause.{Rose};
ghost use Rattle.serial_spec.specs.HeaderFaults.{HasFault};
ghost use Rattle.serial_spec.specs.Redefinition.{redefined_fault};
ghost use Rattle.serial_spec.specs.SoundHeaders.{is_redefinable, is_sound};
ghost use Rattle.redef_laws.specs.Applied.{IsApplied};
ghost use Rattle.dataset_start.specs.Dataset.{front, IsKept};
ghost use Rattle.dataset_start.specs.Readiness.{dataset_end};
ghost use Rattle.dataset_start.specs.Stops.{IsOfHeader, IsOfRedefinition};
ghost use Rattle.opening_plan.specs.Opening.{IsOpeningOf};
ghost use Rattle.plan_cli.specs.Opened.{IsOpenedFile, IsOpening};
ghost use Rattle.plan_cli.specs.Outside.{held_of};
ghost use Rattle.plan_cli.specs.Stopped.{IsUnprepared};
ghost use Rattle.plan_cli.specs.Words.{name_of};

use crate::dataset::DatasetFront;
use crate::start::Prepared;
use cdf_header::decode;
use dataset_start::Stop;
use nc_base::{Header, Script};
use opening_plan::open_existing;
use redef_mover::apply;
use std::alloc::Global;

// The header of a dataset, and how many bytes it has.
#[derive(Drop)]
struct Looked {
    header: Header,
    size: u64,
}

/// Looks at the dataset of that name. Where no word names one it is a disk fault, as of one that is missing.
pub(crate) fn open<D: DatasetFront>(
    alloc: Global,
    script: &Script,
    name: Option<&str>,
    dataset: &mut D,
) -> Result<Prepared, Stop>
    requires kept { IsKept script.now }
    requires opened { script.now.fresh ≡ false }
    ensures opening { IfOk result (λ prepared. IsOpening script.now (held_of D.DatasetFront (name_of name.entry) dataset.old) prepared.header prepared.opening) }
    ensures long { IfOk result (λ prepared. dataset_end prepared.header ≤ prepared.opening.size) }
    ensures stopped { IfErr result (IsUnprepared script.now (held_of D.DatasetFront (name_of name.entry) dataset.old) (name_of name.entry) (Rose (D.faults dataset.old) (D.faults dataset.new))) }
    ensures kept { D.held dataset.new ≡ D.held dataset.old }
{
    let Some(name) = name else {
        return Err(Stop::Disk);
    };
    let old = look(alloc, name, dataset)?;
    if script.extra.is_empty() {
        keep(alloc, script, old)
    } else {
        let prepared = redefine(alloc, script, &old);
        drop(old);
        prepared
    }
}

// The header of the dataset of that name.
fn look<D: DatasetFront>(alloc: Global, name: &str, dataset: &mut D) -> Result<Looked, Stop>
    ensures opened { IfOk result (λ old. IsOpenedFile (D.held dataset.old name.now) old.header old.size) }
    ensures sound { IfOk result (λ old. is_sound old.header ≡ true) }
    ensures redefinable { IfOk result (λ old. is_redefinable old.header ≡ true) }
    ensures faultless { OnOk result (IfSome (D.held dataset.old name.now) (λ file. (e : HeaderErr) → HasFault (front file) e → ⊥)) }
    ensures header { (e : HeaderErr) → result ≡ Err (Stop.Header e) → IfSome (D.held dataset.old name.now) (λ file. HasFault (front file) e) }
    ensures disk { IsErrOf result Stop.Disk → Rose (D.faults dataset.old) (D.faults dataset.new) }
    ensures kept { D.held dataset.new ≡ D.held dataset.old }
    ensures only { IfErr result IsOfHeader }
{
    let seen = dataset.front(alloc, name)?;
    let (header, _) = decode(alloc, &seen.bytes)?;
    Ok(Looked {
        header,
        size: seen.size,
    })
}

// Nothing is added to the dataset.
fn keep(alloc: Global, script: &Script, old: Looked) -> Result<Prepared, Stop>
    requires kept { IsKept script.now }
    requires opened { script.now.fresh ≡ false }
    requires none { (length script.now.extra == 0) ≡ true }
    requires sound { is_sound old.header ≡ true }
    ensures header { IfOk result (λ prepared. prepared.header ≡ old.header) }
    ensures opening { IfOk result (λ prepared. IsOpeningOf script.now old.header prepared.header old.size prepared.opening) }
    ensures long { IfOk result (λ prepared. dataset_end prepared.header ≤ prepared.opening.size) }
    ensures only { IfErr result (λ stop. stop ≡ Stop.Memory) }
{
    let Looked { header, size } = old;
    match open_existing(alloc, script, &header, &header, size) {
        Ok(opening) => Ok(Prepared { header, opening }),
        Err(memory) => {
            drop(header);
            Err(Stop::from(memory))
        }
    }
}

// What the script adds is added to the dataset.
fn redefine(alloc: Global, script: &Script, old: &Looked) -> Result<Prepared, Stop>
    requires kept { IsKept script.now }
    requires opened { script.now.fresh ≡ false }
    requires some { (length script.now.extra == 0) ≡ false }
    requires sound { is_sound old.now.header ≡ true }
    requires redefinable { is_redefinable old.now.header ≡ true }
    ensures applied { IfOk result (λ prepared. IsApplied old.now.header script.now.extra prepared.header) }
    ensures opening { IfOk result (λ prepared. IsOpeningOf script.now old.now.header prepared.header old.now.size prepared.opening) }
    ensures long { IfOk result (λ prepared. dataset_end prepared.header ≤ prepared.opening.size) }
    ensures refused { (e : RedefErr) → result ≡ Err (Stop.Redefinition e) → redefined_fault old.now.header script.now.extra ≡ Some e }
    ensures only { IfErr result IsOfRedefinition }
    ensures unread { ¬ (IsErrOf result Stop.Disk) }
{
    let header = apply(alloc, &old.header, &script.extra)?;
    match open_existing(alloc, script, &old.header, &header, old.size) {
        Ok(opening) => Ok(Prepared { header, opening }),
        Err(memory) => {
            drop(header);
            Err(Stop::from(memory))
        }
    }
}
