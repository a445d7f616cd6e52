// A new dataset.
ghost use Rattle.std.specs.Prelude.{◌≡◌, ◌≤◌, ◌∷◌, [], None, true, OnOk, OnErr};
ghost use Rattle.nc_base.specs.declared.step.DiskCall.TheVariants.{Grow, Store};
ghost use Rattle.nc_outside.specs.Told.{after, with_end, BothTold};
ghost use Rattle.overlay_laws.specs.Changes.{IsBetween};
ghost use Rattle.nc_outside.specs.Cause.{HasDiskCause};
ghost use Rattle.serial_spec.specs.HeaderBytes.{canon, header_len};
ghost use Rattle.serial_spec.specs.SoundHeaders.{is_writable, is_sound};
ghost use Rattle.serial_spec.specs.Lawful.{are_lawful_hints};
ghost use Rattle.serial_spec.specs.Torn.{IsTornCreation};
ghost use Rattle.dataset_start.specs.Dataset.{created_header, creation_fault, IsKept};
ghost use Rattle.dataset_start.specs.Readiness.{blank_file, dataset_end, empty_end, fill_calls_if, filled_if, IsReady, IsUnready};

use cdf_header::encode;
use fill_records::prefill;
use nc_base::{Header, Script, StepErr};
use nc_outside::Disk;
use std::alloc::Global;
use var_layout::end_of;

/// Creates the dataset with the header that was laid out, and fills its fixed variables where the script asks for it.
pub(crate) fn create_filled<D: Disk>(
    alloc: Global,
    disk: &mut D,
    name: &str,
    script: &Script,
    header: &Header,
) -> Result<(), StepErr>
    requires kept { IsKept script.now }
    requires fresh { script.now.fresh ≡ true }
    requires laid { header.now ≡ created_header script.now }
    requires writable { is_writable header.now ≡ true }
    requires faultless { creation_fault script.now ≡ None }
    ensures ready { OnOk result (IsReady script.now header.now (D.held disk.old) (D.held disk.new) (D.calls disk.old) (D.calls disk.new)) }
    ensures refused { OnErr result (IsUnready script.now (D.held disk.old) (D.held disk.new)) }
    ensures from { OnOk result (D.from disk.new ≡ 0) }
    ensures len { OnOk result (dataset_end header.now ≤ D.len disk.new) }
    ensures cause { HasDiskCause (D.faults disk.old) (D.faults disk.new) result }
{
    create(alloc, disk, name, header)?;
    fill(alloc, disk, script, header)?;
    Ok(())
}

// Creates the dataset: zeros up to its end, and the header. Nothing is done before the header's bytes are made.
fn create<D: Disk>(alloc: Global, disk: &mut D, name: &str, header: &Header) -> Result<(), StepErr>
    requires writable { is_writable header.now ≡ true }
    ensures bytes { OnOk result (D.held disk.new ≡ after (λ _. blank_file header.now) (D.held disk.old)) }
    ensures refused { OnErr result (BothTold (λ old left. IsTornCreation (canon header.now) (blank_file header.now) old left) (D.held disk.old) (D.held disk.new)) }
    ensures calls { OnOk result (D.calls disk.new ≡ after (λ _. Grow (empty_end header.now) ∷ Store 0 (header_len header.now) ∷ []) (D.calls disk.old)) }
    ensures from { OnOk result (D.from disk.new ≡ 0) }
    ensures len { OnOk result (D.len disk.new ≡ empty_end header.now) }
    ensures cause { HasDiskCause (D.faults disk.old) (D.faults disk.new) result }
{
    let bytes = encode(alloc, header)?;
    let end = end_of(header, 0);
    disk.start(alloc, name, true)?;
    disk.grow(alloc, end)?;
    disk.write_at(alloc, 0, bytes.as_slice())?;
    Ok(())
}

// Fills the fixed variables of a new dataset, where the script asks for it.
fn fill<D: Disk>(
    alloc: Global,
    disk: &mut D,
    script: &Script,
    header: &Header,
) -> Result<(), StepErr>
    requires sound { is_sound header.now ≡ true }
    requires hints { are_lawful_hints script.now.hints ≡ true }
    requires from { D.from disk.old ≡ 0 }
    requires long { empty_end header.now ≤ D.len disk.old }
    ensures bytes { OnOk result (D.held disk.new ≡ after (filled_if script.now.filled header.now) (D.held disk.old)) }
    ensures refused { OnErr result (BothTold (λ old left. IsBetween old (filled_if script.now.filled header.now old) left) (D.held disk.old) (D.held disk.new)) }
    ensures calls { OnOk result (D.calls disk.new ≡ with_end (D.calls disk.old) (fill_calls_if script.now.filled script.now.hints header.now)) }
    ensures from { D.from disk.new ≡ 0 }
    ensures len { D.len disk.new ≡ D.len disk.old }
    ensures cause { HasDiskCause (D.faults disk.old) (D.faults disk.new) result }
{
    if script.filled {
        prefill(alloc, disk, header, script.hints.cb_buffer)
    } else {
        Ok(())
    }
}
