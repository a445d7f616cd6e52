// An existing dataset.
ghost use Rattle.std.specs.Prelude.{◌≡◌, ◌≤◌, ◌^◌, true, false, length, OnOk, OnErr, IfOk, IfErr, IfSome, IsErrOf, Err};
ghost use Rattle.nc_base.specs.declared.errors.HeaderErr.{HeaderErr};
ghost use Rattle.nc_outside.specs.Told.{after, with_end, BothTold};
ghost use Rattle.nc_outside.specs.Cause.{HasDiskCause, Rose};
ghost use Rattle.serial_spec.specs.DeviceCalls.{grow_to, head_load};
ghost use Rattle.serial_spec.specs.File.{longer};
ghost use Rattle.serial_spec.specs.HeaderFaults.{HasFault};
ghost use Rattle.serial_spec.specs.SoundHeaders.{is_sound, is_redefinable};
ghost use Rattle.serial_spec.specs.Torn.{IsLengthened};
ghost use Rattle.dataset_start.specs.Dataset.{front, IsKept, TellsDataset};
ghost use Rattle.dataset_start.specs.Readiness.{dataset_end, IsOpened, IsReady, IsUnready};
ghost use Rattle.dataset_start.specs.Stops.{line_of, status_of, IsOfHeader, IsOfOpening};

use crate::redefined::redefine;
use crate::stop::Stop;
use cdf_header::decode;
use nc_base::{Header, MAX_HEADER_BYTES, Script, StepErr};
use nc_outside::{Disk, grow_to};
use std::alloc::Global;
use var_layout::end_of;

/// Opens the dataset, and makes it ready for the ranks: where the script adds to it, it is redefined; else a file that is shorter than
/// its end is made as long.
pub(crate) fn open<D: Disk>(
    alloc: Global,
    disk: &mut D,
    name: &str,
    script: &Script,
) -> Result<Header, Stop>
    requires kept { IsKept script.now }
    requires opened { script.now.fresh ≡ false }
    ensures ready { IfOk result (λ header. IsReady script.now header (D.held disk.old) (D.held disk.new) (D.calls disk.old) (D.calls disk.new)) }
    ensures from { OnOk result (D.from disk.new ≡ 0) }
    ensures len { IfOk result (λ header. dataset_end header ≤ D.len disk.new) }
    ensures bad { IfErr result (λ stop. status_of stop ≡ 4 → IfSome (line_of stop) (TellsDataset script.now (D.held disk.old))) }
    ensures unchanged { IfErr result (λ stop. status_of stop ≡ 4 → D.held disk.new ≡ D.held disk.old) }
    ensures refused { OnErr result (IsUnready script.now (D.held disk.old) (D.held disk.new)) }
    ensures disk { IsErrOf result Stop.Disk → Rose (D.faults disk.old) (D.faults disk.new) }
    ensures later { D.faults disk.old ≤ D.faults disk.new }
    ensures only { IfErr result IsOfOpening }
{
    let old = read_header(alloc, disk, name)?;
    if script.extra.is_empty() {
        match lengthen(alloc, disk, &old) {
            Ok(()) => Ok(old),
            Err(fault) => {
                drop(old);
                Err(Stop::from(fault))
            }
        }
    } else {
        let new = redefine(alloc, disk, &old, script);
        drop(old);
        new
    }
}

/// Starts the disk, and reads the header of the dataset.
pub fn read_header<D: Disk>(alloc: Global, disk: &mut D, name: &str) -> Result<Header, Stop>
    ensures opened { IfOk result (λ header. IsOpened (D.held disk.old) header) }
    ensures sound { IfOk result (λ header. is_sound header ≡ true) }
    ensures redefinable { IfOk result (λ header. is_redefinable header ≡ true) }
    ensures faultless { OnOk result (IfSome (D.held disk.old) (λ file. (e : HeaderErr) → HasFault (front file) e → ⊥)) }
    ensures calls { OnOk result (IfSome (D.held disk.old) (λ file. D.calls disk.new ≡ after (λ _. head_load file) (D.calls disk.old))) }
    ensures from { OnOk result (D.from disk.new ≡ 0) }
    ensures held { D.held disk.new ≡ D.held disk.old }
    ensures refused { (e : HeaderErr) → result ≡ Err (Stop.Header e) → IfSome (D.held disk.old) (λ file. D.calls disk.new ≡ after (λ _. head_load file) (D.calls disk.old)) }
    ensures header { (e : HeaderErr) → result ≡ Err (Stop.Header e) → IfSome (D.held disk.old) (λ file. HasFault (front file) e) }
    ensures disk { IsErrOf result Stop.Disk → Rose (D.faults disk.old) (D.faults disk.new) }
    ensures later { D.faults disk.old ≤ D.faults disk.new }
    ensures only { IfErr result IsOfHeader }
{
    let bytes = first_bytes(alloc, disk, name)?;
    let (header, _) = decode(alloc, &bytes)?;
    Ok(header)
}

// Starts the disk, and reads the first bytes of the dataset, among which its header stands.
fn first_bytes<D: Disk>(alloc: Global, disk: &mut D, name: &str) -> Result<Vec<u8>, StepErr>
    ensures bytes { IfOk result (λ bytes. IfSome (D.held disk.old) (λ file. bytes.items ≡ front file)) }
    ensures few { IfOk result (λ bytes. length bytes.items ≤ 2 ^ 20) }
    ensures calls { OnOk result (IfSome (D.held disk.old) (λ file. D.calls disk.new ≡ after (λ _. head_load file) (D.calls disk.old))) }
    ensures from { OnOk result (D.from disk.new ≡ 0) }
    ensures held { D.held disk.new ≡ D.held disk.old }
    ensures cause { HasDiskCause (D.faults disk.old) (D.faults disk.new) result }
{
    disk.start(alloc, name, false)?;
    let bytes = read_front(alloc, disk)?;
    Ok(bytes)
}

fn read_front<D: Disk>(alloc: Global, disk: &mut D) -> Result<Vec<u8>, StepErr>
    requires from { D.from disk.old ≡ 0 }
    ensures bytes { IfOk result (λ bytes. IfSome (D.held disk.old) (λ file. bytes.items ≡ front file)) }
    ensures few { IfOk result (λ bytes. length bytes.items ≤ 2 ^ 20) }
    ensures calls { OnOk result (IfSome (D.held disk.old) (λ file. D.calls disk.new ≡ with_end (D.calls disk.old) (head_load file))) }
    ensures from { D.from disk.new ≡ 0 }
    ensures held { D.held disk.new ≡ D.held disk.old }
    ensures cause { HasDiskCause (D.faults disk.old) (D.faults disk.new) result }
{
    let len = disk.size().min(MAX_HEADER_BYTES) as usize;
    if len == 0 {
        return Ok(Vec::new(alloc));
    }
    let mut bytes = vec![in alloc; 0; len]?;
    disk.read_at(alloc, 0, &mut bytes)?;
    Ok(bytes)
}

// Makes a file that is shorter than its end as long.
fn lengthen<D: Disk>(alloc: Global, disk: &mut D, header: &Header) -> Result<(), StepErr>
    requires sound { is_sound header.now ≡ true }
    requires from { D.from disk.old ≡ 0 }
    ensures bytes { OnOk result (D.held disk.new ≡ after (λ file. longer file (dataset_end header.now)) (D.held disk.old)) }
    ensures lengthened { BothTold (IsLengthened (dataset_end header.now)) (D.held disk.old) (D.held disk.new) }
    ensures calls { OnOk result (IfSome (D.held disk.old) (λ file. D.calls disk.new ≡ with_end (D.calls disk.old) (grow_to (length file) (dataset_end header.now)))) }
    ensures from { D.from disk.new ≡ 0 }
    ensures len { OnOk result (dataset_end header.now ≤ D.len disk.new) }
    ensures cause { HasDiskCause (D.faults disk.old) (D.faults disk.new) result }
{
    let end = end_of(header, header.records);
    grow_to(alloc, disk, end)
}
