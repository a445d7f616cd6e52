// Where the variables of an existing dataset lie.
ghost use Rattle.std.specs.Prelude.{◌≡◌, ◌⊎◌, ℕ, List, [], Err, IfErr, IfOk, IfSome, IsErrOf, OnOk};
ghost use Rattle.nc_base.specs.declared.errors.HeaderErr.{HeaderErr};
ghost use Rattle.nc_outside.specs.Told.{after};
ghost use Rattle.nc_outside.specs.Cause.{Rose};
ghost use Rattle.serial_spec.specs.DeviceCalls.{head_load};
ghost use Rattle.serial_spec.specs.HeaderFaults.{HasFault};
ghost use Rattle.ncmpi_cli.specs.Headline.{GivesLine};
ghost use Rattle.dataset_start.specs.Dataset.{front, TellsHeader};
ghost use Rattle.ncmpi_cli.specs.OffsetList.{IsFaultyFront, IsListStatus, IsOfReadHeader, IsSoundFront, Lists, ListsFront, ListsWhole};
ghost use Rattle.dataset_start.specs.Stops.{IsOfHeader, line_of_status};

use crate::report::{give, tell};
use crate::top::Outcome;
use dataset_start::{Stop, read_header};
use nc_base::{Blob, MarkList, ReadingTable};
use nc_outside::{Disk, Sink};
use printed_text::offsets_text;
use std::alloc::Global;

/// Reads the header of the dataset, and gives its offsets. The file stays as it is.
pub(crate) fn list_offsets<K: Sink, D: Disk>(
    alloc: Global,
    disk: &mut D,
    out: &mut K,
    dataset: &str,
) -> Outcome
    ensures ok { result.status ≡ 0 → ListsWhole (D.held disk.old) (K.given out.old) (K.given out.new) }
    ensures cut { result.status ≡ 6 → ListsFront (D.held disk.old) (K.given out.old) (K.given out.new) }
    ensures statuses { IsListStatus result.status }
    ensures dataset { result.status ≡ 4 → (line : List ℕ) × (TellsHeader (D.held disk.old) line × GivesLine (K.faults out.old) (K.faults out.new) (K.given out.old) (K.given out.new) line) }
    ensures sink { result.status ≡ 6 → Rose (K.faults out.old) (K.faults out.new) }
    ensures disk { result.status ≡ 7 → Rose (D.faults disk.old) (D.faults disk.new) }
    ensures faulty { IsFaultyFront (D.held disk.old) → ¬ (Rose (D.faults disk.old) (D.faults disk.new)) → (result.status ≡ 4) ⊎ (result.status ≡ 8) }
    ensures complete { IsSoundFront (D.held disk.old) → ¬ (Rose (K.faults out.old) (K.faults out.new)) → ¬ (Rose (D.faults disk.old) (D.faults disk.new)) → (result.status ≡ 0) ⊎ (result.status ≡ 8) }
    ensures unchanged { D.held disk.new ≡ D.held disk.old }
    ensures calls { IsOfReadHeader result.status → IfSome (D.held disk.old) (λ file. D.calls disk.new ≡ after (λ _. head_load file) (D.calls disk.old)) }
    ensures silent { result.status ≡ 8 → out.new ≡ out.old }
    ensures told { IfSome (line_of_status result.status) (λ line. GivesLine (K.faults out.old) (K.faults out.new) (K.given out.old) (K.given out.new) line) }
    ensures order { result.order ≡ [] }
    ensures readings { result.readings ≡ [] }
{
    match offsets_of(alloc, disk, dataset) {
        Ok(text) => give(
            out,
            text.as_slice(),
            MarkList::new(alloc),
            ReadingTable::new(alloc),
        ),
        Err(stop) => tell(alloc, out, stop, MarkList::new(alloc)),
    }
}

fn offsets_of<D: Disk>(alloc: Global, disk: &mut D, dataset: &str) -> Result<Blob, Stop>
    ensures lists { IfOk result (λ text. Lists (D.held disk.old) text) }
    ensures faultless { OnOk result (IfSome (D.held disk.old) (λ file. (e : HeaderErr) → HasFault (front file) e → ⊥)) }
    ensures held { D.held disk.new ≡ D.held disk.old }
    ensures calls { OnOk result (IfSome (D.held disk.old) (λ file. D.calls disk.new ≡ after (λ _. head_load file) (D.calls disk.old))) }
    ensures refused { (e : HeaderErr) → result ≡ Err (Stop.Header e) → IfSome (D.held disk.old) (λ file. D.calls disk.new ≡ after (λ _. head_load file) (D.calls disk.old)) }
    ensures header { (e : HeaderErr) → result ≡ Err (Stop.Header e) → IfSome (D.held disk.old) (λ file. HasFault (front file) e) }
    ensures disk { IsErrOf result Stop.Disk → Rose (D.faults disk.old) (D.faults disk.new) }
    ensures only { IfErr result IsOfHeader }
{
    let header = read_header(alloc, disk, dataset)?;
    let text = offsets_text(alloc, &header)?;
    Ok(text)
}
