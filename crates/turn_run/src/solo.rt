// The step of one rank alone.
ghost use Rattle.std.specs.Prelude.{◌≡◌, ◌≤◌, ◌<◌, map, max, length, IfOk, IfSome, OnOk, OnErr};
ghost use Rattle.nc_outside.specs.Cause.{HasDiskCause};
ghost use Rattle.nc_outside.specs.Told.{after, with_end, BothTold};
ghost use Rattle.serial_spec.specs.Owner.{needed_now};
ghost use Rattle.serial_spec.specs.DeviceCalls.{solo_calls};
ghost use Rattle.serial_spec.specs.FileStep.{needs, puts_of, solo, told};
ghost use Rattle.serial_spec.specs.RankSide.{wanted};
ghost use Rattle.serial_spec.specs.SharedByte.{covered};
ghost use Rattle.serial_spec.specs.Torn.{IsTorn};
ghost use Rattle.rank_core.specs.Offered.{IsSoundOffer};
ghost use Rattle.collective_round.specs.Ended.{pair_of};
ghost use Rattle.collective_round.specs.Rounds.{dataset_setting, counted};
ghost use Rattle.turn_run.specs.Counts.{IsCount, IsFit};
ghost use Rattle.turn_run.specs.Steps.{needed_after};

use collective_round::{Dataset, PutEnd, get_solo, put_solo, records_needed_by};
use nc_base::{Header, Offer, Pair, Reply, StepErr};
use nc_outside::Disk;
use std::alloc::Global;

/// Does the puts and then the gets of a rank's offer, and makes the reply. The record count of the file stays: the rank alone knows
/// what its puts need.
pub fn solo_reply<D: Disk>(
    alloc: Global,
    disk: &mut D,
    dataset: &Dataset,
    number: u32,
    offer: &Offer,
) -> Result<Reply, StepErr>
    requires fit { IsFit dataset.now.header.now (D.len disk.old) offer.now }
    requires from { D.from disk.old ≡ 0 }
    ensures reply { IfOk result (λ reply. IfSome (D.held disk.old) (λ file. reply ≡ (solo (dataset_setting dataset.now) number offer.now (counted file 0)).1)) }
    ensures told { IfOk result (λ reply. reply.pair ≡ told (dataset_setting dataset.now) (puts_of (number, offer.now))) }
    ensures records { IfOk result (λ reply. reply.records ≡ max offer.now.known (needed_now (dataset_setting dataset.now) (puts_of (number, offer.now)))) }
    ensures bytes { OnOk result (D.held disk.new ≡ after (λ file. (solo (dataset_setting dataset.now) number offer.now (counted file 0)).0.file) (D.held disk.old)) }
    ensures refused { OnErr result (BothTold (λ old left. IsTorn (covered dataset.now.header.now (puts_of (number, offer.now))) 0 old
        (solo (dataset_setting dataset.now) number offer.now (counted old 0)).0.file left) (D.held disk.old) (D.held disk.new)) }
    ensures calls { OnOk result (IfSome (D.held disk.old) (λ file. D.calls disk.new ≡ with_end (D.calls disk.old) (solo_calls dataset.now.hints.now (dataset_setting dataset.now) number offer.now (counted file 0)))) }
    ensures fits { IfOk result (λ reply. map (λ blob. length blob) reply.got ≡ map (wanted dataset.now.header.now) offer.now.batch.gets) }
    ensures count { IfOk result (λ reply. IsCount dataset.now.header.now (D.len disk.new) reply.records) }
    ensures from { D.from disk.new ≡ 0 }
    ensures longer { D.len disk.old ≤ D.len disk.new }
    ensures cause { HasDiskCause (D.faults disk.old) (D.faults disk.new) result }
{
    let end = put_solo(alloc, disk, dataset, number, &offer.batch)?;
    let got = get_solo(alloc, disk, dataset, &offer.batch)?;
    Ok(Reply {
        pair: told_pair(end),
        records: records_known(dataset.header, offer, end),
        got,
    })
}

/// The pair that the ranks of a step are told.
pub fn told_pair(end: PutEnd) -> Option<Pair>
    ensures { result ≡ pair_of end }
{
    match end {
        PutEnd::Done => None,
        PutEnd::Overlap(pair) => Some(pair),
    }
}

/// The record count that a rank knows after its own puts.
fn records_known(header: &Header, offer: &Offer, end: PutEnd) -> u64
    requires { IsSoundOffer header.now offer.now }
    ensures { result ≡ max offer.now.known (needed_after header.now offer.now.batch.puts end) }
{
    match end {
        PutEnd::Done => offer
            .known
            .max(records_needed_by(header, offer.batch.puts.as_slice())),
        PutEnd::Overlap(_) => offer.known,
    }
}
