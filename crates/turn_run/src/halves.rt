// The two halves of a meeting, its puts and its gets: one for which no batch has a request is nothing.
ghost use Rattle.std.specs.Prelude.{◌≡◌, ◌≤◌, ◌<◌, ◌++◌, [], map, flat_map, max, length, nat_lt, IfOk, IfSome, OnOk, OnErr};
ghost use Rattle.std.specs.Int.{byte_len};
ghost use Rattle.std.specs.List.{list_all};
ghost use Rattle.nc_outside.specs.Cause.{HasDiskCause};
ghost use Rattle.nc_outside.specs.Told.{after, with_end, BothTold};
ghost use Rattle.serial_spec.specs.DeviceCalls.{collective_windows, get_bytes, loads, put_calls, store_records};
ghost use Rattle.serial_spec.specs.FileStep.{end_for, get_post, told};
ghost use Rattle.serial_spec.specs.HeaderBytes.{count_width, header_len};
ghost use Rattle.serial_spec.specs.Layout.{end_of};
ghost use Rattle.serial_spec.specs.Limits.{record_limit};
ghost use Rattle.serial_spec.specs.Lists.{is_empty};
ghost use Rattle.serial_spec.specs.Owner.{needed_now};
ghost use Rattle.serial_spec.specs.RankSide.{wanted};
ghost use Rattle.serial_spec.specs.SharedByte.{covered, holdings, IsOwnOnce};
ghost use Rattle.serial_spec.specs.Torn.{IsTorn};
ghost use Rattle.collective_round.specs.Ended.{pair_of};
ghost use Rattle.collective_round.specs.Rounds.{after_round, counted, dataset_setting, gets_in, puts_in, AreFew, AreGets, ArePuts};

use collective_round::{Dataset, PutEnd, get_all, put_all};
use nc_base::{Batch, BlobList, GotTable, Job, Memory, Post, StepErr};
use nc_outside::{Disk, Gate};
use piece_exchange::{Crew, SharedJob, Tools};
use std::alloc::Global;
use std::sync::Wait;
use std::thread::Threads;

/// The puts of a meeting, and the record count that they need.
#[tactic(auto, using(crate::proofs::HalfLaws::puts_of_none, crate::proofs::HalfLaws::told_of_none, crate::proofs::HalfLaws::needed_of_none))]
pub(crate) fn put_half<'s, E, R: Threads + Wait + Sync, D: Disk + 's, G: Gate>(
    tools: &Tools<R, G>,
    crew: &mut Crew<'s, E, R, G, D>,
    disk: &mut D,
    dataset: &Dataset,
    records: &mut u64,
    job: &SharedJob,
) -> Result<PutEnd, StepErr>
    requires few { AreFew job.now.batches }
    requires puts { ArePuts dataset.now.header.now (puts_in job.now.batches) }
    requires own { IsOwnOnce (holdings dataset.now.header.now (puts_in job.now.batches)) }
    requires records { records.old < record_limit dataset.now.header.now.version }
    requires from { D.from disk.old ≡ 0 }
    requires long { end_of dataset.now.header.now (header_len dataset.now.header.now) 0 ≤ D.len disk.old }
    ensures told { IfOk result (λ end. pair_of end ≡ told (dataset_setting dataset.now) (puts_in job.now.batches)) }
    ensures bytes { OnOk result (D.held disk.new ≡ after (λ file. (after_round (dataset_setting dataset.now) (puts_in job.now.batches) (counted file records.old)).file) (D.held disk.old)) }
    ensures records { OnOk result (records.new ≡ max records.old (needed_now (dataset_setting dataset.now) (puts_in job.now.batches))) }
    ensures long { OnOk result (end_for (dataset_setting dataset.now) (needed_now (dataset_setting dataset.now) (puts_in job.now.batches)) ≤ D.len disk.new) }
    ensures calls { OnOk result (D.calls disk.new ≡ with_end (D.calls disk.old) (put_calls (dataset_setting dataset.now) (collective_windows dataset.now.hints.now) (puts_in job.now.batches) (D.len disk.old)
        ++ store_records (dataset_setting dataset.now) (nat_lt records.old records.new))) }
    ensures kept { OnErr result (records.new ≡ records.old) }
    ensures refused { OnErr result (BothTold (λ old left. IsTorn (covered dataset.now.header.now (puts_in job.now.batches)) (byte_len (count_width dataset.now.header.now.version)) old
        (after_round (dataset_setting dataset.now) (puts_in job.now.batches) (counted old records.old)).file left) (D.held disk.old) (D.held disk.new)) }
    ensures from { D.from disk.new ≡ 0 }
    ensures grown { D.len disk.old ≤ D.len disk.new }
    ensures cause { HasDiskCause (D.faults disk.old) (D.faults disk.new) result }
{
    if have_no_puts(job.job().batches.as_slice()) {
        return Ok(PutEnd::Done);
    }
    put_all(tools, crew, disk, dataset, records, job)
}

/// Whether no batch has a put.
fn have_no_puts(batches: &[Batch]) -> bool
    ensures { result ≡ list_all (λ b. is_empty b.puts) batches.now }
{
    batches.iter().all(|batch| is_none(batch.puts.as_slice()))
}

/// The gets of a meeting.
pub(crate) fn get_half<'s, E, R: Threads + Wait + Sync, D: Disk + 's, G: Gate>(
    tools: &Tools<R, G>,
    crew: &mut Crew<'s, E, R, G, D>,
    disk: &mut D,
    dataset: &Dataset,
    job: &Job,
) -> Result<GotTable, StepErr>
    requires few { AreFew job.now.batches }
    requires gets { AreGets dataset.now.header.now (D.len disk.old) (gets_in job.now.batches) }
    requires from { D.from disk.old ≡ 0 }
    ensures got { IfOk result (λ table. IfSome (D.held disk.old) (λ file. table ≡ map (λ b. map (get_post (dataset_setting dataset.now) file) b.gets) job.now.batches)) }
    ensures fits { IfOk result (λ table. map (λ blobs. map (λ blob. length blob) blobs) table ≡ map (λ b. map (wanted dataset.now.header.now) b.gets) job.now.batches) }
    ensures calls { OnOk result (D.calls disk.new ≡ with_end (D.calls disk.old) (flat_map loads (collective_windows dataset.now.hints.now (get_bytes (dataset_setting dataset.now) (gets_in job.now.batches))))) }
    ensures bytes { D.held disk.new ≡ D.held disk.old }
    ensures from { D.from disk.new ≡ 0 }
    ensures len { D.len disk.new ≡ D.len disk.old }
    ensures cause { HasDiskCause (D.faults disk.old) (D.faults disk.new) result }
{
    let batches = job.batches.as_slice();
    if have_no_gets(batches) {
        return Ok(empty_rows(tools.alloc, batches)?);
    }
    get_all(tools, crew, disk, dataset, job)
}

/// Whether no batch has a get.
fn have_no_gets(batches: &[Batch]) -> bool
    ensures { result ≡ list_all (λ b. is_empty b.gets) batches.now }
{
    batches.iter().all(|batch| is_none(batch.gets.as_slice()))
}

fn is_none(posts: &[Post]) -> bool
    ensures { result ≡ is_empty posts.now }
{
    match posts {
        [] => true,
        [_, ..] => false,
    }
}

/// A row without a blob for each batch.
fn empty_rows(alloc: Global, batches: &[Batch]) -> Result<GotTable, Memory>
    ensures { IfOk result (λ table. table ≡ map (λ _. []) batches.now) }
{
    let mut table = Vec::with_capacity(alloc, batches.len())?;
    for _batch in batches {
        table.push(BlobList::new(alloc))?;
    }
    Ok(GotTable::from_vec(table))
}
