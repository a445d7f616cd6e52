// A meeting of all ranks.
ghost use Rattle.std.specs.Prelude.{◌≡◌, ◌≤◌, ◌<◌, ◌++◌, ◌∷◌, [], List, map, max, length, None, Some, IfOk, IfSome, OnOk, OnErr, ◌⊎◌, Err};
ghost use Rattle.std.specs.Int.{byte_len};
ghost use Rattle.std.specs.Option.{option_to_list};
ghost use Rattle.nc_base.specs.declared.step.Mark.TheVariants as mark;
ghost use Rattle.nc_base.specs.declared.step.StepErr.{StepErr as Fault};
ghost use Rattle.nc_outside.specs.Cause.{HasDiskCause};
ghost use Rattle.nc_outside.specs.Told.{after, with_end, BothTold};
ghost use Rattle.serial_spec.specs.Owner.{needed_now};
ghost use Rattle.serial_spec.specs.FileStep.{get_post, known_by, told};
ghost use Rattle.serial_spec.specs.HeaderBytes.{count_width};
ghost use Rattle.serial_spec.specs.RankSide.{wanted};
ghost use Rattle.serial_spec.specs.SerialEnd.{advance, after_mark, Going};
ghost use Rattle.serial_spec.specs.SharedByte.{covered};
ghost use Rattle.serial_spec.specs.Torn.{IsTorn};
ghost use Rattle.collective_round.specs.Rounds.{dataset_setting, counted, puts_in};
ghost use Rattle.run_laws.specs.Ways.{meetings};
ghost use Rattle.turn_run.specs.Begun.{HasBegun};
ghost use Rattle.turn_run.specs.Counts.{IsCount, IsRise};
ghost use Rattle.turn_run.specs.Said.{all_between, HaveHeardInPart, KeepAnswers};
ghost use Rattle.turn_run.specs.Running.{AreFree, AreFreed, IsFreed, AreHeard, AreRunners, AreToHear, HaveArrived, HaveMet};
ghost use Rattle.turn_run.specs.Steps.{batches_of, held_offers, known_of, met, met_calls, IsJob, IsOneRise};
ghost use Rattle.turn_run.specs.Setups.{all_at_next, setting_in, stage_at, AllSayUpTo, HasLedOn, HasToldOn, IsCutOff, point_at};

use crate::halves::{get_half, put_half};
use crate::lent::{Lent, Progress};
use crate::mark::note_step;
use crate::runners::Runner;
use crate::solo::told_pair;
use collective_round::{Dataset, raise_records};
use nc_base::{
    Batch, BatchList, GotTable, Job, Mark, MeetKind, Memory, Offer, OfferKind, Pair, Reply, StepErr,
};
use nc_outside::{Disk, Gate, Told};
use piece_exchange::{Crew, SharedJob, Tools};
use std::alloc::Global;
use std::sync::Wait;
use std::thread::Threads;

/// Does the meeting whose offers the ranks hold, and lets each hear its reply.
pub(crate) fn meet<'s, E, R: Threads + Wait + Sync, D: Disk + 's, G: Gate, T: Told>(
    lent: &Lent<R, G>,
    crew: &mut Crew<'s, E, R, G, D>,
    disk: &mut D,
    told: &mut T,
    progress: &mut Progress,
    runners: &mut [Runner],
    number: u32,
) -> Result<(), StepErr>
    requires number { number ≡ meetings progress.old.order }
    requires runners { AreRunners lent.now.setup.script.now lent.now.setup.header.now (D.len disk.old) progress.old.order runners.old }
    requires met { HaveMet runners.old }
    requires arrived { HaveArrived lent.now.setup.script.now runners.old }
    requires records { IsCount lent.now.setup.header.now (D.len disk.old) progress.old.records }
    requires from { D.from disk.old ≡ 0 }
    ensures runners { OnOk result (AreRunners lent.now.setup.script.now lent.now.setup.header.now (D.len disk.new) progress.new.order runners.new) }
    ensures free { OnOk result (AreFree runners.new) }
    ensures order { OnOk result (progress.new.order ≡ progress.old.order ++ mark.Meet (meetings progress.old.order) ∷ []) }
    ensures led { OnOk result (HasLedOn lent.now.setup progress.old progress.new (stage_at lent.now.setup (D.held disk.old) (D.calls disk.old) progress.old runners.old)
        (stage_at lent.now.setup (D.held disk.new) (D.calls disk.new) progress.new runners.new)) }
    ensures cut { (e : Fault) → result ≡ Err e → IsCutOff lent.now.setup e (point_at progress.old (D.held disk.old)) runners.old (point_at progress.new (D.held disk.new)) }
    ensures answered { (e : Fault) → result ≡ Err e → AllSayUpTo lent.now.setup e (point_at progress.old (D.held disk.old)) runners.old progress.new.order runners.new }
    ensures between { OnOk result ((goings : List Going) → map (advance lent.now.setup.header.now) goings ≡ all_at_next lent.now.setup runners.old
        → IfSome (D.held disk.old) (λ file. (after_mark (setting_in lent.now.setup) (counted file progress.old.records, goings) (mark.Meet (meetings progress.old.order))).1
        ≡ all_between lent.now.setup.script.now.calls runners.new)) }
    ensures told { HasToldOn lent.now.setup (point_at progress.old (D.held disk.old)) runners.old progress.new.order (T.heard told.old) (T.heard told.new) }
    ensures records { OnOk result (IsCount lent.now.setup.header.now (D.len disk.new) progress.new.records) }
    ensures begun { HasBegun lent.now.setup.script.now progress.new.order }
    ensures from { D.from disk.new ≡ 0 }
    ensures longer { D.len disk.old ≤ D.len disk.new }
    ensures cause { HasDiskCause (D.faults disk.old) (D.faults disk.new) result }
{
    let (job, known) = take_shared_job(lent.tools.alloc, runners)?;
    let dataset = Dataset {
        header: lent.setup.header,
        measures: lent.setup.measures,
        hints: &lent.setup.script.hints,
    };
    let (pair, table) = meet_on_file(
        &lent.tools,
        crew,
        disk,
        &dataset,
        &mut progress.records,
        &job,
        known,
    )?;
    drop(job);
    let records = progress.records;
    note_step(
        lent.tools.rt,
        lent.tools.alloc,
        &mut progress.order,
        told,
        Mark::Meet(number),
        records,
    )?;
    hear_all(runners, pair, records, table)?;
    Ok(())
}

/// Takes the offers of a meeting as `take_job` does, for helpers to share.
fn take_shared_job(alloc: Global, runners: &mut [Runner]) -> Result<(SharedJob, u64), Memory>
    ensures batches { IfOk result (λ taken. taken.0.batches ≡ batches_of (held_offers runners.old)) }
    ensures known { IfOk result (λ taken. taken.1 ≡ known_of (held_offers runners.old)) }
    ensures freed { OnOk result (AreFreed runners.old runners.new) }
    ensures kept { KeepAnswers runners.old runners.new }
{
    let (job, known) = take_job(alloc, runners)?;
    Ok((SharedJob::new(alloc, job)?, known))
}

/// Takes the offers of a meeting: their batches, and the count to which it raises that of the file.
pub fn take_job(alloc: Global, runners: &mut [Runner]) -> Result<(Job, u64), Memory>
    ensures batches { IfOk result (λ taken. taken.0.batches ≡ batches_of (held_offers runners.old)) }
    ensures known { IfOk result (λ taken. taken.1 ≡ known_of (held_offers runners.old)) }
    ensures freed { OnOk result (AreFreed runners.old runners.new) }
    ensures kept { KeepAnswers runners.old runners.new }
{
    let mut batches = Vec::new(alloc);
    let mut known: u64 = 0;
    for runner in runners.iter_mut() {
        known = known.max(take_offer(runner, &mut batches)?);
    }
    Ok((
        Job {
            batches: BatchList::from_vec(batches),
        },
        known,
    ))
}

/// Takes the offer of a rank into the batches: the count to which it raises that of the file.
fn take_offer(runner: &mut Runner, batches: &mut Vec<Batch>) -> Result<u64, Memory>
    ensures freed { OnOk result (IsFreed runner.old runner.new) }
    ensures kept { runner.new.answers ≡ runner.old.answers }
    ensures batches { OnOk result (batches.new.items ≡ batches.old.items ++ batches_of (option_to_list runner.old.held)) }
    ensures known { IfOk result (λ known. known ≡ known_of (option_to_list runner.old.held)) }
{
    add_offer(runner.held.take(), batches)
}

/// Adds the batch of an offer to the batches: the count to which it raises that of the file.
pub fn add_offer(held: Option<Offer>, batches: &mut Vec<Batch>) -> Result<u64, Memory>
    ensures batches { OnOk result (batches.new.items ≡ batches.old.items ++ batches_of (option_to_list held)) }
    ensures known { IfOk result (λ known. known ≡ known_of (option_to_list held)) }
{
    match held {
        None => Ok(0),
        Some(offer) => {
            let known = known_by(&offer);
            batches.push(offer.batch)?;
            Ok(known)
        }
    }
}

/// The count to which an offer of a meeting raises that of the file: what its rank knows, where the meeting ends independent data
/// mode or makes the counts agree.
pub fn known_by(offer: &Offer) -> u64
    ensures { result ≡ known_by offer.now.kind offer.now.known }
{
    match offer.kind {
        OfferKind::Meet(MeetKind::End) | OfferKind::Meet(MeetKind::Sync) => offer.known,
        _ => 0,
    }
}

/// The puts of a meeting, its record count, and its gets: the pair that all ranks are told, and the bytes for each rank.
pub fn meet_on_file<'s, E, R: Threads + Wait + Sync, D: Disk + 's, G: Gate>(
    tools: &Tools<R, G>,
    crew: &mut Crew<'s, E, R, G, D>,
    disk: &mut D,
    dataset: &Dataset,
    records: &mut u64,
    job: &SharedJob,
    known: u64,
) -> Result<(Option<Pair>, GotTable), StepErr>
    requires job { IsJob dataset.now.header.now (D.len disk.old) job.now.batches }
    requires known { IsRise dataset.now.header.now (D.len disk.old) known }
    requires records { IsCount dataset.now.header.now (D.len disk.old) records.old }
    requires from { D.from disk.old ≡ 0 }
    ensures told { IfOk result (λ end. end.0 ≡ told (dataset_setting dataset.now) (puts_in job.now.batches)) }
    ensures bytes { OnOk result (D.held disk.new ≡ after (λ file. (met (dataset_setting dataset.now) job.now.batches known (counted file records.old)).file) (D.held disk.old)) }
    ensures records { OnOk result (records.new ≡ max records.old (max (needed_now (dataset_setting dataset.now) (puts_in job.now.batches)) known)) }
    ensures got { IfOk result (λ end. IfSome (D.held disk.new) (λ file. end.1 ≡ map (λ b. map (get_post (dataset_setting dataset.now) file) b.gets) job.now.batches)) }
    ensures fits { IfOk result (λ end. map (λ blobs. map (λ blob. length blob) blobs) end.1 ≡ map (λ b. map (wanted dataset.now.header.now) b.gets) job.now.batches) }
    ensures calls { OnOk result (IsOneRise known job.now.batches → IfSome (D.held disk.old) (λ file. D.calls disk.new ≡ with_end (D.calls disk.old) (met_calls dataset.now.hints.now (dataset_setting dataset.now) job.now.batches known (counted file records.old)))) }
    ensures refused { OnErr result (IsOneRise known job.now.batches → BothTold (λ old left. IsTorn (covered dataset.now.header.now (puts_in job.now.batches)) (byte_len (count_width dataset.now.header.now.version)) old
        (met (dataset_setting dataset.now) job.now.batches known (counted old records.old)).file left) (D.held disk.old) (D.held disk.new)) }
    ensures kept { OnErr result (IsOneRise known job.now.batches → (records.new ≡ records.old) ⊎ (records.new ≡ max records.old (max (needed_now (dataset_setting dataset.now) (puts_in job.now.batches)) known))) }
    ensures count { IsCount dataset.now.header.now (D.len disk.new) records.new }
    ensures from { D.from disk.new ≡ 0 }
    ensures longer { D.len disk.old ≤ D.len disk.new }
    ensures cause { HasDiskCause (D.faults disk.old) (D.faults disk.new) result }
{
    let end = put_half(tools, crew, disk, dataset, records, job)?;
    raise_records(tools.alloc, disk, dataset.header, records, known)?;
    let table = get_half(tools, crew, disk, dataset, job.job())?;
    Ok((told_pair(end), table))
}

/// Lets each rank hear its reply.
pub fn hear_all(
    runners: &mut [Runner],
    pair: Option<Pair>,
    records: u64,
    table: GotTable,
) -> Result<(), Memory>
    requires long { length table ≡ length runners.old }
    requires fit { AreToHear runners.old table }
    ensures all { OnOk result (AreHeard pair records table runners.old runners.new) }
    ensures part { OnErr result (HaveHeardInPart pair records table runners.old runners.new) }
{
    let mut table = table.into_vec();
    for (number, runner) in runners.iter_mut().enumerate() {
        let got = table[number].take();
        runner.hear(Reply { pair, records, got })?;
    }
    Ok(())
}
