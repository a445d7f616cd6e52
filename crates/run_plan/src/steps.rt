// The steps of ranks in turn.
ghost use Rattle.std.specs.Prelude.{◌≡◌, ◌≤◌, ◌<◌, ◌+◌, ◌^◌, ◌++◌, ◌∷◌, [], ℕ, length, map, max, slice_get, true, None, Some, IfNone, IfOk, IfSome, OnOk};
ghost use Rattle.var_layout.specs.Measured.{AreMeasures-prop};
ghost use Rattle.nc_base.specs.declared.plan.Post.{Post};
ghost use Rattle.nc_base.specs.declared.step.OfferKind.TheVariants as kind;
ghost use Rattle.overlay_laws.specs.Entries.{In};
ghost use Rattle.serial_spec.specs.Lawful.{is_lawful};
ghost use Rattle.serial_spec.specs.RankSide.{wanted};
ghost use Rattle.serial_spec.specs.SerialEnd.{setting_of};
ghost use Rattle.serial_spec.specs.SoundHeaders.{is_sound};
ghost use Rattle.run_laws.specs.Ways.{meetings, AsksAlone, IsOnWay};
ghost use Rattle.turn_run.specs.Counts.{IsAsked, IsCount};
ghost use Rattle.turn_run.specs.Running.{asking, between, calls_of, AreFree, AreRunners, HasArrived, HaveArrived, HaveMet, IsMet, IsRunner};
ghost use Rattle.turn_run.specs.Stages.{arrived, arrived_all};
ghost use Rattle.turn_run.specs.declared.runners.Runner as runner;
ghost use Rattle.vara_extents.specs.Accepted.{IsAccepted};
ghost use Rattle.var_layout.specs.Measures.{AreMeasures};
ghost use Rattle.run_plan.specs.Planned.{caller, meeting_callers, order_in, plan_stage, rank_plan, HasPlanned, HasPlannedAll};

use collective_round::{Dataset, table_for, zeros_for};
use nc_base::{Batch, Header, Mark, Memory, Offer, OfferKind, Reply, Script};
use nc_outside::OpenGate;
use piece_exchange::Tools;
use std::alloc::Global;
use std::sync::Wait;
use step_plan::{Caller, CallerList, Planned, StepPlan, StepPlanList, plan_meeting, plan_solo};
use turn_run::{Runner, hear_all, own_calls, take_job};
use var_layout::Measures;

/// What the steps of a plan are lent.
#[derive(Drop)]
pub(crate) struct Lent<'a, R> {
    pub tools: Tools<'a, R, OpenGate>,
    pub header: &'a Header,
    pub measures: &'a Measures,
    pub script: &'a Script,
    pub ghost sound: { is_sound header.now ≡ true },
    pub ghost measured: { AreMeasures header.now measures.now } by { AreMeasures-prop header.now measures.now },
    pub ghost lawful: { is_lawful script.now ≡ true },
}

/// How far a plan has come.
#[derive(Drop)]
pub(crate) struct Progress {
    pub steps: StepPlanList,
    /// The record count of the file.
    pub records: u64,
    /// How many bytes the file has.
    pub size: u64,
}

impl Progress {
    // Adds a step. It leaves the file so long, and the record count as it is.
    fn add(&mut self, mark: Mark, callers: CallerList, planned: Planned) -> Result<(), Memory>
        ensures steps { OnOk result (self.new.steps ≡ self.old.steps ++ record { mark = mark; callers = callers; file = planned.file } ∷ []) }
        ensures records { self.new.records ≡ self.old.records }
        ensures size { self.new.size ≡ planned.size }
    {
        self.size = planned.size;
        self.steps.push(StepPlan {
            mark,
            callers,
            file: planned.file,
        })
    }
}

/// The rank goes on until it meets the others, or has made its calls. Its steps alone are planned at once.
pub(crate) fn arrive<R: Wait>(
    lent: &Lent<R>,
    progress: &mut Progress,
    runner: &mut Runner,
    number: u32,
) -> Result<(), Memory>
    requires number { number < lent.now.script.now.ranks }
    requires free { runner.old.held ≡ None }
    requires runner { IsRunner lent.now.script.now lent.now.header.now (order_in progress.old.steps) number runner.old }
    requires known { IsCount lent.now.header.now progress.old.size runner.old.rank.state.known }
    ensures records { progress.new.records ≡ progress.old.records }
    ensures runner { OnOk result (IsRunner lent.now.script.now lent.now.header.now (order_in progress.new.steps) number runner.new) }
    ensures arrived { OnOk result (HasArrived (calls_of lent.now.script.now number) runner.new) }
    ensures known { OnOk result (IsCount lent.now.header.now progress.new.size runner.new.rank.state.known) }
    ensures longer { OnOk result (progress.old.size ≤ progress.new.size) }
    ensures planned { OnOk result (HasPlanned lent.now.script.now.hints (setting_of lent.now.script.now lent.now.header.now) number
        (rank_plan progress.old.steps progress.old.size (arrived lent.now.header.now (calls_of lent.now.script.now number) runner.old))
        (rank_plan progress.new.steps progress.new.size (arrived lent.now.header.now (calls_of lent.now.script.now number) runner.new))) }
{
    let calls = own_calls(lent.script, number);
    runner.go_on(&lent.tools, lent.header, lent.script, number, calls)?;
    'alone: while let Some(offer) = take_alone(runner) {
        do_alone(lent, progress, runner, number, &offer)?;
        runner.go_on(&lent.tools, lent.header, lent.script, number, calls)?;
    }
    Ok(())
}

// The offer that a rank holds, where it makes it alone.
fn take_alone(runner: &mut Runner) -> Option<Offer>
    ensures rank { runner.new.rank ≡ runner.old.rank }
    ensures answers { runner.new.answers ≡ runner.old.answers }
    ensures taken { IfSome result (λ o. (runner.old.held ≡ Some o) × (o.kind ≡ kind.Solo) × (runner.new.held ≡ None)) }
    ensures left { IfNone result ((runner.new.held ≡ runner.old.held) × IsMet runner.old.held) }
{
    match &runner.held {
        Some(offer) if offer.kind == OfferKind::Solo => runner.held.take(),
        _ => None,
    }
}

// Plans the step of a rank alone, and lets the rank hear zeros.
fn do_alone<R: Wait>(
    lent: &Lent<R>,
    progress: &mut Progress,
    runner: &mut Runner,
    number: u32,
    offer: &Offer,
) -> Result<(), Memory>
    requires number { number < lent.now.script.now.ranks }
    requires header { runner.old.rank.header ≡ lent.now.header.now }
    requires free { runner.old.held ≡ None }
    requires asks { AsksAlone lent.now.script.now lent.now.header.now (order_in progress.old.steps) number (asking (calls_of lent.now.script.now number) runner.old) offer.now }
    requires asked { IsAsked lent.now.header.now runner.old.rank.state.known offer.now }
    requires known { IsCount lent.now.header.now progress.old.size runner.old.rank.state.known }
    ensures records { progress.new.records ≡ progress.old.records }
    ensures header { runner.new.rank.header ≡ lent.now.header.now }
    ensures free { runner.new.held ≡ None }
    ensures answers { OnOk result (length runner.new.answers ≡ length runner.old.answers + 1) }
    ensures way { OnOk result (IsOnWay lent.now.script.now (order_in progress.new.steps) number (between (calls_of lent.now.script.now number) runner.new) None) }
    ensures known { OnOk result (IsCount lent.now.header.now progress.new.size runner.new.rank.state.known) }
    ensures longer { OnOk result (progress.old.size ≤ progress.new.size) }
    ensures planned { OnOk result (HasPlanned lent.now.script.now.hints (setting_of lent.now.script.now lent.now.header.now) number
        (rank_plan progress.old.steps progress.old.size (asking (calls_of lent.now.script.now number) runner.old, Some offer.now))
        (rank_plan progress.new.steps progress.new.size (arrived lent.now.header.now (calls_of lent.now.script.now number) runner.new))) }
{
    let alloc = lent.tools.alloc;
    let call = runner.answers.len() as u32;
    let dataset = Dataset {
        header: lent.header,
        measures: lent.measures,
        hints: &lent.script.hints,
    };
    let planned = plan_solo(alloc, &dataset, number, &offer.batch, progress.size)?;
    let reply = zero_reply(alloc, lent.header, offer, &planned)?;
    let callers = one_caller(alloc, number, call)?;
    progress.add(Mark::Solo(number, call), callers, planned)?;
    runner.hear(reply)?;
    Ok(())
}

// The reply to an offer that a rank makes alone, with zeros for the bytes that its gets ask for.
fn zero_reply(
    alloc: Global,
    header: &Header,
    offer: &Offer,
    planned: &Planned,
) -> Result<Reply, Memory>
    requires gets { (p : Post) → In offer.now.batch.gets p → IsAccepted header.now p.var p.region }
    ensures pair { IfOk result (λ reply. reply.pair ≡ planned.now.file.overlap) }
    ensures records { IfOk result (λ reply. reply.records ≡ max offer.now.known planned.now.records) }
    ensures row { IfOk result (λ reply. map (λ blob. length blob) reply.got ≡ map (wanted header.now) offer.now.batch.gets) }
{
    let got = zeros_for(alloc, header, offer.batch.gets.as_slice())?;
    Ok(Reply {
        pair: planned.file.overlap,
        records: offer.known.max(planned.records),
        got,
    })
}

fn one_caller(alloc: Global, rank: u32, call: u32) -> Result<CallerList, Memory>
    ensures { IfOk result (λ callers. callers ≡ caller rank call ∷ []) }
{
    let mut callers = CallerList::new(alloc);
    callers.push(Caller { rank, call })?;
    Ok(callers)
}

/// Plans the meeting whose offers the ranks hold, and lets each hear zeros.
pub(crate) fn meet<R: Wait>(
    lent: &Lent<R>,
    progress: &mut Progress,
    runners: &mut [Runner],
    number: u32,
) -> Result<(), Memory>
    requires number { number ≡ meetings (order_in progress.old.steps) }
    requires runners { AreRunners lent.now.script.now lent.now.header.now progress.old.size (order_in progress.old.steps) runners.old }
    requires met { HaveMet runners.old }
    requires arrived { HaveArrived lent.now.script.now runners.old }
    requires records { IsCount lent.now.header.now progress.old.size progress.old.records }
    ensures runners { OnOk result (AreRunners lent.now.script.now lent.now.header.now progress.new.size (order_in progress.new.steps) runners.new) }
    ensures free { OnOk result (AreFree runners.new) }
    ensures meetings { OnOk result (meetings (order_in progress.new.steps) ≡ number + 1) }
    ensures records { OnOk result (IsCount lent.now.header.now progress.new.size progress.new.records) }
    ensures planned { OnOk result (HasPlannedAll lent.now.script.now.hints (setting_of lent.now.script.now lent.now.header.now) progress.old.steps progress.new.steps
        (plan_stage progress.old.size progress.old.records (arrived_all lent.now.header.now lent.now.script.now.calls runners.old))
        (plan_stage progress.new.size progress.new.records (arrived_all lent.now.header.now lent.now.script.now.calls runners.new))) }
{
    let alloc = lent.tools.alloc;
    let callers = callers_of(alloc, runners)?;
    let (job, known) = take_job(alloc, runners)?;
    let batches: &[Batch] = job.batches.as_slice();
    let dataset = Dataset {
        header: lent.header,
        measures: lent.measures,
        hints: &lent.script.hints,
    };
    let planned = plan_meeting(
        alloc,
        &dataset,
        batches,
        known,
        progress.records,
        progress.size,
    )?;
    let pair = planned.file.overlap;
    let records = planned.records;
    progress.add(Mark::Meet(number), callers, planned)?;
    progress.records = records;
    let zeros = table_for(alloc, lent.header, batches)?;
    hear_all(runners, pair, records, zeros)?;
    Ok(())
}

// The calls by which the ranks come to a meeting.
fn callers_of(alloc: Global, runners: &[Runner]) -> Result<CallerList, Memory>
    requires ranks { length runners.now ≤ 64 }
    requires answers { (r : ℕ) → (x : runner.Runner) → slice_get runners.now r ≡ Some x → length x.answers < 2 ^ 32 }
    ensures { IfOk result (λ callers. callers ≡ meeting_callers runners.now) }
{
    let mut callers = CallerList::new(alloc);
    for (rank, runner) in runners.iter().enumerate() {
        callers.push(Caller {
            rank: rank as u32,
            call: runner.answers.len() as u32,
        })?;
    }
    Ok(callers)
}
