// The plan of a run.
ghost use Rattle.std.specs.Prelude.{◌≡◌, ◌≤◌, [], replicate, true, None, Some, IfOk, OnOk};
ghost use Rattle.serial_spec.specs.HeaderBytes.{header_len};
ghost use Rattle.serial_spec.specs.Layout.{end_of};
ghost use Rattle.serial_spec.specs.Lawful.{is_lawful};
ghost use Rattle.serial_spec.specs.SerialEnd.{setting_of};
ghost use Rattle.serial_spec.specs.SoundHeaders.{is_sound};
ghost use Rattle.run_laws.specs.Ways.{meetings};
ghost use Rattle.turn_run.specs.Counts.{IsCount};
ghost use Rattle.turn_run.specs.Running.{AreFree, AreRunners, HaveArrived};
ghost use Rattle.turn_run.specs.Stages.{arrived_all};
ghost use Rattle.turn_run.specs.Steps.{first_runner};
ghost use Rattle.run_plan.specs.Planned.{order_in, plan_stage, HasPlannedAll};
ghost use Rattle.run_plan.specs.Runs.{HasEnded, IsPlanOf};

use crate::ranks::{answers_of, greatest_known, pending_of};
use crate::steps::{Lent, Progress, arrive, meet};
use nc_base::{AnswerTable, DiskCallList, Extent, Header, Memory, Script, SizeList};
use nc_outside::OpenGate;
use piece_exchange::Tools;
use rank_core::Names;
use std::alloc::Global;
use std::sync::Wait;
use step_plan::{StepPlanList, count_field};
use turn_run::{Runner, all_hold, runners_of};

/// The calls of the disk by which a dataset is made ready for the ranks.
#[derive(Drop, PartialEq, Eq)]
pub struct Opening {
    pub calls: DiskCallList,
    /// How many bytes the file has then.
    pub size: u64,
}

/// The plan of a run of ranks in turn: each goes on until it meets the others, rank 0 first.
#[derive(Drop, PartialEq, Eq)]
pub struct RunPlan {
    /// The calls of the disk before the ranks begin.
    pub opening: DiskCallList,
    pub steps: StepPlanList,
    /// The field of the record count, where the close writes it.
    pub close: Option<Extent>,
    /// Each rank's answers, without values. A get is answered as if each byte that it reads were 0.
    pub answers: AnswerTable,
    /// How many requests each rank leaves.
    pub pending: SizeList,
    /// The record count at the end.
    pub records: u64,
}

/// Plans the run of a script on a dataset that was opened.
///
/// It takes memory for the script's gets, as the run does, and for nothing of what the steps move.
pub fn plan_run<R: Wait>(
    rt: &R,
    alloc: Global,
    header: &Header,
    script: &Script,
    opening: Opening,
) -> Result<RunPlan, Memory>
    requires sound { is_sound header.now ≡ true }
    requires lawful { is_lawful script.now ≡ true }
    requires long { end_of header.now (header_len header.now) header.now.records ≤ opening.size }
    ensures plan { IfOk result (IsPlanOf script.now header.now opening.size) }
    ensures opening { IfOk result (λ plan. plan.opening ≡ opening.calls) }
{
    let names = Names::new(alloc, header)?;
    let mut runners = runners_of(alloc, header, &names, header.records, script.ranks)?;
    let lent = Lent {
        tools: Tools {
            rt,
            alloc,
            gate: &OpenGate,
        },
        header,
        measures: names.measures(header),
        script,
    };
    let mut progress = Progress {
        steps: StepPlanList::new(alloc),
        records: header.records,
        size: opening.size,
    };
    hold_meetings(&lent, &mut progress, &mut runners)?;
    ended(alloc, header, opening.calls, progress, runners)
}

// Plans the meetings of all ranks, one after another, until all calls are made.
fn hold_meetings<R: Wait>(
    lent: &Lent<R>,
    progress: &mut Progress,
    runners: &mut [Runner],
) -> Result<(), Memory>
    requires none { progress.old.steps ≡ [] }
    requires runners { AreRunners lent.now.script.now lent.now.header.now progress.old.size (order_in progress.old.steps) runners.old }
    requires free { AreFree runners.old }
    requires records { IsCount lent.now.header.now progress.old.size progress.old.records }
    ensures runners { OnOk result (AreRunners lent.now.script.now lent.now.header.now progress.new.size (order_in progress.new.steps) runners.new) }
    ensures free { OnOk result (AreFree runners.new) }
    ensures arrived { OnOk result (HaveArrived lent.now.script.now runners.new) }
    ensures planned { OnOk result (HasPlannedAll lent.now.script.now.hints (setting_of lent.now.script.now lent.now.header.now) progress.old.steps progress.new.steps
        (plan_stage progress.old.size progress.old.records (arrived_all lent.now.header.now lent.now.script.now.calls runners.old))
        (plan_stage progress.new.size progress.new.records (arrived_all lent.now.header.now lent.now.script.now.calls runners.new))) }
{
    let mut meetings = 0;
    arrive_all(lent, progress, runners)?;
    'meetings: while all_hold(runners) {
        meet(lent, progress, runners, meetings)?;
        meetings += 1;
        arrive_all(lent, progress, runners)?;
    }
    Ok(())
}

// Each rank goes on until it meets the others, or has made its calls.
fn arrive_all<R: Wait>(
    lent: &Lent<R>,
    progress: &mut Progress,
    runners: &mut [Runner],
) -> Result<(), Memory>
    requires runners { AreRunners lent.now.script.now lent.now.header.now progress.old.size (order_in progress.old.steps) runners.old }
    requires free { AreFree runners.old }
    requires records { IsCount lent.now.header.now progress.old.size progress.old.records }
    ensures runners { OnOk result (AreRunners lent.now.script.now lent.now.header.now progress.new.size (order_in progress.new.steps) runners.new) }
    ensures arrived { OnOk result (HaveArrived lent.now.script.now runners.new) }
    ensures meetings { OnOk result (meetings (order_in progress.new.steps) ≡ meetings (order_in progress.old.steps)) }
    ensures records { OnOk result (IsCount lent.now.header.now progress.new.size progress.new.records) }
    ensures planned { OnOk result (HasPlannedAll lent.now.script.now.hints (setting_of lent.now.script.now lent.now.header.now) progress.old.steps progress.new.steps
        (plan_stage progress.old.size progress.old.records (arrived_all lent.now.header.now lent.now.script.now.calls runners.old))
        (plan_stage progress.new.size progress.new.records (arrived_all lent.now.header.now lent.now.script.now.calls runners.new))) }
{
    for (number, runner) in runners.iter_mut().enumerate() {
        arrive(lent, progress, runner, number as u32)?;
    }
    Ok(())
}

// The plan with the close, which raises the record count to the greatest that a rank knows.
fn ended(
    alloc: Global,
    header: &Header,
    opening: DiskCallList,
    progress: Progress,
    runners: Vec<Runner>,
) -> Result<RunPlan, Memory>
    ensures { IfOk result (HasEnded header.now opening progress runners.entry.items) }
{
    let known = greatest_known(&runners);
    let pending = pending_of(alloc, &runners)?;
    let answers = answers_of(alloc, &runners)?;
    Ok(RunPlan {
        opening,
        steps: progress.steps,
        close: count_field(header, progress.records, known),
        answers,
        pending,
        records: progress.records.max(known),
    })
}
