// The calls of the disk, by their kinds.
ghost use Rattle.std.specs.Prelude.{◌≡◌, ◌≤◌, ℕ, ◌++◌, ◌∷◌, [], List, IfOk};
ghost use Rattle.nc_base.specs.declared.step.DiskCall.{DiskCall};
ghost use Rattle.run_plan.specs.Planned.{calls_in};
ghost use Rattle.step_plan.specs.Steps.{count_call};
ghost use Rattle.plan_sums.specs.Tallies.{counted};

use crate::tally::Tally;
use nc_base::{DiskCall, Extent, Memory};
use run_plan::RunPlan;
use std::alloc::Global;
use step_plan::{StepPlan, device_calls};

/// The calls of a disk by their kinds.
#[derive(Clone, Copy)]
pub(crate) struct Counted {
    pub grows: u64,
    pub reads: Tally,
    pub writes: Tally,
}

impl Counted {
    fn none() -> Counted
        ensures { (unit : ℕ) → result ≡ counted unit [] }
    {
        Counted {
            grows: 0,
            reads: Tally::none(),
            writes: Tally::none(),
        }
    }

    // With a call more.
    fn with(self, call: DiskCall, unit: u64) -> Counted
        requires { 1 ≤ unit }
        ensures { (before : List DiskCall) → self ≡ counted unit before → result ≡ counted unit (before ++ call ∷ []) }
    {
        match call {
            DiskCall::Grow(_) => Counted {
                grows: self.grows.saturating_add(1),
                ..self
            },
            DiskCall::Load(at, len) => Counted {
                reads: self.reads.with(Extent { at, len }, unit),
                ..self
            },
            DiskCall::Store(at, len) => Counted {
                writes: self.writes.with(Extent { at, len }, unit),
                ..self
            },
        }
    }
}

/// The calls by their kinds.
pub(crate) fn count(calls: &[DiskCall], unit: u64) -> Counted
    requires { 1 ≤ unit }
    ensures { result ≡ counted unit calls.now }
{
    let mut counted = Counted::none();
    for call in calls {
        counted = counted.with(*call, unit);
    }
    counted
}

/// The calls of steps, one step after another.
pub(crate) fn steps_calls(alloc: Global, steps: &[StepPlan]) -> Result<Vec<DiskCall>, Memory>
    ensures { IfOk result (λ calls. calls.items ≡ calls_in steps.now) }
{
    let mut calls = Vec::new(alloc);
    for step in steps {
        device_calls(&mut calls, &step.file)?;
    }
    Ok(calls)
}

/// All calls of a plan: those of its opening, those of its steps, which are given, and that of its close.
pub(crate) fn all_calls(
    alloc: Global,
    plan: &RunPlan,
    in_steps: &[DiskCall],
) -> Result<Vec<DiskCall>, Memory>
    ensures { IfOk result (λ calls. calls.items ≡ plan.now.opening ++ in_steps.now ++ count_call plan.now.close) }
{
    let mut calls = Vec::from_slice(alloc, plan.opening.as_slice())?;
    calls.extend_from_slice(in_steps)?;
    if let Some(field) = plan.close {
        calls.push(DiskCall::Store(field.at, field.len))?;
    }
    Ok(calls)
}
