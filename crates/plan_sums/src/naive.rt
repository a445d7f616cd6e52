// What naive I/O makes.
ghost use Rattle.std.specs.Prelude.{◌≡◌, ◌++◌, List};
ghost use Rattle.step_plan.specs.declared.plan.Asked.{Asked};
ghost use Rattle.plan_sums.specs.Naive.{asked_in, naive_sum, phase_of};

use nc_base::Direction;
use step_plan::{Asked, Phase, StepPlan};

/// What naive I/O makes: one call for each run of bytes of a request that follow one another in the file.
#[derive(Clone, Copy, Debug, PartialEq, Eq)]
pub struct Naive {
    pub calls: u64,
    pub bytes: u64,
}

impl Naive {
    // With what ranks ask for beside.
    fn with(self, asked: &[Asked]) -> Naive
        ensures { (before : List Asked) → self ≡ naive_sum before → result ≡ naive_sum (before ++ asked.now) }
    {
        let mut naive = self;
        for one in asked {
            naive.calls = naive.calls.saturating_add(one.pieces);
            naive.bytes = naive.bytes.saturating_add(one.bytes);
        }
        naive
    }
}

/// What naive I/O makes of the puts of steps, or of their gets.
pub(crate) fn naive_of(steps: &[StepPlan], direction: Direction) -> Naive
    ensures { result ≡ naive_sum (asked_in direction steps.now) }
{
    let mut naive = Naive { calls: 0, bytes: 0 };
    for step in steps {
        naive = naive.with(phase_of(step, direction).asked.as_slice());
    }
    naive
}

/// The puts or the gets of a step.
pub(crate) fn phase_of(step: &StepPlan, direction: Direction) -> &Phase
    ensures { result.now ≡ phase_of direction step.now }
{
    match direction {
        Direction::Put => &step.file.puts,
        Direction::Get => &step.file.gets,
    }
}
