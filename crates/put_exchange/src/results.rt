// What helpers came to.
ghost use Rattle.std.specs.Prelude.{◌≡◌, ◌≤◌, [], length, vec_capacity, IsErrOf};
ghost use Rattle.std.specs.List.{AllZip};
ghost use Rattle.nc_outside.specs.Cause.{Rose};
ghost use Rattle.overlay_laws.specs.Entries.{In};
ghost use Rattle.nc_base.specs.declared.step.StepErr.TheVariants as fault;
ghost use Rattle.exchange_crew.specs.Plan.{planned_turns, source_in, IsPlanned};
ghost use Rattle.exchange_crew.specs.Parts.{part_state, SomeZip};
ghost use Rattle.put_exchange.specs.Put.{HasPut};
ghost use Rattle.put_exchange.specs.Workers.{domain_of, part_of, IsFed};
ghost use Rattle.put_exchange.specs.declared.handing.Worker.{Worker};

use crate::handing::Worker;
use crate::helper::PutLines;
use exchange_crew::{PartBack, PartEnds, PutPlan, Spares};
use nc_base::StepErr;
use nc_outside::Disk;
use ruled_line::settle;
use std::sync::Wait;

/// Takes the parts back from the helpers, which were sent their messages, in order, and the first fault among them, if there was one.
/// Their buffers are kept.
pub(crate) fn take_back<R: Wait, D: Disk>(
    rt: &R,
    spares: &mut Spares,
    plan: &PutPlan,
    workers: Vec<Worker<D>>,
    back: &mut Vec<D>,
) -> Result<(), StepErr>
    requires plan { IsPlanned plan.now }
    requires workers { (worker : Worker D) → In workers.items worker → IsFed D.Disk plan.now worker }
    requires none { back.old.items ≡ [] }
    requires room { length workers.items ≤ vec_capacity back.old }
    ensures room { vec_capacity back.new ≡ vec_capacity back.old }
    ensures long { length back.new.items ≡ length workers.items }
    ensures put { AllZip (λ worker new. HasPut (source_in plan.now) plan.now.list.now (planned_turns plan.now (domain_of worker))
        (part_state D.Disk (part_of worker)) (part_state D.Disk new) result) workers.items back.new.items }
    ensures failed { IsErrOf result fault.Disk → SomeZip (λ worker new. Rose (D.faults (part_of worker)) (D.faults new)) workers.items back.new.items }
{
    let mut end = Ok(());
    for worker in workers {
        let (part, came) = take_one(rt, spares, plan, worker);
        back.push_reserved(part);
        end = end.and(came);
    }
    end
}

// Takes the part of a helper back, keeps its buffer, and ends its line. What was taken is what was put, so the part has it.
fn take_one<R: Wait, D: Disk>(
    rt: &R,
    spares: &mut Spares,
    plan: &PutPlan,
    worker: Worker<D>,
) -> (D, Result<(), StepErr>)
    requires plan { IsPlanned plan.now }
    requires worker { IsFed D.Disk plan.now worker }
    ensures put { HasPut (source_in plan.now) plan.now.list.now (planned_turns plan.now (domain_of worker))
        (part_state D.Disk (part_of worker)) (part_state D.Disk result.0) result.1 }
    ensures failed { IsErrOf result.1 fault.Disk → Rose (D.faults (part_of worker)) (D.faults result.0) }
{
    let Worker { helper, feed } = worker;
    let PartBack { ends, end } = helper.awaited.take(rt);
    let PartEnds { part, lines } = ends;
    let PutLines { line, buf } = lines;
    settle(feed.line, line);
    spares.keep(buf);
    (part, end)
}
