// What helpers came to.
ghost use Rattle.std.specs.Prelude.{◌≡◌, ◌≤◌, [], length, vec_capacity, IsErrOf, OnOk};
ghost use Rattle.std.specs.List.{AllZip};
ghost use Rattle.nc_outside.specs.Cause.{Rose};
ghost use Rattle.overlay_laws.specs.Entries.{In};
ghost use Rattle.nc_base.specs.declared.step.StepErr.TheVariants as fault;
ghost use Rattle.get_exchange.specs.Gets.{get_turns, AreRead, HasGot};
ghost use Rattle.exchange_crew.specs.Parts.{part_state, SomeZip};
ghost use Rattle.get_exchange.specs.Shelves.{domain_of, part_of, IsStartedFor};
ghost use Rattle.get_exchange.specs.declared.handing.ReadWorker.{ReadWorker};

use crate::handing::ReadWorker;
use exchange_crew::{GetPlan, PartBack, PartEnds};
use nc_base::StepErr;
use nc_outside::Disk;
use ruled_line::settle;
use std::sync::Wait;

/// Takes the parts back from the helpers, in order, and the first fault among them, if there was one.
pub(crate) fn take_back<R: Wait, D: Disk>(
    rt: &R,
    plan: &GetPlan,
    workers: Vec<ReadWorker<D>>,
    back: &mut Vec<D>,
) -> Result<(), StepErr>
    requires workers { (worker : ReadWorker D) → In workers.items worker → IsStartedFor plan.now worker }
    requires none { back.old.items ≡ [] }
    requires room { length workers.items ≤ vec_capacity back.old }
    ensures room { vec_capacity back.new ≡ vec_capacity back.old }
    ensures long { length back.new.items ≡ length workers.entry.items }
    ensures got { AllZip (λ worker new. HasGot (get_turns plan.now (domain_of worker))
        (part_state D.Disk (part_of worker)) (part_state D.Disk new) result) workers.entry.items back.new.items }
    ensures failed { IsErrOf result fault.Disk → SomeZip (λ worker new. Rose (D.faults (part_of worker)) (D.faults new)) workers.entry.items back.new.items }
    ensures read { OnOk result ((worker : ReadWorker D) → In workers.entry.items worker → AreRead (get_turns plan.now (domain_of worker)) (D.from (part_of worker)) (D.held (part_of worker)) worker.shelf.line.items) }
{
    let mut end = Ok(());
    for worker in workers {
        let (part, came) = take_one(rt, plan, worker);
        back.push_reserved(part);
        end = end.and(came);
    }
    end
}

// Takes the part of a helper back, and ends its line. What was taken are the first of what was put.
fn take_one<R: Wait, D: Disk>(
    rt: &R,
    plan: &GetPlan,
    worker: ReadWorker<D>,
) -> (D, Result<(), StepErr>)
    requires { IsStartedFor plan.now worker }
    ensures got { HasGot (get_turns plan.now (domain_of worker.entry))
        (part_state D.Disk (part_of worker.entry)) (part_state D.Disk result.0) result.1 }
    ensures failed { IsErrOf result.1 fault.Disk → Rose (D.faults (part_of worker.entry)) (D.faults result.0) }
    ensures read { OnOk result.1 (AreRead (get_turns plan.now (domain_of worker.entry)) (D.from (part_of worker.entry)) (D.held (part_of worker.entry)) worker.entry.shelf.line.items) }
{
    let ReadWorker { helper, shelf } = worker;
    let PartBack { ends, end } = helper.awaited.take(rt);
    let PartEnds { part, lines } = ends;
    settle(lines.line, shelf.line);
    (part, end)
}
