// The puts of a collective step, on a disk in parts.
ghost use Rattle.std.specs.Prelude.{◌≡◌, ◌≤◌, ℕ, length, slice_get, take, zip, IsErrOf, Some};
ghost use Rattle.std.specs.List.{AllZip};
ghost use Rattle.nc_base.specs.declared.plan.Extent.{Extent};
ghost use Rattle.nc_outside.specs.Cause.{Rose};
ghost use Rattle.nc_base.specs.declared.step.StepErr.TheVariants as fault;
ghost use Rattle.exchange_crew.specs.Handed.{AreFirst};
ghost use Rattle.exchange_crew.specs.Plan.{planned_turns, source_in, HaveDomains, IsDomainOf, IsLineRoom, IsPlanned};
ghost use Rattle.exchange_crew.specs.Parts.{part_state, SomeZip};
ghost use Rattle.exchange_crew.specs.Rooms.{HasRooms};
ghost use Rattle.put_exchange.specs.Put.{HasPut};

use crate::handing::{Worker, hand_all};
use crate::helper::PutJob;
use crate::in_turn::put_in_turn;
use crate::results::take_back;
use crate::sending::send_all;
use crossbeam_channel::Sender;
use exchange_crew::{Errand, PutPlan, Served, Shares, Spares, Team, Tools, make_rooms};
use nc_base::{Extent, StepErr};
use nc_outside::{Disk, Gate};
use std::sync::Wait;

/// Does the puts of a plan on the parts of a disk. Each part is handed to a helper of its own, over the domain at its place, and the pieces
/// go to it in messages, over a line of so many as the hints say. From the first part on for which there is no helper the parts are served
/// in turn, under the same clauses. Buffers come from the spare ones, and are kept for the next step.
///
/// The parts come back in order. Refused, each byte of a part is old or new, and the fault is the first of the parts'; `Memory` comes
/// also where a list of the parts or a buffer can't be had.
pub fn exchange_put<R: Wait, D: Disk, G: Gate, K: Send + Drop>(
    tools: &Tools<R, G>,
    helpers: &[Sender<Errand<PutJob<D>, K>>],
    spares: &mut Spares,
    plan: &PutPlan,
    domains: &[Extent],
    parts: Vec<D>,
) -> (Vec<D>, Result<(), StepErr>)
    requires plan { IsPlanned plan.now }
    requires line_low { 1 ≤ plan.now.hints.now.line_room }
    requires line_high { plan.now.hints.now.line_room ≤ 64 }
    requires few { length domains.now ≤ 64 }
    requires one_each { length domains.now ≡ length parts.items }
    requires domains { (k : ℕ) (part : D) (domain : Extent) → slice_get parts.items k ≡ Some part → slice_get domains.now k ≡ Some domain → IsDomainOf plan.now.list.now (D.from part) (D.len part) domain }
    ensures put { AllZip (λ p new. HasPut (source_in plan.now) plan.now.list.now (planned_turns plan.now p.1)
        (part_state D.Disk p.0) (part_state D.Disk new) result.1) (zip parts.items domains.now) result.0.items }
    ensures failed { IsErrOf result.1 fault.Disk → SomeZip (λ old new. Rose (D.faults old) (D.faults new)) parts.items result.0.items }
{
    if !helpers.is_empty() {
        if let Ok(shares) = make_rooms(tools.alloc, parts.len()) {
            let team = Team { tools, helpers };
            return put_helped(&team, spares, plan, domains, parts, shares);
        }
    }
    let mut parts = parts;
    let end = put_in_turn(tools, spares, plan, 0, domains, &mut parts);
    (parts, end)
}

// The puts by helpers, and on the parts that none has in turn.
fn put_helped<R: Wait, D: Disk, G: Gate, K: Send + Drop>(
    team: &Team<R, G, Sender<Errand<PutJob<D>, K>>>,
    spares: &mut Spares,
    plan: &PutPlan,
    domains: &[Extent],
    parts: Vec<D>,
    shares: Shares<Worker<D>, D>,
) -> (Vec<D>, Result<(), StepErr>)
    requires plan { IsPlanned plan.now }
    requires line { IsLineRoom plan.now.hints.now.line_room }
    requires few { length domains.now ≤ 64 }
    requires domains { HaveDomains D.Disk plan.now.list.now domains.now parts.items }
    requires rooms { HasRooms (length parts.items) shares }
    ensures put { AllZip (λ p new. HasPut (source_in plan.now) plan.now.list.now (planned_turns plan.now p.1)
        (part_state D.Disk p.0) (part_state D.Disk new) result.1) (zip parts.items domains.now) result.0.items }
    ensures failed { IsErrOf result.1 fault.Disk → SomeZip (λ old new. Rose (D.faults old) (D.faults new)) parts.items result.0.items }
{
    let mut served = put_served(team, spares, plan, domains, parts, shares);
    let first = served.back.len();
    let other = put_in_turn(
        team.tools,
        spares,
        plan,
        first as u32,
        &domains[first..],
        &mut served.rest,
    );
    served.joined(other)
}

// The puts on the parts that helpers take.
fn put_served<R: Wait, D: Disk, G: Gate, K: Send + Drop>(
    team: &Team<R, G, Sender<Errand<PutJob<D>, K>>>,
    spares: &mut Spares,
    plan: &PutPlan,
    domains: &[Extent],
    parts: Vec<D>,
    shares: Shares<Worker<D>, D>,
) -> Served<D>
    requires plan { IsPlanned plan.now }
    requires line { IsLineRoom plan.now.hints.now.line_room }
    requires few { length domains.now ≤ 64 }
    requires domains { HaveDomains D.Disk plan.now.list.now domains.now parts.items }
    requires rooms { HasRooms (length parts.items) shares }
    ensures first { AreFirst parts.items result }
    ensures put { AllZip (λ p new. HasPut (source_in plan.now) plan.now.list.now (planned_turns plan.now p.1)
        (part_state D.Disk p.0) (part_state D.Disk new) result.end) (zip (take (length result.back.items) parts.items) (take (length result.back.items) domains.now)) result.back.items }
    ensures failed { IsErrOf result.end fault.Disk → SomeZip (λ old new. Rose (D.faults old) (D.faults new)) (take (length result.back.items) parts.items) result.back.items }
{
    let tools = team.tools;
    let mut shares = shares;
    hand_all(team, spares, plan, domains, parts, &mut shares);
    let Shares {
        mut workers,
        rest,
        mut back,
    } = shares;
    send_all(tools.rt, &mut workers);
    let end = take_back(tools.rt, spares, plan, workers, &mut back);
    Served { back, rest, end }
}
