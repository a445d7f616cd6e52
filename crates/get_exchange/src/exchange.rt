// The gets of a collective step, on a disk in parts.
ghost use Rattle.std.specs.Prelude.{◌≡◌, ◌+◌, ◌<◌, ◌≤◌, ℕ, List, length, slice_get, take, zip, IfOk, IsErrOf, OnOk, Some};
ghost use Rattle.std.specs.List.{AllZip};
ghost use Rattle.nc_base.specs.declared.plan.Extent.{Extent};
ghost use Rattle.nc_outside.specs.Cause.{Rose};
ghost use Rattle.nc_base.specs.declared.step.StepErr.TheVariants as fault;
ghost use Rattle.overlay_laws.specs.Entries.{In};
ghost use Rattle.serial_spec.specs.File.{read};
ghost use Rattle.aggregator_rounds.specs.EntryParts.{IsCovered};
ghost use Rattle.get_exchange.specs.Blobs.{AreAsLong, FitTable, HasRead, HaveOnePlaces};
ghost use Rattle.get_exchange.specs.Gets.{get_turns, HasGot, IsGetPlanned};
ghost use Rattle.get_exchange.specs.Lenders.{AreReady};
ghost use Rattle.get_exchange.specs.Logs.{HasReadParts};
ghost use Rattle.exchange_crew.specs.Handed.{AreFirst};
ghost use Rattle.exchange_crew.specs.Plan.{HaveDomains, IsDomainOf, IsLineRoom};
ghost use Rattle.exchange_crew.specs.Parts.{part_state, SomeZip};
ghost use Rattle.exchange_crew.specs.Rooms.{HasRooms};

use crate::buffers::{Lending, lending_of};
use crate::collecting::take_all;
use crate::handing::{ReadWorker, Supply, hand_all};
use crate::helper::GetJob;
use crate::in_turn::get_in_turn;
use crate::results::take_back;
use crossbeam_channel::Sender;
use exchange_crew::{Errand, GetPlan, Served, Shares, Spares, Team, Tools, make_rooms};
use nc_base::{BlobList, Extent, GotTable, Memory, StepErr};
use nc_outside::{Disk, Gate};
use std::alloc::Global;
use std::sync::Wait;

/// Does the gets of a plan on the parts of a disk. Each part is handed to a helper of its own, over the domain at its place, and the hulls
/// of its windows come from it over a line of so many items as the hints say. From the first part on for which there is no helper the
/// parts are read in turn, under the same clauses. Buffers come from the spare ones, and are kept for the next step.
///
/// The parts come back in order. Refused, some bytes of the blobs may be read, and the fault is the first of the parts'; `Memory` comes
/// also where a list of the parts or a buffer can't be had.
pub fn exchange_get<R: Wait, D: Disk, G: Gate, P: Send + Drop>(
    tools: &Tools<R, G>,
    helpers: &[Sender<Errand<P, GetJob<D>>>],
    spares: &mut Spares,
    plan: &GetPlan,
    domains: &[Extent],
    parts: Vec<D>,
    into: &mut GotTable,
) -> (Vec<D>, Result<(), StepErr>)
    requires plan { IsGetPlanned plan.now }
    requires line_low { 1 ≤ plan.now.hints.now.line_room }
    requires line_high { plan.now.hints.now.line_room ≤ 64 }
    requires few { length domains.now ≤ 64 }
    requires one_each { length domains.now ≡ length parts.items }
    requires domains { (k : ℕ) (part : D) (domain : Extent) → slice_get parts.items k ≡ Some part → slice_get domains.now k ≡ Some domain → IsDomainOf plan.now.list.now (D.from part) (D.len part) domain }
    requires whole { (x : ℕ) → IsCovered plan.now.list.now x → (part : D) × In parts.items part × (D.from part ≤ x) × (x < D.from part + D.len part) }
    requires fit { FitTable into.old plan.now.list.now }
    requires one_place { HaveOnePlaces plan.now.list.now }
    ensures got { AllZip (λ p new. HasGot (get_turns plan.now p.1)
        (part_state D.Disk p.0) (part_state D.Disk new) result.1) (zip parts.items domains.now) result.0.items }
    ensures read { (file : List ℕ) → ((part : D) → In parts.items part → D.held part ≡ Some (read file (D.from part) (D.len part))) → OnOk result.1 (HasRead file plan.now.list.now into.old into.new) }
    ensures blobs { AreAsLong into.old into.new }
    ensures failed { IsErrOf result.1 fault.Disk → SomeZip (λ old new. Rose (D.faults old) (D.faults new)) parts.items result.0.items }
{
    let mut table = into.take().into_vec();
    let came = get_parts(tools, helpers, spares, plan, domains, parts, &mut table);
    *into = GotTable::from_vec(table);
    came
}

// The gets of all parts.
fn get_parts<R: Wait, D: Disk, G: Gate, P: Send + Drop>(
    tools: &Tools<R, G>,
    helpers: &[Sender<Errand<P, GetJob<D>>>],
    spares: &mut Spares,
    plan: &GetPlan,
    domains: &[Extent],
    parts: Vec<D>,
    table: &mut [BlobList],
) -> (Vec<D>, Result<(), StepErr>)
    requires plan { IsGetPlanned plan.now }
    requires line { IsLineRoom plan.now.hints.now.line_room }
    requires few { length domains.now ≤ 64 }
    requires domains { HaveDomains D.Disk plan.now.list.now domains.now parts.items }
    requires fit { FitTable table.old plan.now.list.now }
    requires one_place { HaveOnePlaces plan.now.list.now }
    ensures got { AllZip (λ p new. HasGot (get_turns plan.now p.1)
        (part_state D.Disk p.0) (part_state D.Disk new) result.1) (zip parts.items domains.now) result.0.items }
    ensures read { OnOk result.1 (HasReadParts (λ part. D.from part) (λ part. D.held part) plan.now (zip parts.items domains.now) table.old table.new) }
    ensures blobs { AreAsLong table.old table.new }
    ensures failed { IsErrOf result.1 fault.Disk → SomeZip (λ old new. Rose (D.faults old) (D.faults new)) parts.items result.0.items }
{
    if !helpers.is_empty() {
        if let Ok(fetching) = fetching_of(tools.alloc, spares, plan, domains) {
            let team = Team { tools, helpers };
            return get_helped(&team, spares, plan, domains, parts, fetching, table);
        }
    }
    let mut parts = parts;
    let end = get_in_turn(tools, spares, plan, 0, domains, &mut parts, table);
    (parts, end)
}

// The lists that are made before a part is handed out, and the blobs that are lent.
#[derive(Drop)]
struct Fetching<'a, D: Disk> {
    shares: Shares<ReadWorker<'a, D>, D>,
    lending: Lending<'a>,
}

fn fetching_of<'a, D: Disk>(
    alloc: Global,
    spares: &mut Spares,
    plan: &GetPlan<'a>,
    domains: &[Extent],
) -> Result<Fetching<'a, D>, Memory>
    requires { IsGetPlanned plan.now }
    ensures rooms { IfOk result (λ fetching. HasRooms (length domains.now) fetching.shares) }
    ensures ready { IfOk result (λ fetching. AreReady fetching.lending.lenders.each.items) }
{
    let lending = lending_of(alloc, spares, plan, domains)?;
    let shares = make_rooms(alloc, domains.len())?;
    Ok(Fetching { shares, lending })
}

// The gets by helpers, and of the parts that none has in turn.
fn get_helped<'a, R: Wait, D: Disk, G: Gate, P: Send + Drop>(
    team: &Team<R, G, Sender<Errand<P, GetJob<D>>>>,
    spares: &mut Spares,
    plan: &GetPlan<'a>,
    domains: &[Extent],
    parts: Vec<D>,
    fetching: Fetching<'a, D>,
    table: &mut [BlobList],
) -> (Vec<D>, Result<(), StepErr>)
    requires plan { IsGetPlanned plan.now }
    requires line { IsLineRoom plan.now.hints.now.line_room }
    requires few { length domains.now ≤ 64 }
    requires domains { HaveDomains D.Disk plan.now.list.now domains.now parts.items }
    requires fit { FitTable table.old plan.now.list.now }
    requires one_place { HaveOnePlaces plan.now.list.now }
    requires lenders { AreReady fetching.lending.lenders.each.items }
    requires rooms { HasRooms (length parts.items) fetching.shares }
    ensures got { AllZip (λ p new. HasGot (get_turns plan.now p.1)
        (part_state D.Disk p.0) (part_state D.Disk new) result.1) (zip parts.items domains.now) result.0.items }
    ensures read { OnOk result.1 (HasReadParts (λ part. D.from part) (λ part. D.held part) plan.now (zip parts.items domains.now) table.old table.new) }
    ensures blobs { AreAsLong table.old table.new }
    ensures failed { IsErrOf result.1 fault.Disk → SomeZip (λ old new. Rose (D.faults old) (D.faults new)) parts.items result.0.items }
{
    let mut served = get_served(team, spares, plan, domains, parts, fetching, table);
    let first = served.back.len();
    let other = get_in_turn(
        team.tools,
        spares,
        plan,
        first as u32,
        &domains[first..],
        &mut served.rest,
        table,
    );
    served.joined(other)
}

// The gets of the parts that helpers take.
fn get_served<'a, R: Wait, D: Disk, G: Gate, P: Send + Drop>(
    team: &Team<R, G, Sender<Errand<P, GetJob<D>>>>,
    spares: &mut Spares,
    plan: &GetPlan<'a>,
    domains: &[Extent],
    parts: Vec<D>,
    fetching: Fetching<'a, D>,
    table: &mut [BlobList],
) -> Served<D>
    requires plan { IsGetPlanned plan.now }
    requires line { IsLineRoom plan.now.hints.now.line_room }
    requires few { length domains.now ≤ 64 }
    requires domains { HaveDomains D.Disk plan.now.list.now domains.now parts.items }
    requires fit { FitTable table.old plan.now.list.now }
    requires one_place { HaveOnePlaces plan.now.list.now }
    requires lenders { AreReady fetching.lending.lenders.each.items }
    requires rooms { HasRooms (length parts.items) fetching.shares }
    ensures first { AreFirst parts.items result }
    ensures got { AllZip (λ p new. HasGot (get_turns plan.now p.1)
        (part_state D.Disk p.0) (part_state D.Disk new) result.end) (zip (take (length result.back.items) parts.items) (take (length result.back.items) domains.now)) result.back.items }
    ensures read { OnOk result.end (HasReadParts (λ part. D.from part) (λ part. D.held part) plan.now
        (zip (take (length result.back.items) parts.items) (take (length result.back.items) domains.now)) table.old table.new) }
    ensures blobs { AreAsLong table.old table.new }
    ensures failed { IsErrOf result.end fault.Disk → SomeZip (λ old new. Rose (D.faults old) (D.faults new)) (take (length result.back.items) parts.items) result.back.items }
{
    let tools = team.tools;
    let Fetching {
        mut shares,
        lending,
    } = fetching;
    let Lending {
        mut lenders,
        lines,
        blobs,
    } = lending;
    let supply = Supply { parts, lines };
    hand_all(team, plan, domains, supply, &mut shares);
    let Shares {
        mut workers,
        rest,
        mut back,
    } = shares;
    lenders.keep(workers.len());
    lenders.lend_first(tools.rt, spares, blobs);
    let came = take_all(tools.rt, spares, plan, &mut workers, &mut lenders, table);
    let end = take_back(tools.rt, plan, workers, &mut back);
    Served {
        back,
        rest,
        end: end.and(came),
    }
}
