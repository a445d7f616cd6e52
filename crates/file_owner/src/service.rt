// The owner's side of a run with rank threads.
ghost use Rattle.std.specs.Prelude.{◌≡◌, ◌≤◌, ◌<◌, ◌++◌, ◌∷◌, [], ℕ, List, length, replicate, true, None, Some, IfSome};
ghost use Rattle.nc_base.specs.declared.step.StepErr.{StepErr as Fault};
ghost use Rattle.nc_base.specs.declared.step.StepErr.TheVariants as fault;
ghost use Rattle.nc_outside.specs.Cause.{Rose};
ghost use Rattle.nc_outside.specs.Told.{with_end};
ghost use Rattle.serial_spec.specs.Owner.{free_client, served};
ghost use Rattle.serial_spec.specs.History.{Arrival};
ghost use Rattle.serial_spec.specs.HeaderBytes.{header_len};
ghost use Rattle.serial_spec.specs.SoundHeaders.{is_sound};
ghost use Rattle.serial_spec.specs.Lawful.{are_lawful_hints};
ghost use Rattle.serial_spec.specs.Layout.{end_of};
ghost use Rattle.collective_round.specs.Rounds.{counted, setting};
ghost use Rattle.turn_run.specs.Known.{point};
ghost use Rattle.turn_run.specs.Counts.{IsCount};
ghost use Rattle.owner_laws.specs.ByArrivals.{IsCutByArrivals, IsDoneByArrivals};
ghost use Rattle.file_owner.specs.Halted.{taken_from, of_fault, of_stranger, stopped, HasEndedOn, HasFinished, HasHaltedOn, HasHaltCause, HasSeenAll};
ghost use Rattle.file_owner.specs.Lent.{AreSame};
ghost use Rattle.file_owner.specs.Owned.{owner_calls, first_standing, standing, AreSingle, IsSteady};
ghost use Rattle.file_owner.specs.Refused.{HasCutService};
ghost use Rattle.file_owner.specs.Service.{arrived, gained, opening, HasFailed, HasTaken, HasToldAlong, HavePut, IsDone, IsDoneSo, passed};
ghost use Rattle.file_owner.specs.Stops.{HaveEnded};
ghost use Rattle.var_layout.specs.Measures.{AreMeasures};

use crate::lent::Outlets;
use crate::owner::Owner;
use crate::stops::{Senders, stop_held, stop_rest, stop_strange};
use collective_round::Dataset;
use nc_base::{Header, Hints, MarkList, OwnerItem, ServeEnd, StepErr};
use nc_outside::{Disk, Gate, Told};
use piece_exchange::{Crew, Tools};
use rank_items::SentItem;
use ruled_line::{InTake, LinePutList};
use std::sync::Wait;
use std::thread::Threads;
use var_layout::Measures;

/// Why nothing more is done.
#[derive(Clone, Copy)]
enum Halt {
    /// Each number has ended.
    Ended,
    /// This number made a strange arrival.
    Stranger(u32),
    Fault(StepErr),
}

/// Owns the file of a run: does what arrives, one step after another, until each sender has put its end. A solo offer is done as it
/// arrives, a meeting as the last of its offers arrives, and each offer gets one item on the line of its number. After a fault, or
/// an arrival that no rank of a script makes, nothing more is done, and each offer without a reply gets a stop. `told` is told of each
/// step before any of its replies is put; want of memory there is that of the step.
pub fn serve<'s, E, R: Threads + Wait + Sync, D: Disk + 's, G: Gate, T: Told>(
    tools: &Tools<R, G>,
    crew: &mut Crew<'s, E, R, G, D>,
    disk: &mut D,
    header: &Header,
    measures: &Measures,
    records: &mut u64,
    hints: &Hints,
    inbox: &mut InTake<SentItem>,
    back: &mut LinePutList<OwnerItem>,
    told: &mut T,
) -> ServeEnd
    requires sound { is_sound header.now ≡ true }
    requires measured { AreMeasures header.now measures.now }
    requires hints { are_lawful_hints hints.now ≡ true }
    requires records { records.old ≡ header.now.records }
    requires from { D.from disk.old ≡ 0 }
    requires long { end_of header.now (header_len header.now) header.now.records ≤ D.len disk.old }
    requires lines { length back.old ≡ inbox.old.senders }
    requires few { inbox.old.senders ≤ 64 }

    ensures taken { HasTaken inbox.old inbox.new }
    ensures put { HavePut back.old back.new }

    // Each step was told with the record count after it.
    ensures told { (file : List ℕ) → HasToldAlong (setting header.now hints.now) (opening inbox.old.senders (counted file header.now.records))
        (arrived inbox.old inbox.new) result.order (T.heard told.old) (T.heard told.new) }

    // By the arrivals alone: the order, and the number of the first strange arrival.
    ensures done_by_arrivals { result.fault ≡ None → IsDoneByArrivals (setting header.now hints.now) inbox.old.senders header.now.records
        (arrived inbox.old inbox.new) result.order result.stranger }
    ensures cut_by_arrivals { (e : Fault) → result.fault ≡ Some e → IsCutByArrivals (setting header.now hints.now) inbox.old.senders header.now.records
        (arrived inbox.old inbox.new) result.order }

    // Without a fault, by the bytes of the file where they are told, and else up to those of gets.
    ensures done { result.fault ≡ None → (file : List ℕ) → IsDone (setting header.now hints.now) (opening inbox.old.senders (counted file header.now.records))
        (passed (arrived inbox.old inbox.new) inbox.old.senders (gained back.old back.new)) result.order result.stranger }
    ensures records { result.fault ≡ None → (file : List ℕ)
        → records.new ≡ (served (setting header.now hints.now) (opening inbox.old.senders (counted file header.now.records)) (arrived inbox.old inbox.new)).owner.state.records }
    ensures bytes { result.fault ≡ None → IfSome (D.held disk.old) (λ file. IsDoneSo (setting header.now hints.now) (opening inbox.old.senders (counted file header.now.records))
        (passed (arrived inbox.old inbox.new) inbox.old.senders (gained back.old back.new)) (D.held disk.new) records.new) }
    ensures calls { result.fault ≡ None → AreSingle (arrived inbox.old inbox.new) → IfSome (D.held disk.old) (λ file. D.calls disk.new ≡ with_end (D.calls disk.old)
        (owner_calls hints.now (setting header.now hints.now) (opening inbox.old.senders (counted file header.now.records)) (arrived inbox.old inbox.new))) }

    // With a fault.
    ensures failed { (e : Fault) → result.fault ≡ Some e → HasFailed (setting header.now hints.now) (opening inbox.old.senders) header.now.records
        (passed (arrived inbox.old inbox.new) inbox.old.senders (gained back.old back.new)) result.order result.stranger }
    ensures cut { (e : Fault) → result.fault ≡ Some e → IfSome (D.held disk.old) (λ file. HasCutService (setting header.now hints.now) e (opening inbox.old.senders (counted file header.now.records))
        (passed (arrived inbox.old inbox.new) inbox.old.senders (gained back.old back.new)) (point result.order (D.held disk.new) records.new)) }
    ensures cause { result.fault ≡ Some fault.Disk → Rose (D.faults disk.old) (D.faults disk.new) }

    ensures count { IsCount header.now (D.len disk.new) records.new }
    ensures from { D.from disk.new ≡ 0 }
    ensures longer { D.len disk.old ≤ D.len disk.new }
    ensures later { D.faults disk.old ≤ D.faults disk.new }
{
    let dataset = Dataset {
        header,
        measures,
        hints,
    };
    let mut out = Outlets {
        disk,
        records,
        told,
        back,
    };
    let (order, halt) = serve_to_end(tools, crew, &dataset, &mut out, inbox);
    ServeEnd {
        order,
        fault: fault_of(halt),
        stranger: stranger_of(halt),
    }
}

/// Serves from a owner at which nothing arrived, and then stops what still comes.
fn serve_to_end<'s, E, R: Threads + Wait + Sync, D: Disk + 's, G: Gate, T: Told>(
    tools: &Tools<R, G>,
    crew: &mut Crew<'s, E, R, G, D>,
    dataset: &Dataset,
    out: &mut Outlets<D, T>,
    inbox: &mut InTake<SentItem>,
) -> (MarkList, Halt)
    requires count { IsCount dataset.now.header.now (D.len out.old.disk.now) out.old.records.now }
    requires from { D.from out.old.disk.now ≡ 0 }
    requires lines { length out.old.back.now ≡ inbox.old.senders }
    requires few { inbox.old.senders ≤ 64 }
    ensures same { AreSame out.old out.new }
    ensures outcome { HasEndedOn dataset.now inbox.old inbox.new (first_standing D.Disk T.Told inbox.old.senders out.old) (stopped D.Disk T.Told out.new result.0) result.1 }
    ensures count { IsCount dataset.now.header.now (D.len out.new.disk.now) out.new.records.now }
    ensures from { D.from out.new.disk.now ≡ 0 }
    ensures longer { D.len out.old.disk.now ≤ D.len out.new.disk.now }
    ensures cause { HasHaltCause (D.faults out.old.disk.now) (D.faults out.new.disk.now) result.1 }
{
    let mut senders = Senders::new();
    let (order, halt) = open_owner(tools, crew, dataset, out, &mut senders, inbox);
    finish(tools.rt, halt, &mut senders, inbox, out.back, tools.gate);
    (order, halt)
}

/// Takes what still comes, and stops each offer.
fn finish<R: Wait, G: Gate>(
    rt: &R,
    halt: Halt,
    senders: &mut Senders,
    inbox: &mut InTake<SentItem>,
    back: &mut LinePutList<OwnerItem>,
    gate: &G,
)
    requires few { inbox.old.senders ≤ 64 }
    requires lines { length back.old ≡ inbox.old.senders }
    requires ended { HasSeenAll inbox.old.senders senders.old.ended halt }
    ensures { HasFinished (taken_from inbox.old inbox.new senders.new.ended) back.old back.new senders.old.ended halt }
{
    match halt {
        Halt::Ended => {}
        Halt::Stranger(_) | Halt::Fault(_) => stop_rest(rt, senders, inbox, back, gate),
    }
}

fn fault_of(halt: Halt) -> Option<StepErr>
    ensures { result ≡ of_fault halt }
{
    match halt {
        Halt::Fault(fault) => Some(fault),
        _ => None,
    }
}

fn stranger_of(halt: Halt) -> Option<u32>
    ensures { result ≡ of_stranger halt }
{
    match halt {
        Halt::Stranger(number) => Some(number),
        _ => None,
    }
}

/// Serves from a owner at which nothing arrived.
fn open_owner<'s, E, R: Threads + Wait + Sync, D: Disk + 's, G: Gate, T: Told>(
    tools: &Tools<R, G>,
    crew: &mut Crew<'s, E, R, G, D>,
    dataset: &Dataset,
    out: &mut Outlets<D, T>,
    senders: &mut Senders,
    inbox: &mut InTake<SentItem>,
) -> (MarkList, Halt)
    requires count { IsCount dataset.now.header.now (D.len out.old.disk.now) out.old.records.now }
    requires from { D.from out.old.disk.now ≡ 0 }
    requires lines { length out.old.back.now ≡ inbox.old.senders }
    requires few { inbox.old.senders ≤ 64 }
    requires ended { HaveEnded senders.old.ended [] }
    ensures same { AreSame out.old out.new }
    ensures halted { HasHaltedOn dataset.now (taken_from inbox.old inbox.new senders.new.ended)
        (first_standing D.Disk T.Told inbox.old.senders out.old) (stopped D.Disk T.Told out.new result.0) result.1 }
    ensures count { IsCount dataset.now.header.now (D.len out.new.disk.now) out.new.records.now }
    ensures from { D.from out.new.disk.now ≡ 0 }
    ensures longer { D.len out.old.disk.now ≤ D.len out.new.disk.now }
    ensures cause { HasHaltCause (D.faults out.old.disk.now) (D.faults out.new.disk.now) result.1 }
{
    match Owner::new(tools.alloc, out.back.len(), *out.records) {
        Err(_) => (MarkList::new(tools.alloc), Halt::Fault(StepErr::Memory)),
        Ok(mut owner) => {
            let halt = serve_all(tools, crew, dataset, out, &mut owner, senders, inbox);
            (owner.into_order(), halt)
        }
    }
}

/// Does what arrives until each number has ended, or a fault or a strange arrival. Each offer that is held then has a stop.
fn serve_all<'s, E, R: Threads + Wait + Sync, D: Disk + 's, G: Gate, T: Told>(
    tools: &Tools<R, G>,
    crew: &mut Crew<'s, E, R, G, D>,
    dataset: &Dataset,
    out: &mut Outlets<D, T>,
    owner: &mut Owner,
    senders: &mut Senders,
    inbox: &mut InTake<SentItem>,
) -> Halt
    requires from { D.from out.old.disk.now ≡ 0 }
    requires lines { length out.old.back.now ≡ inbox.old.senders }
    requires few { inbox.old.senders ≤ 64 }
    requires ended { HaveEnded senders.old.ended [] }
    requires steady { IsSteady dataset.now.header.now (D.len out.old.disk.now) (standing D.Disk T.Told owner.old out.old) }
    ensures same { AreSame out.old out.new }
    ensures halted { HasHaltedOn dataset.now (taken_from inbox.old inbox.new senders.new.ended)
        (standing D.Disk T.Told owner.old out.old) (stopped D.Disk T.Told out.new owner.new.order) result }
    ensures count { IsCount dataset.now.header.now (D.len out.new.disk.now) out.new.records.now }
    ensures from { D.from out.new.disk.now ≡ 0 }
    ensures longer { D.len out.old.disk.now ≤ D.len out.new.disk.now }
    ensures cause { HasHaltCause (D.faults out.old.disk.now) (D.faults out.new.disk.now) result }
{
    for _ in tools.rt.forever() {
        if senders.all_ended(out.back.len()) {
            stop_held(tools.rt, out.back, &owner.clients);
            return Halt::Ended;
        }
        let (number, item) = senders.take(tools.rt, inbox, tools.gate);
        if owner.is_strange(dataset.header, dataset.measures, number, &item) {
            stop_strange(tools.rt, out.back, &owner.clients, number, item);
            return Halt::Stranger(number);
        }
        let done = owner.arrive(tools, crew, dataset, out, number, item);
        if let Err(fault) = done {
            return Halt::Fault(fault);
        }
    }
    unreachable!()
}
