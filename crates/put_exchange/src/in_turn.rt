// The parts served in turn, on the calling thread, by no line.
ghost use Rattle.std.specs.Prelude.{◌≡◌, ◌∷◌, [], ◌+◌, ◌^◌, ◌<◌, ◌≤◌, length, map, min, zip, IsErrOf, OnOk};
ghost use Rattle.std.specs.List.{AllZip};
ghost use Rattle.nc_base.specs.declared.plan.Extent.{Extent};
ghost use Rattle.nc_outside.specs.Cause.{HasDiskCause, Rose};
ghost use Rattle.nc_base.specs.declared.step.StepErr.TheVariants as fault;
ghost use Rattle.nc_outside.specs.Told.{after, with_end, BothTold};
ghost use Rattle.overlay_laws.specs.Changes.{store_calls, IsBetween};
ghost use Rattle.overlay_laws.specs.Entries.{cell_of, In};
ghost use Rattle.overlay_laws.specs.Windows.{clip, clips};
ghost use Rattle.serial_spec.specs.Said.{write_cells, moved_down};
ghost use Rattle.aggregator_rounds.specs.ToldWindows.{told_window};
ghost use Rattle.exchange_crew.specs.Hulls.{IsInReach};
ghost use Rattle.exchange_crew.specs.Pieces.{ArePieces, IsPiece};
ghost use Rattle.exchange_crew.specs.Plan.{planned_turns, source_in, HaveDomains, IsDomainOf, IsPlanned};
ghost use Rattle.exchange_crew.specs.Parts.{part_state, SomeZip};
ghost use Rattle.put_exchange.specs.Put.{HasPut};
ghost use Rattle.put_exchange.specs.Sent.{cells_in};
ghost use Rattle.put_exchange.specs.Taken.{put_window, IsFilledBy};
ghost use Rattle.exchange_crew.specs.Turns.{source_of};

use aggregator_rounds::{close_window, lay_entry, open_window};
use exchange_crew::{Aggregator, PutPlan, Spares, Tools, Turn, TurnWalk, aggregator_at};
use nc_base::{Batch, Extent, Owned, StepErr};
use nc_outside::{Disk, Gate, Point};
use std::alloc::Global;
use std::sync::Wait;

/// Serves the windows of an aggregator's domain as a helper does, with the entries at hand. The buffer holds the longest hull.
pub(crate) fn lay_in_turn<R: Wait, D: Disk, G: Gate>(
    tools: &Tools<R, G>,
    plan: &PutPlan,
    aggregator: Aggregator,
    part: &mut D,
    buf: &mut [u8],
) -> Result<(), StepErr>
    requires plan { IsPlanned plan.now }
    requires domain { IsDomainOf plan.now.list.now (D.from part.old) (D.len part.old) aggregator.domain }
    requires room { min plan.now.hints.now.cb_buffer aggregator.domain.len ≤ length buf.old }
    ensures put { HasPut (source_in plan.now) plan.now.list.now (planned_turns plan.now aggregator.domain)
        (part_state D.Disk part.old) (part_state D.Disk part.new) result }
    ensures failed { IsErrOf result fault.Disk → Rose (D.faults part.old) (D.faults part.new) }
{
    let batches = plan.job.job().batches.as_slice();
    let mut walk = TurnWalk::new(plan, aggregator.domain);
    'turns: while let Some(turn) = walk.next_turn() {
        tools.gate.pass(
            tools.rt,
            Point::Window(aggregator.number, turn.window.round),
        );
        put_turn(tools.alloc, part, &turn, batches, buf)?;
    }
    Ok(())
}

// Overlays the hull of a window with the entries' bytes, by one read at most and one write.
fn put_turn<D: Disk>(
    alloc: Global,
    part: &mut D,
    turn: &Turn,
    batches: &[Batch],
    buf: &mut [u8],
) -> Result<(), StepErr>
    requires reach { IsInReach (D.from part.old) (D.len part.old) (length buf.old) (told_window turn.now.window) }
    requires pieces { ArePieces (source_of batches.now) turn.now.entries.now }
    requires whole { IsFilledBy (told_window turn.now.window) (cells_in (source_of batches.now) (told_window turn.now.window) turn.now.entries.now) }
    ensures bytes { OnOk result (D.held part.new ≡ after (put_window (source_of batches.now) (D.from part.old) (told_window turn.now.window) turn.now.entries.now) (D.held part.old)) }
    ensures between { BothTold (λ file left. IsBetween file (put_window (source_of batches.now) (D.from part.old) (told_window turn.now.window) turn.now.entries.now file) left) (D.held part.old) (D.held part.new) }
    ensures calls { OnOk result (D.calls part.new ≡ with_end (D.calls part.old) (store_calls (told_window turn.now.window))) }
    ensures from { D.from part.new ≡ D.from part.old }
    ensures len { D.len part.new ≡ D.len part.old }
    ensures cause { HasDiskCause (D.faults part.old) (D.faults part.new) result }
{
    let bytes = &mut buf[..turn.window.hull.len as usize];
    open_window(alloc, part, &turn.window, bytes)?;
    lay_entries(turn.window.hull, turn.entries, batches, bytes);
    close_window(alloc, part, &turn.window, bytes)?;
    Ok(())
}

// Lays the entries' bytes over the hull's, one entry after another.
fn lay_entries(hull: Extent, entries: &[Owned], batches: &[Batch], buf: &mut [u8])
    requires hull { hull.at + hull.len < 2 ^ 62 }
    requires room { length buf.old ≡ hull.len }
    requires pieces { ArePieces (source_of batches.now) entries.now }
    ensures { buf.new ≡ write_cells buf.old (moved_down hull.at (clips hull.at (hull.at + hull.len) (map (λ o. cell_of (source_of batches.now) o) entries.now))) }
{
    for entry in entries {
        lay_piece(hull, entry, batches, buf);
    }
}

// Lays the bytes that an entry has in the hull.
fn lay_piece(hull: Extent, entry: &Owned, batches: &[Batch], buf: &mut [u8])
    requires hull { hull.at + hull.len < 2 ^ 62 }
    requires room { length buf.old ≡ hull.len }
    requires piece { IsPiece (source_of batches.now) entry.now }
    ensures { buf.new ≡ write_cells buf.old (moved_down hull.at (clip hull.at (hull.at + hull.len) (cell_of (source_of batches.now) entry.now) ∷ [])) }
{
    lay_entry(hull, entry, &batches[entry.rank as usize].puts, buf);
}

/// Serves the parts one after another, by one buffer, up to the first fault. The first has this number.
pub(crate) fn put_in_turn<R: Wait, D: Disk, G: Gate>(
    tools: &Tools<R, G>,
    spares: &mut Spares,
    plan: &PutPlan,
    first: u32,
    domains: &[Extent],
    parts: &mut [D],
) -> Result<(), StepErr>
    requires plan { IsPlanned plan.now }
    requires few { first + length domains.now ≤ 64 }
    requires domains { HaveDomains D.Disk plan.now.list.now domains.now parts.old }
    ensures put { AllZip (λ p new. HasPut (source_in plan.now) plan.now.list.now (planned_turns plan.now p.1)
        (part_state D.Disk p.0) (part_state D.Disk new) result) (zip parts.old domains.now) parts.new }
    ensures failed { IsErrOf result fault.Disk → SomeZip (λ old new. Rose (D.faults old) (D.faults new)) parts.old parts.new }
{
    let mut buf = spares.take_window(tools.alloc, plan.hints.cb_buffer, domains)?;
    let end = put_parts(tools, plan, first, domains, parts, &mut buf);
    spares.keep(buf);
    end
}

// Serves the parts one after another, up to the first fault. The buffer holds the longest hull.
fn put_parts<R: Wait, D: Disk, G: Gate>(
    tools: &Tools<R, G>,
    plan: &PutPlan,
    first: u32,
    domains: &[Extent],
    parts: &mut [D],
    buf: &mut [u8],
) -> Result<(), StepErr>
    requires plan { IsPlanned plan.now }
    requires few { first + length domains.now ≤ 64 }
    requires domains { HaveDomains D.Disk plan.now.list.now domains.now parts.old }
    requires room { (domain : Extent) → In domains.now domain → min plan.now.hints.now.cb_buffer domain.len ≤ length buf.old }
    ensures put { AllZip (λ p new. HasPut (source_in plan.now) plan.now.list.now (planned_turns plan.now p.1)
        (part_state D.Disk p.0) (part_state D.Disk new) result) (zip parts.old domains.now) parts.new }
    ensures failed { IsErrOf result fault.Disk → SomeZip (λ old new. Rose (D.faults old) (D.faults new)) parts.old parts.new }
{
    for (place, part) in parts.iter_mut().enumerate() {
        let aggregator = aggregator_at(first, domains, place);
        lay_in_turn(tools, plan, aggregator, part, buf)?;
    }
    Ok(())
}
