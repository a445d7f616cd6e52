// The parts read in turn, on the calling thread, by no line.
ghost use Rattle.std.specs.Prelude.{◌≡◌, ◌+◌, ◌≤◌, length, min, zip, IsErrOf, OnOk};
ghost use Rattle.std.specs.List.{AllZip};
ghost use Rattle.nc_base.specs.declared.plan.Extent.{Extent};
ghost use Rattle.nc_outside.specs.Cause.{HasDiskCause, Rose};
ghost use Rattle.nc_base.specs.declared.step.StepErr.TheVariants as fault;
ghost use Rattle.nc_outside.specs.Told.{with_end};
ghost use Rattle.overlay_laws.specs.Changes.{load_calls};
ghost use Rattle.overlay_laws.specs.Entries.{In};
ghost use Rattle.aggregator_rounds.specs.ToldWindows.{told_window};
ghost use Rattle.get_exchange.specs.Blobs.{AreAsLong, CanCollect, FitTable, HaveOnePlaces};
ghost use Rattle.get_exchange.specs.Gets.{entries_in, get_turns, HasGot, IsGetPlanned};
ghost use Rattle.get_exchange.specs.Readers.{IsReader};
ghost use Rattle.get_exchange.specs.Logs.{HasReadParts, HasReadTurn, HasReadTurns};
ghost use Rattle.exchange_crew.specs.Hulls.{IsInReach};
ghost use Rattle.exchange_crew.specs.Plan.{HaveDomains, IsDomainOf};
ghost use Rattle.exchange_crew.specs.Parts.{part_state, SomeZip};

use crate::collecting::collect_entries;
use crate::walk::{Ahead, ReadTurn, ReadWalk, Reader};
use aggregator_rounds::get_window;
use exchange_crew::{GetPlan, Spares, Tools, aggregator_at, next_window};
use nc_base::{BlobList, Extent, StepErr};
use nc_outside::{Disk, Gate, Point};
use std::alloc::Global;
use std::sync::Wait;

/// Reads the parts one after another, by one buffer, up to the first fault. The first has this number.
pub(crate) fn get_in_turn<R: Wait, D: Disk, G: Gate>(
    tools: &Tools<R, G>,
    spares: &mut Spares,
    plan: &GetPlan,
    first: u32,
    domains: &[Extent],
    parts: &mut [D],
    table: &mut [BlobList],
) -> Result<(), StepErr>
    requires plan { IsGetPlanned plan.now }
    requires few { first + length domains.now ≤ 64 }
    requires domains { HaveDomains D.Disk plan.now.list.now domains.now parts.old }
    requires fit { FitTable table.old plan.now.list.now }
    requires one_place { HaveOnePlaces plan.now.list.now }
    ensures got { AllZip (λ p new. HasGot (get_turns plan.now p.1)
        (part_state D.Disk p.0) (part_state D.Disk new) result) (zip parts.old domains.now) parts.new }
    ensures read { OnOk result (HasReadParts (λ part. D.from part) (λ part. D.held part) plan.now (zip parts.old domains.now) table.old table.new) }
    ensures blobs { AreAsLong table.old table.new }
    ensures failed { IsErrOf result fault.Disk → SomeZip (λ old new. Rose (D.faults old) (D.faults new)) parts.old parts.new }
{
    let mut buf = spares.take_window(tools.alloc, plan.hints.cb_buffer, domains)?;
    let end = read_parts(tools, plan, first, domains, parts, &mut buf, table);
    spares.keep(buf);
    end
}

// Reads the parts one after another, up to the first fault. The buffer holds the longest hull.
fn read_parts<R: Wait, D: Disk, G: Gate>(
    tools: &Tools<R, G>,
    plan: &GetPlan,
    first: u32,
    domains: &[Extent],
    parts: &mut [D],
    buf: &mut [u8],
    table: &mut [BlobList],
) -> Result<(), StepErr>
    requires plan { IsGetPlanned plan.now }
    requires few { first + length domains.now ≤ 64 }
    requires domains { HaveDomains D.Disk plan.now.list.now domains.now parts.old }
    requires room { (domain : Extent) → In domains.now domain → min plan.now.hints.now.cb_buffer domain.len ≤ length buf.old }
    requires fit { FitTable table.old plan.now.list.now }
    requires one_place { HaveOnePlaces plan.now.list.now }
    ensures got { AllZip (λ p new. HasGot (get_turns plan.now p.1)
        (part_state D.Disk p.0) (part_state D.Disk new) result) (zip parts.old domains.now) parts.new }
    ensures read { OnOk result (HasReadParts (λ part. D.from part) (λ part. D.held part) plan.now (zip parts.old domains.now) table.old table.new) }
    ensures blobs { AreAsLong table.old table.new }
    ensures failed { IsErrOf result fault.Disk → SomeZip (λ old new. Rose (D.faults old) (D.faults new)) parts.old parts.new }
{
    let mut ahead = Ahead::new(plan);
    for (place, part) in parts.iter_mut().enumerate() {
        let aggregator = aggregator_at(first, domains, place);
        let entries = ahead.reach(plan, aggregator.domain);
        let reader = Reader {
            aggregator,
            entries,
        };
        collect_part(tools, plan, &reader, part, buf, table)?;
    }
    Ok(())
}

// Reads the hulls of the windows of an aggregator's domain, and copies the entries' bytes out of them.
fn collect_part<'a, R: Wait, D: Disk, G: Gate>(
    tools: &Tools<R, G>,
    plan: &GetPlan<'a>,
    reader: &Reader<'a>,
    part: &mut D,
    buf: &mut [u8],
    table: &mut [BlobList],
) -> Result<(), StepErr>
    requires plan { IsGetPlanned plan.now }
    requires reader { IsReader plan.now reader.now }
    requires domain { IsDomainOf plan.now.list.now (D.from part.old) (D.len part.old) reader.now.aggregator.domain }
    requires room { min plan.now.hints.now.cb_buffer reader.now.aggregator.domain.len ≤ length buf.old }
    requires fit { FitTable table.old plan.now.list.now }
    requires one_place { HaveOnePlaces plan.now.list.now }
    ensures got { HasGot (get_turns plan.now reader.now.aggregator.domain)
        (part_state D.Disk part.old) (part_state D.Disk part.new) result }
    ensures read { OnOk result (HasReadTurns plan.now.list.now (get_turns plan.now reader.now.aggregator.domain) (D.from part.old) (D.held part.old) table.old table.new) }
    ensures blobs { AreAsLong table.old table.new }
    ensures failed { IsErrOf result fault.Disk → Rose (D.faults part.old) (D.faults part.new) }
{
    let mut walk = ReadWalk::new(tools.alloc, plan, reader);
    'turns: while let Some(window) = next_window(&mut walk.windows) {
        tools.gate.pass(
            tools.rt,
            Point::Window(reader.aggregator.number, window.round),
        );
        let turn = walk.turn(window);
        collect_turn(tools.alloc, part, &turn, buf, table)?;
        walk.go_past(window);
    }
    Ok(())
}

// Reads the hull of a window and copies the entries' bytes out of it.
fn collect_turn<D: Disk>(
    alloc: Global,
    part: &mut D,
    turn: &ReadTurn,
    buf: &mut [u8],
    table: &mut [BlobList],
) -> Result<(), StepErr>
    requires reach { IsInReach (D.from part.old) (D.len part.old) (length buf.old) (told_window turn.now.window) }
    requires can { CanCollect table.old (entries_in turn.now) }
    ensures read { OnOk result (HasReadTurn (entries_in turn.now) (D.from part.old) (D.held part.old) (told_window turn.now.window) table.old table.new) }
    ensures blobs { AreAsLong table.old table.new }
    ensures calls { OnOk result (D.calls part.new ≡ with_end (D.calls part.old) (load_calls (told_window turn.now.window))) }
    ensures bytes { D.held part.new ≡ D.held part.old }
    ensures from { D.from part.new ≡ D.from part.old }
    ensures len { D.len part.new ≡ D.len part.old }
    ensures cause { HasDiskCause (D.faults part.old) (D.faults part.new) result }
{
    let bytes = &mut buf[..turn.window.hull.len as usize];
    get_window(alloc, part, &turn.window, bytes)?;
    collect_entries(turn, bytes, table);
    Ok(())
}
