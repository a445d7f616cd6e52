// What the calling thread does: round by round it takes the hulls off the lines, and copies their bytes into the blobs of the entries.
ghost use Rattle.std.specs.Prelude.{◌≡◌, ◌+◌, ◌^◌, ◌<◌, ◌≤◌, ℕ, [], length, slice_get, IfErr, OnOk, Some};
ghost use Rattle.serial_spec.specs.File.{written};
ghost use Rattle.nc_base.specs.declared.step.StepErr.TheVariants as fault;
ghost use Rattle.aggregator_rounds.specs.EntryParts.{buffer_cell};
ghost use Rattle.get_exchange.specs.Blobs.{blob_at, with_blob, AreAsLong, CanCollect, FitTable, HasCollected, HaveOnePlaces};
ghost use Rattle.get_exchange.specs.Gets.{entries_in, IsGetPlanned};
ghost use Rattle.get_exchange.specs.Lenders.{AreReady};
ghost use Rattle.get_exchange.specs.Logs.{HasTakenTurn, HaveTakenTurns, IsKept, IsShelfIn};
ghost use Rattle.get_exchange.specs.Shelves.{turns_due};
ghost use Rattle.get_exchange.specs.declared.handing.ReadWorker.{ReadWorker};

use crate::buffers::Lenders;
use crate::handing::ReadWorker;
use crate::reading::Reading;
use crate::shelf::Shelf;
use crate::walk::ReadTurn;
use aggregator_rounds::collect_entry;
use exchange_crew::{GetPlan, InRounds, Spares, first_in_turn, next_window};
use nc_base::{Blob, BlobList, Extent, Owned, StepErr};
use nc_outside::Disk;
use std::sync::Wait;

/// Takes the hulls of all windows: round by round, and in a round by aggregator. `Memory` where one didn't come, whose helper then has
/// the fault.
pub(crate) fn take_all<R: Wait, D: Disk>(
    rt: &R,
    spares: &mut Spares,
    plan: &GetPlan,
    workers: &mut [ReadWorker<D>],
    lenders: &mut Lenders,
    table: &mut [BlobList],
) -> Result<(), StepErr>
    requires plan { IsGetPlanned plan.now }
    requires one_place { HaveOnePlaces plan.now.list.now }
    requires lenders { AreReady lenders.old.each.items }
    requires ready { (k : ℕ) (worker : ReadWorker D) → slice_get workers.old k ≡ Some worker → IsShelfIn plan.now.list.now worker.shelf }
    requires fit { FitTable table.old plan.now.list.now }
    ensures long { length workers.new ≡ length workers.old }
    ensures kept { (k : ℕ) (old new : ReadWorker D) → slice_get workers.old k ≡ Some old → slice_get workers.new k ≡ Some new → IsKept old new }
    ensures none { (k : ℕ) (worker : ReadWorker D) → slice_get workers.new k ≡ Some worker → turns_due worker.shelf ≡ [] }
    ensures blobs { AreAsLong table.old table.new }
    ensures taken { OnOk result (HaveTakenTurns plan.now.list.now workers.old workers.new table.old table.new) }
    ensures memory { IfErr result (λ e. e ≡ fault.Memory) }
{
    let mut end = Ok(());
    'rounds: while let Some(k) = first_in_turn(workers) {
        let shelf = &mut workers[k].shelf;
        let (came, blob) = take_turn(rt, plan, shelf, table);
        end = end.and(came);
        hand_on(rt, spares, lenders, k, shelf.next.is_none(), blob);
    }
    end
}

// Lends the blob that came back from a helper to the next one, where one came.
fn hand_on<R: Wait>(
    rt: &R,
    spares: &mut Spares,
    lenders: &mut Lenders,
    number: usize,
    ended: bool,
    blob: Option<Blob>,
)
    requires { AreReady lenders.old.each.items }
    ensures { AreReady lenders.new.each.items }
{
    lenders.come_back(number, ended);
    if let Some(blob) = blob {
        lenders.lend(rt, spares, blob);
    }
}

/// Takes the hull of the next window of a helper, if it has one, and copies the entries' bytes out of it. `Memory` where it didn't come.
/// The blob comes with it.
pub(crate) fn take_turn<R: Wait>(
    rt: &R,
    plan: &GetPlan,
    shelf: &mut Shelf,
    table: &mut [BlobList],
) -> (Result<(), StepErr>, Option<Blob>)
    requires plan { IsGetPlanned plan.now }
    requires one_place { HaveOnePlaces plan.now.list.now }
    requires ready { IsShelfIn plan.now.list.now shelf.old }
    requires fit { FitTable table.old plan.now.list.now }
    ensures ready { IsShelfIn plan.now.list.now shelf.new }
    ensures of { shelf.new.line.of ≡ shelf.old.line.of }
    ensures blobs { AreAsLong table.old table.new }
    ensures fewer { (turns_due shelf.old ≡ [] → ⊥) → length (turns_due shelf.new) < length (turns_due shelf.old) }
    ensures taken { OnOk result.0 (HasTakenTurn plan.now.list.now shelf.old shelf.new table.old table.new) }
    ensures memory { IfErr result.0 (λ e. e ≡ fault.Memory) }
{
    let Some(window) = shelf.next else {
        return (Ok(()), None);
    };
    match shelf.line.take(rt) {
        Reading::Hull(blob) => {
            let turn = shelf.walk.turn(window);
            let came = collect_hull(&turn, &blob, table);
            shelf.walk.go_past(window);
            shelf.next = next_window(&mut shelf.walk.windows);
            (came, Some(blob))
        }
        Reading::Ended(blob) => {
            shelf.next = None;
            (Err(StepErr::Memory), Some(blob))
        }
    }
}

// Copies the entries' bytes out of those of a window's hull. What another thread put is known only by its type, so its length is tested.
fn collect_hull(turn: &ReadTurn, bytes: &Blob, table: &mut [BlobList]) -> Result<(), StepErr>
    requires hull { turn.now.window.hull.at + turn.now.window.hull.len < 2 ^ 62 }
    requires can { CanCollect table.old (entries_in turn.now) }
    ensures long { OnOk result (length bytes.now ≡ turn.now.window.hull.len) }
    ensures collected { OnOk result (HasCollected turn.now.window.hull.at (turn.now.window.hull.at + turn.now.window.hull.len) bytes.now (entries_in turn.now) table.old table.new) }
    ensures blobs { AreAsLong table.old table.new }
    ensures memory { IfErr result (λ e. e ≡ fault.Memory) }
{
    if bytes.len() as u64 != turn.window.hull.len {
        return Err(StepErr::Memory);
    }
    collect_entries(turn, bytes.as_slice(), table);
    Ok(())
}

/// Copies the bytes of a window's entries out of its hull's.
pub(crate) fn collect_entries(turn: &ReadTurn, buf: &[u8], table: &mut [BlobList])
    requires hull { turn.now.window.hull.at + turn.now.window.hull.len < 2 ^ 62 }
    requires room { length buf.now ≡ turn.now.window.hull.len }
    requires can { CanCollect table.old (entries_in turn.now) }
    ensures each { HasCollected turn.now.window.hull.at (turn.now.window.hull.at + turn.now.window.hull.len) buf.now (entries_in turn.now) table.old table.new }
    ensures long { AreAsLong table.old table.new }
{
    collect_all(turn.window.hull, turn.carried, buf, table);
    collect_all(turn.window.hull, turn.fresh, buf, table);
}

// Copies the bytes that entries have in a hull out of the hull's, one entry after another.
fn collect_all(hull: Extent, entries: &[Owned], buf: &[u8], table: &mut [BlobList])
    requires hull { hull.at + hull.len < 2 ^ 62 }
    requires room { length buf.now ≡ hull.len }
    requires can { CanCollect table.old entries.now }
    ensures each { HasCollected hull.at (hull.at + hull.len) buf.now entries.now table.old table.new }
    ensures long { AreAsLong table.old table.new }
{
    for entry in entries {
        collect_get(hull, entry, buf, table);
    }
}

// Copies the bytes that an entry has in the hull into its blob.
fn collect_get(hull: Extent, entry: &Owned, buf: &[u8], table: &mut [BlobList])
    requires hull { hull.at + hull.len < 2 ^ 62 }
    requires room { length buf.now ≡ hull.len }
    requires end { entry.now.extent.at + entry.now.extent.len < 2 ^ 62 }
    requires filled { 1 ≤ entry.now.extent.len }
    requires fit { entry.now.from + entry.now.extent.len ≤ length (blob_at table.old entry.now.rank entry.now.slot) }
    ensures { table.new ≡ with_blob table.old entry.now.rank entry.now.slot (written (blob_at table.old entry.now.rank entry.now.slot) (buffer_cell hull.at (hull.at + hull.len) buf.now entry.now).0 (buffer_cell hull.at (hull.at + hull.len) buf.now entry.now).1) }
{
    let blobs = table[entry.rank as usize].as_mut_slice();
    collect_entry(hull, entry, buf, blobs);
}

impl<'a, D: Disk> InRounds for ReadWorker<'a, D> {
    ghost use Rattle.get_exchange.specs.Lenders.{round_of};

    ghost next = { λ worker. round_of worker.shelf.next };

    fn next_round(&self) -> Option<u64> {
        Some(self.shelf.next?.round)
    }
}
