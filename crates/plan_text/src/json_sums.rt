// The JSON document of a plan: its sums.
ghost use Rattle.std.specs.Prelude.{◌≡◌, ◌++◌, ◌∷◌, OnOk};
ghost use Rattle.script_spec.specs.Texts.{joined};
ghost use Rattle.plan_text.specs.Json.{array_of};
ghost use Rattle.plan_text.specs.JsonSums.{cell_object, moved_members, moved_object, naive_object, sums_object};

use crate::json::{ArrayItem, push_array};
use nc_base::Memory;
use plan_sums::{Cell, Naive, Sums, Tally};
use printed_text::words::{push_bytes, push_numbered};

pub(crate) fn push_sums(out: &mut Vec<u8>, sums: &Sums) -> Result<(), Memory>
    ensures { OnOk result (out.new.items ≡ out.old.items ++ sums_object sums.now) }
{
    push_numbered(out, b"{\"grows\":", sums.grows)?;
    push_moved(out, sums)?;
    push_numbered(out, b",\"read_beside\":", sums.read_over)?;
    push_numbered(out, b",\"written_beside\":", sums.written_over)?;
    push_cells(out, b",\"matrix\":", sums.matrix.as_slice())?;
    out.push(b'}')?;
    Ok(())
}

/// The reads and the writes, and those of naive I/O.
fn push_moved(out: &mut Vec<u8>, sums: &Sums) -> Result<(), Memory>
    ensures { OnOk result (out.new.items ≡ out.old.items ++ 44 ∷ joined 44 (moved_members sums.now)) }
{
    push_tally(out, b",\"reads\":", sums.reads)?;
    push_tally(out, b",\"writes\":", sums.writes)?;
    push_naive(out, b",\"naive_reads\":", sums.naive_reads)?;
    push_naive(out, b",\"naive_writes\":", sums.naive_writes)?;
    Ok(())
}

/// Words, and the reads or the writes.
fn push_tally(out: &mut Vec<u8>, words: &[u8], tally: Tally) -> Result<(), Memory>
    ensures { OnOk result (out.new.items ≡ out.old.items ++ (words.now ++ moved_object tally)) }
{
    push_bytes(out, words)?;
    push_numbered(out, b"{\"calls\":", tally.calls)?;
    push_numbered(out, b",\"bytes\":", tally.bytes)?;
    push_numbered(out, b",\"least\":", tally.least)?;
    push_numbered(out, b",\"most\":", tally.most)?;
    push_numbered(out, b",\"unaligned\":", tally.unaligned)?;
    out.push(b'}')?;
    Ok(())
}

/// Words, and the reads or the writes of naive I/O.
fn push_naive(out: &mut Vec<u8>, words: &[u8], naive: Naive) -> Result<(), Memory>
    ensures { OnOk result (out.new.items ≡ out.old.items ++ (words.now ++ naive_object naive)) }
{
    push_bytes(out, words)?;
    push_numbered(out, b"{\"calls\":", naive.calls)?;
    push_numbered(out, b",\"bytes\":", naive.bytes)?;
    out.push(b'}')?;
    Ok(())
}

fn push_cells(out: &mut Vec<u8>, words: &[u8], cells: &[Cell]) -> Result<(), Memory>
    ensures { OnOk result (out.new.items ≡ out.old.items ++ (words.now ++ array_of cell_object cells.now)) }
{
    push_array(out, words, cells)
}

impl ArrayItem for Cell {
    ghost value = { cell_object };

    fn push_item(&self, out: &mut Vec<u8>) -> Result<(), Memory> {
        push_cell(out, *self)
    }
}

fn push_cell(out: &mut Vec<u8>, cell: Cell) -> Result<(), Memory>
    ensures { OnOk result (out.new.items ≡ out.old.items ++ cell_object cell) }
{
    push_numbered(out, b"{\"rank\":", u64::from(cell.rank))?;
    push_numbered(out, b",\"aggregator\":", u64::from(cell.aggregator))?;
    push_numbered(out, b",\"put\":", cell.put)?;
    push_numbered(out, b",\"got\":", cell.got)?;
    out.push(b'}')?;
    Ok(())
}
