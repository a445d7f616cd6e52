// The text of a plan: its sums.
ghost use Rattle.std.specs.Prelude.{◌≡◌, ◌++◌, OnOk, flat_map};
ghost use Rattle.plan_text.specs.PlanTexts.{beside_line, cell_line, moved_lines, naive_line, sum_lines, tally_line};

use crate::words::push_bytes_of;
use nc_base::Memory;
use plan_sums::{Cell, Naive, Sums, Tally};
use printed_text::words::{push_bytes, push_number_line, push_numbered};

pub(crate) fn push_sums(out: &mut Vec<u8>, sums: &Sums) -> Result<(), Memory>
    ensures { OnOk result (out.new.items ≡ out.old.items ++ sum_lines sums.now) }
{
    push_bytes(out, b"sums\n")?;
    push_number_line(out, b"  grows ", sums.grows)?;
    push_moved(out, sums)?;
    push_beside(out, b"  read beside what is got ", sums.read_over)?;
    push_beside(out, b"  written beside what is put ", sums.written_over)?;
    push_cells(out, sums.matrix.as_slice())?;
    Ok(())
}

// The reads and writes, and those of naive I/O.
fn push_moved(out: &mut Vec<u8>, sums: &Sums) -> Result<(), Memory>
    ensures { OnOk result (out.new.items ≡ out.old.items ++ moved_lines sums.now) }
{
    push_tally(out, b"  reads ", sums.reads)?;
    push_tally(out, b"  writes ", sums.writes)?;
    push_naive(out, b"  naive reads ", sums.naive_reads)?;
    push_naive(out, b"  naive writes ", sums.naive_writes)?;
    Ok(())
}

fn push_tally(out: &mut Vec<u8>, words: &[u8], tally: Tally) -> Result<(), Memory>
    ensures { OnOk result (out.new.items ≡ out.old.items ++ tally_line words.now tally) }
{
    push_numbered(out, words, tally.calls)?;
    push_bytes_of(out, b", ", tally.bytes)?;
    push_numbered(out, b", least ", tally.least)?;
    push_numbered(out, b", most ", tally.most)?;
    push_number_line(out, b", unaligned ", tally.unaligned)?;
    Ok(())
}

fn push_naive(out: &mut Vec<u8>, words: &[u8], naive: Naive) -> Result<(), Memory>
    ensures { OnOk result (out.new.items ≡ out.old.items ++ naive_line words.now naive) }
{
    push_numbered(out, words, naive.calls)?;
    push_beside(out, b", ", naive.bytes)?;
    Ok(())
}

// A line of words and so many bytes.
fn push_beside(out: &mut Vec<u8>, words: &[u8], number: u64) -> Result<(), Memory>
    ensures { OnOk result (out.new.items ≡ out.old.items ++ beside_line words.now number) }
{
    push_bytes_of(out, words, number)?;
    out.push(b'\n')?;
    Ok(())
}

fn push_cells(out: &mut Vec<u8>, cells: &[Cell]) -> Result<(), Memory>
    ensures { OnOk result (out.new.items ≡ out.old.items ++ flat_map cell_line cells.now) }
{
    for cell in cells {
        push_cell(out, *cell)?;
    }
    Ok(())
}

fn push_cell(out: &mut Vec<u8>, cell: Cell) -> Result<(), Memory>
    ensures { OnOk result (out.new.items ≡ out.old.items ++ cell_line cell) }
{
    push_numbered(out, b"  rank ", u64::from(cell.rank))?;
    push_numbered(out, b" aggregator ", u64::from(cell.aggregator))?;
    push_numbered(out, b" puts ", cell.put)?;
    push_number_line(out, b" gets ", cell.got)?;
    Ok(())
}
