// One watcher of a run: a view that reads beside it, and once more when it is over.
ghost use Rattle.std.specs.Prelude.{◌≡◌, ◌≤◌, ◌<◌, ℕ, length, slice_index, IfOk};
ghost use Rattle.ncmpi_cli.specs.Watched.{AreReadings};

use nc_base::{Memory, SizeList};
use nc_outside::{Gate, Point};
use run_watch::{Note, View};
use std::alloc::Global;
use std::sync::Wait;

/// A view that has read beside a run, and how many steps it saw each time.
#[derive(Drop)]
pub(crate) struct Watched {
    pub view: View,
    pub seen: [u64; 16],
    ghost rise: { (i j : ℕ) → i ≤ j → j < 16 → slice_index seen i ≤ slice_index seen j },
}

/// Reads sixteen times, and passes the gate before each.
pub(crate) fn read_beside<R: Wait, G: Gate>(rt: &R, gate: &G, watcher: u32, view: View) -> Watched {
    let mut view = view;
    let mut seen = [0; 16];
    for number in 0..16u32 {
        gate.pass(rt, Point::Reading(watcher, number));
        seen[number as usize] = view.read().steps;
    }
    Watched { view, seen }
}

/// The numbers of one watcher: how many steps each of its readings saw, but no more than were told. Before the last it learns all that was told.
pub(crate) fn numbers_of(
    alloc: Global,
    watched: Watched,
    note: Note,
    told: u64,
) -> Result<SizeList, Memory>
    requires { length note.pairs ≡ told }
    ensures { IfOk result (AreReadings told) }
{
    let Watched { mut view, seen } = watched;
    let last = last_reading(&mut view, note, told);
    numbers(alloc, seen, last)
}

/// How many steps a view sees once it learned all that was told.
fn last_reading(view: &mut View, note: Note, told: u64) -> u64
    requires { length note.pairs ≡ told }
    ensures { result ≡ told }
{
    view.learn(note);
    view.read().steps.min(told)
}

/// The numbers of what was seen beside the run, and of the last reading.
fn numbers(alloc: Global, seen: [u64; 16], last: u64) -> Result<SizeList, Memory>
    requires { (i j : ℕ) → i ≤ j → j < 16 → slice_index seen i ≤ slice_index seen j }
    ensures { IfOk result (AreReadings last) }
{
    let mut list = Vec::with_capacity(alloc, 17)?;
    for number in 0..16usize {
        list.push(seen[number].min(last))?;
    }
    list.push(last)?;
    Ok(SizeList::from_vec(list))
}
