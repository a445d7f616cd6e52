// What a helper does: window after window it reads the hull, and puts it on its line.
ghost use Rattle.std.specs.Prelude.{◌≡◌, ◌+◌, ◌-◌, ◌≤◌, [], length, map, IfSome, IsErrOf, OnOk};
ghost use Rattle.nc_outside.specs.Cause.{HasDiskCause, Rose};
ghost use Rattle.nc_base.specs.declared.step.StepErr.TheVariants as fault;
ghost use Rattle.nc_outside.specs.Told.{with_end};
ghost use Rattle.overlay_laws.specs.Changes.{load_calls};
ghost use Rattle.serial_spec.specs.File.{read};
ghost use Rattle.aggregator_rounds.specs.ToldWindows.{told_window};
ghost use Rattle.get_exchange.specs.Gets.{reading_of, HasGot};
ghost use Rattle.get_exchange.specs.declared.reading.Reading.TheVariants as reading;
ghost use Rattle.exchange_crew.specs.Hulls.{LieOnPart};
ghost use Rattle.exchange_crew.specs.Parts.{part_state};

use crate::helper::GetLines;
use aggregator_rounds::get_window;
use exchange_crew::{Tools, resize_by_blocks};
use file_domains::Window;
use nc_base::{Blob, StepErr};
use nc_outside::{Disk, Gate, Point};
use std::alloc::Global;
use std::sync::Wait;

/// What a helper puts on its line.
#[derive(Drop)]
pub enum Reading {
    /// The bytes of a window's hull.
    Hull(Blob),
    /// No more come. The blob that there was for the next one comes back.
    Ended(Blob),
}

/// Reads the hulls of windows that lie on the part, for the aggregator of this number, and puts each on the line, in a blob that it takes
/// off the line of spare ones.
///
/// Refused, it puts `Ended` behind them, with the blob that it had.
pub(crate) fn read_part<R: Wait, D: Disk, G: Gate>(
    tools: &Tools<R, G>,
    number: u32,
    windows: &[Window],
    part: &mut D,
    lines: &mut GetLines,
) -> Result<(), StepErr>
    requires on_part { LieOnPart (D.from part.old) (D.len part.old) (map told_window windows.now) }
    requires empty { lines.old.line.items ≡ [] }
    ensures of { lines.new.line.of ≡ lines.old.line.of }
    ensures many { OnOk result (length lines.new.line.items ≡ length (map told_window windows.now)) }
    ensures read { OnOk result (IfSome (D.held part.old) (λ file. lines.new.line.items ≡ map (λ t. reading_of (D.from part.old) file t) (map told_window windows.now))) }
    ensures got { HasGot (map told_window windows.now)
        (part_state D.Disk part.old) (part_state D.Disk part.new) result }
    ensures failed { IsErrOf result fault.Disk → Rose (D.faults part.old) (D.faults part.new) }
{
    for window in windows {
        tools
            .gate
            .pass(tools.rt, Point::Window(number, window.round));
        let mut bytes = lines.spare.take(tools.rt).into_vec();
        let came = read_turn(tools.alloc, window, part, &mut bytes);
        lines.line.put(tools.rt, reading_after(&came, bytes));
        came?;
    }
    Ok(())
}

// What is put on the line after a read into these bytes.
fn reading_after(came: &Result<(), StepErr>, bytes: Vec<u8>) -> Reading
    ensures { OnOk came.now (result ≡ reading.Hull bytes.items) }
{
    let blob = Blob::from_vec(bytes);
    match came {
        Ok(()) => Reading::Hull(blob),
        Err(_) => Reading::Ended(blob),
    }
}

// Reads the hull of one window into bytes, which become exactly as many.
fn read_turn<D: Disk>(
    alloc: Global,
    window: &Window,
    part: &mut D,
    bytes: &mut Vec<u8>,
) -> Result<(), StepErr>
    requires low { D.from part.old ≤ window.now.hull.at }
    requires high { window.now.hull.at + window.now.hull.len ≤ D.from part.old + D.len part.old }
    ensures read { OnOk result (IfSome (D.held part.old) (λ file. bytes.new.items ≡ read file (window.now.hull.at - D.from part.old) window.now.hull.len)) }
    ensures calls { OnOk result (D.calls part.new ≡ with_end (D.calls part.old) (load_calls (told_window window.now))) }
    ensures bytes { D.held part.new ≡ D.held part.old }
    ensures from { D.from part.new ≡ D.from part.old }
    ensures len { D.len part.new ≡ D.len part.old }
    ensures cause { HasDiskCause (D.faults part.old) (D.faults part.new) result }
{
    resize_by_blocks(bytes, window.hull.len as usize)?;
    get_window(alloc, part, window, bytes)?;
    Ok(())
}
