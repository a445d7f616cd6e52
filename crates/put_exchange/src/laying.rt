// What a helper does: window after window it takes the messages of its part, and lays them.
ghost use Rattle.std.specs.Prelude.{◌≡◌, ◌≤◌, [], length, IsOk, IsErr, IsErrOf, OnOk, ◌⊎◌};
ghost use Rattle.nc_outside.specs.Cause.{HasDiskCause, Rose};
ghost use Rattle.nc_base.specs.declared.step.StepErr.TheVariants as fault;
ghost use Rattle.nc_outside.specs.Told.{with_end};
ghost use Rattle.overlay_laws.specs.Changes.{store_calls};
ghost use Rattle.aggregator_rounds.specs.ToldWindows.{told_window};
ghost use Rattle.exchange_crew.specs.Hulls.{IsInReach};
ghost use Rattle.exchange_crew.specs.Parts.{part_state};
ghost use Rattle.put_exchange.specs.Dues.{turns_due, AreDue};
ghost use Rattle.put_exchange.specs.Helped.{HasServed};
ghost use Rattle.put_exchange.specs.Taken.{turn_due, HasLaid, HasPutTaken, HasTaken};

use crate::message::Message;
use aggregator_rounds::{close_window, open_window};
use exchange_crew::Tools;
use file_domains::Window;
use nc_base::{Extent, StepErr};
use nc_outside::{Disk, Gate, Point};
use ruled_line::LineTake;
use std::sync::Wait;

/// A window whose messages are due, and how many come.
#[derive(Clone, Copy, Drop)]
pub struct Due {
    pub window: Window,
    pub count: usize,
}

/// Serves the windows of a part, for the aggregator of this number: takes their messages off the line, and overlays each hull by one read
/// at most and one write. The buffer holds the longest hull.
///
/// Refused, it goes on taking to the last message, and drops what it takes.
pub(crate) fn lay_part<R: Wait, D: Disk, G: Gate>(
    tools: &Tools<R, G>,
    number: u32,
    dues: &[Due],
    part: &mut D,
    line: &mut LineTake<Message>,
    buf: &mut [u8],
) -> Result<(), StepErr>
    requires due { AreDue (D.from part.old) (D.len part.old) (length buf.old) (turns_due dues.now) }
    requires empty { line.old.items ≡ [] }
    ensures of { line.new.of ≡ line.old.of }
    ensures served { HasServed dues.now (part_state D.Disk part.old) (part_state D.Disk part.new) line.new.items result }
{
    let mut end = Ok(());
    for due in dues {
        tools
            .gate
            .pass(tools.rt, Point::Window(number, due.window.round));
        end = serve_turn(tools, due, part, line, buf, end);
    }
    end
}

// Serves one window, unless something was refused before: then its messages are taken and dropped.
fn serve_turn<R: Wait, D: Disk, G>(
    tools: &Tools<R, G>,
    due: &Due,
    part: &mut D,
    line: &mut LineTake<Message>,
    buf: &mut [u8],
    before: Result<(), StepErr>,
) -> Result<(), StepErr>
    requires { IsInReach (D.from part.old) (D.len part.old) (length buf.old) (told_window due.now.window) }
    ensures of { line.new.of ≡ line.old.of }
    ensures taken { HasTaken due.now.count line.old.items line.new.items }
    ensures put { IsOk before → HasPutTaken (turn_due (D.from part.old) (told_window due.now.window) due.now.count) line.old.items line.new.items (D.held part.old) (D.held part.new) result }
    ensures kept { IsErr before → D.held part.new ≡ D.held part.old }
    ensures ok { OnOk result (IsOk before) }
    ensures calls { OnOk result (D.calls part.new ≡ with_end (D.calls part.old) (store_calls (told_window due.now.window))) }
    ensures from { D.from part.new ≡ D.from part.old }
    ensures len { D.len part.new ≡ D.len part.old }
    ensures later { D.faults part.old ≤ D.faults part.new }
    ensures failed { IsErrOf result fault.Disk → IsErrOf before fault.Disk ⊎ Rose (D.faults part.old) (D.faults part.new) }
{
    if let Err(fault) = before {
        drop_messages(tools.rt, due.count, line);
        return Err(fault);
    }
    put_turn(tools, due, part, line, buf)
}

// Overlays the hull of a window with so many messages, by one read at most and one write. They are taken also where the read is refused.
fn put_turn<R: Wait, D: Disk, G>(
    tools: &Tools<R, G>,
    due: &Due,
    part: &mut D,
    line: &mut LineTake<Message>,
    buf: &mut [u8],
) -> Result<(), StepErr>
    requires { IsInReach (D.from part.old) (D.len part.old) (length buf.old) (told_window due.now.window) }
    ensures of { line.new.of ≡ line.old.of }
    ensures put { HasPutTaken (turn_due (D.from part.old) (told_window due.now.window) due.now.count) line.old.items line.new.items (D.held part.old) (D.held part.new) result }
    ensures calls { OnOk result (D.calls part.new ≡ with_end (D.calls part.old) (store_calls (told_window due.now.window))) }
    ensures from { D.from part.new ≡ D.from part.old }
    ensures len { D.len part.new ≡ D.len part.old }
    ensures cause { HasDiskCause (D.faults part.old) (D.faults part.new) result }
{
    let bytes = &mut buf[..due.window.hull.len as usize];
    let opened = open_window(tools.alloc, part, &due.window, bytes);
    take_messages(tools.rt, due.window.hull, due.count, line, bytes);
    opened?;
    close_window(tools.alloc, part, &due.window, bytes)?;
    Ok(())
}

// Takes so many messages, and lays those of the hull over its bytes.
fn take_messages<R: Wait>(
    rt: &R,
    hull: Extent,
    count: usize,
    line: &mut LineTake<Message>,
    buf: &mut [u8],
)
    requires room { length buf.old ≡ hull.len }
    ensures of { line.new.of ≡ line.old.of }
    ensures laid { HasLaid hull count line.old.items line.new.items buf.old buf.new }
    ensures long { length buf.new ≡ length buf.old }
{
    let mut left = count;
    'messages: while left > 0 {
        let message = line.take(rt);
        message.lay(hull, buf);
        left -= 1;
    }
}

// Takes so many messages, and drops them.
fn drop_messages<R: Wait>(rt: &R, count: usize, line: &mut LineTake<Message>)
    ensures of { line.new.of ≡ line.old.of }
    ensures taken { HasTaken count line.old.items line.new.items }
{
    let mut left = count;
    'messages: while left > 0 {
        let _message = line.take(rt);
        left -= 1;
    }
}
