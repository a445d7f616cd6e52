// A whole run.
ghost use Rattle.std.specs.Prelude.{◌≡◌, true, IfOk};
ghost use Rattle.serial_spec.specs.SoundHeaders.{is_sound};
ghost use Rattle.serial_spec.specs.History.{IsLegal};
ghost use Rattle.serial_spec.specs.Lawful.{is_lawful};
ghost use Rattle.serial_spec.specs.SerialEnd.{serial_from};
ghost use Rattle.reference.specs.Ended.{as_end};

use crate::end::{SerialEnd, closed};
use crate::stand::Stand;
use nc_base::{Header, Mark, Memory, Script};
use rank_core::Names;
use std::alloc::Global;

/// The end of a run whose steps are done one after another in this order, from the bytes that the dataset has when the ranks begin.
/// The record count is then that of the header. Bytes past the end of the file are read as zeros.
///
/// `Memory` is its one error. It keeps a copy of the bytes and of what a step puts and gets, and where an overlap is refused it takes a time
/// that grows with the square of the bytes that a step puts.
pub fn serial_run(
    alloc: Global,
    script: &Script,
    header: &Header,
    bytes: &[u8],
    order: &[Mark],
) -> Result<SerialEnd, Memory>
    requires sound { is_sound header.now ≡ true }
    requires lawful { is_lawful script.now ≡ true }
    requires legal { IsLegal script.now order.now }
    ensures { IfOk result (λ end. as_end end ≡ serial_from script.now header.now bytes.now order.now) }
{
    let names = Names::new(alloc, header)?;
    let mut stand = Stand::first(alloc, script, header, &names, bytes)?;
    for place in 0..order.len() {
        stand.do_step(alloc, script, header, order, place)?;
    }
    closed(alloc, header, stand)
}
