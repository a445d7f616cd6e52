// A whole relocation, of headers whose slabs rise.
ghost use Rattle.std.specs.Prelude.{◌≡◌, ◌≤◌, ◌<◌, ◌^◌, length, min, IfSome, OnOk, OnErr};
ghost use Rattle.nc_outside.specs.Cause.{HasDiskCause};
ghost use Rattle.nc_outside.specs.Told.{after, with_end, BothTold};
ghost use Rattle.redef_laws.specs.Shifted.{new_end};
ghost use Rattle.redef_mover.specs.Carried.{carried, carry_calls, rewrite_calls, rewritten, IsCarriable, IsPartlyCarried, IsPartlyRewritten};
ghost use Rattle.redef_mover.specs.Moves.{listed, AreListed, AreSpaced};

use crate::gaps::{Zeros, clear_gaps};
use crate::moving::move_all;
use crate::slabs::Slabs;
use cdf_header::encode;
use nc_base::{Header, StepErr};
use nc_outside::{Disk, grow_to};
use std::alloc::Global;
use var_layout::end_of;

/// Makes the file longer where it is too short, moves the slabs, writes zeros between them, and the new header last.
///
/// Its memory is taken before the file is changed: the written header, two lists of slabs, and one window of at most `size` bytes.
/// Refused, it may leave some of the bytes moved, and none but those.
pub(crate) fn carry<D: Disk>(
    alloc: Global,
    disk: &mut D,
    old: &Header,
    new: &Header,
    size: u64,
) -> Result<(), StepErr>
    requires carriable { IsCarriable old.now new.now }
    requires from { D.from disk.old ≡ 0 }
    requires some { 1 ≤ size }
    requires most { size ≤ 2 ^ 25 }
    ensures bytes { OnOk result (D.held disk.new ≡ after (carried old.now new.now) (D.held disk.old)) }
    ensures refused { OnErr result (BothTold (IsPartlyCarried old.now new.now) (D.held disk.old) (D.held disk.new)) }
    ensures calls { OnOk result (IfSome (D.held disk.old) (λ file. D.calls disk.new ≡ with_end (D.calls disk.old) (carry_calls size old.now new.now file))) }
    ensures from { OnOk result (D.from disk.new ≡ 0) }
    ensures len { OnOk result (new_end old.now new.now ≤ D.len disk.new) }
    ensures cause { HasDiskCause (D.faults disk.old) (D.faults disk.new) result }
{
    let end = end_of(new, old.records);
    let slabs = Slabs::new(alloc, old, new)?;
    let head = encode(alloc, new)?;
    let mut buf = vec![in alloc; 0; size.min(end) as usize]?;
    let layout = NewLayout {
        slabs: &slabs,
        head: head.as_slice(),
        end,
    };
    rewrite(alloc, disk, &layout, size, &mut buf)
}

// What a file becomes: its slabs at their new places, the bytes of the head at its front, and an end that it reaches at least.
#[derive(Clone, Copy, Drop)]
struct NewLayout<'a> {
    slabs: &'a Slabs,
    head: &'a [u8],
    end: u64,
}

// Makes the file as long as its new end, moves the slabs, writes zeros between them, and the bytes of the head last. It takes no memory for
// itself.
fn rewrite<D: Disk>(
    alloc: Global,
    disk: &mut D,
    layout: &NewLayout,
    size: u64,
    buf: &mut [u8],
) -> Result<(), StepErr>
    requires from { D.from disk.old ≡ 0 }
    requires slabs { AreListed layout.now.end size (length buf.old) layout.now.slabs.now }
    requires spaced { AreSpaced (length layout.now.head.now) layout.now.end (listed layout.now.slabs.now) }
    requires below { layout.now.end < 2 ^ 62 }
    requires some { 1 ≤ size }
    requires room { min size layout.now.end ≤ length buf.old }
    ensures bytes { OnOk result (D.held disk.new ≡ after (rewritten (listed layout.now.slabs.now) layout.now.head.now layout.now.end) (D.held disk.old)) }
    ensures refused { OnErr result (BothTold (IsPartlyRewritten (listed layout.now.slabs.now) layout.now.head.now layout.now.end) (D.held disk.old) (D.held disk.new)) }
    ensures calls { OnOk result (IfSome (D.held disk.old) (λ file. D.calls disk.new ≡ with_end (D.calls disk.old) (rewrite_calls size (listed layout.now.slabs.now) (length layout.now.head.now) layout.now.end file))) }
    ensures from { D.from disk.new ≡ 0 }
    ensures len { OnOk result (layout.now.end ≤ D.len disk.new) }
    ensures cause { HasDiskCause (D.faults disk.old) (D.faults disk.new) result }
{
    let NewLayout { slabs, head, end } = *layout;
    grow_to(alloc, disk, end)?;
    move_all(alloc, disk, slabs, size, buf)?;
    buf.fill(0);
    let zeros = Zeros {
        bytes: buf,
        window: size,
    };
    clear_gaps(alloc, disk, slabs, head.len() as u64, end, zeros)?;
    disk.write_at(alloc, 0, head)
}
