// The puts of a step.
ghost use Rattle.std.specs.Prelude.{◌≡◌, ◌<◌, ◌^◌, ℕ, List, fold, true, None, IfOk, OnOk};
ghost use Rattle.nc_base.specs.declared.plan.Post.{Post};
ghost use Rattle.overlay_laws.specs.Entries.{In};
ghost use Rattle.serial_spec.specs.FileStep as step;
ghost use Rattle.serial_spec.specs.FileStep.{put_post, Setting};
ghost use Rattle.serial_spec.specs.HeaderBytes.{header_len};
ghost use Rattle.serial_spec.specs.SoundHeaders.{is_sound};
ghost use Rattle.serial_spec.specs.Layout as layout;
ghost use Rattle.serial_spec.specs.Records as spec;
ghost use Rattle.vara_extents.specs.Accepted.{IsAccepted};
ghost use Rattle.reference.specs.Requests.{setting, IsPut};

use crate::bytes::lengthen;
use crate::elements::put;
use crate::pairs::shared_pair;
use nc_base::{Header, Memory, OverlapRule, Pair, Post};
use std::alloc::Global;
use var_layout::end_of;
use vara_extents::records_needed;

/// The record count that the puts need.
pub fn needed_by(header: &Header, puts: &[(u32, Post)]) -> u64
    requires accepted { (p : ℕ × Post) → In puts.now p → IsAccepted header.now p.1.var p.1.region }
    ensures { result ≡ spec.needed_by header.now puts.now }
{
    let mut needed: u64 = 0;
    for put in puts {
        needed = needed.max(records_needed(header, put.1.var as usize, &put.1.region));
    }
    needed
}

/// The pair that every rank is told, if two puts share a byte and that is refused.
pub fn told(
    alloc: Global,
    header: &Header,
    overlap: OverlapRule,
    puts: &[(u32, Post)],
) -> Result<Option<Pair>, Memory>
    requires sound { is_sound header.now ≡ true }
    requires accepted { (p : ℕ × Post) → In puts.now p → IsAccepted header.now p.1.var p.1.region }
    ensures { IfOk result (λ pair. pair ≡ step.told (setting header.now overlap) puts.now) }
{
    match overlap {
        OverlapRule::Serial => Ok(None),
        OverlapRule::Refuse => shared_pair(alloc, header, puts),
    }
}

/// Does the puts one after another, on the file as long as they need it.
pub fn after_puts(
    alloc: Global,
    header: &Header,
    puts: &[(u32, Post)],
    file: &mut Vec<u8>,
) -> Result<(), Memory>
    requires sound { is_sound header.now ≡ true }
    requires right { (p : ℕ × Post) → In puts.now p → IsPut header.now p.1 }
    ensures { OnOk result ((s : Setting) → s.header ≡ header.now → file.new.items ≡ step.after_puts s puts.now None file.old.items) }
{
    let needed = needed_by(header, puts);
    lengthen(file, end_of(header, needed))?;
    write_all(alloc, header, puts, file)?;
    Ok(())
}

fn write_all(
    alloc: Global,
    header: &Header,
    puts: &[(u32, Post)],
    file: &mut Vec<u8>,
) -> Result<(), Memory>
    requires sound { is_sound header.now ≡ true }
    requires right { (p : ℕ × Post) → In puts.now p → IsPut header.now p.1 }
    ensures { OnOk result ((s : Setting) → s.header ≡ header.now → file.new.items ≡ fold (put_post s) file.old.items puts.now) }
{
    for one in puts {
        put(alloc, header, &one.1, file)?;
    }
    Ok(())
}
