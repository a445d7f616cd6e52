// The fill values of a dataset that is created.
ghost use Rattle.std.specs.Prelude.{◌≡◌, ◌≤◌, ◌<◌, ◌++◌, true, length, slice_get, IfSome, OnOk};
ghost use Rattle.serial_spec.specs.SoundHeaders.{is_sound};
ghost use Rattle.fill_records.specs.Filling.{fill_stores, variable_stores};

use crate::stores::push_stores;
use nc_base::{DiskCall, Header, Memory};
use var_layout::{is_record, slab};

/// The writes that fill the fixed variables, in order of definition.
pub(crate) fn push_fills(
    calls: &mut Vec<DiskCall>,
    header: &Header,
    window: u64,
) -> Result<(), Memory>
    requires sound { is_sound header.now ≡ true }
    requires some { 1 ≤ window }
    ensures { OnOk result (calls.new.items ≡ calls.old.items ++ fill_stores window header.now) }
{
    for number in 0..header.vars.len() {
        push_fill(calls, header, number, window)?;
    }
    Ok(())
}

// The writes that fill a variable, if it is fixed.
fn push_fill(
    calls: &mut Vec<DiskCall>,
    header: &Header,
    number: usize,
    window: u64,
) -> Result<(), Memory>
    requires sound { is_sound header.now ≡ true }
    requires there { number < length header.now.vars }
    requires some { 1 ≤ window }
    ensures { OnOk result (IfSome (slice_get header.now.vars number) (λ v. calls.new.items ≡ calls.old.items ++ variable_stores window header.now v)) }
{
    let var = &header.vars.as_slice()[number];
    if is_record(header, var) {
        return Ok(());
    }
    push_stores(calls, var.begin, slab(header, number), window)
}
