// The header with what a script adds to it.
ghost use Rattle.std.specs.Prelude.{◌≡◌, ◌⊎◌, Some, true, IfOk, IfErr};
ghost use Rattle.std.specs.List.{list_all};
ghost use Rattle.nc_base.specs.declared.errors.RedefErr.TheVariants as fault;
ghost use Rattle.serial_spec.specs.Lawful.{is_lawful_extra, is_whole_extra};
ghost use Rattle.serial_spec.specs.Redefinition.{redefined_fault};
ghost use Rattle.serial_spec.specs.SoundHeaders.{is_redefinable};
ghost use Rattle.redef_laws.specs.Applied.{IsApplied};

use crate::begins::set_begins;
use crate::extras::add_extras;
use crate::layout_faults::{check_begins, check_sizes};
use crate::new_begins::place_all;
use nc_base::{ExtraList, Header, RedefErr};
use std::alloc::Global;

/// The header with the extras behind what is there, and with its new begins: what can stay stays, and all else moves up.
///
/// Refused is the first extra, from the front, that can't be added; then a variable or a header that is too large, and, in the
/// order of placing, a begin out of range. This order and the begins are this project's own.
///
/// Each name in an extra is found by an index of the header's names, and the fixed variables are sorted once.
pub fn apply(alloc: Global, header: &Header, extra: &ExtraList) -> Result<Header, RedefErr>
    requires redefinable { is_redefinable header.now ≡ true }
    requires lawful { list_all is_lawful_extra extra.now ≡ true }
    requires whole { list_all is_whole_extra extra.now ≡ true }
    ensures applied { IfOk result (λ new. IsApplied header.now extra.now new) }
    ensures refused { IfErr result (λ e. (e ≡ fault.Memory) ⊎ (redefined_fault header.now extra.now ≡ Some e)) }
{
    let mut new = add_extras(alloc, header, extra)?;
    let len = check_sizes(&new)?;
    let places = place_all(alloc, &new, header.vars.len(), len)?;
    set_begins(&mut new, places.as_slice());
    check_begins(alloc, &new, places.as_slice())?;
    Ok(new)
}
