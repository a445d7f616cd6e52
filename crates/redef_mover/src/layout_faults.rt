// Sizes and begins that a header can't have.
ghost use Rattle.std.specs.Prelude.{◌≡◌, ◌⊎◌, ℕ, Some, None, map, find, option_map, length, IfOk, IfErr, OnOk, ◌==◌};
ghost use Rattle.std.specs.List.{enumerate_from};
ghost use Rattle.std.specs.Result.{result_err};
ghost use Rattle.nc_base.specs.declared.errors.LayoutErr.TheVariants as layout_fault;
ghost use Rattle.nc_base.specs.declared.errors.RedefErr.TheVariants as fault;
ghost use Rattle.serial_spec.specs.HeaderBytes as header_bytes;
ghost use Rattle.serial_spec.specs.Layout as layout;
ghost use Rattle.serial_spec.specs.Redefinition.{size_fault, is_bad_begin, is_far_begin};
ghost use Rattle.var_layout.specs.Capped.{capped};
ghost use Rattle.redef_mover.specs.NewBegins.{pairs, HasOneEach};
ghost use Rattle.redef_mover.specs.Ranges.{is_bad, is_bad_var};

use crate::new_begins::Place;
use nc_base::{Header, Items, LayoutErr, MAX_HEADER_BYTES, Memory, RedefErr, Var};
use std::alloc::Global;
use var_layout::{capped, first_large, header_len, is_lone, keeps_bound, record_share, recsize_of};

/// A begin of CDF-1 is below this.
const CLASSIC_BEGIN_LIMIT: u64 = 1 << 31;

/// The length of the header; refuses a variable or a header that is too large.
pub(crate) fn check_sizes(header: &Header) -> Result<u64, RedefErr>
    ensures fault { result_err result ≡ option_map (λ e. fault.Layout e) (size_fault header.now) }
    ensures len { IfOk result (λ len. len ≡ capped (header_bytes.header_len header.now)) }
{
    if let Some(k) = first_large(header) {
        return Err(RedefErr::Layout(LayoutErr::VarSize(k)));
    }
    let len = header_len(header);
    if MAX_HEADER_BYTES < len {
        Err(RedefErr::Layout(LayoutErr::HeaderRange))
    } else {
        Ok(len)
    }
}

/// Whether the version can't store the variable's begin.
fn is_far(header: &Header, var: &Var) -> bool
    ensures { result ≡ is_far_begin header.now var.now }
{
    header.version == 1 && CLASSIC_BEGIN_LIMIT <= var.begin
}

/// Whether the variable's begin is out of range, where the variables before it add `before` to a record.
fn is_out_of_range(header: &Header, lone: bool, size: u64, before: u64, var: &Var) -> bool
    requires lone { lone ≡ (length (layout.record_slabs header.now) == 1) }
    requires size { size ≡ capped (layout.recsize header.now) }
    ensures { (n : ℕ) → before ≡ capped n → result ≡ is_bad header.now n var.now }
{
    is_far(header, var) || !keeps_bound(header, lone, size, before, var)
}

/// Whether each variable's begin is out of range.
fn out_of_range(alloc: Global, header: &Header) -> Result<Items<bool>, Memory>
    ensures { IfOk result (λ bad. bad ≡ map (λ v. is_bad_var header.now v.0 v.1) (enumerate_from 0 header.now.vars)) }
{
    let lone = is_lone(header);
    let size = recsize_of(header);
    let mut bad = Items::with_capacity(alloc, header.vars.len())?;
    let mut before = 0;
    for var in header.vars.as_slice() {
        bad.push(is_out_of_range(header, lone, size, before, var))?;
        before = capped::sum(before, record_share(header, var));
    }
    Ok(bad)
}

/// Refuses the first begin, in the order of placing, that is out of range.
pub(crate) fn check_begins(alloc: Global, header: &Header, places: &[Place]) -> Result<(), RedefErr>
    requires { HasOneEach (length header.now.vars) (pairs places.now) }
    ensures fault { OnOk result (find (is_bad_begin header.now) (pairs places.now) ≡ None) }
    ensures refused { IfErr result (λ e. (e ≡ fault.Memory) ⊎ (option_map (λ b. fault.Layout (layout_fault.BeginRange b.0)) (find (is_bad_begin header.now) (pairs places.now)) ≡ Some e)) }
{
    let bad = out_of_range(alloc, header)?;
    for place in places {
        if bad.as_slice()[place.number] {
            return Err(RedefErr::Layout(LayoutErr::BeginRange(place.number)));
        }
    }
    Ok(())
}
