// What a form leaves out.
ghost use Rattle.std.specs.Prelude.{◌≡◌, ◌<◌, length, replicate, slice_get, IfOk, IfSome, if◌then◌else◌, ◌==◌, ℕ, List};
ghost use Rattle.serial_spec.specs.RegionCheck as spec;

use nc_base::{Form, Given, Header, Memory, Region, SizeList, Var};
use std::alloc::Global;
use var_layout::length_of;

/// The region of a call with nothing left out. `var1` has counts 1, `var` the whole variable with `known` records;
/// strides are 1 where the form has none. All forms but `varm` are packed, and have no index map.
pub fn widen(
    alloc: Global,
    header: &Header,
    var: usize,
    given: &Given,
    known: u64,
) -> Result<Region, Memory>
    requires there { var < length header.now.vars }
    ensures { IfOk result (λ region. IfSome (slice_get header.now.vars var) (λ v. region ≡ spec.widen header.now v given.now known)) }
{
    let var = &header.vars.as_slice()[var];
    region_of(alloc, header, var, given, known)
}

fn region_of(
    alloc: Global,
    header: &Header,
    var: &Var,
    given: &Given,
    known: u64,
) -> Result<Region, Memory>
    ensures { IfOk result (λ region. region ≡ spec.widen header.now var.now given.now known) }
{
    let dims = var.dims.len();
    Ok(Region {
        start: start_of(alloc, given, dims)?,
        count: count_of(alloc, header, var, given, known)?,
        stride: stride_of(alloc, given, dims)?,
        imap: imap_of(alloc, given)?,
        packed: is_packed(given),
    })
}

// The lists of a region, each by what the form says of it.

fn start_of(alloc: Global, given: &Given, dims: usize) -> Result<SizeList, Memory>
    ensures { (whole : List ℕ) → IfOk result (λ list. list ≡ (spec.region_of given.now.form dims whole given.now).start) }
{
    match given.form {
        Form::Var => repeated(alloc, 0, dims),
        Form::Var1 | Form::Vara | Form::Vars | Form::Varm => given.start.clone(alloc),
        Form::Varn => Ok(SizeList::new(alloc)),
    }
}

fn count_of(
    alloc: Global,
    header: &Header,
    var: &Var,
    given: &Given,
    known: u64,
) -> Result<SizeList, Memory>
    ensures { IfOk result (λ list. list ≡ (spec.widen header.now var.now given.now known).count) }
{
    match given.form {
        Form::Var1 => repeated(alloc, 1, var.dims.len()),
        Form::Var => known_lengths(alloc, header, var, known),
        Form::Vara | Form::Vars | Form::Varm => given.count.clone(alloc),
        Form::Varn => Ok(SizeList::new(alloc)),
    }
}

fn stride_of(alloc: Global, given: &Given, dims: usize) -> Result<SizeList, Memory>
    ensures { (whole : List ℕ) → IfOk result (λ list. list ≡ (spec.region_of given.now.form dims whole given.now).stride) }
{
    match given.form {
        Form::Var1 | Form::Var | Form::Vara => repeated(alloc, 1, dims),
        Form::Vars | Form::Varm => given.stride.clone(alloc),
        Form::Varn => Ok(SizeList::new(alloc)),
    }
}

fn imap_of(alloc: Global, given: &Given) -> Result<SizeList, Memory>
    ensures { (dims : ℕ) (whole : List ℕ) → IfOk result (λ list. list ≡ (spec.region_of given.now.form dims whole given.now).imap) }
{
    match given.form {
        Form::Varm => given.imap.clone(alloc),
        Form::Var1 | Form::Var | Form::Vara | Form::Vars | Form::Varn => Ok(SizeList::new(alloc)),
    }
}

fn is_packed(given: &Given) -> bool
    ensures { (dims : ℕ) (whole : List ℕ) → result ≡ (spec.region_of given.now.form dims whole given.now).packed }
{
    match given.form {
        Form::Varm => false,
        Form::Var1 | Form::Var | Form::Vara | Form::Vars | Form::Varn => true,
    }
}

pub(crate) fn repeated(alloc: Global, number: u64, count: usize) -> Result<SizeList, Memory>
    ensures { IfOk result (λ list. list ≡ replicate count number) }
{
    Ok(SizeList::from_vec(vec![in alloc; number; count]?))
}

/// The lengths of a variable's dimensions, the record dimension's being the known count.
fn known_lengths(alloc: Global, header: &Header, var: &Var, known: u64) -> Result<SizeList, Memory>
    ensures { IfOk result (λ list. list ≡ spec.known_lengths header.now var.now known) }
{
    let mut lengths = Vec::with_capacity(alloc, var.dims.len())?;
    for id in var.dims.as_slice() {
        lengths.push(known_length(length_of(header, *id), known))?;
    }
    Ok(SizeList::from_vec(lengths))
}

fn known_length(length: u64, known: u64) -> u64
    ensures { result ≡ (if length == 0 then known else length) }
{
    if length == 0 { known } else { length }
}
