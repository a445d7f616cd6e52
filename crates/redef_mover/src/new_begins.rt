// The new begins of all variables, in the order in which they are placed.
ghost use Rattle.std.specs.Prelude.{◌≡◌, ◌+◌, ◌-◌, ◌++◌, ◌^◌, ◌≤◌, ◌&&◌, ℕ, List, Some, map, min, not, sum_by, unwrap_or, MatchOption, OnOk, IfOk};
ghost use Rattle.nc_base.specs.declared.header.Header.{Header};
ghost use Rattle.nc_base.specs.declared.header.Var.{Var};
ghost use Rattle.serial_spec.specs.HeaderBytes.{header_len};
ghost use Rattle.serial_spec.specs.Layout as layout;
ghost use Rattle.serial_spec.specs.Redefinition.{Numbered};
ghost use Rattle.serial_spec.specs.Redefinition as spec;
ghost use Rattle.serial_spec.specs.SharedByte.{least};
ghost use Rattle.var_layout.specs.Capped.{capped};
ghost use Rattle.redef_mover.specs.declared.new_begins.Side.TheVariants.{Old, New};
ghost use Rattle.redef_mover.specs.NewBegins.{pairs, capped_pairs, fixed_var, record_var, in_order, on_side, fixed_at, records_at};

use nc_base::{FILE_LIMIT, Header, Items, Memory, Var};
use std::alloc::Global;
use var_layout::{capped, is_record, slab_of, vsize_of};

/// A variable: its place in the header's list, its begin so far, and its bytes, of a record variable those of one record.
#[derive(Drop)]
pub(crate) struct NumberedVar {
    pub(crate) number: usize,
    pub(crate) begin: u64,
    pub(crate) len: u64,
}

/// The new begin of the variable with this place in the header's list, or 2^62 where it is more.
#[derive(Drop)]
pub(crate) struct Place {
    pub(crate) number: usize,
    pub(crate) begin: u64,
}

/// Which variables of a header: the first ones, which were there before, or those behind them.
#[derive(Clone, Copy)]
pub(crate) enum Side {
    Old,
    New,
}

/// Whether the number is on this side, where the first `n` variables are old.
fn is_on_side(side: Side, n: usize, number: usize) -> bool
    ensures { (v : Var) → result ≡ on_side n side (number, v) }
{
    match side {
        Side::Old => number < n,
        Side::New => n <= number,
    }
}

/// Whether the variable is fixed, and on this side.
fn is_fixed_at(header: &Header, number: usize, var: &Var, n: usize, side: Side) -> bool
    ensures { result ≡ (not (layout.is_record header.now var.now) && on_side n side (number, var.now)) }
{
    !is_record(header, var) && is_on_side(side, n, number)
}

/// Whether the variable is a record variable, and on this side.
fn is_record_at(header: &Header, number: usize, var: &Var, n: usize, side: Side) -> bool
    ensures { result ≡ (layout.is_record header.now var.now && on_side n side (number, var.now)) }
{
    is_record(header, var) && is_on_side(side, n, number)
}

/// Adds the fixed variables of one side.
fn push_fixed(
    order: &mut Items<NumberedVar>,
    header: &Header,
    n: usize,
    side: Side,
) -> Result<(), Memory>
    ensures { OnOk result (order.new ≡ order.old ++ map (fixed_var header.now) (fixed_at header.now n side)) }
{
    for (number, var) in header.vars.as_slice().iter().enumerate() {
        if is_fixed_at(header, number, var, n, side) {
            order.push(NumberedVar {
                number,
                begin: var.begin,
                len: slab_of(header, var),
            })?;
        }
    }
    Ok(())
}

/// Adds the old record variables.
fn push_records(order: &mut Items<NumberedVar>, header: &Header, n: usize) -> Result<(), Memory>
    ensures { OnOk result (order.new ≡ order.old ++ map (record_var header.now) (records_at header.now n Old)) }
{
    for (number, var) in header.vars.as_slice().iter().enumerate() {
        if is_record_at(header, number, var, n, Side::Old) {
            order.push(NumberedVar {
                number,
                begin: var.begin,
                len: vsize_of(header, var),
            })?;
        }
    }
    Ok(())
}

/// Sorts variables by their begins, the lowest first; those of one begin stay as they stood.
fn sort_by_begin(alloc: Global, vars: &mut [NumberedVar]) -> Result<(), Memory>
    ensures { OnOk result (vars.new ≡ in_order vars.old) }
{
    vars.sort_by_key(alloc, |var: &NumberedVar| var.begin)?;
    Ok(())
}

/// The fixed variables as they are placed: the old ones by their begins, then the new ones, where the first `n` variables are old.
fn fixed_order(alloc: Global, header: &Header, n: usize) -> Result<Items<NumberedVar>, Memory>
    ensures { IfOk result (λ order. order ≡ map (fixed_var header.now) (spec.fixed_order header.now n)) }
{
    let mut order = Items::new(alloc);
    push_fixed(&mut order, header, n, Side::Old)?;
    sort_by_begin(alloc, order.as_mut_slice())?;
    push_fixed(&mut order, header, n, Side::New)?;
    Ok(order)
}

/// The old record variables as they are placed: by their begins.
fn record_order(alloc: Global, header: &Header, n: usize) -> Result<Items<NumberedVar>, Memory>
    ensures { IfOk result (λ order. order ≡ map (record_var header.now) (spec.by_begin (records_at header.now n Old))) }
{
    let mut order = Items::new(alloc);
    push_records(&mut order, header, n)?;
    sort_by_begin(alloc, order.as_mut_slice())?;
    Ok(order)
}

/// Where a variable begins that began at `begin`: there, if the front has not passed it.
fn begin_at(front: u64, begin: u64) -> u64
    requires { front ≤ 2 ^ 62 }
    ensures { (n : ℕ) → front ≡ capped n → result ≡ capped (spec.first_record n (Some begin)) }
{
    if front <= begin {
        begin.min(FILE_LIMIT)
    } else {
        capped::padded(front)
    }
}

/// Places the fixed variables in this order, from `first` on, and tells where they end.
fn place_fixed(places: &mut Items<Place>, order: &[NumberedVar], first: u64) -> Result<u64, Memory>
    requires { first ≤ 2 ^ 62 }
    ensures small { IfOk result (λ end. end ≤ 2 ^ 62) }
    ensures placed { IfOk result (λ end. (header : Header) (vars : List Numbered) (n : ℕ) → order.now ≡ map (fixed_var header) vars → first ≡ capped n
        → (pairs places.new ≡ pairs places.old ++ capped_pairs (spec.fixed_begins header n vars)) × (end ≡ capped (spec.front_after header n vars))) }
{
    let mut front = first;
    for var in order {
        let begin = begin_at(front, var.begin);
        places.push(Place {
            number: var.number,
            begin,
        })?;
        front = capped::sum(begin, var.len);
    }
    Ok(front)
}

/// The lesser of a begin and of another, if there is one.
fn lesser(other: Option<u64>, begin: u64) -> u64
    ensures { MatchOption other (result ≡ begin) (λ n. result ≡ min n begin) }
{
    match other {
        None => begin,
        Some(other) => other.min(begin),
    }
}

/// The least begin of the old record variables.
fn least_begin(header: &Header, n: usize) -> Option<u64>
    ensures { result ≡ least (map (λ v. v.1.begin) (records_at header.now n Old)) }
{
    let mut least = None;
    for (number, var) in header.vars.as_slice().iter().enumerate() {
        if is_record_at(header, number, var, n, Side::Old) {
            least = Some(lesser(least, var.begin));
        }
    }
    least
}

/// Where the records begin: at the least old begin, if the front has not passed it.
fn first_record(front: u64, least: Option<u64>) -> u64
    requires { front ≤ 2 ^ 62 }
    ensures { (n : ℕ) → front ≡ capped n → result ≡ capped (spec.first_record n least) }
{
    match least {
        None => capped::padded(front),
        Some(begin) => begin_at(front, begin),
    }
}

/// Places old record variables in this order, as far behind `first` as they began behind `least`, and tells where the new ones begin.
fn place_old_records(
    places: &mut Items<Place>,
    order: &[NumberedVar],
    first: u64,
    least: u64,
) -> Result<u64, Memory>
    ensures { IfOk result (λ end. (header : Header) (vars : List Numbered) (m : ℕ) → order.now ≡ map (record_var header) vars → first ≡ capped m
        → (pairs places.new ≡ pairs places.old ++ capped_pairs (map (λ v. (v.0, m + (v.1.begin - least))) vars))
        × (end ≡ capped (m + sum_by (λ v. layout.vsize header v.1) vars))) }
{
    let mut end = first;
    for var in order {
        let begin = capped::sum(first, var.begin.saturating_sub(least));
        places.push(Place {
            number: var.number,
            begin,
        })?;
        end = capped::sum(end, var.len);
    }
    Ok(end)
}

/// Places the new record variables one behind another, from `first` on.
fn place_new_records(
    places: &mut Items<Place>,
    header: &Header,
    n: usize,
    first: u64,
) -> Result<(), Memory>
    ensures { OnOk result ((m : ℕ) → first ≡ capped m → pairs places.new ≡ pairs places.old ++ capped_pairs (spec.record_begins header.now m (records_at header.now n New))) }
{
    let mut begin = first;
    for (number, var) in header.vars.as_slice().iter().enumerate() {
        if is_record_at(header, number, var, n, Side::New) {
            places.push(Place { number, begin })?;
            begin = capped::sum(begin, vsize_of(header, var));
        }
    }
    Ok(())
}

/// The begins of all variables in the order of placing, where the first `n` were there before and the header has `len` bytes.
pub(crate) fn place_all(
    alloc: Global,
    header: &Header,
    n: usize,
    len: u64,
) -> Result<Items<Place>, Memory>
    requires { len ≡ capped (header_len header.now) }
    ensures { IfOk result (λ places. pairs places ≡ capped_pairs (spec.begins_by_number header.now n)) }
{
    let fixed = fixed_order(alloc, header, n)?;
    let records = record_order(alloc, header, n)?;
    let mut places = Items::with_capacity(alloc, header.vars.len())?;
    let front = place_fixed(&mut places, fixed.as_slice(), len)?;
    let least = least_begin(header, n);
    let first = first_record(front, least);
    let end = place_old_records(&mut places, records.as_slice(), first, least.unwrap_or(0))?;
    place_new_records(&mut places, header, n, end)?;
    Ok(places)
}
