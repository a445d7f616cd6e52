// The filling of a rank's share of a record.
ghost use Rattle.std.specs.Prelude.{◌≡◌, ◌-◌, ◌<◌, ◌≤◌, ◌^◌, ◌∷◌, ◌||◌, nat_lt, true, map, flat_map, IfOk};
ghost use Rattle.std.specs.List.{range_with_len, AllByRecursion};
ghost use Rattle.serial_spec.specs.Fill as fill;
ghost use Rattle.serial_spec.specs.Layout as layout;
ghost use Rattle.serial_spec.specs.Layout.{product};
ghost use Rattle.serial_spec.specs.Limits as limits;
ghost use Rattle.serial_spec.specs.Looks as looks;
ghost use Rattle.var_layout.specs.Measures.{AreMeasures};
ghost use Rattle.rank_core.specs.Looked.{ComesTo};
ghost use Rattle.rank_core.specs.Targets as targets;
ghost use Rattle.rank_core.specs.Targets.{IsSmall};

use super::target::Target;
use fill_records::{boxes, fill_value, share};
use nc_base::{
    Blob, CallErr, Code, FILE_LIMIT, Header, MAX_ELEMENTS, Memory, Part, Post, PostList, Region,
    SizeList, Var,
};
use std::alloc::Global;
use type_external::{element_count, size_of};
use var_layout::{Measures, is_record, length_of, record_limit, slab};

pub(super) fn look_record(
    alloc: Global,
    target: &Target,
    number: u64,
    rank: u32,
    ranks: u32,
) -> Result<PostList, CallErr>
    requires rank { rank < ranks }
    requires ranks { ranks ≤ 64 }
    ensures { ComesTo (targets.look_record target.now number rank ranks) result }
{
    if !is_record(target.header, target.var) {
        return Err(CallErr::Code(Code::ENotRec));
    }
    let (from, to) = share(record_elements(target), rank, ranks);
    if is_too_large(target.header, target.measures, number, to - from) {
        return Err(CallErr::Code(Code::ETooLarge));
    }
    Ok(fill_posts(alloc, target, number, from, to)?)
}

/// The posts that fill the elements of a record from one to another.
fn fill_posts(
    alloc: Global,
    target: &Target,
    number: u64,
    from: u64,
    to: u64,
) -> Result<PostList, Memory>
    requires varies { layout.is_record target.now.header.now target.now.var.now ≡ true }
    requires rise { from ≤ to }
    requires within { to ≤ product (layout.inner_lengths target.now.header.now target.now.var.now) }
    requires small { product (layout.inner_lengths target.now.header.now target.now.var.now) < 2 ^ 62 }
    requires few { to - from ≤ limits.most_elements }
    ensures { IfOk result (λ posts. posts ≡ targets.fill_posts target.now number from to) }
{
    let lengths = inner_lengths(alloc, target.header, target.var)?;
    let parts = boxes(alloc, &lengths, from, to)?;
    box_posts(alloc, target, number, parts.as_slice())
}

/// How many elements a record of the variable has, or a fixed variable.
fn record_elements(target: &Target) -> u64
    ensures elements { result ≡ product (layout.inner_lengths target.now.header.now target.now.var.now) }
    ensures small { result < 2 ^ 62 }
{
    slab(target.header, target.place as usize) / size_of(target.var.kind)
}

/// The lengths of a record variable's dimensions but the first.
fn inner_lengths(alloc: Global, header: &Header, var: &Var) -> Result<SizeList, Memory>
    requires record { layout.is_record header.now var.now ≡ true }
    ensures { IfOk result (λ lengths. lengths ≡ layout.inner_lengths header.now var.now) }
{
    match var.dims.as_slice() {
        [] => Ok(SizeList::new(alloc)),
        [_, ids @ ..] => lengths_of(alloc, header, ids),
    }
}

fn lengths_of(alloc: Global, header: &Header, ids: &[u32]) -> Result<SizeList, Memory>
    ensures { IfOk result (λ lengths. lengths ≡ layout.lengths_of header.now ids.now) }
{
    let mut lengths = Vec::with_capacity(alloc, ids.len())?;
    for id in ids {
        lengths.push(length_of(header, *id))?;
    }
    Ok(SizeList::from_vec(lengths))
}

/// Whether a share has more elements than one request may have, or its record lies past a limit.
fn is_too_large(header: &Header, measures: &Measures, number: u64, elements: u64) -> bool
    requires measured { AreMeasures header.now measures.now }
    ensures { result ≡ (nat_lt limits.most_elements elements || looks.is_record_past header.now number) }
{
    elements > MAX_ELEMENTS || is_record_past(header, measures, number)
}

/// Whether a record count or the file's end passes its limit where the file has this record.
fn is_record_past(header: &Header, measures: &Measures, number: u64) -> bool
    requires measured { AreMeasures header.now measures.now }
    ensures { result ≡ looks.is_record_past header.now number }
{
    if number >= record_limit(header.version) - 1 {
        return true;
    }
    measures.file_end(header, number + 1) >= FILE_LIMIT
}

/// One post for each box, with the fill value as every element.
fn box_posts(
    alloc: Global,
    target: &Target,
    number: u64,
    parts: &[Part],
) -> Result<PostList, Memory>
    requires few { AllByRecursion IsSmall parts.now }
    ensures { IfOk result (λ posts. posts ≡ map (looks.box_post target.now.place target.now.var.now number) parts.now) }
{
    let mut posts = PostList::with_capacity(alloc, parts.len())?;
    for part in parts {
        posts.push(box_post(alloc, target, number, part)?)?;
    }
    Ok(posts)
}

fn box_post(alloc: Global, target: &Target, number: u64, part: &Part) -> Result<Post, Memory>
    requires few { IsSmall part.now }
    ensures { IfOk result (λ post. post ≡ looks.box_post target.now.place target.now.var.now number part.now) }
{
    let elements = element_count(part.count.as_slice());
    Ok(Post {
        id: 0,
        var: target.place,
        region: box_region(alloc, number, part)?,
        bytes: fill_bytes(alloc, target, elements)?,
    })
}

/// A box of one record as a region of the variable.
fn box_region(alloc: Global, number: u64, part: &Part) -> Result<Region, Memory>
    ensures { IfOk result (λ region. region ≡ looks.box_region number part.now) }
{
    Ok(Region {
        start: after(alloc, number, part.start.as_slice())?,
        count: after(alloc, 1, part.count.as_slice())?,
        stride: SizeList::from_vec(vec![in alloc; 1; part.count.len() + 1]?),
        imap: SizeList::new(alloc),
        packed: true,
    })
}

/// The list of a first number and others.
fn after(alloc: Global, first: u64, others: &[u64]) -> Result<SizeList, Memory>
    ensures { IfOk result (λ list. list ≡ first ∷ others.now) }
{
    let mut list = Vec::new(alloc);
    list.push(first)?;
    list.extend_from_slice(others)?;
    Ok(SizeList::from_vec(list))
}

/// The fill value of the variable, so many times.
fn fill_bytes(alloc: Global, target: &Target, count: u64) -> Result<Blob, Memory>
    ensures { IfOk result (λ bytes. bytes ≡ flat_map (λ m. fill.fill_bytes target.now.var.now) (range_with_len 0 count)) }
{
    let mut form = [0; 8];
    let value = &mut form[..size_of(target.var.kind) as usize];
    fill_value(target.header, target.place as usize, value);
    repeated(alloc, value, count)
}

fn repeated(alloc: Global, value: &[u8], count: u64) -> Result<Blob, Memory>
    ensures { IfOk result (λ bytes. bytes ≡ flat_map (λ m. value.now) (range_with_len 0 count)) }
{
    let mut bytes = Vec::with_capacity(alloc, value.len().saturating_mul(count as usize))?;
    for _number in 0..count {
        bytes.extend_from_slice(value)?;
    }
    Ok(Blob::from_vec(bytes))
}
