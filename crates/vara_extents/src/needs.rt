// What a region needs of memory and of the file.
ghost use Rattle.std.specs.Prelude.{◌≡◌, ◌+◌, ◌-◌, ◌*◌, ◌<◌, ◌≤◌, ◌^◌, nat_le, false, length, slice_get, slice_index, IfSome, Some};
ghost use Rattle.std.specs.Option.{option_copied};
ghost use Rattle.serial_spec.specs.Layout as layout;
ghost use Rattle.serial_spec.specs.Limits as limits;
ghost use Rattle.serial_spec.specs.RankSide.{wanted};
ghost use Rattle.serial_spec.specs.RegionCheck as spec;
ghost use Rattle.serial_spec.specs.Records.{records_of};
ghost use Rattle.var_layout.specs.Capped.{capped};
ghost use Rattle.var_layout.specs.Measures.{AreMeasures};
ghost use Rattle.vara_extents.specs.Accepted.{IsAccepted};

use crate::causes::last_of;
use nc_base::{FILE_LIMIT, Header, MAX_ELEMENTS, MAX_REACH, Post, Region, Var};
use type_external::{element_count, size_of};
use var_layout::{Measures, capped, is_record, record_limit};

/// The place of the last element in memory, or 2^62 where it is farther.
fn last_position(counts: &[u64], imap: &[u64]) -> u64
    requires { length imap.now ≡ length counts.now }
    ensures { result ≡ capped (spec.last_position counts.now imap.now) }
{
    let mut position = 0;
    for (k, count) in counts.iter().enumerate() {
        position = capped::sum(position, capped::product(count.saturating_sub(1), imap[k]));
    }
    position
}

/// The first number of a list, or 0.
fn first(list: &[u64]) -> u64
    ensures { result ≡ slice_index list.now 0 }
{
    match list {
        [] => 0,
        [first, ..] => *first,
    }
}

/// The last record of the region plus one, or 2^62 where it is more; 0 for a fixed variable or no element.
fn records(header: &Header, var: &Var, region: &Region) -> u64
    ensures { result ≡ capped (records_of header.now var.now region.now) }
{
    if !is_record(header, var) || element_count(region.count.as_slice()) == 0 {
        return 0;
    }
    let start = first(region.start.as_slice());
    let count = first(region.count.as_slice());
    let stride = first(region.stride.as_slice());
    capped::cap(last_of(start, count, stride).saturating_add(1))
}

/// Whether a region has too many elements, reaches too far in memory, or needs too many records or too long a file.
pub(crate) fn asks_too_much(
    header: &Header,
    measures: &Measures,
    var: &Var,
    region: &Region,
) -> bool
    requires measured { AreMeasures header.now measures.now }
    requires shape { spec.other_shape (length var.now.dims) region.now ≡ false }
    ensures { result ≡ spec.asks_too_much header.now var.now region.now }
{
    let elements = element_count(region.count.as_slice());
    if elements > MAX_ELEMENTS {
        return true;
    }
    if !region.packed && elements > 0 && reaches_too_far(region) {
        return true;
    }
    let records = records(header, var, region);
    if records >= record_limit(header.version) {
        return true;
    }
    measures.file_end(header, records) >= FILE_LIMIT
}

fn reaches_too_far(region: &Region) -> bool
    requires { length region.now.imap ≡ length region.now.count }
    ensures { result ≡ (nat_le limits.most_elements (spec.last_position region.now.count region.now.imap)) }
{
    last_position(region.count.as_slice(), region.imap.as_slice()) >= MAX_REACH
}

/// The last record of the region plus one: what a put needs of the record count. 0 for a fixed variable or no element.
pub fn records_needed(header: &Header, var: usize, region: &Region) -> u64
    requires accepted { IsAccepted header.now var region.now }
    ensures { IfSome (slice_get header.now.vars var) (λ v. result ≡ records_of header.now v region.now) }
{
    match variable(header, var) {
        None => 0,
        Some(var) => records(header, var, region),
    }
}

/// How many bytes the elements of a request take.
pub fn bytes_wanted(header: &Header, post: &Post) -> u64
    requires { IsAccepted header.now post.now.var post.now.region }
    ensures { result ≡ wanted header.now post.now }
{
    match variable(header, post.var as usize) {
        None => 0,
        Some(var) => element_count(post.region.count.as_slice()) * size_of(var.kind),
    }
}

/// The variable at this place of the header's list.
pub fn variable(header: &Header, var: usize) -> Option<&Var>
    ensures { option_copied result ≡ slice_get header.now.vars var }
{
    header.vars.as_slice().get(var)
}
