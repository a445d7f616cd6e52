// Boxes that share an element.
ghost use Rattle.std.specs.Prelude.{◌≡◌, ◌+◌, ◌∷◌, filter, slice_get, unwrap_or};
ghost use Rattle.std.specs.Cmp.Lexicographic.{slice_cmp};
ghost use Rattle.std.specs.List.Sorted.{IsPermutation};
ghost use Rattle.std.specs.Ordering.{nat_cmp};
ghost use Rattle.serial_spec.specs.RegionCheck as spec;
ghost use Rattle.vara_extents.specs.Boxes.{begins_past, boxes_meet, is_past, led_by, meets_any, some_meet, AreByStart};

use nc_base::Region;
use std::cmp::Ordering;
use type_external::element_count;

/// Whether two regions of strides 1 share an element.
///
/// Of two that do, each begins at or before the last element of the other, in row-major order. So in the order of their first
/// elements each is compared only with those behind it that begin by its last one. Regions that lie within one another in that
/// order mostly lie in a row where another dimension goes before all, so the order is one that leaves few to compare.
pub(crate) fn some_meet(regions: Vec<Region>) -> bool
    ensures { result ≡ some_meet regions.items }
{
    let mut full = with_elements(regions);
    let axis = put_in_order(full.as_mut_slice());
    some_meet_in_order(full.as_slice(), axis)
}

/// Those that have an element.
fn with_elements(mut regions: Vec<Region>) -> Vec<Region>
    ensures { result.items ≡ filter spec.has_element regions.items }
{
    regions.retain(|region| has_element(region));
    regions
}

/// Sorts regions by their first elements in row-major order, and answers which axis goes before all dimensions in that.
fn put_in_order(regions: &mut [Region]) -> usize
    ensures permutation { IsPermutation regions.old regions.new }
    ensures in_order { AreByStart result regions.new }
{
    let axis = best_axis(regions);
    sort_by_start(regions, axis);
    axis
}

/// The axis that leaves the fewest regions to compare, or the first that leaves no more than there are regions.
fn best_axis(regions: &mut [Region]) -> usize
    ensures { IsPermutation regions.old regions.new }
{
    let mut best = 0;
    let mut fewest = usize::MAX;
    for axis in 0..dimension_count(regions) {
        if fewest <= regions.len() {
            return best;
        }
        sort_by_start(regions, axis);
        let compared = compared_along(regions, axis);
        if compared < fewest {
            fewest = compared;
            best = axis;
        }
    }
    best
}

/// How many dimensions the first region has.
fn dimension_count(regions: &[Region]) -> usize {
    match regions.first() {
        Some(region) => region.start.len(),
        None => 0,
    }
}

/// How many pairs of regions that stand in order are to be compared: each region and those behind it that begin by its last element.
fn compared_along(regions: &[Region], axis: usize) -> usize {
    let mut compared: usize = 0;
    for (k, region) in regions.iter().enumerate() {
        let (_, later) = regions.split_at(k + 1);
        let by_last = later.partition_point(|other| !begins_past(region, other, axis));
        compared = compared.saturating_add(by_last);
    }
    compared
}

/// Whether no count is 0.
pub fn has_element(region: &Region) -> bool
    ensures { result ≡ spec.has_element region.now }
{
    element_count(region.count.as_slice()) > 0
}

fn sort_by_start(regions: &mut [Region], axis: usize)
    ensures permutation { IsPermutation regions.old regions.new }
    ensures in_order { AreByStart axis regions.new }
{
    regions.sort_unstable_by(
        |one: &Region, other: &Region| -> Ordering
            ensures { result ≡ slice_cmp nat_cmp (led_by axis 0 one.now.start) (led_by axis 0 other.now.start) }
        {
            start_along(one, axis)
                .cmp(&start_along(other, axis))
                .then(one.start.as_slice().cmp(other.start.as_slice()))
        },
    );
}

fn start_along(region: &Region, axis: usize) -> u64
    ensures { result ≡ unwrap_or (slice_get region.now.start axis) 0 }
{
    region.start.as_slice().get(axis).copied().unwrap_or(0)
}

fn count_along(region: &Region, axis: usize) -> u64
    ensures { result ≡ unwrap_or (slice_get region.now.count axis) 1 }
{
    region.count.as_slice().get(axis).copied().unwrap_or(1)
}

#[tactic(auto, using(crate::proofs::SweepLaws::in_order_drop))]
fn some_meet_in_order(regions: &[Region], axis: usize) -> bool
    requires in_order { AreByStart axis regions.now }
    ensures { result ≡ some_meet regions.now }
{
    for (k, region) in regions.iter().enumerate() {
        let (_, later) = regions.split_at(k + 1);
        if meets_any(region, later, axis) {
            return true;
        }
    }
    false
}

/// Whether a region shares an element with one of others that stand in order. From the first that begins past it on, none does.
#[tactic(auto, using(crate::proofs::SweepLaws::none_later))]
fn meets_any(region: &Region, others: &[Region], axis: usize) -> bool
    requires in_order { AreByStart axis others.now }
    ensures { result ≡ meets_any region.now others.now }
{
    for other in others {
        if begins_past(region, other, axis) {
            return false;
        }
        if regions_meet(region, other) {
            return true;
        }
    }
    false
}

/// Whether another region begins past the last element of a region, in row-major order with an axis before all dimensions.
fn begins_past(region: &Region, other: &Region, axis: usize) -> bool
    ensures { result ≡ begins_past axis region.now other.now }
{
    let end = last(start_along(region, axis), count_along(region, axis));
    let next = u128::from(start_along(other, axis)) + 1;
    end < next || (next == end && is_past_last(region, other))
}

/// Whether another region begins past the last element of a region in row-major order.
fn is_past_last(region: &Region, other: &Region) -> bool
    ensures { result ≡ is_past region.now.start region.now.count other.now.start }
{
    is_past(
        region.start.as_slice(),
        region.count.as_slice(),
        other.start.as_slice(),
    )
}

/// Whether an index comes after the last one of a box in row-major order.
fn is_past(starts: &[u64], counts: &[u64], index: &[u64]) -> bool
    ensures { result ≡ is_past starts.now counts.now index.now }
{
    let [start, starts @ ..] = starts else {
        return false
    };
    let [count, counts @ ..] = counts else {
        return false
    };
    let [place, index @ ..] = index else {
        return false
    };
    let end = last(*start, *count);
    let next = u128::from(*place) + 1;
    end < next || (next == end && is_past(starts, counts, index))
}

fn regions_meet(region: &Region, other: &Region) -> bool
    ensures { result ≡ boxes_meet region.now.start region.now.count other.now.start other.now.count }
{
    meet(
        region.start.as_slice(),
        region.count.as_slice(),
        other.start.as_slice(),
        other.count.as_slice(),
    )
}

/// Whether two boxes share an index.
fn meet(starts: &[u64], counts: &[u64], others: &[u64], lengths: &[u64]) -> bool
    ensures { result ≡ boxes_meet starts.now counts.now others.now lengths.now }
{
    let [start, starts @ ..] = starts else {
        return counts.is_empty() && others.is_empty() && lengths.is_empty();
    };
    let [count, counts @ ..] = counts else {
        return false
    };
    let [other, others @ ..] = others else {
        return false
    };
    let [length, lengths @ ..] = lengths else {
        return false
    };
    let end = last(*start, *count).min(last(*other, *length));
    u128::from(*start.max(other)) < end && meet(starts, counts, others, lengths)
}

/// Where a range ends.
fn last(start: u64, count: u64) -> u128
    ensures { result ≡ start + count }
{
    u128::from(start) + u128::from(count)
}
