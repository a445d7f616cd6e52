// The first variable that may share a byte with another, found by sorting.
//
// Two variables of one kind that meet have neighbours in the sorted list that do, and a record variable shares a byte with
// some fixed one, or with another one's next record, exactly where it does so with the one that ends last or begins first.
// So a sort and a few passes tell the least variable that shares a byte. What is proved of these functions is that no
// variable before it shares one, which is all that a right answer needs; that it is the least one keeps the search for its
// partner to one pass.
ghost use Rattle.std.specs.Prelude.{◌≡◌, false, true, IfOk};
ghost use Rattle.std.specs.List.{All, AllPairs};
ghost use Rattle.cdf_header.specs.Spans.{EndsBefore, EndsBeforeNext, AreApart, HasAll};

use crate::spans::{
    Span, first_before, first_overlapped, first_overlapping, first_past, greatest_end, least_begin,
};
use nc_base::Memory;
use std::alloc::Global;

fn first_overlap(spans: &[Span]) -> usize
    ensures { AllPairs (EndsBefore result) spans.now }
{
    first_overlapped(spans).min(first_overlapping(spans))
}

fn first_of_both_kinds(fixed: &[Span], records: &[Span]) -> usize
    ensures { All (λ p. All (λ q. EndsBefore result p q) records.now) fixed.now }
{
    let past = first_past(fixed, least_begin(records));
    past.min(first_before(records, greatest_end(fixed)))
}

fn first_in_next_record(records: &[Span], size: u64) -> usize
    ensures { All (λ p. All (λ q. EndsBeforeNext result size p q) records.now) records.now }
{
    let past = first_past(records, least_begin(records).saturating_add(size));
    past.min(first_before(records, greatest_end(records).saturating_sub(size)))
}

/// The least number of a variable that shares a byte with another, where both lists are sorted by begin.
pub(crate) fn first_crowded(fixed: &[Span], records: &[Span], size: u64) -> usize
    ensures { AreApart result size fixed.now records.now }
{
    let fixed_first = first_overlap(fixed);
    let records_first = first_overlap(records);
    fixed_first
        .min(records_first)
        .min(first_of_both_kinds(fixed, records))
        .min(first_in_next_record(records, size))
}

/// The spans of one kind, sorted by begin.
pub(crate) fn sorted(alloc: Global, spans: &[Span], is_record: bool) -> Result<Vec<Span>, Memory>
    ensures { IfOk result (λ found. HasAll is_record spans.now found.items) }
{
    let mut found = Vec::new(alloc);
    for span in spans {
        if span.is_record == is_record {
            found.push(*span)?;
        }
    }
    found.sort()?;
    Ok(found)
}
