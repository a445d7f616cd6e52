// The first two variables that share a byte.
ghost use Rattle.std.specs.Prelude.{◌≡◌, ◌<◌, None, IfOk};
ghost use Rattle.std.specs.List.{All, AllPairs};
ghost use Rattle.cdf_header.specs.Spans.{share, partner, pair_at, shared_pair, AreSpans, NoneShares};
ghost use Rattle.cdf_header.specs.Spans as spans_spec;

use crate::crowded::{first_crowded, sorted};
use crate::spans::Span;
use nc_base::Memory;
use std::alloc::Global;

fn records_meet(p: &Span, q: &Span, size: u64) -> bool
    ensures { result ≡ spans_spec.records_meet size p.now q.now }
{
    q.begin < p.end || size < q.end && p.begin < q.end - size
}

/// Whether two variables share a byte, of which p is the one with the lower number.
fn share(p: &Span, q: &Span, size: u64) -> bool
    ensures { result ≡ share size p.now q.now }
{
    match (p.is_record, q.is_record) {
        (true, true) if p.begin <= q.begin => records_meet(p, q, size),
        (true, true) => records_meet(q, p, size),
        (true, false) => p.begin < q.end,
        (false, true) => q.begin < p.end,
        (false, false) => p.begin.max(q.begin) < p.end && p.begin.max(q.begin) < q.end,
    }
}

/// The first of the variables behind p that shares a byte with it.
fn partner(p: &Span, behind: &[Span], size: u64) -> Option<usize>
    ensures { result ≡ partner size p.now behind.now }
{
    for q in behind {
        if share(p, q, size) {
            return Some(q.number);
        }
    }
    None
}

/// The variable itself, where it begins before the header's end, or it and its first partner behind it.
/// For one with a number below `start` no partner is looked for.
fn pair_at(
    p: &Span,
    behind: &[Span],
    size: u64,
    header_end: u64,
    start: usize,
) -> Option<(usize, usize)>
    requires { p.now.number < start → partner size p.now behind.now ≡ None }
    ensures { result ≡ pair_at size header_end p.now behind.now }
{
    if p.begin < header_end {
        return Some((p.number, p.number));
    }
    if p.number < start {
        return None;
    }
    match partner(p, behind, size) {
        Some(other) => Some((p.number, other)),
        None => None,
    }
}

/// The first two variables that share a byte, none with a number below `start` being one of them.
fn first_pair(spans: &[Span], size: u64, header_end: u64, start: usize) -> Option<(usize, usize)>
    requires { NoneShares start size spans.now }
    ensures { result ≡ shared_pair size header_end spans.now }
{
    for (k, span) in spans.iter().enumerate() {
        let (_, behind) = spans.split_at(k + 1);
        let found = pair_at(span, behind, size, header_end, start);
        if found.is_some() {
            return found;
        }
    }
    None
}

/// The first two variables that share a byte, or one that begins before the header's end, twice.
pub(crate) fn first_shared(
    alloc: Global,
    spans: &[Span],
    size: u64,
    header_end: u64,
) -> Result<Option<(usize, usize)>, Memory>
    requires { AreSpans spans.now }
    ensures { IfOk result (λ found. found ≡ shared_pair size header_end spans.now) }
{
    let fixed = sorted(alloc, spans, false)?;
    let records = sorted(alloc, spans, true)?;
    let start = first_crowded(&fixed, &records, size);
    Ok(first_pair(spans, size, header_end, start))
}
