// Where variables lie, and which of them may share a byte.
ghost use Rattle.std.specs.Prelude.{◌≡◌, ◌<◌, ◌≤◌, true};
ghost use Rattle.std.specs.List.{All, AllPairs};

/// The bytes of a fixed variable, or those of a record variable in the first record, from `begin` up to but not including `end`.
#[derive(Clone, Copy, Debug, PartialEq, Eq, PartialOrd, Ord)]
pub(crate) struct Span {
    pub begin: u64,
    pub end: u64,
    /// The place of the variable in the header.
    pub number: usize,
    pub is_record: bool,
}

/// The lesser of the two numbers, where the second one counts.
fn lower_if(counts: bool, first: usize, number: usize) -> usize
    ensures lower { result ≤ first }
    ensures counted { counts ≡ true → result ≤ number }
{
    if counts { first.min(number) } else { first }
}

/// The greatest end, or 0 where there is no span.
pub(crate) fn greatest_end(spans: &[Span]) -> u64
    ensures { All (λ s. s.end ≤ result) spans.now }
{
    let mut greatest = 0;
    for span in spans {
        greatest = greatest.max(span.end);
    }
    greatest
}

/// The least begin, or the greatest number where there is no span.
pub(crate) fn least_begin(spans: &[Span]) -> u64
    ensures { All (λ s. result ≤ s.begin) spans.now }
{
    let mut least = u64::MAX;
    for span in spans {
        least = least.min(span.begin);
    }
    least
}

/// A number up to which no variable ends past the place.
pub(crate) fn first_past(spans: &[Span], place: u64) -> usize
    ensures { All (λ s. s.number < result → s.end ≤ place) spans.now }
{
    let mut first = usize::MAX;
    for span in spans {
        first = lower_if(place < span.end, first, span.number);
    }
    first
}

/// A number up to which no variable begins before the place.
pub(crate) fn first_before(spans: &[Span], place: u64) -> usize
    ensures { All (λ s. s.number < result → place ≤ s.begin) spans.now }
{
    let mut first = usize::MAX;
    for span in spans {
        first = lower_if(span.begin < place, first, span.number);
    }
    first
}

/// A number up to which no variable begins before one ahead of it in the list ends. In a list that is sorted
/// by begin it is the least such number.
pub(crate) fn first_overlapped(spans: &[Span]) -> usize
    ensures { AllPairs (λ p q. q.number < result → p.end ≤ q.begin) spans.now }
{
    let mut first = usize::MAX;
    let mut reach = 0;
    for span in spans {
        first = lower_if(span.begin < reach, first, span.number);
        reach = reach.max(span.end);
    }
    first
}

/// A number up to which no variable ends past the begin of one behind it in the list. In a list that is sorted
/// by begin it is the least such number.
pub(crate) fn first_overlapping(spans: &[Span]) -> usize
    ensures { AllPairs (λ p q. p.number < result → p.end ≤ q.begin) spans.now }
{
    let mut first = usize::MAX;
    let mut next = u64::MAX;
    for behind in 0..spans.len() {
        let span = spans[spans.len() - 1 - behind];
        first = lower_if(next < span.end, first, span.number);
        next = next.min(span.begin);
    }
    first
}
