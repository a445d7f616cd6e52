// The domains of a collective step.
ghost use Rattle.std.specs.Prelude.{◌≡◌, ◌↔◌, ℕ, ◌+◌, ◌-◌, ◌*◌, ◌/◌, ◌^◌, ◌<◌, ◌≤◌, max, min};
ghost use Rattle.serial_spec.specs.Layout.{round_up};
ghost use Rattle.file_domains.specs.Domains.{low_of, share_of, border, LiesIn};

use nc_base::Extent;

/// Domain `a` of the bytes from `lo` to `hi`, which are divided among aggregators by whole striping units.
///
/// A domain without bytes has length 0. The domains stand one after another without a gap.
pub fn cut(lo: u64, hi: u64, aggregators: u32, unit: u64, a: u32) -> Extent
    requires order { lo ≤ hi }
    requires limit { hi < 2 ^ 62 }
    requires number { a < aggregators }
    requires few { aggregators ≤ 64 }
    requires least_unit { 1 ≤ unit }
    requires greatest_unit { unit ≤ 2 ^ 25 }
    ensures bytes { (x : ℕ) → LiesIn result x ↔ ((lo ≤ x) × (x < hi) × ((x - low_of lo unit) / share_of lo hi aggregators unit ≡ a)) }
    ensures begin { result.at ≡ border lo hi aggregators unit a }
    ensures end { result.at + result.len ≡ border lo hi aggregators unit (a + 1) }
{
    let low = lo - lo % unit;
    let share = share_of_each(hi - low, u64::from(aggregators), unit);
    let number = u64::from(a);
    let at = lo.max(multiple_from(low, share, number)).min(hi);
    let end = lo.max(multiple_from(low, share, number + 1)).min(hi);
    Extent { at, len: end - at }
}

// The bytes of one domain: the least multiple of the unit that divides them all among the aggregators, and at least one.
fn share_of_each(bytes: u64, nodes: u64, unit: u64) -> u64
    requires bytes { bytes < 2 ^ 63 }
    requires nodes { (1 ≤ nodes) × (nodes ≤ 64) }
    requires unit { (1 ≤ unit) × (unit ≤ 2 ^ 25) }
    ensures { result ≡ max 1 (round_up unit ((bytes + (nodes - 1)) / nodes)) }
{
    let even = (bytes + (nodes - 1)) / nodes;
    ((even + (unit - 1)) / unit * unit).max(1)
}

// Where so many shares end, or the greatest number.
fn multiple_from(low: u64, share: u64, count: u64) -> u64
    ensures { result ≡ min (low + count * share) (2 ^ 64 - 1) }
{
    low.saturating_add(count.saturating_mul(share))
}
