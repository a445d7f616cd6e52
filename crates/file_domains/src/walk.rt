// The windows of an aggregator, by a cursor over the cover.
ghost use Rattle.std.specs.Prelude.{◌≡◌, ℕ, ◌+◌, ◌-◌, ◌^◌, ◌<◌, ◌≤◌, length, slice_get, drop, Some, min, nat_le, true, false};
ghost use Rattle.std.specs.List.Sorted.{IsPartitionedBy, IsPartitionPoint};
ghost use Rattle.overlay_laws.specs.Lines.{EndBelow};
ghost use Rattle.overlay_laws.specs.Walks.{IsCover, round_end};
ghost use Rattle.overlay_laws.specs.Entries.{In};
ghost use Rattle.nc_base.specs.declared.plan.Extent.{Extent};
ghost use Rattle.file_domains.specs.Rounds.{bytes_in, round_windows, windows_left, IsLeft, IsWalk};

use nc_base::Extent;

/// The part of a domain that one round serves.
#[derive(Clone, Copy, Debug, PartialEq, Eq)]
pub struct Window {
    /// The number of the round, from 0.
    pub round: u64,
    /// From the first covered byte of the window to its last.
    pub hull: Extent,
    /// Whether every byte of the hull is covered.
    pub full: bool,
}

/// The windows of a domain that have a covered byte, in order.
#[derive(Clone, Copy, Debug, Drop)]
pub struct WindowWalk<'a> {
    // What is left of the cover: no extent ends at `from` or before.
    cover: &'a [Extent],
    // The bytes before it were gone over.
    from: u64,
    // Where the domain ends.
    end: u64,
    // The domain's first covered byte.
    first: u64,
    size: u64,
}

/// The windows of a domain, given all covered bytes of the step. Each is `size` bytes long, from the domain's first covered byte
/// on, and those without a covered byte are passed over.
pub fn windows<'a>(domain: Extent, cover: &'a [Extent], size: u64) -> WindowWalk<'a>
    requires cover { IsCover cover.now }
    requires ends { EndBelow (2 ^ 62) cover.now }
    requires size { 1 ≤ size }
    ensures windows { windows_left result ≡ round_windows size (bytes_in domain cover.now) }
    ensures ready { IsWalk result }
{
    let count = begins_by(cover, domain.at);
    let cover = past(cover, count, domain.at);
    let end = domain.at.saturating_add(domain.len);
    let first = match front(cover) {
        Some(extent) => extent.at.max(domain.at),
        None => domain.at,
    };
    WindowWalk {
        cover,
        from: first,
        end,
        first,
        size,
    }
}

impl<'a> Iterator for WindowWalk<'a> {
    ghost use Rattle.std.specs.Iterator.{YieldsFirst, item_count};
    ghost use Rattle.file_domains.specs.Rounds.{windows_left, IsWalk};

    type Item = Window;

    ghost can_next = { IsWalk };

    ghost next_gives = { YieldsFirst windows_left };

    ghost remaining = { item_count windows_left };

    fn next(&mut self) -> Option<Window> {
        let extent = match front(self.cover) {
            Some(extent) => extent,
            None => return None,
        };
        let at = extent.at.max(self.from);
        if at >= self.end {
            return None;
        }
        let stop = end_of_round(self.first, self.size, at).min(self.end);
        let count = begins_before(self.cover, stop);
        let end = end_of(&self.cover[count - 1]).min(stop);
        let window = Window {
            round: (at - self.first) / self.size,
            hull: Extent { at, len: end - at },
            full: count == 1,
        };
        self.cover = past(self.cover, count, stop);
        self.from = stop;
        Some(window)
    }
}

fn front(cover: &[Extent]) -> Option<Extent>
    ensures { result ≡ slice_get cover.now 0 }
{
    cover.first().copied()
}

// Where the round of a byte ends, or the greatest number.
fn end_of_round(first: u64, size: u64, at: u64) -> u64
    requires begin { first ≤ at }
    requires size { 1 ≤ size }
    ensures { result ≡ min (round_end first size at) (2 ^ 64 - 1) }
{
    let round = (at - first) / size;
    (first + round * size).saturating_add(size)
}

// How many extents of a cover begin at the place or before, by halves.
fn begins_by(cover: &[Extent], place: u64) -> usize
    requires { IsPartitionedBy (λ e. nat_le e.at place) cover.now }
    ensures bound { result ≤ length cover.now }
    ensures point { IsPartitionPoint (λ e. nat_le e.at place ≡ true) (λ e. nat_le e.at place ≡ false) cover.now result }
{
    let mut low = 0;
    let mut high = cover.len();
    'halves: while low < high {
        let middle = low + (high - low) / 2;
        if cover[middle].at <= place {
            low = middle + 1;
        } else {
            high = middle;
        }
    }
    low
}

// How many extents of the front begin before the place.
fn begins_before(cover: &[Extent], place: u64) -> usize
    ensures bound { result ≤ length cover.now }
    ensures before { (i : ℕ) (e : Extent) → i < result → slice_get cover.now i ≡ Some e → e.at < place }
    ensures after { (e : Extent) → slice_get cover.now result ≡ Some e → place ≤ e.at }
{
    for (i, extent) in cover.iter().enumerate() {
        if extent.at >= place {
            return i;
        }
    }
    cover.len()
}

// What is left of a cover from a place on, of which so many extents begin before it or there.
fn past<'a>(cover: &'a [Extent], count: usize, place: u64) -> &'a [Extent]
    requires bound { count ≤ length cover.now }
    requires cover { IsCover cover.now }
    requires ends { EndBelow (2 ^ 62) cover.now }
    requires before { (i : ℕ) (e : Extent) → i < count → slice_get cover.now i ≡ Some e → e.at ≤ place }
    requires after { (e : Extent) → slice_get cover.now count ≡ Some e → place ≤ e.at }
    ensures { IsLeft place cover.now result.now }
{
    if count > 0 && end_of(&cover[count - 1]) > place {
        tail(cover, count - 1)
    } else {
        tail(cover, count)
    }
}

fn end_of(extent: &Extent) -> u64
    requires { extent.now.at + extent.now.len < 2 ^ 64 }
    ensures { result ≡ extent.now.at + extent.now.len }
{
    extent.at + extent.len
}

#[tactic(auto, using(crate::proofs::CoverParts::whole_tail))]
fn tail<'a>(cover: &'a [Extent], count: usize) -> &'a [Extent]
    requires { count ≤ length cover.now }
    ensures { result.now ≡ drop count cover.now }
{
    &cover[count..]
}
