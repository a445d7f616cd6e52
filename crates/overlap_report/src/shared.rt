// The least byte that two requests hold.
ghost use Rattle.std.specs.Prelude.{◌≡◌, ℕ, ◌+◌, ◌^◌, ◌<◌, ◌≤◌, MatchOption, if◌then◌else◌, max, nat_lt};
ghost use Rattle.serial_spec.specs.SharedByte.{shared_pair_of, holdings_of_entries, same_key};
ghost use Rattle.overlay_laws.specs.Lines.{extents, IsByPlace, EndBelow};
ghost use Rattle.overlap_report.specs.SharedBytes.{key_of, IsClearAt, IsFirst};
ghost use Rattle.overlap_report.specs.Reach.{with_entry, same_as};

use crate::holders::pair_at;
use nc_base::{Owned, Pair};

/// The least byte that two different requests hold, with the two least of them by rank and request. The entries are sorted by
/// place.
pub fn first_pair(list: &[Owned]) -> Option<Pair>
    requires sorted { IsByPlace (extents list.now) }
    requires ends { EndBelow (2 ^ 62) (extents list.now) }
    ensures { result ≡ shared_pair_of (holdings_of_entries list.now) }
{
    match first_shared(list) {
        Some(at) => pair_at(list, at),
        None => None,
    }
}

// How far the entries so far reach, and how far those of other requests than the one that reaches farthest do.
#[derive(Clone, Copy)]
pub struct Reach {
    pub end: u64,
    pub rank: u32,
    pub request: u32,
    pub other: u64,
}

impl Reach {
    fn is_of(&self, entry: &Owned) -> bool
        ensures { result ≡ same_as self.now entry.now }
    {
        entry.rank == self.rank && entry.request == self.request
    }

    // How far entries of other requests than this one's reach.
    fn of_others(&self, entry: &Owned) -> u64
        ensures { result ≡ (if same_as self.now entry.now then self.now.other else self.now.end) }
    {
        if self.is_of(entry) {
            self.other
        } else {
            self.end
        }
    }

    // With an entry that begins where those of other requests end, or later.
    fn with(&self, entry: &Owned) -> Reach
        requires { entry.now.extent.at + entry.now.extent.len < 2 ^ 62 }
        ensures { result ≡ with_entry self.now entry.now }
    {
        let end = entry.extent.at + entry.extent.len;
        if self.is_of(entry) {
            Reach {
                end: self.end.max(end),
                rank: self.rank,
                request: self.request,
                other: self.other,
            }
        } else {
            Reach {
                end,
                rank: entry.rank,
                request: entry.request,
                other: self.end,
            }
        }
    }
}

// The least byte that entries of two requests hold.
fn first_shared(list: &[Owned]) -> Option<u64>
    requires sorted { IsByPlace (extents list.now) }
    requires ends { EndBelow (2 ^ 62) (extents list.now) }
    ensures { MatchOption result ((x : ℕ) → IsClearAt list.now x) (λ x. IsFirst list.now x) }
{
    let mut reach = Reach {
        end: 0,
        rank: 0,
        request: 0,
        other: 0,
    };
    for entry in list {
        if entry.extent.len > 0 {
            if entry.extent.at < reach.of_others(entry) {
                return Some(entry.extent.at);
            }
            reach = reach.with(entry);
        }
    }
    None
}
