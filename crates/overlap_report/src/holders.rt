// The two least requests that hold a byte.
ghost use Rattle.std.specs.Prelude.{◌≡◌, ℕ, ◌+◌, ◌^◌, ◌<◌, ◌≤◌, MatchOption};
ghost use Rattle.serial_spec.specs.SharedByte.{key_below, same_key, first_end, second_end};
ghost use Rattle.overlay_laws.specs.Lines.{extents, EndBelow};
ghost use Rattle.overlap_report.specs.SharedBytes.{IsClearAt, ArePairAt};
ghost use Rattle.overlap_report.specs.Holders.{key, with_key};

use nc_base::{Owned, Pair};

// A request.
#[derive(Clone, Copy)]
pub struct Request {
    pub rank: u32,
    pub id: u32,
}

impl Request {
    fn is(&self, other: &Request) -> bool
        ensures { result ≡ same_key (key self.now) (key other.now) }
    {
        self.rank == other.rank && self.id == other.id
    }

    fn is_below(&self, other: &Request) -> bool
        ensures { result ≡ key_below (key self.now) (key other.now) }
    {
        self.rank < other.rank || (self.rank == other.rank && self.id < other.id)
    }
}

// The least requests so far.
#[derive(Clone, Copy)]
pub enum Least {
    Nobody,
    One(Request),
    Two(Request, Request),
}

impl Least {
    fn with(self, request: Request) -> Least
        ensures { result ≡ with_key self request }
    {
        match self {
            Least::Nobody => Least::One(request),
            Least::One(first) => {
                if request.is(&first) {
                    Least::One(first)
                } else if request.is_below(&first) {
                    Least::Two(request, first)
                } else {
                    Least::Two(first, request)
                }
            }
            Least::Two(first, second) => {
                if request.is(&first) {
                    Least::Two(first, second)
                } else if request.is_below(&first) {
                    Least::Two(request, first)
                } else if request.is_below(&second) {
                    Least::Two(first, request)
                } else {
                    Least::Two(first, second)
                }
            }
        }
    }
}

// The two least requests that hold the byte, if two do.
pub(crate) fn pair_at(list: &[Owned], at: u64) -> Option<Pair>
    requires { EndBelow (2 ^ 62) (extents list.now) }
    ensures { MatchOption result (IsClearAt list.now at) (λ p. (p.at ≡ at) × ArePairAt list.now (first_end p) (second_end p) at) }
{
    let mut least = Least::Nobody;
    for entry in list {
        if entry.extent.at <= at && at < entry.extent.at + entry.extent.len {
            least = least.with(Request {
                rank: entry.rank,
                id: entry.request,
            });
        }
    }
    match least {
        Least::Two(first, second) => Some(Pair {
            rank1: first.rank,
            request1: first.id,
            rank2: second.rank,
            request2: second.id,
            at,
        }),
        Least::One(_) | Least::Nobody => None,
    }
}
