// Whether the ranks agree on the kinds of their collective calls.
ghost use Rattle.std.specs.Prelude.{◌≡◌, ◌<◌, ◌≤◌, ◌^◌, IfSome, length, position, not, ◌==◌};
ghost use Rattle.std.specs.List.{All};
ghost use Rattle.script_spec.specs.ScriptCalls.{kind_at, differs_at, mismatch, first_difference};

use nc_base::{Items, MeetKind, ScriptKind};

/// The k-th kind of a rank as a number, or 0.
fn kind_at(k: usize, own: &[MeetKind]) -> u8
    ensures { result ≡ kind_at k own.now }
{
    match own.get(k) {
        None => 0,
        Some(MeetKind::Put) => 1,
        Some(MeetKind::Get) => 2,
        Some(MeetKind::Wait) => 3,
        Some(MeetKind::Begin) => 4,
        Some(MeetKind::End) => 5,
        Some(MeetKind::Sync) => 6,
    }
}

/// The first rank whose k-th kind is not this one.
fn other_kind(ranks: &[Items<MeetKind>], k: usize, kind: u8) -> Option<usize>
    ensures value { result ≡ position (λ own. not (kind_at k own == kind)) ranks.now }
    ensures bound { IfSome result (λ r. r < length ranks.now) }
{
    ranks
        .iter()
        .position(|own| kind_at(k, own.as_slice()) != kind)
}

/// The first rank whose k-th kind is not that of rank 0, which has these.
fn differs_at(ranks: &[Items<MeetKind>], first: &[MeetKind], k: usize) -> Option<usize>
    ensures value { result ≡ differs_at ranks.now first.now k }
    ensures bound { IfSome result (λ r. r < length ranks.now) }
{
    other_kind(ranks, k, kind_at(k, first))
}

/// The first number, of the kinds of rank 0 and one past, at which some rank differs, and the first such rank.
#[tactic(auto, using(crate::proofs::MismatchLaws::difference_at, crate::proofs::MismatchLaws::no_difference, crate::proofs::MismatchLaws::none_here))]
fn first_difference(ranks: &[Items<MeetKind>], first: &[MeetKind]) -> Option<(usize, usize)>
    ensures value { result ≡ first_difference ranks.now first.now }
    ensures bound { IfSome result (λ d. (d.0 ≤ length first.now) × (d.1 < length ranks.now)) }
{
    let mut k = 0;
    loop {
        if let Some(rank) = differs_at(ranks, first, k) {
            return Some((k, rank));
        }
        if k == first.len() {
            return None;
        }
        k += 1;
    }
}

/// How the ranks differ, of which each has fewer than 2^32 collective calls.
pub fn mismatch(ranks: &[Items<MeetKind>]) -> Option<ScriptKind>
    requires few { length ranks.now ≤ 64 }
    requires short { All (λ own. length own < 2 ^ 32) ranks.now }
    ensures { result ≡ mismatch ranks.now }
{
    let (first, _) = ranks.split_first()?;
    let (k, rank) = first_difference(ranks, first.as_slice())?;
    Some(ScriptKind::Mismatch(k as u32, 0, rank as u32))
}
