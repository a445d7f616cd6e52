// Whose turn is next, where windows are gone over round by round.
ghost use Rattle.std.specs.Prelude.{◌≡◌, ◌<◌, ◌≤◌, ℕ, length, slice_get, IfNone, IfSome, None, Option, Some};
ghost use Rattle.exchange_crew.specs.Rounds.{HasRound};

/// What has its turns in rounds.
pub trait InRounds {
    ghost next: { Self → Option ℕ };

    /// The round of its next turn. None where it has no more.
    fn next_round(&self) -> Option<u64>
        ensures { result ≡ next self.now };
}

/// The first one of those whose next turn is of the least round. None where nobody has one.
pub fn first_in_turn<T: InRounds>(all: &[T]) -> Option<usize>
    ensures some { IfSome result (λ k. (k < length all.now) × ((one : T) → slice_get all.now k ≡ Some one → T.next one ≡ None → ⊥)) }
    ensures least { IfSome result (λ k. (r j s : ℕ) → HasRound T.next all.now k r → HasRound T.next all.now j s → r ≤ s) }
    ensures first { IfSome result (λ k. (r j s : ℕ) → HasRound T.next all.now k r → HasRound T.next all.now j s → j < k → r < s) }
    ensures none { IfNone result ((k : ℕ) (one : T) → slice_get all.now k ≡ Some one → T.next one ≡ None) }
{
    let mut first = None;
    let mut least = None;
    for (k, one) in all.iter().enumerate() {
        let earlier = earlier(one.next_round(), least);
        if earlier.is_some() {
            first = Some(k);
            least = earlier;
        }
    }
    first
}

// A round, where there is one and the other one is not as early.
fn earlier(round: Option<u64>, than: Option<u64>) -> Option<u64>
    ensures some { IfSome result (λ r. (round ≡ Some r) × ((s : ℕ) → than ≡ Some s → r < s)) }
    ensures none { IfNone result ((r : ℕ) → round ≡ Some r → (s : ℕ) × (than ≡ Some s) × (s ≤ r)) }
{
    let round = round?;
    match than {
        Some(other) if other <= round => None,
        _ => Some(round),
    }
}
