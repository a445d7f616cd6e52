//! Lemmas on tests, optional values and lists that proofs everywhere cite: what std's lemmas leave out, each stated once.
#![tactic(auto)]

ghost use Rattle.std.specs.Prelude.{◌≡◌, true, false, Bool, ◌&&◌, ◌||◌};

/// Of a conjunction that holds both parts hold; of a disjunction that doesn't, neither.
#[tactic(auto, using(crate::proofs::Truth::and_first, crate::proofs::Truth::and_second, crate::proofs::Truth::or_first_false, crate::proofs::Truth::or_second_false))]
pub fn truth_law()
    ensures and_first { (a b : Bool) → (a && b) ≡ true → a ≡ true }
    ensures and_second { (a b : Bool) → (a && b) ≡ true → b ≡ true }
    ensures or_first { (a b : Bool) → (a || b) ≡ false → a ≡ false }
    ensures or_second { (a b : Bool) → (a || b) ≡ false → b ≡ false }
{}
