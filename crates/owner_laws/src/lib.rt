//! The owner of the file, by its arrivals alone.
#![tactic(auto)]

ghost use Rattle.std.specs.Prelude.{◌≡◌, ℕ, List, nat_lt, replicate, true};
ghost use Rattle.std.specs.List.{list_all};
ghost use Rattle.serial_spec.specs.FileStep.{Counted, Setting};
ghost use Rattle.serial_spec.specs.History.{Arrival, done};
ghost use Rattle.serial_spec.specs.Owner.{first_owner, free_client, served};
ghost use Rattle.owner_laws.specs.Strangers.{before_stranger, first_stranger};

/// The owner finds just the first arrival that is strange after the arrivals before it, and does the steps that those bring.
pub fn stranger_law()
    ensures stranger { (s : Setting) (ranks : ℕ) (c : Counted) (arrivals : List Arrival) → list_all (λ a. nat_lt a.0 ranks) arrivals ≡ true
        → (served s (first_owner (replicate ranks free_client) c) arrivals).stranger ≡ first_stranger s ranks c.records arrivals }
    ensures order { (s : Setting) (ranks : ℕ) (c : Counted) (arrivals : List Arrival) → list_all (λ a. nat_lt a.0 ranks) arrivals ≡ true
        → (served s (first_owner (replicate ranks free_client) c) arrivals).marks ≡ done ranks (before_stranger s ranks c.records arrivals) }
{}
