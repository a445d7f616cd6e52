//! Sums that are computed.

ghost use Rattle.std.specs.Prelude.{◌≡◌, ◌-◌, ◌^◌, [], ◌∷◌, ◌++◌};
ghost use Rattle.nc_base.specs.declared.step.DiskCall.TheVariants.{Load, Store};
ghost use Rattle.nc_base.specs.declared.request.Direction.TheVariants.{Put, Get};
ghost use Rattle.plan_sums.specs.Cells.{cells_in};
ghost use Rattle.plan_sums.specs.Examples.{a_get, a_put, bytes_at, creation, two_steps};
ghost use Rattle.plan_sums.specs.Naive.{asked_in, naive_sum};
ghost use Rattle.plan_sums.specs.Summed.{all_calls};
ghost use Rattle.plan_sums.specs.Tallies.{reads_in, tally_of, writes_in};

/// The sums of a plan of two steps: a collective put through a window with a hole, and a get of one rank alone.
pub fn worked_sums()
    ensures calls { all_calls two_steps ≡ creation ++ Load 80 16 ∷ Store 80 16 ∷ Store 4 4 ∷ Load 84 4 ∷ Store 4 4 ∷ [] }
    ensures reads { tally_of 16 (reads_in (all_calls two_steps)) ≡ record { calls = 2; bytes = 20; least = 4; most = 16; unaligned = 1 } }
    ensures writes { tally_of 16 (writes_in (all_calls two_steps)) ≡ record { calls = 4; bytes = 104; least = 4; most = 80; unaligned = 2 } }
    ensures puts { naive_sum (asked_in Put (a_put ∷ a_get ∷ [])) ≡ record { calls = 3; bytes = 12 } }
    ensures gets { naive_sum (asked_in Get (a_put ∷ a_get ∷ [])) ≡ record { calls = 1; bytes = 4 } }
    ensures cells { cells_in (a_put ∷ a_get ∷ []) 2 2
        ≡ record { rank = 0; aggregator = 0; put = 8; got = 0 } ∷ record { rank = 1; aggregator = 0; put = 4; got = 0 } ∷ [] }
{}

/// Tallies of nothing, and of more than a number of 64 bits can tell.
pub fn worked_tallies()
    ensures nothing { tally_of 4 [] ≡ record { calls = 0; bytes = 0; least = 0; most = 0; unaligned = 0 } }
    ensures many { tally_of 4 (bytes_at 1 (2 ^ 64 - 1) ∷ bytes_at 8 1 ∷ []) ≡ record { calls = 2; bytes = 2 ^ 64 - 1; least = 1; most = 2 ^ 64 - 1; unaligned = 1 } }
{}
