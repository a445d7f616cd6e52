//! Small runs: requests, steps, device calls and arrivals.

ghost use Rattle.std.specs.Prelude.{◌≡◌, ◌+◌, ◌-◌, ◌^◌, [], ◌∷◌, ◌++◌, length, Some, None, pos, replicate, true, map, false, ℕ, take};
ghost use Rattle.serial_spec.specs.File.{at, written};
ghost use Rattle.serial_spec.specs.HeaderBytes.{canon};
ghost use Rattle.serial_spec.specs.Examples.{dataset_a, first_of_halves, offer_of_halves, reply_with, three_holders, header_a, region, setting_a, created, overlapping, side_by_side, int_bytes, ended, device_calls, halves, interleaved, whole, with_hole, one_record, arrived, empty_offer, two_clients, after_five, with_strange, independent_calls, many_bytes, dataset_b, packed_region, given, var, two_alone, file_halves, dataset_aq};
ghost use Rattle.serial_spec.specs.Request.{packed_bytes, spread};
ghost use Rattle.nc_base.specs.declared.header.NcType.TheVariants.{Int, Short};
ghost use Rattle.nc_base.specs.declared.request.Values.TheVariants.{Numbers};
ghost use Rattle.serial_spec.specs.FileStep.{meeting};
ghost use Rattle.nc_base.specs.declared.step.Mark.TheVariants.{Meet, Solo};
ghost use Rattle.nc_base.specs.declared.step.DiskCall.TheVariants.{Grow, Load, Store};
ghost use Rattle.serial_spec.specs.History.{marks, done, IsLegal};
ghost use Rattle.serial_spec.specs.Owner.{is_strange, served, owed, OnlyReplies};
ghost use Rattle.nc_base.specs.declared.step.OwnerItem.TheVariants.{Reply, Stop};
ghost use Rattle.nc_base.specs.declared.step.MeetKind.TheVariants.{Begin, End as EndKind};
ghost use Rattle.std.specs.List.{range_with_len};
ghost use Rattle.serial_spec.specs.Said.{said_at, write_cells};
ghost use Rattle.serial_spec.specs.SharedByte.{shared_pair_of};
ghost use Rattle.serial_spec.specs.RankMachine.{answer};
ghost use Rattle.serial_spec.specs.RankSide.{offered, rank_stop, rank_end};
ghost use Rattle.nc_base.specs.declared.answer.Code.TheVariants.{Ok, ENotVar, EInvalCoords, EStride, EEdge, ETooLarge};
ghost use Rattle.nc_base.specs.declared.run.RankStop.TheVariants.{Done, Stopped, Misfit};
ghost use Rattle.serial_spec.specs.RegionCheck.{check, widen};
ghost use Rattle.serial_spec.specs.Records.{records_of};
ghost use Rattle.serial_spec.specs.EdgeExamples.{whole_then_ends, file_a};
ghost use Rattle.serial_spec.specs.Torn.{IsCutRun, IsLengthened, IsTornCreation, IsTornRedefinition};
ghost use Rattle.nc_base.specs.declared.step.StepErr.TheVariants.{Disk};
ghost use Rattle.nc_base.specs.declared.request.Direction.TheVariants.{Put, Get};
ghost use Rattle.nc_base.specs.declared.step.RankItem.TheVariants as item;
ghost use Rattle.nc_base.specs.declared.step.OfferKind.TheVariants as offer;
ghost use Rattle.nc_base.specs.declared.request.Form.TheVariants as form;

/// Memory by an index map.
pub fn worked_map()
    ensures packed { packed_bytes Int (region (0 ∷ 0 ∷ []) (2 ∷ 3 ∷ []) (1 ∷ 1 ∷ []) (1 ∷ 2 ∷ []))
        (Numbers (pos 1 ∷ pos 2 ∷ pos 3 ∷ pos 4 ∷ pos 5 ∷ pos 6 ∷ [])) ≡
        0 ∷ 0 ∷ 0 ∷ 1 ∷ 0 ∷ 0 ∷ 0 ∷ 3 ∷ 0 ∷ 0 ∷ 0 ∷ 5 ∷ 0 ∷ 0 ∷ 0 ∷ 2 ∷ 0 ∷ 0 ∷ 0 ∷ 4 ∷ 0 ∷ 0 ∷ 0 ∷ 6 ∷ [] }
    ensures back { spread Int (region (0 ∷ 0 ∷ []) (2 ∷ 3 ∷ []) (1 ∷ 1 ∷ []) (1 ∷ 2 ∷ []))
        (0 ∷ 0 ∷ 0 ∷ 1 ∷ 0 ∷ 0 ∷ 0 ∷ 3 ∷ 0 ∷ 0 ∷ 0 ∷ 5 ∷ 0 ∷ 0 ∷ 0 ∷ 2 ∷ 0 ∷ 0 ∷ 0 ∷ 4 ∷ 0 ∷ 0 ∷ 0 ∷ 6 ∷ [])
        ≡ Numbers (pos 1 ∷ pos 2 ∷ pos 3 ∷ pos 4 ∷ pos 5 ∷ pos 6 ∷ []) }
{}

/// A meeting writes both ranks' elements, or tells each rank the pair that overlaps.
#[tactic(auto, unfolding(crate::specs::HeaderBytes::canon))]
pub fn worked_meeting()
    ensures done { (meeting setting_a side_by_side (created setting_a)).0.file ≡ header_a ++ int_bytes (1 ∷ 2 ∷ 3 ∷ 4 ∷ []) }
    ensures kept { (meeting setting_a overlapping (created setting_a)).0.file ≡ header_a ++ int_bytes (0 ∷ 0 ∷ 0 ∷ 0 ∷ []) }
    ensures pair { map (λ r. r.pair) (meeting setting_a overlapping (created setting_a)).1
        ≡ replicate 3 (Some (record { rank1 = 0; request1 = 0; rank2 = 1; request2 = 0; at = 88 })) }
{}

/// The device calls of small runs.
#[tactic(auto, unfolding(crate::specs::HeaderBytes::canon))]
pub fn worked_calls()
    ensures halves { device_calls halves (Meet 0 ∷ []) ≡ Store 80 8 ∷ Store 88 8 ∷ [] }
    ensures interleaved { device_calls interleaved (Meet 0 ∷ []) ≡ Store 80 4 ∷ Store 84 4 ∷ Store 88 4 ∷ Store 92 4 ∷ [] }
    ensures three { device_calls (whole 3 16) (Meet 0 ∷ []) ≡ Store 80 6 ∷ Store 86 6 ∷ Store 92 4 ∷ [] }
    ensures many { device_calls (whole 64 16777216) (Meet 0 ∷ []) ≡ map (λ x. Store x 1) (range_with_len 80 16) }
    ensures small { device_calls (whole 1 3) (Meet 0 ∷ [])
        ≡ Store 80 3 ∷ Store 83 3 ∷ Store 86 3 ∷ Store 89 3 ∷ Store 92 3 ∷ Store 95 1 ∷ [] }
    ensures hole { device_calls with_hole (Meet 0 ∷ []) ≡ Load 80 16 ∷ Store 80 16 ∷ [] }
    ensures record { device_calls one_record (Meet 0 ∷ []) ≡ Grow 88 ∷ Store 86 2 ∷ Store 4 4 ∷ [] }
{}

/// The files of small runs.
#[tactic(auto, unfolding(crate::specs::HeaderBytes::canon))]
pub fn worked_ends()
    ensures halves { (ended halves (Meet 0 ∷ [])).bytes ≡ header_a ++ int_bytes (1 ∷ 2 ∷ 3 ∷ 4 ∷ []) }
    ensures interleaved { (ended interleaved (Meet 0 ∷ [])).bytes ≡ header_a ++ int_bytes (1 ∷ 2 ∷ 3 ∷ 4 ∷ []) }
    ensures count { (ended one_record (Meet 0 ∷ [])).records ≡ 4 }
    ensures len { length (ended one_record (Meet 0 ∷ [])).bytes ≡ 88 }
    ensures count_field { take 8 (ended one_record (Meet 0 ∷ [])).bytes ≡ 67 ∷ 68 ∷ 70 ∷ 1 ∷ 0 ∷ 0 ∷ 0 ∷ 4 ∷ [] }
{}

/// Marks, and what arrivals bring.
#[tactic(auto, unfolding(crate::specs::HeaderBytes::canon, crate::specs::Owner::event, crate::specs::Owner::is_strange, crate::specs::Owner::strange_offer))]
pub fn worked_arrivals()
    ensures marks { marks (independent_calls ∷ []) 0 ≡ Meet 0 ∷ Solo 0 1 ∷ Meet 1 ∷ [] }
    ensures done { done 2 arrived ≡ Meet 0 ∷ Solo 1 1 ∷ Solo 0 1 ∷ Meet 1 ∷ [] }
    ensures right { is_strange setting_a after_five (1, item.Offer 2 (empty_offer (offer.Meet EndKind) 0)) ≡ false }
    ensures count { is_strange setting_a two_clients (0, item.Offer 0 (empty_offer (offer.Meet Begin) 5)) ≡ true }
    ensures other_kind { is_strange setting_a after_five (1, item.Offer 2 (empty_offer (offer.Meet Begin) 0)) ≡ true }
    ensures left { is_strange setting_a after_five (1, item.Ended false) ≡ true }
    ensures order { (served setting_a two_clients arrived).marks ≡ Meet 0 ∷ Solo 1 1 ∷ Solo 0 1 ∷ Meet 1 ∷ [] }
    ensures replies { map (λ q. length (owed setting_a two_clients arrived q)) (0 ∷ 1 ∷ []) ≡ 3 ∷ 3 ∷ [] }
    ensures no_stop { OnlyReplies (owed setting_a two_clients arrived 0) }
    ensures none_strange { (served setting_a two_clients arrived).stranger ≡ None }
    ensures stranger { (served setting_a two_clients with_strange).stranger ≡ Some 0 }
    ensures file { (served setting_a two_clients arrived).owner.state.file ≡ header_a ++ int_bytes (1 ∷ 2 ∷ 3 ∷ 4 ∷ []) }
    ensures no_order { (served setting_a two_clients with_strange).marks ≡ [] }
    ensures stopped { owed setting_a two_clients with_strange 0 ≡ Stop ∷ [] }
    ensures nothing { owed setting_a two_clients with_strange 1 ≡ [] }
    ensures memory { is_strange setting_a after_five (1, item.Ended true) ≡ false }
{}

/// An order of two ranks' marks that is legal; one with a rank's marks exchanged, one with a mark of no rank, and one with a mark left out.
pub fn worked_legal()
    ensures legal { IsLegal two_alone (Meet 0 ∷ Solo 1 1 ∷ Solo 0 1 ∷ Meet 1 ∷ []) }
    ensures exchanged { IsLegal two_alone (Solo 0 1 ∷ Meet 0 ∷ Solo 1 1 ∷ Meet 1 ∷ []) → ⊥ }
    ensures of_no_rank { IsLegal two_alone (Meet 0 ∷ Solo 1 1 ∷ Solo 0 1 ∷ Solo 2 1 ∷ Meet 1 ∷ []) → ⊥ }
    ensures left_out { IsLegal two_alone (Meet 0 ∷ Solo 0 1 ∷ Meet 1 ∷ []) → ⊥ }
{}

/// What one rank puts and answers for what comes back to it.
#[tactic(auto, unfolding(crate::specs::HeaderBytes::canon))]
pub fn worked_rank()
    ensures waits { offered dataset_a first_of_halves [] ≡ item.Offer 0 offer_of_halves ∷ [] }
    ensures puts { offered dataset_a first_of_halves (Reply (reply_with []) ∷ []) ≡ item.Offer 0 offer_of_halves ∷ item.Ended false ∷ [] }
    ensures done { rank_stop dataset_a first_of_halves (Reply (reply_with []) ∷ []) ≡ Some Done }
    ensures answers { (rank_end dataset_a first_of_halves (Reply (reply_with []) ∷ [])).answers ≡ answer Ok ∷ [] }
    ensures stopped { rank_stop dataset_a first_of_halves (Stop ∷ []) ≡ Some Stopped }
    ensures misfit { rank_stop dataset_a first_of_halves (Reply (reply_with ((0 ∷ []) ∷ [])) ∷ []) ≡ Some Misfit }
    ensures misfit_puts { offered dataset_a first_of_halves (Reply (reply_with ((0 ∷ []) ∷ [])) ∷ []) ≡ item.Offer 0 offer_of_halves ∷ item.Ended false ∷ [] }
    ensures no_answer { (rank_end dataset_a first_of_halves (Stop ∷ [])).answers ≡ [] }
{}

/// What a refused device call leaves of the second of two puts: its bytes old or new, all others old, and the answer of the first put.
#[tactic(auto, unfolding(crate::specs::HeaderBytes::canon))]
pub fn worked_cut_run()
    ensures old { IsCutRun whole_then_ends dataset_a (file_a (0 ∷ 0 ∷ 0 ∷ 0 ∷ [])) Disk (Meet 0 ∷ []) (file_a (1 ∷ 2 ∷ 3 ∷ 4 ∷ [])) 0 ((answer Ok ∷ []) ∷ []) }
    ensures torn { IsCutRun whole_then_ends dataset_a (file_a (0 ∷ 0 ∷ 0 ∷ 0 ∷ [])) Disk (Meet 0 ∷ []) (file_a (7 ∷ 2 ∷ 3 ∷ 4 ∷ [])) 0 ((answer Ok ∷ []) ∷ []) }
    ensures neither { IsCutRun whole_then_ends dataset_a (file_a (0 ∷ 0 ∷ 0 ∷ 0 ∷ [])) Disk (Meet 0 ∷ []) (file_a (9 ∷ 2 ∷ 3 ∷ 4 ∷ [])) 0 ((answer Ok ∷ []) ∷ []) → ⊥ }
    ensures outside { IsCutRun whole_then_ends dataset_a (file_a (0 ∷ 0 ∷ 0 ∷ 0 ∷ [])) Disk (Meet 0 ∷ []) (file_a (1 ∷ 9 ∷ 3 ∷ 4 ∷ [])) 0 ((answer Ok ∷ []) ∷ []) → ⊥ }
    ensures answered { IsCutRun whole_then_ends dataset_a (file_a (0 ∷ 0 ∷ 0 ∷ 0 ∷ [])) Disk (Meet 0 ∷ []) (file_a (1 ∷ 2 ∷ 3 ∷ 4 ∷ [])) 0 ((answer Ok ∷ answer Ok ∷ []) ∷ []) → ⊥ }
    ensures unheard { IsCutRun whole_then_ends dataset_a (file_a (0 ∷ 0 ∷ 0 ∷ 0 ∷ [])) Disk (Meet 0 ∷ []) (file_a (1 ∷ 2 ∷ 3 ∷ 4 ∷ [])) 0 ([] ∷ []) → ⊥ }
{}

/// What a run may leave of a file before its ranks begin, with a byte else or one too many: of A's header as a file that is made longer, of
/// a file of three bytes in whose place A is created, of A's file that is redefined.
#[tactic(auto, unfolding(crate::specs::HeaderBytes::canon))]
pub fn worked_torn_opening()
    ensures longer { IsLengthened 96 header_a (header_a ++ replicate 4 0) }
    ensures not_zero { IsLengthened 96 header_a (header_a ++ 1 ∷ []) → ⊥ }
    ensures past_end { IsLengthened 96 header_a (header_a ++ replicate 17 0) → ⊥ }
    ensures old { IsTornCreation header_a (file_a (0 ∷ 0 ∷ 0 ∷ 0 ∷ [])) (1 ∷ 2 ∷ 3 ∷ []) (1 ∷ 2 ∷ 3 ∷ []) }
    ensures begun { IsTornCreation header_a (file_a (0 ∷ 0 ∷ 0 ∷ 0 ∷ [])) (1 ∷ 2 ∷ 3 ∷ []) (take 40 header_a ++ replicate 56 0) }
    ensures other { IsTornCreation header_a (file_a (0 ∷ 0 ∷ 0 ∷ 0 ∷ [])) (1 ∷ 2 ∷ 3 ∷ []) (take 40 header_a ++ 9 ∷ replicate 55 0) → ⊥ }
    ensures redefining { IsTornRedefinition 116 140 file_halves (canon dataset_aq ++ int_bytes (1 ∷ 2 ∷ 3 ∷ 4 ∷ []) ++ replicate 8 0) (file_halves ++ replicate 44 0) }
    ensures other_head { IsTornRedefinition 116 140 file_halves (canon dataset_aq ++ int_bytes (1 ∷ 2 ∷ 3 ∷ 4 ∷ []) ++ replicate 8 0)
        (written (file_halves ++ replicate 44 0) 79 (9 ∷ [])) → ⊥ }
{}

/// Bytes that three requests hold, and what pairs say of a place.
pub fn worked_shared()
    ensures pair { shared_pair_of three_holders ≡ Some (record { rank1 = 0; request1 = 7; rank2 = 1; request2 = 0; at = 2 }) }
    ensures none { shared_pair_of (((0, 7), 1 ∷ 2 ∷ []) ∷ ((0, 7), 2 ∷ 3 ∷ []) ∷ []) ≡ None }
    ensures last { said_at {A = ℕ} ((4, 1) ∷ (5, 2) ∷ (4, 3) ∷ []) 4 ≡ Some 3 }
    ensures unsaid { said_at {A = ℕ} ((4, 1) ∷ (5, 2) ∷ (4, 3) ∷ []) 6 ≡ None }
    ensures cells { write_cells (9 ∷ 9 ∷ 9 ∷ []) ((1, 1 ∷ 2 ∷ []) ∷ (2, 3 ∷ 4 ∷ []) ∷ []) ≡ 9 ∷ 1 ∷ 3 ∷ 4 ∷ [] }
{}

/// When a call's region is refused: of a variable with two million bytes, of one with four elements, and of a record variable.
#[tactic(auto, unfolding(crate::specs::HeaderBytes::canon))]
pub fn worked_regions()
    ensures many { check many_bytes 0 (packed_region (0 ∷ []) (1048576 ∷ []) (1 ∷ [])) 0 Put ≡ Ok }
    ensures too_many { check many_bytes 0 (packed_region (0 ∷ []) (1048577 ∷ []) (1 ∷ [])) 0 Put ≡ ETooLarge }
    ensures no_variable { check dataset_a 1 (packed_region (0 ∷ []) (1 ∷ []) (1 ∷ [])) 0 Put ≡ ENotVar }
    ensures other_shape { check dataset_a 0 (packed_region (0 ∷ 0 ∷ []) (1 ∷ []) (1 ∷ [])) 0 Put ≡ EInvalCoords }
    ensures no_stride { check dataset_a 0 (packed_region (9 ∷ []) (1 ∷ []) (0 ∷ [])) 0 Put ≡ EStride }
    ensures start_past { check dataset_a 0 (packed_region (4 ∷ []) (1 ∷ []) (1 ∷ [])) 0 Put ≡ EInvalCoords }
    ensures start_at_end { check dataset_a 0 (packed_region (4 ∷ []) (0 ∷ []) (1 ∷ [])) 0 Put ≡ Ok }
    ensures edge { check dataset_a 0 (packed_region (3 ∷ []) (2 ∷ []) (1 ∷ [])) 0 Put ≡ EEdge }
    ensures new_record { check dataset_b 0 (packed_region (3 ∷ []) (1 ∷ []) (1 ∷ [])) 3 Put ≡ Ok }
    ensures unknown_record { check dataset_b 0 (packed_region (3 ∷ []) (1 ∷ []) (1 ∷ [])) 3 Get ≡ EInvalCoords }
    ensures last_record { check dataset_b 0 (packed_region (2147483646 ∷ []) (1 ∷ []) (1 ∷ [])) 0 Put ≡ Ok }
    ensures past_records { check dataset_b 0 (packed_region (2147483647 ∷ []) (1 ∷ []) (1 ∷ [])) 0 Put ≡ ETooLarge }
    ensures reach { map (λ step. check many_bytes 0 (region (0 ∷ []) (2 ∷ []) (1 ∷ []) (step ∷ [])) 0 Put) ((2 ^ 20 - 1) ∷ 2 ^ 20 ∷ []) ≡ Ok ∷ ETooLarge ∷ [] }
    ensures no_reach { check many_bytes 0 (region (0 ∷ []) (0 ∷ []) (1 ∷ []) (2 ^ 20 ∷ [])) 0 Put ≡ Ok }
    ensures strided_records { records_of dataset_b (var 115 Short (0 ∷ [])) (packed_region (1 ∷ []) (3 ∷ []) (2 ∷ [])) ≡ 6 }
    ensures whole { widen dataset_b (var 115 Short (0 ∷ [])) (given form.Var [] [] []) 3 ≡ packed_region (0 ∷ []) (3 ∷ []) (1 ∷ []) }
{}
