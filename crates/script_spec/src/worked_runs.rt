//! Runs from the text of a script: answers, files and device calls.
#![tactic(auto, unfolding(crate::proofs::Words::digits, crate::proofs::Words::canon))]

ghost use Rattle.std.specs.Prelude.{◌≡◌, ◌+◌, [], ◌∷◌, ◌++◌, replicate};
ghost use Rattle.script_spec.specs.TextExamples.{fault_at, printed, data_of, calls_made, script_read, opened, printed_on, calls_on};
ghost use Rattle.nc_base.specs.declared.step.Mark.TheVariants.{Meet, Solo};
ghost use Rattle.nc_base.specs.declared.step.DiskCall.TheVariants.{Grow, Load, Store};
ghost use Rattle.script_spec.specs.ScriptGrammar.{fault_of, script_of_utf8};
ghost use Rattle.script_spec.specs.Shown.{shown};
ghost use Rattle.script_spec.specs.RunScripts.{script_close, printed_close, script_gets, script_none, script_two_records, script_chars, printed_none, printed_chars, script_overlap, script_refusals, script_kinds, script_independent, script_known, script_modes, script_map, script_serial, printed_overlap, printed_refusals, printed_kinds, printed_known, printed_modes, printed_map, script_uint64, printed_uint64, script_scalar, printed_scalar};
ghost use Rattle.script_spec.specs.ModeScripts.{script_both_modes, printed_both_modes, script_sync, printed_sync, script_put_first, printed_put_first, script_sieved};
ghost use Rattle.script_spec.specs.RecordScripts.{script_record_twice, printed_record_twice, script_odd_records, script_opened_records, printed_opened_records, script_fill_beside_records};
ghost use Rattle.script_spec.specs.PostScripts.{script_cancelled, script_left, printed_cancelled, printed_left, script_three, printed_three, script_ten, printed_ten, script_buffer, script_items, printed_buffer, printed_items, script_varn_post, printed_varn_post, script_serial_posts, printed_serial_posts, script_buffer_of_bputs, printed_buffer_of_bputs, script_get_beside_pair, printed_get_beside_pair};
ghost use Rattle.script_spec.specs.ManyRegionScripts.{script_varn, printed_varn, script_varn_self, printed_varn_self, script_varn_self_far, printed_varn_self_far, script_varn_empty, printed_varn_empty, script_varn_refused, printed_varn_refused};
ghost use Rattle.script_spec.specs.DatasetScripts.{script_fill, printed_fill, script_fill_record, printed_fill_record, script_fill_fixed, printed_fill_fixed, script_opened, printed_opened, script_added, printed_added};
ghost use Rattle.serial_spec.specs.Examples.{int_bytes, dataset_a, file_halves, dataset_a_moved, file_moved, dataset_b_4, file_records};
ghost use Rattle.script_spec.specs.FaultyScripts.{faulty_fill_twice, faulty_no_part, faulty_many_parts, faulty_part};
ghost use Rattle.nc_base.specs.declared.errors.ScriptKind.TheVariants as kind;
ghost use Rattle.nc_base.specs.declared.errors.LimitName.TheVariants as limit;

/// The printed text of small runs.
pub fn worked_answers()
    ensures overlap { printed script_overlap (Meet 0 ∷ []) ≡ printed_overlap }
    ensures refusals { printed script_refusals (Meet 0 ∷ Meet 1 ∷ Meet 2 ∷ Meet 3 ∷ []) ≡ printed_refusals }
    ensures buffer { printed script_buffer (Meet 0 ∷ []) ≡ printed_buffer }
    ensures kinds { printed script_kinds (Meet 0 ∷ Meet 1 ∷ Meet 2 ∷ Meet 3 ∷ Meet 4 ∷ []) ≡ printed_kinds }
    ensures items { printed script_items (Meet 0 ∷ []) ≡ printed_items }
    ensures known { printed script_known (Meet 0 ∷ Solo 0 1 ∷ Solo 1 2 ∷ Meet 1 ∷ []) ≡ printed_known }
    ensures modes { printed script_modes (Meet 0 ∷ Meet 1 ∷ Meet 2 ∷ Meet 3 ∷ []) ≡ printed_modes }
    ensures index_map { printed script_map (Meet 0 ∷ Meet 1 ∷ Meet 2 ∷ []) ≡ printed_map }
    ensures scalar { printed script_scalar (Meet 0 ∷ Meet 1 ∷ []) ≡ printed_scalar }
{}

/// Calls that a mode refuses or takes, the record count that a sync makes known, an independent wait, an independent put in small windows.
pub fn worked_modes()
    ensures both { printed script_both_modes (Meet 0 ∷ Meet 1 ∷ Meet 2 ∷ Meet 3 ∷ Meet 4 ∷ Meet 5 ∷ Solo 0 12 ∷ Meet 6 ∷ []) ≡ printed_both_modes }
    ensures sync { printed script_sync (Meet 0 ∷ Solo 0 1 ∷ Meet 1 ∷ Meet 2 ∷ []) ≡ printed_sync }
    ensures put_first { printed script_put_first (Meet 0 ∷ Solo 0 3 ∷ Meet 1 ∷ []) ≡ printed_put_first }
    ensures sieved { calls_made script_sieved (Meet 0 ∷ Solo 0 1 ∷ Meet 1 ∷ []) ≡ Store 80 4 ∷ Store 88 6 ∷ Store 94 2 ∷ [] }
{}

/// Records: two puts of the same new record, which make none; every second record; the records of an opened dataset; no fill of records.
pub fn worked_records()
    ensures twice_text { printed script_record_twice (Meet 0 ∷ []) ≡ printed_record_twice }
    ensures twice_data { data_of script_record_twice (Meet 0 ∷ []) ≡ [] }
    ensures twice_calls { calls_made script_record_twice (Meet 0 ∷ []) ≡ [] }
    ensures odd_calls { calls_made script_odd_records (Meet 0 ∷ []) ≡ Grow 92 ∷ Load 82 10 ∷ Store 82 10 ∷ Store 4 4 ∷ [] }
    ensures opened_text { printed_on script_opened_records dataset_b_4 file_records (Meet 0 ∷ Meet 1 ∷ []) ≡ printed_opened_records }
    ensures fill_data { data_of script_fill_beside_records [] ≡ 129 ∷ 129 ∷ 0 ∷ 0 ∷ [] }
{}

/// The data of small runs.
pub fn worked_files()
    ensures overlap { data_of script_overlap (Meet 0 ∷ []) ≡ 0 ∷ 0 ∷ 0 ∷ 0 ∷ 0 ∷ 0 ∷ 0 ∷ 0 ∷ 0 ∷ 0 ∷ 0 ∷ 0 ∷ 0 ∷ 0 ∷ 0 ∷ 0 ∷ [] }
    ensures refusals { data_of script_refusals (Meet 0 ∷ Meet 1 ∷ Meet 2 ∷ Meet 3 ∷ []) ≡ 0 ∷ 0 ∷ 0 ∷ 5 ∷ 0 ∷ 0 ∷ 0 ∷ 0 ∷ 0 ∷ 0 ∷ 0 ∷ 0 ∷ 0 ∷ 0 ∷ 0 ∷ 0 ∷ [] }
    ensures buffer { data_of script_buffer (Meet 0 ∷ []) ≡ 0 ∷ 0 ∷ 0 ∷ 1 ∷ 0 ∷ 0 ∷ 0 ∷ 2 ∷ 0 ∷ 0 ∷ 0 ∷ 0 ∷ 0 ∷ 0 ∷ 0 ∷ 0 ∷ [] }
    ensures independent { data_of script_independent (Meet 0 ∷ Solo 0 1 ∷ Solo 1 1 ∷ Meet 1 ∷ []) ≡ 0 ∷ 0 ∷ 0 ∷ 1 ∷ 0 ∷ 0 ∷ 0 ∷ 2 ∷ 0 ∷ 0 ∷ 0 ∷ 3 ∷ 0 ∷ 0 ∷ 0 ∷ 4 ∷ [] }
    ensures modes { data_of script_modes (Meet 0 ∷ Meet 1 ∷ Meet 2 ∷ Meet 3 ∷ []) ≡ 0 ∷ 0 ∷ 0 ∷ 0 ∷ 0 ∷ 0 ∷ 0 ∷ 0 ∷ 0 ∷ 0 ∷ 0 ∷ 0 ∷ 0 ∷ 0 ∷ 0 ∷ 0 ∷ [] }
    ensures serial { data_of script_serial (Meet 0 ∷ []) ≡ 0 ∷ 0 ∷ 0 ∷ 1 ∷ 0 ∷ 0 ∷ 0 ∷ 2 ∷ 0 ∷ 0 ∷ 0 ∷ 8 ∷ 0 ∷ 0 ∷ 0 ∷ 9 ∷ [] }
{}

/// The device calls of small runs from their scripts.
pub fn worked_calls()
    ensures overlap { calls_made script_overlap (Meet 0 ∷ []) ≡ [] }
    ensures independent { calls_made script_independent (Meet 0 ∷ Solo 0 1 ∷ Solo 1 1 ∷ Meet 1 ∷ []) ≡ Load 80 12 ∷ Store 80 12 ∷ Load 84 12 ∷ Store 84 12 ∷ [] }
    ensures known { calls_made script_known (Meet 0 ∷ Solo 0 1 ∷ Solo 1 2 ∷ Meet 1 ∷ []) ≡ Grow 86 ∷ Store 84 2 ∷ Store 4 4 ∷ [] }
    ensures modes { calls_made script_modes (Meet 0 ∷ Meet 1 ∷ Meet 2 ∷ Meet 3 ∷ []) ≡ [] }
    ensures serial { calls_made script_serial (Meet 0 ∷ []) ≡ Store 80 6 ∷ Store 86 6 ∷ Store 92 4 ∷ [] }
{}

/// More printed text of small runs.
pub fn worked_requests()
    ensures three { printed script_three (Meet 0 ∷ []) ≡ printed_three }
    ensures ten { printed script_ten (Meet 0 ∷ Meet 1 ∷ []) ≡ printed_ten }
    ensures ten_calls { calls_made script_ten (Meet 0 ∷ Meet 1 ∷ []) ≡ Store 80 40 ∷ [] }
    ensures buffer_of_bputs { printed script_buffer_of_bputs [] ≡ printed_buffer_of_bputs }
    ensures get_beside_pair { printed script_get_beside_pair (Meet 0 ∷ []) ≡ printed_get_beside_pair }
{}

/// Runs at the edges.
pub fn worked_edges()
    ensures none_text { printed script_none (Meet 0 ∷ []) ≡ printed_none }
    ensures none_calls { calls_made script_none (Meet 0 ∷ []) ≡ [] }
    ensures two_records_data { data_of script_two_records (Meet 0 ∷ []) ≡ 0 ∷ 0 ∷ 0 ∷ 0 ∷ 0 ∷ 0 ∷ 0 ∷ 0 ∷ 0 ∷ 5 ∷ 0 ∷ 0 ∷ 0 ∷ 0 ∷ 0 ∷ 0 ∷ [] }
    ensures two_records_calls { calls_made script_two_records (Meet 0 ∷ []) ≡ Grow 132 ∷ Store 124 2 ∷ Store 4 4 ∷ [] }
    ensures cancelled_text { printed script_cancelled (Meet 0 ∷ []) ≡ printed_cancelled }
    ensures cancelled_data { data_of script_cancelled (Meet 0 ∷ []) ≡ 0 ∷ 4 ∷ [] }
    ensures left_text { printed script_left [] ≡ printed_left }
    ensures left_data { data_of script_left [] ≡ 0 ∷ 0 ∷ 0 ∷ 0 ∷ 0 ∷ 0 ∷ 0 ∷ 0 ∷ 0 ∷ 0 ∷ 0 ∷ 0 ∷ 0 ∷ 0 ∷ 0 ∷ 0 ∷ [] }
    ensures left_calls { calls_made script_left [] ≡ [] }
    ensures chars_text { printed script_chars (Meet 0 ∷ Meet 1 ∷ Meet 2 ∷ Meet 3 ∷ Meet 4 ∷ []) ≡ printed_chars }
{}

/// The close, and independent gets.
pub fn worked_close()
    ensures text { printed script_close (Meet 0 ∷ Solo 0 1 ∷ Solo 0 2 ∷ Solo 0 3 ∷ []) ≡ printed_close }
    ensures calls { calls_made script_close (Meet 0 ∷ Solo 0 1 ∷ Solo 0 2 ∷ Solo 0 3 ∷ [])
        ≡ Grow 86 ∷ Store 84 2 ∷ Load 84 2 ∷ Load 80 6 ∷ Store 4 4 ∷ [] }
    ensures gets { calls_made script_gets (Meet 0 ∷ Meet 1 ∷ Solo 0 2 ∷ [])
        ≡ Load 80 16 ∷ Load 80 3 ∷ Load 83 1 ∷ Load 92 3 ∷ Load 95 1 ∷ [] }
{}

/// Calls of many regions.
pub fn worked_many_regions()
    ensures varn_text { printed script_varn (Meet 0 ∷ Meet 1 ∷ []) ≡ printed_varn }
    ensures varn_data { data_of script_varn (Meet 0 ∷ Meet 1 ∷ []) ≡ int_bytes (8 ∷ 9 ∷ 0 ∷ 7 ∷ []) }
    ensures varn_calls { calls_made script_varn (Meet 0 ∷ Meet 1 ∷ []) ≡ Load 80 16 ∷ Store 80 16 ∷ Load 80 16 ∷ [] }
    ensures self_text { printed script_varn_self (Meet 0 ∷ []) ≡ printed_varn_self }
    ensures self_far { printed script_varn_self_far (Meet 0 ∷ []) ≡ printed_varn_self_far }
    ensures self_data { data_of script_varn_self (Meet 0 ∷ []) ≡ replicate 16 0 }
    ensures empty_text { printed script_varn_empty (Meet 0 ∷ []) ≡ printed_varn_empty }
    ensures empty_data { data_of script_varn_empty (Meet 0 ∷ []) ≡ int_bytes (5 ∷ 0 ∷ 0 ∷ 0 ∷ []) }
    ensures post_text { printed script_varn_post (Meet 0 ∷ []) ≡ printed_varn_post }
    ensures post_data { data_of script_varn_post (Meet 0 ∷ []) ≡ int_bytes (8 ∷ 0 ∷ 0 ∷ 7 ∷ []) }
    ensures post_calls { calls_made script_varn_post (Meet 0 ∷ []) ≡ Load 80 16 ∷ Store 80 16 ∷ [] }
    ensures refused_text { printed script_varn_refused (Meet 0 ∷ Meet 1 ∷ []) ≡ printed_varn_refused }
    ensures again { script_read (shown (script_read script_varn)) ≡ script_read script_varn }
    ensures no_part { fault_of (script_of_utf8 faulty_no_part) ≡ fault_at 6 kind.BadNumber }
    ensures many_parts { fault_of (script_of_utf8 faulty_many_parts) ≡ fault_at 6 (kind.Limit limit.Parts) }
    ensures missing_part { fault_of (script_of_utf8 faulty_part) ≡ fault_at 6 kind.MissingWord }
{}

/// Fill values, of a created file and of records.
pub fn worked_fills()
    ensures fill_text { printed script_fill (Meet 0 ∷ Meet 1 ∷ []) ≡ printed_fill }
    ensures fill_opening { opened script_fill ≡ Grow 96 ∷ Store 0 80 ∷ Store 80 16 ∷ [] }
    ensures record_text { printed script_fill_record (Meet 0 ∷ []) ≡ printed_fill_record }
    ensures record_data { data_of script_fill_record (Meet 0 ∷ []) ≡ replicate 6 0 ++ replicate 6 255 }
    ensures record_calls { calls_made script_fill_record (Meet 0 ∷ []) ≡ Grow 136 ∷ Store 130 3 ∷ Store 133 3 ∷ Store 4 4 ∷ [] }
    ensures fixed_text { printed script_fill_fixed (Meet 0 ∷ Meet 1 ∷ []) ≡ printed_fill_fixed }
    ensures fixed_calls { calls_made script_fill_fixed (Meet 0 ∷ Meet 1 ∷ []) ≡ [] }
    ensures again { script_read (shown (script_read script_fill)) ≡ script_read script_fill }
    ensures twice { fault_of (script_of_utf8 faulty_fill_twice) ≡ fault_at 3 kind.TwiceNamed }
{}

/// Overlapping puts of one rank in serial order, and the greatest number of 64 bits.
pub fn worked_orders()
    ensures serial_text { printed script_serial_posts (Meet 0 ∷ []) ≡ printed_serial_posts }
    ensures serial_data { data_of script_serial_posts (Meet 0 ∷ []) ≡ int_bytes (1 ∷ 3 ∷ 4 ∷ 0 ∷ []) }
    ensures serial_calls { calls_made script_serial_posts (Meet 0 ∷ []) ≡ Store 80 12 ∷ [] }
    ensures uint64_text { printed script_uint64 (Meet 0 ∷ Meet 1 ∷ []) ≡ printed_uint64 }
    ensures uint64_data { data_of script_uint64 (Meet 0 ∷ Meet 1 ∷ []) ≡ replicate 8 255 ++ replicate 24 0 }
{}

/// Datasets that are opened, one with room behind its header, and one to which a variable is added.
pub fn worked_opened()
    ensures opened_text { printed_on script_opened dataset_a file_halves (Meet 0 ∷ []) ≡ printed_opened }
    ensures opened_calls { calls_on script_opened dataset_a file_halves (Meet 0 ∷ []) ≡ Load 0 96 ∷ Load 80 16 ∷ [] }
    ensures room_text { printed_on script_opened dataset_a_moved file_moved (Meet 0 ∷ []) ≡ printed_opened }
    ensures added_text { printed_on script_added dataset_a file_halves (Meet 0 ∷ Meet 1 ∷ []) ≡ printed_added }
    ensures added_calls { calls_on script_added dataset_a file_halves (Meet 0 ∷ Meet 1 ∷ [])
        ≡ Load 0 96 ∷ Grow 140 ∷ Load 80 16 ∷ Store 116 16 ∷ Store 132 8 ∷ Store 0 116 ∷ Load 116 16 ∷ Load 132 8 ∷ [] }
{}
