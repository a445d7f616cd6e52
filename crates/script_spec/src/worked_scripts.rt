//! What scripts mean, and which are refused.
#![tactic(auto, unfolding(crate::proofs::Words::digits, crate::proofs::Words::canon))]

ghost use Rattle.std.specs.Prelude.{◌≡◌, ℕ, List, nat_lt, ◌^◌, ◌+◌, ◌-◌, [], ◌∷◌, ◌++◌, length, map, replicate, Some, None, pos, true, codes, Ok, Err, false};
ghost use Rattle.serial_spec.specs.SoundHeaders.{is_writable};
ghost use Rattle.serial_spec.specs.Examples.{laid_out};
ghost use Rattle.script_spec.specs.TextExamples.{script_halves, halves_read, fault_at, start_lines, script_read, hint_read, values_read};
ghost use Rattle.script_spec.specs.ScriptGrammar.{fault_of, script_fault, script_of_lines, script_of_utf8, within_lines};
ghost use Rattle.script_spec.specs.ScriptWords.{words, is_name, bits_of_text, size_of_text};
ghost use Rattle.script_spec.specs.ScriptCalls.{call_of};
ghost use Rattle.script_spec.specs.Shown.{shown, shown_call};
ghost use Rattle.script_spec.specs.Texts.{text_line};
ghost use Rattle.script_spec.specs.RunScripts.{script_modes};
ghost use Rattle.script_spec.specs.ManyRegionScripts.{script_varn};
ghost use Rattle.script_spec.specs.DatasetScripts.{script_atts, script_fill_record, script_extras};
ghost use Rattle.script_spec.specs.FaultyScripts.{faulty_unclosed, faulty_escape, faulty_glued, faulty_extra, faulty_name, faulty_later_record, faulty_kind, faulty_post_twice, faulty_opened, faulty_fits, faulty_new_type, faulty_extra_twice, faulty_extra_shape, faulty_without_end, faulty_after_end, faulty_dimensions};
ghost use Rattle.serial_spec.specs.Lawful.{is_lawful};
ghost use Rattle.nc_base.specs.declared.errors.ScriptKind.TheVariants as kind;
ghost use Rattle.nc_base.specs.declared.script.Script.{Script};
ghost use Rattle.nc_base.specs.declared.errors.LimitName.TheVariants as limit;
ghost use Rattle.nc_base.specs.declared.request.Choice.TheVariants.{Listed};
ghost use Rattle.nc_base.specs.declared.request.Values.TheVariants.{Bits, Numbers};
ghost use Rattle.nc_base.specs.declared.request.Call.TheVariants as call;

/// A script is read, and what is shown of it is read again.
pub fn worked_script()
    ensures right { fault_of (script_of_utf8 script_halves) ≡ None }
    ensures read { script_of_utf8 script_halves ≡ Ok halves_read }
    ensures again { script_of_utf8 (shown halves_read) ≡ Ok halves_read }
{}

/// Scripts with a fault.
pub fn worked_script_faults()
    ensures ranks_twice { fault_of (script_of_utf8 (start_lines ++ text_line (codes "ranks 1")))
        ≡ fault_at 3 kind.TwiceNamed }
    ensures no_ranks { fault_of (script_of_utf8 (text_line (codes "create 1") ++ text_line (codes "dim x 4") ++ text_line (codes "data")))
        ≡ fault_at 3 kind.MissingWord }
    ensures no_dim { fault_of (script_of_utf8 (start_lines ++ text_line (codes "var int v [x]")))
        ≡ fault_at 3 kind.UnknownName }
    ensures bad_rank { fault_of (script_of_utf8 (start_lines ++ text_line (codes "data") ++ text_line (codes "1 buffer_detach")))
        ≡ fault_at 4 kind.BadRank }
    ensures large_rank { fault_of (script_of_utf8 (start_lines ++ text_line (codes "data") ++ text_line (codes "999999999999999999999999 buffer_detach")))
        ≡ fault_at 4 kind.BadRank }
    ensures version { fault_of (script_of_utf8 (text_line (codes "create 7")))
        ≡ fault_at 1 kind.BadNumber }
    ensures two_unlimited { fault_of (script_of_utf8 (start_lines ++ text_line (codes "dim t unlimited") ++ text_line (codes "dim u unlimited")))
        ≡ fault_at 4 kind.BadShape }
    ensures nothing { fault_of (script_of_utf8 ([]))
        ≡ fault_at 1 kind.NoHead }
    ensures no_end { fault_of (script_of_utf8 (start_lines ++ text_line (codes "data")))
        ≡ fault_at 4 kind.NoEnd }
    ensures after_end { fault_of (script_of_utf8 (start_lines ++ text_line (codes "data") ++ text_line (codes "end") ++ text_line (codes "x")))
        ≡ fault_at 5 kind.AfterEnd }
    ensures elements { fault_of (script_of_utf8 (start_lines ++ text_line (codes "var byte c []") ++ text_line (codes "data") ++ text_line (codes "0 put_var_all c seq 1048577 0 0")))
        ≡ fault_at 5 (kind.Limit limit.Elements) }
    ensures mismatch { fault_of (script_of_utf8 (text_line (codes "create 1") ++ text_line (codes "ranks 2") ++ text_line (codes "dim x 4") ++ text_line (codes "var int v [x]") ++ text_line (codes "data") ++ text_line (codes "0 iput_var1 0 v [0] 9") ++ text_line (codes "0 wait_all all") ++ text_line (codes "end")))
        ≡ fault_at 8 (kind.Mismatch 0 0 1) }
{}

/// Texts past the limits of bytes and of lines: of 2^20 + 1 lines the fault is that limit, but for one of a line before.
pub fn worked_limits()
    ensures bytes { (text : List ℕ) → nat_lt (2 ^ 26) (length text) ≡ true → script_fault text ≡ fault_at 1 (kind.Limit limit.Script) }
    ensures no_line { fault_of (script_of_lines (2 ^ 20 + 1) []) ≡ fault_at 1 kind.NoHead }
    ensures no_line_past { fault_of (script_of_lines (2 ^ 20 + 2) []) ≡ fault_at 1048577 (kind.Limit limit.Lines) }
    ensures whole { (s : Script) → fault_of (within_lines (2 ^ 20 + 1) (Ok s)) ≡ fault_at 1048577 (kind.Limit limit.Lines) }
    ensures before { fault_of (within_lines (2 ^ 20 + 1) (script_of_utf8 (text_line (codes "x")))) ≡ fault_at 1 kind.NoHead }
    ensures differ { fault_of (within_lines (2 ^ 20 + 1) (Err (record { line = 8; kind = kind.Mismatch 0 0 1 }))) ≡ fault_at 1048577 (kind.Limit limit.Lines) }
{}

/// Texts that are not UTF-8: a byte that begins no character, a second byte that can't follow, a character that is cut off. The line is that
/// of the first byte that is no part of a text.
pub fn worked_bytes()
    ensures no_first { script_fault (text_line (codes "create 1") ++ 0xFF ∷ []) ≡ fault_at 2 kind.NotUtf8 }
    ensures no_second { script_fault (10 ∷ 0xED ∷ 0xA0 ∷ 0x80 ∷ []) ≡ fault_at 2 kind.NotUtf8 }
    ensures cut_off { script_fault (codes "# " ++ 0xC3 ∷ 0xA9 ∷ 10 ∷ 35 ∷ 0xC3 ∷ 10 ∷ []) ≡ fault_at 2 kind.NotUtf8 }
    ensures text { script_fault (codes "# " ++ 0xC3 ∷ 0xA9 ∷ 10 ∷ []) ≡ fault_at 1 kind.NoHead }
{}

/// Where a word is looked at, and what it is then.
pub fn worked_readings()
    ensures long_rank { fault_of (script_of_utf8 (start_lines ++ text_line (codes "data") ++ text_line (codes "0000000000000000000000000 buffer_detach") ++ text_line (codes "end")))
        ≡ None }
    ensures text_for_rank { fault_of (script_of_utf8 (start_lines ++ text_line (codes "data") ++ text_line (codes "\"x")))
        ≡ fault_at 4 kind.BadText }
    ensures closed_for_rank { fault_of (script_of_utf8 (start_lines ++ text_line (codes "data") ++ text_line (codes "\"x\"")))
        ≡ fault_at 4 kind.UnknownWord }
    ensures text_for_head { fault_of (script_of_utf8 (text_line (codes "\"x")))
        ≡ fault_at 1 kind.NoHead }
    ensures first_value { fault_of (script_of_utf8 (start_lines ++ text_line (codes "att : a byte 128 \"x")))
        ≡ fault_at 3 kind.BadNumber }
    ensures second_value { fault_of (script_of_utf8 (start_lines ++ text_line (codes "att : a byte 127 \"x")))
        ≡ fault_at 3 kind.BadText }
    ensures no_sequence { fault_of (script_of_utf8 (start_lines ++ text_line (codes "att : a char seq 0 1 1") ++ text_line (codes "data") ++ text_line (codes "end")))
        ≡ None }
    ensures other_sequence { fault_of (script_of_utf8 (start_lines ++ text_line (codes "att : a float seq 1 \"x")))
        ≡ fault_at 3 kind.BadNumber }
    ensures first_term { fault_of (script_of_utf8 (start_lines ++ text_line (codes "att : a byte seq 2 128 \"x")))
        ≡ fault_at 3 kind.BadNumber }
    ensures last_term { fault_of (script_of_utf8 (start_lines ++ text_line (codes "att : a byte seq 3 126 1")))
        ≡ fault_at 3 kind.BadNumber }
    ensures empty_text { fault_of (script_of_utf8 (start_lines ++ text_line (codes "att : a int \"\"")))
        ≡ fault_at 3 kind.BadNumber }
    ensures last_line { fault_of (script_of_utf8 (start_lines ++ codes "data"))
        ≡ fault_at 4 kind.NoEnd }
    ensures after_end { fault_of (script_of_utf8 (text_line (codes "create 1") ++ text_line (codes "ranks 2") ++ text_line (codes "data") ++ text_line (codes "0 sync_numrecs") ++ text_line (codes "end") ++ text_line (codes "end")))
        ≡ fault_at 6 kind.AfterEnd }
    ensures two_ranks { fault_of (script_of_utf8 (text_line (codes "create 1") ++ text_line (codes "ranks 4") ++ text_line (codes "data") ++ text_line (codes "3 sync_numrecs") ++ text_line (codes "2 sync_numrecs") ++ text_line (codes "end")))
        ≡ fault_at 6 (kind.Mismatch 0 0 2) }
{}

/// Words of every kind are read, shown and read again, and more faults.
pub fn worked_words()
    ensures right { fault_of (script_of_utf8 script_atts) ≡ None }
    ensures again { script_read (shown (script_read script_atts)) ≡ script_read script_atts }
    ensures sound { is_writable (laid_out (script_read script_atts).header) ≡ true }
    ensures unclosed { fault_of (script_of_utf8 faulty_unclosed) ≡ fault_at 5 kind.BadText }
    ensures escape { fault_of (script_of_utf8 faulty_escape) ≡ fault_at 3 kind.BadText }
    ensures glued { fault_of (script_of_utf8 faulty_glued) ≡ fault_at 3 kind.BadText }
    ensures extra_word { fault_of (script_of_utf8 faulty_extra) ≡ fault_at 2 kind.ExtraWord }
    ensures bad_name { fault_of (script_of_utf8 faulty_name) ≡ fault_at 3 kind.BadName }
    ensures later_record { fault_of (script_of_utf8 faulty_later_record) ≡ fault_at 5 kind.BadShape }
    ensures bad_kind { fault_of (script_of_utf8 faulty_kind) ≡ fault_at 6 kind.BadNumber }
    ensures post_twice { fault_of (script_of_utf8 faulty_post_twice) ≡ fault_at 7 kind.TwiceNamed }
    ensures fill_after_open { fault_of (script_of_utf8 faulty_opened) ≡ fault_at 3 kind.UnknownWord }
    ensures bad_value { fault_of (script_of_utf8 faulty_fits) ≡ fault_at 3 kind.BadNumber }
    ensures new_type { fault_of (script_of_utf8 faulty_new_type) ≡ fault_at 3 kind.UnknownWord }
    ensures without_end { fault_of (script_of_utf8 faulty_without_end) ≡ fault_at 8 kind.NoEnd }
    ensures text_after_end { fault_of (script_of_utf8 faulty_after_end) ≡ fault_at 9 kind.AfterEnd }
    ensures many_dimensions { fault_of (script_of_utf8 faulty_dimensions) ≡ fault_at 4 (kind.Limit limit.VarDims) }
{}

/// Hints at and past the ends of their ranges: the place of the hint in the table with its value, or the fault.
pub fn worked_hints()
    ensures nodes { map hint_read (codes "cb_nodes 64" ∷ codes "cb_nodes 65" ∷ codes "cb_nodes 0" ∷ []) ≡ Ok (0, 64) ∷ Err kind.BadNumber ∷ Err kind.BadNumber ∷ [] }
    ensures buffers { map hint_read (codes "cb_buffer_size 33554432" ∷ codes "cb_buffer_size 33554433" ∷ codes "ind_rd_buffer_size 33554433" ∷ codes "ind_wr_buffer_size 33554433" ∷ [])
        ≡ Ok (1, 33554432) ∷ Err kind.BadNumber ∷ Err kind.BadNumber ∷ Err kind.BadNumber ∷ [] }
    ensures line_room { hint_read (codes "line_room 65") ≡ Err kind.BadNumber }
    ensures alignments { map hint_read (codes "nc_header_align_size 6" ∷ codes "nc_header_align_size 0" ∷ codes "nc_var_align_size 1048576" ∷ codes "nc_var_align_size 1048580" ∷ [])
        ≡ Err kind.BadNumber ∷ Err kind.BadNumber ∷ Ok (8, 1048576) ∷ Err kind.BadNumber ∷ [] }
    ensures striping { hint_read (codes "striping_unit 33554433") ≡ Err kind.BadNumber }
    ensures other_word { hint_read (codes "overlap no") ≡ Err kind.UnknownWord }
{}

/// Names, bits and sizes at and past the ends of their forms.
pub fn worked_forms()
    ensures names { map is_name (codes "a.-+@_9Z" ∷ codes ".a" ∷ codes "-a" ∷ codes "_" ∷ codes "9" ∷ replicate 256 97 ∷ replicate 257 97 ∷ [])
        ≡ true ∷ false ∷ false ∷ true ∷ true ∷ true ∷ false ∷ [] }
    ensures bits { map bits_of_text (codes "xaF09" ∷ codes "x" ∷ codes "xg" ∷ codes "xffffffffffffffff" ∷ codes "x0ffffffffffffffff" ∷ [])
        ≡ Some 44809 ∷ None ∷ None ∷ Some (2 ^ 64 - 1) ∷ None ∷ [] }
    ensures sizes { map size_of_text (codes "9223372036854775807" ∷ codes "9223372036854775808" ∷ codes "00000000000000000001" ∷ codes "000000000000000000001" ∷ [])
        ≡ Some (2 ^ 63 - 1) ∷ None ∷ Some 1 ∷ None ∷ [] }
{}

/// Sequences of numbers and of bits: their values, their last value within its range and past it, and none.
pub fn worked_sequences()
    ensures bits { values_read (codes "seqx 3 x1 xF") ≡ Ok (Bits (1 ∷ 16 ∷ 31 ∷ [])) }
    ensures last_bits { map values_read (codes "seqx 2 x1 xFFFFFFFFFFFFFFFE" ∷ codes "seqx 2 x1 xFFFFFFFFFFFFFFFF" ∷ []) ≡ Ok (Bits (1 ∷ (2 ^ 64 - 1) ∷ [])) ∷ Err kind.BadNumber ∷ [] }
    ensures no_bits { map values_read (codes "seqx 0 x1 x1" ∷ codes "seqx 1 1 x1" ∷ codes "seqx 1 x1 1" ∷ []) ≡ Ok (Numbers []) ∷ Err kind.BadNumber ∷ Err kind.BadNumber ∷ [] }
    ensures last_number { map values_read (codes "seq 2 99999999999999999998 1" ∷ codes "seq 2 99999999999999999999 1" ∷ codes "seq 1 99999999999999999999 1" ∷ [])
        ≡ Ok (Numbers (pos 99999999999999999998 ∷ pos 99999999999999999999 ∷ [])) ∷ Err kind.BadNumber ∷ Ok (Numbers (pos 99999999999999999999 ∷ [])) ∷ [] }
{}

/// Calls that name no region, one of each family, as rank 1 of 2 makes them: read, and shown.
pub fn worked_plain_calls()
    ensures requests { call_of 2 1 [] 0 (codes "cancel") (words (codes "3 4")) ≡ Ok (call.Cancel (Listed (3 ∷ 4 ∷ []))) }
    ensures size { call_of 2 1 [] 0 (codes "buffer_attach") (words (codes "64")) ≡ Ok (call.Attach 64) }
    ensures name { call_of 2 1 [] 0 (codes "inq_dimlen") (words (codes "x")) ≡ Ok (call.InqDim (codes "x")) }
    ensures record_place { call_of 2 1 [] 0 (codes "fill_var_rec") (words (codes "s 3")) ≡ Ok (call.FillRec (codes "s") 3 1 2) }
    ensures nothing { call_of 2 1 [] 0 (codes "sync_numrecs") [] ≡ Ok call.SyncRecords }
    ensures extra_word { call_of 2 1 [] 0 (codes "sync_numrecs") (words (codes "x")) ≡ Err kind.ExtraWord }
    ensures unknown { call_of 2 1 [] 0 (codes "sync") [] ≡ Err kind.UnknownWord }
    ensures shown_requests { shown_call 1 (call.Wait true (Listed (3 ∷ []))) ≡ text_line (codes "1 wait_all 3") }
    ensures shown_record { shown_call 1 (call.FillRec (codes "s") 3 1 2) ≡ text_line (codes "1 fill_var_rec s 3") }
    ensures shown_nothing { shown_call 1 call.Detach ≡ text_line (codes "1 buffer_detach") }
{}

/// Lines that add to an existing file.
pub fn worked_extras()
    ensures right { fault_of (script_of_utf8 script_extras) ≡ None }
    ensures four { length (script_read script_extras).extra ≡ 4 }
    ensures again { script_read (shown (script_read script_extras)) ≡ script_read script_extras }
    ensures twice { fault_of (script_of_utf8 faulty_extra_twice) ≡ fault_at 4 kind.TwiceNamed }
    ensures shape { fault_of (script_of_utf8 faulty_extra_shape) ≡ fault_at 4 kind.BadShape }
{}

/// Scripts that are read are lawful.
pub fn worked_lawful()
    ensures halves { is_lawful (script_read script_halves) ≡ true }
    ensures attributes { is_lawful (script_read script_atts) ≡ true }
    ensures regions { is_lawful (script_read script_varn) ≡ true }
    ensures fills { is_lawful (script_read script_fill_record) ≡ true }
    ensures extras { is_lawful (script_read script_extras) ≡ true }
    ensures modes { is_lawful (script_read script_modes) ≡ true }
    ensures other_kinds { is_lawful (record (script_read script_halves) { calls = (call.BeginIndep ∷ []) ∷ (call.EndIndep ∷ []) ∷ [] }) ≡ false }
    ensures rank_left_out { is_lawful (record (script_read script_halves) { calls = [] ∷ [] }) ≡ false }
{}
