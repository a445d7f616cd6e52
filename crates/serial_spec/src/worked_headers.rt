//! Headers and layouts of small datasets.

ghost use Rattle.std.specs.Prelude.{◌≡◌, ◌+◌, ◌-◌, ◌^◌, [], ◌∷◌, ◌++◌, Some, None, take, true, false, drop, ◌/◌, ◌*◌, map, pos, negsuc};
ghost use Rattle.serial_spec.specs.HeaderBytes.{canon, header_len, number_of};
ghost use Rattle.serial_spec.specs.ExternalForm.{fits, size_of};
ghost use Rattle.serial_spec.specs.HeaderGrammar.{Spells};
ghost use Rattle.serial_spec.specs.HeaderFaults.{field_fault, first_check, measure, HasFault};
ghost use Rattle.serial_spec.specs.Redefinition.{layout_fault};
ghost use Rattle.serial_spec.specs.SoundHeaders.{is_writable};
ghost use Rattle.serial_spec.specs.Examples.{dataset_2, dataset_a, dataset_b, dataset_bq, header_a, var, int_bytes, device_calls, halves, word, header_a_with, dataset_5, two_bytes, begin_list, end_of_file, aligned, striped, striped_part, file_halves, reopened, dataset_a_moved, one_record, dim, unsound, past_limit, sharing_bytes, odd_header_a, no_align};
ghost use Rattle.serial_spec.specs.EdgeExamples.{each_type, attribute_a, attributes_5, two_records_at, fixed_and_record_at, two_fixed_at, met_by_the_last, dataset_qs, four_bytes_at, byte_records, length_past, scalar_behind, bytes_5, striped_inside};
ghost use Rattle.serial_spec.specs.Layout.{recsize, end_of, vsize, sharing, IsSharing};
ghost use Rattle.nc_base.specs.declared.header.NcType.TheVariants.{Byte, Float, Int, UByte};
ghost use Rattle.nc_base.specs.declared.request.Value.TheVariants.{Bits, Number};
ghost use Rattle.nc_base.specs.declared.errors.HeaderErr.{HeaderErr};
ghost use Rattle.nc_base.specs.declared.errors.LayoutErr.TheVariants.{BeginRange};
ghost use Rattle.nc_base.specs.declared.errors.HeaderErr.TheVariants.{NotCdf, BadVersion, Truncated, BadTag, BadType, BadNumber, BadDimId, Streaming, TooLarge, Shared, TwoRecordDims, RecordDimNotFirst};
ghost use Rattle.nc_base.specs.declared.step.Mark.TheVariants.{Meet};
ghost use Rattle.nc_base.specs.declared.step.DiskCall.TheVariants.{Grow, Load, Store};
ghost use Rattle.serial_spec.specs.DeviceCalls.{opening_calls, all_calls};
ghost use Rattle.serial_spec.specs.SerialEnd.{serial};
ghost use Rattle.std.specs.List.{range_with_len};

/// The header of the first data set.
#[tactic(auto, unfolding(crate::specs::HeaderBytes::canon))]
pub fn worked_header()
    ensures bytes { canon dataset_a ≡ header_a }
    ensures sound { is_writable dataset_a ≡ true }
    ensures right { field_fault header_a ≡ None }
    ensures short { field_fault (take 70 header_a) ≡ Some (Truncated 68) }
    ensures empty { field_fault [] ≡ Some (Truncated 0) }
    ensures each_prefix { map (λ n. field_fault (take n header_a)) (range_with_len 0 80) ≡ map (λ n. Some (Truncated (n / 4 * 4))) (range_with_len 0 80) }
{}

/// A record of one short variable, and of two variables.
#[tactic(auto, unfolding(crate::specs::HeaderBytes::canon))]
pub fn worked_records()
    ensures one { recsize dataset_b ≡ 2 }
    ensures one_length { header_len dataset_b ≡ 80 }
    ensures one_begin { begin_list dataset_b ≡ 80 ∷ [] }
    ensures one_vsize { map (vsize dataset_b) dataset_b.vars ≡ 4 ∷ [] }
    ensures one_end { end_of dataset_b 80 4 ≡ 88 }
    ensures one_opening { opening_calls one_record dataset_b [] ≡ Grow 80 ∷ Store 0 80 ∷ [] }
    ensures two { recsize dataset_bq ≡ 8 }
    ensures two_length { header_len dataset_bq ≡ 116 }
    ensures two_begins { begin_list dataset_bq ≡ 116 ∷ 120 ∷ [] }
    ensures end { end_of dataset_bq (header_len dataset_bq) 2 ≡ 132 }
    ensures last_padded { end_of dataset_qs (header_len dataset_qs) 1 ≡ 124 }
{}

/// Headers with one word changed.
#[tactic(auto, unfolding(crate::specs::HeaderBytes::canon))]
pub fn worked_header_faults()
    ensures not_cdf { field_fault (header_a_with 0 (word 88 68 70 1)) ≡ Some NotCdf }
    ensures version { field_fault (header_a_with 0 (word 67 68 70 3)) ≡ Some BadVersion }
    ensures tag { field_fault (header_a_with 8 (word 0 0 0 11)) ≡ Some (BadTag 8) }
    ensures absent { field_fault (header_a_with 8 (word 0 0 0 0)) ≡ Some (BadNumber 12) }
    ensures negative { field_fault (header_a_with 12 (word 128 0 0 0)) ≡ Some (BadNumber 12) }
    ensures large { field_fault (header_a_with 12 (word 127 255 255 255)) ≡ Some TooLarge }
    ensures two_dims { field_fault (header_a_with 12 (word 0 0 0 2)) ≡ Some (BadTag 36) }
    ensures many_ids { field_fault (header_a_with 52 (word 0 0 0 33)) ≡ Some TooLarge }
    ensures attr_tag { field_fault (header_a_with 64 (word 0 0 0 1)) ≡ Some (BadNumber 64) }
    ensures kind { field_fault (header_a_with 68 (word 0 0 0 7)) ≡ Some (BadType 68) }
    ensures vsize { field_fault (header_a_with 72 (word 255 255 255 255)) ≡ None }
    ensures attributes { field_fault (header_a_with 28 (word 0 0 0 12 ++ word 127 255 255 255)) ≡ Some (BadType 64) }
    ensures id_fields { field_fault (header_a_with 56 (word 0 0 0 5)) ≡ None }
    ensures id { first_check (record dataset_a { vars = record (var 118 Int (5 ∷ [])) { begin = 80 } ∷ [] }) ≡ Some (BadDimId 0) }
    ensures shared_fields { field_fault (header_a_with 76 (word 0 0 0 76)) ≡ None }
    ensures shared { first_check (record dataset_a { vars = record (var 118 Int (0 ∷ [])) { begin = 76 } ∷ [] }) ≡ Some (Shared 0 0) }
    ensures streaming_fields { field_fault (header_a_with 4 (word 255 255 255 255)) ≡ None }
    ensures streaming_bytes { canon (record dataset_a { records = 4294967295 }) ≡ header_a_with 4 (word 255 255 255 255) }
    ensures streaming { first_check (record dataset_a { records = 4294967295 }) ≡ Some Streaming }
    ensures attribute_cut { field_fault (take 52 (canon attribute_a)) ≡ Some (Truncated 52) }
    ensures attribute_types { field_fault (canon attributes_5) ≡ None }
    ensures long_dimension { map (λ more. field_fault (length_past more)) (0 ∷ 1 ∷ []) ≡ Some (Truncated 44) ∷ Some (BadNumber 36) ∷ [] }
{}

/// The fault of a file's first bytes: of a field, of the header as a whole, and none.
#[tactic(auto, unfolding(crate::specs::HeaderBytes::canon))]
pub fn worked_file_faults()
    ensures of_a_field { HasFault (take 70 header_a) (Truncated 68) }
    ensures other_place { HasFault (take 70 header_a) (Truncated 70) → ⊥ }
    ensures of_the_whole { HasFault (header_a_with 76 (word 0 0 0 76)) (Shared 0 0) }
    ensures none { (e : HeaderErr) → HasFault header_a e → ⊥ }
{}

/// The numbers and sizes of the types, and the ends of their ranges.
pub fn worked_types()
    ensures numbers { map number_of each_type ≡ 1 ∷ 2 ∷ 3 ∷ 4 ∷ 5 ∷ 6 ∷ 7 ∷ 8 ∷ 9 ∷ 10 ∷ 11 ∷ [] }
    ensures sizes { map size_of each_type ≡ 1 ∷ 1 ∷ 2 ∷ 4 ∷ 4 ∷ 8 ∷ 1 ∷ 2 ∷ 4 ∷ 8 ∷ 8 ∷ [] }
    ensures byte { map (λ z. fits Byte (Number z)) (pos 127 ∷ pos 128 ∷ negsuc 127 ∷ negsuc 128 ∷ []) ≡ true ∷ false ∷ true ∷ false ∷ [] }
    ensures ubyte { map (λ z. fits UByte (Number z)) (pos 0 ∷ pos 255 ∷ pos 256 ∷ negsuc 0 ∷ []) ≡ true ∷ true ∷ false ∷ false ∷ [] }
    ensures float { map (λ n. fits Float (Bits n)) ((2 ^ 32 - 1) ∷ 2 ^ 32 ∷ []) ≡ true ∷ false ∷ [] }
{}

/// Headers whose fields are right each, and which are refused as a whole.
#[tactic(auto, unfolding(crate::specs::HeaderBytes::canon))]
pub fn worked_checks()
    ensures none { first_check dataset_a ≡ None }
    ensures two_record_dims { first_check (unsound (dim 116 0 ∷ dim 117 0 ∷ []) []) ≡ Some TwoRecordDims }
    ensures record_later { first_check (unsound (dim 116 0 ∷ dim 120 4 ∷ []) (var 118 Int (1 ∷ 0 ∷ []) ∷ [])) ≡ Some (RecordDimNotFirst 0) }
    ensures far_id { first_check (unsound (dim 120 4 ∷ []) (var 118 Int (0 ∷ []) ∷ var 119 Int (1 ∷ []) ∷ [])) ≡ Some (BadDimId 1) }
    ensures past_limit { first_check past_limit ≡ Some TooLarge }
    ensures many_records { first_check (record dataset_b { records = 2 ^ 31 }) ≡ Some TooLarge }
    ensures shared { first_check sharing_bytes ≡ Some (Shared 0 1) }
    ensures side_by_side { first_check (aligned 4 4 two_bytes) ≡ None }
{}

/// Two variables that share a byte and two that do not: of records of 8 bytes, in either order; a fixed one before a record variable at
/// 200; two fixed ones. The pair is the least.
pub fn worked_sharing()
    ensures records { map (λ q. sharing (two_records_at 116 q) 116) (117 ∷ 118 ∷ 120 ∷ 121 ∷ []) ≡ Some (0, 1) ∷ None ∷ None ∷ Some (0, 1) ∷ [] }
    ensures records_exchanged { map (λ s. sharing (two_records_at s 116) 116) (119 ∷ 120 ∷ 122 ∷ 123 ∷ []) ≡ Some (0, 1) ∷ None ∷ None ∷ Some (0, 1) ∷ [] }
    ensures fixed_and_record { map (λ v. sharing (fixed_and_record_at v 200) 100) (184 ∷ 185 ∷ 204 ∷ []) ≡ None ∷ Some (0, 1) ∷ Some (0, 1) ∷ [] }
    ensures fixed { map (λ w. sharing (two_fixed_at 100 w) 100) (115 ∷ 116 ∷ []) ≡ Some (0, 1) ∷ None ∷ [] }
    ensures pair { IsSharing (two_fixed_at 100 115) 100 0 1 }
    ensures apart { IsSharing (two_fixed_at 100 116) 100 0 1 → ⊥ }
    ensures in_header { IsSharing (two_fixed_at 100 116) 101 0 0 }
    ensures least { IsSharing met_by_the_last 100 0 2 }
    ensures not_least { IsSharing met_by_the_last 100 1 2 → ⊥ }
{}

/// Bounds of begins, ends and counts: 2^62 in version 5 and 2^31 in version 1, each a byte or a record within and one past.
#[tactic(auto, unfolding(crate::specs::HeaderBytes::canon))]
pub fn worked_bounds()
    ensures fixed { map (λ begin. measure (four_bytes_at begin)) ((2 ^ 62 - 5) ∷ (2 ^ 62 - 4) ∷ []) ≡ None ∷ Some 0 ∷ [] }
    ensures records { map (λ n. measure (byte_records n)) ((2 ^ 62 - 201) ∷ (2 ^ 62 - 200) ∷ []) ≡ None ∷ Some 0 ∷ [] }
    ensures count { map (λ n. first_check (record dataset_5 { records = n })) ((2 ^ 62 - 1) ∷ 2 ^ 62 ∷ []) ≡ None ∷ Some TooLarge ∷ [] }
    ensures begin { map (λ n. layout_fault (scalar_behind n) no_align) (2147483532 ∷ 2147483533 ∷ []) ≡ None ∷ Some (BeginRange 1) ∷ [] }
    ensures end { map (λ n. layout_fault (bytes_5 n) no_align) ((2 ^ 62 - 132) ∷ (2 ^ 62 - 131) ∷ []) ≡ None ∷ Some (BeginRange 0) ∷ [] }
{}

/// A spelling of a header that no program writes, and bytes that are none.
#[tactic(auto, unfolding(crate::specs::HeaderBytes::canon))]
pub fn worked_spellings()
    ensures odd { Spells dataset_a odd_header_a }
    ensures odd_fault { field_fault odd_header_a ≡ None }
    ensures short { Spells dataset_a (take 79 odd_header_a) → ⊥ }
{}

/// Version 5, alignment, and existing files.
#[tactic(auto, unfolding(crate::specs::HeaderBytes::canon))]
pub fn worked_versions()
    ensures five { header_len dataset_5 ≡ 128 }
    ensures five_begin { begin_list dataset_5 ≡ 128 ∷ [] }
    ensures five_end { end_of_file dataset_5 ≡ 160 }
    ensures five_fault { field_fault (take 100 (canon dataset_5)) ≡ Some (Truncated 100) }
    ensures five_right { is_writable dataset_5 ≡ true }
    ensures two_length { header_len dataset_2 ≡ 84 }
    ensures two_begin { begin_list dataset_2 ≡ 84 ∷ [] }
    ensures two_end { end_of_file dataset_2 ≡ 100 }
    ensures header_align { begin_list (aligned 512 4 dataset_a) ≡ 512 ∷ [] }
    ensures header_align_end { end_of_file (aligned 512 4 dataset_a) ≡ 528 }
    ensures var_align_length { header_len two_bytes ≡ 116 }
    ensures var_align { begin_list (aligned 4 64 two_bytes) ≡ 128 ∷ 192 ∷ [] }
    ensures var_end { end_of_file (aligned 4 64 two_bytes) ≡ 196 }
    ensures stripes { device_calls (striped 3 8) (Meet 0 ∷ []) ≡ Store 80 8 ∷ Store 88 8 ∷ [] }
    ensures stripe { device_calls striped_part (Meet 0 ∷ []) ≡ Store 84 12 ∷ [] }
    ensures stripe_inside { device_calls striped_inside (Meet 0 ∷ []) ≡ Store 84 4 ∷ Store 88 8 ∷ [] }
    ensures opening { opening_calls halves dataset_a [] ≡ Grow 96 ∷ Store 0 80 ∷ [] }
    ensures reopening { opening_calls reopened dataset_a file_halves ≡ Load 0 96 ∷ [] }
    ensures again_calls { all_calls reopened dataset_a dataset_a file_halves (Meet 0 ∷ []) ≡ Load 0 96 ∷ Load 80 16 ∷ Store 80 16 ∷ [] }
    ensures again { drop 80 (serial reopened dataset_a file_halves (Meet 0 ∷ [])).bytes ≡ int_bytes (7 ∷ 2 ∷ 3 ∷ 8 ∷ []) }
    ensures room { end_of_file dataset_a_moved ≡ 528 }
{}
