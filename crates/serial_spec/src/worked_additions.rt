//! Fill values, added variables and readings.

ghost use Rattle.std.specs.Prelude.{◌≡◌, ◌+◌, ◌-◌, ◌^◌, ℕ, List, [], ◌∷◌, ◌++◌, Some, None, length, replicate, drop, codes, map};
ghost use Rattle.serial_spec.specs.HeaderBytes.{canon, header_len};
ghost use Rattle.serial_spec.specs.Examples.{dataset_a, dataset_b, var, int_bytes, one_record, begin_list, file_halves, dim, more_var, dataset_aq, dataset_b_4, dataset_b_q, file_records, hints, title, twice_named, twice_named_q, inner_x, second_first, long_var, dataset_a_moved};
ghost use Rattle.serial_spec.specs.EdgeExamples.{each_type, without_fill_value, dataset_a_at, dataset_b_moved, two_puts};
ghost use Rattle.nc_base.specs.declared.header.NcType.TheVariants.{Int, Short, UInt64};
ghost use Rattle.nc_base.specs.declared.step.Mark.TheVariants.{Meet, Solo};
ghost use Rattle.nc_base.specs.declared.step.DiskCall.TheVariants.{Grow, Load, Store};
ghost use Rattle.serial_spec.specs.SerialEnd.{start};
ghost use Rattle.serial_spec.specs.Fill.{boxes, AreBoxes, fill_bytes};
ghost use Rattle.serial_spec.specs.Redefinition.{redefined, redefined_fault, redefined_header, IsRedefined};
ghost use Rattle.serial_spec.specs.Readings.{summary_of, told_of};
ghost use Rattle.serial_spec.specs.DeviceCalls.{redefining_calls};
ghost use Rattle.nc_base.specs.declared.errors.RedefErr.TheVariants.{Taken, Unknown, Shape, TooMany, Kind, Layout};
ghost use Rattle.nc_base.specs.declared.errors.LayoutErr.TheVariants.{VarSize, HeaderRange, BeginRange};
ghost use Rattle.nc_base.specs.declared.script.Extra.TheVariants.{Dim, Var, Att};

/// Boxes of a range of row-major numbers, and fill values.
pub fn worked_boxes()
    ensures two { boxes (2 ∷ 3 ∷ []) 1 5 ≡ record { start = 0 ∷ 1 ∷ []; count = 1 ∷ 2 ∷ [] } ∷ record { start = 1 ∷ 0 ∷ []; count = 1 ∷ 2 ∷ [] } ∷ [] }
    ensures three { AreBoxes (3 ∷ 4 ∷ 5 ∷ []) 7 54 (boxes (3 ∷ 4 ∷ 5 ∷ []) 7 54) }
    ensures all { boxes (3 ∷ 4 ∷ []) 0 12 ≡ record { start = 0 ∷ 0 ∷ []; count = 3 ∷ 4 ∷ [] } ∷ [] }
    ensures none { boxes (3 ∷ 4 ∷ []) 5 5 ≡ [] }
    ensures scalar { boxes [] 0 1 ≡ record { start = []; count = [] } ∷ [] }
    ensures int { fill_bytes (var 118 Int []) ≡ 128 ∷ 0 ∷ 0 ∷ 1 ∷ [] }
    ensures own { fill_bytes (record (var 118 Short []) { attrs = record { name = codes "_FillValue"; kind = Short; count = 1; bytes = 255 ∷ 255 ∷ [] } ∷ [] }) ≡ 255 ∷ 255 ∷ [] }
{}

/// The fill value of each type, and of a variable whose attributes are none.
pub fn worked_fill_values()
    ensures each { map (λ kind. fill_bytes (var 118 kind [])) each_type
        ≡ (129 ∷ []) ∷ (0 ∷ []) ∷ (128 ∷ 1 ∷ []) ∷ (128 ∷ 0 ∷ 0 ∷ 1 ∷ []) ∷ (124 ∷ 240 ∷ 0 ∷ 0 ∷ [])
        ∷ (71 ∷ 158 ∷ 0 ∷ 0 ∷ 0 ∷ 0 ∷ 0 ∷ 0 ∷ []) ∷ (255 ∷ []) ∷ (255 ∷ 255 ∷ []) ∷ (255 ∷ 255 ∷ 255 ∷ 255 ∷ [])
        ∷ (128 ∷ 0 ∷ 0 ∷ 0 ∷ 0 ∷ 0 ∷ 0 ∷ 2 ∷ []) ∷ (255 ∷ 255 ∷ 255 ∷ 255 ∷ 255 ∷ 255 ∷ 255 ∷ 254 ∷ []) ∷ [] }
    ensures no_fill_value { fill_bytes without_fill_value ≡ 128 ∷ 1 ∷ [] }
{}

/// A variable that is added to an existing file.
#[tactic(auto, unfolding(crate::specs::HeaderBytes::canon))]
pub fn worked_redefinition()
    ensures begins { begin_list dataset_aq ≡ 116 ∷ 132 ∷ [] }
    ensures length { header_len dataset_aq ≡ 116 }
    ensures file { redefined file_halves dataset_a dataset_aq ≡ canon dataset_aq ++ int_bytes (1 ∷ 2 ∷ 3 ∷ 4 ∷ []) ++ replicate 8 0 }
    ensures calls { redefining_calls (hints 1 16777216) dataset_a dataset_aq file_halves
        ≡ Load 0 96 ∷ Grow 140 ∷ Load 80 16 ∷ Store 116 16 ∷ Store 132 8 ∷ Store 0 116 ∷ [] }
    ensures windows { drop 2 (redefining_calls (record (hints 1 16777216) { wr_buffer = 6 }) dataset_a dataset_aq file_halves)
        ≡ Load 90 6 ∷ Store 126 6 ∷ Load 84 6 ∷ Store 120 6 ∷ Load 80 4 ∷ Store 116 4 ∷ Store 132 6 ∷ Store 138 2 ∷ Store 0 116 ∷ [] }
    ensures records { drop 1 (redefining_calls (hints 1 16777216) dataset_b_4 dataset_b_q file_records)
        ≡ Grow 148 ∷ Load 86 2 ∷ Store 140 2 ∷ Load 84 2 ∷ Store 132 2 ∷ Load 82 2 ∷ Store 124 2 ∷ Load 80 2 ∷ Store 116 2
        ∷ Store 118 6 ∷ Store 126 6 ∷ Store 134 6 ∷ Store 142 6 ∷ Store 0 116 ∷ [] }
    ensures record_values { drop 116 (redefined file_records dataset_b_4 dataset_b_q) ≡ replicate 25 0 ++ 7 ∷ replicate 6 0 }
    ensures kept { begin_list (redefined_header dataset_a_moved (more_var 113 Short 120 ∷ [])) ≡ 512 ∷ 528 ∷ [] }
    ensures front { map (λ begin. begin_list (redefined_header (dataset_a_at begin) (more_var 113 Short 120 ∷ []))) (115 ∷ 116 ∷ 117 ∷ [])
        ≡ (116 ∷ 132 ∷ []) ∷ (116 ∷ 132 ∷ []) ∷ (117 ∷ 136 ∷ []) ∷ [] }
    ensures records_kept { begin_list (redefined_header dataset_b_moved (more_var 113 Int 116 ∷ [])) ≡ 512 ∷ 516 ∷ [] }
    ensures taken { redefined_fault dataset_a (Dim (dim 120 9) ∷ []) ≡ Some (Taken 0) }
    ensures unknown { redefined_fault dataset_a (more_var 113 Short 120 ∷ more_var 114 Short 121 ∷ []) ≡ Some (Unknown 1) }
    ensures shape { redefined_fault dataset_b (Dim (dim 117 0) ∷ []) ≡ Some (Shape 0) }
    ensures later_type { redefined_fault dataset_a (more_var 113 UInt64 120 ∷ []) ≡ Some (Kind 0) }
    ensures none { redefined_fault dataset_a (more_var 113 Short 120 ∷ []) ≡ None }
{}

/// What a redefined file is in words, and three that it is not: an old element with another value, a byte of the new variable that is not
/// zero, a byte too many.
#[tactic(auto, unfolding(crate::specs::HeaderBytes::canon))]
pub fn worked_redefined()
    ensures right { IsRedefined dataset_a dataset_aq file_halves (canon dataset_aq ++ int_bytes (1 ∷ 2 ∷ 3 ∷ 4 ∷ []) ++ replicate 8 0) }
    ensures other_value { IsRedefined dataset_a dataset_aq file_halves (canon dataset_aq ++ int_bytes (1 ∷ 2 ∷ 3 ∷ 5 ∷ []) ++ replicate 8 0) → ⊥ }
    ensures not_zero { IsRedefined dataset_a dataset_aq file_halves (canon dataset_aq ++ int_bytes (1 ∷ 2 ∷ 3 ∷ 4 ∷ []) ++ 9 ∷ replicate 7 0) → ⊥ }
    ensures too_long { IsRedefined dataset_a dataset_aq file_halves (canon dataset_aq ++ int_bytes (1 ∷ 2 ∷ 3 ∷ 4 ∷ []) ++ replicate 9 0) → ⊥ }
{}

/// Two dimensions of one name, of which the first counts, and other faults of a redefinition.
#[tactic(auto, unfolding(crate::specs::HeaderBytes::canon))]
pub fn worked_refusals()
    ensures same_name { redefined_fault twice_named inner_x ≡ None }
    ensures same_name_begins { begin_list twice_named_q ≡ 144 ∷ 160 ∷ [] }
    ensures same_name_file { redefined (canon twice_named ++ int_bytes (1 ∷ 2 ∷ 3 ∷ 4 ∷ [])) twice_named twice_named_q
        ≡ canon twice_named_q ++ int_bytes (1 ∷ 2 ∷ 3 ∷ 4 ∷ []) ++ replicate 48 0 }
    ensures attribute { redefined_fault dataset_a (Att None title ∷ Att None title ∷ []) ≡ Some (Taken 1) }
    ensures owner { redefined_fault dataset_a (Att (Some (113 ∷ [])) title ∷ []) ≡ Some (Unknown 0) }
    ensures same_variable { redefined_fault dataset_a (more_var 118 Short 120 ∷ []) ≡ Some (Taken 0) }
    ensures later_attribute { redefined_fault dataset_a (Att None (record title { kind = UInt64 }) ∷ []) ≡ Some (Kind 0) }
    ensures inner { redefined_fault dataset_b (Dim (dim 120 4) ∷ Var Int (113 ∷ []) ((120 ∷ []) ∷ (116 ∷ []) ∷ []) ∷ []) ≡ Some (Shape 1) }
    ensures many { redefined_fault (record dataset_a { dims = replicate 1024 (dim 120 4) }) (Dim (dim 121 4) ∷ []) ≡ Some (TooMany 0) }
    ensures many_variables { redefined_fault (record dataset_a { vars = replicate 8192 (var 118 Int []) }) (more_var 113 Short 120 ∷ []) ≡ Some (TooMany 0) }
    ensures long { redefined_fault dataset_a (Dim (dim 121 (2 ^ 31)) ∷ []) ≡ Some (Kind 0) }
    ensures long_header { (bytes : List ℕ) → length bytes ≡ 2 ^ 20 → redefined_fault dataset_a (Att None (record title { count = 2 ^ 20; bytes = bytes }) ∷ []) ≡ Some (Layout HeaderRange) }
    ensures large { redefined_fault dataset_a (long_var (2 ^ 31 - 3)) ≡ Some (Layout (VarSize 1)) }
    ensures far { redefined_fault second_first (long_var (2 ^ 31 - 4)) ≡ Some (Layout (BeginRange 1)) }
{}

/// What a watcher reads.
#[tactic(auto, unfolding(crate::specs::HeaderBytes::canon))]
pub fn worked_reading()
    ensures none { summary_of 3 [] ≡ record { steps = 0; records = 3 } }
    ensures two { summary_of 0 ((Meet 0, 1) ∷ (Solo 0 1, 4) ∷ []) ≡ record { steps = 2; records = 4 } }
    ensures told_two { told_of two_puts two_puts.header (start two_puts two_puts.header []) (Meet 0 ∷ Meet 1 ∷ []) ≡ (Meet 0, 2) ∷ (Meet 1, 4) ∷ [] }
    ensures told { told_of one_record one_record.header (start one_record one_record.header []) (Meet 0 ∷ []) ≡ (Meet 0, 4) ∷ [] }
{}
