//! What is printed, and the generated script.
#![tactic(auto, unfolding(crate::proofs::Words::digits, crate::proofs::Words::canon))]

ghost use Rattle.std.specs.Prelude.{true, false, map, ◌≡◌, ◌+◌, [], ◌∷◌, ◌++◌, length, codes, ◌-◌, option_map, Some, take};
ghost use Rattle.serial_spec.specs.HeaderBytes.{header_len};
ghost use Rattle.serial_spec.specs.HeaderFaults.{field_fault};
ghost use Rattle.serial_spec.specs.Examples.{header_a, ended, halves, no_align, thin_script, dataset_b, dim, var, dataset_a_moved, defined};
ghost use Rattle.serial_spec.specs.Layout.{recsize, begins};
ghost use Rattle.script_spec.specs.TextExamples.{with_layout, text_of, text_halves, script_read, thin_lines, thin_answers, thin_printed, offsets_of_record, offsets_with_room, script_summed, summed, text_summed};
ghost use Rattle.nc_base.specs.declared.step.Mark.TheVariants.{Meet, Solo};
ghost use Rattle.script_spec.specs.Texts.{text_line, watch_text, script_line, redef_line, layout_line, offsets_text, header_line, usage_line, disk_line, quoted, mark_word};
ghost use Rattle.script_spec.specs.PostScripts.{script_left};
ghost use Rattle.script_spec.specs.Generator.{first_row, has_counts, made_calls, made_header};
ghost use Rattle.nc_base.specs.declared.header.NcType.TheVariants.{Float, Short, Int};
ghost use Rattle.serial_spec.specs.Redefinition.{layout_fault};
ghost use Rattle.nc_base.specs.declared.errors.HeaderErr.TheVariants.{Streaming};
ghost use Rattle.nc_base.specs.declared.errors.ScriptKind.TheVariants as kind;
ghost use Rattle.nc_base.specs.declared.errors.LimitName.TheVariants as limit;
ghost use Rattle.nc_base.specs.declared.errors.LayoutErr.TheVariants as layout;
ghost use Rattle.nc_base.specs.declared.errors.RedefErr.TheVariants as redef;

/// The printed text of a run.
pub fn worked_text()
    ensures { text_of halves (Meet 0 ∷ []) ≡ text_halves }
{}

/// The text of a script with one put of one rank, its file and what is printed.
pub fn worked_one_put()
    ensures read { with_layout (script_read thin_lines) ≡ thin_script }
    ensures bytes { (ended thin_script (Meet 0 ∷ [])).bytes ≡ header_a ++ 0 ∷ 0 ∷ 0 ∷ 0 ∷ 0 ∷ 0 ∷ 0 ∷ 5 ∷ 255 ∷ 255 ∷ 255 ∷ 255 ∷ 0 ∷ 0 ∷ 0 ∷ 0 ∷ [] }
    ensures text { thin_answers ≡ thin_printed }
{}

/// Lines that tell a fault.
pub fn worked_lines()
    ensures script { script_line (record { line = 5; kind = kind.Limit limit.Parts }) ≡ text_line (codes "ncrun: script line 5: limit of parts") }
    ensures differ { script_line (record { line = 8; kind = kind.Mismatch 0 0 1 }) ≡ text_line (codes "ncrun: script line 8: ranks 0 and 1 differ at collective call 0") }
    ensures taken { redef_line (redef.Taken 0) ≡ text_line (codes "ncrun: redefinition 0: name taken") }
    ensures watchers { watch_text (((0, 0) ∷ (2, 4) ∷ []) ∷ []) ≡ text_line (codes "watcher 0") ++ text_line (codes "0 0") ++ text_line (codes "2 4") }
    ensures large { layout_line (layout.VarSize 2) ≡ text_line (codes "ncrun: variable 2 is too large") }
    ensures usage { usage_line ≡ codes "ncrun: usage: ncrun [--offsets] [--generate SEED [--size N]] [--watch N] DATASET\n" }
    ensures disk { disk_line ≡ codes "ncrun: disk fault\n" }
{}

/// A text in quotes, with the escapes of a quote, a backslash, a newline, a tab and of bytes that are not printed; and the words of marks.
pub fn worked_quotes()
    ensures text { quoted (34 ∷ 92 ∷ 10 ∷ 9 ∷ 32 ∷ 126 ∷ 127 ∷ 31 ∷ 0 ∷ 255 ∷ []) ≡ codes "\"\\\"\\\\\\n\\t ~\\x7F\\x1F\\x00\\xFF\"" }
    ensures marks { map mark_word (Meet 3 ∷ Solo 1 12 ∷ []) ≡ codes "m3" ∷ codes "s1.12" ∷ [] }
{}

/// The generator.
pub fn worked_generator()
    ensures rows { first_row 8 - first_row 7 ≡ 23 }
    ensures count { length (made_calls 0 12 0) ≡ 40 }
    ensures begin { (begins made_header no_align (header_len made_header)).vars ≡
        record { name = codes "temp"; dims = 0 ∷ 1 ∷ 2 ∷ []; attrs = []; kind = Float; begin = 160 }
        ∷ record { name = codes "precip"; dims = 0 ∷ 1 ∷ 2 ∷ []; attrs = []; kind = Short; begin = 259360 } ∷ [] }
    ensures size { recsize made_header ≡ 388800 }
{}

/// The ten lines that sum a run up.
pub fn worked_summary()
    ensures counted { has_counts (script_read script_summed) ≡ true }
    ensures not_counted { has_counts (script_read script_left) ≡ false }
    ensures text { summed 18446744073709551615 2 script_summed (Meet 0 ∷ Meet 1 ∷ Meet 2 ∷ Meet 3 ∷ []) ≡ text_summed }
{}

/// What is told of a layout, and of a header or a layout that is refused.
pub fn worked_offsets()
    ensures record { offsets_text dataset_b ≡ offsets_of_record }
    ensures room { offsets_text dataset_a_moved ≡ offsets_with_room }
    ensures too_large { option_map layout_line (layout_fault (defined 1 (dim 120 600000000 ∷ []) (var 118 Int (0 ∷ []) ∷ [])) no_align)
        ≡ Some (text_line (codes "ncrun: variable 0 is too large")) }
    ensures cut { option_map header_line (field_fault (take 70 header_a)) ≡ Some (text_line (codes "ncrun: header truncated at byte 68")) }
    ensures streaming { header_line Streaming ≡ text_line (codes "ncrun: header has a streaming record count") }
{}
