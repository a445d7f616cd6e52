//! Plans, and their texts.

ghost use Rattle.std.specs.Prelude.{◌≡◌, [], ◌∷◌, map, Some, codes};
ghost use Rattle.nc_base.specs.declared.answer.Code.TheVariants as code;
ghost use Rattle.serial_spec.specs.Examples.{dataset_a, dataset_b};
ghost use Rattle.script_spec.specs.Texts.{text_line};
ghost use Rattle.plan_text.specs.PlanExamples.{answered, caller, file_of_overlap, file_with_record, lines_of_overlap, lines_with_record, plan_with_hole, script_with_hole, shared_pair, sums_with_hole, text_with_hole};
ghost use Rattle.plan_text.specs.PlanTexts.{plan_text_of, variable_line};
ghost use Rattle.plan_text.specs.StepTexts.{caller_line, file_lines};

/// The text of a plan: windows with a hole, of a collective put and of data sieving.
pub fn worked_plan()
    ensures { plan_text_of script_with_hole dataset_a 96 plan_with_hole sums_with_hole ≡ text_with_hole }
{}

/// Steps that make the file longer, write the record count, or are refused.
pub fn worked_steps()
    ensures record { file_lines file_with_record ≡ lines_with_record }
    ensures overlap { file_lines file_of_overlap ≡ lines_of_overlap }
    ensures answer { caller_line script_with_hole.calls ((record (answered code.Ok) { pair = Some shared_pair } ∷ []) ∷ []) (caller 0 0)
        ≡ text_line (codes "  rank 0 call 0 put_vara_all overlap") }
    ensures code { caller_line script_with_hole.calls ((record (answered code.EEdge) { pair = Some shared_pair } ∷ []) ∷ []) (caller 0 0)
        ≡ text_line (codes "  rank 0 call 0 put_vara_all NC_EEDGE") }
{}

/// A record variable: its size is that of one record.
pub fn worked_variable()
    ensures { map (variable_line dataset_b) dataset_b.vars ≡ text_line (codes "variable s short at 80, 2 bytes a record") ∷ [] }
{}
