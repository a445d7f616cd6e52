//! Worked examples of JSON.

ghost use Rattle.std.specs.Prelude.{◌≡◌, [], ◌∷◌, codes};
ghost use Rattle.serial_spec.specs.Examples.{dataset_a, with_hole};
ghost use Rattle.plan_text.specs.Json.{json_text};
ghost use Rattle.plan_text.specs.JsonExamples.{json_with_hole, plan_with_hole, sums_with_hole};
ghost use Rattle.plan_text.specs.JsonPlan.{plan_json_of};

/// A quote, a backslash, a newline, a byte that is not printed, and the two bytes of a letter with an accent.
pub fn worked_text()
    ensures { json_text (34 ∷ 92 ∷ 10 ∷ 32 ∷ 126 ∷ 127 ∷ 195 ∷ 169 ∷ []) ≡ codes "\"\\\"\\\\\\u000A ~\\u007F\\u00C3\\u00A9\"" }
{}

/// The whole document of a plan.
pub fn worked_document()
    ensures { plan_json_of with_hole dataset_a 96 plan_with_hole sums_with_hole ≡ json_with_hole }
{}
