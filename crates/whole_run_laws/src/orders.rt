//! Which orders a script allows.

ghost use Rattle.std.specs.Prelude.{◌≡◌, ℕ, List, true, false};
ghost use Rattle.nc_base.specs.declared.header.Header.{Header};
ghost use Rattle.nc_base.specs.declared.script.Script.{Script};
ghost use Rattle.nc_base.specs.declared.step.Mark.{Mark};
ghost use Rattle.serial_spec.specs.History.{IsLegal};
ghost use Rattle.serial_spec.specs.Lawful.{is_lawful};
ghost use Rattle.serial_spec.specs.SerialEnd.{serial_from};
ghost use Rattle.whole_run_laws.specs.Orders.{all_meetings, has_independent, has_solo};

/// A script without independent calls has one legal order: its meetings in turn. So its end is a function of script, header and
/// file alone.
pub fn one_order_law()
    ensures no_step_alone { (script : Script) → is_lawful script ≡ true → has_independent script ≡ false → has_solo script ≡ false }
    ensures legal { (script : Script) → is_lawful script ≡ true → has_solo script ≡ false → IsLegal script (all_meetings script) }
    ensures no_other { (script : Script) (order : List Mark) → is_lawful script ≡ true → has_solo script ≡ false → IsLegal script order → order ≡ all_meetings script }
    ensures one_end { (script : Script) (header : Header) (file : List ℕ) (a b : List Mark) → is_lawful script ≡ true → has_solo script ≡ false
        → IsLegal script a → IsLegal script b → serial_from script header file a ≡ serial_from script header file b }
{}
