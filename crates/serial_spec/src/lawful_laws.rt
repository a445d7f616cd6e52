//! Laws over the scripts that the layers take.

ghost use Rattle.std.specs.Prelude.{◌≡◌, true};
ghost use Rattle.nc_base.specs.declared.script.Script.{Script};
ghost use Rattle.serial_spec.specs.Lawful.{is_lawful, IsLawful};

/// A script passes the test where it has all parts of a lawful script, and only there.
pub fn lawful_law()
    ensures parts { (script : Script) → is_lawful script ≡ true → IsLawful script }
    ensures whole { (script : Script) → IsLawful script → is_lawful script ≡ true }
{}
