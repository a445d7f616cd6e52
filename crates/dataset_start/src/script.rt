// The script that the source has.
ghost use Rattle.std.specs.Prelude.{◌≡◌, [], Some, IfOk, IfErr, OnOk, IfSome, IsErrOf, Err};
ghost use Rattle.nc_base.specs.declared.errors.ScriptErr.{ScriptErr};
ghost use Rattle.nc_outside.specs.Told.{after};
ghost use Rattle.nc_outside.specs.Cause.{Rose};
ghost use Rattle.script_spec.specs.ScriptGrammar.{script_fault};
ghost use Rattle.dataset_start.specs.Dataset.{Asks, IsRead};
ghost use Rattle.dataset_start.specs.Limits.{most_taken, TakesAtMost};
ghost use Rattle.dataset_start.specs.Stops.{IsOfTaking};

use crate::stop::Stop;
use crate::streams::take_all;
use nc_base::Script;
use nc_outside::Source;
use ncmpi_script::read_script;
use std::alloc::Global;

/// Takes the source to its end, and reads the script that it has.
pub fn take_script<S: Source>(alloc: Global, source: &mut S) -> Result<Script, Stop>
    ensures asks { IfOk result (λ script. Asks (S.left source.old) script) }
    ensures read { IfOk result IsRead }
    ensures taken { OnOk result (S.left source.new ≡ after (λ _. []) (S.left source.old)) }
    ensures few { TakesAtMost most_taken (S.left source.old) (S.left source.new) }
    ensures refused { (e : ScriptErr) → result ≡ Err (Stop.Script e) → IfSome (S.left source.old) (λ text. script_fault text ≡ Some e) }
    ensures source { IsErrOf result Stop.Source → Rose (S.faults source.old) (S.faults source.new) }
    ensures only { IfErr result IsOfTaking }
{
    let text = take_all(alloc, source)?;
    let script = read_script(alloc, &text)?;
    Ok(script)
}
