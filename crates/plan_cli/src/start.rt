// What comes before the plan: the script, and the header of its dataset.
ghost use Rattle.std.specs.Prelude.{◌≡◌, ◌≤◌, [], true, IfErr, IfOk, OnOk};
ghost use Rattle.nc_outside.specs.Cause.{Rose};
ghost use Rattle.nc_outside.specs.Told.{after};
ghost use Rattle.dataset_start.specs.Dataset.{Asks, IsKept, IsRead};
ghost use Rattle.dataset_start.specs.Limits.{most_taken, TakesAtMost};
ghost use Rattle.dataset_start.specs.Readiness.{dataset_end};
ghost use Rattle.plan_cli.specs.Opened.{IsOpening};
ghost use Rattle.plan_cli.specs.Outside.{held_of};
ghost use Rattle.plan_cli.specs.Stopped.{IsStoppedBy, IsUnprepared};
ghost use Rattle.plan_cli.specs.Words.{name_of};

use crate::dataset::DatasetFront;
use crate::existing::open;
use crate::fresh::create;
use dataset_start::{Stop, take_script};
use nc_base::{Header, Script};
use nc_outside::Source;
use run_plan::Opening;
use std::alloc::Global;

/// A script, and what is known of its dataset when the ranks begin.
#[derive(Drop)]
pub(crate) struct Ready {
    pub script: Script,
    pub dataset: Prepared,
}

/// The header of a dataset when the ranks begin, and what is done before that.
#[derive(Drop)]
pub(crate) struct Prepared {
    pub header: Header,
    pub opening: Opening,
}

/// Reads the script, and looks at its dataset where it opens one.
pub(crate) fn begin<S: Source, D: DatasetFront>(
    alloc: Global,
    name: Option<&str>,
    source: &mut S,
    dataset: &mut D,
) -> Result<Ready, Stop>
    ensures asks { IfOk result (λ ready. Asks (S.left source.old) ready.script) }
    ensures read { IfOk result (λ ready. IsRead ready.script) }
    ensures taken { OnOk result (S.left source.new ≡ after (λ _. []) (S.left source.old)) }
    ensures opening { IfOk result (λ ready. IsOpening ready.script (held_of D.DatasetFront (name_of name.entry) dataset.old) ready.dataset.header ready.dataset.opening) }
    ensures long { IfOk result (λ ready. dataset_end ready.dataset.header ≤ ready.dataset.opening.size) }
    ensures few { TakesAtMost most_taken (S.left source.old) (S.left source.new) }
    ensures stopped { IfErr result (IsStoppedBy (S.left source.old) (held_of D.DatasetFront (name_of name.entry) dataset.old) (name_of name.entry)
        (dataset.new ≡ dataset.old) (Rose (S.faults source.old) (S.faults source.new)) (Rose (D.faults dataset.old) (D.faults dataset.new))) }
    ensures kept { D.held dataset.new ≡ D.held dataset.old }
{
    let script = take_script(alloc, source)?;
    match prepare(alloc, &script, name, dataset) {
        Ok(prepared) => Ok(Ready {
            script,
            dataset: prepared,
        }),
        Err(stop) => {
            drop(script);
            Err(stop)
        }
    }
}

// What is known of the dataset of a script when the ranks begin.
fn prepare<D: DatasetFront>(
    alloc: Global,
    script: &Script,
    name: Option<&str>,
    dataset: &mut D,
) -> Result<Prepared, Stop>
    requires kept { IsKept script.now }
    ensures opening { IfOk result (λ prepared. IsOpening script.now (held_of D.DatasetFront (name_of name.entry) dataset.old) prepared.header prepared.opening) }
    ensures long { IfOk result (λ prepared. dataset_end prepared.header ≤ prepared.opening.size) }
    ensures stopped { IfErr result (IsUnprepared script.now (held_of D.DatasetFront (name_of name.entry) dataset.old) (name_of name.entry) (Rose (D.faults dataset.old) (D.faults dataset.new))) }
    ensures untouched { script.now.fresh ≡ true → dataset.new ≡ dataset.old }
    ensures kept { D.held dataset.new ≡ D.held dataset.old }
{
    if script.fresh {
        create(alloc, script)
    } else {
        open(alloc, script, name, dataset)
    }
}
