// A dataset that the script creates.
ghost use Rattle.std.specs.Prelude.{◌≡◌, ◌≤◌, List, Option, Some, true, Err, IfErr, IfOk, ℕ};
ghost use Rattle.nc_base.specs.declared.errors.LayoutErr.{LayoutErr};
ghost use Rattle.dataset_start.specs.Dataset.{creation_fault, IsKept};
ghost use Rattle.dataset_start.specs.Readiness.{dataset_end};
ghost use Rattle.dataset_start.specs.Stops.{IsOfLayout};
ghost use Rattle.plan_cli.specs.Opened.{IsOpening};

use crate::start::Prepared;
use dataset_start::{Stop, laid_out};
use nc_base::Script;
use opening_plan::open_fresh;
use std::alloc::Global;

/// Lays the dataset out, whatever was there before.
pub(crate) fn create(alloc: Global, script: &Script) -> Result<Prepared, Stop>
    requires kept { IsKept script.now }
    requires fresh { script.now.fresh ≡ true }
    ensures opening { IfOk result (λ prepared. (held : Option (List ℕ)) → IsOpening script.now held prepared.header prepared.opening) }
    ensures long { IfOk result (λ prepared. dataset_end prepared.header ≤ prepared.opening.size) }
    ensures refused { (e : LayoutErr) → result ≡ Err (Stop.Layout e) → creation_fault script.now ≡ Some e }
    ensures only { IfErr result IsOfLayout }
{
    let header = laid_out(alloc, script)?;
    match open_fresh(alloc, script, &header) {
        Ok(opening) => Ok(Prepared { header, opening }),
        Err(memory) => {
            drop(header);
            Err(Stop::from(memory))
        }
    }
}
