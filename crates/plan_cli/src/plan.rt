// The plan of a script, as a text or a JSON document.
ghost use Rattle.std.specs.Prelude.{◌≡◌, ◌≤◌, true, IfOk};
ghost use Rattle.serial_spec.specs.SoundHeaders.{is_sound};
ghost use Rattle.dataset_start.specs.Dataset.{IsKept};
ghost use Rattle.dataset_start.specs.Readiness.{dataset_end};
ghost use Rattle.plan_cli.specs.Headline as spec;
ghost use Rattle.plan_cli.specs.Headline.{TellsPlan};

use crate::start::{Prepared, Ready};
use nc_base::{Blob, Header, Memory, Script};
use plan_sums::sum_up;
use plan_text::{Document, plan_json, plan_text};
use run_plan::{Opening, plan_run};
use std::alloc::Global;
use std::sync::Wait;

/// Plans the run of a script on a dataset, and prints the plan.
pub(crate) fn print_plan<R: Wait>(
    rt: &R,
    alloc: Global,
    json: bool,
    ready: Ready,
) -> Result<Blob, Memory>
    requires kept { IsKept ready.script }
    requires sound { is_sound ready.dataset.header ≡ true }
    requires long { dataset_end ready.dataset.header ≤ ready.dataset.opening.size }
    ensures { IfOk result (TellsPlan json ready.script ready.dataset.header ready.dataset.opening) }
{
    let Ready { script, dataset } = ready;
    let Prepared { header, opening } = dataset;
    let text = print_run(rt, alloc, json, &script, &header, opening);
    // Calls, which hide from the check how each list of these is let go.
    drop(script);
    drop(header);
    text
}

// Plans the run from an opening on, and prints the plan.
fn print_run<R: Wait>(
    rt: &R,
    alloc: Global,
    json: bool,
    script: &Script,
    header: &Header,
    opening: Opening,
) -> Result<Blob, Memory>
    requires kept { IsKept script.now }
    requires sound { is_sound header.now ≡ true }
    requires long { dataset_end header.now ≤ opening.size }
    ensures { IfOk result (TellsPlan json script.now header.now opening) }
{
    let length = opening.size;
    let plan = plan_run(rt, alloc, header, script, opening)?;
    let hints = &script.hints;
    let sums = match sum_up(
        alloc,
        &plan,
        hints.striping_unit,
        script.ranks,
        hints.cb_nodes,
    ) {
        Ok(sums) => sums,
        Err(memory) => {
            drop(plan);
            return Err(memory);
        }
    };
    let document = Document {
        script,
        header,
        length,
        plan: &plan,
        sums: &sums,
    };
    let text = print(alloc, json, &document);
    drop(sums);
    drop(plan);
    text
}

// The plan in the form that is asked for.
fn print(alloc: Global, json: bool, document: &Document) -> Result<Blob, Memory>
    requires { is_sound document.now.header.now ≡ true }
    ensures { IfOk result (λ text. text ≡ spec.document json document.now.script.now document.now.header.now document.now.length document.now.plan.now document.now.sums.now) }
{
    if json {
        plan_json(alloc, document)
    } else {
        plan_text(alloc, document)
    }
}
