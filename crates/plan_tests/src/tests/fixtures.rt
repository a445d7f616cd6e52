// The plan of a script that creates its dataset.
ghost use Rattle.std.specs.Prelude.{◌≡◌, true};
ghost use Rattle.serial_spec.specs.Lawful.{is_lawful};
ghost use Rattle.serial_spec.specs.SoundHeaders.{is_sound};
ghost use Rattle.dataset_start.specs.Dataset.{IsKept};

use dataset_start::laid_out;
use nc_base::{Header, Script};
use ncmpi_script::read_script;
use opening_plan::open_fresh;
use run_plan::{RunPlan, plan_run};
use std::alloc::Global;
use std::process::Abort;
use std::sync::Wait;
use var_layout::end_of;

/// What a test says that has no memory.
pub(crate) const NO_MEMORY: &str = "no memory";

/// The plan of the run of the script that this text spells.
pub(crate) fn planned<R: Abort + Wait>(rt: &R, alloc: Global, text: &[u8]) -> RunPlan {
    let script = script_of(rt, alloc, text);
    let header = header_of(rt, alloc, &script);
    let opening = open_fresh(alloc, &script, &header).expect(rt, NO_MEMORY);
    let end = end_of(&header, header.records);
    assert!(rt; end <= opening.size);
    let plan = plan_run(rt, alloc, &header, &script, opening).expect(rt, NO_MEMORY);
    drop(header);
    drop(script);
    plan
}

fn script_of(rt: &impl Abort, alloc: Global, text: &[u8]) -> Script
    ensures lawful { is_lawful result ≡ true }
    ensures kept { IsKept result }
    ensures fresh { result.fresh ≡ true }
{
    let Ok(script) = read_script(alloc, text) else {
        panic!(rt; "script")
    };
    assert!(rt; script.fresh);
    script
}

fn header_of(rt: &impl Abort, alloc: Global, script: &Script) -> Header
    requires kept { IsKept script.now }
    requires fresh { script.now.fresh ≡ true }
    ensures { is_sound result ≡ true }
{
    let Ok(header) = laid_out(alloc, script) else {
        panic!(rt; "layout")
    };
    header
}
