// A run of a script that is made from a seed. Its puts share no byte. So a run that lets later puts win ends the same, and the serial run
// need not look for shared bytes, which takes it a time that grows with the square of what is put.
ghost use Rattle.std.specs.Prelude.{◌≡◌, ◌≤◌, true};
ghost use Rattle.script_spec.specs.Generator.{has_counts};
ghost use Rattle.serial_spec.specs.Lawful.{is_lawful};

use crate::tests::{joined, program, serial};
use generated_run::make_script;
use nc_base::{Blob, OverlapRule, Script};
use reference::SerialEnd;
use run_fixtures::{Ended, NO_MEMORY, PLAIN, Run};
use std::alloc::Global;
use std::process::Abort;

// The made script of this size, whose later puts win.
fn made<R: Abort>(rt: &R, alloc: Global, size: u32) -> Script
    requires some { 1 ≤ size }
    requires few { size ≤ 64 }
    ensures lawful { is_lawful result ≡ true }
    ensures counted { has_counts result ≡ true }
{
    let mut script = make_script(alloc, 0, size).expect(rt, NO_MEMORY);
    script.hints.overlap = OverlapRule::Serial;
    script
}

// What the serial run leaves, which begins where the program's dataset had no record yet.
fn again(rt: &impl Abort, alloc: Global, end: &Ended) -> Blob {
    let script = made(rt, alloc, 1);
    let rest = end.held.as_slice().get(8..160).expect(rt, "header");
    let begun = joined(rt, alloc, &[b"CDF\x01\x00\x00\x00\x00", rest]);
    let SerialEnd {
        bytes,
        records: _,
        answers,
        pending,
    } = serial(rt, alloc, &script, begun.as_slice(), end.order.as_slice());
    drop(answers);
    drop(pending);
    drop(begun);
    drop(script);
    bytes
}

const ONE_RECORD: Run<'static> = Run {
    words: &["--generate", "0", "--size", "1", "d.nc"],
    held: &[],
    ..PLAIN
};

#[test]
fn one_made_record_agrees(rt: HostRuntime) {
    let end = program(&rt, rt.alloc(), &ONE_RECORD);
    let bytes = again(&rt, rt.alloc(), &end);
    assert!(rt; bytes == end.held);
    drop(bytes);
    drop(end);
}
