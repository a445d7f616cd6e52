// Each run is done by the program, and by the serial run along the order that the program answered; those of small datasets by hand, too.
mod in_turn;
mod made;
mod worked;

ghost use Rattle.std.specs.Prelude.{◌≡◌, ◌≤◌, true};
ghost use Rattle.serial_spec.specs.Lawful.{is_lawful};
ghost use Rattle.serial_spec.specs.SoundHeaders.{is_sound};

use cdf_header::decode;
use nc_base::{Blob, Header, Mark, Script};
use nc_outside::OpenGate;
use ncmpi_script::read_script;
use reference::{SerialEnd, legal, serial_run};
use run_fixtures::{Ended, NO_MEMORY, Run, end_of};
use std::alloc::Global;
use std::process::Abort;
use std::sync::Wait;
use std::thread::Threads;

fn joined(rt: &impl Abort, alloc: Global, parts: &[&[u8]]) -> Blob {
    run_fixtures::joined(alloc, parts).expect(rt, NO_MEMORY)
}

// What the program leaves.
fn program<R: Abort + Threads + Wait + Sync>(rt: &R, alloc: Global, run: &Run<'_>) -> Ended {
    let end = end_of(rt, alloc, run, &OpenGate).expect(rt, NO_MEMORY);
    assert_eq!(rt; end.status, 0);
    end
}

fn script_of(rt: &impl Abort, alloc: Global, text: &[u8]) -> Script
    ensures lawful { is_lawful result ≡ true }
    ensures ranks { 1 ≤ result.ranks }
{
    let Ok(script) = read_script(alloc, text) else {
        panic!(rt; "script")
    };
    assert!(rt; script.ranks >= 1);
    script
}

// The header at the front of a small dataset.
fn header_of(rt: &impl Abort, alloc: Global, bytes: &[u8]) -> Header
    ensures { is_sound result ≡ true }
{
    assert!(rt; bytes.len() <= 1024);
    let Ok((header, _)) = decode(alloc, bytes) else {
        panic!(rt; "header")
    };
    header
}

// The serial run along the order, from the bytes that the dataset has when the ranks begin.
fn serial(
    rt: &impl Abort,
    alloc: Global,
    script: &Script,
    begun: &[u8],
    order: &[Mark],
) -> SerialEnd
    requires { is_lawful script.now ≡ true }
{
    assert!(rt; legal(script, order));
    let header = header_of(rt, alloc, begun);
    let end = serial_run(alloc, script, &header, begun, order).expect(rt, NO_MEMORY);
    drop(header);
    end
}
