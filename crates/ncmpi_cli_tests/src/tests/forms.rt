// A run of each form of the command that ends well, and words of a form or of none.
use crate::tests::files::{
    A, A_FRONT, A_OFFSETS, AT_80, HALVES, ONE_TWO, THREE_FOUR, TWO_RANKS, VECTOR,
};
use crate::tests::{Want, has_called, is_wanted, left};
use nc_base::DiskCall;
use nc_outside::OpenGate;
use run_fixtures::{Ended, PLAIN, Run};
use std::alloc::Global;
use std::process::Abort;
use std::sync::Wait;
use std::thread::Threads;

/// Two ranks put the halves of a vector.
pub(crate) const CREATED: Run<'static> = Run {
    script: &[TWO_RANKS, VECTOR, HALVES],
    ..PLAIN
};

/// How that ends.
pub(crate) const IS_CREATED: Want = Want {
    status: 0,
    given: &[
        b"ranks 2\norder m0\nrank 0\n0 put_vara_all ok\npending 0\nrank 1\n0 put_vara_all ok\npending 0\n",
        A_OFFSETS,
    ],
    held: A,
};

// Each rank has an aggregator of its own.
const CREATING: &[DiskCall] = &[
    DiskCall::Grow(96),
    DiskCall::Store(0, 80),
    DiskCall::Store(80, 8),
    DiskCall::Store(88, 8),
];

// The script adds `var short q [x]`.
const ADDED: Run<'static> = Run {
    script: &[b"open\nranks 1\nvar short q [x]\ndata\n0 get_var_all v\n0 get_var_all q\nend\n"],
    held: A,
    ..PLAIN
};

const ADDED_TEXT: &[u8] = b"\
    ranks 1\norder m0 m1\nrank 0\n0 get_var_all ok 1 2 3 4\n1 get_var_all ok 0 0 0 0\npending 0\n\
    // file format: CDF-1\nfile header:\n  size = 116 bytes\n  extent = 116 bytes\n\
    dimensions:\n  x = 4\nfixed-size variables:\n  \
    int v(x):\n    start file offset = 116\n    end file offset = 132\n    size in bytes = 16\n  \
    short q(x):\n    start file offset = 132\n    end file offset = 140\n    size in bytes = 8\nrecord variables:\n";

// Old values read as before, and those of the added variable as zeros: v stands at 116, q at 132.
const IS_ADDED: Want = Want {
    status: 0,
    given: &[ADDED_TEXT],
    held: &[
        b"CDF\x01\x00\x00\x00\x00\x00\x00\x00\x0a\x00\x00\x00\x01\x00\x00\x00\x01x\x00\x00\x00\x00\x00\x00\x04",
        b"\x00\x00\x00\x00\x00\x00\x00\x00\x00\x00\x00\x0b\x00\x00\x00\x02",
        b"\x00\x00\x00\x01v\x00\x00\x00\x00\x00\x00\x01\x00\x00\x00\x00\x00\x00\x00\x00\x00\x00\x00\x00",
        b"\x00\x00\x00\x04\x00\x00\x00\x10\x00\x00\x00\x74",
        b"\x00\x00\x00\x01q\x00\x00\x00\x00\x00\x00\x01\x00\x00\x00\x00\x00\x00\x00\x00\x00\x00\x00\x00",
        b"\x00\x00\x00\x03\x00\x00\x00\x08\x00\x00\x00\x84",
        ONE_TWO,
        THREE_FOUR,
        &[0; 8],
    ],
};

// The values move up, zeros follow, and the header is stored last. Then the ranks begin.
const ADDING: &[DiskCall] = &[
    DiskCall::Load(0, 96),
    DiskCall::Grow(140),
    DiskCall::Load(80, 16),
    DiskCall::Store(116, 16),
    DiskCall::Store(132, 8),
    DiskCall::Store(0, 116),
    DiskCall::Load(116, 16),
    DiskCall::Load(132, 8),
];

// The source, which fails at once, is not asked. The file, which is shorter than its end, is not made longer.
const LISTED: Run<'static> = Run {
    words: &["--offsets", "d.nc"],
    held: &[A_FRONT, AT_80],
    takes: &[0],
    ..PLAIN
};

const IS_LISTED: Want = Want {
    status: 0,
    given: &[A_OFFSETS],
    held: &[A_FRONT, AT_80],
};

const LISTING: &[DiskCall] = &[DiskCall::Load(0, 80)];

const FORMS: [(Run<'static>, Want, &[DiskCall]); 3] = [
    (CREATED, IS_CREATED, CREATING),
    (ADDED, IS_ADDED, ADDING),
    (LISTED, IS_LISTED, LISTING),
];

// The run ends as it is to, and makes these calls.
fn ends_by<R: Abort + Threads + Wait + Sync>(
    rt: &R,
    alloc: Global,
    run: &Run<'_>,
    want: &Want,
    calls: &[DiskCall],
) {
    let end = left(rt, alloc, run, &OpenGate);
    is_wanted(rt, alloc, &end, want);
    has_called(rt, &end, calls);
    drop(end);
}

#[test]
fn a_run_of_each_form_ends_well(rt: HostRuntime) {
    for (run, want, calls) in &FORMS {
        ends_by(&rt, rt.alloc(), run, want, calls);
    }
}

const MADE: Run<'static> = Run {
    words: &["--generate", "0", "--size", "1", "d.nc"],
    takes: &[0],
    ..PLAIN
};

const SUMMARY: &[u8] = b"\
    generated 0 1\nranks 8\ncalls 56\ncollectives 3\nput 129600\ngot 2880\nrefused 0\n\
    sum 1534141468080\nrecords 1\nfile 388960\n";

fn is_summed_up(rt: &impl Abort, end: &Ended) {
    assert_eq!(rt; end.status, 0);
    assert_eq!(rt; end.given.as_slice(), SUMMARY);
    assert_eq!(rt; end.held.len(), 388960);
}

#[test]
fn a_made_script_is_summed_up(rt: HostRuntime) {
    let end = left(&rt, rt.alloc(), &MADE, &OpenGate);
    is_summed_up(&rt, &end);
    drop(end);
}

// Words of no form.
const NONE: u8 = 2;
// A run of a script: the one here has no head.
const RUN: u8 = 3;
// A list of offsets: the dataset here has no header.
const OFFSETS: u8 = 4;

const WORDS: [(&[&str], u8); 10] = [
    (&["d.nc"], RUN),
    (&["--", "-d.nc"], RUN),
    (&["d.nc", "--offsets"], OFFSETS),
    (&["d.nc", "--watch=00000000000000000008"], RUN),
    (&[], NONE),
    (&["-d.nc"], NONE),
    (&["d.nc", "e.nc"], NONE),
    (&["--size", "3", "d.nc"], NONE),
    (&["--watch", "9", "d.nc"], NONE),
    (&["--watch", "1", "--generate", "0", "d.nc"], NONE),
];

// A run of these words ends with this status.
fn has_status<R: Abort + Threads + Wait + Sync>(rt: &R, alloc: Global, words: &[&str], status: u8) {
    let run = Run { words, ..PLAIN };
    let end = left(rt, alloc, &run, &OpenGate);
    let found = end.status;
    drop(end);
    assert_eq!(rt; found, status);
}

#[test]
fn words_are_of_a_form_or_of_none(rt: HostRuntime) {
    for (words, status) in &WORDS {
        has_status(&rt, rt.alloc(), words, *status);
    }
}
