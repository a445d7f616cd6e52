// A run for each other status but 8.
use crate::tests::files::{
    A, A_FRONT, AT_80, B, HALVES, MAGIC, NO_RECORDS, ONE_TWO, THREE_FOUR, TWO_RANKS, VECTOR,
};
use crate::tests::{Want, ends_so, has_finished, is_wanted, left};
use nc_base::Mark;
use nc_outside::{Fail, FailOp, OpenGate};
use run_fixtures::{OLD, PLAIN, Run};
use std::alloc::Global;
use std::process::Abort;
use std::sync::Wait;
use std::thread::Threads;

const HALVES_SCRIPT: &[&[u8]] = &[TWO_RANKS, VECTOR, HALVES];

const PUT: Run<'static> = Run {
    script: HALVES_SCRIPT,
    ..PLAIN
};

const STATUSES: [(Run<'static>, Want); 5] = [
    (
        Run { words: &[], ..PUT },
        Want {
            status: 2,
            given: &[
                b"ncrun: usage: ncrun [--offsets] [--generate SEED [--size N]] [--watch N] DATASET\n",
            ],
            held: OLD,
        },
    ),
    (
        Run {
            script: &[TWO_RANKS, VECTOR, HALVES, b"x\n"],
            ..PLAIN
        },
        Want {
            status: 3,
            given: &[b"ncrun: script line 9: text after end\n"],
            held: OLD,
        },
    ),
    (
        Run {
            script: &[b"open\nranks 1\ndata\nend\n"],
            ..PLAIN
        },
        Want {
            status: 4,
            given: &[b"ncrun: header truncated at byte 0\n"],
            held: OLD,
        },
    ),
    // The source fails before it was told to have ended.
    (
        Run { takes: &[1], ..PUT },
        Want {
            status: 5,
            given: &[],
            held: OLD,
        },
    ),
    // The sink is full after ten bytes.
    (
        Run { room: 10, ..PUT },
        Want {
            status: 6,
            given: &[b"ranks 2\nor"],
            held: A,
        },
    ),
];

#[test]
fn each_other_status_has_its_line(rt: HostRuntime) {
    for (run, want) in &STATUSES {
        ends_so(&rt, rt.alloc(), run, want);
    }
}

// A part of one rank's vector.
const PART: &[&[u8]] = &[
    b"create 1\nranks 1\n",
    VECTOR,
    b"0 put_vara_all v [1] [2] 5 -1\nend\n",
];

// The second put leaves a hole, which is read.
const HOLE: &[&[u8]] = &[
    b"create 1\nranks 1\nhint cb_buffer_size 16\n",
    VECTOR,
    b"0 put_var_all v 1 2 3 4\n0 put_vars_all v [0] [2] [3] 7 8\nend\n",
];

const OPENED_HOLE: &[&[u8]] = &[
    b"open\nranks 1\nhint cb_buffer_size 16\ndata\n0 put_vars_all v [0] [2] [3] 7 8\nend\n",
];

const RECORD: &[&[u8]] = &[
    b"create 1\nranks 1\ndim t unlimited\nvar short s [t]\ndata\n0 put_var1_all s [3] 7\nend\n",
];

// Each of two ranks alone puts every other element. This run and the next ones go in turn, so that the first rank goes first.
const SIEVED: &[&[u8]] = &[
    b"create 1\nranks 2\nhint threads off\n",
    VECTOR,
    b"0 begin_indep_data\n0 put_vars v [0] [2] [2] 1 3\n0 end_indep_data\n\
    1 begin_indep_data\n1 put_vars v [1] [2] [2] 2 4\n1 end_indep_data\nend\n",
];

// The first rank alone puts the third record, and the second one does not know of it before they meet.
const KNOWN: &[&[u8]] = &[
    b"create 1\nranks 2\nhint threads off\ndim t unlimited\nvar short s [t]\ndata\n\
    0 begin_indep_data\n0 put_var1 s [2] 5\n0 inq_dimlen t\n0 end_indep_data\n0 inq_dimlen t\n\
    1 begin_indep_data\n1 inq_dimlen t\n1 get_var1 s [2]\n1 end_indep_data\n1 inq_dimlen t\nend\n",
];

// Two records of one rank alone, which are counted where the ranks meet.
const ALONE: &[&[u8]] = &[
    b"open\nranks 1\nhint threads off\ndata\n0 begin_indep_data\n0 put_var1 s [2] 5\n0 put_var1 s [3] 6\n0 end_indep_data\nend\n",
];

const NEW_A: &[&[u8]] = &[A_FRONT, AT_80, &[0; 16]];

const NEW_B: &[&[u8]] = &[MAGIC, NO_RECORDS, B];

// The same with room for what the put of a record holds.
const GROWN_B: &[&[u8]] = &[MAGIC, NO_RECORDS, B, &[0; 8]];

const LONGER_B: &[&[u8]] = &[MAGIC, NO_RECORDS, B, &[0; 6]];

const FIRST_HALF: &[&[u8]] = &[A_FRONT, AT_80, ONE_TWO, &[0; 8]];

const SECOND_HALF: &[&[u8]] = &[A_FRONT, AT_80, &[0; 8], THREE_FOUR];

const ODD: &[&[u8]] = &[
    A_FRONT,
    AT_80,
    b"\x00\x00\x00\x01\x00\x00\x00\x00\x00\x00\x00\x03\x00\x00\x00\x00",
];

const LAST_BYTE_WANTS: &[&[u8]] = &[A_FRONT, AT_80, ONE_TWO, b"\x00\x00\x00\x03\x00\x00\x00\x00"];

const UNCOUNTED: &[&[u8]] = &[MAGIC, NO_RECORDS, B, b"\x00\x00\x00\x00\x00\x05\x00\x00"];

const BEGUN: &[Mark] = &[Mark::Meet(0)];

const FIRST_ALONE: &[Mark] = &[Mark::Meet(0), Mark::Solo(0, 1)];

const FAULT: &[&[u8]] = &[b"ncrun: disk fault\n"];

// A script, what the dataset holds before, the call that is refused, the steps that were finished, and what is left. A growth leaves what there was, and a write what stands before its place;
// of two aggregators one goes on where the other is refused. The write of a new header holds the record count, so that the later write of the count
// is refused in a dataset that is opened.
const REFUSED: [(&[&[u8]], &[&[u8]], FailOp, u64, &[Mark], &[&[u8]]); 27] = [
    (HALVES_SCRIPT, OLD, FailOp::Start, 0, &[], OLD),
    (HALVES_SCRIPT, OLD, FailOp::Grow, 95, &[], &[]),
    (HALVES_SCRIPT, OLD, FailOp::Store, 0, &[], &[&[0; 96]]),
    (HALVES_SCRIPT, OLD, FailOp::Split, 80, &[], NEW_A),
    (HALVES_SCRIPT, OLD, FailOp::Split, 88, &[], NEW_A),
    (HALVES_SCRIPT, OLD, FailOp::Store, 80, &[], SECOND_HALF),
    (HALVES_SCRIPT, OLD, FailOp::Store, 88, &[], FIRST_HALF),
    (HALVES_SCRIPT, OLD, FailOp::Store, 95, &[], LAST_BYTE_WANTS),
    (PART, OLD, FailOp::Grow, 90, &[], &[]),
    (HOLE, OLD, FailOp::Load, 84, BEGUN, A),
    (OPENED_HOLE, A, FailOp::Start, 0, &[], A),
    (OPENED_HOLE, A, FailOp::Load, 0, &[], A),
    (OPENED_HOLE, A, FailOp::Split, 80, &[], A),
    (OPENED_HOLE, A, FailOp::Store, 80, &[], A),
    (RECORD, OLD, FailOp::Grow, 79, &[], &[]),
    (RECORD, OLD, FailOp::Store, 4, &[], &[MAGIC, &[0; 76]]),
    (RECORD, OLD, FailOp::Grow, 80, &[], NEW_B),
    (RECORD, OLD, FailOp::Split, 86, &[], GROWN_B),
    (RECORD, OLD, FailOp::Store, 86, &[], GROWN_B),
    (SIEVED, OLD, FailOp::Load, 80, BEGUN, NEW_A),
    (SIEVED, OLD, FailOp::Store, 80, BEGUN, NEW_A),
    (SIEVED, OLD, FailOp::Load, 95, FIRST_ALONE, ODD),
    (SIEVED, OLD, FailOp::Store, 92, FIRST_ALONE, LAST_BYTE_WANTS),
    (KNOWN, OLD, FailOp::Grow, 85, BEGUN, NEW_B),
    (KNOWN, OLD, FailOp::Store, 84, BEGUN, LONGER_B),
    (KNOWN, OLD, FailOp::Store, 0, &[], &[&[0; 80]]),
    (ALONE, NEW_B, FailOp::Store, 87, FIRST_ALONE, UNCOUNTED),
];

// The run ends at the refused call, with what is left then.
fn ends_there<R: Abort + Threads + Wait + Sync>(
    rt: &R,
    alloc: Global,
    run: &Run<'_>,
    order: &[Mark],
    bytes: &'static [&'static [u8]],
) {
    let want = Want {
        status: 7,
        given: FAULT,
        held: bytes,
    };
    let end = left(rt, alloc, run, &OpenGate);
    is_wanted(rt, alloc, &end, &want);
    has_finished(rt, &end, order);
    drop(end);
}

#[test]
fn a_refused_call_ends_the_run(rt: HostRuntime) {
    for (script, held, op, at, order, bytes) in &REFUSED {
        let fault = Fail { op: *op, at: *at };
        let run = Run {
            script,
            held,
            plan: &[fault],
            ..PLAIN
        };
        ends_there(&rt, rt.alloc(), &run, order, bytes);
    }
}
