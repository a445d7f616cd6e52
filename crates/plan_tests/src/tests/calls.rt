// The device calls of worked runs, which stand in docs/ROWS.md.
use crate::tests::fixtures::{NO_MEMORY, planned};
use nc_base::DiskCall;
use nc_base::DiskCall::{Grow, Load, Store};
use run_plan::RunPlan;
use std::alloc::Global;
use std::process::Abort;
use std::sync::Wait;
use step_plan::device_calls;

/// Two ranks put the halves of four ints.
const HALVES: &[u8] = b"create 1\nranks 2\ndim x 4\nvar int v [x]\ndata\n\
    0 put_vara_all v [0] [2] 1 2\n1 put_vara_all v [2] [2] 3 4\nend\n";

/// They put every other element, each through windows of one.
const EVERY_OTHER: &[u8] =
    b"create 1\nranks 2\nhint cb_nodes 1\nhint cb_buffer_size 4\ndim x 4\nvar int v [x]\ndata\n\
    0 put_vars_all v [0] [2] [2] 1 3\n1 put_vars_all v [1] [2] [2] 2 4\nend\n";

/// The puts of two of three ranks share an element.
const OVERLAP: &[u8] = b"create 1\nranks 3\ndim x 4\nvar int v [x]\ndata\n\
    0 put_vara_all v [0] [3] 1 2 3\n1 put_vara_all v [2] [2] 8 9\n2 put_vara_all v [0] [0]\nend\n";

/// One rank puts the fourth record.
const RECORD: &[u8] =
    b"create 1\nranks 1\ndim t unlimited\nvar short s [t]\ndata\n0 put_var1_all s [3] 7\nend\n";

/// Each of two ranks puts every other element by itself.
const ALONE: &[u8] = b"create 1\nranks 2\ndim x 4\nvar int v [x]\ndata\n\
    0 begin_indep_data\n0 put_vars v [0] [2] [2] 1 3\n0 end_indep_data\n\
    1 begin_indep_data\n1 put_vars v [1] [2] [2] 2 4\n1 end_indep_data\nend\n";

/// One rank puts the third record by itself, and the other learns of it when they meet.
const KNOWN: &[u8] = b"create 1\nranks 2\ndim t unlimited\nvar short s [t]\ndata\n\
    0 begin_indep_data\n0 put_var1 s [2] 5\n0 inq_dimlen t\n0 end_indep_data\n0 inq_dimlen t\n\
    1 begin_indep_data\n1 inq_dimlen t\n1 get_var1 s [2]\n1 end_indep_data\n1 inq_dimlen t\nend\n";

/// Scripts, and their device calls.
const RUNS: [(&[u8], &[DiskCall]); 6] = [
    (
        HALVES,
        &[Grow(96), Store(0, 80), Store(80, 8), Store(88, 8)],
    ),
    (
        EVERY_OTHER,
        &[
            Grow(96),
            Store(0, 80),
            Store(80, 4),
            Store(84, 4),
            Store(88, 4),
            Store(92, 4),
        ],
    ),
    (OVERLAP, &[Grow(96), Store(0, 80)]),
    (
        RECORD,
        &[Grow(80), Store(0, 80), Grow(88), Store(86, 2), Store(4, 4)],
    ),
    (
        ALONE,
        &[
            Grow(96),
            Store(0, 80),
            Load(80, 12),
            Store(80, 12),
            Load(84, 12),
            Store(84, 12),
        ],
    ),
    (
        KNOWN,
        &[Grow(80), Store(0, 80), Grow(86), Store(84, 2), Store(4, 4)],
    ),
];

/// All calls of a plan, in turn.
fn calls_of(rt: &impl Abort, alloc: Global, plan: &RunPlan) -> Vec<DiskCall> {
    let mut calls = Vec::from_slice(alloc, plan.opening.as_slice()).expect(rt, NO_MEMORY);
    for step in plan.steps.as_slice() {
        device_calls(&mut calls, &step.file).expect(rt, NO_MEMORY);
    }
    if let Some(field) = plan.close {
        calls.push(Store(field.at, field.len)).expect(rt, NO_MEMORY);
    }
    calls
}

/// The plan of the script makes these calls.
fn makes<R: Abort + Wait>(rt: &R, alloc: Global, text: &[u8], calls: &[DiskCall]) {
    let plan = planned(rt, alloc, text);
    let made = calls_of(rt, alloc, &plan);
    drop(plan);
    let are_these = made.as_slice() == calls;
    drop(made);
    assert!(rt; are_these);
}

#[test]
fn the_planned_calls_are_those_of_worked_runs(rt: HostRuntime) {
    for (text, calls) in &RUNS {
        makes(&rt, rt.alloc(), text, calls);
    }
}
