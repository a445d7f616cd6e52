// Ranks, aggregators and watchers on threads of their own. No contract says that threads run side by side: a test holds one until another has come
// so far.
use crate::tests::files::{A, A_OFFSETS, HALVES, TWO_RANKS, VECTOR};
use crate::tests::forms::{CREATED, IS_CREATED};
use crate::tests::{Want, blob, has_called, is_wanted, left};
use nc_base::{Blob, DiskCall};
use nc_outside::{MeetGate, OpenGate, Point};
use run_fixtures::{Ended, PLAIN, Run};
use std::alloc::Global;
use std::process::Abort;
use std::sync::Wait;
use std::thread::Threads;

// How often a thread that is held looks whether the other point was reached.
const TURNS: u64 = 10_000_000;

// What a run leaves in which whoever passes the first point waits for the second.
fn left_by<R: Abort + Threads + Wait + Sync>(
    rt: &R,
    alloc: Global,
    run: &Run<'_>,
    first: Point,
    second: Point,
) -> Ended {
    let gate = MeetGate::new(first, second, TURNS);
    let end = left(rt, alloc, run, &gate);
    let has_met = gate.met();
    drop(gate);
    assert!(rt; has_met);
    end
}

// Two ranks put the halves of a vector.
fn meet<R: Abort + Threads + Wait + Sync>(rt: &R, alloc: Global, first: Point, second: Point) {
    let end = left_by(rt, alloc, &CREATED, first, second);
    is_wanted(rt, alloc, &end, &IS_CREATED);
    drop(end);
}

#[test]
fn the_second_rank_steps_while_the_first_waits(rt: HostRuntime) {
    meet(
        &rt,
        rt.alloc(),
        Point::RankStep(0, 0),
        Point::RankStep(1, 0),
    )
}

#[test]
fn the_first_rank_steps_while_the_second_waits(rt: HostRuntime) {
    meet(
        &rt,
        rt.alloc(),
        Point::RankStep(1, 0),
        Point::RankStep(0, 0),
    )
}

#[test]
fn the_owner_takes_while_a_rank_waits(rt: HostRuntime) {
    meet(&rt, rt.alloc(), Point::RankStep(0, 0), Point::Arrival(0))
}

#[test]
fn a_rank_steps_while_the_owner_waits(rt: HostRuntime) {
    meet(&rt, rt.alloc(), Point::Arrival(0), Point::RankStep(0, 0))
}

#[test]
fn the_second_aggregator_begins_while_the_first_waits(rt: HostRuntime) {
    meet(&rt, rt.alloc(), Point::Window(0, 0), Point::Window(1, 0))
}

#[test]
fn the_first_aggregator_begins_while_the_second_waits(rt: HostRuntime) {
    meet(&rt, rt.alloc(), Point::Window(1, 0), Point::Window(0, 0))
}

// Three aggregators have a part of the vector each.
const BY_THREE: Run<'static> = Run {
    script: &[TWO_RANKS, b"hint cb_nodes 3\n", VECTOR, HALVES],
    ..PLAIN
};

#[test]
fn the_third_aggregator_begins_while_the_first_waits(rt: HostRuntime) {
    let alloc = rt.alloc();
    let first = Point::Window(0, 0);
    let end = left_by(&rt, alloc, &BY_THREE, first, Point::Window(2, 0));
    is_wanted(&rt, alloc, &end, &IS_CREATED);
    drop(end);
}

// Each of two ranks alone puts every other element between two meetings, which has holes that are read.
const ALONE: Run<'static> = Run {
    script: &[
        TWO_RANKS,
        VECTOR,
        b"0 begin_indep_data\n0 put_vars v [0] [2] [2] 1 3\n0 end_indep_data\n\
        1 begin_indep_data\n1 put_vars v [1] [2] [2] 2 4\n1 end_indep_data\nend\n",
    ],
    ..PLAIN
};

const EACH_ALONE: &[u8] = b"\
    rank 0\n0 begin_indep_data ok\n1 put_vars ok\n2 end_indep_data ok\npending 0\n\
    rank 1\n0 begin_indep_data ok\n1 put_vars ok\n2 end_indep_data ok\npending 0\n";

// A rank that steps in its own call is held until the other one has done its own: the first point and the second one, the text, and the calls.
const ORDERS: [(Point, Point, &[&[u8]], &[DiskCall]); 2] = [
    (
        Point::RankStep(1, 1),
        Point::RankStep(0, 2),
        &[b"ranks 2\norder m0 s0.1 s1.1 m1\n", EACH_ALONE, A_OFFSETS],
        &[
            DiskCall::Grow(96),
            DiskCall::Store(0, 80),
            DiskCall::Load(80, 12),
            DiskCall::Store(80, 12),
            DiskCall::Load(84, 12),
            DiskCall::Store(84, 12),
        ],
    ),
    (
        Point::RankStep(0, 1),
        Point::RankStep(1, 2),
        &[b"ranks 2\norder m0 s1.1 s0.1 m1\n", EACH_ALONE, A_OFFSETS],
        &[
            DiskCall::Grow(96),
            DiskCall::Store(0, 80),
            DiskCall::Load(84, 12),
            DiskCall::Store(84, 12),
            DiskCall::Load(80, 12),
            DiskCall::Store(80, 12),
        ],
    ),
];

fn come_so<R: Abort + Threads + Wait + Sync>(
    rt: &R,
    alloc: Global,
    [first, second]: [Point; 2],
    given: &'static [&'static [u8]],
    calls: &[DiskCall],
) {
    let end = left_by(rt, alloc, &ALONE, first, second);
    let want = Want {
        status: 0,
        given,
        held: A,
    };
    is_wanted(rt, alloc, &end, &want);
    has_called(rt, &end, calls);
    drop(end);
}

#[test]
fn calls_of_single_ranks_come_in_either_order(rt: HostRuntime) {
    for (first, second, given, calls) in &ORDERS {
        come_so(&rt, rt.alloc(), [*first, *second], given, calls);
    }
}

// Two ranks put the halves, and one watcher reads.
const WATCHED: Run<'static> = Run {
    words: &["--watch", "1", "d.nc"],
    ..CREATED
};

// What was printed behind this text.
fn behind(rt: &impl Abort, alloc: Global, given: &[u8], text: &[&[u8]]) -> Blob {
    let text = blob(rt, alloc, text);
    let (front, readings) = given.split_at_checked(text.len()).expect(rt, "readings");
    let is_front = front == text.as_slice();
    drop(text);
    assert!(rt; is_front);
    blob(rt, alloc, &[readings])
}

// The readings of a run in which whoever passes the first point waits for the second: what was printed behind this text.
fn readings_of<R: Abort + Threads + Wait + Sync>(
    rt: &R,
    alloc: Global,
    run: &Run<'_>,
    [first, second]: [Point; 2],
    text: &[&[u8]],
) -> Blob {
    let end = left_by(rt, alloc, run, first, second);
    let readings = behind(rt, alloc, end.given.as_slice(), text);
    drop(end);
    readings
}

// What stands in front of the readings, each of which is a line of four bytes.
const WATCHED_TEXT: &[&[u8]] = &[
    b"ranks 2\norder m0\nrank 0\n0 put_vara_all ok\npending 0\nrank 1\n0 put_vara_all ok\npending 0\n",
    A_OFFSETS,
    b"watcher 0\n",
];

#[test]
fn a_watcher_reads_before_the_first_step(rt: HostRuntime) {
    let points = [Point::RankStep(0, 0), Point::Reading(0, 1)];
    let readings = readings_of(&rt, rt.alloc(), &WATCHED, points, WATCHED_TEXT);
    assert!(rt; readings.as_slice().starts_with(b"0 0\n"));
    drop(readings);
}

const WATCHED_BY_TWO: Run<'static> = Run {
    words: &["--watch", "2", "d.nc"],
    ..CREATED
};

// It stands behind the 17 readings of the first one.
#[test]
fn the_second_watcher_reads_before_the_first_step(rt: HostRuntime) {
    let points = [Point::RankStep(0, 0), Point::Reading(1, 1)];
    let readings = readings_of(&rt, rt.alloc(), &WATCHED_BY_TWO, points, WATCHED_TEXT);
    let second = readings.as_slice().get(68..82);
    assert!(rt; second == Some(b"watcher 1\n0 0\n".as_slice()));
    drop(readings);
}

// Each rank puts its half twice.
const WATCHED_TWICE: Run<'static> = Run {
    script: &[
        TWO_RANKS,
        VECTOR,
        b"0 put_vara_all v [0] [2] 1 2\n1 put_vara_all v [2] [2] 3 4\n",
        HALVES,
    ],
    ..WATCHED
};

const WATCHED_TWICE_TEXT: &[&[u8]] = &[
    b"ranks 2\norder m0 m1\nrank 0\n0 put_vara_all ok\n1 put_vara_all ok\npending 0\n\
    rank 1\n0 put_vara_all ok\n1 put_vara_all ok\npending 0\n",
    A_OFFSETS,
    b"watcher 0\n",
];

// The ninth reading comes behind the first step, and sees it.
#[test]
fn a_watcher_reads_a_step_before_the_run_ends(rt: HostRuntime) {
    let points = [Point::Reading(0, 8), Point::RankStep(0, 1)];
    let readings = readings_of(&rt, rt.alloc(), &WATCHED_TWICE, points, WATCHED_TWICE_TEXT);
    let ninth = readings.as_slice().get(32..36);
    assert!(rt; ninth == Some(b"1 0\n".as_slice()) || ninth == Some(b"2 0\n".as_slice()));
    drop(readings);
}

const PUT_AND_GET: &[u8] = b"0 put_var_all v 1 2 3 4\n0 get_var_all v\nend\n";

// What stands in a script in front of its hints on threads, and its calls. In the second there is an aggregator for each byte.
const SCRIPTS: [[&[u8]; 2]; 4] = [
    [TWO_RANKS, HALVES],
    [b"create 1\nranks 1\nhint cb_buffer_size 3\n", PUT_AND_GET],
    [b"create 1\nranks 1\nhint cb_nodes 64\n", PUT_AND_GET],
    [
        b"create 1\nranks 1\nhint cb_nodes 3\nhint cb_buffer_size 3\n",
        PUT_AND_GET,
    ],
];

const ON: &[u8] = b"hint threads on\n";

// Other ways in which ranks and aggregators run.
const WAYS: [&[u8]; 3] = [
    b"hint threads off\n",
    b"hint line_room 1\n",
    b"hint line_room 64\n",
];

// What a script of these parts leaves that ends well.
fn run<R: Abort + Threads + Wait + Sync>(rt: &R, alloc: Global, script: &[&[u8]]) -> Ended {
    let run = Run { script, ..PLAIN };
    let end = left(rt, alloc, &run, &OpenGate);
    assert_eq!(rt; end.status, 0);
    end
}

fn are_the_same(rt: &impl Abort, one: &Ended, other: &Ended) {
    assert!(rt; one.given == other.given);
    assert!(rt; one.held == other.held);
    assert!(rt; one.calls == other.calls);
}

fn goes_each_way<R: Abort + Threads + Wait + Sync>(
    rt: &R,
    alloc: Global,
    head: &[u8],
    calls: &[u8],
) {
    let plain = run(rt, alloc, &[head, ON, VECTOR, calls]);
    for way in &WAYS {
        let other = run(rt, alloc, &[head, way, VECTOR, calls]);
        are_the_same(rt, &other, &plain);
        drop(other);
    }
    drop(plain);
}

#[test]
fn no_way_changes_a_byte_or_a_call(rt: HostRuntime) {
    for [head, calls] in &SCRIPTS {
        goes_each_way(&rt, rt.alloc(), head, calls);
    }
}
