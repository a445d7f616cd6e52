// Steps by two aggregators: at each room of their lines, on threads and in turn. Calls and bytes are worked out by hand.
ghost use Rattle.std.specs.Prelude.{◌≡◌, true};
ghost use Rattle.serial_spec.specs.SoundHeaders.{is_sound};
ghost use Rattle.serial_spec.specs.Lawful.{are_lawful_hints};

use super::steps::together::{get_by, get_two, put_by, put_two};
use super::steps::{Dataset, IN_TURN, Way, posted, small_dataset};
use super::{OLD, disk_of, has_bytes, has_calls, old_file};
use collective_round::PutEnd;
use nc_base::{Blob, DiskCall, GotTable, NcType, StepErr};
use nc_outside::{FailOp, Gate, MeetGate, MemDisk, OpenGate, Point};
use piece_exchange::{Crew, Tools};
use std::alloc::Global;
use std::process::Abort;
use std::sync::Wait;
use std::thread;
use std::thread::{Scope, Threads};
use test_fixtures::{Asked, NO_MEMORY};

/// What a test says where gets are refused that should not be.
const NO_TABLE: &str = "no table";

/// Eight ints from byte 80 on, for aggregators with such windows.
fn eight_ints(rt: &impl Abort, alloc: Global, way: Way) -> Dataset
    ensures sound { is_sound result.header ≡ true }
    ensures hints { are_lawful_hints result.hints ≡ true }
{
    small_dataset(rt, alloc, 8, NcType::Int, way)
}

/// What each of two ranks puts, and what the file then has of the ints.
struct Puts {
    asked: &'static [Asked; 2],
    left: &'static [u8],
}

/// Rank 0 puts every other int up to the seventh, rank 1 the second one and the fourth.
///
/// So the bytes from 80 to 108 have a hole from 100 to 104. The second domain begins at 94, within the fourth int, and its second
/// window at 106, within the seventh.
const ASKED: [Asked; 2] = [
    Asked {
        from: 0,
        count: 4,
        stride: 2,
        bytes: b"abcdijklqrstyzAB",
    },
    Asked {
        from: 1,
        count: 2,
        stride: 2,
        bytes: b"efghmnop",
    },
];

/// What the file has of the ints once they were put.
const PUT: &[u8] = b"abcdefghijklmnopqrst....yzAB....";

const HOLED: Puts = Puts {
    asked: &ASKED,
    left: PUT,
};

/// Rank 0 puts 1 3 5 7, and rank 1 puts 2 4 6 8 between them.
const BY_TURNS: Puts = Puts {
    asked: &[
        Asked {
            from: 0,
            count: 4,
            stride: 2,
            bytes: b"\0\0\0\x01\0\0\0\x03\0\0\0\x05\0\0\0\x07",
        },
        Asked {
            from: 1,
            count: 4,
            stride: 2,
            bytes: b"\0\0\0\x02\0\0\0\x04\0\0\0\x06\0\0\0\x08",
        },
    ],
    left: b"\0\0\0\x01\0\0\0\x02\0\0\0\x03\0\0\0\x04\0\0\0\x05\0\0\0\x06\0\0\0\x07\0\0\0\x08",
};

fn put<R: Abort + Threads + Wait + Sync, G: Gate>(
    rt: &R,
    alloc: Global,
    gate: &G,
    disk: &mut MemDisk,
    set: &Dataset,
    puts: &Puts,
) -> Result<PutEnd, StepErr>
    requires sound { is_sound set.now.header ≡ true }
    requires hints { are_lawful_hints set.now.hints ≡ true }
{
    let [a, b] = puts.asked;
    let (a, b) = (posted(rt, alloc, a), posted(rt, alloc, b));
    let (end, records) = put_two(rt, alloc, gate, disk, set, a, b);
    assert!(rt; records == 0);
    end
}

/// The put ends well, and all of it is in the file.
fn is_done<R: Abort + Threads + Wait + Sync, G: Gate>(
    rt: &R,
    alloc: Global,
    gate: &G,
    disk: &mut MemDisk,
    set: &Dataset,
    puts: &Puts,
)
    requires sound { is_sound set.now.header ≡ true }
    requires hints { are_lawful_hints set.now.hints ≡ true }
{
    let end = put(rt, alloc, gate, disk, set, puts);
    assert!(rt; end == Ok(PutEnd::Done));
    has_bytes(rt, alloc, disk, 80, puts.left);
}

/// Aggregators on threads, whose lines have room for two items.
const ON: Way = Way {
    threads: true,
    ..IN_TURN
};

/// The room of the lines, and whether aggregators have threads.
const WAYS: [Way; 4] = [
    Way { line_room: 1, ..ON },
    ON,
    Way {
        line_room: 64,
        ..ON
    },
    IN_TURN,
];

const PUT_CALLS: [DiskCall; 5] = [
    DiskCall::Store(80, 12),
    DiskCall::Store(92, 2),
    DiskCall::Load(94, 12),
    DiskCall::Store(94, 12),
    DiskCall::Store(106, 2),
];

#[test]
fn puts_go_domain_by_domain(rt: HostRuntime) {
    let alloc = rt.alloc();
    for way in WAYS {
        let set = eight_ints(&rt, alloc, way);
        let mut disk = disk_of(&rt, alloc, old_file(&rt, alloc, 112), &[]);
        is_done(&rt, alloc, &OpenGate, &mut disk, &set, &HOLED);
        has_calls(&rt, alloc, &disk, &PUT_CALLS);
        // Calls, which hide from the check how each list of these is let go.
        drop(disk);
        drop(set);
    }
}

/// The file with the puts done but from one place to another.
fn put_but(rt: &impl Abort, alloc: Global, from: usize, to: usize) -> Blob {
    let mut bytes = old_file(rt, alloc, 80).into_vec();
    bytes.extend_from_slice(PUT).expect(rt, NO_MEMORY);
    for place in from..to {
        if let Some(byte) = bytes.get_mut(place) {
            *byte = OLD;
        }
    }
    Blob::from_vec(bytes)
}

const GET_CALLS: [DiskCall; 4] = [
    DiskCall::Load(80, 12),
    DiskCall::Load(92, 2),
    DiskCall::Load(94, 12),
    DiskCall::Load(106, 2),
];

fn has_blob(rt: &impl Abort, table: &GotTable, rank: usize, bytes: &[u8]) {
    let ranks = table.as_slice();
    assert!(rt; rank < ranks.len());
    let blobs = ranks[rank].as_slice();
    assert!(rt; blobs.len() == 1);
    assert!(rt; blobs[0].as_slice() == bytes);
}

/// Each rank gets the ints that it puts elsewhere.
fn is_got<R: Abort + Threads + Wait + Sync>(
    rt: &R,
    alloc: Global,
    disk: &mut MemDisk,
    set: &Dataset,
)
    requires sound { is_sound set.now.header ≡ true }
    requires hints { are_lawful_hints set.now.hints ≡ true }
{
    let [a, b] = &ASKED;
    let (first, second) = (posted(rt, alloc, a), posted(rt, alloc, b));
    let got = get_two(rt, alloc, disk, set, first, second);
    has_ints(rt, got);
}

fn has_ints(rt: &impl Abort, got: Result<GotTable, StepErr>) {
    let [a, b] = &ASKED;
    let table = got.expect(rt, NO_TABLE);
    has_blob(rt, &table, 0, a.bytes);
    has_blob(rt, &table, 1, b.bytes);
}

#[test]
fn gets_go_domain_by_domain(rt: HostRuntime) {
    let alloc = rt.alloc();
    for way in WAYS {
        let set = eight_ints(&rt, alloc, way);
        let mut disk = disk_of(&rt, alloc, put_but(&rt, alloc, 0, 0), &[]);
        is_got(&rt, alloc, &mut disk, &set);
        has_calls(&rt, alloc, &disk, &GET_CALLS);
        drop(disk);
        drop(set);
    }
}

/// Each call of a put that the disk may refuse, and from where to where the file is then left as it was while the other aggregator goes
/// on: the splits, and the calls of the two. A write that is refused at 105 has written what stands before.
const REFUSED_PUTS: [(FailOp, u64, [usize; 2]); 8] = [
    (FailOp::Split, 80, [80, 108]),
    (FailOp::Split, 94, [80, 108]),
    (FailOp::Store, 80, [80, 94]),
    (FailOp::Store, 92, [92, 94]),
    (FailOp::Load, 94, [94, 108]),
    (FailOp::Store, 94, [94, 108]),
    (FailOp::Store, 105, [105, 108]),
    (FailOp::Store, 106, [106, 108]),
];

/// The put is refused, and leaves the file as it was from one place to another. Then the disk is whole: the same put ends well.
fn is_refused<R: Abort + Threads + Wait + Sync>(
    rt: &R,
    alloc: Global,
    way: Way,
    fault: (FailOp, u64),
    [from, to]: [usize; 2],
) {
    let set = eight_ints(rt, alloc, way);
    let mut disk = disk_of(rt, alloc, old_file(rt, alloc, 112), &[fault]);
    let end = put(rt, alloc, &OpenGate, &mut disk, &set, &HOLED);
    assert!(rt; end == Err(StepErr::Disk));
    let left = put_but(rt, alloc, from, to);
    has_bytes(rt, alloc, &disk, 0, left.as_slice());
    is_done(rt, alloc, &OpenGate, &mut disk, &set, &HOLED);
    drop(disk);
    drop(set);
}

// In turn, what stands behind the refused call is not begun.
#[test]
fn one_aggregator_goes_on_while_the_other_is_refused(rt: HostRuntime) {
    for (op, at, [from, to]) in REFUSED_PUTS {
        is_refused(&rt, rt.alloc(), ON, (op, at), [from, to]);
        is_refused(&rt, rt.alloc(), IN_TURN, (op, at), [from, 108]);
    }
}

/// An aggregator that comes to the first point is held until another comes to the second one, or for so many turns; and whether they meet.
struct Meeting {
    first: Point,
    second: Point,
    turns: u64,
    way: Way,
    puts: Puts,
    met: bool,
}

/// Lines with room for all items.
const ROOMY: Way = Way {
    line_room: 64,
    ..ON
};

/// Each window has two ints, one of either rank.
const PAIRS: Way = Way { cb_buffer: 8, ..ON };

const MEETINGS: [Meeting; 4] = [
    Meeting {
        first: Point::Window(0, 0),
        second: Point::Window(1, 0),
        turns: 10_000_000,
        way: ROOMY,
        puts: HOLED,
        met: true,
    },
    Meeting {
        first: Point::Window(1, 0),
        second: Point::Window(0, 0),
        turns: 10_000_000,
        way: ROOMY,
        puts: HOLED,
        met: true,
    },
    // The one that is held has taken none of the two pieces of its first window. One of them goes on its line, and the caller waits
    // with the other, before the second round.
    Meeting {
        first: Point::Window(0, 0),
        second: Point::Window(1, 1),
        turns: 2_000,
        way: Way {
            line_room: 1,
            ..PAIRS
        },
        puts: BY_TURNS,
        met: false,
    },
    Meeting {
        first: Point::Window(0, 0),
        second: Point::Window(1, 1),
        turns: 10_000_000,
        way: Way {
            line_room: 64,
            ..PAIRS
        },
        puts: BY_TURNS,
        met: true,
    },
];

/// Puts, and sees whether the points of the gate meet.
fn meets<R: Abort + Threads + Wait + Sync>(rt: &R, alloc: Global, meeting: &Meeting) {
    let gate = MeetGate::new(meeting.first, meeting.second, meeting.turns);
    let set = eight_ints(rt, alloc, meeting.way);
    let mut disk = disk_of(rt, alloc, old_file(rt, alloc, 112), &[]);
    is_done(rt, alloc, &gate, &mut disk, &set, &meeting.puts);
    assert!(rt; gate.met() == meeting.met);
    drop(disk);
    drop(set);
    drop(gate);
}

#[test]
fn aggregators_work_side_by_side(rt: HostRuntime) {
    for meeting in &MEETINGS {
        meets(&rt, rt.alloc(), meeting);
    }
}

/// Puts the ints and gets them by helpers that may have done so before.
fn put_and_get<'s, E, R: Abort + Threads + Wait + Sync>(
    tools: &Tools<R, OpenGate>,
    crew: &mut Crew<'s, E, R, OpenGate, MemDisk>,
    disk: &mut MemDisk,
    set: &Dataset,
)
    requires sound { is_sound set.now.header ≡ true }
    requires hints { are_lawful_hints set.now.hints ≡ true }
{
    let (rt, alloc) = (tools.rt, tools.alloc);
    let [a, b] = &ASKED;
    let (first, second) = (posted(rt, alloc, a), posted(rt, alloc, b));
    let (end, records) = put_by(tools, crew, disk, set, first, second);
    assert!(rt; end == Ok(PutEnd::Done) && records == 0);
    let (first, second) = (posted(rt, alloc, a), posted(rt, alloc, b));
    has_ints(rt, get_by(tools, crew, disk, set, first, second));
}

fn put_and_get_again<'s, E, R: Abort + Threads + Wait + Sync>(
    scope: &'s Scope<'s, E>,
    tools: &'s Tools<'s, R, OpenGate>,
    set: &Dataset,
)
    requires sound { is_sound set.now.header ≡ true }
    requires hints { are_lawful_hints set.now.hints ≡ true }
{
    let (rt, alloc) = (tools.rt, tools.alloc);
    let mut disk = disk_of(rt, alloc, old_file(rt, alloc, 112), &[]);
    let mut crew = Crew::new(Some(scope), tools);
    for _ in 0..3 {
        put_and_get(tools, &mut crew, &mut disk, set);
    }
    has_bytes(rt, alloc, &disk, 80, PUT);
    drop(crew);
    drop(disk);
}

fn stay<R: Abort + Threads + Wait + Sync>(rt: &R, alloc: Global, way: Way) {
    let set = eight_ints(rt, alloc, way);
    let tools = Tools {
        rt,
        alloc,
        gate: &OpenGate,
    };
    thread::scope(
        thread::scope_env(),
        rt,
        |scope| -> ()
            requires { (is_sound set.header ≡ true) × (are_lawful_hints set.hints ≡ true) }
        { put_and_get_again(scope, &tools, &set) },
    )
}

#[test]
fn helpers_do_one_step_after_another(rt: HostRuntime) {
    for way in WAYS {
        stay(&rt, rt.alloc(), way);
    }
}
