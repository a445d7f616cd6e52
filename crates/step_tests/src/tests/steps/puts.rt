// Puts of two ranks and of one, with their ends, their calls and their bytes.
ghost use Rattle.std.specs.Prelude.{◌≡◌, true};
ghost use Rattle.serial_spec.specs.SoundHeaders.{is_sound};

use super::together::put_two;
use super::{IN_TURN, Way, posted, put_by_one, small_dataset};
use crate::tests::{OLD, disk_of, has_bytes, has_calls, old_file};
use collective_round::PutEnd;
use nc_base::{Blob, DiskCall, Header, NcType, OverlapRule, Pair, StepErr};
use nc_outside::{Disk, FailOp, MemDisk, OpenGate};
use std::alloc::Global;
use std::process::Abort;
use std::sync::Wait;
use std::thread::Threads;
use test_fixtures::{Asked, NO_LAYOUT, NO_MEMORY, dimension, laid_out, one, over_one, variable};

/// The disk had these calls, and has these bytes alone behind the header.
fn has(rt: &impl Abort, alloc: Global, disk: &MemDisk, calls: &[DiskCall], tail: &[u8]) {
    has_calls(rt, alloc, disk, calls);
    has_bytes(rt, alloc, disk, 80, tail);
    assert!(rt; disk.size() == 80 + tail.len() as u64);
}

/// Two puts on a file of old bytes: the length of x, the type of v, the length of the file, and what each of the ranks puts. Then the
/// end, the record count, the calls, and the bytes behind the header.
struct Puts {
    overlap: OverlapRule,
    len: u64,
    kind: NcType,
    size: usize,
    asked: [Asked; 2],
    end: PutEnd,
    records: u64,
    calls: &'static [DiskCall],
    tail: &'static [u8],
}

/// Four ints, of which two are in each domain.
const FOUR: [DiskCall; 2] = [DiskCall::Store(80, 8), DiskCall::Store(88, 8)];

/// Both ranks put the third of four ints.
const SHARING: [Asked; 2] = [
    Asked {
        from: 0,
        count: 3,
        stride: 1,
        bytes: b"abcdefghijkl",
    },
    Asked {
        from: 2,
        count: 2,
        stride: 1,
        bytes: b"IJKLMNOP",
    },
];

const SHARED: Pair = Pair {
    rank1: 0,
    request1: 0,
    rank2: 1,
    request2: 0,
    at: 88,
};

/// The first rank puts a short of the fourth record, the second one nothing.
const ONE_RECORD: [Asked; 2] = [
    Asked {
        from: 3,
        count: 1,
        stride: 1,
        bytes: b"ab",
    },
    Asked {
        from: 0,
        count: 0,
        stride: 1,
        bytes: b"",
    },
];

const PUTS: [Puts; 4] = [
    // Two ranks fill each other's gaps.
    Puts {
        overlap: OverlapRule::Refuse,
        len: 4,
        kind: NcType::Int,
        size: 96,
        asked: [
            Asked {
                from: 0,
                count: 2,
                stride: 2,
                bytes: b"abcdijkl",
            },
            Asked {
                from: 1,
                count: 2,
                stride: 2,
                bytes: b"efghmnop",
            },
        ],
        end: PutEnd::Done,
        records: 0,
        calls: &FOUR,
        tail: b"abcdefghijklmnop",
    },
    // A shared byte is told, and nothing is written.
    Puts {
        overlap: OverlapRule::Refuse,
        len: 4,
        kind: NcType::Int,
        size: 96,
        asked: SHARING,
        end: PutEnd::Overlap(SHARED),
        records: 0,
        calls: &[],
        tail: b"................",
    },
    // The later rank has a shared byte.
    Puts {
        overlap: OverlapRule::Serial,
        len: 4,
        kind: NcType::Int,
        size: 96,
        asked: SHARING,
        end: PutEnd::Done,
        records: 0,
        calls: &FOUR,
        tail: b"abcdefghIJKLMNOP",
    },
    // Records grow the file and are counted. Each of the two domains has one byte.
    Puts {
        overlap: OverlapRule::Refuse,
        len: 0,
        kind: NcType::Short,
        size: 80,
        asked: ONE_RECORD,
        end: PutEnd::Done,
        records: 4,
        calls: &[
            DiskCall::Grow(88),
            DiskCall::Store(86, 1),
            DiskCall::Store(87, 1),
            DiskCall::Store(4, 4),
        ],
        tail: b"\0\0\0\0\0\0ab",
    },
];

fn puts_end<R: Abort + Threads + Wait + Sync>(rt: &R, alloc: Global, puts: &Puts) {
    let way = Way {
        overlap: puts.overlap,
        ..IN_TURN
    };
    let set = small_dataset(rt, alloc, puts.len, puts.kind, way);
    let mut disk = disk_of(rt, alloc, old_file(rt, alloc, puts.size), &[]);
    let [a, b] = &puts.asked;
    let (a, b) = (posted(rt, alloc, a), posted(rt, alloc, b));
    let (end, records) = put_two(rt, alloc, &OpenGate, &mut disk, &set, a, b);
    assert!(rt; end == Ok(puts.end) && records == puts.records);
    has(rt, alloc, &disk, puts.calls, puts.tail);
    // Calls, which hide from the check how each list of these is let go.
    drop(disk);
    drop(set);
}

#[test]
fn puts_of_two_ranks(rt: HostRuntime) {
    for puts in &PUTS {
        puts_end(&rt, rt.alloc(), puts);
    }
}

// The record is written, and then the disk refuses its count.
#[test]
fn a_refused_count_is_not_told(rt: HostRuntime) {
    let alloc = rt.alloc();
    let set = small_dataset(&rt, alloc, 0, NcType::Short, IN_TURN);
    let old = old_file(&rt, alloc, 80);
    let mut disk = disk_of(&rt, alloc, old, &[(FailOp::Store, 4)]);
    let [a, b] = &ONE_RECORD;
    let (a, b) = (posted(&rt, alloc, a), posted(&rt, alloc, b));
    let (end, records) = put_two(&rt, alloc, &OpenGate, &mut disk, &set, a, b);
    assert!(rt; end == Err(StepErr::Disk) && records == 0);
    let calls = [
        DiskCall::Grow(88),
        DiskCall::Store(86, 1),
        DiskCall::Store(87, 1),
    ];
    has(&rt, alloc, &disk, &calls, b"\0\0\0\0\0\0ab");
    has_bytes(&rt, alloc, &disk, 0, &[OLD; 80]);
    drop(disk);
    drop(set);
}

/// The header of a new dataset as bytes: `dim t unlimited`, `var short s [t]`, no record.
const NEW: &[u8; 80] = b"CDF\x01\0\0\0\0\
    \0\0\0\x0a\0\0\0\x01\0\0\0\x01t\0\0\0\0\0\0\0\
    \0\0\0\0\0\0\0\0\
    \0\0\0\x0b\0\0\0\x01\0\0\0\x01s\0\0\0\0\0\0\x01\0\0\0\0\
    \0\0\0\0\0\0\0\0\0\0\0\x03\0\0\0\x04\0\0\0\x50";

/// The short 7 of the fourth record.
const SEVEN: Asked = Asked {
    from: 3,
    count: 1,
    stride: 1,
    bytes: b"\0\x07",
};

/// The header of that dataset.
fn shorts_of_records(rt: &impl Abort, alloc: Global) -> Header
    ensures { is_sound result ≡ true }
{
    let t = dimension(alloc, b't', 0).expect(rt, NO_MEMORY);
    let s = variable(alloc, b's', NcType::Short, 0).expect(rt, NO_MEMORY);
    let vars = one(alloc, s).expect(rt, NO_MEMORY);
    let header = over_one(alloc, t, vars).expect(rt, NO_MEMORY);
    laid_out(header).expect(rt, NO_LAYOUT)
}

// The same of a new dataset, of which one rank puts a record.
#[test]
fn a_refused_count_leaves_a_new_dataset_without_a_record(rt: HostRuntime) {
    let alloc = rt.alloc();
    let header = shorts_of_records(&rt, alloc);
    let new = Blob::from_slice(alloc, NEW).expect(&rt, NO_MEMORY);
    let mut disk = disk_of(&rt, alloc, new, &[(FailOp::Store, 4)]);
    let seven = posted(&rt, alloc, &SEVEN);
    let (end, records) = put_by_one(&rt, alloc, &mut disk, &header, seven);
    assert!(rt; end == Err(StepErr::Disk) && records == 0);
    let calls = [DiskCall::Grow(88), DiskCall::Store(86, 2)];
    has(&rt, alloc, &disk, &calls, b"\0\0\0\0\0\0\0\x07");
    has_bytes(&rt, alloc, &disk, 0, NEW);
    drop(disk);
    drop(header);
}
