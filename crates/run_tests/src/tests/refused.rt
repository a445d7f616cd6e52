// Runs of a made dataset of which the disk refuses a call: what they say of the ranks, and what is left.
use crate::tests::fixtures::{HALVES, any_script, is_long, placed};
use nc_base::{Blob, Code, Mark, NcType, RunEnd, StepErr};
use nc_outside::{Fail, FailList, FailOp, MemDisk, OpenGate};
use rank_meeting::run_ranks;
use std::alloc::Global;
use std::process::Abort;
use std::sync::Wait;
use std::thread::Threads;
use test_fixtures::NO_MEMORY;

/// A script and the length and type of its variable; the length of the made dataset, the call that is refused, the steps that were finished, how many
/// calls the first rank was answered, each well, and the bytes behind the header.
struct Refused {
    script: &'static [u8],
    len: u64,
    kind: NcType,
    size: usize,
    fault: Fail,
    order: &'static [Mark],
    answers: usize,
    tail: &'static [u8],
}

const REFUSED: [Refused; 3] = [
    // One of two aggregators is refused before it writes.
    Refused {
        script: HALVES,
        len: 4,
        kind: NcType::Int,
        size: 96,
        fault: Fail {
            op: FailOp::Store,
            at: 88,
        },
        order: &[],
        answers: 0,
        tail: b"\0\0\0\x01\0\0\0\x02\0\0\0\0\0\0\0\0",
    },
    // The read of the second put's hole is refused.
    Refused {
        script: b"create 1\nranks 1\nhint cb_buffer_size 16\ndim x 4\nvar int v [x]\ndata\n\
            0 put_var_all v 1 2 3 4\n0 put_vars_all v [0] [2] [3] 7 8\nend\n",
        len: 4,
        kind: NcType::Int,
        size: 96,
        fault: Fail {
            op: FailOp::Load,
            at: 84,
        },
        order: &[Mark::Meet(0)],
        answers: 1,
        tail: b"\0\0\0\x01\0\0\0\x02\0\0\0\x03\0\0\0\x04",
    },
    // A record is written, and its count is refused.
    Refused {
        script: b"create 1\nranks 1\ndim x unlimited\nvar short v [x]\ndata\n0 put_var1_all v [3] 7\nend\n",
        len: 0,
        kind: NcType::Short,
        size: 80,
        fault: Fail {
            op: FailOp::Store,
            at: 4,
        },
        order: &[],
        answers: 0,
        tail: b"\0\0\0\0\0\0\0\x07",
    },
];

fn disk_of(rt: &impl Abort, alloc: Global, size: usize, fault: Fail) -> MemDisk {
    let zeros = vec![in alloc; 0; size].expect(rt, NO_MEMORY);
    let plan = FailList::from_slice(alloc, &[fault]).expect(rt, NO_MEMORY);
    MemDisk::failing(alloc, Blob::from_vec(zeros), plan).expect(rt, NO_MEMORY)
}

/// Runs the ranks, which count no record.
fn ran<R: Abort + Threads + Wait + Sync>(
    rt: &R,
    alloc: Global,
    refused: &Refused,
    disk: &mut MemDisk,
) -> RunEnd {
    let script = any_script(rt, alloc, refused.script);
    let header = placed(rt, alloc, refused.len, refused.kind);
    let mut records = header.records;
    is_long(rt, &header, disk);
    let end = run_ranks(rt, alloc, disk, &header, &mut records, &script, &OpenGate);
    assert!(rt; records == 0);
    // Calls, which hide from the check how each list of these is let go.
    drop(header);
    drop(script);
    end
}

/// The first rank was answered so many calls well, and no other rank any.
fn has_answers(rt: &impl Abort, end: &RunEnd, count: usize) {
    let mut wanted = count;
    for answers in end.answers.as_slice() {
        assert!(rt; answers.len() == wanted);
        for answer in answers.as_slice() {
            assert!(rt; answer.code == Code::Ok);
        }
        wanted = 0;
    }
    assert!(rt; wanted == 0);
}

/// The disk refused a call behind these steps, and no request is left.
fn is_stopped(rt: &impl Abort, end: &RunEnd, refused: &Refused) {
    assert!(rt; end.order.as_slice() == refused.order);
    assert!(rt; end.fault == Some(StepErr::Disk) && end.pending.is_empty());
    has_answers(rt, end, refused.answers);
}

fn is_left<R: Abort + Threads + Wait + Sync>(rt: &R, alloc: Global, refused: &Refused) {
    let mut disk = disk_of(rt, alloc, refused.size, refused.fault);
    let end = ran(rt, alloc, refused, &mut disk);
    is_stopped(rt, &end, refused);
    drop(end);
    let file = disk.bytes(alloc).expect(rt, NO_MEMORY);
    drop(disk);
    assert!(rt; file.as_slice().get(0..80) == Some([0u8; 80].as_slice()));
    assert!(rt; file.as_slice().get(80..) == Some(refused.tail));
}

#[test]
fn a_refused_call_leaves_the_finished_steps(rt: HostRuntime) {
    for refused in &REFUSED {
        is_left(&rt, rt.alloc(), refused);
    }
}
