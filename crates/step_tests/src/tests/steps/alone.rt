// Puts and gets of a rank alone, which go through windows of eight bytes. Each call of the disk is refused in turn.
use super::{get_one, placed, posted, put_one};
use crate::tests::{disk_of, has_bytes, has_calls, old_file};
use collective_round::PutEnd;
use nc_base::{Blob, BlobList, DiskCall, NcType, StepErr};
use nc_outside::{FailOp, MemDisk};
use std::alloc::Global;
use std::process::Abort;
use test_fixtures::{Asked, NO_MEMORY};

/// What a test says where gets are refused that should not be.
const NO_BLOBS: &str = "no blobs";

/// Every third of eight shorts. The first two are in one window, which has a hole.
const THREE: Asked = Asked {
    from: 0,
    count: 3,
    stride: 3,
    bytes: b"abcdef",
};

fn put(rt: &impl Abort, alloc: Global, disk: &mut MemDisk) -> Result<PutEnd, StepErr> {
    let header = placed(rt, alloc, 8, NcType::Short);
    let a = posted(rt, alloc, &THREE);
    put_one(rt, alloc, disk, &header, a)
}

/// What is refused of the put: the read; the write, of which three bytes are written; the write of the second window.
const REFUSED_PUTS: [(FailOp, u64); 3] = [
    (FailOp::Load, 80),
    (FailOp::Store, 83),
    (FailOp::Store, 92),
];

/// How the same put ends again and again, and what the file has behind the header then.
const ENDS: [(Result<PutEnd, StepErr>, &[u8]); 4] = [
    (Err(StepErr::Disk), b".............."),
    (Err(StepErr::Disk), b"ab............"),
    (Err(StepErr::Disk), b"ab....cd......"),
    (Ok(PutEnd::Done), b"ab....cd....ef"),
];

const PUT_CALLS: [DiskCall; 6] = [
    DiskCall::Load(80, 8),
    DiskCall::Load(80, 8),
    DiskCall::Store(80, 8),
    DiskCall::Load(80, 8),
    DiskCall::Store(80, 8),
    DiskCall::Store(92, 2),
];

#[test]
fn each_call_of_a_put_is_refused(rt: HostRuntime) {
    let alloc = rt.alloc();
    let old = old_file(&rt, alloc, 96);
    let mut disk = disk_of(&rt, alloc, old, &REFUSED_PUTS);
    for (want, tail) in &ENDS {
        assert!(rt; put(&rt, alloc, &mut disk) == *want);
        has_bytes(&rt, alloc, &disk, 80, tail);
    }
    has_calls(&rt, alloc, &disk, &PUT_CALLS);
    // A call, which hides from the check how each list of it is let go.
    drop(disk);
}

/// Four shorts, of which the last two are among the three of the other request.
const FOUR: Asked = Asked {
    from: 0,
    count: 4,
    stride: 1,
    bytes: &[],
};

const OTHERS: Asked = Asked {
    from: 2,
    count: 3,
    stride: 1,
    bytes: &[],
};

fn get(rt: &impl Abort, alloc: Global, disk: &mut MemDisk) -> Result<BlobList, StepErr> {
    let header = placed(rt, alloc, 8, NcType::Short);
    let (a, b) = (posted(rt, alloc, &FOUR), posted(rt, alloc, &OTHERS));
    get_one(rt, alloc, disk, &header, a, b)
}

fn has_blobs(rt: &impl Abort, blobs: &BlobList, first: &[u8], second: &[u8]) {
    let list = blobs.as_slice();
    assert!(rt; list.len() == 2);
    assert!(rt; list[0].as_slice() == first);
    assert!(rt; list[1].as_slice() == second);
}

const REFUSED_GETS: [(FailOp, u64); 2] = [(FailOp::Load, 80), (FailOp::Load, 88)];

/// The first time had none, the second time its first one.
const GET_CALLS: [DiskCall; 3] = [
    DiskCall::Load(80, 8),
    DiskCall::Load(80, 8),
    DiskCall::Load(88, 2),
];

#[test]
fn two_gets_share_bytes(rt: HostRuntime) {
    let alloc = rt.alloc();
    let mut file = old_file(&rt, alloc, 80).into_vec();
    file.extend_from_slice(b"abcdefghijklmnop")
        .expect(&rt, NO_MEMORY);
    let mut disk = disk_of(&rt, alloc, Blob::from_vec(file), &REFUSED_GETS);
    for _ in 0..2u32 {
        let got = get(&rt, alloc, &mut disk);
        assert!(rt; got.is_err());
        drop(got);
    }
    let blobs = get(&rt, alloc, &mut disk).expect(&rt, NO_BLOBS);
    has_blobs(&rt, &blobs, b"abcdefgh", b"efghij");
    has_calls(&rt, alloc, &disk, &GET_CALLS);
    drop(blobs);
    drop(disk);
}
