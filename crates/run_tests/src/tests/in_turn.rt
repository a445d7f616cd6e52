// All ranks on one thread.
use crate::tests::fixtures::{ALONE, disk_of_zeros, is_counted, is_long, placed, script_of};
use nc_base::{Mark, NcType, RunEnd};
use nc_outside::{MemDisk, OpenGate};
use rank_meeting::run_in_turn;
use std::alloc::Global;
use std::process::Abort;
use std::sync::Wait;
use std::thread::Threads;

/// Runs two ranks of which each makes one call by itself between two meetings.
fn ran<R: Abort + Threads + Wait + Sync>(rt: &R, alloc: Global, disk: &mut MemDisk) -> RunEnd {
    let script = script_of(rt, alloc, ALONE);
    let header = placed(rt, alloc, 4, NcType::Int);
    let mut records = header.records;
    is_long(rt, &header, disk);
    let end = run_in_turn(rt, alloc, disk, &header, &mut records, &script, &OpenGate);
    // Calls, which hide from the check how each list of these is let go.
    drop(header);
    drop(script);
    end
}

const FIRST_GOES_FIRST: [Mark; 4] = [
    Mark::Meet(0),
    Mark::Solo(0, 1),
    Mark::Solo(1, 1),
    Mark::Meet(1),
];

#[test]
fn the_first_rank_goes_first_in_turn(rt: HostRuntime) {
    let alloc = rt.alloc();
    let mut disk = disk_of_zeros(&rt, alloc);
    let end = ran(&rt, alloc, &mut disk);
    assert!(rt; end.order.as_slice() == FIRST_GOES_FIRST.as_slice());
    assert!(rt; end.fault.is_none());
    is_counted(&rt, alloc, &disk);
    drop(end);
    drop(disk);
}
