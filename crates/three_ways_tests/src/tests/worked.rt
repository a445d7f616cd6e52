// Runs of which dataset and text were worked out by hand, too. Datasets are as the netCDF classic format specification spells them.
use crate::tests::{header_of, joined, program, script_of, serial};
use nc_base::{Blob, Mark, MarkList, RunEnd};
use printed_text::run_text;
use reference::SerialEnd;
use run_fixtures::{Ended, NO_MEMORY, PLAIN, Run};
use std::alloc::Global;
use std::process::Abort;
use std::sync::Wait;
use std::thread::Threads;

// A run, and what was worked out of it.
struct Row {
    script: &'static [u8],
    // What the dataset holds when the ranks begin, in parts; an existing dataset holds it before, too.
    begun: &'static [&'static [u8]],
    // What it holds in the end.
    left: &'static [&'static [u8]],
    // The lines of the ranks, and the offsets.
    told: &'static [&'static [u8]],
}

// What the serial run along the order leaves, and what is printed of it.
fn again(
    rt: &impl Abort,
    alloc: Global,
    text: &[u8],
    begun: &[&[u8]],
    order: &[Mark],
) -> (Blob, Blob) {
    let script = script_of(rt, alloc, text);
    let begun = joined(rt, alloc, begun);
    let SerialEnd {
        bytes,
        records: _,
        answers,
        pending,
    } = serial(rt, alloc, &script, begun.as_slice(), order);
    drop(begun);
    let end = RunEnd {
        order: MarkList::from_slice(alloc, order).expect(rt, NO_MEMORY),
        answers,
        pending,
        fault: None,
    };
    let header = header_of(rt, alloc, bytes.as_slice());
    let text = run_text(alloc, &script, &header, &end).expect(rt, NO_MEMORY);
    drop(end);
    drop(header);
    drop(script);
    (bytes, text)
}

fn are_same(rt: &impl Abort, one: &[u8], other: &[u8]) {
    assert_eq!(rt; one, other);
}

// The serial run leaves the bytes that the program left, and gives the same text.
pub(super) fn is_serial(rt: &impl Abort, alloc: Global, text: &[u8], begun: &[&[u8]], end: &Ended) {
    let (bytes, printed) = again(rt, alloc, text, begun, end.order.as_slice());
    are_same(rt, bytes.as_slice(), end.held.as_slice());
    drop(bytes);
    are_same(rt, printed.as_slice(), end.given.as_slice());
    drop(printed);
}

// The program left and told what was worked out.
fn is_worked(rt: &impl Abort, alloc: Global, row: &Row, end: &Ended) {
    let left = joined(rt, alloc, row.left);
    are_same(rt, left.as_slice(), end.held.as_slice());
    drop(left);
    let told = joined(rt, alloc, row.told);
    let is_told = end.given.as_slice().ends_with(told.as_slice());
    drop(told);
    assert!(rt; is_told);
}

// The program, the serial run and what was worked out agree.
fn agrees<R: Abort + Threads + Wait + Sync>(rt: &R, alloc: Global, row: &Row) {
    let begun = Run {
        held: row.begun,
        ..PLAIN
    };
    let run = Run {
        script: &[row.script],
        ..begun
    };
    let end = program(rt, alloc, &run);
    is_serial(rt, alloc, row.script, row.begun, &end);
    is_worked(rt, alloc, row, &end);
    drop(end);
}

// CDF-1, and a record count of 0.
pub(super) const MAGIC: &[u8] = b"CDF\x01";

pub(super) const NO_RECORDS: &[u8] = &[0; 4];

// `dim x 4`, `var int v [x]` at 80: the header behind its record count.
pub(super) const V: &[u8] = b"\
    \x00\x00\x00\x0a\x00\x00\x00\x01\x00\x00\x00\x01x\x00\x00\x00\x00\x00\x00\x04\
    \x00\x00\x00\x00\x00\x00\x00\x00\x00\x00\x00\x0b\x00\x00\x00\x01\x00\x00\x00\x01v\x00\x00\x00\x00\x00\x00\x01\
    \x00\x00\x00\x00\x00\x00\x00\x00\x00\x00\x00\x00\x00\x00\x00\x04\x00\x00\x00\x10\x00\x00\x00\x50";

pub(super) const NEW_V: &[&[u8]] = &[MAGIC, NO_RECORDS, V, &[0; 16]];

const V_OFFSETS: &[u8] = b"\
    // file format: CDF-1\nfile header:\n  size = 80 bytes\n  extent = 80 bytes\n\
    dimensions:\n  x = 4\nfixed-size variables:\n  int v(x):\n    start file offset = 80\n    \
    end file offset = 96\n    size in bytes = 16\nrecord variables:\n";

// `dim t unlimited`, `var short s [t]` at 80: the header behind its record count.
pub(super) const S: &[u8] = b"\
    \x00\x00\x00\x0a\x00\x00\x00\x01\x00\x00\x00\x01t\x00\x00\x00\x00\x00\x00\x00\
    \x00\x00\x00\x00\x00\x00\x00\x00\x00\x00\x00\x0b\x00\x00\x00\x01\x00\x00\x00\x01s\x00\x00\x00\x00\x00\x00\x01\
    \x00\x00\x00\x00\x00\x00\x00\x00\x00\x00\x00\x00\x00\x00\x00\x03\x00\x00\x00\x04\x00\x00\x00\x50";

const S_OFFSETS: &[u8] = b"\
    // file format: CDF-1\nfile header:\n  size = 80 bytes\n  extent = 80 bytes\n\
    dimensions:\n  t = UNLIMITED // (3 currently)\nfixed-size variables:\nrecord variables:\n  \
    short s(t):\n    start file offset = 80\n    end file offset = 82\n    size in bytes = 2\n";

const OVERLAP: Row = Row {
    script: b"create 1\nranks 3\ndim x 4\nvar int v [x]\ndata\n\
        0 put_vara_all v [0] [3] 1 2 3\n1 put_vara_all v [2] [2] 8 9\n2 put_vara_all v [0] [0]\nend\n",
    begun: NEW_V,
    left: NEW_V,
    told: &[
        b"rank 0\n0 put_vara_all overlap 0 0 1 0 88\npending 0\n\
        rank 1\n0 put_vara_all overlap 0 0 1 0 88\npending 0\n\
        rank 2\n0 put_vara_all overlap 0 0 1 0 88\npending 0\n",
        V_OFFSETS,
    ],
};

#[test]
fn an_overlap_is_told_to_all(rt: HostRuntime) {
    agrees(&rt, rt.alloc(), &OVERLAP)
}

const RUNS: [Row; 4] = [
    // The puts of two ranks have a hole, which keeps what it has; two aggregators cut elements, in windows of six bytes.
    Row {
        script: b"open\nranks 2\nhint cb_nodes 2\nhint cb_buffer_size 6\ndata\n\
            0 put_vars_all v [0] [2] [3] 7 8\n0 get_vara_all v [0] [4]\n\
            1 put_vars_all v [1] [1] [1] 9\n1 get_vara_all v [1] [2]\nend\n",
        begun: &[
            MAGIC,
            NO_RECORDS,
            V,
            b"\x00\x00\x00\x01\x00\x00\x00\x02\x00\x00\x00\x03\x00\x00\x00\x04",
        ],
        left: &[
            MAGIC,
            NO_RECORDS,
            V,
            b"\x00\x00\x00\x07\x00\x00\x00\x09\x00\x00\x00\x03\x00\x00\x00\x08",
        ],
        told: &[
            b"rank 0\n0 put_vars_all ok\n1 get_vara_all ok 7 9 3 8\npending 0\n\
            rank 1\n0 put_vars_all ok\n1 get_vara_all ok 9 3\npending 0\n",
            V_OFFSETS,
        ],
    },
    // A rank alone knows the records that it puts; the others hear of them at the next meeting.
    Row {
        script: b"create 1\nranks 2\ndim t unlimited\nvar short s [t]\ndata\n\
            0 begin_indep_data\n0 put_var1 s [2] 5\n0 inq_dimlen t\n0 end_indep_data\n0 inq_dimlen t\n\
            1 begin_indep_data\n1 inq_dimlen t\n1 get_var1 s [2]\n1 end_indep_data\n1 inq_dimlen t\nend\n",
        begun: &[MAGIC, NO_RECORDS, S],
        left: &[MAGIC, b"\x00\x00\x00\x03", S, b"\x00\x00\x00\x00\x00\x05"],
        told: &[
            b"rank 0\n0 begin_indep_data ok\n1 put_var1 ok\n2 inq_dimlen ok 3\n3 end_indep_data ok\n4 inq_dimlen ok 3\npending 0\n\
            rank 1\n0 begin_indep_data ok\n1 inq_dimlen ok 0\n2 get_var1 NC_EINVALCOORDS\n3 end_indep_data ok\n4 inq_dimlen ok 3\npending 0\n",
            S_OFFSETS,
        ],
    },
    // A get sees the puts of its own wait. A post of no element, and ids that are done or were never posted.
    Row {
        script: b"create 1\nranks 1\ndim x 4\nvar int v [x]\ndata\n\
            0 iput_var1 0 v [0] 9\n0 iget_var1 1 v [0]\n0 iput_vara 2 v [0] [0]\n0 wait_all 1 0 2 0 5\nend\n",
        begun: NEW_V,
        left: &[
            MAGIC,
            NO_RECORDS,
            V,
            b"\x00\x00\x00\x09\x00\x00\x00\x00\x00\x00\x00\x00\x00\x00\x00\x00",
        ],
        told: &[
            b"rank 0\n0 iput_var1 ok\n1 iget_var1 ok\n2 iput_vara null\n3 wait_all ok\n\
            \x20 1 ok 9\n  0 ok\n  2 null\n  0 NC_EINVAL_REQUEST\n  5 NC_EINVAL_REQUEST\npending 0\n",
            V_OFFSETS,
        ],
    },
    // A rank whose region is refused meets the other one all the same.
    Row {
        script: b"create 1\nranks 2\ndim x 4\nvar int v [x]\ndata\n\
            0 put_vara_all v [4] [0]\n0 put_vara_all v [4] [1] 9\n0 put_vara_all v [3] [2] 9 9\n0 put_vars_all v [0] [1] [0] 9\n\
            1 put_vara_all v [0] [1] 5\n1 put_vara_all v [0] [1] 5\n1 put_vara_all v [0] [1] 5\n1 put_vara_all v [0] [1] 5\nend\n",
        begun: NEW_V,
        left: &[
            MAGIC,
            NO_RECORDS,
            V,
            b"\x00\x00\x00\x05\x00\x00\x00\x00\x00\x00\x00\x00\x00\x00\x00\x00",
        ],
        told: &[
            b"rank 0\n0 put_vara_all ok\n1 put_vara_all NC_EINVALCOORDS\n2 put_vara_all NC_EEDGE\n3 put_vars_all NC_ESTRIDE\npending 0\n\
            rank 1\n0 put_vara_all ok\n1 put_vara_all ok\n2 put_vara_all ok\n3 put_vara_all ok\npending 0\n",
            V_OFFSETS,
        ],
    },
];

#[test]
fn worked_runs_agree(rt: HostRuntime) {
    for row in &RUNS {
        agrees(&rt, rt.alloc(), row);
    }
}
