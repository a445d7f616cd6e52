// The sums of a plan.
use crate::tests::fixtures::{NO_MEMORY, planned};
use plan_sums::{Cell, Naive, Sums, Tally, sum_up};
use std::process::Abort;

/// Four ranks put columns of a field, four each and the last one two: four aggregators have domains that begin at multiples of 64.
const COLUMNS: &[u8] =
    b"create 1\nranks 4\nhint cb_nodes 4\nhint striping_unit 64\ndim y 8\ndim x 16\nvar short field [y,x]\ndata\n\
    0 put_vara_all field [0,0] [8,4] seq 32 0 1\n1 put_vara_all field [0,4] [8,4] seq 32 100 1\n\
    2 put_vara_all field [0,8] [8,4] seq 32 200 1\n3 put_vara_all field [0,12] [8,2] seq 16 300 1\nend\n";

const READS: Tally = Tally {
    calls: 2,
    bytes: 216,
    least: 92,
    most: 124,
    unaligned: 2,
};

const WRITES: Tally = Tally {
    calls: 4,
    bytes: 344,
    least: 28,
    most: 124,
    unaligned: 3,
};

/// What the last rank gives the second aggregator.
const LAST: Cell = Cell {
    rank: 3,
    aggregator: 1,
    put: 16,
    got: 0,
};

fn are_of_columns(rt: &impl Abort, sums: &Sums) {
    assert!(rt; sums.grows == 1 && sums.reads == READS && sums.writes == WRITES);
    assert!(rt;
        sums.naive_writes
            == Naive {
                calls: 32,
                bytes: 224
            }
    );
    assert!(rt; sums.read_over == 216 && sums.written_over == 20);
    assert!(rt; sums.matrix.len() == 12 && sums.matrix.as_slice().contains(&LAST));
}

#[test]
fn columns_are_summed_up(rt: HostRuntime) {
    let alloc = rt.alloc();
    let plan = planned(&rt, alloc, COLUMNS);
    let sums = sum_up(alloc, &plan, 64, 4, 4).expect(&rt, NO_MEMORY);
    are_of_columns(&rt, &sums);
    drop(sums);
    drop(plan);
}
