// Readings of a board.
use super::NO_MEMORY;
use nc_base::{Mark, Summary};
use nc_outside::Told;
use run_watch::{Board, View, ViewList, watch};
use std::alloc::Global;
use std::process::Abort;
use std::sync::Wait;
use std::thread::{Threads, join};

/// So many steps, and the record count after the last.
fn summary(steps: u64, records: u64) -> Summary {
    Summary { steps, records }
}

fn one_view(rt: &impl Abort, views: ViewList) -> View {
    views.into_vec().pop().expect(rt, "a view")
}

fn tell<W: Abort + Wait, R: Wait + Drop>(
    rt: &W,
    alloc: Global,
    board: &mut Board<R>,
    mark: Mark,
    records: u64,
) {
    board.told(rt, alloc, mark, records).expect(rt, NO_MEMORY);
}

#[test]
fn a_view_reads_what_was_told(rt: HostRuntime) {
    let alloc = rt.alloc();
    let (mut board, views) = watch(&rt, alloc, 1, 7).expect(&rt, NO_MEMORY);
    let mut view = one_view(&rt, views);
    assert!(rt; view.read() == summary(0, 7));
    tell(&rt, alloc, &mut board, Mark::Meet(0), 7);
    tell(&rt, alloc, &mut board, Mark::Solo(1, 0), 9);
    assert!(rt; view.read() == summary(2, 9));
    let pairs = [(Mark::Meet(0), 7), (Mark::Solo(1, 0), 9)];
    assert!(rt; board.pairs().as_slice() == pairs.as_slice());
    // Calls, which hide from the check how each list of these is let go.
    drop(view);
    drop(board);
}

/// Tells 2,000 steps, after each of which the record count is how many were told.
fn tell_many<R: Wait + Drop, W: Wait>(rt: &W, alloc: Global, mut board: Board<R>) -> Board<R> {
    for step in 0..2_000u32 {
        if board
            .told(rt, alloc, Mark::Meet(step), u64::from(step) + 1)
            .is_err()
        {
            return board;
        }
    }
    board
}

/// Reads 10,000 times, and counts the readings that went back, or whose count is of another step.
fn read_many(mut view: View) -> (View, u32) {
    let mut wrong = 0u32;
    let mut last = 0;
    for _ in 0..10_000 {
        let seen = view.read();
        wrong = wrong.wrapping_add(u32::from(seen.steps < last || seen.records != seen.steps));
        last = seen.steps;
    }
    (view, wrong)
}

/// How many readings beside the teller were wrong, and what is read once all was told.
fn read_beside<R: Abort + Threads + Wait + Sync>(rt: &R, alloc: Global) -> (u32, Summary) {
    let (board, views) = watch(rt, alloc, 1, 0).expect(rt, NO_MEMORY);
    let view = one_view(rt, views);
    let (board, read) = join(
        rt,
        move || tell_many(rt, alloc, board),
        move || read_many(view),
    );
    let (mut board, (mut view, wrong)) = (board, read);
    view.learn(board.note());
    (wrong, view.read())
}

#[test]
fn a_reader_thread_beside_a_board(rt: HostRuntime) {
    let (wrong, seen) = read_beside(&rt, rt.alloc());
    assert!(rt; wrong == 0);
    assert!(rt; seen == summary(2_000, 2_000));
}
