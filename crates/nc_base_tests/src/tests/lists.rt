// Lists of items, of numbers and of bit patterns.
use super::NO_MEMORY;
use nc_base::*;
use std::alloc::Global;
use std::process::Abort;

fn sizes(rt: &impl Abort, alloc: Global, sizes: &[u64]) -> SizeList {
    SizeList::from_slice(alloc, sizes).expect(rt, NO_MEMORY)
}

#[test]
fn items_are_pushed_and_changed_in_place(rt: HostRuntime) {
    let mut list = SizeList::with_capacity(rt.alloc(), 2).expect(&rt, NO_MEMORY);
    list.push(2).expect(&rt, NO_MEMORY);
    list.push(3).expect(&rt, NO_MEMORY);
    list.as_mut_slice().reverse();
    assert!(rt; list == sizes(&rt, rt.alloc(), &[3, 2]));
    assert!(rt; list != sizes(&rt, rt.alloc(), &[2, 3]));
}

fn push(rt: &impl Abort, list: &mut NumberList, number: i128) {
    list.push(number).expect(rt, NO_MEMORY);
}

#[test]
fn numbers_widen(rt: HostRuntime) {
    let mut list = NumberList::with_capacity(rt.alloc(), 2).expect(&rt, NO_MEMORY);
    push(&rt, &mut list, -2_147_483_648);
    assert!(rt; matches!(list.words(), NumberWords::Narrow(_)));
    push(&rt, &mut list, 2_147_483_648);
    assert!(rt; matches!(list.words(), NumberWords::Wide(_)));
    push(&rt, &mut list, 18_446_744_073_709_551_615);
    assert!(rt; matches!(list.words(), NumberWords::Widest(_)));
    assert!(rt; list.get(0) == Some(-2_147_483_648));
    assert!(rt; list.get(2) == Some(18_446_744_073_709_551_615));
}

const LONG: NumberRun = NumberRun {
    first: -5,
    step: 3,
    count: 16_777_216,
};

fn long_numbers(rt: &impl Abort, alloc: Global) -> NumberList {
    let mut numbers = NumberList::new(alloc);
    numbers.push_run(LONG).expect(rt, NO_MEMORY);
    numbers
}

// The list of 2^24 numbers, which is one run.
#[test]
fn long_sequences_are_one_run(rt: HostRuntime) {
    let numbers = long_numbers(&rt, rt.alloc());
    assert!(rt; numbers.len() == 16_777_216);
    assert!(rt; matches!(numbers.words(), NumberWords::Runs([_])));
    assert!(rt; numbers.get(16_777_215) == Some(50_331_640));
}

const RUN: NumberRun = NumberRun {
    first: 5,
    step: -3,
    count: 3,
};

fn run(rt: &impl Abort, alloc: Global) -> NumberList {
    let runs = Vec::from_slice(alloc, &[RUN]).expect(rt, NO_MEMORY);
    NumberList::from_runs(runs).expect(rt, NO_MEMORY)
}

fn widest(rt: &impl Abort, alloc: Global, words: &[i128]) -> NumberList {
    NumberList::from_vec(Vec::from_slice(alloc, words).expect(rt, NO_MEMORY))
}

// Two words and a run.
fn mixed(rt: &impl Abort, alloc: Global) -> NumberList {
    let words = Vec::from_slice(alloc, &[9, 8]).expect(rt, NO_MEMORY);
    let mut list = NumberList::from_narrow(words);
    list.append(run(rt, alloc)).expect(rt, NO_MEMORY);
    list
}

// Lists are the same however they lie in memory.
#[test]
fn a_run_is_appended_to_words(rt: HostRuntime) {
    let list = mixed(&rt, rt.alloc());
    assert!(rt; list == widest(&rt, rt.alloc(), &[9, 8, 5, 2, -1]));
}

const BITS: BitRun = BitRun {
    first: 4,
    step: 3,
    count: 2,
};

// One pattern of 32 bits, one of 64, and a run of two.
fn patterns(rt: &impl Abort, alloc: Global) -> BitList {
    let words = Vec::from_slice(alloc, &[1]).expect(rt, NO_MEMORY);
    let mut patterns = BitList::from_narrow(words);
    patterns
        .push(18_446_744_073_709_551_615)
        .expect(rt, NO_MEMORY);
    patterns.push_run(BITS).expect(rt, NO_MEMORY);
    patterns
}

#[test]
fn a_run_of_patterns_is_pushed_behind_words(rt: HostRuntime) {
    let patterns = patterns(&rt, rt.alloc());
    assert!(rt; patterns.len() == 4);
    assert!(rt; patterns.get(1) == Some(18_446_744_073_709_551_615));
    assert!(rt; patterns.get(3) == Some(7));
}
