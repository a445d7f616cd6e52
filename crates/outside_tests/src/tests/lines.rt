// Lines and inboxes between threads.
ghost use Rattle.std.specs.Prelude.{◌≡◌, length};

use super::NO_MEMORY;
use ruled_line::{InPut, InTake, LinePut, LinePutList, LineTake, inbox, line, settle};
use std::alloc::{AllocError, Global};
use std::process::Abort;
use std::sync::Wait;
use std::thread;
use std::thread::Threads;

fn put_three<R: Wait>(rt: &R, mut end: LinePut<u64>) -> LinePut<u64>
    ensures { result.of ≡ end.of }
{
    end.put(rt, 7);
    end.put(rt, 8);
    end.put(rt, 9);
    end
}

fn take_three<R: Wait>(rt: &R, mut end: LineTake<u64>) -> (LineTake<u64>, [u64; 3])
    ensures { result.0.of ≡ end.of }
{
    let first = end.take(rt);
    let second = end.take(rt);
    let third = end.take(rt);
    (end, [first, second, third])
}

/// What one thread takes while another puts 7, 8, 9. Both ends are settled.
fn carried<R: Threads + Wait + Sync>(rt: &R, put: LinePut<u64>, take: LineTake<u64>) -> [u64; 3]
    requires { put.of ≡ take.of }
{
    let (put, back) = thread::join(rt, move || put_three(rt, put), move || take_three(rt, take));
    let (take, taken) = back;
    settle(put, take);
    taken
}

#[test]
fn three_items_pass_a_line_of_room_1_that_is_settled(rt: HostRuntime) {
    let (put, take) = line::<u64>(rt.alloc(), 1).expect(&rt, NO_MEMORY);
    assert!(rt; carried(&rt, put, take) == [7, 8, 9]);
}

fn two_lines(rt: &impl Abort, alloc: Global) -> (LinePutList<u64>, LineTake<u64>, LineTake<u64>)
    ensures { length result.0 ≡ 2 }
{
    let (first, first_take) = line::<u64>(alloc, 1).expect(rt, NO_MEMORY);
    let (second, second_take) = line::<u64>(alloc, 1).expect(rt, NO_MEMORY);
    let mut ends = Vec::new(alloc);
    ends.push(first).expect(rt, NO_MEMORY);
    ends.push(second).expect(rt, NO_MEMORY);
    (LinePutList::from_vec(ends), first_take, second_take)
}

#[test]
fn each_place_of_a_list_has_its_own_line(rt: HostRuntime) {
    let (mut ends, mut first, mut second) = two_lines(&rt, rt.alloc());
    ends.put_on(&rt, 1, 5);
    ends.put_on(&rt, 0, 4);
    assert!(rt; first.take(&rt) == 4);
    assert!(rt; second.take(&rt) == 5);
}

/// The sender of number n puts n + 1 items: 100 n, 100 n + 1 and so on.
fn put_own<R: Wait>(rt: &R, mut end: InPut<u64>) -> InPut<u64> {
    let number = u64::from(end.number());
    for place in 0..number + 1 {
        end.put(rt, 100 * number + place);
    }
    end
}

/// Each end puts its items in a thread of its own.
fn put_by_all<R: Threads + Wait + Sync>(
    rt: &R,
    ends: Vec<InPut<u64>>,
) -> Result<Vec<InPut<u64>>, AllocError> {
    thread::map_vec(rt, ends, &|end| put_own(rt, end))
}

fn take_all<R: Wait>(
    rt: &R,
    alloc: Global,
    mut end: InTake<u64>,
    count: usize,
) -> Result<Vec<(u32, u64)>, AllocError> {
    let mut taken = Vec::with_capacity(alloc, count)?;
    for _ in 0..count {
        taken.push(end.take(rt))?;
    }
    Ok(taken)
}

/// Puts by all ends, and so many items that are taken beside.
fn exchanged<R: Abort + Threads + Wait + Sync>(
    rt: &R,
    alloc: Global,
    ends: Vec<InPut<u64>>,
    take: InTake<u64>,
    count: usize,
) -> Vec<(u32, u64)> {
    let (puts, taken) = thread::join(
        rt,
        move || put_by_all(rt, ends),
        move || take_all(rt, alloc, take, count),
    );
    let _puts = puts.expect(rt, NO_MEMORY);
    taken.expect(rt, NO_MEMORY)
}

/// Whether the items of a sender were taken whole and in order.
fn took_whole(taken: &[(u32, u64)], number: u32) -> bool {
    let first = 100 * u64::from(number);
    let mut next = first;
    for (from, item) in taken {
        if *from == number {
            if *item != next {
                return false;
            }
            next = next.wrapping_add(1);
        }
    }
    next == first + u64::from(number) + 1
}

fn took_all_whole(taken: &[(u32, u64)], senders: u32) -> bool {
    for number in 0..senders {
        if !took_whole(taken, number) {
            return false;
        }
    }
    true
}

#[test]
fn sixty_four_senders_share_an_inbox_of_room_1(rt: HostRuntime) {
    let (ends, take) = inbox::<u64>(rt.alloc(), 1, 64).expect(&rt, NO_MEMORY);
    let taken = exchanged(&rt, rt.alloc(), ends.into_vec(), take, 2080);
    assert!(rt; took_all_whole(taken.as_slice(), 64));
}
