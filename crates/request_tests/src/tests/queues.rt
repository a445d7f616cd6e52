// Worked cases of posting, waiting and cancelling, with the items that they give.
ghost use Rattle.std.specs.Prelude.{◌≡◌, ◌≤◌, ◌∷◌, [], ℕ, None};
ghost use Rattle.nc_base.specs.declared.request.PostKind.TheVariants.{Iput};
ghost use Rattle.serial_spec.specs.RankMachine.{Waiting, status_of};
ghost use Rattle.request_queue.specs.Queued.{with_request};

use super::REFUSED;
use nc_base::{Blob, Choice, Code, IdList, ItemList, Post, PostKind, PostList};
use request_queue::{Queue, Taken};
use std::alloc::Global;
use std::process::Abort;
use test_fixtures::{NO_MEMORY, list, region, two};

/// A post of one int of the first variable at the index `at`.
fn one_int(rt: &impl Abort, alloc: Global, id: u32, at: u64) -> Post
    ensures { result.id ≡ id }
{
    let bytes = vec![in alloc; 7; 4].expect(rt, NO_MEMORY);
    Post {
        id,
        var: 0,
        region: region(alloc, at, 1, 1).expect(rt, NO_MEMORY),
        bytes: Blob::from_vec(bytes),
    }
}

fn listed(rt: &impl Abort, alloc: Global, ids: &[u32]) -> Choice {
    Choice::Listed(list(alloc, ids).expect(rt, NO_MEMORY))
}

/// What a wait takes.
fn taken(rt: &impl Abort, alloc: Global, queue: &mut Queue, choice: &Choice) -> Taken {
    queue.take(alloc, choice).expect(rt, NO_MEMORY)
}

fn expect_items(rt: &impl Abort, items: &ItemList, wanted: &[(u32, Code)]) {
    assert!(rt; items.len() == wanted.len());
    for (item, (id, code)) in items.as_slice().iter().zip(wanted) {
        assert!(rt; item.id == *id && item.code == *code, "of {id}");
    }
}

/// The items of a wait for the ids 1, 0, 2, 0 and 5, of which the third is of a null request and the last was never posted.
const FIVE: [(u32, Code); 5] = [
    (1, Code::Ok),
    (0, Code::Ok),
    (2, Code::Null),
    (0, Code::EInvalRequest),
    (5, Code::EInvalRequest),
];

#[test]
fn items_stand_as_listed(rt: HostRuntime) {
    let alloc = rt.alloc();
    let mut queue = Queue::new(alloc);
    let (put, get) = (one_int(&rt, alloc, 0, 0), one_int(&rt, alloc, 1, 0));
    queue.post(PostKind::Iput, put).expect(&rt, REFUSED);
    queue.post(PostKind::Iget, get).expect(&rt, REFUSED);
    queue.post_null(2).expect(&rt, NO_MEMORY);
    let choice = listed(&rt, alloc, &[1, 0, 2, 0, 5]);
    let taken = taken(&rt, alloc, &mut queue, &choice);
    assert!(rt; taken.batch.puts.len() == 1 && taken.batch.gets.len() == 1);
    expect_items(&rt, &taken.items, &FIVE);
    // Calls, which hide from the check how each list of these is let go.
    drop(taken);
    drop(choice);
    drop(queue);
}

#[test]
fn a_buffered_put_is_cancelled(rt: HostRuntime) {
    let alloc = rt.alloc();
    let mut queue = Queue::new(alloc);
    let post = one_int(&rt, alloc, 0, 0);
    queue.attach(7).expect(&rt, REFUSED);
    queue.post(PostKind::Bput, post).expect(&rt, REFUSED);
    assert!(rt; queue.detach() == Err(Code::EPendingBput));
    let choice = listed(&rt, alloc, &[0]);
    let items = queue.cancel(alloc, &choice).expect(&rt, NO_MEMORY);
    expect_items(&rt, &items, &[(0, Code::Ok)]);
    assert!(rt; queue.detach() == Ok(()));
    drop(items);
    drop(choice);
    drop(queue);
}

fn expect_starts(rt: &impl Abort, posts: &PostList, starts: &[u64]) {
    assert!(rt; posts.len() == starts.len());
    for (post, start) in posts.as_slice().iter().zip(starts) {
        assert!(rt; post.region.start.as_slice() == [*start].as_slice());
    }
}

#[test]
fn parts_of_one_request_are_taken_together(rt: HostRuntime) {
    let alloc = rt.alloc();
    let mut queue = Queue::new(alloc);
    let (late, early) = (one_int(&rt, alloc, 0, 4), one_int(&rt, alloc, 0, 1));
    let parts = two(alloc, late, early).expect(&rt, NO_MEMORY);
    queue.post_parts(PostKind::Iput, parts).expect(&rt, REFUSED);
    let taken = taken(&rt, alloc, &mut queue, &Choice::Every);
    expect_items(&rt, &taken.items, &[(0, Code::Ok)]);
    expect_starts(&rt, &taken.batch.puts, &[4, 1]);
    drop(taken);
    drop(queue);
}

/// Posts a put under an id that is not posted.
fn post_put(rt: &impl Abort, queue: &mut Queue, post: Post)
    requires { status_of queue.old.posted post.id ≡ None }
    ensures { queue.new ≡ with_request queue.old post.id (Waiting Iput (post ∷ [])) }
{
    queue.post(PostKind::Iput, post).expect(rt, REFUSED);
}

/// A queue with the ids below `count` posted in order.
fn pile(rt: &impl Abort, alloc: Global, count: u32) -> Queue {
    let mut queue = Queue::new(alloc);
    for id in 0..count {
        let post = one_int(rt, alloc, id, 0);
        post_put(rt, &mut queue, post);
    }
    queue
}

/// The ids below `count` from the greatest to the least.
fn reversed(rt: &impl Abort, alloc: Global, count: u32) -> Choice {
    let mut ids = IdList::new(alloc);
    for id in (0..count).rev() {
        ids.push(id).expect(rt, NO_MEMORY);
    }
    Choice::Listed(ids)
}

#[test]
fn many_requests_waited_for_in_reverse_order(rt: HostRuntime) {
    let mut queue = pile(&rt, rt.alloc(), 65536);
    let choice = reversed(&rt, rt.alloc(), 65536);
    let taken = taken(&rt, rt.alloc(), &mut queue, &choice);
    assert!(rt; taken.items.len() == 65536);
    assert!(rt; taken.batch.puts.len() == 65536);
    assert!(rt; queue.pending() == 0);
    drop(taken);
    drop(choice);
    drop(queue);
}
