// What leaves the queue.
ghost use Rattle.std.specs.Prelude.{◌≡◌, ◌+◌, ◌≤◌, ◌++◌, [], length, map, filter, flat_map, false, sum_by, count_by, IfOk, OnOk, OnErr, vec_len};
ghost use Rattle.std.specs.Vec.{vec_capacity};
ghost use Rattle.std.specs.Ordering.{nat_cmp};
ghost use Rattle.std.specs.BTreeSet.{contains};
ghost use Rattle.serial_spec.specs.RankMachine.{named, chosen, without_chosen, batch_chosen, items_of, items_from, has_id, is_waiting, puts_in, gets_in};
ghost use Rattle.request_queue.specs.Queued.{rank_with};
ghost use Rattle.request_queue.specs.Kept.{as_posted, has_waiting, puts_of, gets_of, held, is_buffered, removed, is_listed, freed, items_by, code_by, Holds};

use crate::Queue;
use crate::queue::{Request, len_of, release};
use crate::requests::Requests;
use crate::room::Room;
use nc_base::{Batch, Choice, Code, Item, ItemList, Memory, Post, PostKind, PostList};
use std::alloc::Global;
use std::collections::BTreeSet;

/// What a wait takes from a queue.
#[derive(Drop)]
pub struct Taken {
    pub batch: Batch,
    /// One item for each id that the wait names.
    pub items: ItemList,
}

impl Queue {
    /// Takes the requests that a wait names, puts and gets apart and each in order of posting, and frees the bytes
    /// of bputs. An id that was never posted, that is gone, or that the list names twice has the item `EInvalRequest`.
    pub fn take(&mut self, alloc: Global, choice: &Choice) -> Result<Taken, Memory>
        ensures batch { IfOk result (λ taken. taken.batch ≡ batch_chosen (chosen (rank_with self.old) choice.now)) }
        ensures items { IfOk result (λ taken. taken.items ≡ items_of (rank_with self.old) choice.now) }
        ensures after { OnOk result (self.new ≡ record self.old { posted = (without_chosen (rank_with self.old) choice.now).posted }) }
        ensures err { OnErr result (self.new ≡ self.old) }
    {
        let ids = self.named(alloc, choice)?;
        let items = self.items(alloc, ids.as_slice())?;
        let (puts, gets) = self.waiting.rooms(alloc, ids.as_slice())?;
        let taken = self.remove(alloc, ids.as_slice())?;
        Ok(Taken {
            batch: batch_of(taken, puts, gets),
            items,
        })
    }

    /// Drops the requests that a cancel names; the items are those of [`Queue::take`].
    pub fn cancel(&mut self, alloc: Global, choice: &Choice) -> Result<ItemList, Memory>
        ensures items { IfOk result (λ items. items ≡ items_of (rank_with self.old) choice.now) }
        ensures after { OnOk result (self.new ≡ record self.old { posted = (without_chosen (rank_with self.old) choice.now).posted }) }
        ensures err { OnErr result (self.new ≡ self.old) }
    {
        let ids = self.named(alloc, choice)?;
        let items = self.items(alloc, ids.as_slice())?;
        let _ = self.remove(alloc, ids.as_slice())?;
        Ok(items)
    }

    fn named(&self, alloc: Global, choice: &Choice) -> Result<Vec<u32>, Memory>
        ensures { IfOk result (λ ids. ids.items ≡ named (rank_with self.now) choice.now) }
    {
        match choice {
            Choice::Every => self.waiting.ids(alloc),
            Choice::Listed(ids) => Ok(Vec::from_slice(alloc, ids.as_slice())?),
        }
    }

    /// The items of a list of ids.
    fn items(&self, alloc: Global, ids: &[u32]) -> Result<ItemList, Memory>
        ensures { IfOk result (λ items. items ≡ items_from self.now.posted [] ids.now) }
    {
        list_items(alloc, ids, &self.nulls, &self.waiting)
    }

    /// Takes the listed requests.
    fn remove(&mut self, alloc: Global, ids: &[u32]) -> Result<Vec<Request>, Memory>
        ensures taken { IfOk result (λ taken. map as_posted taken.items
            ≡ filter (λ p. is_listed (has_id ids.now) p) self.old.posted) }
        ensures after { OnOk result (self.new ≡ record self.old { posted = removed (has_id ids.now) self.old.posted }) }
        ensures err { OnErr result (self.new ≡ self.old) }
    {
        let taken = self.waiting.remove(alloc, ids)?;
        free(&mut self.room, &mut self.buffered, taken.as_slice());
        Ok(taken)
    }
}

/// The items of the ids: which are of null requests, and which wait.
fn list_items(
    alloc: Global,
    ids: &[u32],
    nulls: &BTreeSet<u32>,
    waiting: &Requests,
) -> Result<ItemList, Memory>
    ensures { IfOk result (λ items. items ≡ items_by (contains nat_cmp nulls.now) (has_waiting waiting.now) (λ _. false) ids.now) }
{
    let mut items = ItemList::with_capacity(alloc, ids.len())?;
    let mut earlier = BTreeSet::new(alloc);
    for id in ids {
        let code = code_of(
            nulls.contains(id),
            waiting.contains(*id),
            earlier.contains(id),
        );
        items.push(Item {
            id: *id,
            code,
            values: None,
        })?;
        earlier.insert(*id)?;
    }
    Ok(items)
}

fn code_of(null: bool, waits: bool, earlier: bool) -> Code
    ensures { result ≡ code_by null waits earlier }
{
    match (null, waits, earlier) {
        (true, _, _) => Code::Null,
        (false, true, false) => Code::Ok,
        _ => Code::EInvalRequest,
    }
}

/// Gives back what the requests hold of the buffer.
fn free(room: &mut Option<Room>, buffered: &mut usize, taken: &[Request])
    requires count { count_by is_buffered taken.now ≤ buffered.old }
    requires bytes { Holds room.old taken.now }
    ensures count { buffered.new + count_by is_buffered taken.now ≡ buffered.old }
    ensures room { room.new ≡ freed room.old (sum_by held taken.now) }
{
    for request in taken {
        if request.kind == PostKind::Bput {
            *buffered -= 1;
            release(room, len_of(request.posts.as_slice()));
        }
    }
}

/// The posts of the requests, in lists that have room for them.
fn batch_of(taken: Vec<Request>, mut puts: Vec<Post>, mut gets: Vec<Post>) -> Batch
    requires puts_empty { puts.items ≡ [] }
    requires gets_empty { gets.items ≡ [] }
    requires puts_room { sum_by (λ r. length (puts_of r)) taken.items ≤ vec_capacity puts }
    requires gets_room { sum_by (λ r. length (gets_of r)) taken.items ≤ vec_capacity gets }
    ensures puts { result.puts ≡ flat_map puts_of taken.items }
    ensures gets { result.gets ≡ flat_map gets_of taken.items }
{
    for request in taken {
        let Request { id: _, kind, posts } = request;
        match kind {
            PostKind::Iget => push_all(&mut gets, posts.into_vec()),
            PostKind::Iput | PostKind::Bput => push_all(&mut puts, posts.into_vec()),
        }
    }
    Batch {
        puts: PostList::from_vec(puts),
        gets: PostList::from_vec(gets),
    }
}

fn push_all(list: &mut Vec<Post>, mut posts: Vec<Post>)
    requires { vec_len list.old + vec_len posts ≤ vec_capacity list.old }
    ensures items { list.new.items ≡ list.old.items ++ posts.items }
    ensures len { vec_len list.new ≡ vec_len list.old + vec_len posts }
    ensures capacity { vec_capacity list.old ≤ vec_capacity list.new }
{
    list.append(&mut posts).unwrap();
}
