// The requests that wait.
ghost use Rattle.std.specs.Prelude.{◌≡◌, ◌≤◌, ◌+◌, ◌||◌, ◌∷◌, ◌++◌, [], length, map, filter, not, false, sum_by, ℕ, IfOk, OnOk, OnErr, vec_len};
ghost use Rattle.std.specs.Vec.{vec_capacity};
ghost use Rattle.std.specs.List.{list_any};
ghost use Rattle.std.specs.Option.{option_copied};
ghost use Rattle.std.specs.Ordering.{nat_cmp};
ghost use Rattle.std.specs.Map.{values_of};
ghost use Rattle.std.specs.BTreeMap.{values, IsOrdered};
ghost use Rattle.std.specs.BTreeSet.{contains, btree_set_len};
ghost use Rattle.serial_spec.specs.RankMachine.{has_id};
ghost use Rattle.request_queue.specs.Kept.{has_waiting, posts_of, puts_of, gets_of};
ghost use Rattle.request_queue.specs.Indexed.{IsIndex, is_place, stands_at};

use crate::queue::Request;
use nc_base::{Direction, Memory, Post, PostKind};
use std::alloc::Global;
use std::collections::{BTreeMap, BTreeSet};
use std::marker::Model;

/// Requests in order of posting, each of which is found by its id.
#[derive(Drop)]
pub(crate) struct Requests {
    /// By their places: a later request has a greater one.
    by_place: BTreeMap<u64, Request>,
    /// The place of each request by its id.
    places: BTreeMap<u32, u64>,
    /// The place of the next request.
    next: u64,
}

impl Model for Requests {
    ghost use Rattle.std.specs.Prelude.{List};
    ghost use Rattle.request_queue.specs.declared.queue.Request.{Request};

    ghost Value = { List Request };

    ghost use Rattle.request_queue.specs.Indexed.{in_order, IsIndexed};

    ghost view = { in_order };

    ghost invariant = { IsIndexed };
}

impl Requests {
    pub(crate) fn new(alloc: Global) -> Self
        ensures { result ≡ [] }
    {
        Requests {
            by_place: BTreeMap::new(alloc),
            places: BTreeMap::new(alloc),
            next: 0,
        }
    }

    pub(crate) fn len(&self) -> usize
        ensures { result ≡ length self.now }
    {
        self.by_place.len()
    }

    /// Whether a request has this id.
    pub(crate) fn contains(&self, id: u32) -> bool
        ensures { result ≡ has_waiting self.now id }
    {
        self.places.contains_key(&id)
    }

    pub(crate) fn ids(&self, alloc: Global) -> Result<Vec<u32>, Memory>
        ensures { IfOk result (λ ids. ids.items ≡ map (λ r. r.id) self.now) }
    {
        ids_of(alloc, &self.by_place)
    }

    /// Adds a request behind the others.
    pub(crate) fn push(&mut self, request: Request) -> Result<(), Memory>
        requires fresh { has_waiting self.old request.id ≡ false }
        ensures ok { OnOk result (self.new ≡ self.old ++ request ∷ []) }
        ensures err { OnErr result (self.new ≡ self.old) }
    {
        let place = self.next;
        // An id has 32 bits, so no run comes to the last place.
        let next = place.checked_add(1).ok_or(Memory)?;
        let id = request.id;
        self.by_place.insert(place, request)?;
        match self.places.insert(id, place) {
            Ok(_) => {
                self.next = next;
                Ok(())
            }
            Err(_) => {
                self.by_place.remove(&place);
                Err(Memory)
            }
        }
    }

    /// Two empty lists with room for the posts of the requests of these ids: the puts', and the gets'.
    pub(crate) fn rooms(&self, alloc: Global, ids: &[u32]) -> Result<(Vec<Post>, Vec<Post>), Memory>
        ensures no_puts { IfOk result (λ rooms. rooms.0.items ≡ []) }
        ensures no_gets { IfOk result (λ rooms. rooms.1.items ≡ []) }
        ensures puts { IfOk result (λ rooms. sum_by (λ r. length (puts_of r)) (filter (λ r. has_id ids.now r.id) self.now) ≤ vec_capacity rooms.0) }
        ensures gets { IfOk result (λ rooms. sum_by (λ r. length (gets_of r)) (filter (λ r. has_id ids.now r.id) self.now) ≤ vec_capacity rooms.1) }
    {
        let places = places_of(alloc, &self.places, ids)?;
        let puts = room_for(alloc, &self.by_place, &places, Direction::Put)?;
        let gets = room_for(alloc, &self.by_place, &places, Direction::Get)?;
        Ok((puts, gets))
    }

    /// Takes the requests of these ids out, in order of posting.
    pub(crate) fn remove(&mut self, alloc: Global, ids: &[u32]) -> Result<Vec<Request>, Memory>
        ensures taken { IfOk result (λ taken. taken.items ≡ filter (λ r. has_id ids.now r.id) self.old) }
        ensures left { OnOk result (self.new ≡ filter (λ r. not (has_id ids.now r.id)) self.old) }
        ensures err { OnErr result (self.new ≡ self.old) }
    {
        let listed = places_of(alloc, &self.places, ids)?;
        let mut taken = Vec::with_capacity(alloc, listed.len())?;
        take_all(&mut self.by_place, &mut self.places, &listed, &mut taken);
        Ok(taken)
    }
}

fn ids_of(alloc: Global, by_place: &BTreeMap<u64, Request>) -> Result<Vec<u32>, Memory>
    ensures { IfOk result (λ ids. ids.items ≡ map (λ r. r.id) (values by_place.now)) }
{
    let mut ids = Vec::with_capacity(alloc, by_place.len())?;
    for request in by_place.values() {
        ids.push(request.id)?;
    }
    Ok(ids)
}

/// The places of the ids that have one.
fn places_of(
    alloc: Global,
    places: &BTreeMap<u32, u64>,
    ids: &[u32],
) -> Result<BTreeSet<u64>, Memory>
    ensures { IfOk result (λ listed. (place : ℕ) → contains nat_cmp listed place ≡ list_any (stands_at places.now place) ids.now) }
{
    let mut listed = BTreeSet::new(alloc);
    for id in ids {
        add_place(&mut listed, places.get(id))?;
    }
    Ok(listed)
}

fn add_place(listed: &mut BTreeSet<u64>, place: Option<&u64>) -> Result<(), Memory>
    ensures { OnOk result ((q : ℕ) → contains nat_cmp listed.new q ≡ (is_place q (option_copied place.entry) || contains nat_cmp listed.old q)) }
{
    match place {
        None => Ok(()),
        Some(place) => {
            listed.insert(*place)?;
            Ok(())
        }
    }
}

/// An empty list with room for the posts of one direction of the requests at these places.
fn room_for(
    alloc: Global,
    by_place: &BTreeMap<u64, Request>,
    listed: &BTreeSet<u64>,
    direction: Direction,
) -> Result<Vec<Post>, Memory>
    requires { IsOrdered nat_cmp by_place.now }
    ensures empty { IfOk result (λ list. list.items ≡ []) }
    ensures room { IfOk result (λ list. sum_by (λ r. length (posts_of direction r))
        (values_of (filter (λ e. contains nat_cmp listed.now e.0) by_place.now.entries)) ≤ vec_capacity list) }
{
    let mut count: usize = 0;
    for place in listed {
        if let Some(request) = by_place.get(place) {
            count = count
                .checked_add(posts_len(request, direction))
                .ok_or(Memory)?;
        }
    }
    Ok(Vec::with_capacity(alloc, count)?)
}

fn posts_len(request: &Request, direction: Direction) -> usize
    ensures { result ≡ length (posts_of direction request.now) }
{
    match (request.kind, direction) {
        (PostKind::Iget, Direction::Get) => request.posts.len(),
        (PostKind::Iput | PostKind::Bput, Direction::Put) => request.posts.len(),
        _ => 0,
    }
}

/// Moves the requests at these places, from the first on, to a list that has room for them.
fn take_all(
    by_place: &mut BTreeMap<u64, Request>,
    places: &mut BTreeMap<u32, u64>,
    listed: &BTreeSet<u64>,
    taken: &mut Vec<Request>,
)
    requires ordered { IsOrdered nat_cmp by_place.old }
    requires index { IsIndex places.old by_place.old }
    requires room { vec_len taken.old + btree_set_len listed.now ≤ vec_capacity taken.old }
    ensures taken { taken.new.items ≡ taken.old.items ++ values_of (filter (λ e. contains nat_cmp listed.now e.0) by_place.old.entries) }
    ensures left { by_place.new.entries ≡ filter (λ e. not (contains nat_cmp listed.now e.0)) by_place.old.entries }
    ensures ordered { IsOrdered nat_cmp by_place.new }
    ensures index { IsIndex places.new by_place.new }
{
    for place in listed {
        if let Some(request) = by_place.remove(place) {
            places.remove(&request.id);
            taken.push_reserved(request);
        }
    }
}
