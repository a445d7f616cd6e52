// The helpers of a step, and the parts that they were handed.
ghost use Rattle.std.specs.Prelude.{◌≡◌, ◌<◌, ◌≤◌, ◌++◌, ◌+◌, length, slice_get, vec_capacity, IfOk, Some};
ghost use Rattle.exchange_crew.specs.Handed.{HasAdded, IsNext};
ghost use Rattle.exchange_crew.specs.Rooms.{HasRoom, HasRooms};

use crate::plan::Aggregator;
use nc_base::{Extent, Memory, StepErr};
use std::alloc::Global;

/// How many bytes of stack a helper's thread has. It calls few functions deep.
pub const STACK_SIZE: usize = 1 << 20;

/// The helpers that were handed a part, in order of their parts, the parts behind them, for which there is none, and the parts that came
/// back.
#[derive(Drop)]
pub struct Shares<W: Drop, D: Drop> {
    pub workers: Vec<W>,
    pub rest: Vec<D>,
    pub back: Vec<D>,
}

/// The parts that helpers served, as they come back, those behind them, and how it ended.
#[derive(Drop)]
pub struct Served<D: Drop> {
    pub back: Vec<D>,
    pub rest: Vec<D>,
    pub end: Result<(), StepErr>,
}

impl<D: Drop> Served<D> {
    ghost use Rattle.std.specs.Prelude.{◌≡◌, ◌≤◌, ◌++◌, ◌+◌, length, vec_capacity};
    ghost use Rattle.std.specs.Result.{result_and};

    /// All parts in order, and how it ended, where it came to this on those behind.
    pub fn joined(self, other: Result<(), StepErr>) -> (Vec<D>, Result<(), StepErr>)
        requires { length self.back.items + length self.rest.items ≤ vec_capacity self.back }
        ensures parts { result.0.items ≡ self.back.items ++ self.rest.items }
        ensures end { result.1 ≡ result_and self.end other }
    {
        let Served {
            mut back,
            rest,
            end,
        } = self;
        give_back(rest, &mut back);
        (back, end.and(other))
    }
}

/// Room for so many helpers, and for their parts.
pub fn make_rooms<W: Drop, D: Drop>(alloc: Global, count: usize) -> Result<Shares<W, D>, Memory>
    ensures { IfOk result (λ shares. HasRooms count shares) }
{
    Ok(Shares {
        workers: Vec::with_capacity(alloc, count)?,
        rest: Vec::with_capacity(alloc, count)?,
        back: Vec::with_capacity(alloc, count)?,
    })
}

/// The aggregator of the next part: none once a part was left, or where there is no domain for it.
pub fn next_aggregator<W: Drop, D: Drop>(
    shares: &Shares<W, D>,
    domains: &[Extent],
) -> Option<Aggregator>
    requires { length domains.now ≤ 64 }
    ensures { IsNext domains.now shares.now result }
{
    if !shares.rest.is_empty() {
        return None;
    }
    let place = shares.workers.len();
    if place < domains.len() {
        Some(aggregator_at(0, domains, place))
    } else {
        None
    }
}

/// The aggregator of the domain at this place, where the first one has this number.
pub fn aggregator_at(first: u32, domains: &[Extent], place: usize) -> Aggregator
    requires few { first + length domains.now ≤ 64 }
    requires place { place < length domains.now }
    ensures { slice_get domains.now place ≡ Some result.domain }
{
    Aggregator {
        number: first + place as u32,
        domain: domains[place],
    }
}

/// Adds the helper that was handed the next part, or the part, where there is none.
pub fn add_handed<W: Drop, D: Drop>(shares: &mut Shares<W, D>, handed: Result<W, D>)
    requires { HasRoom shares.old }
    ensures { HasAdded handed shares.old shares.new }
{
    match handed {
        Ok(worker) => shares.workers.push_reserved(worker),
        Err(part) => shares.rest.push_reserved(part),
    }
}

// Gives parts back behind the others.
fn give_back<D: Drop>(rest: Vec<D>, back: &mut Vec<D>)
    requires room { length back.old.items + length rest.items ≤ vec_capacity back.old }
    ensures { back.new.items ≡ back.old.items ++ rest.items }
{
    for part in rest {
        back.push_reserved(part);
    }
}
