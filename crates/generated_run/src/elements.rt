// The elements of the puts and gets that were done.
ghost use Rattle.std.specs.Prelude.{◌≡◌, ◌+◌, ◌∷◌, List, IfOk, OnOk, map, sum, zip};
ghost use Rattle.nc_base.specs.declared.request.Call.{Call};
ghost use Rattle.serial_spec.specs.RegionCheck.{is_ok_code};
ghost use Rattle.script_spec.specs.Generator.{elements_given, is_done, over_calls, posted_elements};
ghost use Rattle.generated_run.specs.Counting.{FindsGiven, call_done, item_done, items_done};

use nc_base::{Answer, AnswerList, Call, CallList, Code, Direction, Given, Item, Memory};
use std::alloc::Global;
use std::collections::HashMap;
use std::marker::Model;

/// The calls of a rank, with an index of the regions that they post.
#[derive(Drop)]
struct Posts<'c> {
    calls: &'c [Call],
    by_id: HashMap<u32, &'c Given>,
}

impl<'c> Model for Posts<'c> {
    ghost use Rattle.std.specs.Prelude.{List};
    ghost use Rattle.nc_base.specs.declared.request.Call.{Call};
    ghost use Rattle.generated_run.specs.Counting.{FindsGiven};

    ghost Value = { List Call };

    ghost view = { λ p. p.calls.now };

    ghost invariant = { λ p. FindsGiven p.calls.now p.by_id };
}

impl<'c> Posts<'c> {
    ghost use Rattle.script_spec.specs.Generator.{posted_elements};

    fn new(alloc: Global, calls: &'c [Call]) -> Result<Self, Memory>
        ensures { IfOk result (λ posts. posts ≡ calls.now) }
    {
        Ok(Posts {
            calls,
            by_id: posts_index(alloc, calls)?,
        })
    }

    /// The elements of the first post of this id, if any.
    fn elements(&self, id: u32) -> Result<u64, Memory>
        ensures { IfOk result (λ n. n ≡ posted_elements self.now id) }
    {
        match self.by_id.get(&id) {
            None => Ok(0),
            Some(given) => elements(given),
        }
    }
}

/// The region of each id's first post.
fn posts_index(alloc: Global, calls: &[Call]) -> Result<HashMap<u32, &Given>, Memory>
    ensures { IfOk result (FindsGiven calls.now) }
{
    let mut index = HashMap::new(alloc);
    for k in (0..calls.len()).rev() {
        put_post(&mut index, &calls[k])?;
    }
    Ok(index)
}

/// Puts a call before those that the index has.
fn put_post<'c>(index: &mut HashMap<u32, &'c Given>, call: &'c Call) -> Result<(), Memory>
    ensures { OnOk result ((calls : List Call) → FindsGiven calls index.old → FindsGiven (call.now ∷ calls) index.new) }
{
    if let Call::Post { id, given, .. } = call {
        index.insert(*id, given)?;
    }
    Ok(())
}

/// The sum, where it is a number that can be told.
pub(crate) fn added(a: u64, b: u64) -> Result<u64, Memory>
    ensures { IfOk result (λ n. n ≡ a + b) }
{
    a.checked_add(b).ok_or(Memory)
}

/// The elements of a region.
#[tactic(auto, using(var_layout::proofs::Capping::product_more))]
fn elements(given: &Given) -> Result<u64, Memory>
    ensures { IfOk result (λ n. n ≡ elements_given given.now) }
{
    let mut all: u64 = 1;
    for count in given.count.as_slice() {
        all = all.checked_mul(*count).ok_or(Memory)?;
    }
    Ok(all)
}

fn is_ok(code: Code) -> bool
    ensures { result ≡ is_ok_code code }
{
    matches!(code, Code::Ok)
}

/// The elements of a request that an item tells to be done.
fn item_elements(direction: Direction, posts: &Posts, item: &Item) -> Result<u64, Memory>
    ensures { IfOk result (λ n. n ≡ item_done direction posts.now item.now) }
{
    let is_so = match direction {
        Direction::Put => item.values.is_none(),
        Direction::Get => item.values.is_some(),
    };
    if is_ok(item.code) && is_so {
        posts.elements(item.id)
    } else {
        Ok(0)
    }
}

fn items_elements(direction: Direction, posts: &Posts, items: &[Item]) -> Result<u64, Memory>
    ensures { IfOk result (λ n. n ≡ items_done direction posts.now items.now) }
{
    items.iter().try_fold(0, |total, item| {
        added(total, item_elements(direction, posts, item)?)
    })
}

/// Whether a put was answered ok, and shared no byte with another.
fn is_done(answer: &Answer) -> bool
    ensures { result ≡ is_done answer.now }
{
    is_ok(answer.code) && answer.pair.is_none()
}

/// The elements that a call put into the file, or got from it.
fn call_elements(
    direction: Direction,
    posts: &Posts,
    call: &Call,
    answer: &Answer,
) -> Result<u64, Memory>
    ensures { IfOk result (λ n. n ≡ call_done direction posts.now (call.now, answer.now)) }
{
    match (direction, call) {
        (Direction::Put, Call::Put { given, .. }) if is_done(answer) => elements(given),
        (Direction::Get, Call::Get { given, .. }) if is_ok(answer.code) => elements(given),
        (Direction::Put, Call::Wait { .. }) if answer.pair.is_some() => Ok(0),
        (_, Call::Wait { .. }) => items_elements(direction, posts, answer.items.as_slice()),
        _ => Ok(0),
    }
}

/// The elements of calls among which these are posted.
fn calls_elements(
    direction: Direction,
    posts: &Posts,
    calls: &[Call],
    answers: &[Answer],
) -> Result<u64, Memory>
    ensures { IfOk result (λ n. n ≡ sum (map (call_done direction posts.now) (zip calls.now answers.now))) }
{
    let count = calls.len().min(answers.len());
    let mut total = 0;
    for number in 0..count {
        let own = call_elements(direction, posts, &calls[number], &answers[number])?;
        total = added(total, own)?;
    }
    Ok(total)
}

fn rank_elements(
    alloc: Global,
    direction: Direction,
    calls: &[Call],
    answers: &[Answer],
) -> Result<u64, Memory>
    ensures { IfOk result (λ n. n ≡ sum (map (call_done direction calls.now) (zip calls.now answers.now))) }
{
    let posts = Posts::new(alloc, calls)?;
    let total = calls_elements(direction, &posts, calls, answers);
    drop(posts);
    total
}

/// The elements of all ranks' puts, or of their gets, that were done.
pub(crate) fn elements_done(
    alloc: Global,
    direction: Direction,
    calls: &[CallList],
    answers: &[AnswerList],
) -> Result<u64, Memory>
    ensures { IfOk result (λ n. n ≡ over_calls (call_done direction) calls.now answers.now) }
{
    let count = calls.len().min(answers.len());
    let mut total = 0;
    for rank in 0..count {
        let own = rank_elements(
            alloc,
            direction,
            calls[rank].as_slice(),
            answers[rank].as_slice(),
        )?;
        total = added(total, own)?;
    }
    Ok(total)
}
