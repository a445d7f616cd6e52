// Whether an order is one of a script's histories.
ghost use Rattle.std.specs.Prelude.{◌≡◌, ◌↔◌, ◌<◌, ◌≤◌, ◌^◌, ℕ, List, [], ◌∷◌, false, true, if◌then◌else◌, ◌+◌, filter, length, IsTrue, IfSome, MatchOption};
ghost use Rattle.std.specs.List.{list_all};
ghost use Rattle.nc_base.specs.declared.step.Mark.TheVariants as mark;
ghost use Rattle.serial_spec.specs.History as history;
ghost use Rattle.serial_spec.specs.History.{IsLegal, concerns, is_of_rank_below, marks, marks_from};
ghost use Rattle.reference.specs.Walk.{BeginOtherwise, BeginWith, own_calls, own_marks};

use nc_base::{Call, Mark, Script};

/// Whether the order is one of the script's histories: each solo mark in it is of a rank of the script, and for each rank the meetings
/// and its own solo marks stand in it as the rank's calls make them.
pub fn legal(script: &Script, order: &[Mark]) -> bool
    ensures { IsTrue result ↔ IsLegal script.now order.now }
{
    has_known_ranks(script.ranks, order) && has_each_rank(script, order)
}

/// Whether each solo mark is of one of so many ranks.
fn has_known_ranks(ranks: u32, order: &[Mark]) -> bool
    ensures { result ≡ list_all (is_of_rank_below ranks) order.now }
{
    order.iter().all(|mark| is_of_rank_below(ranks, mark))
}

fn is_of_rank_below(ranks: u32, mark: &Mark) -> bool
    ensures { result ≡ history.is_of_rank_below ranks mark.now }
{
    match mark {
        Mark::Meet(_) => true,
        Mark::Solo(rank, _) => *rank < ranks,
    }
}

/// Whether each rank's marks stand in the order.
fn has_each_rank(script: &Script, order: &[Mark]) -> bool
    ensures { IsTrue result ↔ ((r : ℕ) → r < script.now.ranks → filter (concerns r) order.now ≡ marks script.now.calls r) }
{
    for rank in 0..script.ranks {
        if !follows(order, rank, calls_of(script, rank)) {
            return false;
        }
    }
    true
}

/// The calls of a rank.
fn calls_of(script: &Script, rank: u32) -> &[Call]
    ensures { result.now ≡ own_calls script.now.calls rank }
{
    match script.calls.as_slice().get(rank as usize) {
        None => &[],
        Some(own) => own.as_slice(),
    }
}

/// Whether the marks of the order that concern the rank are those that its calls make.
fn follows(order: &[Mark], rank: u32, calls: &[Call]) -> bool
    ensures { IsTrue result ↔ (filter (concerns rank) order.now ≡ marks_from rank 0 0 false calls.now) }
{
    let mut left = order;
    let mut meetings = 0;
    let mut independent = false;
    for (number, call) in calls.iter().enumerate() {
        left = match after_call(left, rank, number, meetings, independent, call) {
            None => return false,
            Some(rest) => rest,
        };
        meetings = meetings_after(meetings, call);
        independent = mode_after(independent, call);
    }
    next_mark(left, rank).is_none()
}

/// The order after the mark that a call makes, where it makes one: the call of that number of the rank, after so many meetings.
fn after_call<'a>(
    order: &'a [Mark],
    rank: u32,
    number: usize,
    meetings: usize,
    independent: bool,
    call: &Call,
) -> Option<&'a [Mark]>
    ensures { MatchOption result (BeginOtherwise rank order.now (own_marks rank number meetings independent call.now)) (λ left. BeginWith rank order.now (own_marks rank number meetings independent call.now) left.now) }
{
    if is_collective(call) {
        after_meeting(order, rank, meetings)
    } else if independent && is_data(call) {
        after_solo(order, rank, number)
    } else {
        Some(order)
    }
}

/// The order after the rank's next mark, where that is the meeting of this number.
fn after_meeting(order: &[Mark], rank: u32, number: usize) -> Option<&[Mark]>
    ensures { MatchOption result (BeginOtherwise rank order.now (mark.Meet number ∷ [])) (λ left. BeginWith rank order.now (mark.Meet number ∷ []) left.now) }
{
    match next_mark(order, rank) {
        Some((Mark::Meet(met), rest)) if met as usize == number => Some(rest),
        _ => None,
    }
}

/// The order after the rank's next mark, where that is its own call of this number.
fn after_solo(order: &[Mark], rank: u32, number: usize) -> Option<&[Mark]>
    ensures { MatchOption result (BeginOtherwise rank order.now (mark.Solo rank number ∷ [])) (λ left. BeginWith rank order.now (mark.Solo rank number ∷ []) left.now) }
{
    match next_mark(order, rank) {
        Some((Mark::Solo(_, done), rest)) if done as usize == number => Some(rest),
        _ => None,
    }
}

/// The first mark of the order that concerns the rank, and the order after it.
fn next_mark(order: &[Mark], rank: u32) -> Option<(Mark, &[Mark])>
    ensures first { MatchOption result (filter (concerns rank) order.now ≡ [])
        (λ next. filter (concerns rank) order.now ≡ next.0 ∷ filter (concerns rank) next.1.now) }
    ensures own { IfSome result (λ next. history.concerns rank next.0 ≡ true) }
{
    for (at, mark) in order.iter().enumerate() {
        if concerns(rank, mark) {
            return Some((*mark, &order[at + 1..]));
        }
    }
    None
}

fn concerns(rank: u32, mark: &Mark) -> bool
    ensures { result ≡ history.concerns rank mark.now }
{
    match mark {
        Mark::Meet(_) => true,
        Mark::Solo(own, _) => *own == rank,
    }
}

fn meetings_after(meetings: usize, call: &Call) -> usize
    requires { meetings < usize.MAX }
    ensures { result ≡ (if history.is_collective call.now then meetings + 1 else meetings) }
{
    if is_collective(call) {
        meetings + 1
    } else {
        meetings
    }
}

fn is_collective(call: &Call) -> bool
    ensures { result ≡ history.is_collective call.now }
{
    matches!(
        call,
        Call::Put { all: true, .. }
            | Call::Get { all: true, .. }
            | Call::Wait { all: true, .. }
            | Call::BeginIndep
            | Call::EndIndep
            | Call::SyncRecords
            | Call::FillRec { .. }
    )
}

/// Whether the call is a put, a get or a wait.
fn is_data(call: &Call) -> bool
    ensures { result ≡ history.is_data call.now }
{
    matches!(
        call,
        Call::Put { .. } | Call::Get { .. } | Call::Wait { .. }
    )
}

/// Whether the rank is in independent mode after the call.
fn mode_after(independent: bool, call: &Call) -> bool
    ensures { result ≡ history.mode_after independent call.now }
{
    match call {
        Call::BeginIndep => true,
        Call::EndIndep => false,
        _ => independent,
    }
}
