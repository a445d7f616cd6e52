// What the threads of the ranks came to.
ghost use Rattle.std.specs.Prelude.{◌≡◌, ◌≤◌, ◌∷◌, [], length, vec_capacity};
ghost use Rattle.ruled_line.specs.Ends.{items_under};
ghost use Rattle.thread_run.specs.RankHandle.{AreRankHandles, AreSettled, IsRankHandle, IsSettledOf};
ghost use Rattle.thread_run.specs.declared.rank_handle.Word.TheVariants as word;

use crate::rank_handle::{Ends, RankHandle, Returned};
use nc_base::{OwnerItem, RankEnd};
use rank_items::SentItem;
use ruled_line::{InTake, LinePut, settle, settle_from};
use std::thread::Threads;

/// Joins the threads, which were told to go, and ends their lines.
pub(crate) fn join_all<R: Threads>(
    rt: &R,
    ones: Vec<RankHandle>,
    lines: Vec<LinePut<OwnerItem>>,
    inbox: InTake<SentItem>,
    ends: &mut Vec<RankEnd>,
)
    requires handles { AreRankHandles inbox.of (word.Go ∷ []) ones.items lines.items }
    requires none { ends.old.items ≡ [] }
    requires room { length ones.items ≤ vec_capacity ends.old }
    ensures { AreSettled inbox.items ones.entry.items lines.items ends.new.items }
{
    let mut inbox = inbox;
    for (one, line) in ones.into_iter().zip(lines) {
        let (end, rest) = join_one(rt, one, line, inbox);
        inbox = rest;
        ends.push_reserved(end);
    }
}

/// Joins one thread. The inbox comes back as it was.
fn join_one<R: Threads>(
    rt: &R,
    one: RankHandle,
    line: LinePut<OwnerItem>,
    inbox: InTake<SentItem>,
) -> (RankEnd, InTake<SentItem>)
    requires { IsRankHandle inbox.of one.child.promise.ends.value.out.number (word.Go ∷ []) one line }
    ensures settled { IsSettledOf one.entry (items_under one.entry.child.promise.ends.value.out.number inbox.items) line.items result.0 }
    ensures inbox { result.1 ≡ inbox }
{
    let RankHandle { word: go, child } = one;
    let Returned { ends, end } = child.join(rt);
    let Ends { word, out, back } = ends;
    settle(go, word);
    let inbox = settle_from(out, inbox);
    settle(line, back);
    match end {
        Some(end) => (end, inbox),
        None => unreachable!(),
    }
}
