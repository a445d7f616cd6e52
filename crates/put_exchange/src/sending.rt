// What the caller does: round by round it puts the messages of all parts on their lines.
ghost use Rattle.std.specs.Prelude.{◌≡◌, ◌++◌, ◌<◌, ℕ, length, slice_get, None, Some};
ghost use Rattle.put_exchange.specs.Feeds.{next_round_of, HaveFed};
ghost use Rattle.put_exchange.specs.Workers.{HasFed};
ghost use Rattle.put_exchange.specs.declared.handing.Worker.{Worker};

use crate::handing::Worker;
use crate::message::Message;
use crate::packing::Round;
use exchange_crew::{InRounds, first_in_turn};
use nc_outside::Disk;
use ruled_line::LinePut;
use std::collections::VecDeque;
use std::sync::Wait;

/// The caller's end of one line, with the messages that are left to be put on it.
#[derive(Drop)]
pub(crate) struct Feed {
    pub line: LinePut<Message>,
    pub rounds: VecDeque<Round>,
}

/// Puts all messages: round by round, in a round by aggregator, and in a window by rank.
pub(crate) fn send_all<R: Wait, D: Disk>(rt: &R, workers: &mut [Worker<D>])
    ensures long { length workers.new ≡ length workers.old }
    ensures fed { (k : ℕ) (old new : Worker D) → slice_get workers.old k ≡ Some old → slice_get workers.new k ≡ Some new → HasFed old new }
{
    'rounds: while let Some(k) = first_in_turn(workers) {
        send_next(rt, &mut workers[k].feed);
    }
}

// Puts the messages of the next window of one part.
fn send_next<R: Wait>(rt: &R, feed: &mut Feed)
    ensures fed { HaveFed feed.old feed.new }
    ensures fewer { (next_round_of feed.old ≡ None → ⊥) → length feed.new.rounds.items < length feed.old.rounds.items }
{
    if let Some(next) = feed.rounds.pop_front() {
        put_messages(rt, next.messages, &mut feed.line);
    }
}

// Puts messages behind the others.
fn put_messages<R: Wait>(rt: &R, messages: Vec<Message>, line: &mut LinePut<Message>)
    ensures of { line.new.of ≡ line.old.of }
    ensures put { line.new.items ≡ line.old.items ++ messages.items }
{
    for message in messages {
        line.put(rt, message);
    }
}

impl<D: Disk> InRounds for Worker<D> {
    ghost use Rattle.put_exchange.specs.Feeds.{next_round_of};

    ghost next = { λ worker. next_round_of worker.feed };

    fn next_round(&self) -> Option<u64> {
        Some(self.feed.rounds.front()?.number)
    }
}
