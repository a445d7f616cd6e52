// What an end of an inbox knows, and the rule that the inbox keeps.
use crossbeam_channel::protocol::{Join, Lesson, Outcome, Protocol, Split};
use std::collections::LinkedList;
use std::marker::Brand;

/// What a pass may do, its number, how many numbers were given, how many items may stand in the inbox, what it put and what it took. No value of it is made.
pub struct InboxView<T> {
    pub puts: bool,
    pub takes: bool,
    pub number: u64,
    pub given: u64,
    pub room: u64,
    pub put: LinkedList<T>,
    pub taken: LinkedList<(u32, T)>,
}

/// Of each sender: what it put is what was taken and then what stands in the inbox, under its number.
pub struct InboxRule;

impl<T> Protocol<(u32, T), InboxView<T>> for InboxRule {
    ghost use Rattle.std.specs.Prelude.{[]};
    ghost use Rattle.ruled_line.specs.InboxRule.{InboxHolds, receiver_view};

    ghost holds = { InboxHolds };

    ghost first = { receiver_view 0 0 [] };
}

// Opening: the first pass is the receiving end's, and learns the room, which the call names. The other half stays unused.
impl<T> Split<InboxView<T>> for Brand {
    ghost use Rattle.ruled_line.specs.InboxRule.{receiver_view, idle_view};

    ghost left = { λ v. receiver_view 0 0 v.taken };

    ghost right = { λ v. idle_view };
}

/// A sending end comes into being, with the next number and nothing put.
pub struct Numbering;

impl<T> Split<InboxView<T>> for Numbering {
    ghost use Rattle.std.specs.Prelude.{◌+◌, []};
    ghost use Rattle.ruled_line.specs.InboxRule.{receiver_view, sender_view};

    ghost left = { λ v. receiver_view (v.given + 1) v.room v.taken };

    ghost right = { λ v. sender_view v.given v.room [] };
}

/// An item goes to the back of the inbox, beside its sender's number.
pub struct Putting;

impl<T> Outcome<(u32, T), InboxView<T>> for Putting {
    ghost use Rattle.std.specs.Prelude.{◌≡◌, [], ◌∷◌, ◌++◌};
    ghost use Rattle.ruled_line.specs.InboxRule.{sender_view};

    ghost then = { λ v x w. w ≡ sender_view v.number v.room (v.put ++ x.1 ∷ []) };
}

// A try that finds the inbox full changes nothing and is not told of.
impl<T> Lesson<(u32, T), InboxView<T>> for Putting {
    ghost fact = { λ v items. Unit {0} };
}

/// The item at the front leaves the inbox. Its number was given.
pub struct Taking;

impl<T> Outcome<(u32, T), InboxView<T>> for Taking {
    ghost use Rattle.std.specs.Prelude.{◌≡◌, ◌<◌, [], ◌∷◌, ◌++◌};
    ghost use Rattle.ruled_line.specs.InboxRule.{receiver_view};

    ghost then = { λ v x w. (x.0 < v.given) × (w ≡ receiver_view v.given v.room (v.taken ++ x ∷ [])) };
}

// A try that finds the inbox empty changes nothing and is not told of.
impl<T> Lesson<(u32, T), InboxView<T>> for Taking {
    ghost fact = { λ v items. Unit {0} };
}

/// The receiving end meets a sending end, and no item moves.
pub struct Settling;

impl<T> Join<InboxView<T>> for Settling {
    ghost use Rattle.ruled_line.specs.InboxRule.{idle_view, met_view};

    ghost both = { met_view };

    ghost spent = { idle_view };
}

// Of the sender that was met: what it put is what was taken and then what stands in the inbox, under its number.
impl<T> Lesson<(u32, T), InboxView<T>> for Settling {
    ghost use Rattle.std.specs.Prelude.{◌≡◌, ◌++◌, ◌≤◌, ◌<◌, length};
    ghost use Rattle.ruled_line.specs.Ends.{items_under};

    ghost fact = { λ v items. (v.number < v.given) × (v.put ≡ items_under v.number v.taken ++ items_under v.number items) × (length (items_under v.number items) ≤ v.room) };
}
