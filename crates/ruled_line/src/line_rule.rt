// What an end of a line knows, and the rule that the line keeps.
use crossbeam_channel::protocol::{Join, Lesson, Outcome, Protocol, Split};
use std::collections::LinkedList;
use std::marker::Brand;

/// What a pass may do, how many items may stand in its line, what was put by it and what it took. No value of it is made.
pub struct LineView<T> {
    pub puts: bool,
    pub takes: bool,
    pub room: u64,
    pub put: LinkedList<T>,
    pub taken: LinkedList<T>,
}

/// What was put is what was taken and then what stands in the line.
pub struct LineRule;

impl<T> Protocol<T, LineView<T>> for LineRule {
    ghost use Rattle.std.specs.Prelude.{true, []};
    ghost use Rattle.ruled_line.specs.LineRule.{line_view, LineHolds};

    ghost holds = { LineHolds };

    ghost first = { line_view true true 0 [] [] };
}

// Opening: a pass for each end. The call names the room in the sending one.
impl<T> Split<LineView<T>> for Brand {
    ghost use Rattle.std.specs.Prelude.{true, false, []};
    ghost use Rattle.ruled_line.specs.LineRule.{line_view};

    ghost left = { λ v. line_view true false 0 v.put [] };

    ghost right = { λ v. line_view false true 0 [] v.taken };
}

/// An item goes to the back of the line.
pub struct Putting;

impl<T> Outcome<T, LineView<T>> for Putting {
    ghost use Rattle.std.specs.Prelude.{◌≡◌, [], ◌∷◌, ◌++◌};
    ghost use Rattle.ruled_line.specs.LineRule.{line_view};

    ghost then = { λ v x w. w ≡ line_view v.puts v.takes v.room (v.put ++ x ∷ []) v.taken };
}

// A try that finds the line full changes nothing and is not told of.
impl<T> Lesson<T, LineView<T>> for Putting {
    ghost fact = { λ v items. Unit {0} };
}

/// The item at the front leaves the line.
pub struct Taking;

impl<T> Outcome<T, LineView<T>> for Taking {
    ghost use Rattle.std.specs.Prelude.{◌≡◌, [], ◌∷◌, ◌++◌};
    ghost use Rattle.ruled_line.specs.LineRule.{line_view};

    ghost then = { λ v x w. w ≡ line_view v.puts v.takes v.room v.put (v.taken ++ x ∷ []) };
}

// A try that finds the line empty changes nothing and is not told of.
impl<T> Lesson<T, LineView<T>> for Taking {
    ghost fact = { λ v items. Unit {0} };
}

/// The two ends meet, and no item moves.
pub struct Settling;

impl<T> Join<LineView<T>> for Settling {
    ghost use Rattle.std.specs.Prelude.{true, false, []};
    ghost use Rattle.ruled_line.specs.LineRule.{line_view};

    ghost both = { λ put take. line_view true true put.room put.put take.taken };

    ghost spent = { line_view false false 0 [] [] };
}

// What was put is what was taken and then the items in the line, which are no more than its room.
impl<T> Lesson<T, LineView<T>> for Settling {
    ghost use Rattle.std.specs.Prelude.{◌≡◌, ◌++◌, ◌≤◌, length};

    ghost fact = { λ v items. (v.put ≡ v.taken ++ items) × (length items ≤ v.room) };
}
