// The sending ends of several lines.
ghost use Rattle.std.specs.Prelude.{◌≡◌, ◌≢◌, ◌<◌, ◌↔◌, ℕ, [], length, slice_get, option_map, IsTrue};
ghost use Rattle.ruled_line.specs.Ends.{with_item};

use crate::LinePut;
use std::marker::Model;
use std::sync::Wait;

/// The sending ends of several lines, each at its place. Contracts see them as a list.
#[derive(Drop)]
pub struct LinePutList<T: Drop> {
    ends: Vec<LinePut<T>>,
}

impl<T: Drop> Model for LinePutList<T> {
    ghost use Rattle.std.specs.Prelude.{List};
    ghost use Rattle.ruled_line.specs.Ends.{End};

    ghost Value = { List (End T) };

    ghost view = { λ l. l.ends.items };
}

impl<T: Send + Drop> LinePutList<T> {
    /// The list of a vector's ends.
    pub fn from_vec(ends: Vec<LinePut<T>>) -> Self
        ensures { result ≡ ends.items }
    {
        LinePutList { ends }
    }

    pub fn into_vec(self) -> Vec<LinePut<T>>
        ensures { result.items ≡ self }
    {
        let LinePutList { ends } = self;
        ends
    }

    pub fn len(&self) -> usize
        ensures { result ≡ length self.now }
    {
        self.ends.len()
    }

    pub fn is_empty(&self) -> bool
        ensures { IsTrue result ↔ (self.now ≡ []) }
    {
        self.ends.is_empty()
    }

    /// Puts an item on the line at this place, and waits for room on it.
    pub fn put_on<R: Wait>(&mut self, rt: &R, place: usize, item: T)
        requires { place < length self.old }
        ensures here { slice_get self.new place ≡ option_map (λ end. with_item end item) (slice_get self.old place) }
        ensures others { (k : ℕ) → k ≢ place → slice_get self.new k ≡ slice_get self.old k }
        ensures len { length self.new ≡ length self.old }
    {
        let end = &mut self.ends[place];
        end.put(rt, item);
    }
}
