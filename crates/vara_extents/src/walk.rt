// The extents of a region, one after another.
ghost use Rattle.std.specs.Prelude.{◌≡◌, ℕ, ◌+◌, ◌*◌, ◌<◌, ◌≤◌, ◌^◌, ◌∷◌, length, slice_get, true, IfSome};
ghost use Rattle.serial_spec.specs.ExternalForm as external;
ghost use Rattle.serial_spec.specs.SoundHeaders.{is_sound};
ghost use Rattle.vara_extents.specs.Accepted.{IsAccepted};
ghost use Rattle.vara_extents.specs.Joined.{joined_to, extents_of};
ghost use Rattle.vara_extents.specs.Left.{extents_from, extents_left, run_place, AreReady, IsRunOf, IsReady};
ghost use Rattle.vara_extents.specs.Numbered.{AreRuns};

use crate::runs::{place_of, row_of_runs, run_of};
use nc_base::{Extent, Header, Region, Var};
use type_external::{element_count, size_of};
use var_layout::{Measures, variable_at};

/// The elements of a region as runs, one after another: the elements of a run follow one another in the file.
#[derive(Clone, Copy, Drop)]
struct Runs<'a> {
    header: &'a Header,
    var: &'a Var,
    region: &'a Region,
    /// The bytes from a record to the next one.
    recsize: u64,
    /// How many elements a run has.
    elements: u64,
    /// How many runs there are.
    count: u64,
    /// The rows in which they stand.
    row: Row,
}

/// Runs that lie equally far apart.
#[derive(Clone, Copy, Drop)]
struct Row {
    /// How many they are.
    runs: u64,
    /// The bytes from the first byte of one to that of the next one.
    step: u64,
}

/// A run on the way.
#[derive(Clone, Copy, Drop)]
struct Run {
    /// How many runs stand before it.
    number: u64,
    /// Its first byte, where there is such a run.
    at: u64,
    /// How many runs come after it in its row.
    left: u64,
}

impl<'a> Runs<'a> {
    ghost use Rattle.std.specs.Prelude.{◌≡◌, ◌*◌, ◌<◌, ◌≤◌, ◌+◌, ◌^◌, IfSome, slice_get, true};
    ghost use Rattle.serial_spec.specs.ExternalForm as external;
    ghost use Rattle.serial_spec.specs.SoundHeaders.{is_sound};
    ghost use Rattle.var_layout.specs.Measures.{AreMeasures};
    ghost use Rattle.vara_extents.specs.Accepted.{IsAccepted};
    ghost use Rattle.vara_extents.specs.Joined.{extents_of};
    ghost use Rattle.vara_extents.specs.Left.{extents_from, run_place, AreReady, IsRunOf};
    ghost use Rattle.vara_extents.specs.Numbered.{AreRuns};

    /// The runs of a region of the variable at this place of the header's list, as long as can be, and each in a row of its own.
    fn alone(header: &'a Header, measures: &Measures, var: usize, region: &'a Region) -> Runs<'a>
        requires sound { is_sound header.now ≡ true }
        requires measured { AreMeasures header.now measures.now }
        requires accepted { IsAccepted header.now var region.now }
        ensures extents { IfSome (slice_get header.now.vars var) (λ v. extents_from result 0 ≡ extents_of header.now v region.now) }
        ensures ready { AreReady result }
    {
        let var = variable_at(header, var);
        let recsize = measures.recsize(header);
        let elements = element_count(region.count.as_slice());
        let run = if elements == 0 {
            1
        } else {
            run_of(header, var, region, recsize)
        };
        Runs {
            header,
            var,
            region,
            recsize,
            elements: run,
            count: elements / run,
            row: Row { runs: 1, step: 0 },
        }
    }

    /// The same in rows as long as can be.
    fn new(header: &'a Header, measures: &Measures, var: usize, region: &'a Region) -> Runs<'a>
        requires sound { is_sound header.now ≡ true }
        requires measured { AreMeasures header.now measures.now }
        requires accepted { IsAccepted header.now var region.now }
        ensures extents { IfSome (slice_get header.now.vars var) (λ v. extents_from result 0 ≡ extents_of header.now v region.now) }
        ensures ready { AreReady result }
    {
        let runs = Runs::alone(header, measures, var, region);
        let row = runs.longest_row();
        Runs { row, ..runs }
    }

    /// The rows in which the runs stand.
    fn longest_row(&self) -> Row
        requires ready { AreReady self.now }
        ensures rows { AreRuns (run_place self.now) result.step result.runs self.now.count }
        ensures low { result.step ≤ 2 ^ 62 }
    {
        if self.count < 2 {
            return Row { runs: 1, step: 0 };
        }
        let runs = row_of_runs(self.region.count.as_slice(), self.elements);
        if runs < 2 {
            return Row { runs: 1, step: 0 };
        }
        let first = self.place(0);
        let second = self.place(1);
        Row {
            runs,
            step: second - first,
        }
    }

    /// The first byte of the run with this number.
    fn place(&self, number: u64) -> u64
        requires ready { AreReady self.now }
        requires there { number < self.now.count }
        ensures place { result ≡ run_place self.now number }
        ensures low { result ≤ 2 ^ 62 }
    {
        place_of(
            self.header,
            self.var,
            self.region,
            self.recsize,
            number * self.elements,
        )
    }

    /// The run with this number; behind the last one, no run.
    fn run(&self, number: u64) -> Run
        requires ready { AreReady self.now }
        requires there { number ≤ self.now.count }
        ensures placed { IsRunOf self.now result }
        ensures number { result.number ≡ number }
    {
        let at = if number < self.count {
            self.place(number)
        } else {
            0
        };
        let left = self.row.runs - 1 - number % self.row.runs;
        Run { number, at, left }
    }

    /// The run after this one.
    fn after(&self, run: Run) -> Run
        requires ready { AreReady self.now }
        requires there { run.number < self.now.count }
        requires placed { IsRunOf self.now run }
        ensures placed { IsRunOf self.now result }
        ensures number { result.number ≡ run.number + 1 }
    {
        let number = run.number + 1;
        if run.left == 0 {
            return self.run(number);
        }
        Run {
            number,
            at: run.at + self.row.step,
            left: run.left - 1,
        }
    }

    /// The bytes of a run.
    fn bytes(&self) -> u64
        requires ready { AreReady self.now }
        requires some { 1 ≤ self.now.count }
        ensures { result ≡ self.now.elements * external.size_of self.now.var.now.kind }
    {
        self.elements * size_of(self.var.kind)
    }
}

/// The bytes of a region's elements in row-major order, as extents of the file: neighbours in file and order are joined,
/// and none is empty. It takes no memory.
#[derive(Clone, Copy, Drop)]
pub struct Extents<'a> {
    runs: Runs<'a>,
    // The first run that is not given.
    next: Run,
}

/// An extent, and the first run that isn't given with it.
#[derive(Clone, Copy)]
struct Taken {
    extent: Extent,
    next: Run,
}

impl<'a> Extents<'a> {
    ghost use Rattle.std.specs.Prelude.{◌≡◌, ◌∷◌, ◌<◌, ◌≤◌, ◌+◌, ◌^◌, IfSome, slice_get, true};
    ghost use Rattle.serial_spec.specs.SoundHeaders.{is_sound};
    ghost use Rattle.var_layout.specs.Measures.{AreMeasures};
    ghost use Rattle.vara_extents.specs.Accepted.{IsAccepted};
    ghost use Rattle.vara_extents.specs.Joined.{joined_to, extents_of};
    ghost use Rattle.vara_extents.specs.Left.{extents_from, extents_left, IsRunOf, IsReady};

    /// The extents of a region of the variable at this place of the header's list. `measures` are the header's.
    pub fn new(
        header: &'a Header,
        measures: &Measures,
        var: usize,
        region: &'a Region,
    ) -> Extents<'a>
        requires sound { is_sound header.now ≡ true }
        requires measured { AreMeasures header.now measures.now }
        requires accepted { IsAccepted header.now var region.now }
        ensures extents { IfSome (slice_get header.now.vars var) (λ v. extents_left result ≡ extents_of header.now v region.now) }
        ensures ready { IsReady result }
    {
        let runs = Runs::new(header, measures, var, region);
        let next = runs.run(0);
        Extents { runs, next }
    }

    /// The next extent: the next run, and those after it that follow one another in the file.
    fn front(&self) -> Taken
        requires ready { IsReady self.now }
        requires there { self.now.next.number < self.now.runs.count }
        ensures extent { extents_left self.now ≡ result.extent ∷ extents_from self.now.runs result.next.number }
        ensures next { IsRunOf self.now.runs result.next }
    {
        let bytes = self.runs.bytes();
        let mut extent = Extent {
            at: self.next.at,
            len: bytes,
        };
        let mut next = self.runs.after(self.next);
        for number in self.next.number + 1..self.runs.count {
            if next.at != extent.at + extent.len {
                return Taken { extent, next };
            }
            extent.len += bytes;
            next = self.runs.after(next);
        }
        Taken { extent, next }
    }
}

impl<'a> Iterator for Extents<'a> {
    ghost use Rattle.std.specs.Iterator.{YieldsFirst, item_count};
    ghost use Rattle.vara_extents.specs.Left.{extents_left, IsReady};

    type Item = Extent;

    ghost can_next = { IsReady };

    ghost next_gives = { YieldsFirst extents_left };

    ghost remaining = { item_count extents_left };

    fn next(&mut self) -> Option<Extent> {
        if self.next.number >= self.runs.count {
            return None;
        }
        let front = self.front();
        self.next = front.next;
        Some(front.extent)
    }
}
