// The calls that failed.
ghost use Rattle.std.specs.Prelude.{◌≡◌, ◌≤◌, ◌+◌, ◌-◌, ◌^◌, min};
ghost use Rattle.nc_outside.specs.Cause.{Rose};

use std::io;

/// How many calls failed, and why the first one did.
#[derive(Drop)]
pub(crate) struct Faults {
    pub count: u64,
    pub first: Option<io::Error>,
}

impl Faults {
    /// No call that failed.
    pub(crate) fn new() -> Self
        ensures { result.count ≡ 0 }
    {
        Faults {
            count: 0,
            first: None,
        }
    }

    /// Counts a call that failed.
    pub(crate) fn add(&mut self, cause: io::Error)
        ensures rose { Rose self.old.count self.new.count }
        ensures later { self.old.count ≤ self.new.count }
    {
        let _before = self.count;
        self.join(Faults {
            count: 1,
            first: Some(cause),
        });
    }

    /// Counts those of a part beside those of the whole.
    pub(crate) fn join(&mut self, other: Faults)
        ensures { self.new.count ≡ min (self.old.count + other.count) (2 ^ 64 - 1) }
    {
        let Faults { count, first } = other;
        self.count = self.count.saturating_add(count);
        self.first = self.first.or(first);
    }
}
