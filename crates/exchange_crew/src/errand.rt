// What a helper is told, and what comes back of it.

ghost use Rattle.std.specs.Prelude.{◌≡◌};

use nc_base::StepErr;

/// A job of a helper, of puts or of gets. Both go over one line, so that one thread does both.
#[derive(Drop)]
pub enum Errand<P, G> {
    Put(P),
    Get(G),
}

/// What a helper serves a part by: the part of the disk, and its ends of the lines to the caller.
#[derive(Drop)]
pub struct PartEnds<D: Drop, L: Drop> {
    pub part: D,
    pub lines: L,
}

impl<D: Drop, L: Drop> PartEnds<D, L> {
    /// The part alone.
    pub fn into_part(self) -> D
        ensures { result ≡ self.part }
    {
        self.part
    }
}

/// What comes back of it, and how it ended.
#[derive(Drop)]
pub struct PartBack<D: Drop, L: Drop> {
    pub ends: PartEnds<D, L>,
    pub end: Result<(), StepErr>,
}
