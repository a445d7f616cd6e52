// Entries of a header, one after the other.
ghost use Rattle.std.specs.Prelude.{ℕ, List};
ghost use Rattle.cdf_header.specs.Reading.{Gives, Reading, each_at};

use crate::header_bytes::HeaderBytes;
use crate::stop::Stop;
use nc_base::Items;
use std::alloc::Global;

/// What stands in a list of a header.
pub(crate) trait Entry: Sized {
    ghost reading: { ℕ → List ℕ → ℕ → Reading Self };

    /// The entry at a place, which is then the one behind it.
    fn read(bytes: &HeaderBytes<'_>, alloc: Global, at: &mut usize) -> Result<Self, Stop>
        ensures { Gives (λ found. (found, at.new)) result (reading bytes.now.version bytes.now.bytes.now at.old) };
}

impl HeaderBytes<'_> {
    /// So many entries.
    pub(crate) fn entries<T: Entry + Drop>(
        &self,
        alloc: Global,
        at: &mut usize,
        count: u64,
    ) -> Result<Items<T>, Stop>
        ensures { Gives (λ found. (found, at.new)) result (each_at (T.reading self.now.version self.now.bytes.now) count at.old) }
    {
        let mut found = Items::new(alloc);
        for _ in 0..count {
            let entry = T::read(self, alloc, at)?;
            found.push(entry)?;
        }
        Ok(found)
    }
}
