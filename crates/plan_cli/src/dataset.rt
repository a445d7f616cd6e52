// A dataset that is only looked at.
ghost use Rattle.std.specs.Prelude.{◌≡◌, ◌^◌, ℕ, List, Option, length, min, IfOk, IfSome};
ghost use Rattle.nc_outside.specs.Cause.{HasDiskCause};
ghost use Rattle.dataset_start.specs.Dataset.{front};

use nc_base::StepErr;
use std::alloc::Global;

/// The first bytes of a dataset, among which its header stands, and how many it has in all.
#[derive(Drop)]
pub struct Front {
    pub bytes: Vec<u8>,
    pub size: u64,
}

/// Datasets of which the fronts are read. There is no call that writes.
pub trait DatasetFront: Drop {
    /// The bytes of the dataset of that name, where they are told.
    ghost held: { Self → List ℕ → Option (List ℕ) };

    /// How many calls have failed.
    ghost faults: { Self → ℕ };

    /// The front of the dataset of that name: at most 2^20 bytes.
    fn front(&mut self, alloc: Global, name: &str) -> Result<Front, StepErr>
        ensures bytes { IfOk result (λ seen. IfSome (held self.old name.now) (λ file. seen.bytes.items ≡ front file)) }
        ensures size { IfOk result (λ seen. IfSome (held self.old name.now) (λ file. seen.size ≡ length file)) }
        ensures many { IfOk result (λ seen. length seen.bytes.items ≡ min seen.size (2 ^ 20)) }
        ensures kept { held self.new ≡ held self.old }
        ensures cause { HasDiskCause (faults self.old) (faults self.new) result };
}
