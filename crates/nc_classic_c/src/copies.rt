// Lists that are copied into an array of the caller's.
ghost use Rattle.std.specs.Prelude.{◌≡◌};
ghost use Rattle.nc_classic_c.specs.Extents.{filled, laid_at};

/// Copies the items into an array, as many as it has room for.
pub(crate) fn fill<T: Copy>(items: &[T], into: &mut [T])
    ensures { into.new ≡ filled into.old items.now }
{
    let count = items.len().min(into.len());
    into[..count].copy_from_slice(&items[..count]);
}

/// Lays item number `number` into an array that takes those from number `from` on, where it has room.
pub(crate) fn lay<T: Copy>(item: T, number: u64, from: u64, into: &mut [T])
    ensures { into.new ≡ laid_at number from into.old item }
{
    if from <= number && number - from < into.len() as u64 {
        into[(number - from) as usize] = item;
    }
}
