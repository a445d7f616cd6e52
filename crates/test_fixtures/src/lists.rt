// Short lists.
ghost use Rattle.std.specs.Prelude.{◌≡◌, [], ◌∷◌, IfOk};

use nc_base::{Items, Memory};
use std::alloc::Global;

/// The list of one item.
pub fn one<T: Drop>(alloc: Global, item: T) -> Result<Items<T>, Memory>
    ensures { IfOk result (λ list. list ≡ item ∷ []) }
{
    let mut list = Items::new(alloc);
    list.push(item)?;
    Ok(list)
}

/// The list of two items.
pub fn two<T: Drop>(alloc: Global, item: T, other: T) -> Result<Items<T>, Memory>
    ensures { IfOk result (λ list. list ≡ item ∷ other ∷ []) }
{
    let mut list = Items::new(alloc);
    list.push(item)?;
    list.push(other)?;
    Ok(list)
}

/// The list of these items.
pub fn list<T: Copy>(alloc: Global, items: &[T]) -> Result<Items<T>, Memory>
    ensures { IfOk result (λ list. list ≡ items.now) }
{
    Ok(Items::from_vec(Vec::from_slice(alloc, items)?))
}
