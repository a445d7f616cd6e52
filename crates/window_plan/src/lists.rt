// Lists that take no more memory than their items.
ghost use Rattle.std.specs.Prelude.{◌≡◌};

use nc_base::Items;

/// The list of a vector's items, without room for more of them.
pub fn fitted<T>(mut items: Vec<T>) -> Items<T>
    ensures { result ≡ items.items }
{
    items.shrink_to_fit();
    Items::from_vec(items)
}
