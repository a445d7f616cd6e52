// How many elements counts make.
ghost use Rattle.std.specs.Prelude.{◌≡◌, ◌-◌, ◌^◌, min};
ghost use Rattle.serial_spec.specs.Layout.{product};

/// How many elements a region of these counts has, in all dimensions together; 2^64 - 1 where it has more.
pub fn element_count(counts: &[u64]) -> u64
    ensures { result ≡ min (product counts.now) (2 ^ 64 - 1) }
{
    counts
        .iter()
        .fold(1, |product: u64, count| product.saturating_mul(*count))
}
