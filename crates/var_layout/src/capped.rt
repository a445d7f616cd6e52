//! Sums and products of sizes and places that may be too large: exact below 2^62, and 2^62 from there on.
ghost use Rattle.std.specs.Prelude.{◌≡◌, ◌+◌, ◌*◌, ◌≤◌, ◌^◌};
ghost use Rattle.serial_spec.specs.Layout as layout;
ghost use Rattle.var_layout.specs.Capped.{capped};

use nc_base::FILE_LIMIT;

/// The number, or 2^62 where it is more.
pub fn cap(n: u128) -> u64
    ensures { result ≡ capped n }
{
    n.min(FILE_LIMIT as u128) as u64
}

/// The sum, or 2^62 where it is more.
pub fn sum(a: u64, b: u64) -> u64
    ensures { result ≡ capped (a + b) }
{
    cap(a as u128 + b as u128)
}

/// The product, or 2^62 where it is more.
pub fn product(a: u64, b: u64) -> u64
    ensures { result ≡ capped (a * b) }
{
    cap(a as u128 * b as u128)
}

/// The least multiple of 4 that is the size or more.
pub fn padded(size: u64) -> u64
    requires { size ≤ 2 ^ 62 }
    ensures { result ≡ layout.round_up 4 size }
{
    size.div_ceil(4) * 4
}
