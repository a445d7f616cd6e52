// The share of a record that a rank fills.
ghost use Rattle.std.specs.Prelude.{◌≡◌, ◌<◌, ◌≤◌, ◌+◌, ◌*◌, ◌^◌, length, IfOk};
ghost use Rattle.serial_spec.specs.Fill as fill;
ghost use Rattle.serial_spec.specs.Fill.{share_begin};
ghost use Rattle.serial_spec.specs.Layout as layout;
ghost use Rattle.serial_spec.specs.Layout.{product};

use crate::box_parts::Cutter;
use nc_base::{Memory, PartList, SizeList};
use std::alloc::Global;

/// Where the share of a rank begins and ends, of so many elements that all ranks share. This division is our choice.
pub fn share(total: u64, rank: u32, of: u32) -> (u64, u64)
    requires total { total < 2 ^ 62 }
    requires rank { rank < of }
    requires ranks { of ≤ 64 }
    ensures { result ≡ (share_begin total rank of, share_begin total (rank + 1) of) }
{
    (begin_of(total, rank, of), begin_of(total, rank + 1, of))
}

// Where the share of a rank begins. The share of the last rank ends where that of a next one would begin.
fn begin_of(total: u64, rank: u32, of: u32) -> u64
    requires total { total < 2 ^ 62 }
    requires rank { rank ≤ of }
    requires ranks { 1 ≤ of }
    ensures { result ≡ share_begin total rank of }
{
    (total as u128 * rank as u128 / of as u128) as u64
}

/// The elements with the row-major numbers from `from` to below `to`, as boxes of starts and counts: at most two for each dimension, and
/// one.
pub fn boxes(alloc: Global, counts: &SizeList, from: u64, to: u64) -> Result<PartList, Memory>
    requires order { from ≤ to }
    requires end { to ≤ product counts.now }
    requires few { product counts.now < 2 ^ 62 }
    ensures boxes { IfOk result (λ parts. parts ≡ fill.boxes counts.now from to) }
    ensures most { IfOk result (λ parts. length parts ≤ 2 * length counts.now + 1) }
{
    let mut cutter = Cutter::new(alloc);
    if from == to {
        return Ok(cutter.into_boxes());
    }
    let counts = counts.as_slice();
    cutter.cut(counts, size_of(counts), from, to)?;
    Ok(cutter.into_boxes())
}

// How many elements these counts have together.
fn size_of(counts: &[u64]) -> u64
    requires some { 1 ≤ product counts.now }
    requires few { product counts.now < 2 ^ 62 }
    ensures { result ≡ layout.product counts.now }
{
    let mut size = 1;
    for count in counts {
        size *= *count;
    }
    size
}
