// Regions as C gives them.
ghost use Rattle.std.specs.Prelude.{◌≡◌, IfOk};
ghost use Rattle.nc_classic_c.specs.Regions.{region_of, direction_of};

use nc_base::{Direction, Memory, Region, SizeList};
use std::alloc::Global;

/// Elements of a variable: one start, count and stride for each dimension, and an index map unless the memory is packed.
#[repr(C)]
#[derive(Clone, Copy)]
pub struct NcvRegion<'a> {
    pub var: u64,
    pub start: &'a [u64],
    pub count: &'a [u64],
    pub stride: &'a [u64],
    pub imap: &'a [u64],
}

/// The region that C asks for.
pub(crate) fn region_of(alloc: Global, asked: &NcvRegion) -> Result<Region, Memory>
    ensures { IfOk result (λ region. region ≡ region_of asked.now) }
{
    Ok(Region {
        start: SizeList::from_slice(alloc, asked.start)?,
        count: SizeList::from_slice(alloc, asked.count)?,
        stride: SizeList::from_slice(alloc, asked.stride)?,
        imap: SizeList::from_slice(alloc, asked.imap)?,
        packed: asked.imap.is_empty(),
    })
}

pub(crate) fn direction_of(put: bool) -> Direction
    ensures { result ≡ direction_of put }
{
    if put { Direction::Put } else { Direction::Get }
}
