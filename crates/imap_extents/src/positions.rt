// Where memory has the elements of a region.
ghost use Rattle.std.specs.Prelude.{◌≡◌, ◌+◌, ◌*◌, ◌≤◌, ◌++◌, false, length, map, flat_map, IfOk, OnOk};
ghost use Rattle.std.specs.List.{range_with_len};
ghost use Rattle.serial_spec.specs.Layout.{product};
ghost use Rattle.serial_spec.specs.Limits.{most_elements};
ghost use Rattle.serial_spec.specs.Request.{coordinates, position_at, positions};
ghost use Rattle.imap_extents.specs.Mapped.{IsMapped};
ghost use Rattle.imap_extents.specs.Saturated.{saturated};

use nc_base::{Memory, Region};
use std::alloc::Global;
use type_external::element_count;

/// The position of each element in memory that is not packed, in row-major order.
pub(crate) fn positions_of(alloc: Global, region: &Region) -> Result<Vec<u64>, Memory>
    requires mapped { IsMapped region.now }
    requires spread { region.now.packed ≡ false }
    ensures { IfOk result (λ all. all.items ≡ positions region.now) }
{
    let elements = element_count(region.count.as_slice());
    if elements == 0 {
        return Ok(Vec::new(alloc));
    }
    mapped_positions(alloc, region.count.as_slice(), region.imap.as_slice())
}

/// The positions by an index map. A dimension of count 1 costs nothing for each element.
fn mapped_positions(alloc: Global, counts: &[u64], imap: &[u64]) -> Result<Vec<u64>, Memory>
    requires { length imap.now ≡ length counts.now }
    ensures { IfOk result (λ all. all.items ≡ map (λ c. saturated (position_at imap.now c)) (coordinates counts.now)) }
{
    let [count, counts @ ..] = counts else {
        return Ok(vec![in alloc; 0]?)
    };
    let [step, imap @ ..] = imap else {
        return Ok(Vec::new(alloc))
    };
    let inner = mapped_positions(alloc, counts, imap)?;
    if *count == 1 {
        return Ok(inner);
    }
    repeated(alloc, &inner, *count, *step)
}

/// The positions again for each index of an outer dimension.
fn repeated(alloc: Global, inner: &[u64], count: u64, step: u64) -> Result<Vec<u64>, Memory>
    ensures { IfOk result (λ all. all.items ≡ flat_map (λ i. map (λ p. saturated (saturated (i * step) + p)) inner.now) (range_with_len 0 count)) }
{
    let room = inner.len().saturating_mul(count as usize);
    let mut positions = Vec::with_capacity(alloc, room)?;
    for index in 0..count {
        push_moved(&mut positions, inner, index.saturating_mul(step))?;
    }
    Ok(positions)
}

/// Adds the positions, each `by` farther.
fn push_moved(moved: &mut Vec<u64>, positions: &[u64], by: u64) -> Result<(), Memory>
    ensures { OnOk result (moved.new.items ≡ moved.old.items ++ map (λ p. saturated (by + p)) positions.now) }
{
    for position in positions {
        moved.push(by.saturating_add(*position))?;
    }
    Ok(())
}
