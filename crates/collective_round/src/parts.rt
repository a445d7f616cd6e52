// The disk of a collective step in parts, one for each domain.
ghost use Rattle.std.specs.Prelude.{◌≡◌, ◌+◌, ◌^◌, ◌<◌, ◌≤◌, [], length, map, flat_map, reverse, true, vec_capacity, vec_len, IfOk, OnErr};
ghost use Rattle.nc_outside.specs.Cause.{HasDiskCause};
ghost use Rattle.overlay_laws.specs.Lines.{EndBelow};
ghost use Rattle.overlay_laws.specs.Walks.{end_after, first_at, told_of, IsCover};
ghost use Rattle.serial_spec.specs.Extents.{spans};
ghost use Rattle.serial_spec.specs.DeviceCalls.{collective_windows};
ghost use Rattle.serial_spec.specs.Lawful.{are_lawful_hints};
ghost use Rattle.exchange_crew.specs.Turns.{turns_of};
ghost use Rattle.collective_round.specs.Parts.{with_parts, Adjoin, AreDomains, AreSplit, Follow, IsSplit};
ghost use Rattle.exchange_crew.specs.Parts.{part_state};

use file_domains::cut;
use nc_base::{Extent, Hints, Memory, StepErr};
use nc_outside::Disk;
use std::alloc::Global;

/// The domains of a step that have a byte, in order of their places. Those without one stand behind them, so the place of a domain
/// is the number of its aggregator.
pub fn domains_of(alloc: Global, cover: &[Extent], hints: &Hints) -> Result<Vec<Extent>, Memory>
    requires cover { IsCover cover.now }
    requires ends { EndBelow (2 ^ 62) cover.now }
    requires hints { are_lawful_hints hints.now ≡ true }
    ensures few { IfOk result (λ domains. vec_len domains ≤ 64) }
    ensures domains { IfOk result (λ domains. AreDomains cover.now domains.items) }
    ensures ends { IfOk result (λ domains. EndBelow (2 ^ 62) domains.items) }
    ensures windows { IfOk result (λ domains. flat_map (λ d. turns_of hints.now.cb_buffer d cover.now) domains.items ≡ map told_of (collective_windows hints.now (spans cover.now))) }
{
    let reach = reach_of(cover);
    let mut domains = Vec::with_capacity(alloc, hints.cb_nodes as usize)?;
    for a in 0..hints.cb_nodes {
        let domain = cut(
            reach.at,
            reach.at + reach.len,
            hints.cb_nodes,
            hints.striping_unit,
            a,
        );
        if domain.len > 0 {
            domains.push_reserved(domain);
        }
    }
    Ok(domains)
}

// From the first covered byte to the last.
fn reach_of(cover: &[Extent]) -> Extent
    requires cover { IsCover cover.now }
    requires ends { EndBelow (2 ^ 62) cover.now }
    ensures begin { result.at ≡ first_at cover.now }
    ensures end { result.at + result.len ≡ end_after 0 cover.now }
    ensures limit { result.at + result.len < 2 ^ 62 }
{
    match (cover.first(), cover.last()) {
        (Some(first), Some(last)) => Extent {
            at: first.at,
            len: last.at + last.len - first.at,
        },
        _ => Extent { at: 0, len: 0 },
    }
}

/// Splits a disk at the begin of each domain: the parts, one for each domain, in order. What is before the first domain stays.
/// Refused, nothing is changed but the count of faults.
pub(crate) fn split<D: Disk>(
    alloc: Global,
    disk: &mut D,
    domains: &[Extent],
) -> Result<Vec<D>, StepErr>
    requires from { D.from disk.old ≡ 0 }
    requires domains { Adjoin domains.now }
    requires room { end_after 0 domains.now ≤ D.len disk.old }
    ensures split { IfOk result (λ parts. AreSplit (λ p. part_state D.Disk p) (part_state D.Disk disk.old)
        (part_state D.Disk disk.new) domains.now parts.items) }
    ensures kept { OnErr result ((D.from disk.new ≡ D.from disk.old) × (D.len disk.new ≡ D.len disk.old) × (D.held disk.new ≡ D.held disk.old) × (D.calls disk.new ≡ D.calls disk.old)) }
    ensures counted { D.faults disk.old < 2 ^ 64 }
    ensures cause { HasDiskCause (D.faults disk.old) (D.faults disk.new) result }
{
    // With its size a disk tells that 64 bits have its count of faults.
    let _size = disk.size();
    let mut parts = Vec::with_capacity(alloc, domains.len())?;
    let end = split_backwards(alloc, disk, domains, &mut parts);
    parts.reverse();
    if let Err(fault) = end {
        append_all(disk, parts);
        return Err(fault);
    }
    Ok(parts)
}

// Splits the disk from the last domain on, so that each byte goes over at most once. The parts come with the last one first; refused,
// they are those of the last domains.
fn split_backwards<D: Disk>(
    alloc: Global,
    disk: &mut D,
    domains: &[Extent],
    parts: &mut Vec<D>,
) -> Result<(), StepErr>
    requires from { D.from disk.old ≡ 0 }
    requires domains { Adjoin domains.now }
    requires room { end_after 0 domains.now ≤ D.len disk.old }
    requires none { parts.old.items ≡ [] }
    requires capacity { length domains.now ≤ vec_capacity parts.old }
    ensures split { IsSplit domains.now (part_state D.Disk disk.old)
        (part_state D.Disk disk.new)
        (map (λ p. part_state D.Disk p) (reverse parts.new.items)) result }
    ensures cause { HasDiskCause (D.faults disk.old) (D.faults disk.new) result }
{
    for k in (0..domains.len()).rev() {
        parts.push_reserved(disk.split_off(alloc, domains[k].at)?);
    }
    Ok(())
}

/// Takes the parts back behind the disk, one after another. It takes no memory.
pub(crate) fn append_all<D: Disk>(disk: &mut D, parts: Vec<D>)
    requires { Follow (D.from disk.old + D.len disk.old) (map (λ p. part_state D.Disk p) parts.items) }
    ensures { part_state D.Disk disk.new
        ≡ with_parts (part_state D.Disk disk.old)
        (map (λ p. part_state D.Disk p) parts.items) }
{
    for part in parts {
        disk.append(part);
    }
}
