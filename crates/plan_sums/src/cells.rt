// What each rank gives each aggregator, and gets from it.
ghost use Rattle.std.specs.Prelude.{◌≡◌, ◌++◌, ◌∷◌, [], ◌==◌, ◌↔◌, true, filter, flat_map, map, IfOk, OnOk, IsTrue, if◌then◌else◌};
ghost use Rattle.std.specs.List.{range_with_len};
ghost use Rattle.plan_sums.specs.Cells.{bytes_of, cells_in, is_served_by, shares_by, shares_in, shares_of, some_cell};
ghost use Rattle.plan_sums.specs.Served.{cell_of, served_by};

use crate::naive::phase_of;
use nc_base::{Direction, Items, Memory};
use std::alloc::Global;
use step_plan::{DomainPlan, Share, ShareList, StepPlan, WindowPlan};
use window_plan::shares_of;

/// The bytes that a rank gives an aggregator and gets from it, in all steps of all ranks.
#[derive(Clone, Copy, Debug, PartialEq, Eq)]
pub struct Cell {
    pub rank: u32,
    pub aggregator: u32,
    pub put: u64,
    pub got: u64,
}

/// By rank, and then by aggregator.
pub type CellList = Items<Cell>;

// What an aggregator serves: whose the bytes of its windows are, in all steps.
#[derive(Drop)]
struct Served {
    aggregator: u32,
    puts: ShareList,
    gets: ShareList,
}

/// The cells of so many ranks and aggregators that have a byte.
pub(crate) fn cells_of(
    alloc: Global,
    steps: &[StepPlan],
    ranks: u32,
    nodes: u32,
) -> Result<CellList, Memory>
    ensures { IfOk result (λ cells. cells ≡ cells_in steps.now ranks nodes) }
{
    let served = served_by_all(alloc, steps, nodes)?;
    let mut cells = Vec::new(alloc);
    for rank in 0..ranks {
        push_rank(&mut cells, &served, rank)?;
    }
    Ok(CellList::from_vec(cells))
}

// Adds the cells of a rank.
fn push_rank(cells: &mut Vec<Cell>, all: &[Served], rank: u32) -> Result<(), Memory>
    ensures { OnOk result (cells.new.items ≡ cells.old.items ++ flat_map (λ served. some_cell (cell_of rank served)) all.now) }
{
    for served in all {
        push_cell(cells, cell_of(served, rank))?;
    }
    Ok(())
}

// Adds a cell, if it has a byte.
fn push_cell(cells: &mut Vec<Cell>, cell: Cell) -> Result<(), Memory>
    ensures { OnOk result (cells.new.items ≡ cells.old.items ++ some_cell cell) }
{
    if cell.put > 0 || cell.got > 0 {
        cells.push(cell)?;
    }
    Ok(())
}

fn cell_of(served: &Served, rank: u32) -> Cell
    ensures { result ≡ cell_of rank served.now }
{
    Cell {
        rank,
        aggregator: served.aggregator,
        put: bytes_of(served.puts.as_slice(), rank),
        got: bytes_of(served.gets.as_slice(), rank),
    }
}

// The bytes of a rank.
fn bytes_of(shares: &[Share], rank: u32) -> u64
    ensures { result ≡ bytes_of rank shares.now }
{
    let mut bytes: u64 = 0;
    for share in shares {
        bytes = bytes.saturating_add(own_bytes(share, rank));
    }
    bytes
}

fn own_bytes(share: &Share, rank: u32) -> u64
    ensures { result ≡ (if share.now.rank == rank then share.now.bytes else 0) }
{
    if share.rank == rank { share.bytes } else { 0 }
}

// What each of so many aggregators serves.
fn served_by_all(alloc: Global, steps: &[StepPlan], nodes: u32) -> Result<Vec<Served>, Memory>
    ensures { IfOk result (λ all. all.items ≡ map (served_by steps.now) (range_with_len 0 nodes)) }
{
    let mut all = Vec::new(alloc);
    for aggregator in 0..nodes {
        let puts = shares_by(alloc, steps, Direction::Put, aggregator)?;
        let gets = shares_by(alloc, steps, Direction::Get, aggregator)?;
        all.push(Served {
            aggregator,
            puts,
            gets,
        })?;
    }
    Ok(all)
}

// Whose the bytes of the windows are that an aggregator serves.
fn shares_by(
    alloc: Global,
    steps: &[StepPlan],
    direction: Direction,
    aggregator: u32,
) -> Result<ShareList, Memory>
    ensures { IfOk result (λ shares. shares ≡ shares_by aggregator direction steps.now) }
{
    let mut shares = Vec::new(alloc);
    for step in steps {
        let domains = phase_of(step, direction).domains.as_slice();
        push_served(&mut shares, domains, aggregator)?;
    }
    Ok(ShareList::from_vec(shares))
}

// Adds those of the domains that an aggregator serves.
fn push_served(
    shares: &mut Vec<Share>,
    domains: &[DomainPlan],
    aggregator: u32,
) -> Result<(), Memory>
    ensures { OnOk result (shares.new.items ≡ shares.old.items ++ shares_in (filter (is_served_by aggregator) domains.now)) }
{
    for domain in domains {
        push_domain(shares, domain, aggregator)?;
    }
    Ok(())
}

// Adds those of a domain, if the aggregator serves it.
fn push_domain(shares: &mut Vec<Share>, domain: &DomainPlan, aggregator: u32) -> Result<(), Memory>
    ensures { OnOk result (shares.new.items ≡ shares.old.items ++ shares_in (filter (is_served_by aggregator) (domain.now ∷ []))) }
{
    if is_served_by(domain, aggregator) {
        push_shares(shares, domain.windows.as_slice())?;
    }
    Ok(())
}

fn is_served_by(domain: &DomainPlan, aggregator: u32) -> bool
    ensures { IsTrue result ↔ (is_served_by aggregator domain.now ≡ true) }
{
    match domain.aggregator {
        Some(number) => number == aggregator,
        None => false,
    }
}

// Adds those of windows.
fn push_shares(shares: &mut Vec<Share>, windows: &[WindowPlan]) -> Result<(), Memory>
    ensures { OnOk result (shares.new.items ≡ shares.old.items ++ flat_map shares_of windows.now) }
{
    for window in windows {
        push_window(shares, window)?;
    }
    Ok(())
}

// Adds those of a window.
fn push_window(shares: &mut Vec<Share>, window: &WindowPlan) -> Result<(), Memory>
    ensures { OnOk result (shares.new.items ≡ shares.old.items ++ shares_of window.now) }
{
    let own = shares_of(*shares.allocator(), window.owners.as_slice())?;
    shares.extend_from_slice(own.as_slice())?;
    Ok(())
}
