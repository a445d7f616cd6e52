// The windows of a collective step.
ghost use Rattle.std.specs.Prelude.{◌≡◌, ◌+◌, ◌^◌, ◌<◌, ◌≤◌, true, drop, length, map, IfOk, IfErr, OnErr};
ghost use Rattle.file_domains.specs.Rounds.{windows_left, IsWalk};
ghost use Rattle.overlay_laws.specs.Lines.{EndBelow};
ghost use Rattle.overlay_laws.specs.Walks.{IsCover};
ghost use Rattle.serial_spec.specs.DeviceCalls.{first_of};
ghost use Rattle.serial_spec.specs.Extents.{spans};
ghost use Rattle.nc_classic_c.specs.Answers.{IsAnswer};
ghost use Rattle.nc_classic_c.specs.Extents.{filled, laid_from};
ghost use Rattle.nc_classic_c.specs.Windows.{division_of, end_of, is_division, shown, step_windows, AreWindows, IsWindowRefusal};

use crate::answers::{OK, Refusal, number_of};
use crate::copies::lay;
use crate::covers::{Reach, cover_of, ends_are_low, reach_of};
use crate::domains::MAX_UNIT;
use crate::extents::NcvExtent;
use file_domains::{Window, WindowWalk, cut, windows};
use nc_base::{Code, Extent, MAX_AGGREGATORS, MAX_BUFFER};
use std::alloc::Global;

/// A window of a domain, by its hull.
#[repr(C)]
#[derive(Clone, Copy)]
pub struct NcvWindow {
    /// The first byte of the window that is asked for.
    pub at: u64,
    /// How many bytes the hull has: it ends with the window's last byte that is asked for.
    pub len: u64,
    /// The number of the aggregator whose domain it is.
    pub aggregator: u32,
    /// Whether every byte of the hull is asked for.
    pub full: bool,
}

/// What a collective step asks for.
#[repr(C)]
#[derive(Clone, Copy)]
pub struct NcvStep {
    /// The least byte.
    pub lo: u64,
    /// The greatest byte, plus one.
    pub hi: u64,
    /// How many windows there are.
    pub windows: u64,
}

/// How a step is divided.
#[derive(Clone, Copy)]
pub(crate) struct Division {
    /// How many aggregators there are.
    pub aggregators: u32,
    /// The striping unit.
    pub unit: u64,
    /// The bytes of a window.
    pub buffer: u64,
}

fn is_division(division: &Division) -> bool
    ensures { result ≡ is_division division.now }
{
    1 <= division.aggregators
        && division.aggregators <= MAX_AGGREGATORS
        && 1 <= division.unit
        && division.unit <= MAX_UNIT
        && 1 <= division.buffer
        && division.buffer <= MAX_BUFFER
}

fn shown(aggregator: u32, window: Window) -> NcvWindow
    ensures { result ≡ shown aggregator window }
{
    NcvWindow {
        at: window.hull.at,
        len: window.hull.len,
        aggregator,
        full: window.full,
    }
}

/// Lays the windows of a domain into a slice, the first of them being number `total` of the step. Answers the number that
/// comes next.
fn lay_windows(
    windows: WindowWalk,
    aggregator: u32,
    total: u64,
    from: u64,
    into: &mut [NcvWindow],
) -> u64
    requires ready { IsWalk windows }
    requires few { total + length (windows_left windows) < 2 ^ 64 }
    ensures laid { into.new ≡ laid_from total from into.old (map (shown aggregator) (windows_left windows.entry)) }
    ensures next { result ≡ total + length (windows_left windows.entry) }
{
    let mut next = total;
    for window in windows {
        lay(shown(aggregator, window), next, from, into);
        next += 1;
    }
    next
}

/// Lays the windows of all domains from number `from` on into a slice. Answers how many there are.
fn lay_domains(
    cover: &[Extent],
    reach: Reach,
    division: &Division,
    from: u64,
    into: &mut [NcvWindow],
) -> u64
    requires cover { IsCover cover.now }
    requires ends { EndBelow (2 ^ 62) cover.now }
    requires begin { reach.lo ≡ first_of (spans cover.now) }
    requires end { reach.hi ≡ end_of (spans cover.now) }
    requires order { reach.lo ≤ reach.hi }
    requires limit { reach.hi < 2 ^ 62 }
    requires division { is_division division.now ≡ true }
    ensures laid { into.new ≡ filled into.old (drop from (step_windows division.now (spans cover.now))) }
    ensures total { result ≡ length (step_windows division.now (spans cover.now)) }
{
    let mut total = 0;
    for number in 0..division.aggregators {
        let domain = cut(
            reach.lo,
            reach.hi,
            division.aggregators,
            division.unit,
            number,
        );
        let walk = windows(domain, cover, division.buffer);
        total = lay_windows(walk, number, total, from, into);
    }
    total
}

/// The windows of a step from number `from` on.
fn lay_step(
    alloc: Global,
    asked: &[NcvExtent],
    division: &Division,
    from: u64,
    into: &mut [NcvWindow],
) -> Result<NcvStep, Refusal>
    ensures ok { IfOk result (λ step. AreWindows division.now asked.now from into.old into.new step) }
    ensures refused { IfErr result (λ r. IsWindowRefusal division.now asked.now r) }
    ensures kept { OnErr result (into.new ≡ into.old) }
{
    if !is_division(division) {
        return Err(Refusal::Asked(Code::EInvalRequest));
    }
    if !ends_are_low(asked) {
        return Err(Refusal::Asked(Code::ETooLarge));
    }
    let cover = cover_of(alloc, asked)?;
    let reach = reach_of(cover.as_slice());
    Ok(NcvStep {
        lo: reach.lo,
        hi: reach.hi,
        windows: lay_domains(cover.as_slice(), reach, division, from, into),
    })
}

/// The windows of a collective step that asks for the bytes of extents: those from number `from` on, and how many there are in
/// all.
#[unsafe(no_mangle)]
pub extern "C" fn ncv_windows(
    alloc: Global,
    asked: &[NcvExtent],
    aggregators: u32,
    unit: u64,
    buffer: u64,
    from: u64,
    into: &mut [NcvWindow],
    step: &mut NcvStep,
) -> i32
    ensures { let division = division_of aggregators unit buffer in
        IsAnswer result
        (AreWindows division asked.now from into.old into.new step.new)
        (λ r. IsWindowRefusal division asked.now r × (into.new ≡ into.old) × (step.new ≡ step.old)) }
{
    let division = Division {
        aggregators,
        unit,
        buffer,
    };
    match lay_step(alloc, asked, &division, from, into) {
        Ok(found) => {
            *step = found;
            OK
        }
        Err(refusal) => number_of(refusal),
    }
}
