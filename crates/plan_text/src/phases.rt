// The text of a plan: what a step does to the file.
ghost use Rattle.std.specs.Prelude.{◌≡◌, ◌++◌, OnOk, codes, flat_map};
ghost use Rattle.script_spec.specs.Texts.{line, pair_words};
ghost use Rattle.window_plan.specs.Windows.{shares_in};
ghost use Rattle.plan_text.specs.StepTexts.{asked_line, device_lines, domain_line, domain_lines, domain_words, file_lines, hole_words, overlap_line, share_words, side, verb, window_calls, window_line, window_lines};

use crate::calls::{push_count, push_device_calls, push_growth};
use crate::words::{push_bytes_of, push_counted, push_range};
use nc_base::{Direction, DiskCall, Extent, Memory, Pair};
use printed_text::words::{push_bytes, push_number_line, push_numbered, push_word};
use step_plan::{Asked, DomainPlan, FilePlan, Share, WindowPlan};
use window_plan::shares_of;

pub(crate) fn push_file(out: &mut Vec<u8>, file: &FilePlan) -> Result<(), Memory>
    ensures { OnOk result (out.new.items ≡ out.old.items ++ file_lines file.now) }
{
    push_asked(out, Direction::Put, file.puts.asked.as_slice())?;
    push_asked(out, Direction::Get, file.gets.asked.as_slice())?;
    push_overlap(out, &file.overlap)?;
    push_growth(out, file.grow)?;
    push_domains(out, Direction::Put, file.puts.domains.as_slice())?;
    push_count(out, file.count)?;
    push_domains(out, Direction::Get, file.gets.domains.as_slice())?;
    Ok(())
}

// What ranks ask for.
fn push_asked(out: &mut Vec<u8>, direction: Direction, list: &[Asked]) -> Result<(), Memory>
    ensures { OnOk result (out.new.items ≡ out.old.items ++ flat_map (asked_line direction) list.now) }
{
    for asked in list {
        push_asked_line(out, direction, *asked)?;
    }
    Ok(())
}

fn push_asked_line(out: &mut Vec<u8>, direction: Direction, asked: Asked) -> Result<(), Memory>
    ensures { OnOk result (out.new.items ≡ out.old.items ++ asked_line direction asked) }
{
    push_numbered(out, b"  rank ", u64::from(asked.rank))?;
    push_word(out, verb(direction))?;
    push_bytes_of(out, b"s ", asked.bytes)?;
    push_bytes(out, b" in ")?;
    push_counted(out, asked.pieces, b"piece")?;
    out.push(b'\n')?;
    Ok(())
}

fn push_overlap(out: &mut Vec<u8>, overlap: &Option<Pair>) -> Result<(), Memory>
    ensures { OnOk result (out.new.items ≡ out.old.items ++ overlap_line overlap.now) }
{
    match overlap {
        Some(pair) => push_pair(out, pair),
        None => Ok(()),
    }
}

fn push_pair(out: &mut Vec<u8>, pair: &Pair) -> Result<(), Memory>
    ensures { OnOk result (out.new.items ≡ out.old.items ++ (codes "  " ++ line (pair_words pair.now))) }
{
    push_numbered(out, b"  overlap ", u64::from(pair.rank1))?;
    push_numbered(out, b" ", u64::from(pair.request1))?;
    push_numbered(out, b" ", u64::from(pair.rank2))?;
    push_numbered(out, b" ", u64::from(pair.request2))?;
    push_number_line(out, b" ", pair.at)?;
    Ok(())
}

fn push_domains(
    out: &mut Vec<u8>,
    direction: Direction,
    domains: &[DomainPlan],
) -> Result<(), Memory>
    ensures { OnOk result (out.new.items ≡ out.old.items ++ flat_map (domain_lines direction) domains.now) }
{
    for domain in domains {
        push_domain(out, direction, domain)?;
    }
    Ok(())
}

// A domain, or the range of a step of one rank, with its windows.
fn push_domain(out: &mut Vec<u8>, direction: Direction, domain: &DomainPlan) -> Result<(), Memory>
    ensures { OnOk result (out.new.items ≡ out.old.items ++ domain_lines direction domain.now) }
{
    push_domain_line(out, direction, domain)?;
    push_windows(out, direction, domain.windows.as_slice())?;
    Ok(())
}

fn push_domain_line(
    out: &mut Vec<u8>,
    direction: Direction,
    domain: &DomainPlan,
) -> Result<(), Memory>
    ensures { OnOk result (out.new.items ≡ out.old.items ++ domain_line direction domain.now) }
{
    push_bytes(out, b"  ")?;
    push_bytes(out, verb(direction))?;
    push_place(out, domain.aggregator, domain.extent)?;
    out.push(b'\n')?;
    Ok(())
}

// The range, and who serves it.
fn push_place(out: &mut Vec<u8>, aggregator: Option<u32>, extent: Extent) -> Result<(), Memory>
    ensures { OnOk result (out.new.items ≡ out.old.items ++ domain_words aggregator extent) }
{
    match aggregator {
        Some(aggregator) => {
            push_bytes(out, b" domain ")?;
            push_range(out, extent)?;
            push_numbered(out, b", aggregator ", u64::from(aggregator))
        }
        None => {
            out.push(b' ')?;
            push_range(out, extent)?;
            push_bytes(out, b" by data sieving")
        }
    }
}

fn push_windows(
    out: &mut Vec<u8>,
    direction: Direction,
    windows: &[WindowPlan],
) -> Result<(), Memory>
    ensures { OnOk result (out.new.items ≡ out.old.items ++ flat_map (window_lines direction) windows.now) }
{
    for window in windows {
        push_window(out, direction, window)?;
    }
    Ok(())
}

// A window with its calls.
fn push_window(out: &mut Vec<u8>, direction: Direction, window: &WindowPlan) -> Result<(), Memory>
    ensures { OnOk result (out.new.items ≡ out.old.items ++ window_lines direction window.now) }
{
    push_window_line(out, direction, window)?;
    push_window_calls(out, direction, window)?;
    Ok(())
}

fn push_window_line(
    out: &mut Vec<u8>,
    direction: Direction,
    window: &WindowPlan,
) -> Result<(), Memory>
    ensures { OnOk result (out.new.items ≡ out.old.items ++ window_line direction window.now) }
{
    push_bytes(out, b"    window ")?;
    push_range(out, window.hull)?;
    push_hole(out, window.full)?;
    push_window_shares(out, direction, window)?;
    out.push(b'\n')?;
    Ok(())
}

fn push_hole(out: &mut Vec<u8>, full: bool) -> Result<(), Memory>
    ensures { OnOk result (out.new.items ≡ out.old.items ++ hole_words full) }
{
    if full {
        Ok(())
    } else {
        push_bytes(out, b" with a hole")
    }
}

// How many bytes of it each rank has.
fn push_window_shares(
    out: &mut Vec<u8>,
    direction: Direction,
    window: &WindowPlan,
) -> Result<(), Memory>
    ensures { OnOk result (out.new.items ≡ out.old.items ++ flat_map (share_words direction) (shares_in window.now.owners)) }
{
    let shares = shares_of(*out.allocator(), window.owners.as_slice())?;
    push_shares(out, direction, shares.as_slice())
}

fn push_shares(out: &mut Vec<u8>, direction: Direction, shares: &[Share]) -> Result<(), Memory>
    ensures { OnOk result (out.new.items ≡ out.old.items ++ flat_map (share_words direction) shares.now) }
{
    for share in shares {
        push_share(out, direction, *share)?;
    }
    Ok(())
}

fn push_share(out: &mut Vec<u8>, direction: Direction, share: Share) -> Result<(), Memory>
    ensures { OnOk result (out.new.items ≡ out.old.items ++ share_words direction share) }
{
    push_numbered(out, b", ", share.bytes)?;
    push_numbered(out, side(direction), u64::from(share.rank))
}

// A window of puts that has a hole is read before it is written.
fn push_window_calls(
    out: &mut Vec<u8>,
    direction: Direction,
    window: &WindowPlan,
) -> Result<(), Memory>
    ensures { OnOk result (out.new.items ≡ out.old.items ++ device_lines (codes "      ") (window_calls direction window.now)) }
{
    let load = DiskCall::Load(window.hull.at, window.hull.len);
    let store = DiskCall::Store(window.hull.at, window.hull.len);
    match direction {
        Direction::Put if window.full => push_device_calls(out, b"      ", &[store]),
        Direction::Put => push_device_calls(out, b"      ", &[load, store]),
        Direction::Get => push_device_calls(out, b"      ", &[load]),
    }
}

fn verb(direction: Direction) -> &'static [u8]
    ensures { result.now ≡ verb direction }
{
    match direction {
        Direction::Put => b"put",
        Direction::Get => b"get",
    }
}

// How a rank stands to its bytes.
fn side(direction: Direction) -> &'static [u8]
    ensures { result.now ≡ side direction }
{
    match direction {
        Direction::Put => b" from rank ",
        Direction::Get => b" for rank ",
    }
}
