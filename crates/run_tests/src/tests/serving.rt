// The owner of the file, by what two ranks put beforehand.
ghost use Rattle.std.specs.Prelude.{◌≡◌, length};

use crate::tests::attending::{items_of, reply, strange_items_of};
use crate::tests::fixtures::{disk_of_zeros, has_no_calls, is_counted, is_long, placed};
use nc_base::{Hints, Mark, NcType, OverlapRule, OwnerItem, ServeEnd};
use nc_outside::{Deaf, MemDisk, OpenGate};
use piece_exchange::{Crew, Tools};
use rank_items::SentItem;
use rank_meeting::serve;
use ruled_line::{InPut, InTake, LinePut, LinePutList, LineTake, inbox, line};
use std::alloc::Global;
use std::process::Abort;
use std::sync::Wait;
use std::thread::Threads;
use test_fixtures::{NO_MEMORY, two};
use var_layout::Measures;

const HINTS: Hints = Hints {
    cb_nodes: 1,
    cb_buffer: 4096,
    rd_buffer: 4096,
    wr_buffer: 4096,
    line_room: 1,
    threads: true,
    overlap: OverlapRule::Refuse,
    header_align: 4,
    var_align: 4,
    striping_unit: 1,
};

/// Serves two senders.
fn served<R: Abort + Threads + Wait + Sync>(
    rt: &R,
    alloc: Global,
    disk: &mut MemDisk,
    taken: &mut InTake<SentItem>,
    lines: &mut LinePutList<OwnerItem>,
) -> ServeEnd
    requires two { taken.old.senders ≡ 2 }
    requires lines { length lines.old ≡ 2 }
{
    let tools = Tools {
        rt,
        alloc,
        gate: &OpenGate,
    };
    served_by(&tools, disk, taken, lines)
}

/// Serves two senders, without helpers.
fn served_by<'s, R: Abort + Threads + Wait + Sync>(
    tools: &'s Tools<'s, R, OpenGate>,
    disk: &mut MemDisk,
    taken: &mut InTake<SentItem>,
    lines: &mut LinePutList<OwnerItem>,
) -> ServeEnd
    requires two { taken.old.senders ≡ 2 }
    requires lines { length lines.old ≡ 2 }
{
    let header = placed(tools.rt, tools.alloc, 4, NcType::Int);
    is_long(tools.rt, &header, disk);
    let mut records = header.records;
    let mut crew = Crew::<(), R, OpenGate, MemDisk>::alone(tools);
    let end = serve(
        tools,
        &mut crew,
        disk,
        &header,
        &Measures::of(&header),
        &mut records,
        &HINTS,
        taken,
        lines,
        &mut Deaf,
    );
    // Calls, which hide from the check how each list of these is let go.
    drop(crew);
    drop(header);
    end
}

/// The ends of two senders, those of the owner, and those at which its replies come.
#[derive(Drop)]
struct Ends {
    senders: Vec<InPut<SentItem>>,
    taken: InTake<SentItem>,
    lines: LinePutList<OwnerItem>,
    to_first: LineTake<OwnerItem>,
    to_second: LineTake<OwnerItem>,
}

fn ends_of_two(rt: &impl Abort, alloc: Global) -> Ends
    ensures two { result.taken.senders ≡ 2 }
    ensures lines { length result.lines ≡ 2 }
{
    let (senders, taken) = inbox::<SentItem>(alloc, 8, 2).expect(rt, NO_MEMORY);
    let (first, to_first) = line::<OwnerItem>(alloc, 4).expect(rt, NO_MEMORY);
    let (second, to_second) = line::<OwnerItem>(alloc, 4).expect(rt, NO_MEMORY);
    let lines = two(alloc, first, second).expect(rt, NO_MEMORY);
    Ends {
        senders: senders.into_vec(),
        taken,
        lines: LinePutList::from_vec(lines.into_vec()),
        to_first,
        to_second,
    }
}

/// The items of both ranks arrive by turns; the second one makes its call first.
fn arrive<R: Abort + Wait>(rt: &R, alloc: Global, mut senders: Vec<InPut<SentItem>>) {
    let mut zero = items_of(rt, alloc, 0);
    let mut one = items_of(rt, alloc, 1);
    for number in [0usize, 1, 1, 0, 0, 1, 0, 1] {
        let of_rank = if number == 0 { &mut zero } else { &mut one };
        let item = of_rank.take(rt).1;
        senders.get_mut(number).expect(rt, "sender").put(rt, item);
    }
    drop(one);
    drop(zero);
    drop(senders);
}

/// Three replies stand in the line.
fn has_replies<R: Abort + Wait>(rt: &R, line: &mut LineTake<OwnerItem>) {
    for _ in 0..3 {
        let item = line.take(rt);
        assert!(rt; matches!(&item, OwnerItem::Reply(_)));
        drop(item);
    }
}

/// The next item in the line is the stop.
fn is_stopped<R: Abort + Wait>(rt: &R, line: &mut LineTake<OwnerItem>) {
    let item = line.take(rt);
    assert!(rt; matches!(&item, OwnerItem::Stop));
    drop(item);
}

/// These steps were done, none was refused, and this arrival was a stranger.
fn is_served(rt: &impl Abort, end: &ServeEnd, order: &[Mark], stranger: Option<u32>) {
    assert!(rt; end.order.as_slice() == order);
    assert!(rt; end.fault.is_none() && end.stranger == stranger);
}

/// The first rank asks to begin and knows of records that no rank needed; then both ranks end.
fn strange_arrive<R: Abort + Wait>(rt: &R, alloc: Global, mut senders: Vec<InPut<SentItem>>) {
    let mut zero = strange_items_of(rt, alloc, 0);
    let mut one = strange_items_of(rt, alloc, 1);
    let unsaid = one.take(rt);
    drop(unsaid);
    for number in [0usize, 0, 1] {
        let of_rank = if number == 0 { &mut zero } else { &mut one };
        let item = of_rank.take(rt).1;
        senders.get_mut(number).expect(rt, "sender").put(rt, item);
    }
    drop(one);
    drop(zero);
    drop(senders);
}

/// Nothing stands in the line: what is put on it now comes next.
fn is_empty<R: Abort + Wait>(
    rt: &R,
    alloc: Global,
    put: Option<&mut LinePut<OwnerItem>>,
    take: &mut LineTake<OwnerItem>,
) {
    put.expect(rt, "line").put(rt, reply(alloc));
    let item = take.take(rt);
    assert!(rt; matches!(&item, OwnerItem::Reply(_)));
    drop(item);
}

#[test]
fn a_strange_arrival_is_stopped(rt: HostRuntime) {
    let alloc = rt.alloc();
    let Ends {
        senders,
        mut taken,
        mut lines,
        mut to_first,
        mut to_second,
    } = ends_of_two(&rt, alloc);
    let mut disk = disk_of_zeros(&rt, alloc);
    strange_arrive(&rt, alloc, senders);
    let end = served(&rt, alloc, &mut disk, &mut taken, &mut lines);
    is_served(&rt, &end, &[], Some(0));
    drop(end);
    is_stopped(&rt, &mut to_first);
    let mut lines = lines.into_vec();
    is_empty(&rt, alloc, lines.get_mut(0), &mut to_first);
    is_empty(&rt, alloc, lines.get_mut(1), &mut to_second);
    has_no_calls(&rt, alloc, &disk);
    drop(lines);
    drop(disk);
    drop(to_second);
    drop(to_first);
    drop(taken);
}

const ARRIVED: [Mark; 4] = [
    Mark::Meet(0),
    Mark::Solo(1, 1),
    Mark::Solo(0, 1),
    Mark::Meet(1),
];

#[test]
fn calls_are_done_as_they_arrive(rt: HostRuntime) {
    let alloc = rt.alloc();
    let Ends {
        senders,
        mut taken,
        mut lines,
        mut to_first,
        mut to_second,
    } = ends_of_two(&rt, alloc);
    let mut disk = disk_of_zeros(&rt, alloc);
    arrive(&rt, alloc, senders);
    let end = served(&rt, alloc, &mut disk, &mut taken, &mut lines);
    is_served(&rt, &end, &ARRIVED, None);
    drop(end);
    has_replies(&rt, &mut to_first);
    has_replies(&rt, &mut to_second);
    is_counted(&rt, alloc, &disk);
    drop(disk);
    drop(to_second);
    drop(to_first);
    drop(lines);
    drop(taken);
}
