// A rank of two, whose line holds beforehand what comes back.
ghost use Rattle.std.specs.Prelude.{◌≡◌, true};
ghost use Rattle.serial_spec.specs.Lawful.{is_lawful};
ghost use Rattle.serial_spec.specs.SoundHeaders.{is_sound};

use crate::tests::fixtures::{ALONE, BEGIN, HALVES, header_of_five, placed, script_of};
use nc_base::{
    Blob, BlobList, Code, Header, NcType, OwnerItem, RankEnd, RankItem, RankStop, Reply, Script,
};
use nc_outside::OpenGate;
use rank_core::Names;
use rank_items::SentItem;
use rank_meeting::attend;
use ruled_line::{InPut, InTake, LineTake, inbox, line};
use std::alloc::Global;
use std::process::Abort;
use std::sync::Wait;
use test_fixtures::{NO_MEMORY, one};

/// A rank makes the calls that the script has for it.
fn attends<R: Abort + Wait>(
    rt: &R,
    alloc: Global,
    header: &Header,
    script: &Script,
    out: &mut InPut<SentItem>,
    back: &mut LineTake<OwnerItem>,
) -> RankEnd
    requires sound { is_sound header.now ≡ true }
    requires lawful { is_lawful script.now ≡ true }
    requires ranks { script.now.ranks ≡ 2 }
{
    let names = Names::new(alloc, header).expect(rt, NO_MEMORY);
    let number = out.number();
    assert!(rt; number < 2);
    let end = attend(rt, alloc, header, &names, script, out, back, &OpenGate);
    drop(names);
    end
}

/// A reply without blobs, as to a step without a pair or records.
pub(crate) fn reply(alloc: Global) -> OwnerItem {
    OwnerItem::Reply(Reply {
        pair: None,
        records: 0,
        got: BlobList::new(alloc),
    })
}

/// A rank makes its three calls, each of which is replied to beforehand.
fn attended<R: Abort + Wait>(rt: &R, alloc: Global, out: &mut InPut<SentItem>) -> RankEnd {
    let (mut put, mut back) = line::<OwnerItem>(alloc, 4).expect(rt, NO_MEMORY);
    for _ in 0..3 {
        put.put(rt, reply(alloc));
    }
    let script = script_of(rt, alloc, ALONE);
    let header = placed(rt, alloc, 4, NcType::Int);
    let end = attends(rt, alloc, &header, &script, out, &mut back);
    // Calls, which hide from the check how each list of these is let go.
    drop(header);
    drop(script);
    drop(back);
    drop(put);
    end
}

/// The rank ended so, and answered so many calls well.
fn is_ended(rt: &impl Abort, end: &RankEnd, stop: RankStop, answers: usize) {
    assert!(rt; end.end == stop && end.answers.len() == answers);
    for answer in end.answers.as_slice() {
        assert!(rt; answer.code == Code::Ok);
    }
}

/// What one of the two ranks puts: three offers, and its end.
pub(crate) fn items_of<R: Abort + Wait>(rt: &R, alloc: Global, number: usize) -> InTake<SentItem> {
    let (ends, taken) = inbox::<SentItem>(alloc, 8, 2).expect(rt, NO_MEMORY);
    let mut ends = ends.into_vec();
    let out = ends.get_mut(number).expect(rt, "rank");
    let end = attended(rt, alloc, out);
    drop(ends);
    is_ended(rt, &end, RankStop::Done, 3);
    let pending = end.pending;
    drop(end);
    assert!(rt; pending == 0);
    taken
}

/// The next item is the offer of the call of this number.
fn is_offer<R: Abort + Wait>(rt: &R, items: &mut InTake<SentItem>, call: u32) {
    let item = items.take(rt).1.into_item();
    match &item {
        RankItem::Offer(number, _) => assert!(rt; *number == call),
        RankItem::Ended { .. } => assert!(rt; false),
    }
    drop(item);
}

/// The next item is the last of a rank that had memory.
fn is_end<R: Abort + Wait>(rt: &R, items: &mut InTake<SentItem>) {
    let last = items.take(rt).1.into_item();
    assert!(rt; matches!(&last, RankItem::Ended { memory: false }));
    drop(last);
}

/// What the rank of this number puts that hears this item when it makes its one call, and how it ends.
fn told<R: Abort + Wait>(
    rt: &R,
    alloc: Global,
    number: usize,
    header: &Header,
    text: &[u8],
    item: OwnerItem,
) -> (InTake<SentItem>, RankEnd)
    requires { is_sound header.now ≡ true }
{
    let (ends, taken) = inbox::<SentItem>(alloc, 8, 2).expect(rt, NO_MEMORY);
    let (mut put, mut back) = line::<OwnerItem>(alloc, 4).expect(rt, NO_MEMORY);
    put.put(rt, item);
    let script = script_of(rt, alloc, text);
    let mut ends = ends.into_vec();
    let out = ends.get_mut(number).expect(rt, "rank");
    let end = attends(rt, alloc, header, &script, out, &mut back);
    drop(ends);
    drop(script);
    drop(back);
    drop(put);
    (taken, end)
}

/// What one of two ranks puts that begins and knows of five records, which no rank needed: the offer, and its end.
pub(crate) fn strange_items_of<R: Abort + Wait>(
    rt: &R,
    alloc: Global,
    number: usize,
) -> InTake<SentItem> {
    let header = header_of_five(rt, alloc);
    let (taken, end) = told(rt, alloc, number, &header, BEGIN, reply(alloc));
    drop(end);
    drop(header);
    taken
}

/// Hearing this item, the first rank ends so, with so many answers. It puts its offer and its end.
fn ends_so<R: Abort + Wait>(
    rt: &R,
    alloc: Global,
    item: OwnerItem,
    stop: RankStop,
    answers: usize,
) {
    let header = placed(rt, alloc, 4, NcType::Int);
    let (mut items, end) = told(rt, alloc, 0, &header, HALVES, item);
    drop(header);
    is_ended(rt, &end, stop, answers);
    drop(end);
    is_offer(rt, &mut items, 0);
    is_end(rt, &mut items);
    drop(items);
}

/// A reply with a blob, which no put asks for.
fn reply_with_blob(rt: &impl Abort, alloc: Global) -> OwnerItem {
    OwnerItem::Reply(Reply {
        pair: None,
        records: 0,
        got: one(alloc, Blob::new(alloc)).expect(rt, NO_MEMORY),
    })
}

#[test]
fn a_rank_ends_by_what_it_hears(rt: HostRuntime) {
    let alloc = rt.alloc();
    ends_so(&rt, alloc, OwnerItem::Stop, RankStop::Stopped, 0);
    let blob = reply_with_blob(&rt, alloc);
    ends_so(&rt, alloc, blob, RankStop::Misfit, 0);
    ends_so(&rt, alloc, reply(alloc), RankStop::Done, 1);
}

#[test]
fn a_rank_makes_its_call(rt: HostRuntime) {
    let mut items = items_of(&rt, rt.alloc(), 0);
    for call in 0..3 {
        is_offer(&rt, &mut items, call);
    }
    is_end(&rt, &mut items);
    drop(items);
}
