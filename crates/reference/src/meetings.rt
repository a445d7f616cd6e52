// A step of all ranks.
ghost use Rattle.std.specs.Prelude.{◌≡◌, ◌<◌, ◌≤◌, ◌^◌, ℕ, map, length, true, IfOk, OnOk};
ghost use Rattle.nc_base.specs.declared.plan.Post.{Post};
ghost use Rattle.nc_base.specs.declared.step.Offer.{Offer};
ghost use Rattle.overlay_laws.specs.Entries.{In};
ghost use Rattle.serial_spec.specs.FileStep as step;
ghost use Rattle.serial_spec.specs.FileStep.{Setting};
ghost use Rattle.serial_spec.specs.SoundHeaders.{is_sound};
ghost use Rattle.serial_spec.specs.Layout.{greatest};
ghost use Rattle.serial_spec.specs.Limits.{record_limit};
ghost use Rattle.reference.specs.Requests.{counted, reply_to, setting, IsRight};

use crate::puts::told;
use crate::steps::{do_puts, get_all, puts_of, raise};
use nc_base::{Header, MeetKind, Memory, Offer, OfferKind, OverlapRule, Pair, Reply, ReplyList};
use std::alloc::Global;

/// Does the puts of all ranks, raises the record count, and does the gets of each rank: the replies in rank order.
pub fn meeting(
    alloc: Global,
    header: &Header,
    overlap: OverlapRule,
    offers: &[Offer],
    file: &mut Vec<u8>,
    records: &mut u64,
) -> Result<ReplyList, Memory>
    requires sound { is_sound header.now ≡ true }
    requires ranks { length offers.now ≤ 2 ^ 32 }
    requires right { (o : Offer) → In offers.now o → IsRight header.now o }
    requires known { (o : Offer) → In offers.now o → o.known < record_limit header.now.version }
    ensures file { OnOk result (file.new.items ≡ (step.meeting (setting header.now overlap) offers.now (counted file.old.items records.old)).0.file) }
    ensures records { OnOk result (records.new ≡ (step.meeting (setting header.now overlap) offers.now (counted file.old.items records.old)).0.records) }
    ensures replies { IfOk result (λ replies. replies ≡ (step.meeting (setting header.now overlap) offers.now (counted file.old.items records.old)).1) }
{
    let puts = puts_of(alloc, offers)?;
    let pair = told(alloc, header, overlap, puts.as_slice())?;
    let needed = do_puts(alloc, header, puts.as_slice(), pair, file)?;
    raise(header, needed.max(known_of(offers)), file, records)?;
    let all = replies(alloc, header, offers, pair, *records, file.as_slice())?;
    Ok(all)
}

/// What the kinds of the offers make the record count at least.
fn known_of(offers: &[Offer]) -> u64
    ensures { result ≡ greatest (map (λ o. step.known_by o.kind o.known) offers.now) }
{
    let mut known: u64 = 0;
    for offer in offers {
        known = known.max(known_by(offer));
    }
    known
}

fn known_by(offer: &Offer) -> u64
    ensures { result ≡ step.known_by offer.now.kind offer.now.known }
{
    match offer.kind {
        OfferKind::Meet(MeetKind::End) | OfferKind::Meet(MeetKind::Sync) => offer.known,
        _ => 0,
    }
}

/// The reply to each rank, after the puts.
fn replies(
    alloc: Global,
    header: &Header,
    offers: &[Offer],
    pair: Option<Pair>,
    records: u64,
    file: &[u8],
) -> Result<ReplyList, Memory>
    requires sound { is_sound header.now ≡ true }
    requires right { (o : Offer) → In offers.now o → IsRight header.now o }
    ensures { IfOk result (λ replies. (s : Setting) → s.header ≡ header.now → replies ≡ map (reply_to s pair records file.now) offers.now) }
{
    let mut all = Vec::new(alloc);
    for offer in offers {
        let got = get_all(alloc, header, offer.batch.gets.as_slice(), file)?;
        all.push(Reply { pair, records, got })?;
    }
    Ok(ReplyList::from_vec(all))
}
