// The end of the owner's side of a run: stops for the offers that get no reply.
ghost use Rattle.std.specs.Prelude.{◌≡◌, ◌≤◌, ◌<◌, ◌++◌, ◌∷◌, [], ℕ, List, length, true};
ghost use Rattle.serial_spec.specs.Owner.{Client, stop_held};
ghost use Rattle.serial_spec.specs.History.{Arrival};
ghost use Rattle.rank_items.specs.Own.{HasOwnPuts};
ghost use Rattle.file_owner.specs.Owned.{Grows};
ghost use Rattle.file_owner.specs.Stops.{held_stops, client_stops, stop_each, stops_for, AllHaveEnded, HasMetAll, HaveEnded};

use crate::owner::Client;
use nc_base::{OwnerItem, RankItem};
use nc_outside::{Gate, Point};
use rank_items::SentItem;
use ruled_line::{InTake, LinePutList};
use std::sync::Wait;

/// The most senders of an inbox.
const MOST_SENDERS: usize = 64;

/// What the owner takes: how often it took, and which numbers have ended.
#[derive(Drop)]
pub(crate) struct Senders {
    taken: u64,
    ended: [bool; MOST_SENDERS],
}

impl Senders {
    pub(crate) fn new() -> Self
        ensures { HaveEnded result.ended [] }
    {
        Senders {
            taken: 0,
            ended: [false; MOST_SENDERS],
        }
    }

    /// Takes the next item, and notes its number's end.
    pub(crate) fn take<R: Wait, G: Gate>(
        &mut self,
        rt: &R,
        inbox: &mut InTake<SentItem>,
        gate: &G,
    ) -> (u32, RankItem)
        requires few { inbox.old.senders ≤ 64 }
        ensures items { inbox.new.items ≡ inbox.old.items ++ result ∷ [] }
        ensures number { result.0 < inbox.old.senders }
        ensures own { HasOwnPuts result.1 }
        ensures senders { inbox.new.senders ≡ inbox.old.senders }
        ensures of { inbox.new.of ≡ inbox.old.of }
        ensures noted { (arrivals : List Arrival) → HaveEnded self.old.ended arrivals → HaveEnded self.new.ended (arrivals ++ result ∷ []) }
    {
        gate.pass(rt, Point::Arrival(self.taken));
        self.taken = self.taken.wrapping_add(1);
        let (number, item) = inbox.take(rt);
        let item = item.into_item();
        self.note(number, &item);
        (number, item)
    }

    /// Notes a number's end.
    fn note(&mut self, number: u32, item: &RankItem)
        requires { number < 64 }
        ensures { (arrivals : List Arrival) → HaveEnded self.old.ended arrivals → HaveEnded self.new.ended (arrivals ++ (number, item.now) ∷ []) }
    {
        match item {
            RankItem::Ended { memory: _ } => self.ended[number as usize] = true,
            RankItem::Offer(_, _) => {}
        }
    }

    /// Whether so many numbers have ended.
    pub(crate) fn all_ended(&self, senders: usize) -> bool
        requires few { senders ≤ 64 }
        ensures { result ≡ true → AllHaveEnded senders self.now.ended }
    {
        self.ended[..senders].iter().all(|ended| *ended)
    }
}

/// Puts a stop on the line of each offer that is held, and then on that of an arrival that no rank of a script makes.
pub(crate) fn stop_strange<R: Wait>(
    rt: &R,
    back: &mut LinePutList<OwnerItem>,
    clients: &[Client],
    number: u32,
    item: RankItem,
)
    requires lines { length back.old ≡ length clients.now }
    requires number { number < length back.old }
    ensures { Grows back.old (λ q. held_stops clients.now q ++ stops_for ((number, item) ∷ []) q) back.new }
{
    stop_held(rt, back, clients);
    stop_arrival(rt, back, number, &item);
}

/// Puts a stop on the line of an arrival that is an offer.
fn stop_arrival<R: Wait>(rt: &R, back: &mut LinePutList<OwnerItem>, number: u32, item: &RankItem)
    requires { number < length back.old }
    ensures { Grows back.old (stops_for ((number, item.now) ∷ [])) back.new }
{
    if let RankItem::Offer(_, _) = item {
        back.put_on(rt, number as usize, OwnerItem::Stop);
    }
}

/// Puts a stop on the line of each offer that is held.
pub(crate) fn stop_held<R: Wait>(rt: &R, back: &mut LinePutList<OwnerItem>, clients: &[Client])
    requires { length back.old ≡ length clients.now }
    ensures { Grows back.old (held_stops clients.now) back.new }
{
    for (number, client) in clients.iter().enumerate() {
        stop_client(rt, back, number, client);
    }
}

/// Puts a stop on the line of a number whose offer is held.
fn stop_client<R: Wait>(rt: &R, back: &mut LinePutList<OwnerItem>, number: usize, client: &Client)
    requires { number < length back.old }
    ensures { Grows back.old (client_stops number client.now) back.new }
{
    if client.holds() {
        back.put_on(rt, number, OwnerItem::Stop);
    }
}

/// Puts a stop on each line.
pub(crate) fn stop_each<R: Wait>(rt: &R, back: &mut LinePutList<OwnerItem>)
    ensures { Grows back.old stop_each back.new }
{
    for number in 0..back.len() {
        back.put_on(rt, number, OwnerItem::Stop);
    }
}

/// Takes until each number has ended, and puts a stop on its line for each offer.
pub(crate) fn stop_rest<R: Wait, G: Gate>(
    rt: &R,
    senders: &mut Senders,
    inbox: &mut InTake<SentItem>,
    back: &mut LinePutList<OwnerItem>,
    gate: &G,
)
    requires few { inbox.old.senders ≤ 64 }
    requires lines { length back.old ≡ inbox.old.senders }
    ensures { HasMetAll inbox.old inbox.new back.old back.new senders.old.ended senders.new.ended }
{
    for _ in rt.forever() {
        if senders.all_ended(back.len()) {
            return;
        }
        let (number, item) = senders.take(rt, inbox, gate);
        stop_arrival(rt, back, number, &item);
    }
    unreachable!()
}
