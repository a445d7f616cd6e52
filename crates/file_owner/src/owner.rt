// What the owner of a file holds of each number.
ghost use Rattle.std.specs.Prelude.{◌≡◌, ◌≤◌, ◌++◌, ◌∷◌, [], ℕ, List, map, filter_map, is_some, length, replicate, true, None, Some, IfOk, OnOk};
ghost use Rattle.std.specs.List.{list_all, list_any};
ghost use Rattle.serial_spec.specs.Owner.{free_client, freed, has_left, holds, kind_held, offers_held};
ghost use Rattle.turn_run.specs.Steps.{batches_of, known_of};

use nc_base::{Batch, BatchList, Job, MarkList, MeetKind, Memory, Offer, OfferKind};
use std::alloc::Global;
use std::marker::Model;
use turn_run::add_offer;

/// One number: the offer of a meeting that is held, and whether it ended, and then for want of memory.
#[derive(Drop)]
pub(crate) struct Client {
    held: Option<Offer>,
    ended: Option<bool>,
}

impl Model for Client {
    ghost use Rattle.serial_spec.specs.Owner.{Client};

    ghost Value = { Client };

    ghost view = { λ a. record { held = a.held; ended = a.ended } };
}

impl Client {
    /// A number of which nothing arrived.
    fn free() -> Self
        ensures { result ≡ free_client }
    {
        Client {
            held: None,
            ended: None,
        }
    }

    pub(crate) fn holds(&self) -> bool
        ensures { result ≡ holds self.now }
    {
        self.held.is_some()
    }

    pub(crate) fn has_ended(&self) -> bool
        ensures { result ≡ is_some self.now.ended }
    {
        self.ended.is_some()
    }

    /// Whether it ended, not for want of memory, and has no offer without a mark.
    pub(crate) fn has_left(&self) -> bool
        ensures { result ≡ has_left self.now }
    {
        match (&self.held, self.ended) {
            (None, Some(memory)) => !memory,
            _ => false,
        }
    }

    /// The kind of the meeting whose offer is held.
    pub(crate) fn kind_held(&self) -> Option<MeetKind>
        ensures { result ≡ kind_held self.now }
    {
        match &self.held {
            None => None,
            Some(offer) => match offer.kind {
                OfferKind::Meet(kind) => Some(kind),
                OfferKind::Solo => None,
            },
        }
    }

    /// Holds the offer of a meeting.
    pub(crate) fn hold(&mut self, offer: Offer)
        ensures { self.new ≡ record { held = Some offer; ended = self.old.ended } }
    {
        self.held = Some(offer);
    }

    /// Notes its end, for want of memory or not.
    pub(crate) fn end(&mut self, memory: bool)
        ensures { self.new ≡ record { held = self.old.held; ended = Some memory } }
    {
        self.ended = Some(memory);
    }

    /// The offer that is held, which then is held no more.
    pub(crate) fn take(&mut self) -> Option<Offer>
        ensures taken { result ≡ self.old.held }
        ensures freed { self.new ≡ freed self.old }
    {
        self.held.take()
    }
}

/// What is held of each number, the meetings done, the greatest record count that a step has needed, and the order of all steps done.
#[derive(Drop)]
pub(crate) struct Owner {
    pub(crate) clients: Vec<Client>,
    pub(crate) met: u32,
    pub(crate) reached: u64,
    pub(crate) order: MarkList,
}

impl Owner {
    /// Before anything arrived.
    #[tactic(auto, using(crate::proofs::HeldLaws::replicate_more))]
    pub(crate) fn new(alloc: Global, senders: usize, records: u64) -> Result<Self, Memory>
        ensures clients { IfOk result (λ owner. owner.clients.items ≡ replicate senders free_client) }
        ensures met { IfOk result (λ owner. owner.met ≡ 0) }
        ensures reached { IfOk result (λ owner. owner.reached ≡ records) }
        ensures order { IfOk result (λ owner. owner.order ≡ []) }
    {
        let mut clients = Vec::new(alloc);
        for _ in 0..senders {
            clients.push(Client::free())?;
        }
        Ok(Owner {
            clients,
            met: 0,
            reached: records,
            order: MarkList::new(alloc),
        })
    }

    /// The order of the steps that were done.
    pub(crate) fn into_order(self) -> MarkList
        ensures { result ≡ self.order }
    {
        self.order
    }
}

/// Whether all clients hold an offer.
pub(crate) fn all_hold(clients: &[Client]) -> bool
    ensures { result ≡ list_all holds clients.now }
{
    clients.iter().all(|client| client.holds())
}

/// Takes the offers of a meeting: their batches, and the count to which it raises that of the file.
pub(crate) fn take_all(alloc: Global, clients: &mut [Client]) -> Result<(Job, u64), Memory>
    ensures batches { IfOk result (λ taken. taken.0.batches ≡ batches_of (offers_held clients.old)) }
    ensures known { IfOk result (λ taken. taken.1 ≡ known_of (offers_held clients.old)) }
    ensures freed { OnOk result (clients.new ≡ map freed clients.old) }
{
    let mut batches = Vec::new(alloc);
    let mut known: u64 = 0;
    for client in clients.iter_mut() {
        known = known.max(add_offer(client.take(), &mut batches)?);
    }
    Ok((
        Job {
            batches: BatchList::from_vec(batches),
        },
        known,
    ))
}
