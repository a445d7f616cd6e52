// The ends of an inbox.
ghost use Rattle.std.specs.Prelude.{◌≡◌, ◌≤◌, ◌<◌, ◌+◌, ◌∷◌, ◌++◌, [], length, map, IfOk, IfSome, IfNone, All};
ghost use Rattle.std.specs.List.{range_with_len};
ghost use mathlib.Core.List.{IsPrefix};
ghost use Rattle.ruled_line.specs.Ends.{items_under};

use crate::LOOKS;
use crate::inbox_rule::{InboxRule, InboxView, Numbering, Putting, Settling, Taking};
use crossbeam_channel::{Pass, RuledReceiver, RuledSender, bounded_with};
use nc_base::{Items, Memory};
use std::alloc::Global;
use std::marker::{Brand, Model};
use std::sync::Wait;
use std::thread;

/// A sending end of an inbox. Contracts see its inbox, its number and the items that it put.
#[derive(Drop)]
pub struct InPut<T: Drop> {
    sender: RuledSender<(u32, T), InboxView<T>, InboxRule>,
    pass: Pass<(u32, T), InboxView<T>>,
    number: u32,
}

/// The receiving end of an inbox. Contracts see its inbox, the number of its senders, and the items that it took, each beside its sender's number.
#[derive(Drop)]
pub struct InTake<T: Drop> {
    receiver: RuledReceiver<(u32, T), InboxView<T>, InboxRule>,
    pass: Pass<(u32, T), InboxView<T>>,
}

/// The sending ends of an inbox, each at the place of its number, from 0.
pub type InPutList<T> = Items<InPut<T>>;

impl<T: Drop> Model for InPut<T> {
    ghost use Rattle.std.specs.Prelude.{◌≡◌};
    ghost use Rattle.crossbeam_channel.specs.Claims.{IsSeatAt};
    ghost use Rattle.crossbeam_channel.specs.Claims as claims;
    ghost use Rattle.crossbeam_channel.specs.Ends.{sends_on, ruled_capacity};
    ghost use Rattle.ruled_line.specs.Ends.{Sender, line_of};
    ghost use Rattle.ruled_line.specs.InboxRule.{sender_view};

    ghost Value = { Sender T };

    ghost view = { λ e. record { of = line_of (sends_on e.sender); number = e.number; items = (claims.view e.pass).put } };

    ghost invariant = { λ e. IsSeatAt (sends_on e.sender) e.pass × (claims.view e.pass ≡ sender_view e.number (ruled_capacity (sends_on e.sender)) (claims.view e.pass).put) };
}

impl<T: Drop> Model for InTake<T> {
    ghost use Rattle.std.specs.Prelude.{◌≡◌, true};
    ghost use Rattle.crossbeam_channel.specs.Claims.{IsSeatAt};
    ghost use Rattle.crossbeam_channel.specs.Claims as claims;
    ghost use Rattle.crossbeam_channel.specs.Ends.{receives_on, ruled_capacity};
    ghost use Rattle.ruled_line.specs.Ends.{Receiver, line_of};

    ghost Value = { Receiver T };

    ghost view = { λ e. record { of = line_of (receives_on e.receiver); senders = (claims.view e.pass).given; items = (claims.view e.pass).taken } };

    ghost invariant = { λ e. IsSeatAt (receives_on e.receiver) e.pass × ((claims.view e.pass).takes ≡ true) × ((claims.view e.pass).room ≡ ruled_capacity (receives_on e.receiver)) };
}

/// The ends of a new inbox, in which at most `room` items stand at a time. The sender at each place of the list, from 0, has the number of its place.
pub fn inbox<T: Send + Drop>(
    alloc: Global,
    room: u32,
    senders: u32,
) -> Result<(InPutList<T>, InTake<T>), Memory>
    requires room_low { 1 ≤ room }
    requires room_high { room ≤ 64 }
    requires senders_low { 1 ≤ senders }
    requires senders_high { senders ≤ 64 }

    // The receiving end.
    ensures room { IfOk result (λ ends. ends.1.of.room ≡ room) }
    ensures senders { IfOk result (λ ends. ends.1.senders ≡ senders) }
    ensures taken { IfOk result (λ ends. ends.1.items ≡ []) }

    // The sending ends.
    ensures len { IfOk result (λ ends. length ends.0 ≡ senders) }
    ensures same { IfOk result (λ ends. All (λ s. s.of ≡ ends.1.of) ends.0) }
    ensures numbers { IfOk result (λ ends. map (λ s. s.number) ends.0 ≡ range_with_len 0 senders) }
    ensures put { IfOk result (λ ends. All (λ s. s.items ≡ []) ends.0) }
{
    let (sender, receiver, mut pass) = bounded_with::<(u32, T), InboxView<T>, InboxRule, Global>(
        alloc,
        room as usize,
    )?;
    let _idle = sender.another::<Brand>(&mut pass);
    let mut ends = Vec::new(alloc);
    for number in 0..senders {
        let own = sender.try_clone()?;
        let theirs = sender.another::<Numbering>(&mut pass);
        ends.push(InPut {
            sender: own,
            pass: theirs,
            number,
        })?;
    }
    Ok((Items::from_vec(ends), InTake { receiver, pass }))
}

impl<T: Send + Drop> InPut<T> {
    /// The number that its items carry.
    pub fn number(&self) -> u32
        ensures { result ≡ self.now.number }
    {
        self.number
    }

    /// Puts an item behind the others, and waits for room. Where the receiving end is gone it may never return.
    pub fn put<R: Wait>(&mut self, rt: &R, item: T)
        ensures items { self.new.items ≡ self.old.items ++ item ∷ [] }
        ensures number { self.new.number ≡ self.old.number }
        ensures of { self.new.of ≡ self.old.of }
    {
        let mut next = (self.number, item);
        for _ in rt.forever() {
            match self.sender.send_as::<Putting, R>(rt, &mut self.pass, next) {
                Ok(()) => return,
                Err(refused) => next = refused.into_inner(),
            }
            thread::yield_now();
        }
        unreachable!()
    }
}

impl<T: Send + Drop> InTake<T> {
    /// Takes the item at the front with its sender's number, and waits for one. Where nothing stands in the inbox and all sending ends are gone it may never return.
    pub fn take<R: Wait>(&mut self, rt: &R) -> (u32, T)
        ensures items { self.new.items ≡ self.old.items ++ result ∷ [] }
        ensures number { result.0 < self.old.senders }
        ensures senders { self.new.senders ≡ self.old.senders }
        ensures of { self.new.of ≡ self.old.of }
    {
        let mut looks: u32 = 0;
        for _ in rt.forever() {
            if let Some(item) = self.look(rt, looks < LOOKS) {
                return item;
            }
            looks = looks.saturating_add(1);
            thread::yield_now();
        }
        unreachable!()
    }

    // Takes the item at the front, if there is one: at once, or after sleeping until one comes.
    fn look<R: Wait>(&mut self, rt: &R, at_once: bool) -> Option<(u32, T)>
        ensures items { IfSome result (λ item. self.new.items ≡ self.old.items ++ item ∷ []) }
        ensures number { IfSome result (λ item. item.0 < self.old.senders) }
        ensures none { IfNone result (self.new.items ≡ self.old.items) }
        ensures senders { self.new.senders ≡ self.old.senders }
        ensures of { self.new.of ≡ self.old.of }
    {
        if at_once {
            match self.receiver.try_recv_as::<Taking, R>(rt, &mut self.pass) {
                Ok(item) => Some(item),
                Err(_) => None,
            }
        } else {
            match self.receiver.recv_as::<Taking, R>(rt, &mut self.pass) {
                Ok(item) => Some(item),
                Err(_) => None,
            }
        }
    }
}

/// Ends a sender: what was taken under its number is the first part of what it put, and all of it where as many were taken. The receiving end comes back as it was.
pub fn settle_from<T: Send + Drop>(put: InPut<T>, take: InTake<T>) -> InTake<T>
    requires { put.of ≡ take.of }
    ensures same { result ≡ take }
    ensures prefix { IsPrefix (items_under put.number take.items) put.items }
    ensures room { length put.items ≤ length (items_under put.number take.items) + take.of.room }
    ensures equal { length (items_under put.number take.items) ≡ length put.items → items_under put.number take.items ≡ put.items }
    ensures number { put.number < take.senders }
{
    let InPut {
        sender,
        pass: theirs,
        number: _,
    } = put;
    let InTake { receiver, mut pass } = take;
    sender.absorb::<Settling>(&mut pass, theirs);
    sender.learn_as::<Settling>(&mut pass);
    InTake { receiver, pass }
}
