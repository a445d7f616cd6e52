// The two ends of a line.
ghost use Rattle.std.specs.Prelude.{◌≡◌, ◌≤◌, ◌+◌, ◌∷◌, ◌++◌, [], length, IfOk, IfSome, IfNone};
ghost use mathlib.Core.List.{IsPrefix};

use crate::LOOKS;
use crate::line_rule::{LineRule, LineView, Putting, Settling, Taking};
use crossbeam_channel::{Pass, RuledReceiver, RuledSender, bounded_with};
use nc_base::Memory;
use std::alloc::Global;
use std::marker::{Brand, Model};
use std::sync::Wait;
use std::thread;

/// The end of a line that puts. Contracts see its line and the items that it put.
#[derive(Drop)]
pub struct LinePut<T: Drop> {
    sender: RuledSender<T, LineView<T>, LineRule>,
    pass: Pass<T, LineView<T>>,
}

/// The end of a line that takes. Contracts see its line and the items that it took.
#[derive(Drop)]
pub struct LineTake<T: Drop> {
    receiver: RuledReceiver<T, LineView<T>, LineRule>,
    pass: Pass<T, LineView<T>>,
}

impl<T: Drop> Model for LinePut<T> {
    ghost use Rattle.std.specs.Prelude.{◌≡◌, true};
    ghost use Rattle.crossbeam_channel.specs.Claims.{IsSeatAt};
    ghost use Rattle.crossbeam_channel.specs.Claims as claims;
    ghost use Rattle.crossbeam_channel.specs.Ends.{sends_on, ruled_capacity};
    ghost use Rattle.ruled_line.specs.Ends.{End, line_of};

    ghost Value = { End T };

    ghost view = { λ e. record { of = line_of (sends_on e.sender); items = (claims.view e.pass).put } };

    ghost invariant = { λ e. IsSeatAt (sends_on e.sender) e.pass × ((claims.view e.pass).puts ≡ true) × ((claims.view e.pass).room ≡ ruled_capacity (sends_on e.sender)) };
}

impl<T: Drop> Model for LineTake<T> {
    ghost use Rattle.std.specs.Prelude.{◌≡◌, true};
    ghost use Rattle.crossbeam_channel.specs.Claims.{IsSeatAt};
    ghost use Rattle.crossbeam_channel.specs.Claims as claims;
    ghost use Rattle.crossbeam_channel.specs.Ends.{receives_on};
    ghost use Rattle.ruled_line.specs.Ends.{End, line_of};

    ghost Value = { End T };

    ghost view = { λ e. record { of = line_of (receives_on e.receiver); items = (claims.view e.pass).taken } };

    ghost invariant = { λ e. IsSeatAt (receives_on e.receiver) e.pass × ((claims.view e.pass).takes ≡ true) };
}

/// The two ends of a new line, in which at most `room` items stand at a time.
pub fn line<T: Send + Drop>(alloc: Global, room: u32) -> Result<(LinePut<T>, LineTake<T>), Memory>
    requires room_low { 1 ≤ room }
    requires room_high { room ≤ 64 }
    ensures same { IfOk result (λ ends. ends.0.of ≡ ends.1.of) }
    ensures room { IfOk result (λ ends. ends.0.of.room ≡ room) }
    ensures put { IfOk result (λ ends. ends.0.items ≡ []) }
    ensures taken { IfOk result (λ ends. ends.1.items ≡ []) }
{
    let (sender, receiver, mut pass) = bounded_with::<T, LineView<T>, LineRule, Global>(
        alloc,
        room as usize,
    )?;
    let theirs = sender.another::<Brand>(&mut pass);
    let put = LinePut { sender, pass };
    let take = LineTake {
        receiver,
        pass: theirs,
    };
    Ok((put, take))
}

impl<T: Send + Drop> LinePut<T> {
    /// Puts an item behind the others, and waits for room. Where the other end is gone it may never return.
    pub fn put<R: Wait>(&mut self, rt: &R, item: T)
        ensures items { self.new.items ≡ self.old.items ++ item ∷ [] }
        ensures of { self.new.of ≡ self.old.of }
    {
        let mut next = item;
        for _ in rt.forever() {
            match self.sender.send_as::<Putting, R>(rt, &mut self.pass, next) {
                Ok(()) => return,
                Err(refused) => next = refused.into_inner(),
            }
            thread::yield_now();
        }
        unreachable!()
    }
}

impl<T: Send + Drop> LineTake<T> {
    /// Takes the item at the front, and waits for one. Where nothing stands in the line and the other end is gone it may never return.
    pub fn take<R: Wait>(&mut self, rt: &R) -> T
        ensures items { self.new.items ≡ self.old.items ++ result ∷ [] }
        ensures of { self.new.of ≡ self.old.of }
    {
        let mut looks: u32 = 0;
        for _ in rt.forever() {
            if let Some(item) = self.look(rt, looks < LOOKS) {
                return item;
            }
            looks = looks.saturating_add(1);
            thread::yield_now();
        }
        unreachable!()
    }

    // Takes the item at the front, if there is one: at once, or after sleeping until one comes.
    fn look<R: Wait>(&mut self, rt: &R, at_once: bool) -> Option<T>
        ensures some { IfSome result (λ item. self.new.items ≡ self.old.items ++ item ∷ []) }
        ensures none { IfNone result (self.new.items ≡ self.old.items) }
        ensures of { self.new.of ≡ self.old.of }
    {
        if at_once {
            match self.receiver.try_recv_as::<Taking, R>(rt, &mut self.pass) {
                Ok(item) => Some(item),
                Err(_) => None,
            }
        } else {
            match self.receiver.recv_as::<Taking, R>(rt, &mut self.pass) {
                Ok(item) => Some(item),
                Err(_) => None,
            }
        }
    }
}

/// Ends a line: what was taken is the first part of what was put, and all of it where as many were taken. What still stands in the line is dropped.
pub fn settle<T: Send + Drop>(put: LinePut<T>, take: LineTake<T>)
    requires { put.of ≡ take.of }
    ensures prefix { IsPrefix take.items put.items }
    ensures room { length put.items ≤ length take.items + put.of.room }
    ensures equal { length take.items ≡ length put.items → take.items ≡ put.items }
{
    let LinePut { sender, mut pass } = put;
    let LineTake {
        receiver: _receiver,
        pass: theirs,
    } = take;
    sender.absorb::<Settling>(&mut pass, theirs);
    sender.learn_as::<Settling>(&mut pass);
}
