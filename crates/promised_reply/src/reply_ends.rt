// The two ends of a reply.
ghost use Rattle.std.specs.Prelude.{◌≡◌, Some, IfOk, IfSome};
ghost use Rattle.std.specs.Option.{ForSome};

use crate::reply_rule::{Giving, Named, Naming, ReplyRule, ReplyView, Taking};
use crossbeam_channel::{Pass, RuledReceiver, RuledSender, bounded_with};
use nc_base::Memory;
use ruled_line::LOOKS;
use std::alloc::Global;
use std::marker::{Brand, Model};
use std::snapshot::Snapshot;
use std::sync::Wait;
use std::thread;
use std::thread::Promise;

/// The end that gives the item. It crosses threads inside a message, whose type says of the promise what the giver has to know: contracts
/// see the promise as the pass knows it, which is some.
#[derive(Drop)]
pub struct Answer<T: Drop, P: Promise<T>> {
    sender: RuledSender<T, ReplyView<P>, ReplyRule>,
    pass: Pass<T, ReplyView<P>>,
}

/// The end that waits for the item. Contracts see the promise.
#[derive(Drop)]
pub struct Awaited<T: Drop, P: Promise<T>> {
    receiver: RuledReceiver<T, ReplyView<P>, ReplyRule>,
    pass: Pass<T, ReplyView<P>>,
    promise: Snapshot<P>,
}

impl<T: Drop, P: Promise<T>> Model for Answer<T, P> {
    ghost use Rattle.std.specs.Prelude.{Option, IsSome};
    ghost use Rattle.crossbeam_channel.specs.Claims.{IsSeatAt};
    ghost use Rattle.crossbeam_channel.specs.Claims as claims;
    ghost use Rattle.crossbeam_channel.specs.Ends.{sends_on};

    ghost Value = { Option P };

    ghost view = { λ e. (claims.view e.pass).promise };

    ghost invariant = { λ e. IsSeatAt (sends_on e.sender) e.pass × IsSome (claims.view e.pass).promise };
}

impl<T: Drop, P: Promise<T>> Model for Awaited<T, P> {
    ghost use Rattle.std.specs.Prelude.{◌≡◌, Some};
    ghost use Rattle.crossbeam_channel.specs.Claims.{IsSeatAt};
    ghost use Rattle.crossbeam_channel.specs.Claims as claims;
    ghost use Rattle.crossbeam_channel.specs.Ends.{receives_on};

    ghost Value = { P };

    ghost view = { λ e. e.promise.value };

    ghost invariant = { λ e. IsSeatAt (receives_on e.receiver) e.pass × ((claims.view e.pass).promise ≡ Some e.promise.value) };
}

/// The two ends of a new reply, for one item that keeps the promise.
pub fn reply<T: Send + Drop, P: Promise<T> + Drop>(
    alloc: Global,
    promise: P,
) -> Result<(Answer<T, P>, Awaited<T, P>), Memory>
    ensures answer { IfOk result (λ ends. ends.0 ≡ Some promise) }
    ensures awaited { IfOk result (λ ends. ends.1 ≡ promise) }
{
    open::<Brand, T, P>(alloc, &promise)
}

fn open<N: Named<P>, T: Send + Drop, P: Promise<T>>(
    alloc: Global,
    promise: &P,
) -> Result<(Answer<T, P>, Awaited<T, P>), Memory>
    requires { N.named ≡ Some promise.now }
    ensures answer { IfOk result (λ ends. ends.0 ≡ Some promise.now) }
    ensures awaited { IfOk result (λ ends. ends.1 ≡ promise.now) }
{
    let (sender, receiver, mut pass) = bounded_with::<T, ReplyView<P>, ReplyRule, Global>(
        alloc, 1,
    )?;
    let theirs = sender.another::<Naming<N>>(&mut pass);
    let answer = Answer { sender, pass };
    let awaited = Awaited {
        receiver,
        pass: theirs,
        promise: Snapshot::of(promise),
    };
    Ok((answer, awaited))
}

impl<T: Send + Drop, P: Promise<T>> Answer<T, P> {
    /// Gives the item. Where the other end is gone it may never return.
    pub fn give<R: Wait>(self, rt: &R, item: T)
        requires { ForSome self (λ promise. P.kept_by promise item) }
    {
        let Answer { sender, mut pass } = self;
        let mut next = item;
        for _ in rt.forever() {
            match sender.send_as::<Giving, R>(rt, &mut pass, next) {
                Ok(()) => return,
                Err(refused) => next = refused.into_inner(),
            }
            thread::yield_now();
        }
        unreachable!()
    }
}

impl<T: Send + Drop, P: Promise<T>> Awaited<T, P> {
    /// Waits for the item. Where the other end is gone and gave none it may never return.
    pub fn take<R: Wait>(self, rt: &R) -> T
        ensures { P.kept_by self result }
    {
        let mut end = self;
        let mut looks: u32 = 0;
        for _ in rt.forever() {
            if let Some(item) = end.look(rt, looks < LOOKS) {
                return item;
            }
            looks = looks.saturating_add(1);
            thread::yield_now();
        }
        unreachable!()
    }

    // Takes the item, if it is there: at once, or after sleeping until it comes.
    fn look<R: Wait>(&mut self, rt: &R, at_once: bool) -> Option<T>
        ensures kept { IfSome result (λ item. P.kept_by self.old item) }
        ensures same { self.new ≡ self.old }
    {
        if at_once {
            match self.receiver.try_recv_as::<Taking, R>(rt, &mut self.pass) {
                Ok(item) => Some(item),
                Err(_) => None,
            }
        } else {
            match self.receiver.recv_as::<Taking, R>(rt, &mut self.pass) {
                Ok(item) => Some(item),
                Err(_) => None,
            }
        }
    }
}
