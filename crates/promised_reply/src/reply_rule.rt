// What an end of a reply knows, and the rule that a reply keeps.
ghost use Rattle.std.specs.Prelude.{Option, None};

use crossbeam_channel::protocol::{Lesson, Outcome, Protocol, Split};
use std::marker::{Brand, PhantomData};
use std::thread::Promise;

/// The promise, once it is named. No value of it is made.
pub struct ReplyView<P> {
    pub promise: Option<P>,
}

/// The item keeps the promise that both ends know.
pub struct ReplyRule;

impl<T, P: Promise<T>> Protocol<T, ReplyView<P>> for ReplyRule {
    ghost use Rattle.promised_reply.specs.ReplyRule.{reply_view, ReplyHolds};

    ghost holds = { ReplyHolds P.kept_by };

    ghost first = { reply_view None };
}

/// The promise that a call names.
pub trait Named<P> {
    ghost named: { Option P };
}

impl<P> Named<P> for Brand {
    ghost named = { None };
}

/// Opening: both ends know the promise.
pub struct Naming<N> {
    of: PhantomData<N>,
}

impl<P, N: Named<P>> Split<ReplyView<P>> for Naming<N> {
    ghost use Rattle.promised_reply.specs.ReplyRule.{reply_view};

    ghost left = { λ v. reply_view N.named };

    ghost right = { λ v. reply_view N.named };
}

/// The item goes over.
pub struct Giving;

impl<T, P> Outcome<T, ReplyView<P>> for Giving {
    ghost use Rattle.std.specs.Prelude.{◌≡◌};

    ghost then = { λ v x w. w ≡ v };
}

// A try that finds the reply full changes nothing and is not told of.
impl<T, P> Lesson<T, ReplyView<P>> for Giving {
    ghost fact = { λ v items. Unit {0} };
}

/// The item is taken, and keeps the promise.
pub struct Taking;

impl<T, P: Promise<T>> Outcome<T, ReplyView<P>> for Taking {
    ghost use Rattle.std.specs.Prelude.{◌≡◌};
    ghost use Rattle.std.specs.Option.{ForSome};

    ghost then = { λ v x w. (w ≡ v) × ForSome v.promise (λ promise. P.kept_by promise x) };
}

// A try that finds nothing changes nothing and is not told of.
impl<T, P> Lesson<T, ReplyView<P>> for Taking {
    ghost fact = { λ v items. Unit {0} };
}
