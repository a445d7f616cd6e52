// What a call on a region comes to.
ghost use Rattle.std.specs.Prelude.{◌≡◌, ◌≤◌, ◌<◌, length, Some, IfOk};
ghost use Rattle.std.specs.Option.{option_copied};
ghost use Rattle.nc_base.specs.declared.request.Direction.TheVariants as way;
ghost use Rattle.serial_spec.specs.Looks as looks;
ghost use Rattle.serial_spec.specs.Looks.{direction_of};
ghost use Rattle.rank_core.specs.Looked.{as_look, posts_of, settled, ComesTo};
ghost use Rattle.rank_core.specs.Requests.{AreTowards, HaveId};
ghost use Rattle.rank_core.specs.Stepped.{most_of, IsSomeLook};
ghost use Rattle.rank_core.specs.Targets as targets;

mod filling;
mod parts;
mod region;
mod target;

use crate::Rank;
use filling::look_record;
use nc_base::{CallErr, Code, Direction, Form, Given, Memory, PostList, Values};
use parts::look_parts;
use region::look_region;
use std::alloc::Global;
use target::Target;

/// What a put, a get or a post comes to.
#[derive(Drop)]
pub(crate) enum Look {
    /// It is refused by this code.
    Refused(Code),
    /// It has no element.
    Empty,
    /// It asks for these regions, with the bytes of a put.
    Asks(PostList),
}

impl<'a> Rank<'a> {
    /// Looks a call on regions of a variable over: the first code that refuses it, or its posts under this id. `values` are none for a get.
    /// The values of a put of many regions go to the elements of one region after another.
    pub(crate) fn look(
        &self,
        id: u32,
        name: &[u8],
        given: &Given,
        values: Option<&Values>,
    ) -> Result<Look, Memory>
        ensures looked { IfOk result (λ l. as_look l ≡ looks.look self.now.header self.now.state.known id name.now given.now (option_copied values.entry)) }
        ensures posts { IfOk result (λ l. AreTowards (direction_of (option_copied values.entry)) self.now.header self.now.state.known (posts_of l)) }
        ensures ids { IfOk result (λ l. HaveId id (posts_of l)) }
        ensures few { IfOk result (λ l. length (posts_of l) ≤ most_of given.now) }
        ensures some { IfOk result IsSomeLook }
    {
        match self.target(id, name) {
            None => Ok(Look::Refused(Code::ENotVar)),
            Some(target) => settle(look_at(self.allocator(), &target, given, values)),
        }
    }

    /// Looks the filling of a rank's share of a record over: the first code that refuses it, or the boxes of the share, each with the
    /// fill value as every element.
    pub(crate) fn look_share(
        &self,
        name: &[u8],
        number: u64,
        share: u32,
        of: u32,
    ) -> Result<Look, Memory>
        requires share { share < of }
        requires ranks { of ≤ 64 }
        ensures looked { IfOk result (λ l. as_look l ≡ looks.look_fill self.now.header name.now number share of) }
        ensures posts { IfOk result (λ l. AreTowards way.Put self.now.header self.now.state.known (posts_of l)) }
        ensures few { IfOk result (λ l. length (posts_of l) ≤ 65) }
    {
        match self.target(0, name) {
            None => Ok(Look::Refused(Code::ENotVar)),
            Some(target) => settle(look_record(self.allocator(), &target, number, share, of)),
        }
    }
}

/// The posts of a call on the variable; none where it has no element.
fn look_at(
    alloc: Global,
    target: &Target,
    given: &Given,
    values: Option<&Values>,
) -> Result<PostList, CallErr>
    ensures { ComesTo (targets.look_at target.now given.now (option_copied values.entry)) result }
{
    match given.form {
        Form::Varn => look_parts(alloc, target, given, values),
        _ => look_region(alloc, target, given, values),
    }
}

/// What a call with these posts or this refusal comes to.
fn settle(looked: Result<PostList, CallErr>) -> Result<Look, Memory>
    ensures { IfOk result (λ l. settled looked ≡ Some (as_look l)) }
{
    match looked {
        Ok(posts) if posts.is_empty() => Ok(Look::Empty),
        Ok(posts) => Ok(Look::Asks(posts)),
        Err(CallErr::Code(code)) => Ok(Look::Refused(code)),
        Err(CallErr::Memory) => Err(Memory),
    }
}

/// A put has values, and a get has none.
pub(crate) fn direction_of(values: Option<&Values>) -> Direction
    ensures { result ≡ direction_of (option_copied values.entry) }
{
    match values {
        None => Direction::Get,
        Some(_) => Direction::Put,
    }
}
