// What each call of a rank comes to.
ghost use Rattle.std.specs.Prelude.{◌≡◌, ◌≤◌, ◌<◌, [], true, false, length, None, IfOk};
ghost use Rattle.std.specs.Option.{option_copied};
ghost use Rattle.nc_base.specs.declared.answer.Code.TheVariants as code;
ghost use Rattle.nc_base.specs.declared.request.Call.TheVariants as call;
ghost use Rattle.nc_base.specs.declared.step.OfferKind.TheVariants as offer;
ghost use Rattle.serial_spec.specs.Looks as looks;
ghost use Rattle.serial_spec.specs.RankMachine as machine;
ghost use Rattle.serial_spec.specs.Looks.{direction_of, Asks};
ghost use Rattle.serial_spec.specs.RankMachine.{blocks, posts, waits, offers, no_posts, fills_record, status_of, values_of_post};
ghost use Rattle.rank_core.specs.Looked.{as_look, posts_of};
ghost use Rattle.rank_core.specs.Requests.{AreTowards, HaveId, direction_of_kind};
ghost use Rattle.rank_core.specs.Stepped.{most_of, offers_towards, IsStepTo};

use crate::Rank;
use crate::look::{Look, direction_of};
use crate::open_offer::OpenOffer;
use crate::own_answers::{answer, answered};
use nc_base::{
    Answer, Batch, CallErr, Choice, Code, Direction, Given, ItemList, MeetKind, Memory, OfferKind,
    PostKind, PostList, Values, Want,
};
use request_queue::Taken;

impl<'a> Rank<'a> {
    /// A blocking put, which has values, or a blocking get.
    pub(crate) fn block(
        &mut self,
        all: bool,
        kind: MeetKind,
        name: &[u8],
        given: &Given,
        values: Option<&Values>,
    ) -> Result<Want, Memory>
        ensures step { IfOk result (IsStepTo self.old self.new (most_of given.now)
            (blocks self.old.header self.old.state all kind name.now given.now (option_copied values.entry))) }
        ensures header { self.new.header ≡ self.old.header }
    {
        match (all, self.is_independent()) {
            (true, false) => self.block_by(OfferKind::Meet(kind), name, given, values),
            (false, true) => self.block_by(OfferKind::Solo, name, given, values),
            (true, true) => Ok(self.meet(kind, Code::EIndep, true, true)),
            (false, false) => Ok(answered(self.allocator(), Code::ENotIndep)),
        }
    }

    fn block_by(
        &mut self,
        kind: OfferKind,
        name: &[u8],
        given: &Given,
        values: Option<&Values>,
    ) -> Result<Want, Memory>
        ensures step { IfOk result (IsStepTo self.old self.new (most_of given.now)
            (offers_towards self.old.state kind (direction_of (option_copied values.entry))
            (looks.look self.old.header self.old.state.known 0 name.now given.now (option_copied values.entry)))) }
        ensures header { self.new.header ≡ self.old.header }
    {
        let look = self.look(0, name, given, values)?;
        self.offer_look(kind, direction_of(values), look)
    }

    /// The filling of a rank's share of a record.
    pub(crate) fn fill_record(
        &mut self,
        name: &[u8],
        number: u64,
        share: u32,
        of: u32,
    ) -> Result<Want, Memory>
        requires share { share < of }
        requires ranks { of ≤ 64 }
        ensures step { IfOk result (IsStepTo self.old self.new 65 (fills_record self.old.state (looks.look_fill self.old.header name.now number share of))) }
        ensures header { self.new.header ≡ self.old.header }
    {
        if self.is_independent() {
            return Ok(self.meet(MeetKind::Put, Code::EIndep, true, true));
        }
        let look = self.look_share(name, number, share, of)?;
        self.offer_look(OfferKind::Meet(MeetKind::Put), Direction::Put, look)
    }

    /// Offers what a blocking call comes to. One that is refused offers nothing, and keeps its code.
    fn offer_look(
        &mut self,
        kind: OfferKind,
        direction: Direction,
        look: Look,
    ) -> Result<Want, Memory>
        requires posts { AreTowards direction self.old.header self.old.state.known (posts_of look) }
        ensures step { IfOk result (IsStepTo self.old self.new (length (posts_of look)) (offers_towards self.old.state kind direction (as_look look))) }
        ensures header { self.new.header ≡ self.old.header }
    {
        let alloc = self.allocator();
        let (code, posts) = match look {
            Look::Refused(code) => (code, PostList::new(alloc)),
            Look::Empty => (Code::Ok, PostList::new(alloc)),
            Look::Asks(posts) => (Code::Ok, posts),
        };
        let batch = match direction {
            Direction::Put => Batch {
                puts: posts,
                gets: PostList::new(alloc),
            },
            Direction::Get => Batch {
                puts: PostList::new(alloc),
                gets: posts,
            },
        };
        let open = OpenOffer {
            code,
            items: ItemList::new(alloc),
            gets: batch.gets.clone(alloc)?,
            blocking: true,
            independent: self.is_independent(),
        };
        Ok(self.offer(kind, batch, open))
    }

    /// Posts a request.
    pub(crate) fn post(
        &mut self,
        id: u32,
        kind: PostKind,
        name: &[u8],
        given: &Given,
        values: &Values,
    ) -> Result<Want, Memory>
        requires fresh { status_of self.old.state.posted id ≡ None }
        ensures step { IfOk result (IsStepTo self.old self.new (most_of given.now)
            (posts self.old.state id kind (looks.look self.old.header self.old.state.known id name.now given.now (values_of_post kind values.now)))) }
        ensures header { self.new.header ≡ self.old.header }
    {
        match self.look(id, name, given, values_of_post(kind, values))? {
            Look::Refused(code) => Ok(answered(self.allocator(), code)),
            Look::Empty => self.post_null(id),
            Look::Asks(posts) => self.post_asked(id, kind, posts),
        }
    }

    fn post_asked(&mut self, id: u32, kind: PostKind, asked: PostList) -> Result<Want, Memory>
        requires fresh { status_of self.old.state.posted id ≡ None }
        requires some { 0 < length asked }
        requires ids { HaveId id asked }
        requires posts { AreTowards (direction_of_kind kind) self.old.header self.old.state.known asked }
        ensures step { IfOk result (IsStepTo self.old self.new (length asked) (posts self.old.state id kind (Asks asked))) }
        ensures header { self.new.header ≡ self.old.header }
    {
        match self.keep(id, kind, asked) {
            Ok(()) => Ok(answered(self.allocator(), Code::Ok)),
            Err(CallErr::Code(code)) => Ok(answered(self.allocator(), code)),
            Err(CallErr::Memory) => Err(Memory),
        }
    }

    /// A collective wait.
    pub(crate) fn wait_all(&mut self, choice: &Choice) -> Result<Want, Memory>
        ensures step { IfOk result (IsStepTo self.old self.new 0 (machine.step self.old.header self.old.state (call.Wait true choice.now))) }
        ensures header { self.new.header ≡ self.old.header }
    {
        if self.is_independent() {
            return Ok(self.meet(MeetKind::Wait, Code::EIndep, false, true));
        }
        self.wait(OfferKind::Meet(MeetKind::Wait), choice)
    }

    /// A wait that is not collective.
    pub(crate) fn wait_alone(&mut self, choice: &Choice) -> Result<Want, Memory>
        ensures step { IfOk result (IsStepTo self.old self.new 0 (machine.step self.old.header self.old.state (call.Wait false choice.now))) }
        ensures header { self.new.header ≡ self.old.header }
    {
        if !self.is_independent() {
            return Ok(answered(self.allocator(), Code::ENotIndep));
        }
        self.wait(OfferKind::Solo, choice)
    }

    fn wait(&mut self, kind: OfferKind, choice: &Choice) -> Result<Want, Memory>
        ensures step { IfOk result (IsStepTo self.old self.new 0 (waits self.old.state kind choice.now)) }
        ensures header { self.new.header ≡ self.old.header }
    {
        let Taken { batch, items } = self.take(choice)?;
        let open = OpenOffer {
            code: Code::Ok,
            items,
            gets: batch.gets.clone(self.allocator())?,
            blocking: false,
            independent: self.is_independent(),
        };
        Ok(self.offer(kind, batch, open))
    }

    /// Drops requests. Each item tells whether the request waited.
    pub(crate) fn cancel(&mut self, choice: &Choice) -> Result<Want, Memory>
        ensures step { IfOk result (IsStepTo self.old self.new 0 (machine.step self.old.header self.old.state (call.Cancel choice.now))) }
        ensures header { self.new.header ≡ self.old.header }
    {
        let items = self.drop_chosen(choice)?;
        Ok(Want::Answered(Answer {
            code: Code::Ok,
            pair: None,
            number: None,
            values: None,
            items,
        }))
    }

    /// Begins independent mode, or meets to be refused.
    pub(crate) fn begin_independent(&mut self) -> Want
        ensures step { IsStepTo self.old self.new 0 (machine.step self.old.header self.old.state call.BeginIndep) result }
        ensures header { self.new.header ≡ self.old.header }
    {
        let code = if self.is_independent() {
            Code::EIndep
        } else {
            Code::Ok
        };
        self.meet(MeetKind::Begin, code, false, true)
    }

    /// Ends independent mode, or meets to be refused.
    pub(crate) fn end_independent(&mut self) -> Want
        ensures step { IsStepTo self.old self.new 0 (machine.step self.old.header self.old.state call.EndIndep) result }
        ensures header { self.new.header ≡ self.old.header }
    {
        let code = if self.is_independent() {
            Code::Ok
        } else {
            Code::ENotIndep
        };
        self.meet(MeetKind::End, code, false, false)
    }

    /// Learns the record count of the file.
    pub(crate) fn sync_records(&mut self) -> Want
        ensures step { IsStepTo self.old self.new 0 (machine.step self.old.header self.old.state call.SyncRecords) result }
        ensures header { self.new.header ≡ self.old.header }
    {
        let independent = self.is_independent();
        self.meet(MeetKind::Sync, Code::Ok, false, independent)
    }

    /// A meeting without a post.
    fn meet(&mut self, kind: MeetKind, code: Code, blocking: bool, independent: bool) -> Want
        ensures step { IsStepTo self.old self.new 0 (offers self.old.state (offer.Meet kind) no_posts
            (record { code = code; items = []; gets = []; blocking = blocking; independent = independent })) result }
        ensures header { self.new.header ≡ self.old.header }
    {
        let alloc = self.allocator();
        let batch = Batch {
            puts: PostList::new(alloc),
            gets: PostList::new(alloc),
        };
        let open = OpenOffer {
            code,
            items: ItemList::new(alloc),
            gets: PostList::new(alloc),
            blocking,
            independent,
        };
        self.offer(OfferKind::Meet(kind), batch, open)
    }

    /// The length of a dimension; that of the record dimension is the record count that the rank knows.
    pub(crate) fn inquire(&mut self, name: &[u8]) -> Want
        ensures step { IsStepTo self.old self.new 0 (machine.step self.old.header self.old.state (call.InqDim name.now)) result }
        ensures header { self.new.header ≡ self.old.header }
    {
        let alloc = self.allocator();
        match self.dim_len(name) {
            None => answered(alloc, Code::EBadDim),
            Some(len) => {
                let mut told = answer(alloc, Code::Ok);
                told.number = Some(len);
                Want::Answered(told)
            }
        }
    }
}

/// The values of a post, which a get has not.
fn values_of_post(kind: PostKind, values: &Values) -> Option<&Values>
    ensures { option_copied result ≡ values_of_post kind values.now }
{
    match kind {
        PostKind::Iget => None,
        PostKind::Iput | PostKind::Bput => Some(values),
    }
}
