// The queue.
ghost use Rattle.std.specs.Prelude.{◌≡◌, ◌+◌, ◌<◌, ◌≤◌, ◌∷◌, ◌++◌, [], length, Some, None, IfOk, IfErr, OnOk, OnErr};
ghost use Rattle.nc_base.specs.declared.answer.Code.TheVariants as code;
ghost use Rattle.nc_base.specs.declared.request.PostKind.TheVariants as kind;
ghost use Rattle.serial_spec.specs.RankMachine.{status_of, buffer_code, bytes_in, attach_code, detach_code, pending, Waiting, NullRequest};
ghost use Rattle.std.specs.Prelude.{vec_len, min, ◌-◌, ◌^◌, false};
ghost use Rattle.std.specs.Vec.{vec_capacity};
ghost use Rattle.request_queue.specs.Kept.{is_buffered, claimed, claim_code, freed, HasUsed};
ghost use Rattle.request_queue.specs.Queued.{rank_with, with_request, id_of, IsCode};
ghost use Rattle.serial_spec.specs.Refusal.{IsRefusal};

use crate::requests::Requests;
use crate::room::Room;
use nc_base::{CallErr, Code, Memory, Post, PostKind, PostList};
use std::alloc::Global;
use std::collections::BTreeSet;
use std::marker::Model;

/// An id that was posted.
#[derive(Clone, Copy, Debug)]
pub(crate) struct Posting {
    pub(crate) id: u32,
    /// Whether the request had no element.
    pub(crate) null: bool,
}

/// A request that waits: its posts, one after another.
#[derive(Drop)]
pub(crate) struct Request {
    pub(crate) id: u32,
    pub(crate) kind: PostKind,
    pub(crate) posts: PostList,
}

/// The posted requests of a rank, and the account of its attached buffer.
#[derive(Drop)]
pub struct Queue {
    alloc: Global,
    /// In order of posting.
    pub(crate) history: Vec<Posting>,
    /// The ids of the requests without an element.
    pub(crate) nulls: BTreeSet<u32>,
    pub(crate) waiting: Requests,
    /// How many of these are bputs.
    pub(crate) buffered: usize,
    pub(crate) room: Option<Room>,
}

impl Model for Queue {
    ghost use Rattle.request_queue.specs.Queued.{Queued};

    ghost Value = { Queued };

    ghost use Rattle.request_queue.specs.Kept.{queued, IsKept};

    ghost view = { queued };

    ghost invariant = { IsKept };
}

impl Queue {
    /// A queue with no request, and no buffer.
    pub fn new(alloc: Global) -> Self
        ensures { result ≡ record { posted = []; attached = None } }
    {
        Queue {
            alloc,
            history: Vec::new(alloc),
            nulls: BTreeSet::new(alloc),
            waiting: Requests::new(alloc),
            buffered: 0,
            room: None,
        }
    }

    /// Posts a request of one region under its id. `ENullABuf` for a bput without a buffer, `EInsuffBuf` for one
    /// that has more bytes than are left there.
    pub fn post(&mut self, kind: PostKind, post: Post) -> Result<(), CallErr>
        requires fresh { status_of self.old.posted post.id ≡ None }
        ensures ok { OnOk result (self.new ≡ with_request self.old post.id (Waiting kind (post ∷ []))) }
        ensures right { OnOk result (buffer_code (rank_with self.old) kind (bytes_in (post ∷ [])) ≡ code.Ok) }
        ensures err { OnErr result (self.new ≡ self.old) }
        ensures refused { IfErr result (IsRefusal (buffer_code (rank_with self.old) kind (bytes_in (post ∷ [])))) }
    {
        let mut posts = PostList::new(self.alloc);
        posts.push(post)?;
        self.post_parts(kind, posts)
    }

    /// Posts a request of many regions, whose posts have one id. Refusals as for [`Queue::post`], by the bytes of
    /// all posts together.
    pub fn post_parts(&mut self, kind: PostKind, posts: PostList) -> Result<(), CallErr>
        requires some { 0 < length posts }
        requires fresh { status_of self.old.posted (id_of posts) ≡ None }
        ensures ok { OnOk result (self.new ≡ with_request self.old (id_of posts) (Waiting kind posts)) }
        ensures right { OnOk result (buffer_code (rank_with self.old) kind (bytes_in posts) ≡ code.Ok) }
        ensures err { OnErr result (self.new ≡ self.old) }
        ensures refused { IfErr result (IsRefusal (buffer_code (rank_with self.old) kind (bytes_in posts))) }
    {
        let id = posts.as_slice()[0].id;
        match kind {
            PostKind::Bput => self.push_buffered(id, posts),
            PostKind::Iput | PostKind::Iget => Ok(self.push(Request { id, kind, posts })?),
        }
    }

    /// Posts a null request: one of a region without an element.
    pub fn post_null(&mut self, id: u32) -> Result<(), Memory>
        requires fresh { status_of self.old.posted id ≡ None }
        ensures ok { OnOk result (self.new ≡ with_request self.old id NullRequest) }
        ensures err { OnErr result (self.new ≡ self.old) }
    {
        self.history.reserve(1)?;
        self.nulls.insert(id)?;
        self.history.push_reserved(Posting { id, null: true });
        Ok(())
    }

    /// Attaches a buffer of `size` bytes for the bputs, 1 to 2^26. `EPrevAttachBuf` where one is attached; then
    /// `ENullBuf` for 0 bytes, and `ETooLarge` for more than 2^26. That order is this project's.
    pub fn attach(&mut self, size: u64) -> Result<(), CallErr>
        ensures ok { OnOk result (self.new ≡ record self.old { attached = Some size }) }
        ensures right { OnOk result (attach_code self.old.attached size ≡ code.Ok) }
        ensures err { OnErr result (self.new ≡ self.old) }
        ensures refused { IfErr result (IsCode (attach_code self.old.attached size)) }
    {
        if self.room.is_some() {
            return Err(CallErr::Code(Code::EPrevAttachBuf));
        }
        match Room::new(size) {
            Ok(room) => {
                self.room = Some(room);
                Ok(())
            }
            Err(code) => Err(CallErr::Code(code)),
        }
    }

    /// Detaches the buffer. `ENullABuf` where none is attached, `EPendingBput` where a bput waits.
    pub fn detach(&mut self) -> Result<(), Code>
        ensures ok { OnOk result (self.new ≡ record self.old { attached = None }) }
        ensures right { OnOk result (detach_code (rank_with self.old) ≡ code.Ok) }
        ensures err { OnErr result (self.new ≡ self.old) }
        ensures refused { IfErr result (λ refusal. (refusal ≡ detach_code (rank_with self.old)) × (refusal ≡ code.Ok → ⊥)) }
    {
        if self.room.is_none() {
            return Err(Code::ENullABuf);
        }
        if self.buffered > 0 {
            return Err(Code::EPendingBput);
        }
        self.room = None;
        Ok(())
    }

    /// The requests that wait.
    pub fn pending(&self) -> u64
        ensures { result ≡ pending (rank_with self.now) }
    {
        self.waiting.len() as u64
    }

    fn push(&mut self, request: Request) -> Result<(), Memory>
        requires fresh { status_of self.old.posted request.id ≡ None }
        requires unbuffered { is_buffered request ≡ false }
        ensures ok { OnOk result (self.new ≡ with_request self.old request.id (Waiting request.kind request.posts)) }
        ensures err { OnErr result (self.new ≡ self.old) }
    {
        make_room(&mut self.history)?;
        let id = request.id;
        self.waiting.push(request)?;
        self.history.push_reserved(Posting { id, null: false });
        Ok(())
    }

    fn push_buffered(&mut self, id: u32, posts: PostList) -> Result<(), CallErr>
        requires fresh { status_of self.old.posted id ≡ None }
        ensures ok { OnOk result (self.new ≡ with_request self.old id (Waiting kind.Bput posts)) }
        ensures right { OnOk result (buffer_code (rank_with self.old) kind.Bput (bytes_in posts) ≡ code.Ok) }
        ensures err { OnErr result (self.new ≡ self.old) }
        ensures refused { IfErr result (IsRefusal (buffer_code (rank_with self.old) kind.Bput (bytes_in posts))) }
    {
        make_room(&mut self.history)?;
        let len = len_of(posts.as_slice());
        match claim(&mut self.room, len) {
            Ok(()) => {}
            Err(code) => return Err(CallErr::Code(code)),
        }
        let kind = PostKind::Bput;
        match self.waiting.push(Request { id, kind, posts }) {
            Ok(()) => {}
            Err(Memory) => {
                release(&mut self.room, len);
                return Err(CallErr::Memory);
            }
        }
        self.buffered += 1;
        self.history.push_reserved(Posting { id, null: false });
        Ok(())
    }
}

/// Room for one more.
fn make_room(history: &mut Vec<Posting>) -> Result<(), Memory>
    ensures items { history.new.items ≡ history.old.items }
    ensures room { OnOk result (vec_len history.new < vec_capacity history.new) }
{
    Ok(history.reserve(1)?)
}

/// The bytes of the posts, or 2^64 - 1 where they have more.
pub(crate) fn len_of(posts: &[Post]) -> u64
    ensures { result ≡ min (bytes_in posts.now) (2 ^ 64 - 1) }
{
    let mut len: u64 = 0;
    for post in posts {
        len = len.saturating_add(post.bytes.len() as u64);
    }
    len
}

fn claim(room: &mut Option<Room>, len: u64) -> Result<(), Code>
    ensures ok { OnOk result (room.new ≡ claimed room.old len) }
    ensures right { OnOk result (claim_code room.old len ≡ code.Ok) }
    ensures err { OnErr result (room.new ≡ room.old) }
    ensures refused { IfErr result (λ refusal. (refusal ≡ claim_code room.old len) × (refusal ≡ code.Ok → ⊥)) }
{
    match room {
        None => Err(Code::ENullABuf),
        Some(room) => room.claim(len),
    }
}

/// Gives so many bytes back.
pub(crate) fn release(room: &mut Option<Room>, len: u64)
    requires { HasUsed room.old len }
    ensures { room.new ≡ freed room.old len }
{
    if let Some(room) = room {
        room.release(len);
    }
}
