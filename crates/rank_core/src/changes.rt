// The calls that change what a rank keeps, and those that only read it. `keep`, `take` and `drop_chosen` say of the rank what its queue
// says of itself, so that the calls of calls.rt see no more of the rank than its state.
ghost use Rattle.std.specs.Prelude.{◌≡◌, ◌<◌, ◌+◌, [], true, length, if◌then◌else◌, ◌==◌, None, Some, option_map, IfOk, IfErr, OnOk, OnErr};
ghost use Rattle.nc_base.specs.declared.answer.Code.TheVariants as code;
ghost use Rattle.nc_base.specs.declared.request.Call.TheVariants as call;
ghost use Rattle.nc_base.specs.declared.header.Dim.{Dim};
ghost use Rattle.nc_base.specs.declared.request.PostKind.TheVariants as kind;
ghost use Rattle.serial_spec.specs.Looks as looks;
ghost use Rattle.serial_spec.specs.RankMachine as machine;
ghost use Rattle.serial_spec.specs.Looks.{Empty};
ghost use Rattle.serial_spec.specs.RankMachine.{posts, buffer_code, bytes_in, wants, dim_at, status_of, with_posted, without_chosen, chosen, batch_chosen, items_of, Waiting};
ghost use Rattle.serial_spec.specs.Refusal.{IsRefusal};
ghost use Rattle.rank_core.specs.OpenOffers.{as_open};
ghost use Rattle.rank_core.specs.Requests.{ArePuts, AreGets, AreTowards, HaveId, AreOnce, direction_of_kind};
ghost use Rattle.rank_core.specs.Stepped.{IsStepTo};

use crate::Rank;
use crate::open_offer::OpenOffer;
use crate::own_answers::answered;
use nc_base::{
    Batch, CallErr, Choice, Code, ItemList, Memory, Offer, OfferKind, PostKind, PostList, Want,
};
use request_queue::Taken;
use std::alloc::Global;

impl<'a> Rank<'a> {
    pub(crate) fn allocator(&self) -> Global {
        self.alloc
    }

    pub(crate) fn is_independent(&self) -> bool
        ensures { result ≡ self.now.state.independent }
    {
        self.independent
    }

    /// Makes an offer, and keeps what the answer to its reply needs.
    pub(crate) fn offer(&mut self, kind: OfferKind, batch: Batch, kept: OpenOffer) -> Want
        requires puts { ArePuts self.old.header self.old.state.known batch.puts }
        requires gets { AreGets self.old.header self.old.state.known batch.gets }
        requires same { kept.gets ≡ batch.gets }
        requires alone { kept.blocking ≡ true → kept.items ≡ [] }
        requires once { AreOnce kept.items }
        ensures step { IsStepTo self.old self.new (length batch.puts + length batch.gets)
            (record self.old.state { «open» = Some (as_open kept) }, wants kind (record { kind = kind; known = self.old.state.known; batch = batch })) result }
        ensures header { self.new.header ≡ self.old.header }
    {
        let offer = Offer {
            kind,
            known: self.known,
            batch,
        };
        self.offered = Some(kept);
        match kind {
            OfferKind::Meet(_) => Want::Meet(offer),
            OfferKind::Solo => Want::Solo(offer),
        }
    }

    /// Posts a null request.
    pub(crate) fn post_null(&mut self, id: u32) -> Result<Want, Memory>
        requires fresh { status_of self.old.state.posted id ≡ None }
        ensures step { IfOk result (IsStepTo self.old self.new 0 (posts self.old.state id kind.Iput Empty)) }
        ensures header { self.new.header ≡ self.old.header }
    {
        self.queue.post_null(id)?;
        Ok(answered(self.alloc, Code::Null))
    }

    /// Keeps a request of these posts, unless the attached buffer refuses it.
    pub(crate) fn keep(&mut self, id: u32, kind: PostKind, asked: PostList) -> Result<(), CallErr>
        requires fresh { status_of self.old.state.posted id ≡ None }
        requires some { 0 < length asked }
        requires ids { HaveId id asked }
        requires posts { AreTowards (direction_of_kind kind) self.old.header self.old.state.known asked }
        ensures ok { OnOk result (self.new.state ≡ with_posted self.old.state id (Waiting kind asked)) }
        ensures right { OnOk result (buffer_code self.old.state kind (bytes_in asked) ≡ code.Ok) }
        ensures err { OnErr result (self.new ≡ self.old) }
        ensures refused { IfErr result (IsRefusal (buffer_code self.old.state kind (bytes_in asked))) }
        ensures header { self.new.header ≡ self.old.header }
    {
        self.queue.post_parts(kind, asked)
    }

    /// Takes the requests that a wait names.
    pub(crate) fn take(&mut self, choice: &Choice) -> Result<Taken, Memory>
        ensures batch { IfOk result (λ taken. taken.batch ≡ batch_chosen (chosen self.old.state choice.now)) }
        ensures items { IfOk result (λ taken. taken.items ≡ items_of self.old.state choice.now) }
        ensures after { OnOk result (self.new.state ≡ without_chosen self.old.state choice.now) }
        ensures header { self.new.header ≡ self.old.header }
        ensures puts { IfOk result (λ taken. ArePuts self.old.header self.old.state.known taken.batch.puts) }
        ensures gets { IfOk result (λ taken. AreGets self.old.header self.old.state.known taken.batch.gets) }
    {
        self.queue.take(self.alloc, choice)
    }

    /// Drops the requests that a cancel names.
    pub(crate) fn drop_chosen(&mut self, choice: &Choice) -> Result<ItemList, Memory>
        ensures items { IfOk result (λ items. items ≡ items_of self.old.state choice.now) }
        ensures after { OnOk result (self.new.state ≡ without_chosen self.old.state choice.now) }
        ensures header { self.new.header ≡ self.old.header }
    {
        self.queue.cancel(self.alloc, choice)
    }

    /// Attaches a buffer of so many bytes, or answers why not.
    pub(crate) fn attach(&mut self, size: u64) -> Result<Want, Memory>
        ensures step { IfOk result (IsStepTo self.old self.new 0 (machine.step self.old.header self.old.state (call.Attach size))) }
        ensures header { self.new.header ≡ self.old.header }
    {
        match self.queue.attach(size) {
            Ok(()) => Ok(answered(self.alloc, Code::Ok)),
            Err(CallErr::Code(code)) => Ok(answered(self.alloc, code)),
            Err(CallErr::Memory) => Err(Memory),
        }
    }

    /// Detaches the buffer, or answers why not.
    pub(crate) fn detach(&mut self) -> Want
        ensures step { IsStepTo self.old self.new 0 (machine.step self.old.header self.old.state call.Detach) result }
        ensures header { self.new.header ≡ self.old.header }
    {
        match self.queue.detach() {
            Ok(()) => answered(self.alloc, Code::Ok),
            Err(code) => answered(self.alloc, code),
        }
    }

    /// The length of the dimension of that name; that of the record dimension is the record count.
    pub(crate) fn dim_len(&self, name: &[u8]) -> Option<u64>
        ensures { result ≡ option_map (λ (d : Dim). if d.len == 0 then self.now.state.known else d.len) (dim_at self.now.header (looks.find_dim self.now.header name.now)) }
    {
        let place = self.names.find_dim(self.header, name)?;
        let dim = &self.header.dims.as_slice()[place];
        if dim.len == 0 {
            Some(self.known)
        } else {
            Some(dim.len)
        }
    }
}
