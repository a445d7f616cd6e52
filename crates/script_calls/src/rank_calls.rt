// The calls of one rank, with the ids that it posts beside them.
ghost use Rattle.std.specs.Prelude.{◌≡◌, ◌++◌, ◌∷◌, [], OnOk, OnErr, IfOk, None, Some, false, length, ◌<◌, ◌≤◌, ◌+◌, ◌^◌};
ghost use Rattle.serial_spec.specs.History.{kinds, kind_of_call};
ghost use Rattle.script_spec.specs.ScriptCalls.{posted, id_of_post, is_posted};
ghost use Rattle.script_calls.specs.Posts.{IsNew};

use indexmap::IndexSet;
use nc_base::{Call, CallList, Items, MeetKind};
use std::alloc::{AllocError, Global};
use std::marker::Model;

#[derive(Drop)]
pub struct RankCalls {
    list: Vec<Call>,
    ids: IndexSet<u32>,
}

impl Model for RankCalls {
    ghost use Rattle.std.specs.Prelude.{◌≡◌, ◌<◌, ◌^◌, List, length};
    ghost use Rattle.script_spec.specs.ScriptCalls.{posted};
    ghost use Rattle.nc_base.specs.declared.request.Call.{Call};

    ghost Value = { List Call };

    ghost view = { λ r. r.list.items };

    ghost invariant = { λ r. (r.ids.keys ≡ posted r.list.items) × (length r.list.items < 2 ^ 32) };
}

fn id_of_post(call: &Call) -> Option<u32>
    ensures { result ≡ id_of_post call.now }
{
    match call {
        Call::Post { id, .. } => Some(*id),
        _ => None,
    }
}

/// Adds an item at the end and its id to the ids, or neither.
fn push_with_id<T: Drop>(
    list: &mut Vec<T>,
    ids: &mut IndexSet<u32>,
    id: u32,
    item: T,
) -> Result<(), AllocError>
    requires { is_posted id ids.old.keys ≡ false }
    ensures items { OnOk result (list.new.items ≡ list.old.items ++ item ∷ []) }
    ensures keys { OnOk result (ids.new.keys ≡ ids.old.keys ++ id ∷ []) }
    ensures same_items { OnErr result (list.new.items ≡ list.old.items) }
    ensures same_keys { OnErr result (ids.new.keys ≡ ids.old.keys) }
{
    list.reserve(1)?;
    ids.insert(id)?;
    list.push_reserved(item);
    Ok(())
}

impl RankCalls {
    /// No call.
    pub fn new(alloc: Global) -> Self
        ensures { result ≡ [] }
    {
        RankCalls {
            list: Vec::new(alloc),
            ids: IndexSet::new(alloc),
        }
    }

    /// Whether an id was posted.
    pub fn has_posted(&self, id: u32) -> bool
        ensures { result ≡ is_posted id (posted self.now) }
    {
        self.ids.contains(&id)
    }

    pub fn as_slice(&self) -> &[Call]
        ensures value { result.now ≡ self.now }
        ensures bound { length result.now < 2 ^ 32 }
    {
        self.list.as_slice()
    }

    pub fn into_list(self) -> CallList
        ensures { result ≡ self }
    {
        let RankCalls { list, .. } = self;
        CallList::from_vec(list)
    }

    fn push_post(&mut self, id: u32, call: Call) -> Result<(), AllocError>
        requires id { id_of_post call ≡ Some id }
        requires new { is_posted id (posted self.old) ≡ false }
        requires room { length self.old + 1 < 2 ^ 32 }
        ensures { OnOk result (self.new ≡ self.old ++ call ∷ []) }
    {
        push_with_id(&mut self.list, &mut self.ids, id, call)?;
        Ok(())
    }

    #[tactic(auto, using(crate::proofs::CallLaws::posted_same))]
    fn push_plain(&mut self, call: Call) -> Result<(), AllocError>
        requires id { id_of_post call ≡ None }
        requires room { length self.old + 1 < 2 ^ 32 }
        ensures { OnOk result (self.new ≡ self.old ++ call ∷ []) }
    {
        self.list.push(call)?;
        Ok(())
    }

    /// Adds a call at the end. A post has a new id. The calls are numbered by 32 bits, so a list of 2^32 calls has no room.
    pub fn push(&mut self, call: Call) -> Result<(), AllocError>
        requires { IsNew (posted self.old) call }
        ensures { OnOk result (self.new ≡ self.old ++ call ∷ []) }
    {
        if self.list.len() >= u32::MAX as usize {
            // A call, which hides from the check of this function how the lists of each kind of call are let go.
            drop(call);
            return Err(AllocError);
        }
        match id_of_post(&call) {
            Some(id) => self.push_post(id, call),
            None => self.push_plain(call),
        }
    }
}

fn kind_of_call(call: &Call) -> Option<MeetKind>
    ensures { result ≡ kind_of_call call.now }
{
    match call {
        Call::Put { all: true, .. } | Call::FillRec { .. } => Some(MeetKind::Put),
        Call::Get { all: true, .. } => Some(MeetKind::Get),
        Call::Wait { all: true, .. } => Some(MeetKind::Wait),
        Call::BeginIndep => Some(MeetKind::Begin),
        Call::EndIndep => Some(MeetKind::End),
        Call::SyncRecords => Some(MeetKind::Sync),
        _ => None,
    }
}

/// Adds the kind of a call where it is collective.
#[tactic(auto, using(crate::proofs::CallLaws::one_kind, crate::proofs::CallLaws::no_kind))]
fn push_kind(list: &mut Items<MeetKind>, call: &Call) -> Result<(), nc_base::Memory>
    ensures value { OnOk result (list.new ≡ list.old ++ kinds (call.now ∷ [])) }
    ensures bound { OnOk result (length list.new ≤ length list.old + 1) }
{
    match kind_of_call(call) {
        Some(kind) => list.push(kind),
        None => Ok(()),
    }
}

/// The kinds of the collective calls, in order.
#[tactic(auto, using(crate::proofs::CallLaws::kinds_more))]
pub fn kinds(alloc: Global, calls: &[Call]) -> Result<Items<MeetKind>, nc_base::Memory>
    ensures value { IfOk result (λ list. list ≡ kinds calls.now) }
    ensures bound { IfOk result (λ list. length list ≤ length calls.now) }
{
    let mut list = Items::new(alloc);
    for call in calls {
        push_kind(&mut list, call)?;
    }
    Ok(list)
}
