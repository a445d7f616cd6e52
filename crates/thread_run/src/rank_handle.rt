// One rank's thread, which waits for its word, and what the calling thread has of it.
ghost use Rattle.std.specs.Prelude.{◌≡◌, ◌<◌, [], true, IfSome};
ghost use Rattle.rank_core.specs.Indexed.{IsIndexOf};
ghost use Rattle.serial_spec.specs.SoundHeaders.{is_sound};
ghost use Rattle.serial_spec.specs.Lawful.{is_lawful};
ghost use Rattle.thread_run.specs.RankHandle.{HasReturned, IsFresh, IsOf, IsRankHandle};

use crate::lent::{Lent, Run};
use crate::rank_side::attend;
use nc_base::{Header, OwnerItem, RankEnd, Script};
use nc_outside::Gate;
use piece_exchange::Tools;
use rank_core::Names;
use rank_items::SentItem;
use ruled_line::{InPut, LinePut, LineTake, line};
use std::snapshot::Snapshot;
use std::sync::Wait;
use std::thread::{Promise, PromisedHandle, Scope, Threads};

/// The word that a rank's thread waits for.
#[derive(Drop)]
pub(crate) enum Word {
    Go,
    Stop,
}

/// What a rank's thread owns: the line of its word, its end of the inbox, and the line of what comes back to it.
#[derive(Drop)]
pub(crate) struct Ends {
    pub word: LineTake<Word>,
    pub out: InPut<SentItem>,
    pub back: LineTake<OwnerItem>,
}

/// What a rank's thread gives back. Where it was told to stop there is no end of its rank.
#[derive(Drop)]
pub(crate) struct Returned {
    pub ends: Ends,
    pub end: Option<RankEnd>,
}

/// A rank's thread attends by the ends that it was given, or leaves them as they are, and gives them back.
#[derive(Drop)]
pub(crate) struct Part<'a> {
    header: Snapshot<&'a Header>,
    script: Snapshot<&'a Script>,
    ends: Snapshot<Ends>,
}

impl<'a> Promise<Returned> for Part<'a> {
    ghost kept_by = { λ p r. HasReturned p.header.value.now p.script.value.now p.ends.value r };
}

/// What the calling thread has of a rank's thread.
#[derive(Drop)]
pub(crate) struct RankHandle<'a> {
    pub word: LinePut<Word>,
    pub child: PromisedHandle<Returned, Part<'a>>,
}

/// Starts a rank's thread, and makes the line of what goes back to it. None where it can't be started.
pub(crate) fn start<'s, E, G: Gate, R: Threads + Wait + Sync>(
    scope: &'s Scope<'s, E>,
    lent: &Lent<'s, R, G>,
    out: InPut<SentItem>,
) -> Option<(RankHandle<'s>, LinePut<OwnerItem>)>
    requires names { IsIndexOf lent.now.run.now.header.now lent.now.names.now }
    requires number { out.number < lent.now.run.now.script.now.ranks }
    requires put { out.items ≡ [] }
    ensures of { IfSome result (λ pair. IsOf lent.now.run.now.header.now lent.now.run.now.script.now pair.0) }
    ensures handle { IfSome result (λ pair. IsRankHandle out.of out.number [] pair.0 pair.1) }
    ensures empty { IfSome result (λ pair. pair.1.items ≡ []) }
{
    let alloc = lent.run.tools.alloc;
    let Ok((go, word)) = line::<Word>(alloc, 1) else {
        drop(out);
        return None;
    };
    let Ok((put, back)) = line::<OwnerItem>(alloc, 1) else {
        drop(out);
        drop(word);
        drop(go);
        return None;
    };
    let Some(child) = spawn(scope, lent, Ends { word, out, back }) else {
        drop(put);
        drop(go);
        return None;
    };
    Some((RankHandle { word: go, child }, put))
}

/// Starts a rank's thread with these ends.
fn spawn<'s, E, G: Gate, R: Threads + Wait + Sync>(
    scope: &'s Scope<'s, E>,
    lent: &Lent<'s, R, G>,
    ends: Ends,
) -> Option<PromisedHandle<Returned, Part<'s>>>
    requires names { IsIndexOf lent.now.run.now.header.now lent.now.names.now }
    requires number { ends.out.number < lent.now.run.now.script.now.ranks }
    requires fresh { IsFresh ends }
    ensures header { IfSome result (λ child. child.promise.header.value.now ≡ lent.now.run.now.header.now) }
    ensures script { IfSome result (λ child. child.promise.script.value.now ≡ lent.now.run.now.script.now) }
    ensures ends { IfSome result (λ child. child.promise.ends.value ≡ ends) }
{
    let Lent { run, names } = *lent;
    let Run {
        tools,
        header,
        script,
    } = *run;
    let Tools { rt, alloc, gate } = *tools;
    let part = Part {
        header: Snapshot::of(&header),
        script: Snapshot::of(&script),
        ends: Snapshot::of(&ends),
    };
    let work = move || -> Returned
        requires { (is_sound header.now ≡ true) × (is_lawful script.now ≡ true) × IsIndexOf header.now names.now × (ends.out.number < script.now.ranks) × IsFresh ends }
    {
        let tools = Tools { rt, alloc, gate };
        take_part(&tools, header, names, script, ends)
    };
    scope.spawn_with(part, work).ok()
}

/// What a rank's thread runs.
fn take_part<R: Wait, G: Gate>(
    tools: &Tools<R, G>,
    header: &Header,
    names: &Names,
    script: &Script,
    ends: Ends,
) -> Returned
    requires sound { is_sound header.now ≡ true }
    requires lawful { is_lawful script.now ≡ true }
    requires names { IsIndexOf header.now names.now }
    requires number { ends.out.number < script.now.ranks }
    requires fresh { IsFresh ends }
    ensures { HasReturned header.now script.now ends result }
{
    let Ends {
        mut word,
        mut out,
        mut back,
    } = ends;
    let Tools { rt, alloc, gate } = *tools;
    let end = match word.take(rt) {
        Word::Go => Some(attend(rt, alloc, header, names, script, &mut out, &mut back, gate)),
        Word::Stop => None,
    };
    Returned {
        ends: Ends { word, out, back },
        end,
    }
}
