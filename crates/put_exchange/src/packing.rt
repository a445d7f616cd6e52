// Packing: all messages of a domain, before its helper is asked.
ghost use Rattle.std.specs.Prelude.{◌≡◌, ◌++◌, ◌+◌, ◌^◌, ◌<◌, ◌≤◌, ◌∷◌, [], filter, length, map, min, true, OnOk, IfOk};
ghost use Rattle.std.specs.List.{range_with_len};
ghost use Rattle.nc_base.specs.declared.plan.Owned.{Owned};
ghost use Rattle.overlay_laws.specs.Entries.{In};
ghost use Rattle.overlay_laws.specs.Lines.{extents, EndBelow};
ghost use Rattle.aggregator_rounds.specs.ToldWindows.{told_window};
ghost use Rattle.aggregator_rounds.specs.Left.{IsPast};
ghost use Rattle.exchange_crew.specs.Cursor.{IsAt};
ghost use Rattle.exchange_crew.specs.Pieces.{meets, ArePieces, IsPiece};
ghost use Rattle.exchange_crew.specs.Plan.{planned_turns, IsPlanned};
ghost use Rattle.exchange_crew.specs.Turns.{source_of, turns_ahead, IsTurnWalk};
ghost use Rattle.put_exchange.specs.Dues.{counts_due, turns_due};
ghost use Rattle.put_exchange.specs.Feeds.{sent_in};
ghost use Rattle.put_exchange.specs.Sent.{binned, cells_of, cut_in, cuts_by, has_pieces, messages_in, planned_counts, planned_messages, posts_of, sent, AreCuts};

use crate::laying::Due;
use crate::message::{Cut, Message};
use exchange_crew::{PutPlan, SharedJob, Turn, TurnWalk};
use file_domains::Window;
use nc_base::{Batch, Extent, Memory, Owned};
use std::alloc::Global;
use std::collections::VecDeque;

/// The messages of one window, by rank.
#[derive(Drop)]
pub(crate) struct Round {
    pub number: u64,
    pub messages: Vec<Message>,
}

/// All messages of a domain, window after window, and what is due in each.
#[derive(Drop)]
pub(crate) struct Mail {
    pub rounds: VecDeque<Round>,
    pub dues: Vec<Due>,
}

/// What of the sorted entries packing has still to come to: from the first one on that does not end by this place.
#[derive(Clone, Copy, Drop)]
pub(crate) struct Ahead<'a> {
    pub place: u64,
    pub entries: &'a [Owned],
}

/// Packs the messages of a domain.
pub(crate) fn mail_of<'a>(
    alloc: Global,
    plan: &PutPlan<'a>,
    domain: Extent,
    ahead: &mut Ahead<'a>,
) -> Result<Mail, Memory>
    requires plan { IsPlanned plan.now }
    requires past { IsPast ahead.old.place plan.now.list.now ahead.old.entries.now }
    ensures past { IsPast ahead.new.place plan.now.list.now ahead.new.entries.now }
    ensures messages { IfOk result (λ mail. sent_in mail.rounds.items ≡ planned_messages plan.now domain) }
    ensures windows { IfOk result (λ mail. turns_due mail.dues.items ≡ planned_turns plan.now domain) }
    ensures counts { IfOk result (λ mail. counts_due mail.dues.items ≡ planned_counts plan.now domain) }
{
    let mut mail = Mail {
        rounds: VecDeque::new(alloc),
        dues: Vec::new(alloc),
    };
    let mut walk = walk_of(plan, domain, ahead);
    'turns: while let Some(turn) = walk.next_turn() {
        let window = turn.window;
        let messages = messages_of(alloc, plan.job, &turn)?;
        mail.add(window, messages)?;
        *ahead = Ahead {
            place: window.hull.at + window.hull.len,
            entries: walk.entries,
        };
    }
    Ok(mail)
}

impl Mail {
    // One window more, with its messages.
    fn add(&mut self, window: Window, messages: Vec<Message>) -> Result<(), Memory>
        ensures dues { OnOk result (self.new.dues.items ≡ self.old.dues.items ++ record { window = window; count = length messages.items } ∷ []) }
        ensures rounds { OnOk result (self.new.rounds.items ≡ self.old.rounds.items ++ record { number = window.round; messages = messages } ∷ []) }
    {
        let count = messages.len();
        self.dues.push(Due { window, count })?;
        self.rounds.push_back(Round {
            number: window.round,
            messages,
        })?;
        Ok(())
    }
}

// The walk over the windows of a domain, which goes on from where packing has come to. It begins anew where the domain begins before that.
fn walk_of<'a>(plan: &PutPlan<'a>, domain: Extent, ahead: &Ahead<'a>) -> TurnWalk<'a>
    requires plan { IsPlanned plan.now }
    requires past { IsPast ahead.now.place plan.now.list.now ahead.now.entries.now }
    ensures ready { IsTurnWalk result }
    ensures windows { turns_ahead result.windows ≡ planned_turns plan.now domain }
    ensures at { IsAt plan.now.list.now (min plan.now.hints.now.cb_buffer domain.len) (turns_ahead result.windows) result.entries.now }
{
    let walk = TurnWalk::new(plan, domain);
    if domain.at < ahead.place {
        return walk;
    }
    TurnWalk {
        windows: walk.windows,
        entries: ahead.entries,
    }
}

// The messages of a window: one for each rank that has a piece in it.
fn messages_of(alloc: Global, job: &SharedJob, turn: &Turn) -> Result<Vec<Message>, Memory>
    requires ends { EndBelow (2 ^ 62) (extents turn.now.entries.now) }
    requires hull { turn.now.window.hull.at + turn.now.window.hull.len < 2 ^ 62 }
    requires pieces { ArePieces (source_of job.now.batches) turn.now.entries.now }
    requires below { (o : Owned) → In turn.now.entries.now o → o.rank < length job.now.batches }
    requires few { length job.now.batches ≤ 64 }
    ensures { IfOk result (λ messages. messages.items ≡ messages_in (source_of job.now.batches) (length job.now.batches) turn.now.entries.now (told_window turn.now.window)) }
{
    let batches = job.job().batches.as_slice();
    let ranks = batches.len();
    let share = turn.entries.len() / ranks.max(1) + 1;
    let mut bins = empty_bins(alloc, ranks, share)?;
    fill_bins(batches, turn, bins.as_mut_slice())?;
    with_bins(alloc, job, turn, bins)
}

// A list without a cut for each rank, each with room for so many.
fn empty_bins(alloc: Global, ranks: usize, room: usize) -> Result<Vec<Vec<Cut>>, Memory>
    ensures { IfOk result (λ bins. binned bins.items ≡ map (λ _. []) (range_with_len 0 ranks)) }
{
    let mut bins = Vec::with_capacity(alloc, ranks)?;
    'ranks: while bins.len() < ranks {
        bins.push_reserved(Vec::with_capacity(alloc, room)?);
    }
    Ok(bins)
}

// Puts each cut of the window into the list of its rank.
fn fill_bins(batches: &[Batch], turn: &Turn, bins: &mut [Vec<Cut>]) -> Result<(), Memory>
    requires ends { EndBelow (2 ^ 62) (extents turn.now.entries.now) }
    requires hull { turn.now.window.hull.at + turn.now.window.hull.len < 2 ^ 62 }
    requires pieces { ArePieces (source_of batches.now) turn.now.entries.now }
    requires below { (o : Owned) → In turn.now.entries.now o → o.rank < length bins.old }
    requires empty { binned bins.old ≡ map (λ _. []) (range_with_len 0 (length bins.old)) }
    ensures { OnOk result (binned bins.new ≡ map (λ r. cuts_by (told_window turn.now.window) turn.now.entries.now r) (range_with_len 0 (length bins.old))) }
{
    let hull = turn.window.hull;
    for entry in turn.entries {
        if has_piece(hull, entry) {
            let _bytes = post_bytes(batches, entry);
            let bin = &mut bins[entry.rank as usize];
            bin.push(cut_of(hull, entry))?;
        }
    }
    Ok(())
}

// The bytes of the post that an entry is of.
fn post_bytes<'a>(batches: &'a [Batch], entry: &Owned) -> &'a [u8]
    requires { IsPiece (source_of batches.now) entry.now }
    ensures { result.now ≡ source_of batches.now entry.now.rank entry.now.slot }
{
    let puts = batches[entry.rank as usize].puts.as_slice();
    puts[entry.slot as usize].bytes.as_slice()
}

// Whether an entry has a byte in a hull.
fn has_piece(hull: Extent, entry: &Owned) -> bool
    requires hull { hull.at + hull.len < 2 ^ 62 }
    requires end { entry.now.extent.at + entry.now.extent.len < 2 ^ 62 }
    ensures { result ≡ meets hull.at (hull.at + hull.len) entry.now }
{
    let Extent { at, len } = entry.extent;
    at < hull.at + hull.len && hull.at < at + len
}

// The part of an entry that lies in a hull, with which it meets.
fn cut_of(hull: Extent, entry: &Owned) -> Cut
    requires hull { hull.at + hull.len < 2 ^ 62 }
    requires end { entry.now.extent.at + entry.now.extent.len < 2 ^ 62 }
    requires from { entry.now.from + entry.now.extent.len < 2 ^ 64 }
    requires meets { meets hull.at (hull.at + hull.len) entry.now ≡ true }
    ensures { result ≡ cut_in hull.at (hull.at + hull.len) entry.now }
{
    let at = entry.extent.at.max(hull.at);
    let end = (entry.extent.at + entry.extent.len).min(hull.at + hull.len);
    Cut {
        at,
        slot: entry.slot,
        from: entry.from + (at - entry.extent.at),
        len: end - at,
    }
}

// A message for each rank that has a cut in the window.
fn with_bins(
    alloc: Global,
    job: &SharedJob,
    turn: &Turn,
    bins: Vec<Vec<Cut>>,
) -> Result<Vec<Message>, Memory>
    requires pieces { ArePieces (source_of job.now.batches) turn.now.entries.now }
    requires few { length job.now.batches ≤ 64 }
    requires bins { binned bins.items ≡ map (λ r. cuts_by (told_window turn.now.window) turn.now.entries.now r) (range_with_len 0 (length job.now.batches)) }
    ensures { IfOk result (λ messages. messages.items ≡ messages_in (source_of job.now.batches) (length job.now.batches) turn.now.entries.now (told_window turn.now.window)) }
{
    let mut messages = Vec::new(alloc);
    let mut rank = 0;
    for cuts in bins {
        add_message(&mut messages, job, turn.window.hull, rank, cuts)?;
        rank += 1;
    }
    Ok(messages)
}

// Puts the message of a rank behind the others, if it has a cut.
fn add_message(
    messages: &mut Vec<Message>,
    job: &SharedJob,
    hull: Extent,
    rank: u32,
    cuts: Vec<Cut>,
) -> Result<(), Memory>
    requires { AreCuts job.now.batches hull rank cuts.items }
    ensures { OnOk result (messages.new.items ≡ messages.old.items ++ filter has_pieces (sent hull rank (cells_of (posts_of job.now.batches rank) cuts.items) ∷ [])) }
{
    if cuts.is_empty() {
        return Ok(());
    }
    let message = Message::new(hull, rank, job.share()?, cuts);
    messages.push(message)?;
    Ok(())
}
