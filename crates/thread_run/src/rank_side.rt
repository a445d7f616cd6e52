// A rank's side of a run with threads.
ghost use Rattle.std.specs.Prelude.{◌≡◌, ◌<◌, ◌++◌, List, true, None};
ghost use Rattle.nc_base.specs.declared.step.OwnerItem.{OwnerItem};
ghost use Rattle.nc_base.specs.declared.step.RankItem.{RankItem};
ghost use Rattle.rank_core.specs.Indexed.{IsIndexOf};
ghost use Rattle.serial_spec.specs.SoundHeaders.{is_sound};
ghost use Rattle.serial_spec.specs.Lawful.{is_lawful};
ghost use Rattle.thread_run.specs.RankSides.{HasAttended, HasStood};
ghost use Rattle.turn_run.specs.Running.{calls_of};
ghost use Rattle.turn_run.specs.Steps.{first_runner};

use nc_base::{Header, Memory, OwnerItem, RankEnd, RankStop, Script};
use nc_outside::Gate;
use piece_exchange::Tools;
use rank_core::Names;
use rank_items::SentItem;
use ruled_line::{InPut, LineTake};
use std::alloc::Global;
use std::sync::Wait;
use turn_run::{Runner, own_calls};

/// Makes the calls of the rank whose number `out` has. Each offer is put into the inbox, and one item is taken from the rank's line
/// after it. Last it puts that it ended, and whether for want of memory.
///
/// The rank stops early where it takes `Stop`, a reply that has not one blob of the right length per get of the offer, or one with a
/// record count past its limit.
pub fn attend<R: Wait, G: Gate>(
    rt: &R,
    alloc: Global,
    header: &Header,
    names: &Names,
    script: &Script,
    out: &mut InPut<SentItem>,
    back: &mut LineTake<OwnerItem>,
    gate: &G,
) -> RankEnd
    requires sound { is_sound header.now ≡ true }
    requires lawful { is_lawful script.now ≡ true }
    requires names { IsIndexOf header.now names.now }
    requires number { out.old.number < script.now.ranks }
    ensures out { (out.new.of ≡ out.old.of) × (out.new.number ≡ out.old.number) }
    ensures back { back.new.of ≡ back.old.of }
    ensures attended { (put : List RankItem) × (taken : List OwnerItem) × (out.new.items ≡ out.old.items ++ put) × (back.new.items ≡ back.old.items ++ taken)
        × HasAttended header.now (calls_of script.now out.old.number) put taken result }
{
    let mut runner = Runner::new(alloc, header, names, header.records);
    let tools = Tools { rt, alloc, gate };
    let end = match make_calls(&mut runner, &tools, header, script, out, back) {
        Ok(end) => end,
        Err(_) => RankStop::Memory,
    };
    out.put(rt, SentItem::last_item(end == RankStop::Memory));
    runner.into_end(end)
}

/// Goes through the calls of the rank, and puts each offer.
fn make_calls<R: Wait, G: Gate>(
    runner: &mut Runner,
    tools: &Tools<R, G>,
    header: &Header,
    script: &Script,
    out: &mut InPut<SentItem>,
    back: &mut LineTake<OwnerItem>,
) -> Result<RankStop, Memory>
    requires sound { is_sound header.now ≡ true }
    requires lawful { is_lawful script.now ≡ true }
    requires number { out.old.number < script.now.ranks }
    requires first { runner.old ≡ first_runner header.now header.now.records }
    ensures out { (out.new.of ≡ out.old.of) × (out.new.number ≡ out.old.number) }
    ensures back { back.new.of ≡ back.old.of }
    ensures stood { (put : List RankItem) × (taken : List OwnerItem) × (out.new.items ≡ out.old.items ++ put) × (back.new.items ≡ back.old.items ++ taken)
        × HasStood header.now (calls_of script.now out.old.number) put taken runner.new result }
{
    let rt = tools.rt;
    let number = out.number();
    let calls = own_calls(script, number);
    runner.go_on(tools, header, script, number, calls)?;
    'offers: while let Some(offer) = runner.held.take() {
        out.put(rt, SentItem::offer(runner.answers.len() as u32, offer));
        let reply = match back.take(rt) {
            OwnerItem::Reply(reply) => reply,
            OwnerItem::Stop => return Ok(RankStop::Stopped),
        };
        if !runner.rank.fits(&reply) {
            return Ok(RankStop::Misfit);
        }
        runner.hear(reply)?;
        runner.go_on(tools, header, script, number, calls)?;
    }
    Ok(RankStop::Done)
}
