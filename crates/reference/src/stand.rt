// A run between two of its steps.
ghost use Rattle.std.specs.Prelude.{◌≡◌, ◌+◌, ◌<◌, ◌≤◌, ◌^◌, ◌∷◌, ◌++◌, ℕ, [], length, take, true, Some, slice_get, IfOk, OnOk};
ghost use Rattle.nc_base.specs.declared.step.Mark.{Mark as Step};
ghost use Rattle.nc_base.specs.declared.step.Mark.TheVariants as mark;
ghost use Rattle.serial_spec.specs.SoundHeaders.{is_sound};
ghost use Rattle.serial_spec.specs.History.{IsLegal};
ghost use Rattle.serial_spec.specs.Lawful.{is_lawful};
ghost use Rattle.serial_spec.specs.Limits.{record_limit};
ghost use Rattle.serial_spec.specs.SerialEnd.{offers_of, setting_of};
ghost use Rattle.reference.specs.Requests.{setting};
ghost use Rattle.rank_core.specs.Indexed.{IsIndexOf};
ghost use Rattle.run_laws.specs.Arrivals.{first_stand, step_to};
ghost use Rattle.reference.specs.Running.{arrived, IsWaiting};
ghost use Rattle.reference.specs.Stands.{all_arrived, stand_of, AllHear, AreFirst, AreWaiting, DoFit, HaveHeard, HasHeard, IsStanding};

use crate::meetings::meeting;
use crate::runners::Runner;
use crate::steps::solo;
use nc_base::{Header, Mark, Memory, Offer, OverlapRule, Reply, Script};
use rank_core::Names;
use std::alloc::Global;

/// The file and its record count, and the ranks at their next offers.
#[derive(Drop)]
pub(crate) struct Stand<'a> {
    pub(crate) file: Vec<u8>,
    pub(crate) records: u64,
    pub(crate) runners: Vec<Runner<'a>>,
}

impl<'a> Stand<'a> {
    /// Before the first step.
    pub(crate) fn first(
        alloc: Global,
        script: &'a Script,
        header: &'a Header,
        names: &'a Names,
        bytes: &[u8],
    ) -> Result<Self, Memory>
        requires sound { is_sound header.now ≡ true }
        requires lawful { is_lawful script.now ≡ true }
        requires names { IsIndexOf header.now names.now }
        ensures first { IfOk result (λ stand. stand_of stand ≡ first_stand header.now bytes.now script.now.calls) }
        ensures stands { IfOk result (λ stand. IsStanding script.now header.now [] stand) }
    {
        let file = Vec::from_slice(alloc, bytes)?;
        let runners = first_runners(alloc, script, header, names)?;
        Ok(Stand {
            file,
            records: header.records,
            runners,
        })
    }

    /// Does the step at this place of the order.
    pub(crate) fn do_step(
        &mut self,
        alloc: Global,
        script: &Script,
        header: &Header,
        order: &[Mark],
        place: usize,
    ) -> Result<(), Memory>
        requires sound { is_sound header.now ≡ true }
        requires lawful { is_lawful script.now ≡ true }
        requires legal { IsLegal script.now order.now }
        requires place { place < length order.now }
        requires stands { IsStanding script.now header.now (take place order.now) self.old }
        ensures step { OnOk result ((m : Step) → slice_get order.now place ≡ Some m → stand_of self.new ≡ step_to (setting_of script.now header.now) (stand_of self.old) m) }
        ensures stands { OnOk result (IsStanding script.now header.now (take (place + 1) order.now) self.new) }
    {
        match &order[place] {
            Mark::Meet(_) => self.meet(alloc, header, script.hints.overlap),
            Mark::Solo(rank, _) => self.alone(alloc, header, script.hints.overlap, *rank),
        }
    }

    /// A meeting of all ranks.
    fn meet(&mut self, alloc: Global, header: &Header, overlap: OverlapRule) -> Result<(), Memory>
        requires sound { is_sound header.now ≡ true }
        requires ranks { length self.old.runners.items ≤ 2 ^ 32 }
        requires waiting { AreWaiting header.now self.old.runners.items }
        requires records { self.old.records < record_limit header.now.version }
        ensures step { OnOk result ((k : ℕ) → stand_of self.new ≡ step_to (setting header.now overlap) (stand_of self.old) (mark.Meet k)) }
        ensures heard { OnOk result (HaveHeard header.now self.old.runners.items self.new.runners.items) }
        ensures records { OnOk result (self.new.records < record_limit header.now.version) }
    {
        let offers = held_offers(alloc, &self.runners)?;
        let replies = meeting(
            alloc,
            header,
            overlap,
            &offers,
            &mut self.file,
            &mut self.records,
        )?;
        hear_all(alloc, header, &mut self.runners, replies.as_slice())
    }

    /// A step of one rank alone.
    fn alone(
        &mut self,
        alloc: Global,
        header: &Header,
        overlap: OverlapRule,
        rank: u32,
    ) -> Result<(), Memory>
        requires sound { is_sound header.now ≡ true }
        requires rank { rank < length self.old.runners.items }
        requires waiting { (runner : _) → slice_get self.old.runners.items rank ≡ Some runner → IsWaiting header.now runner }
        ensures step { OnOk result ((n : ℕ) → stand_of self.new ≡ step_to (setting header.now overlap) (stand_of self.old) (mark.Solo rank n)) }
        ensures heard { OnOk result (HasHeard header.now rank self.old.runners.items self.new.runners.items) }
        ensures records { self.new.records ≡ self.old.records }
    {
        let runner = &mut self.runners[rank as usize];
        if let Some(offer) = &runner.held {
            let reply = solo(alloc, header, overlap, rank, offer, &mut self.file)?;
            runner.hear(reply)?;
        }
        Ok(())
    }
}

/// The ranks of a script, each gone up to its first offer.
fn first_runners<'a>(
    alloc: Global,
    script: &'a Script,
    header: &'a Header,
    names: &'a Names,
) -> Result<Vec<Runner<'a>>, Memory>
    requires sound { is_sound header.now ≡ true }
    requires lawful { is_lawful script.now ≡ true }
    requires names { IsIndexOf header.now names.now }
    ensures { IfOk result (λ runners. AreFirst script.now header.now (length script.now.calls) runners.items) }
{
    let mut runners = Vec::new(alloc);
    for own in script.calls.as_slice() {
        let runner = Runner::new(alloc, header, names, own.as_slice())?;
        runners.push(runner)?;
    }
    Ok(runners)
}

/// The offers that the ranks hold, in rank order.
fn held_offers(alloc: Global, runners: &[Runner]) -> Result<Vec<Offer>, Memory>
    ensures { IfOk result (λ offers. offers.items ≡ offers_of (all_arrived runners.now)) }
{
    let mut offers = Vec::new(alloc);
    for runner in runners {
        add_offer(alloc, runner, &mut offers)?;
    }
    Ok(offers)
}

/// Adds the offer that the rank holds.
fn add_offer(alloc: Global, runner: &Runner, offers: &mut Vec<Offer>) -> Result<(), Memory>
    ensures { OnOk result (offers.new.items ≡ offers.old.items ++ offers_of (arrived runner.now ∷ [])) }
{
    if let Some(offer) = &runner.held {
        offers.push(offer.clone(alloc)?)?;
    }
    Ok(())
}

/// Lets each rank hear its reply and go on.
fn hear_all(
    alloc: Global,
    header: &Header,
    runners: &mut [Runner],
    replies: &[Reply],
) -> Result<(), Memory>
    requires long { length replies.now ≡ length runners.old }
    requires waiting { AreWaiting header.now runners.old }
    requires fit { DoFit header.now runners.old replies.now }
    ensures heard { OnOk result (AllHear header.now replies.now runners.old runners.new) }
{
    for (number, runner) in runners.iter_mut().enumerate() {
        runner.hear(replies[number].clone(alloc)?)?;
    }
    Ok(())
}
