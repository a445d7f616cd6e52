// What the owner does at an arrival.
ghost use Rattle.std.specs.Prelude.{◌≡◌, ◌+◌, ◌≤◌, ◌<◌, ◌++◌, ◌∷◌, [], ℕ, List, length, map, false, true, IfOk, OnOk, OnErr};
ghost use Rattle.std.specs.List.{list_all};
ghost use Rattle.nc_outside.specs.Cause.{HasDiskCause};
ghost use Rattle.nc_base.specs.declared.step.RankItem.TheVariants as item;
ghost use Rattle.serial_spec.specs.Owner.{Client, freed, holds, is_strange, offers_held, stops};
ghost use Rattle.collective_round.specs.Rounds.{dataset_setting};
ghost use Rattle.rank_items.specs.Own.{HasOwnPuts};
ghost use Rattle.turn_run.specs.Counts.{IsCount, IsFit};
ghost use Rattle.file_owner.specs.Lent.{AreSame};
ghost use Rattle.file_owner.specs.Owned.{owner_of, replies, standing, Grows, HasDone, HoldSingle, IsAlone, IsSingle, IsSteady, IsTogether};
ghost use Rattle.file_owner.specs.Refused.{IsRefusedAlone, IsRefusedArrival, IsRefusedTogether};
ghost use Rattle.turn_run.specs.Steps.{batches_of, known_of};
ghost use Rattle.file_owner.specs.Stops.{held_stops, stop_each, stops_for};

use crate::lent::Outlets;
use crate::owner::{Owner, all_hold, take_all};
use crate::stops::{stop_each, stop_held};
use collective_round::Dataset;
use nc_base::{
    GotTable, Mark, Memory, Offer, OfferKind, OwnerItem, Pair, RankItem, Reply, StepErr,
};
use nc_outside::{Disk, Gate, Told};
use piece_exchange::{Crew, SharedJob, Tools};
use ruled_line::LinePutList;
use std::alloc::Global;
use std::sync::Wait;
use std::thread::Threads;
use turn_run::{meet_on_file, note_step, solo_reply};

/// An offer that a number makes alone, at a call of it.
#[derive(Drop)]
pub(crate) struct Solo<'a> {
    pub number: u32,
    pub call: u32,
    pub offer: &'a Offer,
}

impl Owner {
    /// Does what an arrival brings that is not strange. After an error each offer that is held, and the one that arrived, has a stop.
    pub(crate) fn arrive<'s, E, R: Threads + Wait + Sync, D: Disk + 's, G: Gate, T: Told>(
        &mut self,
        tools: &Tools<R, G>,
        crew: &mut Crew<'s, E, R, G, D>,
        dataset: &Dataset,
        out: &mut Outlets<D, T>,
        number: u32,
        item: RankItem,
    ) -> Result<(), StepErr>
        requires number { number < length self.old.clients.items }
        requires own { HasOwnPuts item }
        requires fit { (file : List ℕ) → is_strange (dataset_setting dataset.now) (owner_of self.old file out.old.records.now) (number, item) ≡ false }
        requires steady { IsSteady dataset.now.header.now (D.len out.old.disk.now) (standing D.Disk T.Told self.old out.old) }
        requires from { D.from out.old.disk.now ≡ 0 }
        ensures same { AreSame out.old out.new }
        ensures done { OnOk result (HasDone dataset.now.hints.now (dataset_setting dataset.now) (number, item)
            (standing D.Disk T.Told self.old out.old) (standing D.Disk T.Told self.new out.new)) }
        ensures steady { OnOk result (IsSteady dataset.now.header.now (D.len out.new.disk.now) (standing D.Disk T.Told self.new out.new)) }
        ensures order { OnErr result (self.new.order ≡ self.old.order) }
        ensures untold { OnErr result (T.heard out.new.told.now ≡ T.heard out.old.told.now) }
        ensures stopped { OnErr result (Grows out.old.back.now (stops (owner_of self.old [] 0) ((number, item) ∷ [])) out.new.back.now) }
        ensures refused { OnErr result (HoldSingle self.old.clients.items → IsSingle item → IsRefusedArrival (dataset_setting dataset.now) (number, item)
            (standing D.Disk T.Told self.old out.old) (D.held out.new.disk.now) out.new.records.now) }
        ensures count { IsCount dataset.now.header.now (D.len out.new.disk.now) out.new.records.now }
        ensures from { D.from out.new.disk.now ≡ 0 }
        ensures longer { D.len out.old.disk.now ≤ D.len out.new.disk.now }
        ensures cause { HasDiskCause (D.faults out.old.disk.now) (D.faults out.new.disk.now) result }
    {
        match item {
            RankItem::Ended { memory } => {
                if memory {
                    stop_held(tools.rt, out.back, &self.clients);
                    return Err(StepErr::Memory);
                }
                self.clients[number as usize].end(memory);
                Ok(())
            }
            RankItem::Offer(call, offer) => match offer.kind {
                OfferKind::Solo => {
                    let solo = Solo {
                        number,
                        call,
                        offer: &offer,
                    };
                    self.do_alone(tools, dataset, out, &solo)
                }
                OfferKind::Meet(_) => {
                    self.clients[number as usize].hold(offer);
                    if all_hold(&self.clients) {
                        self.do_together(tools, crew, dataset, out)
                    } else {
                        Ok(())
                    }
                }
            },
        }
    }

    /// Does an offer of a number alone. After an error each offer that is held, and this one, has a stop.
    fn do_alone<R: Wait, D: Disk, G, T: Told>(
        &mut self,
        tools: &Tools<R, G>,
        dataset: &Dataset,
        out: &mut Outlets<D, T>,
        solo: &Solo,
    ) -> Result<(), StepErr>
        requires number { solo.now.number < length self.old.clients.items }
        requires lines { length out.old.back.now ≡ length self.old.clients.items }
        requires fit { IsFit dataset.now.header.now (D.len out.old.disk.now) solo.now.offer.now }
        requires known { solo.now.offer.now.known ≤ self.old.reached }
        requires from { D.from out.old.disk.now ≡ 0 }
        ensures same { AreSame out.old out.new }
        ensures records { out.new.records.now ≡ out.old.records.now }
        ensures clients { self.new.clients ≡ self.old.clients }
        ensures done { OnOk result (IsAlone dataset.now.hints.now (dataset_setting dataset.now) solo.now.call (solo.now.number, solo.now.offer.now)
            (standing D.Disk T.Told self.old out.old) (standing D.Disk T.Told self.new out.new)) }
        ensures reached { OnOk result (IsCount dataset.now.header.now (D.len out.old.disk.now) self.old.reached → IsCount dataset.now.header.now (D.len out.new.disk.now) self.new.reached) }
        ensures more { OnOk result (self.old.reached ≤ self.new.reached) }
        ensures order { OnErr result (self.new.order ≡ self.old.order) }
        ensures untold { OnErr result (T.heard out.new.told.now ≡ T.heard out.old.told.now) }
        ensures stopped { OnErr result (Grows out.old.back.now (λ q. held_stops self.old.clients.items q ++ stops_for ((solo.now.number, item.Offer solo.now.call solo.now.offer.now) ∷ []) q) out.new.back.now) }
        ensures refused { OnErr result (IsRefusedAlone (dataset_setting dataset.now) solo.now.call (solo.now.number, solo.now.offer.now)
            (standing D.Disk T.Told self.old out.old) (D.held out.new.disk.now) out.new.records.now) }
        ensures from { D.from out.new.disk.now ≡ 0 }
        ensures longer { D.len out.old.disk.now ≤ D.len out.new.disk.now }
        ensures cause { HasDiskCause (D.faults out.old.disk.now) (D.faults out.new.disk.now) result }
    {
        match self.reply_alone(tools, dataset, out, solo) {
            Ok(()) => Ok(()),
            Err(fault) => {
                stop_held(tools.rt, out.back, &self.clients);
                out.back
                    .put_on(tools.rt, solo.number as usize, OwnerItem::Stop);
                Err(fault)
            }
        }
    }

    /// Does an offer of a number alone, and puts its reply.
    fn reply_alone<R: Wait, D: Disk, G, T: Told>(
        &mut self,
        tools: &Tools<R, G>,
        dataset: &Dataset,
        out: &mut Outlets<D, T>,
        solo: &Solo,
    ) -> Result<(), StepErr>
        requires number { solo.now.number < length out.old.back.now }
        requires fit { IsFit dataset.now.header.now (D.len out.old.disk.now) solo.now.offer.now }
        requires known { solo.now.offer.now.known ≤ self.old.reached }
        requires from { D.from out.old.disk.now ≡ 0 }
        ensures same { AreSame out.old out.new }
        ensures records { out.new.records.now ≡ out.old.records.now }
        ensures clients { self.new.clients ≡ self.old.clients }
        ensures done { OnOk result (IsAlone dataset.now.hints.now (dataset_setting dataset.now) solo.now.call (solo.now.number, solo.now.offer.now)
            (standing D.Disk T.Told self.old out.old) (standing D.Disk T.Told self.new out.new)) }
        ensures reached { OnOk result (IsCount dataset.now.header.now (D.len out.old.disk.now) self.old.reached → IsCount dataset.now.header.now (D.len out.new.disk.now) self.new.reached) }
        ensures more { OnOk result (self.old.reached ≤ self.new.reached) }
        ensures order { OnErr result (self.new.order ≡ self.old.order) }
        ensures untold { OnErr result (T.heard out.new.told.now ≡ T.heard out.old.told.now) }
        ensures lines { OnErr result (out.new.back.now ≡ out.old.back.now) }
        ensures refused { OnErr result (IsRefusedAlone (dataset_setting dataset.now) solo.now.call (solo.now.number, solo.now.offer.now)
            (standing D.Disk T.Told self.old out.old) (D.held out.new.disk.now) out.new.records.now) }
        ensures from { D.from out.new.disk.now ≡ 0 }
        ensures longer { D.len out.old.disk.now ≤ D.len out.new.disk.now }
        ensures cause { HasDiskCause (D.faults out.old.disk.now) (D.faults out.new.disk.now) result }
    {
        let reply = solo_reply(tools.alloc, out.disk, dataset, solo.number, solo.offer)?;
        let mark = Mark::Solo(solo.number, solo.call);
        let records = *out.records;
        note_step(
            tools.rt,
            tools.alloc,
            &mut self.order,
            out.told,
            mark,
            records,
        )?;
        self.reached = self.reached.max(reply.records);
        out.back
            .put_on(tools.rt, solo.number as usize, OwnerItem::Reply(reply));
        Ok(())
    }

    /// Does the meeting whose offers are held. After an error each of them has a stop.
    fn do_together<'s, E, R: Threads + Wait + Sync, D: Disk + 's, G: Gate, T: Told>(
        &mut self,
        tools: &Tools<R, G>,
        crew: &mut Crew<'s, E, R, G, D>,
        dataset: &Dataset,
        out: &mut Outlets<D, T>,
    ) -> Result<(), StepErr>
        requires all { list_all holds self.old.clients.items ≡ true }
        requires steady { IsSteady dataset.now.header.now (D.len out.old.disk.now) (standing D.Disk T.Told self.old out.old) }
        requires from { D.from out.old.disk.now ≡ 0 }
        ensures same { AreSame out.old out.new }
        ensures done { OnOk result (IsTogether dataset.now.hints.now (dataset_setting dataset.now)
            (standing D.Disk T.Told self.old out.old) (standing D.Disk T.Told self.new out.new)) }
        ensures steady { OnOk result (IsSteady dataset.now.header.now (D.len out.new.disk.now) (standing D.Disk T.Told self.new out.new)) }
        ensures order { OnErr result (self.new.order ≡ self.old.order) }
        ensures untold { OnErr result (T.heard out.new.told.now ≡ T.heard out.old.told.now) }
        ensures stopped { OnErr result (Grows out.old.back.now stop_each out.new.back.now) }
        ensures refused { OnErr result (HoldSingle self.old.clients.items → IsRefusedTogether (dataset_setting dataset.now)
            (standing D.Disk T.Told self.old out.old) (D.held out.new.disk.now) out.new.records.now) }
        ensures count { IsCount dataset.now.header.now (D.len out.new.disk.now) out.new.records.now }
        ensures from { D.from out.new.disk.now ≡ 0 }
        ensures longer { D.len out.old.disk.now ≤ D.len out.new.disk.now }
        ensures cause { HasDiskCause (D.faults out.old.disk.now) (D.faults out.new.disk.now) result }
    {
        match self.reply_together(tools, crew, dataset, out) {
            Ok(()) => Ok(()),
            Err(fault) => {
                stop_each(tools.rt, out.back);
                Err(fault)
            }
        }
    }

    /// Takes the offers that are held: their batches, to be shared with helpers, and the count to which a meeting of them raises that of
    /// the file.
    fn take_job(&mut self, alloc: Global) -> Result<(SharedJob, u64), Memory>
        ensures batches { IfOk result (λ taken. taken.0.batches ≡ batches_of (offers_held self.old.clients.items)) }
        ensures known { IfOk result (λ taken. taken.1 ≡ known_of (offers_held self.old.clients.items)) }
        ensures freed { OnOk result (self.new.clients.items ≡ map freed self.old.clients.items) }
        ensures met { self.new.met ≡ self.old.met }
        ensures reached { self.new.reached ≡ self.old.reached }
        ensures order { self.new.order ≡ self.old.order }
    {
        let (job, known) = take_all(alloc, &mut self.clients)?;
        Ok((SharedJob::new(alloc, job)?, known))
    }

    /// Does the meeting whose offers are held, and puts their replies.
    fn reply_together<'s, E, R: Threads + Wait + Sync, D: Disk + 's, G: Gate, T: Told>(
        &mut self,
        tools: &Tools<R, G>,
        crew: &mut Crew<'s, E, R, G, D>,
        dataset: &Dataset,
        out: &mut Outlets<D, T>,
    ) -> Result<(), StepErr>
        requires all { list_all holds self.old.clients.items ≡ true }
        requires steady { IsSteady dataset.now.header.now (D.len out.old.disk.now) (standing D.Disk T.Told self.old out.old) }
        requires from { D.from out.old.disk.now ≡ 0 }
        ensures same { AreSame out.old out.new }
        ensures done { OnOk result (IsTogether dataset.now.hints.now (dataset_setting dataset.now)
            (standing D.Disk T.Told self.old out.old) (standing D.Disk T.Told self.new out.new)) }
        ensures steady { OnOk result (IsSteady dataset.now.header.now (D.len out.new.disk.now) (standing D.Disk T.Told self.new out.new)) }
        ensures order { OnErr result (self.new.order ≡ self.old.order) }
        ensures untold { OnErr result (T.heard out.new.told.now ≡ T.heard out.old.told.now) }
        ensures lines { OnErr result (out.new.back.now ≡ out.old.back.now) }
        ensures refused { OnErr result (HoldSingle self.old.clients.items → IsRefusedTogether (dataset_setting dataset.now)
            (standing D.Disk T.Told self.old out.old) (D.held out.new.disk.now) out.new.records.now) }
        ensures count { IsCount dataset.now.header.now (D.len out.new.disk.now) out.new.records.now }
        ensures from { D.from out.new.disk.now ≡ 0 }
        ensures longer { D.len out.old.disk.now ≤ D.len out.new.disk.now }
        ensures cause { HasDiskCause (D.faults out.old.disk.now) (D.faults out.new.disk.now) result }
    {
        let Tools { rt, alloc, gate: _ } = *tools;
        let met = next_number(self.met)?;
        let (job, known) = self.take_job(alloc)?;
        let (pair, table) = meet_on_file(tools, crew, out.disk, dataset, out.records, &job, known)?;
        drop(job);
        let mark = Mark::Meet(self.met);
        let records = *out.records;
        note_step(rt, alloc, &mut self.order, out.told, mark, records)?;
        self.met = met;
        self.reached = self.reached.max(records);
        reply_all(rt, out.back, pair, records, table);
        Ok(())
    }
}

/// The number of the next meeting. No order holds more marks than have numbers.
fn next_number(number: u32) -> Result<u32, Memory>
    ensures { IfOk result (λ next. next ≡ number + 1) }
{
    match number.checked_add(1) {
        None => Err(Memory),
        Some(next) => Ok(next),
    }
}

/// Puts each number's reply on its line.
fn reply_all<R: Wait>(
    rt: &R,
    back: &mut LinePutList<OwnerItem>,
    pair: Option<Pair>,
    records: u64,
    table: GotTable,
)
    requires { length table ≡ length back.old }
    ensures { Grows back.old (replies pair records table) back.new }
{
    let mut table = table.into_vec();
    for number in 0..table.len() {
        let got = table[number].take();
        let reply = Reply { pair, records, got };
        back.put_on(rt, number, OwnerItem::Reply(reply));
    }
}
