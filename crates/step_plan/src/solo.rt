// The step of one rank alone.
ghost use Rattle.std.specs.Prelude.{◌≡◌, ◌≤◌, ◌<◌, ◌+◌, ◌-◌, ◌++◌, ◌∷◌, ◌^◌, [], max, flat_map, None, IfOk};
ghost use Rattle.serial_spec.specs.DeviceCalls as device;
ghost use Rattle.serial_spec.specs.FileStep.{end_for, told};
ghost use Rattle.serial_spec.specs.HeaderBytes.{header_len};
ghost use Rattle.serial_spec.specs.Layout.{end_of};
ghost use Rattle.serial_spec.specs.Owner.{needed_now};
ghost use Rattle.serial_spec.specs.SharedByte.{holdings, IsOwnOnce};
ghost use Rattle.collective_round.specs.Rounds.{dataset_setting, posts_in, puts_of_batch, AreGets, ArePuts};
ghost use Rattle.nc_base.specs.declared.plan.Post.{Post};
ghost use Rattle.nc_base.specs.declared.request.Direction.TheVariants as direction;
ghost use Rattle.overlay_laws.specs.Entries.{In};
ghost use Rattle.vara_extents.specs.Accepted.{IsAccepted};
ghost use Rattle.window_plan.specs.Windows.{get_calls, put_calls};
ghost use Rattle.step_plan.specs.Asked.{asked_by_all};
ghost use Rattle.step_plan.specs.Phases.{HaveGetWindows, HavePutWindows};
ghost use Rattle.step_plan.specs.Steps.{grow_call, windows_in};

use crate::asked::all_asked;
use crate::domains::sieved_domain;
use crate::plan::{Planned, Puts, grown, refused};
use crate::{DomainList, FilePlan, Phase};
use collective_round::{Dataset, PutList, get_list, put_list, records_needed_by};
use nc_base::{Batch, Direction, Memory};
use std::alloc::Global;
use std::slice;

/// Plans the step of one rank, of a file of so many bytes. It leaves the record count that the rank's puts need; that of the file stays.
pub fn plan_solo(
    alloc: Global,
    dataset: &Dataset,
    rank: u32,
    batch: &Batch,
    size: u64,
) -> Result<Planned, Memory>
    requires few { posts_in batch.now < 2 ^ 32 }
    requires rank { rank < 2 ^ 32 - 1 }
    requires puts { ArePuts dataset.now.header.now (puts_of_batch (rank, batch.now)) }
    requires own { IsOwnOnce (holdings dataset.now.header.now (puts_of_batch (rank, batch.now))) }
    requires gets { AreGets dataset.now.header.now size batch.now.gets }
    requires long { end_of dataset.now.header.now (header_len dataset.now.header.now) 0 ≤ size }
    ensures overlap { IfOk result (λ planned. planned.file.overlap ≡ told (dataset_setting dataset.now) (puts_of_batch (rank, batch.now))) }
    ensures records { IfOk result (λ planned. planned.records ≡ needed_now (dataset_setting dataset.now) (puts_of_batch (rank, batch.now))) }
    ensures size { IfOk result (λ planned. planned.size ≡ max size (end_for (dataset_setting dataset.now) (needed_now (dataset_setting dataset.now) (puts_of_batch (rank, batch.now))))) }
    ensures asked_put { IfOk result (λ planned. planned.file.puts.asked ≡ asked_by_all dataset.now.header.now direction.Put rank (batch.now ∷ [])) }
    ensures asked_get { IfOk result (λ planned. planned.file.gets.asked ≡ asked_by_all dataset.now.header.now direction.Get rank (batch.now ∷ [])) }
    ensures put_windows { IfOk result (λ planned. HavePutWindows dataset.now.header.now dataset.now.hints.now rank batch.now planned.file.puts.domains) }
    ensures get_windows { IfOk result (λ planned. HaveGetWindows dataset.now.header.now dataset.now.hints.now rank batch.now planned.file.gets.domains) }
    ensures put_calls { IfOk result (λ planned. grow_call planned.file.grow ++ flat_map put_calls (windows_in planned.file.puts.domains)
        ≡ device.put_calls (dataset_setting dataset.now) (device.sieving_windows dataset.now.hints.now.wr_buffer) (puts_of_batch (rank, batch.now)) size) }
    ensures no_count { IfOk result (λ planned. planned.file.count ≡ None) }
    ensures get_calls { IfOk result (λ planned. flat_map get_calls (windows_in planned.file.gets.domains)
        ≡ flat_map device.loads (device.sieving_windows dataset.now.hints.now.rd_buffer (device.get_bytes (dataset_setting dataset.now) batch.now.gets))) }
{
    let puts = put_windows(alloc, dataset, rank, batch, size)?;
    let gets = get_windows(alloc, dataset, rank, batch)?;
    let batches = slice::from_ref(batch);
    let asked_put = all_asked(alloc, dataset, rank, batches, Direction::Put)?;
    let asked_get = all_asked(alloc, dataset, rank, batches, Direction::Get)?;
    Ok(Planned {
        file: FilePlan {
            overlap: puts.overlap,
            grow: puts.grow,
            puts: Phase {
                asked: asked_put,
                domains: puts.domains,
            },
            count: None,
            gets: Phase {
                asked: asked_get,
                domains: gets,
            },
        },
        records: puts.needed,
        size: puts.size,
    })
}

// The windows of the puts.
fn put_windows(
    alloc: Global,
    dataset: &Dataset,
    rank: u32,
    batch: &Batch,
    size: u64,
) -> Result<Puts, Memory>
    requires few { posts_in batch.now < 2 ^ 32 }
    requires puts { ArePuts dataset.now.header.now (puts_of_batch (rank, batch.now)) }
    requires own { IsOwnOnce (holdings dataset.now.header.now (puts_of_batch (rank, batch.now))) }
    requires long { end_of dataset.now.header.now (header_len dataset.now.header.now) 0 ≤ size }
    ensures overlap { IfOk result (λ puts. puts.overlap ≡ told (dataset_setting dataset.now) (puts_of_batch (rank, batch.now))) }
    ensures windows { IfOk result (λ puts. HavePutWindows dataset.now.header.now dataset.now.hints.now rank batch.now puts.domains) }
    ensures needed { IfOk result (λ puts. puts.needed ≡ needed_now (dataset_setting dataset.now) (puts_of_batch (rank, batch.now))) }
    ensures size { IfOk result (λ puts. puts.size ≡ max size (end_for (dataset_setting dataset.now) (needed_now (dataset_setting dataset.now) (puts_of_batch (rank, batch.now))))) }
    ensures calls { IfOk result (λ puts. grow_call puts.grow ++ flat_map put_calls (windows_in puts.domains)
        ≡ device.put_calls (dataset_setting dataset.now) (device.sieving_windows dataset.now.hints.now.wr_buffer) (puts_of_batch (rank, batch.now)) size) }
{
    match put_list(alloc, dataset, rank, slice::from_ref(batch))? {
        PutList::Shared(pair) => Ok(refused(alloc, pair, size)),
        PutList::Laid(list) => {
            let domains = sieved_domain(alloc, &list, dataset.hints.wr_buffer)?;
            let needed = records_needed_by(dataset.header, batch.puts.as_slice());
            let end = dataset.measures.end_of(dataset.header, needed);
            Ok(Puts {
                overlap: None,
                grow: grown(size, end),
                domains,
                needed,
                size: size.max(end),
            })
        }
    }
}

// The windows of the gets.
fn get_windows(
    alloc: Global,
    dataset: &Dataset,
    rank: u32,
    batch: &Batch,
) -> Result<DomainList, Memory>
    requires few { posts_in batch.now < 2 ^ 32 }
    requires gets { (p : Post) → In batch.now.gets p → IsAccepted dataset.now.header.now p.var p.region }
    ensures { IfOk result (HaveGetWindows dataset.now.header.now dataset.now.hints.now rank batch.now) }
{
    let list = get_list(alloc, dataset, rank, slice::from_ref(batch))?;
    sieved_domain(alloc, &list, dataset.hints.rd_buffer)
}
