// The step of all ranks.
ghost use Rattle.std.specs.Prelude.{◌≡◌, ◌≤◌, ◌++◌, max, flat_map, nat_lt, IfOk};
ghost use Rattle.serial_spec.specs.DeviceCalls as device;
ghost use Rattle.serial_spec.specs.FileStep.{end_for, told};
ghost use Rattle.serial_spec.specs.HeaderBytes.{header_len};
ghost use Rattle.serial_spec.specs.Layout.{end_of};
ghost use Rattle.serial_spec.specs.Owner.{needed_now};
ghost use Rattle.serial_spec.specs.SharedByte.{holdings, IsOwnOnce};
ghost use Rattle.collective_round.specs.Rounds.{dataset_setting, as_setting, gets_in, puts_in, AreFew, AreGets, ArePuts};
ghost use Rattle.nc_base.specs.declared.plan.Post.{Post};
ghost use Rattle.nc_base.specs.declared.request.Direction.TheVariants as direction;
ghost use Rattle.overlay_laws.specs.Entries.{In};
ghost use Rattle.vara_extents.specs.Accepted.{IsAccepted};
ghost use Rattle.window_plan.specs.Windows.{get_calls, put_calls};
ghost use Rattle.step_plan.specs.Asked.{asked_by_all};
ghost use Rattle.step_plan.specs.Phases.{HavePutDomains, HaveGetDomains};
ghost use Rattle.step_plan.specs.Steps.{count_call, grow_call, windows_in};

use crate::asked::all_asked;
use crate::domains::collective_domains;
use crate::plan::{Planned, Puts, grown, refused};
use crate::{DomainList, FilePlan, Phase};
use collective_round::{Dataset, PutList, get_list, put_list, records_needed};
use nc_base::{Batch, Direction, Extent, Header, Memory};
use std::alloc::Global;

/// Plans the step of all ranks, whose calls raise the record count to `known` at least: of a file of so many records and bytes.
/// It leaves the record count of the file.
pub fn plan_meeting(
    alloc: Global,
    dataset: &Dataset,
    batches: &[Batch],
    known: u64,
    records: u64,
    size: u64,
) -> Result<Planned, Memory>
    requires few { AreFew batches.now }
    requires puts { ArePuts dataset.now.header.now (puts_in batches.now) }
    requires own { IsOwnOnce (holdings dataset.now.header.now (puts_in batches.now)) }
    requires gets { AreGets dataset.now.header.now size (gets_in batches.now) }
    requires long { end_of dataset.now.header.now (header_len dataset.now.header.now) 0 ≤ size }
    ensures overlap { IfOk result (λ planned. planned.file.overlap ≡ told (dataset_setting dataset.now) (puts_in batches.now)) }
    ensures records { IfOk result (λ planned. planned.records ≡ max records (max (needed_now (dataset_setting dataset.now) (puts_in batches.now)) known)) }
    ensures size { IfOk result (λ planned. planned.size ≡ max size (end_for (dataset_setting dataset.now) (needed_now (dataset_setting dataset.now) (puts_in batches.now)))) }
    ensures asked_put { IfOk result (λ planned. planned.file.puts.asked ≡ asked_by_all dataset.now.header.now direction.Put 0 batches.now) }
    ensures asked_get { IfOk result (λ planned. planned.file.gets.asked ≡ asked_by_all dataset.now.header.now direction.Get 0 batches.now) }
    ensures put_domains { IfOk result (λ planned. HavePutDomains dataset.now.header.now dataset.now.hints.now batches.now planned.file.puts.domains) }
    ensures get_domains { IfOk result (λ planned. HaveGetDomains dataset.now.header.now dataset.now.hints.now batches.now planned.file.gets.domains) }
    ensures put_calls { IfOk result (λ planned. grow_call planned.file.grow ++ flat_map put_calls (windows_in planned.file.puts.domains)
        ≡ device.put_calls (dataset_setting dataset.now) (device.collective_windows dataset.now.hints.now) (puts_in batches.now) size) }
    ensures count_calls { IfOk result (λ planned. count_call planned.file.count ≡ device.store_records (dataset_setting dataset.now) (nat_lt records planned.records)) }
    ensures get_calls { IfOk result (λ planned. flat_map get_calls (windows_in planned.file.gets.domains)
        ≡ flat_map device.loads (device.collective_windows dataset.now.hints.now (device.get_bytes (dataset_setting dataset.now) (gets_in batches.now)))) }
{
    let puts = put_domains(alloc, dataset, batches, size)?;
    let gets = get_domains(alloc, dataset, batches)?;
    let asked_put = all_asked(alloc, dataset, 0, batches, Direction::Put)?;
    let asked_get = all_asked(alloc, dataset, 0, batches, Direction::Get)?;
    let after = records.max(puts.needed).max(known);
    Ok(Planned {
        file: FilePlan {
            overlap: puts.overlap,
            grow: puts.grow,
            puts: Phase {
                asked: asked_put,
                domains: puts.domains,
            },
            count: count_field(dataset.header, records, after),
            gets: Phase {
                asked: asked_get,
                domains: gets,
            },
        },
        records: after,
        size: puts.size,
    })
}

// The domains of the puts.
fn put_domains(
    alloc: Global,
    dataset: &Dataset,
    batches: &[Batch],
    size: u64,
) -> Result<Puts, Memory>
    requires few { AreFew batches.now }
    requires puts { ArePuts dataset.now.header.now (puts_in batches.now) }
    requires own { IsOwnOnce (holdings dataset.now.header.now (puts_in batches.now)) }
    requires long { end_of dataset.now.header.now (header_len dataset.now.header.now) 0 ≤ size }
    ensures overlap { IfOk result (λ puts. puts.overlap ≡ told (dataset_setting dataset.now) (puts_in batches.now)) }
    ensures domains { IfOk result (λ puts. HavePutDomains dataset.now.header.now dataset.now.hints.now batches.now puts.domains) }
    ensures needed { IfOk result (λ puts. puts.needed ≡ needed_now (dataset_setting dataset.now) (puts_in batches.now)) }
    ensures size { IfOk result (λ puts. puts.size ≡ max size (end_for (dataset_setting dataset.now) (needed_now (dataset_setting dataset.now) (puts_in batches.now)))) }
    ensures calls { IfOk result (λ puts. grow_call puts.grow ++ flat_map put_calls (windows_in puts.domains)
        ≡ device.put_calls (dataset_setting dataset.now) (device.collective_windows dataset.now.hints.now) (puts_in batches.now) size) }
{
    match put_list(alloc, dataset, 0, batches)? {
        PutList::Shared(pair) => Ok(refused(alloc, pair, size)),
        PutList::Laid(list) => {
            let domains = collective_domains(alloc, &list, dataset.hints)?;
            let needed = records_needed(dataset.header, batches);
            let end = dataset.measures.end_of(dataset.header, needed);
            Ok(Puts {
                overlap: None,
                grow: grown(size, end),
                domains,
                needed,
                size: size.max(end),
            })
        }
    }
}

// The domains of the gets.
fn get_domains(alloc: Global, dataset: &Dataset, batches: &[Batch]) -> Result<DomainList, Memory>
    requires few { AreFew batches.now }
    requires gets { (p : Post) → In (gets_in batches.now) p → IsAccepted dataset.now.header.now p.var p.region }
    ensures { IfOk result (HaveGetDomains dataset.now.header.now dataset.now.hints.now batches.now) }
{
    let list = get_list(alloc, dataset, 0, batches)?;
    collective_domains(alloc, &list, dataset.hints)
}

/// The field of the record count in the header, where the count is raised: behind the first 4 bytes, 8 bytes in CDF-5 and else 4.
pub fn count_field(header: &Header, before: u64, after: u64) -> Option<Extent>
    ensures { count_call result ≡ device.store_records (as_setting header.now) (nat_lt before after) }
{
    if before < after {
        Some(Extent {
            at: 4,
            len: if header.version == 5 { 8 } else { 4 },
        })
    } else {
        None
    }
}
