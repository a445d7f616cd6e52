// The end of a run.
ghost use Rattle.std.specs.Prelude.{◌≡◌, map, IfOk};
ghost use Rattle.nc_base.specs.declared.script.OverlapRule.{OverlapRule as Rule};
ghost use Rattle.serial_spec.specs.RankMachine as machine;
ghost use Rattle.reference.specs.Requests.{counted, setting};
ghost use Rattle.serial_spec.specs.SerialEnd.{close_by};
ghost use Rattle.reference.specs.Ended.{as_end, most_known, AreLow};
ghost use Rattle.reference.specs.Running.{going_of};

use crate::runners::Runner;
use crate::stand::Stand;
use crate::steps::raise;
use nc_base::{AnswerTable, Blob, Header, Memory, SizeList};
use std::alloc::Global;

/// What a run came to.
#[derive(Drop)]
pub struct SerialEnd {
    /// The bytes of the dataset.
    pub bytes: Blob,
    /// Its record count.
    pub records: u64,
    /// The answers of each rank.
    pub answers: AnswerTable,
    /// How many requests each rank left.
    pub pending: SizeList,
}

/// Raises the record count of the file to the greatest that a rank knows. That is the last that a run does.
pub(crate) fn closed(alloc: Global, header: &Header, stand: Stand) -> Result<SerialEnd, Memory>
    requires known { AreLow header.now stand.runners.items }
    ensures { IfOk result (λ end. (rule : Rule) → as_end end
        ≡ close_by (setting header.now rule) (counted stand.entry.file.items stand.entry.records) (map going_of stand.entry.runners.items)) }
{
    let Stand {
        mut file,
        mut records,
        runners,
    } = stand;
    raise(header, greatest_known(&runners), &mut file, &mut records)?;
    let pending = pending_of(alloc, &runners)?;
    Ok(SerialEnd {
        bytes: Blob::from_vec(file),
        records,
        answers: answers_of(alloc, runners)?,
        pending,
    })
}

/// The greatest record count that a rank knows.
fn greatest_known(runners: &[Runner]) -> u64
    ensures { result ≡ most_known runners.now }
{
    let mut known: u64 = 0;
    for runner in runners {
        known = known.max(runner.rank.known());
    }
    known
}

/// How many requests each rank left.
fn pending_of(alloc: Global, runners: &[Runner]) -> Result<SizeList, Memory>
    ensures { IfOk result (λ sizes. sizes ≡ map (λ runner. machine.pending runner.rank.state) runners.now) }
{
    let sizes: Vec<u64> = runners
        .iter()
        .map(|runner| runner.rank.pending())
        .collect(alloc)?;
    Ok(SizeList::from_vec(sizes))
}

/// The answers of each rank.
fn answers_of(alloc: Global, runners: Vec<Runner>) -> Result<AnswerTable, Memory>
    ensures { IfOk result (λ table. table ≡ map (λ runner. runner.answers) runners.entry.items) }
{
    let mut table = Vec::new(alloc);
    for runner in runners {
        table.push(runner.into_answers())?;
    }
    Ok(AnswerTable::from_vec(table))
}
