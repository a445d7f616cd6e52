// The top call.
ghost use Rattle.std.specs.Prelude.{◌≡◌, [], length, None, IfSome};
ghost use Rattle.nc_outside.specs.Cause.{Rose};
ghost use Rattle.ncmpi_cli.specs.Ends.{EndsAs, HasReadings, TakesScript, watchers_of};
ghost use Rattle.ncmpi_cli.specs.Headline.{GivesLine, IsBeforeRanks, IsSilent, IsStatus};
ghost use Rattle.ncmpi_cli.specs.Outside.{seen_at};
ghost use Rattle.dataset_start.specs.Dataset.{IsBeforeStart};
ghost use Rattle.dataset_start.specs.Stops.{line_of_status};
ghost use Rattle.program_words.specs.Words.{form_of, texts};

use crate::made_run::run_made;
use crate::offsets::list_offsets;
use crate::report::tell;
use crate::script_run::run_script;
use dataset_start::Stop;
use nc_base::{MarkList, ReadingTable};
use nc_outside::{Disk, Gate, Sink, Source};
use piece_exchange::Tools;
use program_words::{Form, form_of};
use std::alloc::Global;
use std::sync::Wait;
use std::thread::Threads;

/// How a run ended.
#[derive(Debug, Drop)]
pub struct Outcome {
    /// 0 where the script was run, whatever its calls were answered, and the text given whole; 2 for words of no form; 3 for a script that has a fault; 4 for a
    /// dataset whose layout, header or redefinition has a fault; 5, 6 and 7 for a fault of the source, the sink and the disk;
    /// 8 for want of memory.
    pub status: u8,
    /// The steps that were finished, in order.
    pub order: MarkList,
    /// What the watchers read, a list for each: how many steps were done at each of 16 readings beside the run, and then how many were done in
    /// all. Nothing where the status is not 0 or 6.
    pub readings: ReadingTable,
}

/// Does what the words ask for, and gives its text to the sink.
///
/// The words are those after the program's name. `[--watch N] DATASET` runs the script that the source has on that dataset, beside N watchers,
/// from 1 to 8; what they read stands behind the run's text. `--offsets DATASET` lists where its variables lie.
/// `--generate SEED [--size N] DATASET` runs a script that is made by the seed, of N records, 12 where N is not given, and sums it up.
///
/// Each rank runs on a thread of its own, so that independent calls of several ranks may come in any order; under the hint `threads off`,
/// and where a thread can't be had, the ranks run in turn on this thread. Where the script adds to an existing dataset, that is redefined
/// before the ranks begin.
pub fn ncrun<R: Threads + Wait + Sync, S: Source, K: Sink, D: Disk, G: Gate>(
    rt: &R,
    alloc: Global,
    words: &[&str],
    script: &mut S,
    disk: &mut D,
    out: &mut K,
    gate: &G,
) -> Outcome
    // What is done is what the words ask for.
    ensures ends { EndsAs (form_of (texts words.now))
        (seen_at S.Source D.Disk K.Sink script.old disk.old out.old) (seen_at S.Source D.Disk K.Sink script.new disk.new out.new)
        (disk.new ≡ disk.old) result.status result.order result.readings }

    // Each status has its cause.
    ensures statuses { IsStatus result.status }
    ensures usage { result.status ≡ 2 → form_of (texts words.now) ≡ None }
    ensures source { result.status ≡ 5 → Rose (S.faults script.old) (S.faults script.new) }
    ensures sink { result.status ≡ 6 → Rose (K.faults out.old) (K.faults out.new) }
    ensures disk { result.status ≡ 7 → Rose (D.faults disk.old) (D.faults disk.new) }

    // What is untouched.
    ensures not_taken { ¬ (TakesScript (form_of (texts words.now))) → script.new ≡ script.old }
    ensures not_started { IsBeforeStart result.status → disk.new ≡ disk.old }
    ensures no_form { form_of (texts words.now) ≡ None → disk.new ≡ disk.old }
    ensures unchanged { result.status ≡ 4 → D.held disk.new ≡ D.held disk.old }
    ensures silent { IsSilent result.status → out.new ≡ out.old }
    ensures no_step { IsBeforeRanks result.status → result.order ≡ [] }

    // What watchers read: 17 numbers each, which never fall, the last of them how many steps there were.
    ensures readings { HasReadings (watchers_of (form_of (texts words.now))) result.status (length result.order) result.readings }

    // The line that tells a fault, or a front of it where the sink failed.
    ensures told { IfSome (line_of_status result.status) (λ line. GivesLine (K.faults out.old) (K.faults out.new) (K.given out.old) (K.given out.new) line) }
{
    let tools = Tools { rt, alloc, gate };
    match form_of(alloc, words) {
        Ok(Some(Form::Run { watchers, dataset })) => {
            run_script(&tools, dataset, watchers, script, disk, out)
        }
        Ok(Some(Form::Offsets(dataset))) => list_offsets(alloc, disk, out, dataset),
        Ok(
            Some(
                Form::Generate {
                    seed,
                    size,
                    dataset,
                },
            ),
        ) => run_made(&tools, seed, size, dataset, disk, out),
        Ok(None) => tell(alloc, out, Stop::Usage, MarkList::new(alloc)),
        Err(_) => tell(alloc, out, Stop::Memory, MarkList::new(alloc)),
    }
}
