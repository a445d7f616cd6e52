// The top call.
ghost use Rattle.std.specs.Prelude.{◌≡◌, ◌⊎◌, ℕ, None, take, IfSome};
ghost use Rattle.nc_outside.specs.Cause.{Rose};
ghost use Rattle.nc_outside.specs.Told.{with_end};
ghost use Rattle.dataset_start.specs.Dataset.{IsBeforeStart};
ghost use Rattle.plan_cli.specs.Ends.{EndsAs, HasEnded, IsSilent, IsStatus};
ghost use Rattle.plan_cli.specs.FaultLines.{line_of_status};
ghost use Rattle.plan_cli.specs.Outside.{seen_at, GivesLine};
ghost use Rattle.plan_cli.specs.Words as spec;
ghost use Rattle.plan_cli.specs.Words.{named_by, texts, wanted_of};

use crate::command::{Form, form_of};
use crate::dataset::DatasetFront;
use crate::lines::tell;
use crate::plan::print_plan;
use crate::start::begin;
use dataset_start::{Stop, give_all};
use nc_outside::{Sink, Source};
use std::alloc::Global;
use std::sync::Wait;

/// Plans the run of the script that the source has, on a new dataset or on the one that the words name, and gives the plan to the sink: its
/// text, or after `--json` its JSON document. The words are those after the program's name.
///
/// The order is that of ranks in turn, rank 0 first after each meeting. Nothing is written but the plan: a dataset is looked at where the
/// script opens it, and nowhere else.
///
/// The status is 0 where the plan was given whole; 2 for words of no form; 3 for a script that has a fault; 4 for a dataset whose layout,
/// header or redefinition has a fault; 5 and 6 for a fault of the source and the sink; 7 where the dataset can't be read, or no word names
/// one; 8 for want of memory.
pub fn ncplan<R: Wait, S: Source, K: Sink, D: DatasetFront>(
    rt: &R,
    alloc: Global,
    words: &[&str],
    script: &mut S,
    dataset: &mut D,
    out: &mut K,
) -> u8
    // What is told is what the words ask for.
    ensures ends { let wanted = spec.form_of (texts words.now) in EndsAs wanted
        (seen_at S.Source D.DatasetFront K.Sink (named_by wanted) script.old dataset.old out.old) (seen_at S.Source D.DatasetFront K.Sink (named_by wanted) script.new dataset.new out.new)
        (dataset.new ≡ dataset.old) result }

    // Each status has its cause.
    ensures statuses { IsStatus result }
    ensures usage { result ≡ 2 → spec.form_of (texts words.now) ≡ None }
    ensures source { result ≡ 5 → Rose (S.faults script.old) (S.faults script.new) }
    ensures sink { result ≡ 6 → Rose (K.faults out.old) (K.faults out.new) }

    // What is untouched.
    ensures held { D.held dataset.new ≡ D.held dataset.old }
    ensures not_started { IsBeforeStart result → dataset.new ≡ dataset.old }
    ensures not_taken { spec.form_of (texts words.now) ≡ None → script.new ≡ script.old }
    ensures silent { IsSilent result → out.new ≡ out.old }

    // The line that tells a fault, or a front of it where the sink failed.
    ensures told { IfSome (line_of_status result) (λ line. GivesLine (K.faults out.old) (K.faults out.new) (K.given out.old) (K.given out.new) line) }
{
    match form_of(words) {
        Some(form) => give_plan(rt, alloc, form, script, dataset, out),
        None => tell(alloc, out, Stop::Usage),
    }
}

// Gives the plan in the form that is asked for.
fn give_plan<R: Wait, S: Source, K: Sink, D: DatasetFront>(
    rt: &R,
    alloc: Global,
    form: Form<'_>,
    script: &mut S,
    dataset: &mut D,
    out: &mut K,
) -> u8
    ensures ends { let wanted = wanted_of form.entry in HasEnded wanted
        (seen_at S.Source D.DatasetFront K.Sink wanted.dataset script.old dataset.old out.old) (seen_at S.Source D.DatasetFront K.Sink wanted.dataset script.new dataset.new out.new)
        (dataset.new ≡ dataset.old) result }
    ensures statuses { IsStatus result }
    ensures formed { ¬ (result ≡ 2) }
    ensures source { result ≡ 5 → Rose (S.faults script.old) (S.faults script.new) }
    ensures sink { result ≡ 6 → Rose (K.faults out.old) (K.faults out.new) }
    ensures held { D.held dataset.new ≡ D.held dataset.old }
    ensures not_started { IsBeforeStart result → dataset.new ≡ dataset.old }
    ensures silent { IsSilent result → out.new ≡ out.old }
    ensures told { IfSome (line_of_status result) (λ line. GivesLine (K.faults out.old) (K.faults out.new) (K.given out.old) (K.given out.new) line) }
{
    let ready = match begin(alloc, form.dataset, script, dataset) {
        Ok(ready) => ready,
        Err(stop) => return tell(alloc, out, stop),
    };
    match print_plan(rt, alloc, form.json, ready) {
        Ok(text) => give(out, text.as_slice()),
        Err(_) => tell(alloc, out, Stop::Memory),
    }
}

// Gives the whole text of a plan.
fn give<K: Sink>(out: &mut K, text: &[u8]) -> u8
    ensures whole { result ≡ 0 → K.given out.new ≡ with_end (K.given out.old) text.now }
    ensures front { result ≡ 6 → (n : ℕ) × (K.given out.new ≡ with_end (K.given out.old) (take n text.now)) }
    ensures sink { result ≡ 6 → Rose (K.faults out.old) (K.faults out.new) }
    ensures statuses { (result ≡ 0) ⊎ (result ≡ 6) }
{
    match give_all(out, text) {
        Ok(()) => 0,
        Err(_) => 6,
    }
}
