// What comes before the ranks: the script and the dataset.
ghost use Rattle.std.specs.Prelude.{◌≡◌, ◌≤◌, [], true, IfOk, IfErr, OnOk, OnErr, IfSome, IsErrOf, IsSomeAnd, Err, Some, None};
ghost use Rattle.nc_outside.specs.Told.{after};
ghost use Rattle.nc_outside.specs.Cause.{Rose};
ghost use Rattle.serial_spec.specs.SoundHeaders.{is_writable};
ghost use Rattle.dataset_start.specs.Dataset.{Asks, AsksForBadLayout, created_header, creation_fault, IsBadDataset, IsBeforeStart, IsKept, IsLaid, IsMislaid, IsRead, TellsDataset};
ghost use Rattle.dataset_start.specs.Limits.{most_taken, TakesAtMost};
ghost use Rattle.dataset_start.specs.Readiness.{dataset_end, IsLeftUnready, IsReady, IsUnready};
ghost use Rattle.dataset_start.specs.Stops.{IsOfDataset, IsOfLayout, line_of, status_of};
ghost use Rattle.nc_base.specs.declared.errors.LayoutErr.{LayoutErr};
ghost use Rattle.nc_base.specs.declared.errors.ScriptErr.{ScriptErr};
ghost use Rattle.nc_base.specs.declared.script.Script.{Script};
ghost use Rattle.script_spec.specs.ScriptGrammar.{script_fault};

use crate::existing::open;
use crate::fresh::create_filled;
use crate::script::take_script;
use crate::stop::Stop;
use nc_base::{Align, Header, Script};
use nc_outside::{Disk, Source};
use std::alloc::Global;
use var_layout::lay_out;

/// A script, and the header of its dataset, which is ready for the ranks.
#[derive(Drop)]
pub struct Ready {
    pub script: Script,
    pub header: Header,
}

/// Reads the script, and makes its dataset ready.
pub fn begin<S: Source, D: Disk>(
    alloc: Global,
    dataset: &str,
    source: &mut S,
    disk: &mut D,
) -> Result<Ready, Stop>
    ensures asks { IfOk result (λ ready. Asks (S.left source.old) ready.script) }
    ensures read { IfOk result (λ ready. IsRead ready.script) }
    ensures taken { OnOk result (S.left source.new ≡ after (λ _. []) (S.left source.old)) }
    ensures ready { IfOk result (λ ready. IsReady ready.script ready.header (D.held disk.old) (D.held disk.new) (D.calls disk.old) (D.calls disk.new)) }
    ensures from { OnOk result (D.from disk.new ≡ 0) }
    ensures len { IfOk result (λ ready. dataset_end ready.header ≤ D.len disk.new) }
    ensures formed { ¬ (IsErrOf result Stop.Usage) }
    ensures few { TakesAtMost most_taken (S.left source.old) (S.left source.new) }
    ensures refused { (e : ScriptErr) → result ≡ Err (Stop.Script e) → IfSome (S.left source.old) (λ text. script_fault text ≡ Some e) }
    ensures bad { IfErr result (λ stop. status_of stop ≡ 4 → IfSome (line_of stop) (IsBadDataset (S.left source.old) (D.held disk.old) (disk.new ≡ disk.old))) }
    ensures asked { IfErr result (λ stop. status_of stop ≡ 7 → (script : Script) × (Asks (S.left source.old) script × IsLaid script)) }
    ensures unlaid { IsSomeAnd (S.left source.old) AsksForBadLayout → disk.new ≡ disk.old }
    ensures unchanged { IfErr result (λ stop. status_of stop ≡ 4 → D.held disk.new ≡ D.held disk.old) }
    ensures torn { OnErr result (IsLeftUnready (S.left source.old) (D.held disk.old) (D.held disk.new)) }
    ensures source { IsErrOf result Stop.Source → Rose (S.faults source.old) (S.faults source.new) }
    ensures disk { IsErrOf result Stop.Disk → Rose (D.faults disk.old) (D.faults disk.new) }
    ensures later { D.faults disk.old ≤ D.faults disk.new }
    ensures not_started { IfErr result (λ stop. IsBeforeStart (status_of stop) → disk.new ≡ disk.old) }
{
    let script = take_script(alloc, source)?;
    match make_ready(alloc, disk, dataset, &script) {
        Ok(header) => Ok(Ready { script, header }),
        Err(stop) => {
            drop(script);
            Err(stop)
        }
    }
}

/// Makes the dataset of the script ready for the ranks.
pub fn make_ready<D: Disk>(
    alloc: Global,
    disk: &mut D,
    name: &str,
    script: &Script,
) -> Result<Header, Stop>
    requires kept { IsKept script.now }
    ensures ready { IfOk result (λ header. IsReady script.now header (D.held disk.old) (D.held disk.new) (D.calls disk.old) (D.calls disk.new)) }
    ensures from { OnOk result (D.from disk.new ≡ 0) }
    ensures len { IfOk result (λ header. dataset_end header ≤ D.len disk.new) }
    ensures bad { IfErr result (λ stop. status_of stop ≡ 4 → IfSome (line_of stop) (TellsDataset script.now (D.held disk.old))) }
    ensures laid { IfErr result (λ stop. status_of stop ≡ 7 → IsLaid script.now) }
    ensures unlaid { IsMislaid script.now → disk.new ≡ disk.old }
    ensures unchanged { IfErr result (λ stop. status_of stop ≡ 4 → D.held disk.new ≡ D.held disk.old) }
    ensures refused { OnErr result (IsUnready script.now (D.held disk.old) (D.held disk.new)) }
    ensures disk { IsErrOf result Stop.Disk → Rose (D.faults disk.old) (D.faults disk.new) }
    ensures later { D.faults disk.old ≤ D.faults disk.new }
    ensures only { IfErr result IsOfDataset }
{
    if script.fresh {
        let header = laid_out(alloc, script)?;
        match create_filled(alloc, disk, name, script, &header) {
            Ok(()) => Ok(header),
            Err(fault) => {
                drop(header);
                Err(Stop::from(fault))
            }
        }
    } else {
        open(alloc, disk, name, script)
    }
}

/// The header of the dataset that the script creates.
pub fn laid_out(alloc: Global, script: &Script) -> Result<Header, Stop>
    requires kept { IsKept script.now }
    requires fresh { script.now.fresh ≡ true }
    ensures header { IfOk result (λ header. header ≡ created_header script.now) }
    ensures writable { IfOk result (λ header. is_writable header ≡ true) }
    ensures faultless { OnOk result (creation_fault script.now ≡ None) }
    ensures refused { (e : LayoutErr) → result ≡ Err (Stop.Layout e) → creation_fault script.now ≡ Some e }
    ensures only { IfErr result IsOfLayout }
{
    let mut header = script.header.clone(alloc)?;
    let align = Align {
        header: script.hints.header_align,
        var: script.hints.var_align,
    };
    match lay_out(&mut header, &align) {
        Ok(()) => Ok(header),
        Err(fault) => {
            drop(header);
            Err(Stop::from(fault))
        }
    }
}
