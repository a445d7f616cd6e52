// The lines that tell why there is no plan.
ghost use Rattle.std.specs.Prelude.{◌≡◌, ◌⊎◌, None, true, is_some, option_map, IfOk, IfSome, IsOk};
ghost use Rattle.script_spec.specs.Texts.{disk_line};
ghost use Rattle.dataset_start.specs.Stops.{status_of};
ghost use Rattle.plan_cli.specs.FaultLines as spec;
ghost use Rattle.plan_cli.specs.FaultLines.{fixed_line_of, line_of};
ghost use Rattle.plan_cli.specs.Outside.{GivesLine};

use dataset_start::{Stop, give_all};
use nc_base::{Blob, Memory};
use nc_outside::Sink;
use printed_text::words::push_bytes;
use std::alloc::Global;

// How many bytes of a line of ncrun are its name.
const NAME: usize = 5;

/// Gives the line that tells why there is no plan, where one does; the status. A sink that fails on it leaves the status.
pub(crate) fn tell<K: Sink>(alloc: Global, out: &mut K, stop: Stop) -> u8
    ensures status { (result ≡ status_of stop) ⊎ (result ≡ 8) }
    ensures fixed { is_some (fixed_line_of stop) ≡ true → result ≡ status_of stop }
    ensures unlined { line_of stop ≡ None → (result ≡ status_of stop) × (out.new ≡ out.old) }
    ensures line { result ≡ status_of stop → IfSome (line_of stop) (λ line. GivesLine (K.faults out.old) (K.faults out.new) (K.given out.old) (K.given out.new) line) }
    ensures silent { result ≡ 8 → out.new ≡ out.old }
{
    if let Some(line) = fixed_line(stop) {
        let _ = give_all(out, line);
        return stop.status();
    }
    match made_line(alloc, stop) {
        Ok(Some(line)) => {
            let _ = give_all(out, line.as_slice());
            stop.status()
        }
        Ok(None) => stop.status(),
        Err(_) => 8,
    }
}

// The line that tells a stop, where that is always the same.
fn fixed_line(stop: Stop) -> Option<&'static [u8]>
    ensures { option_map (λ line. line.now) result ≡ fixed_line_of stop }
{
    match stop {
        Stop::Usage => Some(usage_line()),
        Stop::Disk => Some(disk_line()),
        _ => None,
    }
}

fn usage_line() -> &'static [u8]
    ensures { result.now ≡ spec.usage_line }
{
    b"ncplan: usage: ncplan [--json] [DATASET] < SCRIPT\n"
}

fn disk_line() -> &'static [u8]
    ensures { result.now ≡ spec.renamed disk_line }
{
    b"ncplan: disk fault\n"
}

// The line that tells a stop, where one is made for it.
fn made_line(alloc: Global, stop: Stop) -> Result<Option<Blob>, Memory>
    requires { fixed_line_of stop ≡ None }
    ensures line { IfOk result (λ line. line ≡ line_of stop) }
    ensures none { line_of stop ≡ None → IsOk result }
{
    match stop.made_line(alloc) {
        Ok(Some(line)) => Ok(Some(renamed(alloc, line.as_slice())?)),
        Ok(None) => Ok(None),
        Err(e) => Err(e),
    }
}

// A line of ncrun under the name of this program.
fn renamed(alloc: Global, line: &[u8]) -> Result<Blob, Memory>
    ensures { IfOk result (λ own. own ≡ spec.renamed line.now) }
{
    let mut out = Vec::new(alloc);
    push_bytes(&mut out, b"ncplan")?;
    push_bytes(&mut out, line.get(NAME..).unwrap_or(b""))?;
    Ok(Blob::from_vec(out))
}
