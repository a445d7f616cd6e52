// Regions of a file's header that its check accepts.
ghost use Rattle.std.specs.Prelude.{◌≡◌, ℕ, List, IfOk, IfErr};
ghost use Rattle.nc_classic_c.specs.Accepted.{Accepts, IsRegionRefusal};
ghost use Rattle.nc_classic_c.specs.Headers.{IsHeaderOf};
ghost use Rattle.nc_classic_c.specs.Regions.{region_of};

use crate::answers::Refusal;
use crate::headers::read;
use crate::regions::{NcvRegion, direction_of, region_of};
use nc_base::{Header, Region};
use std::alloc::Global;
use var_layout::Measures;
use vara_extents::check;

/// A region, and the header by which it was accepted.
#[derive(Drop)]
pub(crate) struct Accepted {
    pub header: Header,
    pub measures: Measures,
    pub var: usize,
    pub region: Region,
}

/// The region that C asks for, where this header has it.
fn checked(
    header: Header,
    region: Region,
    asked: &NcvRegion,
    records: u64,
    put: bool,
) -> Result<Accepted, Refusal>
    requires { region ≡ region_of asked.now }
    ensures ok { IfOk result (λ accepted. (bytes : List ℕ) → IsHeaderOf bytes header → Accepts bytes asked.now records put accepted) }
    ensures refused { IfErr result (λ r. (bytes : List ℕ) → IsHeaderOf bytes header → IsRegionRefusal bytes asked.now records put r) }
{
    let measures = Measures::of(&header);
    let var = asked.var as usize;
    let found = check(&header, &measures, var, &region, records, direction_of(put));
    let accepted = Accepted {
        header,
        measures,
        var,
        region,
    };
    match found {
        Ok(()) => Ok(accepted),
        Err(code) => {
            drop(accepted);
            Err(Refusal::Asked(code))
        }
    }
}

/// The region that C asks for, where the header that the bytes begin with has it.
pub(crate) fn accept(
    alloc: Global,
    bytes: &[u8],
    asked: &NcvRegion,
    records: u64,
    put: bool,
) -> Result<Accepted, Refusal>
    ensures ok { IfOk result (λ accepted. Accepts bytes.now asked.now records put accepted) }
    ensures refused { IfErr result (λ r. IsRegionRefusal bytes.now asked.now records put r) }
{
    let region = region_of(alloc, asked)?;
    match read(alloc, bytes) {
        Ok((header, _)) => checked(header, region, asked, records, put),
        Err(refusal) => {
            drop(region);
            Err(refusal)
        }
    }
}
