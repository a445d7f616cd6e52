//! A caller of `nc_classic`, as a program writes it.
#![tactic(auto)]

ghost use Rattle.std.specs.Prelude.{◌≡◌, ◌≤◌, ◌^◌, ℕ, length, slice_get, Some, IfOk};
ghost use Rattle.nc_base.specs.declared.header.Header.{Header};
ghost use Rattle.nc_base.specs.declared.header.Var.{Var};
ghost use Rattle.nc_classic.specs.Decoded.{BeginsWith};
ghost use Rattle.nc_classic.specs.Extents.{spans, IsOnce};
ghost use Rattle.nc_classic.specs.Joined.{extents_of};
ghost use Rattle.nc_classic.specs.Left.{extents_left, IsReady};

use nc_classic::{
    Code, Direction, Extent, Extents, Header, HeaderErr, Measures, NcType, Region, check, decode,
    extents_law,
};
use std::alloc::{AllocError, Global};

/// Where the values of a region lie.
#[derive(Drop)]
pub struct Found {
    /// Their type.
    pub kind: NcType,
    /// Their bytes in the file, in row-major order of the elements.
    pub extents: Vec<Extent>,
}

/// Why a file has no such region.
#[derive(Clone, Copy, PartialEq, Eq)]
pub enum Refused {
    /// Its header is at fault.
    Header(HeaderErr),
    /// Its header has no such variable, or the variable no such elements.
    Region(Code),
    /// No memory.
    Memory,
}

/// Finds the values of a region of variable number `var`, to be read. `bytes` are the first bytes of the file.
pub fn find(alloc: Global, bytes: &[u8], var: usize, region: &Region) -> Result<Found, Refused>
    requires { length bytes.now ≤ 2 ^ 20 }
    ensures found { IfOk result (λ found. (header : Header) × (len : ℕ) × (v : Var) × BeginsWith bytes.now header len
        × (slice_get header.vars var ≡ Some v) × (found.kind ≡ v.kind) × (found.extents.items ≡ extents_of header v region.now)) }
    // No byte stands in them twice.
    ensures once { IfOk result (λ found. IsOnce (spans found.extents.items)) }
{
    extents_law();
    let header = match decode(alloc, bytes) {
        Ok((header, _)) => header,
        Err(fault) => return Err(Refused::Header(fault)),
    };
    let Some(variable) = header.vars.as_slice().get(var) else {
        return Err(Refused::Region(Code::ENotVar));
    };
    let measures = Measures::of(&header);
    if let Err(code) = check(
        &header,
        &measures,
        var,
        region,
        header.records,
        Direction::Get,
    ) {
        return Err(Refused::Region(code));
    }
    match listed(alloc, Extents::new(&header, &measures, var, region)) {
        Ok(extents) => Ok(Found {
            kind: variable.kind,
            extents,
        }),
        Err(AllocError) => Err(Refused::Memory),
    }
}

// The extents that are left, in a list.
fn listed(alloc: Global, extents: Extents) -> Result<Vec<Extent>, AllocError>
    requires { IsReady extents }
    ensures { IfOk result (λ list. list.items ≡ extents_left extents.entry) }
{
    let mut list = Vec::new(alloc);
    for extent in extents {
        list.push(extent)?;
    }
    Ok(list)
}
