// The grid, the variables over it and the hints.
ghost use Rattle.std.specs.Prelude.{◌≡◌, ◌∷◌, [], IfOk};
ghost use Rattle.script_spec.specs.Generator.{made_header};

use nc_base::{
    AttrList, Dim, DimList, Header, Hints, IdList, Memory, Name, NcType, OverlapRule, Var, VarList,
};
use std::alloc::Global;

pub(crate) const RANKS: u32 = 8;

pub(crate) const ROWS: u32 = 180;

pub(crate) const COLUMNS: u32 = 360;

pub(crate) const TEMP: &[u8] = b"temp";

pub(crate) const PRECIP: &[u8] = b"precip";

/// The default of each hint.
pub(crate) const HINTS: Hints = Hints {
    cb_nodes: 8,
    cb_buffer: 16777216,
    rd_buffer: 4194304,
    wr_buffer: 524288,
    line_room: 2,
    threads: true,
    overlap: OverlapRule::Refuse,
    header_align: 4,
    var_align: 4,
    striping_unit: 1,
};

/// Two variables over records, rows and columns.
pub(crate) fn made_header(alloc: Global) -> Result<Header, Memory>
    ensures { IfOk result (λ header. header ≡ made_header) }
{
    Ok(Header {
        version: 1,
        records: 0,
        dims: made_dims(alloc)?,
        attrs: AttrList::new(alloc),
        vars: made_vars(alloc)?,
    })
}

fn made_dims(alloc: Global) -> Result<DimList, Memory>
    ensures { IfOk result (λ dims. dims ≡ made_header.dims) }
{
    let t = dim(alloc, b"t", 0)?;
    let y = dim(alloc, b"y", u64::from(ROWS))?;
    let x = dim(alloc, b"x", u64::from(COLUMNS))?;
    Ok(DimList::from_vec(vec![in alloc; t, y, x]?))
}

fn made_vars(alloc: Global) -> Result<VarList, Memory>
    ensures { IfOk result (λ vars. vars ≡ made_header.vars) }
{
    let temp = var(alloc, TEMP, NcType::Float)?;
    let precip = var(alloc, PRECIP, NcType::Short)?;
    Ok(VarList::from_vec(vec![in alloc; temp, precip]?))
}

fn dim(alloc: Global, name: &[u8], len: u64) -> Result<Dim, Memory>
    ensures { IfOk result (λ dim. dim ≡ record { name = name.now; len = len }) }
{
    Ok(Dim {
        name: Name::from_slice(alloc, name)?,
        len,
    })
}

/// A variable over all three dimensions, which has no place yet.
fn var(alloc: Global, name: &[u8], kind: NcType) -> Result<Var, Memory>
    ensures { IfOk result (λ var. var ≡ record { name = name.now; dims = 0 ∷ 1 ∷ 2 ∷ []; attrs = []; kind = kind; begin = 0 }) }
{
    Ok(Var {
        name: Name::from_slice(alloc, name)?,
        dims: IdList::from_vec(vec![in alloc; 0, 1, 2]?),
        attrs: AttrList::new(alloc),
        kind,
        begin: 0,
    })
}
