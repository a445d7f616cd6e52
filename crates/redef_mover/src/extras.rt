// What a script adds, put behind what is there.
ghost use Rattle.std.specs.Prelude.{◌≡◌, ◌++◌, ◌∷◌, ◌⊎◌, [], ◌≤◌, None, Some, map, length, IfOk, IfErr};
ghost use Rattle.nc_base.specs.declared.errors.RedefErr.TheVariants as fault;
ghost use Rattle.nc_base.specs.declared.script.Extra.TheVariants as extra;
ghost use Rattle.serial_spec.specs.Limits.{most_dims};
ghost use Rattle.serial_spec.specs.Redefinition as spec;

use crate::extra_faults::check_extra;
use crate::indexed_header::IndexedHeader;
use nc_base::{
    AttrList, Extra, ExtraList, Header, IdList, Memory, Name, NameList, NcType, RedefErr, Var,
};
use std::alloc::Global;

/// The places of the dimensions of these names, 0 for a name that no dimension has.
fn dim_ids(alloc: Global, header: &IndexedHeader, names: &NameList) -> Result<IdList, Memory>
    requires few { length header.now.dims ≤ most_dims }
    ensures { IfOk result (λ ids. ids ≡ map (spec.dim_id header.now) names.now) }
{
    let mut ids = IdList::new(alloc);
    for name in names.as_slice() {
        let id = header.find_dim(name.as_slice()).unwrap_or(0);
        ids.push(id as u32)?;
    }
    Ok(ids)
}

fn new_var(
    alloc: Global,
    header: &IndexedHeader,
    kind: NcType,
    name: &Name,
    dims: &NameList,
) -> Result<Var, Memory>
    requires few { length header.now.dims ≤ most_dims }
    ensures added { IfOk result (λ var. header.now.vars ++ var ∷ [] ≡ (spec.with_extra header.now (extra.Var kind name.now dims.now)).vars) }
    ensures named { IfOk result (λ var. var.name ≡ name.now) }
    ensures bare { IfOk result (λ var. var.attrs ≡ []) }
{
    Ok(Var {
        name: name.clone(alloc)?,
        dims: dim_ids(alloc, header, dims)?,
        attrs: AttrList::new(alloc),
        kind,
        begin: 0,
    })
}

/// The header with one extra, which has no fault.
fn with_extra<'a>(
    alloc: Global,
    header: IndexedHeader<'a>,
    extra: &'a Extra,
) -> Result<IndexedHeader<'a>, Memory>
    requires few { length header.dims ≤ most_dims }
    ensures { IfOk result (λ new. new ≡ spec.with_extra header.entry extra.now) }
{
    match extra {
        Extra::Dim(dim) => header.with_dim(alloc, dim),
        Extra::Var { kind, name, dims } => {
            match new_var(alloc, &header, *kind, name, dims) {
                Ok(var) => header.with_var(name.as_slice(), var),
                Err(fault) => {
                    drop(header);
                    Err(fault)
                }
            }
        }
        Extra::Att { owner: None, attr } => header.with_attr(alloc, attr),
        Extra::Att {
            owner: Some(owner),
            attr,
        } => header.with_var_attr(alloc, owner.as_slice(), attr),
    }
}

/// The header with all extras, whose variables have no new begins yet; refuses the first that can't be added.
pub(crate) fn add_extras<'a>(
    alloc: Global,
    header: &'a Header,
    extras: &'a ExtraList,
) -> Result<Header, RedefErr>
    requires few { length header.now.dims ≤ most_dims }
    ensures added { IfOk result (λ new. (spec.extras_fault header.now extras.now ≡ None) × (new ≡ spec.added header.now extras.now)) }
    ensures refused { IfErr result (λ e. (e ≡ fault.Memory) ⊎ (spec.extras_fault header.now extras.now ≡ Some e)) }
{
    let mut new = IndexedHeader::new(alloc, header)?;
    for (k, extra) in extras.as_slice().iter().enumerate() {
        check_extra(&new, k, extra)?;
        new = with_extra(alloc, new, extra)?;
    }
    Ok(new.into_header())
}
