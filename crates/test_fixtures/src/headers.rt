// Headers in the first version of the format, whose variables lie over one dimension.
ghost use Rattle.std.specs.Prelude.{◌≡◌, [], ◌∷◌, true, IfOk};
ghost use Rattle.serial_spec.specs.Examples.{defined, dim, var};
ghost use Rattle.serial_spec.specs.SoundHeaders.{is_sound};
ghost use Rattle.var_layout.specs.Unplaced.{is_unplaced};

use crate::lists::one;
use nc_base::{Align, AttrList, Dim, Header, LayoutErr, Memory, NcType, Var, VarList};
use std::alloc::Global;
use var_layout::lay_out;

/// A dimension of one letter; one of length 0 has no limit.
pub fn dimension(alloc: Global, letter: u8, len: u64) -> Result<Dim, Memory>
    ensures { IfOk result (λ x. x ≡ dim letter len) }
{
    Ok(Dim {
        name: one(alloc, letter)?,
        len,
    })
}

/// A variable of one letter over the first dimension.
pub fn variable(alloc: Global, letter: u8, kind: NcType, begin: u64) -> Result<Var, Memory>
    ensures { IfOk result (λ v. v ≡ record (var letter kind (0 ∷ [])) { begin = begin }) }
{
    Ok(Var {
        name: one(alloc, letter)?,
        dims: one(alloc, 0)?,
        attrs: AttrList::new(alloc),
        kind,
        begin,
    })
}

/// The header of variables over one dimension, without a record.
pub fn over_one(alloc: Global, x: Dim, vars: VarList) -> Result<Header, Memory>
    ensures { IfOk result (λ header. header ≡ defined 1 (x ∷ []) vars) }
{
    Ok(Header {
        version: 1,
        records: 0,
        dims: one(alloc, x)?,
        attrs: AttrList::new(alloc),
        vars,
    })
}

/// The header of the dimension x and the variable v over it. Its begin would be 80 where it has none yet.
pub fn one_variable(alloc: Global, len: u64, kind: NcType, begin: u64) -> Result<Header, Memory>
    ensures parts { IfOk result (λ header. header ≡ defined 1 (dim 120 len ∷ []) (record (var 118 kind (0 ∷ [])) { begin = begin } ∷ [])) }
    ensures unplaced { IfOk result (λ header. is_unplaced header ≡ true) }
{
    let x = dimension(alloc, b'x', len)?;
    let v = variable(alloc, b'v', kind, begin)?;
    over_one(alloc, x, one(alloc, v)?)
}

/// The header with its begins, which are multiples of 4.
pub fn laid_out(mut header: Header) -> Result<Header, LayoutErr>
    requires { is_unplaced header ≡ true }
    ensures { IfOk result (λ placed. is_sound placed ≡ true) }
{
    lay_out(&mut header, &Align { header: 4, var: 4 })?;
    Ok(header)
}
