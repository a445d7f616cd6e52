// The definitions of a header as C gives them.
ghost use Rattle.std.specs.Prelude.{◌≡◌, map, IfOk};
ghost use Rattle.cdf_header.specs.Reading.{kind_of};
ghost use Rattle.nc_classic_c.specs.Tables.{dimension_of, attribute_of, variable_of, header_of};

use nc_base::{Attr, Blob, Dim, Header, IdList, Items, Memory, Name, NcType, Var};
use std::alloc::Global;
use type_external::size_of;

/// A dimension that is defined; length 0 is the record dimension's.
#[repr(C)]
#[derive(Clone, Copy)]
pub struct NcvDimDef<'a> {
    pub name: &'a [u8],
    pub length: u64,
}

/// An attribute that is defined, its values in external form.
#[repr(C)]
#[derive(Clone, Copy)]
pub struct NcvAttDef<'a> {
    pub name: &'a [u8],
    pub values: &'a [u8],
    pub kind: u32,
}

/// A variable that is defined: the numbers of its dimensions, the slowest first.
#[repr(C)]
#[derive(Clone, Copy)]
pub struct NcvVarDef<'a> {
    pub name: &'a [u8],
    pub ids: &'a [u32],
    pub attrs: &'a [NcvAttDef<'a>],
    pub kind: u32,
}

/// A header that is defined.
#[repr(C)]
#[derive(Clone, Copy)]
pub struct NcvHeaderDef<'a> {
    pub dims: &'a [NcvDimDef<'a>],
    pub attrs: &'a [NcvAttDef<'a>],
    pub vars: &'a [NcvVarDef<'a>],
    /// The record count.
    pub records: u64,
    pub header_align: u64,
    pub var_align: u64,
    /// 1, 2 or 5.
    pub version: u32,
}

/// The type of this number, which is one of them.
pub(crate) fn kind_of(number: u32) -> NcType
    ensures { result ≡ kind_of number }
{
    match number {
        1 => NcType::Byte,
        2 => NcType::Char,
        3 => NcType::Short,
        4 => NcType::Int,
        5 => NcType::Float,
        6 => NcType::Double,
        7 => NcType::UByte,
        8 => NcType::UShort,
        9 => NcType::UInt,
        10 => NcType::Int64,
        _ => NcType::UInt64,
    }
}

/// A definition of what stands in a list of a header.
trait Defines<T> {
    ghost made: { Self → T };

    fn make(&self, alloc: Global) -> Result<T, Memory>
        ensures { IfOk result (λ x. x ≡ made self.now) };
}

impl Defines<Dim> for NcvDimDef<'_> {
    ghost made = { λ d. dimension_of d };

    fn make(&self, alloc: Global) -> Result<Dim, Memory> {
        Ok(Dim {
            name: Name::from_slice(alloc, self.name)?,
            len: self.length,
        })
    }
}

impl Defines<Attr> for NcvAttDef<'_> {
    ghost made = { λ a. attribute_of a };

    fn make(&self, alloc: Global) -> Result<Attr, Memory> {
        let kind = kind_of(self.kind);
        Ok(Attr {
            name: Name::from_slice(alloc, self.name)?,
            kind,
            count: self.values.len() as u64 / size_of(kind),
            bytes: Blob::from_slice(alloc, self.values)?,
        })
    }
}

impl Defines<Var> for NcvVarDef<'_> {
    ghost made = { λ v. variable_of v };

    fn make(&self, alloc: Global) -> Result<Var, Memory> {
        Ok(Var {
            name: Name::from_slice(alloc, self.name)?,
            dims: IdList::from_slice(alloc, self.ids)?,
            attrs: make_all(alloc, self.attrs)?,
            kind: kind_of(self.kind),
            begin: 0,
        })
    }
}

/// What the definitions of a list make.
fn make_all<T: Drop, D: Defines<T>>(alloc: Global, defined: &[D]) -> Result<Items<T>, Memory>
    ensures { IfOk result (λ items. items ≡ map D.made defined.now) }
{
    let mut items = Items::new(alloc);
    for one in defined {
        let item = one.make(alloc)?;
        items.push(item)?;
    }
    Ok(items)
}

/// The header that is defined, of this version, before its variables have places.
pub(crate) fn header_of(
    alloc: Global,
    version: u8,
    defined: &NcvHeaderDef,
) -> Result<Header, Memory>
    requires { version ≡ defined.now.version }
    ensures { IfOk result (λ header. header ≡ header_of defined.now) }
{
    Ok(Header {
        version,
        records: 0,
        dims: make_all(alloc, defined.dims)?,
        attrs: make_all(alloc, defined.attrs)?,
        vars: make_all(alloc, defined.vars)?,
    })
}
