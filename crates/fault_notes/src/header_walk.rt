// A header that may have a fault, gone over field by field up to a place, by the netCDF classic format specification.
ghost use Rattle.std.specs.Prelude.{◌<◌};

use crate::fill::{Value, fill};
use crate::table::beside;
use std::alloc::AllocError;

/// A dimension, variable or attribute by its number, from 0, and its name, which is empty where it wasn't read.
#[derive(Clone, Copy)]
pub(crate) struct Named<'a> {
    pub number: u64,
    pub name: &'a [u8],
}

impl<'a> Named<'a> {
    /// As it stands in a note.
    pub(crate) fn value(self) -> Value<'a> {
        Value::Item(self.number, self.name)
    }
}

/// A field of a header.
#[derive(Clone, Copy, PartialEq, Eq)]
pub(crate) enum Field {
    Magic,
    Records,
    DimsTag,
    DimCount,
    DimId,
    AttrsTag,
    AttrCount,
    VarsTag,
    VarCount,
    NameLength,
    Name,
    Length,
    Type,
    ValueCount,
    Values,
    Size,
    Begin,
}

const FIELDS: [(Field, &str); 17] = [
    (Field::Magic, "the magic number"),
    (Field::Records, "the number of records"),
    (Field::DimsTag, "the tag of the dimensions"),
    (Field::DimCount, "the number of dimensions"),
    (Field::DimId, "the number of a dimension"),
    (Field::AttrsTag, "the tag of the attributes"),
    (Field::AttrCount, "the number of attributes"),
    (Field::VarsTag, "the tag of the variables"),
    (Field::VarCount, "the number of variables"),
    (Field::NameLength, "the length of the name"),
    (Field::Name, "the name"),
    (Field::Length, "the length"),
    (Field::Type, "the type"),
    (Field::ValueCount, "the number of values"),
    (Field::Values, "the block of values"),
    (Field::Size, "the size"),
    (Field::Begin, "the begin"),
];

impl Field {
    /// What it is called.
    fn name(self) -> &'static str {
        beside(self, &FIELDS).unwrap_or("")
    }
}

/// What a field is a part of, beside an attribute.
#[derive(Clone, Copy)]
pub(crate) enum Owner<'a> {
    Header,
    Dataset,
    Dim(Named<'a>),
    Var(Named<'a>),
}

impl Owner<'_> {
    // Adds whose a field is.
    fn push(self, out: &mut String) -> Result<(), AllocError> {
        match self {
            Owner::Header => Ok(()),
            Owner::Dataset => out.push_str(" of the dataset"),
            Owner::Dim(dim) => fill(out, " of dimension {}", &[dim.value()]),
            Owner::Var(var) => fill(out, " of variable {}", &[var.value()]),
        }
    }
}

/// Where a walk ends, if not before.
#[derive(Clone, Copy)]
pub(crate) enum Goal {
    /// At the field that begins at this byte.
    Byte(u64),
    /// Behind the variable of this number.
    Var(u64),
    /// Behind the second dimension of length 0.
    RecordDims,
}

/// A walk that has ended: at which field, and what it came by.
#[derive(Clone, Copy)]
pub(crate) struct Walk<'a> {
    bytes: &'a [u8],
    goal: Goal,
    // Where the field begins, and how many bytes it has.
    at: usize,
    length: usize,
    pub field: Field,
    pub owner: Owner<'a>,
    attr: Option<Named<'a>>,
    /// The last two dimensions of length 0.
    pub record_dims: [Option<Named<'a>>; 2],
    /// How many dimensions there are.
    pub dims: u64,
    /// The numbers of the last variable's dimensions, as they are spelled, and the byte at which it begins.
    pub ids: &'a [u8],
    pub begin: u64,
}

/// The number that bytes spell.
pub(crate) fn spelled(bytes: &[u8]) -> u64 {
    let mut number = 0u64;
    for byte in bytes {
        number = number.wrapping_mul(256).wrapping_add(u64::from(*byte));
    }
    number
}

// How many bytes a value has of the type of this number.
fn size_of(kind: u64) -> u64 {
    match kind {
        1 | 2 | 7 => 1,
        3 | 8 => 2,
        4 | 5 | 9 => 4,
        _ => 8,
    }
}

impl<'a> Walk<'a> {
    /// The walk over the first bytes of a dataset.
    pub(crate) fn to(goal: Goal, bytes: &'a [u8]) -> Self {
        let mut walk = Walk {
            bytes,
            goal,
            at: 0,
            length: 0,
            field: Field::Magic,
            owner: Owner::Header,
            attr: None,
            record_dims: [None, None],
            dims: 0,
            ids: &[],
            begin: 0,
        };
        let _ = walk.header();
        walk
    }

    /// Adds the field at which it ended, and whose it is.
    pub(crate) fn push(&self, out: &mut String) -> Result<(), AllocError> {
        out.push_str(self.field.name())?;
        self.push_attr(out)?;
        self.owner.push(out)
    }

    fn push_attr(&self, out: &mut String) -> Result<(), AllocError> {
        match self.attr {
            Some(attr) => fill(out, " of attribute {}", &[attr.value()]),
            None => Ok(()),
        }
    }

    /// How many bytes a count has.
    pub(crate) fn width(&self) -> usize
        ensures some { 0 < result }
    {
        if self.version() == 5 { 8 } else { 4 }
    }

    pub(crate) fn version(&self) -> u8 {
        self.bytes.get(3).copied().unwrap_or(0)
    }

    /// The bytes of the field at which it ended.
    pub(crate) fn here(&self) -> &'a [u8] {
        let rest = self.bytes.get(self.at..).unwrap_or(&[]);
        rest.get(..self.length).unwrap_or(rest)
    }

    /// The number that they spell.
    pub(crate) fn value(&self) -> u64 {
        spelled(self.here())
    }

    // Goes past a field, unless the walk ends there.
    fn block(&mut self, field: Field, length: usize) -> Option<&'a [u8]> {
        self.field = field;
        self.length = length;
        if self.is_there() {
            return None;
        }
        let end = self.at.saturating_add(length);
        let block = self.bytes.get(self.at..end)?;
        self.at = end;
        Some(block)
    }

    // Whether it has come to the byte at which it ends.
    fn is_there(&self) -> bool {
        match self.goal {
            Goal::Byte(at) => at <= self.at as u64,
            _ => false,
        }
    }

    fn word(&mut self, field: Field) -> Option<u64> {
        self.block(field, 4).map(spelled)
    }

    fn number(&mut self, field: Field) -> Option<u64> {
        let width = self.width();
        self.block(field, width).map(spelled)
    }

    // Goes past so many bytes and their padding.
    fn padded(&mut self, field: Field, length: u64) -> Option<&'a [u8]> {
        if length == 0 {
            return Some(&[]);
        }
        let length = usize::try_from(length).unwrap_or(usize::MAX);
        let whole = length.checked_next_multiple_of(4).unwrap_or(usize::MAX);
        self.block(field, whole)?.get(..length)
    }

    fn name(&mut self) -> Option<&'a [u8]> {
        let length = self.number(Field::NameLength)?;
        self.padded(Field::Name, length)
    }

    fn header(&mut self) -> Option<()> {
        self.word(Field::Magic)?;
        self.number(Field::Records)?;
        self.each_dim()?;
        self.owner = Owner::Dataset;
        self.each_attr()?;
        self.owner = Owner::Header;
        self.each_var()
    }

    fn each_dim(&mut self) -> Option<()> {
        self.word(Field::DimsTag)?;
        self.dims = self.number(Field::DimCount)?;
        for number in 0..self.dims {
            self.dim(number)?;
        }
        Some(())
    }

    fn dim(&mut self, number: u64) -> Option<()> {
        self.owner = Owner::Dim(Named { number, name: &[] });
        let name = self.name()?;
        let dim = Named { number, name };
        self.owner = Owner::Dim(dim);
        match self.number(Field::Length)? {
            0 => self.record_dim(dim),
            _ => Some(()),
        }
    }

    fn record_dim(&mut self, dim: Named<'a>) -> Option<()> {
        let before = self.record_dims[1];
        self.record_dims = [before, Some(dim)];
        match (self.goal, before) {
            (Goal::RecordDims, Some(_)) => None,
            _ => Some(()),
        }
    }

    fn each_attr(&mut self) -> Option<()> {
        self.word(Field::AttrsTag)?;
        let count = self.number(Field::AttrCount)?;
        for number in 0..count {
            self.attr(number)?;
        }
        self.attr = None;
        Some(())
    }

    fn attr(&mut self, number: u64) -> Option<()> {
        self.attr = Some(Named { number, name: &[] });
        let name = self.name()?;
        self.attr = Some(Named { number, name });
        let kind = self.word(Field::Type)?;
        let count = self.number(Field::ValueCount)?;
        self.padded(Field::Values, count.saturating_mul(size_of(kind)))?;
        Some(())
    }

    fn each_var(&mut self) -> Option<()> {
        self.word(Field::VarsTag)?;
        let count = self.number(Field::VarCount)?;
        for number in 0..count {
            self.var(number)?;
        }
        Some(())
    }

    fn var(&mut self, number: u64) -> Option<()> {
        self.owner = Owner::Var(Named { number, name: &[] });
        let name = self.name()?;
        self.owner = Owner::Var(Named { number, name });
        self.ids = self.each_id()?;
        self.each_attr()?;
        self.word(Field::Type)?;
        self.number(Field::Size)?;
        let width = if self.version() == 1 { 4 } else { 8 };
        self.begin = spelled(self.block(Field::Begin, width)?);
        match self.goal {
            Goal::Var(last) if last == number => None,
            _ => Some(()),
        }
    }

    fn each_id(&mut self) -> Option<&'a [u8]> {
        let count = self.number(Field::DimCount)?;
        let from = self.at;
        for _ in 0..count {
            self.number(Field::DimId)?;
        }
        self.bytes.get(from..self.at)
    }
}
