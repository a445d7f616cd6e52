// A header that grows by additions, whose names are found by an index.
ghost use Rattle.std.specs.Prelude.{◌≡◌, ◌<◌, ◌++◌, ◌∷◌, ◌||◌, ◌&&◌, [], length, Option, Some, None, List, ℕ, bytes_eq, cond, IfOk, OnOk};
ghost use Rattle.std.specs.Option.{option_or};
ghost use Rattle.serial_spec.specs.Looks as looks;
ghost use Rattle.serial_spec.specs.Redefinition as spec;
ghost use Rattle.redef_mover.specs.Indexed.{attrs_at, given, has_name, is_same, place_of};

use crate::name_index::{AttrNames, NameIndex, Places, add_attr, add_place};
use nc_base::{Attr, AttrList, Dim, DimList, Header, Memory, Var, VarList};
use std::alloc::Global;
use std::marker::Model;

/// A header with an index, which borrows the names from where the parts of the header come from.
#[derive(Drop)]
pub(crate) struct IndexedHeader<'a> {
    header: Header,
    index: NameIndex<'a>,
}

impl<'a> Model for IndexedHeader<'a> {
    ghost use Rattle.nc_base.specs.declared.header.Header.{Header};
    ghost use Rattle.redef_mover.specs.Indexed.{IsIndexOf};

    ghost Value = { Header };

    ghost view = { λ a. a.header };

    ghost invariant = { λ a. IsIndexOf a.header a.index };
}

impl<'a> IndexedHeader<'a> {
    pub(crate) fn new(alloc: Global, header: &'a Header) -> Result<Self, Memory>
        ensures { IfOk result (λ indexed. indexed ≡ header.now) }
    {
        Ok(IndexedHeader {
            header: header.clone(alloc)?,
            index: NameIndex::new(alloc, header)?,
        })
    }

    pub(crate) fn as_header(&self) -> &Header
        ensures { result.now ≡ self.now }
    {
        &self.header
    }

    pub(crate) fn into_header(self) -> Header
        ensures { result ≡ self.entry }
    {
        let IndexedHeader { header, .. } = self;
        header
    }

    /// The first dimension of this name.
    pub(crate) fn find_dim(&self, name: &[u8]) -> Option<usize>
        ensures { result ≡ looks.find_dim self.now name.now }
    {
        self.index.dims.get(name).copied()
    }

    /// The first variable of this name.
    pub(crate) fn find_var(&self, name: &[u8]) -> Option<usize>
        ensures { result ≡ looks.find_var self.now name.now }
    {
        self.index.vars.get(name).copied()
    }

    /// Whether the variable at a place, or the dataset, has an attribute of this name.
    pub(crate) fn has_attr(&self, owner: Option<usize>, name: &'a [u8]) -> bool
        ensures { result ≡ spec.has_attr (attrs_at self.now owner) name.now }
    {
        self.index.attrs.contains(&(owner, name))
    }

    pub(crate) fn with_dim(self, alloc: Global, dim: &'a Dim) -> Result<Self, Memory>
        ensures { IfOk result (λ new. new ≡ record self.entry { dims = self.entry.dims ++ dim.now ∷ [] }) }
    {
        let IndexedHeader {
            mut header,
            mut index,
        } = self;
        push_dim(alloc, &mut index.dims, &mut header.dims, dim)?;
        Ok(IndexedHeader { header, index })
    }

    /// With a variable more, which has this name and no attributes.
    pub(crate) fn with_var(self, name: &'a [u8], var: Var) -> Result<Self, Memory>
        requires named { var.name ≡ name.now }
        requires bare { var.attrs ≡ [] }
        ensures { IfOk result (λ new. new ≡ record self.entry { vars = self.entry.vars ++ var ∷ [] }) }
    {
        let IndexedHeader {
            mut header,
            mut index,
        } = self;
        push_var(&mut index.vars, &mut header.vars, name, var)?;
        Ok(IndexedHeader { header, index })
    }

    /// With an attribute more of the dataset.
    pub(crate) fn with_attr(self, alloc: Global, attr: &'a Attr) -> Result<Self, Memory>
        ensures { IfOk result (λ new. new ≡ record self.entry { attrs = self.entry.attrs ++ attr.now ∷ [] }) }
    {
        let IndexedHeader {
            mut header,
            mut index,
        } = self;
        push_attr(alloc, &mut index.attrs, &mut header.attrs, attr)?;
        Ok(IndexedHeader { header, index })
    }

    /// With an attribute more of the first variable of this name, if there is one.
    pub(crate) fn with_var_attr(
        self,
        alloc: Global,
        owner: &[u8],
        attr: &'a Attr,
    ) -> Result<Self, Memory>
        ensures { IfOk result (λ new. new ≡ record self.entry { vars = spec.with_var_attr owner.now attr.now self.entry.vars }) }
    {
        match self.find_var(owner) {
            None => Ok(self),
            Some(place) => self.with_attr_at(alloc, place, attr),
        }
    }

    fn with_attr_at(self, alloc: Global, place: usize, attr: &'a Attr) -> Result<Self, Memory>
        requires { place < length self.vars }
        ensures { IfOk result (λ new. new ≡ record self.entry { vars = given self.entry.vars place attr.now }) }
    {
        let IndexedHeader {
            mut header,
            mut index,
        } = self;
        push_attr_at(alloc, &mut index.attrs, &mut header.vars, place, attr)?;
        Ok(IndexedHeader { header, index })
    }
}

/// Adds a dimension, and its place under its name.
fn push_dim<'a>(
    alloc: Global,
    places: &mut Places<'a>,
    dims: &mut DimList,
    dim: &'a Dim,
) -> Result<(), Memory>
    ensures placed { OnOk result ((q : List ℕ) → place_of places.new q ≡ option_or (place_of places.old q) (cond (bytes_eq dim.now.name q) (Some (length dims.old)) None)) }
    ensures listed { OnOk result (dims.new ≡ dims.old ++ dim.now ∷ []) }
{
    add_place(places, dim.name.as_slice(), dims.len())?;
    dims.push(dim.clone(alloc)?)
}

/// Adds a variable, and its place under this name.
fn push_var<'a>(
    places: &mut Places<'a>,
    vars: &mut VarList,
    name: &'a [u8],
    var: Var,
) -> Result<(), Memory>
    ensures placed { OnOk result ((q : List ℕ) → place_of places.new q ≡ option_or (place_of places.old q) (cond (bytes_eq name.now q) (Some (length vars.old)) None)) }
    ensures listed { OnOk result (vars.new ≡ vars.old ++ var ∷ []) }
{
    add_place(places, name, vars.len())?;
    vars.push(var)
}

/// Adds an attribute of the dataset, and its name.
fn push_attr<'a>(
    alloc: Global,
    names: &mut AttrNames<'a>,
    attrs: &mut AttrList,
    attr: &'a Attr,
) -> Result<(), Memory>
    ensures named { OnOk result ((o : Option ℕ) (q : List ℕ) → has_name names.new o q ≡ (has_name names.old o q || (is_same None o && bytes_eq attr.now.name q))) }
    ensures listed { OnOk result (attrs.new ≡ attrs.old ++ attr.now ∷ []) }
{
    add_attr(names, None, attr.name.as_slice())?;
    attrs.push(attr.clone(alloc)?)
}

/// Adds an attribute of the variable at this place, and its name.
fn push_attr_at<'a>(
    alloc: Global,
    names: &mut AttrNames<'a>,
    vars: &mut VarList,
    place: usize,
    attr: &'a Attr,
) -> Result<(), Memory>
    requires { place < length vars.old }
    ensures named { OnOk result ((o : Option ℕ) (q : List ℕ) → has_name names.new o q ≡ (has_name names.old o q || (is_same (Some place) o && bytes_eq attr.now.name q))) }
    ensures grown { OnOk result (vars.new ≡ given vars.old place attr.now) }
{
    add_attr(names, Some(place), attr.name.as_slice())?;
    give(vars.as_mut_slice(), place, attr.clone(alloc)?)
}

/// Gives the variable at this place an attribute.
fn give(vars: &mut [Var], place: usize, attr: Attr) -> Result<(), Memory>
    requires { place < length vars.old }
    ensures { OnOk result (vars.new ≡ given vars.old place attr) }
{
    vars[place].attrs.push(attr)
}
