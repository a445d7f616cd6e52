// The variables of a new dataset, in the order of their lines, with their names beside them.
ghost use Rattle.std.specs.Prelude.{◌≡◌, ◌<◌, ◌++◌, ◌∷◌, [], IfOk, OnOk, length, false, position, bytes_eq, drop};
ghost use Rattle.std.specs.List.{list_any, list_all};
ghost use Rattle.script_spec.specs.ScriptWords.{is_name};
ghost use Rattle.script_spec.specs.ScriptSteps.{or_fault};
ghost use Rattle.script_spec.specs.ScriptDefinitions.{is_among, var_names, var_head, var_line, name_list, shape, dim_ids, is_record_dim, with_attr_at};
ghost use Rattle.nc_base.specs.declared.errors.ScriptKind.TheVariants as kind;
ghost use Rattle.script_words.specs.Given.{Gives};

use crate::dims::{Dims, push_named};
use nc_base::{
    Attr, AttrList, IdList, LimitName, MAX_VAR_DIMS, MAX_VARS, Memory, Name, NcType, ScriptKind,
    Var, VarList,
};
use script_words::numbers::is_name;
use script_words::word_forms::{bracketed, name, no_more, type_name};
use script_words::{ListParts, Names, ReadErr, Words, beside};
use std::alloc::Global;
use std::marker::Model;

#[derive(Drop)]
pub struct Vars<'a> {
    alloc: Global,
    list: Vec<Var>,
    names: Names<'a>,
}

impl<'a> Model for Vars<'a> {
    ghost use Rattle.std.specs.Prelude.{◌≡◌, List};
    ghost use Rattle.script_spec.specs.ScriptDefinitions.{var_names};
    ghost use Rattle.nc_base.specs.declared.header.Var.{Var};

    ghost Value = { List Var };

    ghost view = { λ v. v.list.items };

    ghost invariant = { λ v. v.names ≡ var_names v.list.items };
}

impl<'a> Vars<'a> {
    pub fn new(alloc: Global) -> Self
        ensures { result ≡ [] }
    {
        Vars {
            alloc,
            list: Vec::new(alloc),
            names: Names::new(alloc),
        }
    }

    pub fn find(&self, name: &'a [u8]) -> Option<usize>
        ensures { result ≡ position (bytes_eq name.now) (var_names self.now) }
    {
        self.names.find(name)
    }

    /// The variables, in order.
    pub fn into_list(self) -> VarList
        ensures { result ≡ self.entry }
    {
        let Vars { list, .. } = self;
        VarList::from_vec(list)
    }

    /// Reads the rest of a variable's line.
    pub fn read(
        &self,
        version: u8,
        dims: &Dims<'a>,
        words: &mut Words<'a>,
    ) -> Result<(NcType, &'a [u8], IdList), ReadErr>
        ensures read { Gives (λ v. record { name = v.1.now; dims = v.2; attrs = []; kind = v.0; begin = 0 }) result (var_line version dims.now self.now words.old) }
        ensures new { IfOk result (λ v. is_among v.1.now (var_names self.now) ≡ false) }
    {
        let (kind, name) = var_head(version, &self.names, words)?;
        let ids = shape(self.alloc, dims, words)?;
        let (ids, _) = beside(ids, no_more(words))?;
        Ok((kind, name, ids))
    }

    /// Adds a variable at the end.
    pub fn push(&mut self, kind: NcType, name: &'a [u8], dims: IdList) -> Result<(), Memory>
        requires { is_among name.now (var_names self.old) ≡ false }
        ensures { OnOk result (self.new ≡ self.old ++ record { name = name.now; dims = dims; attrs = []; kind = kind; begin = 0 } ∷ []) }
    {
        let var = var_of(self.alloc, kind, name, dims)?;
        push_named(&mut self.list, &mut self.names, name, var)?;
        Ok(())
    }

    /// Gives an attribute to the variable at this place.
    pub fn attach(&mut self, place: usize, attr: Attr) -> Result<(), Memory>
        requires { place < length self.old }
        ensures { OnOk result (self.new ≡ with_attr_at place attr self.old) }
    {
        self.list[place].attrs.push(attr)
    }
}

fn var_of(alloc: Global, kind: NcType, name: &[u8], dims: IdList) -> Result<Var, Memory>
    ensures { IfOk result (λ v. v ≡ record { name = name.now; dims = dims; attrs = []; kind = kind; begin = 0 }) }
{
    Ok(Var {
        name: Name::from_slice(alloc, name)?,
        dims,
        attrs: AttrList::new(alloc),
        kind,
        begin: 0,
    })
}

/// Reads a variable's type and its name, which is none of these.
pub fn var_head<'a>(
    version: u8,
    names: &Names<'a>,
    words: &mut Words<'a>,
) -> Result<(NcType, &'a [u8]), ReadErr>
    ensures read { Gives (λ v. ((v.0, v.1.now), words.new)) result (var_head version names.now words.old) }
    ensures new { IfOk result (λ v. is_among v.1.now names.now ≡ false) }
{
    let kind = type_name(version, words)?;
    let name = name(words)?;
    if names.contains(name) {
        return Err(ReadErr::Fault(ScriptKind::TwiceNamed));
    }
    if names.len() >= MAX_VARS {
        return Err(ReadErr::Fault(ScriptKind::Limit(LimitName::Vars)));
    }
    Ok((kind, name))
}

fn all_names(parts: &mut ListParts<'_>) -> bool
    ensures { result ≡ list_all is_name parts.old }
{
    while let Some(part) = parts.take() {
        if !is_name(part) {
            return false;
        }
    }
    true
}

/// Reads the names between brackets.
pub fn name_list<'a>(words: &mut Words<'a>) -> Result<ListParts<'a>, ReadErr>
    ensures { Gives (λ names. (names, words.new)) result (name_list words.old) }
{
    let names = ListParts::new(bracketed(words)?);
    if !all_names(&mut names.again()) {
        return Err(ReadErr::Fault(ScriptKind::BadName));
    }
    Ok(names)
}

/// The places of the dimensions of these names.
fn dim_ids<'a>(alloc: Global, dims: &Dims<'a>, names: &mut ListParts<'a>) -> Result<IdList, ReadErr>
    ensures { Gives (λ ids. ids) result (or_fault kind.UnknownName (dim_ids dims.now names.old)) }
{
    let mut ids = IdList::new(alloc);
    while let Some(name) = names.take() {
        let Some(id) = dims.find(name) else {
            return Err(ReadErr::Fault(ScriptKind::UnknownName));
        };
        ids.push(id)?;
    }
    Ok(ids)
}

fn any_record(dims: &Dims<'_>, ids: &[u32]) -> bool
    ensures { result ≡ list_any (is_record_dim dims.now) ids.now }
{
    ids.iter().any(|id| dims.is_record(*id))
}

fn has_later_record(dims: &Dims<'_>, ids: &[u32]) -> bool
    ensures { result ≡ list_any (is_record_dim dims.now) (drop 1 ids.now) }
{
    match ids.split_first() {
        Some((_, later)) => any_record(dims, later),
        None => false,
    }
}

/// Reads the dimensions of a variable: their places.
fn shape<'a>(alloc: Global, dims: &Dims<'a>, words: &mut Words<'a>) -> Result<IdList, ReadErr>
    ensures { Gives (λ ids. (ids, words.new)) result (shape dims.now words.old) }
{
    let mut names = name_list(words)?;
    let ids = dim_ids(alloc, dims, &mut names)?;
    if ids.len() > MAX_VAR_DIMS {
        return Err(ReadErr::Fault(ScriptKind::Limit(LimitName::VarDims)));
    }
    if has_later_record(dims, ids.as_slice()) {
        return Err(ReadErr::Fault(ScriptKind::BadShape));
    }
    Ok(ids)
}
