// What a script adds to an existing dataset.
ghost use Rattle.std.specs.Prelude.{◌≡◌, ◌≤◌, ◌^◌, ◌+◌, ◌++◌, ◌∷◌, [], IfOk, OnOk, length, drop, nat_lt};
ghost use Rattle.std.specs.List.{list_any};
ghost use Rattle.script_spec.specs.ScriptDefinitions.{Added, nothing_added, is_added_record, added_shape, owner_name, dim_addition, var_addition, att_addition};
ghost use Rattle.script_definitions.specs.DraftWords.{addition_by};
ghost use Rattle.script_words.specs.Given.{Gives};

use crate::attributes::attribute;
use crate::dims::Dims;
use crate::titles::Titles;
use crate::vars::{name_list, var_head};
use nc_base::{
    Attr, Dim, Extra, ExtraList, LimitName, MAX_VAR_DIMS, Memory, Name, NameList, NcType,
    ScriptKind,
};
use script_words::word_forms::{no_more, owner};
use script_words::{ListParts, Names, ReadErr, Words};
use std::alloc::Global;
use std::marker::Model;

#[derive(Drop)]
pub struct Additions<'a> {
    alloc: Global,
    dims: Dims<'a>,
    vars: Names<'a>,
    titles: Titles<'a>,
    extras: ExtraList,
}

impl<'a> Model for Additions<'a> {
    ghost use Rattle.script_spec.specs.ScriptDefinitions.{Added};

    ghost Value = { Added };

    ghost view = { λ d. record { dims = d.dims; vars = d.vars; titles = d.titles; extras = d.extras } };
}

/// Adds a name at the end, with its own bytes.
fn push_name(alloc: Global, list: &mut NameList, name: &[u8]) -> Result<(), Memory>
    ensures { OnOk result (list.new ≡ list.old ++ name.now ∷ []) }
{
    let name = Name::from_slice(alloc, name)?;
    list.push(name)
}

/// The names, each with its own bytes.
fn owned_names(alloc: Global, names: &mut ListParts<'_>) -> Result<NameList, Memory>
    ensures { IfOk result (λ list. list ≡ names.old) }
{
    let mut list = NameList::new(alloc);
    while let Some(name) = names.take() {
        push_name(alloc, &mut list, name)?;
    }
    Ok(list)
}

/// Adds a dimension at the end.
fn push_dim(alloc: Global, extras: &mut ExtraList, name: &[u8], len: u64) -> Result<(), Memory>
    ensures { OnOk result (extras.new ≡ extras.old ++ Extra.Dim (record { name = name.now; len = len }) ∷ []) }
{
    let name = Name::from_slice(alloc, name)?;
    extras.push(Extra::Dim(Dim { name, len }))
}

/// Adds a variable at the end, over the dimensions of these names.
fn push_var(
    alloc: Global,
    extras: &mut ExtraList,
    kind: NcType,
    name: &[u8],
    dims: &mut ListParts<'_>,
) -> Result<(), Memory>
    ensures { OnOk result (extras.new ≡ extras.old ++ Extra.Var kind name.now dims.old ∷ []) }
{
    let dims = owned_names(alloc, dims)?;
    let name = Name::from_slice(alloc, name)?;
    extras.push(Extra::Var { kind, name, dims })
}

/// The owner of an attribute, none for the dataset.
fn owner_name(alloc: Global, owner: &[u8]) -> Result<Option<Name>, Memory>
    ensures { IfOk result (λ name. name ≡ owner_name owner.now) }
{
    if owner == b":".as_slice() {
        return Ok(None);
    }
    Ok(Some(Name::from_slice(alloc, owner)?))
}

/// Adds an attribute of this owner at the end.
fn push_att(alloc: Global, extras: &mut ExtraList, owner: &[u8], attr: Attr) -> Result<(), Memory>
    ensures { OnOk result (extras.new ≡ extras.old ++ Extra.Att (owner_name owner.now) attr ∷ []) }
{
    let owner = owner_name(alloc, owner)?;
    extras.push(Extra::Att { owner, attr })
}

fn any_record(dims: &Dims<'_>, names: &mut ListParts<'_>) -> bool
    ensures { result ≡ list_any (is_added_record dims.now) names.old }
{
    while let Some(name) = names.take() {
        if dims.is_named_record(name) {
            return true;
        }
    }
    false
}

fn has_later_record(dims: &Dims<'_>, names: &ListParts<'_>) -> bool
    ensures { result ≡ list_any (is_added_record dims.now) (drop 1 names.now) }
{
    let mut later = names.again();
    match later.take() {
        Some(_) => any_record(dims, &mut later),
        None => false,
    }
}

/// Whether there are more names than so many.
fn are_more_than(names: &mut ListParts<'_>, limit: usize) -> bool
    ensures { result ≡ nat_lt limit (length names.old) }
{
    let mut left = limit;
    while let Some(_) = names.take() {
        if left == 0 {
            return true;
        }
        left -= 1;
    }
    false
}

/// Reads the names of a variable's dimensions.
fn shape<'a>(dims: &Dims<'a>, words: &mut Words<'a>) -> Result<ListParts<'a>, ReadErr>
    ensures { Gives (λ names. (names, words.new)) result (added_shape dims.now words.old) }
{
    let names = name_list(words)?;
    if are_more_than(&mut names.again(), MAX_VAR_DIMS) {
        return Err(ReadErr::Fault(ScriptKind::Limit(LimitName::VarDims)));
    }
    if has_later_record(dims, &names) {
        return Err(ReadErr::Fault(ScriptKind::BadShape));
    }
    Ok(names)
}

impl<'a> Additions<'a> {
    pub fn new(alloc: Global) -> Self
        ensures { result ≡ nothing_added }
    {
        Additions {
            alloc,
            dims: Dims::new(alloc),
            vars: Names::new(alloc),
            titles: Titles::new(alloc),
            extras: ExtraList::new(alloc),
        }
    }

    /// What is added, in order.
    pub fn into_extras(self) -> ExtraList
        ensures { result ≡ self.entry.extras }
    {
        let Additions {
            dims,
            vars,
            titles,
            extras,
            ..
        } = self;
        drop((dims, vars, titles));
        extras
    }

    fn read_dim(&mut self, words: &mut Words<'a>) -> Result<u64, ReadErr>
        ensures read { Gives (λ n. (n, self.new)) result (dim_addition self.old words.old) }
        ensures none { IfOk result (λ n. n ≡ 0) }
    {
        let (name, len) = self.dims.read(5, words)?;
        push_dim(self.alloc, &mut self.extras, name, len)?;
        self.dims.push(name, len)?;
        Ok(0)
    }

    fn read_var(&mut self, words: &mut Words<'a>) -> Result<u64, ReadErr>
        ensures read { Gives (λ n. (n, self.new)) result (var_addition self.old words.old) }
        ensures none { IfOk result (λ n. n ≡ 0) }
    {
        let (kind, name) = var_head(5, &self.vars, words)?;
        let mut dims = shape(&self.dims, words)?;
        no_more(words)?;
        push_var(self.alloc, &mut self.extras, kind, name, &mut dims)?;
        self.vars.push(name)?;
        Ok(0)
    }

    fn read_att(&mut self, before: u64, words: &mut Words<'a>) -> Result<u64, ReadErr>
        requires { before ≤ 2 ^ 24 }
        ensures read { Gives (λ n. (n, self.new)) result (att_addition before self.old words.old) }
        ensures bound { IfOk result (λ n. before + n ≤ 2 ^ 24) }
    {
        let owner = owner(words)?;
        let (name, attr) = attribute(self.alloc, 5, &self.titles, before, owner, words)?;
        let count = attr.count;
        push_att(self.alloc, &mut self.extras, owner, attr)?;
        self.titles.push(owner, name)?;
        Ok(count)
    }

    /// Reads a line: how many values it has.
    #[tactic(auto, unfolding(crate::specs::DraftWords::addition_by))]
    pub(crate) fn read(
        &mut self,
        before: u64,
        first: &'a [u8],
        words: &mut Words<'a>,
    ) -> Result<u64, ReadErr>
        requires { before ≤ 2 ^ 24 }
        ensures read { Gives (λ n. (n, self.new)) result (addition_by before self.old first.now words.old) }
        ensures bound { IfOk result (λ n. before + n ≤ 2 ^ 24) }
    {
        if first == b"dim".as_slice() {
            return self.read_dim(words);
        }
        if first == b"var".as_slice() {
            return self.read_var(words);
        }
        if first == b"att".as_slice() {
            return self.read_att(before, words);
        }
        Err(ReadErr::Fault(ScriptKind::UnknownWord))
    }
}
