// The definitions of a new dataset.
ghost use Rattle.std.specs.Prelude.{◌≡◌, ◌≤◌, ◌<◌, ◌^◌, ◌+◌, IfOk, OnOk, IfSome, Some, None, length, false};
ghost use Rattle.std.specs.List.{list_any};
ghost use Rattle.script_spec.specs.ScriptDefinitions.{Defined, no_definition, owner_place, att_line, fill_line, dim_definition, same_title, var_definition, with_attr_of_owner, with_title};
ghost use Rattle.script_definitions.specs.DraftWords.{definition_by};
ghost use Rattle.script_spec.specs.ScriptGrammar.{header_of};
ghost use Rattle.script_words.specs.Given.{Gives};

use crate::attributes::attribute;
use crate::dims::Dims;
use crate::titles::Titles;
use crate::vars::Vars;
use nc_base::{Attr, AttrList, Header, Memory, ScriptKind};
use script_words::word_forms::{no_more, owner};
use script_words::{ReadErr, Words};
use std::alloc::Global;
use std::marker::Model;

#[derive(Drop)]
pub struct Definitions<'a> {
    alloc: Global,
    dims: Dims<'a>,
    vars: Vars<'a>,
    attrs: AttrList,
    titles: Titles<'a>,
    filled: bool,
}

impl<'a> Model for Definitions<'a> {
    ghost use Rattle.script_spec.specs.ScriptDefinitions.{Defined};

    ghost Value = { Defined };

    ghost view = { λ d. record { dims = d.dims; vars = d.vars; attrs = d.attrs; titles = d.titles; filled = d.filled } };
}

impl<'a> Definitions<'a> {
    pub fn new(alloc: Global) -> Self
        ensures { result ≡ no_definition }
    {
        Definitions {
            alloc,
            dims: Dims::new(alloc),
            vars: Vars::new(alloc),
            attrs: AttrList::new(alloc),
            titles: Titles::new(alloc),
            filled: false,
        }
    }

    pub fn is_filled(&self) -> bool
        ensures { result ≡ self.now.filled }
    {
        self.filled
    }

    /// The header of the dataset.
    pub fn into_header(self, version: u8) -> Header
        ensures { result ≡ header_of version self.entry }
    {
        let Definitions {
            dims,
            vars,
            attrs,
            ..
        } = self;
        Header {
            version,
            records: 0,
            dims: dims.into_list(),
            attrs,
            vars: vars.into_list(),
        }
    }

    fn read_dim(&mut self, version: u8, words: &mut Words<'a>) -> Result<u64, ReadErr>
        ensures read { Gives (λ n. (n, self.new)) result (dim_definition version self.old words.old) }
        ensures none { IfOk result (λ n. n ≡ 0) }
    {
        let (name, len) = self.dims.read(version, words)?;
        self.dims.push(name, len)?;
        Ok(0)
    }

    fn read_var(&mut self, version: u8, words: &mut Words<'a>) -> Result<u64, ReadErr>
        ensures read { Gives (λ n. (n, self.new)) result (var_definition version self.old words.old) }
        ensures none { IfOk result (λ n. n ≡ 0) }
    {
        let (kind, name, ids) = self.vars.read(version, &self.dims, words)?;
        self.vars.push(kind, name, ids)?;
        Ok(0)
    }

    /// The place of an owner, none for the dataset.
    fn owner_place(&self, owner: &'a [u8]) -> Result<Option<usize>, ReadErr>
        ensures read { Gives (λ k. k) result (owner_place self.now.vars owner.now) }
        ensures bound { IfOk result (λ k. IfSome k (λ place. place < length self.now.vars)) }
    {
        if owner == b":".as_slice() {
            return Ok(None);
        }
        match self.vars.find(owner) {
            Some(place) => Ok(Some(place)),
            None => Err(ReadErr::Fault(ScriptKind::UnknownName)),
        }
    }

    /// Gives an attribute to the variable at this place, or to the dataset.
    fn attach(&mut self, place: Option<usize>, attr: Attr) -> Result<(), Memory>
        requires { IfSome place (λ k. k < length self.old.vars) }
        ensures { OnOk result (self.new ≡ with_attr_of_owner place attr self.old) }
    {
        match place {
            None => self.attrs.push(attr),
            Some(place) => self.vars.attach(place, attr),
        }
    }

    /// The same with its title, which is a new one.
    fn attach_titled(
        &mut self,
        place: Option<usize>,
        owner: &'a [u8],
        name: &'a [u8],
        attr: Attr,
    ) -> Result<(), Memory>
        requires place { IfSome place (λ k. k < length self.old.vars) }
        requires new { list_any (same_title (owner.now, name.now)) self.old.titles ≡ false }
        ensures { OnOk result (self.new ≡ with_title owner.now name.now (with_attr_of_owner place attr self.old)) }
    {
        self.attach(place, attr)?;
        self.titles.push(owner, name)?;
        Ok(())
    }

    fn read_att(&mut self, version: u8, before: u64, words: &mut Words<'a>) -> Result<u64, ReadErr>
        requires { before ≤ 2 ^ 24 }
        ensures read { Gives (λ n. (n, self.new)) result (att_line version before self.old words.old) }
        ensures bound { IfOk result (λ n. before + n ≤ 2 ^ 24) }
    {
        let owner = owner(words)?;
        let place = self.owner_place(owner)?;
        let (name, attr) = attribute(self.alloc, version, &self.titles, before, owner, words)?;
        let count = attr.count;
        self.attach_titled(place, owner, name, attr)?;
        Ok(count)
    }

    fn read_fill(&mut self, words: &mut Words<'a>) -> Result<u64, ReadErr>
        ensures read { Gives (λ n. (n, self.new)) result (fill_line self.old words.old) }
        ensures none { IfOk result (λ n. n ≡ 0) }
    {
        if self.filled {
            return Err(ReadErr::Fault(ScriptKind::TwiceNamed));
        }
        no_more(words)?;
        self.filled = true;
        Ok(0)
    }

    /// Reads a line: how many values it has.
    #[tactic(auto, unfolding(crate::specs::DraftWords::definition_by))]
    pub(crate) fn read(
        &mut self,
        version: u8,
        before: u64,
        first: &'a [u8],
        words: &mut Words<'a>,
    ) -> Result<u64, ReadErr>
        requires { before ≤ 2 ^ 24 }
        ensures read { Gives (λ n. (n, self.new)) result (definition_by version before self.old first.now words.old) }
        ensures bound { IfOk result (λ n. before + n ≤ 2 ^ 24) }
    {
        if first == b"dim".as_slice() {
            return self.read_dim(version, words);
        }
        if first == b"var".as_slice() {
            return self.read_var(version, words);
        }
        if first == b"att".as_slice() {
            return self.read_att(version, before, words);
        }
        if first == b"fill".as_slice() {
            return self.read_fill(words);
        }
        Err(ReadErr::Fault(ScriptKind::UnknownWord))
    }
}
