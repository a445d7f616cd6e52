// The dimensions of a script, in the order of their lines, with their names beside them.
ghost use Rattle.std.specs.Prelude.{◌≡◌, ◌<◌, ◌++◌, ◌∷◌, [], List, OnOk, OnErr, length, false, position, bytes_eq, option_map};
ghost use Rattle.std.specs.List.{list_any};
ghost use Rattle.script_spec.specs.ScriptDefinitions.{is_among, is_unlimited, dim_line, dim_names, is_record_dim, is_added_record};
ghost use Rattle.script_words.specs.Given.{Gives};
ghost use Rattle.nc_base.specs.declared.header.Dim.{Dim};
ghost use Rattle.script_definitions.specs.RecordName.{IsRecordName};

use nc_base::{Dim, DimList, LimitName, MAX_DIMS, Memory, Name, ScriptKind};
use script_words::word_forms::{dim_length, name, no_more};
use script_words::{Names, ReadErr, Words};
use std::alloc::{AllocError, Global};
use std::marker::Model;

#[derive(Drop)]
pub struct Dims<'a> {
    alloc: Global,
    list: Vec<Dim>,
    names: Names<'a>,
    /// The name of the unlimited one.
    unlimited: Option<&'a [u8]>,
}

impl<'a> Model for Dims<'a> {
    ghost use Rattle.std.specs.Prelude.{◌≡◌, ◌≤◌, List, length, option_map};
    ghost use Rattle.script_spec.specs.ScriptDefinitions.{dim_names};
    ghost use Rattle.script_definitions.specs.RecordName.{IsRecordName};
    ghost use Rattle.nc_base.specs.declared.header.Dim.{Dim};

    ghost Value = { List Dim };

    ghost view = { λ d. d.list.items };

    ghost invariant = { λ d. (d.names ≡ dim_names d.list.items) × (IsRecordName (option_map (λ n. n.now) d.unlimited) d.list.items) × (length d.list.items ≤ 1024) };
}

impl<'a> Dims<'a> {
    pub fn new(alloc: Global) -> Self
        ensures { result ≡ [] }
    {
        Dims {
            alloc,
            list: Vec::new(alloc),
            names: Names::new(alloc),
            unlimited: None,
        }
    }

    pub fn len(&self) -> usize
        ensures { result ≡ length self.now }
    {
        self.list.len()
    }

    pub fn is_named(&self, name: &'a [u8]) -> bool
        ensures { result ≡ is_among name.now (dim_names self.now) }
    {
        self.names.contains(name)
    }

    pub fn find(&self, name: &'a [u8]) -> Option<u32>
        ensures { result ≡ position (bytes_eq name.now) (dim_names self.now) }
    {
        match self.names.find(name) {
            Some(place) => Some(place as u32),
            None => None,
        }
    }

    /// Whether the dimension at this place is the record dimension.
    pub fn is_record(&self, id: u32) -> bool
        ensures { result ≡ is_record_dim self.now id }
    {
        match self.list.get(id as usize) {
            Some(dim) => dim.len == 0,
            None => false,
        }
    }

    /// Whether the dimension of this name is the record dimension.
    pub fn is_named_record(&self, name: &[u8]) -> bool
        ensures { result ≡ is_added_record self.now name.now }
    {
        match self.unlimited {
            Some(own) => name == own,
            None => false,
        }
    }

    /// The dimensions, in order.
    pub fn into_list(self) -> DimList
        ensures { result ≡ self.entry }
    {
        let Dims { list, .. } = self;
        DimList::from_vec(list)
    }

    pub fn has_unlimited(&self) -> bool
        ensures { result ≡ list_any is_unlimited self.now }
    {
        self.unlimited.is_some()
    }

    /// Reads the rest of a dimension's line.
    pub fn read(&self, version: u8, words: &mut Words<'a>) -> Result<(&'a [u8], u64), ReadErr>
        ensures { Gives (λ x. record { name = x.0.now; len = x.1 }) result (dim_line version self.now words.old) }
    {
        let name = name(words)?;
        if self.is_named(name) {
            return Err(ReadErr::Fault(ScriptKind::TwiceNamed));
        }
        if self.len() >= MAX_DIMS {
            return Err(ReadErr::Fault(ScriptKind::Limit(LimitName::Dims)));
        }
        let len = dim_length(version, words)?;
        if len == 0 && self.has_unlimited() {
            return Err(ReadErr::Fault(ScriptKind::BadShape));
        }
        no_more(words)?;
        Ok((name, len))
    }

    /// Adds a dimension at the end. There is one at most that is unlimited.
    pub fn push(&mut self, name: &'a [u8], len: u64) -> Result<(), Memory>
        requires new { is_among name.now (dim_names self.old) ≡ false }
        requires one { len ≡ 0 → list_any is_unlimited self.old ≡ false }
        requires room { length self.old < 1024 }
        ensures { OnOk result (self.new ≡ self.old ++ record { name = name.now; len = len } ∷ []) }
    {
        let owned = Name::from_slice(self.alloc, name)?;
        push_named(
            &mut self.list,
            &mut self.names,
            name,
            Dim { name: owned, len },
        )?;
        self.unlimited = record_name(self.unlimited, name, len);
        Ok(())
    }
}

/// Adds an item at the end and its name to the names, or neither.
pub fn push_named<'a, T: Drop>(
    list: &mut Vec<T>,
    names: &mut Names<'a>,
    name: &'a [u8],
    item: T,
) -> Result<(), AllocError>
    requires { is_among name.now names.old ≡ false }
    ensures items { OnOk result (list.new.items ≡ list.old.items ++ item ∷ []) }
    ensures names { OnOk result (names.new ≡ names.old ++ name.now ∷ []) }
    ensures same_items { OnErr result (list.new.items ≡ list.old.items) }
    ensures same_names { OnErr result (names.new ≡ names.old) }
{
    list.reserve(1)?;
    names.push(name)?;
    list.push_reserved(item);
    Ok(())
}

/// The name of the unlimited dimension behind one more.
fn record_name<'a>(known: Option<&'a [u8]>, name: &'a [u8], len: u64) -> Option<&'a [u8]>
    ensures { (dims : List Dim) → IsRecordName (option_map (λ n. n.now) known.entry) dims → (len ≡ 0 → list_any is_unlimited dims ≡ false)
        → IsRecordName (option_map (λ n. n.now) result) (dims ++ record { name = name.now; len = len } ∷ []) }
{
    if len == 0 {
        return Some(name);
    }
    known
}
