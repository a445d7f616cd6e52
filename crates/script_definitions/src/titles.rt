// The titles of attributes: the owner's word and the name.
ghost use Rattle.std.specs.Prelude.{◌≡◌, ◌++◌, ◌∷◌, [], OnOk, false};
ghost use Rattle.std.specs.List.{list_any};
ghost use Rattle.script_spec.specs.ScriptDefinitions.{same_title};

use indexmap::IndexSet;
use std::alloc::{AllocError, Global};
use std::marker::Model;

/// Different titles.
#[derive(Drop)]
pub struct Titles<'a> {
    set: IndexSet<(&'a [u8], &'a [u8])>,
}

impl<'a> Model for Titles<'a> {
    ghost use Rattle.std.specs.Prelude.{List, map};
    ghost use Rattle.script_spec.specs.ScriptDefinitions.{Title};

    ghost Value = { List Title };

    ghost view = { λ t. map (λ k. (k.0.now, k.1.now)) t.set.keys };
}

impl<'a> Titles<'a> {
    pub fn new(alloc: Global) -> Self
        ensures { result ≡ [] }
    {
        Titles {
            set: IndexSet::new(alloc),
        }
    }

    pub fn contains(&self, owner: &'a [u8], name: &'a [u8]) -> bool
        ensures { result ≡ list_any (same_title (owner.now, name.now)) self.now }
    {
        self.set.contains(&(owner, name))
    }

    /// Adds a new title at the end.
    pub fn push(&mut self, owner: &'a [u8], name: &'a [u8]) -> Result<(), AllocError>
        requires { list_any (same_title (owner.now, name.now)) self.old ≡ false }
        ensures { OnOk result (self.new ≡ self.old ++ (owner.now, name.now) ∷ []) }
    {
        self.set.insert((owner, name))?;
        Ok(())
    }
}
