// An index of the names in a header.
ghost use Rattle.std.specs.Prelude.{◌≡◌, ◌||◌, ◌&&◌, Option, Some, None, List, ℕ, bytes_eq, position, cond, IfOk, OnOk};
ghost use Rattle.std.specs.Option.{option_or};
ghost use Rattle.serial_spec.specs.Redefinition.{has_attr};
ghost use Rattle.redef_mover.specs.Indexed.{place_of, has_name, is_same, attrs_at, IsIndexOf};

use nc_base::{Attr, Dim, Header, Memory, Var};
use std::alloc::Global;
use std::collections::{BTreeMap, BTreeSet};

/// Places by names, each name at the first of its places.
pub(crate) type Places<'a> = BTreeMap<&'a [u8], usize>;

/// The names of attributes, under the place of their variable; those of the dataset under none.
pub(crate) type AttrNames<'a> = BTreeSet<(Option<usize>, &'a [u8])>;

/// The names in a header.
#[derive(Drop)]
pub(crate) struct NameIndex<'a> {
    pub(crate) dims: Places<'a>,
    pub(crate) vars: Places<'a>,
    pub(crate) attrs: AttrNames<'a>,
}

impl<'a> NameIndex<'a> {
    pub(crate) fn new(alloc: Global, header: &'a Header) -> Result<Self, Memory>
        ensures { IfOk result (λ index. IsIndexOf header.now index) }
    {
        Ok(NameIndex {
            dims: first_places(alloc, header.dims.as_slice())?,
            vars: first_places(alloc, header.vars.as_slice())?,
            attrs: attr_names(alloc, header)?,
        })
    }
}

/// What has a name in a header.
trait Named {
    ghost name_of: { Self → List ℕ };

    fn name(&self) -> &[u8]
        ensures { result.now ≡ name_of self.now };
}

impl Named for Dim {
    ghost name_of = { λ d. d.name };

    fn name(&self) -> &[u8] {
        self.name.as_slice()
    }
}

impl Named for Var {
    ghost name_of = { λ v. v.name };

    fn name(&self) -> &[u8] {
        self.name.as_slice()
    }
}

fn first_places<'a, T: Named>(alloc: Global, items: &'a [T]) -> Result<Places<'a>, Memory>
    ensures { IfOk result (λ places. (name : List ℕ) → place_of places name ≡ position (λ x. bytes_eq (T.name_of x) name) items.now) }
{
    let mut places = BTreeMap::new(alloc);
    for (place, item) in items.iter().enumerate() {
        add_place(&mut places, item.name(), place)?;
    }
    Ok(places)
}

/// Adds a name at a place, unless it has one.
pub(crate) fn add_place<'a>(
    places: &mut Places<'a>,
    name: &'a [u8],
    place: usize,
) -> Result<(), Memory>
    ensures { OnOk result ((q : List ℕ) → place_of places.new q ≡ option_or (place_of places.old q) (cond (bytes_eq name.now q) (Some place) None)) }
{
    if !places.contains_key(name) {
        places.insert(name, place)?;
    }
    Ok(())
}

fn attr_names<'a>(alloc: Global, header: &'a Header) -> Result<AttrNames<'a>, Memory>
    ensures { IfOk result (λ names. (owner : Option ℕ) (name : List ℕ) → has_name names owner name ≡ has_attr (attrs_at header.now owner) name) }
{
    let mut names = BTreeSet::new(alloc);
    add_attrs(&mut names, None, header.attrs.as_slice())?;
    for (place, var) in header.vars.as_slice().iter().enumerate() {
        add_attrs(&mut names, Some(place), var.attrs.as_slice())?;
    }
    Ok(names)
}

fn add_attrs<'a>(
    names: &mut AttrNames<'a>,
    owner: Option<usize>,
    attrs: &'a [Attr],
) -> Result<(), Memory>
    ensures { OnOk result ((o : Option ℕ) (q : List ℕ) → has_name names.new o q ≡ (has_name names.old o q || (is_same owner o && has_attr attrs.now q))) }
{
    for attr in attrs {
        add_attr(names, owner, attr.name.as_slice())?;
    }
    Ok(())
}

/// Adds the name of an attribute.
pub(crate) fn add_attr<'a>(
    names: &mut AttrNames<'a>,
    owner: Option<usize>,
    name: &'a [u8],
) -> Result<(), Memory>
    ensures { OnOk result ((o : Option ℕ) (q : List ℕ) → has_name names.new o q ≡ (has_name names.old o q || (is_same owner o && bytes_eq name.now q))) }
{
    names.insert((owner, name))?;
    Ok(())
}
