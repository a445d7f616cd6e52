// The names of a header, in order.
ghost use Rattle.std.specs.Prelude.{◌≡◌, ◌<◌, [], List, ℕ, length, map, position, bytes_eq, IfOk, IfSome};
ghost use Rattle.std.specs.List.{range_with_len};
ghost use Rattle.std.specs.Cmp.Lexicographic.{slice_cmp};
ghost use Rattle.std.specs.List.Sorted.{IsPermutation, IsSorted};
ghost use Rattle.std.specs.Ordering.{nat_cmp};
ghost use Rattle.serial_spec.specs.Looks as looks;
ghost use Rattle.var_layout.specs.Measures.{AreMeasures};
ghost use Rattle.rank_core.specs.Indexed.{is_below, name_at, place_cmp, IsIndexOf, IsInOrder, IsSplitAt};

use nc_base::{Dim, Header, Memory, Var};
use std::alloc::Global;
use std::cmp::Ordering;
use var_layout::Measures;

/// What the ranks of a run share of a header: its variables and dimensions in the order of their names, by which a rank finds them,
/// and its measures.
#[derive(Drop)]
pub struct Names {
    /// The places of the variables in the header's list, in the order of their names.
    vars: Vec<usize>,
    /// The places of the dimensions.
    dims: Vec<usize>,
    measures: Measures,
}

impl Names {
    pub fn new(alloc: Global, header: &Header) -> Result<Self, Memory>
        ensures { IfOk result (λ names. IsIndexOf header.now names) }
    {
        Ok(Names {
            vars: in_order(alloc, header.vars.as_slice())?,
            dims: in_order(alloc, header.dims.as_slice())?,
            measures: Measures::of(header),
        })
    }

    /// The measures of the header.
    pub fn measures(&self, header: &Header) -> &Measures
        requires names { IsIndexOf header.now self.now }
        ensures { AreMeasures header.now result.now }
    {
        &self.measures
    }

    /// The place of the first variable of this name.
    pub(crate) fn find_var(&self, header: &Header, name: &[u8]) -> Option<usize>
        requires names { IsIndexOf header.now self.now }
        ensures found { result ≡ looks.find_var header.now name.now }
        ensures there { IfSome result (λ place. place < length header.now.vars) }
    {
        first_named(header.vars.as_slice(), self.vars.as_slice(), name)
    }

    /// The place of the first dimension of this name.
    pub(crate) fn find_dim(&self, header: &Header, name: &[u8]) -> Option<usize>
        requires names { IsIndexOf header.now self.now }
        ensures found { result ≡ looks.find_dim header.now name.now }
        ensures there { IfSome result (λ place. place < length header.now.dims) }
    {
        first_named(header.dims.as_slice(), self.dims.as_slice(), name)
    }
}

/// What has a name in a header.
trait Named {
    ghost name_of: { Self → List ℕ };

    fn name(&self) -> &[u8]
        ensures { result.now ≡ name_of self.now };
}

impl Named for Var {
    ghost name_of = { λ v. v.name };

    fn name(&self) -> &[u8] {
        self.name.as_slice()
    }
}

impl Named for Dim {
    ghost name_of = { λ d. d.name };

    fn name(&self) -> &[u8] {
        self.name.as_slice()
    }
}

/// The places of the items in the order of their names, equal names in the order of their places.
fn in_order<T: Named>(alloc: Global, items: &[T]) -> Result<Vec<usize>, Memory>
    ensures { IfOk result (λ places. IsInOrder (map T.name_of items.now) places.items) }
{
    let mut places = all_places(alloc, items.len())?;
    sort_places(items, places.as_mut_slice());
    Ok(places)
}

fn sort_places<T: Named>(items: &[T], places: &mut [usize])
    ensures each { IsPermutation places.old places.new }
    ensures sorted { IsSorted (place_cmp (map T.name_of items.now)) places.new }
{
    places.sort_unstable_by(
        |a: &usize, b: &usize| -> Ordering
            ensures { result ≡ place_cmp (map T.name_of items.entry.now) a.now b.now }
        { compare(items, *a, *b) },
    );
}

fn all_places(alloc: Global, count: usize) -> Result<Vec<usize>, Memory>
    ensures { IfOk result (λ places. places.items ≡ range_with_len 0 count) }
{
    let mut places = Vec::with_capacity(alloc, count)?;
    for place in 0..count {
        places.push(place)?;
    }
    Ok(places)
}

fn compare<T: Named>(items: &[T], a: usize, b: usize) -> Ordering
    ensures { result ≡ place_cmp (map T.name_of items.now) a b }
{
    compare_names(name_at(items, a), name_at(items, b)).then(a.cmp(&b))
}

/// The name of the item at a place; none past the last.
fn name_at<T: Named>(items: &[T], place: usize) -> &[u8]
    ensures { result.now ≡ name_at (map T.name_of items.now) place }
{
    match items.get(place) {
        Some(item) => item.name(),
        None => &[],
    }
}

fn compare_names<'n>(a: &'n [u8], b: &'n [u8]) -> Ordering
    ensures { result ≡ slice_cmp nat_cmp a.now b.now }
{
    a.cmp(&b)
}

/// The place of the first item of a name.
fn first_named<T: Named>(items: &[T], places: &[usize], name: &[u8]) -> Option<usize>
    requires order { IsInOrder (map T.name_of items.now) places.now }
    ensures found { result ≡ position (λ n. bytes_eq n name.now) (map T.name_of items.now) }
    ensures there { IfSome result (λ place. place < length items.now) }
{
    let at = first_not_below(items, places, name);
    let place = *places.get(at)?;
    if name_at(items, place) == name {
        Some(place)
    } else {
        None
    }
}

/// Where the places of lesser names end.
fn first_not_below<T: Named>(items: &[T], places: &[usize], name: &[u8]) -> usize
    requires order { IsInOrder (map T.name_of items.now) places.now }
    ensures { IsSplitAt (is_below (map T.name_of items.now) name.now) places.now result }
{
    places.partition_point(
        |place: &usize| -> bool
            ensures { result ≡ is_below (map T.name_of items.entry.now) name.entry.now place.now }
        { is_below(items, *place, name) },
    )
}

/// Whether the item at a place has a lesser name.
fn is_below<T: Named>(items: &[T], place: usize, name: &[u8]) -> bool
    ensures { result ≡ is_below (map T.name_of items.now) name.now place }
{
    compare_names(name_at(items, place), name) == Ordering::Less
}
