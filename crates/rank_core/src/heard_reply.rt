// The values that a reply brings, by the ids of the requests.
ghost use Rattle.std.specs.Prelude.{◌≡◌, ◌≢◌, ◌==◌, ◌∷◌, ◌++◌, [], ℕ, Some, None, true, false, if◌then◌else◌, length, map, zip, IfOk, OnOk};
ghost use Rattle.std.specs.Ordering.{nat_cmp};
ghost use Rattle.std.specs.BTreeMap.{get};
ghost use Rattle.serial_spec.specs.RankMachine as machine;
ghost use Rattle.serial_spec.specs.RankMachine.{got_values};
ghost use Rattle.serial_spec.specs.RankSide.{wanted};
ghost use Rattle.serial_spec.specs.RegionCheck.{is_ok_code};
ghost use Rattle.rank_core.specs.Heard.{joined, filled_by, AreFound, IsGetOf, AreGetsOf};
ghost use Rattle.rank_core.specs.Requests.{AreOnce};

use crate::open_offer::OpenOffer;
use imap_extents::unpack;
use nc_base::{
    Answer, BitList, Blob, Code, Header, Item, ItemList, Memory, NumberList, Pair, Post, Values,
};
use std::alloc::Global;
use std::collections::BTreeMap;

/// The values of the gets by the ids of their requests. Those of a request of many regions follow one another.
pub(crate) fn values_by_id(
    alloc: Global,
    header: &Header,
    gets: &[Post],
    got: &[Blob],
) -> Result<BTreeMap<u32, Values>, Memory>
    requires gets { AreGetsOf header.now gets.now }
    requires long { map (λ blob. length blob) got.now ≡ map (wanted header.now) gets.now }
    ensures { IfOk result (λ found. AreFound found (got_values header.now (zip gets.now got.now))) }
{
    let mut found = BTreeMap::new(alloc);
    for (index, get) in gets.iter().enumerate() {
        let values = values_of(alloc, header, get, got[index].as_slice())?;
        add(&mut found, get.id, values)?;
    }
    Ok(found)
}

/// The values of one get, of which these are the bytes.
fn values_of(alloc: Global, header: &Header, post: &Post, bytes: &[u8]) -> Result<Values, Memory>
    requires accepted { IsGetOf header.now post.now }
    requires long { length bytes.now ≡ wanted header.now post.now }
    ensures { IfOk result (λ values. got_values header.now ((post.now, bytes.now) ∷ []) ≡ (post.now.id, values) ∷ []) }
{
    let var = &header.vars.as_slice()[post.var as usize];
    unpack(alloc, var.kind, &post.region, bytes)
}

/// Adds the values of a get to those that its request has so far.
fn add(found: &mut BTreeMap<u32, Values>, id: u32, more: Values) -> Result<(), Memory>
    ensures { OnOk result ((q : ℕ) → get nat_cmp found.new q
        ≡ (if id == q then Some (joined (get nat_cmp found.old id) more) else get nat_cmp found.old q)) }
{
    let values = join(found.remove(&id), more)?;
    found.insert(id, values)?;
    Ok(())
}

fn join(earlier: Option<Values>, more: Values) -> Result<Values, Memory>
    ensures { IfOk result (λ values. values ≡ joined earlier more) }
{
    match earlier {
        None => Ok(more),
        Some(values) => with_more(values, more),
    }
}

/// The values of one region followed by those of another of the same kind.
fn with_more(values: Values, more: Values) -> Result<Values, Memory>
    ensures { IfOk result (λ all. all ≡ machine.with_more values more) }
{
    match (values, more) {
        (Values::Numbers(numbers), Values::Numbers(more)) => {
            Ok(Values::Numbers(more_numbers(numbers, more)?))
        }
        (Values::Text(bytes), Values::Text(more)) => Ok(Values::Text(more_text(bytes, more)?)),
        (Values::Bits(patterns), Values::Bits(more)) => {
            Ok(Values::Bits(more_patterns(patterns, more)?))
        }
        (values, _) => Ok(values),
    }
}

fn more_numbers(numbers: NumberList, more: NumberList) -> Result<NumberList, Memory>
    ensures { IfOk result (λ all. all ≡ numbers ++ more) }
{
    let mut all = numbers;
    all.append(more)?;
    Ok(all)
}

fn more_patterns(patterns: BitList, more: BitList) -> Result<BitList, Memory>
    ensures { IfOk result (λ all. all ≡ patterns ++ more) }
{
    let mut all = patterns;
    all.append(more)?;
    Ok(all)
}

fn more_text(bytes: Blob, more: Blob) -> Result<Blob, Memory>
    ensures { IfOk result (λ all. all ≡ bytes ++ more) }
{
    let mut all = bytes.into_vec();
    all.extend_from_slice(more.as_slice())?;
    Ok(Blob::from_vec(all))
}

/// The answer to the call of an offer whose gets brought these values.
pub(crate) fn answer_to(
    alloc: Global,
    offer: OpenOffer,
    pair: Option<Pair>,
    found: BTreeMap<u32, Values>,
) -> Result<Answer, Memory>
    requires alone { offer.blocking ≡ true → offer.items ≡ [] }
    requires once { AreOnce offer.items }
    ensures { IfOk result (λ answer. answer ≡ record {
      code = offer.code;
      pair = pair;
      number = None;
      values = if offer.blocking then get nat_cmp found 0 else None;
      items = map (filled_by (get nat_cmp found)) offer.items;
    }) }
{
    let OpenOffer {
        code,
        items,
        gets: _,
        blocking,
        independent: _,
    } = offer;
    let (values, items) = told(alloc, blocking, items, found)?;
    Ok(Answer {
        code,
        pair,
        number: None,
        values,
        items,
    })
}

/// The values of a blocking call, which are those of id 0, or else the items with theirs.
fn told(
    alloc: Global,
    blocking: bool,
    items: ItemList,
    mut found: BTreeMap<u32, Values>,
) -> Result<(Option<Values>, ItemList), Memory>
    requires alone { blocking ≡ true → items ≡ [] }
    requires once { AreOnce items }
    ensures values { IfOk result (λ told. told.0 ≡ (if blocking then get nat_cmp found 0 else None)) }
    ensures items { IfOk result (λ told. told.1 ≡ map (filled_by (get nat_cmp found)) items) }
{
    if blocking {
        Ok((found.remove(&0), items))
    } else {
        Ok((None, fill(alloc, items, found)?))
    }
}

/// The items with the values of their requests, each of which goes to the one item that is Ok and has its id.
fn fill(
    alloc: Global,
    items: ItemList,
    mut found: BTreeMap<u32, Values>,
) -> Result<ItemList, Memory>
    requires once { AreOnce items }
    ensures { IfOk result (λ filled. filled ≡ map (filled_by (get nat_cmp found)) items) }
{
    let mut filled = ItemList::with_capacity(alloc, items.len())?;
    for item in items.into_vec() {
        filled.push(with_values(item, &mut found))?;
    }
    Ok(filled)
}

fn with_values(item: Item, found: &mut BTreeMap<u32, Values>) -> Item
    ensures item { result ≡ filled_by (get nat_cmp found.old) item }
    ensures others { (q : ℕ) → q ≢ item.id → get nat_cmp found.new q ≡ get nat_cmp found.old q }
    ensures kept { is_ok_code item.code ≡ false → (q : ℕ) → get nat_cmp found.new q ≡ get nat_cmp found.old q }
{
    let values = if item.code == Code::Ok {
        found.remove(&item.id)
    } else {
        None
    };
    Item {
        id: item.id,
        code: item.code,
        values,
    }
}
