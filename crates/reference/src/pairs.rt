// The byte that two requests share.
ghost use Rattle.std.specs.Prelude.{◌≡◌, ℕ, List, [], ◌∷◌, ◌++◌, true, Some, if◌then◌else◌, filter, not, fold, IfOk, OnOk};
ghost use Rattle.std.specs.List.{list_any};
ghost use Rattle.nc_base.specs.declared.plan.Post.{Post};
ghost use Rattle.overlay_laws.specs.Entries.{In};
ghost use Rattle.serial_spec.specs.SoundHeaders.{is_sound};
ghost use Rattle.serial_spec.specs.SharedByte as spec;
ghost use Rattle.serial_spec.specs.SharedByte.{all_bytes};
ghost use Rattle.vara_extents.specs.Accepted.{IsAccepted};
ghost use Rattle.reference.specs.Least.{least_with, lesser_of};

use crate::elements::bytes_of;
use nc_base::{Header, Memory, Pair, Post, SizeList};
use std::alloc::Global;

/// A request: its rank and its id.
type Key = (u32, u32);

/// A request, and the bytes of one of its posts.
type Holding = (Key, SizeList);

/// The least byte that two requests hold, with the two least of them; nothing where no byte is shared. Each byte is compared with
/// all others.
pub fn shared_pair(
    alloc: Global,
    header: &Header,
    puts: &[(u32, Post)],
) -> Result<Option<Pair>, Memory>
    requires sound { is_sound header.now ≡ true }
    requires accepted { (p : ℕ × Post) → In puts.now p → IsAccepted header.now p.1.var p.1.region }
    ensures { IfOk result (λ pair. pair ≡ spec.shared_pair header.now puts.now) }
{
    let held = holdings(alloc, header, puts)?;
    pair_in(alloc, held.as_slice())
}

/// What each put holds.
fn holdings(alloc: Global, header: &Header, puts: &[(u32, Post)]) -> Result<Vec<Holding>, Memory>
    requires sound { is_sound header.now ≡ true }
    requires accepted { (p : ℕ × Post) → In puts.now p → IsAccepted header.now p.1.var p.1.region }
    ensures { IfOk result (λ held. held.items ≡ spec.holdings header.now puts.now) }
{
    let mut held = Vec::with_capacity(alloc, puts.len())?;
    for put in puts {
        let bytes = bytes_of(alloc, header, &put.1)?;
        held.push(((put.0, put.1.id), bytes))?;
    }
    Ok(held)
}

fn pair_in(alloc: Global, held: &[Holding]) -> Result<Option<Pair>, Memory>
    ensures { IfOk result (λ pair. pair ≡ spec.shared_pair_of held.now) }
{
    match least_shared(alloc, held)? {
        None => Ok(None),
        Some(at) => {
            let keys = holders(alloc, held, at)?;
            Ok(Some(pair_of(alloc, keys.as_slice(), at)?))
        }
    }
}

/// The least byte that two requests hold.
fn least_shared(alloc: Global, held: &[Holding]) -> Result<Option<u64>, Memory>
    ensures { IfOk result (λ at. at ≡ spec.least (filter (spec.is_shared held.now) (all_bytes held.now))) }
{
    let mut least = None;
    for one in held {
        least = least_among(alloc, held, one.1.as_slice(), least)?;
    }
    Ok(least)
}

/// The least of a byte that is known to be shared, if there is one, and of those bytes that are.
fn least_among(
    alloc: Global,
    held: &[Holding],
    bytes: &[u64],
    known: Option<u64>,
) -> Result<Option<u64>, Memory>
    ensures { IfOk result (λ at. at ≡ least_with known (filter (spec.is_shared held.now) bytes.now)) }
{
    let mut least = known;
    for byte in bytes {
        let shared = is_shared(alloc, held, *byte)?;
        least = with_byte(least, *byte, shared);
    }
    Ok(least)
}

/// The lesser of a byte that is known, if there is one, and of this one, where it is shared.
fn with_byte(known: Option<u64>, byte: u64, shared: bool) -> Option<u64>
    ensures { result ≡ (if shared then Some (lesser_of known byte) else known) }
{
    match known {
        _ if !shared => known,
        None => Some(byte),
        Some(least) => Some(least.min(byte)),
    }
}

fn is_shared(alloc: Global, held: &[Holding], at: u64) -> Result<bool, Memory>
    ensures { IfOk result (λ shared. shared ≡ spec.is_shared held.now at) }
{
    let keys = holders(alloc, held, at)?;
    Ok(1 < keys.len())
}

/// The requests that hold the byte, each once.
fn holders(alloc: Global, held: &[Holding], at: u64) -> Result<Vec<Key>, Memory>
    ensures { IfOk result (λ keys. keys.items ≡ spec.holders held.now at) }
{
    let mut keys = Vec::new(alloc);
    for k in 0..held.len() {
        add_holder(&mut keys, &held[held.len() - 1 - k], at)?;
    }
    Ok(keys)
}

/// Sets a request before the others that hold the byte, where it holds it and is none of them.
#[tactic(auto, using(crate::proofs::PairSteps::no_holder, crate::proofs::PairSteps::known_holder, crate::proofs::PairSteps::new_holder))]
fn add_holder(keys: &mut Vec<Key>, one: &Holding, at: u64) -> Result<(), Memory>
    ensures { OnOk result ((rest : List spec.Holding) → keys.old.items ≡ spec.holders rest at → keys.new.items ≡ spec.holders (one.now ∷ rest) at) }
{
    if !has_byte(at, one) {
        return Ok(());
    }
    if has_key(keys.as_slice(), one.0) {
        return Ok(());
    }
    keys.insert(0, one.0)?;
    Ok(())
}

fn has_byte(at: u64, one: &Holding) -> bool
    ensures { result ≡ spec.has_byte at one.now }
{
    one.1.as_slice().iter().any(|byte| *byte == at)
}

fn has_key(keys: &[Key], key: Key) -> bool
    ensures { result ≡ list_any (λ k. spec.same_key k key) keys.now }
{
    keys.iter().any(|k| same_key(*k, key))
}

fn same_key(a: Key, b: Key) -> bool
    ensures { result ≡ spec.same_key a b }
{
    a.0 == b.0 && a.1 == b.1
}

fn is_below(a: Key, b: Key) -> bool
    ensures { result ≡ spec.key_below a b }
{
    a.0 < b.0 || a.0 == b.0 && a.1 < b.1
}

fn lesser_key(a: Key, b: Key) -> Key
    ensures { result ≡ spec.lesser_key a b }
{
    if is_below(b, a) { b } else { a }
}

/// The least of the requests.
fn least_key(keys: &[Key]) -> Key
    ensures { result ≡ spec.least_key keys.now }
{
    match keys {
        [] => (0, 0),
        [key, keys @ ..] => least_from(*key, keys),
    }
}

fn least_from(key: Key, keys: &[Key]) -> Key
    ensures { result ≡ fold spec.lesser_key key keys.now }
{
    let mut least = key;
    for key in keys {
        least = lesser_key(least, *key);
    }
    least
}

/// The two least of the requests that hold the byte.
fn pair_of(alloc: Global, keys: &[Key], at: u64) -> Result<Pair, Memory>
    ensures { IfOk result (λ pair. pair ≡ spec.pair_of keys.now at) }
{
    let first = least_key(keys);
    let others = others(alloc, keys, first)?;
    let second = least_key(others.as_slice());
    Ok(Pair {
        rank1: first.0,
        request1: first.1,
        rank2: second.0,
        request2: second.1,
        at,
    })
}

/// The requests but this one.
fn others(alloc: Global, keys: &[Key], but: Key) -> Result<Vec<Key>, Memory>
    ensures { IfOk result (λ others. others.items ≡ filter (λ k. not (spec.same_key k but)) keys.now) }
{
    let others: Vec<Key> = keys
        .iter()
        .copied()
        .filter(|key| !same_key(*key, but))
        .collect(alloc)?;
    Ok(others)
}
