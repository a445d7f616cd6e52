// Arrivals that no rank of a script makes.
ghost use Rattle.std.specs.Prelude.{◌≡◌, ◌+◌, ◌*◌, ◌^◌, ◌<◌, ◌≤◌, ◌&&◌, ◌||◌, ℕ, List, length, not, nat_le, nat_lt, slice_get, true, Some, IfSome};
ghost use Rattle.std.specs.List.{list_any};
ghost use Rattle.nc_base.specs.declared.request.Direction.TheVariants as way;
ghost use Rattle.serial_spec.specs.Owner.{bad_batch, differs, has_left, holds, is_strange, kind_held, refused, strange_offer, wrong_length};
ghost use Rattle.serial_spec.specs.ExternalForm as external;
ghost use Rattle.serial_spec.specs.FileStep.{Setting};
ghost use Rattle.serial_spec.specs.History.{kind_of_meeting};
ghost use Rattle.serial_spec.specs.Layout.{product};
ghost use Rattle.serial_spec.specs.Limits.{most_elements};
ghost use Rattle.file_owner.specs.Strange.{fails_as_offer, fails_test, leaves_behind};
ghost use Rattle.file_owner.specs.Owned.{owner_of};
ghost use Rattle.var_layout.specs.Measures.{AreMeasures};

use crate::owner::{Client, Owner};
use nc_base::{Direction, Header, Offer, OfferKind, Post, RankItem, Region};
use type_external::{element_count, size_of};
use var_layout::Measures;
use vara_extents::check;

impl Owner {
    /// Whether no rank of a script makes this arrival.
    pub(crate) fn is_strange(
        &self,
        header: &Header,
        measures: &Measures,
        number: u32,
        item: &RankItem,
    ) -> bool
        requires measured { AreMeasures header.now measures.now }
        requires number { number < length self.now.clients.items }
        ensures { (s : Setting) (file : List ℕ) (records : ℕ) → s.header ≡ header.now
            → is_strange s (owner_of self.now file records) (number, item.now) ≡ result }
    {
        self.fails_test(header, measures, &self.clients[number as usize], item)
    }

    /// Whether an item of a client fails a test.
    fn fails_test(
        &self,
        header: &Header,
        measures: &Measures,
        client: &Client,
        item: &RankItem,
    ) -> bool
        requires measured { AreMeasures header.now measures.now }
        ensures { result ≡ fails_test header.now self.now.clients.items self.now.reached client.now item.now }
    {
        client.has_ended()
            || leaves_behind(&self.clients, client, item)
            || self.fails_as_offer(header, measures, client, item)
    }

    /// Whether an item of a client is an offer that is none at this time, or that no step takes.
    fn fails_as_offer(
        &self,
        header: &Header,
        measures: &Measures,
        client: &Client,
        item: &RankItem,
    ) -> bool
        requires measured { AreMeasures header.now measures.now }
        ensures { result ≡ fails_as_offer header.now self.now.clients.items self.now.reached client.now item.now }
    {
        match item {
            RankItem::Ended { memory: _ } => false,
            RankItem::Offer(_, offer) => {
                client.holds()
                    || differs(&self.clients, offer.kind)
                    || offer.known > self.reached
                    || is_bad(header, measures, offer)
            }
        }
    }
}

/// Whether with this item some number has left while another one's offer is held. The client is that of its number, which has not
/// ended.
fn leaves_behind(clients: &[Client], client: &Client, item: &RankItem) -> bool
    ensures { result ≡ leaves_behind clients.now client.now item.now }
{
    match item {
        RankItem::Ended { memory } => {
            (some_left(clients) || (!*memory && !client.holds())) && some_holds(clients)
        }
        RankItem::Offer(_, offer) => {
            some_left(clients) && (offer.kind != OfferKind::Solo || some_holds(clients))
        }
    }
}

fn some_left(clients: &[Client]) -> bool
    ensures { result ≡ list_any has_left clients.now }
{
    clients.iter().any(|client| client.has_left())
}

fn some_holds(clients: &[Client]) -> bool
    ensures { result ≡ list_any holds clients.now }
{
    clients.iter().any(|client| client.holds())
}

/// Whether an offer of another kind of meeting is held.
fn differs(clients: &[Client], kind: OfferKind) -> bool
    ensures { result ≡ list_any (λ y. differs (kind_held y) (kind_of_meeting kind)) clients.now }
{
    match kind {
        OfferKind::Solo => false,
        OfferKind::Meet(kind) => clients.iter().any(
            |client| matches!(client.kind_held(), Some(held) if held != kind),
        ),
    }
}

/// Whether no step takes the posts of an offer.
fn is_bad(header: &Header, measures: &Measures, offer: &Offer) -> bool
    requires measured { AreMeasures header.now measures.now }
    ensures { result ≡ bad_batch header.now offer.now }
{
    has_bad_put(header, measures, offer)
        || has_refused_get(header, measures, offer)
        || has_too_many(offer)
}

fn has_bad_put(header: &Header, measures: &Measures, offer: &Offer) -> bool
    requires measured { AreMeasures header.now measures.now }
    ensures { result ≡ list_any (λ p. refused header.now offer.now.known way.Put p || wrong_length header.now p) offer.now.batch.puts }
{
    let puts = offer.batch.puts.as_slice();
    puts.iter()
        .any(|put| is_bad_put(header, measures, offer.known, put))
}

fn has_refused_get(header: &Header, measures: &Measures, offer: &Offer) -> bool
    requires measured { AreMeasures header.now measures.now }
    ensures { result ≡ list_any (λ p. refused header.now offer.now.known way.Get p) offer.now.batch.gets }
{
    let gets = offer.batch.gets.as_slice();
    gets.iter().any(|get| is_refused(header, measures, offer.known, Direction::Get, get))
}

fn has_too_many(offer: &Offer) -> bool
    ensures { result ≡ (nat_le (2 ^ 32) (length offer.now.batch.puts + length offer.now.batch.gets)) }
{
    offer.batch.puts.len() as u128 + offer.batch.gets.len() as u128 >= 1 << 32
}

/// Whether a put has a region that is refused, or not the bytes of its elements.
fn is_bad_put(header: &Header, measures: &Measures, known: u64, put: &Post) -> bool
    requires measured { AreMeasures header.now measures.now }
    ensures { result ≡ (refused header.now known way.Put put.now || wrong_length header.now put.now) }
{
    is_refused(header, measures, known, Direction::Put, put) || has_other_length(header, known, put)
}

fn is_refused(
    header: &Header,
    measures: &Measures,
    known: u64,
    direction: Direction,
    post: &Post,
) -> bool
    requires measured { AreMeasures header.now measures.now }
    ensures { result ≡ refused header.now known direction post.now }
{
    check(
        header,
        measures,
        post.var as usize,
        &post.region,
        known,
        direction,
    )
    .is_err()
}

/// Whether a put of an accepted region has not the bytes of its elements.
fn has_other_length(header: &Header, known: u64, put: &Post) -> bool
    requires { refused header.now known way.Put put.now ≡ not true }
    ensures { result ≡ wrong_length header.now put.now }
{
    match header.vars.as_slice().get(put.var as usize) {
        None => true,
        Some(var) => {
            let elements = elements_of(&put.region);
            put.bytes.len() as u64 != elements * size_of(var.kind)
        }
    }
}

/// How many elements an accepted region has.
fn elements_of(region: &Region) -> u64
    requires few { product region.now.count ≤ most_elements }
    ensures { result ≡ product region.now.count }
{
    element_count(region.count.as_slice())
}
