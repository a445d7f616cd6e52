//! What a rank puts into the inbox of the file's owner.
#![tactic(auto)]

mod laws;

ghost use Rattle.std.specs.Prelude.{◌≡◌};
ghost use Rattle.nc_base.specs.declared.step.RankItem.TheVariants as item;
ghost use Rattle.rank_items.specs.Own.{HasOwnElements, HasOwnPuts};

pub use laws::{own_bytes_law, own_elements_law};
use nc_base::{Offer, RankItem};
use std::marker::Model;

/// An item of a rank: an offer with the number of its call, or its end. Whoever takes it knows that no request of its puts holds an
/// element twice, and else nothing.
#[derive(Drop)]
pub struct SentItem {
    item: RankItem,
}

impl Model for SentItem {
    ghost use Rattle.nc_base.specs.declared.step.RankItem.{RankItem};
    ghost use Rattle.rank_items.specs.Own.{HasOwnPuts};

    ghost Value = { RankItem };

    ghost view = { λ s. s.item };

    ghost invariant = { λ s. HasOwnPuts s.item };
}

impl SentItem {
    /// The offer that a rank makes in its call of this number.
    pub fn offer(call: u32, offer: Offer) -> Self
        requires { HasOwnElements offer.batch.puts }
        ensures { result ≡ item.Offer call offer }
    {
        SentItem {
            item: RankItem::Offer(call, offer),
        }
    }

    /// The last item of a rank, which ended for want of memory or not.
    pub fn last_item(memory: bool) -> Self
        ensures { result ≡ item.Ended memory }
    {
        SentItem {
            item: RankItem::Ended { memory },
        }
    }

    pub fn into_item(self) -> RankItem
        ensures item { result ≡ self }
        ensures own { HasOwnPuts result }
    {
        self.item
    }
}
