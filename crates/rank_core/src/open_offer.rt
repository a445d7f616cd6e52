// An offer whose reply is waited for.

use nc_base::{Code, ItemList, PostList};

/// What a rank keeps of an offer until its reply.
#[derive(Drop)]
pub(crate) struct OpenOffer {
    /// The code of the answer.
    pub(crate) code: Code,
    /// The items of a wait, without the values of its gets.
    pub(crate) items: ItemList,
    /// The gets of the offer.
    pub(crate) gets: PostList,
    /// Whether a blocking call makes the offer, to whose answer the values belong.
    pub(crate) blocking: bool,
    /// Whether the rank is in independent mode after the reply.
    pub(crate) independent: bool,
}
