// Whether a reply is one to the offer of a rank.
ghost use Rattle.std.specs.Prelude.{◌≡◌, map, length, true, bytes_eq, is_some, IfSome};
ghost use Rattle.serial_spec.specs.RankSide.{wanted};
ghost use Rattle.rank_core.specs.Fit.{fits_gets};
ghost use Rattle.rank_core.specs.Heard.{AreGetsOf};

use crate::rank::Rank;
use nc_base::{Blob, Header, Post, Reply};
use var_layout::record_limit;
use vara_extents::bytes_wanted;

impl<'a> Rank<'a> {
    /// Whether a reply is one to the offer that the rank has made.
    pub fn fits(&self, reply: &Reply) -> bool
        requires waits { is_some self.now.state.open ≡ true }
        ensures { IfSome self.now.state.open (λ o. result ≡ fits_gets self.now.header o.gets reply.now) }
    {
        match &self.offered {
            None => false,
            Some(offer) => {
                are_as_long(self.header, reply.got.as_slice(), offer.gets.as_slice())
                    && reply.records < record_limit(self.header.version)
            }
        }
    }
}

/// Whether there is a blob of the right length for each get.
fn are_as_long(header: &Header, blobs: &[Blob], gets: &[Post]) -> bool
    requires gets { AreGetsOf header.now gets.now }
    ensures { result ≡ bytes_eq (map (λ blob. length blob) blobs.now) (map (wanted header.now) gets.now) }
{
    if blobs.len() != gets.len() {
        return false;
    }
    for (index, get) in gets.iter().enumerate() {
        if blobs[index].len() as u64 != bytes_wanted(header, get) {
            return false;
        }
    }
    true
}
