// How many bytes of a window each rank has.
ghost use Rattle.std.specs.Prelude.{◌≡◌, ◌++◌, ◌^◌, ◌≤◌, IfOk, OnOk};
ghost use Rattle.window_plan.specs.Windows.{own_bytes, ranks_in, share_of, shares_in, some_share};

use crate::{Owner, Share, ShareList};
use nc_base::Memory;
use std::alloc::Global;

/// What each rank has, of those that have something.
///
/// It goes over the owners once for each rank up to the last one that has something.
pub fn shares_of(alloc: Global, owners: &[Owner]) -> Result<ShareList, Memory>
    ensures { IfOk result (λ shares. shares ≡ shares_in owners.now) }
{
    let ranks = ranks_in(owners);
    let mut shares = Vec::new(alloc);
    for rank in 0..ranks {
        push_share(&mut shares, owners, rank as u32)?;
    }
    Ok(ShareList::from_vec(shares))
}

// How many ranks there are up to the last one that has bytes.
fn ranks_in(owners: &[Owner]) -> u64
    ensures count { result ≡ ranks_in owners.now }
    ensures few { result ≤ 2 ^ 32 }
{
    let mut ranks: u64 = 0;
    for owner in owners {
        ranks = ranks.max(u64::from(owner.rank) + 1);
    }
    ranks
}

// Adds what a rank has, if it has something.
fn push_share(shares: &mut Vec<Share>, owners: &[Owner], rank: u32) -> Result<(), Memory>
    ensures { OnOk result (shares.new.items ≡ shares.old.items ++ some_share owners.now rank) }
{
    let bytes = bytes_of(owners, rank);
    if bytes > 0 {
        shares.push(Share { rank, bytes })?;
    }
    Ok(())
}

// How many bytes a rank has.
fn bytes_of(owners: &[Owner], rank: u32) -> u64
    ensures { result ≡ share_of owners.now rank }
{
    let mut bytes: u64 = 0;
    for owner in owners {
        bytes = bytes.saturating_add(own_bytes(owner, rank));
    }
    bytes
}

// How many of them are of a rank.
fn own_bytes(owner: &Owner, rank: u32) -> u64
    ensures { result ≡ own_bytes rank owner.now }
{
    if owner.rank == rank {
        owner.extent.len
    } else {
        0
    }
}
