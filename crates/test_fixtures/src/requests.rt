// Requests for elements of the first variable, which has one dimension.
ghost use Rattle.std.specs.Prelude.{◌≡◌, ◌≤◌, ◌∷◌, [], IsTrue, IfOk, IfSome, length};
ghost use Rattle.serial_spec.specs.Layout.{product};
ghost use Rattle.serial_spec.specs.RankSide.{wanted};
ghost use Rattle.vara_extents.specs.Accepted.{IsAccepted};

use crate::lists::{list, one};
use nc_base::{Direction, Header, Memory, Post, Region, SizeList};
use std::alloc::Global;
use type_external::size_of;
use var_layout::Measures;
use vara_extents::check;

/// A request: the first element, how many, at what stride, and the bytes of a put.
#[derive(Clone, Copy)]
pub struct Asked {
    pub from: u64,
    pub count: u64,
    pub stride: u64,
    pub bytes: &'static [u8],
}

/// The elements from one on, so many at a stride.
pub fn region(alloc: Global, from: u64, count: u64, stride: u64) -> Result<Region, Memory>
    ensures count { IfOk result (λ g. g.count ≡ count ∷ []) }
{
    Ok(Region {
        start: one(alloc, from)?,
        count: one(alloc, count)?,
        stride: one(alloc, stride)?,
        imap: SizeList::new(alloc),
        packed: true,
    })
}

/// The request as it is posted under the id 0.
pub fn post(alloc: Global, asked: &Asked) -> Result<Post, Memory>
    ensures variable { IfOk result (λ p. p.var ≡ 0) }
    ensures count { IfOk result (λ p. p.region.count ≡ asked.now.count ∷ []) }
    ensures bytes { IfOk result (λ p. p.bytes ≡ asked.now.bytes.now) }
{
    Ok(Post {
        id: 0,
        var: 0,
        region: region(alloc, asked.from, asked.count, asked.stride)?,
        bytes: list(alloc, asked.bytes)?,
    })
}

/// Whether the region is accepted where no record is known.
pub fn is_accepted(header: &Header, post: &Post, direction: Direction) -> bool
    ensures { IsTrue result → IsAccepted header.now post.now.var post.now.region }
{
    let measures = Measures::of(header);
    check(
        header,
        &measures,
        post.var as usize,
        &post.region,
        0,
        direction,
    )
    .is_ok()
}

/// The elements of a region of one dimension, where they are few.
fn elements(counts: &[u64]) -> Option<u64>
    ensures product { IfSome result (λ n. n ≡ product counts.now) }
    ensures few { IfSome result (λ n. n ≤ 1000) }
{
    match counts {
        [count] if *count <= 1000 => Some(*count),
        _ => None,
    }
}

/// How many bytes a request for few elements has.
fn byte_count(header: &Header, post: &Post) -> Option<u64>
    ensures { IfSome result (λ n. n ≡ wanted header.now post.now) }
{
    let count = elements(post.region.count.as_slice())?;
    let var = header.vars.as_slice().get(post.var as usize)?;
    Some(count * size_of(var.kind))
}

/// Whether a put of at most 1000 elements has the bytes of each.
pub fn has_whole_bytes(header: &Header, post: &Post) -> bool
    ensures { IsTrue result → length post.now.bytes ≡ wanted header.now post.now }
{
    match byte_count(header, post) {
        Some(count) => count == post.bytes.len() as u64,
        None => false,
    }
}
