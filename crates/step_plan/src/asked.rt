// What ranks ask for.
ghost use Rattle.std.specs.Prelude.{◌≡◌, ◌+◌, ◌++◌, ◌^◌, ◌≤◌, length, IfOk, OnOk};
ghost use Rattle.collective_round.specs.Gathered.{posts_of, AreAccepted};
ghost use Rattle.nc_base.specs.declared.plan.Post.{Post};
ghost use Rattle.overlay_laws.specs.Entries.{In};
ghost use Rattle.vara_extents.specs.Accepted.{IsAccepted};
ghost use Rattle.step_plan.specs.Asked.{asked_by_all, asked_of, asked_with, some_asked};

use crate::{Asked, AskedList};
use collective_round::Dataset;
use nc_base::{Batch, Direction, Memory, Post};
use std::alloc::Global;
use vara_extents::Extents;
use window_plan::fitted;

/// What each rank asks for by its puts or by its gets, the first batch being that of rank `first`.
pub(crate) fn all_asked(
    alloc: Global,
    dataset: &Dataset,
    first: u32,
    batches: &[Batch],
    direction: Direction,
) -> Result<AskedList, Memory>
    requires ranks { first + length batches.now ≤ 2 ^ 32 }
    requires accepted { AreAccepted dataset.now.header.now direction batches.now }
    ensures { IfOk result (λ list. list ≡ asked_by_all dataset.now.header.now direction first batches.now) }
{
    let mut list = Vec::with_capacity(alloc, batches.len())?;
    for (number, batch) in batches.iter().enumerate() {
        let posts = posts_of(batch, direction);
        let asked = asked_by(dataset, first + number as u32, posts);
        push_asked(&mut list, asked)?;
    }
    Ok(fitted(list))
}

// Adds what a rank asks for, if it is something.
fn push_asked(list: &mut Vec<Asked>, asked: Asked) -> Result<(), Memory>
    ensures { OnOk result (list.new.items ≡ list.old.items ++ some_asked asked) }
{
    if asked.bytes > 0 {
        list.push(asked)?;
    }
    Ok(())
}

fn posts_of(batch: &Batch, direction: Direction) -> &[Post]
    ensures { result.now ≡ posts_of direction batch.now }
{
    match direction {
        Direction::Put => batch.puts.as_slice(),
        Direction::Get => batch.gets.as_slice(),
    }
}

// What a rank asks for by posts.
fn asked_by(dataset: &Dataset, rank: u32, posts: &[Post]) -> Asked
    requires accepted { (p : Post) → In posts.now p → IsAccepted dataset.now.header.now p.var p.region }
    ensures { result ≡ asked_of dataset.now.header.now rank posts.now }
{
    let mut asked = Asked {
        rank,
        bytes: 0,
        pieces: 0,
    };
    for post in posts {
        add_post(&mut asked, dataset, post);
    }
    asked
}

// Adds what a request asks for.
fn add_post(asked: &mut Asked, dataset: &Dataset, post: &Post)
    requires accepted { IsAccepted dataset.now.header.now post.now.var post.now.region }
    ensures { asked.new ≡ asked_with dataset.now.header.now post.now asked.old }
{
    for extent in Extents::new(
        dataset.header,
        dataset.measures,
        post.var as usize,
        &post.region,
    ) {
        asked.bytes = asked.bytes.saturating_add(extent.len);
        asked.pieces = asked.pieces.saturating_add(1);
    }
}
