// A call on one region.
ghost use Rattle.std.specs.Prelude.{◌≡◌, ◌∷◌, [], IfOk, IfErr, OnOk};
ghost use Rattle.std.specs.Option.{option_copied};
ghost use Rattle.nc_base.specs.declared.answer.Code.TheVariants as code;
ghost use Rattle.imap_extents.specs.Mapped.{IsMapped};
ghost use Rattle.serial_spec.specs.Refusal.{IsRefusal};
ghost use Rattle.serial_spec.specs.Looks as looks;
ghost use Rattle.rank_core.specs.Looked.{ComesTo};
ghost use Rattle.rank_core.specs.Targets as targets;

use super::direction_of;
use super::target::Target;
use imap_extents::pack;
use nc_base::{Blob, CallErr, Given, Memory, NcType, Post, PostList, Region, Values};
use std::alloc::Global;
use vara_extents::{check, has_element, widen};

pub(super) fn look_region(
    alloc: Global,
    target: &Target,
    given: &Given,
    values: Option<&Values>,
) -> Result<PostList, CallErr>
    ensures { ComesTo (targets.look_region target.now given.now (option_copied values.entry)) result }
{
    let place = target.place as usize;
    let region = widen(alloc, target.header, place, given, target.known)?;
    check(
        target.header,
        target.measures,
        place,
        &region,
        target.known,
        direction_of(values),
    )?;
    if !has_element(&region) {
        return Ok(PostList::new(alloc));
    }
    region_posts(alloc, target, region, values)
}

/// The list of the one post for a region.
fn region_posts(
    alloc: Global,
    target: &Target,
    region: Region,
    values: Option<&Values>,
) -> Result<PostList, CallErr>
    requires mapped { IsMapped region }
    ensures ok { IfOk result (λ posts. posts ≡ record { id = target.now.id; var = target.now.place; region = region; bytes = looks.data_bytes target.now.var.now.kind region (option_copied values.entry) } ∷ []) }
    ensures right { OnOk result (looks.data_code target.now.var.now.kind region (option_copied values.entry) ≡ code.Ok) }
    ensures refused { IfErr result (IsRefusal (looks.data_code target.now.var.now.kind region (option_copied values.entry))) }
{
    let bytes = data_bytes(alloc, target.var.kind, &region, values)?;
    let post = Post {
        id: target.id,
        var: target.place,
        region,
        bytes,
    };
    Ok(only(alloc, post)?)
}

/// The bytes of a put; none for a get.
fn data_bytes(
    alloc: Global,
    kind: NcType,
    region: &Region,
    values: Option<&Values>,
) -> Result<Blob, CallErr>
    requires mapped { IsMapped region.now }
    ensures ok { IfOk result (λ bytes. bytes ≡ looks.data_bytes kind region.now (option_copied values.entry)) }
    ensures right { OnOk result (looks.data_code kind region.now (option_copied values.entry) ≡ code.Ok) }
    ensures refused { IfErr result (IsRefusal (looks.data_code kind region.now (option_copied values.entry))) }
{
    match values {
        None => Ok(Blob::new(alloc)),
        Some(values) => pack(alloc, kind, region, values),
    }
}

/// The list of one post.
fn only(alloc: Global, post: Post) -> Result<PostList, Memory>
    ensures { IfOk result (λ posts. posts ≡ post ∷ []) }
{
    let mut posts = PostList::new(alloc);
    posts.push(post)?;
    Ok(posts)
}
