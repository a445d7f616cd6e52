// A call on many regions.
ghost use Rattle.std.specs.Prelude.{◌≡◌, ◌+◌, ◌≤◌, ◌∷◌, ◌++◌, [], false, filter, Some, IfOk, IfErr, OnOk};
ghost use Rattle.std.specs.Option.{option_copied};
ghost use Rattle.nc_base.specs.declared.answer.Code.TheVariants as code;
ghost use Rattle.imap_extents.specs.Refusals.{IsRangeRefusal};
ghost use Rattle.serial_spec.specs.Layout.{product};
ghost use Rattle.serial_spec.specs.Limits.{most_elements};
ghost use Rattle.serial_spec.specs.Refusal.{IsRefusal};
ghost use Rattle.serial_spec.specs.Looks as looks;
ghost use Rattle.serial_spec.specs.RegionCheck as spec;
ghost use Rattle.rank_core.specs.Looked.{some_unfit, ComesTo, HasValues, IsCode};
ghost use Rattle.rank_core.specs.Targets as targets;

use super::direction_of;
use super::target::Target;
use imap_extents::{push_value, room_for};
use nc_base::{Blob, CallErr, Code, Given, Memory, NcType, Post, PostList, Region, Values, Var};
use std::alloc::Global;
use type_external::{element_count, kind_fits};
use vara_extents::{Ends, check_parts, elements_of_all, has_element, part_regions};

pub(super) fn look_parts(
    alloc: Global,
    target: &Target,
    given: &Given,
    values: Option<&Values>,
) -> Result<PostList, CallErr>
    ensures { ComesTo (targets.look_parts target.now given.now (option_copied values.entry)) result }
{
    let direction = direction_of(values);
    let ends = Ends {
        direction,
        known: target.known,
    };
    let place = target.place as usize;
    check_parts(alloc, target.header, target.measures, place, given, ends)?;
    let regions = asked_regions(alloc, target.var, given)?;
    if regions.is_empty() {
        return Ok(PostList::new(alloc));
    }
    asked_posts(alloc, target, values, regions)
}

/// The parts that have an element, as regions of their own.
fn asked_regions(alloc: Global, var: &Var, given: &Given) -> Result<Vec<Region>, Memory>
    ensures { IfOk result (λ regions. regions.items ≡ filter spec.has_element (spec.part_regions var.now given.now)) }
{
    let mut regions = part_regions(alloc, var, given.parts.as_slice())?;
    regions.retain(|region| has_element(region));
    Ok(regions)
}

/// One post for each region, if the values of a put are of the type's kind, no fewer than the elements, and in the type's range.
fn asked_posts(
    alloc: Global,
    target: &Target,
    values: Option<&Values>,
    regions: Vec<Region>,
) -> Result<PostList, CallErr>
    requires few { spec.elements_of_all regions.items ≤ most_elements }
    ensures ok { IfOk result (λ posts. posts ≡ targets.part_posts target.now (option_copied values.entry) 0 regions.items) }
    ensures right { OnOk result (targets.parts_code target.now (option_copied values.entry) (spec.elements_of_all regions.items) ≡ code.Ok) }
    ensures refused { IfErr result (IsRefusal (targets.parts_code target.now (option_copied values.entry) (spec.elements_of_all regions.items))) }
{
    let elements = elements_of_all(regions.as_slice());
    check_values(target.var.kind, values, elements)?;
    part_posts(alloc, target, values, regions)
}

/// Whether the values of a put are of another kind than the type, or fewer than the elements.
fn check_values(kind: NcType, values: Option<&Values>, elements: u64) -> Result<(), Code>
    ensures right { OnOk result (HasValues kind (option_copied values.entry) elements) }
    ensures refused { IfErr result (IsCode (looks.parts_code kind elements (option_copied values.entry))) }
{
    let Some(values) = values else { return Ok(()) };
    kind_fits(kind, values)?;
    if (values.len() as u64) < elements {
        return Err(Code::EMapSize);
    }
    Ok(())
}

/// One post for each region. The values go to the elements of one region after another.
fn part_posts(
    alloc: Global,
    target: &Target,
    values: Option<&Values>,
    regions: Vec<Region>,
) -> Result<PostList, CallErr>
    requires few { spec.elements_of_all regions.items ≤ most_elements }
    requires values { HasValues target.now.var.now.kind (option_copied values) (spec.elements_of_all regions.items) }
    ensures ok { IfOk result (λ posts. posts ≡ targets.part_posts target.now (option_copied values.entry) 0 regions.items) }
    ensures right { OnOk result (targets.unfit target.now (option_copied values.entry) 0 (spec.elements_of_all regions.items) ≡ false) }
    ensures refused { IfErr result (IsRangeRefusal (targets.unfit target.now (option_copied values.entry) 0 (spec.elements_of_all regions.items))) }
{
    let mut posts = PostList::with_capacity(alloc, regions.len())?;
    let mut before = 0;
    for region in regions {
        let elements = push_part(alloc, target, values, before, region, &mut posts)?;
        before += elements;
    }
    Ok(posts)
}

/// Adds the post for a region, before whose values so many others stand, and answers how many elements it has.
fn push_part(
    alloc: Global,
    target: &Target,
    values: Option<&Values>,
    before: u64,
    region: Region,
    posts: &mut PostList,
) -> Result<u64, CallErr>
    requires few { before + product region.count ≤ most_elements }
    requires values { HasValues target.now.var.now.kind (option_copied values) (before + product region.count) }
    ensures elements { IfOk result (λ elements. elements ≡ product region.count) }
    ensures posts { OnOk result (posts.new ≡ posts.old ++ targets.part_posts target.now (option_copied values.entry) before (region ∷ [])) }
    ensures right { OnOk result (targets.unfit target.now (option_copied values.entry) before (product region.count) ≡ false) }
    ensures refused { IfErr result (IsRangeRefusal (targets.unfit target.now (option_copied values.entry) before (product region.count))) }
{
    let elements = element_count(region.count.as_slice());
    let bytes = values_bytes(alloc, target.var.kind, values, before, elements)?;
    posts.push(Post {
        id: target.id,
        var: target.place,
        region,
        bytes,
    })?;
    Ok(elements)
}

/// The bytes of some of the values, `before` others standing before them; none for a get.
fn values_bytes(
    alloc: Global,
    kind: NcType,
    values: Option<&Values>,
    before: u64,
    count: u64,
) -> Result<Blob, CallErr>
    requires few { before + count ≤ most_elements }
    requires values { HasValues kind (option_copied values) (before + count) }
    ensures ok { IfOk result (λ bytes. bytes ≡ looks.values_bytes kind (option_copied values.entry) before count) }
    ensures right { OnOk result (some_unfit kind (option_copied values.entry) before count ≡ false) }
    ensures refused { IfErr result (IsRangeRefusal (some_unfit kind (option_copied values.entry) before count)) }
{
    match values {
        None => Ok(Blob::new(alloc)),
        Some(values) => encode_all(alloc, kind, values, before, count),
    }
}

fn encode_all(
    alloc: Global,
    kind: NcType,
    values: &Values,
    before: u64,
    count: u64,
) -> Result<Blob, CallErr>
    requires few { before + count ≤ most_elements }
    requires values { HasValues kind (Some values.now) (before + count) }
    ensures ok { IfOk result (λ bytes. bytes ≡ looks.values_bytes kind (Some values.now) before count) }
    ensures right { OnOk result (some_unfit kind (Some values.now) before count ≡ false) }
    ensures refused { IfErr result (IsRangeRefusal (some_unfit kind (Some values.now) before count)) }
{
    let mut bytes = room_for(alloc, kind, count as usize)?;
    for number in 0..count {
        push_value(kind, values, before + number, &mut bytes)?;
    }
    Ok(Blob::from_vec(bytes))
}
