// Many boxes of one call.
ghost use Rattle.std.specs.Prelude.{◌≡◌, map, nat_lt, slice_get, IfOk, IfErr, OnOk};
ghost use Rattle.nc_base.specs.declared.answer.Code.TheVariants as code;
ghost use Rattle.serial_spec.specs.Layout.{product};
ghost use Rattle.serial_spec.specs.Limits.{most_elements};
ghost use Rattle.serial_spec.specs.RegionCheck as spec;
ghost use Rattle.var_layout.specs.Capped.{capped};
ghost use Rattle.var_layout.specs.Measures.{AreMeasures};
ghost use Rattle.vara_extents.specs.Parts.{code_by_boxes, parts_code, together_code, without_variable};
ghost use Rattle.serial_spec.specs.Refusal.{IsRefusal};

use crate::boxes::some_meet;
use crate::causes::{Ends, region_code};
use crate::forms::repeated;
use crate::needs::variable;
use nc_base::{
    CallErr, Code, Direction, Given, Header, MAX_ELEMENTS, Memory, Part, Region, SizeList, Var,
};
use std::alloc::Global;
use type_external::element_count;
use var_layout::{Measures, capped};

/// Whether a call of form `varn` is refused. The first of these causes answers, an order that is this project's: that of
/// the first part that `check` refuses, as a region of its own with strides of 1; `ETooLarge` for parts that together have
/// more than 2^20 elements; for a put, `ESelf` for two parts that share an element. A copy of the parts is made meanwhile,
/// for want of which `Memory` answers.
pub fn check_parts(
    alloc: Global,
    header: &Header,
    measures: &Measures,
    var: usize,
    given: &Given,
    ends: Ends,
) -> Result<(), CallErr>
    requires measured { AreMeasures header.now measures.now }
    ensures ok { OnOk result (parts_code header.now var given.now ends.known ends.direction ≡ code.Ok) }
    ensures refused { IfErr result (IsRefusal (parts_code header.now var given.now ends.known ends.direction)) }
{
    match parts_code(alloc, header, measures, var, given, ends) {
        Ok(code) => as_result(code),
        Err(_) => Err(CallErr::Memory),
    }
}

#[tactic(auto, using(crate::proofs::PartLaws::ok_is, crate::proofs::PartLaws::ok_is_not))]
fn as_result(answer: Code) -> Result<(), CallErr>
    ensures ok { OnOk result (answer ≡ code.Ok) }
    ensures refused { IfErr result (IsRefusal answer) }
{
    if is_ok(answer) {
        Ok(())
    } else {
        Err(CallErr::Code(answer))
    }
}

/// The code of the first cause, or `Ok`.
fn parts_code(
    alloc: Global,
    header: &Header,
    measures: &Measures,
    var: usize,
    given: &Given,
    ends: Ends,
) -> Result<Code, Memory>
    requires measured { AreMeasures header.now measures.now }
    ensures { IfOk result (λ c. c ≡ parts_code header.now var given.now ends.known ends.direction) }
{
    match variable(header, var) {
        None => Ok(without_variable(given.parts.as_slice())),
        Some(var) => code_of(alloc, header, measures, var, given.parts.as_slice(), ends),
    }
}

fn without_variable(parts: &[Part]) -> Code
    ensures { result ≡ without_variable parts.now }
{
    match parts {
        [] => Code::Ok,
        [_, ..] => Code::ENotVar,
    }
}

#[tactic(auto, using(crate::proofs::PartLaws::code_is))]
fn code_of(
    alloc: Global,
    header: &Header,
    measures: &Measures,
    var: &Var,
    parts: &[Part],
    ends: Ends,
) -> Result<Code, Memory>
    requires measured { AreMeasures header.now measures.now }
    ensures { IfOk result (λ c. c ≡ spec.check_parts header.now var.now (map (spec.part_region var.now) parts.now) ends.known ends.direction) }
{
    let regions = part_regions(alloc, var, parts)?;
    Ok(code_by_boxes(header, measures, var, regions, ends))
}

/// The parts as regions of their own, with strides of 1.
pub fn part_regions(alloc: Global, var: &Var, parts: &[Part]) -> Result<Vec<Region>, Memory>
    ensures { IfOk result (λ regions. regions.items ≡ map (spec.part_region var.now) parts.now) }
{
    let mut regions = Vec::with_capacity(alloc, parts.len())?;
    for part in parts {
        regions.push(part_region(alloc, var, part)?)?;
    }
    Ok(regions)
}

fn part_region(alloc: Global, var: &Var, part: &Part) -> Result<Region, Memory>
    ensures { IfOk result (λ region. region ≡ spec.part_region var.now part.now) }
{
    Ok(Region {
        start: part.start.clone(alloc)?,
        count: part.count.clone(alloc)?,
        stride: repeated(alloc, 1, var.dims.len())?,
        imap: SizeList::new(alloc),
        packed: true,
    })
}

fn code_by_boxes(
    header: &Header,
    measures: &Measures,
    var: &Var,
    regions: Vec<Region>,
    ends: Ends,
) -> Code
    requires measured { AreMeasures header.now measures.now }
    ensures { result ≡ code_by_boxes header.now var.now regions.items ends.known ends.direction }
{
    let refusal = first_refusal(header, measures, var, regions.as_slice(), ends);
    if !is_ok(refusal) {
        return refusal;
    }
    together_code(regions, ends.direction)
}

/// The code of parts of which none is refused by itself.
fn together_code(regions: Vec<Region>, direction: Direction) -> Code
    ensures { result ≡ together_code regions.items direction }
{
    if has_too_many(regions.as_slice()) {
        return Code::ETooLarge;
    }
    if !is_put(direction) {
        return Code::Ok;
    }
    if some_meet(regions) {
        return Code::ESelf;
    }
    Code::Ok
}

/// Whether the parts have too many elements together.
fn has_too_many(regions: &[Region]) -> bool
    ensures { result ≡ nat_lt most_elements (spec.elements_of_all regions.now) }
{
    elements_of_all(regions) > MAX_ELEMENTS
}

/// The code of the first part that is refused, or `Ok`.
fn first_refusal(
    header: &Header,
    measures: &Measures,
    var: &Var,
    regions: &[Region],
    ends: Ends,
) -> Code
    requires measured { AreMeasures header.now measures.now }
    ensures { result ≡ spec.first_refusal (map (λ g. spec.check_var header.now var.now g ends.known ends.direction) regions.now) }
{
    for region in regions {
        let code = region_code(header, measures, var, region, ends);
        if !is_ok(code) {
            return code;
        }
    }
    Code::Ok
}

fn is_ok(code: Code) -> bool
    ensures { result ≡ spec.is_ok_code code }
{
    matches!(code, Code::Ok)
}

fn is_put(direction: Direction) -> bool
    ensures { result ≡ spec.is_put direction }
{
    matches!(direction, Direction::Put)
}

/// How many elements the regions have together, or 2^62 where they have more.
pub fn elements_of_all(regions: &[Region]) -> u64
    ensures { result ≡ capped (spec.elements_of_all regions.now) }
{
    let mut elements = 0;
    for region in regions {
        elements = capped::sum(elements, elements_of(region));
    }
    elements
}

fn elements_of(region: &Region) -> u64
    ensures { result ≡ capped (product region.now.count) }
{
    capped::cap(u128::from(element_count(region.count.as_slice())))
}
