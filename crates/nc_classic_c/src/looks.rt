// What a header has of a number or of a name.
ghost use Rattle.std.specs.Prelude.{◌≡◌, Ok, Err, IfOk, IfErr, bytes_eq, position, slice_get, Some};
ghost use Rattle.nc_classic_c.specs.Looks.{dimension_at, dimension_named, variable_at, variable_named, attributes_of, attribute_at, attribute_named};

use crate::answers::Refusal;
use nc_base::{Attr, Code, Dim, Header, Var};
use var_layout::{find_dim, find_var};

/// The number that stands for the dataset where an attribute's owner is asked for.
pub(crate) const DATASET: u64 = u64::MAX;

pub(crate) fn dimension_at(header: &Header, number: u64) -> Result<&Dim, Refusal>
    ensures found { IfOk result (λ d. dimension_at number header.now ≡ Ok d.now) }
    ensures refused { IfErr result (λ r. dimension_at number header.now ≡ Err r) }
{
    match header.dims.as_slice().get(number as usize) {
        Some(dim) => Ok(dim),
        None => Err(Refusal::Asked(Code::EBadDim)),
    }
}

pub(crate) fn dimension_named(header: &Header, name: &[u8]) -> Result<u64, Refusal>
    ensures found { IfOk result (λ n. dimension_named name.now header.now ≡ Ok n) }
    ensures refused { IfErr result (λ r. dimension_named name.now header.now ≡ Err r) }
{
    match find_dim(header, name) {
        Some(number) => Ok(number as u64),
        None => Err(Refusal::Asked(Code::EBadDim)),
    }
}

pub(crate) fn variable_at(header: &Header, number: u64) -> Result<&Var, Refusal>
    ensures found { IfOk result (λ v. variable_at number header.now ≡ Ok v.now) }
    ensures there { IfOk result (λ v. slice_get header.now.vars number ≡ Some v.now) }
    ensures refused { IfErr result (λ r. variable_at number header.now ≡ Err r) }
{
    match header.vars.as_slice().get(number as usize) {
        Some(var) => Ok(var),
        None => Err(Refusal::Asked(Code::ENotVar)),
    }
}

pub(crate) fn variable_named(header: &Header, name: &[u8]) -> Result<u64, Refusal>
    ensures found { IfOk result (λ n. variable_named name.now header.now ≡ Ok n) }
    ensures refused { IfErr result (λ r. variable_named name.now header.now ≡ Err r) }
{
    match find_var(header, name) {
        Some(number) => Ok(number as u64),
        None => Err(Refusal::Asked(Code::ENotVar)),
    }
}

/// The attributes of a variable, or of the dataset.
fn attributes_of(header: &Header, owner: u64) -> Result<&[Attr], Refusal>
    ensures found { IfOk result (λ attrs. attributes_of owner header.now ≡ Ok attrs.now) }
    ensures refused { IfErr result (λ r. attributes_of owner header.now ≡ Err r) }
{
    if owner == DATASET {
        return Ok(header.attrs.as_slice());
    }
    match header.vars.as_slice().get(owner as usize) {
        Some(var) => Ok(var.attrs.as_slice()),
        None => Err(Refusal::Asked(Code::ENotVar)),
    }
}

pub(crate) fn attribute_at(header: &Header, owner: u64, number: u64) -> Result<&Attr, Refusal>
    ensures found { IfOk result (λ a. attribute_at owner number header.now ≡ Ok a.now) }
    ensures refused { IfErr result (λ r. attribute_at owner number header.now ≡ Err r) }
{
    let attrs = attributes_of(header, owner)?;
    match attrs.get(number as usize) {
        Some(attr) => Ok(attr),
        None => Err(Refusal::NoAttribute),
    }
}

pub(crate) fn attribute_named(header: &Header, owner: u64, name: &[u8]) -> Result<u64, Refusal>
    ensures found { IfOk result (λ n. attribute_named owner name.now header.now ≡ Ok n) }
    ensures refused { IfErr result (λ r. attribute_named owner name.now header.now ≡ Err r) }
{
    let attrs = attributes_of(header, owner)?;
    match find_attribute(attrs, name) {
        Some(number) => Ok(number as u64),
        None => Err(Refusal::NoAttribute),
    }
}

/// The first attribute of this name.
fn find_attribute(attrs: &[Attr], name: &[u8]) -> Option<usize>
    ensures { result ≡ position (λ a. bytes_eq a.name name.now) attrs.now }
{
    attrs.iter().position(|attr| attr.name.as_slice() == name)
}
