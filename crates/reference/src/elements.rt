// A request's elements one after another, each at its place.
ghost use Rattle.std.specs.Prelude.{◌≡◌, ◌+◌, ◌*◌, ◌++◌, ◌<◌, ◌≤◌, ◌^◌, true, length, take, drop, flat_map, slice_get, Some, IfOk, IfSome, OnOk};
ghost use Rattle.std.specs.List.{range_with_len};
ghost use Rattle.serial_spec.specs.ExternalForm as external;
ghost use Rattle.serial_spec.specs.SoundHeaders.{is_sound};
ghost use Rattle.serial_spec.specs.Layout.{product};
ghost use Rattle.serial_spec.specs.Limits.{most_elements};
ghost use Rattle.serial_spec.specs.Place as spec;
ghost use Rattle.serial_spec.specs.Request as request;
ghost use Rattle.serial_spec.specs.Request.{index_at};
ghost use Rattle.serial_spec.specs.SharedByte as shared;
ghost use Rattle.vara_extents.specs.Accepted.{IsAccepted};
ghost use Rattle.vara_extents.specs.Numbered.{coordinates_of, index_of};
ghost use Rattle.reference.specs.Requests.{AreBelow, IsPut};

use crate::bytes::{read, write};
use nc_base::{Blob, Header, Memory, Post, Region, SizeList, Var};
use std::alloc::Global;
use type_external::{element_count, size_of};
use var_layout::place;
use vara_extents::{bytes_wanted, variable};

/// Adds the index of the element that has this number in row-major order, dimension after dimension.
fn push_index(
    index: &mut Vec<u64>,
    starts: &[u64],
    counts: &[u64],
    strides: &[u64],
    number: u64,
) -> Result<(), Memory>
    requires number { number < product counts.now }
    requires few { product counts.now ≤ most_elements }
    requires low { AreBelow (2 ^ 62) (index_at starts.now strides.now (coordinates_of counts.now number)) }
    ensures { OnOk result (index.new.items ≡ index.old.items ++ index_at starts.now strides.now (coordinates_of counts.now number)) }
{
    let [start, starts @ ..] = starts else {
        return Ok(())
    };
    let [_, counts @ ..] = counts else {
        return Ok(())
    };
    let [stride, strides @ ..] = strides else {
        return Ok(())
    };
    let inner = element_count(counts);
    index.push(*start + number / inner * *stride)?;
    push_index(index, starts, counts, strides, number % inner)
}

/// The first byte of the element of the region that has this number.
fn place_of(
    alloc: Global,
    header: &Header,
    var: usize,
    of: &Var,
    region: &Region,
    number: u64,
) -> Result<u64, Memory>
    requires sound { is_sound header.now ≡ true }
    requires there { slice_get header.now.vars var ≡ Some of.now }
    requires accepted { IsAccepted header.now var region.now }
    requires number { number < product region.now.count }
    ensures place { IfOk result (λ at. at ≡ spec.place header.now of.now (index_of region.now number)) }
    ensures low { IfOk result (λ at. at + external.size_of of.now.kind < 2 ^ 62) }
{
    let mut index = Vec::new(alloc);
    push_index(
        &mut index,
        region.start.as_slice(),
        region.count.as_slice(),
        region.stride.as_slice(),
        number,
    )?;
    Ok(place(header, var, index.as_slice()))
}

/// Does a put: the bytes of each element are written at its place.
pub fn put(alloc: Global, header: &Header, post: &Post, file: &mut Vec<u8>) -> Result<(), Memory>
    requires sound { is_sound header.now ≡ true }
    requires right { IsPut header.now post.now }
    ensures { OnOk result (IfSome (slice_get header.now.vars post.now.var) (λ v. file.new.items ≡ request.put header.now v post.now.region post.now.bytes file.old.items)) }
{
    match variable(header, post.var as usize) {
        None => Ok(()),
        Some(of) => put_elements(alloc, header, of, post, file),
    }
}

fn put_elements(
    alloc: Global,
    header: &Header,
    of: &Var,
    post: &Post,
    file: &mut Vec<u8>,
) -> Result<(), Memory>
    requires sound { is_sound header.now ≡ true }
    requires there { slice_get header.now.vars post.now.var ≡ Some of.now }
    requires accepted { IsAccepted header.now post.now.var post.now.region }
    requires whole { length post.now.bytes ≡ product post.now.region.count * external.size_of of.now.kind }
    ensures { OnOk result (file.new.items ≡ request.put header.now of.now post.now.region post.now.bytes file.old.items) }
{
    let size = size_of(of.kind);
    let bytes = post.bytes.as_slice();
    for number in 0..element_count(post.region.count.as_slice()) {
        let at = place_of(alloc, header, post.var as usize, of, &post.region, number)?;
        write(file, at, element(bytes, number, size))?;
    }
    Ok(())
}

/// The bytes of the element that has this number.
fn element(bytes: &[u8], number: u64, size: u64) -> &[u8]
    requires { number * size + size ≤ length bytes.now }
    ensures { result.now ≡ take size (drop (number * size) bytes.now) }
{
    let from = (number * size) as usize;
    &bytes[from..from + size as usize]
}

/// Does a get: the bytes of each element, read at its place.
pub fn get(alloc: Global, header: &Header, post: &Post, file: &[u8]) -> Result<Blob, Memory>
    requires sound { is_sound header.now ≡ true }
    requires accepted { IsAccepted header.now post.now.var post.now.region }
    ensures { IfOk result (λ blob. IfSome (slice_get header.now.vars post.now.var) (λ v. blob ≡ request.get header.now v post.now.region file.now)) }
{
    match variable(header, post.var as usize) {
        None => Ok(Blob::new(alloc)),
        Some(of) => get_elements(alloc, header, of, post, file),
    }
}

fn get_elements(
    alloc: Global,
    header: &Header,
    of: &Var,
    post: &Post,
    file: &[u8],
) -> Result<Blob, Memory>
    requires sound { is_sound header.now ≡ true }
    requires there { slice_get header.now.vars post.now.var ≡ Some of.now }
    requires accepted { IsAccepted header.now post.now.var post.now.region }
    ensures { IfOk result (λ blob. blob ≡ request.get header.now of.now post.now.region file.now) }
{
    let mut bytes = Vec::with_capacity(alloc, bytes_wanted(header, post) as usize)?;
    for number in 0..element_count(post.region.count.as_slice()) {
        let at = place_of(alloc, header, post.var as usize, of, &post.region, number)?;
        read(file, at, size_of(of.kind), &mut bytes)?;
    }
    Ok(Blob::from_vec(bytes))
}

/// The bytes of the file that a request holds, one element after another.
pub fn bytes_of(alloc: Global, header: &Header, post: &Post) -> Result<SizeList, Memory>
    requires sound { is_sound header.now ≡ true }
    requires accepted { IsAccepted header.now post.now.var post.now.region }
    ensures { IfOk result (λ places. places ≡ shared.bytes_of header.now post.now) }
{
    match variable(header, post.var as usize) {
        None => Ok(SizeList::new(alloc)),
        Some(of) => bytes_of_elements(alloc, header, of, post),
    }
}

fn bytes_of_elements(
    alloc: Global,
    header: &Header,
    of: &Var,
    post: &Post,
) -> Result<SizeList, Memory>
    requires sound { is_sound header.now ≡ true }
    requires there { slice_get header.now.vars post.now.var ≡ Some of.now }
    requires accepted { IsAccepted header.now post.now.var post.now.region }
    ensures { IfOk result (λ list. list ≡ flat_map (λ x. range_with_len x (external.size_of of.now.kind)) (request.places header.now of.now post.now.region)) }
{
    let mut list = Vec::with_capacity(alloc, bytes_wanted(header, post) as usize)?;
    for number in 0..element_count(post.region.count.as_slice()) {
        let at = place_of(alloc, header, post.var as usize, of, &post.region, number)?;
        push_range(&mut list, at, size_of(of.kind))?;
    }
    Ok(SizeList::from_vec(list))
}

/// Adds so many numbers from this one on.
fn push_range(list: &mut Vec<u64>, at: u64, len: u64) -> Result<(), Memory>
    requires { at + len < 2 ^ 62 }
    ensures { OnOk result (list.new.items ≡ list.old.items ++ range_with_len at len) }
{
    for k in 0..len {
        list.push(at + k)?;
    }
    Ok(())
}
