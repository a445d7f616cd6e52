// The filling of a new dataset.
ghost use Rattle.std.specs.Prelude.{◌≡◌, ◌<◌, ◌≤◌, ◌+◌, ◌-◌, ◌*◌, ◌%◌, ◌^◌, min, true, flat_map, length, take, drop, slice_get, IfSome, IfOk, OnOk, OnErr};
ghost use Rattle.fill_records.specs.Filling.{fill_stores, repeated, filled_variable, variable_stores};
ghost use Rattle.nc_outside.specs.Cause.{HasDiskCause};
ghost use Rattle.nc_outside.specs.Told.{after, with_end, BothTold};
ghost use Rattle.overlay_laws.specs.Changes.{IsBetween};
ghost use Rattle.serial_spec.specs.DeviceCalls.{stores};
ghost use Rattle.serial_spec.specs.File.{written};
ghost use Rattle.serial_spec.specs.Fill.{filled};
ghost use Rattle.serial_spec.specs.HeaderBytes.{header_len};
ghost use Rattle.serial_spec.specs.SoundHeaders.{is_sound};
ghost use Rattle.serial_spec.specs.Layout.{end_of};

use crate::fill_value;
use nc_base::{Header, Memory, StepErr};
use nc_outside::Disk;
use std::alloc::Global;
use type_external::size_of;
use var_layout::{is_record, slab};

/// Fills the fixed variables of a new dataset, in order of definition, by writes of `size` bytes, the last of each variable shorter
/// or equal. Bytes between variables stay. Refused, it leaves each byte old or as it would have been.
///
/// It takes memory for one write and at most two values more.
pub fn prefill<D: Disk>(
    alloc: Global,
    disk: &mut D,
    header: &Header,
    size: u64,
) -> Result<(), StepErr>
    requires sound { is_sound header.now ≡ true }
    requires from { D.from disk.old ≡ 0 }
    requires long { end_of header.now (header_len header.now) 0 ≤ D.len disk.old }
    requires some { 1 ≤ size }
    requires most { size ≤ 2 ^ 25 }
    ensures bytes { OnOk result (D.held disk.new ≡ after (filled header.now) (D.held disk.old)) }
    ensures refused { OnErr result (BothTold (λ old left. IsBetween old (filled header.now old) left) (D.held disk.old) (D.held disk.new)) }
    ensures calls { OnOk result (D.calls disk.new ≡ with_end (D.calls disk.old) (fill_stores size header.now)) }
    ensures from { D.from disk.new ≡ 0 }
    ensures len { D.len disk.new ≡ D.len disk.old }
    ensures cause { HasDiskCause (D.faults disk.old) (D.faults disk.new) result }
{
    for var in 0..header.vars.len() {
        fill_variable(alloc, disk, header, var, size)?;
    }
    Ok(())
}

// Fills a variable, if it is fixed.
fn fill_variable<D: Disk>(
    alloc: Global,
    disk: &mut D,
    header: &Header,
    var: usize,
    size: u64,
) -> Result<(), StepErr>
    requires sound { is_sound header.now ≡ true }
    requires there { var < length header.now.vars }
    requires from { D.from disk.old ≡ 0 }
    requires long { end_of header.now (header_len header.now) 0 ≤ D.len disk.old }
    requires some { 1 ≤ size }
    requires most { size ≤ 2 ^ 25 }
    ensures bytes { OnOk result (IfSome (slice_get header.now.vars var) (λ v. D.held disk.new ≡ after (filled_variable header.now v) (D.held disk.old))) }
    ensures refused { OnErr result (IfSome (slice_get header.now.vars var) (λ v. BothTold (λ old left. IsBetween old (filled_variable header.now v old) left) (D.held disk.old) (D.held disk.new))) }
    ensures calls { OnOk result (IfSome (slice_get header.now.vars var) (λ v. D.calls disk.new ≡ with_end (D.calls disk.old) (variable_stores size header.now v))) }
    ensures from { D.from disk.new ≡ 0 }
    ensures len { D.len disk.new ≡ D.len disk.old }
    ensures cause { HasDiskCause (D.faults disk.old) (D.faults disk.new) result }
{
    let variable = &header.vars.as_slice()[var];
    if is_record(header, variable) {
        return Ok(());
    }
    let mut room = [0; 8];
    let value = &mut room[..size_of(variable.kind) as usize];
    fill_value(header, var, value);
    write_value(alloc, disk, value, variable.begin, slab(header, var), size)
}

// Writes a value over and over into so many bytes from a place on, by writes of `size` bytes, the last one shorter or equal.
fn write_value<D: Disk>(
    alloc: Global,
    disk: &mut D,
    value: &[u8],
    begin: u64,
    len: u64,
    size: u64,
) -> Result<(), StepErr>
    requires value { 1 ≤ length value.now }
    requires short { length value.now ≤ 8 }
    requires from { D.from disk.old ≡ 0 }
    requires long { begin + len ≤ D.len disk.old }
    requires end { begin + len < 2 ^ 62 }
    requires some { 1 ≤ size }
    requires most { size ≤ 2 ^ 25 }
    ensures bytes { OnOk result (D.held disk.new ≡ after (λ file. written file begin (repeated value.now 0 len)) (D.held disk.old)) }
    ensures refused { OnErr result (BothTold (λ old left. IsBetween old (written old begin (repeated value.now 0 len)) left) (D.held disk.old) (D.held disk.new)) }
    ensures calls { OnOk result (D.calls disk.new ≡ with_end (D.calls disk.old) (stores size begin len)) }
    ensures from { D.from disk.new ≡ 0 }
    ensures len { D.len disk.new ≡ D.len disk.old }
    ensures cause { HasDiskCause (D.faults disk.old) (D.faults disk.new) result }
{
    let copies = copies_of(alloc, value, size.min(len) as usize)?;
    for number in 0..len.div_ceil(size) {
        let window = window_of(value, &copies, len, size, number);
        disk.write_at(alloc, begin + window.at, window.bytes)?;
    }
    Ok(())
}

// So many copies of a value that each window of `len` bytes is some of theirs, wherever in a value it begins.
fn copies_of(alloc: Global, value: &[u8], len: usize) -> Result<Vec<u8>, Memory>
    requires value { 1 ≤ length value.now }
    requires len { len ≤ 2 ^ 25 }
    ensures bytes { IfOk result (λ copies. copies.items ≡ repeated value.now 0 (length copies.items)) }
    ensures len { IfOk result (λ copies. len + length value.now ≤ length copies.items) }
{
    Ok(value.repeat(alloc, len.div_ceil(value.len()) + 1)?)
}

// A window of the bytes that are written: how many stand before it, and its own.
#[derive(Clone, Copy)]
struct Window<'a> {
    at: u64,
    bytes: &'a [u8],
}

// The window with this number of `len` bytes, which are a value over and over, from copies of the value.
fn window_of<'a>(value: &[u8], copies: &'a [u8], len: u64, size: u64, number: u64) -> Window<'a>
    requires value { 1 ≤ length value.now }
    requires copies { copies.now ≡ repeated value.now 0 (length copies.now) }
    requires room { min size len + length value.now ≤ length copies.now }
    requires inside { number * size < len }
    ensures at { result.at ≡ number * size }
    ensures inside { result.at < len }
    ensures bytes { result.bytes.now ≡ repeated value.now (number * size) (min size (len - number * size)) }
    ensures long { length result.bytes.now ≡ min size (len - number * size) }
{
    let at = number * size;
    Window {
        at,
        bytes: bytes_from(copies, value.len(), at, size.min(len - at) as usize),
    }
}

// The bytes of a window that begins `at` bytes after the first value, from copies of the value, whose length is `period`.
fn bytes_from(copies: &[u8], period: usize, at: u64, len: usize) -> &[u8]
    requires period { 1 ≤ period }
    requires room { len + period ≤ length copies.now }
    ensures { result.now ≡ take len (drop (at % period) copies.now) }
{
    let skipped = (at % period as u64) as usize;
    &copies[skipped..skipped + len]
}
