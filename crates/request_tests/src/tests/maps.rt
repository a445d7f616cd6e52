// Memory and bytes side by side. Two rows of three, which memory has column by column: the map 1, 2.
ghost use Rattle.std.specs.Prelude.{◌≡◌, ◌*◌, ◌∷◌, [], length};
ghost use Rattle.serial_spec.specs.ExternalForm as external;
ghost use Rattle.serial_spec.specs.Layout.{product};
ghost use Rattle.imap_extents.specs.Mapped.{IsMapped};

use super::REFUSED;
use imap_extents::{pack, unpack};
use nc_base::{BitList, NcType, NumberList, NumberRun, Region, SizeList, Values};
use std::alloc::Global;
use std::process::Abort;
use test_fixtures::NO_MEMORY;

fn sizes(rt: &impl Abort, alloc: Global, sizes: &[u64]) -> SizeList
    ensures { result ≡ sizes.now }
{
    SizeList::from_slice(alloc, sizes).expect(rt, NO_MEMORY)
}

/// Two rows of three; memory has them column by column where it is not packed.
fn rows(rt: &impl Abort, alloc: Global, packed: bool) -> Region
    ensures { IsMapped result }
{
    Region {
        start: sizes(rt, alloc, &[0, 0]),
        count: sizes(rt, alloc, &[2, 3]),
        stride: sizes(rt, alloc, &[1, 1]),
        imap: sizes(rt, alloc, &[1, 2]),
        packed,
    }
}

/// Two elements at one position of memory.
fn together(rt: &impl Abort, alloc: Global) -> Region
    ensures mapped { IsMapped result }
    ensures count { result.count ≡ 2 ∷ [] }
{
    Region {
        start: sizes(rt, alloc, &[0]),
        count: sizes(rt, alloc, &[2]),
        stride: sizes(rt, alloc, &[1]),
        imap: sizes(rt, alloc, &[0]),
        packed: false,
    }
}

fn numbers(rt: &impl Abort, alloc: Global, numbers: &[i128]) -> Values {
    Values::Numbers(NumberList::from_vec(Vec::from_slice(alloc, numbers).expect(rt, NO_MEMORY)))
}

fn bits(rt: &impl Abort, alloc: Global, patterns: &[u64]) -> Values {
    Values::Bits(BitList::from_vec(Vec::from_slice(alloc, patterns).expect(rt, NO_MEMORY)))
}

/// A put has these bytes.
fn is_packed(
    rt: &impl Abort,
    alloc: Global,
    kind: NcType,
    region: Region,
    values: Values,
    form: &[u8],
)
    requires { IsMapped region }
{
    let bytes = pack(alloc, kind, &region, &values).expect(rt, REFUSED);
    assert!(rt; bytes.as_slice() == form);
    // Calls, which hide from the check how each list of these is let go.
    drop(values);
    drop(region);
}

#[test]
fn columns_become_rows(rt: HostRuntime) {
    let alloc = rt.alloc();
    let values = numbers(&rt, alloc, &[1, 2, 3, 4, 5, 6]);
    let columns = rows(&rt, alloc, false);
    is_packed(
        &rt,
        alloc,
        NcType::Byte,
        columns,
        values,
        &[1, 3, 5, 2, 4, 6],
    );
}

/// The numbers -2 and 1 as one run, and then 300, 299 and so on as another.
fn two_runs(rt: &impl Abort, alloc: Global) -> Values {
    let mut list = NumberList::new(alloc);
    list.push_run(NumberRun {
        first: -2,
        step: 3,
        count: 2,
    })
    .expect(rt, NO_MEMORY);
    list.push_run(NumberRun {
        first: 300,
        step: -1,
        count: 5,
    })
    .expect(rt, NO_MEMORY);
    Values::Numbers(list)
}

// Six of the seven numbers, so that a run is cut.
#[test]
fn runs_are_packed(rt: HostRuntime) {
    let alloc = rt.alloc();
    let values = two_runs(&rt, alloc);
    let plain = rows(&rt, alloc, true);
    let form = [0xff, 0xfe, 0, 1, 1, 0x2c, 1, 0x2b, 1, 0x2a, 1, 0x29];
    is_packed(&rt, alloc, NcType::Short, plain, values, &form);
}

#[test]
fn as_many_values_as_elements_are_enough(rt: HostRuntime) {
    let alloc = rt.alloc();
    let values = numbers(&rt, alloc, &[1, 2, 3, 4, 5, 6]);
    let plain = rows(&rt, alloc, true);
    is_packed(&rt, alloc, NcType::Byte, plain, values, &[1, 2, 3, 4, 5, 6]);
}

/// What a get of these bytes brings.
fn unpacked(rt: &impl Abort, alloc: Global, kind: NcType, region: &Region, bytes: &[u8]) -> Values
    requires mapped { IsMapped region.now }
    requires long { length bytes.now ≡ product region.now.count * external.size_of kind }
{
    unpack(alloc, kind, region, bytes).expect(rt, REFUSED)
}

#[test]
fn later_element_stands(rt: HostRuntime) {
    let alloc = rt.alloc();
    let region = together(&rt, alloc);
    let bytes = [0, 0, 0, 1, 0x3f, 0x80, 0, 0];
    let found = unpacked(&rt, alloc, NcType::Float, &region, &bytes);
    let wanted = bits(&rt, alloc, &[0x3f80_0000]);
    assert!(rt; found == wanted);
    drop(wanted);
    drop(found);
    drop(region);
}
