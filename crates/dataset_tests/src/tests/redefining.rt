// A small dataset that is redefined: its header, its device calls and its bytes.
ghost use Rattle.std.specs.Prelude.{◌≡◌, ◌≤◌, ◌^◌, ◌∷◌, [], true};
ghost use Rattle.std.specs.List.{list_all};
ghost use Rattle.serial_spec.specs.Examples.{dim, var};
ghost use Rattle.serial_spec.specs.Lawful.{is_lawful_extra, is_whole_extra};
ghost use Rattle.serial_spec.specs.SoundHeaders.{is_redefinable};
ghost use Rattle.nc_base.specs.declared.header.NcType.TheVariants.{Int, Short};
ghost use Rattle.redef_laws.specs.Applied.{IsApplied};

use super::{file, has_bytes, has_calls};
use nc_base::{
    AttrList, DimList, DiskCall, Extra, ExtraList, Header, NcType, StepErr, Var, VarList,
};
use nc_outside::MemDisk;
use redef_mover::{apply, relocate};
use std::alloc::Global;
use std::process::Abort;
use test_fixtures::{NO_MEMORY, dimension, one, two};

/// What a test says of an extra that is refused.
const REFUSED: &str = "refused";

/// The dimensions x of length 4, x without a limit and y of length 3.
fn three_dims(rt: &impl Abort, alloc: Global) -> DimList
    ensures { result ≡ dim 120 4 ∷ dim 120 0 ∷ dim 121 3 ∷ [] }
{
    let first = dimension(alloc, b'x', 4).expect(rt, NO_MEMORY);
    let second = dimension(alloc, b'x', 0).expect(rt, NO_MEMORY);
    let third = dimension(alloc, b'y', 3).expect(rt, NO_MEMORY);
    let mut dims = two(alloc, first, second).expect(rt, NO_MEMORY);
    dims.push(third).expect(rt, NO_MEMORY);
    dims
}

/// A variable over the dimension of that number.
fn variable(rt: &impl Abort, alloc: Global, letter: u8, kind: NcType, over: u32, begin: u64) -> Var
    ensures { result ≡ record (var letter kind (over ∷ [])) { begin = begin } }
{
    Var {
        name: one(alloc, letter).expect(rt, NO_MEMORY),
        dims: one(alloc, over).expect(rt, NO_MEMORY),
        attrs: AttrList::new(alloc),
        kind,
        begin,
    }
}

/// The int variable v over the first of the dimensions, and the short variable s over the second.
fn ints_and_shorts(rt: &impl Abort, alloc: Global) -> VarList
    ensures { result ≡ record (var 118 Int (0 ∷ [])) { begin = 140 } ∷ record (var 115 Short (1 ∷ [])) { begin = 156 } ∷ [] }
{
    let v = variable(rt, alloc, b'v', NcType::Int, 0, 140);
    let s = variable(rt, alloc, b's', NcType::Short, 1, 156);
    two(alloc, v, s).expect(rt, NO_MEMORY)
}

/// A header with two dimensions of one name, a variable over each, and two records.
#[tactic(auto, unfolding(serial_spec::specs::HeaderBytes::canon))]
fn twice_named(rt: &impl Abort, alloc: Global) -> Header
    ensures { is_redefinable result ≡ true }
{
    Header {
        version: 1,
        records: 2,
        dims: three_dims(rt, alloc),
        attrs: AttrList::new(alloc),
        vars: ints_and_shorts(rt, alloc),
    }
}

/// The int variable q over the dimensions y and x.
fn inner_x(rt: &impl Abort, alloc: Global) -> Extra
    ensures lawful { is_lawful_extra result ≡ true }
    ensures whole { is_whole_extra result ≡ true }
{
    let y = one(alloc, b'y').expect(rt, NO_MEMORY);
    let x = one(alloc, b'x').expect(rt, NO_MEMORY);
    Extra::Var {
        kind: NcType::Int,
        name: one(alloc, b'q').expect(rt, NO_MEMORY),
        dims: two(alloc, y, x).expect(rt, NO_MEMORY),
    }
}

/// The list of it.
fn added(rt: &impl Abort, alloc: Global) -> ExtraList
    ensures lawful { list_all is_lawful_extra result ≡ true }
    ensures whole { list_all is_whole_extra result ≡ true }
{
    let extra = inner_x(rt, alloc);
    one(alloc, extra).expect(rt, NO_MEMORY)
}

/// The header with the extras.
fn applied(rt: &impl Abort, alloc: Global, header: &Header, extras: &ExtraList) -> Header
    requires redefinable { is_redefinable header.now ≡ true }
    requires lawful { list_all is_lawful_extra extras.now ≡ true }
    requires whole { list_all is_whole_extra extras.now ≡ true }
    ensures { IsApplied header.now extras.now result }
{
    apply(alloc, header, extras).expect(rt, REFUSED)
}

/// Moves the values to the places that they have by the new header, in windows of so many bytes.
fn moves(
    alloc: Global,
    disk: &mut MemDisk,
    old: &Header,
    new: &Header,
    extras: &ExtraList,
    size: u64,
) -> Result<(), StepErr>
    requires applied { IsApplied old.now extras.now new.now }
    requires from { disk.old.from ≡ 0 }
    requires some { 1 ≤ size }
    requires most { size ≤ 2 ^ 25 }
{
    relocate(alloc, disk, old, new, size)
}

fn has_begins(rt: &impl Abort, header: &Header, wanted: &[u64]) {
    let mut wanted = wanted.iter();
    for v in header.vars.as_slice() {
        assert!(rt; wanted.next() == Some(&v.begin));
    }
    assert!(rt; wanted.next().is_none());
}

/// The four values of v, and the two of s behind them.
const VALUES: &[u8] = b"\0\0\0\x01\0\0\0\x02\0\0\0\x03\0\0\0\x04\0\x05\0\x07";

const INTS: &[u8] = b"\0\0\0\x01\0\0\0\x02\0\0\0\x03\0\0\0\x04";

const SHORTS: &[u8] = b"\0\x05\0\x07";

const CALLS: [DiskCall; 14] = [
    DiskCall::Grow(248),
    // The records, from the last one on.
    DiskCall::Load(158, 2),
    DiskCall::Store(246, 2),
    DiskCall::Load(156, 2),
    DiskCall::Store(244, 2),
    // The ints, from the last window on.
    DiskCall::Load(144, 12),
    DiskCall::Store(184, 12),
    DiskCall::Load(140, 4),
    DiskCall::Store(180, 4),
    // The zeros of q, and the header.
    DiskCall::Store(196, 12),
    DiskCall::Store(208, 12),
    DiskCall::Store(220, 12),
    DiskCall::Store(232, 12),
    DiskCall::Store(0, 180),
];

// The first dimension named x has a limit, so q is no record variable.
#[test]
fn values_move_behind_an_added_variable(rt: HostRuntime) {
    let alloc = rt.alloc();
    let old = twice_named(&rt, alloc);
    let extras = added(&rt, alloc);
    let new = applied(&rt, alloc, &old, &extras);
    has_begins(&rt, &new, &[180, 244, 196]);
    let mut disk = file(&rt, alloc, 140, VALUES);
    assert!(rt; moves(alloc, &mut disk, &old, &new, &extras, 12).is_ok());
    has_calls(&rt, alloc, &disk, &CALLS);
    has_bytes(&rt, alloc, &disk, 0, b"CDF\x01\0\0\0\x02");
    has_bytes(&rt, alloc, &disk, 180, INTS);
    has_bytes(&rt, alloc, &disk, 196, &[0; 48]);
    has_bytes(&rt, alloc, &disk, 244, SHORTS);
    // Calls, which hide from the check how each list of these is let go.
    drop(disk);
    drop(new);
    drop(extras);
    drop(old);
}
