// Layouts of small datasets.
ghost use Rattle.std.specs.Prelude.{◌≡◌, ◌<◌, ◌≤◌, ◌^◌, true};
ghost use Rattle.serial_spec.specs.HeaderBytes.{is_version};
ghost use Rattle.serial_spec.specs.SoundHeaders.{is_sound};
ghost use Rattle.var_layout.specs.Unplaced.{is_unplaced};

use nc_base::{Align, AttrList, FILE_LIMIT, Header, NcType};
use std::alloc::Global;
use std::process::Abort;
use test_fixtures::{NO_LAYOUT, NO_MEMORY, dimension, one, variable};
use var_layout::{end_of, file_end, find_dim, find_var, header_len, lay_out, recsize, slab, vsize};

/// The dimension x and the variable v over it, without a begin.
fn header_of(rt: &impl Abort, alloc: Global, version: u8, len: u64, kind: NcType) -> Header
    requires { is_version version ≡ true }
    ensures { is_unplaced result ≡ true }
{
    let x = dimension(alloc, b'x', len).expect(rt, NO_MEMORY);
    let v = variable(alloc, b'v', kind, 0).expect(rt, NO_MEMORY);
    Header {
        version,
        records: 0,
        dims: one(alloc, x).expect(rt, NO_MEMORY),
        attrs: AttrList::new(alloc),
        vars: one(alloc, v).expect(rt, NO_MEMORY),
    }
}

/// The header with its begins, of which the first is a multiple of `first`.
fn laid_out(rt: &impl Abort, mut header: Header, first: u64) -> Header
    requires unplaced { is_unplaced header ≡ true }
    requires header_align { (0 < first) × (first ≤ 2 ^ 20) }
    ensures { is_sound result ≡ true }
{
    let align = Align {
        header: first,
        var: 4,
    };
    lay_out(&mut header, &align).expect(rt, NO_LAYOUT);
    header
}

/// The end of the file, which is below the limit.
fn end(rt: &impl Abort, header: &Header, records: u64) -> u64
    requires { is_sound header.now ≡ true }
{
    assert!(rt; file_end(header, records) < FILE_LIMIT);
    end_of(header, records)
}

/// The length of the header, the begin of its variable, the bytes of its slab and these rounded up, the record size, and the ends for no
/// record and for four.
fn sizes_of(rt: &impl Abort, header: &Header) -> [u64; 7]
    requires { is_sound header.now ≡ true }
{
    assert!(rt; header.vars.len() == 1);
    [
        header_len(header),
        header.vars.as_slice()[0].begin,
        slab(header, 0),
        vsize(header, 0),
        recsize(header),
        end(rt, header, 0),
        end(rt, header, 4),
    ]
}

/// The version, the length of the dimension, the variable's type, what the first begin is a multiple of, and the sizes.
const TABLE: [(u8, u64, NcType, u64, [u64; 7]); 5] = [
    (1, 4, NcType::Int, 4, [80, 80, 16, 16, 0, 96, 96]),
    (2, 4, NcType::Int, 4, [84, 84, 16, 16, 0, 100, 100]),
    (5, 4, NcType::UInt64, 4, [128, 128, 32, 32, 0, 160, 160]),
    (1, 0, NcType::Short, 4, [80, 80, 2, 4, 2, 80, 88]),
    (1, 4, NcType::Int, 512, [80, 512, 16, 16, 0, 528, 528]),
];

#[test]
fn one_variable_in_each_version_and_aligned(rt: HostRuntime) {
    for (version, len, kind, align, sizes) in TABLE {
        assert!(rt; version == 1 || version == 2 || version == 5);
        assert!(rt; 0 < align && align <= 1048576);
        let bare = header_of(&rt, rt.alloc(), version, len, kind);
        let header = laid_out(&rt, bare, align);
        assert!(rt; sizes_of(&rt, &header) == sizes);
        // A call, which hides from the check how each list of it is let go.
        drop(header);
    }
}

#[test]
fn dimensions_and_variables_have_names_of_their_own(rt: HostRuntime) {
    let header = header_of(&rt, rt.alloc(), 1, 4, NcType::Int);
    assert!(rt; find_dim(&header, b"x") == Some(0));
    assert!(rt; find_dim(&header, b"v").is_none());
    assert!(rt; find_var(&header, b"v") == Some(0));
    assert!(rt; find_var(&header, b"x").is_none());
    drop(header);
}
