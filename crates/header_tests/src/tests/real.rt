// Headers that public tools wrote, beside what `ncdump -h` and `ncoffsets` show of them.
use super::{files, read};
use nc_base::{Attr, Header, NcType};
use std::alloc::Global;
use std::process::Abort;

/// What a test says of a header that is read right.
const FAULT: &str = "fault";

/// The name, the type and the bytes of the values.
type ShownAttr = (&'static [u8], NcType, &'static [u8]);

/// A variable's name, its type, its dimensions, its begin and its attributes.
struct ShownVar {
    name: &'static [u8],
    kind: NcType,
    dims: &'static [u32],
    begin: u64,
    attrs: &'static [ShownAttr],
}

struct Shown {
    bytes: &'static [u8],
    records: u64,
    /// The name and the length, which is 0 for the record dimension.
    dims: &'static [(&'static [u8], u64)],
    attrs: &'static [ShownAttr],
    vars: &'static [ShownVar],
}

/// The weather in CDF-1, and each type in CDF-5, by ncgen; in CDF-2 and CDF-5, with a gap behind the header, by ncmpigen.
const FILES: [Shown; 4] = [
    Shown {
        bytes: files::WEATHER,
        records: 3,
        dims: &[(b"time", 0), (b"lat", 2), (b"lon", 3)],
        attrs: &[(b"title", NcType::Char, b"abc")],
        vars: &[
            ShownVar {
                name: b"lat",
                kind: NcType::Float,
                dims: &[1],
                begin: 388,
                attrs: &[(b"units", NcType::Char, b"degrees_north")],
            },
            ShownVar {
                name: b"t",
                kind: NcType::Short,
                dims: &[0, 1, 2],
                begin: 400,
                attrs: &[
                    (
                        b"scale",
                        NcType::Double,
                        b"\x3f\xe0\x00\x00\x00\x00\x00\x00",
                    ),
                    (b"range", NcType::Short, b"\xff\xd8\x00\x3c"),
                ],
            },
            ShownVar {
                name: b"run",
                kind: NcType::Int,
                dims: &[],
                begin: 396,
                attrs: &[],
            },
            ShownVar {
                name: b"flag",
                kind: NcType::Byte,
                dims: &[0],
                begin: 412,
                attrs: &[
                    (b"bits", NcType::Byte, b"\x01\xfe"),
                    (b"fill", NcType::Int, b"\xff\xff\xff\xff"),
                    (b"gain", NcType::Float, b"\x3f\xc0\x00\x00"),
                ],
            },
        ],
    },
    Shown {
        bytes: files::TYPES,
        records: 2,
        dims: &[(b"n", 3), (b"t", 0)],
        attrs: &[
            (b"b", NcType::Byte, b"\xff"),
            (b"s", NcType::Short, b"\x00\x02"),
            (b"i", NcType::Int, b"\x00\x00\x00\x03"),
            (b"f", NcType::Float, b"\x3f\xc0\x00\x00"),
        ],
        vars: &[
            ShownVar {
                name: b"a",
                kind: NcType::UByte,
                dims: &[0],
                begin: 828,
                attrs: &[(b"v", NcType::UByte, b"\xc8")],
            },
            ShownVar {
                name: b"b",
                kind: NcType::UShort,
                dims: &[1],
                begin: 856,
                attrs: &[(b"v", NcType::UShort, b"\xea\x60\x00\x01")],
            },
            ShownVar {
                name: b"c",
                kind: NcType::UInt,
                dims: &[0],
                begin: 832,
                attrs: &[(b"v", NcType::UInt, b"\xee\x6b\x28\x00")],
            },
            ShownVar {
                name: b"d",
                kind: NcType::Int,
                dims: &[1, 0],
                begin: 860,
                attrs: &[(b"v", NcType::Int64, b"\xff\xff\xff\xff\xff\xff\xff\xfb")],
            },
            ShownVar {
                name: b"e",
                kind: NcType::UInt64,
                dims: &[],
                begin: 844,
                attrs: &[(b"v", NcType::UInt64, b"\xff\xff\xff\xff\xff\xff\xff\xff")],
            },
            ShownVar {
                name: b"f",
                kind: NcType::Char,
                dims: &[0],
                begin: 852,
                attrs: &[(b"v", NcType::Char, b"xy")],
            },
            ShownVar {
                name: b"g",
                kind: NcType::Double,
                dims: &[1],
                begin: 872,
                attrs: &[(b"v", NcType::Double, b"\x40\x04\x00\x00\x00\x00\x00\x00")],
            },
        ],
    },
    Shown {
        bytes: files::LONE,
        records: 3,
        dims: &[(b"t", 0)],
        attrs: &[],
        vars: &[ShownVar {
            name: b"s",
            kind: NcType::Short,
            dims: &[0],
            begin: 512,
            attrs: &[],
        }],
    },
    Shown {
        bytes: files::LARGE,
        records: 0,
        dims: &[(b"y", 2), (b"t", 0)],
        attrs: &[],
        vars: &[
            ShownVar {
                name: b"a",
                kind: NcType::Int64,
                dims: &[1, 0],
                begin: 528,
                attrs: &[],
            },
            ShownVar {
                name: b"b",
                kind: NcType::UInt64,
                dims: &[],
                begin: 512,
                attrs: &[],
            },
            ShownVar {
                name: b"c",
                kind: NcType::UByte,
                dims: &[1],
                begin: 544,
                attrs: &[],
            },
            ShownVar {
                name: b"d",
                kind: NcType::UShort,
                dims: &[0, 0],
                begin: 520,
                attrs: &[],
            },
            ShownVar {
                name: b"e",
                kind: NcType::UInt,
                dims: &[1],
                begin: 548,
                attrs: &[],
            },
        ],
    },
];

fn are_shown(attrs: &[Attr], shown: &[ShownAttr]) -> bool {
    let mut same = attrs.len() == shown.len();
    for (attr, (name, kind, bytes)) in attrs.iter().zip(shown) {
        same &= attr.name.as_slice() == *name;
        same &= attr.kind == *kind;
        same &= attr.bytes.as_slice() == *bytes;
    }
    same
}

fn has_dims(header: &Header, shown: &Shown) -> bool {
    let mut same = header.dims.len() == shown.dims.len();
    for (dim, (name, len)) in header.dims.as_slice().iter().zip(shown.dims) {
        same &= dim.name.as_slice() == *name;
        same &= dim.len == *len;
    }
    same
}

fn has_vars(header: &Header, shown: &Shown) -> bool {
    let mut same = header.vars.len() == shown.vars.len();
    for (var, wanted) in header.vars.as_slice().iter().zip(shown.vars) {
        same &= var.name.as_slice() == wanted.name;
        same &= var.kind == wanted.kind;
        same &= var.dims.as_slice() == wanted.dims;
        same &= var.begin == wanted.begin;
        same &= are_shown(var.attrs.as_slice(), wanted.attrs);
    }
    same
}

fn is_as_shown(rt: &impl Abort, alloc: Global, shown: &Shown) -> bool {
    let (header, len) = read(alloc, shown.bytes).expect(rt, FAULT);
    let same = len == shown.bytes.len() as u64
        && header.records == shown.records
        && are_shown(header.attrs.as_slice(), shown.attrs)
        && has_dims(&header, shown)
        && has_vars(&header, shown);
    // A call, which hides from the check how each list of it is let go.
    drop(header);
    same
}

#[test]
fn files_of_public_tools(rt: HostRuntime) {
    for shown in &FILES {
        assert!(rt; is_as_shown(&rt, rt.alloc(), shown));
    }
}
