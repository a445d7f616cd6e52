// Texts that the program prints, compared with texts that were written out from the description of the format.
ghost use Rattle.std.specs.Prelude.{◌≡◌, true};
ghost use Rattle.serial_spec.specs.SoundHeaders.{is_sound};

use super::ends::{Answered, Got, PLAIN, end_of};
use super::is_text;
use nc_base::{
    Blob, Code, Header, HeaderErr, LayoutErr, LimitName, Mark, NcType, Pair, RedefErr, Script,
    ScriptErr, ScriptKind, Values,
};
use ncmpi_script::read_script;
use printed_text::words::push_values;
use printed_text::{
    disk_line, header_line, layout_line, offsets_text, redef_line, run_text, script_line,
    usage_line,
};
use std::alloc::Global;
use std::process::Abort;
use test_fixtures::{NO_LAYOUT, NO_MEMORY, dimension, laid_out, one, over_one, two, variable};

/// The dimension x of 1, and over it a float variable f and a double variable d.
fn two_reals(rt: &impl Abort, alloc: Global) -> Header
    ensures { is_sound result ≡ true }
{
    let x = dimension(alloc, b'x', 1).expect(rt, NO_MEMORY);
    let single = variable(alloc, b'f', NcType::Float, 0).expect(rt, NO_MEMORY);
    let double = variable(alloc, b'd', NcType::Double, 0).expect(rt, NO_MEMORY);
    let vars = two(alloc, single, double).expect(rt, NO_MEMORY);
    let header = over_one(alloc, x, vars).expect(rt, NO_MEMORY);
    laid_out(header).expect(rt, NO_LAYOUT)
}

/// The dimension t without a limit, and a short variable s over it.
fn one_record(rt: &impl Abort, alloc: Global) -> Header
    ensures { is_sound result ≡ true }
{
    let t = dimension(alloc, b't', 0).expect(rt, NO_MEMORY);
    let s = variable(alloc, b's', NcType::Short, 0).expect(rt, NO_MEMORY);
    let vars = one(alloc, s).expect(rt, NO_MEMORY);
    let header = over_one(alloc, t, vars).expect(rt, NO_MEMORY);
    laid_out(header).expect(rt, NO_LAYOUT)
}

fn script_of(rt: &impl Abort, alloc: Global, text: &[u8]) -> Script {
    match read_script(alloc, text) {
        Ok(script) => script,
        Err(_) => panic!(rt; "it is a script"),
    }
}

/// Gets, requests and a wait for three ids, puts that share a byte, of which one is refused by itself too, and the length of a
/// dimension.
const TWO_RANKS: &[u8] = b"open
ranks 2
data
0 get_var_all f
0 get_var_all d
0 iget_var1 7 f [0]
0 iget_var1 2 d [0]
0 wait_all all
0 put_vara_all f [0] [2] x0 x0
0 inq_dimlen x
1 get_var_all f
1 get_var_all d
1 wait_all
1 put_vara_all f [0] [1] x0
end
";

const ORDER: &[Mark] = &[Mark::Meet(0), Mark::Meet(1), Mark::Solo(0, 12)];

const PAIR: Option<Pair> = Some(Pair {
    rank1: 0,
    request1: 0,
    rank2: 1,
    request2: 3,
    at: 118,
});

const OF_FIRST: &[Answered] = &[
    Answered {
        values: Got::Bits(&[0x7fc00001]),
        ..PLAIN
    },
    Answered {
        values: Got::Bits(&[0x3ff0000000000000]),
        ..PLAIN
    },
    PLAIN,
    PLAIN,
    Answered {
        items: &[
            (7, Code::Ok, Got::Bits(&[0xab])),
            (2, Code::Ok, Got::Bits(&[0xab])),
            (5, Code::EInvalRequest, Got::Nothing),
        ],
        ..PLAIN
    },
    Answered {
        code: Code::EEdge,
        pair: PAIR,
        ..PLAIN
    },
    Answered {
        number: Some(1),
        ..PLAIN
    },
];

const OF_SECOND: &[Answered] = &[
    PLAIN,
    PLAIN,
    PLAIN,
    Answered {
        pair: PAIR,
        ..PLAIN
    },
];

const TWO_RANKS_TEXT: &[u8] = b"ranks 2
order m0 m1 s0.12
rank 0
0 get_var_all ok x7FC00001
1 get_var_all ok x3FF0000000000000
2 iget_var1 ok
3 iget_var1 ok
4 wait_all ok
  7 ok x000000AB
  2 ok x00000000000000AB
  5 NC_EINVAL_REQUEST
5 put_vara_all NC_EEDGE overlap 0 0 1 3 118
6 inq_dimlen ok 1
pending 3
rank 1
0 get_var_all ok
1 get_var_all ok
2 wait_all ok
3 put_vara_all overlap 0 0 1 3 118
pending 0
// file format: CDF-1
file header:
  size = 116 bytes
  extent = 116 bytes
dimensions:
  x = 1
fixed-size variables:
  float f(x):
    start file offset = 116
    end file offset = 120
    size in bytes = 4
  double d(x):
    start file offset = 120
    end file offset = 128
    size in bytes = 8
record variables:
";

#[test]
fn two_ranks_are_told(rt: HostRuntime) {
    let alloc = rt.alloc();
    let header = two_reals(&rt, alloc);
    let script = script_of(&rt, alloc, TWO_RANKS);
    let end = end_of(&rt, alloc, ORDER, &[OF_FIRST, OF_SECOND], &[3, 0]);
    let text = run_text(alloc, &script, &header, &end).expect(&rt, NO_MEMORY);
    is_text(&rt, text.as_slice(), TWO_RANKS_TEXT);
    drop(text);
    drop(end);
    drop(script);
    drop(header);
}

const ONE_RECORD_TEXT: &[u8] = b"// file format: CDF-1
file header:
  size = 80 bytes
  extent = 80 bytes
dimensions:
  t = UNLIMITED // (0 currently)
fixed-size variables:
record variables:
  short s(t):
    start file offset = 80
    end file offset = 82
    size in bytes = 2
";

#[test]
fn a_record_variable_is_told(rt: HostRuntime) {
    let header = one_record(&rt, rt.alloc());
    let text = offsets_text(rt.alloc(), &header).expect(&rt, NO_MEMORY);
    is_text(&rt, text.as_slice(), ONE_RECORD_TEXT);
    drop(text);
    drop(header);
}

const ESCAPED: &[u8] = b" \"a b~\\\"\\\\\\n\\t\\x00\\x7F\\xE9\"";

#[test]
fn a_text_is_printed(rt: HostRuntime) {
    let bytes = Vec::from_slice(rt.alloc(), b"a b~\"\\\n\t\x00\x7f\xe9").expect(&rt, NO_MEMORY);
    let mut out = Vec::new(rt.alloc());
    push_values(&mut out, 16, &Values::Text(Blob::from_vec(bytes))).expect(&rt, NO_MEMORY);
    assert_eq!(rt; out.as_slice(), ESCAPED);
}

const A_MISMATCH: ScriptErr = ScriptErr {
    line: 8,
    kind: ScriptKind::Mismatch(0, 0, 1),
};

const TOO_MANY_PARTS: ScriptErr = ScriptErr {
    line: 5,
    kind: ScriptKind::Limit(LimitName::Parts),
};

fn is_line(rt: &impl Abort, line: Blob, told: &str) {
    is_text(rt, line.as_slice(), told.as_bytes());
    drop(line);
}

#[test]
fn faults_of_scripts_are_told(rt: HostRuntime) {
    let differ = script_line(rt.alloc(), &A_MISMATCH).expect(&rt, NO_MEMORY);
    is_line(
        &rt,
        differ,
        "ncrun: script line 8: ranks 0 and 1 differ at collective call 0\n",
    );
    let many = script_line(rt.alloc(), &TOO_MANY_PARTS).expect(&rt, NO_MEMORY);
    is_line(&rt, many, "ncrun: script line 5: limit of parts\n")
}

#[test]
fn other_faults_are_told(rt: HostRuntime) {
    let shared = header_line(rt.alloc(), &HeaderErr::Shared(0, 1)).expect(&rt, NO_MEMORY);
    is_line(
        &rt,
        shared,
        "ncrun: header has shared bytes of variables 0 and 1\n",
    );
    let large = layout_line(rt.alloc(), &LayoutErr::VarSize(2)).expect(&rt, NO_MEMORY);
    is_line(&rt, large, "ncrun: variable 2 is too large\n");
    let taken = redef_line(rt.alloc(), &RedefErr::Taken(3)).expect(&rt, NO_MEMORY);
    is_line(&rt, taken, "ncrun: redefinition 3: name taken\n");
    is_text(&rt, disk_line(), b"ncrun: disk fault\n");
    is_text(
        &rt,
        usage_line(),
        b"ncrun: usage: ncrun [--offsets] [--generate SEED [--size N]] [--watch N] DATASET\n",
    )
}
