// One text or more for each cause of a fault, texts at the edge of one, and the hints of whole scripts.
use super::{found, line_refused};
use nc_base::{Hints, LimitName, OverlapRule, ScriptKind};
use ncmpi_script::read_script;

const BYTES: [(&[u8], u32, ScriptKind); 3] = [
    (b"create 9\n\xff", 2, ScriptKind::NotUtf8),
    (b"create 1\n# \xc3\xa9\n\n# \xc3\n", 4, ScriptKind::NotUtf8),
    (b"# \xc3\xa9\ncreate 9", 2, ScriptKind::BadNumber),
];

#[test]
fn bytes_that_are_not_utf_8_come_before_the_lines(rt: HostRuntime) {
    for (text, line, kind) in &BYTES {
        found(&rt, rt.alloc(), text, Some((*line, *kind)), "bytes");
    }
}

const NEW: &str = "create 1\n";

const OF_NEW: [(&str, ScriptKind); 4] = [
    ("ranks 65", ScriptKind::BadNumber),
    ("dim x 2147483648", ScriptKind::BadNumber),
    ("var int64 v []", ScriptKind::UnknownWord),
    ("data x", ScriptKind::MissingWord),
];

const OPENED: &str = "open\nranks 1\ndim x 4\ndim t unlimited\nvar int v [x]\natt w a int 1\n";

const OF_OPENED: [(&str, ScriptKind); 5] = [
    ("fill", ScriptKind::UnknownWord),
    ("dim x 5", ScriptKind::TwiceNamed),
    ("var int u [q,t]", ScriptKind::BadShape),
    ("att w a byte 1", ScriptKind::TwiceNamed),
    ("att w b byte 128", ScriptKind::BadNumber),
];

const DEFINED: &str =
    "create 5\nranks 2\ndim x 4\ndim t unlimited\nvar int v [t,x]\nhint line_room 3\n";

const OF_DEFINED: [(&str, ScriptKind); 31] = [
    ("dimension y 4", ScriptKind::UnknownWord),
    ("hint cb_node 1", ScriptKind::UnknownWord),
    ("hint overlap none", ScriptKind::UnknownWord),
    ("var integer w [x]", ScriptKind::UnknownWord),
    ("0 buffer_detach", ScriptKind::UnknownWord),
    ("hint cb_nodes", ScriptKind::MissingWord),
    ("var int w", ScriptKind::MissingWord),
    ("dim y 4 5", ScriptKind::ExtraWord),
    ("data 1", ScriptKind::ExtraWord),
    ("ranks 0", ScriptKind::TwiceNamed),
    ("hint line_room", ScriptKind::TwiceNamed),
    ("dim t unlimited", ScriptKind::TwiceNamed),
    ("var int v [q]", ScriptKind::TwiceNamed),
    ("var int w [x,q,t]", ScriptKind::UnknownName),
    ("att x a int 1", ScriptKind::UnknownName),
    ("dim u unlimited x", ScriptKind::BadShape),
    ("var int w [t,t]", ScriptKind::BadShape),
    ("hint cb_nodes 65", ScriptKind::BadNumber),
    ("hint nc_var_align_size 1048575", ScriptKind::BadNumber),
    ("dim y 0", ScriptKind::BadNumber),
    ("dim y 4611686018427387904", ScriptKind::BadNumber),
    ("dim y Unlimited", ScriptKind::BadNumber),
    ("var int w [t, x]", ScriptKind::BadNumber),
    ("att v a byte 1 128", ScriptKind::BadNumber),
    ("att v a float x100000000", ScriptKind::BadNumber),
    ("att v a double seq 1 0 0", ScriptKind::BadNumber),
    ("dim y/z 4", ScriptKind::BadName),
    ("var int w [q,]", ScriptKind::BadName),
    ("att v a char \"b\\q\"", ScriptKind::BadText),
    ("att v a char 65", ScriptKind::BadText),
    ("hint \"cb_nodes", ScriptKind::BadText),
];

#[test]
fn faults_of_definitions_are_told(rt: HostRuntime) {
    line_refused(&rt, rt.alloc(), NEW, 2, &OF_NEW);
    line_refused(&rt, rt.alloc(), OPENED, 7, &OF_OPENED);
    line_refused(&rt, rt.alloc(), DEFINED, 7, &OF_DEFINED)
}

const CALLED: &str = "create 5\nranks 2\ndim x 4\nvar int v [x]\ndata\n0 iput_var 7 v\n";

const OF_CALLED: [(&str, ScriptKind); 32] = [
    ("x", ScriptKind::UnknownWord),
    ("0 put_var_al v", ScriptKind::UnknownWord),
    ("0 iput_var_all 8 v", ScriptKind::UnknownWord),
    ("2", ScriptKind::BadRank),
    ("18446744073709551616 sync_numrecs", ScriptKind::BadRank),
    ("0 put_vara v [0]", ScriptKind::MissingWord),
    ("0 put_varn v 2 [0] [1]", ScriptKind::MissingWord),
    ("0 put_var v seq 0 1", ScriptKind::MissingWord),
    ("0 get_vara v [0] [1] 5", ScriptKind::ExtraWord),
    ("0 wait all all", ScriptKind::ExtraWord),
    ("end 1", ScriptKind::ExtraWord),
    ("0 iget_var 007", ScriptKind::TwiceNamed),
    ("0 put_varn v 0", ScriptKind::BadNumber),
    ("0 put_vara v [0, 1]", ScriptKind::BadNumber),
    ("0 put_var1 v [9223372036854775808]", ScriptKind::BadNumber),
    ("0 put_var v 1.5", ScriptKind::BadNumber),
    ("0 put_var v 100000000000000000000", ScriptKind::BadNumber),
    ("0 put_var v x00000000000000001", ScriptKind::BadNumber),
    ("0 put_var v x1 2", ScriptKind::BadNumber),
    (
        "0 put_var v seqx 3 xFFFFFFFFFFFFFFFE x1",
        ScriptKind::BadNumber,
    ),
    (
        "0 put_var v seq 3 -99999999999999999998 -1",
        ScriptKind::BadNumber,
    ),
    ("0 put_var v seq 1048576 0 x", ScriptKind::BadNumber),
    ("0 iput_var 4294967296 v", ScriptKind::BadNumber),
    ("0 wait 1 all", ScriptKind::BadNumber),
    ("0 put_varn v 1025", ScriptKind::Limit(LimitName::Parts)),
    (
        "0 put_var v seq 1048577 x",
        ScriptKind::Limit(LimitName::Elements),
    ),
    ("0 put_var .v", ScriptKind::BadName),
    ("0 inq_dimlen :", ScriptKind::BadName),
    ("\"", ScriptKind::BadText),
    ("0 \"wait", ScriptKind::BadText),
    ("0 put_var v \"a\\\"", ScriptKind::BadText),
    ("end \"x", ScriptKind::BadText),
];

#[test]
fn faults_of_calls_are_told(rt: HostRuntime) {
    line_refused(&rt, rt.alloc(), CALLED, 7, &OF_CALLED)
}

const WHOLE: [(&str, u32, ScriptKind); 15] = [
    ("# a remark\n \t\r\n", 1, ScriptKind::NoHead),
    ("\n\"create 1\n", 2, ScriptKind::NoHead),
    ("create 3\n", 1, ScriptKind::BadNumber),
    ("create 1 \"x\n", 1, ScriptKind::BadText),
    ("open 1\n", 1, ScriptKind::ExtraWord),
    ("create 1\nopen\n", 2, ScriptKind::UnknownWord),
    ("create 1\nranks 0\ndim .x 4\n", 2, ScriptKind::BadNumber),
    ("create 1\nfill\nfill x\n", 3, ScriptKind::TwiceNamed),
    (
        "create 1\nranks 1\natt : a byte 1\natt : a 2\n",
        4,
        ScriptKind::TwiceNamed,
    ),
    ("create 1", 2, ScriptKind::NoEnd),
    ("create 1\nranks 1\ndata\n\n# end\n", 6, ScriptKind::NoEnd),
    (
        "create 1\nranks 1\ndata\nend x\nx\n",
        4,
        ScriptKind::ExtraWord,
    ),
    (
        "create 1\nranks 4\ndata\n3 sync_numrecs\n2 sync_numrecs\nend\nx\n",
        7,
        ScriptKind::AfterEnd,
    ),
    (
        "create 1\nranks 3\ndata\n0 wait_all\n1 sync_numrecs\n2 sync_numrecs\nend\n",
        7,
        ScriptKind::Mismatch(0, 0, 1),
    ),
    (
        "create 1\nranks 3\ndata\n0 put_var_all v 1\n0 get_var_all v\n1 put_var_all v 1\n1 get_var_all v\n1 wait_all all\n2 put_var_all v 1\n2 put_var_all v 1\nend\n",
        11,
        ScriptKind::Mismatch(1, 0, 2),
    ),
];

#[test]
fn the_first_fault_of_a_text_is_told(rt: HostRuntime) {
    for (text, line, kind) in &WHOLE {
        found(&rt, rt.alloc(), text.as_bytes(), Some((*line, *kind)), text);
    }
}

const SOUND: [&str; 6] = [
    "\n \n\t# create 9\r\n\tcreate\t1\r\nranks 1\r\ndata\n#x\nend\r",
    "create 1\nranks 1\ndim x 4\nvar int x [x,x]\natt x x int 1\natt : x int 1\nvar int y []\natt y x int\nhint threads off\ndata\nend\n",
    "create 5\ndim x 4611686018427387903\ndim t unlimited\nvar uint64 v [t,x]\nfill\nranks 064\ndata\nend\n",
    "create 1\nranks 2\natt : a byte seq 3 1 0\ndata\n1 iput_var 4294967295 v\n0 iput_var 4294967295 v\n0 get_vara_all v [9223372036854775807] []\n1 get_varn_all w 1 [] []\nend\n",
    "open\nranks 1\ndim x 4611686018427387903\nvar uint64 v [q,q,x]\natt q q ubyte 255\natt : q char \"\"\ndata\nend\n",
    "create 1\nranks 1\ndim 0.-+@_ 1\nvar int _ [0.-+@_]\ndata\n0 put_var _\n0 inq_dimlen 9\nend\n",
];

#[test]
fn texts_at_the_edge_are_read(rt: HostRuntime) {
    for text in &SOUND {
        found(&rt, rt.alloc(), text.as_bytes(), None, text);
    }
}

const HINTED: [(&str, Hints); 2] = [
    (
        "create 1\nranks 64\ndata\nend\n",
        Hints {
            cb_nodes: 8,
            cb_buffer: 16_777_216,
            rd_buffer: 4_194_304,
            wr_buffer: 524_288,
            line_room: 2,
            threads: true,
            overlap: OverlapRule::Refuse,
            header_align: 4,
            var_align: 4,
            striping_unit: 1,
        },
    ),
    (
        "create 1\nranks 1\nhint cb_nodes 64\nhint cb_buffer_size 33554432\nhint ind_rd_buffer_size 33554431\nhint ind_wr_buffer_size 33554430\nhint line_room 63\nhint threads off\nhint overlap serial\nhint nc_header_align_size 1048576\nhint nc_var_align_size 1048572\nhint striping_unit 33554429\ndata\nend\n",
        Hints {
            cb_nodes: 64,
            cb_buffer: 33_554_432,
            rd_buffer: 33_554_431,
            wr_buffer: 33_554_430,
            line_room: 63,
            threads: false,
            overlap: OverlapRule::Serial,
            header_align: 1_048_576,
            var_align: 1_048_572,
            striping_unit: 33_554_429,
        },
    ),
];

#[test]
fn hints_are_those_of_the_lines_or_their_defaults(rt: HostRuntime) {
    for (text, hints) in &HINTED {
        let Ok(script) = read_script(rt.alloc(), text.as_bytes()) else {
            panic!(rt; "it is a script");
        };
        assert_eq!(rt; script.hints, *hints);
    }
}
