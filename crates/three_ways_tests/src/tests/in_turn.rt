// Runs of which the real program's answers, bytes and device calls are worked out in `.ci/rows`. Here the ranks go in turn, and the serial run along the same
// order must end the same.
use crate::tests::worked::{MAGIC, NEW_V, NO_RECORDS, S, V, is_serial};
use crate::tests::{joined, program};
use run_fixtures::{PLAIN, Run};
use std::alloc::Global;
use std::process::Abort;
use std::sync::Wait;
use std::thread::Threads;

// What the scripts begin with, and their definitions.
const ONE_RANK: &[u8] = b"create 1\nranks 1\nhint threads off\n";

const TWO_RANKS: &[u8] = b"create 1\nranks 2\nhint threads off\n";

const VECTOR: &[u8] = b"dim x 4\nvar int v [x]\ndata\n";

const RECORDS: &[u8] = b"dim t unlimited\nvar short s [t]\ndata\n";

const WHOLE: &[u8] = b"0 put_var_all v 1 2 3 4\nend\n";

const HINT_64: &[u8] = b"hint cb_nodes 64\n";

const HINT_3: &[u8] = b"hint cb_buffer_size 3\n";

// `dim t unlimited`, `var short s [t]` at 116, `var int q [t]` at 120.
const S_AND_Q: &[u8] = b"\
    CDF\x01\x00\x00\x00\x00\x00\x00\x00\x0a\x00\x00\x00\x01\x00\x00\x00\x01\
    t\x00\x00\x00\x00\x00\x00\x00\x00\x00\x00\x00\x00\x00\x00\x00\x00\x00\x00\x0b\
    \x00\x00\x00\x02\x00\x00\x00\x01s\x00\x00\x00\x00\x00\x00\x01\x00\x00\x00\x00\
    \x00\x00\x00\x00\x00\x00\x00\x00\x00\x00\x00\x03\x00\x00\x00\x04\x00\x00\x00t\
    \x00\x00\x00\x01q\x00\x00\x00\x00\x00\x00\x01\x00\x00\x00\x00\x00\x00\x00\x00\
    \x00\x00\x00\x00\x00\x00\x00\x04\x00\x00\x00\x04\x00\x00\x00x";

// `dim y 2`, `dim x 3`, `var int w [y,x]` at 96.
const W: &[u8] = b"\
    CDF\x01\x00\x00\x00\x00\x00\x00\x00\x0a\x00\x00\x00\x02\x00\x00\x00\x01\
    y\x00\x00\x00\x00\x00\x00\x02\x00\x00\x00\x01x\x00\x00\x00\x00\x00\x00\x03\
    \x00\x00\x00\x00\x00\x00\x00\x00\x00\x00\x00\x0b\x00\x00\x00\x01\x00\x00\x00\x01\
    w\x00\x00\x00\x00\x00\x00\x02\x00\x00\x00\x00\x00\x00\x00\x01\x00\x00\x00\x00\
    \x00\x00\x00\x00\x00\x00\x00\x04\x00\x00\x00\x18\x00\x00\x00\x60";

// `dim x 10`, `var int v [x]` at 80.
const TEN: &[u8] = b"\
    CDF\x01\x00\x00\x00\x00\x00\x00\x00\x0a\x00\x00\x00\x01\x00\x00\x00\x01\
    x\x00\x00\x00\x00\x00\x00\x0a\x00\x00\x00\x00\x00\x00\x00\x00\x00\x00\x00\x0b\
    \x00\x00\x00\x01\x00\x00\x00\x01v\x00\x00\x00\x00\x00\x00\x01\x00\x00\x00\x00\
    \x00\x00\x00\x00\x00\x00\x00\x00\x00\x00\x00\x04\x00\x00\x00\x28\x00\x00\x00P";

// `dim x 2`, `var short s [x]` at 116, `var float f [x]` at 120.
const S_AND_F: &[u8] = b"\
    CDF\x01\x00\x00\x00\x00\x00\x00\x00\x0a\x00\x00\x00\x01\x00\x00\x00\x01\
    x\x00\x00\x00\x00\x00\x00\x02\x00\x00\x00\x00\x00\x00\x00\x00\x00\x00\x00\x0b\
    \x00\x00\x00\x02\x00\x00\x00\x01s\x00\x00\x00\x00\x00\x00\x01\x00\x00\x00\x00\
    \x00\x00\x00\x00\x00\x00\x00\x00\x00\x00\x00\x03\x00\x00\x00\x04\x00\x00\x00t\
    \x00\x00\x00\x01f\x00\x00\x00\x00\x00\x00\x01\x00\x00\x00\x00\x00\x00\x00\x00\
    \x00\x00\x00\x00\x00\x00\x00\x05\x00\x00\x00\x08\x00\x00\x00x";

const NEW_S: &[&[u8]] = &[MAGIC, NO_RECORDS, S];

const COUNTED: &[&[u8]] = &[
    MAGIC,
    NO_RECORDS,
    V,
    b"\x00\x00\x00\x01\x00\x00\x00\x02\x00\x00\x00\x03\x00\x00\x00\x04",
];

// A script in parts, and what the dataset holds when the ranks begin.
struct Serial {
    script: &'static [&'static [u8]],
    begun: &'static [&'static [u8]],
}

const RUNS: [Serial; 18] = [
    // Halves, every other element through small windows, and a hole in what stands there.
    Serial {
        script: &[
            TWO_RANKS,
            b"hint cb_nodes 2\n",
            VECTOR,
            b"0 put_vara_all v [0] [2] 1 2\n1 put_vara_all v [2] [2] 3 4\nend\n",
        ],
        begun: NEW_V,
    },
    Serial {
        script: &[
            TWO_RANKS,
            b"hint cb_nodes 1\nhint cb_buffer_size 4\n",
            VECTOR,
            b"0 put_vars_all v [0] [2] [2] 1 3\n1 put_vars_all v [1] [2] [2] 2 4\nend\n",
        ],
        begun: NEW_V,
    },
    Serial {
        script: &[
            b"open\nranks 1\nhint threads off\nhint cb_buffer_size 16\ndata\n0 put_vars_all v [0] [2] [3] 7 8\nend\n",
        ],
        begun: COUNTED,
    },
    // An overlap, an aggregator for each byte, windows of three bytes, and puts without an element.
    Serial {
        script: &[
            b"create 1\nranks 3\nhint threads off\n",
            VECTOR,
            b"0 put_vara_all v [0] [3] 1 2 3\n1 put_vara_all v [2] [2] 8 9\n2 put_vara_all v [0] [0]\nend\n",
        ],
        begun: NEW_V,
    },
    Serial {
        script: &[ONE_RANK, HINT_64, VECTOR, WHOLE],
        begun: NEW_V,
    },
    Serial {
        script: &[ONE_RANK, HINT_3, VECTOR, WHOLE],
        begun: NEW_V,
    },
    Serial {
        script: &[
            TWO_RANKS,
            VECTOR,
            b"0 put_vara_all v [0] [0]\n1 put_vara_all v [0] [0]\nend\n",
        ],
        begun: NEW_V,
    },
    // A rank that is refused beside one that is not.
    Serial {
        script: &[
            TWO_RANKS,
            VECTOR,
            b"0 put_vara_all v [4] [0]\n0 put_vara_all v [4] [1] 9\n0 put_vara_all v [3] [2] 9 9\n0 put_vars_all v [0] [1] [0] 9\n\
            1 put_vara_all v [0] [1] 5\n1 put_vara_all v [0] [1] 5\n1 put_vara_all v [0] [1] 5\n1 put_vara_all v [0] [1] 5\nend\n",
        ],
        begun: NEW_V,
    },
    // Records of one variable and of two.
    Serial {
        script: &[ONE_RANK, RECORDS, b"0 put_var1_all s [3] 7\nend\n"],
        begun: NEW_S,
    },
    Serial {
        script: &[
            ONE_RANK,
            b"dim t unlimited\nvar short s [t]\nvar int q [t]\ndata\n0 put_var1_all s [1] 5\nend\n",
        ],
        begun: &[S_AND_Q],
    },
    // Memory by an index map.
    Serial {
        script: &[
            ONE_RANK,
            b"dim y 2\ndim x 3\nvar int w [y,x]\ndata\n0 put_varm_all w [0,0] [2,3] [1,1] [1,2] 1 2 3 4 5 6\n\
            0 get_varm_all w [0,0] [2,3] [1,1] [1,2]\n0 get_var_all w\nend\n",
        ],
        begun: &[W, &[0; 24]],
    },
    // Ten posts, the attached buffer, and values that do not fit.
    Serial {
        script: &[
            ONE_RANK,
            b"dim x 10\nvar int v [x]\ndata\n0 iput_var1 0 v [0] 0\n0 iput_var1 1 v [1] 1\n0 iput_var1 2 v [2] 2\n\
            0 iput_var1 3 v [3] 3\n0 iput_var1 4 v [4] 4\n0 iput_var1 5 v [5] 5\n0 iput_var1 6 v [6] 6\n0 iput_var1 7 v [7] 7\n\
            0 iput_var1 8 v [8] 8\n0 iput_var1 9 v [9] 9\n0 wait_all all\n0 wait_all 3\nend\n",
        ],
        begun: &[TEN, &[0; 40]],
    },
    Serial {
        script: &[
            ONE_RANK,
            VECTOR,
            b"0 bput_var1 9 v [0] 1\n0 buffer_attach 0\n0 buffer_attach 8\n0 buffer_attach 8\n0 bput_vara 0 v [0] [2] 1 2\n\
            0 bput_var1 1 v [2] 3\n0 buffer_detach\n0 wait_all all\n0 bput_var1 2 v [2] 3\n0 cancel all\n0 buffer_detach\n\
            0 buffer_detach\nend\n",
        ],
        begun: NEW_V,
    },
    Serial {
        script: &[
            ONE_RANK,
            b"dim x 2\nvar short s [x]\nvar float f [x]\ndata\n0 put_var_all s 40000 1\n0 put_var_all s \"ab\"\n0 put_var_all f 1 2\n\
            0 put_var_all s 1\n0 put_var_all f x7FC00001 x0\n0 get_var_all f\nend\n",
        ],
        begun: &[S_AND_F, &[0; 12]],
    },
    // Puts of each rank alone, and a list of requests that are waited for.
    Serial {
        script: &[
            TWO_RANKS,
            VECTOR,
            b"0 begin_indep_data\n0 put_vars v [0] [2] [2] 1 3\n0 end_indep_data\n\
            1 begin_indep_data\n1 put_vars v [1] [2] [2] 2 4\n1 end_indep_data\nend\n",
        ],
        begun: NEW_V,
    },
    Serial {
        script: &[
            ONE_RANK,
            VECTOR,
            b"0 iput_var1 0 v [0] 9\n0 iget_var1 1 v [0]\n0 iput_vara 2 v [0] [0]\n0 wait_all 1 0 2 0 5\nend\n",
        ],
        begun: NEW_V,
    },
    // A record that one rank knows of first, and calls in the wrong mode.
    Serial {
        script: &[
            TWO_RANKS,
            RECORDS,
            b"0 begin_indep_data\n0 put_var1 s [2] 5\n0 inq_dimlen t\n0 end_indep_data\n0 inq_dimlen t\n\
            1 begin_indep_data\n1 inq_dimlen t\n1 get_var1 s [2]\n1 end_indep_data\n1 inq_dimlen t\nend\n",
        ],
        begun: NEW_S,
    },
    Serial {
        script: &[
            ONE_RANK,
            VECTOR,
            b"0 put_var1 v [0] 1\n0 begin_indep_data\n0 put_var1_all v [0] 1\n0 begin_indep_data\n0 end_indep_data\nend\n",
        ],
        begun: NEW_V,
    },
];

// The program and the serial run leave the same bytes and give the same text.
fn agrees<R: Abort + Threads + Wait + Sync>(rt: &R, alloc: Global, serial: &Serial) {
    let run = Run {
        script: serial.script,
        held: serial.begun,
        ..PLAIN
    };
    let end = program(rt, alloc, &run);
    let text = joined(rt, alloc, serial.script);
    is_serial(rt, alloc, text.as_slice(), serial.begun, &end);
    drop(text);
    drop(end);
}

#[test]
fn runs_in_turn_are_serial(rt: HostRuntime) {
    for serial in &RUNS {
        agrees(&rt, rt.alloc(), serial);
    }
}
