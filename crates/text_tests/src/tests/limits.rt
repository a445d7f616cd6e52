// The limits of a text: what stands at one is read, and what passes it is told at its line.
use super::{filled, found, line_refused};
use nc_base::{LimitName, ScriptKind};
use std::alloc::Global;
use std::process::Abort;
use test_fixtures::NO_MEMORY;

// The lines of `count` names, the first of which is d0, between these words.
fn numbered(rt: &impl Abort, alloc: Global, before: &str, after: &str, count: u32) -> String {
    let mut text = String::from_str(alloc, "create 1\n").expect(rt, NO_MEMORY);
    for n in 0..count {
        let line = format!(in alloc; "{before}d{n}{after}\n").expect(rt, NO_MEMORY);
        text.push_str(line.as_str()).expect(rt, NO_MEMORY);
    }
    text
}

const PAST_DIMS: [(&str, ScriptKind); 2] = [
    ("dim last x", ScriptKind::Limit(LimitName::Dims)),
    ("data", ScriptKind::MissingWord),
];

const PAST_VARS: [(&str, ScriptKind); 2] = [
    ("var int last x", ScriptKind::Limit(LimitName::Vars)),
    ("data", ScriptKind::MissingWord),
];

#[test]
fn a_dataset_has_up_to_1024_dimensions_and_8192_variables(rt: HostRuntime) {
    let alloc = rt.alloc();
    let dims = numbered(&rt, alloc, "dim ", " 1", 1024);
    line_refused(&rt, alloc, dims.as_str(), 1026, &PAST_DIMS);
    let vars = numbered(&rt, alloc, "var int ", " []", 8192);
    line_refused(&rt, alloc, vars.as_str(), 8194, &PAST_VARS)
}

// A text of one piece many times, and its fault.
#[derive(Clone, Copy)]
struct Pieces {
    before: &'static str,
    piece: &'static str,
    count: u32,
    after: &'static str,
    fault: Option<(u32, ScriptKind)>,
}

// As many characters, and as many blanks.
const SIXTEEN: &str = "sixteen.letters.";

const BLANKS: &str = "                ";

// Names, dimensions and parts, values of a call, and values of a script.
const OF_LINES: [Pieces; 10] = [
    Pieces {
        before: "create 1\nranks 1\ndim d",
        piece: "i",
        count: 255,
        after: " 1\ndata\nend\n",
        fault: None,
    },
    Pieces {
        before: "create 1\nranks 1\ndim d",
        piece: "i",
        count: 256,
        after: " 1\ndata\nend\n",
        fault: Some((3, ScriptKind::BadName)),
    },
    Pieces {
        before: "create 1\ndim x 4\nvar int v [x",
        piece: ",x",
        count: 31,
        after: "]\nranks 1\ndata\nend\n",
        fault: None,
    },
    Pieces {
        before: "create 1\ndim x 4\nvar int v [x",
        piece: ",x",
        count: 32,
        after: "]\nranks 1\ndata\nend\n",
        fault: Some((3, ScriptKind::Limit(LimitName::VarDims))),
    },
    Pieces {
        before: "create 1\nranks 1\ndata\n0 put_varn v 1024",
        piece: " [] []",
        count: 1024,
        after: "\nend\n",
        fault: None,
    },
    Pieces {
        before: "create 1\nranks 1\ndata\n0 put_var v ",
        piece: "1 ",
        count: 1 << 20,
        after: "\nend\n",
        fault: None,
    },
    Pieces {
        before: "create 1\nranks 1\ndata\n0 put_var v ",
        piece: "x1 ",
        count: 1 << 20,
        after: "x1\nend\n",
        fault: Some((4, ScriptKind::Limit(LimitName::Elements))),
    },
    Pieces {
        before: "create 1\nranks 1\ndata\n0 put_var v \"",
        piece: "a",
        count: 1 << 20,
        after: "b\"\nend\n",
        fault: Some((4, ScriptKind::Limit(LimitName::Elements))),
    },
    Pieces {
        before: "create 1\nranks 1\natt : a char \"",
        piece: SIXTEEN,
        count: 1 << 20,
        after: "\"\ndata\n0 put_var v \"\"\nend\n",
        fault: None,
    },
    Pieces {
        before: "create 1\nranks 1\natt : a char \"",
        piece: SIXTEEN,
        count: 1 << 20,
        after: "b\"\ndata\nend\n",
        fault: Some((3, ScriptKind::Limit(LimitName::Values))),
    },
];

// The most lines that a text may have, and more.
const MANY_LINES: [Pieces; 3] = [
    Pieces {
        before: "create 1\nranks 1\ndata\n",
        piece: "\n",
        count: (1 << 20) - 4,
        after: "end\n",
        fault: None,
    },
    Pieces {
        before: "create 1\nranks 1\nx\n",
        piece: "\n",
        count: 1 << 20,
        after: "",
        fault: Some((3, ScriptKind::UnknownWord)),
    },
    Pieces {
        before: "create 1\nranks 2\ndata\n0 sync_numrecs\nend\n",
        piece: "\n",
        count: 1 << 20,
        after: "",
        fault: Some((1_048_577, ScriptKind::Limit(LimitName::Lines))),
    },
];

// The most bytes, and one more.
const MANY_BYTES: [Pieces; 2] = [
    Pieces {
        before: "",
        piece: BLANKS,
        count: 1 << 22,
        after: "",
        fault: Some((1, ScriptKind::NoHead)),
    },
    Pieces {
        before: "\n",
        piece: BLANKS,
        count: 1 << 22,
        after: "",
        fault: Some((1, ScriptKind::Limit(LimitName::Script))),
    },
];

// Each text has that fault, or none.
fn all_found<R: Abort>(rt: &R, alloc: Global, table: &[Pieces]) {
    for row in table {
        let text = filled(rt, alloc, row.before, row.piece, row.count, row.after);
        found(rt, alloc, text.as_slice(), row.fault, row.before);
    }
}

#[test]
fn names_lists_and_values_have_limits(rt: HostRuntime) {
    all_found(&rt, rt.alloc(), &OF_LINES)
}

#[test]
fn a_text_has_up_to_2_to_the_20_lines(rt: HostRuntime) {
    all_found(&rt, rt.alloc(), &MANY_LINES)
}

#[test]
fn a_text_has_up_to_2_to_the_26_bytes(rt: HostRuntime) {
    all_found(&rt, rt.alloc(), &MANY_BYTES)
}
