// What is wrong with the header of a dataset, in words: the field that is at fault, and whose it is.
use crate::fill::{Value, fill};
use crate::header_walk::{Field, Goal, Owner, Walk, spelled};
use crate::table::beside;
use crate::told::last_number;
use std::alloc::AllocError;

/// A fault that the text tells without a place.
#[derive(Clone, Copy)]
enum Fault {
    OtherFormat,
    Version,
    RecordDims,
    Streaming,
    TooLarge,
}

const FAULTS: [(&[u8], Fault); 5] = [
    (b"is not CDF", Fault::OtherFormat),
    (b"has an unknown version", Fault::Version),
    (b"has two record dimensions", Fault::RecordDims),
    (b"has a streaming record count", Fault::Streaming),
    (b"is too large", Fault::TooLarge),
];

/// What is said of a header that was refused, by the words that tell its fault.
pub(crate) fn push_header_fault(
    out: &mut String,
    front: &[u8],
    length: u64,
    told: &[u8],
) -> Result<(), AllocError> {
    match beside(told, &FAULTS) {
        Some(Fault::OtherFormat) => push_other_format(out, front),
        Some(Fault::Version) => push_version(out, front),
        Some(Fault::RecordDims) => push_record_dims(out, front),
        Some(Fault::Streaming) => out.push_str(STREAMING),
        Some(Fault::TooLarge) => out.push_str(TOO_LARGE),
        None => match last_number(told) {
            Some((words, number)) => push_placed(out, front, length, words, number),
            None => Ok(()),
        },
    }
}

const STREAMING: &str =
    "the number of records, at byte 4, is the one of a file that is being written, or whose writer did not close it";

const TOO_LARGE: &str =
    "what is read has at most 1024 dimensions, 8192 variables, 32 dimensions of a variable, 2^20 bytes of header, and 2^62 bytes";

/// A fault at a byte or in a variable, whose number the text tells.
#[derive(Clone, Copy)]
enum Placed {
    Cut,
    Field,
    Late,
    Unknown,
}

const PLACED: [(&[u8], Placed); 6] = [
    (b"truncated at byte", Placed::Cut),
    (b"has a bad tag at byte", Placed::Field),
    (b"has a bad type at byte", Placed::Field),
    (b"has a bad number at byte", Placed::Field),
    (
        b"has the record dimension not first in variable",
        Placed::Late,
    ),
    (b"has a bad dimension id in variable", Placed::Unknown),
];

fn push_placed(
    out: &mut String,
    front: &[u8],
    length: u64,
    words: &[u8],
    number: u64,
) -> Result<(), AllocError> {
    match beside(words, &PLACED) {
        Some(Placed::Cut) => push_cut(out, front, length, number),
        Some(Placed::Field) => push_field(out, front, number),
        Some(Placed::Late) => push_late(out, front, number),
        Some(Placed::Unknown) => push_unknown(out, front, number),
        None => match sharing(words) {
            Some(first) => push_shared(out, front, first, number),
            None => Ok(()),
        },
    }
}

// The first of two variables that share bytes, by the words before the second's number.
fn sharing(words: &[u8]) -> Option<u64> {
    let (words, first) = last_number(words.strip_suffix(b" and".as_slice())?)?;
    if words == b"has shared bytes of variables".as_slice() {
        Some(first)
    } else {
        None
    }
}

// What a file of HDF5 begins with.
const HDF5: &[u8] = b"\x89HDF";

fn push_other_format(out: &mut String, front: &[u8]) -> Result<(), AllocError> {
    let other = if front.starts_with(HDF5) {
        "; this is HDF5, and `nccopy -k cdf5` makes a classic dataset of one of netCDF-4"
    } else {
        ""
    };
    fill(
        out,
        "it begins with {}, and a classic dataset with `CDF`{}",
        &[
            Value::Word(front.get(..4).unwrap_or(front)),
            Value::Text(other),
        ],
    )
}

fn push_version(out: &mut String, front: &[u8]) -> Result<(), AllocError> {
    match front.get(3) {
        Some(version) => fill(
            out,
            "the fourth byte says version {}; there are 1, 2 and 5",
            &[Value::Number(u64::from(*version))],
        ),
        None => Ok(()),
    }
}

// The field at a byte.
fn push_at(out: &mut String, at: u64, walk: &Walk<'_>) -> Result<(), AllocError> {
    fill(out, "at byte {} stands ", &[Value::Number(at)])?;
    walk.push(out)
}

fn push_cut(out: &mut String, front: &[u8], length: u64, at: u64) -> Result<(), AllocError> {
    push_at(out, at, &Walk::to(Goal::Byte(at), front))?;
    fill(out, ", and the file has {} bytes", &[Value::Number(length)])
}

fn push_field(out: &mut String, front: &[u8], at: u64) -> Result<(), AllocError> {
    let walk = Walk::to(Goal::Byte(at), front);
    push_at(out, at, &walk)?;
    match beside(walk.field, &WANTED) {
        Some(wanted) => push_value(out, &walk, wanted),
        None => push_number(out, &walk),
    }
}

// What follows the value of a field, in which another is wanted.
const WANTED: [(Field, &str); 4] = [
    (Field::DimsTag, ", and not 10, or 0 for none"),
    (Field::VarsTag, ", and not 11, or 0 for none"),
    (Field::AttrsTag, ", and not 12, or 0 for none"),
    (Field::Type, "; the types are 1 to 6, in version 5 to 11"),
];

fn push_value(out: &mut String, walk: &Walk<'_>, wanted: &str) -> Result<(), AllocError> {
    fill(
        out,
        ": {}{}",
        &[Value::Number(walk.value()), Value::Text(wanted)],
    )
}

// What is wrong with a number.
fn push_number(out: &mut String, walk: &Walk<'_>) -> Result<(), AllocError> {
    if matches!(walk.here(), [0x80..=0xFF, ..]) {
        out.push_str(", which is negative")
    } else if walk.field == Field::Length {
        push_value(out, walk, ", which is above 2^62")
    } else {
        push_value(out, walk, ", behind a tag that says that there are none")
    }
}

fn push_record_dims(out: &mut String, front: &[u8]) -> Result<(), AllocError> {
    match Walk::to(Goal::RecordDims, front).record_dims {
        [Some(first), Some(second)] => fill(
            out,
            "dimension {} and dimension {} both have the length 0, by which a dimension grows, and one may",
            &[first.value(), second.value()],
        ),
        _ => Ok(()),
    }
}

// A variable, and the numbers of its dimensions.
fn push_shape(out: &mut String, walk: &Walk<'_>) -> Result<(), AllocError> {
    push_owner(out, walk.owner)?;
    out.push_str(" has the dimensions")?;
    push_ids(out, walk)
}

fn push_owner(out: &mut String, owner: Owner<'_>) -> Result<(), AllocError> {
    match owner {
        Owner::Var(var) => fill(out, "variable {}", &[var.value()]),
        _ => Ok(()),
    }
}

fn push_ids(out: &mut String, walk: &Walk<'_>) -> Result<(), AllocError> {
    for id in walk.ids.chunks_exact(walk.width()) {
        fill(out, " {}", &[Value::Number(spelled(id))])?;
    }
    Ok(())
}

fn push_late(out: &mut String, front: &[u8], var: u64) -> Result<(), AllocError> {
    let walk = Walk::to(Goal::Var(var), front);
    push_shape(out, &walk)?;
    match walk.record_dims[1] {
        Some(dim) => fill(
            out,
            "; dimension {} grows, and stands first in a variable, and once",
            &[dim.value()],
        ),
        None => out.push_str(
            "; the record dimension grows, and stands first in a variable, and once",
        ),
    }
}

fn push_unknown(out: &mut String, front: &[u8], var: u64) -> Result<(), AllocError> {
    let walk = Walk::to(Goal::Var(var), front);
    push_shape(out, &walk)?;
    match walk.dims.checked_sub(1) {
        Some(last) => fill(
            out,
            "; those of the dataset count from 0 to {}",
            &[Value::Number(last)],
        ),
        None => out.push_str("; the dataset has none"),
    }
}

fn push_shared(out: &mut String, front: &[u8], first: u64, second: u64) -> Result<(), AllocError> {
    push_begin(out, front, first)?;
    if first == second {
        return out.push_str(", inside the header");
    }
    out.push_str(", and ")?;
    push_begin(out, front, second)
}

// Where a variable begins.
fn push_begin(out: &mut String, front: &[u8], var: u64) -> Result<(), AllocError> {
    let walk = Walk::to(Goal::Var(var), front);
    match walk.owner {
        Owner::Var(var) => fill(
            out,
            "variable {} begins at byte {}",
            &[var.value(), Value::Number(walk.begin)],
        ),
        _ => Ok(()),
    }
}
