// A dataset that was shorter than its header says.
use crate::ended::Run;
use crate::fill::{Value, fill};
use cdf_header::decode;
use nc_base::{Header, MAX_HEADER_BYTES};
use std::alloc::{AllocError, Global};
use var_layout::file_end;

/// The header that the first bytes of a dataset spell, where they spell one.
pub(crate) fn header_of(alloc: Global, front: &[u8]) -> Option<Header> {
    if front.len() as u64 > MAX_HEADER_BYTES {
        return None;
    }
    match decode(alloc, front) {
        Ok((header, _)) => Some(header),
        Err(_) => None,
    }
}

/// What is said of a dataset that had fewer bytes than its header asks for.
pub(crate) fn push_shortfall(
    out: &mut String,
    dataset: &str,
    run: &Run<'_>,
    header: &Header,
) -> Result<(), AllocError> {
    let there = run.length;
    let wanted = file_end(header, header.records);
    if there >= wanted {
        return Ok(());
    }
    let missing = if run.script.is_empty() {
        "what is missing reads as zeros"
    } else {
        "it was made so long, and what was missing reads as zeros"
    };
    fill(
        out,
        "{} had {} bytes, and its header says {}; {}",
        &[
            Value::Word(dataset.as_bytes()),
            Value::Number(there),
            Value::Number(wanted),
            Value::Text(missing),
        ],
    )
}
