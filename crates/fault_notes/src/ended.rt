// What standard error says.
use crate::fill::{Value, fill};
use crate::header_fault::push_header_fault;
use crate::heard_sink::HeardSink;
use crate::kept_source::KeptSource;
use crate::kinds::push_script_note;
use crate::layout_fault::push_layout_fault;
use crate::opened_disk::OpenedDisk;
use crate::pending::{Pending, push_pending};
use crate::redefinition::push_redefinition;
use crate::shortfall::{header_of, push_shortfall};
use crate::surplus::push_surplus;
use nc_base::Header;
use nc_outside::{Disk, Sink, Source};
use std::alloc::{AllocError, Global};
use std::io;

/// What is known of a run that has ended.
#[derive(Drop)]
pub struct Run<'a> {
    pub(crate) status: u8,
    /// The bytes of the script; none where none was read.
    pub(crate) script: &'a [u8],
    /// The front of the text, in which a line that tells a fault is whole.
    pub(crate) line: &'a [u8],
    /// The requests that the text tells as pending.
    pub(crate) pending: Option<Pending>,
    /// The first bytes of a dataset that was opened, among which its header stands; none where none was.
    pub(crate) front: &'a [u8],
    /// How many bytes it had then.
    pub(crate) length: u64,
    /// Why a call of the disk failed.
    pub(crate) cause: Option<io::Error>,
}

impl<'a> Run<'a> {
    /// A run that ended with this status, by what was kept of it, and why a call of the disk failed, where one did.
    pub fn new<S: Source + Drop, K: Sink + Drop, D: Disk>(
        status: u8,
        source: &'a KeptSource<S>,
        sink: &'a HeardSink<K>,
        disk: &'a OpenedDisk<D>,
        cause: Option<io::Error>,
    ) -> Self {
        Run {
            status,
            script: source.kept(),
            line: sink.line(),
            pending: sink.pending(),
            front: disk.front(),
            length: disk.length(),
            cause,
        }
    }
}

/// The lines for standard error, none of them where nothing is to be said.
pub(crate) fn notes(alloc: Global, dataset: &str, run: &Run<'_>) -> Result<String, AllocError> {
    let mut notes = String::new(alloc);
    if run.status == 0 {
        push_passed_over(&mut notes, alloc, dataset, run)?;
    } else {
        push_fault(&mut notes, alloc, dataset, run)?;
    }
    Ok(notes)
}

fn push_fault(
    notes: &mut String,
    alloc: Global,
    dataset: &str,
    run: &Run<'_>,
) -> Result<(), AllocError> {
    let mut note = String::new(alloc);
    push_fault_note(&mut note, alloc, dataset, run)?;
    push_line(notes, note.as_str())
}

fn push_fault_note(
    out: &mut String,
    alloc: Global,
    dataset: &str,
    run: &Run<'_>,
) -> Result<(), AllocError> {
    match run.status {
        3 => push_script_note(out, alloc, run.script, run.line),
        4 => push_dataset_fault(out, alloc, run),
        7 => push_cause(out, dataset, run.cause),
        _ => Ok(()),
    }
}

// What is wrong with the dataset: with what is added to it, its header, or where its variables would lie.
fn push_dataset_fault(out: &mut String, alloc: Global, run: &Run<'_>) -> Result<(), AllocError> {
    let told = run.line.strip_suffix(b"\n".as_slice()).unwrap_or(run.line);
    if told.starts_with(REDEFINITION) {
        return push_redefinition(out, alloc, run.script, told);
    }
    let header = header_of(alloc, run.front);
    let is_refused = header.is_none() && !run.front.is_empty();
    match header_fault_of(told, is_refused) {
        Some(fault) => push_header_fault(out, run.front, run.length, fault),
        None => push_layout_fault(out, alloc, run.script, header.as_ref(), told),
    }
}

const REDEFINITION: &[u8] = b"ncrun: redefinition ";

// What a line tells of a header; what is too large is the layout, unless the header that is there was refused.
fn header_fault_of(told: &[u8], is_refused: bool) -> Option<&[u8]> {
    let fault = told.strip_prefix(b"ncrun: header ".as_slice())?;
    if is_refused || fault != b"is too large".as_slice() {
        Some(fault)
    } else {
        None
    }
}

fn push_cause(out: &mut String, dataset: &str, cause: Option<io::Error>) -> Result<(), AllocError> {
    let Some(cause) = cause else {
        return Ok(());
    };
    fill(out, "{}: ", &[Value::Word(dataset.as_bytes())])?;
    write!(out, "{cause}")
}

// What a run that ended well passed over.
fn push_passed_over(
    notes: &mut String,
    alloc: Global,
    dataset: &str,
    run: &Run<'_>,
) -> Result<(), AllocError> {
    let header = header_of(alloc, run.front);
    push_by_header(notes, alloc, dataset, run, header.as_ref())
}

// The same by the header of a dataset that was opened.
fn push_by_header(
    notes: &mut String,
    alloc: Global,
    dataset: &str,
    run: &Run<'_>,
    header: Option<&Header>,
) -> Result<(), AllocError> {
    push_missing_bytes(notes, alloc, dataset, run, header)?;
    push_values(notes, alloc, run, header)?;
    push_requests(notes, alloc, run)
}

fn push_missing_bytes(
    notes: &mut String,
    alloc: Global,
    dataset: &str,
    run: &Run<'_>,
    header: Option<&Header>,
) -> Result<(), AllocError> {
    let Some(header) = header else {
        return Ok(());
    };
    let mut note = String::new(alloc);
    push_shortfall(&mut note, dataset, run, header)?;
    push_line(notes, note.as_str())
}

fn push_values(
    notes: &mut String,
    alloc: Global,
    run: &Run<'_>,
    header: Option<&Header>,
) -> Result<(), AllocError> {
    let mut note = String::new(alloc);
    push_surplus(&mut note, alloc, run.script, header)?;
    push_line(notes, note.as_str())
}

fn push_requests(notes: &mut String, alloc: Global, run: &Run<'_>) -> Result<(), AllocError> {
    let Some(pending) = run.pending else {
        return Ok(());
    };
    let mut note = String::new(alloc);
    push_pending(&mut note, pending)?;
    push_line(notes, note.as_str())
}

fn push_line(notes: &mut String, note: &str) -> Result<(), AllocError> {
    if note.is_empty() {
        Ok(())
    } else {
        writeln!(notes, "ncrun: {note}")
    }
}
