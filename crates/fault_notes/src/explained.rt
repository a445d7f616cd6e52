// What standard error says when a run has ended.
use crate::ended::{Run, notes};
use nc_base::Memory;
use program_words::{Form, form_of};
use std::alloc::Global;
use std::fs;
use std::fs::Metadata;
use std::os::unix::fs::MetadataExt;
use std::rt::Files;

// What standard input and standard error have open.
const INPUT: &str = "/proc/self/fd/0";

const ERROR: &str = "/proc/self/fd/2";

/// Writes to standard error what is to be said of the run that these words asked for. Where it can't be written, it is left out.
pub fn explain<R: Files + Eprint>(
    rt: &R,
    alloc: Global,
    words: &[&str],
    run: &Run<'_>,
) -> Result<(), Memory> {
    let Some(form) = form_of(alloc, words)? else {
        return Ok(());
    };
    let dataset = dataset_of(form);
    let notes = notes(alloc, dataset, run)?;
    if !notes.is_empty() && !spoils(rt, dataset) {
        let _ = rt.eprint(notes.as_str());
    }
    Ok(())
}

fn dataset_of<'a>(form: Form<'a>) -> &'a str {
    match form {
        Form::Run { dataset, .. } | Form::Offsets(dataset) | Form::Generate { dataset, .. } => {
            dataset
        }
    }
}

// Whether lines on standard error would be written into the script or the dataset.
fn spoils<R: Files>(rt: &R, dataset: &str) -> bool {
    match fs::metadata(rt, ERROR) {
        Ok(error) => error.is_file() && (is_at(rt, INPUT, &error) || is_at(rt, dataset, &error)),
        Err(_) => false,
    }
}

// Whether a path names this file.
fn is_at<R: Files>(rt: &R, path: &str, file: &Metadata) -> bool {
    match fs::metadata(rt, path) {
        Ok(other) => other.dev() == file.dev() && other.ino() == file.ino(),
        Err(_) => false,
    }
}
