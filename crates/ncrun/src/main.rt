//! Runs a script of netCDF calls, which it reads from standard input, on the dataset that its word names.
#![tactic(auto)]

use fault_notes::{HeardSink, KeptSource, OpenedDisk, Run, explain};
use ncmpi_cli::{FileDisk, StdSink, StdSource, ncrun};
use run_progress::{ClearingSink, CountedSource, Progress};
use std::alloc::{AllocError, Global};
use std::env::Env;
use std::fs::File;
use std::os::fd::AsRawFd;
use std::process::ExitCode;
use std::rt::Files;
use std::{env, io};

// The statuses for a fault of the disk, and for want of memory.
const DISK: u8 = 7;

const MEMORY: u8 = 8;

// Takes those of descriptors 0 to 2 that are closed, so that no dataset is opened as one of them: the text would be written into it. The
// files that hold them are open for reading alone, so what is written to a closed descriptor fails.
fn hold_closed<R: Files<File = File>>(rt: &R) -> io::Result<[Option<File>; 3]> {
    let mut held = [None, None, None];
    for place in &mut held {
        let file = File::open(rt, "/dev/null")?;
        if file.as_raw_fd() > 2 {
            break;
        }
        *place = Some(file);
    }
    Ok(held)
}

// The words after the program's name. A word that is not UTF-8 is of no form: then there are none.
fn words_of<R: Env + AllocGlobal>(rt: &R) -> Result<Vec<String>, AllocError> {
    let mut words = Vec::new(rt.alloc());
    match env::args(rt) {
        Ok(args) => {
            for arg in args.skip(1) {
                words.push(arg)?;
            }
        }
        Err(e) if e.kind() == io::ErrorKind::OutOfMemory => return Err(AllocError),
        Err(_) => {}
    }
    Ok(words)
}

fn texts_of(alloc: Global, words: &[String]) -> Result<Vec<&str>, AllocError> {
    let mut texts = Vec::new(alloc);
    for word in words {
        texts.push(word.as_str())?;
    }
    Ok(texts)
}

fn main(rt: HostRuntime) -> ExitCode {
    let alloc = rt.alloc();
    let Ok(_held) = hold_closed(&rt) else {
        return ExitCode::from(DISK);
    };
    let Ok(words) = words_of(&rt) else {
        return ExitCode::from(MEMORY);
    };
    let Ok(texts) = texts_of(alloc, &words) else {
        return ExitCode::from(MEMORY);
    };
    let Ok(files) = rt.clone() else {
        return ExitCode::from(MEMORY);
    };
    let progress = Progress::new(&rt, rt.stderr());
    let source = CountedSource::new(&progress, StdSource::new(rt.reader()));
    let mut source = KeptSource::new(alloc, source);
    let sink = ClearingSink::new(&progress, StdSink::new(io::writer(&rt)));
    let mut sink = HeardSink::new(alloc, sink);
    let mut disk = OpenedDisk::new(FileDisk::new(files));
    let outcome = ncrun(
        &rt,
        alloc,
        &texts,
        &mut source,
        &mut disk,
        &mut sink,
        &progress,
    );
    progress.clear();
    let cause = disk.disk().cause();
    let run = Run::new(outcome.status, &source, &sink, &disk, cause);
    let _ = explain(&rt, alloc, &texts, &run);
    ExitCode::from(outcome.status)
}
