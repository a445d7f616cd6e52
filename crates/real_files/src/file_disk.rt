// A file as a disk. It tells no content.
ghost use Rattle.std.specs.Prelude.{◌≡◌, true, IfOk};

use crate::faults::Faults;
use crate::streams::is_stream;
use nc_base::StepErr;
use nc_outside::Disk;
use std::alloc::Global;
use std::fs::{File, OpenOptions};
use std::io;
use std::io::ErrorKind;
use std::os::unix::fs::FileExt;
use std::rt::Files;
use std::sync::Arc;

/// A file, or the bytes of one between two places. Its parts share the open file, so whatever the path names by then, they reach no
/// other one.
///
/// A file that can't be opened for writing is opened for reading alone: the first growth and each write of it fails.
#[derive(Drop)]
pub struct FileDisk<R: Files<File = File> + Clone + Send + Drop> {
    rt: R,
    file: Option<Arc<File>>,
    // The place of the first byte.
    from: u64,
    // The place behind the last byte.
    end: u64,
    faults: Faults,
}

impl<R: Files<File = File> + Clone + Send + Drop> FileDisk<R> {
    /// A disk that has not begun with a file.
    pub fn new(rt: R) -> Self
        ensures handle { result.rt ≡ rt }
        ensures from { result.from ≡ 0 }
        ensures end { result.end ≡ 0 }
        ensures faults { result.faults.count ≡ 0 }
    {
        FileDisk {
            rt,
            file: None,
            from: 0,
            end: 0,
            faults: Faults::new(),
        }
    }

    /// Why a call failed: the error of the first one that did, where one did.
    pub fn cause(&self) -> Option<io::Error> {
        self.faults.first
    }
}

const IS_STREAM: &str = "the file is standard input, output or error";

// Opens a file for reading and writing. A fresh one is created, or cut to nothing; one that can't be written is opened for reading.
// A file of a standard stream is refused before that: writing it would destroy the script, or mix with the text.
fn open<R: Files<File = File>>(rt: &R, name: &str, fresh: bool) -> io::Result<File> {
    if is_stream(rt, name) {
        return Err(io::Error::new(ErrorKind::InvalidInput, IS_STREAM));
    }
    let opened = OpenOptions::new()
        .read(true)
        .write(true)
        .create(fresh)
        .truncate(fresh)
        .open(rt, name);
    match opened {
        Err(_) if !fresh => File::open(rt, name),
        opened => opened,
    }
}

// Opens a file, with its length.
fn open_whole<R: Files<File = File>>(rt: &R, name: &str, fresh: bool) -> io::Result<(File, u64)>
    ensures { IfOk result (λ opened. fresh ≡ true → opened.1 ≡ 0) }
{
    let file = open(rt, name, fresh)?;
    let len = if fresh { 0 } else { file.metadata()?.len() };
    Ok((file, len))
}

// Makes a file so long, unless it is longer by now.
fn lengthen(file: &File, size: u64) -> io::Result<()> {
    if file.metadata()?.len() < size {
        file.set_len(size)?;
    }
    Ok(())
}

impl<R: Files<File = File> + Clone + Send + Drop> Disk for FileDisk<R> {
    ghost use Rattle.std.specs.Prelude.{◌-◌, None};

    ghost from = { λ d. d.from };

    ghost len = { λ d. d.end - d.from };

    ghost held = { λ _. None };

    ghost calls = { λ _. None };

    ghost faults = { λ d. d.faults.count };

    ghost sure = { λ _. ⊥ };

    ghost told = { λ _. tt };

    fn start(&mut self, alloc: Global, name: &str, fresh: bool) -> Result<(), StepErr> {
        match open_whole(&self.rt, name, fresh) {
            Ok((file, len)) => {
                let Ok(file) = Arc::new(alloc, file) else {
                    return Err(StepErr::Memory);
                };
                self.file = Some(file);
                self.from = 0;
                self.end = len;
                Ok(())
            }
            Err(e) => {
                self.faults.add(e);
                Err(StepErr::Disk)
            }
        }
    }

    fn size(&self) -> u64 {
        let _faults = self.faults.count;
        self.end.saturating_sub(self.from)
    }

    fn grow(&mut self, _alloc: Global, size: u64) -> Result<(), StepErr> {
        let done = match &self.file {
            Some(file) => lengthen(file, size),
            None => Err(ErrorKind::NotFound.into()),
        };
        match done {
            Ok(()) => {
                self.end = size;
                Ok(())
            }
            Err(e) => {
                self.faults.add(e);
                Err(StepErr::Disk)
            }
        }
    }

    fn read_at(&mut self, _alloc: Global, at: u64, into: &mut [u8]) -> Result<(), StepErr> {
        let done = match &self.file {
            Some(file) => file.read_exact_at(into, at),
            None => Err(ErrorKind::NotFound.into()),
        };
        match done {
            Ok(()) => Ok(()),
            Err(e) => {
                self.faults.add(e);
                Err(StepErr::Disk)
            }
        }
    }

    fn write_at(&mut self, _alloc: Global, at: u64, bytes: &[u8]) -> Result<(), StepErr> {
        let done = match &self.file {
            Some(file) => file.write_all_at(bytes, at),
            None => Err(ErrorKind::NotFound.into()),
        };
        match done {
            Ok(()) => Ok(()),
            Err(e) => {
                self.faults.add(e);
                Err(StepErr::Disk)
            }
        }
    }

    fn split_off(&mut self, _alloc: Global, at: u64) -> Result<Self, StepErr> {
        let rt = self.rt.clone()?;
        let file = match &self.file {
            Some(file) => Some(Arc::try_clone(file)?),
            None => None,
        };
        let end = self.end;
        self.end = at;
        Ok(FileDisk {
            rt,
            file,
            from: at,
            end,
            faults: Faults::new(),
        })
    }

    fn append(&mut self, other: Self) {
        self.end = self.end.max(other.end);
        self.faults.join(other.faults);
    }
}
