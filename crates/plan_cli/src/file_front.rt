// A file as a dataset that is only looked at. It tells no content.
ghost use Rattle.std.specs.Prelude.{◌≡◌, ◌≤◌, ◌^◌, length, min, IfOk};
ghost use Rattle.nc_outside.specs.Cause.{Rose};

use crate::dataset::{DatasetFront, Front};
use nc_base::{MAX_HEADER_BYTES, StepErr};
use std::alloc::Global;
use std::fs::File;
use std::io;
use std::os::unix::fs::FileExt;
use std::rt::Files;

/// The files of the system, each opened for reading alone.
#[derive(Drop)]
pub struct FileFront<R: Files<File = File> + Drop> {
    rt: R,
    faults: u64,
}

impl<R: Files<File = File> + Drop> FileFront<R> {
    /// Files of which none was looked at.
    pub fn new(rt: R) -> Self
        ensures handle { result.rt ≡ rt }
        ensures faults { result.faults ≡ 0 }
    {
        FileFront { rt, faults: 0 }
    }

    // Counts a call that failed.
    fn failed(&mut self) -> StepErr
        ensures rose { Rose self.old.faults self.new.faults }
        ensures later { self.old.faults ≤ self.new.faults }
    {
        self.faults = self.faults.saturating_add(1);
        StepErr::Disk
    }
}

fn open<R: Files<File = File>>(rt: &R, name: &str) -> io::Result<(File, u64)> {
    let file = File::open(rt, name)?;
    let size = file.metadata()?.len();
    Ok((file, size))
}

// The front of a file of so many bytes. Where it is shorter by now, it can't be read.
fn read_front(alloc: Global, file: &File, size: u64) -> Result<Front, StepErr>
    ensures { IfOk result (λ seen. length seen.bytes.items ≡ min seen.size (2 ^ 20)) }
{
    let len = size.min(MAX_HEADER_BYTES) as usize;
    if len == 0 {
        return Ok(Front {
            bytes: Vec::new(alloc),
            size,
        });
    }
    let mut bytes = vec![in alloc; 0; len]?;
    match file.read_exact_at(&mut bytes, 0) {
        Ok(()) => Ok(Front { bytes, size }),
        Err(_) => Err(StepErr::Disk),
    }
}

impl<R: Files<File = File> + Drop> DatasetFront for FileFront<R> {
    ghost use Rattle.std.specs.Prelude.{None};

    ghost held = { λ _ _. None };

    ghost faults = { λ d. d.faults };

    fn front(&mut self, alloc: Global, name: &str) -> Result<Front, StepErr> {
        let Ok((file, size)) = open(&self.rt, name) else {
            return Err(self.failed());
        };
        match read_front(alloc, &file, size) {
            Ok(seen) => Ok(seen),
            Err(StepErr::Memory) => Err(StepErr::Memory),
            Err(StepErr::Disk) => Err(self.failed()),
        }
    }
}
