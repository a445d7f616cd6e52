// A disk that remembers what it opened.
use nc_base::StepErr;
use nc_outside::Disk;
use std::alloc::Global;

/// A disk, of which the length of an existing dataset is kept, and the first bytes that are read of it.
#[derive(Drop)]
pub struct OpenedDisk<D: Disk> {
    disk: D,
    length: u64,
    // None where nothing is to be kept.
    front: Option<Vec<u8>>,
}

impl<D: Disk> OpenedDisk<D> {
    pub fn new(disk: D) -> Self {
        OpenedDisk {
            disk,
            length: 0,
            front: None,
        }
    }

    pub fn disk(&self) -> &D {
        &self.disk
    }

    /// How many bytes the dataset had.
    pub fn length(&self) -> u64 {
        self.length
    }

    /// The bytes of the first read, which is that of the header.
    pub fn front(&self) -> &[u8] {
        match &self.front {
            Some(front) => front.as_slice(),
            None => &[],
        }
    }
}

// Keeps bytes where none are kept yet.
fn keep_first(front: &mut Option<Vec<u8>>, bytes: &[u8]) {
    if let Some(front) = front {
        if front.is_empty() {
            let _ = front.extend_from_slice(bytes);
        }
    }
}

impl<D: Disk> Disk for OpenedDisk<D> {
    ghost from = { λ d. D.from d.disk };

    ghost len = { λ d. D.len d.disk };

    ghost held = { λ d. D.held d.disk };

    ghost calls = { λ d. D.calls d.disk };

    ghost faults = { λ d. D.faults d.disk };

    ghost sure = { λ d. D.sure d.disk };

    ghost told = { λ d. D.told d.disk };

    fn start(&mut self, alloc: Global, name: &str, fresh: bool) -> Result<(), StepErr> {
        self.disk.start(alloc, name, fresh)?;
        if !fresh {
            self.length = self.disk.size();
            self.front = Some(Vec::new(alloc));
        }
        Ok(())
    }

    fn size(&self) -> u64 {
        self.disk.size()
    }

    fn grow(&mut self, alloc: Global, size: u64) -> Result<(), StepErr> {
        self.disk.grow(alloc, size)
    }

    fn read_at(&mut self, alloc: Global, at: u64, into: &mut [u8]) -> Result<(), StepErr> {
        self.disk.read_at(alloc, at, into)?;
        keep_first(&mut self.front, into);
        Ok(())
    }

    fn write_at(&mut self, alloc: Global, at: u64, bytes: &[u8]) -> Result<(), StepErr> {
        self.disk.write_at(alloc, at, bytes)
    }

    fn split_off(&mut self, alloc: Global, at: u64) -> Result<Self, StepErr> {
        let disk = self.disk.split_off(alloc, at)?;
        Ok(OpenedDisk {
            disk,
            length: 0,
            front: None,
        })
    }

    fn append(&mut self, other: Self) {
        let OpenedDisk { disk, .. } = other;
        self.disk.append(disk);
    }
}
