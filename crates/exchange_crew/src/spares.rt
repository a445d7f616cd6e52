// Buffers that outlive a step.
ghost use Rattle.std.specs.Prelude.{◌≡◌, ◌≤◌, length, min, IfOk, OnOk};
ghost use Rattle.nc_base.specs.declared.plan.Extent.{Extent};
ghost use Rattle.overlay_laws.specs.Entries.{In};

use crate::walk::longest_window;
use nc_base::{Extent, Memory};
use std::alloc::Global;

// So many zeros are copied at once.
const BLOCK: usize = 4096;

/// Buffers that steps have left for the next ones. Their bytes are those of their last use.
///
/// A buffer is made only where none is left. So there are never more of them, kept or in use, than were in use at once.
#[derive(Drop)]
pub struct Spares {
    list: Vec<Vec<u8>>,
}

impl Spares {
    /// None yet.
    pub fn new(alloc: Global) -> Self {
        Spares {
            list: Vec::new(alloc),
        }
    }

    /// A buffer of at least so many bytes: the one that was kept last, where it has the room, else a new one. The short one is given back
    /// first.
    pub fn take(&mut self, alloc: Global, room: usize) -> Result<Vec<u8>, Memory>
        ensures { IfOk result (λ buf. room ≤ length buf.items) }
    {
        let mut buf = self.last_of(alloc, room, usize::MAX)?;
        if buf.len() < room {
            resize_by_blocks(&mut buf, room)?;
        }
        Ok(buf)
    }

    /// A buffer that holds each window of the domains, which are `size` bytes long at most.
    pub fn take_window(
        &mut self,
        alloc: Global,
        size: u64,
        domains: &[Extent],
    ) -> Result<Vec<u8>, Memory>
        ensures { IfOk result (λ buf. (domain : Extent) → In domains.now domain → min size domain.len ≤ length buf.items) }
    {
        let room = longest_window(size, domains) as usize;
        self.take(alloc, room)
    }

    /// A buffer that is to become so many bytes long: the one that was kept last, where it has the room and is at most a quarter longer,
    /// else a new one without a byte, whose memory is first touched by who fills it.
    ///
    /// A longer one is given back, since to shorten a list of bytes takes as long as to fill one.
    pub fn room(&mut self, alloc: Global, room: usize) -> Result<Vec<u8>, Memory> {
        self.last_of(alloc, room, room.saturating_add(room / 4))
    }

    // The buffer that was kept last, where it has the room and is no longer than that, else a new one.
    fn last_of(&mut self, alloc: Global, room: usize, most: usize) -> Result<Vec<u8>, Memory> {
        if let Some(buf) = self.list.pop() {
            if room <= buf.capacity() && buf.len() <= most {
                return Ok(buf);
            }
        }
        Ok(Vec::with_capacity(alloc, room)?)
    }

    /// Keeps a buffer for the next step. Where the list can't grow it is given back.
    pub fn keep(&mut self, buf: Vec<u8>) {
        let _ = self.list.push(buf);
    }
}

/// Cuts the bytes at a length, or fills them up to it with zeros. Those are copied a block at a time, where `Vec::resize` writes one byte
/// after another.
pub fn resize_by_blocks(bytes: &mut Vec<u8>, len: usize) -> Result<(), Memory>
    ensures { OnOk result (length bytes.new.items ≡ len) }
{
    let zeros = [0u8; BLOCK];
    for _ in 0..len.saturating_sub(bytes.len()) / BLOCK {
        bytes.extend_from_slice(&zeros)?;
    }
    Ok(bytes.resize(len, 0)?)
}
