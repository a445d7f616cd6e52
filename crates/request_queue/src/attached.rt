// The buffer with what stands in it.
ghost use Rattle.std.specs.Prelude.{◌≡◌, ◌+◌, ◌<◌, ◌≤◌, ◌∷◌, ◌++◌, [], length, Some, None, IsSome, IfOk, IfErr, OnOk, OnErr, MatchResult, slice_set};
ghost use Rattle.nc_base.specs.declared.answer.Code.TheVariants as code;
ghost use Rattle.request_queue.specs.Buffer.{bytes_under, new_code, used, IsNewRefusal, IsPlaceRefusal};

use crate::room::Room;
use nc_base::{Blob, CallErr, Code, Memory};
use std::alloc::Global;
use std::marker::Model;

/// The right to what was placed once.
#[derive(Clone, Copy, Debug, PartialEq, Eq)]
pub struct Ticket {
    /// How many tickets the buffer gave before.
    pub number: u64,
}

/// A buffer of a fixed number of bytes, and the blobs in it.
#[derive(Debug, Drop)]
pub struct Attached {
    room: Room,
    /// By the numbers of the tickets.
    blobs: Vec<Option<Blob>>,
}

impl Model for Attached {
    ghost use Rattle.std.specs.Prelude.{◌≡◌, sum_by};
    ghost use Rattle.request_queue.specs.Buffer.{Buffer, len_of};

    ghost Value = { Buffer };

    ghost view = { λ a. record { size = a.room.size; placed = a.blobs.items } };

    ghost invariant = { λ a. a.room.used ≡ sum_by len_of a.blobs.items };
}

impl Attached {
    /// A buffer of `size` bytes, 1 to 2^26: `ENullBuf` for none, `ETooLarge` for more. PnetCDF's
    /// `ncmpi_buffer_attach`; the greatest size is this project's.
    pub fn new(alloc: Global, size: u64) -> Result<Self, CallErr>
        ensures ok { IfOk result (λ buffer. buffer ≡ record { size = size; placed = [] }) }
        ensures right { OnOk result (new_code size ≡ code.Ok) }
        ensures refused { IfErr result (IsNewRefusal size) }
    {
        match Room::new(size) {
            Ok(room) => Ok(Attached {
                room,
                blobs: Vec::new(alloc),
            }),
            Err(code) => Err(CallErr::Code(code)),
        }
    }

    pub fn size(&self) -> u64
        ensures { result ≡ self.now.size }
    {
        self.room.size()
    }

    /// The bytes that are placed and not freed.
    pub fn used(&self) -> u64
        ensures { result ≡ used self.now }
    {
        self.room.used()
    }

    /// Copies `bytes` into the buffer. `EInsuffBuf` where fewer are left.
    pub fn place(&mut self, alloc: Global, bytes: &[u8]) -> Result<Ticket, CallErr>
        ensures ok { OnOk result (self.new ≡ record self.old { placed = self.old.placed ++ Some bytes.now ∷ [] }) }
        ensures number { IfOk result (λ ticket. ticket.number ≡ length self.old.placed) }
        ensures fits { OnOk result (used self.old + length bytes.now ≤ self.old.size) }
        ensures err { OnErr result (self.new ≡ self.old) }
        ensures refused { IfErr result (IsPlaceRefusal self.old (length bytes.now)) }
    {
        let len = bytes.len() as u64;
        if len > self.room.size() - self.room.used() {
            return Err(CallErr::Code(Code::EInsuffBuf));
        }
        let blob = Blob::from_slice(alloc, bytes)?;
        let number = self.blobs.len() as u64;
        push(&mut self.blobs, blob)?;
        let _ = self.room.claim(len);
        Ok(Ticket { number })
    }

    /// What was placed under the ticket.
    pub fn bytes(&self, ticket: Ticket) -> &[u8]
        requires { IsSome (bytes_under self.now ticket.number) }
        ensures { Some result.now ≡ bytes_under self.now ticket.number }
    {
        match &self.blobs[ticket.number as usize] {
            Some(blob) => blob.as_slice(),
            None => unreachable!(),
        }
    }

    /// Frees what was placed under the ticket.
    pub fn free(&mut self, ticket: Ticket)
        requires { IsSome (bytes_under self.old ticket.number) }
        ensures { self.new ≡ record self.old { placed = slice_set self.old.placed ticket.number None } }
    {
        let len = self.bytes(ticket).len() as u64;
        self.blobs[ticket.number as usize] = None;
        self.room.release(len);
    }
}

fn push(blobs: &mut Vec<Option<Blob>>, blob: Blob) -> Result<(), Memory>
    ensures ok { OnOk result (blobs.new.items ≡ blobs.old.items ++ Some blob ∷ []) }
    ensures err { OnErr result (blobs.new.items ≡ blobs.old.items) }
{
    blobs.push(Some(blob))?;
    Ok(())
}
