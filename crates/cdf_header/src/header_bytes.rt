// The numbers and blocks of a header's bytes.
ghost use Rattle.std.specs.Prelude.{◌≡◌, ◌^◌, ◌*◌, nat_le};
ghost use Rattle.std.specs.Int.{byte_len};
ghost use Rattle.serial_spec.specs.HeaderBytes.{count_width};
ghost use Rattle.serial_spec.specs.HeaderFaults.{NameLength};
ghost use Rattle.cdf_header.specs.Reading.{Gives, past, number_at, field_at, block_at, name_at};

use crate::stop::Stop;
use nc_base::{Blob, HeaderErr, MAX_HEADER_BYTES};
use std::alloc::Global;

/// The bytes that a header is read from. Each field is read at a place, which is then the one behind the field.
#[derive(Clone, Copy)]
pub(crate) struct HeaderBytes<'a> {
    pub bytes: &'a [u8],
    /// The version byte, whatever it is.
    pub version: u8,
}

impl HeaderBytes<'_> {
    /// The fault of a field that passes the end.
    pub(crate) fn past(&self, at: usize) -> Stop
        ensures { result ≡ Stop.Fault (past self.now.bytes.now at) }
    {
        if self.bytes.len() as u64 == MAX_HEADER_BYTES {
            Stop::Fault(HeaderErr::TooLarge)
        } else {
            Stop::Fault(HeaderErr::Truncated(at as u64))
        }
    }

    /// A number of four bytes.
    pub(crate) fn word(&self, at: &mut usize) -> Result<u32, Stop>
        ensures { Gives (λ found. (found, at.new)) result (number_at 4 self.now.bytes.now at.old) }
    {
        if *at > self.bytes.len() || self.bytes.len() - *at < 4 {
            return Err(self.past(*at));
        }
        let (_, rest) = self.bytes.split_at(*at);
        let n = u32::from_be_bytes([rest[0], rest[1], rest[2], rest[3]]);
        *at += 4;
        Ok(n)
    }

    /// A number of eight bytes.
    pub(crate) fn double_word(&self, at: &mut usize) -> Result<u64, Stop>
        ensures { Gives (λ found. (found, at.new)) result (number_at 8 self.now.bytes.now at.old) }
    {
        if *at > self.bytes.len() || self.bytes.len() - *at < 8 {
            return Err(self.past(*at));
        }
        let (_, rest) = self.bytes.split_at(*at);
        let n = u64::from_be_bytes([
            rest[0], rest[1], rest[2], rest[3], rest[4], rest[5], rest[6], rest[7],
        ]);
        *at += 8;
        Ok(n)
    }

    /// A number of the version's width for counts.
    pub(crate) fn number(&self, at: &mut usize) -> Result<u64, Stop>
        ensures { Gives (λ found. (found, at.new)) result (number_at (byte_len (count_width self.now.version)) self.now.bytes.now at.old) }
    {
        if self.version == 5 {
            return self.double_word(at);
        }
        let n = self.word(at)?;
        Ok(u64::from(n))
    }

    /// Whether a count of the version has its sign bit.
    pub(crate) fn is_negative(&self, n: u64) -> bool
        ensures { result ≡ nat_le (256 ^ byte_len (count_width self.now.version)) (2 * n) }
    {
        if self.version == 5 {
            n >= 1 << 63
        } else {
            n >= 1 << 31
        }
    }

    /// The length of a name.
    pub(crate) fn length(&self, at: &mut usize) -> Result<u64, Stop>
        ensures { Gives (λ found. (found, at.new)) result (field_at self.now.version self.now.bytes.now NameLength at.old) }
    {
        let start = *at as u64;
        let n = self.number(at)?;
        if self.is_negative(n) {
            return Err(Stop::Fault(HeaderErr::BadNumber(start)));
        }
        Ok(n)
    }

    /// So many bytes and their padding, which is not looked at.
    #[tactic(auto, unfolding(crate::specs::Reading::block_at))]
    pub(crate) fn block(&self, alloc: Global, at: &mut usize, len: u64) -> Result<Blob, Stop>
        ensures { Gives (λ found. (found, at.new)) result (block_at self.now.version self.now.bytes.now len at.old) }
    {
        if len == 0 {
            return Ok(Blob::new(alloc));
        }
        if *at > self.bytes.len() {
            return Err(self.past(*at));
        }
        let (_, rest) = self.bytes.split_at(*at);
        if len > rest.len() as u64 {
            return Err(self.past(*at));
        }
        let len = len as usize;
        let whole = len.div_ceil(4) * 4;
        if whole > rest.len() {
            return Err(self.past(*at));
        }
        let (text, _) = rest.split_at(len);
        let text = Vec::from_slice(alloc, text).map_err(|_| Stop::Memory)?;
        *at += whole;
        Ok(Blob::from_vec(text))
    }

    /// A name: its length and its bytes.
    #[tactic(auto, unfolding(crate::specs::Reading::name_at))]
    pub(crate) fn name(&self, alloc: Global, at: &mut usize) -> Result<Blob, Stop>
        ensures { Gives (λ found. (found, at.new)) result (name_at self.now.version self.now.bytes.now at.old) }
    {
        let len = self.length(at)?;
        self.block(alloc, at, len)
    }
}
