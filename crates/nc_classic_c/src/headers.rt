// The header that bytes begin with.
ghost use Rattle.std.specs.Prelude.{◌≡◌, ◌≤◌, ◌^◌, true, length, IfOk, IfErr};
ghost use Rattle.serial_spec.specs.HeaderBytes.{header_len};
ghost use Rattle.serial_spec.specs.SoundHeaders.{is_sound};
ghost use Rattle.nc_classic_c.specs.Headers.{first_bytes, IsHeaderOf, IsHeaderRefusal};

use crate::answers::{Refusal, refusal_of};
use cdf_header::decode;
use nc_base::Header;
use std::alloc::Global;

/// As many of the bytes as a header can have.
fn first_bytes(bytes: &[u8]) -> &[u8]
    ensures bytes { result.now ≡ first_bytes bytes.now }
    ensures few { length result.now ≤ 2 ^ 20 }
{
    if bytes.len() <= 1 << 20 {
        return bytes;
    }
    &bytes[..1 << 20]
}

/// The sound header that the bytes begin with, and its length.
pub(crate) fn read(alloc: Global, bytes: &[u8]) -> Result<(Header, u64), Refusal>
    ensures header { IfOk result (λ r. IsHeaderOf bytes.now r.0) }
    ensures sound { IfOk result (λ r. is_sound r.0 ≡ true) }
    ensures length { IfOk result (λ r. r.1 ≡ header_len r.0) }
    ensures refused { IfErr result (λ r. IsHeaderRefusal bytes.now r) }
{
    match decode(alloc, first_bytes(bytes)) {
        Ok((header, len)) => Ok((header, len)),
        Err(fault) => Err(refusal_of(fault)),
    }
}
