// What a record takes.
ghost use Rattle.std.specs.Prelude.{◌≡◌, ◌<◌, ◌^◌, ◌==◌, true, length, count_by};
ghost use Rattle.serial_spec.specs.Layout as layout;
ghost use Rattle.serial_spec.specs.Limits as limits;
ghost use Rattle.serial_spec.specs.SoundHeaders.{is_sound};
ghost use Rattle.var_layout.specs.Capped.{capped};

use crate::capped;
use crate::sizes::{is_record, slab_of, vsize_of};
use nc_base::{CLASSIC_RECORD_LIMIT, Header, RECORD_LIMIT, Var};

/// How many record variables a header has.
fn record_count(header: &Header) -> usize
    ensures { result ≡ count_by (λ v. layout.is_record header.now v) header.now.vars }
{
    header
        .vars
        .as_slice()
        .iter()
        .filter(|var| is_record(header, var))
        .count()
}

/// Whether a header has one record variable alone. That one is not padded.
#[tactic(auto, using(crate::proofs::Soundness::slab_count))]
pub fn is_lone(header: &Header) -> bool
    ensures { result ≡ (length (layout.record_slabs header.now) == 1) }
{
    record_count(header) == 1
}

/// What a variable adds to a record, at a multiple of 4, or 2^62 where it is more; 0 for a fixed variable.
pub fn record_share(header: &Header, var: &Var) -> u64
    ensures { result ≡ capped (layout.record_share header.now var.now) }
{
    if is_record(header, var) {
        vsize_of(header, var)
    } else {
        0
    }
}

/// The bytes from a record to the next one, for a header that is known to have a lone record variable or not.
pub(crate) fn record_size(header: &Header, lone: bool) -> u64
    requires { lone ≡ (length (layout.record_slabs header.now) == 1) }
    ensures { result ≡ capped (layout.recsize header.now) }
{
    let mut size = 0;
    for var in header.vars.as_slice() {
        if is_record(header, var) {
            size = capped::sum(size, last_share(header, lone, var));
        }
    }
    size
}

/// What a record variable takes in the last record.
pub(crate) fn last_share(header: &Header, lone: bool, var: &Var) -> u64
    requires { lone ≡ (length (layout.record_slabs header.now) == 1) }
    ensures { result ≡ capped (layout.last_share header.now var.now) }
{
    if lone {
        slab_of(header, var)
    } else {
        vsize_of(header, var)
    }
}

/// The bytes from a record to the next one, or 2^62 where they are more: the sum of the record variables' vsizes, or the
/// slab of a lone one.
pub fn recsize_of(header: &Header) -> u64
    ensures { result ≡ capped (layout.recsize header.now) }
{
    record_size(header, is_lone(header))
}

/// The bytes from a record to the next one of a sound header.
pub fn recsize(header: &Header) -> u64
    requires sound { is_sound header.now ≡ true }
    ensures value { result ≡ layout.recsize header.now }
    ensures small { result < 2 ^ 62 }
{
    recsize_of(header)
}

/// A record count of a file of this version is below this.
pub fn record_limit(version: u8) -> u64
    ensures { result ≡ limits.record_limit version }
{
    if version == 5 {
        RECORD_LIMIT
    } else {
        CLASSIC_RECORD_LIMIT
    }
}
