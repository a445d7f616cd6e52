// The end of a file.
ghost use Rattle.std.specs.Prelude.{◌≡◌, ◌==◌, ◌<◌, ◌≤◌, ◌^◌, ℕ, true, length};
ghost use Rattle.nc_base.specs.declared.header.Header.{Header};
ghost use Rattle.serial_spec.specs.Layout as layout;
ghost use Rattle.serial_spec.specs.HeaderBytes.{header_len};
ghost use Rattle.serial_spec.specs.SoundHeaders.{is_sound};
ghost use Rattle.var_layout.specs.Capped.{capped};

use crate::capped;
use crate::measures::Measures;
use crate::record::last_share;
use crate::sizes::{is_record, vsize_of};
use nc_base::{Header, Var};

/// Where a variable ends in a file of so many records, where a record takes `size`.
#[tactic(auto, using(crate::proofs::Capping::capped_times))]
pub(crate) fn end_of_var(header: &Header, lone: bool, size: u64, records: u64, var: &Var) -> u64
    requires lone { lone ≡ (length (layout.record_slabs header.now) == 1) }
    requires size { size ≡ capped (layout.recsize header.now) }
    ensures { result ≡ capped (layout.end_of_var header.now records var.now) }
{
    if !is_record(header, var) {
        return capped::sum(var.begin, vsize_of(header, var));
    }
    if records == 0 {
        return 0;
    }
    let begin = capped::sum(var.begin, capped::product(records - 1, size));
    capped::sum(begin, last_share(header, lone, var))
}

/// The length of a file with so many records, or 2^62 where it is more: where the header or the last of the
/// variables ends.
pub fn file_end(header: &Header, records: u64) -> u64
    ensures { result ≡ capped (layout.end_of header.now (header_len header.now) records) }
{
    Measures::of(header).file_end(header, records)
}

/// The length of a file with so many records.
pub fn end_of(header: &Header, records: u64) -> u64
    requires sound { is_sound header.now ≡ true }
    requires below { layout.end_of header.now (header_len header.now) records < 2 ^ 62 }
    ensures { result ≡ layout.end_of header.now (header_len header.now) records }
{
    file_end(header, records)
}

/// A sound header's file ends below 2^62, for its own record count and each smaller one.
pub fn sound_files_end()
    ensures { (header : Header) (records : ℕ) → is_sound header ≡ true → records ≤ header.records
        → layout.end_of header (header_len header) records < 2 ^ 62 }
{}
