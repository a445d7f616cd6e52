// What the variables of a header come to, measured once.
ghost use Rattle.std.specs.Prelude.{◌≡◌, ◌==◌, ◌<◌, ◌^◌, true, length};
ghost use Rattle.serial_spec.specs.Layout as layout;
ghost use Rattle.serial_spec.specs.HeaderBytes.{header_len};
ghost use Rattle.serial_spec.specs.SoundHeaders.{is_sound};
ghost use Rattle.var_layout.specs.Capped.{capped};
ghost use Rattle.var_layout.specs.Measures.{first_end, record_end, AreMeasures};

use crate::capped;
use crate::record::{is_lone, last_share, record_size};
use crate::sizes::{is_record, vsize_of};
use crate::written::header_len;
use nc_base::{Header, Var};

/// What the variables of a header come to, in bytes, each 2^62 where it is more. A run measures its header once; with the measures
/// the size of a record and the end of a file take no walk over the variables.
#[derive(Clone, Copy, Debug, PartialEq, Eq)]
pub struct Measures {
    /// From a record to the next one.
    record_size: u64,
    /// Where the header and the fixed variables end.
    fixed_end: u64,
    /// Where the record variables end in a file of one record; 0 without a record variable.
    record_end: u64,
}

impl Measures {
    /// Measures a header, by a walk over all of it.
    #[tactic(auto, unfolding(crate::specs::Measures::AreMeasures))]
    pub fn of(header: &Header) -> Self
        ensures { AreMeasures header.now result }
    {
        let lone = is_lone(header);
        Measures {
            record_size: record_size(header, lone),
            fixed_end: fixed_end(header),
            record_end: record_end(header, lone),
        }
    }

    /// The bytes from a record to the next one of a sound header, which these are the measures of.
    pub fn recsize(&self, header: &Header) -> u64
        requires sound { is_sound header.now ≡ true }
        requires measured { AreMeasures header.now self.now }
        ensures value { result ≡ layout.recsize header.now }
        ensures small { result < 2 ^ 62 }
    {
        self.record_size
    }

    /// The length of a file with so many records, or 2^62 where it is more: where the header or the last of the
    /// variables ends.
    pub fn file_end(&self, header: &Header, records: u64) -> u64
        requires measured { AreMeasures header.now self.now }
        ensures { result ≡ capped (layout.end_of header.now (header_len header.now) records) }
    {
        if records == 0 {
            return self.fixed_end;
        }
        let later = capped::product(records - 1, self.record_size);
        self.fixed_end.max(capped::sum(self.record_end, later))
    }

    /// The length of a file with so many records.
    pub fn end_of(&self, header: &Header, records: u64) -> u64
        requires sound { is_sound header.now ≡ true }
        requires measured { AreMeasures header.now self.now }
        requires below { layout.end_of header.now (header_len header.now) records < 2 ^ 62 }
        ensures { result ≡ layout.end_of header.now (header_len header.now) records }
    {
        self.file_end(header, records)
    }
}

/// Where the header and the fixed variables end, or 2^62 where it is more.
fn fixed_end(header: &Header) -> u64
    ensures { result ≡ capped (layout.end_of header.now (header_len header.now) 0) }
{
    let mut end = header_len(header);
    for var in header.vars.as_slice() {
        end = end.max(end_if_fixed(header, var));
    }
    end
}

/// Where a fixed variable ends; 0 for a record variable.
fn end_if_fixed(header: &Header, var: &Var) -> u64
    ensures { result ≡ capped (layout.end_of_var header.now 0 var.now) }
{
    if is_record(header, var) {
        0
    } else {
        capped::sum(var.begin, vsize_of(header, var))
    }
}

/// Where the record variables end in a file of one record, or 2^62 where it is more; 0 without a record variable.
fn record_end(header: &Header, lone: bool) -> u64
    requires { lone ≡ (length (layout.record_slabs header.now) == 1) }
    ensures { result ≡ capped (record_end header.now) }
{
    let mut end: u64 = 0;
    for var in header.vars.as_slice() {
        end = end.max(first_end(header, lone, var));
    }
    end
}

/// Where a record variable ends in the first record; 0 for a fixed variable.
fn first_end(header: &Header, lone: bool, var: &Var) -> u64
    requires { lone ≡ (length (layout.record_slabs header.now) == 1) }
    ensures { result ≡ capped (first_end header.now var.now) }
{
    if is_record(header, var) {
        capped::sum(var.begin, last_share(header, lone, var))
    } else {
        0
    }
}
