// What is written into a header, and lists of it.
ghost use Rattle.std.specs.Prelude.{◌≡◌, ◌++◌, ℕ, List, OnOk, length, true};
ghost use Rattle.std.specs.List.{AllByRecursion, flat_map};
ghost use Rattle.nc_base.specs.declared.header.Header.{Header};
ghost use Rattle.serial_spec.specs.HeaderBytes.{list_of};
ghost use Rattle.serial_spec.specs.SoundHeaders.{fits_count};
ghost use Rattle.cdf_header.specs.Writable.{list_head, IsWritableList};

use crate::number_fields::{push_count, push_tag};
use nc_base::{Header, Memory};

/// What is written into a header.
pub(crate) trait Written {
    ghost IsWritable: { Header → Self → Type 0 };

    ghost bytes_of: { Header → Self → List ℕ };

    /// Puts it behind what is there.
    fn push(&self, out: &mut Vec<u8>, header: &Header) -> Result<(), Memory>
        requires { IsWritable header.now self.now }
        ensures { OnOk result (out.new.items ≡ out.old.items ++ bytes_of header.now self.now) };
}

/// Entries, one after the other.
pub(crate) fn push_each<T: Written>(
    out: &mut Vec<u8>,
    header: &Header,
    entries: &[T],
) -> Result<(), Memory>
    requires { AllByRecursion (T.IsWritable header.now) entries.now }
    ensures { OnOk result (out.new.items ≡ out.old.items ++ flat_map (T.bytes_of header.now) entries.now) }
{
    for entry in entries {
        entry.push(out, header)?;
    }
    Ok(())
}

/// The tag and the count of a list. Where it has no entries, the tag is zero.
fn push_list_head(out: &mut Vec<u8>, version: u8, number: u32, len: usize) -> Result<(), Memory>
    requires { fits_count version len ≡ true }
    ensures { OnOk result (out.new.items ≡ out.old.items ++ list_head version number len) }
{
    push_tag(out, if len == 0 { 0 } else { number })?;
    push_count(out, version, len as u64)
}

/// A list of entries, under the number of its tag.
pub(crate) fn push_list<T: Written>(
    out: &mut Vec<u8>,
    header: &Header,
    number: u32,
    entries: &[T],
) -> Result<(), Memory>
    requires { IsWritableList header.now.version (T.IsWritable header.now) entries.now }
    ensures { OnOk result (out.new.items ≡ out.old.items ++ list_of header.now.version number (T.bytes_of header.now) entries.now) }
{
    push_list_head(out, header.version, number, entries.len())?;
    push_each(out, header, entries)
}
