// The fields of a header, written one after the other.
ghost use Rattle.std.specs.Prelude.{◌≡◌, ◌++◌, OnOk, length, true};
ghost use Rattle.std.specs.Int.{to_be_bytes};
ghost use Rattle.serial_spec.specs.HeaderBytes.{begin_width, count, name, padded, tag};
ghost use Rattle.serial_spec.specs.SoundHeaders.{fits_count, fits_field};

use nc_base::Memory;

/// A count, a length, an id or a stored size.
#[tactic(auto, using(crate::proofs::Fitting::small_count))]
pub(crate) fn push_count(out: &mut Vec<u8>, version: u8, number: u64) -> Result<(), Memory>
    requires { fits_count version number ≡ true }
    ensures { OnOk result (out.new.items ≡ out.old.items ++ count version number) }
{
    if version == 5 {
        out.extend_from_slice(&number.to_be_bytes())?;
    } else {
        out.extend_from_slice(&(number as u32).to_be_bytes())?;
    }
    Ok(())
}

/// The place where a variable begins.
#[tactic(auto, using(crate::proofs::Fitting::small_begin))]
pub(crate) fn push_begin(out: &mut Vec<u8>, version: u8, number: u64) -> Result<(), Memory>
    requires { fits_field (begin_width version) number ≡ true }
    ensures { OnOk result (out.new.items ≡ out.old.items ++ to_be_bytes (begin_width version) number) }
{
    if version == 1 {
        out.extend_from_slice(&(number as u32).to_be_bytes())?;
    } else {
        out.extend_from_slice(&number.to_be_bytes())?;
    }
    Ok(())
}

pub(crate) fn push_tag(out: &mut Vec<u8>, number: u32) -> Result<(), Memory>
    ensures { OnOk result (out.new.items ≡ out.old.items ++ tag number) }
{
    out.extend_from_slice(&number.to_be_bytes())?;
    Ok(())
}

/// Bytes with zeros up to a multiple of four.
pub(crate) fn push_padded(out: &mut Vec<u8>, bytes: &[u8]) -> Result<(), Memory>
    ensures { OnOk result (out.new.items ≡ out.old.items ++ padded bytes.now) }
{
    out.extend_from_slice(bytes)?;
    let missing = (4 - bytes.len() % 4) % 4;
    let zeros = [0u8; 4];
    out.extend_from_slice(&zeros[..missing])?;
    Ok(())
}

pub(crate) fn push_name(out: &mut Vec<u8>, version: u8, bytes: &[u8]) -> Result<(), Memory>
    requires { fits_count version (length bytes.now) ≡ true }
    ensures { OnOk result (out.new.items ≡ out.old.items ++ name version bytes.now) }
{
    push_count(out, version, bytes.len() as u64)?;
    push_padded(out, bytes)
}
