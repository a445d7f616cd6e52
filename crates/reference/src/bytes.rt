// A file as one list of bytes.
ghost use Rattle.std.specs.Prelude.{◌≡◌, ◌+◌, ◌++◌, ◌<◌, ◌≤◌, ◌^◌, length, OnOk};
ghost use Rattle.serial_spec.specs.File as spec;
ghost use Rattle.serial_spec.specs.File.{longer, read, written};

use nc_base::Memory;

/// Makes the file longer by zeros, where it is not so long.
pub(crate) fn lengthen(file: &mut Vec<u8>, size: u64) -> Result<(), Memory>
    ensures { OnOk result (file.new.items ≡ longer file.old.items size) }
{
    for _length in file.len() as u64..size {
        file.push(0)?;
    }
    Ok(())
}

/// Writes the bytes from this place on, and makes the file longer where they pass its end.
pub(crate) fn write(file: &mut Vec<u8>, at: u64, bytes: &[u8]) -> Result<(), Memory>
    requires { at + length bytes.now < 2 ^ 63 }
    ensures { OnOk result (file.new.items ≡ written file.old.items at bytes.now) }
{
    lengthen(file, at + bytes.len() as u64)?;
    overwrite(file.as_mut_slice(), at as usize, bytes);
    Ok(())
}

fn overwrite(file: &mut [u8], at: usize, bytes: &[u8])
    requires { at + length bytes.now ≤ length file.old }
    ensures { file.new ≡ written file.old at bytes.now }
{
    file[at..at + bytes.len()].copy_from_slice(bytes);
}

/// Adds the bytes of the file from this place on to those that were read.
pub(crate) fn read(file: &[u8], at: u64, len: u64, into: &mut Vec<u8>) -> Result<(), Memory>
    requires { at + len < 2 ^ 63 }
    ensures { OnOk result (into.new.items ≡ into.old.items ++ read file.now at len) }
{
    for k in 0..len {
        into.push(byte_at(file, at + k))?;
    }
    Ok(())
}

/// The byte at this place, 0 past the end.
fn byte_at(file: &[u8], at: u64) -> u8
    ensures { result ≡ spec.at file.now at }
{
    match file.get(at as usize) {
        None => 0,
        Some(byte) => *byte,
    }
}
