// Names of dimensions, variables and attributes.
ghost use Rattle.std.specs.Prelude.{◌≡◌, ◌<◌, length};
ghost use Rattle.std.specs.List.{list_all};
ghost use Rattle.std.specs.Result.{result_err};
ghost use Rattle.nc_classic_c.specs.Naming.{starts_name, in_name, is_utf8, is_name, name_cause};

use crate::causes::Cause;

/// The bytes of a name.
const MAX_NAME: usize = 256;

fn starts_name(byte: u8) -> bool
    ensures { result ≡ starts_name byte }
{
    matches!(byte, b'A'..=b'Z' | b'a'..=b'z' | b'0'..=b'9' | b'_' | 0x80..)
}

fn in_name(byte: u8) -> bool
    ensures { result ≡ in_name byte }
{
    b' ' <= byte && byte != b'/' && byte != 0x7f
}

fn are_in_name(bytes: &[u8]) -> bool
    ensures { result ≡ list_all in_name bytes.now }
{
    bytes.iter().all(|byte| in_name(*byte))
}

fn is_utf8(bytes: &[u8]) -> bool
    ensures { result ≡ is_utf8 bytes.now }
{
    match std::str::from_utf8(bytes) {
        Ok(_) => true,
        Err(_) => false,
    }
}

/// Whether this is a right name, apart from its length.
fn is_name(name: &[u8]) -> bool
    requires { 0 < length name.now }
    ensures { result ≡ is_name name.now }
{
    starts_name(name[0]) && name[name.len() - 1] != b' ' && are_in_name(name) && is_utf8(name)
}

pub(crate) fn check_name(name: &[u8]) -> Result<(), Cause>
    ensures { result_err result ≡ name_cause name.now }
{
    if name.len() == 0 {
        Err(Cause::BadName)
    } else if name.len() > MAX_NAME {
        Err(Cause::MaxName)
    } else if is_name(name) {
        Ok(())
    } else {
        Err(Cause::BadName)
    }
}
