// Variables and dimensions by their names.
ghost use Rattle.std.specs.Prelude.{◌≡◌};
ghost use Rattle.serial_spec.specs.Looks as looks;

use nc_base::Header;

/// The first variable of this name.
pub fn find_var(header: &Header, name: &[u8]) -> Option<usize>
    ensures { result ≡ looks.find_var header.now name.now }
{
    header
        .vars
        .as_slice()
        .iter()
        .position(|var| var.name.as_slice() == name)
}

/// The first dimension of this name.
pub fn find_dim(header: &Header, name: &[u8]) -> Option<usize>
    ensures { result ≡ looks.find_dim header.now name.now }
{
    header
        .dims
        .as_slice()
        .iter()
        .position(|dim| dim.name.as_slice() == name)
}
