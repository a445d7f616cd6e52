// A header that is written.
ghost use Rattle.std.specs.Prelude.{◌≡◌};
ghost use Rattle.serial_spec.specs.Examples.{dataset_a};

use super::files;
use cdf_header::encode;
use nc_base::{Header, NcType};
use serial_spec::worked_headers::worked_header;
use std::alloc::Global;
use std::process::Abort;
use test_fixtures::{NO_MEMORY, one_variable};

#[tactic(auto, unfolding(serial_spec::specs::HeaderBytes::canon))]
fn header(rt: &impl Abort, alloc: Global) -> Header
    ensures { result ≡ dataset_a }
{
    one_variable(alloc, 4, NcType::Int, 80).expect(rt, NO_MEMORY)
}

#[test]
fn one_variable_is_written_as_ncgen_does(rt: HostRuntime) {
    let header = header(&rt, rt.alloc());
    worked_header();
    let bytes = encode(rt.alloc(), &header).expect(&rt, NO_MEMORY);
    assert!(rt; bytes.as_slice() == files::ONE);
}
