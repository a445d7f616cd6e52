// The datasets of the tests, and a script of two ranks.
ghost use Rattle.std.specs.Prelude.{◌≡◌, ◌≤◌, true, length};
ghost use Rattle.serial_spec.specs.HeaderBytes.{header_len};
ghost use Rattle.serial_spec.specs.Lawful.{is_lawful};
ghost use Rattle.serial_spec.specs.Layout.{end_of};
ghost use Rattle.serial_spec.specs.SoundHeaders.{is_sound};

use cdf_header::decode;
use nc_base::{Blob, Header, NcType, Script};
use nc_outside::{Disk, MemDisk};
use ncmpi_script::read_script;
use std::alloc::Global;
use std::process::Abort;
use test_fixtures::{NO_LAYOUT, NO_MEMORY, laid_out, one_variable};
use var_layout::file_end;

/// The dimension x of this length, and the variable v over it, which begins at 80.
pub(crate) fn placed(rt: &impl Abort, alloc: Global, len: u64, kind: NcType) -> Header
    ensures { is_sound result ≡ true }
{
    let header = one_variable(alloc, len, kind, 0).expect(rt, NO_MEMORY);
    laid_out(header).expect(rt, NO_LAYOUT)
}

/// `dim x 4`, `var int v [x]` at 80, with a record count of 5 although nothing has records.
const FIVE: &[u8] = b"\
    CDF\x01\x00\x00\x00\x05\x00\x00\x00\x0a\x00\x00\x00\x01\x00\x00\x00\x01x\x00\x00\x00\x00\x00\x00\x04\
    \x00\x00\x00\x00\x00\x00\x00\x00\x00\x00\x00\x0b\x00\x00\x00\x01\x00\x00\x00\x01v\x00\x00\x00\x00\x00\x00\x01\
    \x00\x00\x00\x00\x00\x00\x00\x00\x00\x00\x00\x00\x00\x00\x00\x04\x00\x00\x00\x10\x00\x00\x00\x50";

pub(crate) fn header_of_five(rt: &impl Abort, alloc: Global) -> Header
    ensures { is_sound result ≡ true }
{
    assert!(rt; FIVE.len() <= 1024);
    let Ok((header, _)) = decode(alloc, FIVE) else {
        panic!(rt; "header")
    };
    header
}

/// Room for a header of 80 bytes and four ints.
pub(crate) fn disk_of_zeros(rt: &impl Abort, alloc: Global) -> MemDisk {
    let bytes = vec![in alloc; 0; 96].expect(rt, NO_MEMORY);
    MemDisk::logged(alloc, Blob::from_vec(bytes)).expect(rt, NO_MEMORY)
}

/// The disk holds the dataset whole.
pub(crate) fn is_long(rt: &impl Abort, header: &Header, disk: &MemDisk)
    ensures from { disk.now.from ≡ 0 }
    ensures long { end_of header.now (header_len header.now) header.now.records ≤ length disk.now.bytes }
{
    let end = file_end(header, header.records);
    let size = disk.size();
    let from = disk.first_place();
    assert!(rt; from == 0 && end <= size && size < 1000);
}

/// The disk was asked for nothing.
pub(crate) fn has_no_calls(rt: &impl Abort, alloc: Global, disk: &MemDisk) {
    let calls = disk.calls(alloc).expect(rt, NO_MEMORY).expect(rt, "calls");
    assert!(rt; calls.is_empty());
}

/// The four ints are 1 2 3 4, and the last bytes of the disk.
pub(crate) fn is_counted(rt: &impl Abort, alloc: Global, disk: &MemDisk) {
    let file = disk.bytes(alloc).expect(rt, NO_MEMORY);
    assert!(rt; file.len() == 96);
    assert!(rt;
        file.as_slice()
            .ends_with(b"\0\0\0\x01\0\0\0\x02\0\0\0\x03\0\0\0\x04")
    );
}

/// Rank 0 puts 1 and 3, and rank 1 puts 2 and 4 between them, each by itself.
pub(crate) const ALONE: &[u8] = b"create 1\nranks 2\ndim x 4\nvar int v [x]\ndata\n\
    0 begin_indep_data\n0 put_vars v [0] [2] [2] 1 3\n0 end_indep_data\n\
    1 begin_indep_data\n1 put_vars v [1] [2] [2] 2 4\n1 end_indep_data\nend\n";

/// Each of two ranks puts a half.
pub(crate) const HALVES: &[u8] = b"create 1\nranks 2\ndim x 4\nvar int v [x]\ndata\n\
    0 put_vara_all v [0] [2] 1 2\n1 put_vara_all v [2] [2] 3 4\nend\n";

/// Each of two ranks begins.
pub(crate) const BEGIN: &[u8] = b"create 1\nranks 2\ndim x 4\nvar int v [x]\ndata\n\
    0 begin_indep_data\n1 begin_indep_data\nend\n";

/// The script of this text.
pub(crate) fn any_script(rt: &impl Abort, alloc: Global, text: &[u8]) -> Script
    ensures lawful { is_lawful result ≡ true }
    ensures ranks { result.ranks ≤ 64 }
{
    let Ok(script) = read_script(alloc, text) else {
        panic!(rt; "script")
    };
    assert!(rt; script.ranks <= 64);
    script
}

/// The script of this text, which has two ranks.
pub(crate) fn script_of(rt: &impl Abort, alloc: Global, text: &[u8]) -> Script
    ensures lawful { is_lawful result ≡ true }
    ensures ranks { result.ranks ≡ 2 }
{
    let script = any_script(rt, alloc, text);
    assert!(rt; script.ranks == 2);
    script
}
