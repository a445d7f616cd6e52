// Datasets as the netCDF classic format specification spells them, scripts that make them, and their offsets.

/// `dim x 4`, `var int v [x]`, in CDF-1: the header up to the begin of v.
pub(crate) const A_FRONT: &[u8] = b"\
    CDF\x01\x00\x00\x00\x00\x00\x00\x00\x0a\x00\x00\x00\x01\x00\x00\x00\x01x\x00\x00\x00\x00\x00\x00\x04\
    \x00\x00\x00\x00\x00\x00\x00\x00\x00\x00\x00\x0b\x00\x00\x00\x01\x00\x00\x00\x01v\x00\x00\x00\x00\x00\x00\x01\
    \x00\x00\x00\x00\x00\x00\x00\x00\x00\x00\x00\x00\x00\x00\x00\x04\x00\x00\x00\x10";

/// The begin of v: 80.
pub(crate) const AT_80: &[u8] = b"\x00\x00\x00\x50";

/// The ints 1 2.
pub(crate) const ONE_TWO: &[u8] = b"\x00\x00\x00\x01\x00\x00\x00\x02";

/// The ints 3 4.
pub(crate) const THREE_FOUR: &[u8] = b"\x00\x00\x00\x03\x00\x00\x00\x04";

/// The whole of it, with the values 1 2 3 4.
pub(crate) const A: &[&[u8]] = &[A_FRONT, AT_80, ONE_TWO, THREE_FOUR];

/// What a script of two ranks begins with.
pub(crate) const TWO_RANKS: &[u8] = b"create 1\nranks 2\n";

/// The dataset's definitions.
pub(crate) const VECTOR: &[u8] = b"dim x 4\nvar int v [x]\ndata\n";

/// Each of two ranks puts a half.
pub(crate) const HALVES: &[u8] =
    b"0 put_vara_all v [0] [2] 1 2\n1 put_vara_all v [2] [2] 3 4\nend\n";

/// The offsets of the dataset.
pub(crate) const A_OFFSETS: &[u8] = b"\
    // file format: CDF-1\nfile header:\n  size = 80 bytes\n  extent = 80 bytes\n\
    dimensions:\n  x = 4\nfixed-size variables:\n  int v(x):\n    start file offset = 80\n    \
    end file offset = 96\n    size in bytes = 16\nrecord variables:\n";

/// CDF-1.
pub(crate) const MAGIC: &[u8] = b"CDF\x01";

/// A record count of 0.
pub(crate) const NO_RECORDS: &[u8] = &[0; 4];

/// `dim t unlimited`, `var short s [t]`, with s at 80: the header behind its record count.
pub(crate) const B: &[u8] = b"\
    \x00\x00\x00\x0a\x00\x00\x00\x01\x00\x00\x00\x01t\x00\x00\x00\x00\x00\x00\x00\
    \x00\x00\x00\x00\x00\x00\x00\x00\x00\x00\x00\x0b\x00\x00\x00\x01\x00\x00\x00\x01s\x00\x00\x00\x00\x00\x00\x01\
    \x00\x00\x00\x00\x00\x00\x00\x00\x00\x00\x00\x00\x00\x00\x00\x03\x00\x00\x00\x04\x00\x00\x00\x50";
