// The real source, sink and disk.
use nc_outside::{Disk, Sink, Source};
use real_files::{FileDisk, StdSink, StdSource};
use std::io::{ErrorKind, Read, Write};
use std::{fs, io};

/// What a test says of a call that the system refuses.
const REFUSED: &str = "refused";

#[test]
fn a_reader_is_a_source_and_a_writer_a_sink(rt: HostRuntime) {
    let mut source = StdSource::new(b"abcde".as_slice());
    let mut into = [0u8; 3];
    assert!(rt; source.take(&mut into) == Ok(3));
    assert!(rt; into == *b"abc");
    assert!(rt; source.take(&mut into) == Ok(2));
    assert!(rt; source.take(&mut into) == Ok(0));
    let mut bytes = Vec::new(rt.alloc());
    let mut sink = StdSink::new(&mut bytes);
    assert!(rt; sink.give(b"xyz") == Ok(3));
    assert!(rt; bytes.as_slice() == b"xyz".as_slice());
}

// A stream of which every other call is interrupted by a signal.
#[derive(Drop)]
struct Signalled {
    interrupts: bool,
}

impl Signalled {
    fn turn(&mut self) -> io::Result<()> {
        self.interrupts = !self.interrupts;
        if self.interrupts {
            return Err(ErrorKind::Interrupted.into());
        }
        Ok(())
    }
}

impl Read for Signalled {
    fn read(&mut self, into: &mut [u8]) -> io::Result<usize> {
        self.turn()?;
        into.fill(7);
        Ok(into.len())
    }
}

impl Write for Signalled {
    fn write(&mut self, piece: &[u8]) -> io::Result<usize> {
        self.turn()?;
        Ok(piece.len())
    }

    fn flush(&mut self) -> io::Result<()> {
        Ok(())
    }
}

const SIGNALLED: Signalled = Signalled { interrupts: false };

#[test]
fn a_call_that_a_signal_interrupts_is_made_anew(rt: HostRuntime) {
    let mut source = StdSource::new(SIGNALLED);
    let mut into = [0u8; 3];
    assert!(rt; source.take(&mut into) == Ok(3));
    assert!(rt; into == [7, 7, 7]);
    let mut sink = StdSink::new(SIGNALLED);
    assert!(rt; sink.give(b"xyz") == Ok(3));
}

// The file is another one than that of its name by then, and at last longer than the disk knows.
#[test]
fn parts_share_the_file_that_was_opened(rt: HostRuntime) {
    let alloc = rt.alloc();
    let files = rt.clone().expect(&rt, REFUSED);
    let mut disk = FileDisk::new(files);
    disk.start(alloc, "opened.nc", true).expect(&rt, REFUSED);
    disk.grow(alloc, 8).expect(&rt, REFUSED);
    fs::rename(&rt, "opened.nc", "moved.nc").expect(&rt, REFUSED);
    fs::write(&rt, "opened.nc", b"another").expect(&rt, REFUSED);
    let mut rest = disk.split_off(alloc, 3).expect(&rt, REFUSED);
    disk.write_at(alloc, 1, b"ab").expect(&rt, REFUSED);
    rest.write_at(alloc, 3, b"cd").expect(&rt, REFUSED);
    disk.append(rest);
    let mut bytes = [9u8; 8];
    disk.read_at(alloc, 0, &mut bytes).expect(&rt, REFUSED);
    assert!(rt; bytes == *b"\0abcd\0\0\0");
    fs::write(&rt, "moved.nc", b"abcdefghij").expect(&rt, REFUSED);
    disk.grow(alloc, 9).expect(&rt, REFUSED);
    let left = fs::read(&rt, "moved.nc").expect(&rt, REFUSED);
    assert!(rt; left.as_slice() == b"abcdefghij".as_slice());
    fs::remove_file(&rt, "opened.nc").expect(&rt, REFUSED);
    fs::remove_file(&rt, "moved.nc").expect(&rt, REFUSED);
    // A call, which hides from the check how the file and the first fault are let go.
    drop(disk);
}
