// A source and a sink in memory.
use super::{NO_MEMORY, blob};
use nc_base::IdList;
use nc_outside::{Failed, MemSink, MemSource, Sink, Source};
use std::alloc::Global;
use std::process::Abort;

/// The call of number 1 alone.
fn second_call(rt: &impl Abort, alloc: Global) -> IdList {
    IdList::from_slice(alloc, &[1]).expect(rt, NO_MEMORY)
}

const GIVEN: [(&[u8], Result<usize, Failed>); 4] = [
    (b"abc", Ok(3)),
    (b"de", Err(Failed)),
    (b"de", Ok(1)),
    (b"e", Err(Failed)),
];

#[test]
fn a_sink_takes_what_it_has_room_for(rt: HostRuntime) {
    let failing = second_call(&rt, rt.alloc());
    let mut sink = MemSink::new(rt.alloc(), 4, failing).expect(&rt, NO_MEMORY);
    for (piece, wanted) in &GIVEN {
        assert!(rt; sink.give(piece) == *wanted);
    }
    assert!(rt; sink.bytes() == b"abcd".as_slice());
}

// For how many bytes there is room, what the call answers, and what stands there then.
const TAKEN: [(usize, Result<usize, Failed>, [u8; 4]); 4] = [
    (2, Ok(2), *b"he.."),
    (4, Err(Failed), *b"...."),
    (4, Ok(3), *b"llo."),
    (4, Ok(0), *b"...."),
];

#[test]
fn a_source_gives_its_bytes_in_order(rt: HostRuntime) {
    let failing = second_call(&rt, rt.alloc());
    let mut source = MemSource::new(blob(&rt, rt.alloc(), b"hello"), failing);
    for (room, wanted, bytes) in &TAKEN {
        let mut into = *b"....";
        assert!(rt; *room <= into.len());
        assert!(rt; source.take(&mut into[..*room]) == *wanted);
        assert!(rt; into == *bytes);
    }
}
