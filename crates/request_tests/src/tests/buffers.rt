use super::REFUSED;
use nc_base::{CallErr, Code};
use request_queue::Attached;

#[test]
fn freed_bytes_serve_again(rt: HostRuntime) {
    let alloc = rt.alloc();
    let mut buffer = Attached::new(alloc, 8).expect(&rt, REFUSED);
    let first = buffer.place(alloc, &[1, 2, 3, 4, 5]).expect(&rt, REFUSED);
    let second = buffer.place(alloc, &[6, 7]).expect(&rt, REFUSED);
    assert!(rt; buffer.place(alloc, &[8, 9]) == Err(CallErr::Code(Code::EInsuffBuf)));
    buffer.free(first);
    assert!(rt; buffer.used() == 2);
    buffer
        .place(alloc, &[9, 9, 9, 9, 9, 9])
        .expect(&rt, REFUSED);
    assert!(rt; buffer.bytes(second) == [6, 7].as_slice());
    // A call, which hides from the check how each list of it is let go.
    drop(buffer);
}
