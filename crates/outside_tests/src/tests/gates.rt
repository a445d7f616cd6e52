// Gates, of which no clause says when they hold.
use nc_outside::{Gate, MeetGate, Point};
use std::thread;

const FIRST: Point = Point::RankStep(0, 0);

const SECOND: Point = Point::Arrival(0);

#[test]
fn a_gate_tells_whether_the_points_met(rt: HostRuntime) {
    let alone = MeetGate::new(FIRST, SECOND, 3);
    assert!(rt; !alone.met());
    alone.pass(&rt, FIRST);
    assert!(rt; !alone.met());
    alone.pass(&rt, SECOND);
    assert!(rt; !alone.met());
    let before = MeetGate::new(FIRST, SECOND, 3);
    before.pass(&rt, SECOND);
    before.pass(&rt, FIRST);
    assert!(rt; before.met());
}

#[test]
fn a_gate_holds_one_thread_until_the_other_comes(rt: HostRuntime) {
    let gate = MeetGate::new(FIRST, SECOND, 10_000_000);
    thread::join(&rt, || gate.pass(&rt, FIRST), || gate.pass(&rt, SECOND));
    assert!(rt; gate.met());
}
