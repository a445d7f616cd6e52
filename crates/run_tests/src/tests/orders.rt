// Orders of a script whose two ranks each put alone, between two meetings.
use crate::tests::fixtures::{ALONE, script_of};
use nc_base::Mark;
use nc_base::Mark::{Meet, Solo};
use reference::legal;

// Orders, and whether each is one of the script's histories.
const CASES: [(&[Mark], bool); 7] = [
    (&[Meet(0), Solo(0, 1), Solo(1, 1), Meet(1)], true),
    (&[Meet(0), Solo(1, 1), Solo(0, 1), Meet(1)], true),
    // A step is left out, stands twice, is another call's, another rank's, or one more.
    (&[Meet(0), Solo(0, 1), Meet(1)], false),
    (
        &[Meet(0), Solo(0, 1), Solo(0, 1), Solo(1, 1), Meet(1)],
        false,
    ),
    (&[Meet(0), Solo(0, 2), Solo(1, 1), Meet(1)], false),
    (
        &[Meet(0), Solo(0, 1), Solo(1, 1), Solo(2, 1), Meet(1)],
        false,
    ),
    (&[Meet(0), Solo(0, 1), Solo(1, 1), Meet(1), Meet(2)], false),
];

#[test]
fn each_step_of_a_rank_stands_once(rt: HostRuntime) {
    let script = script_of(&rt, rt.alloc(), ALONE);
    for (order, is_legal) in &CASES {
        assert!(rt; legal(&script, order) == *is_legal);
    }
}
