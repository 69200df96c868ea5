//! Limits of nodes: what is printed where the search counts no more, and where it ends before.

use super::{Run, USUAL, each_run_ends_so};
use small_texts::{
    AT_ONCE, CHEAP_AND_DEAR, DEAR_TYPE, FLEET, ONE_AT_ARLANDA, RULES, THERE, TIMETABLE,
};
use std::test::Fail;

const NO_NODE: &[&str] = &["tailplan", "t", "f", "r", "--nodes", "0"];

// Two flights at once, and an aircraft for each.
const TWO_AT_ONCE: Run<'_> = Run {
    timetable: &[TIMETABLE, AT_ONCE],
    fleet: &[FLEET, CHEAP_AND_DEAR],
    rules: &[RULES, DEAR_TYPE],
    printed: "optimal 240\nA1: F2\nA2: F1\n",
    ..USUAL
};

#[test]
fn limits_of_nodes_are_kept(rt: HostRuntime) -> Result<(), Fail> {
    let runs: &[Run<'_>] = &[
        // no node is counted: no legal plan costs less than nothing, and none was found
        Run {
            words: NO_NODE,
            status: 4,
            printed: "limit 0 -\n",
            ..TWO_AT_ONCE
        },
        // a limit that the search does not come to changes nothing: four pairs are undecided, so no tree has more than 31 nodes
        Run {
            words: &["tailplan", "t", "f", "r", "--nodes", "31"],
            ..TWO_AT_ONCE
        },
        Run {
            words: &["tailplan", "--nodes", "1000000000000", "t", "f", "r"],
            ..TWO_AT_ONCE
        },
        // one node is enough where nobody is there to fly
        Run {
            words: &["tailplan", "t", "f", "r", "--nodes=1"],
            timetable: &[TIMETABLE, THERE],
            fleet: &[FLEET],
            status: 1,
            printed: "infeasible\n",
            ..USUAL
        },
        // refusals come whatever the limit is
        Run {
            words: NO_NODE,
            timetable: &[THERE],
            fleet: &[FLEET, ONE_AT_ARLANDA],
            status: 3,
            printed: "refused 3 timetable 1\n",
            ..USUAL
        },
    ];
    each_run_ends_so(&rt, rt.alloc(), runs)
}
