//! Which activity may come after which: places, turns, and time on the ground.

use super::{Case, each_ends_so};
use small_texts::{LONGER_TURN, ONE_AT_ARLANDA, RULES, THERE, THERE_AND_BACK};
use std::test::Fail;

#[test]
fn routes_are_linked(rt: HostRuntime) -> Result<(), Fail> {
    each_ends_so(&rt, rt.alloc(), RULES, &[BEGINNINGS, GROUND_TIMES])
}

// Oslo asks for more time than the type does.
const SLOW_OSLO: &str = "[[type]]\nname = \"P\"\nrate = 1\nturn = 30\n\
[[airport]]\nname = \"ARN\"\noffset = 60\nturn = 20\n\
[[airport]]\nname = \"OSL\"\noffset = 60\nturn = 45\n";

// Arlanda does, and a turn in Oslo is none of its business.
const SLOW_ARLANDA: &str = "[[type]]\nname = \"P\"\nrate = 1\nturn = 0\n\
[[airport]]\nname = \"ARN\"\noffset = 60\nturn = 600\n\
[[airport]]\nname = \"OSL\"\noffset = 60\nturn = 0\n";

const BACK_AFTER_45: &str = "F1,flight,ARN,OSL,2025-03-03T06:00,2025-03-03T07:00,,,,\n\
F2,flight,OSL,ARN,2025-03-03T07:45,2025-03-03T08:45,,,,\n";

const BACK_AFTER_44: &str = "F1,flight,ARN,OSL,2025-03-03T06:00,2025-03-03T07:00,,,,\n\
F2,flight,OSL,ARN,2025-03-03T07:44,2025-03-03T08:45,,,,\n";

const BACK_AT_ONCE: &str = "F1,flight,ARN,OSL,2025-03-03T06:00,2025-03-03T07:00,,,,\n\
F2,flight,OSL,ARN,2025-03-03T07:00,2025-03-03T08:00,,,,\n";

// A turn is as long as the type and the airport ask, to the minute.
#[test]
fn a_turn_is_the_longer_of_two(rt: HostRuntime) -> Result<(), Fail> {
    let cases: &[Case<'_>] = &[
        (
            THERE_AND_BACK,
            ONE_AT_ARLANDA,
            LONGER_TURN,
            1,
            "infeasible\n",
        ),
        (
            BACK_AFTER_44,
            ONE_AT_ARLANDA,
            LONGER_TURN,
            0,
            "optimal 121\nA1: F1 F2\n",
        ),
        (BACK_AFTER_44, ONE_AT_ARLANDA, SLOW_OSLO, 1, "infeasible\n"),
        (
            BACK_AFTER_45,
            ONE_AT_ARLANDA,
            SLOW_OSLO,
            0,
            "optimal 120\nA1: F1 F2\n",
        ),
        (
            BACK_AT_ONCE,
            ONE_AT_ARLANDA,
            SLOW_ARLANDA,
            0,
            "optimal 120\nA1: F1 F2\n",
        ),
        (BACK_AT_ONCE, ONE_AT_ARLANDA, SLOW_OSLO, 1, "infeasible\n"),
    ];
    each_ends_so(&rt, rt.alloc(), "", &[cases])
}

// An aircraft flies on from where it is and when it is ready, without a turn at first.
const BEGINNINGS: &[Case<'_>] = &[
    (
        THERE,
        "A1,P,ARN,2025-03-03T06:00,0,,,\n",
        "",
        0,
        "optimal 60\nA1: F1\n",
    ),
    (
        THERE,
        "A1,P,ARN,2025-03-03T06:01,0,,,\n",
        "",
        1,
        "infeasible\n",
    ),
    (
        THERE,
        "A1,P,OSL,2025-03-03T05:00,0,,,\n",
        "",
        1,
        "infeasible\n",
    ),
    // a second flight from where the aircraft is not
    (
        "F1,flight,ARN,OSL,2025-03-03T06:00,2025-03-03T07:00,,,,\n\
F2,flight,ARN,OSL,2025-03-03T08:30,2025-03-03T09:30,,,,\n",
        ONE_AT_ARLANDA,
        "",
        1,
        "infeasible\n",
    ),
    // a turn that one aircraft misses, and two need not make
    (
        "F1,flight,ARN,OSL,2025-03-03T06:00,2025-03-03T07:00,,,,\n\
F2,flight,OSL,ARN,2025-03-03T07:29,2025-03-03T08:29,,,,\n",
        "A1,P,ARN,2025-03-03T05:00,0,,,\nA2,P,OSL,2025-03-03T05:00,0,,,\n",
        "",
        0,
        "optimal 120\nA1: F1\nA2: F2\n",
    ),
];

// Time on the ground is spent in one place, and needs no turn before it or behind it.
const GROUND_TIMES: &[Case<'_>] = &[
    (
        "F1,flight,ARN,OSL,2025-03-03T06:00,2025-03-03T07:00,,,,\n\
G1,ground,OSL,OSL,2025-03-03T07:00,2025-03-03T08:00,,,,\n\
F2,flight,OSL,ARN,2025-03-03T08:00,2025-03-03T09:00,,,,\n",
        ONE_AT_ARLANDA,
        "",
        0,
        "optimal 120\nA1: F1 G1 F2\n",
    ),
    // a minute of it lies in the flight
    (
        "F1,flight,ARN,OSL,2025-03-03T06:00,2025-03-03T07:00,,,,\n\
G1,ground,OSL,OSL,2025-03-03T06:59,2025-03-03T08:00,,,,\n",
        ONE_AT_ARLANDA,
        "",
        1,
        "infeasible\n",
    ),
    // nobody comes to where it is
    (
        "G1,ground,OSL,OSL,2025-03-03T07:00,2025-03-03T08:00,,,,\n",
        ONE_AT_ARLANDA,
        "",
        1,
        "infeasible\n",
    ),
    // it keeps the aircraft from a flight
    (
        "F1,flight,ARN,OSL,2025-03-03T06:00,2025-03-03T07:00,,,,\n\
G1,ground,ARN,ARN,2025-03-03T05:30,2025-03-03T06:30,,,,\n",
        ONE_AT_ARLANDA,
        "",
        1,
        "infeasible\n",
    ),
];
