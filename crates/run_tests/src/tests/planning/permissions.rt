//! Who may fly what: types, tags, avoided airports and preassignment.

use super::{Case, each_ends_so};
use small_texts::{CHEAP_AND_DEAR, DEAR_TYPE, RULES, THERE};
use std::test::Fail;

#[test]
fn permissions_are_kept(rt: HostRuntime) -> Result<(), Fail> {
    each_ends_so(
        &rt,
        rt.alloc(),
        RULES,
        &[TYPES, TAGS, AVOIDED, PREASSIGNMENTS],
    )
}

// A list of types names the only ones that may fly it. Without a list all may.
const TYPES: &[Case<'_>] = &[
    (
        THERE,
        CHEAP_AND_DEAR,
        DEAR_TYPE,
        0,
        "optimal 60\nA1: F1\nA2:\n",
    ),
    (
        "F1,flight,ARN,OSL,2025-03-03T06:00,2025-03-03T07:00,Q,,,\n",
        CHEAP_AND_DEAR,
        DEAR_TYPE,
        0,
        "optimal 120\nA1:\nA2: F1\n",
    ),
    (
        "F1,flight,ARN,OSL,2025-03-03T06:00,2025-03-03T07:00,Q P Q,,,\n",
        CHEAP_AND_DEAR,
        DEAR_TYPE,
        0,
        "optimal 60\nA1: F1\nA2:\n",
    ),
];

// A flight that asks for two tags.
const TWO_TAGS: &str = "F1,flight,ARN,OSL,2025-03-03T06:00,2025-03-03T07:00,,wifi etops,,\n";

// An aircraft needs every tag that an activity names.
const TAGS: &[Case<'_>] = &[
    (
        TWO_TAGS,
        "A1,P,ARN,2025-03-03T05:00,0,wifi,,\nA2,P,ARN,2025-03-03T05:00,9,etops wifi,,\n",
        "",
        0,
        "optimal 69\nA1:\nA2: F1\n",
    ),
    (
        TWO_TAGS,
        "A1,P,ARN,2025-03-03T05:00,0,wifi etops vip,,\nA2,P,ARN,2025-03-03T05:00,9,etops wifi,,\n",
        "",
        0,
        "optimal 60\nA1: F1\nA2:\n",
    ),
    (
        TWO_TAGS,
        "A1,P,ARN,2025-03-03T05:00,0,wifi,,\nA2,P,ARN,2025-03-03T05:00,9,etops,,\n",
        "",
        1,
        "infeasible\n",
    ),
];

// A third airport.
const BERGEN: &str = "[[airport]]\nname = \"BGO\"\noffset = 60\nturn = 20\n";

// An aircraft neither starts nor lands where it avoids to be, though it may stand there.
const AVOIDED: &[Case<'_>] = &[
    (
        THERE,
        "A1,P,ARN,2025-03-03T05:00,0,,ARN,\nA2,P,ARN,2025-03-03T05:00,5,,,\n",
        BERGEN,
        0,
        "optimal 65\nA1:\nA2: F1\n",
    ),
    (
        THERE,
        "A1,P,ARN,2025-03-03T05:00,0,,OSL,\nA2,P,ARN,2025-03-03T05:00,5,,,\n",
        BERGEN,
        0,
        "optimal 65\nA1:\nA2: F1\n",
    ),
    (
        THERE,
        "A1,P,ARN,2025-03-03T05:00,0,,BGO,\nA2,P,ARN,2025-03-03T05:00,5,,,\n",
        BERGEN,
        0,
        "optimal 60\nA1: F1\nA2:\n",
    ),
    (
        THERE,
        "A1,P,ARN,2025-03-03T05:00,0,,BGO OSL,\nA2,P,ARN,2025-03-03T05:00,5,,ARN,\n",
        BERGEN,
        1,
        "infeasible\n",
    ),
];

// A flight of the second aircraft.
const PREASSIGNED: &str = "F1,flight,ARN,OSL,2025-03-03T06:00,2025-03-03T07:00,,,A2,\n";

// A preassigned activity is flown by that aircraft or by nobody.
const PREASSIGNMENTS: &[Case<'_>] = &[
    (
        PREASSIGNED,
        "A1,P,ARN,2025-03-03T05:00,0,,,\nA2,P,ARN,2025-03-03T05:00,9,,,\n",
        "",
        0,
        "optimal 69\nA1:\nA2: F1\n",
    ),
    (
        PREASSIGNED,
        "A1,P,ARN,2025-03-03T05:00,0,,,\nA2,P,OSL,2025-03-03T05:00,9,,,\n",
        "",
        1,
        "infeasible\n",
    ),
];
