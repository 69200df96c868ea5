//! What a plan costs: minutes by type, a fixed amount for each activity, and bands of connections.

use super::{Case, each_ends_so};
use small_texts::{DEAR_TYPE, ONE_AT_ARLANDA, RULES, THERE, THERE_AND_BACK};
use std::test::Fail;

#[test]
fn costs_decide(rt: HostRuntime) -> Result<(), Fail> {
    each_ends_so(&rt, rt.alloc(), RULES, &[RATES, BANDS, DEAR_CONNECTIONS])
}

// The rate of a type is weighed against the fixed amount of an aircraft, to the unit.
const RATES: &[Case<'_>] = &[
    (
        THERE,
        "A1,Q,ARN,2025-03-03T05:00,0,,,\nA2,P,ARN,2025-03-03T05:00,59,,,\n",
        DEAR_TYPE,
        0,
        "optimal 119\nA1:\nA2: F1\n",
    ),
    (
        THERE,
        "A1,Q,ARN,2025-03-03T05:00,0,,,\nA2,P,ARN,2025-03-03T05:00,61,,,\n",
        DEAR_TYPE,
        0,
        "optimal 120\nA1: F1\nA2:\n",
    ),
    (
        THERE,
        "A1,P,ARN,2025-03-03T05:00,50,,,\nA2,P,ARN,2025-03-03T05:00,7,,,\n",
        DEAR_TYPE,
        0,
        "optimal 67\nA1:\nA2: F1\n",
    ),
    // a fixed amount is paid for time on the ground too, and minutes there are free
    (
        "G1,ground,ARN,ARN,2025-03-03T06:00,2025-03-03T07:00,,,,\n",
        "A1,P,ARN,2025-03-03T05:00,7,,,\nA2,Q,ARN,2025-03-03T05:00,3,,,\n",
        DEAR_TYPE,
        0,
        "optimal 3\nA1:\nA2: G1\n",
    ),
    // it is paid for each activity
    (
        THERE_AND_BACK,
        "A1,P,ARN,2025-03-03T05:00,10,,,\nA2,P,ARN,2025-03-03T05:00,3,,,\n",
        DEAR_TYPE,
        0,
        "optimal 126\nA1:\nA2: F1 F2\n",
    ),
    // the dear aircraft flies what the others can't reach
    (
        "F1,flight,ARN,OSL,2025-03-03T06:00,2025-03-03T07:00,,,,\n\
F2,flight,OSL,ARN,2025-03-03T06:30,2025-03-03T08:30,,,,\n",
        "A1,P,ARN,2025-03-03T05:00,1,,,\nA2,Q,OSL,2025-03-03T05:00,1000,,,\n",
        DEAR_TYPE,
        0,
        "optimal 1301\nA1: F1\nA2: F2\n",
    ),
    // three aircraft, of which the cheapest is ready too late
    (
        "F1,flight,ARN,OSL,2025-03-03T06:00,2025-03-03T07:00,,,,\n\
F2,flight,OSL,ARN,2025-03-03T07:30,2025-03-03T09:30,,,,\n",
        "A1,P,ARN,2025-03-03T07:00,0,,,\nA2,P,ARN,2025-03-03T05:00,1000,,,\n\
A3,P,OSL,2025-03-03T05:00,300,,,\n",
        DEAR_TYPE,
        0,
        "optimal 1480\nA1:\nA2: F1\nA3: F2\n",
    ),
];

// A connection of 30 minutes costs what the first band says that reaches so far, and nothing where none does.
const BANDS: &[Case<'_>] = &[
    (
        THERE_AND_BACK,
        ONE_AT_ARLANDA,
        "",
        0,
        "optimal 120\nA1: F1 F2\n",
    ),
    (
        THERE_AND_BACK,
        ONE_AT_ARLANDA,
        "[[band]]\nupto = 30\ncost = 7\n",
        0,
        "optimal 127\nA1: F1 F2\n",
    ),
    (
        THERE_AND_BACK,
        ONE_AT_ARLANDA,
        "[[band]]\nupto = 29\ncost = 7\n",
        0,
        "optimal 120\nA1: F1 F2\n",
    ),
    (
        THERE_AND_BACK,
        ONE_AT_ARLANDA,
        "[[band]]\nupto = 29\ncost = 900\n[[band]]\nupto = 30\ncost = 8\n[[band]]\nupto = 31\ncost = 0\n",
        0,
        "optimal 128\nA1: F1 F2\n",
    ),
    (
        THERE_AND_BACK,
        ONE_AT_ARLANDA,
        "[[band]]\nupto = 10000000\ncost = 5\n[[band]]\nupto = 30\ncost = 0\n",
        0,
        "optimal 125\nA1: F1 F2\n",
    ),
];

// Any connection, at this cost.
const DEAR_BAND: &str = "[[band]]\nupto = 10000000\ncost = 500\n";

// A dear connection is left to two aircraft. Where an aircraft comes in, no connection is paid.
const DEAR_CONNECTIONS: &[Case<'_>] = &[
    (
        THERE_AND_BACK,
        "A1,P,ARN,2025-03-03T05:00,0,,,\nA2,P,OSL,2025-03-03T05:00,499,,,\n",
        DEAR_BAND,
        0,
        "optimal 619\nA1: F1\nA2: F2\n",
    ),
    (
        THERE_AND_BACK,
        "A1,P,ARN,2025-03-03T05:00,0,,,\nA2,P,OSL,2025-03-03T05:00,501,,,\n",
        DEAR_BAND,
        0,
        "optimal 620\nA1: F1 F2\nA2:\n",
    ),
];
