//! Least plans: what is flown by whom, in which order, and what is printed of it.

use super::{Case, Run, USUAL, each_ends_so, each_run_ends_so};
use small_texts::{
    AT_ONCE, CHEAP_AND_DEAR, DEAR_TYPE, FLEET, ONE_AT_ARLANDA, ONE_EACH, RULES, THERE,
    THERE_AND_BACK, TIMETABLE, TWO_AT_ARLANDA,
};
use std::test::Fail;

#[test]
fn least_plans_are_printed(rt: HostRuntime) -> Result<(), Fail> {
    each_ends_so(
        &rt,
        rt.alloc(),
        RULES,
        &[
            AMPLE_MEMORY,
            NOT_GREEDY,
            EMPTY,
            ORDERS,
            ONE_FOR_ALL,
            TOO_MANY,
        ],
    )
}

// Ten flights over Arlanda, with half an hour between each two.
const TEN_AT_ARLANDA: &str = "F0,flight,ARN,ARN,2025-03-03T06:00,2025-03-03T07:00,,,,\n\
F1,flight,ARN,ARN,2025-03-03T07:30,2025-03-03T08:30,,,,\n\
F2,flight,ARN,ARN,2025-03-03T09:00,2025-03-03T10:00,,,,\n\
F3,flight,ARN,ARN,2025-03-03T10:30,2025-03-03T11:30,,,,\n\
F4,flight,ARN,ARN,2025-03-03T12:00,2025-03-03T13:00,,,,\n\
F5,flight,ARN,ARN,2025-03-03T13:30,2025-03-03T14:30,,,,\n\
F6,flight,ARN,ARN,2025-03-03T15:00,2025-03-03T16:00,,,,\n\
F7,flight,ARN,ARN,2025-03-03T16:30,2025-03-03T17:30,,,,\n\
F8,flight,ARN,ARN,2025-03-03T18:00,2025-03-03T19:00,,,,\n\
F9,flight,ARN,ARN,2025-03-03T19:30,2025-03-03T20:30,,,,\n";

// Where memory doesn't run out, a run has an answer.
const AMPLE_MEMORY: &[Case<'_>] = &[(
    THERE_AND_BACK,
    ONE_AT_ARLANDA,
    "",
    0,
    "optimal 120\nA1: F1 F2\n",
)];

// Two flights at once: the cheap aircraft has to fly the longer one, though it stands first and could take the shorter.
const NOT_GREEDY: &[Case<'_>] = &[(
    AT_ONCE,
    CHEAP_AND_DEAR,
    DEAR_TYPE,
    0,
    "optimal 240\nA1: F2\nA2: F1\n",
)];

// Nothing to fly, and nobody to fly it.
const EMPTY: &[Case<'_>] = &[
    ("", TWO_AT_ARLANDA, "", 0, "optimal 0\nA1:\nA2:\n"),
    ("", "", "", 0, "optimal 0\n"),
    (THERE, "", "", 1, "infeasible\n"),
];

// Activities are numbered by start and then by id, whatever the order of their table; the fleet keeps its order.
const ORDERS: &[Case<'_>] = &[
    (
        ONE_EACH,
        TWO_AT_ARLANDA,
        "",
        0,
        "optimal 120\nA1: FB\nA2: FA\n",
    ),
    (
        "F3,flight,ARN,OSL,2025-03-03T09:00,2025-03-03T11:00,,,,\n\
F1,flight,ARN,OSL,2025-03-03T06:00,2025-03-03T07:00,,,,\n\
F2,flight,OSL,ARN,2025-03-03T07:30,2025-03-03T08:30,,,,\n",
        ONE_AT_ARLANDA,
        "",
        0,
        "optimal 240\nA1: F1 F2 F3\n",
    ),
    (
        THERE,
        "B,P,OSL,2025-03-03T05:00,0,,,\nA,P,ARN,2025-03-03T05:00,0,,,\n",
        "",
        0,
        "optimal 60\nB:\nA: F1\n",
    ),
];

// Any of the four may fly each of the ten.
const ONE_FOR_ALL: &[Case<'_>] = &[(
    TEN_AT_ARLANDA,
    "A1,P,ARN,2025-03-03T05:00,3,,,\nA2,P,ARN,2025-03-03T05:00,2,,,\n\
A3,P,ARN,2025-03-03T05:00,1,,,\nA4,P,ARN,2025-03-03T05:00,4,,,\n",
    "",
    0,
    "optimal 610\nA1:\nA2:\nA3: F0 F1 F2 F3 F4 F5 F6 F7 F8 F9\nA4:\n",
)];

// An eleventh flight and a fifth aircraft: one flies them all.
#[test]
fn five_aircraft_and_eleven_flights_are_planned(rt: HostRuntime) -> Result<(), Fail> {
    let runs: &[Run<'_>] = &[Run {
        timetable: &[
            TIMETABLE,
            TEN_AT_ARLANDA,
            "FA,flight,ARN,ARN,2025-03-03T21:00,2025-03-03T22:00,,,,\n",
        ],
        fleet: &[
            FLEET,
            "A1,P,ARN,2025-03-03T05:00,3,,,\nA2,P,ARN,2025-03-03T05:00,2,,,\n\
A3,P,ARN,2025-03-03T05:00,1,,,\nA4,P,ARN,2025-03-03T05:00,4,,,\nA5,P,ARN,2025-03-03T05:00,5,,,\n",
        ],
        printed: "optimal 671\nA1:\nA2:\nA3: F0 F1 F2 F3 F4 F5 F6 F7 F8 F9 FA\nA4:\nA5:\n",
        ..USUAL
    }];
    each_run_ends_so(&rt, rt.alloc(), runs)
}

// Eleven flights at one moment.
const ELEVEN_AT_ONCE: &str = "F0,flight,ARN,OSL,2025-03-03T06:00,2025-03-03T07:00,,,,\n\
F1,flight,ARN,OSL,2025-03-03T06:00,2025-03-03T07:00,,,,\n\
F2,flight,ARN,OSL,2025-03-03T06:00,2025-03-03T07:00,,,,\n\
F3,flight,ARN,OSL,2025-03-03T06:00,2025-03-03T07:00,,,,\n\
F4,flight,ARN,OSL,2025-03-03T06:00,2025-03-03T07:00,,,,\n\
F5,flight,ARN,OSL,2025-03-03T06:00,2025-03-03T07:00,,,,\n\
F6,flight,ARN,OSL,2025-03-03T06:00,2025-03-03T07:00,,,,\n\
F7,flight,ARN,OSL,2025-03-03T06:00,2025-03-03T07:00,,,,\n\
F8,flight,ARN,OSL,2025-03-03T06:00,2025-03-03T07:00,,,,\n\
F9,flight,ARN,OSL,2025-03-03T06:00,2025-03-03T07:00,,,,\n\
FA,flight,ARN,OSL,2025-03-03T06:00,2025-03-03T07:00,,,,\n";

// They leave no plan for one aircraft.
const TOO_MANY: &[Case<'_>] = &[(ELEVEN_AT_ONCE, ONE_AT_ARLANDA, "", 1, "infeasible\n")];

// A leap day, and the last minute that a table can name.
#[test]
fn the_calendar_has_these_moments(rt: HostRuntime) -> Result<(), Fail> {
    each_ends_so(&rt, rt.alloc(), RULES, &[MOMENTS])
}

const MOMENTS: &[Case<'_>] = &[
    (
        "F1,flight,ARN,OSL,2000-02-29T00:00,2000-02-29T01:00,,,,\n",
        "A1,P,ARN,2000-02-28T23:59,0,,,\n",
        "",
        0,
        "optimal 60\nA1: F1\n",
    ),
    (
        "F1,flight,ARN,OSL,1970-01-01T00:00,1970-01-01T00:01,,,,\n",
        "A1,P,ARN,1970-01-01T00:00,0,,,\n",
        "",
        0,
        "optimal 1\nA1: F1\n",
    ),
    (
        "F1,flight,ARN,OSL,2199-12-30T23:59,2199-12-31T23:59,,,,\n",
        "A1,P,ARN,2199-12-30T23:59,0,,,\n",
        "",
        0,
        "optimal 1440\nA1: F1\n",
    ),
    (
        "F1,flight,ARN,OSL,2100-02-28T23:00,2100-02-29T00:00,,,,\n",
        ONE_AT_ARLANDA,
        "",
        3,
        "refused 6 timetable 2\n",
    ),
    (
        "F1,flight,ARN,OSL,2025-03-03T23:00,2025-03-03T24:00,,,,\n",
        ONE_AT_ARLANDA,
        "",
        3,
        "refused 6 timetable 2\n",
    ),
    (
        "F1,flight,ARN,OSL,2025-3-03T06:00,2025-03-03T07:00,,,,\n",
        ONE_AT_ARLANDA,
        "",
        3,
        "refused 6 timetable 2\n",
    ),
    (
        THERE,
        "A1,P,ARN,1969-12-31T23:59,0,,,\n",
        "",
        3,
        "refused 6 fleet 2\n",
    ),
    (
        THERE,
        "A1,P,ARN,2200-01-01T00:00,0,,,\n",
        "",
        3,
        "refused 6 fleet 2\n",
    ),
];
