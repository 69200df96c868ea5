//! Counters of minutes, landings and days: limits, bases, stops, resets and what an aircraft comes in with.

use super::{Case, each_ends_so};
use small_texts::{
    CHECK_IN_OSLO, DAILY_CHECK, FOUR_FLIGHTS, FOUR_TOO_CLOSE, ONE_AT_ARLANDA, RULES, THERE,
    THERE_AND_BACK, THREE_LANDINGS, TWO_AT_ARLANDA, TWO_HOURS, WITH_A_STOP,
};
use std::test::Fail;

#[test]
fn counters_are_kept(rt: HostRuntime) -> Result<(), Fail> {
    each_ends_so(
        &rt,
        rt.alloc(),
        RULES,
        &[STOPS, CARRIED, RESETS, LANDINGS, DAYS, CHECKS, DEAR_STOPS],
    )
}

// Flown minutes may add up to the limit. A stop at a base of so many minutes sets them to nothing.
const STOPS: &[Case<'_>] = &[
    // an hour at Arlanda after two hours in the air
    (
        FOUR_FLIGHTS,
        ONE_AT_ARLANDA,
        TWO_HOURS,
        0,
        "optimal 240\nA1: F1 F2 F3 F4\n",
    ),
    // a minute less
    (FOUR_TOO_CLOSE, ONE_AT_ARLANDA, TWO_HOURS, 1, "infeasible\n"),
    // two hours in the air are a minute too many
    (
        FOUR_FLIGHTS,
        ONE_AT_ARLANDA,
        "[[counter]]\nname = \"fh\"\nkind = \"minutes\"\nlimit = 119\nbases = [\"ARN\"]\nstop = 60\n",
        1,
        "infeasible\n",
    ),
    // half an hour in Oslo resets where it is a base and long enough
    (
        THERE_AND_BACK,
        ONE_AT_ARLANDA,
        "[[counter]]\nname = \"fh\"\nkind = \"minutes\"\nlimit = 60\nbases = [\"OSL\"]\nstop = 30\n",
        0,
        "optimal 120\nA1: F1 F2\n",
    ),
    (
        THERE_AND_BACK,
        ONE_AT_ARLANDA,
        "[[counter]]\nname = \"fh\"\nkind = \"minutes\"\nlimit = 60\nbases = [\"OSL\"]\nstop = 31\n",
        1,
        "infeasible\n",
    ),
    (
        THERE_AND_BACK,
        ONE_AT_ARLANDA,
        "[[counter]]\nname = \"fh\"\nkind = \"minutes\"\nlimit = 60\nbases = [\"ARN\"]\nstop = 30\n",
        1,
        "infeasible\n",
    ),
    // the second of two counters is the one that is passed
    (
        THERE_AND_BACK,
        ONE_AT_ARLANDA,
        "[[counter]]\nname = \"fh\"\nkind = \"minutes\"\nlimit = 120\nbases = []\nstop = 1\n\
[[counter]]\nname = \"ldg\"\nkind = \"landings\"\nlimit = 1\nbases = []\nstop = 1\n",
        1,
        "infeasible\n",
    ),
];

// Two hours in the air and four landings, which nothing resets.
const TWO_COUNTERS: &str =
    "[[counter]]\nname = \"fh\"\nkind = \"minutes\"\nlimit = 120\nbases = []\nstop = 1\n\
[[counter]]\nname = \"ldg\"\nkind = \"landings\"\nlimit = 4\nbases = []\nstop = 1\n";

// An aircraft comes in with what it carries. A stop before its first flight may reset that.
const CARRIED: &[Case<'_>] = &[
    (
        THERE,
        "A1,P,ARN,2025-03-03T05:30,0,,,fh=60\n",
        TWO_HOURS,
        0,
        "optimal 60\nA1: F1\n",
    ),
    (
        THERE,
        "A1,P,ARN,2025-03-03T05:30,0,,,fh=61\n",
        TWO_HOURS,
        1,
        "infeasible\n",
    ),
    // an hour at the base before the first flight
    (
        THERE,
        "A1,P,ARN,2025-03-03T05:00,0,,,fh=120\n",
        TWO_HOURS,
        0,
        "optimal 60\nA1: F1\n",
    ),
    (
        THERE,
        "A1,P,ARN,2025-03-03T05:01,0,,,fh=120\n",
        TWO_HOURS,
        1,
        "infeasible\n",
    ),
    // one that carries too much may stay where it is
    (
        THERE,
        "A1,P,ARN,2025-03-03T05:30,0,,,fh=500\nA2,P,ARN,2025-03-03T05:30,8,,,\n",
        TWO_HOURS,
        0,
        "optimal 68\nA1:\nA2: F1\n",
    ),
    // a value is that of the counter it names
    (
        THERE,
        "A1,P,ARN,2025-03-03T05:30,0,,,ldg=3 fh=60\n",
        TWO_COUNTERS,
        0,
        "optimal 60\nA1: F1\n",
    ),
    (
        THERE,
        "A1,P,ARN,2025-03-03T05:30,0,,,ldg=4 fh=60\n",
        TWO_COUNTERS,
        1,
        "infeasible\n",
    ),
];

// An activity that resets a counter leaves it at nothing, after it was counted there.
const RESETS: &[Case<'_>] = &[
    (
        "F1,flight,ARN,OSL,2025-03-03T06:00,2025-03-03T08:00,,,,\n\
G1,ground,OSL,OSL,2025-03-03T08:00,2025-03-03T08:20,,,,fh\n\
F2,flight,OSL,ARN,2025-03-03T08:30,2025-03-03T10:30,,,,\n",
        ONE_AT_ARLANDA,
        TWO_HOURS,
        0,
        "optimal 240\nA1: F1 G1 F2\n",
    ),
    (
        "F1,flight,ARN,OSL,2025-03-03T06:00,2025-03-03T08:00,,,,\n\
G1,ground,OSL,OSL,2025-03-03T08:00,2025-03-03T08:20,,,,\n\
F2,flight,OSL,ARN,2025-03-03T08:30,2025-03-03T10:30,,,,\n",
        ONE_AT_ARLANDA,
        TWO_HOURS,
        1,
        "infeasible\n",
    ),
    // after the limit was passed it is too late
    (
        "F1,flight,ARN,OSL,2025-03-03T06:00,2025-03-03T08:01,,,,\n\
G1,ground,OSL,OSL,2025-03-03T08:01,2025-03-03T08:20,,,,fh\n",
        ONE_AT_ARLANDA,
        TWO_HOURS,
        1,
        "infeasible\n",
    ),
];

// One landing.
const ONE_LANDING: &str =
    "[[counter]]\nname = \"ldg\"\nkind = \"landings\"\nlimit = 1\nbases = []\nstop = 1\n";

// A landing counts one, and time on the ground none.
const LANDINGS: &[Case<'_>] = &[
    (
        THERE_AND_BACK,
        ONE_AT_ARLANDA,
        ONE_LANDING,
        1,
        "infeasible\n",
    ),
    (
        THERE_AND_BACK,
        "A1,P,ARN,2025-03-03T05:00,0,,,\nA2,P,OSL,2025-03-03T05:00,0,,,\n",
        ONE_LANDING,
        0,
        "optimal 120\nA1: F1\nA2: F2\n",
    ),
    (
        "F1,flight,ARN,OSL,2025-03-03T06:00,2025-03-03T07:00,,,,\n\
G1,ground,OSL,OSL,2025-03-03T07:00,2025-03-03T08:00,,,,\n\
G2,ground,OSL,OSL,2025-03-03T08:00,2025-03-03T09:00,,,,\n",
        ONE_AT_ARLANDA,
        ONE_LANDING,
        0,
        "optimal 60\nA1: F1 G1 G2\n",
    ),
];

// A day, which ten hours at Arlanda begin anew.
const ONE_DAY: &str =
    "[[counter]]\nname = \"chk\"\nkind = \"days\"\nlimit = 1\nbases = [\"ARN\"]\nstop = 600\n";

// A counter of days goes on in the air and on the ground, from when the aircraft is ready.
const DAYS: &[Case<'_>] = &[
    // exactly a day after it was ready
    (
        "F1,flight,ARN,OSL,2025-03-03T06:00,2025-03-03T07:00,,,,\n\
F2,flight,OSL,ARN,2025-03-04T04:00,2025-03-04T05:00,,,,\n",
        ONE_AT_ARLANDA,
        ONE_DAY,
        0,
        "optimal 120\nA1: F1 F2\n",
    ),
    (
        "F1,flight,ARN,OSL,2025-03-03T06:00,2025-03-03T07:00,,,,\n\
F2,flight,OSL,ARN,2025-03-04T04:01,2025-03-04T05:01,,,,\n",
        ONE_AT_ARLANDA,
        ONE_DAY,
        1,
        "infeasible\n",
    ),
    // a night at the base begins anew with the flight
    (
        "F1,flight,ARN,OSL,2025-03-03T06:00,2025-03-03T07:00,,,,\n\
F2,flight,OSL,ARN,2025-03-03T07:30,2025-03-03T08:30,,,,\n\
F3,flight,ARN,OSL,2025-03-06T06:00,2025-03-06T07:00,,,,\n",
        ONE_AT_ARLANDA,
        ONE_DAY,
        0,
        "optimal 180\nA1: F1 F2 F3\n",
    ),
];

// A check on the ground resets the days that an aircraft came in with, before they are compared.
const CHECKS: &[Case<'_>] = &[
    (
        CHECK_IN_OSLO,
        "A1,P,OSL,2025-03-03T00:00,7,,,chk=1000\n",
        DAILY_CHECK,
        0,
        "optimal 74\nA1: G1 F1\n",
    ),
    (
        CHECK_IN_OSLO,
        "A1,P,OSL,2025-03-03T00:00,7,,,chk=10000000\n",
        DAILY_CHECK,
        0,
        "optimal 74\nA1: G1 F1\n",
    ),
];

// The cheap way to F5 goes through G1, and keeps the counter full: F6 would be the fourth landing. The dear one is taken.
const DEAR_STOPS: &[Case<'_>] = &[(
    WITH_A_STOP,
    TWO_AT_ARLANDA,
    THREE_LANDINGS,
    0,
    "optimal 740\nA1: F1 F2 F5 F6\nA2: G1\n",
)];
