//! Plans that are legal, and plans that break rules.

use super::fixtures::{each_plan_ends_so, each_row_ends_so};
use small_texts::{
    AT_ONCE, CHEAP_AND_DEAR, CHECK_IN_OSLO, DAILY_CHECK, DEAR_TYPE, FOUR_FLIGHTS, FOUR_TOO_CLOSE,
    NIGHT, ONE_AT_ARLANDA, ONE_EACH, THERE_AND_BACK, THREE_LANDINGS, TWO_AT_ARLANDA, TWO_HOURS,
    WITH_A_STOP,
};
use std::test::Fail;

// The plans of two flights and one aircraft.
#[test]
fn plans_of_two_flights_are_judged(rt: HostRuntime) -> Result<(), Fail> {
    each_plan_ends_so(
        &rt,
        rt.alloc(),
        &[
            // the planner's report, also where its first line says something else
            ("optimal 120\nA1: F1 F2\n", 0, "legal 120\n"),
            ("optimal 5\nA1: F1 F2\n", 0, "legal 120\n"),
            ("limit 7 120\nA1: F1 F2\n", 0, "legal 120\n"),
            // the flights the wrong way round
            (
                "optimal 120\nA1: F2 F1\n",
                1,
                "broken 2\nnolink A1 F2\nnolink A1 F1\n",
            ),
            // an id that nothing has, and one that was there before
            (
                "optimal 120\nA1: F1 F9 F1\n",
                1,
                "broken 3\nunknown F9\ntwice F1\nuncovered F2\n",
            ),
            // an aircraft that nothing has, and one that was there before: their ids are dropped
            (
                "optimal 120\nA9: F1 F8\nA1: F1 F2\n",
                1,
                "broken 1\nunknown A9\n",
            ),
            (
                "optimal 120\nA1: F1\nA1: F2 F8\n",
                1,
                "broken 2\ntwice A1\nuncovered F2\n",
            ),
            // no aircraft has a line
            ("optimal 0\n", 1, "broken 2\nuncovered F1\nuncovered F2\n"),
        ],
    )
}

// Counters, with and without a reset, and what a wait costs.
#[test]
fn counters_are_judged(rt: HostRuntime) -> Result<(), Fail> {
    each_row_ends_so(
        &rt,
        rt.alloc(),
        &[
            (
                FOUR_FLIGHTS,
                ONE_AT_ARLANDA,
                TWO_HOURS,
                "optimal 1\nA1: F1 F2 F3 F4\n",
                0,
                "legal 240\n",
            ),
            (
                FOUR_TOO_CLOSE,
                ONE_AT_ARLANDA,
                TWO_HOURS,
                "optimal 1\nA1: F1 F2 F3 F4\n",
                1,
                "broken 2\ncounter A1 F3 fh\ncounter A1 F4 fh\n",
            ),
            (
                WITH_A_STOP,
                TWO_AT_ARLANDA,
                THREE_LANDINGS,
                "optimal 1\nA1: F1 F2 F5 F6\nA2: G1\n",
                0,
                "legal 740\n",
            ),
            (
                WITH_A_STOP,
                TWO_AT_ARLANDA,
                THREE_LANDINGS,
                "optimal 1\nA1: F1 F2 G1 F5 F6\nA2:\n",
                1,
                "broken 1\ncounter A1 F6 ldg\n",
            ),
            (
                CHECK_IN_OSLO,
                "A1,P,OSL,2025-03-03T00:00,7,,,chk=1000\n",
                DAILY_CHECK,
                "optimal 1\nA1: G1 F1\n",
                0,
                "legal 74\n",
            ),
        ],
    )
}

// Who may fly what, and what it costs.
#[test]
fn aircraft_are_judged(rt: HostRuntime) -> Result<(), Fail> {
    each_row_ends_so(
        &rt,
        rt.alloc(),
        &[
            (
                AT_ONCE,
                CHEAP_AND_DEAR,
                DEAR_TYPE,
                "optimal 240\nA1: F2\nA2: F1\n",
                0,
                "legal 240\n",
            ),
            // legal, though another plan costs less
            (
                AT_ONCE,
                CHEAP_AND_DEAR,
                DEAR_TYPE,
                "optimal 240\nA2: F2\nA1: F1\n",
                0,
                "legal 300\n",
            ),
            (
                ONE_EACH,
                TWO_AT_ARLANDA,
                "",
                "optimal 1\nA1: FA\nA2: FB\n",
                1,
                "broken 2\nnotallowed A1 FA\nnotallowed A2 FB\n",
            ),
            (
                ONE_EACH,
                TWO_AT_ARLANDA,
                "",
                "optimal 1\nA1: FB\nA2: FA\n",
                0,
                "legal 120\n",
            ),
            // two aircraft with nothing to fly, and no aircraft at all
            (
                "",
                TWO_AT_ARLANDA,
                "",
                "optimal 0\nA1:\nA2:\n",
                0,
                "legal 0\n",
            ),
            ("", "", "", "optimal 0\n", 0, "legal 0\n"),
            (
                THERE_AND_BACK,
                "",
                "",
                "optimal 0\n",
                1,
                "broken 2\nuncovered F1\nuncovered F2\n",
            ),
        ],
    )
}

// An aircraft in Oslo.
const ONE_AT_OSLO: &str = "A1,P,OSL,2025-03-03T00:00,0,,,\n";

// The plan by which it flies.
const FLOWN: &str = "optimal 1\nA1: F1\n";

// A landing at Arlanda a minute before the night, at its start, in its last minute, and at its end.
#[test]
fn curfews_are_judged(rt: HostRuntime) -> Result<(), Fail> {
    each_row_ends_so(
        &rt,
        rt.alloc(),
        &[
            (
                "F1,flight,OSL,ARN,2025-03-03T20:59,2025-03-03T21:59,,,,\n",
                ONE_AT_OSLO,
                NIGHT,
                FLOWN,
                0,
                "legal 60\n",
            ),
            (
                "F1,flight,OSL,ARN,2025-03-03T21:00,2025-03-03T22:00,,,,\n",
                ONE_AT_OSLO,
                NIGHT,
                FLOWN,
                1,
                "broken 1\ncurfew A1 F1\n",
            ),
            (
                "F1,flight,OSL,ARN,2025-03-03T03:59,2025-03-03T04:59,,,,\n",
                ONE_AT_OSLO,
                NIGHT,
                FLOWN,
                1,
                "broken 1\ncurfew A1 F1\n",
            ),
            (
                "F1,flight,OSL,ARN,2025-03-03T04:00,2025-03-03T05:00,,,,\n",
                ONE_AT_OSLO,
                NIGHT,
                FLOWN,
                0,
                "legal 60\n",
            ),
        ],
    )
}
