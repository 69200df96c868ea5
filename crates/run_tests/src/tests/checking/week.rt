//! A week of 97 activities and six aircraft, the one of the example tables, with the plan that was made for it by hand.

use super::fixtures::{assert_ends_so, by_plan};
use small_texts::{FLEET, TIMETABLE, Typed, WEEK_AIRCRAFT, WEEK_RULES, week_records};
use std::alloc::Global;
use std::process::Abort;
use std::test::Fail;

// The route of the first aircraft, with the check between its first day and its second.
const FIRST_ROUTE: &str =
    "A1: D0R0O D0R0B D0R2O D0R2B D0R4O D0R4B G1 D3R0O D3R0B D3R2O D3R2B D3R4O D3R4B D5R0O D5R0B D5R2O D5R2B D5R4O D5R4B\n";

// The same without the check, so that the days since the last one run past their limit on the sixth day.
const FIRST_ROUTE_WITHOUT_CHECK: &str =
    "A1: D0R0O D0R0B D0R2O D0R2B D0R4O D0R4B D3R0O D3R0B D3R2O D3R2B D3R4O D3R4B D5R0O D5R0B D5R2O D5R2B D5R4O D5R4B\n";

// The routes of the others: on each day one aircraft flies the even rotations to Oslo and another the odd ones.
const OTHER_ROUTES: &str =
    "A2: D0R1O D0R1B D0R3O D0R3B D0R5O D0R5B D2R0O D2R0B D2R2O D2R2B D2R4O D2R4B D4R0O D4R0B D4R2O D4R2B D4R4O D4R4B\n\
A3: D1R0O D1R0B D1R2O D1R2B D1R4O D1R4B D3R1O D3R1B D3R3O D3R3B D3R5O D3R5B D5R1O D5R1B D5R3O D5R3B D5R5O D5R5B\n\
A4: D1R1O D1R1B D1R3O D1R3B D1R5O D1R5B D2R1O D2R1B D2R3O D2R3B D2R5O D2R5B D4R1O D4R1B D4R3O D4R3B D4R5O D4R5B\n\
A5: D0R6O D0R6B D1R6O D1R6B D2R6O D2R6B D3R6O D3R6B D4R6O D4R6B D5R6O D5R6B\n\
A6: D0R7O D0R7B D1R7O D1R7B D2R7O D2R7B D3R7O D3R7B D4R7O D4R7B D5R7O D5R7B\n";

// Asserts that a run over these records and the plan of these pieces ends so.
fn assert_is_judged_so<'a>(
    rt: &impl Abort,
    alloc: Global,
    records: &'a str,
    judged: &'a [&'a str],
    status: u8,
    printed: &'a str,
) -> Result<(), Fail> {
    let typed = Typed {
        timetable: &[TIMETABLE, records],
        fleet: &[FLEET, WEEK_AIRCRAFT],
        rules: &[WEEK_RULES],
        judged,
    };
    assert_ends_so(rt, alloc, &by_plan(typed, status, printed))
}

// The plan is legal and costs 43,200 for Oslo and as much for London, whatever its first line says. Without its check the
// first aircraft flies six legs too late.
#[test]
fn the_plan_of_the_week_is_judged(rt: HostRuntime) -> Result<(), Fail> {
    let records = week_records(rt.alloc())?;
    for &(first, route, status, printed) in &[
        ("optimal 86400\n", FIRST_ROUTE, 0, "legal 86400\n"),
        ("optimal 5\n", FIRST_ROUTE, 0, "legal 86400\n"),
        ("limit 5 86400\n", FIRST_ROUTE, 0, "legal 86400\n"),
        (
            "optimal 86400\n",
            FIRST_ROUTE_WITHOUT_CHECK,
            1,
            "broken 7\nuncovered G1\n\
counter A1 D5R0O chk\ncounter A1 D5R0B chk\ncounter A1 D5R2O chk\n\
counter A1 D5R2B chk\ncounter A1 D5R4O chk\ncounter A1 D5R4B chk\n",
        ),
    ] {
        let plan = [first, route, OTHER_ROUTES];
        assert_is_judged_so(&rt, rt.alloc(), &records, &plan, status, printed)?;
    }
    Ok(())
}
