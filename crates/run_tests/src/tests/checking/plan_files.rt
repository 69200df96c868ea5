//! Plan files that are refused.

use super::fixtures::{assert_ends_so, by_plan, each_plan_ends_so, ends_so_over, legal_run};
use small_texts::{
    FLEET, ONE_AT_ARLANDA, RULES, THERE_AND_BACK, TIMETABLE, Typed, file_of, table_files, text_of,
};
use std::alloc::{AllocError, Global};
use std::process::Abort;
use std::test::Fail;
use tail_outside::MemFile;

// Each refusal at its line.
#[test]
fn plan_files_are_refused_at_their_place(rt: HostRuntime) -> Result<(), Fail> {
    each_plan_ends_so(
        &rt,
        rt.alloc(),
        &[
            ("infeasible\n", 3, "refused 3 plan 1\n"),
            ("", 3, "refused 3 plan 1\n"),
            ("\n", 3, "refused 3 plan 1\n"),
            ("optimal 120", 3, "refused 3 plan 1\n"),
            ("optimal 0120\nA1: F1 F2\n", 3, "refused 3 plan 1\n"),
            ("optimal  120\nA1: F1 F2\n", 3, "refused 3 plan 1\n"),
            ("limit 5 -\n", 3, "refused 3 plan 1\n"),
            ("legal 120\n", 3, "refused 3 plan 1\n"),
            (
                "optimal 18446744073709551616\nA1: F1 F2\n",
                3,
                "refused 3 plan 1\n",
            ),
            ("optimal 120\nA1 F1 F2\n", 3, "refused 4 plan 2\n"),
            ("optimal 120\nA1:F1 F2\n", 3, "refused 4 plan 2\n"),
            ("optimal 120\nA1: F1  F2\n", 3, "refused 4 plan 2\n"),
            ("optimal 120\nA1: F1 F2 \n", 3, "refused 4 plan 2\n"),
            ("optimal 120\nA1: F1 F2", 3, "refused 4 plan 2\n"),
            ("optimal 120\n\nA1: F1 F2\n", 3, "refused 4 plan 2\n"),
            ("optimal 120\r\nA1: F1 F2\r\n", 3, "refused 3 plan 1\n"),
            ("optimal 120\nA1: F1 F2\nÅ2:\n", 3, "refused 4 plan 3\n"),
            ("optimal 120\nA1: F1 F2\n:\n", 3, "refused 4 plan 3\n"),
        ],
    )
}

// The largest cost is read, and so is a plan behind a byte order mark.
#[test]
fn odd_plan_files_are_read(rt: HostRuntime) -> Result<(), Fail> {
    each_plan_ends_so(
        &rt,
        rt.alloc(),
        &[
            (
                "optimal 18446744073709551615\nA1: F1 F2\n",
                0,
                "legal 120\n",
            ),
            (
                "limit 0 18446744073709551615\nA1: F1 F2\n",
                0,
                "legal 120\n",
            ),
            ("\u{feff}optimal 120\nA1: F1 F2\n", 0, "legal 120\n"),
        ],
    )
}

fn repeat(text: &mut Vec<u8>, part: &str, times: usize) -> Result<(), AllocError> {
    for _ in 0..times {
        text.extend_from_slice(part.as_bytes())?;
    }
    Ok(())
}

// A plan file of a head, a part so many times, and an end.
fn plan_of(
    alloc: Global,
    head: &str,
    part: &str,
    times: usize,
    end: &str,
) -> Result<MemFile, Fail> {
    let mut text = text_of(alloc, &[head])?;
    repeat(&mut text, part, times)?;
    repeat(&mut text, end, 1)?;
    file_of(alloc, "p", text)
}

// Whether the plan file of two flights and these aircraft is refused so.
fn is_refused_so(
    alloc: Global,
    aircraft: &str,
    plan: MemFile,
    printed: &str,
) -> Result<bool, Fail> {
    let tables = [TIMETABLE, THERE_AND_BACK];
    let mut files = table_files(alloc, &tables, &[FLEET, aircraft], &[RULES])?;
    files.push(plan)?;
    ends_so_over(alloc, &legal_run(3, printed), files)
}

// A plan file may have 200 lines under the first one and 4,000 ids in a line.
#[test]
fn plan_files_have_limits(rt: HostRuntime) -> Result<(), Fail> {
    for &(head, part, times, end, printed) in &[
        (
            "optimal 120\n",
            "A9: F1\n",
            200,
            "?\n",
            "refused 10 plan 202\n",
        ),
        (
            "optimal 120\nA1:",
            " F1",
            4_001,
            "\n",
            "refused 10 plan 2\n",
        ),
    ] {
        let plan = plan_of(rt.alloc(), head, part, times, end)?;
        assert!(rt;
            is_refused_so(rt.alloc(), ONE_AT_ARLANDA, plan, printed)?,
            "{printed}"
        );
    }
    Ok(())
}

// The same of a file of newlines that is one byte too big.
fn is_big_refused_so(alloc: Global, aircraft: &str, printed: &str) -> Result<bool, Fail> {
    let plan = file_of(alloc, "p", vec![in alloc; b'\n'; 16_777_217]?)?;
    is_refused_so(alloc, aircraft, plan, printed)
}

// A plan file of one byte more than it may have is refused, whatever it says; but a fleet's refusal comes first.
#[test]
fn a_plan_file_may_be_too_big(rt: HostRuntime) -> Result<(), Fail> {
    let alloc = rt.alloc();
    assert!(rt; is_big_refused_so(alloc, ONE_AT_ARLANDA, "refused 1 plan 0\n")?);
    assert!(rt; is_big_refused_so(alloc, "A1,P,ARN\n", "refused 4 fleet 2\n")?);
    Ok(())
}

// A flight that lands when it starts.
const LATE: &str = "F1,flight,ARN,OSL,2025-03-03T07:00,2025-03-03T07:00,,,,\n";

// A flight to an airport that the rules don't have.
const UNKNOWN: &str = "F1,flight,ARN,LHR,2025-03-03T06:00,2025-03-03T07:00,,,,\n";

// An aircraft twice.
const TWICE: &str = "A1,P,ARN,2025-03-03T05:00,0,,,\nA1,P,ARN,2025-03-03T05:00,0,,,\n";

// Records, aircraft, the whole rules, and what is printed.
type TablesRow<'a> = (&'a str, &'a str, &'a str, &'a str);

// Asserts that a run over each row and a file that holds no plan is refused so.
fn each_is_refused_so(rt: &impl Abort, alloc: Global, rows: &[TablesRow<'_>]) -> Result<(), Fail> {
    for &(records, aircraft, rules, printed) in rows {
        let typed = Typed {
            timetable: &[TIMETABLE, records],
            fleet: &[FLEET, aircraft],
            rules: &[rules],
            judged: &["infeasible\n"],
        };
        assert_ends_so(rt, alloc, &by_plan(typed, 3, printed))?;
    }
    Ok(())
}

// The refusal of a table comes before that of the plan's file, also where names alone are at fault.
#[test]
fn tables_are_refused_before_the_plan(rt: HostRuntime) -> Result<(), Fail> {
    each_is_refused_so(
        &rt,
        rt.alloc(),
        &[
            (LATE, ONE_AT_ARLANDA, RULES, "refused 7 timetable 2\n"),
            (UNKNOWN, ONE_AT_ARLANDA, RULES, "refused 12 timetable 2\n"),
            (THERE_AND_BACK, TWICE, RULES, "refused 11 fleet 3\n"),
            (
                THERE_AND_BACK,
                ONE_AT_ARLANDA,
                "[[type",
                "refused 13 rules 0\n",
            ),
            (THERE_AND_BACK, ONE_AT_ARLANDA, RULES, "refused 3 plan 1\n"),
        ],
    )
}
