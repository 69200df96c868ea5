//! Reads and writes that fail.

use super::fixtures::{Case, assert_ends_so, by_plan, legal_run};
use small_texts::{BROKEN, LEGAL, MISSING, NO_PLAN, Typed};
use std::alloc::Global;
use std::process::Abort;
use std::test::Fail;

// Which put fails, and how a run ends.
type PutRow<'a> = (u64, u8, &'a str);

fn each_put_ends_so<'a>(
    rt: &impl Abort,
    alloc: Global,
    typed: Typed<'a>,
    rows: &[PutRow<'a>],
) -> Result<(), Fail> {
    for &(put, status, printed) in rows {
        let case = Case {
            puts: &[put],
            ..by_plan(typed, status, printed)
        };
        assert_ends_so(rt, alloc, &case)?;
    }
    Ok(())
}

// A write that fails ends the run with what was printed before it.
#[test]
fn a_failed_write_ends_a_run(rt: HostRuntime) -> Result<(), Fail> {
    let alloc = rt.alloc();
    each_put_ends_so(&rt, alloc, LEGAL, &[(1, 6, ""), (2, 0, "legal 120\n")])?;
    each_put_ends_so(
        &rt,
        alloc,
        BROKEN,
        &[
            (1, 6, ""),
            (2, 6, "broken 3\n"),
            (3, 6, "broken 3\nunknown F9\n"),
            (4, 6, "broken 3\nunknown F9\ntwice F1\n"),
            (5, 1, "broken 3\nunknown F9\ntwice F1\nuncovered F2\n"),
        ],
    )?;
    each_put_ends_so(
        &rt,
        alloc,
        NO_PLAN,
        &[(1, 6, ""), (2, 3, "refused 3 plan 1\n")],
    )?;
    let usage = Case {
        words: &["tailcheck"],
        puts: &[1],
        ..legal_run(6, "")
    };
    assert_ends_so(&rt, alloc, &usage)
}

// Each file is read in two calls, of which the second finds its end. Whichever of them fails, nothing is printed, also
// where a table or the plan's file would be refused.
#[test]
fn a_failed_read_ends_a_run(rt: HostRuntime) -> Result<(), Fail> {
    for call in 1..9 {
        for &typed in &[LEGAL, NO_PLAN] {
            let case = Case {
                reads: &[call],
                ..by_plan(typed, 5, "")
            };
            assert_ends_so(&rt, rt.alloc(), &case)?;
        }
    }
    let case = Case {
        reads: &[9],
        ..legal_run(0, "legal 120\n")
    };
    assert_ends_so(&rt, rt.alloc(), &case)
}

// A file that isn't there can't be read, even where a table is bad: the plan's file is no timetable.
#[test]
fn a_missing_file_ends_a_run(rt: HostRuntime) -> Result<(), Fail> {
    for &(timetable, fleet, rules, plan) in &MISSING {
        let case = Case {
            words: &["tailcheck", timetable, fleet, rules, "--plan", plan],
            ..legal_run(5, "")
        };
        assert_ends_so(&rt, rt.alloc(), &case)?;
    }
    Ok(())
}
