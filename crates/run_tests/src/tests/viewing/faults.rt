//! Reads and writes that fail.

use super::fixtures::{WORDS, run_failing};
use small_texts::{BROKEN, LEGAL, MISSING, NO_PLAN, files_of};
use std::test::Fail;

// A write that fails ends a run, whichever line it is that of.
#[test]
fn a_failed_write_ends_a_run(rt: HostRuntime) -> Result<(), Fail> {
    for &(typed, put, status, printed) in &[
        (LEGAL, 1, 6, ""),
        (NO_PLAN, 1, 6, ""),
        (NO_PLAN, 2, 3, "refused 3 plan 1\n"),
    ] {
        let files = files_of(rt.alloc(), typed)?;
        let seen = run_failing(rt.alloc(), &WORDS, files, &[], &[put])?;
        assert!(rt; seen.is(status, printed), "{put} {printed}");
    }
    for &(put, status) in &[(2, 6), (10, 6), (1000, 1)] {
        let files = files_of(rt.alloc(), BROKEN)?;
        let seen = run_failing(rt.alloc(), &WORDS, files, &[], &[put])?;
        assert!(rt; seen.has(status, "<svg xmlns"), "{put}");
    }
    Ok(())
}

// Each file is read in two calls, of which the second finds its end. Whichever of them fails, nothing is printed, also
// where a table or the plan's file would be refused.
#[test]
fn a_failed_read_ends_a_run(rt: HostRuntime) -> Result<(), Fail> {
    for call in 1..9 {
        for &typed in &[LEGAL, NO_PLAN] {
            let files = files_of(rt.alloc(), typed)?;
            let seen = run_failing(rt.alloc(), &WORDS, files, &[call], &[])?;
            assert!(rt; seen.is(5, ""), "{call}");
        }
    }
    let files = files_of(rt.alloc(), LEGAL)?;
    let seen = run_failing(rt.alloc(), &WORDS, files, &[9], &[])?;
    assert!(rt; seen.has(0, ">cost 120<"));
    Ok(())
}

// A file that isn't there can't be read, even where a table is bad: the plan's file is no timetable.
#[test]
fn a_missing_file_ends_a_run(rt: HostRuntime) -> Result<(), Fail> {
    for &(timetable, fleet, rules, plan) in &MISSING {
        let words = ["tailview", timetable, fleet, rules, "--plan", plan];
        let files = files_of(rt.alloc(), LEGAL)?;
        let seen = run_failing(rt.alloc(), &words, files, &[], &[])?;
        assert!(rt; seen.is(5, ""), "{timetable} {fleet} {rules} {plan}");
    }
    Ok(())
}
