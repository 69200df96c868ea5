//! Runs on texts, each with how it has to end.

use crate::tests::runs::{Program, seen_over};
use small_texts::{
    FLEET, LEGAL, ONE_AT_ARLANDA, RULES, THERE_AND_BACK, TIMETABLE, Typed, files_of,
};
use std::alloc::Global;
use std::process::Abort;
use std::test::Fail;
use tail_outside::MemFile;

/// A run: its words, the texts of its files, the calls of the files and of the sink that fail, and how it ends.
#[derive(Clone, Copy, Debug)]
pub struct Case<'a> {
    pub words: &'a [&'a str],
    pub typed: Typed<'a>,
    pub reads: &'a [u64],
    pub puts: &'a [u64],
    pub status: u8,
    pub printed: &'a str,
}

/// A run by a plan: the words name the four files, the last as a plan, and no call fails.
pub fn by_plan<'a>(typed: Typed<'a>, status: u8, printed: &'a str) -> Case<'a> {
    Case {
        words: &["tailcheck", "t", "f", "r", "--plan", "p"],
        typed,
        reads: &[],
        puts: &[],
        status,
        printed,
    }
}

/// A run by a legal plan of two flights.
pub fn legal_run<'a>(status: u8, printed: &'a str) -> Case<'a> {
    by_plan(LEGAL, status, printed)
}

/// A run by a certificate: the words name the four files, the last as a certificate, and no call fails.
pub fn by_certificate<'a>(typed: Typed<'a>, status: u8, printed: &'a str) -> Case<'a> {
    Case {
        words: &["tailcheck", "t", "f", "r", "--cert", "p"],
        ..by_plan(typed, status, printed)
    }
}

/// Records, aircraft, the rules behind the usual ones, a plan, and how a run over them ends.
pub type Row<'a> = (&'a str, &'a str, &'a str, &'a str, u8, &'a str);

/// A plan of a flight to Oslo and one back by one aircraft, and how a run over it ends.
pub type PlanRow<'a> = (&'a str, u8, &'a str);

/// Whether the run over these files, in place of those of its texts, ends so.
pub fn ends_so_over(alloc: Global, case: &Case<'_>, files: Vec<MemFile>) -> Result<bool, Fail> {
    let seen = seen_over(
        alloc,
        Program::Checker,
        case.words,
        files,
        case.reads,
        case.puts,
    )?;
    Ok(seen.is(case.status, case.printed))
}

/// Asserts that the run ends so.
pub fn assert_ends_so(rt: &impl Abort, alloc: Global, case: &Case<'_>) -> Result<(), Fail> {
    let files = files_of(alloc, case.typed)?;
    assert!(rt; ends_so_over(alloc, case, files)?, "{case:?}");
    Ok(())
}

// Asserts that a run over this row ends so.
fn assert_row_ends_so<'a>(
    rt: &impl Abort,
    alloc: Global,
    (records, aircraft, more_rules, plan, status, printed): Row<'a>,
) -> Result<(), Fail> {
    let typed = Typed {
        timetable: &[TIMETABLE, records],
        fleet: &[FLEET, aircraft],
        rules: &[RULES, more_rules],
        judged: &[plan],
    };
    assert_ends_so(rt, alloc, &by_plan(typed, status, printed))
}

/// Asserts that a run over each row ends so.
pub fn each_row_ends_so(rt: &impl Abort, alloc: Global, rows: &[Row<'_>]) -> Result<(), Fail> {
    for &row in rows {
        assert_row_ends_so(rt, alloc, row)?;
    }
    Ok(())
}

/// Asserts that a run over each plan ends so.
pub fn each_plan_ends_so(rt: &impl Abort, alloc: Global, rows: &[PlanRow<'_>]) -> Result<(), Fail> {
    for &(plan, status, printed) in rows {
        let row = (THERE_AND_BACK, ONE_AT_ARLANDA, "", plan, status, printed);
        assert_row_ends_so(rt, alloc, row)?;
    }
    Ok(())
}
