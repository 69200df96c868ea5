//! Plans under quotas: the least plan among those that keep them, or that none does; what is refused, and when.

use super::{ends_over, push_file, push_text, seen_over};
use crate::tests::runs::{self, Program};
use small_texts::{
    FLEET, ONE_AT_ARLANDA, RULES, THERE_AND_BACK, TIMETABLE, Typed, WEEK_AIRCRAFT, WEEK_RULES,
    files_of, table_files, week_records,
};
use std::alloc::Global;
use std::test::Fail;
use tail_outside::MemFile;

const WORDS: &[&str] = &["tailplan", "quota", "t", "f", "r", "p"];

const USAGE: &str = "usage: tailplan quota TIMETABLE FLEET RULES QUOTAS\n";

const QUOTAS: &str = "airport,day,below,most\n";

// Records, aircraft, a table of quotas, and the status and the text with which a run under them ends.
type Row<'a> = (&'a str, &'a str, &'a [&'a str], u8, &'a str);

// A second aircraft, which waits in Oslo and costs five to use.
const ONE_IN_OSLO: &str = "A1,P,ARN,2025-03-03T05:00,0,,,\nA2,P,OSL,2025-03-03T05:00,5,,,\n";

// Seventeen quotas for Oslo.
const SEVENTEEN: &str = "OSL,2025-03-03,31,0\nOSL,2025-03-03,31,0\nOSL,2025-03-03,31,0\n\
OSL,2025-03-03,31,0\nOSL,2025-03-03,31,0\nOSL,2025-03-03,31,0\nOSL,2025-03-03,31,0\n\
OSL,2025-03-03,31,0\nOSL,2025-03-03,31,0\nOSL,2025-03-03,31,0\nOSL,2025-03-03,31,0\n\
OSL,2025-03-03,31,0\nOSL,2025-03-03,31,0\nOSL,2025-03-03,31,0\nOSL,2025-03-03,31,0\n\
OSL,2025-03-03,31,0\nOSL,2025-03-03,31,0\n";

// Two flights with half an hour in Oslo between them.
const ROWS: &[Row<'_>] = &[
    (
        THERE_AND_BACK,
        ONE_AT_ARLANDA,
        &[QUOTAS],
        0,
        "optimal 120\nA1: F1 F2\n",
    ),
    // one aircraft alone can't but turn there
    (
        THERE_AND_BACK,
        ONE_AT_ARLANDA,
        &[QUOTAS, "OSL,2025-03-03,31,0\n"],
        1,
        "infeasible\n",
    ),
    // half an hour is not below half an hour
    (
        THERE_AND_BACK,
        ONE_AT_ARLANDA,
        &[QUOTAS, "OSL,2025-03-03,30,0\n"],
        0,
        "optimal 120\nA1: F1 F2\n",
    ),
    // with a second aircraft the flights are shared, which costs five more
    (
        THERE_AND_BACK,
        ONE_IN_OSLO,
        &[QUOTAS, "OSL,2025-03-03,31,0\n"],
        0,
        "optimal 125\nA1: F1\nA2: F2\n",
    ),
    (
        THERE_AND_BACK,
        ONE_IN_OSLO,
        &[QUOTAS, "OSL,2025-03-03,31,1\n"],
        0,
        "optimal 120\nA1: F1 F2\nA2:\n",
    ),
    // other airports and other days have their own
    (
        THERE_AND_BACK,
        ONE_AT_ARLANDA,
        &[QUOTAS, "ARN,2025-03-03,31,0\nOSL,2025-03-04,31,0\n"],
        0,
        "optimal 120\nA1: F1 F2\n",
    ),
    (
        THERE_AND_BACK,
        ONE_AT_ARLANDA,
        &[QUOTAS, "XXX,2025-03-03,31,0\n"],
        3,
        "refused 12 quotas 2\n",
    ),
    (
        THERE_AND_BACK,
        ONE_AT_ARLANDA,
        &[QUOTAS, "OSL,2025-02-30,31,0\n"],
        3,
        "refused 6 quotas 2\n",
    ),
    (
        THERE_AND_BACK,
        ONE_AT_ARLANDA,
        &[QUOTAS, "OSL,2025-03-03,31,4001\n"],
        3,
        "refused 9 quotas 2\n",
    ),
    // fifty quotas are read, and no more
    (
        THERE_AND_BACK,
        ONE_AT_ARLANDA,
        &[QUOTAS, SEVENTEEN, SEVENTEEN, SEVENTEEN],
        3,
        "refused 10 quotas 52\n",
    ),
    // a table is refused before the quotas are
    (
        "F1\n",
        ONE_AT_ARLANDA,
        &["infeasible\n"],
        3,
        "refused 4 timetable 2\n",
    ),
    (
        THERE_AND_BACK,
        ONE_AT_ARLANDA,
        &["infeasible\n"],
        3,
        "refused 3 quotas 1\n",
    ),
];

// The four files of a row.
fn files_for(alloc: Global, row: &Row<'_>) -> Result<Vec<MemFile>, Fail> {
    let &(records, aircraft, quotas, _, _) = row;
    files_of(
        alloc,
        Typed {
            timetable: &[TIMETABLE, records],
            fleet: &[FLEET, aircraft],
            rules: &[RULES],
            judged: quotas,
        },
    )
}

fn is_planned_so(alloc: Global, row: &Row<'_>) -> Result<bool, Fail> {
    let files = files_for(alloc, row)?;
    ends_over(alloc, WORDS, files, row.3, row.4)
}

#[test]
fn plans_keep_quotas(rt: HostRuntime) -> Result<(), Fail> {
    for (number, row) in ROWS.iter().enumerate() {
        assert!(rt; is_planned_so(rt.alloc(), row)?, "row {number}");
    }
    Ok(())
}

// Words, the call of the files and the one of the sink that fail, and the status and the text with which the run ends. Exactly four
// names stand behind the word, and no option; a timetable of that name is written as a path. Each file takes two reads, its bytes
// and its end, the quotas last.
const ENDS: &[(&[&str], u64, u64, u8, &str)] = &[
    (&["tailplan", "quota"], 0, 0, 2, USAGE),
    (&["tailplan", "quota", "t", "f", "r"], 0, 0, 2, USAGE),
    (
        &["tailplan", "quota", "t", "f", "r", "p", "p"],
        0,
        0,
        2,
        USAGE,
    ),
    (
        &["tailplan", "quota", "t", "f", "r", "p", "--best"],
        0,
        0,
        2,
        USAGE,
    ),
    (
        &["tailplan", "./quota", "f", "r"],
        0,
        0,
        0,
        "optimal 120\nA1: F1 F2\n",
    ),
    (&["tailplan", "quota", "t", "f", "r", "x"], 0, 0, 5, ""),
    (&["tailplan", "quota", "x", "f", "r", "p"], 0, 0, 5, ""),
    (WORDS, 7, 0, 5, ""),
    (WORDS, 8, 0, 5, ""),
    (WORDS, 9, 0, 0, "optimal 120\nA1: F1 F2\n"),
    (WORDS, 0, 1, 6, ""),
    (WORDS, 0, 2, 6, "optimal 120\n"),
    (WORDS, 0, 3, 0, "optimal 120\nA1: F1 F2\n"),
];

#[test]
fn runs_under_quotas_end_so(rt: HostRuntime) -> Result<(), Fail> {
    for &(words, read, put, status, printed) in ENDS {
        let mut files = files_for(rt.alloc(), &ROWS[0])?;
        push_text(
            rt.alloc(),
            &mut files,
            "./quota",
            &[TIMETABLE, THERE_AND_BACK],
        )?;
        let seen = seen_over(rt.alloc(), words, files, &[read], &[put])?;
        assert!(rt;
            seen.is(status, printed),
            "{words:?} {read} {put}: {seen:?}"
        );
    }
    Ok(())
}

// Oslo takes six short turns on the first day. So the week costs no more than without the quota, and what is printed is legal.
#[test]
fn the_week_keeps_a_quota(rt: HostRuntime) -> Result<(), Fail> {
    let alloc = rt.alloc();
    let records = week_records(alloc)?;
    let files = files_of(
        alloc,
        Typed {
            timetable: &[TIMETABLE, &records],
            fleet: &[FLEET, WEEK_AIRCRAFT],
            rules: &[WEEK_RULES],
            judged: &[QUOTAS, "OSL,2025-03-03,31,6\n"],
        },
    )?;
    let seen = seen_over(alloc, WORDS, files, &[], &[])?;
    let begins = seen.printed.starts_with(b"optimal 86400\nA1:".as_slice());
    assert!(rt; seen.status == 0 && begins, "{seen:?}");
    let mut files = table_files(
        alloc,
        &[TIMETABLE, &records],
        &[FLEET, WEEK_AIRCRAFT],
        &[WEEK_RULES],
    )?;
    push_file(alloc, &mut files, "p", seen.printed)?;
    let judged = runs::seen_over(
        alloc,
        Program::Checker,
        &["tailcheck", "t", "f", "r", "--plan", "p"],
        files,
        &[],
        &[],
    )?;
    assert!(rt; judged.is(0, "legal 86400\n"), "{judged:?}");
    Ok(())
}
