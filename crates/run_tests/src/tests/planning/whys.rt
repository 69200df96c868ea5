//! Why no plan is legal: what is told of books without one, that a plan is legal where one is, and what is refused, and when.

use super::{ends_over, push_text, seen_over};
use small_texts::{
    AT_ONCE, FLEET, LONGER_TURN, ONE_AT_ARLANDA, RULES, THERE_AND_BACK, TIMETABLE, TWO_AT_ARLANDA,
    table_files,
};
use std::alloc::Global;
use std::test::Fail;
use tail_outside::MemFile;

const WORDS: &[&str] = &["tailplan", "why", "t", "f", "r"];

const USAGE: &str = "usage: tailplan why TIMETABLE FLEET RULES\n";

// Records, aircraft and rules, and the status and the text with which it ends to ask why no plan of them is legal.
type Row<'a> = (&'a str, &'a str, &'a [&'a str], u8, &'a str);

// A flight to Oslo, and two back from there.
const TWO_BACK: &str = "F1,flight,ARN,OSL,2025-03-03T06:00,2025-03-03T07:00,,,,\n\
F2,flight,OSL,ARN,2025-03-03T08:00,2025-03-03T09:00,,,,\n\
F3,flight,OSL,ARN,2025-03-03T10:00,2025-03-03T11:00,,,,\n";

// Three flights of two hours or more, and four of which the last two are shorter.
const THREE_LONG: &str = "F1,flight,ARN,ARN,2025-03-03T06:00,2025-03-03T08:20,,,,\n\
F2,flight,ARN,ARN,2025-03-03T09:00,2025-03-03T11:00,,,,\n\
F3,flight,ARN,ARN,2025-03-03T12:00,2025-03-03T14:00,,,,\n";

const TWO_LONG: &str = "F1,flight,ARN,ARN,2025-03-03T06:00,2025-03-03T08:20,,,,\n\
F2,flight,ARN,ARN,2025-03-03T09:00,2025-03-03T11:00,,,,\n\
F3,flight,ARN,ARN,2025-03-03T12:00,2025-03-03T13:20,,,,\n\
F4,flight,ARN,ARN,2025-03-03T14:00,2025-03-03T15:20,,,,\n";

// Two hundred minutes for each aircraft, which nothing clears.
const FEW_MINUTES: &str =
    "[[counter]]\nname = \"fh\"\nkind = \"minutes\"\nlimit = 200\nbases = []\nstop = 480\n";

const ROWS: &[Row<'_>] = &[
    (THERE_AND_BACK, ONE_AT_ARLANDA, &[RULES], 0, "feasible\n"),
    // a turn that is a minute too short
    (
        THERE_AND_BACK,
        ONE_AT_ARLANDA,
        &[LONGER_TURN],
        1,
        "infeasible\nbecause alone F2\nasked F2\nat most 0\n",
    ),
    // more leaves Oslo than comes in there
    (
        TWO_BACK,
        TWO_AT_ARLANDA,
        &[RULES],
        1,
        "infeasible\nbecause airport OSL until 2025-03-03T10:00\nasked F2 F3\nbrought F1\nat most 0\n",
    ),
    // two flights at once for one aircraft
    (
        AT_ONCE,
        ONE_AT_ARLANDA,
        &[RULES],
        1,
        "infeasible\nbecause crowd 2025-03-03T06:00 2025-03-03T08:00\nasked F1 F2\nat most 1: A1 1\n",
    ),
    (AT_ONCE, TWO_AT_ARLANDA, &[RULES], 0, "feasible\n"),
    // each aircraft has the minutes of one flight
    (
        THREE_LONG,
        TWO_AT_ARLANDA,
        &[RULES, FEW_MINUTES],
        1,
        "infeasible\nbecause counter fh\nasked F1 F2 F3\nat most 2: A1 1, A2 1\n",
    ),
    // 420 minutes are more than both have, but either can fly any two of the shorter flights: the fullest route has F2 and F3,
    // and the other aircraft flies F1
    (
        TWO_LONG,
        TWO_AT_ARLANDA,
        &[RULES, FEW_MINUTES],
        1,
        "infeasible\nbecause nothing short\nuncovered F4\n",
    ),
    // a table that is no table
    (
        "F1\n",
        ONE_AT_ARLANDA,
        &[RULES],
        3,
        "refused 4 timetable 2\n",
    ),
    (THERE_AND_BACK, "A1\n", &[RULES], 3, "refused 4 fleet 2\n"),
];

// The three files of a row.
fn files_for(alloc: Global, row: &Row<'_>) -> Result<Vec<MemFile>, Fail> {
    let &(records, aircraft, rules, _, _) = row;
    table_files(alloc, &[TIMETABLE, records], &[FLEET, aircraft], rules)
}

fn is_told_so(alloc: Global, row: &Row<'_>) -> Result<bool, Fail> {
    let files = files_for(alloc, row)?;
    ends_over(alloc, WORDS, files, row.3, row.4)
}

#[test]
fn it_is_told_why(rt: HostRuntime) -> Result<(), Fail> {
    for (number, row) in ROWS.iter().enumerate() {
        assert!(rt; is_told_so(rt.alloc(), row)?, "row {number}");
    }
    Ok(())
}

// Exactly three names stand behind the word, and no option; a timetable of that name is written as a path.
#[test]
fn words_that_ask_why_are_read(rt: HostRuntime) -> Result<(), Fail> {
    let rows: &[&[&str]] = &[
        &["tailplan", "why"],
        &["tailplan", "why", "t", "f"],
        &["tailplan", "why", "t", "f", "r", "x"],
        &["tailplan", "why", "t", "f", "r", "--best"],
    ];
    for &words in rows {
        let files = Vec::new(rt.alloc());
        assert!(rt; ends_over(rt.alloc(), words, files, 2, USAGE)?, "{words:?}");
    }
    let mut files = files_for(rt.alloc(), &ROWS[0])?;
    push_text(
        rt.alloc(),
        &mut files,
        "./why",
        &[TIMETABLE, THERE_AND_BACK],
    )?;
    assert!(rt;
        ends_over(
            rt.alloc(),
            &["tailplan", "./why", "f", "r"],
            files,
            0,
            "optimal 120\nA1: F1 F2\n",
        )?
    );
    Ok(())
}

// Each file takes two reads, its bytes and its end; a piece of what is printed that fails ends the run.
#[test]
fn faults_end_the_question(rt: HostRuntime) -> Result<(), Fail> {
    for &(read, put, status, printed) in &[
        (1, 0, 5, ""),
        (6, 0, 5, ""),
        (7, 0, 0, "feasible\n"),
        (0, 1, 6, ""),
        (0, 2, 0, "feasible\n"),
    ] {
        let files = files_for(rt.alloc(), &ROWS[0])?;
        let seen = seen_over(rt.alloc(), WORDS, files, &[read], &[put])?;
        assert!(rt; seen.is(status, printed), "{read} {put}: {seen:?}");
    }
    Ok(())
}
