//! Repairs of published plans: the fewest moves, and then the least cost; what is refused, and when.

use super::{ends_over, push_file, seen_over};
use small_texts::{
    AT_ONCE, CHEAP_AND_DEAR, DEAR_TYPE, FLEET, LONGER_TURN, ONE_AT_ARLANDA, RULES, THERE_AND_BACK,
    TIMETABLE, Typed, WEEK_AIRCRAFT, WEEK_RULES, files_of, text_of, week_records,
};
use std::alloc::Global;
use std::test::Fail;
use tail_outside::MemFile;

const WORDS: &[&str] = &["tailplan", "repair", "t", "f", "r", "p"];

const USAGE: &str = "usage: tailplan repair TIMETABLE FLEET RULES PLAN\n";

// Records, aircraft, rules, and a published plan, and the status and the text with which its repair ends.
type Row<'a> = (&'a str, &'a str, &'a [&'a str], &'a str, u8, &'a str);

// The two flights at once, of which the dear aircraft alone may fly the first.
const DEAR_ONE_FIRST: &str = "F1,flight,ARN,OSL,2025-03-03T06:00,2025-03-03T07:00,Q,,,\n\
F2,flight,ARN,OSL,2025-03-03T06:00,2025-03-03T08:00,,,,\n";

const BOTH: &[&str] = &[RULES, DEAR_TYPE];

// Two flights at once for a cheap aircraft and a dear one: as published they cost 300, and the other way round 240.
const ROWS: &[Row<'_>] = &[
    (
        AT_ONCE,
        CHEAP_AND_DEAR,
        BOTH,
        "optimal 300\nA1: F1\nA2: F2\n",
        0,
        "repaired 0 300\nA1: F1\nA2: F2\n",
    ),
    // what has no home is no move
    (
        AT_ONCE,
        CHEAP_AND_DEAR,
        BOTH,
        "optimal 300\nA1: F1\nA2:\n",
        0,
        "repaired 0 300\nA1: F1\nA2: F2\n",
    ),
    // among plans without a move the cheapest
    (
        AT_ONCE,
        CHEAP_AND_DEAR,
        BOTH,
        "optimal 300\nA1:\nA2:\n",
        0,
        "repaired 0 240\nA1: F2\nA2: F1\n",
    ),
    // the first flight may stay with its aircraft no longer
    (
        DEAR_ONE_FIRST,
        CHEAP_AND_DEAR,
        BOTH,
        "optimal 300\nA1: F1\nA2: F2\n",
        0,
        "repaired 2 240\nA1: F2\nA2: F1\n",
    ),
    // ids and aircraft that are gone, an id that stands twice, and an aircraft that has two lines
    (
        AT_ONCE,
        CHEAP_AND_DEAR,
        BOTH,
        "limit 0 300\nA9: F2\nA1: F7 F1\nA2: F1 F2\nA1: F2\n",
        0,
        "repaired 0 300\nA1: F1\nA2: F2\n",
    ),
    // a plan that was repaired is one that is published
    (
        AT_ONCE,
        CHEAP_AND_DEAR,
        BOTH,
        "repaired 0 300\nA1: F1\nA2: F2\n",
        0,
        "repaired 0 300\nA1: F1\nA2: F2\n",
    ),
    (
        AT_ONCE,
        CHEAP_AND_DEAR,
        BOTH,
        "infeasible\n",
        3,
        "refused 3 plan 1\n",
    ),
    (
        AT_ONCE,
        CHEAP_AND_DEAR,
        BOTH,
        "repaired 300\nA1: F1\nA2: F2\n",
        3,
        "refused 3 plan 1\n",
    ),
    (
        THERE_AND_BACK,
        ONE_AT_ARLANDA,
        &[LONGER_TURN],
        "optimal 120\nA1: F1 F2\n",
        1,
        "infeasible\n",
    ),
    // a table is refused before the plan is
    (
        "F1\n",
        ONE_AT_ARLANDA,
        &[RULES],
        "infeasible\n",
        3,
        "refused 4 timetable 2\n",
    ),
];

// The four files of a row.
fn files_for(alloc: Global, row: &Row<'_>) -> Result<Vec<MemFile>, Fail> {
    let &(records, aircraft, rules, plan, _, _) = row;
    files_of(
        alloc,
        Typed {
            timetable: &[TIMETABLE, records],
            fleet: &[FLEET, aircraft],
            rules,
            judged: &[plan],
        },
    )
}

fn is_repaired_so(alloc: Global, row: &Row<'_>) -> Result<bool, Fail> {
    let files = files_for(alloc, row)?;
    ends_over(alloc, WORDS, files, row.4, row.5)
}

#[test]
fn plans_are_repaired(rt: HostRuntime) -> Result<(), Fail> {
    for (number, row) in ROWS.iter().enumerate() {
        assert!(rt; is_repaired_so(rt.alloc(), row)?, "row {number}");
    }
    Ok(())
}

// Exactly four names stand behind the word, and no option; a timetable of that name is written as a path.
#[test]
fn words_of_a_repair_are_read(rt: HostRuntime) -> Result<(), Fail> {
    let rows: &[&[&str]] = &[
        &["tailplan", "repair"],
        &["tailplan", "repair", "t", "f", "r"],
        &["tailplan", "repair", "t", "f", "r", "p", "x"],
        &["tailplan", "repair", "t", "f", "r", "--plan", "p"],
    ];
    for &words in rows {
        let files = Vec::new(rt.alloc());
        assert!(rt; ends_over(rt.alloc(), words, files, 2, USAGE)?, "{words:?}");
    }
    let mut files = files_for(rt.alloc(), &ROWS[0])?;
    push_file(
        rt.alloc(),
        &mut files,
        "./repair",
        text_of(rt.alloc(), &[TIMETABLE, AT_ONCE])?,
    )?;
    assert!(rt;
        ends_over(
            rt.alloc(),
            &["tailplan", "./repair", "f", "r"],
            files,
            0,
            "optimal 240\nA1: F2\nA2: F1\n",
        )?
    );
    Ok(())
}

// Each file takes two reads, its bytes and its end, the plan last; a piece of what is printed that fails ends the run.
#[test]
fn faults_end_a_repair(rt: HostRuntime) -> Result<(), Fail> {
    for &(read, put, status, printed) in &[
        (6, 0, 5, ""),
        (7, 0, 5, ""),
        (8, 0, 5, ""),
        (9, 0, 0, "repaired 0 300\nA1: F1\nA2: F2\n"),
        (0, 1, 6, ""),
        (0, 2, 6, "repaired 0 300\n"),
        (0, 4, 0, "repaired 0 300\nA1: F1\nA2: F2\n"),
    ] {
        let files = files_for(rt.alloc(), &ROWS[0])?;
        let seen = seen_over(rt.alloc(), WORDS, files, &[read], &[put])?;
        assert!(rt; seen.is(status, printed), "{read} {put}: {seen:?}");
    }
    Ok(())
}

// The plan of the week by its routes: what is at home with A5 on the first day stands apart.
const FIRST_AIRCRAFT: &str =
    "A1: D0R0O D0R0B D0R2O D0R2B D0R4O D0R4B G1 D3R0O D3R0B D3R2O D3R2B D3R4O D3R4B D5R0O D5R0B D5R2O D5R2B D5R4O D5R4B";

const NEXT_THREE: &str =
    "\nA2: D0R1O D0R1B D0R3O D0R3B D0R5O D0R5B D2R0O D2R0B D2R2O D2R2B D2R4O D2R4B D4R0O D4R0B D4R2O D4R2B D4R4O D4R4B\n\
A3: D1R0O D1R0B D1R2O D1R2B D1R4O D1R4B D3R1O D3R1B D3R3O D3R3B D3R5O D3R5B D5R1O D5R1B D5R3O D5R3B D5R5O D5R5B\n\
A4: D1R1O D1R1B D1R3O D1R3B D1R5O D1R5B D2R1O D2R1B D2R3O D2R3B D2R5O D2R5B D4R1O D4R1B D4R3O D4R3B D4R5O D4R5B\n\
A5:";

const LONDON_FIRST: &str = " D0R6O D0R6B";

const LAST_TWO: &str = " D1R6O D1R6B D2R6O D2R6B D3R6O D3R6B D4R6O D4R6B D5R6O D5R6B\n\
A6: D0R7O D0R7B D1R7O D1R7B D2R7O D2R7B D3R7O D3R7B D4R7O D4R7B D5R7O D5R7B\n";

// Two flights of the week are published with an aircraft that may not fly them: they are all that is moved.
#[test]
fn the_week_is_repaired(rt: HostRuntime) -> Result<(), Fail> {
    let alloc = rt.alloc();
    let records = week_records(alloc)?;
    let files = files_of(
        alloc,
        Typed {
            timetable: &[TIMETABLE, &records],
            fleet: &[FLEET, WEEK_AIRCRAFT],
            rules: &[WEEK_RULES],
            judged: &[
                "optimal 86400\n",
                FIRST_AIRCRAFT,
                LONDON_FIRST,
                NEXT_THREE,
                LAST_TWO,
            ],
        },
    )?;
    let seen = seen_over(alloc, WORDS, files, &[], &[])?;
    let printed = text_of(
        alloc,
        &[
            "repaired 2 86400\n",
            FIRST_AIRCRAFT,
            NEXT_THREE,
            LONDON_FIRST,
            LAST_TWO,
        ],
    )?;
    assert!(rt; seen.status == 0 && seen.printed == printed, "{seen:?}");
    Ok(())
}

// So many hours on the ground, as records.
fn hours(alloc: Global, count: u32) -> Result<String, Fail> {
    let mut text = String::new(alloc);
    for number in 0..count {
        let id = format!(in alloc; "G{number}")?;
        text.push_str(&id)?;
        text.push_str(",ground,ARN,ARN,2025-03-03T06:00,2025-03-03T07:00,,,,\n")?;
    }
    Ok(text)
}

// A book of more than a thousand activities is not repaired; its plan is refused before that.
#[test]
fn large_books_are_refused(rt: HostRuntime) -> Result<(), Fail> {
    for &(count, plan, status, printed) in &[
        (1001, "optimal 0\n", 3, "refused 10 timetable 1002\n"),
        (1001, "infeasible\n", 3, "refused 3 plan 1\n"),
        (1000, "optimal 0\n", 1, "infeasible\n"),
    ] {
        let records = hours(rt.alloc(), count)?;
        let files = files_of(
            rt.alloc(),
            Typed {
                timetable: &[TIMETABLE, &records],
                fleet: &[FLEET, ONE_AT_ARLANDA],
                rules: &[RULES],
                judged: &[plan],
            },
        )?;
        assert!(rt;
            ends_over(rt.alloc(), WORDS, files, status, printed)?,
            "{count} {plan}"
        );
    }
    Ok(())
}
