//! Refusals: each code at its place, and of two faults the one that is looked at first.

use super::{Case, Run, USUAL, WORDS, each_ends_so, each_run_ends_so, ends_over};
use small_texts::{
    FLEET, ONE_AT_ARLANDA, RULES, THERE, THERE_AND_BACK, TIMETABLE, files_holding, table_files,
    text_of,
};
use std::alloc::Global;
use std::test::Fail;

const ARLANDA_AGAIN: &str = "[[airport]]\nname = \"ARN\"\noffset = 0\nturn = 0\n";

// A timetable that is refused for one of its records.
#[test]
fn the_timetable_is_refused_at_its_place(rt: HostRuntime) -> Result<(), Fail> {
    each_ends_so(&rt, rt.alloc(), RULES, &[BAD_TIMETABLES])
}

const BAD_TIMETABLES: &[Case<'_>] = &[
    (
        "F1,flight,ARN,OSL,2025-03-03T06:00,2025-03-03T07:00,,,\n",
        ONE_AT_ARLANDA,
        "",
        3,
        "refused 4 timetable 2\n",
    ),
    (
        "F 1,flight,ARN,OSL,2025-03-03T06:00,2025-03-03T07:00,,,,\n",
        ONE_AT_ARLANDA,
        "",
        3,
        "refused 5 timetable 2\n",
    ),
    (
        "F1,flight,ARN,OSL,2025-03-03T06:00,2025-03-03T07:00,,,,\n\
F2,flight,OSL,ARN,2025-02-30T07:30,2025-03-03T08:30,,,,\n",
        ONE_AT_ARLANDA,
        "",
        3,
        "refused 6 timetable 3\n",
    ),
    (
        "F1,flight,ARN,OSL,2025-03-03T06:00,2025-03-03T06:00,,,,\n",
        ONE_AT_ARLANDA,
        "",
        3,
        "refused 7 timetable 2\n",
    ),
    (
        "F1,train,ARN,OSL,2025-03-03T06:00,2025-03-03T07:00,,,,\n",
        ONE_AT_ARLANDA,
        "",
        3,
        "refused 8 timetable 2\n",
    ),
    (
        "F1,ground,ARN,OSL,2025-03-03T06:00,2025-03-03T07:00,,,,\n",
        ONE_AT_ARLANDA,
        "",
        3,
        "refused 16 timetable 2\n",
    ),
    // two faults in one record, and two in two
    (
        "F1,train,ARN,OSL,6:00,2025-03-03T07:00,,,,\n",
        ONE_AT_ARLANDA,
        "",
        3,
        "refused 8 timetable 2\n",
    ),
    (
        "F1,flight,XXX,OSL,2025-03-03T06:00,2025-03-03T07:00,,,,\n\
F2,flight,OSL,ARN,7:30,2025-03-03T08:30,,,,\n",
        ONE_AT_ARLANDA,
        "",
        3,
        "refused 6 timetable 3\n",
    ),
    // an empty line is no record
    (
        "F1,flight,ARN,OSL,2025-03-03T06:00,2025-03-03T07:00,,,,\n\n\
F1,flight,OSL,ARN,2025-03-03T07:30,2025-03-03T08:30,,,,\n",
        ONE_AT_ARLANDA,
        "",
        3,
        "refused 11 timetable 3\n",
    ),
];

// Rules that are refused.
#[test]
fn the_rules_are_refused_at_their_place(rt: HostRuntime) -> Result<(), Fail> {
    each_ends_so(&rt, rt.alloc(), "", &[BAD_RULES])
}

const BAD_RULES: &[Case<'_>] = &[
    (
        THERE_AND_BACK,
        ONE_AT_ARLANDA,
        "[[type",
        3,
        "refused 13 rules 0\n",
    ),
    (
        THERE_AND_BACK,
        ONE_AT_ARLANDA,
        "[[type]]\nname = \"P\"\nrate = 1\nturn = 30\nspeed = 1\n",
        3,
        "refused 14 rules 1\n",
    ),
    (
        THERE_AND_BACK,
        ONE_AT_ARLANDA,
        "[[type]]\nname = \"P\"\nturn = 30\n",
        3,
        "refused 15 rules 1\n",
    ),
    (
        THERE_AND_BACK,
        ONE_AT_ARLANDA,
        "[[train]]\nname = \"P\"\n",
        3,
        "refused 14 rules 0\n",
    ),
    (
        THERE_AND_BACK,
        ONE_AT_ARLANDA,
        "type = 1\n",
        3,
        "refused 4 rules 0\n",
    ),
    (
        THERE_AND_BACK,
        ONE_AT_ARLANDA,
        "[[type]]\nname = \"P\"\nrate = 301\nturn = 30\n",
        3,
        "refused 9 rules 1\n",
    ),
];

// A type, and the first lines of an airport, which is the second entry.
const NO_CLOCKS: &str =
    "[[type]]\nname = \"P\"\nrate = 1\nturn = 30\n[[airport]]\nname = \"ARN\"\nturn = 20\n";

// An airport has an offset or a rule of local time that is one, and not both.
#[test]
fn local_time_is_refused_at_its_entry(rt: HostRuntime) -> Result<(), Fail> {
    each_ends_so(&rt, rt.alloc(), NO_CLOCKS, &[BAD_CLOCKS])
}

const BAD_CLOCKS: &[Case<'_>] = &[
    (
        THERE,
        ONE_AT_ARLANDA,
        "zone = \"CET\"\n",
        3,
        "refused 18 rules 2\n",
    ),
    (
        THERE,
        ONE_AT_ARLANDA,
        "zone = \"CET-1CEST\"\n",
        3,
        "refused 18 rules 2\n",
    ),
    (
        THERE,
        ONE_AT_ARLANDA,
        "zone = \"CET-1CEST,M3.5.0,M4.1.0\"\n",
        3,
        "refused 18 rules 2\n",
    ),
    (
        THERE,
        ONE_AT_ARLANDA,
        "offset = 60\nzone = \"UTC0\"\n",
        3,
        "refused 18 rules 2\n",
    ),
    (THERE, ONE_AT_ARLANDA, "", 3, "refused 15 rules 2\n"),
];

// A flight from an airport that no rule names.
const UNKNOWN: &str = "F1,flight,XXX,OSL,2025-03-03T06:00,2025-03-03T07:00,,,,\n";

// Two aircraft of one name.
const TWICE: &str = "A1,P,ARN,2025-03-03T05:00,0,,,\nA1,P,ARN,2025-03-03T05:00,0,,,\n";

// Names that stand twice or are unknown: those of the rules first, then those of the fleet, then those of the timetable.
#[test]
fn names_are_refused_where_they_stand(rt: HostRuntime) -> Result<(), Fail> {
    each_ends_so(&rt, rt.alloc(), RULES, &[BAD_NAMES])
}

const BAD_NAMES: &[Case<'_>] = &[
    (
        THERE,
        ONE_AT_ARLANDA,
        ARLANDA_AGAIN,
        3,
        "refused 11 rules 4\n",
    ),
    (
        THERE,
        ONE_AT_ARLANDA,
        "[[curfew]]\nairport = \"XXX\"\nfrom = \"00:00\"\nto = \"01:00\"\ntypes = []\nstart = true\nlanding = true\n",
        3,
        "refused 12 rules 4\n",
    ),
    (THERE, TWICE, "", 3, "refused 11 fleet 3\n"),
    (
        THERE,
        "A1,Q,ARN,2025-03-03T05:00,0,,,\n",
        "",
        3,
        "refused 12 fleet 2\n",
    ),
    (
        THERE,
        "A1,P,ARN,2025-03-03T05:00,0,,,fh=1\n",
        "",
        3,
        "refused 12 fleet 2\n",
    ),
    (UNKNOWN, ONE_AT_ARLANDA, "", 3, "refused 12 timetable 2\n"),
    (
        "F1,flight,ARN,OSL,2025-03-03T06:00,2025-03-03T07:00,,,A9,\n",
        ONE_AT_ARLANDA,
        "",
        3,
        "refused 12 timetable 2\n",
    ),
    (
        "F1,flight,ARN,OSL,2025-03-03T06:00,2025-03-03T07:00,,,,\n\
F1,flight,XXX,OSL,2025-03-03T06:00,2025-03-03T07:00,,,,\n",
        ONE_AT_ARLANDA,
        "",
        3,
        "refused 11 timetable 3\n",
    ),
    // of two tables
    (UNKNOWN, TWICE, ARLANDA_AGAIN, 3, "refused 11 rules 4\n"),
    (UNKNOWN, TWICE, "", 3, "refused 11 fleet 3\n"),
];

// A flight whose id is no name.
const BAD_RECORD: &str = "F 1,flight,ARN,OSL,2025-03-03T06:00,2025-03-03T07:00,,,,\n";

// Faults in different tables: each table is looked at by itself, in the order timetable, fleet, rules.
#[test]
fn tables_are_judged_in_their_order(rt: HostRuntime) -> Result<(), Fail> {
    let cases: &[Case<'_>] = &[
        (
            THERE,
            "A1,P,ARN,2025-03-03T05:00,100001,,,\n",
            "",
            3,
            "refused 9 fleet 2\n",
        ),
        (
            BAD_RECORD,
            "A1,P,ARN\n",
            "[[type",
            3,
            "refused 5 timetable 2\n",
        ),
        (THERE, "A1,P,ARN\n", "[[type", 3, "refused 4 fleet 2\n"),
        (
            BAD_RECORD,
            ONE_AT_ARLANDA,
            "[[type",
            3,
            "refused 5 timetable 2\n",
        ),
        // a table by itself comes before the names of all
        (UNKNOWN, "A1,P,ARN\n", "", 3, "refused 4 fleet 2\n"),
        (
            THERE,
            "A1,Q,ARN,2025-03-03T05:00,0,,,\n",
            "[[type",
            3,
            "refused 13 rules 0\n",
        ),
    ];
    each_ends_so(&rt, rt.alloc(), RULES, &[cases])
}

// A table without its header, or without anything. Rules may be empty.
#[test]
fn a_header_is_needed(rt: HostRuntime) -> Result<(), Fail> {
    let runs: &[Run<'_>] = &[
        Run {
            timetable: &[],
            fleet: &[FLEET],
            status: 3,
            printed: "refused 3 timetable 1\n",
            ..USUAL
        },
        Run {
            timetable: &[THERE],
            fleet: &[FLEET],
            status: 3,
            printed: "refused 3 timetable 1\n",
            ..USUAL
        },
        Run {
            timetable: &[TIMETABLE],
            fleet: &[],
            status: 3,
            printed: "refused 3 fleet 1\n",
            ..USUAL
        },
        Run {
            timetable: &[TIMETABLE],
            fleet: &[FLEET],
            rules: &[],
            printed: "optimal 0\n",
            ..USUAL
        },
    ];
    each_run_ends_so(&rt, rt.alloc(), runs)
}

// Whether a run over these tables and the usual rules is refused so.
fn is_refused(
    alloc: Global,
    timetable: Vec<u8>,
    fleet: Vec<u8>,
    printed: &str,
) -> Result<bool, Fail> {
    let rules = text_of(alloc, &[RULES])?;
    let files = files_holding(alloc, timetable, fleet, rules)?;
    ends_over(alloc, &WORDS, files, 3, printed)
}

// Adds one byte more than a table may have.
fn push_too_much(alloc: Global, table: &mut Vec<u8>) -> Result<(), Fail> {
    let piece = vec![in alloc; b'\n'; 65_536]?;
    for _ in 0..256 {
        table.extend_from_slice(&piece)?;
    }
    Ok(table.push(b'\n')?)
}

// A table of one byte more than a table may have is refused, whatever it says.
#[test]
fn a_table_may_be_too_big(rt: HostRuntime) -> Result<(), Fail> {
    let mut big = Vec::new(rt.alloc());
    push_too_much(rt.alloc(), &mut big)?;
    let fleet = text_of(rt.alloc(), &[FLEET, ONE_AT_ARLANDA])?;
    assert!(rt; is_refused(rt.alloc(), big, fleet, "refused 1 timetable 0\n")?);
    Ok(())
}

// A byte that no text has is refused, wherever it stands.
#[test]
fn a_table_is_text(rt: HostRuntime) -> Result<(), Fail> {
    let mut fleet = text_of(rt.alloc(), &[FLEET, ONE_AT_ARLANDA])?;
    fleet.push(0xff)?;
    let timetable = text_of(rt.alloc(), &[TIMETABLE, THERE])?;
    assert!(rt; is_refused(rt.alloc(), timetable, fleet, "refused 2 fleet 0\n")?);
    Ok(())
}

// Adds so many flights at one moment.
fn push_flights(alloc: Global, text: &mut String, count: u32) -> Result<(), Fail> {
    for number in 0..count {
        text.push_str(&format!(in alloc; "F{number}")?)?;
        text.push_str(",flight,ARN,OSL,2025-03-03T06:00,2025-03-03T07:00,,,,\n")?;
    }
    Ok(())
}

// Whether a run over so many flights, which nobody flies, ends so.
fn flights_end_so(alloc: Global, count: u32, status: u8, printed: &str) -> Result<bool, Fail> {
    let mut records = String::new(alloc);
    push_flights(alloc, &mut records, count)?;
    let files = table_files(alloc, &[TIMETABLE, &records], &[FLEET], &[RULES])?;
    ends_over(alloc, &WORDS, files, status, printed)
}

// The last activity that a timetable may have is its 4,000th.
#[test]
fn a_timetable_may_be_too_long(rt: HostRuntime) -> Result<(), Fail> {
    for &(count, status, printed) in &[
        (4_000, 1, "infeasible\n"),
        (4_001, 3, "refused 10 timetable 4002\n"),
    ] {
        assert!(rt;
            flights_end_so(rt.alloc(), count, status, printed)?,
            "{count}"
        );
    }
    Ok(())
}
