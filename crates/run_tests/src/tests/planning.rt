//! Runs of the planner.

mod certificates;
mod costs;
mod counters;
mod curfews;
mod families;
mod faults;
mod least_bounds;
mod limits;
mod links;
mod memory;
mod names;
mod permissions;
mod plans;
mod quotas;
mod refusals;
mod repairs;
mod rooms;
mod trials;
mod week;
mod whys;
mod words;

use crate::tests::runs::{self, Program};
use book_maker::read_book;
use small_texts::{
    FLEET, ONE_AT_ARLANDA, RULES, Seen, THERE_AND_BACK, TIMETABLE, file_of, table_files, text_of,
};
use std::alloc::Global;
use std::process::Abort;
use std::test::Fail;
use tail_book::Book;
use tail_outside::MemFile;

const WORDS: [&str; 4] = ["tailplan", "t", "f", "r"];

const USAGE: &str =
    "usage: tailplan TIMETABLE FLEET RULES [--nodes N] [--cert FILE [--lean]] [--best]\n";

/// A run: its words, the pieces of its tables, the calls of the files and of the sink that fail, and the status and the text
/// that it ends with.
#[derive(Clone, Copy)]
struct Run<'a> {
    words: &'a [&'a str],
    timetable: &'a [&'a str],
    fleet: &'a [&'a str],
    rules: &'a [&'a str],
    calls: &'a [u64],
    puts: &'a [u64],
    status: u8,
    printed: &'a str,
}

// Two flights and one aircraft, under the usual rules.
const USUAL: Run<'_> = Run {
    words: &WORDS,
    timetable: &[TIMETABLE, THERE_AND_BACK],
    fleet: &[FLEET, ONE_AT_ARLANDA],
    rules: &[RULES],
    calls: &[],
    puts: &[],
    status: 0,
    printed: "optimal 120\nA1: F1 F2\n",
};

// The files of its tables.
fn usual_files(alloc: Global) -> Result<Vec<MemFile>, Fail> {
    table_files(
        alloc,
        &[TIMETABLE, THERE_AND_BACK],
        &[FLEET, ONE_AT_ARLANDA],
        &[RULES],
    )
}

// Adds a file of this name.
fn push_file(
    alloc: Global,
    files: &mut Vec<MemFile>,
    name: &str,
    bytes: Vec<u8>,
) -> Result<(), Fail> {
    let file = file_of(alloc, name, bytes)?;
    Ok(files.push(file)?)
}

// Adds a file of this name, of these pieces.
fn push_text(
    alloc: Global,
    files: &mut Vec<MemFile>,
    name: &str,
    pieces: &[&str],
) -> Result<(), Fail> {
    let bytes = text_of(alloc, pieces)?;
    push_file(alloc, files, name, bytes)
}

// The book of the texts of three tables.
fn book_of(
    alloc: Global,
    timetable: &[&str],
    fleet: &[&str],
    rules: &[&str],
) -> Result<Book, Fail> {
    let timetable = text_of(alloc, timetable)?;
    let fleet = text_of(alloc, fleet)?;
    let rules = text_of(alloc, rules)?;
    match read_book(alloc, &timetable, &fleet, &rules) {
        Ok(book) => Ok(book),
        Err(_) => Err(Fail::new("no book")),
    }
}

// What is seen of a run by these words over these files, where these calls of the files and of the sink fail.
fn seen_over(
    alloc: Global,
    words: &[&str],
    files: Vec<MemFile>,
    calls: &[u64],
    puts: &[u64],
) -> Result<Seen, Fail> {
    runs::seen_over(alloc, Program::Planner, words, files, calls, puts)
}

// Whether a run over these files, in which nothing fails, ends so.
fn ends_over(
    alloc: Global,
    words: &[&str],
    files: Vec<MemFile>,
    status: u8,
    printed: &str,
) -> Result<bool, Fail> {
    let seen = seen_over(alloc, words, files, &[], &[])?;
    Ok(seen.is(status, printed))
}

// Whether a run over the usual files, of whose calls this one fails, and this one of the sink, ends so.
fn ends_failing(
    alloc: Global,
    words: &[&str],
    call: u64,
    put: u64,
    ended: (u8, &str),
) -> Result<bool, Fail> {
    let files = usual_files(alloc)?;
    let seen = seen_over(alloc, words, files, &[call], &[put])?;
    Ok(seen.is(ended.0, ended.1))
}

// What is seen of a run.
fn seen_of(alloc: Global, run: &Run<'_>) -> Result<Seen, Fail> {
    let files = table_files(alloc, run.timetable, run.fleet, run.rules)?;
    seen_over(alloc, run.words, files, run.calls, run.puts)
}

// Whether it ends so.
fn ends_so(alloc: Global, run: &Run<'_>) -> Result<bool, Fail> {
    let seen = seen_of(alloc, run)?;
    Ok(seen.is(run.status, run.printed))
}

// Each run ends so.
fn each_run_ends_so(rt: &impl Abort, alloc: Global, runs: &[Run<'_>]) -> Result<(), Fail> {
    for (row, run) in runs.iter().enumerate() {
        assert!(rt; ends_so(alloc, run)?, "row {row}");
    }
    Ok(())
}

// A run's records of the timetable, its aircraft and its rules, and the status and the text that it ends with.
type Case<'a> = (&'a str, &'a str, &'a str, u8, &'a str);

// Whether a run ends so, with these rules before its own.
fn case_ends_so<'a>(alloc: Global, before: &'a str, case: &Case<'a>) -> Result<bool, Fail> {
    let &(records, aircraft, rules, status, printed) = case;
    let files = table_files(
        alloc,
        &[TIMETABLE, records],
        &[FLEET, aircraft],
        &[before, rules],
    )?;
    ends_over(alloc, &WORDS, files, status, printed)
}

// Each run of these tables ends so, with these rules before its own.
fn each_ends_so<'a>(
    rt: &impl Abort,
    alloc: Global,
    before: &'a str,
    tables: &[&[Case<'a>]],
) -> Result<(), Fail> {
    for &cases in tables {
        for case in cases {
            let (records, aircraft, rules, _, _) = case;
            assert!(rt;
                case_ends_so(alloc, before, case)?,
                "{records}{aircraft}{rules}"
            );
        }
    }
    Ok(())
}
