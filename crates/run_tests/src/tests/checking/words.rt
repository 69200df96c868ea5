//! Words that are refused, and names that are taken in their places.

use super::fixtures::{Case, assert_ends_so, legal_run};
use small_texts::MISPLACED;
use std::alloc::Global;
use std::process::Abort;
use std::test::Fail;

// Asserts that a run of these words over the files of a legal plan ends so.
fn assert_words_end_so<'a>(
    rt: &impl Abort,
    alloc: Global,
    words: &'a [&'a str],
    status: u8,
    printed: &'a str,
) -> Result<(), Fail> {
    let case = Case {
        words,
        ..legal_run(status, printed)
    };
    assert_ends_so(rt, alloc, &case)
}

// Asserts that a run of each of them does.
fn each_ends_so<'a>(
    rt: &impl Abort,
    alloc: Global,
    rows: &[&'a [&'a str]],
    status: u8,
    printed: &'a str,
) -> Result<(), Fail> {
    for &words in rows {
        assert_words_end_so(rt, alloc, words, status, printed)?;
    }
    Ok(())
}

// Words that do not name three tables and one file to judge by them.
#[test]
fn other_words_are_refused(rt: HostRuntime) -> Result<(), Fail> {
    each_ends_so(
        &rt,
        rt.alloc(),
        &[
            &[],
            &["tailcheck"],
            &["tailcheck", "t", "f", "r"],
            &["tailcheck", "t", "f", "--plan", "p"],
            &["tailcheck", "t", "f", "r", "x", "--plan", "p"],
            &["tailcheck", "t", "f", "r", "--plan"],
            &["tailcheck", "t", "f", "r", "--cert", "p", "--cert", "p"],
            &["tailcheck", "t", "f", "r", "--plan", "p", "--cert", "p"],
            &["tailcheck", "t", "f", "r", "--plan", "p", "--plan", "p"],
            &["tailcheck", "t", "f", "r", "--plan", "p", "--help"],
        ],
        2,
        "usage: tailcheck TIMETABLE FLEET RULES (--cert FILE or --plan FILE)\n",
    )
}

// The option stands anywhere, and each name is that of its own file.
#[test]
fn names_are_taken_in_their_places(rt: HostRuntime) -> Result<(), Fail> {
    each_ends_so(
        &rt,
        rt.alloc(),
        &[
            &["tailcheck", "t", "f", "r", "--plan", "p"],
            &["tailcheck", "--plan", "p", "t", "f", "r"],
        ],
        0,
        "legal 120\n",
    )?;
    for &(timetable, fleet, rules, plan, printed) in &MISPLACED {
        let words = ["tailcheck", timetable, fleet, rules, "--plan", plan];
        assert_words_end_so(&rt, rt.alloc(), &words, 3, printed)?;
    }
    Ok(())
}

// Any file can be judged as a certificate: a plan, and one of the tables.
#[test]
fn other_files_are_no_certificates(rt: HostRuntime) -> Result<(), Fail> {
    each_ends_so(
        &rt,
        rt.alloc(),
        &[
            &["tailcheck", "t", "f", "r", "--cert", "p"],
            &["tailcheck", "--cert", "t", "t", "f", "r"],
        ],
        1,
        "no 1 BadLine\n",
    )
}
