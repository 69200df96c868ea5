//! The words of a run: which are taken, and what is printed for others.

use super::{Run, USAGE, USUAL, each_run_ends_so, ends_over, push_text, seen_over, usual_files};
use small_texts::{THERE_AND_BACK, TIMETABLE};
use std::alloc::Global;
use std::test::Fail;

// Words that name no three tables are refused, and no file is asked for: there is none.
#[test]
fn other_words_are_refused(rt: HostRuntime) -> Result<(), Fail> {
    let rows: &[&[&str]] = &[
        &[],
        &["tailplan"],
        &["tailplan", "t"],
        &["tailplan", "t", "f"],
        &["tailplan", "t", "f", "r", "x"],
        &["tailplan", "--help"],
        &["tailplan", "--version"],
        &["tailplan", "t", "f", "r", "--fast"],
        &["tailplan", "t", "f", "r", "--nodes"],
        &["tailplan", "t", "f", "r", "--nodes", "-1"],
        &["tailplan", "t", "f", "r", "--nodes", "1000000000001"],
        &["tailplan", "t", "f", "r", "--nodes", "1", "--nodes", "1"],
        &["tailplan", "t", "f", "r", "--nodes", "1", "2"],
        &["tailplan", "t", "f", "r", "--cert"],
        &["tailplan", "t", "f", "r", "--cert", "c", "--cert", "c"],
        &["tailplan", "t", "f", "r", "--best", "--best"],
        &["tailplan", "t", "f", "r", "--best=1"],
        &["tailplan", "t", "f", "r", "--best", "1"],
        &["tailplan", "t", "f", "--best"],
        &["tailplan", "t", "f", "r", "--lean"],
        &["tailplan", "t", "f", "r", "--cert", "--lean"],
        &["tailplan", "t", "f", "r", "--cert=c", "--lean", "--lean"],
        &["tailplan", "t", "f", "r", "--cert=c", "--lean=1"],
        &["tailplan", "-t", "f", "r"],
        &["tailplan", "t", "f", "--"],
    ];
    for &words in rows {
        let files = Vec::new(rt.alloc());
        assert!(rt; ends_over(rt.alloc(), words, files, 2, USAGE)?, "{words:?}");
    }
    Ok(())
}

// Whether a run by these words is planned, where the timetable stands under the name `-t` too.
fn is_planned(alloc: Global, words: &[&str]) -> Result<bool, Fail> {
    let mut files = usual_files(alloc)?;
    push_text(alloc, &mut files, "-t", &[TIMETABLE, THERE_AND_BACK])?;
    ends_over(alloc, words, files, 0, "optimal 120\nA1: F1 F2\n")
}

// Three names are taken, whatever the program is called, and beside them the flag for the least bound; behind two dashes also names
// that begin with a dash.
#[test]
fn three_names_are_taken(rt: HostRuntime) -> Result<(), Fail> {
    let rows: &[&[&str]] = &[
        &["tailplan", "t", "f", "r"],
        &["", "t", "f", "r"],
        &["tailplan", "--", "t", "f", "r"],
        &["tailplan", "t", "--", "f", "r"],
        &["tailplan", "--", "-t", "f", "r"],
        &["tailplan", "t", "f", "r", "--best"],
        &["tailplan", "--best", "--nodes", "7", "t", "--", "f", "r"],
    ];
    for &words in rows {
        assert!(rt; is_planned(rt.alloc(), words)?, "{words:?}");
    }
    Ok(())
}

// The tables are those of their places: the fleet's name in the timetable's place is no timetable.
#[test]
fn each_name_has_its_place(rt: HostRuntime) -> Result<(), Fail> {
    let runs: &[Run<'_>] = &[
        Run {
            words: &["tailplan", "f", "t", "r"],
            status: 3,
            printed: "refused 3 timetable 1\n",
            ..USUAL
        },
        Run {
            words: &["tailplan", "t", "t", "r"],
            status: 3,
            printed: "refused 3 fleet 1\n",
            ..USUAL
        },
        Run {
            words: &["tailplan", "t", "f", "f"],
            status: 3,
            printed: "refused 13 rules 0\n",
            ..USUAL
        },
    ];
    each_run_ends_so(&rt, rt.alloc(), runs)
}

// A usage line that can't be written is status 6, with nothing printed.
#[test]
fn a_usage_line_may_fail(rt: HostRuntime) -> Result<(), Fail> {
    let files = Vec::new(rt.alloc());
    let seen = seen_over(rt.alloc(), &["tailplan", "t"], files, &[], &[1])?;
    assert!(rt; seen.is(6, ""));
    Ok(())
}
