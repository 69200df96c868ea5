//! Words that are refused, and names that are taken in their places.

use super::fixtures::run_failing;
use small_texts::{LEGAL, MISPLACED, Seen, files_of};
use std::alloc::Global;
use std::test::Fail;

fn run_as(alloc: Global, words: &[&str]) -> Result<Seen, Fail> {
    run_failing(alloc, words, files_of(alloc, LEGAL)?, &[], &[])
}

// Words that do not name three tables and one plan's file.
#[test]
fn other_words_are_refused(rt: HostRuntime) -> Result<(), Fail> {
    let rows: &[&[&str]] = &[
        &[],
        &["tailview"],
        &["tailview", "t", "f", "r"],
        &["tailview", "t", "f", "--plan", "p"],
        &["tailview", "t", "f", "r", "x", "--plan", "p"],
        &["tailview", "t", "f", "r", "--plan"],
        &["tailview", "t", "f", "r", "--cert", "p"],
        &["tailview", "t", "f", "r", "--plan", "p", "--cert", "p"],
        &["tailview", "t", "f", "r", "--plan", "p", "--curfews"],
        &["tailview", "t", "f", "r", "--plan", "p", "--moved"],
        &["tailview", "t", "f", "r", "--moved", "p"],
        &["tailview", "t", "f", "r", "--plan", "p", "--html", "x"],
        &["tailview", "t", "f", "r", "--plan", "p", "--html=x"],
        &["tailview", "t", "f", "r", "--plan", "p", "--by-day", "x"],
        &["tailview", "t", "f", "r", "--plan", "p", "--by-day=1"],
        &["tailview", "t", "f", "r", "--plan", "p", "--plan", "p"],
        &["tailview", "t", "f", "r", "--plan", "p", "--help"],
    ];
    for &words in rows {
        let seen = run_as(rt.alloc(), words)?;
        assert!(rt;
            seen.is(
                2,
                "usage: tailview TIMETABLE FLEET RULES --plan FILE [--moved OLDPLAN] [--curfews AIRPORT] [--by-day] [--html]\n"
            ),
            "{words:?}"
        );
    }
    Ok(())
}

// The option stands anywhere, and each name is that of its own file.
#[test]
fn names_are_taken_in_their_places(rt: HostRuntime) -> Result<(), Fail> {
    for &words in &[
        ["tailview", "t", "f", "r", "--plan", "p"],
        ["tailview", "--plan", "p", "t", "f", "r"],
    ] {
        let seen = run_as(rt.alloc(), &words)?;
        assert!(rt; seen.has(0, ">cost 120<"), "{words:?}");
    }
    for &(timetable, fleet, rules, plan, printed) in &MISPLACED {
        let words = ["tailview", timetable, fleet, rules, "--plan", plan];
        let seen = run_as(rt.alloc(), &words)?;
        assert!(rt; seen.is(3, printed), "{words:?}");
    }
    Ok(())
}
