//! What the words of the checker give: the names of three tables, and what is judged by them.

use run_frame::TableNames;
use small_texts::words_of;
use std::alloc::Global;
use std::process::Abort;
use std::test::Fail;
use tailcheck::{CheckNames, Subject, check_of};

fn named<'a>(timetable: &'a str, fleet: &'a str, rules: &'a str, plan: &'a str) -> CheckNames<'a> {
    CheckNames {
        tables: TableNames {
            timetable,
            fleet,
            rules,
        },
        subject: Subject::Plan(plan),
    }
}

// The same with a certificate in the plan's place.
fn certified<'a>(cert: &'a str) -> CheckNames<'a> {
    CheckNames {
        subject: Subject::Certificate(cert),
        ..named("t", "f", "r", "p")
    }
}

// Whether the words are read as these names, or refused where none are given.
fn are_read_as(alloc: Global, words: &[&str], names: Option<CheckNames>) -> Result<bool, Fail> {
    let words = words_of(alloc, words)?;
    Ok(check_of(alloc, &words)? == names)
}

// The names of a timetable, a fleet, rules and a plan.
type Names<'a> = (&'a str, &'a str, &'a str, &'a str);

// Asserts that each of the words are read as these names of three tables and a plan.
fn each_is_read_as(
    rt: &impl Abort,
    alloc: Global,
    rows: &[(&[&str], Names<'_>)],
) -> Result<(), Fail> {
    for &(words, (timetable, fleet, rules, plan)) in rows {
        let names = named(timetable, fleet, rules, plan);
        assert!(rt; are_read_as(alloc, words, Some(names))?, "{words:?}");
    }
    Ok(())
}

// Asserts that each of the words are refused.
fn each_is_refused(rt: &impl Abort, alloc: Global, rows: &[&[&str]]) -> Result<(), Fail> {
    for &words in rows {
        assert!(rt; are_read_as(alloc, words, None)?, "{words:?}");
    }
    Ok(())
}

// Three names, and the plan's behind its option, wherever that stands.
#[test]
fn names_are_taken_in_their_places(rt: HostRuntime) -> Result<(), Fail> {
    each_is_read_as(
        &rt,
        rt.alloc(),
        &[
            (
                &["tailcheck", "t", "f", "r", "--plan", "p"],
                ("t", "f", "r", "p"),
            ),
            (
                &["tailcheck", "--plan", "p", "t", "f", "r"],
                ("t", "f", "r", "p"),
            ),
            (
                &["tailcheck", "t", "--plan", "p", "f", "r"],
                ("t", "f", "r", "p"),
            ),
            (
                &["tailcheck", "t", "f", "--plan", "p", "r"],
                ("t", "f", "r", "p"),
            ),
            (
                &["tailcheck", "t", "f", "r", "--plan=p"],
                ("t", "f", "r", "p"),
            ),
            (
                &["tailcheck", "t", "--plan=p", "f", "r"],
                ("t", "f", "r", "p"),
            ),
            (
                &["tailcheck", "x", "x", "x", "--plan", "x"],
                ("x", "x", "x", "x"),
            ),
            (&["", "t", "f", "r", "--plan", "p"], ("t", "f", "r", "p")),
            (
                &["--plan=p", "t", "f", "r", "--plan", "q"],
                ("t", "f", "r", "q"),
            ),
        ],
    )
}

// A certificate is named like a plan.
#[test]
fn certificates_are_taken(rt: HostRuntime) -> Result<(), Fail> {
    let rows: &[(&[&str], &str)] = &[
        (&["tailcheck", "t", "f", "r", "--cert", "c"], "c"),
        (&["tailcheck", "--cert=c", "t", "f", "r"], "c"),
        (&["tailcheck", "t", "--cert", "", "f", "r"], ""),
        (&["tailcheck", "t", "f", "r", "--cert=-x"], "-x"),
        (&["--plan=p", "--cert", "c", "--", "t", "f", "r"], "c"),
    ];
    for &(words, cert) in rows {
        assert!(rt;
            are_read_as(rt.alloc(), words, Some(certified(cert)))?,
            "{words:?}"
        );
    }
    Ok(())
}

// Names that look odd: empty, a dash alone, with a dash in front behind `=` or two dashes.
#[test]
fn odd_names_are_taken(rt: HostRuntime) -> Result<(), Fail> {
    each_is_read_as(
        &rt,
        rt.alloc(),
        &[
            (&["tailcheck", "", "", "", "--plan", ""], ("", "", "", "")),
            (
                &["tailcheck", "t", "f", "r", "--plan="],
                ("t", "f", "r", ""),
            ),
            (
                &["tailcheck", "-", "f", "-", "--plan", "-"],
                ("-", "f", "-", "-"),
            ),
            (
                &["tailcheck", "t", "f", "r", "--plan=-x"],
                ("t", "f", "r", "-x"),
            ),
            (
                &["tailcheck", "t", "f", "r", "--plan==p"],
                ("t", "f", "r", "=p"),
            ),
            (
                &["tailcheck", "help", "a b", "r=1", "--plan", "p q"],
                ("help", "a b", "r=1", "p q"),
            ),
            (
                &["tailcheck", "tåg", "flyg", "regler", "--plan", "år"],
                ("tåg", "flyg", "regler", "år"),
            ),
            (
                &["tailcheck", "--plan", "p", "--", "-t", "--plan", "-"],
                ("-t", "--plan", "-", "p"),
            ),
            (
                &["tailcheck", "t", "--plan", "p", "--", "--", "--help"],
                ("t", "--", "--help", "p"),
            ),
            (
                &["tailcheck", "t", "f", "r", "--plan", "p", "--"],
                ("t", "f", "r", "p"),
            ),
        ],
    )
}

// Other numbers of names, and names that begin with a dash.
#[test]
fn other_names_are_refused(rt: HostRuntime) -> Result<(), Fail> {
    each_is_refused(
        &rt,
        rt.alloc(),
        &[
            &[],
            &["tailcheck"],
            &["tailcheck", "--plan", "p"],
            &["tailcheck", "t", "--plan", "p"],
            &["tailcheck", "t", "f", "--plan", "p"],
            &["tailcheck", "t", "f", "r", "x", "--plan", "p"],
            &["tailcheck", "t", "f", "r", "", "--plan", "p"],
            &["tailcheck", "-t", "f", "r", "--plan", "p"],
            &["tailcheck", "t", "f", "-5", "--plan", "p"],
            &["tailcheck", "t", "f", "--r", "--plan", "p"],
            &["tailcheck", "--plan", "p", "--", "t", "f"],
            &["tailcheck", "t", "f", "r", "--plan", "p", "--", "x"],
        ],
    )
}

// No option, one twice, both, one without a value or written otherwise, flags, and options that there are not.
#[test]
fn other_options_are_refused(rt: HostRuntime) -> Result<(), Fail> {
    each_is_refused(
        &rt,
        rt.alloc(),
        &[
            &["tailcheck", "t", "f", "r"],
            &["tailcheck", "t", "f", "r", "--plan", "p", "--plan", "q"],
            &["tailcheck", "t", "f", "r", "--plan=p", "--plan=p"],
            &["tailcheck", "t", "f", "r", "--plan"],
            &["tailcheck", "t", "f", "r", "--plan", "-x"],
            &["tailcheck", "t", "f", "r", "--plan", "--"],
            &["tailcheck", "--", "t", "f", "r", "--plan", "p"],
            &["tailcheck", "t", "f", "r", "--pla", "p"],
            &["tailcheck", "t", "f", "r", "-plan", "p"],
            &["tailcheck", "t", "f", "r", "-p", "p"],
            &["tailcheck", "t", "f", "r", "--cert", "c", "--cert", "c"],
            &["tailcheck", "t", "f", "r", "--cert"],
            &["tailcheck", "t", "f", "r", "--cer", "c"],
            &["tailcheck", "t", "f", "r", "--plan", "p", "--cert", "c"],
            &["tailcheck", "t", "f", "r", "--plan", "p", "--nodes", "5"],
            &["tailcheck", "--help"],
            &["tailcheck", "-h"],
            &["tailcheck", "--version"],
            &["tailcheck", "t", "f", "r", "--plan", "p", "--help"],
            &["tailcheck", "t", "f", "r", "--plan", "p", "-V"],
        ],
    )
}
