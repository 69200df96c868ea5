//! What the words of the planner give: the names of three tables, the limit, the order and the certificate's version and name, or
//! the seed of a trial.

use branch_tree::Limit;
use cert_lines::Version;
use certified_search::Order;
use run_frame::TableNames;
use small_texts::words_of;
use std::alloc::Global;
use std::test::Fail;
use tailplan::{NODE_LIMIT, TaskNames, run_of, seed_of};

fn limited<'a>(timetable: &'a str, fleet: &'a str, rules: &'a str, limit: Limit) -> TaskNames<'a> {
    TaskNames {
        tables: TableNames {
            timetable,
            fleet,
            rules,
        },
        limit,
        order: Order::DepthFirst,
        version: Version::Full,
        cert: None,
    }
}

fn named<'a>(timetable: &'a str, fleet: &'a str, rules: &'a str) -> TaskNames<'a> {
    limited(timetable, fleet, rules, Limit::Free)
}

// Whether the words are read as these names, or refused where none are given.
fn are_read_as(alloc: Global, words: &[&str], names: Option<TaskNames>) -> Result<bool, Fail> {
    let words = words_of(alloc, words)?;
    Ok(run_of(alloc, &words)? == names)
}

// Three names, also ones that look odd, and words behind two dashes.
#[test]
fn names_are_taken_in_their_order(rt: HostRuntime) -> Result<(), Fail> {
    let rows: &[(&[&str], [&str; 3])] = &[
        (&["tailplan", "t", "f", "r"], ["t", "f", "r"]),
        (&["", "t", "f", "r"], ["t", "f", "r"]),
        (&["--help", "t", "f", "r"], ["t", "f", "r"]),
        (&["tailplan", "x", "x", "x"], ["x", "x", "x"]),
        (&["tailplan", "", "", ""], ["", "", ""]),
        (&["tailplan", "-", "f", "-"], ["-", "f", "-"]),
        (
            &["tailplan", "./t.csv", "a b", "r=1"],
            ["./t.csv", "a b", "r=1"],
        ),
        (
            &["tailplan", "./trial", "trial", "trial"],
            ["./trial", "trial", "trial"],
        ),
        (&["tailplan", "--", "trial", "f", "r"], ["trial", "f", "r"]),
        (&["trial", "t", "f", "r"], ["t", "f", "r"]),
        (
            &["tailplan", "tåg", "flyg", "regler"],
            ["tåg", "flyg", "regler"],
        ),
        (&["tailplan", "help", "f", "r"], ["help", "f", "r"]),
        (&["tailplan", "--", "t", "f", "r"], ["t", "f", "r"]),
        (
            &["tailplan", "--", "-t", "--help", "-"],
            ["-t", "--help", "-"],
        ),
        (
            &["tailplan", "t", "--", "f", "--nodes"],
            ["t", "f", "--nodes"],
        ),
        (&["tailplan", "--", "--", "f", "r"], ["--", "f", "r"]),
        (&["tailplan", "t", "f", "r", "--"], ["t", "f", "r"]),
    ];
    for &(words, [timetable, fleet, rules]) in rows {
        let are_read = are_read_as(rt.alloc(), words, Some(named(timetable, fleet, rules)))?;
        assert!(rt; are_read, "{words:?}");
    }
    Ok(())
}

// A limit stands anywhere before two dashes, with a blank or a sign of equality.
#[test]
fn limits_are_numbers(rt: HostRuntime) -> Result<(), Fail> {
    let rows: &[(&[&str], u64)] = &[
        (&["tailplan", "t", "f", "r", "--nodes", "5"], 5),
        (&["tailplan", "--nodes=5", "t", "f", "r"], 5),
        (&["tailplan", "t", "--nodes", "0", "f", "r"], 0),
        (&["tailplan", "--nodes", "7", "--", "t", "f", "r"], 7),
        (
            &["tailplan", "t", "f", "r", "--nodes", "1000000000000"],
            NODE_LIMIT,
        ),
    ];
    for &(words, most) in rows {
        let names = limited("t", "f", "r", Limit::Nodes(most));
        let are_read = are_read_as(rt.alloc(), words, Some(names))?;
        assert!(rt; are_read, "{words:?}");
    }
    Ok(())
}

// Any text is a certificate's name, and the option stands where that of the limit may.
#[test]
fn certificates_have_names(rt: HostRuntime) -> Result<(), Fail> {
    let rows: &[(&[&str], Limit, &str)] = &[
        (
            &["tailplan", "t", "--cert", "c", "f", "r"],
            Limit::Free,
            "c",
        ),
        (&["tailplan", "t", "f", "r", "--cert=t"], Limit::Free, "t"),
        (&["tailplan", "t", "f", "r", "--cert", ""], Limit::Free, ""),
        (
            &["tailplan", "--cert=-c", "--nodes", "5", "t", "f", "r"],
            Limit::Nodes(5),
            "-c",
        ),
    ];
    for &(words, limit, cert) in rows {
        let names = TaskNames {
            cert: Some(cert),
            ..limited("t", "f", "r", limit)
        };
        let are_read = are_read_as(rt.alloc(), words, Some(names))?;
        assert!(rt; are_read, "{words:?}");
    }
    Ok(())
}

// Flags stand where options may, and a lean certificate has a name.
#[test]
fn flags_choose_order_and_version(rt: HostRuntime) -> Result<(), Fail> {
    let rows: &[(&[&str], Order, Version, Option<&str>)] = &[
        (
            &["tailplan", "t", "f", "r", "--best"],
            Order::LeastBound,
            Version::Full,
            None,
        ),
        (
            &["tailplan", "--best", "t", "f", "r", "--cert", "c"],
            Order::LeastBound,
            Version::Full,
            Some("c"),
        ),
        (
            &["tailplan", "t", "--lean", "f", "r", "--cert=c"],
            Order::DepthFirst,
            Version::Lean,
            Some("c"),
        ),
        (
            &["tailplan", "--lean", "--cert", "c", "--best", "t", "f", "r"],
            Order::LeastBound,
            Version::Lean,
            Some("c"),
        ),
    ];
    for &(words, order, version, cert) in rows {
        let names = TaskNames {
            order,
            version,
            cert,
            ..named("t", "f", "r")
        };
        let are_read = are_read_as(rt.alloc(), words, Some(names))?;
        assert!(rt; are_read, "{words:?}");
    }
    Ok(())
}

// Other numbers of names, names that begin with a dash, flags, and options without a value or twice.
#[test]
fn other_words_are_refused(rt: HostRuntime) -> Result<(), Fail> {
    let rows: &[&[&str]] = &[
        &[],
        &["tailplan"],
        &["tailplan", "t"],
        &["tailplan", "t", "f"],
        &["tailplan", "t", "f", "r", "x"],
        &["tailplan", "t", "f", "r", ""],
        &["tailplan", "-t", "f", "r"],
        &["tailplan", "t", "f", "-5"],
        &["tailplan", "t", "--f", "r"],
        &["tailplan", "t", "f", "r", "-x"],
        &["tailplan", "t", "f", "r", "--", "x"],
        &["tailplan", "--"],
        &["tailplan", "--help"],
        &["tailplan", "-h"],
        &["tailplan", "--version"],
        &["tailplan", "-V"],
        &["tailplan", "t", "f", "r", "--help"],
        &["tailplan", "-h", "t", "f", "r"],
        &["tailplan", "t", "f", "r", "--nodes"],
        &["tailplan", "t", "f", "r", "--nodes", "5", "--nodes", "5"],
        &["tailplan", "t", "f", "r", "--nodes", "5", "x"],
        &["tailplan", "t", "f", "r", "--nodes", "-5"],
        &["tailplan", "t", "f", "r", "--nodes=-5"],
        &["tailplan", "t", "f", "r", "--nodes", ""],
        &["tailplan", "t", "f", "r", "--nodes", "05"],
        &["tailplan", "t", "f", "r", "--nodes", "+5"],
        &["tailplan", "t", "f", "r", "--nodes", "5 "],
        &["tailplan", "t", "f", "r", "--nodes", "1000000000001"],
        &["tailplan", "--nodes", "t", "f", "r"],
        &["tailplan", "t", "f", "r", "--cert"],
        &["tailplan", "t", "f", "r", "--cert", "-c"],
        &["tailplan", "t", "f", "r", "--cert", "c", "--cert", "c"],
        &["tailplan", "--cert", "t", "f", "r"],
        &["tailplan", "t", "f", "r", "--lean"],
        &["tailplan", "t", "f", "r", "--best", "--best"],
        &["tailplan", "why", "f", "r"],
        &["tailplan", "quota", "f", "r"],
        &["tailplan", "trial", "f", "r"],
        &["tailplan", "trial", "1"],
        &["tailplan", "trial"],
    ];
    for &words in rows {
        let are_refused = are_read_as(rt.alloc(), words, None)?;
        assert!(rt; are_refused, "{words:?}");
    }
    Ok(())
}

// A seed stands alone behind the word, as a number with no zero in front.
#[test]
fn seeds_are_numbers(rt: HostRuntime) -> Result<(), Fail> {
    let rows: &[(&[&str], Option<u64>)] = &[
        (&["tailplan", "trial", "0"], Some(0)),
        (&["", "trial", "1"], Some(1)),
        (&["tailplan", "trial", "1000000"], Some(1_000_000)),
        (&["tailplan", "trial", "1000001"], None),
        (&["tailplan", "trial", "01"], None),
        (&["tailplan", "trial", "-1"], None),
        (&["tailplan", "trial", ""], None),
        (&["tailplan", "trial"], None),
        (&["tailplan", "trial", "1", "1"], None),
        (&["tailplan", "trial", "1", "--nodes", "5"], None),
        (&["tailplan", "--", "trial", "1"], None),
        (&["tailplan", "./trial", "1"], None),
        (&["tailplan", "Trial", "1"], None),
        (&["trial", "1"], None),
        (&[], None),
    ];
    for &(words, seed) in rows {
        let read = seed_of(&words_of(rt.alloc(), words)?);
        assert!(rt; read == seed, "{words:?}");
    }
    Ok(())
}
