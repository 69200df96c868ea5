//! Reads and writes that fail, and files that aren't there.

use super::{Run, USUAL, WORDS, each_run_ends_so, ends_failing};
use small_texts::THERE;
use std::test::Fail;

// A bad timetable, which has no header, a good fleet and good rules.
const BAD: Run<'_> = Run {
    timetable: &[THERE],
    ..USUAL
};

// A write that fails ends the run with what was printed before it, a read that fails with nothing printed. Each table
// takes two reads: its bytes, and its end.
#[test]
fn faults_end_a_run(rt: HostRuntime) -> Result<(), Fail> {
    for &(read, put, ended) in &[
        (0, 2, (6, "optimal 120\n")),
        (0, 1, (6, "")),
        (0, 3, (0, "optimal 120\nA1: F1 F2\n")),
        (1, 0, (5, "")),
        (2, 0, (5, "")),
        (3, 0, (5, "")),
        (5, 0, (5, "")),
        (6, 0, (5, "")),
        (7, 0, (0, "optimal 120\nA1: F1 F2\n")),
        (6, 1, (5, "")),
    ] {
        assert!(rt;
            ends_failing(rt.alloc(), &WORDS, read, put, ended)?,
            "{read} {put}"
        );
    }
    Ok(())
}

// A run that can't read a table.
const UNREAD: Run<'_> = Run {
    status: 5,
    printed: "",
    ..USUAL
};

// A file that isn't there can't be read.
#[test]
fn a_missing_file_ends_a_run(rt: HostRuntime) -> Result<(), Fail> {
    let runs: &[Run<'_>] = &[
        Run {
            words: &["tailplan", "none", "f", "r"],
            ..UNREAD
        },
        Run {
            words: &["tailplan", "t", "none", "r"],
            ..UNREAD
        },
        Run {
            words: &["tailplan", "t", "f", "none"],
            ..UNREAD
        },
    ];
    each_run_ends_so(&rt, rt.alloc(), runs)
}

#[test]
fn bad_tables_end_a_run(rt: HostRuntime) -> Result<(), Fail> {
    let runs: &[Run<'_>] = &[
        // all tables are read before one is judged: a timetable is refused only where the rules can be read
        Run {
            words: &["tailplan", "t", "f", "none"],
            status: 5,
            printed: "",
            ..BAD
        },
        Run {
            status: 3,
            printed: "refused 3 timetable 1\n",
            ..BAD
        },
        // a refusal that can't be written is status 6, with nothing printed
        Run {
            puts: &[1],
            status: 6,
            printed: "",
            ..BAD
        },
    ];
    each_run_ends_so(&rt, rt.alloc(), runs)
}
