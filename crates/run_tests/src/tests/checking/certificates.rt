//! Certificates that are accepted, and certificates that fail, each at its line.

use super::fixtures::{Case, assert_ends_so, by_certificate};
use small_texts::{
    AT_ONCE, CHEAP_AND_DEAR, DEAR_TYPE, FLEET, LONGER_TURN, ONE_AT_ARLANDA, RULES, THERE,
    THERE_AND_BACK, TIMETABLE, Typed,
};
use std::alloc::{AllocError, Global};
use std::process::Abort;
use std::test::Fail;

/// A quick flight and a slow one at the same time, a cheap aircraft and a dear one.
pub fn same_time<'a>(judged: &'a [&'a str]) -> Typed<'a> {
    Typed {
        timetable: &[TIMETABLE, AT_ONCE],
        fleet: &[FLEET, CHEAP_AND_DEAR],
        rules: &[RULES, DEAR_TYPE],
        judged,
    }
}

// A flight and one back, a minute too early for the aircraft's turn.
const TOO_EARLY: Typed<'_> = Typed {
    timetable: &[TIMETABLE, THERE_AND_BACK],
    fleet: &[FLEET, ONE_AT_ARLANDA],
    rules: &[LONGER_TURN],
    judged: &[],
};

// A flight and no aircraft.
const NO_AIRCRAFT: Typed<'_> = Typed {
    timetable: &[TIMETABLE, THERE],
    fleet: &[FLEET],
    rules: &[RULES],
    judged: &[],
};

/// A certificate of the two flights at the same time, made by hand.
pub const LEAST: [&str; 14] = [
    "tailcert 1 2 2 0\n",
    "bound\n",
    "dual 0 120000\n",
    "dual 1 180000\n",
    "cover 0 -60000\n",
    "label 0 -60000\n",
    "label 1 -60000\n",
    "cover 1 0\n",
    "label 0 0\n",
    "label 1 60000\n",
    "plan\n",
    "fly 0 1\n",
    "fly 1 0\n",
    "claim optimal 240\n",
];

/// The parts of a certificate, and what is printed of it.
pub type Row<'a> = (&'a [&'a str], &'a str);

/// Asserts that a certificate is judged so by these tables.
pub fn assert_is_judged_so<'a>(
    rt: &impl Abort,
    alloc: Global,
    tables: Typed<'a>,
    (judged, printed): Row<'a>,
) -> Result<(), Fail> {
    let status = if printed.starts_with("yes ") { 0 } else { 1 };
    let case = by_certificate(Typed { judged, ..tables }, status, printed);
    assert_ends_so(rt, alloc, &case)
}

// Asserts that each of them is.
fn each_is_judged_so<'a>(
    rt: &impl Abort,
    alloc: Global,
    tables: Typed<'a>,
    rows: &[Row<'a>],
) -> Result<(), Fail> {
    for &row in rows {
        assert_is_judged_so(rt, alloc, tables, row)?;
    }
    Ok(())
}

// Asserts that a run over the two flights at the same time in which this read and this put fail ends so; number 0 is none.
fn assert_fault_ends_so<'a>(
    rt: &impl Abort,
    alloc: Global,
    judged: &'a [&'a str],
    (read, put): (u64, u64),
    status: u8,
    printed: &'a str,
) -> Result<(), Fail> {
    let case = Case {
        reads: &[read],
        puts: &[put],
        ..by_certificate(same_time(judged), status, printed)
    };
    assert_ends_so(rt, alloc, &case)
}

// The certificate with some of its lines replaced: from this line on so many by these.
#[test]
fn damage_is_found_at_its_line(rt: HostRuntime) -> Result<(), Fail> {
    for &(first, count, new, printed) in &[
        (1, 0, "", "yes optimal 240\n"),
        (7, 1, "", "no 5 OpenCover\n"),
        (5, 1, "cover 0 0\n", "no 5 OpenCover\n"),
        (14, 1, "", "no 14 Unfinished\n"),
        (14, 1, "claim optimal 239\n", "no 14 BadPlan\n"),
        (14, 1, "claim infeasible\n", "no 14 BadPlan\n"),
        (12, 2, "fly 0 0\nfly 1 1\n", "no 14 BadPlan\n"),
        (4, 1, "dual 1 179999\n", "yes optimal 240\n"),
        (4, 1, "dual 1 179000\n", "no 14 WeakBound\n"),
        (4, 1, "dual 1 4000001001\n", "no 4 OutOfBox\n"),
        (4, 1, "dual 1 0180000\n", "no 4 BadLine\n"),
        (8, 1, "cover 0 0\n", "no 8 OutOfPlace\n"),
        (15, 0, "claim optimal 240\n", "no 15 OutOfPlace\n"),
        (15, 0, "x", "no 15 Unfinished\n"),
        (14, 1, "claim limit 100 240\n", "yes limit 100 240\n"),
        (14, 1, "claim optimal 240", "no 14 Unfinished\n"),
        (
            2,
            9,
            "split fly 0 0\nbound\ndual 1 240000\ncover 0 60000\nlabel 0 60000\ncover 1 0\nlabel 1 0\n",
            "no 9 Unfinished\n",
        ),
    ] {
        let mut cert = Vec::new(rt.alloc());
        push_changed(&mut cert, first, count, new)?;
        assert_is_judged_so(&rt, rt.alloc(), same_time(&[]), (&cert, printed))?;
    }
    Ok(())
}

// Adds the certificate's lines with these in place of so many from this one on.
fn push_changed<'a>(
    lines: &mut Vec<&'a str>,
    first: usize,
    count: usize,
    new: &'a str,
) -> Result<(), AllocError> {
    let (mut number, behind) = (0usize, first.saturating_add(count));
    for &line in &LEAST {
        number = number.saturating_add(1);
        if number == first {
            lines.push(new)?;
        }
        if number < first || number >= behind {
            lines.push(line)?;
        }
    }
    if first > LEAST.len() {
        lines.push(new)?;
    }
    Ok(())
}

// Steps, holes, stuck leaves and bounds, on tables with no legal plan and on those of the limit.
#[test]
fn leaves_and_steps_are_judged(rt: HostRuntime) -> Result<(), Fail> {
    each_is_judged_so(
        &rt,
        rt.alloc(),
        TOO_EARLY,
        &[
            (
                &["tailcert 1 2 1 0\nbar 0 1\nhole 1\nclaim infeasible\n"],
                "yes infeasible\n",
            ),
            (
                &["tailcert 1 2 1 0\nbar 0 1\nmust 0 0\nhole 1\nclaim infeasible\n"],
                "yes infeasible\n",
            ),
            (
                &["tailcert 1 2 1 0\nbar 0 0\nhole 1\nclaim infeasible\n"],
                "no 2 NotFollowing\n",
            ),
            (
                &["tailcert 1 2 1 0\nbar 0 1\nbar 0 1\nclaim infeasible\n"],
                "no 3 KnownFact\n",
            ),
            (
                &["tailcert 1 2 1 0\nbar 0 1\nhole 0\nclaim infeasible\n"],
                "no 3 NotAlive\n",
            ),
            (
                &[
                    "tailcert 1 2 1 0\nsplit fly 0 1\nstuck 0\nlabel 0 60000\nhole 1\nclaim infeasible\n",
                ],
                "yes infeasible\n",
            ),
            (
                &[
                    "tailcert 1 2 1 0\nsplit fly 0 1\nstuck 0\nlabel 0 60001\nhole 1\nclaim infeasible\n",
                ],
                "no 3 OpenCover\n",
            ),
        ],
    )?;
    each_is_judged_so(
        &rt,
        rt.alloc(),
        NO_AIRCRAFT,
        &[(
            &["tailcert 1 1 0 0\nhole 0\nclaim infeasible\n"],
            "yes infeasible\n",
        )],
    )?;
    each_is_judged_so(
        &rt,
        rt.alloc(),
        same_time(&[]),
        &[
            (
                &[
                    "tailcert 1 2 2 0\nbound\ncover 0 0\nlabel 0 60000\nlabel 1 120000\n",
                    "cover 1 0\nlabel 0 120000\nlabel 1 240000\nclaim limit 0 -\n",
                ],
                "yes limit 0 -\n",
            ),
            (&["claim infeasible\n"], "no 1 Unfinished\n"),
            (&[], "no 1 Unfinished\n"),
        ],
    )
}

// The certificate with its first label five thousand times, so that it comes in two pieces that are cut within a line, and this
// text behind it.
fn long_certificate(alloc: Global, behind: &'static str) -> Result<Vec<&'static str>, Fail> {
    let mut cert = Vec::from_slice(alloc, &LEAST[..5])?;
    for _ in 0..5_000 {
        cert.push("label 0 -60000\n")?;
    }
    cert.extend_from_slice(&LEAST[5..])?;
    cert.push(behind)?;
    Ok(cert)
}

// Asserts that it is judged so.
fn assert_long_is_judged_so(
    rt: &impl Abort,
    alloc: Global,
    behind: &'static str,
    printed: &'static str,
) -> Result<(), Fail> {
    let cert = long_certificate(alloc, behind)?;
    assert_is_judged_so(rt, alloc, same_time(&[]), (&cert, printed))
}

#[test]
fn certificates_come_in_pieces(rt: HostRuntime) -> Result<(), Fail> {
    assert_long_is_judged_so(&rt, rt.alloc(), "", "yes optimal 240\n")?;
    assert_long_is_judged_so(&rt, rt.alloc(), "x\n", "no 5015 BadLine\n")
}

// Each file is read in two calls, the certificate's last, but nothing is read behind a failure. Where one fails nothing is printed,
// and where the put fails neither.
#[test]
fn faults_end_a_run(rt: HostRuntime) -> Result<(), Fail> {
    let (alloc, least) = (rt.alloc(), LEAST.as_slice());
    for call in 1..9 {
        assert_fault_ends_so(&rt, alloc, least, (call, 0), 5, "")?;
    }
    assert_fault_ends_so(&rt, alloc, least, (9, 2), 0, "yes optimal 240\n")?;
    assert_fault_ends_so(&rt, alloc, &["x\n"], (8, 0), 1, "no 1 BadLine\n")?;
    assert_fault_ends_so(&rt, alloc, least, (0, 1), 6, "")?;
    assert_fault_ends_so(&rt, alloc, &["x\n"], (0, 1), 6, "")
}

// Asserts that a run over these aircraft that names no certificate ends so.
fn assert_unread_ends_so<'a>(
    rt: &impl Abort,
    alloc: Global,
    aircraft: &'a str,
    status: u8,
    printed: &'a str,
) -> Result<(), Fail> {
    let typed = Typed {
        fleet: &[FLEET, aircraft],
        ..same_time(&[])
    };
    let case = Case {
        words: &["tailcheck", "t", "f", "r", "--cert", "none"],
        ..by_certificate(typed, status, printed)
    };
    assert_ends_so(rt, alloc, &case)
}

// A certificate is read only where the tables are a book: one that isn't there is not missed where the fleet is refused.
#[test]
fn a_certificate_is_read_last(rt: HostRuntime) -> Result<(), Fail> {
    assert_unread_ends_so(&rt, rt.alloc(), CHEAP_AND_DEAR, 5, "")?;
    assert_unread_ends_so(&rt, rt.alloc(), "A1,P,ARN\n", 3, "refused 4 fleet 2\n")
}
