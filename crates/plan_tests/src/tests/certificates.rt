//! Certificates by hand, and what is one line away from them: each reason, and the claims that are accepted.

ghost use Rattle.std.specs.Prelude.{◌≡◌, ◌<◌, length};

use super::books::{ARN, CHEAP, DEAR, Leg, OSL, TailRow, Task, activities, book, plain};
use super::pieces::is_fed_so;
use cert_checker::{Verdict, judge};
use std::alloc::Global;
use std::test::Fail;
use tail_book::*;

// Activities, aircraft, and the turn of the first type.
pub type Made = (&'static [Leg], &'static [TailRow], i64);

pub fn book_of(alloc: Global, made: &Made) -> Result<Book, Fail> {
    let &(legs, rows, turn) = made;
    let activities = activities(alloc, legs)?;
    book(alloc, activities, rows, plain(alloc, turn)?)
}

const THERE: Leg = (Task::Flight, (ARN, OSL), (360, 420));

const FIRST: TailRow = TailRow {
    ready: 300,
    ..CHEAP
};

const SECOND: TailRow = TailRow { ready: 300, ..DEAR };

// A flight and no aircraft.
pub const NOBODY: Made = (&[THERE], &[], 30);

// Two flights half an hour apart, and an aircraft that takes a minute more to turn.
pub const LATE: Made = (
    &[THERE, (Task::Flight, (OSL, ARN), (450, 510))],
    &[FIRST],
    31,
);

// Two flights at once, of an hour and of two, and two aircraft of which the second costs twice as much.
pub const RATES: Made = (
    &[THERE, (Task::Flight, (ARN, OSL), (360, 480))],
    &[FIRST, SECOND],
    30,
);

// Two flights at once, one back a minute too soon for both of two aircraft.
const TOO_SOON: Made = (
    &[
        THERE,
        (Task::Flight, (ARN, OSL), (360, 480)),
        (Task::Flight, (OSL, ARN), (450, 510)),
    ],
    &[FIRST, FIRST],
    31,
);

// The claim that a certificate shows, or the line and the reason of its first failure.
type Want = Result<Claim, (u64, u8)>;

// A failure of a line.
pub fn fails(line: u64, reason: u8) -> Verdict {
    Verdict::No { line, reason }
}

// The verdict that is wanted.
fn verdict(want: Want) -> Verdict {
    match want {
        Ok(claim) => Verdict::Yes(claim),
        Err((line, reason)) => fails(line, reason),
    }
}

// Whether a text has a verdict, whole and in pieces.
fn is_judged(alloc: Global, book: &Book, text: &[u8], told: Verdict) -> bool {
    judge(alloc, book, text) == Ok(told) && is_fed_so(alloc, book, text, told)
}

// A text, and the verdict on it.
type Judged = (&'static str, Want);

// The number of the first of these texts that has another verdict.
fn first_wrong(alloc: Global, book: &Book, rows: &[Judged]) -> Option<usize> {
    for (number, (text, want)) in rows.iter().enumerate() {
        if !is_judged(alloc, book, text.as_bytes(), verdict(*want)) {
            return Some(number);
        }
    }
    None
}

fn first_wrong_of(alloc: Global, made: &Made, rows: &[Judged]) -> Result<Option<usize>, Fail> {
    let book = book_of(alloc, made)?;
    Ok(first_wrong(alloc, &book, rows))
}

// Steps, splits, holes and stuck leaves, where two flights are a minute too close.
const WITHOUT_A_BOUND: &[Judged] = &[
    (
        "tailcert 1 2 1 0\nbar 0 1\nhole 1\nclaim infeasible\n",
        Ok(Claim::Infeasible),
    ),
    (
        "tailcert 1 2 1 0\nbar 0 0\nhole 1\nclaim infeasible\n",
        Err((2, 4)),
    ),
    (
        "tailcert 1 2 1 0\nbar 0 1\nbar 0 1\nclaim infeasible\n",
        Err((3, 3)),
    ),
    (
        "tailcert 1 2 1 0\nbar 0 1\nhole 0\nclaim infeasible\n",
        Err((3, 5)),
    ),
    (
        "tailcert 1 2 1 0\nbar 0 1\nmust 0 0\nhole 1\nclaim infeasible\n",
        Ok(Claim::Infeasible),
    ),
    (
        "tailcert 1 2 1 0\ncut 0 1\nhole 1\nclaim infeasible\n",
        Err((2, 4)),
    ),
    (
        "tailcert 1 2 1 0\nsplit fly 0 1\nstuck 0\nlabel 0 60000\nhole 1\nclaim infeasible\n",
        Ok(Claim::Infeasible),
    ),
    (
        "tailcert 1 2 1 0\nsplit fly 0 1\nstuck 0\nlabel 0 60001\nhole 1\nclaim infeasible\n",
        Err((3, 6)),
    ),
    (
        "tailcert 1 2 1 0\nsplit fly 0 1\nstuck 0\nhole 1\nclaim infeasible\n",
        Err((3, 6)),
    ),
    (
        "tailcert 1 2 1 0\nsplit fly 0 1\nstuck 0\nlabel 0 60000\nbar 0 1\n",
        Err((5, 3)),
    ),
    (
        "tailcert 1 2 1 0\nsplit fly 0 1\nstuck 0\nlabel 0 60000\nclaim infeasible\n",
        Err((5, 10)),
    ),
    (
        "tailcert 1 2 1 0\nsplit fly 0 1\nsplit fly 0 1\n",
        Err((3, 5)),
    ),
    ("tailcert 1 2 1 0\nsplit link 0 1\n", Err((2, 5))),
    (
        "tailcert 1 2 1 0\nbar 0 1\nhole 1\nclaim optimal 60\n",
        Err((4, 8)),
    ),
    (
        "tailcert 1 2 1 0\nbar 0 1\nhole 1\nplan\nclaim infeasible\n",
        Err((5, 2)),
    ),
    (
        "tailcert 1 2 1 0\nbar 0 1\nhole 1\nplan\nfly 0 0\nfly 1 0\nclaim infeasible\n",
        Err((7, 8)),
    ),
    ("claim infeasible\n", Err((1, 10))),
    ("plan\n", Err((1, 10))),
    ("bound\n", Err((1, 2))),
    ("fly 0 0\n", Err((1, 2))),
    ("tailcert 1 2 2 0\n", Err((1, 2))),
    ("tailcert 1 2 1 0\ntailcert 1 2 1 0\n", Err((2, 2))),
    ("tailcert 1 2 1 0\nbar 1 0\n", Err((2, 2))),
    ("tailcert 1 2 1 0\nhole 2\n", Err((2, 2))),
    ("tailcert 1 2 1 0\nstuck 1\n", Err((2, 2))),
    ("tailcert 1 2 1 0\ndual 0 1\n", Err((2, 2))),
    ("tailcert 1 2 1 0\nlabel 0 60000\n", Err((2, 2))),
    ("tailcert 1 2 1 0\ncover 0 0\n", Err((2, 2))),
    ("tailcert 1 2 1 0\r\n", Err((1, 1))),
    ("tailcert 1 2 1 0", Err((1, 10))),
    ("tailcert 1 2 1 0\n", Err((2, 10))),
    ("", Err((1, 10))),
    ("\n", Err((1, 1))),
];

// A hole, and a bound leaf without covers.
const NOBODY_COVERS: &[Judged] = &[
    (
        "tailcert 1 1 0 0\nhole 0\nclaim infeasible\n",
        Ok(Claim::Infeasible),
    ),
    (
        "tailcert 1 1 0 0\nbound\ndual 0 1001\nclaim limit 2 -\n",
        Ok(Claim::Limit { low: 2, high: None }),
    ),
];

// Splits with a tree for each branch or for one alone, labels that are not alive, and sums below 0.
const BRANCHES_AND_LOW_SUMS: &[Judged] = &[
    (
        "tailcert 1 2 2 0\nsplit fly 0 0\nbound\ndual 1 240000\ncover 0 60000\nlabel 0 60000\ncover 1 0\nlabel 1 0\nplan\n",
        Err((9, 10)),
    ),
    (
        "tailcert 1 2 2 0\nsplit fly 0 0\nbound\ncover 0 60000\nlabel 0 60000\ncover 1 0\nlabel 0 120000\n",
        Err((7, 5)),
    ),
    (
        "tailcert 1 2 2 0\nbound\ncover 0 0\nlabel 0 60000\nlabel 1 120000\ncover 1 0\nlabel 0 120000\nlabel 1 240000\nclaim limit 0 -\n",
        Ok(Claim::Limit { low: 0, high: None }),
    ),
    (
        "tailcert 1 2 2 0\nbound\ncover 0 -5\nlabel 0 60000\nlabel 1 120000\ncover 1 0\nlabel 0 120000\nlabel 1 240000\nclaim limit 0 -\n",
        Ok(Claim::Limit { low: 0, high: None }),
    ),
    (
        "tailcert 1 2 2 0\nbound\ncover 0 -5\nlabel 0 60000\nlabel 1 120000\ncover 1 0\nlabel 0 120000\nlabel 1 240000\nclaim limit 1 -\n",
        Err((9, 9)),
    ),
    (
        "tailcert 1 2 2 0\nsplit fly 0 0\nbound\ndual 1 240000\ncover 0 60000\nlabel 0 60000\ncover 1 0\nlabel 1 0\nmust 1 0\nbound\nclaim limit 0 -\n",
        Err((11, 10)),
    ),
];

// Steps of two aircraft by turns, before a split and in both of its branches. In the second one the other aircraft comes to
// what it may not fly in the first one, and its only way to the second flight is closed by a step.
const BY_TURNS: &[Judged] = &[
    (
        "tailcert 1 3 2 0\nbar 0 2\nsplit fly 0 0\nbar 0 1\nbar 1 2\nhole 2\nbar 1 2\nmust 1 0\nbar 1 1\nhole 2\nclaim infeasible\n",
        Ok(Claim::Infeasible),
    ),
    (
        "tailcert 1 3 2 0\nbar 0 2\nsplit fly 0 0\nbar 0 1\nbar 1 2\nhole 2\nbar 1 0\n",
        Err((7, 4)),
    ),
    (
        "tailcert 1 3 2 0\nbar 0 2\nsplit fly 0 0\nbar 0 1\nbar 1 2\nhole 2\nbar 1 2\nbar 1 1\n",
        Err((8, 4)),
    ),
    ("tailcert 1 3 2 0\nbar 0 2\nbar 1 2\nbar 0 1\n", Err((4, 4))),
];

// Lean leaves, where two flights are a minute too close: one at which the aircraft is stuck, with duals and without, and one at
// the root, which bounds by nothing that would do. Then versions, and lines that have no place.
const LEAN_WITHOUT_A_PLAN: &[Judged] = &[
    (
        "tailcert 2 2 1 0\nsplit fly 0 1\nlean\nhole 1\nclaim infeasible\n",
        Ok(Claim::Infeasible),
    ),
    (
        "tailcert 2 2 1 0\nsplit fly 0 1\nlean\ndual 0 1000\ndual 1 -1000\nhole 1\nclaim infeasible\n",
        Ok(Claim::Infeasible),
    ),
    (
        "tailcert 2 2 1 0\nsplit fly 0 1\nstuck 0\nlabel 0 60000\nhole 1\nclaim infeasible\n",
        Ok(Claim::Infeasible),
    ),
    (
        "tailcert 2 2 1 0\nbar 0 1\nlean\nclaim infeasible\n",
        Err((4, 9)),
    ),
    ("tailcert 2 2 1 0\nlean\nclaim infeasible\n", Err((3, 9))),
    ("lean\n", Err((1, 1))),
    ("tailcert 1 2 1 0\nlean\n", Err((2, 1))),
    ("tailcert 1 2 1 0\ntailcert 2 2 1 0\n", Err((2, 1))),
    ("tailcert 2 2 1 0\ntailcert 2 2 1 0\n", Err((2, 2))),
    ("tailcert 2 2 1 0\ntailcert 1 2 1 0\n", Err((2, 2))),
    ("tailcert 2 2 2 0\n", Err((1, 2))),
    ("tailcert 3 2 1 0\n", Err((1, 1))),
    ("tailcert 2 2 1 0\nlean\nlean\n", Err((3, 2))),
    ("tailcert 2 2 1 0\nlean\nbar 0 1\n", Err((3, 2))),
    ("tailcert 2 2 1 0\nlean\nlabel 0 0\n", Err((3, 2))),
    ("tailcert 2 2 1 0\nlean\nfly 0 0\n", Err((3, 2))),
    ("tailcert 2 2 1 0\nlean\ndual 2 1\n", Err((3, 2))),
    ("tailcert 2 2 1 0\nlean\ndual 1 1\ndual 1 1\n", Err((4, 2))),
    ("tailcert 2 2 1 0\nlean 0\n", Err((2, 1))),
    (
        "tailcert 2 2 1 0\nsplit fly 0 1\nlean\nplan\n",
        Err((4, 10)),
    ),
    (
        "tailcert 1 2 1 0\nsplit fly 0 1\nstuck 0\nlabel 0 60001\nlean\n",
        Err((5, 1)),
    ),
    (
        "tailcert 2 2 1 0\nsplit fly 0 1\nstuck 0\nlabel 0 60001\nlean\n",
        Err((3, 6)),
    ),
    ("tailcert 2 2 1 0\nlean", Err((2, 10))),
    ("tailcert 2 2 1 0\nlean\n", Err((3, 10))),
    ("tailcert 2 2 1 0\nlean\ndual 0 1\n", Err((4, 10))),
];

// A lean leaf without aircraft.
const LEAN_WITHOUT_AIRCRAFT: &[Judged] = &[
    (
        "tailcert 2 1 0 0\nlean\ndual 0 1001\nclaim limit 2 -\n",
        Ok(Claim::Limit { low: 2, high: None }),
    ),
    (
        "tailcert 2 1 0 0\nlean\ndual 0 1001\nclaim limit 3 -\n",
        Err((4, 9)),
    ),
];

// A lean leaf whose duals bound by the least cost, and what is one line away from it; and a leaf with covers in a text that
// may have lean ones.
const LEAN_AT_THE_LEAST: &[Judged] = &[
    (
        "tailcert 2 2 2 0\nlean\ndual 0 120000\ndual 1 180000\nplan\nfly 0 1\nfly 1 0\nclaim optimal 240\n",
        Ok(Claim::Optimal(240)),
    ),
    (
        "tailcert 2 2 2 0\nlean\ndual 0 120000\ndual 1 179000\nplan\nfly 0 1\nfly 1 0\nclaim optimal 240\n",
        Err((8, 9)),
    ),
    ("tailcert 2 2 2 0\nlean\ndual 0 4000001001\n", Err((3, 7))),
    ("tailcert 1 2 2 0\nlean\ndual 0 120000\n", Err((2, 1))),
    (
        "tailcert 2 2 2 0\nlean\ndual 0 120000\ndual 1 180000\ncover 0 0\n",
        Err((5, 2)),
    ),
    (
        "tailcert 2 2 2 0\nlean\nclaim limit 0 -\n",
        Ok(Claim::Limit { low: 0, high: None }),
    ),
    (
        "tailcert 2 2 2 0\nbound\ndual 0 120000\ndual 1 180000\ncover 0 -60000\nlabel 0 -60000\nlabel 1 -60000\ncover 1 0\nlabel 0 0\nlabel 1 60000\nclaim limit 240 -\n",
        Ok(Claim::Limit {
            low: 240,
            high: None,
        }),
    ),
    (
        "tailcert 2 2 2 0\nsplit fly 0 0\nlean\ndual 0 120000\ndual 1 180000\nlean\ndual 0 120000\ndual 1 180000\nclaim limit 240 -\n",
        Ok(Claim::Limit {
            low: 240,
            high: None,
        }),
    ),
];

// What the texts are about, their book, and their verdicts.
const TEXTS: &[(&str, Made, &[Judged])] = &[
    ("trees without a bound", LATE, WITHOUT_A_BOUND),
    ("nobody covers", NOBODY, NOBODY_COVERS),
    ("branches and low sums", RATES, BRANCHES_AND_LOW_SUMS),
    ("steps by turns", TOO_SOON, BY_TURNS),
    ("lean leaves without a plan", LATE, LEAN_WITHOUT_A_PLAN),
    (
        "lean leaves without aircraft",
        NOBODY,
        LEAN_WITHOUT_AIRCRAFT,
    ),
    ("lean leaves at the least", RATES, LEAN_AT_THE_LEAST),
];

fn texts() -> &'static [(&'static str, Made, &'static [Judged])] {
    TEXTS
}

#[test]
fn texts_are_judged(rt: HostRuntime) -> Result<(), Fail> {
    for (about, made, rows) in texts() {
        let wrong = first_wrong_of(rt.alloc(), made, rows)?;
        assert!(rt; wrong.is_none(), "{about}, row {wrong:?}");
    }
    Ok(())
}

// Bytes that no newline ends.
#[test]
fn nothing_but_zeros(rt: HostRuntime) -> Result<(), Fail> {
    let book = book_of(rt.alloc(), &NOBODY)?;
    let zeros = [b'0'; 201];
    assert!(rt; is_judged(rt.alloc(), &book, &zeros[..200], fails(1, 10)));
    assert!(rt; is_judged(rt.alloc(), &book, &zeros, fails(1, 1)));
    Ok(())
}

// A certificate of the least cost.
pub const LEAST: &[&str] = &[
    "tailcert 1 2 2 0",
    "bound",
    "dual 0 120000",
    "dual 1 180000",
    "cover 0 -60000",
    "label 0 -60000",
    "label 1 -60000",
    "cover 1 0",
    "label 0 0",
    "label 1 60000",
    "plan",
    "fly 0 1",
    "fly 1 0",
    "claim optimal 240",
];

// Its lines, with a text in place of those from one number up to another.
pub fn with_lines(alloc: Global, from: usize, until: usize, put: &str) -> Result<String, Memory> {
    let mut text = String::new(alloc);
    for (i, line) in LEAST.iter().enumerate() {
        if i == from {
            text.push_str(put)?;
        }
        if i < from || until <= i {
            text.push_str(line)?;
            text.push('\n')?;
        }
    }
    Ok(text)
}

// Lines of that certificate, a text in place of them, and the verdict.
type Change = (usize, usize, &'static str, Want);

fn is_judged_with(alloc: Global, book: &Book, change: &Change) -> bool {
    let &(from, until, put, want) = change;
    match with_lines(alloc, from, until, put) {
        Ok(text) => is_judged(alloc, book, text.as_bytes(), verdict(want)),
        Err(_) => false,
    }
}

// The number of the first of these changes that has another verdict.
fn first_wrong_change(alloc: Global, book: &Book, rows: &[Change]) -> Option<usize> {
    for (number, change) in rows.iter().enumerate() {
        if !is_judged_with(alloc, book, change) {
            return Some(number);
        }
    }
    None
}

// It whole, and one line of it left out, or another.
const ONE_LINE_AWAY: &[Change] = &[
    (0, 0, "", Ok(Claim::Optimal(240))),
    (0, 1, "", Err((1, 2))),
    (1, 2, "", Err((2, 2))),
    (2, 3, "", Err((13, 9))),
    (3, 4, "", Err((13, 9))),
    (4, 5, "", Err((5, 2))),
    (5, 6, "", Err((5, 6))),
    (6, 7, "", Err((5, 6))),
    (7, 8, "", Err((8, 2))),
    (8, 9, "", Err((8, 6))),
    (9, 10, "", Err((8, 6))),
    (10, 11, "", Err((11, 2))),
    (11, 12, "", Err((12, 2))),
    (12, 13, "", Err((13, 2))),
    (13, 14, "", Err((14, 10))),
    (3, 4, "dual 1 179999\n", Ok(Claim::Optimal(240))),
    (3, 4, "dual 1 179000\n", Err((14, 9))),
    (3, 4, "dual 1 180001\n", Err((5, 6))),
    (3, 4, "dual 1 4000001001\n", Err((4, 7))),
    (3, 4, "dual 1 0180000\n", Err((4, 1))),
    (3, 4, "dual 0 180000\n", Err((4, 2))),
    (4, 5, "cover 0 0\n", Err((5, 6))),
    (4, 5, "cover 1 -60000\n", Err((5, 2))),
    (5, 6, "label 0 -59999\n", Err((5, 6))),
    (5, 6, "label 0 -60000 0\n", Err((6, 2))),
    (5, 6, "label 2 -60000\n", Err((6, 2))),
    (7, 8, "cover 0 0\n", Err((8, 2))),
    (11, 12, "fly 1 0\n", Err((12, 2))),
    (11, 12, "fly 0 0\n", Err((14, 8))),
    (11, 13, "fly 0 0\nfly 1 1\n", Err((14, 8))),
    (13, 14, "claim optimal 239\n", Err((14, 8))),
    (13, 14, "claim infeasible\n", Err((14, 8))),
    (
        13,
        14,
        "claim limit 100 240\n",
        Ok(Claim::Limit {
            low: 100,
            high: Some(240),
        }),
    ),
    (13, 14, "claim limit 100 -\n", Err((14, 8))),
    (13, 14, "claim optimal 240\nx", Err((15, 10))),
];

// Each of its lines twice, and before the one that it comes behind.
const TWICE_AND_EARLY: &[Change] = &[
    (1, 1, "tailcert 1 2 2 0\n", Err((2, 2))),
    (2, 2, "bound\n", Err((3, 2))),
    (3, 3, "dual 0 120000\n", Err((4, 2))),
    (4, 4, "dual 1 180000\n", Err((5, 2))),
    (5, 5, "cover 0 -60000\n", Err((5, 6))),
    (6, 6, "label 0 -60000\n", Ok(Claim::Optimal(240))),
    (7, 7, "label 1 -60000\n", Ok(Claim::Optimal(240))),
    (8, 8, "cover 1 0\n", Err((8, 6))),
    (9, 9, "label 0 0\n", Ok(Claim::Optimal(240))),
    (10, 10, "label 1 60000\n", Ok(Claim::Optimal(240))),
    (11, 11, "plan\n", Err((12, 2))),
    (12, 12, "fly 0 1\n", Err((13, 2))),
    (13, 13, "fly 1 0\n", Err((14, 2))),
    (
        13,
        14,
        "claim optimal 240\nclaim optimal 240\n",
        Err((15, 2)),
    ),
    (0, 2, "bound\ntailcert 1 2 2 0\n", Err((1, 2))),
    (1, 3, "dual 0 120000\nbound\n", Err((2, 2))),
    (2, 4, "dual 1 180000\ndual 0 120000\n", Err((4, 2))),
    (3, 5, "cover 0 -60000\ndual 1 180000\n", Err((4, 6))),
    (4, 6, "label 0 -60000\ncover 0 -60000\n", Err((5, 2))),
    (5, 7, "label 1 -60000\nlabel 0 -60000\n", Err((7, 2))),
    (6, 8, "cover 1 0\nlabel 1 -60000\n", Err((5, 6))),
    (7, 9, "label 0 0\ncover 1 0\n", Err((8, 2))),
    (8, 10, "label 1 60000\nlabel 0 0\n", Err((10, 2))),
    (9, 11, "plan\nlabel 1 60000\n", Err((8, 6))),
    (10, 12, "fly 0 1\nplan\n", Err((11, 2))),
    (11, 13, "fly 1 0\nfly 0 1\n", Err((12, 2))),
    (12, 14, "claim optimal 240\nfly 1 0\n", Err((13, 2))),
];

fn changes() -> [&'static [Change]; 2] {
    [ONE_LINE_AWAY, TWICE_AND_EARLY]
}

#[test]
fn changes_are_judged(rt: HostRuntime) -> Result<(), Fail> {
    let book = book_of(rt.alloc(), &RATES)?;
    let [away, twice] = changes();
    let wrong = first_wrong_change(rt.alloc(), &book, away);
    assert!(rt; wrong.is_none(), "one line away, row {wrong:?}");
    let wrong = first_wrong_change(rt.alloc(), &book, twice);
    assert!(rt; wrong.is_none(), "twice and early, row {wrong:?}");
    Ok(())
}

// The first end of a text that is not unfinished in the line of the byte there.
fn first_end(alloc: Global, book: &Book, bytes: &[u8]) -> Option<usize> {
    let mut line = 1u64;
    for end in 0..bytes.len() {
        if !is_judged(alloc, book, &bytes[..end], fails(line, 10)) {
            return Some(end);
        }
        if bytes[end] == b'\n' {
            line = line.saturating_add(1);
        }
    }
    None
}

// A certificate of the least cost that is cut before any of its bytes is unfinished in the line of that byte.
#[test]
fn cut_at_every_byte(rt: HostRuntime) -> Result<(), Fail> {
    let book = book_of(rt.alloc(), &RATES)?;
    let text = with_lines(rt.alloc(), 0, 0, "")?;
    let end = first_end(rt.alloc(), &book, text.as_bytes());
    assert!(rt; end.is_none(), "{end:?}");
    Ok(())
}

// Whether a claim is true where legal plans have these costs, which rise, and no others.
fn is_true(costs: &[u64], claim: Claim) -> bool {
    match claim {
        Claim::Optimal(cost) => costs.first().copied() == Some(cost),
        Claim::Infeasible => costs.is_empty(),
        Claim::Limit { low, high } => {
            let is_low = costs.first().copied().is_none_or(|least| low <= least);
            is_low && high.is_none_or(|cost| costs.contains(&cost))
        }
    }
}

// Whether a verdict is none that claims what is not true.
fn is_safe(costs: &[u64], verdict: Verdict) -> bool {
    match verdict {
        Verdict::Yes(claim) => is_true(costs, claim),
        Verdict::No { .. } => true,
    }
}

// Whether a text never claims what is not true, with any of six bytes at a place.
fn is_safe_at(
    alloc: Global,
    book: &Book,
    costs: &[u64],
    bytes: &mut [u8],
    at: usize,
) -> Result<bool, Memory>
    requires { at < length bytes.old }
    ensures { length bytes.new ≡ length bytes.old }
{
    let known = bytes[at];
    for byte in b"019- \n" {
        bytes[at] = *byte;
        if !is_safe(costs, judge(alloc, book, bytes)?) {
            return Ok(false);
        }
    }
    bytes[at] = known;
    Ok(true)
}

// The first place at which another byte makes a text claim what is not true.
fn unsafe_place(
    alloc: Global,
    book: &Book,
    costs: &[u64],
    text: &str,
) -> Result<Option<usize>, Memory> {
    let mut copy = Vec::from_slice(alloc, text.as_bytes())?;
    let bytes = copy.as_mut_slice();
    for at in 0..bytes.len() {
        if !is_safe_at(alloc, book, costs, bytes, at)? {
            return Ok(Some(at));
        }
    }
    Ok(None)
}

fn unsafe_place_of(
    alloc: Global,
    made: &Made,
    costs: &[u64],
    text: &str,
) -> Result<Option<usize>, Fail> {
    let book = book_of(alloc, made)?;
    Ok(unsafe_place(alloc, &book, costs, text)?)
}

// A split, and a leaf without covers, in books that have no legal plan.
pub const SPLIT: &str =
    "tailcert 1 2 1 0\nsplit fly 0 1\nstuck 0\nlabel 0 60000\nhole 1\nclaim infeasible\n";

pub const BARE_LEAF: &str = "tailcert 1 1 0 0\nbound\ndual 0 1001\nclaim limit 2 -\n";

// The same with lean leaves, and a lean certificate of the least cost.
const LEAN_SPLIT: &str =
    "tailcert 2 2 1 0\nsplit fly 0 1\nlean\ndual 0 1000\nhole 1\nclaim infeasible\n";

const LEAN_BARE_LEAF: &str = "tailcert 2 1 0 0\nlean\ndual 0 1001\nclaim limit 2 -\n";

const LEAN_LEAST: &str = "tailcert 2 2 2 0\nlean\ndual 0 120000\ndual 1 180000\n\
plan\nfly 0 1\nfly 1 0\nclaim optimal 240\n";

// What a certificate is of, its book, what legal plans of that cost, and its text.
type Known = (&'static str, Made, &'static [u64], &'static str);

const KNOWN: &[Known] = &[
    ("a split", LATE, &[], SPLIT),
    ("a bare leaf", NOBODY, &[], BARE_LEAF),
    ("a lean split", LATE, &[], LEAN_SPLIT),
    ("a lean bare leaf", NOBODY, &[], LEAN_BARE_LEAF),
    ("a lean least cost", RATES, &[240, 300], LEAN_LEAST),
];

fn known() -> &'static [Known] {
    KNOWN
}

// A certificate with one byte changed, each in turn to six others, never claims what is not true: one of a least cost, of
// a split, and of a leaf without covers, and lean ones of these.
#[test]
fn one_byte_away(rt: HostRuntime) -> Result<(), Fail> {
    let least = with_lines(rt.alloc(), 0, 0, "")?;
    let place = unsafe_place_of(rt.alloc(), &RATES, &[240, 300], &least)?;
    assert!(rt; place.is_none(), "a least cost, {place:?}");
    for (about, made, costs, text) in known() {
        let place = unsafe_place_of(rt.alloc(), made, costs, text)?;
        assert!(rt; place.is_none(), "{about}, {place:?}");
    }
    Ok(())
}
