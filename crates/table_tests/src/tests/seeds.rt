//! Trials as the readers and the audit see them.

use book_maker::read_book;
use plan_audit::{Audit, audit};
use seed_tables::{SEED_LIMIT, Trial, trial_tables};
use std::alloc::Global;
use std::test::Fail;
use table_records::names;
use tail_book::{Book, RawLine, RawPlan};
use tail_text::name;

// Seeds, each with the minutes that its first types fly and twice those of the others. The sums come from another program,
// which draws as the definition says and keeps to no proof.
const SUMS: &[(u64, u64)] = &[
    (0, 21_737),
    (1, 21_418),
    (2, 21_367),
    (3, 22_015),
    (4, 21_515),
    (5, 20_310),
    (6, 21_818),
    (7, 21_872),
    (8, 21_874),
    (9, 22_866),
    (10, 21_338),
    (11, 21_347),
    (12, 22_487),
    (13, 21_930),
    (14, 21_300),
    (15, 21_010),
    (16, 21_256),
    (17, 22_341),
    (18, 21_180),
    (19, 20_832),
];

// The plan of the making: each aircraft with its own fifteen flights, in order.
const LINES: &[(&str, &str)] = &[
    (
        "A0",
        "K0N00 K0N01 K0N02 K0N03 K0N04 K0N05 K0N06 K0N07 K0N08 K0N09 K0N10 K0N11 K0N12 K0N13 K0N14",
    ),
    (
        "A1",
        "K1N00 K1N01 K1N02 K1N03 K1N04 K1N05 K1N06 K1N07 K1N08 K1N09 K1N10 K1N11 K1N12 K1N13 K1N14",
    ),
    (
        "A2",
        "K2N00 K2N01 K2N02 K2N03 K2N04 K2N05 K2N06 K2N07 K2N08 K2N09 K2N10 K2N11 K2N12 K2N13 K2N14",
    ),
    (
        "A3",
        "K3N00 K3N01 K3N02 K3N03 K3N04 K3N05 K3N06 K3N07 K3N08 K3N09 K3N10 K3N11 K3N12 K3N13 K3N14",
    ),
    (
        "A4",
        "K4N00 K4N01 K4N02 K4N03 K4N04 K4N05 K4N06 K4N07 K4N08 K4N09 K4N10 K4N11 K4N12 K4N13 K4N14",
    ),
    (
        "A5",
        "K5N00 K5N01 K5N02 K5N03 K5N04 K5N05 K5N06 K5N07 K5N08 K5N09 K5N10 K5N11 K5N12 K5N13 K5N14",
    ),
    (
        "A6",
        "K6N00 K6N01 K6N02 K6N03 K6N04 K6N05 K6N06 K6N07 K6N08 K6N09 K6N10 K6N11 K6N12 K6N13 K6N14",
    ),
    (
        "A7",
        "K7N00 K7N01 K7N02 K7N03 K7N04 K7N05 K7N06 K7N07 K7N08 K7N09 K7N10 K7N11 K7N12 K7N13 K7N14",
    ),
];

fn line_of(alloc: Global, tail: &str, ids: &str) -> Result<RawLine, Fail> {
    match (name(tail.as_bytes()), names(alloc, ids.as_bytes())) {
        (Ok(tail), Ok(ids)) => Ok(RawLine { tail, ids }),
        _ => Err(Fail::new("no names")),
    }
}

fn plan_made(alloc: Global) -> Result<RawPlan, Fail> {
    let mut lines = Vec::new(alloc);
    for &(tail, ids) in LINES {
        lines.push(line_of(alloc, tail, ids)?)?;
    }
    Ok(RawPlan { lines })
}

fn trial_of(alloc: Global, seed: u64) -> Result<Trial, Fail> {
    if seed > SEED_LIMIT {
        return Err(Fail::new("no such seed"));
    }
    Ok(trial_tables(alloc, seed)?)
}

// What the plan of the making costs in a book, where it is legal.
fn cost_in(alloc: Global, book: &Book) -> Result<Option<u64>, Fail> {
    match audit(alloc, book, &plan_made(alloc)?)? {
        Audit::Legal(cost) => Ok(Some(cost)),
        Audit::Broken(_) => Ok(None),
    }
}

// The same in the book of a seed.
fn audited(alloc: Global, seed: u64) -> Result<Option<u64>, Fail> {
    let trial = trial_of(alloc, seed)?;
    match read_book(alloc, &trial.timetable, &trial.fleet, &trial.rules) {
        Ok(book) => cost_in(alloc, &book),
        Err(_) => Err(Fail::new("no book")),
    }
}

#[test]
fn plans_of_the_making_are_legal(rt: HostRuntime) -> Result<(), Fail> {
    for &(seed, sum) in SUMS {
        assert!(rt; audited(rt.alloc(), seed)? == Some(sum), "{seed}");
    }
    Ok(())
}

fn begins_with(alloc: Global, seed: u64, text: &[u8]) -> Result<bool, Fail> {
    Ok(trial_of(alloc, seed)?.fleet.starts_with(text))
}

// The first aircraft of the first two seeds.
#[test]
fn first_lines(rt: HostRuntime) -> Result<(), Fail> {
    let first =
        b"tail,type,at,ready,fixed,tags,avoid,carry\nA0,P,T2,2025-03-03T00:00,0,,,\n".as_slice();
    assert!(rt; begins_with(rt.alloc(), 0, first)?);
    let second =
        b"tail,type,at,ready,fixed,tags,avoid,carry\nA0,P,T4,2025-03-03T00:00,0,,,\n".as_slice();
    assert!(rt; begins_with(rt.alloc(), 1, second)?);
    Ok(())
}
