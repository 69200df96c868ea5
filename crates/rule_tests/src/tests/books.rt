//! A small book and what its activities cost by its table, and where a book or a table breaks a limit.

use super::rows::{AIRCRAFT, ActivityRow, BookRows, FLIGHT, TailRow, book_of};
use std::alloc::Global;
use std::test::Fail;
use tail_book::*;

// What a test changes of the book: its first activity, its second aircraft, its first type and its airport. Names are digits.
#[derive(Clone, Copy)]
struct Parts {
    id: u32,
    start: i64,
    end: i64,
    tail: Option<u32>,
    name: u32,
    kind: u32,
    fixed: u64,
    rate: u64,
    turn: i64,
    offset: i64,
    upto: i64,
}

const WHOLE: Parts = Parts {
    id: 1,
    start: 360,
    end: 420,
    tail: None,
    name: 2,
    kind: 1,
    fixed: 0,
    rate: 1,
    turn: 30,
    offset: 60,
    upto: 60,
};

const GROUND: ActivityRow = ActivityRow {
    id: 5,
    flight: false,
    time: (450, 550),
    ..FLIGHT
};

const BACK: ActivityRow = ActivityRow {
    id: 6,
    time: (600, 630),
    ..FLIGHT
};

const OLD: TailRow = TailRow {
    id: 1,
    fixed: 7,
    ..AIRCRAFT
};

// Flights to and from one airport, and ground time. A type that costs 1 a minute, and one that costs 3; a stop of up to an hour
// costs 5, a longer one 40.
fn book(alloc: Global, parts: Parts) -> Result<Option<Book>, Memory> {
    let (mut first, mut second) = (FLIGHT, AIRCRAFT);
    (first.id, first.time, first.tail) = (parts.id, (parts.start, parts.end), parts.tail);
    (second.id, second.kind, second.fixed) = (parts.name, parts.kind, parts.fixed);
    let rows = BookRows {
        kinds: &[(parts.rate, parts.turn), (3, 30)],
        airports: &[(parts.offset, 30)],
        curfews: &[],
        counters: &[],
        bands: &[(parts.upto, 5), (10_000_000, 40)],
        tails: &[OLD, second],
        activities: &[first, GROUND, BACK],
    };
    book_of(alloc, &rows)
}

fn whole_table(alloc: Global) -> Result<CostTable, Fail> {
    let Some(book) = book(alloc, WHOLE)? else {
        return Err(Fail::new("no book"));
    };
    Ok(CostTable::of(alloc, &book)?)
}

// An hour, ground time and half an hour: 7 for each activity beside 1 a minute, and 3 a minute alone.
#[test]
fn own_costs(rt: HostRuntime) -> Result<(), Fail> {
    let table = whole_table(rt.alloc())?;
    assert!(rt; (table.n, table.m) == (3, 2));
    assert!(rt; table.fly.as_slice() == [67, 7, 37, 180, 0, 90].as_slice());
    assert!(rt; (table.fly_max, table.band_max) == (1_000_000, 1_000_000));
    assert!(rt; table.bands.len() == 2);
    assert!(rt; (table.bands[0].upto, table.bands[0].cost) == (60, 5));
    assert!(rt; (table.bands[1].upto, table.bands[1].cost) == (10_000_000, 40));
    Ok(())
}

// Parts, and whether there is a book of them.
type Row = (Parts, bool);

// The number of the first row that is otherwise.
fn first_wrong(alloc: Global, rows: &[Row]) -> Result<Option<usize>, Memory> {
    for (number, &(parts, kept)) in rows.iter().enumerate() {
        if book(alloc, parts)?.is_some() != kept {
            return Ok(Some(number));
        }
    }
    Ok(None)
}

// Each limit, and a step beyond it.
const LIMITS: &[Row] = &[
    (WHOLE, true),
    (Parts { start: 0, ..WHOLE }, true),
    (Parts { start: -1, ..WHOLE }, false),
    (Parts { end: 361, ..WHOLE }, true),
    (Parts { end: 360, ..WHOLE }, false),
    (Parts { end: 3240, ..WHOLE }, true),
    (Parts { end: 3241, ..WHOLE }, false),
    (
        Parts {
            tail: Some(1),
            ..WHOLE
        },
        true,
    ),
    (
        Parts {
            tail: Some(2),
            ..WHOLE
        },
        false,
    ),
    (Parts { kind: 2, ..WHOLE }, false),
    (
        Parts {
            fixed: 100_000,
            ..WHOLE
        },
        true,
    ),
    (
        Parts {
            fixed: 100_001,
            ..WHOLE
        },
        false,
    ),
    (Parts { rate: 300, ..WHOLE }, true),
    (Parts { rate: 301, ..WHOLE }, false),
    (
        Parts {
            turn: 1440,
            ..WHOLE
        },
        true,
    ),
    (
        Parts {
            turn: 1441,
            ..WHOLE
        },
        false,
    ),
    (
        Parts {
            offset: -840,
            ..WHOLE
        },
        true,
    ),
    (
        Parts {
            offset: -841,
            ..WHOLE
        },
        false,
    ),
    (
        Parts {
            upto: 10_000_000,
            ..WHOLE
        },
        true,
    ),
    (
        Parts {
            upto: 10_000_001,
            ..WHOLE
        },
        false,
    ),
];

#[test]
fn limits_of_a_book(rt: HostRuntime) -> Result<(), Fail> {
    let wrong = first_wrong(rt.alloc(), LIMITS)?;
    assert!(rt; wrong.is_none(), "row {wrong:?}");
    Ok(())
}

// The first activity a minute after the second one starts, and at the same time.
const AFTER: Parts = Parts {
    start: 451,
    end: 500,
    ..WHOLE
};

const BESIDE: Parts = Parts {
    start: 450,
    end: 500,
    ..WHOLE
};

// Activities stand in order of start and then id, and no name stands twice.
const ORDER: &[Row] = &[
    (AFTER, false),
    (Parts { id: 4, ..BESIDE }, true),
    (Parts { id: 7, ..BESIDE }, false),
    (Parts { id: 5, ..WHOLE }, false),
    (Parts { name: 1, ..WHOLE }, false),
];

#[test]
fn order_and_names_of_a_book(rt: HostRuntime) -> Result<(), Fail> {
    let wrong = first_wrong(rt.alloc(), ORDER)?;
    assert!(rt; wrong.is_none(), "row {wrong:?}");
    Ok(())
}

// Whether there is a table of one entry, which is 5, and one band, which costs 7, with these numbers.
fn is_table(alloc: Global, n: usize, fly_max: u64, band_max: u64) -> Result<bool, Memory> {
    let fly = vec![in alloc; 5]?;
    let bands = vec![in alloc; Band { upto: 60, cost: 7 }]?;
    Ok(CostTable::new(n, 1, fly, bands, fly_max, band_max).is_some())
}

// An entry and a band at their maxima, and sums of costs up to 2^61 thousandths.
#[test]
fn limits_of_a_table(rt: HostRuntime) -> Result<(), Fail> {
    for row in &[
        (1, 5, 7, true),
        (1, 4, 7, false),
        (1, 5, 6, false),
        (1, 1_152_921_504_606_839, 7, true),
        (1, 1_152_921_504_606_840, 7, false),
        (1, u64::MAX, u64::MAX, false),
        (0, u64::MAX, u64::MAX, true),
        (2_305_843_009_213_694, 5, 7, false),
        (usize::MAX, 5, 7, false),
    ] {
        let &(n, fly_max, band_max, kept) = row;
        assert!(rt;
            is_table(rt.alloc(), n, fly_max, band_max)? == kept,
            "{row:?}"
        );
    }
    Ok(())
}
