//! Which connections belong to a quota, to the minute: at the ends of a day, and where they are short and no longer are.

use super::rows::{AIRCRAFT, ActivityRow, BookRows, FLIGHT, TailRow, first_wrong};
use quota_rows::*;
use std::test::Fail;
use tail_book::*;

const ARN: u32 = 0;

const OSL: u32 = 1;

// Home at 23:30 on the first day, and out again at 23:59, at midnight and at 23:59 of the next day, and at the midnight after it;
// and one from the other airport.
const BOOK: &BookRows = &BookRows {
    kinds: &[(10, 30)],
    airports: &[(600, 30), (-600, 30)],
    curfews: &[],
    counters: &[],
    bands: &[],
    tails: &[TailRow {
        at: OSL,
        ..AIRCRAFT
    }],
    activities: &[
        ActivityRow {
            id: 0,
            leg: (OSL, ARN),
            time: (1350, 1410),
            ..FLIGHT
        },
        ActivityRow {
            id: 1,
            leg: (ARN, OSL),
            time: (1439, 1500),
            ..FLIGHT
        },
        ActivityRow {
            id: 2,
            leg: (ARN, OSL),
            time: (1440, 1500),
            ..FLIGHT
        },
        ActivityRow {
            id: 3,
            flight: false,
            leg: (ARN, ARN),
            time: (2879, 2900),
            ..FLIGHT
        },
        ActivityRow {
            id: 4,
            leg: (ARN, OSL),
            time: (2880, 2900),
            ..FLIGHT
        },
        ActivityRow {
            id: 5,
            leg: (OSL, ARN),
            time: (2881, 2900),
            ..FLIGHT
        },
    ],
};

// The airport, the day and the minutes of a quota, a connection, and whether it belongs.
type Question = ((u32, i64, i64), u32, u32, bool);

fn belongs_so(book: &Book, &((airport, day, below), a, b, want): &Question) -> bool {
    let quota = Quota {
        airport,
        day,
        below,
        most: 0,
    };
    (a as usize) < book.activities.len()
        && (b as usize) < book.activities.len()
        && belongs(book, &quota, a, b) == want
}

// The airport is that where the second starts, the day that of its start by UTC, and time on the ground counts below the quota's
// minutes. Whether the first ends there, or the second may follow, is not asked.
#[test]
fn what_belongs_to_a_quota(rt: HostRuntime) -> Result<(), Fail> {
    let rows = &[
        ((ARN, 0, 30), 0, 1, true),
        ((ARN, 0, 29), 0, 1, false),
        ((ARN, 1, 30), 0, 1, false),
        ((OSL, 0, 30), 0, 1, false),
        ((ARN, 1, 31), 0, 2, true),
        ((ARN, 1, 30), 0, 2, false),
        ((ARN, 0, 31), 0, 2, false),
        ((ARN, 1, 1470), 0, 3, true),
        ((ARN, 1, 1469), 0, 3, false),
        ((ARN, 2, 1471), 0, 4, true),
        ((ARN, 1, 1471), 0, 4, false),
        ((ARN, 2, 10_000_000), 0, 5, false),
        ((OSL, 2, 10_000_000), 0, 5, true),
        ((OSL, 2, 1), 5, 5, true),
        ((ARN, 0, 1), 4, 1, true),
        ((OSL, 0, -149), 1, 0, true),
        ((OSL, 0, -150), 1, 0, false),
        ((OSL, 0, i64::MIN), 1, 0, false),
        ((OSL, i64::MAX, i64::MAX), 1, 0, false),
    ];
    let wrong = first_wrong(rt.alloc(), BOOK, rows, belongs_so)?;
    assert!(rt; wrong.is_none(), "row {wrong:?}");
    Ok(())
}
