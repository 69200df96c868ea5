//! Curfews to the minute: hours of a day and past midnight, landings at night, and local days beside those of UTC.

use super::rows::{AIRCRAFT, ActivityRow, BookRows, CurfewRow, FLIGHT, book};
use std::alloc::Global;
use std::test::Fail;
use tail_book::*;
use turn_rules::curfewed;

// What a curfew is about.
#[derive(Clone, Copy)]
enum Of {
    Starts,
    Landings,
}

// A flight of an hour that starts at the first airport, or that lands there, at a moment.
fn flight(of: Of, moment: i64) -> ActivityRow<'static> {
    let (leg, time) = match of {
        Of::Starts => ((0, 1), (moment, moment.saturating_add(60))),
        Of::Landings => ((1, 0), (moment.saturating_sub(60), moment)),
    };
    ActivityRow {
        leg,
        time,
        ..FLIGHT
    }
}

fn is_first_curfewed(book: &Book) -> bool {
    !book.tails.is_empty() && !book.activities.is_empty() && curfewed(book, 0, 0)
}

// Whether such a flight is stopped by a curfew on starts or landings in these local hours, in local time so far ahead of UTC.
fn stops(alloc: Global, offset: i64, hours: (i64, i64), of: Of, moment: i64) -> Result<bool, Fail> {
    let curfew = CurfewRow {
        airport: 0,
        hours,
        types: &[],
        starts: matches!(of, Of::Starts),
        landings: matches!(of, Of::Landings),
    };
    let rows = BookRows {
        kinds: &[(10, 40)],
        airports: &[(offset, 0), (0, 0)],
        curfews: &[curfew],
        counters: &[],
        bands: &[],
        tails: &[AIRCRAFT],
        activities: &[flight(of, moment)],
    };
    Ok(is_first_curfewed(&book(alloc, &rows)?))
}

const DAY: (i64, i64) = (480, 510);

const NIGHT: (i64, i64) = (1380, 360);

const NONE: (i64, i64) = (600, 600);

// Hours of the day, some past midnight and none at all, each at its ends and a minute beside them.
#[test]
fn hours_to_the_minute(rt: HostRuntime) -> Result<(), Fail> {
    for row in &[
        (DAY, 479, false),
        (DAY, 480, true),
        (DAY, 509, true),
        (DAY, 510, false),
        (NIGHT, 1379, false),
        (NIGHT, 1380, true),
        (NIGHT, 0, true),
        (NIGHT, 359, true),
        (NIGHT, 360, false),
        (NONE, 600, false),
        (NONE, 0, false),
    ] {
        let &(hours, minute, want) = row;
        assert!(rt;
            stops(rt.alloc(), 0, hours, Of::Starts, minute)? == want,
            "{row:?}"
        );
    }
    Ok(())
}

// Landings at an airport an hour ahead of UTC that is closed from 23:00 to 06:00 there.
#[test]
fn closed_at_night(rt: HostRuntime) -> Result<(), Fail> {
    for &(moment, want) in &[(1319, false), (1320, true), (1739, true), (1740, false)] {
        let found = stops(rt.alloc(), 60, NIGHT, Of::Landings, moment)?;
        assert!(rt; found == want, "at {moment}");
    }
    Ok(())
}

// Local days begin before and after those of UTC: a curfew of one minute stops a start at that minute, and not one before it.
#[test]
fn local_minutes_over_midnight(rt: HostRuntime) -> Result<(), Fail> {
    for row in &[
        (60, 1, 61),
        (60, 1379, 1439),
        (60, 1380, 0),
        (-300, 1, 1141),
        (-300, 299, 1439),
        (-300, 300, 0),
    ] {
        let &(offset, moment, local) = row;
        let minute = (local, (local + 1) % 1440);
        let found = stops(rt.alloc(), offset, minute, Of::Starts, moment)?;
        let before = stops(rt.alloc(), offset, minute, Of::Starts, moment - 1)?;
        assert!(rt; found && !before, "{row:?}");
    }
    Ok(())
}
