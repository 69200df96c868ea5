//! Rules of local time: what their texts say, which texts are none, and the changes that they make.

use book_maker::read_book;
use fleet_rules::zone;
use jiff_core::Timestamp;
use jiff_tz::posix;
use std::alloc::{AllocError, Global};
use std::test::Fail;
use tail_book::{Airport, Book, Change};
use turn_rules::local_offset;

// Cities of the north, and of the south, where daylight time stands over the turn of the year. Rules name the last day of
// a month or one of its first, and clocks change by day, at midnight, and at the end of a day. In winter Dublin is behind
// its standard time. Lord Howe's clocks change by half an hour.
const STOCKHOLM: &str = "CET-1CEST,M3.5.0,M10.5.0/3";

const LONDON: &str = "GMT0BST,M3.5.0/1,M10.5.0";

const DUBLIN: &str = "IST-1GMT0,M10.5.0,M3.5.0/1";

const CAIRO: &str = "EET-2EEST,M4.5.5/0,M10.5.4/24";

const NEW_YORK: &str = "EST5EDT,M3.2.0,M11.1.0";

const ST_JOHNS: &str = "NST3:30NDT,M3.2.0,M11.1.0";

const SANTIAGO: &str = "<-04>4<-03>,M9.1.6/24,M4.1.6/24";

const SYDNEY: &str = "AEST-10AEDT,M10.1.0,M4.1.0/3";

const LORD_HOWE: &str = "<+1030>-10:30<+11>-11,M10.1.0,M4.1.0";

const AUCKLAND: &str = "NZST-12NZDT,M9.5.0,M4.1.0/3";

// What a text says, as its rule is shown.
const RULES: &[(&str, &str)] = &[
    ("UTC0", "Fixed(0)"),
    ("CET-1", "Fixed(60)"),
    ("CET-01:00", "Fixed(60)"),
    ("EST+5", "Fixed(-300)"),
    ("ABCDEF14", "Fixed(-840)"),
    ("abc-14:00", "Fixed(840)"),
    ("<-03>3", "Fixed(-180)"),
    ("<+0545>-5:45", "Fixed(345)"),
    (
        STOCKHOLM,
        "Daylight { standard: 60, daylight: 120, \
         first: DayRule { month: 3, week: 5, weekday: 0, time: 120 }, \
         second: DayRule { month: 10, week: 5, weekday: 0, time: 180 } }",
    ),
    (
        LONDON,
        "Daylight { standard: 0, daylight: 60, \
         first: DayRule { month: 3, week: 5, weekday: 0, time: 60 }, \
         second: DayRule { month: 10, week: 5, weekday: 0, time: 120 } }",
    ),
    (
        DUBLIN,
        "Daylight { standard: 60, daylight: 0, \
         first: DayRule { month: 10, week: 5, weekday: 0, time: 120 }, \
         second: DayRule { month: 3, week: 5, weekday: 0, time: 60 } }",
    ),
    (
        CAIRO,
        "Daylight { standard: 120, daylight: 180, \
         first: DayRule { month: 4, week: 5, weekday: 5, time: 0 }, \
         second: DayRule { month: 10, week: 5, weekday: 4, time: 1440 } }",
    ),
    (
        NEW_YORK,
        "Daylight { standard: -300, daylight: -240, \
         first: DayRule { month: 3, week: 2, weekday: 0, time: 120 }, \
         second: DayRule { month: 11, week: 1, weekday: 0, time: 120 } }",
    ),
    (
        ST_JOHNS,
        "Daylight { standard: -210, daylight: -150, \
         first: DayRule { month: 3, week: 2, weekday: 0, time: 120 }, \
         second: DayRule { month: 11, week: 1, weekday: 0, time: 120 } }",
    ),
    (
        SANTIAGO,
        "Daylight { standard: -240, daylight: -180, \
         first: DayRule { month: 9, week: 1, weekday: 6, time: 1440 }, \
         second: DayRule { month: 4, week: 1, weekday: 6, time: 1440 } }",
    ),
    (
        SYDNEY,
        "Daylight { standard: 600, daylight: 660, \
         first: DayRule { month: 10, week: 1, weekday: 0, time: 120 }, \
         second: DayRule { month: 4, week: 1, weekday: 0, time: 180 } }",
    ),
    (
        LORD_HOWE,
        "Daylight { standard: 630, daylight: 660, \
         first: DayRule { month: 10, week: 1, weekday: 0, time: 120 }, \
         second: DayRule { month: 4, week: 1, weekday: 0, time: 120 } }",
    ),
    (
        AUCKLAND,
        "Daylight { standard: 720, daylight: 780, \
         first: DayRule { month: 9, week: 5, weekday: 0, time: 120 }, \
         second: DayRule { month: 4, week: 1, weekday: 0, time: 180 } }",
    ),
    (
        "AAA-13BBB,M01.1.0,M3.1.0/00:01",
        "Daylight { standard: 780, daylight: 840, \
         first: DayRule { month: 1, week: 1, weekday: 0, time: 120 }, \
         second: DayRule { month: 3, week: 1, weekday: 0, time: 1 } }",
    ),
    (
        "AAA0<B-9>-14:00,M12.5.6/9:59,M2.1.0/24:00",
        "Daylight { standard: 0, daylight: 840, \
         first: DayRule { month: 12, week: 5, weekday: 6, time: 599 }, \
         second: DayRule { month: 2, week: 1, weekday: 0, time: 1440 } }",
    ),
    // names
    ("", ""),
    ("AB0", ""),
    ("ABCDEFG0", ""),
    ("AB10", ""),
    ("<AB>0", ""),
    ("<ABCDEFG>0", ""),
    ("<ABC0", ""),
    ("<A C>0", ""),
    ("\u{e5}\u{e5}\u{e5}0", ""),
    // offsets
    ("CET", ""),
    ("CET1:0", ""),
    ("CET1:60", ""),
    ("CET1:", ""),
    ("CET100", ""),
    ("CET14:01", ""),
    ("CET+-1", ""),
    ("CET1:00:00", ""),
    ("CET-1 ", ""),
    (" CET-1", ""),
    ("CET-1\n", ""),
    ("CET-1\u{0}", ""),
    // daylight time
    ("CET-1CEST", ""),
    ("CET-1CEST-2", ""),
    ("CET-1CEST,M3.5.0", ""),
    ("CET-1CEST,M3.5.0,", ""),
    ("CET-1CEST,M3.5.0,M10.5.0,", ""),
    ("CET-1CEST,M3.5.0,M10.5.0/3 ", ""),
    ("AAA-14BBB,M3.5.0,M10.5.0", ""),
    ("AAA-13:01BBB,M3.5.0,M10.5.0", ""),
    // rules
    ("CET-1CEST,J60,J300", ""),
    ("CET-1CEST,59,299", ""),
    ("CET-1CEST,M0.5.0,M10.5.0", ""),
    ("CET-1CEST,M13.5.0,M10.5.0", ""),
    ("CET-1CEST,M003.5.0,M10.5.0", ""),
    ("CET-1CEST,M3.0.0,M10.5.0", ""),
    ("CET-1CEST,M3.6.0,M10.5.0", ""),
    ("CET-1CEST,M3.5.7,M10.5.0", ""),
    ("CET-1CEST,M3.5,M10.5.0", ""),
    ("CET-1CEST,M3.05.0,M10.5.0", ""),
    ("CET-1CEST,M3.5.0/,M10.5.0", ""),
    ("CET-1CEST,M3.5.0/-1,M10.5.0", ""),
    ("CET-1CEST,M3.5.0/+1,M10.5.0", ""),
    ("CET-1CEST,M3.5.0/24:01,M10.5.0", ""),
    ("CET-1CEST,M3.5.0/25,M10.5.0", ""),
    ("CET-1CEST,M3.5.0/2:00:00,M10.5.0", ""),
    ("CET-1CEST,m3.5.0,M10.5.0", ""),
    // months that are equal or neighbours
    ("CET-1CEST,M3.1.0,M3.5.0", ""),
    ("CET-1CEST,M3.5.0,M4.1.0", ""),
    ("CET-1CEST,M4.1.0,M3.5.0", ""),
    ("CET-1CEST,M12.5.0,M1.5.0", ""),
    ("CET-1CEST,M1.5.0,M12.5.0", ""),
];

// A rule as it is shown, and nothing for a text that is none.
fn shown(alloc: Global, text: &str) -> Result<String, AllocError> {
    match zone(text.as_bytes()) {
        Ok(rule) => format!(in alloc; "{rule:?}"),
        Err(_) => Ok(String::new(alloc)),
    }
}

#[test]
fn texts_say_rules(rt: HostRuntime) -> Result<(), Fail> {
    for &(text, want) in RULES {
        let found = shown(rt.alloc(), text)?;
        assert!(rt; found.as_str() == want, "{text}: {found}");
    }
    Ok(())
}

// No part of a text may be left out at its end: the whole is a rule, and fronts of it only where a name and an offset end.
#[test]
fn fronts_are_rules_of_their_own(rt: HostRuntime) {
    let text = b"CET-1CEST-2,M3.5.0/2:00,M10.5.0/3";
    for end in 0..text.len() {
        assert!(rt;
            zone(&text[..end]).is_ok() == (end == 5 || end == 31),
            "{end}"
        );
    }
}

// A rule, a year, and its two changes: the moment of each, and the offset from then on.
type Row = (&'static str, u16, [(i64, i64); 2]);

// The first and the last year that have changes are among these, and years with and without a leap day.
const CHANGES: &[Row] = &[
    (STOCKHOLM, 1969, [(-398_820, 120), (-96_420, 60)]),
    (STOCKHOLM, 2000, [(15_900_540, 120), (16_213_020, 60)]),
    (STOCKHOLM, 2025, [(29_054_940, 120), (29_357_340, 60)]),
    (STOCKHOLM, 2100, [(68_497_980, 120), (68_810_460, 60)]),
    (STOCKHOLM, 2200, [(121_095_420, 120), (121_397_820, 60)]),
    (LONDON, 1970, [(125_340, 60), (427_740, 0)]),
    (LONDON, 2200, [(121_095_420, 60), (121_397_820, 0)]),
    (DUBLIN, 1969, [(-398_820, 60), (-96_420, 0)]),
    (DUBLIN, 2000, [(15_900_540, 60), (16_213_020, 0)]),
    (CAIRO, 1970, [(162_600, 180), (434_700, 120)]),
    (CAIRO, 2025, [(29_092_200, 180), (29_364_300, 120)]),
    (CAIRO, 2100, [(68_545_320, 180), (68_807_340, 120)]),
    (NEW_YORK, 1969, [(-428_700, -240), (-86_040, -300)]),
    (NEW_YORK, 2000, [(15_880_740, -240), (16_223_400, -300)]),
    (NEW_YORK, 2025, [(29_025_060, -240), (29_367_720, -300)]),
    (NEW_YORK, 2200, [(121_065_540, -240), (121_408_200, -300)]),
    (ST_JOHNS, 2100, [(68_478_090, -150), (68_820_750, -210)]),
    (SANTIAGO, 1969, [(-388_620, -240), (-166_800, -180)]),
    (SANTIAGO, 1970, [(135_540, -240), (357_360, -180)]),
    (SANTIAGO, 2025, [(29_065_140, -240), (29_286_960, -180)]),
    (SANTIAGO, 2200, [(121_105_620, -240), (121_327_440, -180)]),
    (SYDNEY, 1969, [(-389_280, 600), (-127_200, 660)]),
    (SYDNEY, 2000, [(15_910_080, 600), (16_172_160, 660)]),
    (SYDNEY, 2100, [(68_507_520, 600), (68_769_600, 660)]),
    (SYDNEY, 2200, [(121_104_960, 600), (121_367_040, 660)]),
    (LORD_HOWE, 1970, [(134_820, 630), (396_930, 660)]),
    (AUCKLAND, 1969, [(-389_400, 720), (-137_400, 780)]),
    (AUCKLAND, 2000, [(15_909_960, 720), (16_161_960, 780)]),
    (AUCKLAND, 2200, [(121_104_840, 720), (121_356_840, 780)]),
];

const TIMETABLE: &[u8] = b"id,kind,from,to,start,end,types,tags,tail,resets\n";

const FLEET: &[u8] = b"tail,type,at,ready,fixed,tags,avoid,carry\n";

// A book with nothing but so many airports of this rule.
fn book_of(alloc: Global, zone: &str, count: u8) -> Result<Book, Fail> {
    let mut rules = String::new(alloc);
    for number in 0..count {
        let entry = format!(in alloc;
            "[[airport]]\nname = \"A{number}\"\nzone = \"{zone}\"\nturn = 0\n"
        )?;
        rules.push_str(&entry)?;
    }
    match read_book(alloc, TIMETABLE, FLEET, rules.as_bytes()) {
        Ok(book) => Ok(book),
        Err(_) => Err(Fail::new("no book")),
    }
}

// The changes of a year at the first airport.
fn changes_of(book: &Book, year: u16) -> Option<&[Change]> {
    let at = 2 * (year as usize).saturating_sub(1969);
    book.rules.airports.first()?.changes.get(at..at + 2)
}

fn is_row(alloc: Global, row: &Row) -> Result<bool, Fail> {
    let &(zone, year, want) = row;
    let book = book_of(alloc, zone, 1)?;
    Ok(match changes_of(&book, year) {
        Some([one, other]) => [(one.at, one.offset), (other.at, other.offset)] == want,
        _ => false,
    })
}

#[test]
fn rules_make_two_changes_a_year(rt: HostRuntime) -> Result<(), Fail> {
    for row in CHANGES {
        assert!(rt; is_row(rt.alloc(), row)?, "{row:?}");
    }
    Ok(())
}

// The minutes from UTC to local time at the first airport.
fn minutes_at(book: &Book, t: i64) -> Option<i64> {
    if book.rules.airports.is_empty() {
        None
    } else {
        Some(local_offset(book, 0, t))
    }
}

// Moments with the minutes from UTC to local time: on both sides of changes, before the first and behind the last.
const MINUTES: &[(&str, i64, i64)] = &[
    (SYDNEY, 0, 660),
    (STOCKHOLM, -398_821, 60),
    (STOCKHOLM, -398_820, 120),
    (STOCKHOLM, 29_054_939, 60),
    (STOCKHOLM, 29_054_940, 120),
    (STOCKHOLM, 29_357_339, 120),
    (STOCKHOLM, 29_357_340, 60),
    (STOCKHOLM, 121_397_820, 60),
];

fn are_minutes(alloc: Global, row: &(&'static str, i64, i64)) -> Result<bool, Fail> {
    let &(zone, moment, want) = row;
    let book = book_of(alloc, zone, 1)?;
    Ok(minutes_at(&book, moment) == Some(want))
}

#[test]
fn clocks_go_by_the_last_change(rt: HostRuntime) -> Result<(), Fail> {
    for row in MINUTES {
        assert!(rt; are_minutes(rt.alloc(), row)?, "{row:?}");
    }
    Ok(())
}

// The same as another reader of the same text has it.
fn others_minutes_at(zone: &posix::TimeZone, t: i64) -> Option<i64> {
    let at = Timestamp::from_nanosecond(t as i128 * 60_000_000_000).ok()?;
    Some(zone.to_offset(at).seconds as i64 / 60)
}

// Whether each minute of the day before a moment and of the day behind it has the offset that this reader has.
fn is_as_read_around(book: &Book, zone: &posix::TimeZone, moment: i64) -> bool {
    for minute in 0..2880u16 {
        let t = moment.saturating_add(minute as i64 - 1440);
        if minutes_at(book, t) != others_minutes_at(zone, t) {
            return false;
        }
    }
    true
}

// Whether all minutes around the changes of a year have that offset.
fn is_year_as_read(alloc: Global, text: &str, year: u16) -> Result<bool, Fail> {
    let book = book_of(alloc, text, 1)?;
    let Ok(zone) = posix::TimeZone::parse(text.as_bytes()) else {
        return Ok(false);
    };
    Ok(match changes_of(&book, year) {
        Some([one, other]) => {
            is_as_read_around(&book, &zone, one.at) && is_as_read_around(&book, &zone, other.at)
        }
        _ => false,
    })
}

#[test]
fn days_of_changes_are_as_another_reader_has_them(rt: HostRuntime) -> Result<(), Fail> {
    for &(text, year) in &[(STOCKHOLM, 2025), (NEW_YORK, 1970), (SANTIAGO, 2025)] {
        assert!(rt;
            is_year_as_read(rt.alloc(), text, year)?,
            "{text} in {year}"
        );
    }
    Ok(())
}

fn has_changes(airport: &Airport) -> bool {
    airport.changes.len() == 464
}

fn each_has_changes(book: &Book) -> bool {
    let airports = &book.rules.airports;
    airports.len() == 200 && airports.iter().all(|airport| has_changes(airport))
}

// As many airports as a book may have, each with its changes.
#[test]
fn each_airport_has_its_changes(rt: HostRuntime) -> Result<(), Fail> {
    let book = book_of(rt.alloc(), AUCKLAND, 200)?;
    assert!(rt; each_has_changes(&book));
    Ok(())
}
