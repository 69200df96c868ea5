//! Where things stand in a picture.
//!
//! From left to right one unit is one minute, so a bar stands at its activity's minutes as they are. The picture as a
//! whole is shown smaller: three units are two pixels.

ghost use Rattle.std.specs.Prelude.{◌≡◌, ◌<◌, ◌++◌, OnOk};
ghost use Rattle.tail_book.specs.Lookup.{start_of};
ghost use Rattle.tail_book.specs.inside.Sound.{IsMoment};
ghost use Rattle.plan_picture.specs.inside.Drawable.{IsNear};
ghost use Rattle.plan_picture.specs.Layout.{days_shown, end_shown, first_moment, last_end, minutes_to, span, x_of, y_of};

use tail_book::limits::DAY;
use tail_book::{Book, Memory, end_of, start_of};
use tail_text::Line;

/// The units left of the first minute, for names.
pub const LEFT: u64 = 340;

/// The units above the first row, for the title and the calendar.
pub const TOP: u64 = 130;

/// The height of a row, in units.
pub const ROW_HEIGHT: u64 = 100;

/// The width of a day, in units: its minutes.
pub const DAY_WIDTH: u64 = 1_440;

/// The first moment that is shown: that of the day on which the first activity starts.
pub fn first_moment(book: &Book) -> i64
    ensures value { result ≡ first_moment book.now }
    ensures range { IsMoment result }
{
    let start = first_start(book);
    start - start.rem_euclid(DAY)
}

fn first_start(book: &Book) -> i64
    ensures value { result ≡ start_of book.now 0 }
    ensures range { IsMoment result }
{
    if book.activities.is_empty() {
        return 0;
    }
    start_of(book, 0)
}

fn last_end(book: &Book, first: i64) -> i64
    requires { IsMoment first }
    ensures value { result ≡ last_end first book.now.activities }
    ensures range { IsMoment result }
{
    let mut latest = first;
    for b in 0..book.activities.len() {
        latest = latest.max(end_of(book, b as u32));
    }
    latest
}

/// The minutes from one moment to a later one, and 0 where it is earlier.
pub fn minutes_to(from: i64, to: i64) -> u64
    requires from { IsNear from }
    requires to { IsNear to }
    ensures value { result ≡ minutes_to from to }
    ensures range { result < 1_000_002_000 }
{
    (to - from).max(0).unsigned_abs()
}

/// How many days the picture shows.
pub fn days_shown(book: &Book) -> u64
    ensures value { result ≡ days_shown book.now }
    ensures range { result < 100_000 }
{
    let first = first_moment(book);
    minutes_to(first, last_end(book, first)) / DAY_WIDTH + 1
}

/// The first moment behind the days that the picture shows.
pub fn end_shown(book: &Book) -> i64
    ensures value { result ≡ end_shown book.now }
    ensures range { IsNear result }
{
    first_moment(book) + (days_shown(book) * DAY_WIDTH) as i64
}

/// Where a moment stands, in units from the left.
pub fn x_of(first: i64, moment: i64) -> u64
    requires first { IsNear first }
    requires moment { IsNear moment }
    ensures value { result ≡ x_of first moment }
    ensures range { result < 1_000_003_000 }
{
    LEFT + minutes_to(first, moment)
}

/// Where a row begins, in units from the top.
pub fn y_of(row: u64) -> u64
    requires { row < 1000 }
    ensures value { result ≡ y_of row }
    ensures range { result < 200_000 }
{
    TOP + row * ROW_HEIGHT
}

/// Appends the place and the width of what lasts from one moment to another, as attributes.
pub fn add_span(first: i64, y: u64, from: i64, to: i64, line: &mut Line) -> Result<(), Memory>
    requires first { IsNear first }
    requires from { IsNear from }
    requires to { IsNear to }
    ensures { OnOk result (line.new ≡ line.old ++ span first y from to) }
{
    line.text(b" x='")?;
    line.unsigned(x_of(first, from))?;
    line.text(b"' y='")?;
    line.unsigned(y)?;
    line.text(b"' width='")?;
    line.unsigned(x_of(first, to).saturating_sub(x_of(first, from)))?;
    line.text(b"'")
}
