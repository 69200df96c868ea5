//! Numbers and moments in texts, and a line that is put together piece by piece. What is no number or moment is
//! answered as bad, and not why.

ghost use Rattle.std.specs.Prelude.{◌≡◌, ◌<◌, ◌≤◌, ◌++◌, pos, codes, IfOk};
ghost use Rattle.std.specs.Fmt.{signed_decimal};
ghost use Rattle.tail_book.specs.Link.{gap};
ghost use Rattle.tail_book.specs.Lookup.{activities, activity_of, aircraft};
ghost use Rattle.tail_book.specs.Ranges.{IsWithin};
ghost use Rattle.tail_book.specs.inside.Sound.{IsMoment};
ghost use Rattle.tail_text.specs.Number.{number_of};
ghost use Rattle.tail_text.specs.Stamp.{stamp_of};
ghost use Rattle.sample_calls.specs.Texts.{later};

use std::alloc::Global;
use tail_book::{Book, Memory, Place};
use tail_text::{Bad, Line, number, stamp};
use turn_rules::gap;

/// A moment that is written `YYYY-MM-DDTHH:MM`, put off by minutes that are written in digits, a day of them at most.
/// In minutes since 1970-01-01T00:00 UTC.
pub fn delayed(moment: &[u8], minutes: &[u8]) -> Result<i64, Bad>
    ensures value { result ≡ later (stamp_of moment.now) (number_of 1440 minutes.now) }
    ensures range { IfOk result (IsWithin (pos 0) (pos 120_970_079)) }
{
    later(stamp(moment), number(minutes, 1440))
}

fn later(moment: Result<i64, Bad>, minutes: Result<u64, Bad>) -> Result<i64, Bad>
    requires moment { IfOk moment IsMoment }
    requires minutes { IfOk minutes (λ m. m ≤ 1440) }
    ensures value { result ≡ later moment minutes }
    ensures range { IfOk result (IsWithin (pos 0) (pos 120_970_079)) }
{
    match (moment, minutes) {
        (Ok(moment), Ok(minutes)) => Ok(moment + minutes as i64),
        _ => Err(Bad),
    }
}

/// The ids of two activities, and the minutes between them, with a minus where the second starts before the first ends:
/// as `F1 F2 30`.
pub fn ground_line(alloc: Global, book: &Book, k: u32, x: u32, b: u32) -> Result<Line, Memory>
    requires aircraft { k < aircraft book.now }
    requires before { x < activities book.now }
    requires after { b < activities book.now }
    ensures { IfOk result (λ line. line ≡ (activity_of book.now x).id ++ codes " " ++ (activity_of book.now b).id ++ codes " "
        ++ signed_decimal (gap book.now k (Place.After x) b)) }
{
    let mut line = Line::new(alloc)?;
    line.text(book.activities[x as usize].id.as_bytes())?;
    line.text(b" ")?;
    line.text(book.activities[b as usize].id.as_bytes())?;
    line.text(b" ")?;
    line.signed(gap(book, k, Place::After(x), b))?;
    Ok(line)
}
