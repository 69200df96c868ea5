//! A book from three texts, and why texts are no book. The first refusal is the only one: what stands behind it is not
//! looked at.

ghost use Rattle.std.specs.Prelude.{◌≡◌, IfOk};
ghost use Rattle.tail_text.specs.inside.Reading.{Answers};
ghost use Rattle.book_maker.specs.Made.{book_of};
ghost use Rattle.sample_calls.specs.Books.{refusal_text};

use book_maker::make_book;
use fleet_rules::{read_fleet, read_rules};
use plan_report::refusal_line;
use std::alloc::Global;
use tail_book::{Book, Memory};
use tail_text::{Line, Stopped};
use timetable_reader::read_timetable;

/// The book of a timetable, a fleet and rules, or their first refusal. Each reader is called by itself, so that what it
/// gives can be looked at before the names are looked up; `book_maker::read_book` does the same in one call.
#[tactic(auto, unfolding(book_maker::specs::Made::book_of))]
pub fn book_of_texts(
    alloc: Global,
    timetable: &[u8],
    fleet: &[u8],
    rules: &[u8],
) -> Result<Book, Stopped>
    ensures { Answers (λ book. book) (book_of timetable.now fleet.now rules.now) result }
{
    let activities = read_timetable(alloc, timetable)?;
    let tails = read_fleet(alloc, fleet)?;
    let rules = read_rules(alloc, rules)?;
    make_book(alloc, activities, tails, rules)
}

/// The line to show where three texts are no book: code, table and place of their first refusal.
pub fn why_refused(
    alloc: Global,
    timetable: &[u8],
    fleet: &[u8],
    rules: &[u8],
) -> Result<Option<Line>, Memory>
    ensures { IfOk result (λ line. line ≡ refusal_text (book_of timetable.now fleet.now rules.now)) }
{
    match book_of_texts(alloc, timetable, fleet, rules) {
        Ok(_) => Ok(None),
        Err(Stopped::Refused(refusal)) => Ok(Some(refusal_line(alloc, refusal)?)),
        Err(Stopped::Memory) => Err(Memory),
    }
}
