//! The three tables that a run is over, their names, and the book that they are. All are in memory at once, each at most one
//! byte longer than it may be.

ghost use Rattle.std.specs.Prelude.{◌≡◌, IfErr, IfOk, Ok};
ghost use Rattle.book_maker.specs.Made.{book_of};
ghost use Rattle.run_frame.specs.inside.Answer.{IsNoBook};

use crate::Answer;
use book_maker::read_book;
use std::alloc::Global;
use std::marker::Model;
use tail_book::Book;
use tail_text::Stopped;

/// The names of the three tables, as the words give them.
#[derive(Clone, Copy, PartialEq, Eq, Debug)]
pub struct TableNames<'a> {
    /// The file of the timetable.
    pub timetable: &'a str,
    /// The file of the fleet.
    pub fleet: &'a str,
    /// The file of the rules.
    pub rules: &'a str,
}

/// The bytes of the three tables.
#[derive(Debug, Drop)]
pub struct Tables {
    /// A CSV table of activities.
    pub timetable: Vec<u8>,
    /// A CSV table of aircraft.
    pub fleet: Vec<u8>,
    /// A TOML text.
    pub rules: Vec<u8>,
}

impl Model for Tables {
    ghost use Rattle.run_frame.specs.Tables.{TablesSeen};

    ghost Value = { TablesSeen };

    ghost view = { λ t. record { timetable = t.timetable.items; fleet = t.fleet.items; rules = t.rules.items } };
}

/// The book of the tables, or why they are none, as the answer of a run.
pub fn book_of<T>(alloc: Global, tables: &Tables) -> Result<Book, Answer<T>>
    ensures book { IfOk result (λ book. book_of tables.now.timetable tables.now.fleet tables.now.rules ≡ Ok book) }
    ensures refused { IfErr result (IsNoBook tables.now) }
{
    match read_book(alloc, &tables.timetable, &tables.fleet, &tables.rules) {
        Ok(book) => Ok(book),
        Err(Stopped::Refused(refusal)) => Err(Answer::Refused(refusal)),
        Err(Stopped::Memory) => Err(Answer::Memory),
    }
}
