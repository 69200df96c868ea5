//! Books of activities, aircraft and rules, and the two with which many tests begin: a flight there and one back, and
//! two flights at once. Rows that are no book are an error of the test.

use crate::activity_rows::{SmallActivity, activities, flight};
use crate::aircraft::tails;
use crate::rule_rows::rules;
use std::alloc::Global;
use std::test::Fail;
use tail_book::*;

/// The book of these activities, an aircraft of each of these types, and types with this turn.
pub fn book(
    alloc: Global,
    rows: &[SmallActivity],
    kinds: &[u32],
    turn: i64,
    counters: Vec<Counter>,
    bands: Vec<Band>,
) -> Result<Book, Fail> {
    let tails = tails(alloc, kinds, counters.len())?;
    let rules = rules(alloc, turn, counters, bands)?;
    let book = Book::new(activities(alloc, rows)?, tails, rules);
    Ok(book.ok_or("no book")?)
}

/// A book without counters and bands.
pub fn plain_book(
    alloc: Global,
    rows: &[SmallActivity],
    kinds: &[u32],
    turn: i64,
) -> Result<Book, Fail> {
    book(alloc, rows, kinds, turn, Vec::new(alloc), Vec::new(alloc))
}

/// To airport 1 and back, an hour each and half an hour between, for aircraft of these types with this turn.
pub fn there_and_back(alloc: Global, kinds: &[u32], turn: i64) -> Result<Book, Fail> {
    let rows = [flight((0, 1), (360, 420)), flight((1, 0), (450, 510))];
    plain_book(alloc, &rows, kinds, turn)
}

/// Two flights from airport 0 to airport 1 that begin at once, of an hour and of two, and an aircraft of each type: a minute
/// costs the first aircraft 1 and the second 2.
pub fn two_at_once(alloc: Global) -> Result<Book, Fail> {
    let rows = [flight((0, 1), (360, 420)), flight((0, 1), (360, 480))];
    plain_book(alloc, &rows, &[0, 1], 30)
}
