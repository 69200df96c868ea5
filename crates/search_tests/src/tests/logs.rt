//! Logs that fail, at each of the events of a search.

ghost use Rattle.tail_book.specs.CostTable.{IsTableFor};

use super::branching::branching_books;
use super::{Failing, book_of};
use branch_marks::{Event, MemTree};
use branch_tree::{Limit, Stop, search};
use small_books::costs;
use std::alloc::Global;
use std::process::Abort;
use tail_book::*;

// Whether a search whose log fails behind so many events stops there, and told exactly those before.
fn stops_behind(
    alloc: Global,
    book: &Book,
    table: &CostTable,
    limit: Limit,
    whole: &[Event],
    room: usize,
) -> bool
    requires { IsTableFor book.now table.now }
{
    let mut log = Failing::new(alloc, room);
    let outcome = search(alloc, book, table, limit, &mut log);
    matches!(&outcome, Err(Stop::Log)) && log.has_front(whole, room)
}

// At which of these events a search with a failing log does not stop as it has to, if there is one.
fn first_passed(
    alloc: Global,
    book: &Book,
    table: &CostTable,
    limit: Limit,
    whole: &[Event],
) -> Option<usize>
    requires { IsTableFor book.now table.now }
{
    for room in 0..whole.len() {
        if !stops_behind(alloc, book, table, limit, whole, room) {
            return Some(room);
        }
    }
    None
}

// The same of all events that the search tells; the first where it does not end.
fn first_wrong_by(alloc: Global, book: &Book, table: &CostTable, limit: Limit) -> Option<usize>
    requires { IsTableFor book.now table.now }
{
    match MemTree::new(alloc) {
        Ok(mut whole) => {
            if search(alloc, book, table, limit, &mut whole).is_ok() {
                first_passed(alloc, book, table, limit, whole.events())
            } else {
                Some(0)
            }
        }
        Err(_) => Some(0),
    }
}

// The same by the book's own costs.
fn first_wrong(alloc: Global, book: &Book, limit: Limit) -> Option<usize> {
    match costs(alloc, book) {
        Ok(table) => first_wrong_by(alloc, book, &table, limit),
        Err(_) => Some(0),
    }
}

fn first_wrong_of(alloc: Global, texts: &[&str; 3], limit: Limit) -> Option<usize> {
    match book_of(alloc, texts) {
        Some(book) => first_wrong(alloc, &book, limit),
        None => Some(0),
    }
}

// Asks that the searches of the books from one number up to another stop where their logs fail.
fn each_stops(rt: &impl Abort, alloc: Global, first: usize, behind: usize, limit: Limit) {
    for (number, (texts, _)) in branching_books().iter().enumerate() {
        if first <= number && number < behind {
            let wrong = first_wrong_of(alloc, texts, limit);
            assert!(rt; wrong.is_none(), "book {number}, event {wrong:?}");
        }
    }
}

#[test]
fn failing_logs_have_a_front(rt: HostRuntime) {
    each_stops(&rt, rt.alloc(), 0, 5, Limit::Free);
}

#[test]
fn failing_logs_of_other_books_have_a_front(rt: HostRuntime) {
    each_stops(&rt, rt.alloc(), 5, 7, Limit::Free);
}

#[test]
fn failing_logs_of_further_books_have_a_front(rt: HostRuntime) {
    each_stops(&rt, rt.alloc(), 7, 9, Limit::Free);
}

// The last book has no legal plan.
#[test]
fn failing_logs_have_a_front_where_no_plan_is_legal(rt: HostRuntime) {
    each_stops(&rt, rt.alloc(), 9, 10, Limit::Free);
}

// At a limit that leaves places open.
#[test]
fn failing_logs_at_a_limit_have_a_front(rt: HostRuntime) {
    each_stops(&rt, rt.alloc(), 0, 5, Limit::Nodes(2));
}

#[test]
fn failing_logs_of_other_books_at_a_limit_have_a_front(rt: HostRuntime) {
    each_stops(&rt, rt.alloc(), 5, 10, Limit::Nodes(2));
}
