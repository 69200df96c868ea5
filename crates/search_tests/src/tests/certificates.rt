//! Certificates of books that branch, and of books by chance: what a search in either order writes, in either version, is accepted,
//! for what it answers.

ghost use Rattle.std.specs.Prelude.{◌≡◌};
ghost use Rattle.tail_book.specs.CostTable.{costs_of};

use super::branching::branching_books;
use super::{book_by_chance, book_of};
use branch_tree::Limit;
use cert_checker::{Verdict, judge};
use cert_lines::Version;
use certified_search::{Certified, Order, certified_search};
use dice::Dice;
use std::alloc::Global;
use tail_book::*;
use tail_outside::MemSink;

// Whether what was written is accepted for what was found.
fn is_accepted(alloc: Global, book: &Book, written: &Certified<MemSink>) -> bool {
    match &written.found {
        Ok(outcome) => {
            judge(alloc, book, written.sink.bytes()) == Ok(Verdict::Yes(claim_of(outcome)))
        }
        Err(_) => false,
    }
}

// An order and a version.
type Way = (Order, Version);

// Whether a search in this order and within the limit writes, in this version, what is accepted.
fn writes_so(alloc: Global, book: &Book, table: &CostTable, limit: Limit, way: Way) -> bool
    requires { table.now ≡ costs_of book.now }
{
    match MemSink::new(alloc, Vec::new(alloc)) {
        Ok(sink) => {
            let (order, version) = way;
            let written = certified_search(alloc, book, table, limit, order, version, sink);
            is_accepted(alloc, book, &written)
        }
        Err(_) => false,
    }
}

// Without a limit, and at a few.
const LIMITS: [Limit; 4] = [
    Limit::Free,
    Limit::Nodes(0),
    Limit::Nodes(1),
    Limit::Nodes(3),
];

// The number of the first limit at which another thing is written, if there is one.
fn first_wrong(alloc: Global, book: &Book, table: &CostTable, way: Way) -> Option<usize>
    requires { table.now ≡ costs_of book.now }
{
    for number in 0..LIMITS.len() {
        if !writes_so(alloc, book, table, LIMITS[number], way) {
            return Some(number);
        }
    }
    None
}

// The same by the book's own costs.
fn first_wrong_of(alloc: Global, book: &Book, way: Way) -> Option<usize> {
    match CostTable::of(alloc, book) {
        Ok(table) => first_wrong(alloc, book, &table, way),
        Err(_) => Some(0),
    }
}

// The same of the next book.
fn next_wrong(alloc: Global, dice: &mut Dice, way: Way) -> Option<usize> {
    match book_by_chance(alloc, dice) {
        Some(book) => first_wrong_of(alloc, &book, way),
        None => Some(0),
    }
}

// The same of the book of three tables.
fn first_wrong_in(alloc: Global, texts: &[&str; 3], way: Way) -> Option<usize> {
    match book_of(alloc, texts) {
        Some(book) => first_wrong_of(alloc, &book, way),
        None => Some(0),
    }
}

// Depth first and by least bound, with full and with lean certificates.
const WAYS: [Way; 4] = [
    (Order::DepthFirst, Version::Full),
    (Order::DepthFirst, Version::Lean),
    (Order::LeastBound, Version::Full),
    (Order::LeastBound, Version::Lean),
];

#[test]
fn certificates_of_branching_books_are_accepted(rt: HostRuntime) {
    for way in WAYS {
        for (number, (texts, _)) in branching_books().iter().enumerate() {
            let wrong = first_wrong_in(rt.alloc(), texts, way);
            assert!(rt; wrong.is_none(), "{way:?}, book {number}, limit {wrong:?}");
        }
    }
}

// Three hundred books.
#[test]
fn certificates_are_accepted(rt: HostRuntime) {
    for way in WAYS {
        let mut dice = Dice::new(29);
        for turn in 0..300u32 {
            let wrong = next_wrong(rt.alloc(), &mut dice, way);
            assert!(rt; wrong.is_none(), "{way:?}, book {turn}, limit {wrong:?}");
        }
    }
}
