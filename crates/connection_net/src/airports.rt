//! The activities of each airport: those that start there, and those that end there.
//!
//! What may come directly after an activity starts where it ends. So for each activity only those of one airport are
//! looked at. Each list takes one pass over the activities, so all take 800,000 comparisons at most.

ghost use Rattle.std.specs.Prelude.{◌≡◌, ◌<◌, All, IfOk, length, nat_eq};
ghost use Rattle.tail_book.specs.Lookup.{activities, from_port, to_port};
ghost use Rattle.connection_net.specs.inside.LinkTable.{all_arrivals_of, all_departures_of, arrivals_of, departures_of};

use crate::rows::{Rows, push_where};
use std::alloc::Global;
use tail_book::{Book, Memory};

// Whether an activity starts at an airport.
fn starts_at(book: &Book, port: u32, b: u32) -> bool
    requires { b < activities book.now }
    ensures { result ≡ nat_eq port (from_port book.now b) }
{
    port == start_port(book, b)
}

// Whether an activity ends at an airport.
fn ends_at(book: &Book, port: u32, a: u32) -> bool
    requires { a < activities book.now }
    ensures { result ≡ nat_eq port (to_port book.now a) }
{
    port == end_port(book, a)
}

// Writes the activities that start at an airport.
fn put_departures(book: &Book, port: u32, row: &mut Vec<u32>) -> Result<(), Memory>
    ensures { IfOk result (λ _. row.new.items ≡ departures_of book.now port) }
{
    row.clear();
    for b in 0..book.activities.len() as u32 {
        let here = starts_at(book, port, b);
        push_where(row, here, b)?;
    }
    Ok(())
}

// Writes the activities that end at an airport.
fn put_arrivals(book: &Book, port: u32, row: &mut Vec<u32>) -> Result<(), Memory>
    ensures { IfOk result (λ _. row.new.items ≡ arrivals_of book.now port) }
{
    row.clear();
    for a in 0..book.activities.len() as u32 {
        let here = ends_at(book, port, a);
        push_where(row, here, a)?;
    }
    Ok(())
}

/// For each airport the activities that start there.
pub fn departures(alloc: Global, book: &Book) -> Result<Rows, Memory>
    ensures { IfOk result (λ rows. rows ≡ all_departures_of book.now) }
{
    let (mut rows, mut row) = (Rows::new(alloc)?, Vec::new(alloc));
    for port in 0..book.rules.airports.len() as u32 {
        put_departures(book, port, &mut row)?;
        rows.push(&row)?;
    }
    Ok(rows)
}

/// For each airport the activities that end there.
pub fn arrivals(alloc: Global, book: &Book) -> Result<Rows, Memory>
    ensures { IfOk result (λ rows. rows ≡ all_arrivals_of book.now) }
{
    let (mut rows, mut row) = (Rows::new(alloc)?, Vec::new(alloc));
    for port in 0..book.rules.airports.len() as u32 {
        put_arrivals(book, port, &mut row)?;
        rows.push(&row)?;
    }
    Ok(rows)
}

/// The activities that start at an airport, by the book's lists.
pub fn departing<'a>(book: &Book, departures: &'a Rows, port: u32) -> &'a [u32]
    requires lists { departures.now ≡ all_departures_of book.now }
    requires port { port < length book.now.rules.airports }
    ensures list { result.now ≡ departures_of book.now port }
    ensures below { All (λ b. b < activities book.now) result.now }
{
    departures.row(port as usize)
}

/// The activities that end at an airport, by the book's lists.
pub fn arriving<'a>(book: &Book, arrivals: &'a Rows, port: u32) -> &'a [u32]
    requires lists { arrivals.now ≡ all_arrivals_of book.now }
    requires port { port < length book.now.rules.airports }
    ensures list { result.now ≡ arrivals_of book.now port }
    ensures below { All (λ a. a < activities book.now) result.now }
{
    arrivals.row(port as usize)
}

/// The airport where an activity starts.
pub fn start_port(book: &Book, b: u32) -> u32
    requires { b < activities book.now }
    ensures value { result ≡ from_port book.now b }
    ensures range { result < length book.now.rules.airports }
{
    book.activities[b as usize].from
}

/// The airport where an activity ends.
pub fn end_port(book: &Book, a: u32) -> u32
    requires { a < activities book.now }
    ensures value { result ≡ to_port book.now a }
    ensures range { result < length book.now.rules.airports }
{
    book.activities[a as usize].to
}
