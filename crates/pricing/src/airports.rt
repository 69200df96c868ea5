//! The airports of a book, put together and judged.
//!
//! For each airport the activities are gone over, its flights sorted by their ends, and its stays cut where a band ends
//! or a counter's stop is reached. Nothing is promised of how that is done: each airport is judged by a test, and where
//! one is not found right there are none, and pricing does without lines. It is done once for a book, and allocates all
//! that the lines need but what they grow by.

ghost use Rattle.std.specs.Prelude.{◌≡◌, ◌<◌, ◌+◌, ◌≤◌, IfOk, IfSome, IsTrue, length};
ghost use Rattle.pricing.specs.inside.Airports.{AreAirports, AreAirportsTo, IsAirportOf};
ghost use Rattle.pricing.specs.inside.Waiting.{IsRoomy};

use crate::airport::{AirportLines, are_flights, are_grounds, are_windows};
use crate::waiting::Waiting;
use crate::window::Window;
use label_store::Store;
use std::alloc::Global;
use tail_book::laws::every_book_is_sound;
use tail_book::limits::LAST_MOMENT;
use tail_book::{Band, Book, CostTable, Counter, Memory};
use turn_rules::NumberSet;

// The flights that end at an airport, in order of their ends.
fn flights_at(alloc: Global, book: &Book, port: u32) -> Result<Vec<u32>, Memory> {
    let mut ends: Vec<(i64, u32)> = Vec::new(alloc);
    for x in 0..book.activities.len() {
        let activity = &book.activities[x];
        if activity.flight && activity.to == port {
            ends.push((activity.end, x as u32))?;
        }
    }
    ends.sort_unstable();
    let mut flights = Vec::new(alloc);
    for i in 0..ends.len() {
        flights.push(ends[i].1)?;
    }
    Ok(flights)
}

// The ground time at an airport.
fn grounds_at(alloc: Global, book: &Book, port: u32) -> Result<Vec<u32>, Memory> {
    let mut grounds = Vec::new(alloc);
    for x in 0..book.activities.len() {
        let activity = &book.activities[x];
        if !activity.flight && activity.to == port {
            grounds.push(x as u32)?;
        }
    }
    Ok(grounds)
}

// The minutes on the ground at which something changes at an airport, in order, with the first and the last.
fn edges_at(
    alloc: Global,
    bands: &[Band],
    counters: &[Counter],
    port: u32,
) -> Result<Vec<i64>, Memory> {
    let mut edges = Vec::new(alloc);
    edges.push(0)?;
    edges.push(LAST_MOMENT + 1)?;
    for i in 0..bands.len() {
        let upto = bands[i].upto;
        if 0 <= upto && upto < LAST_MOMENT {
            edges.push(upto + 1)?;
        }
    }
    for c in 0..counters.len() {
        let counter = &counters[c];
        if counter.bases.contains(&port) && 0 < counter.stop && counter.stop <= LAST_MOMENT {
            edges.push(counter.stop)?;
        }
    }
    edges.sort_unstable();
    edges.dedup();
    Ok(edges)
}

// The set with a counter more, where a stay of so many minutes clears it.
fn with_cleared(cleared: NumberSet, c: u32, counter: &Counter, port: u32, lo: i64) -> NumberSet
    requires { c < 32 }
{
    if counter.bases.contains(&port) && counter.stop <= lo {
        cleared.with(c)
    } else {
        cleared
    }
}

// The counters that a stay of so many minutes clears.
fn cleared(counters: &[Counter], port: u32, lo: i64) -> NumberSet
    requires { length counters.now ≤ 6 }
{
    let mut cleared = NumberSet::none();
    for c in 0..counters.len() {
        cleared = with_cleared(cleared, c as u32, &counters[c], port, lo);
    }
    cleared
}

// The windows of an airport.
fn windows_at(
    alloc: Global,
    bands: &[Band],
    counters: &[Counter],
    port: u32,
) -> Result<Vec<Window>, Memory>
    requires { length counters.now ≤ 6 }
{
    let edges = edges_at(alloc, bands, counters, port)?;
    let mut windows = Vec::new(alloc);
    for i in 1..edges.len() {
        let (lo, hi) = (edges[i - 1], edges[i]);
        windows.push(Window {
            lo,
            hi,
            lasting: bands.is_empty(),
            cleared: cleared(counters, port, lo),
        })?;
    }
    Ok(windows)
}

// An airport with nothing that waits.
fn with_room(
    alloc: Global,
    book: &Book,
    flights: Vec<u32>,
    grounds: Vec<u32>,
    windows: Vec<Window>,
) -> Result<AirportLines, Memory>
    ensures flights { IfOk result (λ airport. airport.flights.items ≡ flights.items) }
    ensures grounds { IfOk result (λ airport. airport.grounds.items ≡ grounds.items) }
    ensures windows { IfOk result (λ airport. airport.windows.items ≡ windows.items) }
    ensures roomy { IfOk result (λ airport. IsRoomy book.now airport.windows.items airport.waiting) }
    ensures count { IfOk result (λ airport. length airport.entered.items ≡ length airport.windows.items) }
{
    every_book_is_sound(book);
    let count = windows.len();
    let keys = Store::new(alloc, count, 2 + book.rules.counters.len())?;
    let entered = zeros(alloc, count)?;
    let waiting = Waiting {
        keys,
        labels: Vec::new(alloc),
        places: Vec::new(alloc),
    };
    Ok(AirportLines {
        flights,
        grounds,
        windows,
        entered,
        waiting,
    })
}

fn zeros(alloc: Global, count: usize) -> Result<Vec<usize>, Memory>
    ensures { IfOk result (λ zeros. length zeros.items ≡ count) }
{
    Ok(vec![in alloc; 0usize; count]?)
}

// An airport, if it is judged to be one.
fn airport_of(
    alloc: Global,
    book: &Book,
    table: &CostTable,
    port: u32,
) -> Result<Option<AirportLines>, Memory>
    ensures { IfOk result (λ airport. IfSome airport (IsAirportOf table.now.bands book.now port)) }
{
    every_book_is_sound(book);
    let flights = flights_at(alloc, book, port)?;
    let grounds = grounds_at(alloc, book, port)?;
    let windows = windows_at(alloc, &table.bands, &book.rules.counters, port)?;
    if !are_flights(book, port, &flights)
        || !are_grounds(book, port, &grounds)
        || !are_windows(&table.bands, &book.rules.counters, port, &windows)
    {
        return Ok(None);
    }
    Ok(Some(with_room(alloc, book, flights, grounds, windows)?))
}

// Adds an airport, if it is judged to be one.
fn add_airport(
    alloc: Global,
    book: &Book,
    table: &CostTable,
    port: u32,
    airports: &mut Vec<AirportLines>,
) -> Result<bool, Memory>
    requires { AreAirportsTo table.now.bands book.now port airports.old.items }
    ensures { IfOk result (λ added. IsTrue added → AreAirportsTo table.now.bands book.now (port + 1) airports.new.items) }
{
    match airport_of(alloc, book, table, port)? {
        Some(airport) => {
            airports.push(airport)?;
            Ok(true)
        }
        None => Ok(false),
    }
}

/// The airports of a book, if all are judged to be such.
pub fn airports_of(
    alloc: Global,
    book: &Book,
    table: &CostTable,
) -> Result<Option<Vec<AirportLines>>, Memory>
    ensures { IfOk result (λ airports. IfSome airports (λ all. AreAirports table.now.bands book.now all.items)) }
{
    every_book_is_sound(book);
    let mut airports = Vec::new(alloc);
    for port in 0..book.rules.airports.len() as u32 {
        if !add_airport(alloc, book, table, port, &mut airports)? {
            return Ok(None);
        }
    }
    Ok(Some(airports))
}
