//! Suggestions for a pool: through each activity the best route that is within a cut, from the rows of a search joined with
//! rests of routes.
//!
//! The rows tell the ways to an activity, the rests the ways on. Rests are few at each activity, so that a route may be
//! missed, and the last search may have been another one: what is suggested is judged before it is used. A route that is
//! the best through several activities is written once.

ghost use Rattle.std.specs.Prelude.{◌≡◌, ◌<◌, ◌≤◌, IsTrue, length, Option, IfSome};
ghost use Rattle.tail_book.specs.declared.place.Place.TheVariants.{Carry};
ghost use Rattle.tail_book.specs.Lookup.{activities};
ghost use Rattle.tail_book.specs.Place.{IsBefore};
ghost use Rattle.tail_book.specs.inside.Rising.{IsRisingFrom};

use crate::rest::Next;
use crate::rests::Rests;
use label_store::Store;
use label_store::laws::every_store_is_sound;
use std::alloc::Global;
use tail_book::{Book, Memory, Place};

/// Suggested routes, one after the other in one list.
#[derive(Debug, Drop)]
pub struct Suggestions {
    activities: Vec<u32>,
    /// Where each route ends in the list.
    ends: Vec<usize>,
    /// For each activity the least weight of a suggested route that has it.
    least: Vec<i64>,
    /// The way to an activity, as it is read from the rows.
    back: Vec<u32>,
}

// A row and a rest at one activity, and what the route of both weighs.
#[derive(Clone, Copy, Debug)]
struct Joined {
    weight: i64,
    row: usize,
    rest: usize,
}

// The lightest route of a row with the rests in a span, lighter than the one so far and within the cut.
fn with_row(
    store: &Store,
    rests: &Rests,
    a: u32,
    j: usize,
    cut: i64,
    best: Option<Joined>,
) -> Option<Joined>
    requires row { j < length store.now.rows }
    requires best { IfSome best (λ known. known.row < length store.now.rows) }
    ensures { IfSome result (λ known. known.row < length store.now.rows) }
{
    every_store_is_sound(store);
    let row = store.row(j);
    let (weight, counters) = (row[0], &row[1..]);
    let span = rests.at(a);
    let mut lightest = best;
    for number in span.from..span.to {
        let Some(rest) = rests.all.get(number) else {
            return lightest;
        };
        let joined = Joined {
            weight: weight.saturating_add(rest.weight),
            row: j,
            rest: number,
        };
        if joined.weight <= cut && is_lighter(joined, lightest) && rest.takes(counters) {
            lightest = Some(joined);
        }
    }
    lightest
}

fn is_lighter(joined: Joined, best: Option<Joined>) -> bool {
    match best {
        Some(known) => joined.weight < known.weight,
        None => true,
    }
}

// The lightest route through an activity, if there is one within the cut.
fn through(store: &Store, rests: &Rests, a: u32, cut: i64) -> Option<Joined>
    requires { a < length store.now.buckets }
    ensures { IfSome result (λ known. known.row < length store.now.rows) }
{
    let mut best = None;
    for i in 0..store.count(a as usize) {
        let j = store.at(a as usize, i);
        best = with_row(store, rests, a, j, cut, best);
    }
    best
}

// Whether an activity comes after a place in number and is below n.
fn follows(n: usize, from: Place, b: u32) -> bool
    ensures { IsTrue result → IsBefore from b × (b < n) }
{
    let later = match from {
        Place::Carry => true,
        Place::After(x) => x < b,
    };
    later && (b as usize) < n
}

// Whether the numbers rise and are below n.
fn rises(n: usize, route: &[u32]) -> bool
    ensures { IsTrue result → IsRisingFrom n Carry route.now }
{
    let mut from = Place::Carry;
    for b in route {
        let b = *b;
        if !follows(n, from, b) {
            return false;
        }
        from = Place::After(b);
    }
    true
}

// Writes the nodes of a row and of those that it came from, the last first.
fn put_back(store: &Store, row: usize, into: &mut Vec<u32>) -> Result<(), Memory>
    requires { row < length store.now.rows }
{
    every_store_is_sound(store);
    let mut at = Some(row);
    while let Some(j) = at {
        into.push(store.node(j) as u32)?;
        at = store.parent(j);
    }
    Ok(())
}

// Writes the activities of a rest, at most so many.
fn put_rest(rests: &Rests, rest: usize, most: usize, into: &mut Vec<u32>) -> Result<(), Memory> {
    let mut number = rest;
    for _ in 0..most {
        let next = match rests.all.get(number) {
            Some(rest) => rest.next,
            None => None,
        };
        let Some(Next { activity, rest }) = next else {
            return Ok(());
        };
        into.push(activity)?;
        number = rest;
    }
    Ok(())
}

// Notes for each activity of a route that a route of this weight has it.
fn note(least: &mut [i64], route: &[u32], weight: i64) {
    for a in route {
        if let Some(known) = least.get_mut(*a as usize) {
            *known = weight.min(*known);
        }
    }
}

impl Suggestions {
    /// No suggestion yet.
    pub fn new(alloc: Global) -> Suggestions {
        Suggestions {
            activities: Vec::new(alloc),
            ends: Vec::new(alloc),
            least: Vec::new(alloc),
            back: Vec::new(alloc),
        }
    }

    /// How many routes are suggested.
    pub fn count(&self) -> usize {
        self.ends.len()
    }

    /// A suggested route: its numbers are of the book and rise. Empty where there is none of this number.
    pub fn route(&self, book: &Book, i: usize) -> &[u32]
        ensures { IsRisingFrom (activities book.now) Carry result.now }
    {
        let from = if i == 0 {
            Some(0)
        } else {
            self.ends.get(i - 1).copied()
        };
        let (Some(from), Some(to)) = (from, self.ends.get(i).copied()) else {
            return &[];
        };
        match self.activities.as_slice().get(from..to) {
            Some(route) if rises(book.activities.len(), route) => route,
            _ => &[],
        }
    }

    // Writes the route of a row and a rest.
    fn put(&mut self, store: &Store, rests: &Rests, joined: Joined) -> Result<(), Memory>
        requires { joined.row < length store.now.rows }
    {
        let from = self.activities.len();
        self.back.clear();
        put_back(store, joined.row, &mut self.back)?;
        self.back.reverse();
        self.activities.extend_from_slice(&self.back)?;
        put_rest(rests, joined.rest, self.least.len(), &mut self.activities)?;
        let end = self.activities.len();
        if let Some(route) = self.activities.as_slice().get(from..end) {
            note(&mut self.least, route, joined.weight);
        }
        self.ends.push(end)?;
        Ok(())
    }

    // Writes the best route through an activity, unless it is written.
    fn put_through(&mut self, store: &Store, rests: &Rests, a: u32, cut: i64) -> Result<(), Memory>
        requires { a < length store.now.buckets }
    {
        let Some(joined) = through(store, rests, a, cut) else {
            return Ok(());
        };
        match self.least.get(a as usize) {
            Some(least) if *least <= joined.weight => Ok(()),
            _ => self.put(store, rests, joined),
        }
    }

    /// Writes the best route through each activity, over what was suggested before.
    pub fn write(&mut self, store: &Store, rests: &Rests, n: usize, cut: i64) -> Result<(), Memory>
        requires few { n ≤ 4000 }
        requires nodes { length store.now.buckets ≡ n }
    {
        self.activities.clear();
        self.ends.clear();
        self.least.clear();
        self.least.resize(n, i64::MAX)?;
        for a in 0..n as u32 {
            self.put_through(store, rests, a, cut)?;
        }
        Ok(())
    }
}
