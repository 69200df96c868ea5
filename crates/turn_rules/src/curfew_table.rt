//! Curfews, asked of the rules once.
//!
//! Whether a curfew keeps an aircraft from an activity depends on the activity and on the aircraft's type alone. So the
//! table has one set of types for each activity, and a question is two reads and a shift.
//! Making it compares each flight with each curfew: 1,600,000 comparisons at most, nearly all of an airport's number. The
//! two local minutes of a flight are found once, before its curfews are gone through.

ghost use Rattle.std.specs.Prelude.{◌≡◌, ◌<◌, ◌&&◌, ℕ, IfOk, length, All};
ghost use Rattle.std.specs.List.{list_any};
ghost use Rattle.tail_book.specs.Lookup.{activities, aircraft, kind_of, from_port, to_port, start_of, end_of};
ghost use Rattle.tail_book.specs.Curfew.{covers_type, is_curfewed, local_minute};
ghost use Rattle.turn_rules.specs.inside.NumberSet.{has};
ghost use Rattle.turn_rules.specs.inside.CurfewTable.{AreCurfewsOf, is_shut, is_type_curfewed, meets, stops_type};

use crate::curfew::{in_window, local_minute};
use crate::number_set::NumberSet;
use std::alloc::Global;
use tail_book::laws::every_book_is_sound;
use tail_book::{Book, Curfew, Memory};

/// For each activity the types that a curfew keeps from it.
#[derive(Debug, Drop)]
pub struct CurfewTable {
    /// The set of activity `a` at `closed[a]`.
    pub closed: Vec<NumberSet>,
}

impl CurfewTable {
    /// The curfews of a book.
    pub fn of(alloc: Global, book: &Book) -> Result<CurfewTable, Memory>
        ensures { IfOk result (AreCurfewsOf book.now) }
    {
        let mut closed = Vec::with_capacity(alloc, book.activities.len())?;
        for a in 0..book.activities.len() as u32 {
            closed.push(closed_types(book, a))?;
        }
        Ok(CurfewTable { closed })
    }
}

// Whether an activity starts in a curfew's hours, by the local minute at which it does.
fn starts_shut(book: &Book, a: u32, leaves: i64, curfew: &Curfew) -> bool
    requires activity { a < activities book.now }
    requires leaves { leaves ≡ local_minute book.now (from_port book.now a) (start_of book.now a) }
    ensures { result ≡ is_shut book.now curfew.now (from_port book.now a) (start_of book.now a) }
{
    curfew.airport == book.activities[a as usize].from && in_window(curfew.from, curfew.to, leaves)
}

// Whether an activity lands in a curfew's hours, by the local minute at which it does.
fn lands_shut(book: &Book, a: u32, lands: i64, curfew: &Curfew) -> bool
    requires activity { a < activities book.now }
    requires lands { lands ≡ local_minute book.now (to_port book.now a) (end_of book.now a) }
    ensures { result ≡ is_shut book.now curfew.now (to_port book.now a) (end_of book.now a) }
{
    curfew.airport == book.activities[a as usize].to && in_window(curfew.from, curfew.to, lands)
}

// Whether a curfew's hours stand in the way of an activity.
fn meets(book: &Book, a: u32, leaves: i64, lands: i64, curfew: &Curfew) -> bool
    requires activity { a < activities book.now }
    requires leaves { leaves ≡ local_minute book.now (from_port book.now a) (start_of book.now a) }
    requires lands { lands ≡ local_minute book.now (to_port book.now a) (end_of book.now a) }
    ensures { result ≡ meets book.now a curfew.now }
{
    (curfew.starts && starts_shut(book, a, leaves, curfew))
        || (curfew.landings && lands_shut(book, a, lands, curfew))
}

// The types that a curfew is for.
fn types_of(curfew: &Curfew) -> NumberSet
    requires { All (λ t. t < 32) curfew.now.types }
    ensures { (t : ℕ) → t < 32 → has result t ≡ covers_type curfew.now.types t }
{
    if curfew.types.is_empty() {
        NumberSet::every()
    } else {
        NumberSet::of(&curfew.types)
    }
}

// The types that a curfew keeps from a flight.
fn types_met(book: &Book, a: u32, leaves: i64, lands: i64, curfew: &Curfew) -> NumberSet
    requires activity { a < activities book.now }
    requires leaves { leaves ≡ local_minute book.now (from_port book.now a) (start_of book.now a) }
    requires lands { lands ≡ local_minute book.now (to_port book.now a) (end_of book.now a) }
    requires types { All (λ t. t < 32) curfew.now.types }
    ensures { (t : ℕ) → t < 32 → has result t ≡ stops_type book.now t a curfew.now }
{
    if meets(book, a, leaves, lands, curfew) {
        types_of(curfew)
    } else {
        NumberSet::none()
    }
}

// The types that one of the curfews keeps from a flight.
fn types_stopped(book: &Book, a: u32, leaves: i64, lands: i64, curfews: &[Curfew]) -> NumberSet
    requires activity { a < activities book.now }
    requires leaves { leaves ≡ local_minute book.now (from_port book.now a) (start_of book.now a) }
    requires lands { lands ≡ local_minute book.now (to_port book.now a) (end_of book.now a) }
    requires types { All (λ c. All (λ t. t < 32) c.types) curfews.now }
    ensures { (t : ℕ) → t < 32 → has result t ≡ list_any (stops_type book.now t a) curfews.now }
{
    let mut stopped = NumberSet::none();
    for curfew in curfews {
        stopped = stopped.or(types_met(book, a, leaves, lands, curfew));
    }
    stopped
}

// The types that a curfew keeps from an activity.
fn closed_types(book: &Book, a: u32) -> NumberSet
    requires { a < activities book.now }
    ensures { (t : ℕ) → t < 32 → has result t ≡ is_type_curfewed book.now t a }
{
    let activity = &book.activities[a as usize];
    if activity.flight {
        let leaves = local_minute(book, activity.from, activity.start);
        let lands = local_minute(book, activity.to, activity.end);
        types_stopped(book, a, leaves, lands, &book.rules.curfews)
    } else {
        NumberSet::none()
    }
}

// Whether a curfew keeps a type from an activity.
fn closes(book: &Book, curfews: &CurfewTable, kind: u32, a: u32) -> bool
    requires curfews { AreCurfewsOf book.now curfews.now }
    requires kind { kind < length book.now.rules.kinds }
    requires activity { a < activities book.now }
    ensures { result ≡ is_type_curfewed book.now kind a }
{
    every_book_is_sound(book);
    curfews.closed[a as usize].has(kind)
}

// The type of an aircraft.
fn kind_of(book: &Book, k: u32) -> u32
    requires { k < aircraft book.now }
    ensures value { result ≡ kind_of book.now k }
    ensures range { result < length book.now.rules.kinds }
{
    book.tails[k as usize].kind
}

/// Whether some curfew keeps an aircraft from an activity, by the book's table.
pub fn curfewed_by(book: &Book, curfews: &CurfewTable, k: u32, a: u32) -> bool
    requires curfews { AreCurfewsOf book.now curfews.now }
    requires aircraft { k < aircraft book.now }
    requires activity { a < activities book.now }
    ensures { result ≡ is_curfewed book.now k a }
{
    closes(book, curfews, kind_of(book, k), a)
}
