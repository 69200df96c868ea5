//! Whether a route is legal, for those who judge a route that they did not make.
//!
//! A route may have any numbers, so each is compared with the book before a rule is asked of it. Each activity is asked
//! for its link, the dearest part, and takes one step of the counters. Nothing is allocated: the counters stand in a row
//! of the caller's.

ghost use Rattle.std.specs.Prelude.{◌≡◌, ◌<◌, ◌↔◌, length, IsTrue};
ghost use Rattle.tail_book.specs.Lookup.{aircraft};
ghost use Rattle.tail_book.specs.Counters.{step};
ghost use Rattle.tail_book.specs.Route.{IsLegalRoute};
ghost use Rattle.tail_book.specs.LegalTests.{is_legal_route};
ghost use Rattle.tail_book.specs.Place.{IsPlaceOf};
ghost use Rattle.maint_counters.specs.inside.Counts.{AreCounts};
ghost use Rattle.maint_counters.specs.inside.LegalRoute.{is_legal_next};
ghost use Rattle.maint_counters.specs.inside.StepTable.{IsStepTableOf};

use crate::carry::start;
use crate::step_table::{StepTable, step_by};
use tail_book::laws::legal_route_decides;
use tail_book::{Book, Place};
use turn_rules::link;

// Whether an activity may come next in a legal route; its counters are then stepped.
fn is_legal_next(
    book: &Book,
    table: &StepTable,
    k: u32,
    from: Place,
    b: u32,
    values: &mut [i64],
) -> bool
    requires table { IsStepTableOf book.now table.now }
    requires aircraft { k < aircraft book.now }
    requires place { IsPlaceOf book.now from }
    requires width { length values.old ≡ length book.now.rules.counters }
    requires range { AreCounts values.old }
    ensures legal { result ≡ is_legal_next book.now k from b values.old }
    ensures steps { IsTrue result → values.new ≡ step book.now k from b values.old }
    ensures width { length values.new ≡ length book.now.rules.counters }
    ensures range { IsTrue result → AreCounts values.new }
{
    (b as usize) < book.activities.len()
        && link(book, k, from, b)
        && step_by(book, table, k, from, b, values)
}

// Walks the route from the carry-in on, up to the first activity that may not come.
fn walk(book: &Book, table: &StepTable, k: u32, route: &[u32], values: &mut [i64]) -> bool
    requires table { IsStepTableOf book.now table.now }
    requires aircraft { k < aircraft book.now }
    requires width { length values.old ≡ length book.now.rules.counters }
    ensures legal { result ≡ is_legal_route book.now k route.now }
    ensures width { length values.new ≡ length book.now.rules.counters }
{
    start(book, k, values);
    let mut from = Place::Carry;
    for b in route {
        let b = *b;
        if !is_legal_next(book, table, k, from, b, values) {
            return false;
        }
        from = Place::After(b);
    }
    true
}

/// Whether a route is legal for an aircraft, by the book's table. The row of counters is written over.
pub fn is_legal_route(
    book: &Book,
    table: &StepTable,
    k: u32,
    route: &[u32],
    values: &mut [i64],
) -> bool
    requires table { IsStepTableOf book.now table.now }
    requires aircraft { k < aircraft book.now }
    requires width { length values.old ≡ length book.now.rules.counters }
    ensures means { IsTrue result ↔ IsLegalRoute book.now k route.now }
    ensures tests { result ≡ is_legal_route book.now k route.now }
    ensures width { length values.new ≡ length book.now.rules.counters }
{
    legal_route_decides();
    walk(book, table, k, route, values)
}
