//! Whether an aircraft can fly a route, and how far it comes.
//!
//! A route is followed by its place and one row of counters, which is all that the rules ask of what was flown before.
//! So it takes one pass over the route, and no memory but that row and what steps read of the book.

ghost use Rattle.std.specs.Prelude.{◌≡◌, ◌<◌, ◌↔◌, length, IfOk, IsTrue};
ghost use Rattle.tail_book.specs.Counters.{step};
ghost use Rattle.tail_book.specs.Lookup.{activities, aircraft};
ghost use Rattle.tail_book.specs.Place.{IsPlaceOf};
ghost use Rattle.tail_book.specs.Route.{IsLegalRoute};
ghost use Rattle.turn_rules.specs.inside.PermissionTable.{ArePermissionsOf};
ghost use Rattle.maint_counters.specs.inside.Counts.{AreCounts};
ghost use Rattle.maint_counters.specs.inside.StepTable.{IsStepTableOf};
ghost use Rattle.sample_calls.specs.Routes.{IsLongestFront, MayComeNext};

use maint_counters::{StepTable, is_legal_route, start, step_by};
use std::alloc::Global;
use tail_book::{Book, Memory, Place, laws};
use turn_rules::{PermissionTable, link_by};

/// Whether an aircraft can fly these activities in this order. Numbers that are not of the book make a route that it
/// can't.
pub fn is_flyable(alloc: Global, book: &Book, k: u32, route: &[u32]) -> Result<bool, Memory>
    requires { k < aircraft book.now }
    ensures { IfOk result (λ legal. IsTrue legal ↔ IsLegalRoute book.now k route.now) }
{
    let table = StepTable::of(alloc, book)?;
    let mut values = vec![in alloc; 0; book.rules.counters.len()]?;
    Ok(is_legal_route(book, &table, k, route, &mut values))
}

// Whether an activity may come next by the book's tables, with the counters then stepped.
fn goes_on(
    book: &Book,
    tables: (&PermissionTable, &StepTable),
    k: u32,
    from: Place,
    b: u32,
    values: &mut [i64],
) -> bool
    requires permissions { ArePermissionsOf book.now tables.0.now }
    requires steps { IsStepTableOf book.now tables.1.now }
    requires aircraft { k < aircraft book.now }
    requires place { IsPlaceOf book.now from }
    requires width { length values.old ≡ length book.now.rules.counters }
    requires range { AreCounts values.old }
    ensures exact { IsTrue result ↔ MayComeNext book.now k from b values.old }
    ensures place { IsTrue result → b < activities book.now }
    ensures steps { IsTrue result → values.new ≡ step book.now k from b values.old }
    ensures range { IsTrue result → AreCounts values.new }
{
    let (permissions, steps) = tables;
    (b as usize) < book.activities.len()
        && link_by(book, permissions, k, from, b)
        && step_by(book, steps, k, from, b, values)
}

// How many activities of a route an aircraft can fly, with room for the counters.
fn front_of(
    book: &Book,
    tables: (&PermissionTable, &StepTable),
    k: u32,
    route: &[u32],
    values: &mut [i64],
) -> usize
    requires permissions { ArePermissionsOf book.now tables.0.now }
    requires steps { IsStepTableOf book.now tables.1.now }
    requires aircraft { k < aircraft book.now }
    requires width { length values.old ≡ length book.now.rules.counters }
    ensures { IsLongestFront book.now k route.now result }
{
    laws::legal_with_one_more();
    laws::counters_with_one_more();
    laws::place_with_one_more();
    start(book, k, values);
    let mut from = Place::Carry;
    for i in 0..route.len() {
        if !goes_on(book, tables, k, from, route[i], values) {
            return i;
        }
        from = Place::After(route[i]);
    }
    route.len()
}

/// How many activities of a route an aircraft can fly before a rule stops it: all of them where the route is legal. The
/// tables are the book's, from `PermissionTable::of` and `StepTable::of`: they are made once for any number of routes.
pub fn legal_front(
    alloc: Global,
    book: &Book,
    tables: (&PermissionTable, &StepTable),
    k: u32,
    route: &[u32],
) -> Result<usize, Memory>
    requires permissions { ArePermissionsOf book.now tables.0.now }
    requires steps { IsStepTableOf book.now tables.1.now }
    requires aircraft { k < aircraft book.now }
    ensures { IfOk result (IsLongestFront book.now k route.now) }
{
    let mut values = vec![in alloc; 0; book.rules.counters.len()]?;
    Ok(front_of(book, tables, k, route, &mut values))
}
