//! Priced routes that are added to a pool. They are legal and fit, so all that a pool keeps of a node still is and does.
//! Whether one of them is new is answered too: where none is, duals that are settled over the pool are settled over all
//! routes that fit.

ghost use Rattle.std.specs.Prelude.{◌≡◌, ◌<◌, List, All, IfOk, OnOk, length};
ghost use Rattle.tail_book.specs.Lookup.{activities, aircraft};
ghost use Rattle.tail_book.specs.declared.place.Place.TheVariants.{Carry};
ghost use Rattle.tail_book.specs.CostTable.{IsTableFor};
ghost use Rattle.tail_book.specs.inside.Rising.{IsRisingFrom};
ghost use Rattle.branch_marks.specs.declared.fact.Fact.{Fact};
ghost use Rattle.branch_marks.specs.Pool.{IsFittingEntry};
ghost use Rattle.node_leaves.specs.inside.FittingPool.{IsFittingPool};
ghost use Rattle.node_leaves.specs.inside.NewRoutes.{entry_of, AddsRoute, AreFittingRoutes, HasAll, HasGrown};

use restricted_master::{Pool, PoolAdd};
use tail_book::laws::every_book_is_sound;
use tail_book::{Book, CostTable, Memory, Route};

// Adds the route of an aircraft, and answers whether it is new.
fn add_route(
    book: &Book,
    table: &CostTable,
    pool: &mut Pool,
    routes: &[Route],
    k: usize,
) -> Result<bool, Memory>
    requires table { IsTableFor book.now table.now }
    requires one_each { length routes.now ≡ aircraft book.now }
    requires rising { All (IsRisingFrom (activities book.now) Carry) routes.now }
    requires aircraft { k < aircraft book.now }
    ensures added { IfOk result (AddsRoute pool.old pool.new (entry_of routes.now k)) }
    ensures fitting { (facts : List Fact) → IsFittingPool table.now book.now facts pool.old → IsFittingEntry book.now facts (entry_of routes.now k)
        → IsFittingPool table.now book.now facts pool.new }
{
    every_book_is_sound(book);
    match pool.add(book, table, k as u32, &routes[k])? {
        PoolAdd::New(_) => Ok(true),
        PoolAdd::There(_) => Ok(false),
    }
}

/// Adds a route of each aircraft to a pool, and answers whether one of them is new.
pub fn add_routes(
    book: &Book,
    table: &CostTable,
    pool: &mut Pool,
    routes: &[Route],
) -> Result<bool, Memory>
    requires table { IsTableFor book.now table.now }
    requires one_each { length routes.now ≡ aircraft book.now }
    requires rising { All (IsRisingFrom (activities book.now) Carry) routes.now }
    ensures all { OnOk result (HasAll pool.new routes.now (length routes.now)) }
    ensures grown { IfOk result (HasGrown pool.old pool.new) }
    ensures fitting { (facts : List Fact) → IsFittingPool table.now book.now facts pool.old → AreFittingRoutes book.now facts routes.now
        → IsFittingPool table.now book.now facts pool.new }
{
    every_book_is_sound(book);
    let mut grew = false;
    for k in 0..routes.len() {
        if add_route(book, table, pool, routes, k)? {
            grew = true;
        }
    }
    Ok(grew)
}
