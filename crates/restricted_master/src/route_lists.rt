//! The routes of a pool by activity and by aircraft, as lists of their numbers.
//!
//! The pool is walked once for the lists by aircraft, and then once more, aircraft by aircraft, so that the routes of
//! an activity come in order of aircraft. Whoever goes over a pool many times makes the lists once, and they serve
//! until the pool changes.

ghost use Rattle.std.specs.Prelude.{◌≡◌, ℕ, ◌<◌, ◌≤◌, ◌^◌, ◌++◌, ◌∷◌, [], All, length, replicate, slice_set, IfOk, OnErr};
ghost use Rattle.tail_book.specs.Lookup.{activities, aircraft};
ghost use Rattle.tail_book.specs.declared.place.Place.TheVariants.{Carry};
ghost use Rattle.tail_book.specs.inside.Rising.{IsRisingFrom};
ghost use Rattle.restricted_master.specs.Pool.{aircraft_at, route_at, IsPoolFor};
ghost use Rattle.restricted_master.specs.Lists.{AreListsOf, list_at};
ghost use Rattle.restricted_master.specs.inside.Listing.{AreListedBy, AreOwn, GrowBy, GrowByOne};

use crate::Pool;
use std::alloc::Global;
use std::marker::Model;
use tail_book::{Book, CostTable, Memory};

/// For each activity the numbers of the routes that have it, in order of aircraft, and for each aircraft the numbers of
/// its routes. Contracts see the record of these lists.
#[derive(Drop)]
pub struct RouteLists {
    by_activity: Vec<Numbers>,
    by_aircraft: Vec<Numbers>,
}

impl Model for RouteLists {
    ghost use Rattle.restricted_master.specs.Seen.{RouteListsSeen};

    ghost Value = { RouteListsSeen };

    ghost view = { λ l. record { by_activity = l.by_activity.items; by_aircraft = l.by_aircraft.items } };
}

/// Numbers of routes. Contracts see their list.
#[derive(Debug, Drop)]
pub(crate) struct Numbers(pub(crate) Vec<u32>);

impl Model for Numbers {
    ghost use Rattle.std.specs.Prelude.{ℕ, List};

    ghost Value = { List ℕ };

    ghost view = { λ n. n.0.items };
}

impl RouteLists {
    /// The lists of a pool's routes, for the book's activities and aircraft.
    pub fn of(
        alloc: Global,
        pool: &Pool,
        book: &Book,
        table: &CostTable,
    ) -> Result<RouteLists, Memory>
        requires { IsPoolFor table.now book.now pool.now }
        ensures { IfOk result (AreListsOf pool.now (activities book.now) (aircraft book.now)) }
    {
        let by_aircraft = lists_by_aircraft(alloc, pool, book.tails.len())?;
        let by_activity = lists_by_activity(alloc, pool, book.activities.len(), &by_aircraft)?;
        Ok(RouteLists {
            by_activity,
            by_aircraft,
        })
    }

    /// The numbers of the routes that have an activity, in order of aircraft, and of one aircraft in the pool's order.
    pub fn with(&self, a: usize) -> &[u32]
        requires { a < length self.now.by_activity }
        ensures { result.now ≡ list_at self.now.by_activity a }
    {
        list_at(&self.by_activity, a)
    }

    /// The numbers of an aircraft's routes, in the pool's order.
    pub fn of_aircraft(&self, k: usize) -> &[u32]
        requires { k < length self.now.by_aircraft }
        ensures { result.now ≡ list_at self.now.by_aircraft k }
    {
        list_at(&self.by_aircraft, k)
    }
}

// One of the lists.
pub(crate) fn list_at(lists: &[Numbers], at: usize) -> &[u32]
    requires { at < length lists.now }
    ensures { result.now ≡ list_at lists.now at }
{
    let numbers = &lists[at];
    &numbers.0
}

// So many empty lists.
pub(crate) fn empty_lists(alloc: Global, count: usize) -> Result<Vec<Numbers>, Memory>
    ensures { IfOk result (λ lists. lists.items ≡ replicate count []) }
{
    let mut lists = Vec::with_capacity(alloc, count)?;
    for _list in 0..count {
        lists.push(Numbers(Vec::new(alloc)))?;
    }
    Ok(lists)
}

// Puts a number at the end of one list.
pub(crate) fn put(lists: &mut Vec<Numbers>, at: usize, i: u32) -> Result<(), Memory>
    requires { at < length lists.old.items }
    ensures put { IfOk result (λ _. lists.new.items ≡ slice_set lists.old.items at (list_at lists.old.items at ++ i ∷ [])) }
    ensures memory { OnErr result (lists.new.items ≡ lists.old.items) }
{
    let numbers = &mut lists[at];
    numbers.0.push(i)?;
    Ok(())
}

// The numbers of each aircraft's routes.
fn lists_by_aircraft(alloc: Global, pool: &Pool, m: usize) -> Result<Vec<Numbers>, Memory>
    requires { (i : ℕ) → i < length pool.now.entries → aircraft_at pool.now i < m }
    ensures { IfOk result (λ lists. AreOwn pool.now m (length pool.now.entries) lists.items) }
{
    pool.is_small();
    let mut lists = empty_lists(alloc, m)?;
    for i in 0..pool.count() {
        put(&mut lists, pool.aircraft(i) as usize, i as u32)?;
    }
    Ok(lists)
}

// Puts a route's number at the end of the list of each of its activities.
fn put_to_all(lists: &mut Vec<Numbers>, route: &[u32], i: u32) -> Result<(), Memory>
    requires { IsRisingFrom (length lists.old.items) Carry route.now }
    ensures { IfOk result (λ _. GrowByOne route.now i lists.old.items lists.new.items) }
{
    for q in 0..route.len() {
        put(lists, route[q] as usize, i)?;
    }
    Ok(())
}

// Does so for each of these routes.
fn put_each(lists: &mut Vec<Numbers>, pool: &Pool, numbers: &[u32]) -> Result<(), Memory>
    requires numbers { All (λ i. i < length pool.now.entries) numbers.now }
    requires rising { (i : ℕ) → i < length pool.now.entries → IsRisingFrom (length lists.old.items) Carry (route_at pool.now i) }
    ensures grown { IfOk result (λ _. GrowBy pool.now numbers.now lists.old.items lists.new.items) }
{
    for q in 0..numbers.len() {
        let i = numbers[q];
        put_to_all(lists, pool.route(i as usize), i)?;
    }
    Ok(())
}

// For each activity the numbers of the routes that have it, aircraft by aircraft.
fn lists_by_activity(
    alloc: Global,
    pool: &Pool,
    n: usize,
    by_aircraft: &[Numbers],
) -> Result<Vec<Numbers>, Memory>
    requires own { AreOwn pool.now (length by_aircraft.now) (length pool.now.entries) by_aircraft.now }
    requires rising { (i : ℕ) → i < length pool.now.entries → IsRisingFrom n Carry (route_at pool.now i) }
    ensures listed { IfOk result (λ lists. AreListedBy pool.now n (length by_aircraft.now) lists.items) }
{
    let mut lists = empty_lists(alloc, n)?;
    for k in 0..by_aircraft.len() {
        put_each(&mut lists, pool, list_at(by_aircraft, k))?;
    }
    Ok(lists)
}
