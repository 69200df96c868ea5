//! Adding routes to a pool: a route is looked for by its hash, and then compared whole.
//!
//! So a route that is new is hardly ever compared with another, and what adding costs is its hash, its cost, and a walk
//! over one list of numbers. All growths are asked for before a route is put, so without memory the pool is what it
//! was.

ghost use Rattle.std.specs.Prelude.{◌≡◌, ◌<◌, ◌≤◌, ◌+◌, ◌↔◌, ◌^◌, ◌++◌, ◌∷◌, [], Contains, IfOk, IsTrue, MatchOption, OnErr, length, vec_capacity, vec_len};
ghost use Rattle.tail_book.specs.Lookup.{activities, aircraft};
ghost use Rattle.tail_book.specs.declared.place.Place.TheVariants.{Carry};
ghost use Rattle.tail_book.specs.CostTable.{IsTableFor, route_cost_in};
ghost use Rattle.tail_book.specs.inside.Rising.{IsRisingFrom};
ghost use Rattle.restricted_master.specs.Adding.{Adds};
ghost use Rattle.restricted_master.specs.Pool.{entry_at, with_entry, IsEntryAt, IsPoolFor};
ghost use Rattle.restricted_master.specs.inside.Hash.{hash_of};

use crate::costing::route_cost;
use crate::entry::Entry;
use crate::hashing::hash_of;
use crate::index::LISTS;
use crate::route_lists::list_at;
use crate::{Pool, PoolAdd};
use tail_book::{Book, CostTable, Memory, Route};

// How many routes can be numbered.
const MOST_ROUTES: usize = 1 << 32;

// Puts activities behind others, for which there is room.
fn put_all(activities: &mut Vec<u32>, route: &[u32])
    requires { vec_len activities.old + length route.now ≤ vec_capacity activities.old }
    ensures { activities.new.items ≡ activities.old.items ++ route.now }
{
    let _ = activities.extend_from_slice(route);
}

// Puts an entry behind others, for which there is room.
fn put(entries: &mut Vec<Entry>, entry: Entry)
    requires { vec_len entries.old < vec_capacity entries.old }
    ensures { entries.new.items ≡ entries.old.items ++ entry ∷ [] }
{
    let _ = entries.push(entry);
}

impl Pool {
    // Whether an entry is this route of this aircraft.
    fn is_entry(&self, i: usize, k: u32, route: &[u32]) -> bool
        requires { i < length self.now.entries }
        ensures { IsTrue result ↔ (entry_at self.now i ≡ record { aircraft = k; route = route.now }) }
    {
        self.aircraft(i) == k && self.route(i) == route
    }

    // Whether this number is that of this route, which has this hash.
    fn is_number(&self, i: usize, hash: u32, k: u32, route: &[u32]) -> bool
        requires { hash ≡ hash_of k route.now }
        ensures { IsTrue result ↔ IsEntryAt self.now k route.now i }
    {
        if i >= self.count() || self.hash(i) != hash {
            return false;
        }
        self.is_entry(i, k, route)
    }

    // The number of a route, where the pool has it: in the list of its hash, or among the routes that are not listed yet.
    fn find(&self, k: u32, route: &[u32]) -> Option<usize>
        ensures { MatchOption result (¬ Contains self.now.entries (record { aircraft = k; route = route.now })) (IsEntryAt self.now k route.now) }
    {
        let hash = hash_of(k, route);
        let numbers = list_at(&self.lists, hash as usize % LISTS);
        for q in 0..numbers.len() {
            let i = numbers[q] as usize;
            if self.is_number(i, hash, k, route) {
                return Some(i);
            }
        }
        for i in self.listed..self.count() {
            if self.is_number(i, hash, k, route) {
                return Some(i);
            }
        }
        None
    }

    // Puts a route that the pool does not have behind the others. All growths are asked for first.
    fn put(&mut self, k: u32, route: &[u32], cost: u64) -> Result<(), Memory>
        requires new { ¬ Contains self.old.entries (record { aircraft = k; route = route.now }) }
        requires few { length self.old.entries < 2 ^ 32 }
        ensures put { IfOk result (λ _. self.new ≡ with_entry self.old (record { aircraft = k; route = route.now }) cost) }
        ensures memory { OnErr result (self.new ≡ self.old) }
    {
        self.activities.reserve(route.len())?;
        self.entries.reserve(1)?;
        let start = self.activities.len();
        put_all(&mut self.activities, route);
        let entry = Entry {
            start,
            end: self.activities.len(),
            aircraft: k,
            hash: hash_of(k, route),
            cost,
        };
        put(&mut self.entries, entry);
        Ok(())
    }

    /// Adds a route of an aircraft, with its cost by the table, unless the pool has it.
    pub fn add(
        &mut self,
        book: &Book,
        table: &CostTable,
        k: u32,
        route: &Route,
    ) -> Result<PoolAdd, Memory>
        requires table { IsTableFor book.now table.now }
        requires aircraft { k < aircraft book.now }
        requires rising { IsRisingFrom (activities book.now) Carry route.now }
        ensures added { IfOk result (Adds self.old self.new (record { aircraft = k; route = route.now }) (route_cost_in table.now book.now k route.now)) }
        ensures memory { OnErr result (self.new ≡ self.old) }
        ensures kept { IsPoolFor table.now book.now self.old → IsPoolFor table.now book.now self.new }
    {
        self.list_rest()?;
        if let Some(i) = self.find(k, &route.0) {
            return Ok(PoolAdd::There(i));
        }
        let i = self.count();
        if i >= MOST_ROUTES {
            return Err(Memory);
        }
        let cost = route_cost(book, table, k, &route.0);
        self.put(k, &route.0, cost)?;
        Ok(PoolAdd::New(i))
    }
}
