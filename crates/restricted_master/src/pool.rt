//! A pool of routes, each kept for one aircraft with its cost.
//!
//! Routes lie flat: the activities of all of them in one list, and for each route an entry that says where it begins and
//! ends. So a walk over the pool reads memory in order, and a route is lent as a slice.
//!
//! The numbers of routes are listed by their hashes, so that a route is found without a walk.

ghost use Rattle.std.specs.Prelude.{◌≡◌, ◌<◌, ◌≤◌, ◌^◌, length, IfOk};
ghost use Rattle.restricted_master.specs.Pool.{aircraft_at, cost_at, empty_pool, route_at};

use crate::entry::Entry;
use crate::index::LISTS;
use crate::route_lists::{Numbers, empty_lists};
use std::alloc::Global;
use std::marker::Model;
use tail_book::{COST_UNIT, Memory};

/// Routes, each of one aircraft and with its cost, in the order in which they came. No two are the same route of the
/// same aircraft. Contracts see the record of its lists.
#[derive(Debug, Drop)]
pub struct Pool {
    pub(crate) activities: Vec<u32>,
    pub(crate) entries: Vec<Entry>,
    // the numbers of the first so many routes, by their hashes
    pub(crate) lists: Vec<Numbers>,
    pub(crate) listed: usize,
}

impl Model for Pool {
    ghost use Rattle.restricted_master.specs.Seen.{PoolSeen};
    ghost use Rattle.restricted_master.specs.inside.Flat.{IsFlat, pool_of};
    ghost use Rattle.restricted_master.specs.inside.Index.{IsIndexed};

    ghost Value = { PoolSeen };

    ghost view = { λ p. pool_of p.activities.items p.entries.items };

    ghost invariant = { λ p. IsFlat p.activities.items p.entries.items × IsIndexed (pool_of p.activities.items p.entries.items) p.lists.items p.listed };
}

impl Pool {
    /// A pool with no route.
    pub fn new(alloc: Global) -> Result<Pool, Memory>
        ensures { IfOk result (λ pool. pool ≡ empty_pool) }
    {
        let (activities, entries) = (Vec::new(alloc), Vec::new(alloc));
        let lists = empty_lists(alloc, LISTS)?;
        Ok(Pool {
            activities,
            entries,
            lists,
            listed: 0,
        })
    }

    /// How many routes there are. They are numbered from 0.
    pub fn count(&self) -> usize
        ensures { result ≡ length self.now.entries }
    {
        self.entries.len()
    }

    /// Routes are numbered in 32 bits.
    pub fn is_small(&self)
        ensures { length self.now.entries ≤ 2 ^ 32 }
    {
        let _ = &self.entries;
    }

    /// The activities of a route.
    pub fn route(&self, i: usize) -> &[u32]
        requires { i < length self.now.entries }
        ensures { result.now ≡ route_at self.now i }
    {
        let entry = &self.entries[i];
        &self.activities[entry.start..entry.end]
    }

    /// The aircraft that a route is kept for.
    pub fn aircraft(&self, i: usize) -> u32
        requires { i < length self.now.entries }
        ensures { result ≡ aircraft_at self.now i }
    {
        self.entries[i].aircraft
    }

    /// What a route costs its aircraft, in cost units.
    pub fn cost(&self, i: usize) -> u64
        requires { i < length self.now.entries }
        ensures { result ≡ cost_at self.now i }
    {
        self.entries[i].cost
    }

    /// What a route costs less the duals of its activities, in thousandths of a cost unit. A number that is too large stays
    /// at the end of its range: this is for suggestions, and nothing that is told of a plan rests on it.
    pub fn weight(&self, i: usize, duals: &[i64]) -> i64
        requires { i < length self.now.entries }
    {
        let mut weight = (self.cost(i).min(1 << 52) * COST_UNIT) as i64;
        for a in self.route(i) {
            weight = weight.saturating_sub(duals.get(*a as usize).copied().unwrap_or(0));
        }
        weight
    }
}
