//! What the routes of a pool weigh, for suggestions alone: numbers that are too large stay at the end of their range,
//! and nothing that is told of a plan rests on it. One pass over the pool keeps a number for each route and each
//! aircraft.

use restricted_master::Pool;
use std::alloc::Global;
use tail_book::Memory;

/// What the routes of a pool weigh under duals, in thousandths of a cost unit, and the least weight of each aircraft: the
/// greatest number where it has no route.
#[derive(Drop)]
pub struct Weights {
    routes: Vec<i64>,
    pub(crate) least: Vec<i64>,
}

// The weight of each route.
fn weights_of(alloc: Global, pool: &Pool, duals: &[i64]) -> Result<Vec<i64>, Memory> {
    let mut weights = Vec::with_capacity(alloc, pool.count())?;
    for i in 0..pool.count() {
        weights.push(pool.weight(i, duals))?;
    }
    Ok(weights)
}

// The least weight of each of so many aircraft.
fn least_of(
    alloc: Global,
    pool: &Pool,
    weights: &[i64],
    aircraft: usize,
) -> Result<Vec<i64>, Memory> {
    let mut least = vec![in alloc; i64::MAX; aircraft]?;
    for i in 0..weights.len().min(pool.count()) {
        if let Some(low) = least.get_mut(pool.aircraft(i) as usize) {
            *low = weights[i].min(*low);
        }
    }
    Ok(least)
}

impl Weights {
    /// Those of a pool, for so many aircraft.
    pub fn of(
        alloc: Global,
        pool: &Pool,
        duals: &[i64],
        aircraft: usize,
    ) -> Result<Weights, Memory> {
        let routes = weights_of(alloc, pool, duals)?;
        let least = least_of(alloc, pool, &routes, aircraft)?;
        Ok(Weights { routes, least })
    }

    /// The least weight of an aircraft, in thousandths of a cost unit.
    pub fn least(&self, k: usize) -> i64 {
        self.least.get(k).copied().unwrap_or(i64::MAX)
    }

    /// How much heavier a route of an aircraft is than its lightest, in thousandths of a cost unit.
    pub fn excess(&self, i: usize, k: usize) -> i64 {
        let weight = self.routes.get(i).copied().unwrap_or(i64::MAX);
        weight.saturating_sub(self.least(k))
    }
}
