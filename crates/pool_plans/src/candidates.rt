//! The routes that may stand in a plan cheaper than the best known one, lightest first.
//!
//! A plan's cost in thousandths is the Lagrangian sum over the pool and what its routes weigh above the least ones. So
//! a route takes part only where that alone stays within the room between the sum and the cost to undercut. Of more
//! than 3,000 such routes the lightest take part, so a search that finds nothing says nothing.

use crate::weights::Weights;
use restricted_master::Pool;
use std::alloc::Global;
use tail_book::{COST_UNIT, Memory};

// No more routes than this take part.
const MOST: usize = 3000;

/// A route of the pool: its number, its aircraft, and what it weighs above the least weight of that aircraft, in
/// thousandths of a cost unit.
#[derive(Clone, Copy)]
pub struct Candidate {
    pub number: usize,
    pub owner: u32,
    pub excess: i64,
}

/// The routes that take part, the lightest first, and how much all routes of a plan may weigh above the least ones, in
/// thousandths of a cost unit.
#[derive(Drop)]
pub struct Candidates {
    pub routes: Vec<Candidate>,
    pub room: i64,
}

// How much lighter than the cost to undercut the sum of duals and least weights is, for plans a unit cheaper.
fn room_below(duals: &[i64], least: &[i64], target: u64) -> i64 {
    let most = (target.saturating_sub(1)).min(1 << 52) * COST_UNIT;
    let mut room = i128::from(most);
    for value in duals {
        room = room.saturating_sub(i128::from(*value));
    }
    for value in least {
        room = room.saturating_sub(i128::from(*value));
    }
    room.clamp(-1, 1 << 60) as i64
}

// The routes that weigh no more than so much above the least ones, in the pool's order.
fn within(
    alloc: Global,
    pool: &Pool,
    weights: &Weights,
    room: i64,
) -> Result<Vec<Candidate>, Memory> {
    let mut routes = Vec::new(alloc);
    for i in 0..pool.count() {
        let owner = pool.aircraft(i);
        let excess = weights.excess(i, owner as usize);
        if excess <= room {
            routes.push(Candidate {
                number: i,
                owner,
                excess,
            })?;
        }
    }
    Ok(routes)
}

// The same, the lightest first, and not too many.
fn lightest(
    alloc: Global,
    pool: &Pool,
    weights: &Weights,
    room: i64,
) -> Result<Vec<Candidate>, Memory> {
    let mut routes = within(alloc, pool, weights, room)?;
    routes.sort_by_key(|route| route.excess)?;
    routes.truncate(MOST);
    Ok(routes)
}

impl Candidates {
    /// Those of a pool under duals, for plans that undercut a cost in cost units.
    pub fn of(
        alloc: Global,
        pool: &Pool,
        duals: &[i64],
        aircraft: usize,
        target: u64,
    ) -> Result<Candidates, Memory> {
        let weights = Weights::of(alloc, pool, duals, aircraft)?;
        let room = room_below(duals, &weights.least, target);
        let routes = lightest(alloc, pool, &weights, room)?;
        Ok(Candidates { routes, room })
    }
}
