//! How far the routes of a plan stand above the lightest ones: what one aircraft flies that is far from its lightest route is worth
//! planning again.

use crate::weights::Weights;
use restricted_master::Pool;
use std::alloc::Global;
use tail_book::Memory;

// An aircraft, and how much heavier its heaviest route in a pool is than its lightest, in thousandths of a cost unit.
#[derive(Clone, Copy)]
struct Standing {
    aircraft: usize,
    excess: i64,
}

// So many aircraft, none of which stands above its lightest route.
fn at_rest(alloc: Global, aircraft: usize) -> Result<Vec<Standing>, Memory> {
    let mut all = Vec::with_capacity(alloc, aircraft)?;
    for k in 0..aircraft {
        all.push(Standing {
            aircraft: k,
            excess: 0,
        })?;
    }
    Ok(all)
}

// Notes how far the routes of a pool stand above the lightest ones.
fn note_pool(pool: &Pool, weights: &Weights, standings: &mut [Standing]) {
    for i in 0..pool.count() {
        let k = pool.aircraft(i) as usize;
        if let Some(standing) = standings.get_mut(k) {
            standing.excess = weights.excess(i, k).max(standing.excess);
        }
    }
}

// So many aircraft by how far they stand above their lightest routes, the furthest first.
fn sorted_standings(
    alloc: Global,
    pool: &Pool,
    weights: &Weights,
    aircraft: usize,
) -> Result<Vec<Standing>, Memory> {
    let mut all = at_rest(alloc, aircraft)?;
    note_pool(pool, weights, &mut all);
    all.sort_by_key(|standing| 0i64.saturating_sub(standing.excess))?;
    Ok(all)
}

// The aircraft alone.
fn order_of(alloc: Global, standings: &[Standing]) -> Result<Vec<usize>, Memory> {
    let mut order = Vec::with_capacity(alloc, standings.len())?;
    for i in 0..standings.len() {
        order.push(standings[i].aircraft)?;
    }
    Ok(order)
}

/// So many aircraft, those first whose heaviest route in a pool stands furthest above their lightest one.
pub fn furthest_first(
    alloc: Global,
    pool: &Pool,
    duals: &[i64],
    aircraft: usize,
) -> Result<Vec<usize>, Memory> {
    let weights = Weights::of(alloc, pool, duals, aircraft)?;
    let standings = sorted_standings(alloc, pool, &weights, aircraft)?;
    order_of(alloc, &standings)
}

// Frees so many aircraft of an order, from a place in it on.
fn free(kept: &mut [bool], order: &[usize], from: usize, many: usize) {
    for i in from..from.saturating_add(many).min(order.len()) {
        if let Some(is_kept) = kept.get_mut(order[i]) {
            *is_kept = false;
        }
    }
}

/// Which aircraft keep their route where those are planned again that stand first in an order, and so many from a place on.
pub fn kept_beside(
    alloc: Global,
    order: &[usize],
    first: usize,
    from: usize,
    many: usize,
) -> Result<Vec<bool>, Memory> {
    let mut kept = vec![in alloc; true; order.len()]?;
    free(&mut kept, order, 0, first);
    free(&mut kept, order, from, many);
    Ok(kept)
}
