//! What each aircraft's mixture has of the light routes of a pool, and so of the connections at the airport of a quota. Routes that are as
//! light as the least one share alike, and each temperature above it halves the mass. It only suggests.

use dual_ascent::{OCTAVE, Powers};
use quota_demands::Worth;
use quota_rows::{Fees, Quota, belongs};
use restricted_master::Pool;
use std::alloc::Global;
use tail_book::{Book, Duals, Memory};

// The mixture of an aircraft comes to so much.
const WHOLE: u64 = 10_000;

// A route of so many temperatures above the least weight has no mass.
const DEPTH: i64 = 20;

// How often a route uses a quota.
fn uses_in(book: &Book, quota: &Quota, route: &[u32]) -> i64 {
    let n = book.activities.len();
    let mut times = 0i64;
    for i in 1..route.len() {
        let (a, b) = (route[i - 1], route[i]);
        if (a as usize) < n && (b as usize) < n && belongs(book, quota, a, b) {
            times = times.saturating_add(1);
        }
    }
    times
}

// What a route pays in fees.
fn paid(book: &Book, quotas: &[Quota], fees: &Fees, route: &[u32]) -> i64 {
    let mut sum = 0i64;
    for q in 0..quotas.len() {
        let fee = fees.values.get(q).copied().unwrap_or(0);
        if fee > 0 {
            sum = sum.saturating_add(fee.saturating_mul(uses_in(book, &quotas[q], route)));
        }
    }
    sum
}

// What each route of a pool weighs with fees.
fn weights_of(
    alloc: Global,
    book: &Book,
    quotas: &[Quota],
    pool: &Pool,
    duals: &Duals,
    fees: &Fees,
) -> Result<Vec<i64>, Memory> {
    let mut weights = Vec::with_capacity(alloc, pool.count())?;
    for i in 0..pool.count() {
        let fee = paid(book, quotas, fees, pool.route(i));
        weights.push(pool.weight(i, &duals.values).saturating_add(fee))?;
    }
    Ok(weights)
}

// The least weight of each aircraft.
fn least_of(alloc: Global, book: &Book, pool: &Pool, weights: &[i64]) -> Result<Vec<i64>, Memory> {
    let mut least = vec![in alloc; i64::MAX; book.tails.len()]?;
    for i in 0..pool.count() {
        let weight = weights.get(i).copied().unwrap_or(i64::MAX);
        if let Some(so_far) = least.get_mut(pool.aircraft(i) as usize) {
            *so_far = weight.min(*so_far);
        }
    }
    Ok(least)
}

// The mass of a route that is so far above the least weight.
fn mass_at(powers: &Powers, above: i64, temperature: i64) -> u64 {
    let temperature = temperature.max(1);
    if above / temperature >= DEPTH {
        return 0;
    }
    powers.power((above.saturating_mul(OCTAVE) / temperature).saturating_neg())
}

// Writes masses in the place of weights, and answers what those of each aircraft come to.
fn put_masses(
    alloc: Global,
    book: &Book,
    pool: &Pool,
    least: &[i64],
    temperature: i64,
    masses: &mut [i64],
) -> Result<Vec<u64>, Memory> {
    let powers = Powers::new(alloc)?;
    let mut sums = vec![in alloc; 0u64; book.tails.len()]?;
    for i in 0..pool.count() {
        let k = pool.aircraft(i) as usize;
        let lightest = least.get(k).copied().unwrap_or(0);
        if let Some(mass) = masses.get_mut(i) {
            let found = mass_at(&powers, mass.saturating_sub(lightest), temperature);
            *mass = i64::try_from(found).unwrap_or(0);
            if let Some(sum) = sums.get_mut(k) {
                *sum = sum.saturating_add(found);
            }
        }
    }
    Ok(sums)
}

// Adds the connections of a route at the airport, with its part of the mixture.
fn add_route(book: &Book, quota: &Quota, k: u32, route: &[u32], part: i64, worth: &mut Worth) {
    let n = book.activities.len();
    let mut before = n.saturating_add(k as usize);
    for b in route {
        let is_there = match book.activities.get(*b as usize) {
            Some(activity) => activity.from == quota.airport,
            None => false,
        };
        if is_there {
            worth.add(*b, before, part);
        }
        before = *b as usize;
    }
}

/// The parts that the mixtures of the pool have of the connections at a quota's airport, at a temperature in thousandths of a cost unit.
pub fn worth_of(
    alloc: Global,
    book: &Book,
    quotas: &[Quota],
    quota: &Quota,
    pool: &Pool,
    duals: &Duals,
    fees: &Fees,
    temperature: i64,
) -> Result<Worth, Memory> {
    let mut masses = weights_of(alloc, book, quotas, pool, duals, fees)?;
    let least = least_of(alloc, book, pool, &masses)?;
    let sums = put_masses(alloc, book, pool, &least, temperature, &mut masses)?;
    let mut worth = Worth::new(alloc, book, quota)?;
    for i in 0..pool.count() {
        let k = pool.aircraft(i);
        let all = sums.get(k as usize).copied().unwrap_or(0).max(1);
        let mass = masses.get(i).copied().unwrap_or(0).unsigned_abs();
        let part = i64::try_from(mass.min(1 << 40) * WHOLE / all).unwrap_or(0);
        if part > 0 {
            add_route(book, quota, k, pool.route(i), part, &mut worth);
        }
    }
    Ok(worth)
}
