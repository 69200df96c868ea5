//! What each aircraft flies in a slice of the timetable by the routes of a pool, and how far that stands out.
//!
//! A route has a mass, two to the power of minus what it weighs above the lightest one, in temperatures. Routes of an aircraft that
//! fly the same in the slice go together, and the lead is what has the greatest mass. Its share of all masses of the aircraft says
//! how sure it is.

use crate::mixing::mixed;
use crate::slice::Slice;
use crate::weights::Weights;
use restricted_master::Pool;
use std::alloc::Global;
use tail_book::Memory;

/// The whole of an aircraft's mass.
pub const WHOLE: u64 = 1 << 20;

/// The lightest route that flies a lead, by its number in the pool, and the lead's share of `WHOLE`.
#[derive(Clone, Copy)]
pub struct Lead {
    pub route: usize,
    pub share: u64,
}

// Routes of an aircraft that fly the same in a slice: what tells that, their masses together, and the lightest of them, with what
// it weighs above the aircraft's lightest.
#[derive(Clone, Copy)]
struct Bundle {
    hash: u64,
    aircraft: usize,
    mass: u64,
    route: usize,
    excess: i64,
}

// The mass of a route that is heavier than the lightest by so much. Between two halvings it falls in a straight line.
fn mass(excess: i64, temperature: i64) -> u64 {
    let (excess, temperature) = (excess.max(0) as u64, temperature.max(1) as u64);
    let halvings = excess / temperature;
    if halvings > 20 {
        return 0;
    }
    let whole = WHOLE >> halvings;
    let share = (excess % temperature).saturating_mul(WHOLE) / temperature;
    whole.saturating_sub((whole / 2).saturating_mul(share) / WHOLE)
}

// A hash of an aircraft and what a route has in a slice.
fn hash_in(k: usize, route: &[u32], slice: Slice) -> u64 {
    let mut hash = mixed(0, k as u64);
    for a in route {
        if slice.has(*a) {
            hash = mixed(hash, u64::from(*a));
        }
    }
    hash
}

// A bundle of each route in a pool.
fn bundles_of(
    alloc: Global,
    pool: &Pool,
    weights: &Weights,
    temperature: i64,
    slice: Slice,
) -> Result<Vec<Bundle>, Memory> {
    let mut bundles = Vec::with_capacity(alloc, pool.count())?;
    for i in 0..pool.count() {
        let k = pool.aircraft(i) as usize;
        let excess = weights.excess(i, k);
        bundles.push(Bundle {
            hash: hash_in(k, pool.route(i), slice),
            aircraft: k,
            mass: mass(excess, temperature),
            route: i,
            excess,
        })?;
    }
    Ok(bundles)
}

// The same, those next to each other that fly the same.
fn sorted_bundles(
    alloc: Global,
    pool: &Pool,
    weights: &Weights,
    temperature: i64,
    slice: Slice,
) -> Result<Vec<Bundle>, Memory> {
    let mut bundles = bundles_of(alloc, pool, weights, temperature, slice)?;
    bundles.sort_by_key(|bundle| bundle.hash)?;
    Ok(bundles)
}

// Two bundles that fly the same as one.
fn joined(one: Bundle, other: Bundle) -> Bundle {
    let mass = one.mass.saturating_add(other.mass);
    if other.excess < one.excess {
        Bundle { mass, ..other }
    } else {
        Bundle { mass, ..one }
    }
}

// Those that stand next to each other and fly the same put together.
fn join_all(alloc: Global, bundles: &[Bundle]) -> Result<Vec<Bundle>, Memory> {
    let mut all = Vec::new(alloc);
    let mut last: Option<Bundle> = None;
    for i in 0..bundles.len() {
        let next = bundles[i];
        last = match last {
            Some(bundle) if bundle.hash == next.hash => Some(joined(bundle, next)),
            Some(bundle) => {
                all.push(bundle)?;
                Some(next)
            }
            None => Some(next),
        };
    }
    if let Some(bundle) = last {
        all.push(bundle)?;
    }
    Ok(all)
}

// The lead of an aircraft beside one bundle more. Its share is a mass here.
fn led(lead: Option<Lead>, bundle: Bundle) -> Lead {
    match lead {
        Some(lead) if lead.share >= bundle.mass => lead,
        _ => Lead {
            route: bundle.route,
            share: bundle.mass,
        },
    }
}

// The part of an aircraft's mass that a lead has.
fn shared(lead: Lead, all: u64) -> Lead {
    let share = u128::from(lead.share) * u128::from(WHOLE) / u128::from(all.max(1));
    Lead {
        route: lead.route,
        share: share.min(u128::from(WHOLE)) as u64,
    }
}

// What an aircraft's bundles come to: its lead, whose share is a mass here, and all masses together.
#[derive(Clone, Copy)]
struct Tally {
    lead: Option<Lead>,
    mass: u64,
}

const NO_BUNDLE: Tally = Tally {
    lead: None,
    mass: 0,
};

// Notes bundles, each at its aircraft.
fn note_all(tallies: &mut [Tally], bundles: &[Bundle]) {
    for i in 0..bundles.len() {
        let bundle = bundles[i];
        if let Some(tally) = tallies.get_mut(bundle.aircraft) {
            *tally = Tally {
                lead: Some(led(tally.lead, bundle)),
                mass: bundle.mass.saturating_add(tally.mass),
            };
        }
    }
}

// Notes the routes of a pool, put together where they fly the same.
fn note_pool(
    alloc: Global,
    pool: &Pool,
    weights: &Weights,
    temperature: i64,
    slice: Slice,
    tallies: &mut [Tally],
) -> Result<(), Memory> {
    let bundles = sorted_bundles(alloc, pool, weights, temperature, slice)?;
    note_all(tallies, &join_all(alloc, &bundles)?);
    Ok(())
}

// What each of so many aircraft comes to.
fn tallies_of(
    alloc: Global,
    pool: &Pool,
    weights: &Weights,
    aircraft: usize,
    temperature: i64,
    slice: Slice,
) -> Result<Vec<Tally>, Memory> {
    let mut tallies = vec![in alloc; NO_BUNDLE; aircraft]?;
    note_pool(alloc, pool, weights, temperature, slice, &mut tallies)?;
    Ok(tallies)
}

// The leads with their shares of all masses.
fn shares_of(alloc: Global, tallies: &[Tally]) -> Result<Vec<Option<Lead>>, Memory> {
    let mut leads = Vec::with_capacity(alloc, tallies.len())?;
    for k in 0..tallies.len() {
        let Tally { lead, mass } = tallies[k];
        leads.push(lead.map(|lead| shared(lead, mass)))?;
    }
    Ok(leads)
}

/// The lead in a slice of each of so many aircraft that has a route in the pool.
pub fn leads_of(
    alloc: Global,
    pool: &Pool,
    duals: &[i64],
    aircraft: usize,
    temperature: i64,
    slice: Slice,
) -> Result<Vec<Option<Lead>>, Memory> {
    let weights = Weights::of(alloc, pool, duals, aircraft)?;
    let tallies = tallies_of(alloc, pool, &weights, aircraft, temperature, slice)?;
    shares_of(alloc, &tallies)
}
