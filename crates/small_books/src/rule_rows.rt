//! Rules of small books: two types of rates 1 and 2, four airports that ask for no turn and keep UTC, no curfew, and
//! the counters and bands that a test writes.

use crate::names::names_in_order;
use std::alloc::Global;
use tail_book::*;

// Types of rate 1 and 2, with this turn.
fn kinds(alloc: Global, turn: i64) -> Result<Vec<AircraftType>, Memory> {
    let mut kinds = Vec::new(alloc);
    for (name, rate) in names_in_order().iter().zip(1..3u64) {
        kinds.push(AircraftType {
            name: *name,
            rate,
            turn,
        })?;
    }
    Ok(kinds)
}

// Airports that ask for no turn.
fn airports(alloc: Global) -> Result<Vec<Airport>, Memory> {
    let mut airports = Vec::new(alloc);
    for name in names_in_order().iter().take(4) {
        airports.push(Airport::fixed(alloc, *name, 0, 0))?;
    }
    Ok(airports)
}

/// Rules whose types have this turn in minutes, without a curfew.
pub fn rules(
    alloc: Global,
    turn: i64,
    counters: Vec<Counter>,
    bands: Vec<Band>,
) -> Result<Rules, Memory> {
    let (kinds, airports) = (kinds(alloc, turn)?, airports(alloc)?);
    Ok(Rules {
        kinds,
        airports,
        curfews: Vec::new(alloc),
        counters,
        bands,
    })
}

fn counter(
    alloc: Global,
    name: Name,
    base: u32,
    row: (CounterKind, i64, i64),
) -> Result<Counter, Memory> {
    let (kind, limit, stop) = row;
    let bases = vec![in alloc; base]?;
    Ok(Counter {
        name,
        kind,
        limit,
        bases,
        stop,
    })
}

/// Counters, each of a kind, a limit and a stop in minutes, with a base at one airport. At most ten count. A limit is in
/// the unit of its kind.
pub fn counters(
    alloc: Global,
    base: u32,
    rows: &[(CounterKind, i64, i64)],
) -> Result<Vec<Counter>, Memory> {
    let mut counters = Vec::new(alloc);
    for (name, row) in names_in_order().iter().zip(rows) {
        counters.push(counter(alloc, *name, base, *row)?)?;
    }
    Ok(counters)
}

/// Bands, each up to so many minutes at a cost in cost units.
pub fn bands(alloc: Global, rows: &[(i64, u64)]) -> Result<Vec<Band>, Memory> {
    let mut bands = Vec::new(alloc);
    for (upto, cost) in rows {
        bands.push(Band {
            upto: *upto,
            cost: *cost,
        })?;
    }
    Ok(bands)
}
