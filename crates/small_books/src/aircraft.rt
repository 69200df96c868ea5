//! Aircraft without tags, curfews of their own and fixed costs: of a name and a type, with an airport at which they are ready
//! from a minute on.

use crate::names::names_in_order;
use std::alloc::Global;
use tail_book::*;

/// An aircraft of this name and type, ready at an airport from a minute since 1970-01-01T00:00 UTC on, without counters.
pub fn named_tail(alloc: Global, name: Name, kind: u32, at: u32, ready: i64) -> Tail {
    Tail {
        name,
        kind,
        at,
        ready,
        fixed: 0,
        tags: Vec::new(alloc),
        avoid: Vec::new(alloc),
        carry: Vec::new(alloc),
    }
}

fn tail(alloc: Global, name: Name, kind: u32, counters: usize) -> Result<Tail, Memory> {
    let mut tail = named_tail(alloc, name, kind, 0, 0);
    tail.carry = vec![in alloc; 0i64; counters]?;
    Ok(tail)
}

/// An aircraft of each of these types, of which at most ten count: ready at airport 0 at minute 0, with nothing on their
/// counters.
pub fn tails(alloc: Global, kinds: &[u32], counters: usize) -> Result<Vec<Tail>, Memory> {
    let mut tails = Vec::new(alloc);
    for (name, kind) in names_in_order().iter().zip(kinds) {
        tails.push(tail(alloc, *name, *kind, counters)?)?;
    }
    Ok(tails)
}
