//! Parts of a plan that were planned again: while the routes of a part stay the same, it is not planned a second time.
//!
//! A part is known by a hash alone. Two parts have the same one by a rare chance, and then one of them is not tried.

use crate::mixing::mixed;
use std::alloc::Global;
use tail_book::{Memory, Route};

/// A part of a plan: what the aircraft that do not keep their route fly from one activity on, up to another.
#[derive(Clone, Copy)]
pub struct PlanPart<'a> {
    pub kept: &'a [bool],
    pub from: u32,
    pub to: u32,
}

/// The parts that were tried, by their hashes.
#[derive(Drop)]
pub struct TriedParts {
    hashes: Vec<u64>,
}

// A hash with an aircraft's route more.
fn with_route(hash: u64, k: usize, route: &[u32]) -> u64 {
    let mut hash = mixed(hash, k as u64);
    for a in route {
        hash = mixed(hash, u64::from(*a));
    }
    mixed(hash, u64::MAX)
}

// The hash of a part, with the whole routes of the aircraft in it.
fn hash_of(part: PlanPart, routes: &[Route]) -> u64 {
    let mut hash = mixed(mixed(0, u64::from(part.from)), u64::from(part.to));
    for k in 0..routes.len() {
        if !part.kept.get(k).copied().unwrap_or(false) {
            let route = &routes[k];
            hash = with_route(hash, k, &route.0);
        }
    }
    hash
}

impl TriedParts {
    /// Nothing was tried yet.
    pub fn nothing(alloc: Global) -> TriedParts {
        TriedParts {
            hashes: Vec::new(alloc),
        }
    }

    /// Notes a part of a plan, and answers whether it is new.
    pub fn note(&mut self, part: PlanPart, routes: &[Route]) -> Result<bool, Memory> {
        let hash = hash_of(part, routes);
        if self.hashes.contains(&hash) {
            return Ok(false);
        }
        self.hashes.push(hash)?;
        Ok(true)
    }
}
