//! Sides: what the routes of a plan may count for only so often together, and what each time costs them.
//!
//! A route counts for a side as often as the caller says. The price of a side is a dual of its own: it is never negative, and it rises
//! while the mixtures ask for the side more often than they may. As with duals, the best prices are kept, and each climb begins there.
//! Prices are in thousandths of a cost unit.

use crate::groups::{Groups, Member};
use std::alloc::Global;
use tail_book::Memory;

/// How often a plan may count for a side, and what each time costs: now, and beside the best duals.
#[derive(Clone, Copy)]
pub struct Side {
    pub(crate) most: u64,
    pub(crate) price: i64,
    pub(crate) best: i64,
}

impl Side {
    /// A side with a price that is the best so far.
    pub fn new(most: u64, price: i64) -> Side {
        Side {
            most,
            price,
            best: price,
        }
    }
}

/// Sides, and which of them each route of a pool counts for.
#[derive(Drop)]
pub struct Sides {
    /// Each side, by its number.
    pub all: Vec<Side>,
    // no price is larger
    end: i64,
    by_route: Groups,
}

impl Sides {
    /// No sides. No price is to be larger than the end.
    pub fn new(alloc: Global, end: i64) -> Sides {
        Sides {
            all: Vec::new(alloc),
            end,
            by_route: Groups::new(alloc),
        }
    }

    /// Takes what the routes of a pool count for, of which there are so many: members are sides, in the groups of their routes, once for
    /// each time.
    pub fn set(&mut self, counted: &[Member], routes: usize) -> Result<(), Memory> {
        self.by_route.set(counted, routes)
    }

    /// The sides that a route counts for, once for each time.
    pub fn of(&self, route: usize) -> &[u32] {
        self.by_route.of(route)
    }

    /// What a route pays for its sides.
    pub fn paid(&self, route: usize) -> i64 {
        let mut paid = 0i64;
        for side in self.of(route) {
            paid = paid.saturating_add(self.price(*side as usize));
        }
        paid
    }

    /// What a plan pays at most: each side as often as it may be counted for.
    pub fn total(&self) -> i128 {
        let mut total = 0i128;
        for side in self.all.iter() {
            total = total.saturating_add((side.most as i128).saturating_mul(side.price as i128));
        }
        total
    }

    /// How often a plan may count for a side.
    pub fn most(&self, side: usize) -> u64 {
        self.all.get(side).map_or(0, |side| side.most)
    }

    /// The price of a side.
    pub fn price(&self, side: usize) -> i64 {
        self.all.get(side).map_or(0, |side| side.price)
    }

    /// Its price beside the best duals.
    pub fn best_price(&self, side: usize) -> i64 {
        self.all.get(side).map_or(0, |side| side.best)
    }

    /// Lets the price of a side rise, from 0 to the end, and answers by how much it did.
    pub fn raise(&mut self, side: usize, rise: i64) -> i64 {
        let end = self.end.max(0);
        match self.all.get_mut(side) {
            Some(side) => {
                let from = side.price;
                side.price = from.saturating_add(rise).clamp(0, end);
                side.price.saturating_sub(from)
            }
            None => 0,
        }
    }

    /// Keeps the prices as the best ones.
    pub fn keep(&mut self) {
        for side in self.all.iter_mut() {
            side.best = side.price;
        }
    }

    /// Goes back to the best prices.
    pub fn restore(&mut self) {
        for side in self.all.iter_mut() {
            side.price = side.best;
        }
    }

    /// Moves each price twice as far from the best one, from 0 to the end.
    pub fn go_on(&mut self) {
        let end = self.end.max(0);
        for side in self.all.iter_mut() {
            let far = side.price.saturating_sub(side.best);
            side.price = side.price.saturating_add(far).clamp(0, end);
        }
    }
}
