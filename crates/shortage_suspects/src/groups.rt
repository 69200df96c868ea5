//! Groups of aircraft: all of them, those that come to one activity, and two such groups together; and what they alone may fly.

use crate::bit_rows::BitRows;
use std::alloc::Global;
use tail_book::Memory;

// Room for so many groups, and so many of them before the first pair. Pairs are made of so many.
const MOST: usize = 1_000;

const MOST_SINGLE: usize = 200;

const MOST_PAIRED: usize = 40;

/// Groups of aircraft, a row of bits for each, and none twice: the whole fleet, then those that come to an activity, then pairs.
#[derive(Drop)]
pub struct Groups {
    rows: BitRows,
    count: usize,
    single: usize,
}

impl Groups {
    /// The groups of a fleet, by the aircraft that come to each activity.
    pub fn of(alloc: Global, carriers: &BitRows, n: usize, m: usize) -> Result<Groups, Memory> {
        let mut groups = Groups {
            rows: BitRows::new(alloc, MOST, m)?,
            count: 0,
            single: 0,
        };
        groups.add_fleet(m);
        groups.add_carriers(carriers, n);
        groups.single = groups.count;
        groups.add_pairs();
        Ok(groups)
    }

    /// How many groups there are.
    pub fn count(&self) -> usize {
        self.count
    }

    /// How many groups come before the first pair.
    pub fn single(&self) -> usize {
        self.single
    }

    /// Whether a group has an aircraft.
    pub fn has(&self, g: usize, k: usize) -> bool {
        self.rows.has(g, k)
    }

    /// Whether an activity has carriers, and all of them are of a group.
    pub fn alone_fly(&self, g: usize, carriers: &BitRows, a: usize) -> bool {
        !carriers.is_empty(a) && carriers.is_within(a, &self.rows, g)
    }

    // Keeps the row behind the groups as one more, unless it is one of them.
    fn keep(&mut self) {
        for g in 0..self.count {
            if self.rows.is_same(g, self.count) {
                self.rows.clear_row(self.count);
                return;
            }
        }
        self.count = self.count.saturating_add(1);
    }

    // Adds all aircraft.
    fn add_fleet(&mut self, m: usize) {
        for k in 0..m {
            self.rows.put(0, k);
        }
        self.keep();
    }

    // Adds those that come to an activity, for each activity.
    fn add_carriers(&mut self, carriers: &BitRows, n: usize) {
        for a in 0..n {
            if self.count < MOST_SINGLE {
                self.rows.put_row(self.count, carriers, a);
                self.keep();
            }
        }
    }

    // Adds a group together with each one before it.
    fn add_pairs_with(&mut self, g: usize) {
        for other in 0..g {
            if self.count < MOST {
                self.rows.join(self.count, g);
                self.rows.join(self.count, other);
                self.keep();
            }
        }
    }

    // Adds each two of the first groups together.
    fn add_pairs(&mut self) {
        for g in 0..self.single.min(MOST_PAIRED) {
            self.add_pairs_with(g);
        }
    }
}
