//! Slices of a timetable: the activities from one number on, up to another. Numbers rise with time, so a slice is a
//! stretch of it, and what a route has before the end of a slice is a front of the route.

use std::alloc::Global;
use tail_book::{Memory, Route};

/// The activities from one on, up to another.
#[derive(Clone, Copy)]
pub struct Slice {
    pub from: u32,
    pub to: u32,
}

/// All activities.
pub const ALL: Slice = Slice {
    from: 0,
    to: u32::MAX,
};

impl Slice {
    /// One of so many slices of equal width, in which so many activities lie.
    pub fn of(activities: usize, slices: u32, number: u32) -> Slice {
        let n = (activities % (1 << 31)) as u32;
        let width = n / slices.max(1) + 1;
        let from = width.saturating_mul(number);
        Slice {
            from,
            to: from.saturating_add(width),
        }
    }

    /// Whether an activity lies in the slice.
    pub fn has(&self, a: u32) -> bool {
        self.from <= a && a < self.to
    }

    /// What a route has before the end of the slice.
    pub fn front(&self, alloc: Global, route: &[u32]) -> Result<Route, Memory> {
        let mut front = Vec::new(alloc);
        for a in route {
            if *a < self.to {
                front.push(*a)?;
            }
        }
        Ok(Route(front))
    }
}
