//! Plans that may leave activities out, as dives end with them: a route for each aircraft, and beside these a flag for
//! each activity, so that it is one look whether it is left out.

use std::alloc::Global;
use tail_book::{Book, Memory, Route};

/// A route for each aircraft, and which activities none of them has.
#[derive(Drop)]
pub struct SoftPlan {
    pub routes: Vec<Route>,
    pub left_out: Vec<bool>,
}

// So many routes without an activity.
fn empty_routes(alloc: Global, aircraft: usize) -> Result<Vec<Route>, Memory> {
    let mut routes = Vec::with_capacity(alloc, aircraft)?;
    for _k in 0..aircraft {
        routes.push(Route(Vec::new(alloc)))?;
    }
    Ok(routes)
}

impl SoftPlan {
    /// The plan in which nobody flies.
    pub fn none(alloc: Global, book: &Book) -> Result<SoftPlan, Memory> {
        let left_out = vec![in alloc; true; book.activities.len()]?;
        let routes = empty_routes(alloc, book.tails.len())?;
        Ok(SoftPlan { routes, left_out })
    }

    /// The plan of these routes.
    pub fn of(alloc: Global, book: &Book, routes: Vec<Route>) -> Result<SoftPlan, Memory> {
        let left_out = vec![in alloc; true; book.activities.len()]?;
        let mut plan = SoftPlan { routes, left_out };
        for k in 0..plan.routes.len() {
            plan.note(k);
        }
        Ok(plan)
    }

    // Notes that the activities of an aircraft's route are not left out.
    fn note(&mut self, k: usize) {
        let (routes, left_out) = (&self.routes, &mut self.left_out);
        if let Some(route) = routes.get(k) {
            for a in route.0.iter() {
                if let Some(left) = left_out.get_mut(*a as usize) {
                    *left = false;
                }
            }
        }
    }

    /// Gives an aircraft a route, beside what the others have.
    pub fn fly(&mut self, k: usize, route: Route) {
        if let Some(own) = self.routes.get_mut(k) {
            *own = route;
        }
        self.note(k);
    }

    /// Takes another plan instead, if that leaves less out.
    pub fn take_fuller(&mut self, other: SoftPlan) {
        if other.count_left() < self.count_left() {
            *self = other;
        }
    }

    /// Whether an activity is left out.
    pub fn leaves_out(&self, a: usize) -> bool {
        self.left_out.get(a).copied().unwrap_or(false)
    }

    /// How many activities are left out.
    pub fn count_left(&self) -> usize {
        let mut count = 0usize;
        for left in self.left_out.iter() {
            if *left {
                count = count.saturating_add(1);
            }
        }
        count
    }
}
