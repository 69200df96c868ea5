//! Activities, each written as a row: what tests change is in the row, and all else asks for nothing. At most ten rows
//! count, as many as there are names.

use crate::names::names_in_order;
use std::alloc::Global;
use tail_book::*;

/// An activity: a flight or not, its airports, its start and its end, and whether it sets the first counter to 0.
#[derive(Clone, Copy, Debug)]
pub struct SmallActivity {
    pub flight: bool,
    /// The airport from which it leads, and the one to which.
    pub leg: (u32, u32),
    /// Its start and its end: minutes since 1970-01-01T00:00 UTC.
    pub time: (i64, i64),
    pub resets: bool,
}

/// A flight.
pub fn flight(leg: (u32, u32), time: (i64, i64)) -> SmallActivity {
    SmallActivity {
        flight: true,
        leg,
        time,
        resets: false,
    }
}

// The counters that a row sets to 0.
fn resets(alloc: Global, row: SmallActivity) -> Result<Vec<u32>, Memory> {
    let mut resets = Vec::new(alloc);
    if row.resets {
        resets.push(0)?;
    }
    Ok(resets)
}

/// A flight of this name that any aircraft may fly, between two airports and from one minute since 1970-01-01T00:00 UTC to
/// another.
pub fn named_flight(alloc: Global, id: Name, leg: (u32, u32), time: (i64, i64)) -> Activity {
    let ((from, to), (start, end)) = (leg, time);
    Activity {
        id,
        flight: true,
        from,
        to,
        start,
        end,
        types: Vec::new(alloc),
        tags: Vec::new(alloc),
        tail: None,
        resets: Vec::new(alloc),
    }
}

fn activity(alloc: Global, id: Name, row: SmallActivity) -> Result<Activity, Memory> {
    let mut activity = named_flight(alloc, id, row.leg, row.time);
    activity.flight = row.flight;
    activity.resets = resets(alloc, row)?;
    Ok(activity)
}

/// The activities of these rows, of which at most ten count.
pub fn activities(alloc: Global, rows: &[SmallActivity]) -> Result<Vec<Activity>, Memory> {
    let mut activities = Vec::new(alloc);
    for (name, row) in names_in_order().iter().zip(rows) {
        activities.push(activity(alloc, *name, *row)?)?;
    }
    Ok(activities)
}
