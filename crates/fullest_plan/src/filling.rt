//! One aircraft flies as much as it can of what nobody has, and of what it may take from others.

ghost use Rattle.std.specs.Prelude.{◌≡◌, ◌<◌, IfOk, length};
ghost use Rattle.tail_book.specs.Lookup.{activities, aircraft};
ghost use Rattle.fullest_plan.specs.inside.Seeker.{IsSeekerOf};

use crate::route_seeker::RouteSeeker;
use std::alloc::Global;
use tail_book::{Book, Memory};

// What an activity is worth in thousandths: one that nobody has, one that another may give, one that is wanted, and one that
// another keeps. The search looks first for routes that are no further than one of the first kind from the best.
const FREE: i64 = 40_000;

const GIVEN: i64 = 36_000;

const WANTED: i64 = 120_000;

const KEPT: i64 = -1_000_000_000;

/// Whose activities an aircraft may take: two aircraft.
#[derive(Clone, Copy)]
pub struct Crew {
    pub second: u32,
    pub third: u32,
}

/// How many activities nobody flies.
pub fn left_count(fliers: &[u32], nobody: u32) -> usize {
    fliers.iter().filter(|k| **k == nobody).count()
}

/// The activity that is left out with this number among those that are, from 0 on.
pub fn left_at(fliers: &[u32], nobody: u32, number: usize) -> usize {
    let mut before = 0;
    for a in 0..fliers.len() {
        if fliers[a] == nobody {
            if before == number {
                return a;
            }
            before += 1;
        }
    }
    0
}

// What an activity is worth to aircraft `k`.
fn worth(flier: u32, nobody: u32, k: u32, is_wanted: bool, crew: &Crew) -> i64 {
    if is_wanted {
        return WANTED;
    }
    if flier == nobody || flier == k {
        return FREE;
    }
    if flier == crew.second || flier == crew.third {
        return GIVEN;
    }
    KEPT
}

// What each activity is worth to it.
fn worths(
    alloc: Global,
    book: &Book,
    fliers: &[u32],
    k: u32,
    wanted: usize,
    crew: &Crew,
) -> Result<Vec<i64>, Memory>
    ensures { IfOk result (λ list. length list.items ≡ activities book.now) }
{
    let nobody = book.tails.len() as u32;
    let mut list = Vec::with_capacity(alloc, book.activities.len())?;
    for a in 0..book.activities.len() {
        let flier = flier_of(fliers, a, nobody);
        list.push(worth(flier, nobody, k, a == wanted, crew))?;
    }
    Ok(list)
}

// Who flies an activity.
fn flier_of(fliers: &[u32], a: usize, nobody: u32) -> u32 {
    match fliers.get(a) {
        Some(k) => *k,
        None => nobody,
    }
}

// The aircraft flies nothing.
fn clear(fliers: &mut [u32], k: u32, nobody: u32) {
    for a in 0..fliers.len() {
        if fliers[a] == k {
            fliers[a] = nobody;
        }
    }
}

// The aircraft flies a route.
fn note(fliers: &mut [u32], route: &[u32], k: u32) {
    for a in route {
        if let Some(place) = fliers.get_mut(*a as usize) {
            *place = k;
        }
    }
}

/// An aircraft flies as much as it can: most of all the wanted activity, if there is one of that number.
pub fn fill(
    alloc: Global,
    book: &Book,
    seeker: &mut RouteSeeker,
    fliers: &mut [u32],
    k: u32,
    wanted: usize,
    crew: &Crew,
) -> Result<(), Memory>
    requires aircraft { k < aircraft book.now }
    requires seeker { IsSeekerOf book.now seeker.old }
    ensures seeker { IsSeekerOf book.now seeker.new }
{
    let worths = worths(alloc, book, fliers, k, wanted, crew)?;
    let route = seeker.fullest_route(alloc, book, &worths, k)?;
    clear(fliers, k, book.tails.len() as u32);
    note(fliers, &route.0, k);
    Ok(())
}
