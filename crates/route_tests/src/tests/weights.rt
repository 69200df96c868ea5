//! The slow judge: all legal routes of an aircraft that fit its marks, each with its weight by the book's own costs.

ghost use Rattle.std.specs.Prelude.{◌≡◌, ◌<◌, length};
ghost use Rattle.tail_book.specs.Lookup.{aircraft};
ghost use Rattle.branch_marks.specs.inside.MarkTables.{AreMarksOf};
ghost use Rattle.maint_counters.specs.inside.StepTable.{IsStepTableOf};

use branch_marks::Marks;
use maint_counters::{StepTable, is_legal_route};
use quota_rows::Quota;
use std::alloc::Global;
use tail_book::*;

/// The activities of a route as bits; none where their numbers do not rise.
pub fn bits(route: &[u32]) -> Option<u32> {
    let mut bits = 0u32;
    for a in route {
        if *a > 31 || bits >> *a > 0 {
            return None;
        }
        bits |= 1 << *a;
    }
    Some(bits)
}

// What the first band that reaches so many minutes costs.
fn waiting(book: &Book, minutes: i64) -> i64 {
    for band in &book.rules.bands {
        if minutes <= band.upto {
            return i64::try_from(band.cost).unwrap_or(0);
        }
    }
    0
}

// The rate of an aircraft's type: 1 for the first, and 2 for the second.
fn rate(book: &Book, k: u32) -> i64 {
    match book.tails.get(k as usize) {
        Some(tail) => (tail.kind as i64).saturating_add(1),
        None => 0,
    }
}

// The minutes that are flown, by the aircraft's rate.
fn flown(book: &Book, activity: &Activity, k: u32) -> i64 {
    if activity.flight {
        activity
            .end
            .saturating_sub(activity.start)
            .saturating_mul(rate(book, k))
    } else {
        0
    }
}

// What the minutes between an activity and the one before it cost.
fn stop(book: &Book, activity: &Activity, free: Option<i64>) -> i64 {
    match free {
        Some(end) => waiting(book, activity.start.saturating_sub(end)),
        None => 0,
    }
}

// What a route of the book costs, less its duals, in thousandths: minutes flown by the aircraft's rate, and the stops.
fn weight(book: &Book, duals: &[i64], k: u32, route: &[u32]) -> i64 {
    let (mut weight, mut free) = (0i64, None);
    for a in route {
        let (Some(activity), Some(dual)) = (
            book.activities.get(*a as usize),
            duals.get(*a as usize),
        ) else {
            return i64::MAX;
        };
        let cost = flown(book, activity, k).saturating_add(stop(book, activity, free));
        weight = weight
            .saturating_add(cost.saturating_mul(1000))
            .saturating_sub(*dual);
        free = Some(activity.end);
    }
    weight
}

// Whether an activity that follows another one so belongs to a quota.
fn is_short(quota: &Quota, activity: &Activity, free: i64) -> bool {
    activity.from == quota.airport
        && activity.start.div_euclid(1440) == quota.day
        && activity.start.saturating_sub(free) < quota.below
}

// What an activity that follows another one so pays.
fn paid(quotas: &[Quota], fees: &[i64], activity: &Activity, free: Option<i64>) -> i64 {
    let mut sum = 0i64;
    let Some(free) = free else { return sum };
    for (quota, fee) in quotas.iter().zip(fees) {
        if is_short(quota, activity, free) {
            sum = sum.saturating_add(*fee);
        }
    }
    sum
}

// What the connections of six activities pay, those whose bits a number has.
fn all_paid(book: &Book, quotas: &[Quota], fees: &[i64], number: u32) -> i64 {
    let (mut sum, mut free) = (0i64, None);
    for a in 0..6u32 {
        let Some(activity) = book.activities.get(a as usize) else {
            return sum;
        };
        if number >> a & 1 == 1 {
            sum = sum.saturating_add(paid(quotas, fees, activity, free));
            free = Some(activity.end);
        }
    }
    sum
}

// Those of six activities whose bits a number has.
fn route_of(alloc: Global, number: u32) -> Result<Vec<u32>, Memory> {
    let mut route = Vec::new(alloc);
    for a in 0..6u32 {
        if number >> a & 1 == 1 {
            route.push(a)?;
        }
    }
    Ok(route)
}

/// The weight of each legal route that fits. A legal route's numbers rise, so that it is the set of them.
#[derive(Drop)]
pub struct Weights {
    routes: Vec<(u32, i64)>,
}

// Adds the weight of the route of these activities, if it is legal and fits.
fn add_weight(
    alloc: Global,
    book: &Book,
    marks: &Marks,
    steps: &StepTable,
    duals: &[i64],
    k: u32,
    number: u32,
    values: &mut [i64],
    routes: &mut Vec<(u32, i64)>,
) -> Result<(), Memory>
    requires marks { AreMarksOf book.now marks.now }
    requires steps { IsStepTableOf book.now steps.now }
    requires aircraft { k < aircraft book.now }
    requires width { length values.old ≡ length book.now.rules.counters }
    ensures width { length values.new ≡ length book.now.rules.counters }
{
    let route = route_of(alloc, number)?;
    if is_legal_route(book, steps, k, &route, values) && marks.fits(book, k, &route) {
        routes.push((number, weight(book, duals, k, &route)))?;
    }
    Ok(())
}

// Adds the weights of all routes of at most six activities.
fn add_weights(
    alloc: Global,
    book: &Book,
    marks: &Marks,
    steps: &StepTable,
    duals: &[i64],
    k: u32,
    routes: &mut Vec<(u32, i64)>,
) -> Result<(), Memory>
    requires marks { AreMarksOf book.now marks.now }
    requires steps { IsStepTableOf book.now steps.now }
    requires aircraft { k < aircraft book.now }
{
    let mut values = vec![in alloc; 0i64; book.rules.counters.len()]?;
    for number in 0..64u32 {
        add_weight(
            alloc,
            book,
            marks,
            steps,
            duals,
            k,
            number,
            &mut values,
            routes,
        )?;
    }
    Ok(())
}

/// Weighs all routes of an aircraft, those of at most six activities.
pub fn weigh_all(
    alloc: Global,
    book: &Book,
    marks: &Marks,
    duals: &[i64],
    k: u32,
) -> Result<Weights, Memory>
    requires marks { AreMarksOf book.now marks.now }
    requires aircraft { k < aircraft book.now }
{
    let steps = StepTable::of(alloc, book)?;
    let mut routes = Vec::new(alloc);
    add_weights(alloc, book, marks, &steps, duals, k, &mut routes)?;
    Ok(Weights { routes })
}

fn lesser(least: Option<i64>, weight: i64) -> Option<i64> {
    match least {
        Some(known) => Some(weight.min(known)),
        None => Some(weight),
    }
}

impl Weights {
    /// The least weight of those that have the activities of these bits, or of all for no bit.
    pub fn least(&self, bits: u32) -> Option<i64> {
        let mut least = None;
        for (number, weight) in self.routes.as_slice() {
            if *number & bits == bits {
                least = lesser(least, *weight);
            }
        }
        least
    }

    /// The most that a route has of some activities beyond others, each of them as bits.
    pub fn most(&self, asked: u32, brought: u32) -> i64 {
        let mut most = 0i64;
        for (number, _) in self.routes.as_slice() {
            let had = i64::from((*number & asked).count_ones());
            most = most.max(had.saturating_sub(i64::from((*number & brought).count_ones())));
        }
        most
    }

    // The sets of six activities that one of them and each route of others make, each set as a bit of a number.
    fn sets_with(&self, set: u32) -> u64 {
        let mut sets = 0u64;
        for (number, _) in self.routes.as_slice() {
            let joined = *number | set;
            if *number & set == 0 && joined < 64 {
                sets |= 1u64 << joined;
            }
        }
        sets
    }

    /// The sets of six activities that one of these sets and a route of others make, each set as a bit of a number.
    pub fn sets_beside(&self, sets: u64) -> u64 {
        let mut beside = 0u64;
        for set in 0..64u32 {
            if sets >> set & 1 == 1 {
                beside |= self.sets_with(set);
            }
        }
        beside
    }

    /// Adds to each weight the fees of the route's connections.
    pub fn add_fees(&mut self, book: &Book, quotas: &[Quota], fees: &[i64]) {
        for row in self.routes.iter_mut() {
            row.1 = row.1.saturating_add(all_paid(book, quotas, fees, row.0));
        }
    }

    /// The weight of a route.
    pub fn of(&self, route: &[u32]) -> Option<i64> {
        let flown = bits(route)?;
        for (number, weight) in self.routes.as_slice() {
            if *number == flown {
                return Some(*weight);
            }
        }
        None
    }

    /// The routes of least weight, as the bits of their activities.
    pub fn ties(&self, alloc: Global) -> Result<Vec<u32>, Memory> {
        let (mut ties, least) = (Vec::new(alloc), self.least(0));
        for (number, weight) in self.routes.as_slice() {
            if least == Some(*weight) {
                ties.push(*number)?;
            }
        }
        Ok(ties)
    }
}
