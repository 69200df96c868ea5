//! Mixtures: for each aircraft its light routes of a pool, each with a mass that says how light it is.
//!
//! A mass is two to the power of minus a route's weight above its aircraft's base, in temperatures. Routes more than 20
//! temperatures above the least take no part, and one that comes to be as far above the base has no mass. The routes of
//! an activity lie together, in order of aircraft, so moving its dual touches their masses and the sums of their
//! aircraft in one walk. A base is taken anew only where masses get too large or too small for their sum.

use crate::demand::{Share, part_of, rise};
use crate::groups::{Groups, Member};
use crate::powers::{OCTAVE, ONE, Powers};
use crate::sides::Sides;
use restricted_master::{Pool, number_of};
use std::alloc::Global;
use tail_book::Memory;

// So many temperatures above the least weight a route has no mass.
const REACH: i64 = 20;

// A scale is kept with so many bits more than its parts.
const PART_BITS: u32 = 42;

// A base goes down where a route is so many temperatures below it.
const DEPTH: i64 = 4;

// A base goes up where the sum of masses is below this.
const FAINT: u64 = ONE >> 6;

// A dual moves so many 16ths of what would make its demand 1: the moves of its neighbours undo some of it.
const RELAXED: i64 = 26;

// No dual moves further at once than so many temperatures.
const STRIDE: i64 = 16;

/// Below this temperature mixtures are cool: more sweeps are worth their time. In thousandths of a cost unit.
pub const COOL: i64 = 1000;

// How often a side is asked for is told with so many bits more.
const ASKED_BITS: u32 = 20;

// Masses halve from temperature to temperature, so a spread is so many parts of 1,024 of what it would be by powers of e.
const OCTAVES: i128 = 1477;

// A spread of less than a quarter counts as that.
const LEAST_SPREAD: i128 = 1 << 18;

// No price moves further at once than so many temperatures.
const SIDE_STRIDE: i64 = 4;

// While mixtures are hot, an activity whose dual moves less than such a part of the temperature rests for so many sweeps.
const STILL: u64 = 100;

const RESTS: u32 = 2;

// A route that takes part: its aircraft, its weight in thousandths of a cost unit, and its mass.
#[derive(Clone, Copy)]
struct Mixed {
    owner: u32,
    weight: i64,
    mass: u64,
}

// Where the routes of an aircraft lie, from which weight their masses are measured, and what these sum to.
#[derive(Clone, Copy)]
struct Owner {
    first: usize,
    end: usize,
    base: i64,
    sum: u64,
}

// How weights become exponents: so many thousandths of a cost unit above the base a route has no mass, and a thousandth is
// so many parts of an octave, times two to the power of `PART_BITS`.
#[derive(Clone, Copy)]
struct Scale {
    reach: i64,
    parts: i64,
}

// The scale of a temperature.
fn scale_at(temperature: i64) -> Scale {
    let temperature = temperature.clamp(1, 1 << 40);
    Scale {
        reach: temperature * REACH,
        parts: (OCTAVE << PART_BITS) / temperature,
    }
}

/// The mixtures of all aircraft at a temperature.
#[derive(Drop)]
pub struct Mixture {
    temperature: i64,
    scale: Scale,
    // the weight of each route of the pool, and the least of each aircraft's
    weights: Vec<i64>,
    least: Vec<i64>,
    // the light routes as members of their aircraft's routes
    owned: Vec<Member>,
    by_aircraft: Groups,
    // the routes that take part, aircraft by aircraft
    mixed: Vec<Mixed>,
    owners: Vec<Owner>,
    // each of them as a member of the routes of each of its activities
    flown: Vec<Member>,
    by_activity: Groups,
    // and of those of each side that it counts for, once for each time
    sided: Vec<Member>,
    by_side: Groups,
    shares: Vec<Share>,
    // for how many sweeps each activity is left alone
    rests: Vec<u32>,
}

impl Mixture {
    /// Mixtures without a route.
    pub fn new(alloc: Global) -> Mixture {
        Mixture {
            temperature: 1,
            scale: scale_at(1),
            weights: Vec::new(alloc),
            least: Vec::new(alloc),
            owned: Vec::new(alloc),
            by_aircraft: Groups::new(alloc),
            mixed: Vec::new(alloc),
            owners: Vec::new(alloc),
            flown: Vec::new(alloc),
            by_activity: Groups::new(alloc),
            sided: Vec::new(alloc),
            by_side: Groups::new(alloc),
            shares: Vec::new(alloc),
            rests: Vec::new(alloc),
        }
    }

    /// Takes the light routes of a pool under duals and sides, for so many aircraft. The temperature is in thousandths of a cost unit.
    pub fn take(
        &mut self,
        pool: &Pool,
        sides: &Sides,
        duals: &[i64],
        aircraft: usize,
        temperature: i64,
        powers: &Powers,
    ) -> Result<(), Memory> {
        self.temperature = temperature.max(1);
        self.scale = scale_at(temperature);
        self.weigh_all(pool, sides, duals, aircraft)?;
        self.choose(pool)?;
        self.by_aircraft.set(self.owned.as_slice(), aircraft)?;
        self.mixed.clear();
        self.owners.clear();
        self.flown.clear();
        self.sided.clear();
        for k in 0..aircraft {
            self.mix_all(pool, sides, k)?;
            self.rebase(powers, k);
        }
        self.rests.clear();
        self.rests.resize(duals.len(), 0)?;
        self.by_side.set(self.sided.as_slice(), sides.all.len())?;
        self.by_activity.set(self.flown.as_slice(), duals.len())
    }

    /// Whether a sweep leaves an activity alone.
    pub fn is_resting(&mut self, a: usize) -> bool {
        match self.rests.get_mut(a) {
            Some(sweeps) if *sweeps > 0 => {
                *sweeps = sweeps.saturating_sub(1);
                true
            }
            _ => false,
        }
    }

    /// Lets an activity rest for the next sweeps, if its dual has moved so little while the mixtures are hot.
    pub fn rest(&mut self, a: usize, moved: u64) {
        let is_hot = self.temperature >= COOL;
        if is_hot && moved <= self.temperature.unsigned_abs() / STILL {
            if let Some(sweeps) = self.rests.get_mut(a) {
                *sweeps = RESTS;
            }
        }
    }

    // Weighs each route of the pool, and finds the least weight of each aircraft.
    fn weigh_all(
        &mut self,
        pool: &Pool,
        sides: &Sides,
        duals: &[i64],
        aircraft: usize,
    ) -> Result<(), Memory> {
        self.weights.clear();
        self.least.clear();
        self.least.resize(aircraft, i64::MAX)?;
        for i in 0..pool.count() {
            let weight = pool.weight(i, duals).saturating_add(sides.paid(i));
            if let Some(least) = self.least.get_mut(pool.aircraft(i) as usize) {
                *least = weight.min(*least);
            }
            self.weights.push(weight)?;
        }
        Ok(())
    }

    // Chooses the routes that take part.
    fn choose(&mut self, pool: &Pool) -> Result<(), Memory> {
        let reach = self.temperature.saturating_mul(REACH);
        self.owned.clear();
        for i in 0..pool.count().min(self.weights.len()) {
            let group = pool.aircraft(i);
            let least = self.least.get(group as usize).copied().unwrap_or(i64::MIN);
            if self.weights[i] <= least.saturating_add(reach) {
                self.owned.push(Member {
                    group,
                    thing: number_of(i),
                })?;
            }
        }
        Ok(())
    }

    // Lets the chosen routes of an aircraft take part.
    fn mix_all(&mut self, pool: &Pool, sides: &Sides, k: usize) -> Result<(), Memory> {
        let first = self.mixed.len();
        for i in self.by_aircraft.of(k) {
            let i = *i as usize;
            if i < pool.count() {
                count(&mut self.sided, sides.of(i), number_of(self.mixed.len()))?;
                mix(
                    &mut self.mixed,
                    &mut self.flown,
                    pool.aircraft(i),
                    self.weights.get(i).copied().unwrap_or(i64::MAX),
                    pool.route(i),
                )?;
            }
        }
        self.owners.push(Owner {
            first,
            end: self.mixed.len(),
            base: 0,
            sum: 0,
        })?;
        Ok(())
    }

    /// The sum of duals, and of the least weight of each aircraft's routes that take part, in thousandths of a cost unit.
    pub fn sum(&self, duals: &[i64]) -> i128 {
        let mut sum = total(duals);
        for owner in self.owners.iter() {
            if let Some(least) = least(self.mixed.as_slice(), *owner) {
                sum = sum.saturating_add(least as i128);
            }
        }
        sum
    }

    /// The same over all routes of a pool: the sum of duals, and of the least weight of each aircraft's routes.
    pub fn sum_over(
        &mut self,
        pool: &Pool,
        sides: &Sides,
        duals: &[i64],
        aircraft: usize,
    ) -> Result<i128, Memory> {
        self.weigh_all(pool, sides, duals, aircraft)?;
        let sum = total(duals).saturating_add(total(self.least.as_slice()));
        Ok(sum.saturating_sub(sides.total()))
    }

    // Measures an aircraft's masses from its least weight.
    fn rebase(&mut self, powers: &Powers, k: usize) {
        if let Some(owner) = self.owners.get_mut(k) {
            let (first, end) = (owner.first, owner.end);
            if first <= end && end <= self.mixed.len() {
                rebase(owner, &mut self.mixed[first..end], powers, self.scale);
            }
        }
    }

    /// By how much the dual of an activity is to rise, in thousandths of a cost unit, so that it is asked for once.
    pub fn rise(&mut self, powers: &Powers, a: usize) -> Result<i64, Memory> {
        self.share_out(a)?;
        let stride = self.temperature.saturating_mul(STRIDE);
        if self.shares.is_empty() {
            return Ok(self.first_rise(a));
        }
        let exponent = rise(powers, self.shares.as_slice());
        let rise = exponent.saturating_mul(self.temperature) / OCTAVE;
        Ok((rise.saturating_mul(RELAXED) / 16).clamp(-stride.max(0), stride.max(0)))
    }

    // The share of each aircraft's mixture that has an activity, where there is one.
    fn share_out(&mut self, a: usize) -> Result<(), Memory> {
        self.shares.clear();
        let (mut owner, mut mass) = (0u32, 0u64);
        for place in self.by_activity.of(a) {
            if let Some(route) = self.mixed.get(*place as usize) {
                if route.owner != owner {
                    share(&mut self.shares, self.owners.as_slice(), owner, mass)?;
                    (owner, mass) = (route.owner, 0);
                }
                mass = mass.saturating_add(route.mass);
            }
        }
        share(&mut self.shares, self.owners.as_slice(), owner, mass)
    }

    // By how much a dual rises where no route with the activity has a mass: to the lightest of them, if there is one.
    fn first_rise(&self, a: usize) -> i64 {
        let mut least = self.temperature.saturating_mul(STRIDE);
        let mut found = false;
        for place in self.by_activity.of(a) {
            if let Some(route) = self.mixed.get(*place as usize) {
                let above = route.weight.saturating_sub(self.base(route.owner));
                least = if found { least.min(above) } else { above };
                found = true;
            }
        }
        least.max(self.temperature)
    }

    // The base of an aircraft.
    fn base(&self, k: u32) -> i64 {
        self.owners.get(k as usize).map_or(0, |owner| owner.base)
    }

    /// Lets the dual of an activity rise: the weights of its routes fall, and their masses follow.
    pub fn shift(&mut self, powers: &Powers, a: usize, rise: i64) {
        if rise == 0 {
            return;
        }
        let (scale, depth) = (self.scale, self.temperature.saturating_mul(DEPTH));
        let places = self.by_activity.of(a);
        let (mixed, owners) = (&mut self.mixed, &mut self.owners);
        if fall(mixed, owners, places, powers, scale, depth, rise) {
            for q in 0..self.by_activity.of(a).len() {
                let place = self.by_activity.of(a).get(q).copied().unwrap_or(0);
                self.rebase_far(powers, place as usize);
            }
        }
    }

    /// By how much the price of a side is to rise, in thousandths of a cost unit, so that it is asked for as often as it may be.
    pub fn side_rise(&self, side: usize, most: u64) -> i64 {
        let stride = self.temperature.saturating_mul(SIDE_STRIDE).max(0);
        let (asked, spread) = self.asked(side);
        let excess = (asked as i128) - ((most as i128) << ASKED_BITS);
        let aim = excess
            .saturating_mul(self.temperature as i128)
            .saturating_mul(OCTAVES);
        let rise = aim / (spread as i128).max(LEAST_SPREAD) / 1024;
        rise.clamp(-(stride as i128), stride as i128) as i64
    }

    // How often the mixtures ask for a side, and how much that spreads.
    fn asked(&self, side: usize) -> (u64, u64) {
        let (mut asked, mut spread) = (0u64, 0u64);
        let (mut owner, mut once, mut square) = (0u32, 0u64, 0u64);
        let (mut last, mut times) = (u32::MAX, 0u64);
        for place in self.by_side.of(side) {
            if let Some(route) = self.mixed.get(*place as usize) {
                if route.owner != owner {
                    let (mean, variance) = self.moments(owner, once, square);
                    (asked, spread) = (asked.saturating_add(mean), spread.saturating_add(variance));
                    (owner, once, square) = (route.owner, 0, 0);
                }
                times = if *place == last {
                    times.saturating_add(1)
                } else {
                    0
                };
                last = *place;
                once = once.saturating_add(route.mass);
                let odd = times.saturating_mul(2).saturating_add(1);
                square = square.saturating_add(route.mass.saturating_mul(odd));
            }
        }
        let (mean, variance) = self.moments(owner, once, square);
        (asked.saturating_add(mean), spread.saturating_add(variance))
    }

    // The mean and the spread of how often an aircraft's mixture counts for a side.
    fn moments(&self, owner: u32, once: u64, square: u64) -> (u64, u64) {
        let all = self
            .owners
            .get(owner as usize)
            .map_or(0, |owner| owner.sum)
            .max(1);
        let mean = (((once as u128) << ASKED_BITS) / all as u128).min(1 << 40) as u64;
        let squares = (((square as u128) << ASKED_BITS) / all as u128).min(1 << 46) as u64;
        let of_mean = ((mean as u128 * mean as u128) >> ASKED_BITS).min(1 << 60) as u64;
        (mean, squares.saturating_sub(of_mean))
    }

    /// Lets the price of a side rise: the weights of its routes rise, and their masses follow.
    pub fn shift_side(&mut self, powers: &Powers, side: usize, rise: i64) {
        if rise == 0 {
            return;
        }
        let (scale, depth) = (self.scale, self.temperature.saturating_mul(DEPTH));
        let places = self.by_side.of(side);
        let (mixed, owners) = (&mut self.mixed, &mut self.owners);
        if fall(
            mixed,
            owners,
            places,
            powers,
            scale,
            depth,
            rise.saturating_neg(),
        ) {
            for q in 0..self.by_side.of(side).len() {
                let place = self.by_side.of(side).get(q).copied().unwrap_or(0);
                self.rebase_far(powers, place as usize);
            }
        }
    }

    // Measures the masses anew of the aircraft of a route that is too far from its base.
    fn rebase_far(&mut self, powers: &Powers, place: usize) {
        if let Some(route) = self.mixed.get(place).copied() {
            if self.is_far(route) {
                self.rebase(powers, route.owner as usize);
            }
        }
    }

    // Whether a route is far below its aircraft's base, or the sum of masses too faint.
    fn is_far(&self, route: Mixed) -> bool {
        let depth = self.temperature.saturating_mul(DEPTH);
        self.owners.get(route.owner as usize).is_some_and(|owner| {
            owner.sum < FAINT || route.weight < owner.base.saturating_sub(depth)
        })
    }
}

// Lets the weights of routes fall, and answers whether one of them is too far from its base then.
fn fall(
    mixed: &mut [Mixed],
    owners: &mut [Owner],
    places: &[u32],
    powers: &Powers,
    scale: Scale,
    depth: i64,
    way: i64,
) -> bool {
    let mut is_far = false;
    for place in places {
        if let Some(route) = mixed.get_mut(*place as usize) {
            route.weight = route.weight.saturating_sub(way);
            if let Some(owner) = owners.get_mut(route.owner as usize) {
                let above = route.weight.saturating_sub(owner.base);
                let mass = mass(powers, scale, above);
                owner.sum = owner.sum.saturating_sub(route.mass).saturating_add(mass);
                route.mass = mass;
                is_far |= owner.sum < FAINT || above.saturating_add(depth) < 0;
            }
        }
    }
    is_far
}

// Notes the sides that a route counts for.
fn count(sided: &mut Vec<Member>, sides: &[u32], thing: u32) -> Result<(), Memory> {
    for side in sides {
        sided.push(Member {
            group: *side,
            thing,
        })?;
    }
    Ok(())
}

// Adds a route to those that take part.
fn mix(
    mixed: &mut Vec<Mixed>,
    flown: &mut Vec<Member>,
    owner: u32,
    weight: i64,
    route: &[u32],
) -> Result<(), Memory> {
    let thing = number_of(mixed.len());
    mixed.push(Mixed {
        owner,
        weight,
        mass: 0,
    })?;
    for a in route {
        flown.push(Member { group: *a, thing })?;
    }
    Ok(())
}

// The least weight of an aircraft's routes.
fn least(mixed: &[Mixed], owner: Owner) -> Option<i64> {
    let mut least = None;
    for route in mixed.get(owner.first..owner.end)? {
        least = Some(least.map_or(route.weight, |known: i64| known.min(route.weight)));
    }
    least
}

// The sum of numbers.
fn total(numbers: &[i64]) -> i128 {
    let mut sum = 0i128;
    for number in numbers {
        sum = sum.saturating_add(*number as i128);
    }
    sum
}

// The mass of a weight that is so far above its base.
fn mass(powers: &Powers, scale: Scale, above: i64) -> u64 {
    if above >= scale.reach {
        return 0;
    }
    let exponent = above.max(-scale.reach).wrapping_mul(scale.parts) >> PART_BITS;
    powers.power(exponent.saturating_neg())
}

// Measures the masses of an aircraft's routes from the least of their weights.
fn rebase(owner: &mut Owner, routes: &mut [Mixed], powers: &Powers, scale: Scale) {
    owner.base = i64::MAX;
    for route in routes.iter() {
        owner.base = owner.base.min(route.weight);
    }
    owner.sum = 0;
    for route in routes.iter_mut() {
        route.mass = mass(powers, scale, route.weight.saturating_sub(owner.base));
        owner.sum = owner.sum.saturating_add(route.mass);
    }
}

// Adds the share that a mass is of an aircraft's mixture.
fn share(shares: &mut Vec<Share>, owners: &[Owner], owner: u32, mass: u64) -> Result<(), Memory> {
    if mass > 0 {
        let all = owners.get(owner as usize).map_or(0, |owner| owner.sum);
        shares.push(Share {
            part: part_of(mass, all),
        })?;
    }
    Ok(())
}
