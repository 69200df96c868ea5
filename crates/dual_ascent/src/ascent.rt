//! The ascent from one round of exact pricing to the next: temperature, trust, and the best duals so far.
//!
//! A round prices duals exactly, adds routes to the pool, and climbs over the pool from the best duals. The pool promises
//! a sum that pricing does not keep, since it lacks routes; so duals go only so far from the best ones, further where the
//! promise was kept and less where it was not. Where the pool promises little more than the best sum, the temperature
//! falls; where a promise was kept far out though sweeps did not come to rest, it rises. At the last temperature a few
//! rounds without a gain end the ascent.

ghost use Rattle.std.specs.Prelude.{◌≡◌, length, None, IfOk};
ghost use Rattle.branch_marks.specs.Settled.{AreDuals};
ghost use Rattle.dual_ascent.specs.Ascent.{better};

use crate::climb::{Limits, climb, go_on};
use crate::groups::Member;
use crate::mixture::Mixture;
use crate::powers::Powers;
use crate::sides::{Side, Sides};
use restricted_master::Pool;
use std::alloc::Global;
use std::marker::Model;
use tail_book::{Book, COST_UNIT, CostTable, Duals, Memory};

// The temperature at the beginning is such a part of the mean of the first duals, which is as large as costs are, and lies
// within these, in thousandths of a cost unit.
const PART: u64 = 100;

const MILDEST: u64 = 1_000;

const HOTTEST: u64 = 1 << 31;

// The radius at the beginning is so many temperatures.
const FIRST_RADIUS: i64 = 3;

// The temperature at the end of an ascent for few aircraft.
const COLDEST: u64 = 20;

// Mixtures of one aircraft hold a sum down by so many temperatures.
const HELD_DOWN: u64 = 3;

// The same for duals that an ascent has been through, under fewer marks.
const WARM: i64 = 1_000;

const NEAR_RADIUS: i64 = 10_000;

// How far duals are trusted at most.
const LAST_RADIUS: i64 = 5_000_000;

// A radius of more temperatures than this is far.
const FAR: i64 = 10;

// A gain of less than such a part of a temperature for each aircraft is little.
const LITTLE: i128 = 10;

// So many rounds without a gain end the ascent.
const STALLS: u32 = 4;

// So many rounds without a gain cool the ascent, also where its sweeps have not come to rest.
const PATIENCE: u32 = 2;

// Where sweeps did not come to rest, duals go on along their way at most so often.
const LEAPS: u32 = 62;

// An ascent between two rounds of pricing cools at most so often.
const COOLINGS: u32 = 32;

/// What an ascent keeps between rounds. Contracts see the best duals that were priced, and their sum.
#[derive(Drop)]
pub struct Ascent {
    powers: Powers,
    mixture: Mixture,
    // what routes count for besides, where plans may do so only so often
    sides: Sides,
    temperature: i64,
    // the temperature at the end
    last: i64,
    radius: i64,
    // no dual is larger, with or without its sign
    most: i64,
    best: Vec<i64>,
    sum: Option<i128>,
    // what the pool promised of the duals that are to be priced
    promised: Option<i128>,
    stalls: u32,
    // whether the last sweeps came to rest
    is_still: bool,
}

impl Model for Ascent {
    ghost use Rattle.dual_ascent.specs.Seen.{AscentSeen};

    ghost Value = { AscentSeen };

    ghost view = { λ a. record { best = a.best.items; sum = a.sum } };
}

// The temperature at which an ascent from first duals begins.
fn first_temperature(first: &Duals) -> i64 {
    let mut sum = 0u64;
    for dual in first.values.iter() {
        sum = sum.saturating_add(dual.unsigned_abs());
    }
    let mean = sum / (first.values.len() as u64).max(1);
    (mean / PART).clamp(MILDEST, HOTTEST) as i64
}

// The temperature at the end. At it the mixtures of all aircraft together hold a sum down by three quarters of a cost unit at
// most, so that it can still be rounded up to what the pool promises. Where aircraft are few it need not be so low.
fn last_temperature(table: &CostTable) -> i64 {
    let most = COST_UNIT * 3 / 4;
    let parts = HELD_DOWN.saturating_mul(table.m as u64).max(1);
    (most / parts).clamp(1, COLDEST) as i64
}

/// Four times the most that an activity costs an aircraft, in thousandths of a cost unit.
pub fn most_of(table: &CostTable) -> i64 {
    let mut most = 1u64;
    for cost in table.fly.iter() {
        most = most.max(*cost);
    }
    (most.min(1 << 40) * 4000) as i64
}

// A sum in cost units, rounded up where it is positive.
fn rounded_up(sum: i128) -> i128 {
    let unit = i128::from(COST_UNIT);
    sum.saturating_add(unit - 1) / unit
}

impl Ascent {
    /// An ascent that begins at these duals, of which no sum is known yet.
    pub fn new(alloc: Global, table: &CostTable, first: &Duals) -> Result<Ascent, Memory>
        ensures first { IfOk result (λ ascent. ascent.best ≡ first.now.values) }
        ensures none { IfOk result (λ ascent. ascent.sum ≡ None) }
    {
        let temperature = first_temperature(first);
        Ascent::starting(
            alloc,
            table,
            first,
            temperature,
            temperature.saturating_mul(FIRST_RADIUS),
        )
    }

    /// An ascent that goes on at duals with which an earlier one ended, where less was decided: it is cooler, and stays nearer.
    pub fn again(alloc: Global, table: &CostTable, first: &Duals) -> Result<Ascent, Memory>
        ensures first { IfOk result (λ ascent. ascent.best ≡ first.now.values) }
        ensures none { IfOk result (λ ascent. ascent.sum ≡ None) }
    {
        Ascent::starting(alloc, table, first, WARM, NEAR_RADIUS)
    }

    /// An ascent that begins at these duals and this temperature, and trusts duals so far from them: both in
    /// thousandths of a cost unit.
    pub fn starting(
        alloc: Global,
        table: &CostTable,
        first: &Duals,
        temperature: i64,
        radius: i64,
    ) -> Result<Ascent, Memory>
        ensures first { IfOk result (λ ascent. ascent.best ≡ first.now.values) }
        ensures none { IfOk result (λ ascent. ascent.sum ≡ None) }
    {
        Ok(Ascent {
            powers: Powers::new(alloc)?,
            mixture: Mixture::new(alloc),
            sides: Sides::new(alloc, table.box_end()),
            temperature,
            last: last_temperature(table),
            radius,
            most: most_of(table),
            best: first.values.clone()?,
            sum: None,
            promised: None,
            stalls: 0,
            is_still: true,
        })
    }

    /// The best duals so far.
    pub fn best(&self) -> &[i64]
        ensures { result.now ≡ self.now.best }
    {
        self.best.as_slice()
    }

    /// Their sum, in thousandths of a cost unit, where one is known.
    pub fn sum(&self) -> Option<i128>
        ensures { result ≡ self.now.sum }
    {
        self.sum
    }

    /// Takes sides, with the prices that they begin with.
    pub fn take_sides(&mut self, sides: Vec<Side>)
        ensures { self.new ≡ self.old }
    {
        self.sides.all = sides;
    }

    /// Takes which sides the routes of a pool count for, of which there are so many: members are sides, in the groups of their routes, once
    /// for each time.
    pub fn count_sides(&mut self, counted: &[Member], routes: usize) -> Result<(), Memory>
        ensures { self.new ≡ self.old }
    {
        self.sides.set(counted, routes)
    }

    /// The price of a side, in thousandths of a cost unit.
    pub fn price(&self, side: usize) -> i64 {
        self.sides.price(side)
    }

    /// Its price beside the best duals, in the same unit.
    pub fn best_price(&self, side: usize) -> i64 {
        self.sides.best_price(side)
    }

    /// How hot the mixtures are, in thousandths of a cost unit.
    pub fn temperature(&self) -> i64 {
        self.temperature
    }

    /// Whether the ascent has come to its end: at the last temperature, after a few rounds without a gain, or where no gain
    /// would bound costs higher.
    pub fn is_over(&self) -> bool {
        self.temperature <= self.last && (self.stalls >= STALLS || self.is_high())
    }

    // Whether the best sum, rounded up to whole cost units, comes to all that the pool promises.
    fn is_high(&self) -> bool {
        let (Some(promised), Some(best)) = (self.promised, self.sum) else {
            return false;
        };
        rounded_up(promised) <= rounded_up(best)
    }

    /// Whether the pool promises so little that no sum of this size, in thousandths of a cost unit, is near: three
    /// temperatures for each aircraft below it.
    pub fn falls_short(&self, goal: i128, aircraft: usize) -> bool {
        let room = (aircraft as i128).saturating_mul(self.temperature as i128 * 3);
        self.promised
            .is_some_and(|promised| promised.saturating_add(room) < goal)
    }

    /// Learns the sum that exact pricing gives of duals, in thousandths of a cost unit. The best ones are kept.
    pub fn learn(&mut self, duals: &Duals, sum: i128)
        requires { length duals.now.values ≡ length self.old.best }
        ensures { self.new ≡ better self.old duals.now.values sum }
    {
        let gain = self.sum.map_or(1, |best| sum.saturating_sub(best));
        self.trust(gain);
        if gain > 0 {
            self.best.copy_from_slice(duals.values.as_slice());
            self.sides.keep();
            self.sum = Some(sum);
            self.stalls = 0;
        } else {
            self.stall();
        }
    }

    // Counts a round without a gain. After a few of them the pool at this temperature has nothing more to tell.
    fn stall(&mut self)
        ensures { self.new ≡ self.old }
    {
        self.stalls = self.stalls.saturating_add(1);
        if self.stalls >= PATIENCE {
            self.cool();
        }
    }

    // Goes further from the best duals where what the pool promised was kept, and less far where it was not.
    fn trust(&mut self, gain: i128)
        ensures { self.new ≡ self.old }
    {
        let hoped = match (self.promised, self.sum) {
            (Some(promised), Some(best)) => promised.saturating_sub(best).max(1),
            _ => return,
        };
        if gain.saturating_mul(2) > hoped {
            self.radius = self.radius.saturating_mul(3) / 2;
            self.heat();
        } else if gain.saturating_mul(10) < hoped {
            self.radius = self.radius.saturating_mul(3) / 5;
        }
        self.radius = self.radius.min(LAST_RADIUS).max(self.temperature);
    }

    // Lets the temperature rise where sweeps did not come to rest and what the pool promised was kept far from the best duals:
    // there it is too cold for the way that is left.
    fn heat(&mut self)
        ensures { self.new ≡ self.old }
    {
        let far = self.temperature.saturating_mul(FAR);
        if !self.is_still && self.radius > far && self.temperature < HOTTEST as i64 {
            self.temperature = self.temperature.saturating_mul(3) / 2;
        }
    }

    /// Moves duals to where the sum over a pool is larger, near the best ones, and within the box.
    pub fn climb(
        &mut self,
        book: &Book,
        table: &CostTable,
        pool: &Pool,
        duals: &mut Duals,
    ) -> Result<(), Memory>
        requires best { AreDuals table.now book.now self.old.best }
        requires duals { AreDuals table.now book.now duals.old.values }
        ensures kept { self.new ≡ self.old }
        ensures duals { AreDuals table.now book.now duals.new.values }
    {
        duals.values.copy_from_slice(self.best.as_slice());
        self.sides.restore();
        for _turn in 0..COOLINGS {
            self.is_still = self.climb_once(book, table, pool, duals)?;
            if !self.is_still {
                self.leap(book, table, pool, duals)?;
                self.cool_where_promise_is_small(book.tails.len());
                return Ok(());
            }
            if !self.is_near(book.tails.len()) {
                return Ok(());
            }
            self.cool();
        }
        Ok(())
    }

    // Goes on from the best duals through these, twice as far each time, as long as the pool promises more.
    fn leap(
        &mut self,
        book: &Book,
        table: &CostTable,
        pool: &Pool,
        duals: &mut Duals,
    ) -> Result<(), Memory>
        requires duals { AreDuals table.now book.now duals.old.values }
        ensures kept { self.new ≡ self.old }
        ensures duals { AreDuals table.now book.now duals.new.values }
    {
        for _turn in 0..LEAPS {
            if !self.leap_once(book, table, pool, duals)? {
                return Ok(());
            }
        }
        Ok(())
    }

    // Goes twice as far from the best duals, where the pool promises more there. Answers whether it does.
    fn leap_once(
        &mut self,
        book: &Book,
        table: &CostTable,
        pool: &Pool,
        duals: &mut Duals,
    ) -> Result<bool, Memory>
        requires duals { AreDuals table.now book.now duals.old.values }
        ensures kept { self.new ≡ self.old }
        ensures duals { AreDuals table.now book.now duals.new.values }
    {
        let limits = Limits {
            center: self.best.as_slice(),
            radius: self.radius,
            most: self.most,
        };
        let mut there = Duals {
            values: duals.values.clone()?,
        };
        go_on(book, table, limits, &mut there);
        let here = self.sides.all.clone()?;
        self.sides.go_on();
        let m = book.tails.len();
        let sum = self
            .mixture
            .sum_over(pool, &self.sides, there.values.as_slice(), m)?;
        if !self.promised.is_some_and(|promised| promised < sum) {
            self.sides.all = here;
            return Ok(false);
        }
        self.promised = Some(sum);
        duals.values.copy_from_slice(there.values.as_slice());
        Ok(true)
    }

    // Cools where sweeps did not come to rest, but the pool promises so little that no more is to be had at this temperature.
    fn cool_where_promise_is_small(&mut self, aircraft: usize)
        ensures { self.new ≡ self.old }
    {
        let (Some(promised), Some(best)) = (self.promised, self.sum) else {
            return;
        };
        let little = (aircraft as i128).saturating_mul(self.temperature as i128) / LITTLE;
        if promised.saturating_sub(best) <= little {
            self.cool();
        }
    }

    // Climbs at the present temperature, and notes what the pool promises of the duals. Answers whether little moved at last.
    fn climb_once(
        &mut self,
        book: &Book,
        table: &CostTable,
        pool: &Pool,
        duals: &mut Duals,
    ) -> Result<bool, Memory>
        requires duals { AreDuals table.now book.now duals.old.values }
        ensures kept { self.new ≡ self.old }
        ensures duals { AreDuals table.now book.now duals.new.values }
    {
        let m = book.tails.len();
        let temperature = self.temperature;
        self.mixture.take(
            pool,
            &self.sides,
            duals.values.as_slice(),
            m,
            temperature,
            &self.powers,
        )?;
        let limits = Limits {
            center: self.best.as_slice(),
            radius: self.radius,
            most: self.most,
        };
        let is_still = climb(
            book,
            table,
            &self.powers,
            &mut self.mixture,
            limits,
            &mut self.sides,
            duals,
            temperature,
        )?;
        let sum = self.mixture.sum(duals.values.as_slice());
        self.promised = Some(sum.saturating_sub(self.sides.total()));
        Ok(is_still)
    }

    // Whether the pool promises so little more than the best sum that it is time to cool: three temperatures for each aircraft.
    fn is_near(&self, aircraft: usize) -> bool {
        let (Some(promised), Some(best)) = (self.promised, self.sum) else {
            return false;
        };
        let hoped = promised.saturating_sub(best);
        let near = (aircraft as i128).saturating_mul(self.temperature as i128 * 3);
        self.temperature > self.last && hoped <= near
    }

    // Lets the temperature fall.
    fn cool(&mut self)
        ensures { self.new ≡ self.old }
    {
        self.temperature = (self.temperature.saturating_mul(3) / 4).max(self.last);
    }
}
