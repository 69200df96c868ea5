//! The search of a neighbourhood: what marks leave free is planned again, by rounds as at the root of a search tree.
//!
//! Aircraft are priced, their routes enter a pool of the neighbourhood's own, plans are looked for in it, and duals ascend.
//! Where the bound says that nothing cheaper is there, that is the end, mostly after a few rounds.

ghost use Rattle.std.specs.Prelude.{◌<◌};
ghost use Rattle.tail_book.specs.Lookup.{aircraft};
ghost use Rattle.branch_marks.specs.Settled.{AreDuals};
ghost use Rattle.branch_marks.specs.inside.MarkTables.{AreMarksOf};
ghost use Rattle.plan_finder.specs.Columns.{AreColumns};
ghost use Rattle.plan_finder.specs.Problem.{IsProblem};

use crate::columns::Columns;
use crate::copying::copy_of;
use crate::problem::Problem;
use branch_marks::Marks;
use dual_ascent::Ascent;
use pool_plans::{Weights, find_cover};
use std::alloc::Global;
use tail_book::laws::every_book_is_sound;
use tail_book::{COST_UNIT, Duals, Memory, Route};

// The rounds of a neighbourhood at most.
const ROUNDS: u32 = 25;

// Suggestions are looked for so many temperatures above the least weights.
const SUGGESTED: i64 = 12;

// How many turns a search for a plan in the pool may take.
const TURNS: u64 = 500;

// An ascent begins within these temperatures, in thousandths of a cost unit.
const HOTTEST: i128 = 15_000;

const COLDEST: i128 = 100;

/// What is planned again: what the marks leave free, without what is still left out, by all aircraft that do not keep their route.
#[derive(Clone, Copy)]
pub struct Neighbourhood<'a> {
    pub marks: &'a Marks,
    pub left_out: &'a [bool],
    pub kept: &'a [bool],
    /// What a plan has to undercut, in cost units.
    pub target: u64,
}

// How far above the least weights suggestions are looked for, in thousandths of a cost unit.
fn slack_at(temperature: i64) -> u32 {
    temperature.saturating_mul(SUGGESTED).clamp(0, 1 << 31) as u32
}

// The sum of the duals of what is not left out.
fn sum_of(duals: &[i64], left_out: &[bool]) -> i128 {
    let mut sum = 0i128;
    for a in 0..duals.len() {
        if !left_out.get(a).copied().unwrap_or(false) {
            sum = sum.saturating_add(i128::from(duals[a]));
        }
    }
    sum
}

/// How far a sum lies below a plan that is a cost unit cheaper than a target, in thousandths of a cost unit.
pub fn room_for(sum: i128, target: u64) -> i128 {
    i128::from(target.saturating_sub(1))
        .saturating_mul(i128::from(COST_UNIT))
        .saturating_sub(sum)
}

// A temperature for so many aircraft that may gain so much.
fn temperature_for(room: i128, aircraft: usize) -> i64 {
    let parts = (aircraft as i128).saturating_mul(3).max(1);
    (room / parts).clamp(COLDEST, HOTTEST) as i64
}

// How many of so many aircraft do not keep their route.
fn count_free(kept: &[bool], aircraft: usize) -> usize {
    let mut free = aircraft;
    for is_kept in kept {
        if *is_kept {
            free = free.saturating_sub(1);
        }
    }
    free
}

impl Columns {
    // The least weight of an aircraft in a neighbourhood, of which its lightest route in the pool has this one. Who keeps a route
    // has no other.
    fn weigh_one(
        &mut self,
        alloc: Global,
        problem: &Problem,
        near: &Neighbourhood,
        duals: &Duals,
        k: u32,
        low: i64,
        slack: u32,
    ) -> Result<Option<i64>, Memory>
        requires problem { IsProblem problem.now }
        requires marks { AreMarksOf problem.now.book.now near.now.marks.now }
        requires duals { AreDuals problem.now.table.now problem.now.book.now duals.now.values }
        requires aircraft { k < aircraft problem.now.book.now }
        requires columns { AreColumns problem.now self.old }
        ensures columns { AreColumns problem.now self.new }
    {
        if near.kept.get(k as usize).copied().unwrap_or(false) {
            return Ok(Some(low));
        }
        let (marks, cut) = (near.marks, low.saturating_add(i64::from(slack)));
        self.price(alloc, problem, marks, duals, k, cut, slack)
    }

    // The duals of what is not left out, with the least weights of all aircraft.
    fn sum_up(
        &mut self,
        alloc: Global,
        problem: &Problem,
        near: &Neighbourhood,
        duals: &Duals,
        slack: u32,
        weights: &Weights,
    ) -> Result<Option<i128>, Memory>
        requires problem { IsProblem problem.now }
        requires marks { AreMarksOf problem.now.book.now near.now.marks.now }
        requires duals { AreDuals problem.now.table.now problem.now.book.now duals.now.values }
        requires columns { AreColumns problem.now self.old }
        ensures columns { AreColumns problem.now self.new }
    {
        let book = problem.book;
        every_book_is_sound(book);
        let mut sum = sum_of(&duals.values, near.left_out);
        for k in 0..book.tails.len() as u32 {
            let low = weights.least(k as usize);
            let Some(value) = self.weigh_one(alloc, problem, near, duals, k, low, slack)? else {
                return Ok(None);
            };
            sum = sum.saturating_add(i128::from(value));
        }
        let routes = self.pool.count() as u64;
        self.spend(routes);
        Ok(Some(sum))
    }

    /// The Lagrangian sum of a neighbourhood under duals. Nothing where an aircraft has no route.
    pub fn weigh(
        &mut self,
        alloc: Global,
        problem: &Problem,
        near: &Neighbourhood,
        duals: &Duals,
        slack: u32,
    ) -> Result<Option<i128>, Memory>
        requires problem { IsProblem problem.now }
        requires marks { AreMarksOf problem.now.book.now near.now.marks.now }
        requires duals { AreDuals problem.now.table.now problem.now.book.now duals.now.values }
        requires columns { AreColumns problem.now self.old }
        ensures columns { AreColumns problem.now self.new }
    {
        let book = problem.book;
        let weights = Weights::of(alloc, &self.pool, &duals.values, book.tails.len())?;
        self.sum_up(alloc, problem, near, duals, slack, &weights)
    }

    // The routes in the pool that cover all but what is left out, where a short search finds some.
    fn cover(
        &self,
        alloc: Global,
        problem: &Problem,
        near: &Neighbourhood,
        duals: &Duals,
    ) -> Result<Option<Vec<Route>>, Memory> {
        let (book, target) = (problem.book, near.target);
        let m = book.tails.len();
        find_cover(
            alloc,
            &self.pool,
            &duals.values,
            m,
            near.left_out,
            target,
            TURNS,
        )
    }
}

// Rounds under an ascent, from the duals at which it begins.
fn ascend(
    alloc: Global,
    problem: &Problem,
    columns: &mut Columns,
    near: &Neighbourhood,
    ascent: &mut Ascent,
    duals: &mut Duals,
) -> Result<Option<Vec<Route>>, Memory>
    requires problem { IsProblem problem.now }
    requires marks { AreMarksOf problem.now.book.now near.now.marks.now }
    requires duals { AreDuals problem.now.table.now problem.now.book.now duals.old.values }
    requires center { AreDuals problem.now.table.now problem.now.book.now ascent.old.best }
    requires columns { AreColumns problem.now columns.old }
    ensures columns { AreColumns problem.now columns.new }
{
    let Problem { book, table, .. } = *problem;
    for _round in 0..ROUNDS {
        let slack = slack_at(ascent.temperature());
        let Some(sum) = columns.weigh(alloc, problem, near, duals, slack)? else {
            return Ok(None);
        };
        if room_for(sum, near.target) < 0 || columns.is_spent() || ascent.is_over() {
            return Ok(None);
        }
        if let Some(routes) = columns.cover(alloc, problem, near, duals)? {
            return Ok(Some(routes));
        }
        ascent.learn(duals, sum);
        ascent.climb(book, table, &columns.pool, duals)?;
    }
    Ok(None)
}

// Rounds under an ascent that begins at a temperature.
fn ascend_from(
    alloc: Global,
    problem: &Problem,
    columns: &mut Columns,
    near: &Neighbourhood,
    temperature: i64,
    duals: &mut Duals,
) -> Result<Option<Vec<Route>>, Memory>
    requires problem { IsProblem problem.now }
    requires marks { AreMarksOf problem.now.book.now near.now.marks.now }
    requires duals { AreDuals problem.now.table.now problem.now.book.now duals.old.values }
    requires columns { AreColumns problem.now columns.old }
    ensures columns { AreColumns problem.now columns.new }
{
    let (table, radius) = (problem.table, temperature.saturating_mul(4));
    let mut ascent = Ascent::starting(alloc, table, duals, temperature, radius)?;
    ascend(alloc, problem, columns, near, &mut ascent, duals)
}

// The same from a copy of duals.
fn ascend_beside(
    alloc: Global,
    problem: &Problem,
    columns: &mut Columns,
    near: &Neighbourhood,
    temperature: i64,
    duals: &Duals,
) -> Result<Option<Vec<Route>>, Memory>
    requires problem { IsProblem problem.now }
    requires marks { AreMarksOf problem.now.book.now near.now.marks.now }
    requires duals { AreDuals problem.now.table.now problem.now.book.now duals.now.values }
    requires columns { AreColumns problem.now columns.old }
    ensures columns { AreColumns problem.now columns.new }
{
    let mut duals = copy_of(duals)?;
    ascend_from(alloc, problem, columns, near, temperature, &mut duals)
}

/// Searches a neighbourhood of a plan. The routes that are found cover all but what is left out.
pub fn improve(
    alloc: Global,
    problem: &Problem,
    columns: &mut Columns,
    near: &Neighbourhood,
    duals: &Duals,
) -> Result<Option<Vec<Route>>, Memory>
    requires problem { IsProblem problem.now }
    requires marks { AreMarksOf problem.now.book.now near.now.marks.now }
    requires duals { AreDuals problem.now.table.now problem.now.book.now duals.now.values }
    requires columns { AreColumns problem.now columns.old }
    ensures columns { AreColumns problem.now columns.new }
{
    let Some(first) = columns.weigh(alloc, problem, near, duals, 0)? else {
        return Ok(None);
    };
    let room = room_for(first, near.target);
    if room < 0 {
        return Ok(None);
    }
    let book = problem.book;
    let free = count_free(near.kept, book.tails.len());
    let temperature = temperature_for(room, free);
    ascend_beside(alloc, problem, columns, near, temperature, duals)
}
