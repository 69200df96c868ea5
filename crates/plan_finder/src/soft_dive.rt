//! A dive that cannot fail: it fixes what one aircraft after the other flies, and leaves out what no route is left for.
//!
//! It goes through the timetable in slices. In a slice, aircraft that are not fixed there yet are priced, and duals climb over the
//! pool at one temperature. Then what one of them flies in the slice is fixed, where this stands out most, with all others that
//! stand out and share nothing with it. What lies behind the slice stays open, and every route is weighed to its end: so a slice
//! leaves to those behind it what they need. A dive in one slice fixes whole routes. Nothing is propagated or undone.
//!
//! Most of the time goes into the first slice, where routes are long and all is open. So a choice fixes several aircraft there.

ghost use Rattle.std.specs.Prelude.{◌≡◌, ◌<◌, IfOk};
ghost use Rattle.tail_book.specs.Lookup.{aircraft};
ghost use Rattle.branch_marks.specs.Settled.{AreDuals};
ghost use Rattle.branch_marks.specs.inside.MarkTables.{AreMarksOf};
ghost use Rattle.plan_finder.specs.Columns.{AreColumns};
ghost use Rattle.plan_finder.specs.Problem.{IsProblem};

use crate::columns::Columns;
use crate::copying::copy_of;
use crate::problem::Problem;
use branch_marks::Marks;
use dual_ascent::Climber;
use pool_plans::{ALL, Lead, Slice, SoftPlan, WHOLE, Weights, fix, leads_of};
use restricted_master::{Pool, number_of};
use std::alloc::Global;
use tail_book::laws::every_book_is_sound;
use tail_book::{Duals, Memory};

/// A fleet of so many aircraft is large: fixing one route after the other takes it too long. The limit lies between 25 aircraft,
/// where that was worth its time, and 50.
pub const MANY: usize = 40;

/// How a dive goes: through so many slices of the timetable, at a temperature in thousandths of a cost unit. A fine one fixes one
/// aircraft after the other in the slices behind the first, which takes up to three times as long.
#[derive(Clone, Copy)]
pub struct Course {
    pub slices: u32,
    pub is_fine: bool,
    pub temperature: i64,
}

// Duals go so far in a round, in thousandths of a cost unit.
const RADIUS: i64 = 60_000;

// So many rounds come before each choice.
const ROUNDS: u32 = 2;

// A choice that fixes several aircraft fixes at least one of so many that are free.
const PART: usize = 8;

// Suggestions are looked for so many temperatures above the least weights.
const SUGGESTED: i64 = 8;

// Routes take part up to so many temperatures above the least weights.
const REACH: i64 = 30;

/// A dive under way: who flies what so far, and what is left to all others. The aircraft that are free are those of which nothing is
/// fixed in the slice yet.
#[derive(Drop)]
struct SoftDive {
    marks: Marks,
    plan: SoftPlan,
    free: Vec<bool>,
    slice: Slice,
    course: Course,
}

// The lead that stands out most, of the aircraft that are free.
fn first_lead(leads: &[Option<Lead>], free: &[bool]) -> Option<usize> {
    let mut best = None;
    let mut share = 0u64;
    for k in 0..leads.len().min(free.len()) {
        if let Some(lead) = leads[k] {
            if free[k] && lead.share > share {
                best = Some(k);
                share = lead.share;
            }
        }
    }
    best
}

// Whether a choice fixes several aircraft.
fn fixes_several(aircraft: usize, course: Course, slice: Slice) -> bool {
    if course.slices < 2 {
        aircraft >= MANY
    } else {
        !course.is_fine || slice.from == 0
    }
}

// How many leads are to be fixed at such a choice beside the first one.
fn more_for(free: &[bool]) -> usize {
    let mut count = 0usize;
    for is_free in free.iter() {
        if *is_free {
            count = count.saturating_add(1);
        }
    }
    (count / PART).saturating_sub(1)
}

// How far above the least weights suggestions are looked for, in thousandths of a cost unit.
fn slack_at(temperature: i64) -> u32 {
    temperature.saturating_mul(SUGGESTED).clamp(0, 1 << 31) as u32
}

impl SoftDive {
    // Whether nothing is fixed of an aircraft in the slice.
    fn is_free(&self, k: usize) -> bool {
        self.free.get(k).copied().unwrap_or(false)
    }

    // Whether there is such an aircraft.
    fn has_free(&self) -> bool {
        for k in 0..self.free.len() {
            if self.free[k] {
                return true;
            }
        }
        false
    }

    // Takes an aircraft from those that are free.
    fn bind(&mut self, k: usize)
        ensures { self.new.marks ≡ self.old.marks }
    {
        if let Some(free) = self.free.get_mut(k) {
            *free = false;
        }
    }

    // Prices an aircraft. One for which no route is found flies nothing.
    fn price_one(
        &mut self,
        alloc: Global,
        problem: &Problem,
        columns: &mut Columns,
        duals: &Duals,
        k: u32,
        low: i64,
    ) -> Result<(), Memory>
        requires problem { IsProblem problem.now }
        requires marks { AreMarksOf problem.now.book.now self.old.marks }
        requires duals { AreDuals problem.now.table.now problem.now.book.now duals.now.values }
        requires aircraft { k < aircraft problem.now.book.now }
        requires columns { AreColumns problem.now columns.old }
        ensures columns { AreColumns problem.now columns.new }
        ensures marks { self.new.marks ≡ self.old.marks }
    {
        let slack = slack_at(self.course.temperature);
        let cut = low.saturating_add(i64::from(slack));
        let found = columns.price(alloc, problem, &self.marks, duals, k, cut, slack)?;
        if found.is_none() {
            self.bind(k as usize);
        }
        Ok(())
    }

    // Prices the aircraft that are free, of which the lightest routes in the pool weigh this.
    fn price_free(
        &mut self,
        alloc: Global,
        problem: &Problem,
        columns: &mut Columns,
        duals: &Duals,
        weights: &Weights,
    ) -> Result<(), Memory>
        requires problem { IsProblem problem.now }
        requires marks { AreMarksOf problem.now.book.now self.old.marks }
        requires duals { AreDuals problem.now.table.now problem.now.book.now duals.now.values }
        requires columns { AreColumns problem.now columns.old }
        ensures columns { AreColumns problem.now columns.new }
        ensures marks { self.new.marks ≡ self.old.marks }
    {
        let book = problem.book;
        every_book_is_sound(book);
        for k in 0..book.tails.len() as u32 {
            if self.is_free(k as usize) && !columns.is_spent() {
                let low = weights.least(k as usize);
                self.price_one(alloc, problem, columns, duals, k, low)?;
            }
        }
        Ok(())
    }

    // Prices the aircraft that are free.
    fn price(
        &mut self,
        alloc: Global,
        problem: &Problem,
        columns: &mut Columns,
        duals: &Duals,
    ) -> Result<(), Memory>
        requires problem { IsProblem problem.now }
        requires marks { AreMarksOf problem.now.book.now self.old.marks }
        requires duals { AreDuals problem.now.table.now problem.now.book.now duals.now.values }
        requires columns { AreColumns problem.now columns.old }
        ensures columns { AreColumns problem.now columns.new }
        ensures marks { self.new.marks ≡ self.old.marks }
    {
        let book = problem.book;
        let weights = Weights::of(alloc, &columns.pool, &duals.values, book.tails.len())?;
        self.price_free(alloc, problem, columns, duals, &weights)
    }

    // Fixes what a lead has in the slice.
    fn fix(
        &mut self,
        alloc: Global,
        problem: &Problem,
        pool: &Pool,
        k: u32,
        lead: Lead,
    ) -> Result<(), Memory>
        requires { AreMarksOf problem.now.book.now self.old.marks }
        ensures { AreMarksOf problem.now.book.now self.new.marks }
    {
        self.bind(k as usize);
        if lead.route < pool.count() {
            let route = pool.route(lead.route);
            fix(problem.book, &mut self.marks, k, route, self.slice)?;
            let front = self.slice.front(alloc, route)?;
            self.plan.fly(k as usize, front);
        }
        Ok(())
    }

    // Whether an aircraft's lead stands out, and what it has is free.
    fn is_sure(&self, problem: &Problem, pool: &Pool, k: u32, lead: Lead) -> bool
        requires marks { AreMarksOf problem.now.book.now self.now.marks }
        requires aircraft { k < aircraft problem.now.book.now }
    {
        self.is_free(k as usize)
            && lead.share > WHOLE / 10 * 9
            && lead.route < pool.count()
            && self.marks.fits(problem.book, k, pool.route(lead.route))
    }

    // Fixes the leads that stand out, as far as they share nothing with what is fixed.
    fn fix_sure(
        &mut self,
        alloc: Global,
        problem: &Problem,
        pool: &Pool,
        leads: &[Option<Lead>],
    ) -> Result<(), Memory>
        requires { AreMarksOf problem.now.book.now self.old.marks }
        ensures { AreMarksOf problem.now.book.now self.new.marks }
    {
        let book = problem.book;
        every_book_is_sound(book);
        for k in 0..book.tails.len() as u32 {
            if let Some(Some(lead)) = leads.get(k as usize).copied() {
                if self.is_sure(problem, pool, k, lead) {
                    self.fix(alloc, problem, pool, k, lead)?;
                }
            }
        }
        Ok(())
    }

    // Fixes the lead of an aircraft, if what it has is free. Answers whether it is fixed now.
    fn fix_fitting(
        &mut self,
        alloc: Global,
        problem: &Problem,
        pool: &Pool,
        leads: &[Option<Lead>],
        k: usize,
    ) -> Result<bool, Memory>
        requires { AreMarksOf problem.now.book.now self.old.marks }
        ensures { AreMarksOf problem.now.book.now self.new.marks }
    {
        let book = problem.book;
        every_book_is_sound(book);
        let number = number_of(k);
        if number as usize >= book.tails.len() {
            return Ok(false);
        }
        if let Some(Some(lead)) = leads.get(k).copied() {
            if lead.route < pool.count() && self.marks.fits(book, number, pool.route(lead.route)) {
                self.fix(alloc, problem, pool, number, lead)?;
                return Ok(true);
            }
        }
        Ok(false)
    }

    // Fixes so many leads in the order in which they stand out, as far as they share nothing with what is fixed. They are those of the
    // aircraft that are open.
    fn fix_open(
        &mut self,
        alloc: Global,
        problem: &Problem,
        pool: &Pool,
        leads: &[Option<Lead>],
        many: usize,
        open: &mut [bool],
    ) -> Result<(), Memory>
        requires { AreMarksOf problem.now.book.now self.old.marks }
        ensures { AreMarksOf problem.now.book.now self.new.marks }
    {
        let mut fixed = 0usize;
        for _turn in 0..open.len() {
            if fixed >= many {
                return Ok(());
            }
            let Some(k) = first_lead(leads, open) else {
                return Ok(());
            };
            if let Some(is_open) = open.get_mut(k) {
                *is_open = false;
            }
            if self.fix_fitting(alloc, problem, pool, leads, k)? {
                fixed = fixed.saturating_add(1);
            }
        }
        Ok(())
    }

    // Does so for the aircraft that are free.
    fn fix_more(
        &mut self,
        alloc: Global,
        problem: &Problem,
        pool: &Pool,
        leads: &[Option<Lead>],
        many: usize,
    ) -> Result<(), Memory>
        requires { AreMarksOf problem.now.book.now self.old.marks }
        ensures { AreMarksOf problem.now.book.now self.new.marks }
    {
        if many == 0 {
            return Ok(());
        }
        let mut open = self.free.clone()?;
        self.fix_open(alloc, problem, pool, leads, many, &mut open)
    }

    // How many leads are fixed beside the first one.
    fn more(&self) -> usize {
        if fixes_several(self.free.len(), self.course, self.slice) {
            more_for(&self.free)
        } else {
            0
        }
    }

    // Fixes the lead that stands out most, maybe some more, and all others that stand out. Answers whether there was one.
    fn fix_leads(
        &mut self,
        alloc: Global,
        problem: &Problem,
        pool: &Pool,
        leads: &[Option<Lead>],
    ) -> Result<bool, Memory>
        requires { AreMarksOf problem.now.book.now self.old.marks }
        ensures { AreMarksOf problem.now.book.now self.new.marks }
    {
        let Some(k) = first_lead(leads, &self.free) else {
            return Ok(false);
        };
        let more = self.more();
        if let Some(Some(lead)) = leads.get(k).copied() {
            self.fix(alloc, problem, pool, number_of(k), lead)?;
        }
        self.fix_more(alloc, problem, pool, leads, more)?;
        self.fix_sure(alloc, problem, pool, leads)?;
        Ok(true)
    }

    // Does so with the leads of a pool.
    fn choose(
        &mut self,
        alloc: Global,
        problem: &Problem,
        pool: &Pool,
        duals: &Duals,
    ) -> Result<bool, Memory>
        requires { AreMarksOf problem.now.book.now self.old.marks }
        ensures { AreMarksOf problem.now.book.now self.new.marks }
    {
        let (free, temperature, slice) = (self.free.len(), self.course.temperature, self.slice);
        let leads = leads_of(alloc, pool, &duals.values, free, temperature, slice)?;
        self.fix_leads(alloc, problem, pool, &leads)
    }

    // Prices and climbs, in turn.
    fn climb(
        &mut self,
        alloc: Global,
        problem: &Problem,
        columns: &mut Columns,
        climber: &mut Climber,
        duals: &mut Duals,
    ) -> Result<(), Memory>
        requires problem { IsProblem problem.now }
        requires marks { AreMarksOf problem.now.book.now self.old.marks }
        requires duals { AreDuals problem.now.table.now problem.now.book.now duals.old.values }
        requires columns { AreColumns problem.now columns.old }
        ensures columns { AreColumns problem.now columns.new }
        ensures duals { AreDuals problem.now.table.now problem.now.book.now duals.new.values }
        ensures marks { self.new.marks ≡ self.old.marks }
    {
        for _round in 0..ROUNDS {
            self.price(alloc, problem, columns, duals)?;
            climber.climb(
                problem.book,
                problem.table,
                &columns.pool,
                duals,
                self.course.temperature,
                RADIUS,
            )?;
        }
        Ok(())
    }

    // One step: prices and climbs, and fixes what stands out. Answers whether there is more to do.
    fn step(
        &mut self,
        alloc: Global,
        problem: &Problem,
        columns: &mut Columns,
        climber: &mut Climber,
        duals: &mut Duals,
    ) -> Result<bool, Memory>
        requires problem { IsProblem problem.now }
        requires marks { AreMarksOf problem.now.book.now self.old.marks }
        requires duals { AreDuals problem.now.table.now problem.now.book.now duals.old.values }
        requires columns { AreColumns problem.now columns.old }
        ensures columns { AreColumns problem.now columns.new }
        ensures duals { AreDuals problem.now.table.now problem.now.book.now duals.new.values }
        ensures marks { AreMarksOf problem.now.book.now self.new.marks }
    {
        self.climb(alloc, problem, columns, climber, duals)?;
        if !self.choose(alloc, problem, &columns.pool, duals)? || columns.is_spent() {
            return Ok(false);
        }
        let reach = self.course.temperature.saturating_mul(REACH);
        columns.keep(alloc, problem, &self.marks, duals, reach)?;
        Ok(self.has_free())
    }

    // Goes on until nothing is left to fix in the slice.
    fn dive_slice(
        &mut self,
        alloc: Global,
        problem: &Problem,
        columns: &mut Columns,
        climber: &mut Climber,
        duals: &mut Duals,
    ) -> Result<(), Memory>
        requires problem { IsProblem problem.now }
        requires marks { AreMarksOf problem.now.book.now self.old.marks }
        requires duals { AreDuals problem.now.table.now problem.now.book.now duals.old.values }
        requires columns { AreColumns problem.now columns.old }
        ensures columns { AreColumns problem.now columns.new }
        ensures duals { AreDuals problem.now.table.now problem.now.book.now duals.new.values }
        ensures marks { AreMarksOf problem.now.book.now self.new.marks }
    {
        for _choice in 0..self.free.len() {
            if !self.step(alloc, problem, columns, climber, duals)? {
                return Ok(());
            }
        }
        Ok(())
    }

    // Enters a slice, in which nothing is fixed yet.
    fn enter(&mut self, slice: Slice)
        ensures { self.new.marks ≡ self.old.marks }
    {
        self.slice = slice;
        for k in 0..self.free.len() {
            self.free[k] = true;
        }
    }

    // Goes through all slices, as long as work is left.
    fn run(
        &mut self,
        alloc: Global,
        problem: &Problem,
        columns: &mut Columns,
        climber: &mut Climber,
        duals: &mut Duals,
    ) -> Result<(), Memory>
        requires problem { IsProblem problem.now }
        requires marks { AreMarksOf problem.now.book.now self.old.marks }
        requires duals { AreDuals problem.now.table.now problem.now.book.now duals.old.values }
        requires columns { AreColumns problem.now columns.old }
        ensures columns { AreColumns problem.now columns.new }
        ensures duals { AreDuals problem.now.table.now problem.now.book.now duals.new.values }
    {
        let (book, slices) = (problem.book, self.course.slices);
        for number in 0..slices {
            if columns.is_spent() {
                return Ok(());
            }
            self.enter(Slice::of(book.activities.len(), slices, number));
            self.dive_slice(alloc, problem, columns, climber, duals)?;
        }
        Ok(())
    }
}

// So many aircraft that are all free.
fn all_free(alloc: Global, aircraft: usize) -> Result<Vec<bool>, Memory> {
    Ok(vec![in alloc; true; aircraft]?)
}

// A dive that has not fixed anything.
fn begin(
    alloc: Global,
    problem: &Problem,
    marks: &Marks,
    course: Course,
) -> Result<SoftDive, Memory>
    ensures { IfOk result (λ dive. dive.marks ≡ marks.now) }
{
    let book = problem.book;
    let plan = SoftPlan::none(alloc, book)?;
    let free = all_free(alloc, book.tails.len())?;
    let marks = marks.copy()?;
    Ok(SoftDive {
        marks,
        plan,
        free,
        slice: ALL,
        course,
    })
}

// Dives from duals, with what climbs over pools.
fn dive_with(
    alloc: Global,
    problem: &Problem,
    marks: &Marks,
    columns: &mut Columns,
    climber: &mut Climber,
    duals: &mut Duals,
    course: Course,
) -> Result<SoftPlan, Memory>
    requires problem { IsProblem problem.now }
    requires marks { AreMarksOf problem.now.book.now marks.now }
    requires duals { AreDuals problem.now.table.now problem.now.book.now duals.old.values }
    requires columns { AreColumns problem.now columns.old }
    ensures columns { AreColumns problem.now columns.new }
{
    let mut dive = begin(alloc, problem, marks, course)?;
    dive.run(alloc, problem, columns, climber, duals)?;
    Ok(dive.plan)
}

// The same with one of its own.
fn dive_from(
    alloc: Global,
    problem: &Problem,
    marks: &Marks,
    columns: &mut Columns,
    duals: &mut Duals,
    course: Course,
) -> Result<SoftPlan, Memory>
    requires problem { IsProblem problem.now }
    requires marks { AreMarksOf problem.now.book.now marks.now }
    requires duals { AreDuals problem.now.table.now problem.now.book.now duals.old.values }
    requires columns { AreColumns problem.now columns.old }
    ensures columns { AreColumns problem.now columns.new }
{
    let mut climber = Climber::new(alloc, problem.table)?;
    dive_with(alloc, problem, marks, columns, &mut climber, duals, course)
}

/// Dives from duals, which stay as they are. The pool suggests routes to begin with.
pub fn soft_dive(
    alloc: Global,
    problem: &Problem,
    marks: &Marks,
    columns: &mut Columns,
    pool: &Pool,
    duals: &Duals,
    course: Course,
) -> Result<SoftPlan, Memory>
    requires problem { IsProblem problem.now }
    requires marks { AreMarksOf problem.now.book.now marks.now }
    requires duals { AreDuals problem.now.table.now problem.now.book.now duals.now.values }
    requires columns { AreColumns problem.now columns.old }
    ensures columns { AreColumns problem.now columns.new }
{
    let reach = course.temperature.saturating_mul(REACH);
    columns.begin(alloc, problem, marks, duals, pool, reach)?;
    let mut duals = copy_of(duals)?;
    dive_from(alloc, problem, marks, columns, &mut duals, course)
}
