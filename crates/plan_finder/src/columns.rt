//! The columns of a dive or a neighbourhood: a pool of its own, and searches that add routes to it until their work is spent.
//!
//! Each route is judged before it enters a pool: it has to be legal for its aircraft and to fit the marks.

ghost use Rattle.std.specs.Prelude.{◌≡◌, ◌<◌, List, All, IfOk, IsTrue};
ghost use Rattle.tail_book.specs.Lookup.{activities, aircraft};
ghost use Rattle.tail_book.specs.declared.place.Place.TheVariants.{Carry};
ghost use Rattle.tail_book.specs.inside.Rising.{IsRisingFrom};
ghost use Rattle.branch_marks.specs.declared.fact.Fact.{Fact};
ghost use Rattle.branch_marks.specs.Pool.{IsFittingEntry};
ghost use Rattle.branch_marks.specs.Settled.{AreDuals};
ghost use Rattle.branch_marks.specs.inside.MarkTables.{AreMarksOf};
ghost use Rattle.restricted_master.specs.Pool.{IsPoolFor};
ghost use Rattle.route_search.specs.Search.{IsSearchOf};
ghost use Rattle.plan_finder.specs.Columns.{AreColumns};
ghost use Rattle.plan_finder.specs.Problem.{IsProblem};

use crate::problem::Problem;
use branch_marks::Marks;
use maint_counters::is_legal_route;
use pool_plans::Weights;
use restricted_master::{Pool, PoolAdd, number_of};
use route_search::{LeastWithin, RouteSearch, Suggestions};
use std::alloc::Global;
use tail_book::laws::{every_book_is_sound, legal_routes_rise};
use tail_book::{Duals, Memory, Route};

/// A pool, and what searches for it keep.
#[derive(Drop)]
pub struct Columns {
    pub pool: Pool,
    pub search: RouteSearch,
    suggested: Suggestions,
    // how many labels and routes may still be looked at
    work: u64,
}

// Whether a route is legal for an aircraft and fits the marks.
fn is_good(
    problem: &Problem,
    marks: &Marks,
    search: &mut RouteSearch,
    k: u32,
    route: &[u32],
) -> bool
    requires marks { AreMarksOf problem.now.book.now marks.now }
    requires search { IsSearchOf problem.now.book.now search.old }
    requires aircraft { k < aircraft problem.now.book.now }
    ensures good { IsTrue result → IsFittingEntry problem.now.book.now marks.now.facts (record { aircraft = k; route = route.now }) }
    ensures search { IsSearchOf problem.now.book.now search.new }
{
    let book = problem.book;
    every_book_is_sound(book);
    marks.fits(book, k, route)
        && is_legal_route(book, &search.steps, k, route, &mut search.row[1..])
}

// Adds a route of an aircraft to a pool.
fn add_route(problem: &Problem, pool: &mut Pool, k: u32, route: &Route) -> Result<(), Memory>
    requires problem { IsProblem problem.now }
    requires aircraft { k < aircraft problem.now.book.now }
    requires rising { IsRisingFrom (activities problem.now.book.now) Carry route.now }
    requires pool { IsPoolFor problem.now.table.now problem.now.book.now pool.old }
    ensures pool { IsPoolFor problem.now.table.now problem.now.book.now pool.new }
    ensures fitting { (facts : List Fact) → All (IsFittingEntry problem.now.book.now facts) pool.old.entries
        → IsFittingEntry problem.now.book.now facts (record { aircraft = k; route = route.now })
        → All (IsFittingEntry problem.now.book.now facts) pool.new.entries }
{
    match pool.add(problem.book, problem.table, k, route)? {
        PoolAdd::New(_) => Ok(()),
        PoolAdd::There(_) => Ok(()),
    }
}

/// Adds a route of an aircraft to a pool, if it is legal and fits the marks.
pub fn add_judged(
    alloc: Global,
    problem: &Problem,
    marks: &Marks,
    pool: &mut Pool,
    search: &mut RouteSearch,
    k: u32,
    route: &[u32],
) -> Result<(), Memory>
    requires problem { IsProblem problem.now }
    requires marks { AreMarksOf problem.now.book.now marks.now }
    requires pool { IsPoolFor problem.now.table.now problem.now.book.now pool.old }
    requires search { IsSearchOf problem.now.book.now search.old }
    ensures pool { IsPoolFor problem.now.table.now problem.now.book.now pool.new }
    ensures fitting { All (IsFittingEntry problem.now.book.now marks.now.facts) pool.old.entries
        → All (IsFittingEntry problem.now.book.now marks.now.facts) pool.new.entries }
    ensures search { IsSearchOf problem.now.book.now search.new }
{
    legal_routes_rise();
    let book = problem.book;
    if (k as usize) < book.tails.len() && is_good(problem, marks, search, k, route) {
        let copied = Route(Vec::from_slice(alloc, route)?);
        add_route(problem, pool, k, &copied)?;
    }
    Ok(())
}

impl Columns {
    /// No columns yet, and so much work to spend: labels and routes that may be looked at.
    pub fn new(alloc: Global, problem: &Problem, work: u64) -> Result<Columns, Memory>
        ensures { IfOk result (AreColumns problem.now) }
    {
        let pool = Pool::new(alloc)?;
        let search = RouteSearch::new(alloc, problem.book)?;
        let suggested = Suggestions::new(alloc);
        Ok(Columns {
            pool,
            search,
            suggested,
            work,
        })
    }

    /// Whether all work is spent.
    pub fn is_spent(&self) -> bool {
        self.work == 0
    }

    /// Spends work.
    pub fn spend(&mut self, work: u64)
        ensures pool { self.new.pool ≡ self.old.pool }
        ensures search { self.new.search ≡ self.old.search }
    {
        self.work = self.work.saturating_sub(work);
    }

    /// What all columns cost together, in cost units.
    pub fn cost(&self) -> u64 {
        let mut sum = 0u64;
        for i in 0..self.pool.count() {
            sum = sum.saturating_add(self.pool.cost(i));
        }
        sum
    }

    // How many labels the last search kept.
    fn labels(&self, problem: &Problem) -> u64
        requires { IsSearchOf problem.now.book.now self.now.search }
    {
        let (book, store) = (problem.book, &self.search.store);
        let mut labels = 1u64;
        for a in 0..book.activities.len() {
            labels = labels.saturating_add(store.count(a) as u64);
        }
        labels
    }

    /// Adds a route of an aircraft, if it is legal and fits the marks.
    pub fn add(
        &mut self,
        alloc: Global,
        problem: &Problem,
        marks: &Marks,
        k: u32,
        route: &[u32],
    ) -> Result<(), Memory>
        requires problem { IsProblem problem.now }
        requires marks { AreMarksOf problem.now.book.now marks.now }
        requires columns { AreColumns problem.now self.old }
        ensures columns { AreColumns problem.now self.new }
    {
        let (pool, search) = (&mut self.pool, &mut self.search);
        add_judged(alloc, problem, marks, pool, search, k, route)
    }

    // Adds the routes of a pool that fit the marks and are no more than so much heavier than the lightest of their aircraft.
    fn add_light(
        &mut self,
        alloc: Global,
        problem: &Problem,
        marks: &Marks,
        from: &Pool,
        weights: &Weights,
        reach: i64,
    ) -> Result<(), Memory>
        requires problem { IsProblem problem.now }
        requires marks { AreMarksOf problem.now.book.now marks.now }
        requires columns { AreColumns problem.now self.old }
        ensures columns { AreColumns problem.now self.new }
    {
        for i in 0..from.count() {
            let k = from.aircraft(i);
            if weights.excess(i, k as usize) <= reach {
                self.add(alloc, problem, marks, k, from.route(i))?;
            }
        }
        Ok(())
    }

    // No columns again.
    fn clear(&mut self, alloc: Global, problem: &Problem) -> Result<(), Memory>
        requires columns { AreColumns problem.now self.old }
        ensures columns { AreColumns problem.now self.new }
    {
        self.pool = Pool::new(alloc)?;
        Ok(())
    }

    /// The columns themselves, of which none are left.
    pub fn take_pool(&mut self, alloc: Global, problem: &Problem) -> Result<Pool, Memory>
        requires columns { AreColumns problem.now self.old }
        ensures columns { AreColumns problem.now self.new }
    {
        Ok(std::mem::replace(&mut self.pool, Pool::new(alloc)?))
    }

    /// Begins with the routes of a pool that fit the marks and are no more than so much heavier than the lightest of their
    /// aircraft, in thousandths of a cost unit.
    pub fn begin(
        &mut self,
        alloc: Global,
        problem: &Problem,
        marks: &Marks,
        duals: &Duals,
        from: &Pool,
        reach: i64,
    ) -> Result<(), Memory>
        requires problem { IsProblem problem.now }
        requires marks { AreMarksOf problem.now.book.now marks.now }
        requires columns { AreColumns problem.now self.old }
        ensures columns { AreColumns problem.now self.new }
    {
        self.clear(alloc, problem)?;
        let book = problem.book;
        let weights = Weights::of(alloc, from, &duals.values, book.tails.len())?;
        self.add_light(alloc, problem, marks, from, &weights, reach)
    }

    /// Begins with the routes of a plan that fit the marks.
    pub fn begin_with(
        &mut self,
        alloc: Global,
        problem: &Problem,
        marks: &Marks,
        routes: &[Route],
    ) -> Result<(), Memory>
        requires problem { IsProblem problem.now }
        requires marks { AreMarksOf problem.now.book.now marks.now }
        requires columns { AreColumns problem.now self.old }
        ensures columns { AreColumns problem.now self.new }
    {
        self.clear(alloc, problem)?;
        self.add_plan(alloc, problem, marks, routes)
    }

    /// Adds the routes of a plan that fit the marks.
    pub fn add_plan(
        &mut self,
        alloc: Global,
        problem: &Problem,
        marks: &Marks,
        routes: &[Route],
    ) -> Result<(), Memory>
        requires problem { IsProblem problem.now }
        requires marks { AreMarksOf problem.now.book.now marks.now }
        requires columns { AreColumns problem.now self.old }
        ensures columns { AreColumns problem.now self.new }
    {
        for k in 0..routes.len() {
            let (number, route) = (number_of(k), &routes[k]);
            self.add(alloc, problem, marks, number, &route.0)?;
        }
        Ok(())
    }

    /// Keeps only what fits the marks and is no more than so much heavier than the lightest of its aircraft.
    pub fn keep(
        &mut self,
        alloc: Global,
        problem: &Problem,
        marks: &Marks,
        duals: &Duals,
        reach: i64,
    ) -> Result<(), Memory>
        requires problem { IsProblem problem.now }
        requires marks { AreMarksOf problem.now.book.now marks.now }
        requires columns { AreColumns problem.now self.old }
        ensures columns { AreColumns problem.now self.new }
    {
        let from = self.take_pool(alloc, problem)?;
        self.begin(alloc, problem, marks, duals, &from, reach)
    }

    // The least weight of an aircraft's routes that fit the marks, if it is within the cut. A route that has it enters the pool.
    fn add_least(
        &mut self,
        alloc: Global,
        problem: &Problem,
        marks: &Marks,
        duals: &Duals,
        k: u32,
        cut: i64,
        slack: u32,
    ) -> Result<Option<i64>, Memory>
        requires problem { IsProblem problem.now }
        requires marks { AreMarksOf problem.now.book.now marks.now }
        requires duals { AreDuals problem.now.table.now problem.now.book.now duals.now.values }
        requires aircraft { k < aircraft problem.now.book.now }
        requires columns { AreColumns problem.now self.old }
        ensures columns { AreColumns problem.now self.new }
    {
        let Problem { book, table, net } = *problem;
        let found = self
            .search
            .least_route(book, table, net, marks, duals, k, cut, slack)?;
        match found {
            LeastWithin::Best { value, route } => {
                self.add(alloc, problem, marks, k, &route.0)?;
                Ok(Some(value))
            }
            LeastWithin::NoneWithin => Ok(None),
        }
    }

    // Adds routes of an aircraft that weigh no more than the reach.
    fn add_near(
        &mut self,
        alloc: Global,
        problem: &Problem,
        marks: &Marks,
        duals: &Duals,
        k: u32,
        reach: i64,
    ) -> Result<(), Memory>
        requires problem { IsProblem problem.now }
        requires marks { AreMarksOf problem.now.book.now marks.now }
        requires duals { AreDuals problem.now.table.now problem.now.book.now duals.now.values }
        requires aircraft { k < aircraft problem.now.book.now }
        requires columns { AreColumns problem.now self.old }
        ensures columns { AreColumns problem.now self.new }
    {
        let Problem { book, table, net } = *problem;
        self.search.suggest(
            book,
            table,
            net,
            marks,
            duals,
            k,
            reach,
            &mut self.suggested,
        )?;
        self.add_suggested(alloc, problem, marks, k)
    }

    /// The least weight of an aircraft's routes that fit the marks, in thousandths of a cost unit, if it is within the cut. A route
    /// that has it enters the pool, and so do others that are heavier by no more than the slack.
    pub fn price(
        &mut self,
        alloc: Global,
        problem: &Problem,
        marks: &Marks,
        duals: &Duals,
        k: u32,
        cut: i64,
        slack: u32,
    ) -> Result<Option<i64>, Memory>
        requires problem { IsProblem problem.now }
        requires marks { AreMarksOf problem.now.book.now marks.now }
        requires duals { AreDuals problem.now.table.now problem.now.book.now duals.now.values }
        requires aircraft { k < aircraft problem.now.book.now }
        requires columns { AreColumns problem.now self.old }
        ensures columns { AreColumns problem.now self.new }
    {
        let least = self.add_least(alloc, problem, marks, duals, k, cut, slack)?;
        let labels = self.labels(problem);
        self.spend(labels);
        if let Some(value) = least {
            let reach = value.saturating_add(i64::from(slack));
            self.add_near(alloc, problem, marks, duals, k, reach)?;
        }
        Ok(least)
    }

    // Adds the suggested routes of an aircraft.
    fn add_suggested(
        &mut self,
        alloc: Global,
        problem: &Problem,
        marks: &Marks,
        k: u32,
    ) -> Result<(), Memory>
        requires problem { IsProblem problem.now }
        requires marks { AreMarksOf problem.now.book.now marks.now }
        requires columns { AreColumns problem.now self.old }
        ensures columns { AreColumns problem.now self.new }
    {
        let (pool, search) = (&mut self.pool, &mut self.search);
        for i in 0..self.suggested.count() {
            let route = self.suggested.route(problem.book, i);
            add_judged(alloc, problem, marks, pool, search, k, route)?;
        }
        Ok(())
    }
}
