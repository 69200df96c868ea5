//! A dive: facts that follow, then a fact that is tried, until the least routes are a plan or nothing is left.
//!
//! Before each choice one route of least weight stands for each aircraft. Where each activity is in exactly one of them
//! they are a legal plan, and its cost is the Lagrangian bound, so no plan that fits the marks by then costs less.
//! Otherwise the least activity that is not is given to an aircraft whose route has it, so that the routes come apart,
//! or to one that may fly it where no route has it. That pair was undecided, and no fact makes a pair undecided, so a
//! dive ends after no more choices than pairs were undecided. Marks and duals of the caller stay as they are.

ghost use Rattle.std.specs.Prelude.{◌≡◌, ◌<◌, length, IfOk, IfSome, IfNone};
ghost use Rattle.tail_book.specs.Lookup.{activities};
ghost use Rattle.tail_book.specs.CostTable.{IsTableFor};
ghost use Rattle.connection_net.specs.Net.{net_of};
ghost use Rattle.branch_marks.specs.Following.{IsShut};
ghost use Rattle.branch_marks.specs.Settled.{AreDuals};
ghost use Rattle.branch_marks.specs.inside.BranchTests.{undecided};
ghost use Rattle.branch_marks.specs.inside.MarkTables.{AreMarksOf};
ghost use Rattle.dive_heuristic.specs.Choice.{IsChoice};
ghost use Rattle.dive_heuristic.specs.LeastRoutes.{IsEachInOne};
ghost use Rattle.dive_heuristic.specs.Dive.{IsDeadEnd, IsDiveOf, IsFittingDive, IsToldInOrder};
ghost use Rattle.dive_heuristic.specs.Divers.{IsDiverFor, IsDiverOf};
ghost use Rattle.dive_heuristic.specs.inside.DiveSteps.{AddsSteps, IsAsked, StandsAt};
ghost use Rattle.dive_heuristic.specs.inside.Kept.{HasBegun};

use crate::answer::{DeadEnd, Dive, DiveStep};
use crate::dive_choice::choice;
use crate::dive_steps::{choose, propagate};
use crate::diver::Diver;
use crate::laws::{
    choices_are_undecided, fits_with_fewer, least_routes_fit, more_facts_leave_no_more,
};
use crate::least_routes::{FirstRoutes, first_routes, renew};
use branch_marks::Marks;
use branch_marks::laws::{branches_leave_fewer, following_facts_are_new};
use connection_net::Net;
use plan_audit::legal_cost;
use propagator::laws::kept_for_more;
use std::alloc::Global;
use tail_book::laws::{every_book_is_sound, legal_routes_rise, rising_routes_are_below};
use tail_book::{Book, CostTable, Duals, Flown, Memory, Plan, Route};

// Has an aircraft fly an activity, adds all that follows, and renews the routes.
fn go_on(
    alloc: Global,
    book: &Book,
    table: &CostTable,
    net: &Net,
    duals: &Duals,
    marks: &mut Marks,
    steps: &mut Vec<DiveStep>,
    routes: &mut Vec<Route>,
    diver: &mut Diver,
    k: u32,
    a: u32,
) -> Result<Option<DeadEnd>, Memory>
    requires asked { IsAsked book.now table.now net.now duals.now.values }
    requires marks { AreMarksOf book.now marks.old }
    requires stands { StandsAt table.now book.now marks.old.facts duals.now.values routes.old.items }
    requires choice { IsChoice book.now marks.old.facts routes.old.items k a }
    requires diver { IsDiverFor book.now table.now marks.old.facts diver.old }
    ensures marks { AreMarksOf book.now marks.new }
    ensures goes { IfOk result (λ _. AddsSteps table.now book.now duals.now.values marks.old.facts marks.new.facts steps.old.items steps.new.items) }
    ensures stands { IfOk result (λ end. IfNone end (StandsAt table.now book.now marks.new.facts duals.now.values routes.new.items)) }
    ensures shut { IfOk result (λ _. IsShut book.now marks.new.facts) }
    ensures dead { IfOk result (λ end. IfSome end (IsDeadEnd book.now marks.new.facts)) }
    ensures fewer { IfOk result (λ _. undecided book.now marks.new.facts < undecided book.now marks.old.facts) }
    ensures diver { IsDiverFor book.now table.now marks.new.facts diver.new }
{
    every_book_is_sound(book);
    choices_are_undecided();
    least_routes_fit();
    branches_leave_fewer();
    more_facts_leave_no_more();
    fits_with_fewer();
    following_facts_are_new();
    kept_for_more();
    choose(book, marks, steps, k, a)?;
    if let Some(end) = propagate(alloc, book, net, marks, steps, &mut diver.propagator)? {
        return Ok(Some(end));
    }
    let end = renew(book, table, net, duals, marks, routes, diver)?;
    Ok(end)
}

// The choice where the dive stands; nothing where the routes are a plan.
fn next_choice(
    book: &Book,
    table: &CostTable,
    duals: &Duals,
    marks: &Marks,
    routes: &[Route],
    tally: &mut [Flown],
) -> Option<(u32, u32)>
    requires marks { AreMarksOf book.now marks.now }
    requires stands { StandsAt table.now book.now marks.now.facts duals.now.values routes.now }
    requires tally { length tally.old ≡ activities book.now }
    ensures tally { length tally.new ≡ activities book.now }
    ensures none { IfNone result (IsEachInOne book.now routes.now) }
    ensures some { IfSome result (λ pair. IsChoice book.now marks.now.facts routes.now pair.0 pair.1) }
{
    every_book_is_sound(book);
    legal_routes_rise();
    rising_routes_are_below();
    choice(book, marks, routes, tally)
}

// Goes on from choice to choice, until the routes are a plan or there is a dead end.
fn go_down(
    alloc: Global,
    book: &Book,
    table: &CostTable,
    net: &Net,
    duals: &Duals,
    marks: &mut Marks,
    steps: &mut Vec<DiveStep>,
    routes: &mut Vec<Route>,
    diver: &mut Diver,
) -> Result<Option<DeadEnd>, Memory>
    requires asked { IsAsked book.now table.now net.now duals.now.values }
    requires marks { AreMarksOf book.now marks.old }
    requires stands { StandsAt table.now book.now marks.old.facts duals.now.values routes.old.items }
    requires diver { IsDiverFor book.now table.now marks.old.facts diver.old }
    ensures marks { AreMarksOf book.now marks.new }
    ensures goes { IfOk result (λ _. AddsSteps table.now book.now duals.now.values marks.old.facts marks.new.facts steps.old.items steps.new.items) }
    ensures shut { IfOk result (λ _. IsShut book.now marks.new.facts) }
    ensures dead { IfOk result (λ end. IfSome end (IsDeadEnd book.now marks.new.facts)) }
    ensures stands { IfOk result (λ end. IfNone end (StandsAt table.now book.now marks.new.facts duals.now.values routes.new.items)) }
    ensures plan { IfOk result (λ end. IfNone end (IsEachInOne book.now routes.new.items)) }
    ensures diver { IsDiverFor book.now table.now marks.new.facts diver.new }
{
    while let Some((k, a)) = next_choice(book, table, duals, marks, routes, &mut diver.tally) {
        let end = go_on(
            alloc, book, table, net, duals, marks, steps, routes, diver, k, a,
        )?;
        if let Some(end) = end {
            return Ok(Some(end));
        }
    }
    Ok(None)
}

// Adds all that follows from the first marks, and finds the first routes.
fn begin(
    alloc: Global,
    book: &Book,
    table: &CostTable,
    net: &Net,
    duals: &Duals,
    marks: &mut Marks,
    steps: &mut Vec<DiveStep>,
    diver: &mut Diver,
) -> Result<FirstRoutes, Memory>
    requires asked { IsAsked book.now table.now net.now duals.now.values }
    requires marks { AreMarksOf book.now marks.old }
    requires diver { IsDiverFor book.now table.now marks.old.facts diver.old }
    ensures marks { AreMarksOf book.now marks.new }
    ensures goes { IfOk result (λ _. AddsSteps table.now book.now duals.now.values marks.old.facts marks.new.facts steps.old.items steps.new.items) }
    ensures shut { IfOk result (λ _. IsShut book.now marks.new.facts) }
    ensures begun { IfOk result (HasBegun table.now book.now marks.new.facts duals.now.values) }
    ensures diver { IsDiverFor book.now table.now marks.new.facts diver.new }
{
    following_facts_are_new();
    let end = propagate(alloc, book, net, marks, steps, &mut diver.propagator)?;
    if let Some(end) = end {
        return Ok(FirstRoutes::Dead(end));
    }
    let found = first_routes(alloc, book, table, net, duals, marks, diver)?;
    Ok(found)
}

// Dives from marks, which then have all facts of its steps.
fn dive_from(
    alloc: Global,
    book: &Book,
    table: &CostTable,
    net: &Net,
    duals: &Duals,
    marks: &mut Marks,
    diver: &mut Diver,
) -> Result<Dive, Memory>
    requires asked { IsAsked book.now table.now net.now duals.now.values }
    requires marks { AreMarksOf book.now marks.old }
    requires diver { IsDiverFor book.now table.now marks.old.facts diver.old }
    ensures dive { IfOk result (IsDiveOf table.now book.now marks.old.facts duals.now.values) }
    ensures plan { IfOk result (IsFittingDive table.now book.now marks.old.facts) }
    ensures order { IfOk result (IsToldInOrder book.now marks.old.facts) }
    ensures diver { IsDiverFor book.now table.now marks.new.facts diver.new }
{
    fits_with_fewer();
    let mut steps = Vec::new(alloc);
    let found = begin(alloc, book, table, net, duals, marks, &mut steps, diver)?;
    let mut routes = match found {
        FirstRoutes::Routes(routes) => routes,
        FirstRoutes::Dead(end) => return Ok(Dive::Dead { steps, end }),
    };
    let end = go_down(
        alloc,
        book,
        table,
        net,
        duals,
        marks,
        &mut steps,
        &mut routes,
        diver,
    )?;
    if let Some(end) = end {
        return Ok(Dive::Dead { steps, end });
    }
    let plan = Plan(routes);
    let cost = legal_cost(book, table, &plan);
    Ok(Dive::Plan(plan, cost))
}

impl Diver {
    /// Dives from marks under duals, over the book's table and network.
    pub fn dive(
        &mut self,
        alloc: Global,
        book: &Book,
        table: &CostTable,
        net: &Net,
        marks: &Marks,
        duals: &Duals,
    ) -> Result<Dive, Memory>
        requires table { IsTableFor book.now table.now }
        requires net { net.now ≡ net_of book.now }
        requires marks { AreMarksOf book.now marks.now }
        requires duals { AreDuals table.now book.now duals.now.values }
        requires diver { IsDiverFor book.now table.now marks.now.facts self.old }
        ensures dive { IfOk result (IsDiveOf table.now book.now marks.now.facts duals.now.values) }
        ensures plan { IfOk result (IsFittingDive table.now book.now marks.now.facts) }
        ensures order { IfOk result (IsToldInOrder book.now marks.now.facts) }
        ensures diver { IsDiverOf book.now table.now self.new }
    {
        let mut marks = marks.copy()?;
        let answer = dive_from(alloc, book, table, net, duals, &mut marks, self)?;
        Ok(answer)
    }
}

/// Dives from marks under duals, over the book's table and network.
pub fn dive(
    alloc: Global,
    book: &Book,
    table: &CostTable,
    net: &Net,
    marks: &Marks,
    duals: &Duals,
) -> Result<Dive, Memory>
    requires table { IsTableFor book.now table.now }
    requires net { net.now ≡ net_of book.now }
    requires marks { AreMarksOf book.now marks.now }
    requires duals { AreDuals table.now book.now duals.now.values }
    ensures dive { IfOk result (IsDiveOf table.now book.now marks.now.facts duals.now.values) }
    ensures plan { IfOk result (IsFittingDive table.now book.now marks.now.facts) }
    ensures order { IfOk result (IsToldInOrder book.now marks.now.facts) }
{
    let mut diver = Diver::new(alloc, book, table)?;
    let answer = diver.dive(alloc, book, table, net, marks, duals)?;
    Ok(answer)
}
