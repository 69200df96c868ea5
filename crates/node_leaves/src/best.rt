//! The best plan that a search has met, and the cost that it is to undercut. Routes that are tried are copied and
//! audited, and only a cheaper legal plan is taken: so the target never rises, and is the cost of the best plan once
//! there is one.

ghost use Rattle.std.specs.Prelude.{◌≡◌, ◌≤◌, None, IfOk, IfSome};
ghost use Rattle.tail_book.specs.Plan.{IsLegalPlan};
ghost use Rattle.tail_book.specs.CostTable.{IsTableFor, plan_cost_in};
ghost use Rattle.tail_book.specs.Truth.{IsPlanIn};
ghost use Rattle.node_leaves.specs.Target.{IsBest, no_target};

use plan_audit::audit_plan;
use std::alloc::Global;
use tail_book::{Book, CostTable, Memory, Plan, Route};

/// The best plan so far, and its cost in cost units. Before there is a plan, what is to be undercut is one more than any legal
/// plan costs.
#[derive(Debug, Drop)]
pub struct Best {
    pub plan: Option<Plan>,
    pub target: u64,
}

impl Best {
    /// No plan yet.
    pub fn none(table: &CostTable) -> Best
        ensures plan { result.plan ≡ None }
        ensures target { result.target ≡ no_target table.now }
    {
        Best {
            plan: None,
            target: table.greatest_cost() + 1,
        }
    }

    /// The plan that a search begins with, where one is given, and else no plan yet.
    pub fn from_start(
        alloc: Global,
        book: &Book,
        table: &CostTable,
        start: Option<&Plan>,
    ) -> Result<Best, Memory>
        requires table { IsTableFor book.now table.now }
        requires legal { IfSome start (λ plan. IsLegalPlan book.now plan.now) }
        ensures best { IfOk result (λ best. IsBest table.now book.now best.plan best.target) }
        ensures first { IfOk result (λ best. best.target ≤ no_target table.now) }
        ensures within { IfOk result (λ best. IfSome start.entry (λ plan. best.target ≤ plan_cost_in table.now book.now plan.now)) }
    {
        let mut best = Best::none(table);
        let Some(plan) = start else {
            return Ok(best);
        };
        best.try_routes(alloc, book, table, &plan.0)?;
        Ok(best)
    }

    /// Takes a legal plan of this cost, in cost units, where it is cheaper than the best so far.
    pub fn take(&mut self, book: &Book, table: &CostTable, plan: Plan, cost: &u64)
        requires plan { IsPlanIn table.now book.now cost.now plan }
        requires best { IsBest table.now book.now self.old.plan self.old.target }
        ensures best { IsBest table.now book.now self.new.plan self.new.target }
        ensures falls { self.new.target ≤ self.old.target }
        ensures used { self.new.target ≤ cost.now }
    {
        if *cost < self.target {
            self.plan = Some(plan);
            self.target = *cost;
        }
    }

    /// Takes routes as a plan, where they are a legal one that is cheaper than the best so far.
    pub fn try_routes(
        &mut self,
        alloc: Global,
        book: &Book,
        table: &CostTable,
        routes: &[Route],
    ) -> Result<(), Memory>
        requires table { IsTableFor book.now table.now }
        requires best { IsBest table.now book.now self.old.plan self.old.target }
        ensures best { IsBest table.now book.now self.new.plan self.new.target }
        ensures falls { self.new.target ≤ self.old.target }
        ensures used { IfOk result (λ _. IsLegalPlan book.now routes.now → self.new.target ≤ plan_cost_in table.now book.now routes.now) }
    {
        let plan = plan_of(alloc, routes)?;
        let cost = audit_plan(alloc, book, table, &plan)?;
        if let Some(cost) = cost {
            self.take(book, table, plan, &cost);
        }
        Ok(())
    }
}

// The plan of these routes.
fn plan_of(alloc: Global, routes: &[Route]) -> Result<Plan, Memory>
    ensures { IfOk result (λ plan. plan ≡ routes.now) }
{
    let mut copied = Vec::new(alloc);
    for k in 0..routes.len() {
        copied.push(copy_of(alloc, &routes[k])?)?;
    }
    Ok(Plan(copied))
}

// The same route.
fn copy_of(alloc: Global, route: &Route) -> Result<Route, Memory>
    ensures { IfOk result (λ copied. copied ≡ route.now) }
{
    Ok(Route(Vec::from_slice(alloc, &route.0)?))
}
