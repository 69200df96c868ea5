//! The audit of a plan.
//!
//! The names are read once, and then each rule is looked at along the legs, so the work grows with the plan's length.
//! Where no rule is broken the kept plan is legal, by a law, so no second look is needed before its cost is told.

ghost use Rattle.std.specs.Prelude.{◌≡◌, IfOk, All};
ghost use Rattle.tail_book.specs.Plan.{IsLegalPlan};
ghost use Rattle.tail_book.specs.CostTable.{IsTableFor, plan_cost_in};
ghost use Rattle.plan_audit.specs.inside.PlanCost.{IsPlanCost};
ghost use Rattle.plan_audit.specs.inside.MetNames.{AreMetNamesOf};
ghost use Rattle.plan_audit.specs.Kept.{legs_met};
ghost use Rattle.plan_audit.specs.inside.Kept.{IsLegOf};
ghost use Rattle.plan_audit.specs.Broken.{broken_by, IsAuditOf};

use crate::broken::{Audit, Broken};
use crate::dropped_names::{add_twice, add_unknown};
use crate::laws::{legs_are_of_book, unbroken_plans_are_legal};
use crate::leg::{Leg, legs_in};
use crate::leg_cost::legs_cost;
use crate::legal_plan::is_legal;
use crate::met_names::{MetNames, read_names};
use crate::no_links::add_no_links;
use crate::not_allowed::{add_curfews, add_not_allowed};
use crate::past_limits::add_past_limits;
use crate::plan_cost::plan_cost;
use crate::uncovered::add_uncovered;
use std::alloc::Global;
use tail_book::laws::{
    every_book_is_sound, every_cost_table_is_sound, legal_plan_decides, legal_plans_cost_at_most,
    legal_plans_cost_at_most_in, legal_plans_fly_the_book,
};
use tail_book::{Book, CostTable, Memory, Plan, RawPlan};

fn broken_rules(
    alloc: Global,
    book: &Book,
    met_names: &MetNames,
    legs: &[Leg],
) -> Result<Vec<Broken>, Memory>
    requires met_names { AreMetNamesOf book.now met_names.now }
    requires legs { legs.now ≡ legs_met met_names.now.met.items }
    requires of_book { All (IsLegOf book.now) legs.now }
    ensures { IfOk result (λ list. list.items ≡ broken_by book.now met_names.now.met.items) }
{
    let mut list = Vec::new(alloc);
    add_unknown(&met_names.met, &mut list)?;
    add_twice(&met_names.met, &mut list)?;
    add_uncovered(book, met_names, &mut list)?;
    add_not_allowed(book, legs, &mut list)?;
    add_curfews(book, legs, &mut list)?;
    add_no_links(book, legs, &mut list)?;
    add_past_limits(alloc, book, legs, &mut list)?;
    Ok(list)
}

/// Which rules of the book a plan breaks, and what it costs where it breaks none. The plan that is judged is the kept
/// one, without the names that are unknown or repeated.
pub fn audit(alloc: Global, book: &Book, raw: &RawPlan) -> Result<Audit, Memory>
    ensures { IfOk result (IsAuditOf book.now raw.now) }
{
    every_book_is_sound(book);
    legs_are_of_book();
    unbroken_plans_are_legal();
    legal_plans_cost_at_most();
    let met_names = read_names(alloc, book, raw)?;
    let legs = legs_in(alloc, &met_names.met)?;
    let list = broken_rules(alloc, book, &met_names, &legs)?;
    if list.is_empty() {
        return Ok(Audit::Legal(legs_cost(book, &legs)));
    }
    Ok(Audit::Broken(list))
}

/// What a legal plan costs in a table, in cost units. No sum wraps: the table's two maxima bound what a legal plan costs.
pub fn legal_cost(book: &Book, table: &CostTable, plan: &Plan) -> u64
    requires table { IsTableFor book.now table.now }
    requires legal { IsLegalPlan book.now plan.now }
    ensures { result ≡ plan_cost_in table.now book.now plan.now }
{
    every_book_is_sound(book);
    every_cost_table_is_sound(table);
    legal_plans_fly_the_book();
    legal_plans_cost_at_most_in();
    plan_cost(book, table, &plan.0)
}

/// What a plan costs in a table, in cost units, and nothing exactly where it isn't legal.
pub fn audit_plan(
    alloc: Global,
    book: &Book,
    table: &CostTable,
    plan: &Plan,
) -> Result<Option<u64>, Memory>
    requires { IsTableFor book.now table.now }
    ensures { IfOk result (IsPlanCost book.now table.now plan.now) }
{
    legal_plan_decides();
    if is_legal(alloc, book, plan)? {
        return Ok(Some(legal_cost(book, table, plan)));
    }
    Ok(None)
}
