//! What a plan costs, and what one step of a route costs by a table. The cost of a plan takes an audit of it, that of a
//! step a few reads.

ghost use Rattle.std.specs.Prelude.{◌≡◌, ◌<◌, ◌+◌, IfOk};
ghost use Rattle.std.specs.Option.{MatchOption};
ghost use Rattle.tail_book.specs.CostTable.{IsTableFor, activity_cost_in, connection_cost_in};
ghost use Rattle.tail_book.specs.Lookup.{activities, aircraft};
ghost use Rattle.tail_book.specs.Place.{IsPlaceOf};
ghost use Rattle.tail_book.specs.Plan.{IsLegalPlan};
ghost use Rattle.tail_book.specs.Truth.{IsPlanOf};

use plan_audit::audit_plan;
use std::alloc::Global;
use tail_book::{Book, CostTable, Memory, Place, Plan, laws};
use turn_rules::connection_cost;

/// What a plan costs where it is legal, and nothing exactly where it is not.
pub fn cost_if_legal(alloc: Global, book: &Book, plan: &Plan) -> Result<Option<u64>, Memory>
    ensures { IfOk result (λ cost. MatchOption cost (¬ IsLegalPlan book.now plan.now) (λ c. IsPlanOf book.now c plan.now)) }
{
    laws::own_costs_are_for_book();
    laws::own_costs_of_legal_plans();
    let table = CostTable::of(alloc, book)?;
    audit_plan(alloc, book, &table, plan)
}

/// What it costs an aircraft to fly an activity next, by any table for the book: the activity and the connection to it,
/// in cost units.
pub fn leg_cost(book: &Book, table: &CostTable, k: u32, from: Place, b: u32) -> u64
    requires table { IsTableFor book.now table.now }
    requires aircraft { k < aircraft book.now }
    requires place { IsPlaceOf book.now from }
    requires activity { b < activities book.now }
    ensures { result ≡ activity_cost_in table.now k b + connection_cost_in table.now book.now k from b }
{
    laws::every_cost_table_is_sound(table);
    table.activity_cost(k, b) + connection_cost(book, &table.bands, k, from, b)
}
