//! The repair of a plan: the legal plan with the fewest moves that costs least among these.
//!
//! It is found by searches over tables in which moves are raised. They begin with the published plan, where that is still legal, or
//! else with a legal plan near it, and with duals by which each activity that stays at home is worth what it costs there.

ghost use Rattle.std.specs.Prelude.{◌≡◌, ◌≤◌, IfOk, IfSome, length};
ghost use Rattle.tail_book.specs.Lookup.{activities};
ghost use Rattle.tail_book.specs.Plan.{IsLegalPlan};
ghost use Rattle.tail_book.specs.CostTable.{costs_of};
ghost use Rattle.plan_homes.specs.Moves.{AreHomesFor};
ghost use Rattle.plan_repair.specs.declared.raised.TheConstants.{RAISE_LIMIT, REPAIR_LIMIT};
ghost use Rattle.plan_repair.specs.LeastRepair.{IsTrueRepair};
ghost use Rattle.plan_repair.specs.inside.Found.{IsTrueBegin};

use crate::answer::Repair;
use crate::any_plans::{Begin, any_plan, plan_at_root};
use crate::raised::{no_costs, raised};
use crate::rungs::{first_raise, highest, least_at, settled};
use branch_marks::Marks;
use connection_net::Net;
use plan_audit::audit_plan;
use plan_finder::Problem;
use plan_remains::{Remains, near_plan, remains_of};
use std::alloc::Global;
use tail_book::laws::{every_book_is_sound, own_costs_are_for_book};
use tail_book::{Book, CostTable, Memory, Plan, plan_by};

// Who flies each activity at home: this number where nobody does.
fn fliers_at_home(alloc: Global, homes: &[Option<u32>], nobody: u32) -> Result<Vec<u32>, Memory>
    ensures { IfOk result (λ fliers. length fliers.items ≡ length homes.now) }
{
    let mut fliers = Vec::with_capacity(alloc, homes.len())?;
    for home in homes {
        fliers.push(match home {
            Some(k) => *k,
            None => nobody,
        })?;
    }
    Ok(fliers)
}

// The plan in which all fly what is at home with them, where it is legal: then it moves nothing.
fn home_plan(
    alloc: Global,
    book: &Book,
    own: &CostTable,
    homes: &[Option<u32>],
) -> Result<Option<Plan>, Memory>
    requires own { own.now ≡ costs_of book.now }
    requires homes { AreHomesFor book.now homes.now }
    ensures { IfOk result (λ start. IfSome start (IsLegalPlan book.now)) }
{
    every_book_is_sound(book);
    own_costs_are_for_book();
    let nobody = book.tails.len() as u32;
    let fliers = fliers_at_home(alloc, homes, nobody)?;
    let plan = plan_by(alloc, &fliers, nobody)?;
    match audit_plan(alloc, book, own, &plan)? {
        Some(_) => Ok(Some(plan)),
        None => Ok(None),
    }
}

// What is left of the published plan, and a legal plan near it, if one is found soon.
fn look_near(
    alloc: Global,
    book: &Book,
    homes: &[Option<u32>],
) -> Result<(Remains, Option<Plan>), Memory>
    requires few { activities book.now ≤ REPAIR_LIMIT }
    ensures { IfOk result (λ found. IfSome found.1 (IsLegalPlan book.now)) }
{
    let none = no_costs(alloc, book)?;
    let table = raised(alloc, book, &none, homes, 1)?;
    let net = Net::new(alloc, book)?;
    let marks = Marks::new(alloc, book)?;
    let problem = Problem {
        book,
        table: &table,
        net: &net,
    };
    let left = remains_of(alloc, &problem, &marks, homes)?;
    let plan = near_plan(alloc, &problem, &marks, homes, &left)?;
    Ok((left, plan))
}

// What is known where no plan was found near the published one.
fn begin_afar(
    alloc: Global,
    book: &Book,
    own: &CostTable,
    homes: &[Option<u32>],
    kept: &[bool],
    raise: u64,
) -> Result<Begin, Memory>
    requires own { own.now ≡ costs_of book.now }
    requires homes { AreHomesFor book.now homes.now }
    requires few { activities book.now ≤ REPAIR_LIMIT }
    requires high { raise ≤ RAISE_LIMIT }
    ensures { IfOk result (IsTrueBegin book.now) }
{
    match plan_at_root(alloc, book, own, homes, kept, raise)? {
        Begin::Open => any_plan(alloc, book),
        begun => Ok(begun),
    }
}

// What is known before the searches: the published plan itself, where it is legal, or else a plan near it, or any.
fn begin(
    alloc: Global,
    book: &Book,
    own: &CostTable,
    homes: &[Option<u32>],
    kept: &[bool],
    raise: u64,
    near: Option<Plan>,
) -> Result<Begin, Memory>
    requires own { own.now ≡ costs_of book.now }
    requires homes { AreHomesFor book.now homes.now }
    requires few { activities book.now ≤ REPAIR_LIMIT }
    requires high { raise ≤ RAISE_LIMIT }
    requires near { IfSome near (IsLegalPlan book.now) }
    ensures { IfOk result (IsTrueBegin book.now) }
{
    if let Some(plan) = home_plan(alloc, book, own, homes)? {
        return Ok(Begin::From(plan));
    }
    match near {
        Some(plan) => Ok(Begin::From(plan)),
        None => begin_afar(alloc, book, own, homes, kept, raise),
    }
}

/// Repairs a published plan for a book of at most 1,000 activities, of which it takes the home of each activity: a legal
/// plan that moves as few of them as can be, and costs as little as it can with these moves, or that no plan is legal.
pub fn repair(alloc: Global, book: &Book, homes: &[Option<u32>]) -> Result<Repair, Memory>
    requires few { activities book.now ≤ REPAIR_LIMIT }
    requires homes { AreHomesFor book.now homes.now }
    ensures { IfOk result (IsTrueRepair book.now homes.now) }
{
    let own = CostTable::of(alloc, book)?;
    let (left, near) = look_near(alloc, book, homes)?;
    let raise = first_raise(&own, highest(book));
    let start = match begin(alloc, book, &own, homes, &left.kept, raise, near)? {
        Begin::From(plan) => Some(plan),
        Begin::Open => None,
        Begin::Infeasible => return Ok(Repair::Infeasible),
    };
    let Some(first) = least_at(alloc, book, &own, homes, &left.kept, raise, start.as_ref())? else {
        return Ok(Repair::Infeasible);
    };
    let best = settled(alloc, book, &own, homes, &left.kept, first, raise)?;
    Ok(Repair::Done {
        plan: best.plan,
        moves: best.moves,
        cost: best.cost,
    })
}
