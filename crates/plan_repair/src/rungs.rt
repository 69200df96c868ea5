//! Rungs of a repair: plans that cost least where each move is raised by so much.
//!
//! A search is quick where a move costs as much as a few activities, and slow where it costs more than any plan, since
//! that multiplies whatever its bound falls short by. So the raise begins low. Where the plan that is found moves no more
//! than any plan has to, it is a least repair by law, however low the raise; where it moves more, the raise goes up. At
//! the highest it costs more than any plan, and then the law holds by itself.

ghost use Rattle.std.specs.Prelude.{◌≡◌, ◌<◌, ◌≤◌, IfOk, IfSome};
ghost use Rattle.tail_book.specs.Lookup.{activities};
ghost use Rattle.tail_book.specs.Plan.{IsLegalPlan};
ghost use Rattle.tail_book.specs.CostTable.{costs_of};
ghost use Rattle.plan_homes.specs.Moves.{AreHomesFor};
ghost use Rattle.plan_repair.specs.declared.raised.TheConstants.{RAISE_LIMIT, REPAIR_LIMIT};
ghost use Rattle.plan_repair.specs.inside.Found.{IsFewest, IsLeastPlan};
ghost use Rattle.plan_repair.specs.inside.Raised.{raised};
ghost use Rattle.plan_repair.specs.inside.Rungs.{IsFoundAt, IsPricedAt, IsRepaired, highest};

use crate::laws::{highest_is_fewest, least_of_fewest_is_repair, raised_plans_cost};
use crate::least_plans::{LeastPlan, fewest_moves, least_plan_in};
use crate::moved::moves;
use crate::raised::raised;
use crate::warm_duals::warm_at;
use std::alloc::Global;
use tail_book::laws::{every_book_is_sound, own_costs_are_for_book, own_costs_of_legal_plans};
use tail_book::limits::LEG_COST_LIMIT;
use tail_book::{Book, CostTable, Memory, Plan};

/// A legal plan, how many activities it moves, and what it costs by the book's own costs.
#[derive(Drop)]
pub struct Priced {
    pub plan: Plan,
    pub moves: u64,
    pub cost: u64,
}

// How many times what an activity costs in the middle a move is raised by at first.
const FIRST_FACTOR: u64 = 2;

// How many times as much it is raised by on the next rung.
const NEXT_FACTOR: u64 = 16;

/// The highest raise: one more than any legal plan costs, in cost units.
pub fn highest(book: &Book) -> u64
    ensures { result ≡ highest book.now }
{
    every_book_is_sound(book);
    LEG_COST_LIMIT * book.activities.len() as u64 + 1
}

/// The first raise: some times what an activity costs in the middle.
pub fn first_raise(own: &CostTable, most: u64) -> u64
    requires { 1 ≤ most }
    ensures low { 1 ≤ result }
    ensures high { result ≤ most }
{
    let mut sum = 0u64;
    for cost in &own.fly {
        sum = sum.saturating_add(*cost);
    }
    let mean = sum / (own.fly.len() as u64).max(1);
    mean.saturating_mul(FIRST_FACTOR).max(1).min(most)
}

// The raise of the next rung.
fn next_raise(raise: u64, most: u64) -> u64
    requires low { 1 ≤ raise }
    requires below { raise < most }
    ensures higher { raise < result }
    ensures high { result ≤ most }
{
    raise.saturating_mul(NEXT_FACTOR).min(most)
}

// The moves of a plan that costs least with moves raised, and what it costs without.
fn counted(book: &Book, homes: &[Option<u32>], raise: u64, plan: Plan, cost: u64) -> Priced
    requires low { 1 ≤ raise }
    requires least { IsLeastPlan (raised (costs_of book.now) homes.now raise) book.now (record { plan = plan; cost = cost }) }
    ensures { IsPricedAt book.now homes.now raise result }
{
    every_book_is_sound(book);
    own_costs_are_for_book();
    own_costs_of_legal_plans();
    raised_plans_cost();
    let moves = moves(homes, &plan);
    Priced {
        plan,
        moves,
        cost: cost - raise * moves,
    }
}

/// A plan that costs least with each move raised by so much, searched from a legal plan on, where these activities can be kept at home;
/// or nothing where no plan is legal.
pub fn least_at(
    alloc: Global,
    book: &Book,
    own: &CostTable,
    homes: &[Option<u32>],
    kept: &[bool],
    raise: u64,
    start: Option<&Plan>,
) -> Result<Option<Priced>, Memory>
    requires own { own.now ≡ costs_of book.now }
    requires homes { AreHomesFor book.now homes.now }
    requires few { activities book.now ≤ REPAIR_LIMIT }
    requires low { 1 ≤ raise }
    requires high { raise ≤ RAISE_LIMIT }
    requires legal { IfSome start (λ plan. IsLegalPlan book.now plan.now) }
    ensures { IfOk result (IsFoundAt book.now homes.now raise) }
{
    own_costs_are_for_book();
    let table = raised(alloc, book, own, homes, raise)?;
    let warm = warm_at(alloc, book, own, homes, kept, raise)?;
    match least_plan_in(alloc, book, &table, start, warm)? {
        Some(LeastPlan { plan, cost }) => Ok(Some(counted(book, homes, raise, plan, cost))),
        None => Ok(None),
    }
}

// Goes up from rung to rung, each searched from a plan with the fewest moves, until the plan that is found has no more.
fn climb(
    alloc: Global,
    book: &Book,
    own: &CostTable,
    homes: &[Option<u32>],
    kept: &[bool],
    first: Priced,
    first_raise: u64,
    fewest: &LeastPlan,
) -> Result<Priced, Memory>
    requires own { own.now ≡ costs_of book.now }
    requires homes { AreHomesFor book.now homes.now }
    requires few { activities book.now ≤ REPAIR_LIMIT }
    requires low { 1 ≤ first_raise }
    requires high { first_raise ≤ highest book.now }
    requires first { IsPricedAt book.now homes.now first_raise first }
    requires fewest { IsFewest book.now homes.now fewest.now }
    ensures { IfOk result (IsRepaired book.now homes.now) }
{
    every_book_is_sound(book);
    highest_is_fewest();
    least_of_fewest_is_repair();
    let most = highest(book);
    let (mut best, mut raise) = (first, first_raise);
    'rungs: while best.moves > fewest.cost {
        raise = next_raise(raise, most);
        match least_at(alloc, book, own, homes, kept, raise, Some(&fewest.plan))? {
            Some(next) => best = next,
            None => unreachable!(),
        }
    }
    Ok(best)
}

/// The least repair that a first plan leads to, which costs least with each move raised by so much.
pub fn settled(
    alloc: Global,
    book: &Book,
    own: &CostTable,
    homes: &[Option<u32>],
    kept: &[bool],
    first: Priced,
    first_raise: u64,
) -> Result<Priced, Memory>
    requires own { own.now ≡ costs_of book.now }
    requires homes { AreHomesFor book.now homes.now }
    requires few { activities book.now ≤ REPAIR_LIMIT }
    requires low { 1 ≤ first_raise }
    requires high { first_raise ≤ highest book.now }
    requires first { IsPricedAt book.now homes.now first_raise first }
    ensures { IfOk result (IsRepaired book.now homes.now) }
{
    least_of_fewest_is_repair();
    if first.moves == 0 {
        return Ok(first);
    }
    let fewest = fewest_moves(alloc, book, homes, kept, &first.plan)?;
    climb(alloc, book, own, homes, kept, first, first_raise, &fewest)
}
