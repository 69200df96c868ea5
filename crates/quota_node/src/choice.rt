//! The pair on which a node is split, by a route of least weight for each aircraft.
//!
//! Where an activity is not in exactly one of them, it is about that one, as in a search without quotas. Otherwise the routes are a
//! legal plan. Where it breaks a quota, one of the connections that belong to it has no Tie: else the quota would have more Ties
//! than it may, and the node would have ended by that. Where it keeps the quotas it may lower the target.

ghost use Rattle.std.specs.Prelude.{◌≡◌, ◌<◌, ◌≤◌, IfNone, IfOk, IfSome, length};
ghost use Rattle.tail_book.specs.CostTable.{IsTableFor};
ghost use Rattle.tail_book.specs.Lookup.{activities};
ghost use Rattle.branch_marks.specs.Bound.{bound_of, Passes};
ghost use Rattle.branch_marks.specs.Branches.{IsUndecided};
ghost use Rattle.branch_marks.specs.inside.MarkTables.{AreMarksOf};
ghost use Rattle.dive_heuristic.specs.Dive.{HasNoHole};
ghost use Rattle.dive_heuristic.specs.LeastRoutes.{AreRoutesOfFleet};
ghost use Rattle.node_leaves.specs.Target.{IsBest};
ghost use Rattle.quota_node.specs.QuotaNode.{KeepsWherePlanned};
ghost use Rattle.quota_node.specs.declared.choice.Chosen.TheVariants as chosen;
ghost use Rattle.quota_node.specs.inside.Chosen.{IsTrueChoice};

use crate::free_pairs::{free_flight, free_link};
use crate::kept_routes::first_broken_by;
use branch_marks::{Marks, Pair, passes};
use node_leaves::{Best, chosen_pair};
use quota_rows::Quota;
use std::alloc::Global;
use tail_book::{Book, CostTable, Flown, Memory, Route};

/// What routes of least weight choose.
#[derive(Clone, Copy, Debug)]
pub enum Chosen {
    /// This pair, which is undecided.
    Pair(Pair),
    /// None: the plan that they are lowers the target to what the bound reaches.
    Bounded,
    /// None: all of them is forced.
    Nothing,
}

// What a pair that was looked for comes to.
fn choice_of(pair: Option<Pair>) -> Chosen
    ensures none { IfNone pair (result ≡ chosen.Nothing) }
    ensures some { IfSome pair (λ found. result ≡ chosen.Pair found) }
{
    match pair {
        Some(pair) => Chosen::Pair(pair),
        None => Chosen::Nothing,
    }
}

// The connection with the least second activity that has no Tie or, where all have one, the least activity without a Must, for the
// aircraft whose route has it.
fn free_pair(book: &Book, marks: &Marks, routes: &[Route]) -> Option<Pair>
    requires marks { AreMarksOf book.now marks.now }
    requires routes { AreRoutesOfFleet book.now marks.now.facts routes.now }
    ensures { IfSome result (IsUndecided book.now marks.now.facts) }
{
    if let Some((x, a)) = free_link(book, None, marks, routes) {
        return Some(Pair::Link(x, a));
    }
    match free_flight(book, marks, routes) {
        Some((k, a)) => Some(Pair::Fly(k, a)),
        None => None,
    }
}

// The connection of a broken quota with the least first activity that has no Tie.
// That there is none does not happen: a plan that breaks a quota has more of its connections than it may have Ties, and the node
// would have ended by that. It is not proved, so any other pair stands in.
fn broken_pair(book: &Book, quota: &Quota, marks: &Marks, routes: &[Route]) -> Option<Pair>
    requires marks { AreMarksOf book.now marks.now }
    requires routes { AreRoutesOfFleet book.now marks.now.facts routes.now }
    ensures { IfSome result (IsUndecided book.now marks.now.facts) }
{
    match free_link(book, Some(quota), marks, routes) {
        Some((a, b)) => Some(Pair::Link(a, b)),
        None => free_pair(book, marks, routes),
    }
}

// Takes routes as a plan, where they are one that keeps the quotas and is cheaper than the best so far. It answers the first quota
// that the plan breaks.
fn try_plan(
    alloc: Global,
    book: &Book,
    table: &CostTable,
    quotas: &[Quota],
    routes: &[Route],
    best: &mut Best,
) -> Result<Option<usize>, Memory>
    requires table { IsTableFor book.now table.now }
    requires best { IsBest table.now book.now best.old.plan best.old.target }
    requires kept { KeepsWherePlanned book.now quotas.now best.old.plan }
    ensures broken { IfOk result (λ broken. IfSome broken (λ q. q < length quotas.now)) }
    ensures same { IfOk result (λ broken. IfSome broken (λ _. best.new.target ≡ best.old.target)) }
    ensures best { IsBest table.now book.now best.new.plan best.new.target }
    ensures kept { KeepsWherePlanned book.now quotas.now best.new.plan }
    ensures falls { best.new.target ≤ best.old.target }
{
    let mut tried = Best::none(table);
    tried.try_routes(alloc, book, table, routes)?;
    if let Some(q) = first_broken_by(book, table, quotas, &tried) {
        return Ok(Some(q));
    }
    if tried.target < best.target {
        *best = tried;
    }
    Ok(None)
}

/// Chooses a pair by routes of least weight whose sum leaves room below the target.
pub fn choose(
    alloc: Global,
    book: &Book,
    table: &CostTable,
    quotas: &[Quota],
    marks: &Marks,
    routes: &[Route],
    sum: i128,
    best: &mut Best,
    tally: &mut [Flown],
) -> Result<Chosen, Memory>
    requires table { IsTableFor book.now table.now }
    requires marks { AreMarksOf book.now marks.now }
    requires somebody { HasNoHole book.now marks.now.facts }
    requires routes { AreRoutesOfFleet book.now marks.now.facts routes.now }
    requires below { ¬ Passes (bound_of sum) best.old.target }
    requires best { IsBest table.now book.now best.old.plan best.old.target }
    requires kept { KeepsWherePlanned book.now quotas.now best.old.plan }
    requires tally { length tally.old ≡ activities book.now }
    ensures chosen { IfOk result (IsTrueChoice book.now marks.now.facts sum best.new.target) }
    ensures best { IsBest table.now book.now best.new.plan best.new.target }
    ensures kept { KeepsWherePlanned book.now quotas.now best.new.plan }
    ensures falls { best.new.target ≤ best.old.target }
    ensures tally { length tally.new ≡ activities book.now }
{
    if let Some(pair) = chosen_pair(book, marks, routes, tally) {
        return Ok(Chosen::Pair(pair));
    }
    if let Some(q) = try_plan(alloc, book, table, quotas, routes, best)? {
        return Ok(choice_of(broken_pair(book, &quotas[q], marks, routes)));
    }
    if passes(sum, best.target) {
        return Ok(Chosen::Bounded);
    }
    Ok(choice_of(free_pair(book, marks, routes)))
}
