//! A split: duals are settled, and their bound leaves room below the target.
//!
//! The dive comes before the last test, since its plan may lower the target to what the bound reaches.

ghost use Rattle.std.specs.Prelude.{◌≡◌, ◌≤◌, IfOk};
ghost use Rattle.branch_marks.specs.Settled.{IsSettled, AreDuals};
ghost use Rattle.dive_heuristic.specs.Dive.{HasNoHole, IsDiveOf, IsFittingDive};
ghost use Rattle.dive_heuristic.specs.Divers.{IsDiverFor, IsDiverOf};
ghost use Rattle.branch_marks.specs.inside.MarkTables.{AreMarksOf};
ghost use Rattle.connection_net.specs.Net.{net_of};
ghost use Rattle.tail_book.specs.CostTable.{IsTableFor};
ghost use Rattle.node_leaves.specs.Target.{HasUsed, IsBest};
ghost use Rattle.branch_tree.specs.inside.StepParts.{IsEndFound};
ghost use Rattle.branch_tree.specs.inside.NodeBound.{LeavesRoom};

use crate::Best;
use crate::cheaper_plans::exchange_near;
use crate::node_bound::LeastRoutes;
use crate::step::NodeEnd;
use branch_marks::laws::routes_of_weights_are_plan;
use branch_marks::{Marks, bound_from, passes};
use connection_net::Net;
use dive_heuristic::laws::least_routes_fit;
use dive_heuristic::{Dive, Diver};
use node_leaves::chosen_pair;
use std::alloc::Global;
use tail_book::{Book, CostTable, Duals, Memory};

/// Dives from the marks. The target falls where the dive ends with a cheaper plan.
pub fn dive_and_take(
    alloc: Global,
    book: &Book,
    table: &CostTable,
    net: &Net,
    marks: &Marks,
    duals: &Duals,
    best: &mut Best,
    diver: &mut Diver,
) -> Result<Dive, Memory>
    requires table { IsTableFor book.now table.now }
    requires net { net.now ≡ net_of book.now }
    requires marks { AreMarksOf book.now marks.now }
    requires duals { AreDuals table.now book.now duals.now.values }
    requires best { IsBest table.now book.now best.old.plan best.old.target }
    requires diver { IsDiverFor book.now table.now marks.now.facts diver.old }
    ensures dive { IfOk result (IsDiveOf table.now book.now marks.now.facts duals.now.values) }
    ensures planned { IfOk result (IsFittingDive table.now book.now marks.now.facts) }
    ensures used { IfOk result (HasUsed best.new.target) }
    ensures best { IsBest table.now book.now best.new.plan best.new.target }
    ensures falls { best.new.target ≤ best.old.target }
    ensures diver { IsDiverOf book.now table.now diver.new }
{
    let dive = diver.dive(alloc, book, table, net, marks, duals)?;
    if let Dive::Plan(plan, _) = &dive {
        best.try_routes(alloc, book, table, &plan.0)?;
    }
    Ok(dive)
}

// The same, and the target falls further where a cheaper plan is near one that was taken.
fn dive_and_use(
    alloc: Global,
    book: &Book,
    table: &CostTable,
    net: &Net,
    marks: &Marks,
    duals: &Duals,
    best: &mut Best,
    diver: &mut Diver,
) -> Result<Dive, Memory>
    requires table { IsTableFor book.now table.now }
    requires net { net.now ≡ net_of book.now }
    requires marks { AreMarksOf book.now marks.now }
    requires duals { AreDuals table.now book.now duals.now.values }
    requires best { IsBest table.now book.now best.old.plan best.old.target }
    requires diver { IsDiverFor book.now table.now marks.now.facts diver.old }
    ensures dive { IfOk result (IsDiveOf table.now book.now marks.now.facts duals.now.values) }
    ensures planned { IfOk result (IsFittingDive table.now book.now marks.now.facts) }
    ensures used { IfOk result (HasUsed best.new.target) }
    ensures best { IsBest table.now book.now best.new.plan best.new.target }
    ensures falls { best.new.target ≤ best.old.target }
    ensures diver { IsDiverOf book.now table.now diver.new }
{
    let target = best.target;
    let dive = dive_and_take(alloc, book, table, net, marks, duals, best, diver)?;
    if best.target < target {
        exchange_near(alloc, book, table, net, marks, duals, best)?;
    }
    Ok(dive)
}

/// Splits a node under settled duals, unless its bound reaches the target after a dive.
pub fn split(
    alloc: Global,
    book: &Book,
    table: &CostTable,
    net: &Net,
    marks: &Marks,
    duals: &Duals,
    best: &mut Best,
    found: LeastRoutes,
    diver: &mut Diver,
) -> Result<NodeEnd, Memory>
    requires table { IsTableFor book.now table.now }
    requires net { net.now ≡ net_of book.now }
    requires marks { AreMarksOf book.now marks.now }
    requires somebody { HasNoHole book.now marks.now.facts }
    requires settled { IsSettled table.now book.now marks.now.facts duals.now.values }
    requires found { LeavesRoom table.now book.now marks.now.facts duals.now.values best.old.target found }
    requires best { IsBest table.now book.now best.old.plan best.old.target }
    requires diver { IsDiverFor book.now table.now marks.now.facts diver.old }
    ensures end { IfOk result (IsEndFound table.now book.now marks.now.facts duals.now.values best.new.target) }
    ensures best { IsBest table.now book.now best.new.plan best.new.target }
    ensures falls { best.new.target ≤ best.old.target }
    ensures diver { IsDiverOf book.now table.now diver.new }
{
    routes_of_weights_are_plan();
    least_routes_fit();
    let tally = &mut diver.tally;
    let Some(pair) = chosen_pair(book, marks, &found.routes, tally) else {
        return Ok(NodeEnd::Bounded(found.values));
    };
    let dive = dive_and_use(alloc, book, table, net, marks, duals, best, diver)?;
    if passes(found.sum, best.target) {
        return Ok(NodeEnd::Bounded(found.values));
    }
    Ok(NodeEnd::Split {
        pair,
        bound: bound_from(found.sum),
        routes: found.routes,
        dive,
    })
}
