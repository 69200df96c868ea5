//! A step on a node of the search tree: its marks are shut, its end is found, and all of it is told.
//!
//! Nothing is told of an end before it is certain. What was told before a stop is a front of a begun tree at the node.

ghost use Rattle.std.specs.Prelude.{◌≡◌, ◌≤◌, [], ◌∷◌, Some, IfOk, IfSome, OnErr, IsErrOf};
ghost use Rattle.tail_book.specs.CostTable.{IsTableFor};
ghost use Rattle.connection_net.specs.Net.{net_of};
ghost use Rattle.branch_marks.specs.Following.{IsFollowed};
ghost use Rattle.branch_marks.specs.Settled.{AreDuals};
ghost use Rattle.branch_marks.specs.TreeLog.{IsLater, WriteHasFailed};
ghost use Rattle.branch_marks.specs.inside.MarkTables.{AreMarksOf};
ghost use Rattle.dive_heuristic.specs.Dive.{HasNoHole};
ghost use Rattle.dive_heuristic.specs.Divers.{IsDiverFor, IsDiverOf};
ghost use Rattle.branch_tree.specs.Step.{IsTrueStep, IsVisit, RisesFrom};
ghost use Rattle.node_leaves.specs.Place.{open_place};
ghost use Rattle.node_leaves.specs.Stops.{StopsIn};
ghost use Rattle.node_leaves.specs.Target.{IsBest};
ghost use Rattle.node_leaves.specs.inside.Leaf.{IsReady};
ghost use Rattle.branch_tree.specs.inside.StepParts.{AreToolsFor, EndRisesFrom, IsEndFound, IsLeaf};
ghost use Rattle.node_leaves.specs.inside.FittingPool.{IsFittingPool, IsLegalPool};

use crate::cheaper_plans::{look_for_plans, way_to_plans};
use crate::node_bound::{Weighed, weigh};
use crate::rounds::ascend;
use crate::settled::settle_node;
use crate::split::dive_and_take;
use crate::step::NodeEnd;
use crate::step_end::note_end;
use crate::step_start::shut_and_tell;
use crate::warm_start::put_duals;
use crate::{Best, NodePricer, NodeTools, Step, Stop, WarmStart};
use branch_marks::laws::{sums_exist, sums_never_fall};
use branch_marks::{Event, Marks, TreeLog};
use connection_net::Net;
use dive_heuristic::Diver;
use node_leaves::{demand_duals, first_duals, keep_fitting, note_one, shortage_duals};
use propagator::Closed;
use restricted_master::Pool;
use std::alloc::Global;
use tail_book::laws::every_book_is_sound;
use tail_book::{Book, CostTable, Duals, Memory};

// The end of the root, if these duals show it. They are priced like others.
fn try_duals(
    alloc: Global,
    book: &Book,
    table: &CostTable,
    net: &Net,
    marks: &Marks,
    pool: &Pool,
    found: &Duals,
    duals: &mut Duals,
    best: &mut Best,
    prices: &mut NodePricer,
) -> Result<Option<NodeEnd>, Memory>
    requires ready { IsReady table.now book.now net.now marks.now prices.old }
    requires duals { AreDuals table.now book.now duals.old.values }
    requires found { AreDuals table.now book.now found.now.values }
    requires best { IsBest table.now book.now best.old.plan best.old.target }
    ensures end { IfOk result (λ end. IfSome end (IsEndFound table.now book.now marks.now.facts duals.new.values best.new.target)) }
    ensures ready { IsReady table.now book.now net.now marks.now prices.new }
    ensures duals { AreDuals table.now book.now duals.new.values }
    ensures best { IsBest table.now book.now best.new.plan best.new.target }
    ensures falls { best.new.target ≤ best.old.target }
{
    duals.values.copy_from_slice(&found.values);
    match weigh(alloc, book, table, net, marks, pool, duals, best, prices, 0)? {
        Weighed::Ended(end) => Ok(Some(end)),
        Weighed::Open(_) => Ok(None),
    }
}

// The end of the root, where counting shows that aircraft are short.
fn try_shortage(
    alloc: Global,
    book: &Book,
    table: &CostTable,
    net: &Net,
    marks: &Marks,
    pool: &Pool,
    duals: &mut Duals,
    best: &mut Best,
    prices: &mut NodePricer,
) -> Result<Option<NodeEnd>, Memory>
    requires ready { IsReady table.now book.now net.now marks.now prices.old }
    requires duals { AreDuals table.now book.now duals.old.values }
    requires best { IsBest table.now book.now best.old.plan best.old.target }
    ensures end { IfOk result (λ end. IfSome end (IsEndFound table.now book.now marks.now.facts duals.new.values best.new.target)) }
    ensures ready { IsReady table.now book.now net.now marks.now prices.new }
    ensures duals { AreDuals table.now book.now duals.new.values }
    ensures best { IsBest table.now book.now best.new.plan best.new.target }
    ensures falls { best.new.target ≤ best.old.target }
{
    match shortage_duals(alloc, book, table)? {
        Some(found) => try_duals(
            alloc, book, table, net, marks, pool, &found, duals, best, prices,
        ),
        None => Ok(None),
    }
}

// The end of the root, where activities ask for more than types or counters allow. Duals that may show it are tried one after the
// other.
fn try_demands(
    alloc: Global,
    book: &Book,
    table: &CostTable,
    net: &Net,
    marks: &Marks,
    pool: &Pool,
    duals: &mut Duals,
    best: &mut Best,
    prices: &mut NodePricer,
) -> Result<Option<NodeEnd>, Memory>
    requires ready { IsReady table.now book.now net.now marks.now prices.old }
    requires duals { AreDuals table.now book.now duals.old.values }
    requires best { IsBest table.now book.now best.old.plan best.old.target }
    ensures end { IfOk result (λ end. IfSome end (IsEndFound table.now book.now marks.now.facts duals.new.values best.new.target)) }
    ensures ready { IsReady table.now book.now net.now marks.now prices.new }
    ensures duals { AreDuals table.now book.now duals.new.values }
    ensures best { IsBest table.now book.now best.new.plan best.new.target }
    ensures falls { best.new.target ≤ best.old.target }
{
    let demands = demand_duals(alloc, book, table, marks)?;
    for i in 0..demands.len() {
        let found = &demands[i];
        let end = try_duals(
            alloc, book, table, net, marks, pool, found, duals, best, prices,
        )?;
        if end.is_some() {
            return Ok(end);
        }
    }
    Ok(None)
}

// The end of the root, where counting shows it, or one of the sets of activities that ask for more than is there.
fn try_sets(
    alloc: Global,
    book: &Book,
    table: &CostTable,
    net: &Net,
    marks: &Marks,
    pool: &Pool,
    duals: &mut Duals,
    best: &mut Best,
    prices: &mut NodePricer,
) -> Result<Option<NodeEnd>, Memory>
    requires ready { IsReady table.now book.now net.now marks.now prices.old }
    requires duals { AreDuals table.now book.now duals.old.values }
    requires best { IsBest table.now book.now best.old.plan best.old.target }
    ensures end { IfOk result (λ end. IfSome end (IsEndFound table.now book.now marks.now.facts duals.new.values best.new.target)) }
    ensures ready { IsReady table.now book.now net.now marks.now prices.new }
    ensures duals { AreDuals table.now book.now duals.new.values }
    ensures best { IsBest table.now book.now best.new.plan best.new.target }
    ensures falls { best.new.target ≤ best.old.target }
{
    let end = try_shortage(alloc, book, table, net, marks, pool, duals, best, prices)?;
    if end.is_some() {
        return Ok(end);
    }
    try_demands(alloc, book, table, net, marks, pool, duals, best, prices)
}

// First duals, and a dive under them, whose plan lowers the target.
fn first_dive(
    alloc: Global,
    book: &Book,
    table: &CostTable,
    net: &Net,
    marks: &Marks,
    duals: &mut Duals,
    best: &mut Best,
    diver: &mut Diver,
) -> Result<(), Memory>
    requires table { IsTableFor book.now table.now }
    requires net { net.now ≡ net_of book.now }
    requires marks { AreMarksOf book.now marks.now }
    requires duals { AreDuals table.now book.now duals.old.values }
    requires best { IsBest table.now book.now best.old.plan best.old.target }
    requires diver { IsDiverFor book.now table.now marks.now.facts diver.old }
    ensures diver { IsDiverFor book.now table.now marks.now.facts diver.new }
    ensures duals { AreDuals table.now book.now duals.new.values }
    ensures best { IsBest table.now book.now best.new.plan best.new.target }
    ensures falls { best.new.target ≤ best.old.target }
{
    duals.values = first_duals(alloc, book, table, marks)?.values;
    let dived = dive_and_take(alloc, book, table, net, marks, duals, best, diver);
    diver.forget();
    let _ = dived?;
    Ok(())
}

// A warm start is for the root alone.
fn warm_at_root(warm: &Option<WarmStart>, is_root: bool) -> Option<&WarmStart> {
    if is_root { warm.as_ref() } else { None }
}

// The duals with which the rounds of the root begin: those of a warm start, or else first duals, with a dive under them. The root
// may end before that.
fn begin_root(
    alloc: Global,
    book: &Book,
    table: &CostTable,
    net: &Net,
    marks: &Marks,
    pool: &Pool,
    duals: &mut Duals,
    best: &mut Best,
    tools: &mut NodeTools,
) -> Result<Option<NodeEnd>, Memory>
    requires tools { AreToolsFor table.now book.now net.now marks.now tools.old }
    requires duals { AreDuals table.now book.now duals.old.values }
    requires best { IsBest table.now book.now best.old.plan best.old.target }
    ensures end { IfOk result (λ end. IfSome end (IsEndFound table.now book.now marks.now.facts duals.new.values best.new.target)) }
    ensures tools { AreToolsFor table.now book.now net.now marks.now tools.new }
    ensures duals { AreDuals table.now book.now duals.new.values }
    ensures best { IsBest table.now book.now best.new.plan best.new.target }
    ensures falls { best.new.target ≤ best.old.target }
{
    let prices = &mut tools.prices;
    let end = try_sets(alloc, book, table, net, marks, pool, duals, best, prices)?;
    if end.is_some() {
        return Ok(end);
    }
    if let Some(warm) = &tools.warm {
        put_duals(book, table, warm, duals);
        return Ok(None);
    }
    let diver = &mut tools.diver;
    first_dive(alloc, book, table, net, marks, duals, best, diver)?;
    Ok(None)
}

// What the rounds of a node begin with. Only the root has something of its own.
fn begin(
    alloc: Global,
    book: &Book,
    table: &CostTable,
    net: &Net,
    marks: &Marks,
    pool: &Pool,
    duals: &mut Duals,
    best: &mut Best,
    tools: &mut NodeTools,
    is_root: bool,
) -> Result<Option<NodeEnd>, Memory>
    requires tools { AreToolsFor table.now book.now net.now marks.now tools.old }
    requires duals { AreDuals table.now book.now duals.old.values }
    requires best { IsBest table.now book.now best.old.plan best.old.target }
    ensures end { IfOk result (λ end. IfSome end (IsEndFound table.now book.now marks.now.facts duals.new.values best.new.target)) }
    ensures tools { AreToolsFor table.now book.now net.now marks.now tools.new }
    ensures duals { AreDuals table.now book.now duals.new.values }
    ensures best { IsBest table.now book.now best.new.plan best.new.target }
    ensures falls { best.new.target ≤ best.old.target }
{
    if is_root {
        begin_root(alloc, book, table, net, marks, pool, duals, best, tools)
    } else {
        Ok(None)
    }
}

// An end that is no split: before duals are settled a node ends in no other way.
fn leaf_of(end: Option<NodeEnd>) -> Option<NodeEnd>
    ensures end { IfSome result (λ leaf. end ≡ Some leaf) }
    ensures leaf { IfSome result IsLeaf }
{
    match end {
        Some(NodeEnd::Stuck(k)) => Some(NodeEnd::Stuck(k)),
        Some(NodeEnd::Bounded(values)) => Some(NodeEnd::Bounded(values)),
        Some(NodeEnd::Split { .. }) | None => None,
    }
}

// The end of a node whose marks are shut, and in which no activity is a hole.
fn find_end(
    alloc: Global,
    book: &Book,
    table: &CostTable,
    net: &Net,
    marks: &Marks,
    pool: &mut Pool,
    duals: &mut Duals,
    best: &mut Best,
    tools: &mut NodeTools,
    is_root: bool,
) -> Result<NodeEnd, Memory>
    requires tools { AreToolsFor table.now book.now net.now marks.now tools.old }
    requires somebody { HasNoHole book.now marks.now.facts }
    requires duals { AreDuals table.now book.now duals.old.values }
    requires pool { IsFittingPool table.now book.now marks.now.facts pool.old }
    requires best { IsBest table.now book.now best.old.plan best.old.target }
    ensures end { IfOk result (IsEndFound table.now book.now marks.now.facts duals.new.values best.new.target) }
    ensures rises { IfOk result (EndRisesFrom table.now book.now marks.now.facts duals.old.values) }
    ensures ready { IsReady table.now book.now net.now marks.now tools.new.prices }
    ensures diver { IsDiverOf book.now table.now tools.new.diver }
    ensures duals { AreDuals table.now book.now duals.new.values }
    ensures pool { IsFittingPool table.now book.now marks.now.facts pool.new }
    ensures best { IsBest table.now book.now best.new.plan best.new.target }
    ensures falls { best.new.target ≤ best.old.target }
{
    let from = Duals {
        values: duals.values.clone()?,
    };
    let begun = begin(
        alloc, book, table, net, marks, pool, duals, best, tools, is_root,
    )?;
    if let Some(end) = leaf_of(begun) {
        return Ok(end);
    }
    let target = best.target;
    let warm = warm_at_root(&tools.warm, is_root);
    let raises = tools.raises;
    let prices = &mut tools.prices;
    let ascended = ascend(
        alloc, book, table, net, marks, pool, duals, best, prices, warm, raises,
    )?;
    if let Some(end) = leaf_of(ascended) {
        return Ok(end);
    }
    let way = way_to_plans(warm, best.plan.is_some(), is_root, best.target < target);
    look_for_plans(alloc, book, table, net, marks, pool, duals, best, way)?;
    settle_node(
        alloc, book, table, net, marks, pool, &from, duals, best, tools,
    )
}

/// A step on a node with tools that are kept from node to node.
pub fn node_step_with<L: TreeLog>(
    alloc: Global,
    book: &Book,
    table: &CostTable,
    net: &Net,
    marks: &mut Marks,
    pool: &mut Pool,
    duals: &mut Duals,
    best: &mut Best,
    tools: &mut NodeTools,
    log: &mut L,
) -> Result<Step, Stop>
    requires tools { AreToolsFor table.now book.now net.now marks.old tools.old }
    requires duals { AreDuals table.now book.now duals.old.values }
    requires pool { IsLegalPool table.now book.now pool.old }
    requires best { IsBest table.now book.now best.old.plan best.old.target }
    ensures visit { IfOk result (IsVisit table.now book.now (open_place marks.old.facts duals.old.values) marks.new.facts duals.new.values best.new.target
        (L.shows log.old) (L.shows log.new)) }
    ensures truth { IfOk result (IsTrueStep table.now book.now marks.new.facts duals.new.values best.new.target) }
    ensures rises { IfOk result (RisesFrom table.now book.now marks.old.facts duals.old.values) }
    ensures stopped { OnErr result (StopsIn (L.shows log.old) (L.shows log.new) table.now book.now (open_place marks.old.facts duals.old.values ∷ [])) }
    ensures followed { IsFollowed book.now marks.old.facts marks.new.facts }
    ensures marks { AreMarksOf book.now marks.new }
    ensures pool { IsLegalPool table.now book.now pool.new }
    ensures duals { AreDuals table.now book.now duals.new.values }
    ensures best { IsBest table.now book.now best.new.plan best.new.target }
    ensures falls { best.new.target ≤ best.old.target }
    ensures later { IsLater (L.shows log.old) (L.shows log.new) }
    ensures beside { L.beside log.old log.new }
    ensures cause { IsErrOf result Stop.Log → WriteHasFailed (L.shows log.old) (L.shows log.new) }
    ensures ready { IsReady table.now book.now net.now marks.new tools.new.prices }
    ensures diver { IsDiverOf book.now table.now tools.new.diver }
{
    every_book_is_sound(book);
    sums_exist();
    sums_never_fall();
    let is_root = marks.mark() == 0;
    let closed = match shut_and_tell(alloc, book, net, marks, &mut tools.diver.propagator, log) {
        Ok(closed) => closed,
        Err(stop) => return Err(stop),
    };
    keep_fitting(book, marks, pool);
    if let Closed::Hole(a) = closed {
        if let Err(stop) = note_one(log, &Event::Hole(a)) {
            return Err(stop);
        }
        return Ok(Step::Hole(a));
    }
    let end = match find_end(
        alloc, book, table, net, marks, pool, duals, best, tools, is_root,
    ) {
        Ok(end) => end,
        Err(_) => return Err(Stop::Memory),
    };
    match note_end(
        alloc,
        book,
        table,
        net,
        marks,
        duals,
        best.target,
        end,
        &mut tools.prices,
        log,
    ) {
        Ok(step) => Ok(step),
        Err(stop) => Err(stop),
    }
}

/// A step on a node: adds what follows from its marks, finds its end, and notes both.
pub fn node_step<L: TreeLog>(
    alloc: Global,
    book: &Book,
    table: &CostTable,
    net: &Net,
    marks: &mut Marks,
    pool: &mut Pool,
    duals: &mut Duals,
    best: &mut Best,
    log: &mut L,
) -> Result<Step, Stop>
    requires table { IsTableFor book.now table.now }
    requires net { net.now ≡ net_of book.now }
    requires marks { AreMarksOf book.now marks.old }
    requires duals { AreDuals table.now book.now duals.old.values }
    requires pool { IsLegalPool table.now book.now pool.old }
    requires best { IsBest table.now book.now best.old.plan best.old.target }
    ensures visit { IfOk result (IsVisit table.now book.now (open_place marks.old.facts duals.old.values) marks.new.facts duals.new.values best.new.target
        (L.shows log.old) (L.shows log.new)) }
    ensures truth { IfOk result (IsTrueStep table.now book.now marks.new.facts duals.new.values best.new.target) }
    ensures rises { IfOk result (RisesFrom table.now book.now marks.old.facts duals.old.values) }
    ensures stopped { OnErr result (StopsIn (L.shows log.old) (L.shows log.new) table.now book.now (open_place marks.old.facts duals.old.values ∷ [])) }
    ensures followed { IsFollowed book.now marks.old.facts marks.new.facts }
    ensures marks { AreMarksOf book.now marks.new }
    ensures pool { IsLegalPool table.now book.now pool.new }
    ensures duals { AreDuals table.now book.now duals.new.values }
    ensures best { IsBest table.now book.now best.new.plan best.new.target }
    ensures falls { best.new.target ≤ best.old.target }
    ensures later { IsLater (L.shows log.old) (L.shows log.new) }
    ensures beside { L.beside log.old log.new }
    ensures cause { IsErrOf result Stop.Log → WriteHasFailed (L.shows log.old) (L.shows log.new) }
{
    let mut tools = match NodeTools::new(alloc, book, table) {
        Ok(tools) => tools,
        Err(_) => return Err(Stop::Memory),
    };
    match node_step_with(
        alloc, book, table, net, marks, pool, duals, best, &mut tools, log,
    ) {
        Ok(step) => Ok(step),
        Err(stop) => Err(stop),
    }
}
