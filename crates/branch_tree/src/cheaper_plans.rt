//! Plans that are looked for once the bound of a node has stalled: at the root by dives, and below it near a best plan that is new. A
//! root that began warm has a plan near the best one, so it looks there. One within a cost unit of the bound ends the search.

ghost use Rattle.std.specs.Prelude.{◌≡◌, ◌≤◌};
ghost use Rattle.tail_book.specs.CostTable.{IsTableFor};
ghost use Rattle.connection_net.specs.Net.{net_of};
ghost use Rattle.branch_marks.specs.Settled.{AreDuals};
ghost use Rattle.branch_marks.specs.inside.MarkTables.{AreMarksOf};
ghost use Rattle.node_leaves.specs.Target.{IsBest};
ghost use Rattle.node_leaves.specs.inside.FittingPool.{IsFittingPool};

use crate::{Best, WarmStart};
use branch_marks::Marks;
use connection_net::Net;
use plan_finder::{Problem, Sought, exchange, find_by_dives};
use restricted_master::Pool;
use std::alloc::Global;
use tail_book::{Book, CostTable, Duals, Memory};

// For each activity so many labels and routes are looked at, at most.
const WORK: u64 = 15_000;

// The same below the root, where a plan is only made cheaper.
const WORK_BELOW: u64 = 1000;

// How much work a book is worth, with so much for each activity.
fn work_for(book: &Book, each: u64) -> u64 {
    (book.activities.len() as u64).saturating_mul(each)
}

/// How a plan that undercuts the best one is looked for.
#[derive(Clone, Copy)]
pub enum Way {
    /// By dives, whatever the best one is.
    Dives,
    /// Near the best one.
    Near,
    /// Not at all.
    Nowhere,
}

/// The way for a node, which knows whether there is a plan, and whether a new one was found in its rounds.
pub fn way_to_plans(warm: Option<&WarmStart>, has_plan: bool, is_root: bool, is_new: bool) -> Way {
    match warm {
        Some(_) if has_plan => Way::Near,
        Some(warm) => { if warm.dives { Way::Dives } else { Way::Nowhere } }
        None if is_root => Way::Dives,
        None => { if is_new { Way::Near } else { Way::Nowhere } }
    }
}

// Looks for a plan that undercuts the best one, with the pool and the duals that an ascent left. The pool gets its routes.
fn seek_plan(
    alloc: Global,
    book: &Book,
    table: &CostTable,
    net: &Net,
    marks: &Marks,
    pool: &mut Pool,
    duals: &Duals,
    best: &mut Best,
) -> Result<(), Memory>
    requires table { IsTableFor book.now table.now }
    requires net { net.now ≡ net_of book.now }
    requires marks { AreMarksOf book.now marks.now }
    requires duals { AreDuals table.now book.now duals.now.values }
    requires pool { IsFittingPool table.now book.now marks.now.facts pool.old }
    requires best { IsBest table.now book.now best.old.plan best.old.target }
    ensures pool { IsFittingPool table.now book.now marks.now.facts pool.new }
    ensures best { IsBest table.now book.now best.new.plan best.new.target }
    ensures falls { best.new.target ≤ best.old.target }
{
    let problem = Problem { book, table, net };
    let sought = Sought {
        marks,
        duals,
        work: work_for(book, WORK),
    };
    if let Some(found) = find_by_dives(alloc, &problem, &sought, pool)? {
        best.take(book, table, found.plan, &found.cost);
    }
    Ok(())
}

/// Looks near the best plan for a cheaper one, if that plan fits the marks.
pub fn exchange_near(
    alloc: Global,
    book: &Book,
    table: &CostTable,
    net: &Net,
    marks: &Marks,
    duals: &Duals,
    best: &mut Best,
) -> Result<(), Memory>
    requires table { IsTableFor book.now table.now }
    requires net { net.now ≡ net_of book.now }
    requires marks { AreMarksOf book.now marks.now }
    requires duals { AreDuals table.now book.now duals.now.values }
    requires best { IsBest table.now book.now best.old.plan best.old.target }
    ensures best { IsBest table.now book.now best.new.plan best.new.target }
    ensures falls { best.new.target ≤ best.old.target }
{
    let Some(plan) = &best.plan else {
        return Ok(());
    };
    let problem = Problem { book, table, net };
    let sought = Sought {
        marks,
        duals,
        work: work_for(book, WORK_BELOW),
    };
    if let Some(found) = exchange(alloc, &problem, &sought, plan)? {
        best.take(book, table, found.plan, &found.cost);
    }
    Ok(())
}

/// Looks for a plan that undercuts the best one in such a way, with the pool and the duals that an ascent left.
pub fn look_for_plans(
    alloc: Global,
    book: &Book,
    table: &CostTable,
    net: &Net,
    marks: &Marks,
    pool: &mut Pool,
    duals: &Duals,
    best: &mut Best,
    way: Way,
) -> Result<(), Memory>
    requires table { IsTableFor book.now table.now }
    requires net { net.now ≡ net_of book.now }
    requires marks { AreMarksOf book.now marks.now }
    requires duals { AreDuals table.now book.now duals.now.values }
    requires pool { IsFittingPool table.now book.now marks.now.facts pool.old }
    requires best { IsBest table.now book.now best.old.plan best.old.target }
    ensures pool { IsFittingPool table.now book.now marks.now.facts pool.new }
    ensures best { IsBest table.now book.now best.new.plan best.new.target }
    ensures falls { best.new.target ≤ best.old.target }
{
    match way {
        Way::Dives => seek_plan(alloc, book, table, net, marks, pool, duals, best),
        Way::Near => exchange_near(alloc, book, table, net, marks, duals, best),
        Way::Nowhere => Ok(()),
    }
}
