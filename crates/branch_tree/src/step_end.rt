//! The last part of a step: the end that was found is told, with what shows it. A split is one event. For a bound or a
//! stuck aircraft the labels come from pricing again, one aircraft at a time, and only where the log wants events.

ghost use Rattle.std.specs.Prelude.{ℤ, List, IfOk, OnErr, IsErrOf};
ghost use Rattle.branch_marks.specs.Settled.{AreDuals};
ghost use Rattle.branch_marks.specs.TreeLog.{IsLater, WriteHasFailed};
ghost use Rattle.branch_tree.specs.Step.{IsTrueStep, RisesFrom};
ghost use Rattle.node_leaves.specs.inside.Leaf.{IsReady, IsCutAtLeaf};
ghost use Rattle.branch_tree.specs.inside.StepParts.{EndRisesFrom, IsEndFound, IsEndNoted};

use crate::step::NodeEnd;
use crate::{NodePricer, Step, Stop};
use branch_marks::laws::undecided_pairs_are_of_book;
use branch_marks::{Event, Marks, TreeLog, bound_from};
use connection_net::Net;
use node_leaves::{lagrangian_of, note_bounded, note_one, note_stuck};
use std::alloc::Global;
use tail_book::laws::every_book_is_sound;
use tail_book::{Book, CostTable, Duals};

/// Notes the end of a node, and answers it. The target is what a bound reaches and a split does not.
pub fn note_end<L: TreeLog>(
    alloc: Global,
    book: &Book,
    table: &CostTable,
    net: &Net,
    marks: &Marks,
    duals: &Duals,
    target: u64,
    end: NodeEnd,
    prices: &mut NodePricer,
    log: &mut L,
) -> Result<Step, Stop>
    requires ready { IsReady table.now book.now net.now marks.now prices.old }
    requires duals { AreDuals table.now book.now duals.now.values }
    requires found { IsEndFound table.now book.now marks.now.facts duals.now.values target end }
    ensures noted { IfOk result (IsEndNoted table.now book.now marks.now.facts duals.now.values target (L.shows log.old) (L.shows log.new)) }
    ensures truth { IfOk result (IsTrueStep table.now book.now marks.now.facts duals.now.values target) }
    ensures rises { (from : List ℤ) → EndRisesFrom table.now book.now marks.now.facts from end
        → IfOk result (RisesFrom table.now book.now marks.now.facts from) }
    ensures cut { OnErr result (IsCutAtLeaf table.now book.now marks.now.facts (L.shows log.old) (L.shows log.new)) }
    ensures later { IsLater (L.shows log.old) (L.shows log.new) }
    ensures beside { L.beside log.old log.new }
    ensures cause { IsErrOf result Stop.Log → WriteHasFailed (L.shows log.old) (L.shows log.new) }
    ensures ready { IsReady table.now book.now net.now marks.now prices.new }
{
    every_book_is_sound(book);
    undecided_pairs_are_of_book();
    match end {
        NodeEnd::Stuck(k) => {
            if let Err(stop) = note_stuck(alloc, book, table, net, marks, k, prices, log) {
                return Err(stop);
            }
            Ok(Step::Stuck(k))
        }
        NodeEnd::Bounded(values) => {
            if let Err(stop) = note_bounded(
                alloc, book, table, net, marks, duals, &values, prices, log,
            ) {
                return Err(stop);
            }
            Ok(Step::Bounded(bound_from(lagrangian_of(duals, &values))))
        }
        NodeEnd::Split {
            pair,
            bound,
            routes,
            dive,
        } => {
            if let Err(stop) = note_one(log, &Event::Split(pair)) {
                return Err(stop);
            }
            Ok(Step::Split {
                pair,
                bound,
                routes,
                dive,
            })
        }
    }
}
