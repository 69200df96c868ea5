//! What nodes of the book of two flights answer: priced as a leaf, or by a step, or by two.

ghost use Rattle.std.specs.Prelude.{◌≡◌};
ghost use Rattle.tail_book.specs.CostTable.{IsTableFor};
ghost use Rattle.connection_net.specs.Net.{net_of};
ghost use Rattle.branch_marks.specs.Settled.{AreDuals};
ghost use Rattle.branch_marks.specs.inside.MarkTables.{AreMarksOf};

use branch_marks::{Fact, Marks, TreeLog};
use branch_tree::{Best, NodePricer, PricedLeaf, Step, Stop, node_step, price_leaf};
use connection_net::Net;
use restricted_master::Pool;
use small_books::{are_duals, costs, duals_of, marks, there_and_back};
use std::alloc::Global;
use std::test::Fail;
use tail_book::*;

/// The book of two flights, for an aircraft that costs 60 an hour and one that costs 120.
pub fn two_flights(alloc: Global) -> Result<Book, Fail> {
    there_and_back(alloc, &[0, 1], 30)
}

/// What is asked of a node: its price as a leaf, a step, or a step and then another one from what the first left of marks,
/// pool, duals and best plan, whatever became of it.
#[derive(Clone, Copy)]
pub enum Asked {
    Leaf,
    Step,
    TwoSteps,
}

/// How pricing a leaf or a step ended.
#[derive(Clone, Copy)]
pub enum Ended {
    Hole(u32),
    Stuck,
    Bounded(i128),
    Split,
    Stopped(Stop),
}

impl Ended {
    /// Whether it is a bound of so many cost units, rounded up.
    pub fn is_bound(self, units: u64) -> bool {
        let most = units as i128 * 1_000;
        matches!(self, Ended::Bounded(sum) if most - 1_000 < sum && sum <= most)
    }
}

/// How the first and the second ended, and the target that they left: 0 where there was no step. Where there is one end, it
/// stands for both.
#[derive(Clone, Copy)]
pub struct Answer {
    pub first: Ended,
    pub again: Ended,
    pub target: u64,
}

fn leaf_end(leaf: Result<PricedLeaf, Stop>) -> Ended {
    match leaf {
        Ok(PricedLeaf::Stuck) => Ended::Stuck,
        Ok(PricedLeaf::Bounded(sum)) => Ended::Bounded(sum),
        Err(stop) => Ended::Stopped(stop),
    }
}

fn step_end(step: &Result<Step, Stop>) -> Ended {
    match step {
        Ok(Step::Hole(a)) => Ended::Hole(*a),
        Ok(Step::Stuck(_)) => Ended::Stuck,
        Ok(Step::Bounded(sum)) => Ended::Bounded(*sum),
        Ok(Step::Split { .. }) => Ended::Split,
        Err(stop) => Ended::Stopped(*stop),
    }
}

fn price<L: TreeLog>(
    alloc: Global,
    book: &Book,
    table: &CostTable,
    net: &Net,
    marks: &Marks,
    duals: &Duals,
    log: &mut L,
) -> Result<Answer, Memory>
    requires table { IsTableFor book.now table.now }
    requires net { net.now ≡ net_of book.now }
    requires marks { AreMarksOf book.now marks.now }
    requires duals { AreDuals table.now book.now duals.now.values }
{
    let mut prices = NodePricer::new(alloc, book, table)?;
    let leaf = price_leaf(alloc, book, table, net, marks, duals, &mut prices, log);
    let end = leaf_end(leaf);
    Ok(Answer {
        first: end,
        again: end,
        target: 0,
    })
}

fn step_once<L: TreeLog>(
    alloc: Global,
    book: &Book,
    table: &CostTable,
    net: &Net,
    marks: &mut Marks,
    duals: &mut Duals,
    log: &mut L,
) -> Result<Answer, Memory>
    requires table { IsTableFor book.now table.now }
    requires net { net.now ≡ net_of book.now }
    requires marks { AreMarksOf book.now marks.old }
    requires duals { AreDuals table.now book.now duals.old.values }
{
    let (mut pool, mut best) = (Pool::new(alloc)?, Best::none(table));
    let step = node_step(
        alloc, book, table, net, marks, &mut pool, duals, &mut best, log,
    );
    let end = step_end(&step);
    Ok(Answer {
        first: end,
        again: end,
        target: best.target,
    })
}

fn step_twice<L: TreeLog>(
    alloc: Global,
    book: &Book,
    table: &CostTable,
    net: &Net,
    marks: &mut Marks,
    duals: &mut Duals,
    log: &mut L,
) -> Result<Answer, Memory>
    requires table { IsTableFor book.now table.now }
    requires net { net.now ≡ net_of book.now }
    requires marks { AreMarksOf book.now marks.old }
    requires duals { AreDuals table.now book.now duals.old.values }
{
    let (mut pool, mut best) = (Pool::new(alloc)?, Best::none(table));
    let first = node_step(
        alloc, book, table, net, marks, &mut pool, duals, &mut best, log,
    );
    let again = node_step(
        alloc, book, table, net, marks, &mut pool, duals, &mut best, log,
    );
    Ok(Answer {
        first: step_end(&first),
        again: step_end(&again),
        target: best.target,
    })
}

fn answer_at<L: TreeLog>(
    alloc: Global,
    book: &Book,
    table: &CostTable,
    net: &Net,
    marks: &mut Marks,
    duals: &mut Duals,
    asked: Asked,
    log: &mut L,
) -> Result<Answer, Memory>
    requires table { IsTableFor book.now table.now }
    requires net { net.now ≡ net_of book.now }
    requires marks { AreMarksOf book.now marks.old }
    requires duals { AreDuals table.now book.now duals.old.values }
{
    match asked {
        Asked::Leaf => price(alloc, book, table, net, marks, duals, log),
        Asked::Step => step_once(alloc, book, table, net, marks, duals, log),
        Asked::TwoSteps => step_twice(alloc, book, table, net, marks, duals, log),
    }
}

// The same from marks of these facts.
fn answer_from<L: TreeLog>(
    alloc: Global,
    book: &Book,
    table: &CostTable,
    facts: &[Fact],
    duals: &mut Duals,
    asked: Asked,
    log: &mut L,
) -> Result<Answer, Memory>
    requires table { IsTableFor book.now table.now }
    requires duals { AreDuals table.now book.now duals.old.values }
{
    let mut marks = marks(alloc, book, facts)?;
    let net = Net::new(alloc, book)?;
    answer_at(alloc, book, table, &net, &mut marks, duals, asked, log)
}

// The same under duals of this value, if they are in the box.
fn answer_under<L: TreeLog>(
    alloc: Global,
    book: &Book,
    table: &CostTable,
    facts: &[Fact],
    dual: i64,
    asked: Asked,
    log: &mut L,
) -> Result<Answer, Fail>
    requires { IsTableFor book.now table.now }
{
    let mut duals = duals_of(alloc, &[dual, dual])?;
    if are_duals(book, table, &duals) {
        Ok(answer_from(alloc, book, table, facts, &mut duals, asked, log)?)
    } else {
        Err(Fail::new("duals out of the box"))
    }
}

/// What a node of a book of two flights answers, by its own costs.
pub fn ask_of<L: TreeLog>(
    alloc: Global,
    book: &Book,
    facts: &[Fact],
    dual: i64,
    asked: Asked,
    log: &mut L,
) -> Result<Answer, Fail> {
    let table = costs(alloc, book)?;
    answer_under(alloc, book, &table, facts, dual, asked, log)
}

/// The same of the book of two flights.
pub fn ask<L: TreeLog>(
    alloc: Global,
    facts: &[Fact],
    dual: i64,
    asked: Asked,
    log: &mut L,
) -> Result<Answer, Fail> {
    let book = two_flights(alloc)?;
    ask_of(alloc, &book, facts, dual, asked, log)
}
