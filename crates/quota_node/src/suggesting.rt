//! Routes that searches suggest beside those that are priced with fees, so that the pool tells more of what is light.
//!
//! A search knows no fees. Routes without a short connection weigh the same without them, so they are looked for with all of these cut; and
//! where each activity that may come by a short connection pays its fee in any case, those that do come by one weigh what they should.

ghost use Rattle.std.specs.Prelude.{◌≡◌, ◌<◌};
ghost use Rattle.tail_book.specs.Lookup.{aircraft};
ghost use Rattle.tail_book.specs.CostTable.{costs_of};
ghost use Rattle.connection_net.specs.Net.{net_of};
ghost use Rattle.branch_marks.specs.Settled.{AreDuals};
ghost use Rattle.branch_marks.specs.inside.MarkTables.{AreMarksOf};
ghost use Rattle.node_leaves.specs.inside.FittingPool.{IsFittingPool};
ghost use Rattle.quota_node.specs.inside.Tools.{AreQuotaToolsFor};

use crate::QuotaTools;
use branch_marks::Marks;
use connection_net::Net;
use node_leaves::add_all_suggestions;
use restricted_master::Pool;
use std::alloc::Global;
use tail_book::laws::own_costs_are_for_book;
use tail_book::{Book, CostTable, Duals, Memory};

// Looks for routes of an aircraft that weigh no more than its least weight and the slack.
fn look_for(
    book: &Book,
    table: &CostTable,
    net: &Net,
    sought: &Marks,
    duals: &Duals,
    k: u32,
    value: i64,
    slack: u32,
    tools: &mut QuotaTools,
) -> Result<(), Memory>
    requires table { table.now ≡ costs_of book.now }
    requires net { net.now ≡ net_of book.now }
    requires sought { AreMarksOf book.now sought.now }
    requires duals { AreDuals table.now book.now duals.now.values }
    requires aircraft { k < aircraft book.now }
    requires tools { AreQuotaToolsFor book.now tools.old }
    ensures tools { AreQuotaToolsFor book.now tools.new }
{
    own_costs_are_for_book();
    let far = value.saturating_add(i64::from(slack));
    let search = &mut tools.search;
    let _ = search.least_route(book, table, net, sought, duals, k, far, slack)?;
    match tools.suggested.get_mut(k as usize) {
        Some(into) => search.suggest(book, table, net, sought, duals, k, far, into),
        None => Ok(()),
    }
}

/// Adds to the pool routes that fit the marks which are sought, and weigh under these duals no more than the least weight of their
/// aircraft and the slack.
pub fn suggest(
    alloc: Global,
    book: &Book,
    table: &CostTable,
    net: &Net,
    sought: &Marks,
    marks: &Marks,
    pool: &mut Pool,
    duals: &Duals,
    values: &[i64],
    slack: u32,
    tools: &mut QuotaTools,
) -> Result<(), Memory>
    requires table { table.now ≡ costs_of book.now }
    requires net { net.now ≡ net_of book.now }
    requires sought { AreMarksOf book.now sought.now }
    requires marks { AreMarksOf book.now marks.now }
    requires pool { IsFittingPool table.now book.now marks.now.facts pool.old }
    requires duals { AreDuals table.now book.now duals.now.values }
    requires tools { AreQuotaToolsFor book.now tools.old }
    ensures pool { IsFittingPool table.now book.now marks.now.facts pool.new }
    ensures tools { AreQuotaToolsFor book.now tools.new }
{
    own_costs_are_for_book();
    for k in 0..book.tails.len() as u32 {
        let value = values.get(k as usize).copied().unwrap_or(0);
        look_for(book, table, net, sought, duals, k, value, slack, tools)?;
    }
    let (suggested, search) = (&tools.suggested, &mut tools.search);
    add_all_suggestions(alloc, book, table, marks, pool, suggested, search)
}
