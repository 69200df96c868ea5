//! Pricing at a node: each aircraft once, under the same marks and duals.
//!
//! Two ways lead to a least weight. Labels tell all that a certificate needs of it. A search within a cut is cheaper, and as
//! exact: where it finds nothing within the cut, the labels decide. What both read of a book, and their room, are made once
//! and kept from node to node.

ghost use Rattle.std.specs.Prelude.{◌≡◌, ◌<◌, ◌++◌, ◌∷◌, [], IfOk, OnOk};
ghost use Rattle.tail_book.specs.Lookup.{aircraft};
ghost use Rattle.tail_book.specs.CostTable.{IsTableFor};
ghost use Rattle.branch_marks.specs.Settled.{AreDuals};
ghost use Rattle.pricing.specs.Price.{IsPriceOf};
ghost use Rattle.node_leaves.specs.inside.Leaf.{IsNodePricerOf, IsReady, ArePrices};
ghost use Rattle.node_leaves.specs.inside.PricedStore.{IsPricedStore};

use crate::suggestions::no_suggestions;
use branch_marks::Marks;
use connection_net::Net;
use label_store::Store;
use pricing::{Priced, Pricer};
use route_search::{LeastWithin, RouteSearch, Suggestions};
use std::alloc::Global;
use tail_book::{Book, CostTable, Duals, Memory, Route};

/// What the routes of all aircraft weigh at least.
#[derive(Debug, Drop)]
pub enum PricedAll {
    /// The least weight of each aircraft, in thousandths of a cost unit, and a legal route that fits and has it.
    Least {
        values: Vec<i64>,
        routes: Vec<Route>,
    },
    /// The least aircraft of which no legal route fits.
    Stuck(u32),
}

/// Prices the aircraft of a node, and keeps the labels of the one that was priced for them last.
#[derive(Drop)]
pub struct NodePricer {
    pub pricer: Pricer,
    pub store: Store,
    pub search: RouteSearch,
    /// What the last searches with a slack suggested, for each aircraft.
    pub suggested: Vec<Suggestions>,
}

impl NodePricer {
    /// A pricer of the nodes of a book's tree, by a table of its costs.
    pub fn new(alloc: Global, book: &Book, table: &CostTable) -> Result<NodePricer, Memory>
        requires { IsTableFor book.now table.now }
        ensures { IfOk result (IsNodePricerOf table.now book.now) }
    {
        let pricer = Pricer::new(alloc, book, table)?;
        let store = Store::new(alloc, book.activities.len(), 1 + book.rules.counters.len())?;
        let search = RouteSearch::new(alloc, book)?;
        let suggested = no_suggestions(alloc, book.tails.len())?;
        Ok(NodePricer {
            pricer,
            store,
            search,
            suggested,
        })
    }

    /// Prices an aircraft for its labels, which then stand in the store.
    pub fn fill(
        &mut self,
        book: &Book,
        table: &CostTable,
        net: &Net,
        marks: &Marks,
        duals: &Duals,
        k: u32,
    ) -> Result<Priced, Memory>
        requires ready { IsReady table.now book.now net.now marks.now self.old }
        requires duals { AreDuals table.now book.now duals.now.values }
        requires aircraft { k < aircraft book.now }
        ensures price { IfOk result (IsPriceOf table.now book.now marks.now.facts k duals.now.values) }
        ensures labels { IfOk result (λ _. IsPricedStore table.now book.now marks.now.facts k duals.now.values self.new.store) }
        ensures ready { IsReady table.now book.now net.now marks.now self.new }
    {
        self.pricer
            .price(book, table, net, marks, duals, k, &mut self.store)
    }

    // Prices an aircraft, by a search that looks further than the cut by the slack, if that finds a route. With a slack it keeps
    // what the search suggests.
    fn price_within(
        &mut self,
        book: &Book,
        table: &CostTable,
        net: &Net,
        marks: &Marks,
        duals: &Duals,
        k: u32,
        cut: i64,
        slack: u32,
    ) -> Result<Priced, Memory>
        requires ready { IsReady table.now book.now net.now marks.now self.old }
        requires duals { AreDuals table.now book.now duals.now.values }
        requires aircraft { k < aircraft book.now }
        ensures price { IfOk result (IsPriceOf table.now book.now marks.now.facts k duals.now.values) }
        ensures ready { IsReady table.now book.now net.now marks.now self.new }
    {
        let far = cut.saturating_add(i64::from(slack));
        let found = self
            .search
            .least_route(book, table, net, marks, duals, k, far, slack)?;
        match found {
            LeastWithin::Best { value, route } => {
                self.suggest_routes(book, table, net, marks, duals, k, &value, slack)?;
                Ok(Priced::Best { value, route })
            }
            LeastWithin::NoneWithin => self.fill(book, table, net, marks, duals, k),
        }
    }

    /// Prices all aircraft, up to one that is stuck. The cuts only suggest: a route is looked for within the cut of its
    /// aircraft, and only where there is none further out. With a slack, searches look further by it, and suggest routes.
    pub fn price_all(
        &mut self,
        alloc: Global,
        book: &Book,
        table: &CostTable,
        net: &Net,
        marks: &Marks,
        duals: &Duals,
        cuts: &[i64],
        slack: u32,
    ) -> Result<PricedAll, Memory>
        requires ready { IsReady table.now book.now net.now marks.now self.old }
        requires duals { AreDuals table.now book.now duals.now.values }
        ensures prices { IfOk result (ArePrices table.now book.now marks.now.facts duals.now.values) }
        ensures ready { IsReady table.now book.now net.now marks.now self.new }
    {
        let mut values = Vec::new(alloc);
        let mut routes = Vec::new(alloc);
        for k in 0..book.tails.len() as u32 {
            let cut = cut_of(cuts, k);
            let priced = self.price_within(book, table, net, marks, duals, k, cut, slack)?;
            match priced {
                Priced::Best { value, route } => push_best(
                    &mut values,
                    &mut routes,
                    &value,
                    route,
                )?,
                Priced::Stuck => return Ok(PricedAll::Stuck(k)),
            }
        }
        Ok(PricedAll::Least { values, routes })
    }
}

// The cut of an aircraft, as far out as can be where it has none.
fn cut_of(cuts: &[i64], k: u32) -> i64 {
    cuts.get(k as usize).copied().unwrap_or(i64::MAX)
}

// Puts a value and a route that has it at the ends of their lists.
fn push_best(
    values: &mut Vec<i64>,
    routes: &mut Vec<Route>,
    value: &i64,
    route: Route,
) -> Result<(), Memory>
    ensures values { OnOk result (values.new.items ≡ values.old.items ++ value.now ∷ []) }
    ensures routes { OnOk result (routes.new.items ≡ routes.old.items ++ route ∷ []) }
{
    values.push(*value)?;
    routes.push(route)?;
    Ok(())
}
