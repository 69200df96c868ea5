//! What a search under quotas keeps from node to node: it takes its size from the book, so it is made once. What the propagator found
//! holds for the marks of one node, so a node forgets it first.

ghost use Rattle.std.specs.Prelude.{◌≡◌, IfOk, length};
ghost use Rattle.tail_book.specs.Lookup.{activities};
ghost use Rattle.dive_heuristic.specs.Divers.{IsStoreOf};
ghost use Rattle.quota_node.specs.inside.Tools.{AreQuotaToolsFor};

use fee_pricing::FeePricer;
use label_store::Store;
use node_leaves::no_suggestions;
use propagator::Propagator;
use route_search::{RouteSearch, Suggestions};
use std::alloc::Global;
use tail_book::laws::every_book_is_sound;
use tail_book::{Book, Flown, Memory};

/// What is kept from node to node: a pricer with fees, room for its labels, a propagator, how often routes fly each activity, and a search
/// without fees with what it suggests.
#[derive(Drop)]
pub struct QuotaTools {
    pub(crate) pricer: FeePricer,
    pub(crate) store: Store,
    pub(crate) propagator: Propagator,
    pub(crate) tally: Vec<Flown>,
    pub(crate) search: RouteSearch,
    pub(crate) suggested: Vec<Suggestions>,
}

// Room for the labels of a book.
fn room_for(alloc: Global, book: &Book) -> Result<Store, Memory>
    ensures { IfOk result (IsStoreOf book.now) }
{
    every_book_is_sound(book);
    let (n, width) = (book.activities.len(), 1 + book.rules.counters.len());
    let store = Store::new(alloc, n, width)?;
    Ok(store)
}

// A tally of a book in which nothing is flown.
fn tally_for(alloc: Global, book: &Book) -> Result<Vec<Flown>, Memory>
    ensures { IfOk result (λ tally. length tally.items ≡ activities book.now) }
{
    Ok(vec![in alloc; Flown::Never; book.activities.len()]?)
}

impl QuotaTools {
    /// Tools for a book.
    pub fn new(alloc: Global, book: &Book) -> Result<QuotaTools, Memory>
        ensures { IfOk result (AreQuotaToolsFor book.now) }
    {
        let tally = tally_for(alloc, book)?;
        let store = room_for(alloc, book)?;
        let pricer = FeePricer::new(alloc, book)?;
        let propagator = Propagator::new(alloc, book)?;
        let search = RouteSearch::new(alloc, book)?;
        let suggested = no_suggestions(alloc, book.tails.len())?;
        Ok(QuotaTools {
            pricer,
            store,
            propagator,
            tally,
            search,
            suggested,
        })
    }
}
