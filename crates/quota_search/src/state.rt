//! What a search under quotas keeps between two nodes. The routes, the duals, the fees and the best plan carry what one node found over to
//! those behind it: each open branch begins with the duals and fees of its parent.

ghost use Rattle.std.specs.Prelude.{◌≡◌, [], ◌∷◌, IfOk};
ghost use Rattle.tail_book.specs.CostTable.{costs_of};
ghost use Rattle.connection_net.specs.Net.{net_of};
ghost use Rattle.open_branches.specs.Branches.{AreBranchesOf, owed_of};
ghost use Rattle.quota_rows.specs.Fees.{AreFees};
ghost use Rattle.quota_search.specs.inside.State.{IsStateFor};

use connection_net::Net;
use node_leaves::{Best, SearchRoutes, first_duals};
use open_branches::Branches;
use quota_node::QuotaTools;
use quota_rows::{Fees, Quota};
use std::alloc::Global;
use tail_book::laws::own_costs_are_for_book;
use tail_book::{Book, CostTable, Duals, Memory};

/// Duals, and fees beside them.
#[derive(Drop)]
pub struct Prices {
    pub duals: Duals,
    pub fees: Fees,
}

/// The network, the open branches, the routes that were found, the duals and the fees of the node that comes next and those of the
/// branches behind it, the best plan so far, and the tools of a node.
#[derive(Drop)]
pub struct QuotaState {
    pub net: Net,
    pub branches: Branches,
    pub routes: SearchRoutes,
    pub duals: Duals,
    pub fees: Fees,
    pub behind: Vec<Prices>,
    pub best: Best,
    pub tools: QuotaTools,
}

// Fees that are all 0.
fn no_fees(alloc: Global, table: &CostTable, quotas: &[Quota]) -> Result<Fees, Memory>
    ensures { IfOk result (λ fees. AreFees table.now quotas.now fees.values) }
{
    let values = vec![in alloc; 0i64; quotas.len()]?;
    Ok(Fees { values })
}

// Branches of which the root alone is owed.
fn root_alone(alloc: Global, book: &Book) -> Result<Branches, Memory>
    ensures branches { IfOk result (AreBranchesOf book.now) }
    ensures root { IfOk result (λ branches. owed_of branches ≡ [] ∷ []) }
{
    let mut branches = Branches::new(alloc, book)?;
    branches.owes = true;
    Ok(branches)
}

impl QuotaState {
    /// A search that has not begun: the root alone is owed, and there is no plan yet.
    pub fn new(
        alloc: Global,
        book: &Book,
        table: &CostTable,
        net: Net,
        quotas: &[Quota],
    ) -> Result<QuotaState, Memory>
        requires table { table.now ≡ costs_of book.now }
        requires net { net ≡ net_of book.now }
        ensures state { IfOk result (IsStateFor table.now book.now quotas.now) }
        ensures root { IfOk result (λ state. owed_of state.branches ≡ [] ∷ []) }
    {
        own_costs_are_for_book();
        let branches = root_alone(alloc, book)?;
        let duals = first_duals(alloc, book, table, &branches.marks)?;
        let routes = SearchRoutes::new(alloc)?;
        let fees = no_fees(alloc, table, quotas)?;
        let tools = QuotaTools::new(alloc, book)?;
        let best = Best::none(table);
        Ok(QuotaState {
            net,
            branches,
            routes,
            duals,
            fees,
            behind: Vec::new(alloc),
            best,
            tools,
        })
    }
}
