//! What shows that a node is done: the nodes of a search tree with their events, and their leaves, priced under duals and told with
//! what shows them.
#![tactic(auto)]

mod best;
mod budgets;
mod covers;
mod demands;
mod fitting_pool;
pub mod laws;
mod leaf;
mod lightest;
mod new_routes;
mod node_events;
mod node_pricer;
mod notes;
mod passes;
mod root_duals;
mod search_routes;
mod shortage;
mod split_pair;
mod stop;
mod suggestions;

pub use best::Best;
pub use covers::{note_bounded, note_stuck};
pub use demands::demand_duals;
pub use fitting_pool::keep_fitting;
pub use leaf::{PricedLeaf, lagrangian_of, price_leaf};
pub use new_routes::add_routes;
pub use node_pricer::{NodePricer, PricedAll};
pub use notes::{note_all, note_one, note_steps};
pub use passes::pass_duals;
pub use root_duals::first_duals;
pub use search_routes::SearchRoutes;
pub use shortage::shortage_duals;
pub use split_pair::chosen_pair;
pub use stop::Stop;
pub use suggestions::{add_all_suggestions, cuts_of, no_suggestions};
