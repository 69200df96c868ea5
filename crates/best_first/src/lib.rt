//! The search by least bound: its tree and the order of its nodes, and how the tree grows from the root, the least bound first, and
//! is told once it is whole.
#![tactic(auto)]

mod best_search;
mod best_state;
mod closing;
mod growth;
pub mod laws;
mod links;
mod node_telling;
mod placing;
mod rank;
mod slots;
mod tree_telling;
mod visit;

pub use best_search::search_best;
pub use best_state::BestState;
pub use growth::grow;
pub use rank::Rank;
