//! The search tree: its nodes, depth first, with what each of them shows, its open places, and the truth of its outcome.
#![tactic(auto)]

mod cheaper_plans;
mod first_pass;
pub mod laws;
mod limit;
mod node;
mod node_bound;
mod open_places;
mod optimum;
mod rounds;
mod search_state;
mod second_pass;
mod settled;
mod split;
mod step;
mod step_end;
mod step_start;
mod tools;
mod tree_search;
mod visit;
mod warm_start;

pub use branch_marks::{bound_below, passes};
pub use limit::Limit;
pub use node::{node_step, node_step_with};
pub use node_leaves::{
    Best, NodePricer, PricedAll, PricedLeaf, Stop, note_all, note_one, note_steps, price_leaf,
};
pub use open_places::OpenPlaces;
pub use optimum::least_plan;
pub use second_pass::lower;
pub use step::Step;
pub use tools::NodeTools;
pub use tree_search::{search, search_from};
pub use warm_start::WarmStart;
