//! The restricted master of column generation: a pool of routes, each with its cost, and duals that are settled over it.
#![tactic(auto)]

mod aircraft_choices;
mod choice;
mod costing;
mod dropped_routes;
mod entry;
mod hashing;
mod index;
mod kept_numbers;
pub mod laws;
mod leaping;
mod moving;
mod new_routes;
mod pool;
mod pool_add;
mod pool_duals;
mod pool_weights;
mod route_lists;
mod sums;
mod switching;

pub use kept_numbers::number_of;
pub use pool::Pool;
pub use pool_add::PoolAdd;
pub use pool_duals::settle;
pub use route_lists::RouteLists;
