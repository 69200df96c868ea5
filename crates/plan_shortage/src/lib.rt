//! Shortages: activities of which all aircraft together can fly too few, so that no plan is legal. A shortage can be read
//! and judged with no trust in how it was found.
#![tactic(auto)]

mod costless;
pub mod laws;
mod shortages;
mod surplus_pricer;
mod surpluses;
mod unit_duals;

pub use shortages::{is_short, mosts, shortage};
pub use surplus_pricer::SurplusPricer;
pub use surpluses::surplus;
