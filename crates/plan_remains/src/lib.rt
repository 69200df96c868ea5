//! What is left of a published plan, and legal plans near it. All of it only suggests where a repair begins.
#![tactic(auto)]

mod boxed_duals;
mod move_worths;
mod near_plans;
mod remains;

pub use move_worths::{is_kept, worths_of_moves};
pub use near_plans::near_plan;
pub use remains::{Remains, remains_of};
