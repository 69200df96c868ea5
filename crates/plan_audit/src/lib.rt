//! The audit of a plan: which rules it breaks, and what a legal one costs.
#![tactic(auto)]

mod auditing;
mod book_names;
mod broken;
mod dropped_names;
mod kept_plan;
pub mod laws;
mod leg;
mod leg_cost;
mod legal_plan;
mod met;
mod met_names;
mod no_links;
mod not_allowed;
mod past_limits;
mod plan_cost;
mod uncovered;

pub use auditing::{audit, audit_plan, legal_cost};
pub use broken::{Audit, Broken};
pub use kept_plan::kept;
