//! The search for a least plan among those that keep connection quotas.
#![tactic(auto)]

mod assignment;
mod demands;
mod first_plans;
pub mod laws;
mod outcome;
mod quota_search;
mod shares;
mod state;
mod tree;
mod visit;

pub use outcome::QuotaOutcome;
pub use quota_search::search_quotas;
