//! Splits under connection quotas: which Ties belong to a quota, and when these are too many for any plan to keep it.
#![tactic(auto)]

pub mod laws;
mod ties;

pub use ties::{first_over, ties_of};
