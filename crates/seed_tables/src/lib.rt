//! Trials: three tables that a seed makes, whose least cost is known before anything is planned.
#![tactic(auto)]

mod draws;
mod flight;
pub mod laws;
mod rows;
mod trial;

pub use trial::{SEED_LIMIT, Trial, trial_tables};
