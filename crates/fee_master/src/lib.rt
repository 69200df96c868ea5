//! The restricted master under quotas: duals and fees that are settled over a pool of routes, and when they are settled over all legal
//! routes that fit.
#![tactic(auto)]

mod best_rise;
mod fee_weights;
mod fixed;
pub mod laws;
mod lines;
mod moving;
mod quota_uses;
mod settling;
mod sums;

pub use settling::settle;
pub use sums::{fees_at_most, total};
