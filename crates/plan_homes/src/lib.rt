//! The homes of activities: who flies each of them in a plan that was published before; and what a plan's moves are.
#![tactic(auto)]

mod at_home;
pub mod laws;

pub use at_home::homes;
