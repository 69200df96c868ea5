//! Dives: from marks down to a plan or a dead end, by facts that follow and facts that are tried, and never back.
#![tactic(auto)]

mod answer;
mod carrier;
mod descent;
mod dive_choice;
mod dive_steps;
mod diver;
pub mod laws;
mod least_routes;
mod tally;

pub use answer::{DeadEnd, Dive, DiveStep};
pub use descent::dive;
pub use dive_choice::choice;
pub use diver::Diver;
