//! The calendar: how moments are spelled, as the tables spell them.
#![tactic(auto)]

pub mod laws;
mod moments;

pub use moments::add_moment;
