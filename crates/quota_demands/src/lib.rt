//! How often every legal plan uses a connection quota at least: activities at an airport are matched to what comes directly before
//! them, so that as few of these connections as can be are short. Where that is more often than a quota lets a plan use it, no plan
//! keeps it.
#![tactic(auto)]

pub mod laws;
mod matching;
mod potentials;
mod shown_uses;
mod worth;

pub use matching::assigned;
pub use shown_uses::least_uses;
pub use worth::Worth;
