//! The least route of an aircraft within a cut: what the rounds of an ascent ask for, where no closed family is wanted.
#![tactic(auto)]

mod added;
mod completion;
mod end;
mod followers;
mod laws;
mod least_within;
mod lightest;
mod reach;
mod rest;
mod rests;
mod search;
mod step;
mod suggest;
mod task;

pub use least_within::LeastWithin;
pub use search::RouteSearch;
pub use suggest::Suggestions;
