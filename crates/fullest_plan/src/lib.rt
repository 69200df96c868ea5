//! The fullest plan that is found soon where no plan is legal: which activities a choice of legal routes leaves out.
#![tactic(auto)]

mod exchanging;
mod filling;
mod fullest;
mod laws;
mod left_out;
mod route_seeker;
mod worths;

pub use fullest::fewest_left_out;
