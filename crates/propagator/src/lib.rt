//! Propagation: all facts that follow from marks are added to them.
#![tactic(auto)]

mod added_facts;
mod carriers;
mod dead_ends;
mod dead_links;
mod due_floors;
mod fixpoint;
mod flags;
mod hole;
mod kept_rows;
pub mod laws;
mod lowering;
mod lowest;
mod settled_aircraft;
mod suspects;
mod touching;
mod work;

pub use hole::Closed;
pub use kept_rows::{Propagator, close};
