//! The picture of a plan: a row of bars for each aircraft, by the minute, with what is broken in red, and
//! what another aircraft flew before in an outline.
#![tactic(auto)]

mod bars;
mod calendar;
mod curfews;
mod fixed;
pub mod laws;
mod layout;
mod moved;
mod picture;
pub mod pieces;
mod rows;
mod shares;
mod stops;
mod stretches;
mod strips;
mod view;

pub use picture::write_picture;
pub use view::{View, port_named};
