//! The floors of one aircraft under marks: the least counter values with which it can come to each activity.
#![tactic(auto)]

mod dead;
mod floor_row;
mod floors;
pub mod laws;
mod link_steps;

pub use dead::{is_dead, may_go_over};
pub use floor_row::FloorRow;
pub use floors::{put_floor, put_floors};
pub use link_steps::{goes_on, goes_on_over, goes_on_to, goes_to};
