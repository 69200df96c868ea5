//! The picture of a shortage: the asked activities at their minutes, each where it starts, and below them the brought ones where they
//! end.
#![tactic(auto)]

mod fixed;
mod lanes;
mod picture;
mod sides;
mod span;
mod strips;

pub use picture::{View, write_shortage};
