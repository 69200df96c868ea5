//! Texts: stamps, numbers, names and times of day read exactly, the parts of a text, lines of text, claims, and the refusals of tables.
#![tactic(auto)]

mod bad;
mod claims;
mod clocks;
pub mod codes;
mod line;
mod names;
mod numbers;
mod pairs;
mod parts;
mod refusal;
mod stamps;

pub use bad::Bad;
pub use claims::add_claim;
pub use clocks::clock;
pub use line::Line;
pub use names::name;
pub use numbers::number;
pub use parts::Parts;
pub use refusal::{Refusal, SIZE_LIMIT, Stopped, Table};
pub use stamps::stamp;
