//! Good legal plans: each is judged before it is told, and how good it is, is not promised.
//!
//! Costs are whole numbers, so a plan within less than a cost unit of a bound ends a search. A dive that cannot fail fixes routes
//! one after the other, at duals near the best ones, and may leave activities out. What it leaves out is put in by planning
//! stretches of time around it again. What leaves nothing out is made cheaper by planning parts of it again, from small ones to
//! large ones.
#![tactic(auto)]

mod columns;
mod copying;
mod finder;
mod ground;
mod judging;
mod ladder;
mod mending;
mod neighbourhood;
mod problem;
mod repairing;
mod restarting;
mod soft_dive;
mod window;

pub use finder::{Sought, exchange, find_by_dives};
pub use mending::{Given, mend};
pub use problem::Problem;
