//! Small books for tests: of rows of activities, with an aircraft of each of some types, and marks, duals, routes and costs
//! for them. Only tests call it. It has none itself, so that it is proved once, for all crates of trials.
#![tactic(auto)]

mod activity_rows;
mod aircraft;
mod cost_table;
mod duals;
mod marking;
mod names;
mod rising;
mod rule_rows;
mod small_book;

pub use activity_rows::{SmallActivity, activities, flight, named_flight};
pub use aircraft::{named_tail, tails};
pub use cost_table::costs;
pub use duals::{are_duals, duals_of};
pub use marking::marks;
pub use names::names_in_order;
pub use rising::is_rising;
pub use rule_rows::{bands, counters, rules};
pub use small_book::{book, plain_book, there_and_back, two_at_once};
