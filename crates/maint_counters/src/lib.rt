//! The maintenance counters along a route: what they begin with, what clears them, and what each activity adds.
#![tactic(auto)]

mod carry;
mod counting;
mod legal_route;
mod reset;
mod step_table;
mod stepping;

pub use carry::start;
pub use counting::{amount, flown};
pub use legal_route::is_legal_route;
pub use reset::cleared;
pub use step_table::{ActivityRow, CounterRow, StepTable, step_by};
pub use stepping::{step, step_one};
