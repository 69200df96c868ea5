//! Plan repair: a published plan in which little is moved, made legal again for a book that has changed.
#![tactic(auto)]

mod answer;
mod any_plans;
pub mod laws;
mod least_plans;
mod moved;
mod raised;
mod repairing;
mod report;
mod rungs;
mod warm_duals;

pub use answer::Repair;
pub use moved::moves;
pub use plan_homes::homes;
pub use raised::REPAIR_LIMIT;
pub use repairing::repair;
pub use report::write_repair;
