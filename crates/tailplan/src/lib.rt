//! The planner: reads a timetable, a fleet and rules, and prints a legal plan of least cost, or that no plan is legal. The
//! program `tailplan_program` calls it.
#![tactic(auto)]

mod answer;
mod answered;
mod book_plan;
mod explained;
mod explaining;
mod four_texts;
mod quota_run;
mod quota_words;
mod repair_run;
mod repair_words;
mod repaired;
mod run;
mod tasks;
mod trial;
mod under_quotas;
mod usage;
mod why_run;
mod why_words;
mod words;

pub use four_texts::FourNames;
pub use quota_words::quota_of;
pub use repair_words::repair_of;
pub use run::solve_run;
pub use trial::{Checker, Judge, Tried, is_accepted, run_trial};
pub use why_words::why_of;
pub use words::{NODE_LIMIT, TaskNames, run_of, seed_of};
