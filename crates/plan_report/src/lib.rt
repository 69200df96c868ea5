//! The report of an outcome, both ways, and the texts that both programs print.
#![tactic(auto)]

mod audit_text;
pub mod laws;
mod lines;
mod plan_text;
mod refused;
mod report;
mod text_lines;
mod writing;

pub use audit_text::write_audit;
pub use plan_text::read_plan;
pub use refused::refusal_line;
pub use report::{add_aircraft, first_line, write_report};
pub use writing::{ReportFail, write_lines};
