//! The checker: judges a plan or a certificate by a timetable, a fleet and rules. Of a plan it prints what it costs or which
//! rules it breaks, of a certificate what it shows or where it fails. The program `tailcheck_program` calls it.
#![tactic(auto)]

mod answer;
mod audited;
mod certified;
mod feeding;
mod run;
mod usage;
mod verdict_text;
mod words;

pub use run::check_run;
pub use words::{CheckNames, Subject, check_of};
