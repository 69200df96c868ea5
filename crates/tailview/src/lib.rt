//! The viewer: draws a plan over a timetable, a fleet and rules, with what it costs or which rules it breaks, or a shortage that
//! leaves no plan. The program `tailview_program` calls it.
#![tactic(auto)]

mod answer;
mod before;
mod run;
mod shortage_run;
mod shortage_texts;
mod shortage_words;
mod shown;
mod texts;
mod usage;
mod words;

pub use run::view_run;
