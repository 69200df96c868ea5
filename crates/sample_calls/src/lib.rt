//! Callers of the libraries of this repository, one or two for each subject: how a program of one's own uses them.
//! The page docs/CALLING.md shows them.
#![tactic(auto)]

mod audits;
mod books;
mod costs;
mod files;
mod fliers;
mod flights_table;
mod made_books;
mod printing;
mod routes;
mod texts;

pub use audits::{first_broken, kept_in_text};
pub use books::{book_of_texts, why_refused};
pub use costs::{cost_if_legal, leg_cost};
pub use files::{NoPlan, Saved, plan_of_file, save_report};
pub use fliers::{may_swap, who_may_fly};
pub use flights_table::{FLIGHT_LIMIT, Flight, read_flights};
pub use made_books::{plain_flight, with_aircraft};
pub use printing::{print_audit, print_least_plan};
pub use routes::{is_flyable, legal_front};
pub use texts::{delayed, ground_line};
