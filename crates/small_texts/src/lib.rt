//! Small tables and plans as a planner types them, files of them in memory, and what a run over them printed.
//! Only the tests of whole runs call it. It has none itself, so that it is proved once, for all of them.
#![tactic(auto)]

mod files;
mod names;
mod seen;
mod stories;
mod tables;
mod week;

pub use files::{
    Typed, file_of, files_holding, files_of, files_with, table_files, text_of, words_of,
};
pub use names::{MISPLACED, MISSING};
pub use seen::Seen;
pub use stories::{
    AT_ONCE, CHEAP_AND_DEAR, CHECK_IN_OSLO, DAILY_CHECK, FOUR_FLIGHTS, FOUR_TOO_CLOSE, LONGER_TURN,
    NIGHT, ONE_EACH, THREE_LANDINGS, TWO_HOURS, WITH_A_STOP,
};
pub use tables::{
    BROKEN, DEAR_TYPE, FLEET, LEGAL, NO_PLAN, ONE_AT_ARLANDA, RULES, THERE, THERE_AND_BACK,
    TIMETABLE, TWO_AT_ARLANDA,
};
pub use week::{WEEK_AIRCRAFT, WEEK_RULES, week_records};
