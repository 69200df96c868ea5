//! Activities that may be a shortage, sought by counting and matching: an airport with too few arrivals, a crowd for some aircraft, or
//! flights that use up a counter. Nothing is promised of them: whoever takes them has them judged.
#![tactic(auto)]

mod airports;
mod bit_rows;
mod chains;
mod counters;
mod crowds;
mod groups;
mod matching;
mod suspects;

pub use airports::airport_suspect;
pub use bit_rows::BitRows;
pub use chains::chains_of;
pub use counters::{all_flights, fewest_used_up, tightest_cleared};
pub use crowds::crowd_suspect;
pub use groups::Groups;
pub use suspects::Suspect;
