//! Why no plan of a book is legal: shortages that can be told in a line. Each is sought by counting and matching, and counts only
//! where exact pricing finds it short.
#![tactic(auto)]

mod carriers;
mod finder;
mod found;
mod judging;
mod shrinking;

pub use finder::find_shortage;
pub use found::{Cause, FoundShortage};
