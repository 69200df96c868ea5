//! A shortage's file: what was printed where it was asked why no plan is legal, read again, its activities by number.
#![tactic(auto)]

mod book_ids;
mod pieces;
mod shortage_text;
mod told;

pub use shortage_text::read_shortage;
pub use told::ToldShortage;
