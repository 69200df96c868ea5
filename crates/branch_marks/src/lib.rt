//! What branching decides: facts about who flies what and what comes after what, what they leave open, what follows
//! from them, and the bounds and proof trees that stand on them.
#![tactic(auto)]

mod alive_rows;
mod bit_rows;
mod bound;
mod carriers;
mod event;
mod fact;
mod fact_rows;
pub mod laws;
mod marks;
mod named;
mod naming;
mod row;
mod ties;
mod trail;
mod tree_log;

pub use bound::{bound_below, bound_from, passes};
pub use event::Event;
pub use fact::{Fact, Pair};
pub use marks::{Added, Marks};
pub use named::Named;
pub use row::Row;
pub use tree_log::{LogFail, MemTree, NoLog, TreeLog};
