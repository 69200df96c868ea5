//! The branches of a tree that are open, for whoever goes through one depth first: the search that makes it, and the checker that
//! reads it.
#![tactic(auto)]

mod branches;

pub use branches::{Branches, Owed};
