//! The judging of certificates: which are accepted, what an accepted one shows, and the first failure of any other.
#![tactic(auto)]

mod bound;
mod buckets;
mod checker;
mod claim;
mod cover;
mod ends;
mod kept_floors;
mod label;
pub mod laws;
mod leaf;
mod leaf_pricer;
mod lean;
mod leaves;
mod means;
mod node_tests;
mod nodes;
mod numbers;
mod state;
mod text;
mod verdict;
mod ways;

pub use checker::{Checker, Taken, judge};
pub use verdict::{Reason, Verdict, reason_name};
