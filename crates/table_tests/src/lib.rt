//! Trials of the readers of tables: each rule for a row at its edge, each refusal with its place, and what a run asks of files
//! and sinks. It has nothing but tests.
#![tactic(auto)]

#[cfg(test)]
mod tests;
