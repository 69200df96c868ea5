//! Trials of whole runs: of the planner, the checker and the viewer, over files and a sink in memory, on tables and plans as a
//! planner types them. It has nothing but tests.
#![tactic(auto)]

#[cfg(test)]
mod tests;
