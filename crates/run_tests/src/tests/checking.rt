//! Runs of the checker.

mod certificates;
mod damaged;
mod faults;
mod fixtures;
mod memory;
mod names;
mod plan_files;
mod verdicts;
mod week;
mod words;
