//! Runs over files and a sink in memory, on tables and plans as a planner types them.

mod checking;
mod planning;
mod runs;
mod viewing;
