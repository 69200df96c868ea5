//! Runs of the viewer.

mod faults;
mod fixtures;
mod moved;
mod pictures;
mod shortages;
mod strips;
mod words;
