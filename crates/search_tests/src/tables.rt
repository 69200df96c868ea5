//! The texts of three tables.

use std::alloc::Global;

/// The timetable, the fleet and the rules, as a planner types them.
#[derive(Drop)]
pub struct Tables {
    pub timetable: String,
    pub fleet: String,
    pub rules: String,
}

impl Tables {
    /// Texts in which nothing stands yet.
    pub fn new(alloc: Global) -> Tables {
        Tables {
            timetable: String::new(alloc),
            fleet: String::new(alloc),
            rules: String::new(alloc),
        }
    }
}
