//! Rules of local time: the same offset all the year, or two offsets between which it changes on two days of each year.

/// A day of the year on which the clocks change, and the time of it.
#[derive(Clone, Copy, PartialEq, Eq, Debug)]
pub struct DayRule {
    /// The month, 1 to 12.
    pub month: u8,
    /// Which of the weekday's days in that month: 1 to 4 the first to the fourth, and 5 the last.
    pub week: u8,
    /// The weekday, from 0 for Sunday to 6.
    pub weekday: u8,
    /// The time by the clocks that are in force until then, in minutes since the day began.
    pub time: i64,
}

/// A rule of local time. Offsets are the minutes to add to UTC.
#[derive(Clone, Copy, PartialEq, Eq, Debug)]
pub enum ZoneRule {
    /// The same offset all the year.
    Fixed(i64),
    /// Standard time, which each year becomes daylight time by the first rule, and is standard time again by the second.
    Daylight {
        standard: i64,
        daylight: i64,
        first: DayRule,
        second: DayRule,
    },
}
