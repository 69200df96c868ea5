//! How a moment is written: in minutes from the morning of 2025-03-03 on.

const DIGITS: [&str; 10] = ["0", "1", "2", "3", "4", "5", "6", "7", "8", "9"];

// The last digit of a number.
fn digit(number: u32) -> &'static str {
    DIGITS[(number % 10) as usize]
}

/// The last two digits of a number.
pub fn two(number: u32) -> [&'static str; 2] {
    [digit(number / 10), digit(number)]
}

/// A comma, and the stamp of the moment so many minutes after 2025-03-03T00:00, within the days that its month has, in parts.
pub fn stamp(minutes: u32) -> [&'static str; 9] {
    let (day, hour, minute) = (minutes / 1440 % 28 + 3, minutes / 60 % 24, minutes % 60);
    [
        ",2025-03-",
        digit(day / 10),
        digit(day),
        "T",
        digit(hour / 10),
        digit(hour),
        ":",
        digit(minute / 10),
        digit(minute),
    ]
}
