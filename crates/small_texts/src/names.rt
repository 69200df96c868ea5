//! Names of a timetable, a fleet, rules and a plan, where a program is given the files `t`, `f`, `r` and `p`.

/// One of the files isn't there. Another may be in the wrong place.
pub const MISSING: [(&str, &str, &str, &str); 7] = [
    ("none", "f", "r", "p"),
    ("t", "none", "r", "p"),
    ("t", "f", "none", "p"),
    ("t", "f", "r", "none"),
    ("p", "f", "r", "none"),
    ("t", "p", "r", "none"),
    ("t", "f", "p", "none"),
];

/// One of the files is named in the place of another, and this is printed.
pub const MISPLACED: [(&str, &str, &str, &str, &str); 4] = [
    ("f", "t", "r", "p", "refused 3 timetable 1\n"),
    ("t", "r", "f", "p", "refused 3 fleet 1\n"),
    ("t", "f", "p", "r", "refused 13 rules 0\n"),
    ("t", "f", "r", "r", "refused 3 plan 1\n"),
];
