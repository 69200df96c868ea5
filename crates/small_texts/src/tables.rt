//! The texts of small tables. Each is a piece of a file: records come after their header, and entries after other entries.

use crate::files::Typed;

/// The header of a timetable.
pub const TIMETABLE: &str = "id,kind,from,to,start,end,types,tags,tail,resets\n";

/// The header of a fleet.
pub const FLEET: &str = "tail,type,at,ready,fixed,tags,avoid,carry\n";

/// One type and two airports, an hour ahead of UTC. An entry of any kind may follow.
pub const RULES: &str = "[[type]]\nname = \"P\"\nrate = 1\nturn = 30\n\
[[airport]]\nname = \"ARN\"\noffset = 60\nturn = 20\n\
[[airport]]\nname = \"OSL\"\noffset = 60\nturn = 20\n";

/// A second type, twice as dear.
pub const DEAR_TYPE: &str = "[[type]]\nname = \"Q\"\nrate = 2\nturn = 30\n";

/// A flight to Oslo.
pub const THERE: &str = "F1,flight,ARN,OSL,2025-03-03T06:00,2025-03-03T07:00,,,,\n";

/// A flight to Oslo and one back, an hour each.
pub const THERE_AND_BACK: &str = "F1,flight,ARN,OSL,2025-03-03T06:00,2025-03-03T07:00,,,,\n\
F2,flight,OSL,ARN,2025-03-03T07:30,2025-03-03T08:30,,,,\n";

/// An aircraft.
pub const ONE_AT_ARLANDA: &str = "A1,P,ARN,2025-03-03T05:00,0,,,\n";

/// Two aircraft that are alike.
pub const TWO_AT_ARLANDA: &str = "A1,P,ARN,2025-03-03T05:00,0,,,\nA2,P,ARN,2025-03-03T05:00,0,,,\n";

/// To Oslo and back by one aircraft, and the plan.
pub const LEGAL: Typed<'_> = Typed {
    timetable: &[TIMETABLE, THERE_AND_BACK],
    fleet: &[FLEET, ONE_AT_ARLANDA],
    rules: &[RULES],
    judged: &["optimal 120\nA1: F1 F2\n"],
};

/// The same with a plan that breaks three rules.
pub const BROKEN: Typed<'_> = Typed {
    judged: &["optimal 120\nA1: F1 F9 F1\n"],
    ..LEGAL
};

/// The same with a file that holds no plan.
pub const NO_PLAN: Typed<'_> = Typed {
    judged: &["infeasible\n"],
    ..LEGAL
};
