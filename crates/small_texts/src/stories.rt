//! Flights, aircraft and rules whose story more than one program tells: the planner plans them, and the checker judges plans
//! and certificates of them.

/// A flight to Oslo, and one at the same time that takes an hour longer.
pub const AT_ONCE: &str = "F1,flight,ARN,OSL,2025-03-03T06:00,2025-03-03T07:00,,,,\n\
F2,flight,ARN,OSL,2025-03-03T06:00,2025-03-03T08:00,,,,\n";

/// Two aircraft, of which the second has the dear type.
pub const CHEAP_AND_DEAR: &str = "A1,P,ARN,2025-03-03T05:00,0,,,\nA2,Q,ARN,2025-03-03T05:00,0,,,\n";

/// A flight for each of two aircraft that are alike. The first in the table is the second by its id.
pub const ONE_EACH: &str = "FB,flight,ARN,OSL,2025-03-03T06:00,2025-03-03T07:00,,,A1,\n\
FA,flight,ARN,OSL,2025-03-03T06:00,2025-03-03T07:00,,,A2,\n";

/// The usual airports, and a type whose turn is a minute longer.
pub const LONGER_TURN: &str = "[[type]]\nname = \"P\"\nrate = 1\nturn = 31\n\
[[airport]]\nname = \"ARN\"\noffset = 60\nturn = 20\n\
[[airport]]\nname = \"OSL\"\noffset = 60\nturn = 20\n";

/// Twice to Oslo and back, with an hour at Arlanda between.
pub const FOUR_FLIGHTS: &str = "F1,flight,ARN,OSL,2025-03-03T06:00,2025-03-03T07:00,,,,\n\
F2,flight,OSL,ARN,2025-03-03T07:30,2025-03-03T08:30,,,,\n\
F3,flight,ARN,OSL,2025-03-03T09:30,2025-03-03T10:30,,,,\n\
F4,flight,OSL,ARN,2025-03-03T11:00,2025-03-03T12:00,,,,\n";

/// The same with a minute less at Arlanda.
pub const FOUR_TOO_CLOSE: &str = "F1,flight,ARN,OSL,2025-03-03T06:00,2025-03-03T07:00,,,,\n\
F2,flight,OSL,ARN,2025-03-03T07:30,2025-03-03T08:30,,,,\n\
F3,flight,ARN,OSL,2025-03-03T09:29,2025-03-03T10:29,,,,\n\
F4,flight,OSL,ARN,2025-03-03T11:00,2025-03-03T12:00,,,,\n";

/// A counter of flown minutes of at most two hours, which an hour at Arlanda resets.
pub const TWO_HOURS: &str =
    "[[counter]]\nname = \"fh\"\nkind = \"minutes\"\nlimit = 120\nbases = [\"ARN\"]\nstop = 60\n";

/// Two flights away from Arlanda and home, with G1 there between them.
pub const WITH_A_STOP: &str = "F1,flight,ARN,OSL,2025-03-03T06:00,2025-03-03T07:00,,,A1,\n\
F2,flight,OSL,ARN,2025-03-03T07:30,2025-03-03T08:30,,,A1,\n\
G1,ground,ARN,ARN,2025-03-03T09:00,2025-03-03T09:45,,,,\n\
F5,flight,ARN,OSL,2025-03-03T10:00,2025-03-03T11:00,,,A1,\n\
F6,flight,OSL,ARN,2025-03-03T11:30,2025-03-03T12:30,,,A1,\n";

/// At most three landings between two waits of an hour at Arlanda; a wait of an hour is dear.
pub const THREE_LANDINGS: &str =
    "[[counter]]\nname = \"ldg\"\nkind = \"landings\"\nlimit = 3\nbases = [\"ARN\"]\nstop = 60\n\
[[band]]\nupto = 59\ncost = 0\n[[band]]\nupto = 10000000\ncost = 500\n";

/// A check in Oslo, and a flight home behind it.
pub const CHECK_IN_OSLO: &str = "G1,ground,OSL,OSL,2025-03-03T10:00,2025-03-03T12:00,,,A1,chk\n\
F1,flight,OSL,ARN,2025-03-03T12:30,2025-03-03T13:30,,,,\n";

/// At most a day since the last check, or since an hour at Arlanda.
pub const DAILY_CHECK: &str =
    "[[counter]]\nname = \"chk\"\nkind = \"days\"\nlimit = 1\nbases = [\"ARN\"]\nstop = 60\n";

/// No landing at Arlanda by night, from 23:00 to 06:00 there.
pub const NIGHT: &str =
    "[[curfew]]\nairport = \"ARN\"\nfrom = \"23:00\"\nto = \"06:00\"\ntypes = []\nstart = false\nlanding = true\n";
