//! Curfews: windows of local minutes, for starts or for landings, of some types or of all.

use super::{Case, Run, USUAL, each_ends_so, each_run_ends_so};
use small_texts::{
    CHEAP_AND_DEAR, DEAR_TYPE, FLEET, NIGHT, ONE_AT_ARLANDA, RULES, THERE, TIMETABLE,
};
use std::test::Fail;

#[test]
fn curfews_are_kept(rt: HostRuntime) -> Result<(), Fail> {
    each_ends_so(
        &rt,
        rt.alloc(),
        RULES,
        &[WINDOWS, NIGHTS, DAY_BEFORE, ON_THE_GROUND],
    )
}

// F1 starts at ARN at 07:00 and lands at OSL at 08:00, both local.
const WINDOWS: &[Case<'_>] = &[
    // of starts: from its first minute on, and up to its end
    (
        THERE,
        ONE_AT_ARLANDA,
        "[[curfew]]\nairport = \"ARN\"\nfrom = \"07:00\"\nto = \"08:00\"\ntypes = []\nstart = true\nlanding = false\n",
        1,
        "infeasible\n",
    ),
    (
        THERE,
        ONE_AT_ARLANDA,
        "[[curfew]]\nairport = \"ARN\"\nfrom = \"07:01\"\nto = \"08:00\"\ntypes = []\nstart = true\nlanding = false\n",
        0,
        "optimal 60\nA1: F1\n",
    ),
    (
        THERE,
        ONE_AT_ARLANDA,
        "[[curfew]]\nairport = \"ARN\"\nfrom = \"06:00\"\nto = \"07:00\"\ntypes = []\nstart = true\nlanding = false\n",
        0,
        "optimal 60\nA1: F1\n",
    ),
    // of landings
    (
        THERE,
        ONE_AT_ARLANDA,
        "[[curfew]]\nairport = \"OSL\"\nfrom = \"08:00\"\nto = \"08:01\"\ntypes = []\nstart = false\nlanding = true\n",
        1,
        "infeasible\n",
    ),
    (
        THERE,
        ONE_AT_ARLANDA,
        "[[curfew]]\nairport = \"OSL\"\nfrom = \"08:00\"\nto = \"08:01\"\ntypes = []\nstart = true\nlanding = false\n",
        0,
        "optimal 60\nA1: F1\n",
    ),
    // of the other airport
    (
        THERE,
        ONE_AT_ARLANDA,
        "[[curfew]]\nairport = \"ARN\"\nfrom = \"07:00\"\nto = \"09:00\"\ntypes = []\nstart = false\nlanding = true\n",
        0,
        "optimal 60\nA1: F1\n",
    ),
    // over midnight
    (
        THERE,
        ONE_AT_ARLANDA,
        "[[curfew]]\nairport = \"ARN\"\nfrom = \"22:00\"\nto = \"07:01\"\ntypes = []\nstart = true\nlanding = true\n",
        1,
        "infeasible\n",
    ),
    (
        THERE,
        ONE_AT_ARLANDA,
        "[[curfew]]\nairport = \"ARN\"\nfrom = \"22:00\"\nto = \"07:00\"\ntypes = []\nstart = true\nlanding = true\n",
        0,
        "optimal 60\nA1: F1\n",
    ),
    // empty
    (
        THERE,
        ONE_AT_ARLANDA,
        "[[curfew]]\nairport = \"ARN\"\nfrom = \"07:00\"\nto = \"07:00\"\ntypes = []\nstart = true\nlanding = true\n",
        0,
        "optimal 60\nA1: F1\n",
    ),
];

// An aircraft that is in Oslo from midnight on.
const AT_OSLO: &str = "A1,P,OSL,2025-03-03T00:00,0,,,\n";

// Landings at Arlanda from 23:00 to 06:00 local, an hour before and after midnight by the clock of the tables.
const NIGHTS: &[Case<'_>] = &[
    (
        "F1,flight,OSL,ARN,2025-03-03T20:59,2025-03-03T21:59,,,,\n",
        AT_OSLO,
        NIGHT,
        0,
        "optimal 60\nA1: F1\n",
    ),
    (
        "F1,flight,OSL,ARN,2025-03-03T21:00,2025-03-03T22:00,,,,\n",
        AT_OSLO,
        NIGHT,
        1,
        "infeasible\n",
    ),
    (
        "F1,flight,OSL,ARN,2025-03-03T03:59,2025-03-03T04:59,,,,\n",
        AT_OSLO,
        NIGHT,
        1,
        "infeasible\n",
    ),
    (
        "F1,flight,OSL,ARN,2025-03-03T04:00,2025-03-03T05:00,,,,\n",
        AT_OSLO,
        NIGHT,
        0,
        "optimal 60\nA1: F1\n",
    ),
];

// The usual rules, with the clocks of Sweden at Arlanda.
const SUMMER_TIME: &str = "[[type]]\nname = \"P\"\nrate = 1\nturn = 30\n\
[[airport]]\nname = \"ARN\"\nzone = \"CET-1CEST,M3.5.0,M10.5.0/3\"\nturn = 20\n\
[[airport]]\nname = \"OSL\"\noffset = 60\nturn = 20\n";

// The clocks are put forward on 30 March: the night before begins at 22:00 UTC, ends at 4:00, and the next begins at 21:00.
#[test]
fn curfews_follow_the_clocks(rt: HostRuntime) -> Result<(), Fail> {
    each_ends_so(&rt, rt.alloc(), SUMMER_TIME, &[CLOCKS])
}

const CLOCKS: &[Case<'_>] = &[
    (
        "F1,flight,OSL,ARN,2025-03-29T20:59,2025-03-29T21:59,,,,\n",
        AT_OSLO,
        NIGHT,
        0,
        "optimal 60\nA1: F1\n",
    ),
    (
        "F1,flight,OSL,ARN,2025-03-29T21:00,2025-03-29T22:00,,,,\n",
        AT_OSLO,
        NIGHT,
        1,
        "infeasible\n",
    ),
    (
        "F1,flight,OSL,ARN,2025-03-30T02:59,2025-03-30T03:59,,,,\n",
        AT_OSLO,
        NIGHT,
        1,
        "infeasible\n",
    ),
    (
        "F1,flight,OSL,ARN,2025-03-30T03:00,2025-03-30T04:00,,,,\n",
        AT_OSLO,
        NIGHT,
        0,
        "optimal 60\nA1: F1\n",
    ),
    (
        "F1,flight,OSL,ARN,2025-03-30T19:59,2025-03-30T20:59,,,,\n",
        AT_OSLO,
        NIGHT,
        0,
        "optimal 60\nA1: F1\n",
    ),
    (
        "F1,flight,OSL,ARN,2025-03-30T20:00,2025-03-30T21:00,,,,\n",
        AT_OSLO,
        NIGHT,
        1,
        "infeasible\n",
    ),
];

// A flight, and two aircraft of which the second has another type.
const EITHER: Run<'_> = Run {
    timetable: &[TIMETABLE, THERE],
    fleet: &[FLEET, CHEAP_AND_DEAR],
    ..USUAL
};

// A curfew of starts, up to its types, and behind them.
const OF_TYPES: &str = "[[curfew]]\nairport = \"ARN\"\nfrom = \"06:00\"\nto = \"08:00\"\ntypes = [";

const OF_STARTS: &str = "]\nstart = true\nlanding = false\n";

// A curfew may be one of a type. The other type may start.
#[test]
fn a_curfew_may_name_types(rt: HostRuntime) -> Result<(), Fail> {
    let runs: &[Run<'_>] = &[
        Run {
            rules: &[RULES, DEAR_TYPE, OF_TYPES, "\"P\"", OF_STARTS],
            printed: "optimal 120\nA1:\nA2: F1\n",
            ..EITHER
        },
        Run {
            rules: &[RULES, DEAR_TYPE, OF_TYPES, "\"Q\"", OF_STARTS],
            printed: "optimal 60\nA1: F1\nA2:\n",
            ..EITHER
        },
        Run {
            rules: &[RULES, DEAR_TYPE, OF_TYPES, "\"P\", \"Q\"", OF_STARTS],
            status: 1,
            printed: "infeasible\n",
            ..EITHER
        },
    ];
    each_run_ends_so(&rt, rt.alloc(), runs)
}

// An aircraft in Bergen, and the airport with a curfew late in the evening.
const AT_BERGEN: &str = "A1,P,BGO,2025-03-02T00:00,0,,,\n";

const BERGEN: &str = "[[airport]]\nname = \"BGO\"\noffset = -60\nturn = 20\n\
[[curfew]]\nairport = \"BGO\"\nfrom = \"23:00\"\nto = \"23:59\"\ntypes = []\nstart = true\nlanding = false\n";

// An hour behind, half past midnight is half past eleven of the evening before.
const DAY_BEFORE: &[Case<'_>] = &[
    (
        "F1,flight,BGO,OSL,2025-03-03T00:30,2025-03-03T01:30,,,,\n",
        AT_BERGEN,
        BERGEN,
        1,
        "infeasible\n",
    ),
    (
        "F1,flight,BGO,OSL,2025-03-03T01:00,2025-03-03T02:00,,,,\n",
        AT_BERGEN,
        BERGEN,
        0,
        "optimal 60\nA1: F1\n",
    ),
];

// Time on the ground has no curfew.
const ON_THE_GROUND: &[Case<'_>] = &[(
    "G1,ground,ARN,ARN,2025-03-03T06:00,2025-03-03T07:00,,,,\n",
    ONE_AT_ARLANDA,
    "[[curfew]]\nairport = \"ARN\"\nfrom = \"00:00\"\nto = \"23:59\"\ntypes = []\nstart = true\nlanding = true\n",
    0,
    "optimal 0\nA1: G1\n",
)];
