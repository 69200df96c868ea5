//! Three tables as a planner types them, and the book that they make.

use crate::tests::shown::with_names;
use book_maker::read_book;
use std::alloc::{AllocError, Global};
use std::test::Fail;
use tail_text::{Refusal, Stopped, Table};

const TIMETABLE: &str = "id,kind,from,to,start,end,types,tags,tail,resets
FB,flight,OSL,ARN,2025-03-01T08:00,2025-03-01T09:00,B738 A320,etops,SE-ROA,
FA,flight,ARN,CPH,2025-03-01T08:00,2025-03-01T09:30,A320,,,
CK,ground,CPH,CPH,2025-03-01T12:00,2025-03-01T20:00,,hangar etops,LN-ABC,acheck fh
G9,flight,OSL,CPH,2025-03-01T07:00,2025-03-01T07:50,,,,
";

const FLEET: &str = "tail,type,at,ready,fixed,tags,avoid,carry
SE-ROB,B738,CPH,2025-03-01T00:00,0,wifi etops,ARN OSL,acheck=1000 fh=5
LN-ABC,A320,OSL,2025-03-01T05:30,250,,,fh=7
SE-ROA,B738,ARN,2025-03-01T05:30,0,etops,CPH,
";

const RULES: &str = "
[[type]]
name = \"A320\"
rate = 2
turn = 35
[[type]]
name = \"B738\"
rate = 3
turn = 40
[[airport]]
name = \"ARN\"
offset = 60
turn = 20
[[airport]]
name = \"CPH\"
offset = 60
turn = 25
[[airport]]
name = \"OSL\"
offset = 60
turn = 30
[[curfew]]
airport = \"OSL\"
from = \"23:00\"
to = \"05:30\"
types = [\"B738\"]
start = true
landing = false
[[counter]]
name = \"fh\"
kind = \"minutes\"
limit = 600
bases = [\"OSL\", \"ARN\"]
stop = 480
[[counter]]
name = \"acheck\"
kind = \"days\"
limit = 6
bases = []
stop = 1
[[band]]
upto = 2880
cost = 5
";

// A text of a table, and another in its place.
type Change = (Table, &'static str, &'static str);

// The code, the table and the place of a refusal; none where the tables are a book.
type Told = Option<(u8, Table, u64)>;

fn told(alloc: Global, timetable: &str, fleet: &str, rules: &str) -> Told {
    match read_book(
        alloc,
        timetable.as_bytes(),
        fleet.as_bytes(),
        rules.as_bytes(),
    ) {
        Err(Stopped::Refused(Refusal { code, table, place })) => Some((code, table, place)),
        Err(Stopped::Memory) => Some((0, Table::Plan, 0)),
        Ok(_) => None,
    }
}

// The text of a table with its changes, one after the other.
fn changed(
    alloc: Global,
    table: Table,
    usual: &str,
    changes: &[Change],
) -> Result<String, AllocError> {
    let mut text = usual.to_string(alloc)?;
    for &(of, old, new) in changes {
        if of == table {
            text = text.replacen(alloc, old, new, 1)?;
        }
    }
    Ok(text)
}

// Whether the tables with these changes are told so.
fn is_told(alloc: Global, changes: &[Change], want: Told) -> Result<bool, AllocError> {
    let timetable = changed(alloc, Table::Timetable, TIMETABLE, changes)?;
    let fleet = changed(alloc, Table::Fleet, FLEET, changes)?;
    let rules = changed(alloc, Table::Rules, RULES, changes)?;
    Ok(told(alloc, &timetable, &fleet, &rules) == want)
}

// Changes, and what the tables are told with them.
const CHANGED: &[(&[Change], Told)] = &[
    // An unknown name and a repeated one in each position where one can stand, each at its place.
    (
        &[(Table::Rules, "\"B738\"", "\"A320\"")],
        Some((11, Table::Rules, 2)),
    ),
    (
        &[(Table::Rules, "\"OSL\"", "\"ARN\"")],
        Some((11, Table::Rules, 5)),
    ),
    (
        &[(Table::Rules, "airport = \"OSL\"", "airport = \"BGO\"")],
        Some((12, Table::Rules, 6)),
    ),
    (
        &[(Table::Rules, "[\"B738\"]", "[\"B738\", \"B77W\"]")],
        Some((12, Table::Rules, 6)),
    ),
    (
        &[(Table::Rules, "\"acheck\"", "\"fh\"")],
        Some((11, Table::Rules, 8)),
    ),
    (
        &[(Table::Rules, "\"OSL\", \"ARN\"]", "\"OSL\", \"BGO\"]")],
        Some((12, Table::Rules, 7)),
    ),
    (
        &[(Table::Fleet, "LN-ABC", "SE-ROB")],
        Some((11, Table::Fleet, 3)),
    ),
    (
        &[(Table::Fleet, "SE-ROA,B738", "SE-ROA,B77W")],
        Some((12, Table::Fleet, 4)),
    ),
    (
        &[(Table::Fleet, "B738,CPH", "B738,BGO")],
        Some((12, Table::Fleet, 2)),
    ),
    (
        &[(Table::Fleet, "ARN OSL", "ARN BGO")],
        Some((12, Table::Fleet, 2)),
    ),
    (
        &[(Table::Fleet, "fh=7", "ldg=7")],
        Some((12, Table::Fleet, 3)),
    ),
    (
        &[(Table::Fleet, "fh=5", "acheck=5")],
        Some((11, Table::Fleet, 2)),
    ),
    (
        &[(Table::Timetable, "G9", "FB")],
        Some((11, Table::Timetable, 5)),
    ),
    (
        &[(Table::Timetable, "OSL,ARN", "BGO,ARN")],
        Some((12, Table::Timetable, 2)),
    ),
    (
        &[(Table::Timetable, "ARN,CPH", "ARN,BGO")],
        Some((12, Table::Timetable, 3)),
    ),
    (
        &[(Table::Timetable, "B738 A320", "B738 B77W")],
        Some((12, Table::Timetable, 2)),
    ),
    (
        &[(Table::Timetable, "LN-ABC", "LN-ABD")],
        Some((12, Table::Timetable, 4)),
    ),
    (
        &[(Table::Timetable, "acheck fh", "acheck ldg")],
        Some((12, Table::Timetable, 4)),
    ),
    // Names that are shared between kinds, repeated in a list or new as tags are no faults.
    (&[(Table::Timetable, "FA", "A320")], None),
    (&[(Table::Fleet, "SE-ROB", "OSL")], None),
    (&[(Table::Timetable, "B738 A320", "B738 B738")], None),
    (&[(Table::Timetable, "hangar", "never-seen")], None),
    (&[(Table::Timetable, "acheck fh", "fh fh")], None),
    (&[(Table::Fleet, "ARN OSL", "ARN ARN")], None),
    (
        &[(Table::Rules, "\"OSL\", \"ARN\"]", "\"OSL\", \"OSL\"]")],
        None,
    ),
    (&[(Table::Fleet, "acheck=1000 fh=5", "")], None),
    // A counter that is called as something of another kind, in all three tables.
    (
        &[
            (Table::Timetable, "acheck", "acheck"),
            (Table::Fleet, "acheck", "acheck"),
            (Table::Rules, "acheck", "acheck"),
        ],
        None,
    ),
    (
        &[
            (Table::Timetable, "acheck", "OSL"),
            (Table::Fleet, "acheck", "OSL"),
            (Table::Rules, "acheck", "OSL"),
        ],
        None,
    ),
    (
        &[
            (Table::Timetable, "acheck", "A320"),
            (Table::Fleet, "acheck", "A320"),
            (Table::Rules, "acheck", "A320"),
        ],
        None,
    ),
    (
        &[
            (Table::Timetable, "acheck", "LN-ABC"),
            (Table::Fleet, "acheck", "LN-ABC"),
            (Table::Rules, "acheck", "LN-ABC"),
        ],
        None,
    ),
    (
        &[
            (Table::Timetable, "acheck", "FA"),
            (Table::Fleet, "acheck", "FA"),
            (Table::Rules, "acheck", "FA"),
        ],
        None,
    ),
    // A fault of one table by itself comes before what all three say together: the timetable, the fleet, and then the rules.
    // Of two faults of that kind the first is refused: the rules before the fleet, the fleet before the timetable, entries
    // in their order, and in an entry its own name before those that it uses, from left to right.
    (
        &[
            (Table::Timetable, TIMETABLE, ""),
            (Table::Fleet, FLEET, ""),
            (Table::Rules, RULES, "[[type"),
        ],
        Some((3, Table::Timetable, 1)),
    ),
    (
        &[(Table::Fleet, FLEET, ""), (Table::Rules, RULES, "[[type")],
        Some((3, Table::Fleet, 1)),
    ),
    (
        &[
            (Table::Fleet, "LN-ABC", "SE-ROB"),
            (Table::Rules, RULES, "[[type"),
        ],
        Some((13, Table::Rules, 0)),
    ),
    (
        &[(Table::Fleet, "LN-ABC", "SE-ROB")],
        Some((11, Table::Fleet, 3)),
    ),
    (
        &[
            (Table::Timetable, "G9", "FB"),
            (Table::Fleet, "LN-ABC", "SE-ROB"),
        ],
        Some((11, Table::Fleet, 3)),
    ),
    (
        &[(Table::Timetable, "G9", "FB")],
        Some((11, Table::Timetable, 5)),
    ),
    (
        &[
            (Table::Timetable, "G9", "FB"),
            (Table::Fleet, "LN-ABC", "SE-ROB"),
            (Table::Rules, "airport = \"OSL\"", "airport = \"BGO\""),
        ],
        Some((12, Table::Rules, 6)),
    ),
    // An aircraft's name before its type, its type before its airport, its airports before its carry.
    (
        &[(Table::Fleet, "LN-ABC,A320", "SE-ROB,B77W")],
        Some((11, Table::Fleet, 3)),
    ),
    (
        &[(Table::Fleet, "ARN OSL,acheck", "ARN BGO,ldg")],
        Some((12, Table::Fleet, 2)),
    ),
    // An unknown counter of a carry before a repeated one.
    (
        &[(Table::Fleet, "acheck=1000 fh=5", "ldg=1 fh=2 fh=3")],
        Some((12, Table::Fleet, 2)),
    ),
    (
        &[(Table::Fleet, "acheck=1000 fh=5", "fh=2 fh=3 ldg=1")],
        Some((11, Table::Fleet, 2)),
    ),
    // An id before its airports, and an earlier record before a later one.
    (
        &[(Table::Timetable, "FA,flight,ARN", "FB,flight,BGO")],
        Some((11, Table::Timetable, 3)),
    ),
    (
        &[(
            Table::Timetable,
            "OSL,ARN,2025-03-01T08:00,2025-03-01T09:00,B738 A320,etops,SE-ROA",
            "OSL,BGO,2025-03-01T08:00,2025-03-01T09:00,B77W,etops,LN-ABD",
        )],
        Some((12, Table::Timetable, 2)),
    ),
    // A curfew's airport before its types; a type before an airport.
    (
        &[(
            Table::Rules,
            "airport = \"OSL\"\nfrom = \"23:00\"\nto = \"05:30\"\ntypes = [\"B738\"]",
            "airport = \"BGO\"\nfrom = \"23:00\"\nto = \"05:30\"\ntypes = [\"B77W\"]",
        )],
        Some((12, Table::Rules, 6)),
    ),
    // Of each fault and the next one, in the order in which they are looked at, the first is refused, and the last by itself.
    (
        &[
            (Table::Rules, "name = \"OSL\"", "name = \"ARN\""),
            (Table::Rules, "name = \"B738\"", "name = \"A320\""),
        ],
        Some((11, Table::Rules, 2)),
    ),
    (
        &[
            (Table::Rules, "airport = \"OSL\"", "airport = \"BGO\""),
            (Table::Rules, "name = \"OSL\"", "name = \"ARN\""),
        ],
        Some((11, Table::Rules, 5)),
    ),
    (
        &[
            (Table::Rules, "[\"B738\"]", "[\"B738\", \"B77W\"]"),
            (Table::Rules, "airport = \"OSL\"", "airport = \"BGO\""),
        ],
        Some((12, Table::Rules, 6)),
    ),
    (
        &[
            (Table::Rules, "\"OSL\", \"ARN\"]", "\"OSL\", \"BGO\"]"),
            (Table::Rules, "[\"B738\"]", "[\"B738\", \"B77W\"]"),
        ],
        Some((12, Table::Rules, 6)),
    ),
    (
        &[
            (Table::Rules, "name = \"acheck\"", "name = \"fh\""),
            (Table::Rules, "\"OSL\", \"ARN\"]", "\"OSL\", \"BGO\"]"),
        ],
        Some((12, Table::Rules, 7)),
    ),
    (
        &[
            (Table::Fleet, "B738,CPH", "B738,BGO"),
            (Table::Rules, "name = \"acheck\"", "name = \"fh\""),
        ],
        Some((11, Table::Rules, 8)),
    ),
    (
        &[
            (Table::Fleet, "ARN OSL", "ARN BGO"),
            (Table::Fleet, "B738,CPH", "B738,BGO"),
        ],
        Some((12, Table::Fleet, 2)),
    ),
    (
        &[
            (Table::Fleet, "acheck=1000", "ldg=1000"),
            (Table::Fleet, "ARN OSL", "ARN BGO"),
        ],
        Some((12, Table::Fleet, 2)),
    ),
    (
        &[
            (Table::Fleet, "LN-ABC", "SE-ROB"),
            (Table::Fleet, "acheck=1000", "ldg=1000"),
        ],
        Some((12, Table::Fleet, 2)),
    ),
    (
        &[
            (Table::Fleet, "SE-ROA,B738", "SE-ROA,B77W"),
            (Table::Fleet, "LN-ABC", "SE-ROB"),
        ],
        Some((11, Table::Fleet, 3)),
    ),
    (
        &[
            (Table::Timetable, "OSL,ARN", "BGO,ARN"),
            (Table::Fleet, "SE-ROA,B738", "SE-ROA,B77W"),
        ],
        Some((12, Table::Fleet, 4)),
    ),
    (
        &[
            (Table::Timetable, "B738 A320", "B738 B77W"),
            (Table::Timetable, "OSL,ARN", "BGO,ARN"),
        ],
        Some((12, Table::Timetable, 2)),
    ),
    (
        &[
            (Table::Timetable, "SE-ROA", "LN-ABD"),
            (Table::Timetable, "B738 A320", "B738 B77W"),
        ],
        Some((12, Table::Timetable, 2)),
    ),
    (
        &[
            (Table::Timetable, "ARN,CPH", "ARN,BGO"),
            (Table::Timetable, "SE-ROA", "LN-ABD"),
        ],
        Some((12, Table::Timetable, 2)),
    ),
    (
        &[
            (Table::Timetable, "acheck fh", "acheck ldg"),
            (Table::Timetable, "ARN,CPH", "ARN,BGO"),
        ],
        Some((12, Table::Timetable, 3)),
    ),
    (
        &[
            (Table::Timetable, "G9", "FB"),
            (Table::Timetable, "acheck fh", "acheck ldg"),
        ],
        Some((12, Table::Timetable, 4)),
    ),
];

#[test]
fn names_are_refused_at_their_places(rt: HostRuntime) {
    for &(changes, want) in CHANGED {
        assert!(rt;
            is_told(rt.alloc(), changes, want).unwrap_or(false),
            "{changes:?}"
        );
    }
}

// The names that the tables have.
const NAMES: &[&str] = &[
    "FB", "FA", "CK", "G9", "SE-ROB", "LN-ABC", "SE-ROA", "A320", "B738", "ARN", "CPH", "OSL",
    "fh", "acheck",
];

// Of two activities with one start the lesser id comes first, wherever the table has it. Aircraft stay in the order of the
// fleet, and each kind of rules in the order of its entries. Types, tags and resets are numbers: types and counters as the
// rules have them, tags as they come, the fleet first. A counter that a carry does not name begins at 0, and a limit in
// days is in minutes.
const BOOK: &str = "Ok(Book { activities: [\
    Activity { id: G9, flight: true, from: 2, to: 1, start: 29013540, end: 29013590, \
    types: [], tags: [], tail: None, resets: [] }, \
    Activity { id: FA, flight: true, from: 0, to: 1, start: 29013600, end: 29013690, \
    types: [0], tags: [], tail: None, resets: [] }, \
    Activity { id: FB, flight: true, from: 2, to: 0, start: 29013600, end: 29013660, \
    types: [1, 0], tags: [1], tail: Some(2), resets: [] }, \
    Activity { id: CK, flight: false, from: 1, to: 1, start: 29013840, end: 29014320, \
    types: [], tags: [2, 1], tail: Some(1), resets: [1, 0] }], \
    tails: [\
    Tail { name: SE-ROB, kind: 1, at: 1, ready: 29013120, fixed: 0, \
    tags: [0, 1], avoid: [0, 2], carry: [5, 1000] }, \
    Tail { name: LN-ABC, kind: 0, at: 2, ready: 29013450, fixed: 250, \
    tags: [], avoid: [], carry: [7, 0] }, \
    Tail { name: SE-ROA, kind: 1, at: 0, ready: 29013450, fixed: 0, \
    tags: [1], avoid: [1], carry: [0, 0] }], \
    rules: Rules { \
    kinds: [AircraftType { name: A320, rate: 2, turn: 35 }, \
    AircraftType { name: B738, rate: 3, turn: 40 }], \
    airports: [Airport { name: ARN, offset: 60, changes: [], turn: 20 }, \
    Airport { name: CPH, offset: 60, changes: [], turn: 25 }, Airport { name: OSL, offset: 60, changes: [], turn: 30 }], \
    curfews: [Curfew { airport: 2, from: 1380, to: 330, types: [1], starts: true, landings: false }], \
    counters: [Counter { name: fh, kind: Minutes, limit: 600, bases: [2, 0], stop: 480 }, \
    Counter { name: acheck, kind: Days, limit: 8640, bases: [], stop: 1 }], \
    bands: [Band { upto: 2880, cost: 5 }] } })";

// The book of the tables, or their refusal.
fn shown(alloc: Global) -> Result<String, AllocError> {
    let (timetable, fleet, rules) = (TIMETABLE.as_bytes(), FLEET.as_bytes(), RULES.as_bytes());
    let values = format!(in alloc; "{:?}", read_book(alloc, timetable, fleet, rules))?;
    with_names(alloc, values, NAMES)
}

#[test]
fn tables_make_a_book(rt: HostRuntime) -> Result<(), Fail> {
    let found = shown(rt.alloc())?;
    assert!(rt; found.as_str() == BOOK, "{found}");
    Ok(())
}
