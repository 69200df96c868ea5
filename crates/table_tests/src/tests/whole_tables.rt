//! Tables that are read whole: each field of each record, however the table is written, and each key of each entry.

use crate::tests::record_texts::told;
use crate::tests::rules_files::rules_told;
use crate::tests::shown::with_names;
use fleet_rules::{read_fleet, read_rules};
use std::alloc::{AllocError, Global};
use std::test::Fail;
use tail_text::{SIZE_LIMIT, Table};
use timetable_reader::read_timetable;

// What a reading is about, its table, and what is read.
type Reading = (&'static str, Table, &'static [u8], &'static str);

// The names that the tables have.
const NAMES: &[&str] = &[
    "D-1", "A320", "FRA", "etops", "wifi", "LHR", "fh", "fc", "F1", "F2", "M1", "ARN", "OSL",
    "B738", "LN-ABC", "hours", "cycles", "P", "JFK", "chk", "ldg", "c",
];

const TWO_FLIGHTS: &str = "Ok([\
    RawActivity { id: F1, flight: true, from: ARN, to: OSL, start: 29013570, end: 29013625, \
    types: [], tags: [], tail: None, resets: [] }, \
    RawActivity { id: F2, flight: true, from: OSL, to: ARN, start: 29013660, end: 29016540, \
    types: [], tags: [], tail: None, resets: [] }])";

// One table, written in several ways. The second activity lasts the two days that are allowed at most.
const WAYS: &[Reading] = &[
    (
        "lines",
        Table::Timetable,
        b"id,kind,from,to,start,end,types,tags,tail,resets\n\
          F1,flight,ARN,OSL,2025-03-01T07:30,2025-03-01T08:25,,,,\n\
          F2,flight,OSL,ARN,2025-03-01T09:00,2025-03-03T09:00,,,,\n",
        TWO_FLIGHTS,
    ),
    (
        "behind a mark",
        Table::Timetable,
        b"\xef\xbb\xbfid,kind,from,to,start,end,types,tags,tail,resets\n\
          F1,flight,ARN,OSL,2025-03-01T07:30,2025-03-01T08:25,,,,\n\
          F2,flight,OSL,ARN,2025-03-01T09:00,2025-03-03T09:00,,,,\n",
        TWO_FLIGHTS,
    ),
    (
        "an empty line",
        Table::Timetable,
        b"id,kind,from,to,start,end,types,tags,tail,resets\n\
          F1,flight,ARN,OSL,2025-03-01T07:30,2025-03-01T08:25,,,,\n\n\
          F2,flight,OSL,ARN,2025-03-01T09:00,2025-03-03T09:00,,,,\n",
        TWO_FLIGHTS,
    ),
    (
        "two bytes end a line",
        Table::Timetable,
        b"id,kind,from,to,start,end,types,tags,tail,resets\r\n\
          F1,flight,ARN,OSL,2025-03-01T07:30,2025-03-01T08:25,,,,\r\n\
          F2,flight,OSL,ARN,2025-03-01T09:00,2025-03-03T09:00,,,,\r\n",
        TWO_FLIGHTS,
    ),
    (
        "another byte ends a line",
        Table::Timetable,
        b"id,kind,from,to,start,end,types,tags,tail,resets\r\
          F1,flight,ARN,OSL,2025-03-01T07:30,2025-03-01T08:25,,,,\r\
          F2,flight,OSL,ARN,2025-03-01T09:00,2025-03-03T09:00,,,,\r",
        TWO_FLIGHTS,
    ),
    (
        "quotes",
        Table::Timetable,
        b"\"id\",kind,from,to,start,end,types,tags,tail,resets\n\
          F1,\"flight\",ARN,OSL,2025-03-01T07:30,2025-03-01T08:25,,,,\n\
          F2,flight,OSL,\"ARN\",2025-03-01T09:00,2025-03-03T09:00,,,,\"\"",
        TWO_FLIGHTS,
    ),
    (
        "each field of an activity",
        Table::Timetable,
        b"id,kind,from,to,start,end,types,tags,tail,resets\n\
          M1,ground,ARN,ARN,2025-03-01T22:00,2025-03-02T05:00,A320 B738,etops,LN-ABC,hours cycles\n",
        "Ok([RawActivity { id: M1, flight: false, from: ARN, to: ARN, start: 29014440, end: 29014860, \
         types: [A320, B738], tags: [etops], tail: Some(LN-ABC), resets: [hours, cycles] }])",
    ),
    (
        "each field of an aircraft",
        Table::Fleet,
        b"tail,type,at,ready,fixed,tags,avoid,carry\n\
          D-1,A320,FRA,2026-03-01T05:00,1200,etops wifi,LHR,fh=1500 fc=10000000\n",
        "Ok([RawTail { name: D-1, kind: A320, at: FRA, ready: 29539020, fixed: 1200, \
         tags: [etops, wifi], avoid: [LHR], carry: [RawCarry { counter: fh, value: 1500 }, \
         RawCarry { counter: fc, value: 10000000 }] }])",
    ),
];

// Rules with entries of each key, which the text writes in another order.
const EACH_KEY: &[u8] = b"
[[band]]
upto = 59
cost = 0
[[band]]
upto = 10000000
cost = 500
[[counter]]
name = 'chk'
kind = 'days'
limit = 2
bases = ['ARN', 'OSL']
stop = 480
[[counter]]
name = 'ldg'
kind = 'landings'
limit = 300
bases = []
stop = 60
[[counter]]
name = 'fh'
kind = 'minutes'
limit = 6000
bases = ['OSL']
stop = 90
[[curfew]]
airport = 'ARN'
from = '23:00'
to = '06:30'
types = ['P']
start = false
landing = true
[[airport]]
name = 'ARN'
offset = 60
turn = 20
[[airport]]
name = 'JFK'
offset = -300
turn = 45
[[type]]
name = 'P'
rate = 7
turn = 30
";

const BAD_LIMIT: &str = "Err(Refused(Refusal { code: 9, table: Rules, place: 1 }))";

// Entries keep the order of the text within their key. Days have a limit of their own, and are kept as minutes.
const RULES: &[Reading] = &[
    (
        "each key",
        Table::Rules,
        EACH_KEY,
        "Ok(RawRules { kinds: [AircraftType { name: P, rate: 7, turn: 30 }], \
         airports: [RawAirport { name: ARN, zone: Fixed(60), turn: 20 }, \
         RawAirport { name: JFK, zone: Fixed(-300), turn: 45 }], \
         curfews: [RawCurfew { airport: ARN, from: 1380, to: 390, types: [P], \
         starts: false, landings: true }], \
         counters: [RawCounter { name: chk, kind: Days, limit: 2880, bases: [ARN, OSL], stop: 480 }, \
         RawCounter { name: ldg, kind: Landings, limit: 300, bases: [], stop: 60 }, \
         RawCounter { name: fh, kind: Minutes, limit: 6000, bases: [OSL], stop: 90 }], \
         bands: [Band { upto: 59, cost: 0 }, Band { upto: 10000000, cost: 500 }] })",
    ),
    (
        "no days",
        Table::Rules,
        b"[[counter]]\nname = \"c\"\nbases = []\nstop = 60\nkind = \"days\"\nlimit = 0",
        BAD_LIMIT,
    ),
    (
        "one day",
        Table::Rules,
        b"[[counter]]\nname = \"c\"\nbases = []\nstop = 60\nkind = \"days\"\nlimit = 1",
        "Ok(RawRules { kinds: [], airports: [], curfews: [], \
         counters: [RawCounter { name: c, kind: Days, limit: 1440, bases: [], stop: 60 }], bands: [] })",
    ),
    (
        "the most days",
        Table::Rules,
        b"[[counter]]\nname = \"c\"\nbases = []\nstop = 60\nkind = \"days\"\nlimit = 10000",
        "Ok(RawRules { kinds: [], airports: [], curfews: [], \
         counters: [RawCounter { name: c, kind: Days, limit: 14400000, bases: [], stop: 60 }], bands: [] })",
    ),
    (
        "a day too many",
        Table::Rules,
        b"[[counter]]\nname = \"c\"\nbases = []\nstop = 60\nkind = \"days\"\nlimit = 10001",
        BAD_LIMIT,
    ),
    (
        "as many minutes",
        Table::Rules,
        b"[[counter]]\nname = \"c\"\nbases = []\nstop = 60\nkind = \"minutes\"\nlimit = 10001",
        "Ok(RawRules { kinds: [], airports: [], curfews: [], \
         counters: [RawCounter { name: c, kind: Minutes, limit: 10001, bases: [], stop: 60 }], bands: [] })",
    ),
    (
        "the most landings",
        Table::Rules,
        b"[[counter]]\nname = \"c\"\nbases = []\nstop = 60\nkind = \"landings\"\nlimit = 10000000",
        "Ok(RawRules { kinds: [], airports: [], curfews: [], \
         counters: [RawCounter { name: c, kind: Landings, limit: 10000000, bases: [], stop: 60 }], bands: [] })",
    ),
    (
        "a landing too many",
        Table::Rules,
        b"[[counter]]\nname = \"c\"\nbases = []\nstop = 60\nkind = \"landings\"\nlimit = 10000001",
        BAD_LIMIT,
    ),
];

const NO_TIMETABLE: &str = "Err(Refused(Refusal { code: 2, table: Timetable, place: 0 }))";

const NO_FLEET: &str = "Err(Refused(Refusal { code: 2, table: Fleet, place: 0 }))";

const NO_RULES: &str = "Err(Refused(Refusal { code: 2, table: Rules, place: 0 }))";

// What is no text is refused before its fields and keys are looked at.
const NO_TEXTS: &[Reading] = &[
    (
        "activities and another byte",
        Table::Timetable,
        b"id,kind,from,to,start,end,types,tags,tail,resets\nF1\n\xff\n",
        NO_TIMETABLE,
    ),
    (
        "the first byte of two",
        Table::Timetable,
        b"\xc3",
        NO_TIMETABLE,
    ),
    (
        "a header and another byte",
        Table::Fleet,
        b"tail,type\xff",
        NO_FLEET,
    ),
    (
        "aircraft and another byte",
        Table::Fleet,
        b"tail,type,at,ready,fixed,tags,avoid,carry\nD-1\n\xff",
        NO_FLEET,
    ),
    (
        "a key and another byte",
        Table::Rules,
        b"[[type\xff",
        NO_RULES,
    ),
];

// What is read of a table, or its refusal.
fn shown(alloc: Global, table: Table, text: &[u8]) -> Result<String, AllocError> {
    match table {
        Table::Timetable => format!(in alloc; "{:?}", read_timetable(alloc, text)),
        Table::Fleet => format!(in alloc; "{:?}", read_fleet(alloc, text)),
        _ => format!(in alloc; "{:?}", read_rules(alloc, text)),
    }
}

fn is_read(alloc: Global, table: Table, text: &[u8], want: &str) -> Result<bool, AllocError> {
    let found = with_names(alloc, shown(alloc, table, text)?, NAMES)?;
    Ok(found.as_str() == want)
}

#[test]
fn tables_have_the_values_of_their_texts(rt: HostRuntime) {
    for &readings in &[WAYS, RULES, NO_TEXTS] {
        for &(about, table, text, want) in readings {
            assert!(rt;
                is_read(rt.alloc(), table, text, want).unwrap_or(false),
                "{about}"
            );
        }
    }
}

// The size is looked at first, and the largest one is allowed.
#[test]
fn a_table_has_at_most_16_mebibytes(rt: HostRuntime) -> Result<(), Fail> {
    let large = vec![in rt.alloc(); 255; SIZE_LIMIT + 1]?;
    assert!(rt; told(rt.alloc(), Table::Timetable, &large[1..]) == Err((2, 0)));
    assert!(rt; told(rt.alloc(), Table::Timetable, &large) == Err((1, 0)));
    assert!(rt; told(rt.alloc(), Table::Fleet, &large) == Err((1, 0)));
    assert!(rt; rules_told(rt.alloc(), &large) == Err((1, 0)));
    Ok(())
}
