//! Tables of rules: every key of every entry, the order of refusals, and the limits.

use crate::tests::record_texts::refusal_of;
use fleet_rules::{RawRules, read_rules};
use std::alloc::{AllocError, Global};
use tail_text::Table;

// How many entries each key has, or the code and the place of the refusal.
pub type Told = Result<[usize; 5], (u8, u64)>;

pub fn rules_told(alloc: Global, text: &[u8]) -> Told {
    match read_rules(alloc, text) {
        Ok(rules) => Ok(sizes(&rules)),
        Err(stopped) => Err(refusal_of(Table::Rules, stopped)),
    }
}

fn sizes(rules: &RawRules) -> [usize; 5] {
    [
        rules.kinds.len(),
        rules.airports.len(),
        rules.curfews.len(),
        rules.counters.len(),
        rules.bands.len(),
    ]
}

// The keys of a good entry and their values.
fn good(key: &str) -> &'static [(&'static str, &'static str)] {
    match key {
        "type" => &[("name", "\"P\""), ("rate", "1"), ("turn", "30")],
        "airport" => &[("name", "\"ARN\""), ("offset", "60"), ("turn", "20")],
        "curfew" => &[
            ("airport", "\"ARN\""),
            ("from", "\"23:00\""),
            ("to", "\"06:00\""),
            ("types", "[\"P\"]"),
            ("start", "true"),
            ("landing", "false"),
        ],
        "counter" => &[
            ("name", "\"fh\""),
            ("kind", "\"minutes\""),
            ("limit", "120"),
            ("bases", "[\"ARN\"]"),
            ("stop", "60"),
        ],
        _ => &[("upto", "59"), ("cost", "500")],
    }
}

// The line `NAME = VALUE`.
fn push_value(text: &mut String, name: &str, value: &str) -> Result<(), AllocError> {
    text.push_str(name)?;
    text.push_str(" = ")?;
    text.push_str(value)?;
    text.push_str("\n")
}

// A good entry of the key, but for the line of this name: another value stands behind the others, or an empty
// line where it is empty.
fn push_entry(text: &mut String, key: &str, name: &str, value: &str) -> Result<(), AllocError> {
    text.push_str("[[")?;
    text.push_str(key)?;
    text.push_str("]]\n")?;
    for &(usual, good) in good(key) {
        if usual != name {
            push_value(text, usual, good)?;
        }
    }
    if value.is_empty() {
        return text.push_str("\n");
    }
    push_value(text, name, value)
}

// Whether a table of one entry, with one key of it changed, or left out where the value is empty, is refused with this
// code; with 0 it is good.
fn is_told(alloc: Global, key: &str, name: &str, value: &str, code: u8) -> bool {
    let mut text = String::new(alloc);
    push_entry(&mut text, key, name, value).is_ok()
        && rules_told(alloc, text.as_bytes()) == wanted(key, code)
}

// Each key absent, of each other kind, and beside its range or its grammar.
#[test]
fn each_key_is_there_and_has_its_kind(rt: HostRuntime) {
    for &(key, name, kind, code) in &[
        ("type", "name", "string", 5),
        ("type", "rate", "integer", 9),
        ("type", "turn", "integer", 9),
        ("airport", "name", "string", 5),
        ("airport", "offset", "integer", 9),
        ("airport", "turn", "integer", 9),
        ("curfew", "airport", "string", 5),
        ("curfew", "from", "string", 6),
        ("curfew", "to", "string", 6),
        ("curfew", "types", "array", 4),
        ("curfew", "start", "boolean", 4),
        ("curfew", "landing", "boolean", 4),
        ("counter", "name", "string", 5),
        ("counter", "kind", "string", 8),
        ("counter", "limit", "integer", 9),
        ("counter", "bases", "array", 4),
        ("counter", "stop", "integer", 9),
        ("band", "upto", "integer", 9),
        ("band", "cost", "integer", 9),
    ] {
        for &(other, value) in &[
            ("nothing", ""),
            ("string", "\"P\""),
            ("integer", "1"),
            ("float", "1.0"),
            ("boolean", "true"),
            ("date", "2025-03-03"),
            ("array", "[\"P\"]"),
            ("table", "{ a = 1 }"),
        ] {
            let code = if value.is_empty() { 15 } else { code };
            assert!(rt;
                other == kind || is_told(rt.alloc(), key, name, value, code),
                "{key} with {name} = {value}"
            );
        }
    }
}

// Each range and each grammar at its ends and one beside them; 0 stands for a good entry.
#[test]
fn ranges_end_where_they_say(rt: HostRuntime) {
    for &(key, name, value, code) in &[
        ("type", "name", "\"ABCDEFGHIJKLMNOP\"", 0),
        ("type", "name", "\"ABCDEFGHIJKLMNOPQ\"", 5),
        ("type", "name", "'P'", 0),
        ("type", "name", "\"\\u0050\"", 0),
        ("type", "name", "\"\"", 5),
        ("type", "name", "\"-P\"", 5),
        ("type", "name", "\"P Q\"", 5),
        ("type", "rate", "-1", 9),
        ("type", "rate", "0", 0),
        ("type", "rate", "-0", 0),
        ("type", "rate", "+1", 0),
        ("type", "rate", "0x12c", 0),
        ("type", "rate", "3_00", 0),
        ("type", "rate", "300", 0),
        ("type", "rate", "301", 9),
        ("type", "rate", "9223372036854775807", 9),
        ("type", "turn", "-1", 9),
        ("type", "turn", "0", 0),
        ("type", "turn", "1440", 0),
        ("type", "turn", "1441", 9),
        ("airport", "name", "\"\u{e5}\"", 5),
        ("airport", "offset", "-841", 9),
        ("airport", "offset", "-840", 0),
        ("airport", "offset", "840", 0),
        ("airport", "offset", "841", 9),
        ("airport", "offset", "60\nzone = 1", 18),
        ("airport", "offset", "841\nzone = \"UTC0\"", 18),
        ("airport", "zone", "\"UTC0\"", 18),
        ("airport", "turn", "-1", 9),
        ("airport", "turn", "0", 0),
        ("airport", "turn", "1440", 0),
        ("airport", "turn", "1441", 9),
        ("curfew", "airport", "\"\"", 5),
        ("curfew", "from", "\"00:00\"", 0),
        ("curfew", "from", "\"23:59\"", 0),
        ("curfew", "from", "\"24:00\"", 6),
        ("curfew", "from", "\"6:00\"", 6),
        ("curfew", "from", "06:00:00", 6),
        ("curfew", "to", "\"00:00\"", 0),
        ("curfew", "to", "\"23:59\"", 0),
        ("curfew", "to", "\"23:60\"", 6),
        ("curfew", "to", "\"06:00 \"", 6),
        ("curfew", "types", "[]", 0),
        ("curfew", "types", "[\"P\", \"P\"]", 0),
        ("curfew", "types", "[\"P\", 1]", 5),
        ("curfew", "types", "[\"P\", \"\"]", 5),
        ("curfew", "types", "[[\"P\"]]", 5),
        ("curfew", "start", "false", 0),
        ("curfew", "landing", "true", 0),
        ("counter", "name", "\"fh fc\"", 5),
        ("counter", "kind", "\"landings\"", 0),
        ("counter", "kind", "\"Minutes\"", 8),
        ("counter", "kind", "\"\"", 8),
        ("counter", "limit", "0", 9),
        ("counter", "limit", "1", 0),
        ("counter", "limit", "10000000", 0),
        ("counter", "limit", "10000001", 9),
        ("counter", "bases", "[]", 0),
        ("counter", "bases", "[\"ARN\", true]", 5),
        ("counter", "stop", "0", 9),
        ("counter", "stop", "1", 0),
        ("counter", "stop", "100000", 0),
        ("counter", "stop", "100001", 9),
        ("band", "upto", "-1", 9),
        ("band", "upto", "0", 0),
        ("band", "upto", "10000000", 0),
        ("band", "upto", "10000001", 9),
        ("band", "cost", "-1", 9),
        ("band", "cost", "0", 0),
        ("band", "cost", "1000000", 0),
        ("band", "cost", "1000001", 9),
    ] {
        assert!(rt;
            is_told(rt.alloc(), key, name, value, code),
            "{key} with {name} = {value}"
        );
    }
}

// One entry of this key and none of the others.
fn one(key: &str) -> [usize; 5] {
    match key {
        "type" => [1, 0, 0, 0, 0],
        "airport" => [0, 1, 0, 0, 0],
        "curfew" => [0, 0, 1, 0, 0],
        "counter" => [0, 0, 0, 1, 0],
        _ => [0, 0, 0, 0, 1],
    }
}

// The same, or the refusal of that entry with a code that is not 0.
fn wanted(key: &str, code: u8) -> Told {
    if code == 0 {
        Ok(one(key))
    } else {
        Err((code, 1))
    }
}

// Whether an entry with an array of so many good names and one more is refused with this code; with 0 it is good.
fn is_list_told(
    alloc: Global,
    key: &str,
    name: &str,
    count: usize,
    last: &str,
    code: u8,
) -> Result<bool, AllocError> {
    let names = "\"A\", ".repeat(alloc, count)?;
    let array = format!(in alloc; "[{names}{last}]")?;
    Ok(is_told(alloc, key, name, &array, code))
}

// Only good names are counted.
#[test]
fn lists_of_names_have_a_limit(rt: HostRuntime) {
    for &(key, name, count, last, code) in &[
        ("curfew", "types", 20, "", 0),
        ("curfew", "types", 20, "\"A\"", 10),
        ("curfew", "types", 21, "\"-\"", 5),
        ("counter", "bases", 200, "", 0),
        ("counter", "bases", 200, "\"A\"", 10),
        ("counter", "bases", 201, "5", 5),
    ] {
        assert!(rt;
            is_list_told(rt.alloc(), key, name, count, last, code).unwrap_or(false),
            "{count} {name} and {last}"
        );
    }
}

// As many good entries of each key as there may be.
fn push_all(text: &mut String) -> Result<(), AllocError> {
    for &(key, count) in &[
        ("type", 20),
        ("airport", 200),
        ("curfew", 400),
        ("counter", 6),
        ("band", 8),
    ] {
        for _ in 0..count {
            push_entry(text, key, "", "")?;
        }
    }
    Ok(())
}

// Whether one entry more, which is not looked at, is refused at this place.
fn is_one_too_many(alloc: Global, text: &mut String, key: &str, place: u64) -> bool {
    push_entry(text, key, "speed", "1").is_ok()
        && rules_told(alloc, text.as_bytes()) == Err((10, place))
}

// As many entries as there may be, and then one more.
#[test]
fn each_key_has_a_limit_of_entries(rt: HostRuntime) {
    let mut text = String::new(rt.alloc());
    assert!(rt; push_all(&mut text).is_ok());
    assert!(rt; rules_told(rt.alloc(), text.as_bytes()) == Ok([20, 200, 400, 6, 8]));
    for &(key, place) in &[
        ("band", 635),
        ("counter", 627),
        ("curfew", 621),
        ("airport", 221),
        ("type", 21),
    ] {
        assert!(rt; is_one_too_many(rt.alloc(), &mut text, key, place), "{key}");
    }
}

// Whole texts: what TOML makes of them, the keys of the table, and the order in which entries are looked at.
#[test]
fn rules_are_read_up_to_their_first_refusal(rt: HostRuntime) {
    for &(text, want) in &[
        ("", Ok([0, 0, 0, 0, 0])),
        ("# no rules\n", Ok([0, 0, 0, 0, 0])),
        ("type = []\nband = []\n", Ok([0, 0, 0, 0, 0])),
        ("[[band]]\nupto = 1\ncost = 2\n", Ok([0, 0, 0, 0, 1])),
        ("[[band]]\r\nupto = 1\r\ncost = 2\r\n", Ok([0, 0, 0, 0, 1])),
        (
            "[[\"band\"]]\n\"upto\" = 1\n'cost' = 2",
            Ok([0, 0, 0, 0, 1]),
        ),
        ("band = [{ upto = 1, cost = 2 }]", Ok([0, 0, 0, 0, 1])),
        (
            "\u{feff}[[band]]\ncost = 2\nupto = 1\n",
            Ok([0, 0, 0, 0, 1]),
        ),
        ("\u{feff}", Ok([0, 0, 0, 0, 0])),
        ("\u{feff}\u{feff}", Err((13, 0))),
        ("[[type", Err((13, 0))),
        ("[[band]]\rupto = 1\rcost = 2\r", Err((13, 0))),
        ("[[band]]\nupto = 1\nupto = 1\ncost = 2\n", Err((13, 0))),
        ("type = []\n[[type]]\n", Err((13, 0))),
        ("band = 1\n[[band]]\n", Err((13, 0))),
        ("[[band]]\nupto = 01\ncost = 2\n", Err((13, 0))),
        (
            "[[band]]\nupto = 9223372036854775808\ncost = 2\n",
            Err((13, 0)),
        ),
        ("speed = 1\n[[type", Err((13, 0))),
        ("speed = 1\n", Err((14, 0))),
        ("\"\" = []\n", Err((14, 0))),
        ("Type = []\n", Err((14, 0))),
        ("types = []\n", Err((14, 0))),
        ("type = 1\n[speed]\n", Err((14, 0))),
        ("type = 1\n", Err((4, 0))),
        ("type = \"P\"\n", Err((4, 0))),
        ("airport = true\n", Err((4, 0))),
        ("airport.ARN.offset = 60\n", Err((4, 0))),
        ("[curfew]\nairport = \"ARN\"\n", Err((4, 0))),
        ("counter = {}\n", Err((4, 0))),
        ("band = [1]\n", Err((4, 0))),
        ("band = [{}, 1]\n", Err((4, 0))),
        ("band = [[{}]]\n", Err((4, 0))),
        ("band = [{}, {}]\n", Err((15, 1))),
        ("band = 1\nairport = [{}]\n", Err((15, 1))),
        (
            "band = 1\n[[airport]]\nname = \"A\"\noffset = 0\nturn = 0\n",
            Err((4, 0)),
        ),
        (
            "[[band]]\nupto = 1\n[[type]]\nname = \"P\"\nrate = 1\nturn = 0\n",
            Err((15, 2)),
        ),
        (
            "[[band]]\n[[type]]\nname = \"P\"\nrate = 1\nturn = -1\n",
            Err((9, 1)),
        ),
        (
            "[[band]]\nupto = 1\ncost = 2\n[[band]]\nupto = 1\ncost = -2\n",
            Err((9, 2)),
        ),
        ("[[band]]\nupto.minutes = 1\ncost = 2\n", Err((9, 1))),
        ("[[band]]\nupto = 1\n[band.cost]\n", Err((9, 1))),
        (
            "[[type]]\nname = \"P\"\nrate = 1\nturn = 30\nspeed = 1\n",
            Err((14, 1)),
        ),
        (
            "[[type]]\nname = \"P\"\nturn = 30\nspeed = 1\n",
            Err((14, 1)),
        ),
        ("[[type]]\nname = \"P\"\nturn = 30\n", Err((15, 1))),
        ("[[type]]\nturn = -1\nname = \"-\"\n", Err((5, 1))),
        ("[[type]]\nturn = -1\nname = \"P\"\n", Err((15, 1))),
        (
            "[[type]]\nname = \"P\"\nrate = 1\noffset = 0\n",
            Err((14, 1)),
        ),
        (
            "[[airport]]\nname = \"A\"\nzone = \"UTC0\"\nturn = 0\n",
            Ok([0, 1, 0, 0, 0]),
        ),
        (
            "[[airport]]\nname = \"A\"\nzone = 0\nturn = 0\n",
            Err((18, 1)),
        ),
        ("[[airport]]\nname = \"A\"\nzone = \"UTC\"\n", Err((18, 1))),
        ("[[airport]]\nname = \"A\"\nturn = -1\n", Err((15, 1))),
        (
            "[[airport]]\nname = \"-\"\nzone = \"UTC\"\noffset = 0\n",
            Err((5, 1)),
        ),
        ("[[airport]]\nzones = 1\nzone = \"UTC\"\n", Err((14, 1))),
    ] {
        assert!(rt; rules_told(rt.alloc(), text.as_bytes()) == want, "{text}");
    }
}

// Whether a key `band` with so many arrays in one another is told so.
fn is_nested_told(alloc: Global, deep: usize, want: Told) -> Result<bool, AllocError> {
    let (begun, ended) = ("[".repeat(alloc, deep)?, "]".repeat(alloc, deep)?);
    let text = format!(in alloc; "band = {begun}{ended}")?;
    Ok(rules_told(alloc, text.as_bytes()) == want)
}

// A text that nests deeper than TOML is read here is refused as a whole.
#[test]
fn texts_nest_at_most_80_deep(rt: HostRuntime) {
    for &(deep, want) in &[
        (1, Ok([0, 0, 0, 0, 0])),
        (80, Err((4, 0))),
        (81, Err((13, 0))),
    ] {
        assert!(rt;
            is_nested_told(rt.alloc(), deep, want).unwrap_or(false),
            "{deep}"
        );
    }
}
