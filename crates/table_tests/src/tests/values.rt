//! The grammars of values, on both sides, and a line that grows.

use std::process::Abort;
use std::test::Fail;
use tail_book::Memory;
use tail_text::{Bad, Line, Parts, clock, name, number, stamp};

// What a text is read as: a moment, a time of day, a number up to the most that is allowed, or a name.
#[derive(Clone, Copy)]
enum Value {
    Moment(Result<i64, Bad>),
    Clock(Result<i64, Bad>),
    Number(u64, Result<u64, Bad>),
    Name(bool),
}

fn is_read(text: &[u8], value: Value) -> bool {
    match value {
        Value::Moment(want) => stamp(text) == want,
        Value::Clock(want) => clock(text) == want,
        Value::Number(max, want) => number(text, max) == want,
        Value::Name(good) => is_told(text, good),
    }
}

// Whether a text is read as a name, where it is one, and else refused.
fn is_told(text: &[u8], good: bool) -> bool {
    match name(text) {
        Ok(found) => good && found.as_bytes() == text,
        Err(Bad) => !good,
    }
}

const VALUES: &[(&str, Value)] = &[
    // The first and the last moment, leap days, and texts that miss the grammar by one thing.
    ("1970-01-01T00:00", Value::Moment(Ok(0))),
    ("2000-02-29T00:00", Value::Moment(Ok(15_863_040))),
    ("2025-03-03T06:00", Value::Moment(Ok(29_016_360))),
    ("2199-12-31T23:59", Value::Moment(Ok(120_968_639))),
    ("2100-02-29T00:00", Value::Moment(Err(Bad))),
    ("2200-01-01T00:00", Value::Moment(Err(Bad))),
    ("1969-12-31T23:59", Value::Moment(Err(Bad))),
    ("2025-03-03T24:00", Value::Moment(Err(Bad))),
    ("2025-3-03T06:00", Value::Moment(Err(Bad))),
    // The ends of a day; an hour and a minute past them; and texts that miss the grammar by one thing.
    ("00:00", Value::Clock(Ok(0))),
    ("09:05", Value::Clock(Ok(545))),
    ("23:59", Value::Clock(Ok(1439))),
    ("24:00", Value::Clock(Err(Bad))),
    ("12:60", Value::Clock(Err(Bad))),
    ("9:05", Value::Clock(Err(Bad))),
    ("09-05", Value::Clock(Err(Bad))),
    ("09:05 ", Value::Clock(Err(Bad))),
    // The most that is allowed and one more, no digits, and a zero in front of others.
    ("9", Value::Number(9, Ok(9))),
    ("0", Value::Number(9, Ok(0))),
    (
        "18446744073709551615",
        Value::Number(u64::MAX, Ok(u64::MAX)),
    ),
    ("18446744073709551616", Value::Number(u64::MAX, Err(Bad))),
    ("10", Value::Number(9, Err(Bad))),
    ("007", Value::Number(9, Err(Bad))),
    ("", Value::Number(9, Err(Bad))),
    ("-1", Value::Number(9, Err(Bad))),
    // Sixteen and seventeen letters, and what may stand first or later.
    ("A", Value::Name(true)),
    ("7-b_C", Value::Name(true)),
    ("ABCDEFGHIJKLMNOP", Value::Name(true)),
    ("ABCDEFGHIJKLMNOPQ", Value::Name(false)),
    ("", Value::Name(false)),
    ("-A", Value::Name(false)),
    ("A B", Value::Name(false)),
];

// Moments are minutes since 1970, times of day minutes since midnight; numbers have no leading zero, and names one to
// sixteen bytes.
#[test]
fn values_are_read_by_their_grammars(rt: HostRuntime) {
    for &(text, value) in VALUES {
        assert!(rt; is_read(text.as_bytes(), value), "at {text}");
    }
}

// There is one part more than there are bytes between parts, and each of them may be empty.
#[test]
fn parts_stand_between_bytes(rt: HostRuntime) {
    for &(text, parts) in &[
        ("", [""].as_slice()),
        ("A320", &["A320"]),
        ("A320 B738", &["A320", "B738"]),
        (" A320  B738 ", &["", "A320", "", "B738", ""]),
    ] {
        let left = Parts::new(text.as_bytes(), b' ');
        assert!(rt; has_parts(left, parts), "in {text}");
    }
}

// Whether these parts are taken, and then none.
fn has_parts(mut left: Parts, parts: &[&str]) -> bool {
    for part in parts {
        if left.is_done() || left.take() != Some(part.as_bytes()) {
            return false;
        }
    }
    left.is_done() && left.take().is_none()
}

fn add_costs(line: &mut Line) -> Result<(), Memory> {
    line.text(b"cost ")?;
    line.unsigned(u64::MAX)?;
    line.text(b" from ")?;
    line.signed(i64::MIN)?;
    line.text(b" to ")?;
    line.signed(7)
}

// Asks that costs are written to an empty line, and a nought once it is cleared.
fn is_written_anew(rt: &impl Abort, line: &mut Line) -> Result<(), Memory> {
    assert!(rt; line.bytes().is_empty());
    add_costs(line)?;
    assert!(rt;
        line.bytes() == b"cost 18446744073709551615 from -9223372036854775808 to 7".as_slice()
    );
    line.clear();
    line.unsigned(0)?;
    assert!(rt; line.bytes() == b"0".as_slice());
    Ok(())
}

// Each call appends, and a cleared line begins anew.
#[test]
fn lines_answer_with_ample_memory(rt: HostRuntime) -> Result<(), Fail> {
    let mut line = Line::new(rt.alloc())?;
    is_written_anew(&rt, &mut line)?;
    Ok(())
}
