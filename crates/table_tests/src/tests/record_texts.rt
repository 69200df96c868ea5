//! Tables of records as texts: a good record before one of which some fields are others, and so many good records before
//! an end.

use fleet_rules::read_fleet;
use std::alloc::{AllocError, Global};
use std::process::Abort;
use tail_text::{Stopped, Table};
use timetable_reader::read_timetable;

// How many records a table has, or the code and the place of its refusal.
pub type Told = Result<usize, (u8, u64)>;

// A table of records: its header, a good record, and the fields of another one.
#[derive(Clone, Copy)]
pub struct Form {
    pub table: Table,
    pub header: &'static str,
    pub record: &'static str,
    pub usual: &'static [(&'static str, &'static str)],
}

// A field, and what a record is told with each of these texts in it.
pub type FieldTexts = (&'static str, &'static [(&'static str, Told)]);

// Two fields, each before the text in it, and what a record is told with them.
pub type Pair = (&'static str, &'static str, &'static str, &'static str, Told);

// A number of good records, what stands behind them, and what the table is told.
pub type End = (usize, &'static str, Told);

// The code and the place of a refusal of this table; zeros where it is another's or memory is wanting.
pub fn refusal_of(table: Table, stopped: Stopped) -> (u8, u64) {
    match stopped {
        Stopped::Refused(refusal) if refusal.table == table => (refusal.code, refusal.place),
        _ => (0, 0),
    }
}

// What is told of a fleet or a timetable.
pub fn told(alloc: Global, table: Table, text: &[u8]) -> Told {
    let stopped = match table {
        Table::Fleet => match read_fleet(alloc, text) {
            Ok(tails) => return Ok(tails.len()),
            Err(stopped) => stopped,
        },
        _ => match read_timetable(alloc, text) {
            Ok(activities) => return Ok(activities.len()),
            Err(stopped) => stopped,
        },
    };
    Err(refusal_of(table, stopped))
}

// The field of this name among the changes, and else the usual one.
fn field_of<'a>(changes: &[(&str, &'a str)], name: &str, usual: &'a str) -> &'a str {
    for (changed, text) in changes {
        if *changed == name {
            return text;
        }
    }
    usual
}

// A header and so many good records.
fn push_good(table: &mut String, form: &Form, count: usize) -> Result<(), AllocError> {
    table.push_str(form.header)?;
    for _ in 0..count {
        table.push_str(form.record)?;
    }
    Ok(())
}

// The table of a good record and of one with these fields in place of its own.
fn push_changed(
    table: &mut String,
    form: &Form,
    changes: &[(&str, &str)],
) -> Result<(), AllocError> {
    push_good(table, form, 1)?;
    let mut before = "";
    for &(name, text) in form.usual {
        table.push_str(before)?;
        table.push_str(field_of(changes, name, text))?;
        before = ",";
    }
    table.push('\n')
}

// The table of so many good records and this end.
fn push_ended(table: &mut String, form: &Form, count: usize, end: &str) -> Result<(), AllocError> {
    push_good(table, form, count)?;
    table.push_str(end)
}

fn is_change_told(alloc: Global, form: &Form, changes: &[(&str, &str)], want: Told) -> bool {
    let mut table = String::new(alloc);
    push_changed(&mut table, form, changes).is_ok()
        && told(alloc, form.table, table.as_bytes()) == want
}

fn is_end_told(alloc: Global, form: &Form, count: usize, end: &str, want: Told) -> bool {
    let mut table = String::new(alloc);
    push_ended(&mut table, form, count, end).is_ok()
        && told(alloc, form.table, table.as_bytes()) == want
}

// Asks that a record with each of these texts in each of these fields is told so.
pub fn each_field_is_told(rt: &impl Abort, alloc: Global, form: &Form, rows: &[FieldTexts]) {
    for &(field, texts) in rows {
        for &(text, want) in texts {
            assert!(rt;
                is_change_told(alloc, form, &[(field, text)], want),
                "{field} {text}"
            );
        }
    }
}

// Asks that a record with each of these two fields in place of its own is told so.
pub fn each_pair_is_told(rt: &impl Abort, alloc: Global, form: &Form, rows: &[Pair]) {
    for &(first, text, second, other, want) in rows {
        assert!(rt;
            is_change_told(alloc, form, &[(first, text), (second, other)], want),
            "{first} {text} {second} {other}"
        );
    }
}

// Asks that so many good records with each of these ends behind them are told so.
pub fn each_end_is_told(rt: &impl Abort, alloc: Global, form: &Form, ends: &[End]) {
    for &(count, end, want) in ends {
        assert!(rt;
            is_end_told(alloc, form, count, end, want),
            "{count} and {end}"
        );
    }
}
