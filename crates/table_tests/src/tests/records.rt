//! A small table read whole, and the fields that several tables have.

ghost use Rattle.std.specs.Prelude.{[], ◌∷◌, codes, length, ◌==◌, if◌then◌else◌, Ok, Err};
ghost use Rattle.tail_text.specs.declared.refusal.Table.TheVariants.{Fleet};
ghost use Rattle.table_records.specs.Fields.{field_at};

use crate::tests::record_texts::refusal_of;
use std::alloc::Global;
use std::process::Abort;
use std::test::Fail;
use table_records::{
    Fields, NoRow, Records, Row, name_in, names, number_in, optional_name_in, read_table, stamp_in,
};
use tail_book::Memory;
use tail_text::{SIZE_LIMIT, Table};

// A table of the fields `name` and `note` with at most two records: how long each name is, and code 5 for an empty one.
#[derive(Clone, Copy, PartialEq, Eq, Debug)]
struct Size(usize);

impl Row for Size {
    ghost layout = { record {
      table = Fleet;
      header = codes "name" ∷ codes "note" ∷ [];
      limit = 2;
      row_of = λ fields. if length (field_at fields 0) == 0 then Err 5 else Ok (record { 0 = length (field_at fields 0) });
    } };

    fn table() -> Table {
        Table::Fleet
    }

    fn limit() -> usize {
        2
    }

    fn width() -> usize {
        2
    }

    fn is_header(fields: &Fields) -> bool {
        fields.are(&["name", "note"])
    }

    fn row_of(_alloc: Global, fields: &Fields) -> Result<Size, NoRow> {
        let name = fields.at(0);
        if name.is_empty() {
            return Err(NoRow::Code(5));
        }
        Ok(Size(name.len()))
    }
}

// Whether the names of a table are that long.
fn has_sizes(alloc: Global, text: &str, sizes: &[Size]) -> bool {
    match read_table::<Size>(alloc, text.as_bytes()) {
        Ok(rows) => rows.as_slice() == sizes,
        Err(_) => false,
    }
}

// Whether a table is refused with this code at this place.
fn is_refused(alloc: Global, table: &[u8], want: (u8, u64)) -> bool {
    match read_table::<Size>(alloc, table) {
        Ok(_) => false,
        Err(stopped) => refusal_of(Table::Fleet, stopped) == want,
    }
}

// Two records however they are written: in quotes a comma, a quote and a line end are part of a field. A header alone has
// no rows.
#[test]
fn tables_are_written_in_several_ways(rt: HostRuntime) {
    let rows: &[(&str, &[Size])] = &[
        ("name,note\nab,\"x, y\"\n\nabc,\n", &[Size(2), Size(3)]),
        ("\u{feff}name,note\r\nab,x\r\nabc,", &[Size(2), Size(3)]),
        ("name,note\rab,x\rabc,y\r", &[Size(2), Size(3)]),
        (
            "\n\r\n\"name\",note\n\nab,x\n\n\n\"abc\",\"\"",
            &[Size(2), Size(3)],
        ),
        ("name,note\n\"a,\",x\n\"a\"\"b\",y\n", &[Size(2), Size(3)]),
        ("name,note\n\"a\n\",x\n\"a\r\n\",y\n", &[Size(2), Size(3)]),
        ("name,note", &[]),
        ("name,note\n", &[]),
        ("\u{feff}name,note\r\n\r\n", &[]),
    ];
    for &(text, sizes) in rows {
        assert!(rt; has_sizes(rt.alloc(), text, sizes), "{text}");
    }
}

// A place is the number of a record with the header: an empty line has none, and a field's line ends make no record.
#[test]
fn tables_are_read_up_to_their_first_refusal(rt: HostRuntime) {
    for &(text, want) in &[
        ("", (3, 1)),
        ("\n\n", (3, 1)),
        ("name\n", (3, 1)),
        ("name,note,\n", (3, 1)),
        ("name,notes\nab,x\n", (3, 1)),
        ("Name,note\nab,x\n", (3, 1)),
        ("\u{feff}\u{feff}name,note\n", (3, 1)),
        ("name,note\nab,x\nabc\n", (4, 3)),
        ("name,note\nab,x\nabc,y,\n", (4, 3)),
        ("name,note\nab,x\n,y\n", (5, 3)),
        ("name,note\n,x\nz\n", (5, 2)),
        ("name,note\nz\n,x\n", (4, 2)),
        ("\n\nname,note\n\n\r\n,y\n", (5, 2)),
        ("name,note\n\"a\n\nb\",\"\n\"\n\n,y\n", (5, 3)),
        ("name,note\nab,x\nabc,y\n,z\n", (10, 4)),
        ("name,note\nab,x\nabc,y\nz\n", (4, 4)),
        ("name,note\nab,x\nabc,y\n,z\nz\n", (10, 4)),
    ] {
        assert!(rt; is_refused(rt.alloc(), text.as_bytes(), want), "{text}");
    }
}

// The size is looked at first, and the largest one is allowed.
#[test]
fn a_table_has_its_size_and_is_text(rt: HostRuntime) -> Result<(), Fail> {
    let alloc = rt.alloc();
    let large = vec![in alloc; 255; SIZE_LIMIT + 1]?;
    assert!(rt; is_refused(alloc, &large[1..], (2, 0)));
    assert!(rt; is_refused(alloc, &large, (1, 0)));
    assert!(rt; is_refused(alloc, b"name,note\n\xff,x\n", (2, 0)));
    assert!(rt; is_refused(alloc, b"name,note\nab\n\xe2\x82", (2, 0)));
    Ok(())
}

// Whether there is a next record, with so many fields, of which these are the first two.
fn takes(
    records: &mut Records,
    fields: &mut Fields,
    count: usize,
    first: &str,
    second: &str,
) -> Result<bool, Memory> {
    Ok(
        records.take(fields)?
            && fields.len() == count
            && fields.at(0) == first.as_bytes()
            && fields.at(1) == second.as_bytes(),
    )
}

// Asks that there is a record of `a` and `b`, one of `c`, and no other.
fn two_are_taken(
    rt: &impl Abort,
    records: &mut Records,
    fields: &mut Fields,
) -> Result<(), Memory> {
    assert!(rt; takes(records, fields, 2, "a", "b")?);
    assert!(rt; takes(records, fields, 1, "c", "")?);
    assert!(rt; !records.take(fields)?);
    Ok(())
}

// A field that a record does not have is empty.
#[test]
fn records_come_one_after_the_other(rt: HostRuntime) -> Result<(), Fail> {
    let mut records = Records::new(rt.alloc(), b"a,b\nc\n");
    let mut fields = Fields::new(rt.alloc());
    two_are_taken(&rt, &mut records, &mut fields)?;
    Ok(())
}

// How many names a field has, or the code of its refusal.
fn count_of(alloc: Global, field: &[u8]) -> Result<usize, u8> {
    match names(alloc, field) {
        Ok(names) => Ok(names.len()),
        Err(NoRow::Code(code)) => Err(code),
        Err(NoRow::Memory) => Err(0),
    }
}

// Whether a field is read as a name, where it is one, and else refused; the same where a name may be missing, and then an
// empty field names nobody.
fn is_named(field: &[u8], is_name: bool) -> bool {
    let name = match name_in(field) {
        Ok(name) => is_name && name.as_bytes() == field,
        Err(code) => !is_name && code == 5,
    };
    let optional = match optional_name_in(field) {
        Ok(Some(_)) => is_name,
        Ok(None) => field.is_empty(),
        Err(code) => !is_name && !field.is_empty() && code == 5,
    };
    name && optional
}

// What a field is read as, or the code of its refusal: so many names, a number up to the most that is allowed, a moment, or
// a name.
#[derive(Clone, Copy)]
enum Value {
    Names(Result<usize, u8>),
    Number(u64, Result<u64, u8>),
    Moment(Result<i64, u8>),
    Name(bool),
}

fn is_read(alloc: Global, field: &[u8], value: Value) -> bool {
    match value {
        Value::Names(want) => count_of(alloc, field) == want,
        Value::Number(most, want) => number_in(field, most) == want,
        Value::Moment(want) => stamp_in(field) == want,
        Value::Name(is_name) => is_named(field, is_name),
    }
}

const FIELDS: &[(&str, Value)] = &[
    // Names stand between single spaces.
    ("", Value::Names(Ok(0))),
    ("A320", Value::Names(Ok(1))),
    ("A320 B738", Value::Names(Ok(2))),
    (
        "a b c d e f g h i j k l m n o p q r s t",
        Value::Names(Ok(20)),
    ),
    (" A320", Value::Names(Err(5))),
    ("A320 ", Value::Names(Err(5))),
    ("A320  B738", Value::Names(Err(5))),
    ("A320 -", Value::Names(Err(5))),
    (
        "a b c d e f g h i j k l m n o p q r s t u",
        Value::Names(Err(10)),
    ),
    (
        "a b c d e f g h i j k l m n o p q r s t u -",
        Value::Names(Err(5)),
    ),
    // Numbers have no zero in front.
    ("0", Value::Number(300, Ok(0))),
    ("7", Value::Number(300, Ok(7))),
    ("300", Value::Number(300, Ok(300))),
    ("301", Value::Number(300, Err(9))),
    ("18446744073709551616", Value::Number(300, Err(9))),
    ("", Value::Number(300, Err(9))),
    ("00", Value::Number(300, Err(9))),
    ("007", Value::Number(300, Err(9))),
    ("-1", Value::Number(300, Err(9))),
    ("+1", Value::Number(300, Err(9))),
    ("1.5", Value::Number(300, Err(9))),
    (" 1", Value::Number(300, Err(9))),
    (
        "18446744073709551615",
        Value::Number(u64::MAX, Ok(u64::MAX)),
    ),
    // Names have one to sixteen bytes, and moments are minutes since 1970.
    ("LN-ABC", Value::Name(true)),
    ("ABCDEFGHIJKLMNOP", Value::Name(true)),
    ("ABCDEFGHIJKLMNOPQ", Value::Name(false)),
    ("-", Value::Name(false)),
    ("A B", Value::Name(false)),
    ("", Value::Name(false)),
    ("1970-01-02T00:01", Value::Moment(Ok(1441))),
    ("2025-03-01T24:00", Value::Moment(Err(6))),
];

#[test]
fn fields_are_read_by_their_grammars(rt: HostRuntime) {
    for &(field, value) in FIELDS {
        assert!(rt; is_read(rt.alloc(), field.as_bytes(), value), "{field}");
    }
}
