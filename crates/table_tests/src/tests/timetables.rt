//! Timetables as a planner types them: each refusal at its place.

use crate::tests::record_texts::{
    End, FieldTexts, Form, Pair, Told, each_end_is_told, each_field_is_told, each_pair_is_told,
};
use tail_book::limits::ACTIVITY_LIMIT;
use tail_text::Table;

const OUT: &str = "F1,flight,ARN,OSL,2025-03-01T07:30,2025-03-01T08:25,,,,\n";

const TIMETABLE: Form = Form {
    table: Table::Timetable,
    header: "id,kind,from,to,start,end,types,tags,tail,resets\n",
    record: OUT,
    usual: &[
        ("id", "F2"),
        ("kind", "flight"),
        ("from", "OSL"),
        ("to", "ARN"),
        ("start", "2025-03-01T09:00"),
        ("end", "2025-03-01T09:55"),
        ("types", ""),
        ("tags", ""),
        ("tail", ""),
        ("resets", ""),
    ],
};

// The same, where the other record is of a ground activity.
const GROUND: Form = Form {
    usual: &[
        ("id", "F2"),
        ("kind", "ground"),
        ("from", "OSL"),
        ("to", "OSL"),
        ("start", "2025-03-01T09:00"),
        ("end", "2025-03-01T09:55"),
        ("types", ""),
        ("tags", ""),
        ("tail", ""),
        ("resets", ""),
    ],
    ..TIMETABLE
};

const FIELDS: &[FieldTexts] = &[
    (
        "id",
        &[
            ("ABCDEFGHIJKLMNOP", Ok(2)),
            ("007", Ok(2)),
            ("9-_", Ok(2)),
            ("", Err((5, 3))),
            ("ABCDEFGHIJKLMNOPQ", Err((5, 3))),
            ("F 2", Err((5, 3))),
            ("F.2", Err((5, 3))),
            ("-F2", Err((5, 3))),
            ("_F2", Err((5, 3))),
            ("F2Å", Err((5, 3))),
        ],
    ),
    (
        "kind",
        &[
            ("", Err((8, 3))),
            ("Flight", Err((8, 3))),
            ("FLIGHT", Err((8, 3))),
            ("Ground", Err((8, 3))),
            ("flights", Err((8, 3))),
            (" flight", Err((8, 3))),
            ("train", Err((8, 3))),
        ],
    ),
    (
        "from",
        &[
            ("", Err((5, 3))),
            ("OSL!", Err((5, 3))),
            ("OSLOSLOSLOSLOSLOS", Err((5, 3))),
        ],
    ),
    (
        "to",
        &[
            ("", Err((5, 3))),
            ("A RN", Err((5, 3))),
            ("ARNARNARNARNARNAR", Err((5, 3))),
        ],
    ),
    (
        "tail",
        &[
            ("LN-ABC", Ok(2)),
            ("-", Err((5, 3))),
            ("LNA LNB", Err((5, 3))),
            ("LNALNALNALNALNALN", Err((5, 3))),
        ],
    ),
];

// Single spaces, and twenty names.
const LISTS: &[(&str, Told)] = &[
    ("", Ok(2)),
    ("A320", Ok(2)),
    ("A320 B738 A320", Ok(2)),
    ("a b c d e f g h i j k l m n o p q r s t", Ok(2)),
    (" ", Err((5, 3))),
    (" A320", Err((5, 3))),
    ("A320 ", Err((5, 3))),
    ("A320  B738", Err((5, 3))),
    ("A320;B738", Err((5, 3))),
    ("\"A320,B738\"", Err((5, 3))),
    ("A320 ABCDEFGHIJKLMNOPQ", Err((5, 3))),
    ("a b c d e f g h i j k l m n o p q r s -", Err((5, 3))),
    ("a b c d e f g h i j k l m n o p q r s t u", Err((10, 3))),
    ("a b c d e f g h i j k l m n o p q r s t -", Err((5, 3))),
    ("a b c d e f g h i j k l m n o p q r s t u -", Err((5, 3))),
];

// The resets are those of a ground activity, which may have some.
const GROUND_FIELDS: &[FieldTexts] = &[("types", LISTS), ("tags", LISTS), ("resets", LISTS)];

// Each field's good and bad forms, behind a good record.
#[test]
fn each_field_has_its_form(rt: HostRuntime) {
    each_field_is_told(&rt, rt.alloc(), &TIMETABLE, FIELDS);
    each_field_is_told(&rt, rt.alloc(), &GROUND, GROUND_FIELDS);
}

// Twenty names and one more.
const MANY: &str = "a b c d e f g h i j k l m n o p q r s t u";

const PAIRS: &[Pair] = &[
    // Moments are of the calendar.
    (
        "start",
        "1970-01-01T00:00",
        "end",
        "1970-01-01T00:01",
        Ok(2),
    ),
    (
        "start",
        "2199-12-31T23:58",
        "end",
        "2199-12-31T23:59",
        Ok(2),
    ),
    (
        "start",
        "2000-02-29T09:00",
        "end",
        "2000-02-29T09:55",
        Ok(2),
    ),
    ("start", "", "end", "", Err((6, 3))),
    ("start", "2025-03-01", "end", "", Err((6, 3))),
    (
        "start",
        "2025-03-01 09:00",
        "end",
        "2025-03-01T09:55",
        Err((6, 3)),
    ),
    (
        "start",
        "2025-03-01t09:00",
        "end",
        "2025-03-01T09:55",
        Err((6, 3)),
    ),
    (
        "start",
        "2025-03-01T09:00Z",
        "end",
        "2025-03-01T09:55",
        Err((6, 3)),
    ),
    (
        "start",
        "2025-3-01T09:00",
        "end",
        "2025-03-01T09:55",
        Err((6, 3)),
    ),
    (
        "start",
        "2025-03-01T24:00",
        "end",
        "2025-03-02T01:00",
        Err((6, 3)),
    ),
    (
        "start",
        "2025-03-01T09:60",
        "end",
        "2025-03-01T10:10",
        Err((6, 3)),
    ),
    (
        "start",
        "2025-00-01T09:00",
        "end",
        "2025-03-01T09:55",
        Err((6, 3)),
    ),
    (
        "start",
        "2025-13-01T09:00",
        "end",
        "2025-03-01T09:55",
        Err((6, 3)),
    ),
    (
        "start",
        "2025-04-31T09:00",
        "end",
        "2025-05-01T09:55",
        Err((6, 3)),
    ),
    (
        "start",
        "2025-03-00T09:00",
        "end",
        "2025-03-01T09:55",
        Err((6, 3)),
    ),
    (
        "start",
        "2100-02-29T09:00",
        "end",
        "2100-03-01T09:00",
        Err((6, 3)),
    ),
    (
        "start",
        "1969-12-31T23:59",
        "end",
        "1970-01-01T00:01",
        Err((6, 3)),
    ),
    (
        "start",
        "2200-01-01T00:00",
        "end",
        "2200-01-01T00:01",
        Err((6, 3)),
    ),
    ("start", "2025-03-01T09:00", "end", "", Err((6, 3))),
    (
        "start",
        "2025-03-01T09:00",
        "end",
        "2025-03-01T24:00",
        Err((6, 3)),
    ),
    (
        "start",
        "2100-02-28T09:00",
        "end",
        "2100-02-29T09:00",
        Err((6, 3)),
    ),
    (
        "start",
        "2199-12-31T23:59",
        "end",
        "2200-01-01T00:00",
        Err((6, 3)),
    ),
    (
        "start",
        "2025-03-01T09:00",
        "end",
        "2025-03-01T08:59",
        Err((7, 3)),
    ),
    (
        "start",
        "2025-03-01T09:00",
        "end",
        "2025-03-01T09:00",
        Err((7, 3)),
    ),
    (
        "start",
        "2025-03-01T09:00",
        "end",
        "2025-03-01T09:01",
        Ok(2),
    ),
    (
        "start",
        "2025-03-01T09:00",
        "end",
        "2025-03-03T09:00",
        Ok(2),
    ),
    (
        "start",
        "2025-03-01T09:00",
        "end",
        "2025-03-03T09:01",
        Err((7, 3)),
    ),
    // In flight nothing is reset.
    ("to", "ARN", "resets", "", Ok(2)),
    ("to", "OSL", "resets", "", Ok(2)),
    ("to", "ARN", "resets", "hours", Err((16, 3))),
    ("to", "OSL", "resets", "hours", Err((16, 3))),
    // Of two faults in one record the one further left counts, and a fault of the whole record comes last.
    ("id", "", "kind", "train", Err((5, 3))),
    ("kind", "train", "from", "-", Err((8, 3))),
    ("kind", "train", "start", "noon", Err((8, 3))),
    ("from", "-", "start", "noon", Err((5, 3))),
    ("to", "-", "start", "noon", Err((5, 3))),
    ("start", "noon", "end", "2025-03-01T08:00", Err((6, 3))),
    ("start", "noon", "types", "-", Err((6, 3))),
    ("end", "noon", "types", "-", Err((6, 3))),
    ("end", "2025-03-01T08:00", "types", "-", Err((7, 3))),
    ("types", MANY, "tags", "-", Err((10, 3))),
    ("types", "-", "tags", MANY, Err((5, 3))),
    ("tags", MANY, "tail", "-", Err((10, 3))),
    ("tail", "-", "resets", MANY, Err((5, 3))),
    ("kind", "ground", "resets", MANY, Err((10, 3))),
    ("kind", "ground", "resets", "-", Err((5, 3))),
    ("kind", "ground", "tags", MANY, Err((10, 3))),
];

// On the ground an aircraft stays where it is.
const GROUND_PAIRS: &[Pair] = &[
    ("to", "OSL", "resets", "", Ok(2)),
    ("to", "OSL", "resets", "hours cycles", Ok(2)),
    ("to", "ARN", "resets", "", Err((16, 3))),
    ("to", "osl", "resets", "hours", Err((16, 3))),
];

#[test]
fn records_are_judged_as_a_whole(rt: HostRuntime) {
    each_pair_is_told(&rt, rt.alloc(), &TIMETABLE, PAIRS);
    each_pair_is_told(&rt, rt.alloc(), &GROUND, GROUND_PAIRS);
}

const RECORDS: &[End] = &[
    // A record has ten fields, and that is looked at before them. Of two bad records the first counts.
    (
        1,
        "F2,flight,OSL,ARN,2025-03-01T09:00,2025-03-01T09:55,,,\n",
        Err((4, 3)),
    ),
    (
        1,
        "F2,flight,OSL,ARN,2025-03-01T09:00,2025-03-01T09:55,,,,,\n",
        Err((4, 3)),
    ),
    (1, "F 2,train\n", Err((4, 3))),
    (1, "F2\n", Err((4, 3))),
    (1, "F2,train,,,,,,,,\nF 3,,,,,,,,,\n", Err((8, 3))),
    (1, "F2,train,,,,,,,,\nF3\n", Err((8, 3))),
    (1, "F2\nF 3,,,,,,,,,\n", Err((4, 3))),
    (
        1,
        "F2,flight,OSL,ARN,2025-03-01T09:00,2025-03-01T09:55,,,,\nF 3,,,,,,,,,\nF4\n",
        Err((5, 4)),
    ),
    // The record past the limit is refused for its number of fields, and then for being there, whatever its fields say.
    (4000, "", Ok(4000)),
    (4000, "\n\r\n", Ok(4000)),
    (4000, OUT, Err((10, 4002))),
    (4000, "F 1,train,,,,,,,,\n", Err((10, 4002))),
    (4000, "F 1,train\n", Err((4, 4002))),
    (4000, "\n\nF 1,train,,,,,,,,\nF2\n", Err((10, 4002))),
];

// A whole table, behind nothing.
const TABLE: Form = Form {
    header: "",
    ..TIMETABLE
};

const TABLES: &[End] = &[
    (0, "", Err((3, 1))),
    (0, "\n\r\n\r", Err((3, 1))),
    (0, "\u{feff}", Err((3, 1))),
    (0, "id,kind,from,to,start,end,types,tags,tail,resets", Ok(0)),
    (
        0,
        "id,kind,from,to,start,end,types,tags,tail,resets\n",
        Ok(0),
    ),
    (
        0,
        "id,kind,from,to,start,end,types,tags,tail\n",
        Err((3, 1)),
    ),
    (
        0,
        "id,kind,from,to,start,end,types,tags,tail,resets,\n",
        Err((3, 1)),
    ),
    (
        0,
        "id,kind,from,to,start,end,types,tags,tail,reset\n",
        Err((3, 1)),
    ),
    (
        0,
        "id,kind,to,from,start,end,types,tags,tail,resets\n",
        Err((3, 1)),
    ),
    (
        0,
        "ID,kind,from,to,start,end,types,tags,tail,resets\n",
        Err((3, 1)),
    ),
    (
        0,
        "id, kind,from,to,start,end,types,tags,tail,resets\n",
        Err((3, 1)),
    ),
    (
        0,
        "F1,flight,ARN,OSL,2025-03-01T07:30,2025-03-01T08:25,,,,\n",
        Err((3, 1)),
    ),
    (
        0,
        "id,kind,from,to,start,end,types,tags,tail,resets\nF1\n",
        Err((4, 2)),
    ),
    // An empty line is no record. In quotes a comma, a quote and a line end are part of a field, and so of no name.
    (
        0,
        "\n\nid,kind,from,to,start,end,types,tags,tail,resets\n\n\r\n\nF 1,,,,,,,,,\n",
        Err((5, 2)),
    ),
    (
        0,
        "id,kind,from,to,start,end,types,tags,tail,resets\rF 1,,,,,,,,,\r",
        Err((5, 2)),
    ),
    (
        0,
        "id,kind,from,to,start,end,types,tags,tail,resets\r\n\"F,1\",,,,,,,,,\r\n",
        Err((5, 2)),
    ),
    (
        0,
        "id,kind,from,to,start,end,types,tags,tail,resets\n\"F\"\"1\",,,,,,,,,",
        Err((5, 2)),
    ),
    (
        0,
        "id,kind,from,to,start,end,types,tags,tail,resets\n\"F\n\n1\",,,,,,,,,",
        Err((5, 2)),
    ),
    (
        0,
        "id,kind,from,to,start,end,types,tags,tail,resets\n\"F1,,,,,,,,,\n",
        Err((4, 2)),
    ),
    (
        0,
        "\"id\nkind\",from,to,start,end,types,tags,tail,resets\n",
        Err((3, 1)),
    ),
];

#[test]
fn records_are_looked_at_one_by_one(rt: HostRuntime) {
    assert!(rt; ACTIVITY_LIMIT == 4000);
    each_end_is_told(&rt, rt.alloc(), &TIMETABLE, RECORDS);
    each_end_is_told(&rt, rt.alloc(), &TABLE, TABLES);
}
