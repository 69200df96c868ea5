//! Fleets as a planner types them: each refusal at its place.

use crate::tests::record_texts::{
    End, FieldTexts, Form, Pair, Told, each_end_is_told, each_field_is_told, each_pair_is_told,
};
use tail_book::limits::TAIL_LIMIT;
use tail_text::Table;

const GOOD: &str = "D-1,A320,FRA,2026-03-01T05:00,0,,,\n";

const FLEET: Form = Form {
    table: Table::Fleet,
    header: "tail,type,at,ready,fixed,tags,avoid,carry\n",
    record: GOOD,
    usual: &[
        ("tail", "D-2"),
        ("type", "A320"),
        ("at", "FRA"),
        ("ready", "2026-03-01T05:00"),
        ("fixed", "0"),
        ("tags", ""),
        ("avoid", ""),
        ("carry", ""),
    ],
};

// Single spaces, and twenty names.
const LISTS: &[(&str, Told)] = &[
    ("etops", Ok(2)),
    ("etops wifi etops", Ok(2)),
    ("a b c d e f g h i j k l m n o p q r s t", Ok(2)),
    (" etops", Err((5, 3))),
    ("etops ", Err((5, 3))),
    ("etops  wifi", Err((5, 3))),
    ("etops wi.fi", Err((5, 3))),
    ("etops ABCDEFGHIJKLMNOPQ", Err((5, 3))),
    ("a b c d e f g h i j k l m n o p q r s t u", Err((10, 3))),
    ("a b c d e f g h i j k l m n o p q r s t -", Err((5, 3))),
];

// An item is cut at its first sign, and only good items are counted. That a counter is named twice, or is none of the
// rules', is not known here.
const CARRIED: &[(&str, Told)] = &[
    ("fh=0", Ok(2)),
    ("fh=10000000", Ok(2)),
    ("fh=1500 fc=7 fh=2", Ok(2)),
    (
        "a=1 b=1 c=1 d=1 e=1 f=1 g=1 h=1 i=1 j=1 k=1 l=1 m=1 n=1 o=1 p=1 q=1 r=1 s=1 t=1",
        Ok(2),
    ),
    (" ", Err((5, 3))),
    ("fh", Err((5, 3))),
    ("=", Err((5, 3))),
    ("=1", Err((5, 3))),
    ("f.h=1", Err((5, 3))),
    ("-fh=x", Err((5, 3))),
    ("ABCDEFGHIJKLMNOPQ=1", Err((5, 3))),
    (" fh=1", Err((5, 3))),
    ("fh=1 ", Err((5, 3))),
    ("fh=1  fc=1", Err((5, 3))),
    ("fh =1", Err((5, 3))),
    ("fh=", Err((9, 3))),
    ("fh= 1", Err((9, 3))),
    ("fh=x", Err((9, 3))),
    ("fh=007", Err((9, 3))),
    ("fh=-1", Err((9, 3))),
    ("fh=1=2", Err((9, 3))),
    ("fh==1", Err((9, 3))),
    ("fh=10000001", Err((9, 3))),
    ("fh=x fc", Err((9, 3))),
    ("fh fc=x", Err((5, 3))),
    (
        "a=1 b=1 c=1 d=1 e=1 f=1 g=1 h=1 i=1 j=1 k=1 l=1 m=1 n=1 o=1 p=1 q=1 r=1 s=1 t=1 u=1",
        Err((10, 3)),
    ),
    (
        "a=1 b=1 c=1 d=1 e=1 f=1 g=1 h=1 i=1 j=1 k=1 l=1 m=1 n=1 o=1 p=1 q=1 r=1 s=1 t=1 u=x",
        Err((9, 3)),
    ),
    (
        "a=1 b=1 c=1 d=1 e=1 f=1 g=1 h=1 i=1 j=1 k=1 l=1 m=1 n=1 o=1 p=1 q=1 r=1 s=1 t=1 u=1 v",
        Err((5, 3)),
    ),
];

const FIELDS: &[FieldTexts] = &[
    (
        "tail",
        &[
            ("ABCDEFGHIJKLMNOP", Ok(2)),
            ("007", Ok(2)),
            ("", Err((5, 3))),
            (" ", Err((5, 3))),
            ("ABCDEFGHIJKLMNOPQ", Err((5, 3))),
            ("D.2", Err((5, 3))),
            ("-D2", Err((5, 3))),
        ],
    ),
    (
        "type",
        &[
            ("", Err((5, 3))),
            ("A320/1", Err((5, 3))),
            ("A320A320A320A320A", Err((5, 3))),
        ],
    ),
    (
        "at",
        &[
            ("", Err((5, 3))),
            ("-FRA", Err((5, 3))),
            ("FRAFRAFRAFRAFRAFR", Err((5, 3))),
        ],
    ),
    (
        "ready",
        &[
            ("1970-01-01T00:00", Ok(2)),
            ("2199-12-31T23:59", Ok(2)),
            ("2028-02-29T05:00", Ok(2)),
            ("", Err((6, 3))),
            ("2026-03-01", Err((6, 3))),
            ("2026-03-01T24:00", Err((6, 3))),
            ("2026-02-29T05:00", Err((6, 3))),
            ("2100-02-29T05:00", Err((6, 3))),
            ("1969-12-31T23:59", Err((6, 3))),
            ("2200-01-01T00:00", Err((6, 3))),
        ],
    ),
    (
        "fixed",
        &[
            ("100000", Ok(2)),
            ("100001", Err((9, 3))),
            ("18446744073709551616", Err((9, 3))),
            ("", Err((9, 3))),
            ("007", Err((9, 3))),
            ("00", Err((9, 3))),
            ("-1", Err((9, 3))),
            ("+1", Err((9, 3))),
            ("1.0", Err((9, 3))),
            ("1 000", Err((9, 3))),
        ],
    ),
    ("tags", LISTS),
    ("avoid", LISTS),
    ("carry", CARRIED),
];

// Each field's good and bad forms, behind a good record.
#[test]
fn each_field_has_its_form(rt: HostRuntime) {
    each_field_is_told(&rt, rt.alloc(), &FLEET, FIELDS);
}

// Twenty names and one more.
const MANY: &str = "a b c d e f g h i j k l m n o p q r s t u";

const PAIRS: &[Pair] = &[
    ("tail", "-", "ready", "noon", Err((5, 3))),
    ("type", "-", "ready", "noon", Err((5, 3))),
    ("at", "-", "ready", "noon", Err((5, 3))),
    ("ready", "noon", "fixed", "x", Err((6, 3))),
    ("ready", "noon", "tags", "-", Err((6, 3))),
    ("fixed", "x", "tags", "-", Err((9, 3))),
    ("tags", MANY, "avoid", "-", Err((10, 3))),
    ("tags", "-", "avoid", MANY, Err((5, 3))),
    ("avoid", MANY, "carry", "fh", Err((10, 3))),
    ("avoid", "-", "carry", "fh=x", Err((5, 3))),
];

// Of two faults in one record the one further left counts.
#[test]
fn fields_are_looked_at_from_left_to_right(rt: HostRuntime) {
    each_pair_is_told(&rt, rt.alloc(), &FLEET, PAIRS);
}

const RECORDS: &[End] = &[
    // A record has eight fields, and that is looked at before them. Of two bad records the first counts. An empty line is
    // no record, and in quotes a comma, a quote and a line end are part of a field.
    (1, "D-2,A320,FRA,2026-03-01T05:00,0,,", Err((4, 3))),
    (1, "D-2,A320,FRA,2026-03-01T05:00,0,,,,", Err((4, 3))),
    (1, "D 2\n", Err((4, 3))),
    (1, "D 2,,,,,,,\nD-3\n", Err((5, 3))),
    (1, "D-3\nD 2,,,,,,,\n", Err((4, 3))),
    (
        1,
        "D-2,A320,FRA,2026-03-01T05:00,0,,,\nD-3,A320,FRA,noon,0,,,\nD-4\n",
        Err((6, 4)),
    ),
    (1, "D-2,A320,FRA,2026-03-01T05:00,0,,,", Ok(2)),
    (
        1,
        "\"D-2\",A320,FRA,\"2026-03-01T05:00\",0,\"\",,\"\"\r\n\r\n",
        Ok(2),
    ),
    (1, "\n\n\r\nD-2,A320,FRA,noon,0,,,\n", Err((6, 3))),
    (
        1,
        "D-2,A320,FRA,2026-03-01T05:00,0,,,\rD 3,,,,,,,\r",
        Err((5, 4)),
    ),
    (
        1,
        "D-2,A320,FRA,2026-03-01T05:00,0,,,\r\n\r\nD 3,,,,,,,\r\n",
        Err((5, 4)),
    ),
    (1, "D-2,A320,FRA,2026-03-01T05:00,\"1,0\",,,\n", Err((9, 3))),
    (
        1,
        "\"D\"\"2\",A320,FRA,2026-03-01T05:00,0,,,\n",
        Err((5, 3)),
    ),
    (1, "D-2,A320,\"FR\nA\",2026-03-01T05:00,0,,,\n", Err((5, 3))),
    // The record past the limit is refused for its number of fields, and then for being there, whatever its fields say.
    (200, "", Ok(200)),
    (200, "\n\r\n", Ok(200)),
    (200, GOOD, Err((10, 202))),
    (200, "-,,,,,,,\n", Err((10, 202))),
    (200, "-\n", Err((4, 202))),
];

// A whole table, behind nothing.
const TABLE: Form = Form {
    header: "",
    ..FLEET
};

const TABLES: &[End] = &[
    (0, "", Err((3, 1))),
    (0, "\n", Err((3, 1))),
    (0, "tail,type,at,ready,fixed,tags,avoid,carry", Ok(0)),
    (
        0,
        "\u{feff}tail,type,at,ready,fixed,tags,avoid,carry\n",
        Ok(0),
    ),
    (0, "tail,type,at,ready,fixed,tags,avoid\n", Err((3, 1))),
    (
        0,
        "tail,type,at,ready,fixed,tags,avoid,carry,\n",
        Err((3, 1)),
    ),
    (
        0,
        "tail,type,at,ready,fixed,tags,carry,avoid\n",
        Err((3, 1)),
    ),
    (
        0,
        "Tail,type,at,ready,fixed,tags,avoid,carry\n",
        Err((3, 1)),
    ),
];

#[test]
fn records_are_looked_at_one_by_one(rt: HostRuntime) {
    assert!(rt; TAIL_LIMIT == 200);
    each_end_is_told(&rt, rt.alloc(), &FLEET, RECORDS);
    each_end_is_told(&rt, rt.alloc(), &TABLE, TABLES);
}
