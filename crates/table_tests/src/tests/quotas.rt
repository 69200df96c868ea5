//! Quotas as a planner types them: what their fields say, and each refusal at its place.

use book_maker::read_book;
use quota_rows::read_quotas;
use std::alloc::{AllocError, Global};
use std::test::Fail;
use tail_book::Book;
use tail_text::SIZE_LIMIT;

const TIMETABLE: &str = "id,kind,from,to,start,end,types,tags,tail,resets\n";

const FLEET: &str = "tail,type,at,ready,fixed,tags,avoid,carry\n";

const RULES: &str = "
[[airport]]
name = \"ARN\"
offset = 60
turn = 20
[[airport]]
name = \"OSL\"
offset = 60
turn = 20
";

// Two airports, where nothing flies.
fn two_airports(alloc: Global) -> Result<Book, Fail> {
    match read_book(
        alloc,
        TIMETABLE.as_bytes(),
        FLEET.as_bytes(),
        RULES.as_bytes(),
    ) {
        Ok(book) => Ok(book),
        Err(_) => Err(Fail::new("no book")),
    }
}

// Whether a text is read as this.
fn is_read(alloc: Global, book: &Book, text: &[u8], want: &str) -> Result<bool, AllocError> {
    let found = format!(in alloc; "{:?}", read_quotas(alloc, book, text))?;
    Ok(found.as_str() == want)
}

const NO_HEADER: &str = "Err(Refused { code: 3, place: 1 })";

const ONE: &str = "Ok([Quota { airport: 1, day: 20150, below: 31, most: 6 }])";

// Whole tables, and what is read of them.
const TABLES: &[(&[u8], &str)] = &[
    (b"airport,day,below,most\n", "Ok([])"),
    (b"airport,day,below,most", "Ok([])"),
    (b"airport,day,below,most\nOSL,2025-03-03,31,6\n", ONE),
    (b"airport,day,below,most\r\nOSL,2025-03-03,31,6\r\n", ONE),
    (b"\n\nairport,day,below,most\n\nOSL,2025-03-03,31,6", ONE),
    (
        b"\xef\xbb\xbfairport,day,below,most\nOSL,2025-03-03,31,6\n",
        ONE,
    ),
    (
        b"airport,\"day\",below,most\n\"OSL\",2025-03-03,31,\"6\"\n",
        ONE,
    ),
    (
        b"airport,day,below,most\nOSL,1970-01-01,1,0\nARN,2199-12-31,10000000,4000\nOSL,1970-01-01,1,0\n",
        "Ok([Quota { airport: 1, day: 0, below: 1, most: 0 }, \
         Quota { airport: 0, day: 84005, below: 10000000, most: 4000 }, \
         Quota { airport: 1, day: 0, below: 1, most: 0 }])",
    ),
    (
        b"airport,day,below,most\nARN,1970-01-02,1440,1\nARN,2024-02-29,2,3\nARN,2024-03-01,2,3\n",
        "Ok([Quota { airport: 0, day: 1, below: 1440, most: 1 }, \
         Quota { airport: 0, day: 19782, below: 2, most: 3 }, \
         Quota { airport: 0, day: 19783, below: 2, most: 3 }])",
    ),
    (b"", NO_HEADER),
    (b"\n\n", NO_HEADER),
    (b"airport,day,below\n", NO_HEADER),
    (b"airport,day,below,most,\n", NO_HEADER),
    (b"Airport,day,below,most\n", NO_HEADER),
    (b"airport,day,most,below\n", NO_HEADER),
    (b" airport,day,below,most\n", NO_HEADER),
    (b"OSL,2025-03-03,31,6\n", NO_HEADER),
    (b"\xff", "Err(Refused { code: 2, place: 0 })"),
    (
        b"airport,day,below,most\nOSL\n\xc3",
        "Err(Refused { code: 2, place: 0 })",
    ),
    (
        b"airport,day,below,most\nXXX,2025-03-03,31,6\nOSL,2025-03-03,31\n",
        "Err(Refused { code: 12, place: 2 })",
    ),
];

#[test]
fn tables_of_quotas(rt: HostRuntime) -> Result<(), Fail> {
    let book = two_airports(rt.alloc())?;
    for &(text, want) in TABLES {
        assert!(rt;
            is_read(rt.alloc(), &book, text, want).unwrap_or(false),
            "{want}"
        );
    }
    Ok(())
}

// Records behind a good one, and the code of their refusal. Fields are looked at from left to right, after their number.
const RECORDS: &[(&str, u8)] = &[
    ("OSL,2025-03-03,31", 4),
    ("OSL,2025-03-03,31,6,", 4),
    ("X X,2025-02-30", 4),
    (",2025-03-03,31,6", 5),
    ("O.L,2025-03-03,31,6", 5),
    ("-OSL,2025-03-03,31,6", 5),
    ("OSL ,2025-03-03,31,6", 5),
    ("ABCDEFGHIJKLMNOPQ,2025-03-03,31,6", 5),
    ("X X,2025-02-30,0,4001", 5),
    ("XXX,2025-03-03,31,6", 12),
    ("osl,2025-03-03,31,6", 12),
    ("OS,2025-03-03,31,6", 12),
    ("OSLO,2025-03-03,31,6", 12),
    ("ABCDEFGHIJKLMNOP,2025-03-03,31,6", 12),
    ("XXX,2025-02-30,0,4001", 12),
    ("OSL,,31,6", 6),
    ("OSL,2025-02-30,31,6", 6),
    ("OSL,2025-02-29,31,6", 6),
    ("OSL,2100-02-29,31,6", 6),
    ("OSL,2025-13-01,31,6", 6),
    ("OSL,2025-03-00,31,6", 6),
    ("OSL,1969-12-31,31,6", 6),
    ("OSL,2200-01-01,31,6", 6),
    ("OSL,2025-3-03,31,6", 6),
    ("OSL,2025-03-3,31,6", 6),
    ("OSL,20250303,31,6", 6),
    ("OSL,2025/03/03,31,6", 6),
    ("OSL,2025-03-03 ,31,6", 6),
    ("OSL,2025-03-03T00:00,31,6", 6),
    ("OSL,2025-02-30,0,4001", 6),
    ("OSL,2025-03-03,,6", 9),
    ("OSL,2025-03-03,0,6", 9),
    ("OSL,2025-03-03,10000001,6", 9),
    ("OSL,2025-03-03,18446744073709551617,6", 9),
    ("OSL,2025-03-03,031,6", 9),
    ("OSL,2025-03-03,-31,6", 9),
    ("OSL,2025-03-03,31.0,6", 9),
    ("OSL,2025-03-03,31,", 9),
    ("OSL,2025-03-03,31,4001", 9),
    ("OSL,2025-03-03,31,00", 9),
    ("OSL,2025-03-03,31,-0", 9),
    ("OSL,2025-03-03,31,1 000", 9),
];

// Whether a record behind a good one is refused with this code.
fn is_refused(alloc: Global, book: &Book, record: &str, code: u8) -> Result<bool, AllocError> {
    let text = format!(in alloc; "airport,day,below,most\nOSL,2025-03-03,31,6\n{record}\n")?;
    let want = format!(in alloc; "Err(Refused {{ code: {code}, place: 3 }})")?;
    is_read(alloc, book, text.as_bytes(), &want)
}

#[test]
fn records_of_quotas(rt: HostRuntime) -> Result<(), Fail> {
    let book = two_airports(rt.alloc())?;
    for &(record, code) in RECORDS {
        assert!(rt;
            is_refused(rt.alloc(), &book, record, code).unwrap_or(false),
            "{record}"
        );
    }
    Ok(())
}

// So many quotas, and then this.
fn many(alloc: Global, count: usize, last: &str) -> Result<String, AllocError> {
    let quotas = "OSL,2025-03-03,31,6\n".repeat(alloc, count)?;
    format!(in alloc; "airport,day,below,most\n{quotas}{last}")
}

// How many quotas are read of so many and one text more, or the code and the place of their refusal.
fn told(alloc: Global, book: &Book, count: usize, last: &str) -> Result<String, AllocError> {
    let text = many(alloc, count, last)?;
    match read_quotas(alloc, book, text.as_bytes()) {
        Ok(quotas) => format!(in alloc; "{}", quotas.len()),
        Err(stop) => format!(in alloc; "{stop:?}"),
    }
}

// Fifty are allowed, and of one too many the fields are not looked at, but their number is.
#[test]
fn at_most_50_quotas(rt: HostRuntime) -> Result<(), Fail> {
    let book = two_airports(rt.alloc())?;
    for &(count, last, want) in &[
        (0, "", "0"),
        (50, "", "50"),
        (51, "", "Refused { code: 10, place: 52 }"),
        (50, "XXX,x,x,x\n", "Refused { code: 10, place: 52 }"),
        (50, "XXX,x,x\n", "Refused { code: 4, place: 52 }"),
        (49, "XXX,x,x,x\n", "Refused { code: 12, place: 51 }"),
    ] {
        let found = told(rt.alloc(), &book, count, last)?;
        assert!(rt; found.as_str() == want, "{count} {last}: {found}");
    }
    Ok(())
}

// The size is looked at first, and then whether it is a text.
#[test]
fn quotas_have_at_most_16_mebibytes(rt: HostRuntime) -> Result<(), Fail> {
    let book = two_airports(rt.alloc())?;
    let large = vec![in rt.alloc(); 255; SIZE_LIMIT + 1]?;
    let (too_big, no_text) = (
        "Err(Refused { code: 1, place: 0 })",
        "Err(Refused { code: 2, place: 0 })",
    );
    assert!(rt; is_read(rt.alloc(), &book, &large, too_big)?);
    assert!(rt; is_read(rt.alloc(), &book, &large[1..], no_text)?);
    Ok(())
}
