//! Certificates that are damaged, or made to do harm: each is answered at the first line that fails.

use super::certificates::{assert_is_judged_so, same_time};
use super::fixtures::{by_certificate, ends_so_over};
use small_texts::{
    CHEAP_AND_DEAR, DEAR_TYPE, FLEET, RULES, TIMETABLE, file_of, table_files, text_of,
};
use std::alloc::Global;
use std::process::Abort;
use std::test::Fail;
use tail_outside::MemFile;

// A certificate of the two flights at the same time, and what is printed of it.
type Text = (&'static str, &'static str);

const DAMAGED: &[Text] = &[
    // of the first line
    ("", "no 1 Unfinished\n"),
    (
        "aaaaaaaaaaaaaaaaaaaaaaaaaaaaaaaaaaaaaaaaaaaaaaaaaaaaaaaaaaaaaaaaaaa\
aaaaaaaaaaaaaaaaaaaaaaaaaaaaaaaaaaaaaaaaaaaaaaaaaaaaaaaaaaaaaaaaaaa\
aaaaaaaaaaaaaaaaaaaaaaaaaaaaaaaaaaaaaaaaaaaaaaaaaaaaaaaaaaaaaaaaaaa",
        "no 1 BadLine\n",
    ),
    ("tailcert 1 2 2 0\r\n", "no 1 BadLine\n"),
    ("tailcert 1 2 3 0\n", "no 1 OutOfPlace\n"),
    (
        "tailcert 1 4294967295 4294967295 4294967295\n",
        "no 1 OutOfPlace\n",
    ),
    // of steps
    ("tailcert 1 2 2 0\nbar 2 0\n", "no 2 OutOfPlace\n"),
    ("tailcert 1 2 2 0\nbar 4294967296 0\n", "no 2 BadLine\n"),
    ("tailcert 1 2 2 0\nmust 0 0\n", "no 2 NotFollowing\n"),
    // of splits and leaves
    ("tailcert 1 2 2 0\nhole 0\n", "no 2 NotAlive\n"),
    (
        "tailcert 1 2 2 0\nsplit fly 0 0\nsplit fly 0 0\n",
        "no 3 NotAlive\n",
    ),
    (
        "tailcert 1 2 2 0\nstuck 0\nclaim infeasible\n",
        "no 2 OpenCover\n",
    ),
    // of duals
    (
        "tailcert 1 2 2 0\nbound\ndual 1 5\ndual 0 5\n",
        "no 4 OutOfPlace\n",
    ),
    ("tailcert 1 2 2 0\nbound\ndual 0 0\n", "no 3 BadLine\n"),
    // of covers and labels
    (
        "tailcert 1 2 2 0\nlabel 0 2305843009213693953\n",
        "no 2 BadLine\n",
    ),
    (
        "tailcert 1 2 2 0\nbound\ncover 0 0\nlabel 0 60000\ncover 1 0\n",
        "no 3 OpenCover\n",
    ),
    (
        "tailcert 1 2 2 0\nbound\ncover 0 0\nlabel 1 120000\nlabel 0 60000\n",
        "no 5 OutOfPlace\n",
    ),
    (
        "tailcert 1 2 2 0\nbound\ncover 0 0\nlabel 0 60000 5\n",
        "no 4 OutOfPlace\n",
    ),
    // a sum below 0 bounds as 0 does
    (
        "tailcert 1 2 2 0\nbound\ncover 0 -2305843009213693952\nlabel 0 60000\nlabel 1 120000\n\
cover 1 0\nlabel 0 120000\nlabel 1 240000\nclaim limit 0 -\n",
        "yes limit 0 -\n",
    ),
];

fn each_is_judged_so(rt: &impl Abort, alloc: Global, rows: &[Text]) -> Result<(), Fail> {
    for &(text, printed) in rows {
        assert_is_judged_so(rt, alloc, same_time(&[]), (&[text], printed))?;
    }
    Ok(())
}

#[test]
fn damaged_certificates_fail_at_their_line(rt: HostRuntime) -> Result<(), Fail> {
    each_is_judged_so(&rt, rt.alloc(), DAMAGED)
}

// The records of so many flights at the same time.
fn flights_at_once(alloc: Global, count: u32) -> Result<String, Fail> {
    let mut records = String::new(alloc);
    for number in 0..count {
        records.push_str(&format!(in alloc; "F{number}")?)?;
        records.push_str(",flight,ARN,OSL,2025-03-03T06:00,2025-03-03T07:00,,,,\n")?;
    }
    Ok(records)
}

// A certificate of them that splits on each, and has none of the trees.
fn splits_alone(alloc: Global, count: u32) -> Result<String, Fail> {
    let mut text = format!(in alloc; "tailcert 1 {count} 2 0\n")?;
    for number in 0..count {
        text.push_str(&format!(in alloc; "split fly 0 {number}\n")?)?;
    }
    Ok(text)
}

// The tables of so many flights and two aircraft, and that certificate.
fn files_of_splits(alloc: Global, count: u32) -> Result<Vec<MemFile>, Fail> {
    let records = flights_at_once(alloc, count)?;
    let splits = splits_alone(alloc, count)?;
    let mut files = table_files(
        alloc,
        &[TIMETABLE, records.as_str()],
        &[FLEET, CHEAP_AND_DEAR],
        &[RULES, DEAR_TYPE],
    )?;
    let splits = text_of(alloc, &[splits.as_str()])?;
    files.push(file_of(alloc, "p", splits)?)?;
    Ok(files)
}

// As many flights as a book may have, and for each a split in the first branch of the one before.
#[test]
fn splits_may_be_many(rt: HostRuntime) -> Result<(), Fail> {
    let files = files_of_splits(rt.alloc(), 4_000)?;
    let case = by_certificate(same_time(&[]), 1, "no 4002 Unfinished\n");
    assert!(rt; ends_so_over(rt.alloc(), &case, files)?);
    Ok(())
}
